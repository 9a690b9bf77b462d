//! Numbered pairs of a table, a block at a time: unpacked first, and then put behind their points.
//!
//! Of a large table the numbers of the table below are far apart, and each read of one waits for memory. The second loop does little
//! else, and is so short that the processor has the reads of several pairs under way at once; in one loop with the unpacking it had
//! one.
ghost use Rattle.std.specs.Prelude.{◌≡◌, ◌≢◌, ◌++◌, ◌+◌, ◌-◌, ◌*◌, ◌/◌, ◌^◌, ◌<◌, ◌≤◌, ℕ, Bool, List, true, length, map, slice_get, slice_index, IfErr, IfOk, IsErrOf, OnOk};
ghost use Rattle.pos_lists.specs.TableLists.{TableLists, entries, pairs_of};
ghost use Rattle.pos_lists.specs.Numbering.{AreGathered};
ghost use Rattle.pos_runs.specs.Runs.{SameTables, TablesStand, pages_at};
ghost use Rattle.pos_laws.specs.Renumbering.{point_at};
ghost use Rattle.pos_relocate.specs.Blocks.{AreApartOver, AreInside, AreOf, CanUnpack, IsPointFault, pointed_of, pointed_over};
ghost use Rattle.pos_relocate.specs.Choosing.{Chooses};
ghost use Rattle.pos_relocate.specs.Gathering.{IsOutsideBelow, IsPointing};
ghost use Rattle.pos_relocate.specs.Numbers.{numbers_of};
ghost use Rattle.pos_relocate.specs.Passes.{AreBelow, AreListed};

use crate::chosen::Chosen;
use crate::numbers::Numbers;
use crate::pointed::Pointed;
use crate::push;
use pos_edge::{Disk, ScratchDamage, WorkFault};
use pos_points::to_point;
use pos_runs::Tables;

/// How many places a block has at most.
pub(crate) const BLOCK: u64 = 256;

/// A numbered pair of a table: its place there, and its two places in the table below.
#[derive(Clone, Copy)]
pub(crate) struct Unpacked {
    old: u64,
    left: u64,
    right: u64,
}

/// Unpacks the numbered pairs of table t at the places from one to another, behind those that are there.
///
/// `below` has a number for each place of the table below. `Scratch` where a place of a pair is not in the table below.
pub(crate) fn unpack<D: Disk, const K: u32>(
    tables: &mut Tables<K>,
    t: u8,
    chosen: &mut Chosen,
    below: &Numbers,
    from: u64,
    to: u64,
    pairs: &mut Vec<Unpacked>,
    disk: &mut D,
) -> Result<(), WorkFault>
    requires can { CanUnpack K t (numbers_of below.now) tables.old (D.view disk.old) }
    requires order { from ≤ to }
    requires there { to ≤ (pages_at tables.old (t - 1)).count }
    requires chooses { (p : ℕ → Bool) × Chooses chosen.old (pages_at tables.old (t - 1)).count p (D.view disk.old) }
    requires inside { AreInside (length (numbers_of below.now)) pairs.old.items }
    ensures reading { IsPointing result (D.view disk.old) (D.view disk.new) }
    ensures tables { OnOk result (SameTables K tables.old tables.new (D.view disk.old) (D.view disk.new)) }
    ensures chosen { OnOk result ((n : ℕ) (p : ℕ → Bool) → Chooses chosen.old n p (D.view disk.old)
        → Chooses chosen.new n p (D.view disk.new)) }
    ensures inside { OnOk result (AreInside (length (numbers_of below.now)) pairs.new.items) }
    ensures listed { OnOk result ((xs : List (ℕ × ℕ)) → AreListed from (2 ^ (2 * K + 2)) (xs ++ pointed_of (numbers_of below.now) pairs.old.items)
        → AreListed to (2 ^ (2 * K + 2)) (xs ++ pointed_of (numbers_of below.now) pairs.new.items)) }
    ensures found { OnOk result ((ts : TableLists) (p : ℕ → Bool) → TablesStand K tables.old ts (D.view disk.old)
        → Chooses chosen.old (pages_at tables.old (t - 1)).count p (D.view disk.old) → (D.view disk.old).tells ≡ true
        → AreOf ts t p pairs.old.items → AreOf ts t p pairs.new.items) }
    ensures gathered { OnOk result ((ts : TableLists) (p : ℕ → Bool) (xs : List (ℕ × ℕ)) → TablesStand K tables.old ts (D.view disk.old)
        → Chooses chosen.old (pages_at tables.old (t - 1)).count p (D.view disk.old) → (D.view disk.old).tells ≡ true
        → AreGathered p (point_at ts (t - 2) (slice_index (numbers_of below.now))) from (xs ++ pointed_of (numbers_of below.now) pairs.old.items)
        → AreGathered p (point_at ts (t - 2) (slice_index (numbers_of below.now))) to (xs ++ pointed_of (numbers_of below.now) pairs.new.items)) }
    ensures damage { (damage : _) → IsErrOf result (WorkFault.Scratch damage)
        → (ts : TableLists) (p : ℕ → Bool) → TablesStand K tables.old ts (D.view disk.old)
        → Chooses chosen.old (pages_at tables.old (t - 1)).count p (D.view disk.old) → (D.view disk.old).tells ≡ true
        → (i : ℕ) × (i < entries ts (t - 1)) × (p i ≡ true)
        × IsOutsideBelow ts (t - 2) i (length (numbers_of below.now)) (pages_at tables.old (t - 1)).number damage }
{
    for i in from..to {
        unpack_place(tables, t, chosen, below, i, pairs, disk)?;
    }
    Ok(())
}

// Puts pair i of table t behind the others, if it is numbered.
#[inline(always)]
fn unpack_place<D: Disk, const K: u32>(
    tables: &mut Tables<K>,
    t: u8,
    chosen: &mut Chosen,
    below: &Numbers,
    i: u64,
    pairs: &mut Vec<Unpacked>,
    disk: &mut D,
) -> Result<(), WorkFault>
    requires can { CanUnpack K t (numbers_of below.now) tables.old (D.view disk.old) }
    requires there { i < (pages_at tables.old (t - 1)).count }
    requires chooses { (p : ℕ → Bool) × Chooses chosen.old (pages_at tables.old (t - 1)).count p (D.view disk.old) }
    requires inside { AreInside (length (numbers_of below.now)) pairs.old.items }
    ensures reading { IsPointing result (D.view disk.old) (D.view disk.new) }
    ensures tables { OnOk result (SameTables K tables.old tables.new (D.view disk.old) (D.view disk.new)) }
    ensures chosen { OnOk result ((n : ℕ) (p : ℕ → Bool) → Chooses chosen.old n p (D.view disk.old)
        → Chooses chosen.new n p (D.view disk.new)) }
    ensures inside { OnOk result (AreInside (length (numbers_of below.now)) pairs.new.items) }
    ensures listed { OnOk result ((xs : List (ℕ × ℕ)) → AreListed i (2 ^ (2 * K + 2)) (xs ++ pointed_of (numbers_of below.now) pairs.old.items)
        → AreListed (i + 1) (2 ^ (2 * K + 2)) (xs ++ pointed_of (numbers_of below.now) pairs.new.items)) }
    ensures found { OnOk result ((ts : TableLists) (p : ℕ → Bool) → TablesStand K tables.old ts (D.view disk.old)
        → Chooses chosen.old (pages_at tables.old (t - 1)).count p (D.view disk.old) → (D.view disk.old).tells ≡ true
        → AreOf ts t p pairs.old.items → AreOf ts t p pairs.new.items) }
    ensures gathered { OnOk result ((ts : TableLists) (p : ℕ → Bool) (xs : List (ℕ × ℕ)) → TablesStand K tables.old ts (D.view disk.old)
        → Chooses chosen.old (pages_at tables.old (t - 1)).count p (D.view disk.old) → (D.view disk.old).tells ≡ true
        → AreGathered p (point_at ts (t - 2) (slice_index (numbers_of below.now))) i (xs ++ pointed_of (numbers_of below.now) pairs.old.items)
        → AreGathered p (point_at ts (t - 2) (slice_index (numbers_of below.now))) (i + 1) (xs ++ pointed_of (numbers_of below.now) pairs.new.items)) }
    ensures damage { (damage : _) → IsErrOf result (WorkFault.Scratch damage)
        → (ts : TableLists) (p : ℕ → Bool) → TablesStand K tables.old ts (D.view disk.old)
        → Chooses chosen.old (pages_at tables.old (t - 1)).count p (D.view disk.old) → (D.view disk.old).tells ≡ true
        → (p i ≡ true) × IsOutsideBelow ts (t - 2) i (length (numbers_of below.now)) (pages_at tables.old (t - 1)).number damage }
{
    let is_chosen = chosen.has(disk, i)?;
    if !is_chosen {
        return Ok(());
    }
    let pair = unpacked_at(tables, t, below, i, disk)?;
    push(pairs, pair)?;
    Ok(())
}

// Pair i of table t.
#[inline(always)]
fn unpacked_at<D: Disk, const K: u32>(
    tables: &mut Tables<K>,
    t: u8,
    below: &Numbers,
    i: u64,
    disk: &mut D,
) -> Result<Unpacked, WorkFault>
    requires can { CanUnpack K t (numbers_of below.now) tables.old (D.view disk.old) }
    requires there { i < (pages_at tables.old (t - 1)).count }
    ensures reading { IsPointing result (D.view disk.old) (D.view disk.new) }
    ensures tables { OnOk result (SameTables K tables.old tables.new (D.view disk.old) (D.view disk.new)) }
    ensures place { IfOk result (λ pair. pair.old ≡ i) }
    ensures inside { IfOk result (λ pair. (pair.left < length (numbers_of below.now)) × (pair.right < length (numbers_of below.now))) }
    ensures pair { IfOk result (λ pair. (ts : TableLists) → TablesStand K tables.old ts (D.view disk.old)
        → (D.view disk.old).tells ≡ true → slice_get (pairs_of ts (t - 1)) i ≡ Some (pair.left, pair.right)) }
    ensures damage { (damage : _) → IsErrOf result (WorkFault.Scratch damage)
        → (ts : TableLists) → TablesStand K tables.old ts (D.view disk.old) → (D.view disk.old).tells ≡ true
        → IsOutsideBelow ts (t - 2) i (length (numbers_of below.now)) (pages_at tables.old (t - 1)).number damage }
{
    let (left, right) = tables.pair(disk, t, i)?;
    let count = below.len();
    if left >= count {
        return Err(WorkFault::Scratch(outside(tables.file(t), i, left, count)));
    }
    if right >= count {
        return Err(WorkFault::Scratch(outside(tables.file(t), i, right, count)));
    }
    Ok(Unpacked {
        old: i,
        left,
        right,
    })
}

/// Puts the pairs behind the entries, each with its point over the numbers of the table below.
///
/// The numbers are less than `limit`, and `file` is the number of the scratch file that they are of. `Scratch` where both places of a
/// pair have one number.
pub(crate) fn add_pointed<P: Pointed>(
    pairs: &[Unpacked],
    below: &Numbers,
    limit: u64,
    file: u32,
    entries: &mut Vec<P>,
) -> Result<(), WorkFault>
    requires numbers { AreBelow (length (numbers_of below.now)) limit (numbers_of below.now) }
    requires small { limit ≤ 2 ^ 51 }
    requires exact { limit * (limit - 1) / 2 ≤ P.bound }
    requires inside { AreInside (length (numbers_of below.now)) pairs.now }
    ensures ok { OnOk result (map P.pair entries.new.items ≡ map P.pair entries.old.items ++ pointed_of (numbers_of below.now) pairs.now) }
    ensures apart { OnOk result (AreApartOver (numbers_of below.now) pairs.now) }
    ensures fault { IfErr result (λ fault. IsPointFault limit file (numbers_of below.now) pairs.now fault) }
{
    for i in 0..pairs.len() {
        let entry = pointed(pairs[i], below, limit, file)?;
        push(entries, entry)?;
    }
    Ok(())
}

// A pair behind its point.
#[inline(always)]
fn pointed<P: Pointed>(
    pair: Unpacked,
    below: &Numbers,
    limit: u64,
    file: u32,
) -> Result<P, WorkFault>
    requires numbers { AreBelow (length (numbers_of below.now)) limit (numbers_of below.now) }
    requires small { limit ≤ 2 ^ 51 }
    requires exact { limit * (limit - 1) / 2 ≤ P.bound }
    requires left { pair.left < length (numbers_of below.now) }
    requires right { pair.right < length (numbers_of below.now) }
    ensures ok { IfOk result (λ entry. P.pair entry ≡ pointed_over (numbers_of below.now) pair) }
    ensures apart { OnOk result (slice_index (numbers_of below.now) pair.left ≢ slice_index (numbers_of below.now) pair.right) }
    ensures same { IfErr result (λ _. slice_index (numbers_of below.now) pair.left ≡ slice_index (numbers_of below.now) pair.right) }
    ensures damage { IfErr result (λ fault. fault ≡ WorkFault.Scratch (record {
      file = file;
      at = pair.right;
      found = slice_index (numbers_of below.now) pair.right;
      least = slice_index (numbers_of below.now) pair.right + 1;
      limit = limit;
    })) }
{
    let first = below.at(pair.left);
    let second = below.at(pair.right);
    if first == second {
        return Err(WorkFault::Scratch(equal(file, pair.right, second, limit)));
    }
    Ok(P::new(to_point(first, second), pair.old))
}

/// The record at this place was read back as a number that is not below a limit.
pub(crate) fn outside(file: u32, at: u64, found: u64, limit: u64) -> ScratchDamage
    ensures { result ≡ record { file = file; at = at; found = found; least = 0; limit = limit } }
{
    ScratchDamage {
        file,
        at,
        found: u128::from(found),
        least: 0,
        limit: u128::from(limit),
    }
}

// The record at this place has a number that another has already.
fn equal(file: u32, at: u64, found: u64, limit: u64) -> ScratchDamage
    ensures { result ≡ record { file = file; at = at; found = found; least = found + 1; limit = limit } }
{
    ScratchDamage {
        file,
        at,
        found: u128::from(found),
        least: u128::from(found) + 1,
        limit: u128::from(limit),
    }
}
