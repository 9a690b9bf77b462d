//! The numbered entries of a table, by place, each with its point.
ghost use Rattle.std.specs.Prelude.{◌≡◌, ◌+◌, ◌-◌, ◌*◌, ◌^◌, ◌<◌, ◌≤◌, ℕ, Bool, true, length, map, slice_index, IfOk, IsErrOf, OnOk};
ghost use Rattle.pos_lists.specs.TableLists.{TableLists};
ghost use Rattle.pos_lists.specs.Numbering.{AreGathered};
ghost use Rattle.pos_record.specs.Fields.{IsRecordSize};
ghost use Rattle.pos_runs.specs.Runs.{SameTables, TablesStand, pages_at};
ghost use Rattle.pos_laws.specs.Renumbering.{point_at};
ghost use Rattle.pos_relocate.specs.Passes.{AreBelow, AreListed};
ghost use Rattle.pos_relocate.specs.Choosing.{Chooses};
ghost use Rattle.pos_relocate.specs.Numbers.{numbers_of};
ghost use Rattle.pos_relocate.specs.Gathering.{CanPoint, HavePoints, IsPointing, SomeHasNoPoint};

use crate::blocks::{BLOCK, Unpacked, add_pointed, unpack};
use crate::chosen::Chosen;
use crate::numbers::Numbers;
use crate::pointed::Pointed;
use crate::with_room;
use pos_edge::{Disk, WorkFault};
use pos_runs::Tables;
use std::alloc::Global;

/// The values of table 1, by place.
pub(crate) fn gather_values<D: Disk, const K: u32>(
    alloc: Global,
    tables: &mut Tables<K>,
    disk: &mut D,
) -> Result<Numbers, WorkFault>
    requires size { IsRecordSize K }
    requires stands { (ts : TableLists) × TablesStand K tables.old ts (D.view disk.old) }
    ensures reading { IsPointing result (D.view disk.old) (D.view disk.new) }
    ensures tables { OnOk result (SameTables K tables.old tables.new (D.view disk.old) (D.view disk.new)) }
    ensures below { IfOk result (λ values. AreBelow (pages_at tables.old 0).count (2 ^ K) (numbers_of values)) }
    ensures values { IfOk result (λ values. (ts : TableLists) → TablesStand K tables.old ts (D.view disk.old)
        → (D.view disk.old).tells ≡ true → numbers_of values ≡ ts.values) }
    ensures no_damage { (damage : _) → IsErrOf result (WorkFault.Scratch damage) → ⊥ }
{
    let mut values = Numbers::with_room(alloc, tables.count(1), 1 << K)?;
    for i in 0..tables.count(1) {
        let value = tables.value(disk, i)?;
        values.push(value)?;
    }
    Ok(values)
}

/// The numbered entries of table t, by place, each with its point over the numbers of the table below.
///
/// `below` has a number for each place of the table below, a value or a new place, each less than `limit`. `Scratch`
/// where an entry has no point: one of its places is not in the table below, or both have one number.
pub(crate) fn gather<P: Pointed, D: Disk, const K: u32>(
    alloc: Global,
    tables: &mut Tables<K>,
    t: u8,
    chosen: &mut Chosen,
    below: &Numbers,
    limit: u64,
    disk: &mut D,
) -> Result<Vec<P>, WorkFault>
    requires can { CanPoint K t limit P.bound (numbers_of below.now) tables.old (D.view disk.old) }
    requires chooses { (p : ℕ → Bool) × Chooses chosen.old (pages_at tables.old (t - 1)).count p (D.view disk.old) }
    ensures reading { IsPointing result (D.view disk.old) (D.view disk.new) }
    ensures tables { OnOk result (SameTables K tables.old tables.new (D.view disk.old) (D.view disk.new)) }
    ensures listed { IfOk result (λ entries. AreListed (pages_at tables.old (t - 1)).count (2 ^ (2 * K + 2)) (map P.pair entries.items)) }
    ensures gathered { IfOk result (λ entries. (ts : TableLists) (p : ℕ → Bool) → TablesStand K tables.old ts (D.view disk.old)
        → Chooses chosen.old (pages_at tables.old (t - 1)).count p (D.view disk.old) → (D.view disk.old).tells ≡ true
        → AreGathered p (point_at ts (t - 2) (slice_index (numbers_of below.now))) (pages_at tables.old (t - 1)).count (map P.pair entries.items)) }
    ensures points { OnOk result ((ts : TableLists) (p : ℕ → Bool) → TablesStand K tables.old ts (D.view disk.old)
        → Chooses chosen.old (pages_at tables.old (t - 1)).count p (D.view disk.old) → (D.view disk.old).tells ≡ true
        → HavePoints ts (t - 2) p (numbers_of below.now) (pages_at tables.old (t - 1)).count) }
    ensures damage { (damage : _) → IsErrOf result (WorkFault.Scratch damage)
        → (ts : TableLists) (p : ℕ → Bool) → TablesStand K tables.old ts (D.view disk.old)
        → Chooses chosen.old (pages_at tables.old (t - 1)).count p (D.view disk.old) → (D.view disk.old).tells ≡ true
        → SomeHasNoPoint ts (t - 2) p limit (numbers_of below.now) tables.old damage }
{
    let count = tables.count(t);
    let mut entries = with_room(alloc, count)?;
    let mut pairs = with_room(alloc, BLOCK)?;
    let mut from = 0;
    while from < count {
        let to = block_end(from, count);
        gather_block(
            tables,
            t,
            chosen,
            below,
            limit,
            from,
            to,
            &mut pairs,
            &mut entries,
            disk,
        )?;
        from = to;
    }
    Ok(entries)
}

// Where the block ends that begins at this place of so many.
#[inline(always)]
fn block_end(from: u64, count: u64) -> u64
    requires { from < count }
    ensures after { from < result }
    ensures inside { result ≤ count }
{
    if count - from > BLOCK {
        return from + BLOCK;
    }
    count
}

// Puts the entries of table t at the places from one to another behind the others, those that are numbered, each with its point.
// `pairs` is room for a block.
fn gather_block<P: Pointed, D: Disk, const K: u32>(
    tables: &mut Tables<K>,
    t: u8,
    chosen: &mut Chosen,
    below: &Numbers,
    limit: u64,
    from: u64,
    to: u64,
    pairs: &mut Vec<Unpacked>,
    entries: &mut Vec<P>,
    disk: &mut D,
) -> Result<(), WorkFault>
    requires can { CanPoint K t limit P.bound (numbers_of below.now) tables.old (D.view disk.old) }
    requires order { from ≤ to }
    requires there { to ≤ (pages_at tables.old (t - 1)).count }
    requires chooses { (p : ℕ → Bool) × Chooses chosen.old (pages_at tables.old (t - 1)).count p (D.view disk.old) }
    ensures reading { IsPointing result (D.view disk.old) (D.view disk.new) }
    ensures tables { OnOk result (SameTables K tables.old tables.new (D.view disk.old) (D.view disk.new)) }
    ensures chosen { OnOk result ((n : ℕ) (p : ℕ → Bool) → Chooses chosen.old n p (D.view disk.old)
        → Chooses chosen.new n p (D.view disk.new)) }
    ensures listed { OnOk result (AreListed from (2 ^ (2 * K + 2)) (map P.pair entries.old.items)
        → AreListed to (2 ^ (2 * K + 2)) (map P.pair entries.new.items)) }
    ensures gathered { OnOk result ((ts : TableLists) (p : ℕ → Bool) → TablesStand K tables.old ts (D.view disk.old)
        → Chooses chosen.old (pages_at tables.old (t - 1)).count p (D.view disk.old) → (D.view disk.old).tells ≡ true
        → AreGathered p (point_at ts (t - 2) (slice_index (numbers_of below.now))) from (map P.pair entries.old.items)
        → AreGathered p (point_at ts (t - 2) (slice_index (numbers_of below.now))) to (map P.pair entries.new.items)) }
    ensures points { OnOk result ((ts : TableLists) (p : ℕ → Bool) → TablesStand K tables.old ts (D.view disk.old)
        → Chooses chosen.old (pages_at tables.old (t - 1)).count p (D.view disk.old) → (D.view disk.old).tells ≡ true
        → AreGathered p (point_at ts (t - 2) (slice_index (numbers_of below.now))) from (map P.pair entries.old.items)
        → HavePoints ts (t - 2) p (numbers_of below.now) from → HavePoints ts (t - 2) p (numbers_of below.now) to) }
    ensures damage { (damage : _) → IsErrOf result (WorkFault.Scratch damage)
        → (ts : TableLists) (p : ℕ → Bool) → TablesStand K tables.old ts (D.view disk.old)
        → Chooses chosen.old (pages_at tables.old (t - 1)).count p (D.view disk.old) → (D.view disk.old).tells ≡ true
        → SomeHasNoPoint ts (t - 2) p limit (numbers_of below.now) tables.old damage }
{
    let file = tables.file(t - 1);
    pairs.clear();
    unpack(tables, t, chosen, below, from, to, pairs, disk)?;
    add_pointed(pairs, below, limit, file, entries)?;
    Ok(())
}
