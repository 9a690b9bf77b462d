//! One table's entries sorted by point, written, and numbered.
ghost use Rattle.std.specs.Prelude.{◌≡◌, ◌+◌, ◌*◌, ◌^◌, ◌<◌, ◌≤◌, ℕ, AllPairs, length, map, IfErr, IfOk, IsErrOf, OnOk};
ghost use Rattle.std.specs.List.Sorted.{IsNonDecreasingBy};
ghost use Rattle.pos_record.specs.Fields.{IsRecordSize};
ghost use Rattle.pos_lists.specs.Numbering.{AreMoved};
ghost use Rattle.pos_lists.specs.Rank.{first_in};
ghost use Rattle.pos_laws.specs.Renumbering.{firsts};
ghost use Rattle.pos_layout.specs.Writing.{Goes, IsStanding, OpensNext, SameFile, with_numbers};
ghost use Rattle.pos_relocate.specs.Numbers.{bound_of, numbers_of};
ghost use Rattle.pos_relocate.specs.Passes.{AreBelow, AreListed, AreShuffled, HasEmptyTable, IsPass, IsRepetition, IsPointedTable, IsTableAdded};

use crate::numbers::{Numbers, SHORT_LIMIT};
use crate::pointed::Pointed;
use pos_edge::{Disk, ScratchDamage, WorkFault};
use pos_layout::PlotWriter;
use std::alloc::Global;

/// Sorts the entries of a level by point, adds the points to the writer as a table, and answers the new places by old
/// place; of a place without an entry only that its number is below `count` is said.
///
/// `count` is how many places the level has, `file` the number of the scratch file of its pairs. `Scratch` where a point
/// comes twice.
pub fn number<P: Pointed, D: Disk, const K: u32>(
    alloc: Global,
    records: Vec<P>,
    count: u64,
    file: u32,
    writer: &mut PlotWriter,
    disk: &mut D,
) -> Result<Vec<u64>, WorkFault>
    requires size { IsRecordSize K }
    requires listed { AreListed count (2 ^ (2 * K + 2)) (map P.pair records.items) }
    requires few { count ≤ 2 ^ (K + 1) }
    requires stands { IsStanding writer.old (D.view disk.old) }
    requires empty { HasEmptyTable K writer.old }
    ensures pass { IsPass writer.old.file result (D.view disk.old) (D.view disk.new) }
    ensures same { SameFile writer.old writer.new }
    ensures next { OnOk result (OpensNext writer.old writer.new) }
    ensures ok { IfOk result (λ places. IsTableAdded (map P.pair records.items) places.items
        writer.old writer.new (D.view disk.old) (D.view disk.new)) }
    ensures places { IfOk result (λ places. AreBelow count count places.items) }
    ensures damage { (damage : _) → IsErrOf result (WorkFault.Scratch damage)
        → IsRepetition file (2 ^ (2 * K + 2)) (map P.pair records.items) damage }
{
    let records = add_sorted::<P, D, K>(records, count, file, writer, disk)?;
    places_of(alloc, &records, count)
}

/// As `number`, with the new places in the least room.
pub(crate) fn number_least<P: Pointed, D: Disk, const K: u32>(
    alloc: Global,
    records: Vec<P>,
    count: u64,
    file: u32,
    writer: &mut PlotWriter,
    disk: &mut D,
) -> Result<Numbers, WorkFault>
    requires size { IsRecordSize K }
    requires listed { AreListed count (2 ^ (2 * K + 2)) (map P.pair records.items) }
    requires few { count ≤ 2 ^ (K + 1) }
    requires stands { IsStanding writer.old (D.view disk.old) }
    requires empty { HasEmptyTable K writer.old }
    ensures pass { IsPass writer.old.file result (D.view disk.old) (D.view disk.new) }
    ensures same { SameFile writer.old writer.new }
    ensures next { OnOk result (OpensNext writer.old writer.new) }
    ensures ok { IfOk result (λ places. IsTableAdded (map P.pair records.items) (numbers_of places)
        writer.old writer.new (D.view disk.old) (D.view disk.new)) }
    ensures places { IfOk result (λ places. AreBelow count count (numbers_of places)) }
    ensures least { IfOk result (λ places. count ≤ 2 ^ 32 → bound_of places ≡ 2 ^ 32) }
    ensures damage { (damage : _) → IsErrOf result (WorkFault.Scratch damage)
        → IsRepetition file (2 ^ (2 * K + 2)) (map P.pair records.items) damage }
{
    if count <= SHORT_LIMIT {
        let places = number_short::<P, D, K>(alloc, records, count, file, writer, disk)?;
        return Ok(Numbers::Short(places));
    }
    let places = number::<P, D, K>(alloc, records, count, file, writer, disk)?;
    Ok(Numbers::Long(places))
}

// As `number`, with new places of 32 bits.
fn number_short<P: Pointed, D: Disk, const K: u32>(
    alloc: Global,
    records: Vec<P>,
    count: u64,
    file: u32,
    writer: &mut PlotWriter,
    disk: &mut D,
) -> Result<Vec<u32>, WorkFault>
    requires size { IsRecordSize K }
    requires listed { AreListed count (2 ^ (2 * K + 2)) (map P.pair records.items) }
    requires few { count ≤ 2 ^ (K + 1) }
    requires short { count ≤ 2 ^ 32 }
    requires stands { IsStanding writer.old (D.view disk.old) }
    requires empty { HasEmptyTable K writer.old }
    ensures pass { IsPass writer.old.file result (D.view disk.old) (D.view disk.new) }
    ensures same { SameFile writer.old writer.new }
    ensures next { OnOk result (OpensNext writer.old writer.new) }
    ensures ok { IfOk result (λ places. IsTableAdded (map P.pair records.items) places.items
        writer.old writer.new (D.view disk.old) (D.view disk.new)) }
    ensures places { IfOk result (λ places. AreBelow count count places.items) }
    ensures damage { (damage : _) → IsErrOf result (WorkFault.Scratch damage)
        → IsRepetition file (2 ^ (2 * K + 2)) (map P.pair records.items) damage }
{
    let records = add_sorted::<P, D, K>(records, count, file, writer, disk)?;
    short_places_of(alloc, &records, count)
}

/// Sorts the entries by point, adds the points to the writer as a table, and answers the sorted entries.
///
/// `count` is how many places there are, `file` the number of the scratch file that a repeated point is of.
pub(crate) fn add_sorted<P: Pointed, D: Disk, const K: u32>(
    mut records: Vec<P>,
    count: u64,
    file: u32,
    writer: &mut PlotWriter,
    disk: &mut D,
) -> Result<Vec<P>, WorkFault>
    requires size { IsRecordSize K }
    requires listed { AreListed count (2 ^ (2 * K + 2)) (map P.pair records.items) }
    requires few { count ≤ 2 ^ (K + 1) }
    requires stands { IsStanding writer.old (D.view disk.old) }
    requires empty { HasEmptyTable K writer.old }
    ensures pass { IsPass writer.old.file result (D.view disk.old) (D.view disk.new) }
    ensures same { SameFile writer.old writer.new }
    ensures next { OnOk result (OpensNext writer.old writer.new) }
    ensures ok { IfOk result (λ sorted. IsPointedTable (map P.pair records.items) (map P.pair sorted.items)
        writer.old writer.new (D.view disk.old) (D.view disk.new)) }
    ensures damage { (damage : _) → IsErrOf result (WorkFault.Scratch damage)
        → IsRepetition file (2 ^ (2 * K + 2)) (map P.pair records.items) damage }
{
    P::sort(records.as_mut_slice());
    add_points::<P, D, K>(&records, file, writer, disk)?;
    writer.end_table(disk)?;
    Ok(records)
}

// Adds the points of sorted entries to the open table. `Scratch` at the first that is the one before it.
fn add_points<P: Pointed, D: Disk, const K: u32>(
    records: &[P],
    file: u32,
    writer: &mut PlotWriter,
    disk: &mut D,
) -> Result<(), WorkFault>
    requires size { IsRecordSize K }
    requires sorted { IsNonDecreasingBy (λ entry. (P.pair entry).0) records.now }
    requires small { (s : ℕ) → s < length records.now → first_in (map P.pair records.now) s < 2 ^ (2 * K + 2) }
    requires few { length records.now ≤ 2 ^ (K + 1) }
    requires stands { IsStanding writer.old (D.view disk.old) }
    requires empty { HasEmptyTable K writer.old }
    ensures pass { IsPass writer.old.file result (D.view disk.old) (D.view disk.new) }
    ensures same { SameFile writer.old writer.new }
    ensures columns { writer.new.columns ≡ writer.old.columns }
    ensures rise { OnOk result (AllPairs (λ a b. a.0 < b.0) (map P.pair records.now)) }
    ensures ok { OnOk result (Goes (with_numbers (firsts (map P.pair records.now)))
        writer.old writer.new (D.view disk.old) (D.view disk.new)) }
    ensures damage { (damage : _) → IsErrOf result (WorkFault.Scratch damage)
        → IsRepetition file (2 ^ (2 * K + 2)) (map P.pair records.now) damage }
{
    let mut least = 0u128;
    for entry in records {
        let point = entry.point();
        if point < least {
            return Err(WorkFault::Scratch(ScratchDamage {
                file,
                at: entry.old(),
                found: point,
                least,
                limit: 1 << (2 * K + 2),
            }));
        }
        writer.add(disk, point)?;
        least = point + 1;
    }
    Ok(())
}

// The place of each entry among the sorted ones, by its old place.
fn places_of<P: Pointed>(alloc: Global, records: &[P], count: u64) -> Result<Vec<u64>, WorkFault>
    requires { AreShuffled count (map P.pair records.now) }
    ensures moved { IfOk result (λ places. AreMoved (map P.pair records.now) places.items) }
    ensures below { IfOk result (λ places. AreBelow count count places.items) }
    ensures memory { IfErr result (λ fault. fault ≡ WorkFault.Memory) }
{
    let mut places = vec![in alloc; 0u64; count as usize].map_err(|_| WorkFault::Memory)?;
    for (place, entry) in records.iter().enumerate() {
        places[entry.old() as usize] = place as u64;
    }
    Ok(places)
}

// As `places_of`, in 32 bits.
fn short_places_of<P: Pointed>(
    alloc: Global,
    records: &[P],
    count: u64,
) -> Result<Vec<u32>, WorkFault>
    requires shuffled { AreShuffled count (map P.pair records.now) }
    requires short { count ≤ 2 ^ 32 }
    ensures moved { IfOk result (λ places. AreMoved (map P.pair records.now) places.items) }
    ensures below { IfOk result (λ places. AreBelow count count places.items) }
    ensures memory { IfErr result (λ fault. fault ≡ WorkFault.Memory) }
{
    let mut places = vec![in alloc; 0u32; count as usize].map_err(|_| WorkFault::Memory)?;
    for (place, entry) in records.iter().enumerate() {
        places[entry.old() as usize] = place as u32;
    }
    Ok(places)
}
