//! The numbers of table 7: an f7 and then a new place of table 6 each.
ghost use Rattle.std.specs.Prelude.{◌≡◌, ◌+◌, ◌*◌, ◌/◌, ◌^◌, ◌<◌, ◌≤◌, ℕ, Bool, true, length, map, slice_index, IfOk, IsErrOf, OnOk};
ghost use Rattle.pos_lists.specs.TableLists.{TableLists};
ghost use Rattle.pos_lists.specs.Sound.{IsSound};
ghost use Rattle.pos_lists.specs.Numbering.{AreGathered};
ghost use Rattle.pos_lists.specs.PlotLists.{last_number};
ghost use Rattle.pos_record.specs.Fields.{IsRecordSize};
ghost use Rattle.pos_runs.specs.Runs.{SameTables, TablesStand, pages_at};
ghost use Rattle.pos_laws.specs.Renumbering.{IsOneToOne, last_at};
ghost use Rattle.pos_layout.specs.Writing.{IsStanding, OpensNext, SameFile};
ghost use Rattle.pos_relocate.specs.Passes.{AreBelow, AreListed, HasEmptyTable, IsLastAdded, IsPass};
ghost use Rattle.pos_relocate.specs.Numbers.{numbers_of};
ghost use Rattle.pos_relocate.specs.Gathering.{CanNumber, IsPointing, IsLastAbove};

use crate::blocks::outside;
use crate::numbering::add_sorted;
use crate::numbers::Numbers;
use crate::pointed::{Narrow, Pointed, Wide};
use crate::{push, with_room};
use pos_edge::{Disk, WorkFault};
use pos_layout::PlotWriter;
use pos_runs::Tables;
use std::alloc::Global;

/// Adds the numbers of table 7 to the writer: for each entry the f7 of its y and its new place in table 6.
///
/// `places` has the new place of each entry of the run's table 7, which is the file's table 6.
pub(crate) fn last<D: Disk, const K: u32>(
    alloc: Global,
    tables: &mut Tables<K>,
    places: &Numbers,
    writer: &mut PlotWriter,
    disk: &mut D,
) -> Result<(), WorkFault>
    requires can { CanNumber K (2 ^ (2 * K + 1)) (numbers_of places.now) tables.old (D.view disk.old) }
    requires few { (pages_at tables.old 7).count ≤ 2 ^ (K + 1) }
    requires stands { IsStanding writer.old (D.view disk.old) }
    requires empty { HasEmptyTable K writer.old }
    ensures pass { IsPass writer.old.file result (D.view disk.old) (D.view disk.new) }
    ensures same { SameFile writer.old writer.new }
    ensures next { OnOk result (OpensNext writer.old writer.new) }
    ensures ok { OnOk result (IsLastAdded K (numbers_of places.now) tables.old writer.old writer.new (D.view disk.old) (D.view disk.new)) }
    ensures never { (damage : _) → IsErrOf result (WorkFault.Scratch damage) → (ts : TableLists)
        → TablesStand K tables.old ts (D.view disk.old) → (D.view disk.old).tells ≡ true → IsSound ts K
        → IsOneToOne ts 6 (slice_index (numbers_of places.now)) → ⊥ }
{
    if K <= 31 {
        add_last::<Narrow, D, K>(alloc, tables, places, writer, disk)
    } else {
        add_last::<Wide, D, K>(alloc, tables, places, writer, disk)
    }
}

// The same with entries of this width.
fn add_last<P: Pointed, D: Disk, const K: u32>(
    alloc: Global,
    tables: &mut Tables<K>,
    places: &Numbers,
    writer: &mut PlotWriter,
    disk: &mut D,
) -> Result<(), WorkFault>
    requires can { CanNumber K P.bound (numbers_of places.now) tables.old (D.view disk.old) }
    requires few { (pages_at tables.old 7).count ≤ 2 ^ (K + 1) }
    requires stands { IsStanding writer.old (D.view disk.old) }
    requires empty { HasEmptyTable K writer.old }
    ensures pass { IsPass writer.old.file result (D.view disk.old) (D.view disk.new) }
    ensures same { SameFile writer.old writer.new }
    ensures next { OnOk result (OpensNext writer.old writer.new) }
    ensures ok { OnOk result (IsLastAdded K (numbers_of places.now) tables.old writer.old writer.new (D.view disk.old) (D.view disk.new)) }
    ensures never { (damage : _) → IsErrOf result (WorkFault.Scratch damage) → (ts : TableLists)
        → TablesStand K tables.old ts (D.view disk.old) → (D.view disk.old).tells ≡ true → IsSound ts K
        → IsOneToOne ts 6 (slice_index (numbers_of places.now)) → ⊥ }
{
    let count = places.len();
    let entries = gather_last::<P, D, K>(alloc, tables, places, disk)?;
    add_sorted::<P, D, K>(entries, count, tables.file(8), writer, disk)?;
    Ok(())
}

// The number of each entry of table 7, by place.
fn gather_last<P: Pointed, D: Disk, const K: u32>(
    alloc: Global,
    tables: &mut Tables<K>,
    places: &Numbers,
    disk: &mut D,
) -> Result<Vec<P>, WorkFault>
    requires { CanNumber K P.bound (numbers_of places.now) tables.old (D.view disk.old) }
    ensures reading { IsPointing result (D.view disk.old) (D.view disk.new) }
    ensures tables { OnOk result (SameTables K tables.old tables.new (D.view disk.old) (D.view disk.new)) }
    ensures listed { IfOk result (λ entries. AreListed (length (numbers_of places.now)) (2 ^ (2 * K + 2)) (map P.pair entries.items)) }
    ensures gathered { IfOk result (λ entries. (ts : TableLists) → TablesStand K tables.old ts (D.view disk.old)
        → (D.view disk.old).tells ≡ true → IsSound ts K
        → AreGathered (λ i. true) (last_at ts K (slice_index (numbers_of places.now))) (length (numbers_of places.now)) (map P.pair entries.items)) }
    ensures damage { (damage : _) → IsErrOf result (WorkFault.Scratch damage) → (ts : TableLists)
        → TablesStand K tables.old ts (D.view disk.old) → (D.view disk.old).tells ≡ true
        → (i : ℕ) × (i < length (numbers_of places.now)) × IsLastAbove ts K i (pages_at tables.old 7).number damage }
{
    let mut entries = with_room(alloc, places.len())?;
    for i in 0..places.len() {
        let entry = numbered_at(tables, i, places.at(i), disk)?;
        push(&mut entries, entry)?;
    }
    Ok(entries)
}

// Entry i of table 7, which has this new place, with its number.
fn numbered_at<P: Pointed, D: Disk, const K: u32>(
    tables: &mut Tables<K>,
    i: u64,
    place: u64,
    disk: &mut D,
) -> Result<P, WorkFault>
    requires size { IsRecordSize K }
    requires stands { (ts : TableLists) × TablesStand K tables.old ts (D.view disk.old) }
    requires there { i < (pages_at tables.old 7).count }
    requires small { place < 2 ^ (K + 1) }
    requires exact { 2 ^ (2 * K + 1) ≤ P.bound }
    ensures reading { IsPointing result (D.view disk.old) (D.view disk.new) }
    ensures tables { OnOk result (SameTables K tables.old tables.new (D.view disk.old) (D.view disk.new)) }
    ensures place { IfOk result (λ entry. (P.pair entry).1 ≡ i) }
    ensures small { IfOk result (λ entry. (P.pair entry).0 < 2 ^ (2 * K + 2)) }
    ensures number { IfOk result (λ entry. (ts : TableLists) → TablesStand K tables.old ts (D.view disk.old)
        → (D.view disk.old).tells ≡ true → slice_index ts.last i < 2 ^ (K + 6)
        → (P.pair entry).0 ≡ last_number K (slice_index ts.last i / 64) place) }
    ensures damage { (damage : _) → IsErrOf result (WorkFault.Scratch damage) → (ts : TableLists)
        → TablesStand K tables.old ts (D.view disk.old) → (D.view disk.old).tells ≡ true
        → IsLastAbove ts K i (pages_at tables.old 7).number damage }
{
    let y = tables.last(disk, i)?;
    let f7 = y / 64;
    if f7 >= 1 << K {
        return Err(WorkFault::Scratch(outside(tables.file(8), i, y, 1 << (K + 6))));
    }
    Ok(P::new((u128::from(f7) << (K + 1)) + u128::from(place), i))
}
