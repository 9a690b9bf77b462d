// The seven tables, on scratch files.
ghost use Rattle.std.specs.Prelude.{◌≡◌, ◌+◌, ◌<◌, ◌≤◌, ◌^◌, [], ◌∷◌, List, IfErr, IfOk, OnOk};
ghost use Rattle.pos_edge.specs.Faults.{Rose};
ghost use Rattle.pos_edge.specs.Frame.{Nothing, SameFaultsBut};
ghost use Rattle.pos_edge.specs.ScratchNames.{StandsOn};
ghost use Rattle.pos_edge.specs.ScratchWork.{IsNameBetween, IsScratchWork, IsScratchDone};
ghost use Rattle.pos_record.specs.Fields.{IsRecordSize};
ghost use Rattle.pos_record.specs.Kinds.{middle_width, number_read, number_width, row_read};
ghost use Rattle.pos_runs.specs.Lists.{ListKept};
ghost use Rattle.pos_forward.specs.Matched.{IsReady};
ghost use Rattle.pos_forward.specs.NextTables.{IsLastList, IsReadyRoom};
ghost use Rattle.pos_forward.specs.SevenTables.{AreByEights, AreSevenTables, IsForwardCause};
ghost use Rattle.pos_forward.specs.Stored.{draft_number};
ghost use Rattle.pos_forward.specs.TablesSoFar.{AreDraftedAs, AreEntriesOf, AreListsByEights, HasMoreTables, HasTablesTo, IsMoreFault, IsTablesFault, row_entry};

use crate::further::two_tables;
use crate::gather::Room;
use crate::levels::one_table;
use crate::{Drafts, ForwardFault, Matcher};
use pos_edge::{Disk, MAX_SCRATCH_FILES, Scratch, WorkFault};
use pos_lanes::Lanes;
use pos_record::{First, Number, Pair, Row, Value};
use pos_runs::{Ordered, Plan, Tables};
use pos_tuple::Id;
use std::alloc::Global;

/// The seven tables of an id: table 1 has the values, each later one the matching pairs of places of the table below, all in
/// the order of y, and the last list the y of table 7. They stand on sealed lists in eight scratch files of their own; 14 are
/// made, and the others are removed.
///
/// `TableFull` comes where a table from 2 to 7 would have more entries than the plan's capacity, and names the first such
/// table. `DiskFailed`, `Exists` and `Memory` are those of the work on scratch files; `Scratch` comes only of a disk that
/// reads back what was not written.
/// Source: the Construction document, "forward propagation".
pub fn forward<D: Disk, const K: u32>(
    alloc: Global,
    id: &Id,
    plan: &Plan,
    scratch: &mut Scratch,
    disk: &mut D,
    lanes: &mut Lanes,
) -> Result<Tables<K>, ForwardFault>
    requires size { IsRecordSize K }
    requires plan { plan.now ≤ 2 ^ (K + 1) }
    requires room { scratch.old.made ≤ 9960 }
    requires files { StandsOn scratch.old (D.view disk.old) }
    ensures work { IsScratchWork (IsNameBetween scratch.old.base scratch.old.made (scratch.new.made + 1)) Nothing
        scratch.old scratch.new (D.view disk.old) (D.view disk.new) }
    ensures done { OnOk result (IsScratchDone (IsNameBetween scratch.old.base scratch.old.made scratch.new.made) Nothing
        scratch.old scratch.new (D.view disk.old) (D.view disk.new)) }
    ensures made { IfOk result (λ tables. AreSevenTables id.now.0 K plan.now scratch.old scratch.new tables
        (D.view disk.old) (D.view disk.new)) }
    ensures cause { IfErr result (IsForwardCause id.now.0 K plan.now scratch.old scratch.new
        (D.view disk.old) (D.view disk.new)) }
    ensures quiet { SameFaultsBut (ForwardFault.Work WorkFault.DiskFailed) result (D.view disk.old) (D.view disk.new) }
    ensures reads { OnOk result (Rose (D.view disk.old).reads (D.view disk.new).reads) }
    ensures lanes { IfOk result (λ tables. AreByEights lanes.old lanes.new tables) }
{
    let Ok(matcher) = Matcher::new(alloc) else {
        return Err(ForwardFault::Work(WorkFault::Memory));
    };
    let mut room = Room {
        capacity: plan.capacity(),
        matcher,
        drafts: Drafts::new(alloc),
    };
    let (values, p2, p3, p4, p5, p6, p7, last) = all_lists(
        alloc, id, &mut room, scratch, disk, lanes,
    )?;
    Ok(Tables::new(values, p2, p3, p4, p5, p6, p7, last))
}

// The lists of all tables of an id: the values, the pairs of tables 2 to 7, and the y of table 7.
fn all_lists<D: Disk, const K: u32>(
    alloc: Global,
    id: &Id,
    room: &mut Room,
    scratch: &mut Scratch,
    disk: &mut D,
    lanes: &mut Lanes,
) -> Result<
    (
        Ordered<Value, K>,
        Ordered<Pair, K>,
        Ordered<Pair, K>,
        Ordered<Pair, K>,
        Ordered<Pair, K>,
        Ordered<Pair, K>,
        Ordered<Pair, K>,
        Ordered<Number, K>,
    ),
    ForwardFault,
>
    requires size { IsRecordSize K }
    requires capacity { room.old.capacity ≤ 2 ^ (K + 1) }
    requires ready { IsReady room.old.matcher }
    requires space { scratch.old.made ≤ 9960 }
    requires stands { StandsOn scratch.old (D.view disk.old) }
    ensures fault { IfErr result (IsTablesFault id.now.0 K room.old.capacity 14 scratch.old scratch.new
        (D.view disk.old) (D.view disk.new)) }
    ensures made { IfOk result (λ made. HasTablesTo id.now.0 K room.old.capacity 6 (AreDraftedAs K 7 draft_number)
        (number_read K) (number_width K) scratch.old scratch.new
        (made.0 ∷ made.1 ∷ made.2 ∷ made.3 ∷ made.4 ∷ made.5 ∷ made.6 ∷ []) made.7 (D.view disk.old) (D.view disk.new)) }
    ensures lanes { IfOk result (λ made. AreListsByEights lanes.old lanes.new
        (made.1 ∷ made.2 ∷ made.3 ∷ made.4 ∷ made.5 ∷ made.6 ∷ [])) }
    ensures reads { OnOk result (Rose (D.view disk.old).reads (D.view disk.new).reads) }
{
    let (values, p2, p3, rows) = lower(alloc, id, room, scratch, disk, lanes)?;
    let (p4, p5, p6, p7, last) = upper(alloc, room, scratch, disk, lanes, rows)?;
    Ok((values, p2, p3, p4, p5, p6, p7, last))
}

// Tables 1 to 3 of an id: the values, the pairs of tables 2 and 3, and the rows of table 3.
fn lower<D: Disk, const K: u32>(
    alloc: Global,
    id: &Id,
    room: &mut Room,
    scratch: &mut Scratch,
    disk: &mut D,
    lanes: &mut Lanes,
) -> Result<
    (
        Ordered<Value, K>,
        Ordered<Pair, K>,
        Ordered<Pair, K>,
        Ordered<Row<3>, K>,
    ),
    ForwardFault,
>
    requires size { IsRecordSize K }
    requires capacity { room.old.capacity ≤ 2 ^ (K + 1) }
    requires ready { IsReady room.old.matcher }
    requires space { scratch.old.made ≤ 9960 }
    requires stands { StandsOn scratch.old (D.view disk.old) }
    ensures fault { IfErr result (IsTablesFault id.now.0 K room.old.capacity 6 scratch.old scratch.new
        (D.view disk.old) (D.view disk.new)) }
    ensures made { IfOk result (λ made. HasTablesTo id.now.0 K room.old.capacity 2 (AreEntriesOf (row_entry K 3))
        (row_read K 3) (middle_width K 3) scratch.old scratch.new (made.0 ∷ made.1 ∷ made.2 ∷ []) made.3
        (D.view disk.old) (D.view disk.new)) }
    ensures room { OnOk result (IsReadyRoom room.old room.new) }
    ensures lanes { IfOk result (λ made. AreListsByEights lanes.old lanes.new (made.1 ∷ made.2 ∷ [])) }
    ensures reads { OnOk result (Rose (D.view disk.old).reads (D.view disk.new).reads) }
{
    let (values, rows) = one_table::<D, K>(alloc, id, scratch, disk)?;
    let (p2, p3, rows) = two_tables::<D, First, Row<2>, Row<3>, K>(
        alloc, 2, room, scratch, disk, lanes, rows,
    )?;
    Ok((values, p2, p3, rows))
}

// Tables 4 to 7 of the rows of table 3, which are given up: their pairs, and the y of table 7.
fn upper<D: Disk, const K: u32>(
    alloc: Global,
    room: &mut Room,
    scratch: &mut Scratch,
    disk: &mut D,
    lanes: &mut Lanes,
    rows: Ordered<Row<3>, K>,
) -> Result<
    (
        Ordered<Pair, K>,
        Ordered<Pair, K>,
        Ordered<Pair, K>,
        Ordered<Pair, K>,
        Ordered<Number, K>,
    ),
    ForwardFault,
>
    requires size { IsRecordSize K }
    requires rows { IsLastList scratch.old rows (D.view disk.old) }
    requires kept { (xs : List (Row 3)) × ListKept scratch.old.base (row_read K 3) (middle_width K 3) rows xs
        (D.view disk.old) }
    requires few { rows.count ≤ 2 ^ (K + 1) }
    requires capacity { room.old.capacity ≤ 2 ^ (K + 1) }
    requires ready { IsReady room.old.matcher }
    requires files { scratch.old.made + 8 ≤ MAX_SCRATCH_FILES }
    ensures fault { IfErr result (IsMoreFault K room.old.capacity 2 8 (AreEntriesOf (row_entry K 3)) (row_read K 3)
        (middle_width K 3) rows.entry scratch.old scratch.new (D.view disk.old) (D.view disk.new)) }
    ensures made { IfOk result (λ made. HasMoreTables K room.old.capacity 2 6 (AreEntriesOf (row_entry K 3))
        (row_read K 3) (middle_width K 3) (AreDraftedAs K 7 draft_number) (number_read K) (number_width K)
        scratch.old scratch.new rows.entry (made.0 ∷ made.1 ∷ made.2 ∷ made.3 ∷ []) made.4
        (D.view disk.old) (D.view disk.new)) }
    ensures lanes { IfOk result (λ made. AreListsByEights lanes.old lanes.new
        (made.0 ∷ made.1 ∷ made.2 ∷ made.3 ∷ [])) }
{
    let (p4, p5, rows) = two_tables::<D, Row<3>, Row<4>, Row<5>, K>(
        alloc, 4, room, scratch, disk, lanes, rows,
    )?;
    let (p6, p7, last) = two_tables::<D, Row<5>, Row<6>, Number, K>(
        alloc, 6, room, scratch, disk, lanes, rows,
    )?;
    Ok((p4, p5, p6, p7, last))
}
