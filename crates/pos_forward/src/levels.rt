// One table after another: table 1 of the id, and each next one of the rows of the table below.
ghost use Rattle.std.specs.Prelude.{◌≡◌, ◌+◌, ◌-◌, ◌<◌, ◌≤◌, ◌^◌, ◌∷◌, [], ℕ, List, IfErr, IfOk, OnOk};
ghost use Rattle.pos_edge.specs.Faults.{Rose};
ghost use Rattle.pos_edge.specs.ScratchNames.{StandsOn};
ghost use Rattle.pos_record.specs.Fields.{IsRecordSize};
ghost use Rattle.pos_record.specs.Kinds.{first_read, first_width};
ghost use Rattle.pos_runs.specs.Lists.{ListKept};
ghost use Rattle.pos_forward.specs.declared.drafts.Draft.{Draft};
ghost use Rattle.pos_forward.specs.Drafts.{IsPairDraft, first_row_entry};
ghost use Rattle.pos_forward.specs.Eights.{CountsEights};
ghost use Rattle.pos_forward.specs.Matched.{IsReady};
ghost use Rattle.pos_forward.specs.NextTables.{AreDrafted, HasGivenRows, IsLastList, IsReadyRoom};
ghost use Rattle.pos_forward.specs.TablesSoFar.{AreDraftedAs, AreEntriesOf, AreListsByEights, HasMoreTables, HasTablesTo, IsMoreFault, IsTablesFault};

use crate::gather::{Room, gather};
use crate::kinds::{MadeOf, Stored};
use crate::store::store;
use crate::{Draft, Drafts, ForwardFault, first_table};
use pos_edge::{Disk, MAX_SCRATCH_FILES, Scratch, WorkFault};
use pos_lanes::Lanes;
use pos_record::{First, Pair, Record, Value};
use pos_runs::Ordered;
use pos_tuple::{Id, Size};
use std::alloc::Global;

// Table 1 of an id: its values, and its rows, in the order of y.
pub(crate) fn one_table<D: Disk, const K: u32>(
    alloc: Global,
    id: &Id,
    scratch: &mut Scratch,
    disk: &mut D,
) -> Result<(Ordered<Value, K>, Ordered<First, K>), ForwardFault>
    requires size { IsRecordSize K }
    requires files { scratch.old.made + 2 ≤ MAX_SCRATCH_FILES }
    requires stands { StandsOn scratch.old (D.view disk.old) }
    ensures fault { IfErr result (λ fault. (c : ℕ) → IsTablesFault id.now.0 K c 2 scratch.old scratch.new
        (D.view disk.old) (D.view disk.new) fault) }
    ensures made { IfOk result (λ made. (c : ℕ) → HasTablesTo id.now.0 K c 0 (AreEntriesOf (first_row_entry K)) (first_read K)
        (first_width K) scratch.old scratch.new (made.0 ∷ []) made.1 (D.view disk.old) (D.view disk.new)) }
    ensures fresh { IfOk result (λ made. (0 < made.1.count) × (made.1.page ≡ made.1.written)) }
{
    let mut rows = Vec::new(alloc);
    if first_table(id, Size::of(K), &mut rows).is_err() {
        return Err(ForwardFault::Work(WorkFault::Memory));
    }
    match store::<D, First, Vec<First>, Value, First, K>(alloc, scratch, disk, &rows) {
        Ok(made) => Ok(made),
        Err(fault) => Err(ForwardFault::Work(fault)),
    }
}

// Table `t`, from 2 to 7, of the rows of the table below, which are given up: its pairs, and its rows or, of table 7, the y.
pub(crate) fn next_table<D: Disk, R: Stored<K>, S: Record<K> + MadeOf<Draft>, const K: u32>(
    alloc: Global,
    t: u8,
    room: &mut Room,
    scratch: &mut Scratch,
    disk: &mut D,
    lanes: &mut Lanes,
    rows: Ordered<R, K>,
) -> Result<(Ordered<Pair, K>, Ordered<S, K>), ForwardFault>
    requires size { IsRecordSize K }
    requires below { t ≡ R.table + 1 }
    requires first_table { 1 ≤ R.table }
    requires sixth_table { R.table ≤ 6 }
    requires rows { IsLastList scratch.old rows (D.view disk.old) }
    requires kept { (xs : List _) × ListKept scratch.old.base R.read R.bit_count rows xs (D.view disk.old) }
    requires few { rows.count ≤ 2 ^ (K + 1) }
    requires capacity { room.old.capacity ≤ 2 ^ (K + 1) }
    requires ready { IsReady room.old.matcher }
    requires files { scratch.old.made + 2 ≤ MAX_SCRATCH_FILES }
    requires fits { (d : Draft) → IsPairDraft K t (2 ^ (K + 1)) d → S.fits (S.made_of d) }
    ensures fault { IfErr result (IsMoreFault K room.old.capacity (t - 2) 2 (AreEntriesOf R.entry) R.read R.bit_count rows
        scratch.old scratch.new (D.view disk.old) (D.view disk.new)) }
    ensures made { IfOk result (λ made. HasMoreTables K room.old.capacity (t - 2) (t - 1) (AreEntriesOf R.entry) R.read R.bit_count
        (AreDraftedAs K t S.made_of) S.read S.bit_count scratch.old scratch.new rows (made.0 ∷ []) made.1
        (D.view disk.old) (D.view disk.new)) }
    ensures room { OnOk result (IsReadyRoom room.old room.new) }
    ensures lanes { IfOk result (λ made. AreListsByEights lanes.old lanes.new (made.0 ∷ [])) }
    ensures reads { OnOk result (0 < rows.count → rows.page ≡ rows.written
        → Rose (D.view disk.old).reads (D.view disk.new).reads) }
{
    make_drafts::<D, R, K>(t, room, scratch, disk, lanes, rows)?;
    match store::<D, Draft, Drafts, Pair, S, K>(alloc, scratch, disk, &room.drafts) {
        Ok(made) => Ok(made),
        Err(fault) => Err(ForwardFault::Work(fault)),
    }
}

// The drafts of table `t` in the order of y, made of the rows of the table below, which are given up.
fn make_drafts<D: Disk, R: Stored<K>, const K: u32>(
    t: u8,
    room: &mut Room,
    scratch: &mut Scratch,
    disk: &mut D,
    lanes: &mut Lanes,
    rows: Ordered<R, K>,
) -> Result<(), ForwardFault>
    requires size { IsRecordSize K }
    requires below { t ≡ R.table + 1 }
    requires first_table { 1 ≤ R.table }
    requires sixth_table { R.table ≤ 6 }
    requires rows { IsLastList scratch.old rows (D.view disk.old) }
    requires kept { (xs : List _) × ListKept scratch.old.base R.read R.bit_count rows xs (D.view disk.old) }
    requires ready { IsReady room.old.matcher }
    ensures fault { IfErr result (IsMoreFault K room.old.capacity (t - 2) 2 (AreEntriesOf R.entry) R.read R.bit_count rows
        scratch.old scratch.new (D.view disk.old) (D.view disk.new)) }
    ensures given { OnOk result (HasGivenRows scratch.old scratch.new rows (D.view disk.old) (D.view disk.new)) }
    ensures drafted { OnOk result (AreDrafted K t room.old.capacity R.entry R.read R.bit_count rows room.new.drafts
        (D.view disk.old)) }
    ensures room { OnOk result (IsReadyRoom room.old room.new) }
    ensures lanes { OnOk result (CountsEights lanes.old lanes.new room.new.drafts) }
    ensures reads { OnOk result (0 < rows.count → rows.page ≡ rows.written
        → Rose (D.view disk.old).reads (D.view disk.new).reads) }
{
    let mut rows = rows;
    gather(disk, Size::of(K), t, room, lanes, &mut rows)?;
    room.drafts.sort();
    match rows.remove(scratch, disk) {
        Ok(()) => Ok(()),
        Err(fault) => Err(ForwardFault::Work(fault)),
    }
}
