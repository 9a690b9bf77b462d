// Two tables, one behind the other.
ghost use Rattle.std.specs.Prelude.{◌≡◌, ◌+◌, ◌-◌, ◌<◌, ◌≤◌, ◌^◌, [], ◌∷◌, List, IfErr, IfOk, OnOk};
ghost use Rattle.pos_edge.specs.Faults.{Rose};
ghost use Rattle.pos_record.specs.Fields.{IsRecordSize};
ghost use Rattle.pos_runs.specs.Lists.{ListKept};
ghost use Rattle.pos_forward.specs.declared.drafts.Draft.{Draft};
ghost use Rattle.pos_forward.specs.Drafts.{IsPairDraft, draft_entry};
ghost use Rattle.pos_forward.specs.Matched.{IsReady};
ghost use Rattle.pos_forward.specs.NextTables.{IsLastList, IsReadyRoom};
ghost use Rattle.pos_forward.specs.TablesSoFar.{AreDraftedAs, AreEntriesOf, AreListsByEights, HasMoreTables, IsMoreFault};

use crate::gather::Room;
use crate::kinds::{MadeOf, Stored};
use crate::levels::next_table;
use crate::{Draft, ForwardFault};
use pos_edge::{Disk, MAX_SCRATCH_FILES, Scratch};
use pos_lanes::Lanes;
use pos_record::{Pair, Record};
use pos_runs::Ordered;
use std::alloc::Global;

// Tables t and t + 1 of the rows of the table below, which are given up.
pub(crate) fn two_tables<
    D: Disk,
    R: Stored<K>,
    M: Stored<K> + MadeOf<Draft>,
    S: Record<K> + MadeOf<Draft>,
    const K: u32,
>(
    alloc: Global,
    t: u8,
    room: &mut Room,
    scratch: &mut Scratch,
    disk: &mut D,
    lanes: &mut Lanes,
    rows: Ordered<R, K>,
) -> Result<(Ordered<Pair, K>, Ordered<Pair, K>, Ordered<S, K>), ForwardFault>
    requires size { IsRecordSize K }
    requires below { t ≡ R.table + 1 }
    requires middle { M.table ≡ t }
    requires first_table { 2 ≤ t }
    requires sixth_table { t ≤ 6 }
    requires rows { IsLastList scratch.old rows (D.view disk.old) }
    requires kept { (xs : List _) × ListKept scratch.old.base R.read R.bit_count rows xs (D.view disk.old) }
    requires few { rows.count ≤ 2 ^ (K + 1) }
    requires capacity { room.old.capacity ≤ 2 ^ (K + 1) }
    requires ready { IsReady room.old.matcher }
    requires files { scratch.old.made + 4 ≤ MAX_SCRATCH_FILES }
    requires middle_fits { (d : Draft) → IsPairDraft K t (2 ^ (K + 1)) d → M.fits (M.made_of d) }
    requires middle_entry { (d : Draft) → M.entry (M.made_of d) ≡ draft_entry K t d }
    requires fits { (d : Draft) → IsPairDraft K (t + 1) (2 ^ (K + 1)) d → S.fits (S.made_of d) }
    ensures fault { IfErr result (IsMoreFault K room.old.capacity (t - 2) 4 (AreEntriesOf R.entry) R.read R.bit_count rows
        scratch.old scratch.new (D.view disk.old) (D.view disk.new)) }
    ensures made { IfOk result (λ made. HasMoreTables K room.old.capacity (t - 2) t (AreEntriesOf R.entry) R.read R.bit_count
        (AreDraftedAs K (t + 1) S.made_of) S.read S.bit_count scratch.old scratch.new rows (made.0 ∷ made.1 ∷ []) made.2
        (D.view disk.old) (D.view disk.new)) }
    ensures room { OnOk result (IsReadyRoom room.old room.new) }
    ensures lanes { IfOk result (λ made. AreListsByEights lanes.old lanes.new (made.0 ∷ made.1 ∷ [])) }
    ensures reads { OnOk result (0 < rows.count → rows.page ≡ rows.written
        → Rose (D.view disk.old).reads (D.view disk.new).reads) }
{
    let (first, middle) = next_table::<D, R, M, K>(alloc, t, room, scratch, disk, lanes, rows)?;
    let (second, last) = next_table::<D, M, S, K>(
        alloc,
        t + 1,
        room,
        scratch,
        disk,
        lanes,
        middle,
    )?;
    Ok((first, second, last))
}
