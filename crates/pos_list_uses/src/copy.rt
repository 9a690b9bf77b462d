// The pairs of one list put on another.
ghost use Rattle.std.specs.Prelude.{◌≡◌, ◌≢◌, ◌≤◌, ◌+◌, ◌++◌, ℕ, List, true, false, IfErr, IsErrOf, OnOk};
ghost use Rattle.pos_edge.specs.Faults.{Rose};
ghost use Rattle.pos_record.specs.Fields.{IsRecordSize};
ghost use Rattle.pos_record.specs.Kinds.{pair_read, pair_width};
ghost use Rattle.pos_runs.specs.Pages.{ListStands};
ghost use Rattle.pos_runs.specs.Lists.{IsPageFault, ListKept};
ghost use Rattle.pos_runs.specs.Runs.{StandsSealed};
ghost use Rattle.pos_list_uses.specs.Eight.{HasMore};

use pos_edge::{Disk, WorkFault};
use pos_record::Pair;
use pos_runs::{MAX_RECORDS, Ordered};

/// Puts all pairs of a sealed list, in their order, behind those of another list. The first one holds what it held.
///
/// `DiskFailed` and `Memory` come as `get` and `push` answer them; then nothing is known of the two lists.
pub fn copy_pairs<D: Disk, const K: u32>(
    disk: &mut D,
    from: &mut Ordered<Pair, K>,
    to: &mut Ordered<Pair, K>,
) -> Result<(), WorkFault>
    requires size { IsRecordSize K }
    requires sealed { from.old.is_sealed ≡ true }
    requires unsealed { to.old.is_sealed ≡ false }
    requires few { to.old.count + from.old.count ≤ MAX_RECORDS }
    requires from_stands { ListStands (pair_width K) from.old (D.view disk.old) }
    requires to_stands { ListStands (pair_width K) to.old (D.view disk.old) }
    requires apart { from.old.number ≢ to.old.number }
    ensures kept { OnOk result ((base : List ℕ) (xs ys : List _) → ListKept base (pair_read K) (pair_width K) from.old xs (D.view disk.old)
        → ListKept base (pair_read K) (pair_width K) to.old ys (D.view disk.old)
        → ListKept base (pair_read K) (pair_width K) from.new xs (D.view disk.new)) }
    ensures copied { OnOk result ((base : List ℕ) (xs ys : List _) → ListKept base (pair_read K) (pair_width K) from.old xs (D.view disk.old)
        → ListKept base (pair_read K) (pair_width K) to.old ys (D.view disk.old) → (D.view disk.old).tells ≡ true
        → ListKept base (pair_read K) (pair_width K) to.new (ys ++ xs) (D.view disk.new)) }
    ensures read { OnOk result (StandsSealed (pair_width K) from.new (D.view disk.new)) }
    ensures pushed { OnOk result (ListStands (pair_width K) to.new (D.view disk.new)) }
    ensures more { OnOk result (HasMore from.old.count to.old to.new) }
    ensures failed { IsErrOf result WorkFault.DiskFailed → Rose (D.view disk.old).faults (D.view disk.new).faults }
    ensures fault { IfErr result IsPageFault }
{
    for i in 0..from.len() {
        let pair = from.get(disk, i)?;
        to.push(disk, &pair)?;
    }
    Ok(())
}
