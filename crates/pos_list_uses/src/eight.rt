// Eight lists, of which one is read and one is pushed on.
ghost use Rattle.std.specs.Prelude.{◌≡◌, ◌<◌, ◌+◌, ◌++◌, [], ◌∷◌, ℕ, List, true, false, slice_get, Some, IfErr, IsErrOf, OnOk};
ghost use Rattle.pos_edge.specs.Faults.{Rose};
ghost use Rattle.pos_record.specs.Fields.{IsRecordSize};
ghost use Rattle.pos_record.specs.Kinds.{pair_width};
ghost use Rattle.pos_record.specs.declared.kinds.Pair.{Pair as PairRow};
ghost use Rattle.pos_runs.specs.Pages.{ListStands};
ghost use Rattle.pos_runs.specs.Lists.{HasOneMore, IsPageFault, SameListFile};
ghost use Rattle.pos_runs.specs.Runs.{StandsSealed};
ghost use Rattle.pos_list_uses.specs.Eight.{EightPlainLists, AreAllKept};

use pos_edge::{Disk, WorkFault};
use pos_record::{Number, Pair, Value};
use pos_runs::{MAX_RECORDS, Ordered};

/// Eight lists as a run has them while its tables grow: values, pairs of places for six tables, and numbers.
#[derive(Drop)]
pub struct EightLists<const K: u32> {
    pub values: Ordered<Value, K>,
    pub p2: Ordered<Pair, K>,
    pub p3: Ordered<Pair, K>,
    pub p4: Ordered<Pair, K>,
    pub p5: Ordered<Pair, K>,
    pub p6: Ordered<Pair, K>,
    pub p7: Ordered<Pair, K>,
    pub last: Ordered<Number, K>,
}

impl<const K: u32> EightLists<K> {
    /// Reads pair i of `p6` and puts it behind those of `p7`. The other six lists hold what they held.
    ///
    /// `DiskFailed` and `Memory` come as `get` and `push` answer them; then nothing is known of the two lists.
    pub fn pass_on<D: Disk>(&mut self, disk: &mut D, i: u64) -> Result<(), WorkFault>
        requires size { IsRecordSize K }
        requires sealed { self.old.p6.is_sealed ≡ true }
        requires there { i < self.old.p6.count }
        requires unsealed { self.old.p7.is_sealed ≡ false }
        requires few { self.old.p7.count < MAX_RECORDS }
        requires from_stands { ListStands (pair_width K) self.old.p6 (D.view disk.old) }
        requires to_stands { ListStands (pair_width K) self.old.p7 (D.view disk.old) }
        ensures kept { OnOk result ((base : List ℕ) (xs : EightPlainLists) → AreAllKept K base self.old xs (D.view disk.old)
            → (item : PairRow) × ((D.view disk.old).tells ≡ true → slice_get xs.p6 i ≡ Some item)
            × AreAllKept K base self.new (record xs { p7 = xs.p7 ++ item ∷ [] }) (D.view disk.new)) }
        ensures read { OnOk result (StandsSealed (pair_width K) self.new.p6 (D.view disk.new)) }
        ensures pushed { OnOk result (ListStands (pair_width K) self.new.p7 (D.view disk.new)) }
        ensures more { OnOk result (HasOneMore self.old.p7 self.new.p7) }
        ensures same { SameListFile self.old.p7 self.new.p7 }
        ensures failed { IsErrOf result WorkFault.DiskFailed → Rose (D.view disk.old).faults (D.view disk.new).faults }
        ensures fault { IfErr result IsPageFault }
    {
        let pair = self.p6.get(disk, i)?;
        self.p7.push(disk, &pair)?;
        Ok(())
    }
}
