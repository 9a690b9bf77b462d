// What works with several lists needs of them, proved from their contracts alone.
ghost use Rattle.std.specs.Prelude.{◌≡◌, ◌≢◌, ◌+◌, ◌<◌, ◌≤◌, ◌++◌, [], ◌∷◌, ℕ, List, true, false, length, slice_get, Some, OnOk, IfOk};
ghost use Rattle.pos_edge.specs.Frame.{KeepsIds, Nothing};
ghost use Rattle.pos_record.specs.Fields.{IsRecordSize};
ghost use Rattle.pos_record.specs.Kinds.{pair_read, pair_width, PairFits, value_read, ValueFits};
ghost use Rattle.pos_runs.specs.Pages.{ListStands};
ghost use Rattle.pos_runs.specs.Lists.{ListKept};

use pos_edge::{Disk, Scratch, WorkFault};
use pos_record::{Pair, Value};
use pos_runs::Ordered;
use std::alloc::Global;

// A record is read from one list and its like pushed on another; a third one stays idle.
pub(crate) fn read_and_push<D: Disk, const K: u32>(
    disk: &mut D,
    from: &mut Ordered<Pair, K>,
    to: &mut Ordered<Pair, K>,
    idle: &mut Ordered<Value, K>,
    i: u64,
) -> Result<(), WorkFault>
    requires size { IsRecordSize K }
    requires sealed { from.old.is_sealed ≡ true }
    requires there { i < from.old.count }
    requires unsealed { to.old.is_sealed ≡ false }
    requires few { to.old.count < 1000 }
    requires from_stands { ListStands (pair_width K) from.old (D.view disk.old) }
    requires to_stands { ListStands (pair_width K) to.old (D.view disk.old) }
    requires to_apart { from.old.number ≢ to.old.number }
    requires idle_apart { idle.old.number ≢ to.old.number }
    ensures from { OnOk result ((base : List ℕ) (xs ys : List _) → ListKept base (pair_read K) (pair_width K) from.old xs (D.view disk.old)
        → ListKept base (pair_read K) (pair_width K) to.old ys (D.view disk.old)
        → ListKept base (pair_read K) (pair_width K) from.new xs (D.view disk.new)) }
    ensures to { OnOk result ((base : List ℕ) (xs ys : List _) → ListKept base (pair_read K) (pair_width K) from.old xs (D.view disk.old)
        → ListKept base (pair_read K) (pair_width K) to.old ys (D.view disk.old) → (D.view disk.old).tells ≡ true
        → (item : _) × (slice_get xs i ≡ Some item) × ListKept base (pair_read K) (pair_width K) to.new (ys ++ item ∷ []) (D.view disk.new)) }
    ensures idle { OnOk result ((base : List ℕ) (ys : List _) (zs : List _) → ListKept base (pair_read K) (pair_width K) to.old ys (D.view disk.old)
        → ListKept base (value_read K) K idle.old zs (D.view disk.old)
        → ListKept base (value_read K) K idle.new zs (D.view disk.new)) }
{
    let _ = &idle;
    let item = from.get(disk, i)?;
    to.push(disk, &item)?;
    Ok(())
}

// Pushes so many values on a new list, each of its place, and answers how many come back as others.
pub(crate) fn wrong_values<D: Disk>(
    alloc: Global,
    disk: &mut D,
    count: u64,
) -> Result<u64, WorkFault>
    requires { count ≤ 100000 }
{
    let Ok(mut scratch) = Scratch::new(alloc, "s") else {
        return Err(WorkFault::Memory);
    };
    let mut list = Ordered::<Value, 50>::new(alloc, &mut scratch, disk)?;
    for x in 0..count {
        list.push(disk, &Value { x })?;
    }
    list.seal(disk)?;
    let mut wrong = 0;
    for i in 0..count {
        let found = list.get(disk, i)?;
        if found.x != i {
            wrong += 1;
        }
    }
    Ok(wrong)
}
