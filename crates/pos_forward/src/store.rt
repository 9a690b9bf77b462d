// Rows onto lists on pages.
ghost use Rattle.std.specs.Prelude.{◌≡◌, ◌+◌, ◌<◌, ◌≤◌, ◌^◌, [], ◌∷◌, ℕ, length, map, All, IsErrOf, IfErr, IfOk, OnOk};
ghost use Rattle.pos_edge.specs.Faults.{Rose};
ghost use Rattle.pos_edge.specs.Frame.{Nothing, SameFaultsBut};
ghost use Rattle.pos_edge.specs.ScratchWork.{IsNameBetween, IsScratchWork, IsScratchDone};
ghost use Rattle.pos_record.specs.Fields.{IsRecordSize};
ghost use Rattle.pos_runs.specs.Lists.{IsPageFault};
ghost use Rattle.pos_forward.specs.Storing.{AreListWrites, AreNewLists, AreStored, AreSealedBoth, HaveMore, IsOpenList, IsWorkAnswer};

use crate::kinds::{MadeOf, Rows};
use pos_edge::{Disk, MAX_SCRATCH_FILES, Scratch, WorkFault};
use pos_record::Record;
use pos_runs::{MAX_RECORDS, Ordered};
use std::alloc::Global;

// Each row as a record of two kinds, on two new lists, which are sealed.
pub(crate) fn store<
    D: Disk,
    X: Copy,
    W: Rows<X>,
    R: Record<K> + MadeOf<X>,
    S: Record<K> + MadeOf<X>,
    const K: u32,
>(
    alloc: Global,
    scratch: &mut Scratch,
    disk: &mut D,
    rows: &W,
) -> Result<(Ordered<R, K>, Ordered<S, K>), WorkFault>
    requires size { IsRecordSize K }
    requires files { scratch.old.made + 2 ≤ MAX_SCRATCH_FILES }
    requires few { length (W.rows rows.now) < MAX_RECORDS }
    requires first_fit { All (λ row. R.fits (R.made_of row)) (W.rows rows.now) }
    requires second_fit { All (λ row. S.fits (S.made_of row)) (W.rows rows.now) }
    ensures work { IsScratchWork (IsNameBetween scratch.old.base scratch.old.made (scratch.new.made + 1)) Nothing
        scratch.old scratch.new (D.view disk.old) (D.view disk.new) }
    ensures done { OnOk result (IsScratchDone (IsNameBetween scratch.old.base scratch.old.made scratch.new.made) Nothing
        scratch.old scratch.new (D.view disk.old) (D.view disk.new)) }
    ensures most { scratch.new.made ≤ scratch.old.made + 2 }
    ensures answer { IsWorkAnswer result scratch.old scratch.new (D.view disk.old) (D.view disk.new) }
    ensures stored { IfOk result (λ made. AreStored R.read R.bit_count S.read S.bit_count scratch.old scratch.new
        made.0 made.1 (map R.made_of (W.rows rows.now)) (map S.made_of (W.rows rows.now)) (D.view disk.old) (D.view disk.new)) }
{
    let (mut first, mut second) = make_two(alloc, scratch, disk)?;
    push_all(disk, &mut first, &mut second, rows)?;
    seal_both(disk, &mut first, &mut second)?;
    Ok((first, second))
}

// Two new lists.
fn make_two<D: Disk, R: Record<K>, S: Record<K>, const K: u32>(
    alloc: Global,
    scratch: &mut Scratch,
    disk: &mut D,
) -> Result<(Ordered<R, K>, Ordered<S, K>), WorkFault>
    requires size { IsRecordSize K }
    requires files { scratch.old.made + 2 ≤ MAX_SCRATCH_FILES }
    ensures work { IsScratchWork (IsNameBetween scratch.old.base scratch.old.made (scratch.new.made + 1)) Nothing
        scratch.old scratch.new (D.view disk.old) (D.view disk.new) }
    ensures done { OnOk result (IsScratchDone (IsNameBetween scratch.old.base scratch.old.made scratch.new.made) Nothing
        scratch.old scratch.new (D.view disk.old) (D.view disk.new)) }
    ensures most { scratch.new.made ≤ scratch.old.made + 2 }
    ensures answer { IsWorkAnswer result scratch.old scratch.new (D.view disk.old) (D.view disk.new) }
    ensures lists { IfOk result (λ made. AreNewLists R.read R.bit_count S.read S.bit_count scratch.old scratch.new
        made.0 made.1 (D.view disk.old) (D.view disk.new)) }
{
    let first = Ordered::new(alloc, scratch, disk)?;
    let second = Ordered::new(alloc, scratch, disk)?;
    Ok((first, second))
}

// Puts each row as a record of two kinds behind the others of two lists.
fn push_all<
    D: Disk,
    X: Copy,
    W: Rows<X>,
    R: Record<K> + MadeOf<X>,
    S: Record<K> + MadeOf<X>,
    const K: u32,
>(
    disk: &mut D,
    first: &mut Ordered<R, K>,
    second: &mut Ordered<S, K>,
    rows: &W,
) -> Result<(), WorkFault>
    requires size { IsRecordSize K }
    requires first_open { IsOpenList R.bit_count first.old (D.view disk.old) }
    requires second_open { IsOpenList S.bit_count second.old (D.view disk.old) }
    requires first_few { first.old.count + length (W.rows rows.now) < MAX_RECORDS }
    requires second_few { second.old.count + length (W.rows rows.now) < MAX_RECORDS }
    requires first_fit { All (λ row. R.fits (R.made_of row)) (W.rows rows.now) }
    requires second_fit { All (λ row. S.fits (S.made_of row)) (W.rows rows.now) }
    ensures writes { AreListWrites first.old first.new second.old second.new (D.view disk.old) (D.view disk.new) }
    ensures more { OnOk result (HaveMore R.read R.bit_count S.read S.bit_count first.old first.new second.old second.new
        (map R.made_of (W.rows rows.now)) (map S.made_of (W.rows rows.now)) (D.view disk.old) (D.view disk.new)) }
    ensures failed { IsErrOf result WorkFault.DiskFailed → Rose (D.view disk.old).faults (D.view disk.new).faults }
    ensures quiet { SameFaultsBut WorkFault.DiskFailed result (D.view disk.old) (D.view disk.new) }
    ensures fault { IfErr result IsPageFault }
{
    for i in 0..rows.count() {
        let row = rows.row(i);
        push_both(disk, first, &R::made_of(&row), second, &S::made_of(&row))?;
    }
    Ok(())
}

// Puts a record behind the others of one list, and one behind those of another.
#[inline(always)]
fn push_both<D: Disk, R: Record<K>, S: Record<K>, const K: u32>(
    disk: &mut D,
    first: &mut Ordered<R, K>,
    item: &R,
    second: &mut Ordered<S, K>,
    other: &S,
) -> Result<(), WorkFault>
    requires size { IsRecordSize K }
    requires first_open { IsOpenList R.bit_count first.old (D.view disk.old) }
    requires second_open { IsOpenList S.bit_count second.old (D.view disk.old) }
    requires first_few { first.old.count < MAX_RECORDS }
    requires second_few { second.old.count < MAX_RECORDS }
    requires item_fits { R.fits item.now }
    requires other_fits { S.fits other.now }
    ensures writes { AreListWrites first.old first.new second.old second.new (D.view disk.old) (D.view disk.new) }
    ensures more { OnOk result (HaveMore R.read R.bit_count S.read S.bit_count first.old first.new second.old second.new
        (item.now ∷ []) (other.now ∷ []) (D.view disk.old) (D.view disk.new)) }
    ensures failed { IsErrOf result WorkFault.DiskFailed → Rose (D.view disk.old).faults (D.view disk.new).faults }
    ensures quiet { SameFaultsBut WorkFault.DiskFailed result (D.view disk.old) (D.view disk.new) }
    ensures fault { IfErr result IsPageFault }
{
    first.push(disk, item)?;
    second.push(disk, other)?;
    Ok(())
}

// Seals two lists.
fn seal_both<D: Disk, R: Record<K>, S: Record<K>, const K: u32>(
    disk: &mut D,
    first: &mut Ordered<R, K>,
    second: &mut Ordered<S, K>,
) -> Result<(), WorkFault>
    requires size { IsRecordSize K }
    requires first_open { IsOpenList R.bit_count first.old (D.view disk.old) }
    requires second_open { IsOpenList S.bit_count second.old (D.view disk.old) }
    ensures writes { AreListWrites first.old first.new second.old second.new (D.view disk.old) (D.view disk.new) }
    ensures sealed { OnOk result (AreSealedBoth R.read R.bit_count S.read S.bit_count first.old first.new second.old second.new
        (D.view disk.old) (D.view disk.new)) }
    ensures failed { IsErrOf result WorkFault.DiskFailed → Rose (D.view disk.old).faults (D.view disk.new).faults }
    ensures quiet { SameFaultsBut WorkFault.DiskFailed result (D.view disk.old) (D.view disk.new) }
    ensures fault { IfErr result IsPageFault }
{
    first.seal(disk)?;
    second.seal(disk)?;
    Ok(())
}
