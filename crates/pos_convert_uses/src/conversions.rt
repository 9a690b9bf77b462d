//! What conversions of small files answer, and what they leave.
ghost use Rattle.std.specs.Prelude.{◌≤◌, length};

use crate::files::{changed, file_of_one_number, file_of_two_parks, small_file};
use pos_convert::{ConvertFault, convert};
use pos_edge::{Disk, MemoryDisk};
use pos_layout::{Damage, Layout, MOST_MEMO};
use pos_reader::Plot;
use std::alloc::Global;
use std::process::Abort;
use std::test::Fail;

// The conversion of the file `p` to this name; None where it does not open.
fn conversion_of_p<D: Disk>(
    alloc: Global,
    memo: &[u8],
    name: &str,
    disk: &mut D,
) -> Option<Result<u64, ConvertFault>>
    requires { length memo.now ≤ MOST_MEMO }
{
    let Ok(mut plot) = Plot::open(alloc, disk, "p") else {
        return None;
    };
    Some(convert(alloc, &mut plot, memo, name, disk))
}

// The file `n` of a disk has these bytes.
fn has_bytes(rt: &impl Abort, disk: &MemoryDisk, want: Option<&[u8]>) {
    assert!(rt; disk.contents("n") == want);
}

// The small file of this layout and memo converts to that of the second layout and the other memo.
fn becomes(
    rt: &impl Abort,
    alloc: Global,
    layout: Layout,
    memo: &[u8],
    other: &[u8],
    total: u64,
) -> Result<(), Fail>
    requires { length other.now ≤ MOST_MEMO }
{
    let bytes = small_file(alloc, layout, memo)?;
    let want = small_file(alloc, Layout::Two, other)?;
    let mut disk = MemoryDisk::new(alloc, Vec::new(alloc));
    disk.add("p", &bytes)?;
    assert_eq!(rt;
        conversion_of_p(alloc, other, "n", &mut disk),
        Some(Ok(total))
    );
    has_bytes(rt, &disk, Some(want.as_slice()));
    Ok(())
}

#[test]
fn a_small_file_becomes_that_of_the_second_layout(rt: HostRuntime) -> Result<(), Fail> {
    let alloc = rt.alloc();
    becomes(&rt, alloc, Layout::One, &[], &[], 484)?;
    becomes(&rt, alloc, Layout::One, &[], &[0xab, 0xcd], 486)?;
    becomes(&rt, alloc, Layout::Two, &[0xab, 0xcd], &[], 484)
}

#[test]
fn a_name_that_is_there_is_kept(rt: HostRuntime) -> Result<(), Fail> {
    let alloc = rt.alloc();
    let bytes = small_file(alloc, Layout::One, &[])?;
    let mut disk = MemoryDisk::new(alloc, Vec::new(alloc));
    disk.add("p", &bytes)?;
    disk.add("n", b"kept")?;
    let there = Some(Err(ConvertFault::Exists));
    assert_eq!(&rt; conversion_of_p(alloc, &[], "p", &mut disk), there);
    assert_eq!(&rt; conversion_of_p(alloc, &[], "n", &mut disk), there);
    has_bytes(&rt, &disk, Some(b"kept".as_slice()));
    Ok(())
}

// A conversion of these bytes shows this damage, and leaves a file with a closed gate.
fn shows(rt: &impl Abort, alloc: Global, bytes: &[u8], damage: Damage) -> Result<(), Fail> {
    let mut disk = MemoryDisk::new(alloc, Vec::new(alloc));
    disk.add("p", bytes)?;
    let want = Some(Err(ConvertFault::Damage(damage)));
    assert_eq!(rt; conversion_of_p(alloc, &[], "n", &mut disk), want);
    assert!(rt;
        disk.contents("n")
            .is_some_and(|left| left.first() == Some(&0))
    );
    Ok(())
}

// The park of table 1 is at byte 176, its entry at 180: offset, length, count, digest and head.
#[test]
fn damages_are_named(rt: HostRuntime) -> Result<(), Fail> {
    let alloc = rt.alloc();
    let length = changed(alloc, 191, 0)?;
    shows(&rt, alloc, &length, Damage::Directory { table: 1, park: 0 })?;
    let digest = changed(alloc, 196, 0)?;
    shows(&rt, alloc, &digest, Damage::Digest { table: 1, park: 0 })?;
    let park = changed(alloc, 212, 1)?;
    shows(&rt, alloc, &park, Damage::Digest { table: 2, park: 0 })
}

#[test]
fn a_number_that_points_outside_is_named(rt: HostRuntime) -> Result<(), Fail> {
    let alloc = rt.alloc();
    let bytes = file_of_one_number(alloc)?;
    shows(&rt, alloc, &bytes, Damage::Pointer { table: 2, at: 0 })
}

#[test]
fn a_number_that_is_not_above_the_one_before_it_is_named(rt: HostRuntime) -> Result<(), Fail> {
    let alloc = rt.alloc();
    let same = file_of_two_parks(alloc, 2047)?;
    let order = Damage::Order { table: 1, at: 2048 };
    shows(&rt, alloc, &same, order)?;
    let less = file_of_two_parks(alloc, 5)?;
    shows(&rt, alloc, &less, order)?;
    let mut disk = MemoryDisk::new(alloc, Vec::new(alloc));
    let above = file_of_two_parks(alloc, 2048)?;
    disk.add("p", &above)?;
    assert!(&rt; matches!(conversion_of_p(alloc, &[], "n", &mut disk), Some(Ok(_))));
    Ok(())
}

// Over a disk that lets so many calls pass, two of which open the file, the conversion says that the disk failed, and what it
// leaves does not open.
fn fails_after(rt: &impl Abort, alloc: Global, bytes: &[u8], calls: u64) -> Result<(), Fail> {
    let mut disk = MemoryDisk::stopping(alloc, calls);
    disk.add("p", bytes)?;
    let failed = Some(Err(ConvertFault::DiskFailed));
    assert_eq!(rt; conversion_of_p(alloc, &[], "n", &mut disk), failed);
    if let Some(left) = disk.contents("n") {
        assert!(rt; left.first() != Some(&1));
    }
    Ok(())
}

#[test]
fn a_disk_that_fails_is_said_to(rt: HostRuntime) -> Result<(), Fail> {
    let alloc = rt.alloc();
    let bytes = small_file(alloc, Layout::One, &[])?;
    for calls in [2, 3, 4, 5, 6, 7, 8, 12, 20, 30] {
        fails_after(&rt, alloc, &bytes, calls)?;
    }
    Ok(())
}
