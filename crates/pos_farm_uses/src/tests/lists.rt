//! Lists of names, good ones and those with a bad line.

use crate::tests::disk_of;
use pos_edge::{Disk, MemoryDisk};
use pos_farm::{ListFault, read_list};
use std::alloc::Global;
use std::process::Abort;
use std::test::Fail;

/// How many names the file `p` lists, or why there is no list.
fn names_in<D: Disk>(alloc: Global, disk: &mut D) -> Result<usize, ListFault> {
    let names = read_list(alloc, "p", disk)?;
    Ok(names.len())
}

/// These bytes list so many names, or have a bad line.
fn lists(
    rt: &impl Abort,
    alloc: Global,
    bytes: &[u8],
    want: Result<usize, ListFault>,
) -> Result<(), Fail> {
    let mut disk = disk_of(alloc, bytes)?;
    assert_eq!(rt; names_in(alloc, &mut disk), want);
    Ok(())
}

/// So many lines, each of so many bytes `a`.
fn lines(alloc: Global, count: u32, length: u32) -> Result<Vec<u8>, Fail> {
    let mut bytes = Vec::new(alloc);
    for _ in 0..count {
        for _ in 0..length {
            bytes.push(b'a')?;
        }
        bytes.push(b'\n')?;
    }
    Ok(bytes)
}

#[test]
fn each_kind_of_bad_line_is_named(rt: HostRuntime) -> Result<(), Fail> {
    let alloc = rt.alloc();
    lists(&rt, alloc, b"", Ok(0))?;
    lists(&rt, alloc, b"a\nb c\n", Ok(2))?;
    lists(&rt, alloc, b"a\n\n", Err(ListFault::Line { line: 1 }))?;
    lists(&rt, alloc, b"\n", Err(ListFault::Line { line: 0 }))?;
    lists(&rt, alloc, b"a\nb", Err(ListFault::Line { line: 1 }))?;
    lists(&rt, alloc, b"a\n\xff\n", Err(ListFault::Line { line: 1 }))?;
    Ok(())
}

#[test]
fn names_have_1024_bytes_and_lists_256_names_at_most(rt: HostRuntime) -> Result<(), Fail> {
    let alloc = rt.alloc();
    let longest = lines(alloc, 1, 1_024)?;
    lists(&rt, alloc, longest.as_slice(), Ok(1))?;
    let long = lines(alloc, 1, 1_025)?;
    lists(
        &rt,
        alloc,
        long.as_slice(),
        Err(ListFault::Line { line: 0 }),
    )?;
    let most = lines(alloc, 256, 1)?;
    lists(&rt, alloc, most.as_slice(), Ok(256))?;
    let many = lines(alloc, 257, 1)?;
    lists(
        &rt,
        alloc,
        many.as_slice(),
        Err(ListFault::Line { line: 256 }),
    )?;
    Ok(())
}

#[test]
fn a_list_may_be_absent_or_fail(rt: HostRuntime) -> Result<(), Fail> {
    let alloc = rt.alloc();
    let mut none = MemoryDisk::new(alloc, Vec::new(alloc));
    assert_eq!(rt; names_in(alloc, &mut none), Err(ListFault::Absent));
    let mut fails = MemoryDisk::new(alloc, vec![in alloc; 1]?);
    fails.add("p", b"a\n")?;
    assert_eq!(rt; names_in(alloc, &mut fails), Err(ListFault::DiskFailed));
    Ok(())
}
