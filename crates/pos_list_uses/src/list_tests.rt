use crate::client::wrong_values;
use pos_edge::{BlankDisk, Disk, MemoryDisk, Scratch, WorkFault};
use pos_record::Pair;
use pos_runs::Ordered;
use std::alloc::Global;
use std::test::Fail;

// The calls of the worked row: a list of one pair is sealed and read.
fn one_pair<D: Disk>(alloc: Global, disk: &mut D) -> Result<Pair, WorkFault> {
    let mut scratch = Scratch::new(alloc, "s").map_err(|_| WorkFault::Memory)?;
    let mut list = Ordered::<Pair, 12>::new(alloc, &mut scratch, disk)?;
    list.push(disk, &Pair { left: 4, right: 1 })?;
    list.seal(disk)?;
    list.get(disk, 0)
}

#[test]
fn a_list_gives_its_pair_over_a_disk_in_memory(rt: HostRuntime) -> Result<(), Fail> {
    let mut disk = MemoryDisk::new(rt.alloc(), Vec::new(rt.alloc()));
    assert_eq!(rt;
        one_pair(rt.alloc(), &mut disk)?,
        Pair { left: 4, right: 1 }
    );
    Ok(())
}

#[test]
fn zeros_come_back_over_a_disk_that_keeps_none(rt: HostRuntime) -> Result<(), Fail> {
    let mut disk = BlankDisk::new(rt.alloc());
    assert_eq!(rt;
        one_pair(rt.alloc(), &mut disk)?,
        Pair { left: 0, right: 0 }
    );
    Ok(())
}

// A page has room for 10,485 values of 50 bits.
#[test]
fn lists_of_any_length_come_back_in_order(rt: HostRuntime) -> Result<(), Fail> {
    for count in [0, 1, 10_484, 10_485, 10_486, 31_455] {
        let mut disk = MemoryDisk::new(rt.alloc(), Vec::new(rt.alloc()));
        assert_eq!(rt; wrong_values(rt.alloc(), &mut disk, count)?, 0);
    }
    Ok(())
}

// A list of one page and one record makes its file, writes two pages and reads two.
#[test]
fn each_failing_call_is_answered(rt: HostRuntime) -> Result<(), Fail> {
    for calls in 0..5 {
        let mut disk = MemoryDisk::stopping(rt.alloc(), calls);
        let answer = wrong_values(rt.alloc(), &mut disk, 10_486);
        assert_eq!(rt; answer, Err(WorkFault::DiskFailed));
    }
    let mut disk = MemoryDisk::stopping(rt.alloc(), 5);
    assert_eq!(rt; wrong_values(rt.alloc(), &mut disk, 10_486)?, 0);
    Ok(())
}
