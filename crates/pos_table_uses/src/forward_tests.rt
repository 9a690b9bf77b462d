ghost use Rattle.pos_record.specs.Fields.{IsRecordSize};

use pos_edge::{BlankDisk, Disk, MemoryDisk, Scratch, WorkFault};
use pos_forward::{ForwardFault, forward};
use pos_lanes::Lanes;
use pos_runs::Plan;
use pos_tuple::Id;
use std::alloc::Global;
use std::test::Fail;

// How many entries each table of the id of zeros has, where none from 2 on may have more than the capacity.
fn counts<D: Disk, const K: u32>(
    alloc: Global,
    capacity: u64,
    disk: &mut D,
) -> Result<[u64; 7], ForwardFault>
    requires { IsRecordSize K }
{
    let Some(plan) = Plan::new(K, capacity) else {
        return Err(ForwardFault::TableFull { table: 0 });
    };
    let Ok(mut scratch) = Scratch::new(alloc, "s") else {
        return Err(ForwardFault::Work(WorkFault::Memory));
    };
    let mut lanes = Lanes::new();
    let tables = forward::<D, K>(alloc, &Id([0; 32]), &plan, &mut scratch, disk, &mut lanes)?;
    Ok([
        tables.count(1),
        tables.count(2),
        tables.count(3),
        tables.count(4),
        tables.count(5),
        tables.count(6),
        tables.count(7),
    ])
}

// The counts are those that an independent program gives. A disk that gives zeros has no y that match.
#[test]
fn tables_of_the_id_of_zeros_have_their_counts(rt: HostRuntime) -> Result<(), Fail> {
    let mut disk = MemoryDisk::new(rt.alloc(), Vec::new(rt.alloc()));
    assert_eq!(rt;
        counts::<MemoryDisk, 12>(rt.alloc(), 3817, &mut disk)?,
        [4096, 3817, 3422, 2689, 1691, 667, 88]
    );
    let mut disk = BlankDisk::new(rt.alloc());
    assert_eq!(rt;
        counts::<BlankDisk, 10>(rt.alloc(), 2048, &mut disk)?,
        [1024, 0, 0, 0, 0, 0, 0]
    );
    Ok(())
}

// Table 2 has 867 entries at size 10, and no later one has more.
#[test]
fn each_refusal_names_its_cause(rt: HostRuntime) -> Result<(), Fail> {
    for capacity in [0, 100, 866] {
        let mut disk = MemoryDisk::new(rt.alloc(), Vec::new(rt.alloc()));
        let full = Err(ForwardFault::TableFull { table: 2 });
        assert_eq!(rt;
            counts::<MemoryDisk, 10>(rt.alloc(), capacity, &mut disk),
            full
        );
    }
    let mut disk = MemoryDisk::new(rt.alloc(), Vec::new(rt.alloc()));
    assert_eq!(rt;
        counts::<MemoryDisk, 10>(rt.alloc(), 867, &mut disk)?,
        [1024, 867, 581, 245, 42, 2, 0]
    );
    for call in 0..disk.calls() {
        let mut failing = MemoryDisk::new(rt.alloc(), vec![in rt.alloc(); call]?);
        let failed = Err(ForwardFault::Work(WorkFault::DiskFailed));
        assert_eq!(rt;
            counts::<MemoryDisk, 10>(rt.alloc(), 867, &mut failing),
            failed
        );
    }
    let mut taken = MemoryDisk::new(rt.alloc(), Vec::new(rt.alloc()));
    assert!(rt; taken.create("s.5").is_ok());
    let there = Err(ForwardFault::Work(WorkFault::Exists { file: 5 }));
    assert_eq!(rt;
        counts::<MemoryDisk, 10>(rt.alloc(), 867, &mut taken),
        there
    );
    Ok(())
}
