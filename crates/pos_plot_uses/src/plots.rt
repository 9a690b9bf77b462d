//! Whole runs: what is made, and what is there already.
ghost use Rattle.std.specs.Prelude.{◌+◌, ◌^◌, ◌≤◌, codes};
ghost use Rattle.pos_edge.specs.ScratchNames.{IsScratchName};

use pos_edge::{BlankDisk, Disk, MemoryDisk};
use pos_layout::Layout;
use pos_plot::{Counts, Name, PlotFault, plot};
use pos_reader::Plot;
use pos_runs::Plan;
use pos_tuple::Id;
use sha2::{Digest, Sha256};
use std::alloc::Global;
use std::test::Fail;

// How many numbers the tables of the plot of the id of zeros at size 12 have, as plain loops give them.
const NUMBERS: [u64; 7] = [1434, 903, 523, 289, 157, 88, 88];

// SHA-256 of the file of that plot in the first layout: of the file that plain loops in plain Rust write.
const DIGEST_ONE: [u8; 32] = [
    0xfb, 0xfa, 0x7f, 0xa5, 0x03, 0x6c, 0x4d, 0xc7, 0xb8, 0x99, 0x37, 0xf5, 0x26, 0x56, 0x95, 0xca,
    0x20, 0x10, 0x76, 0x1b, 0x98, 0x4a, 0xbf, 0x61, 0x33, 0x31, 0xf5, 0x7d, 0x18, 0x9d, 0xdb, 0x0d,
];

// The same in the second layout, without a memo.
const DIGEST_TWO: [u8; 32] = [
    0x0b, 0x51, 0xe2, 0x52, 0x8c, 0x93, 0x00, 0x61, 0xb6, 0x99, 0xab, 0xf0, 0xb3, 0xf2, 0x94, 0x3c,
    0xd7, 0x0d, 0x9f, 0x56, 0x1d, 0x1d, 0x7c, 0x87, 0xcb, 0x55, 0x7e, 0x7c, 0x84, 0xbe, 0x9d, 0x2c,
];

// A plot of seven tables without numbers.
const EMPTY: Counts = Counts {
    tables: [0; 7],
    length: 176,
};

// How many entries the longest of tables 2 to 7 has while it is made, again by plain loops: it is table 2.
const MOST_ENTRIES: u64 = 3817;

// Makes the plot `p` of the id of zeros with this last byte, in a layout, without a memo.
pub fn plot_with<D: Disk, const K: u32>(
    alloc: Global,
    last: u8,
    layout: Layout,
    disk: &mut D,
) -> Result<Counts, PlotFault>
    requires least { 10 ≤ K }
    requires greatest { K ≤ 50 }
{
    let mut id = [0; 32];
    id[31] = last;
    plot::<D, K>(
        alloc,
        &Id(id),
        &Plan::standard(K),
        layout,
        &[],
        "p",
        "s",
        disk,
    )
}

// The counts of the plot of zeros, with a file of this length.
fn counts_of(length: u64) -> Counts {
    Counts {
        tables: NUMBERS,
        length,
    }
}

// At how many places the bytes of two texts differ, and the last of these.
fn differing(one: &[u8], two: &[u8]) -> (u32, usize) {
    let mut count = 0u32;
    let mut last = 0;
    for (i, (a, b)) in one.iter().zip(two.iter()).enumerate() {
        if a != b {
            count = count.saturating_add(1);
            last = i;
        }
    }
    (count, last)
}

fn digest(file: &[u8]) -> [u8; 32] {
    let mut hasher = Sha256::new();
    hasher.update(file);
    hasher.finalize()
}

#[test]
fn both_layouts_are_those_of_plain_loops(rt: HostRuntime) -> Result<(), Fail> {
    let alloc = rt.alloc();
    let mut disk = MemoryDisk::new(alloc, Vec::new(alloc));
    let counts = plot_with::<MemoryDisk, 12>(alloc, 0, Layout::One, &mut disk);
    assert_eq!(rt; counts, Ok(counts_of(5835)));
    assert_eq!(rt; digest(disk.contents("p").unwrap_or(&[])), DIGEST_ONE);
    assert!(rt; disk.contents("s.0").is_none());
    let mut other = MemoryDisk::new(alloc, Vec::new(alloc));
    let counts = plot_with::<MemoryDisk, 12>(alloc, 0, Layout::Two, &mut other);
    assert_eq!(rt; counts, Ok(counts_of(5891)));
    assert_eq!(rt; digest(other.contents("p").unwrap_or(&[])), DIGEST_TWO);
    Ok(())
}

#[test]
fn two_plans_leave_equal_files_and_no_scratch_file(rt: HostRuntime) -> Result<(), Fail> {
    let alloc = rt.alloc();
    let Some(least) = Plan::new(12, MOST_ENTRIES) else {
        return Err(Fail::from("this capacity is below 2^13"));
    };
    let mut disk = MemoryDisk::new(alloc, Vec::new(alloc));
    let id = Id([0; 32]);
    let counts = plot::<MemoryDisk, 12>(alloc, &id, &least, Layout::Two, &[], "q", "t", &mut disk);
    assert_eq!(rt; counts, Ok(counts_of(5891)));
    assert_eq!(rt; digest(disk.contents("q").unwrap_or(&[])), DIGEST_TWO);
    assert!(rt; disk.contents("t.0").is_none());
    assert!(rt; disk.contents("t.18").is_none());
    Ok(())
}

// The memo stands behind the header, and the file is longer by it.
#[test]
fn a_memo_is_in_the_file(rt: HostRuntime) -> Result<(), Fail> {
    let alloc = rt.alloc();
    let mut disk = MemoryDisk::new(alloc, Vec::new(alloc));
    let id = Id([0; 32]);
    let memo = b"key".as_slice();
    if memo.len() > Layout::Two.greatest_memo() {
        return Err(Fail::from("a memo may have three bytes"));
    }
    let plan = Plan::standard(12);
    let counts = plot::<MemoryDisk, 12>(alloc, &id, &plan, Layout::Two, memo, "p", "s", &mut disk);
    assert_eq!(rt; counts, Ok(counts_of(5894)));
    match Plot::open(alloc, &mut disk, "p") {
        Ok(plot) => {
            assert_eq!(rt; plot.layout(), Layout::Two);
            assert_eq!(rt; plot.memo(), b"key".as_slice());
        }
        Err(_) => assert!(rt; false),
    }
    Ok(())
}

// The run of this name and these scratch names over a disk with `p` and `s.1`.
fn refused<D: Disk>(
    alloc: Global,
    plan: &Plan,
    name: &str,
    disk: &mut D,
) -> Result<Counts, PlotFault>
    requires plan { plan.now ≤ 2 ^ (12 + 1) }
    requires apart { IsScratchName (codes "s") name.now → ⊥ }
{
    plot::<D, 12>(alloc, &Id([0; 32]), plan, Layout::Two, &[], name, "s", disk)
}

#[test]
fn names_that_are_there_are_refused_and_kept(rt: HostRuntime) -> Result<(), Fail> {
    let alloc = rt.alloc();
    let mut disk = MemoryDisk::new(alloc, Vec::new(alloc));
    disk.add("p", b"any")?;
    disk.add("s.1", b"other")?;
    let standard = Plan::standard(12);
    let there = refused(alloc, &standard, "p", &mut disk);
    assert_eq!(rt; there, Err(PlotFault::Exists(Name::Plot)));
    let scratch = refused(alloc, &standard, "q", &mut disk);
    assert_eq!(rt; scratch, Err(PlotFault::Exists(Name::Scratch(1))));
    assert!(rt; disk.contents("p") == Some(b"any".as_slice()));
    assert!(rt; disk.contents("s.1") == Some(b"other".as_slice()));
    Ok(())
}

#[test]
fn a_full_table_is_refused_beside_a_file_of_others(rt: HostRuntime) -> Result<(), Fail> {
    let alloc = rt.alloc();
    let mut disk = MemoryDisk::new(alloc, Vec::new(alloc));
    disk.add("s.18", b"other")?;
    let Some(small) = Plan::new(12, MOST_ENTRIES - 1) else {
        return Err(Fail::from("this capacity is below 2^13"));
    };
    let full = refused(alloc, &small, "r", &mut disk);
    assert_eq!(rt; full, Err(PlotFault::TableFull { table: 2 }));
    assert!(rt; disk.contents("s.18") == Some(b"other".as_slice()));
    Ok(())
}

// The last byte of an id is no part of the key of its tables, so that the files differ there alone: in byte 47.
#[test]
fn ids_that_differ_in_the_last_byte_have_equal_tables(rt: HostRuntime) -> Result<(), Fail> {
    let alloc = rt.alloc();
    let mut disk = MemoryDisk::new(alloc, Vec::new(alloc));
    let counts = plot_with::<MemoryDisk, 12>(alloc, 0, Layout::Two, &mut disk);
    assert_eq!(rt; counts, Ok(counts_of(5891)));
    let mut other = MemoryDisk::new(alloc, Vec::new(alloc));
    let counts = plot_with::<MemoryDisk, 12>(alloc, 1, Layout::Two, &mut other);
    assert_eq!(rt; counts, Ok(counts_of(5891)));
    let file = disk.contents("p").unwrap_or(&[]);
    let changed = other.contents("p").unwrap_or(&[]);
    assert_eq!(rt; changed.len(), file.len());
    assert_eq!(rt; differing(file, changed), (1, 47));
    Ok(())
}

// No tuple of the id of zeros has an entry in table 7 at size 10. On the disk that keeps no bytes each y of table 1 is read
// back as 0, so that no pair matches.
#[test]
fn a_plot_may_have_no_numbers(rt: HostRuntime) -> Result<(), Fail> {
    let alloc = rt.alloc();
    let mut disk = MemoryDisk::new(alloc, Vec::new(alloc));
    assert_eq!(rt;
        plot_with::<MemoryDisk, 10>(alloc, 0, Layout::One, &mut disk),
        Ok(EMPTY)
    );
    assert_eq!(rt; disk.contents("p").unwrap_or(&[]).len(), 176);
    let mut blank = BlankDisk::new(alloc);
    assert_eq!(rt;
        plot_with::<BlankDisk, 12>(alloc, 0, Layout::Two, &mut blank),
        Ok(EMPTY)
    );
    Ok(())
}
