ghost use Rattle.std.specs.Prelude.{◌≤◌, All, length};
ghost use Rattle.pos_layout.specs.Layouts.{memo_of};
ghost use Rattle.pos_reader.specs.Plots.{IsOpen};

use crate::writer_tests::write_plot;
use pos_edge::{BlankDisk, Disk, Memory, MemoryDisk};
use pos_layout::{Layout, parks_of};
use pos_reader::{Damage, HeaderField, OpenRefusal, Plot, ReadRefusal};
use pos_rice::MOST_NUMBERS;
use pos_tuple::Size;
use sha2::{Digest, Sha256};
use std::alloc::{AllocError, Global};
use std::process::Abort;
use std::test::Fail;

// How many numbers the tables of the small file below have.
const COUNTS: [u64; 7] = [3, 3, 3, 3, 3, 1, 1];

// SHA-256 of four zero bytes, as far as a file has it.
const DIGEST: [u8; 16] = [
    0xdf, 0x3f, 0x61, 0x98, 0x04, 0xa9, 0x2f, 0xdb, 0x40, 0x57, 0x19, 0x2d, 0xc4, 0x3d, 0xd7, 0x48,
];

// Where its park of table 1 is, and that of table 7 in each layout.
const FIRST_PARK: usize = 176;

const LAST_PARKS: [(Layout, usize); 2] = [(Layout::One, 392), (Layout::Two, 440)];

/// The gate and the name of a layout.
fn front_of(layout: Layout) -> &'static [u8; 16] {
    match layout {
        Layout::One => b"\x01SPACEPLOT-OWN-1",
        Layout::Two => b"\x01SPACEPLOT-OWN-2",
    }
}

/// The gate, the name, the id, the size, the length of the memo and five zeros.
fn header_start(alloc: Global, layout: Layout, size: u8, memo: u8) -> Result<Vec<u8>, AllocError> {
    let mut bytes = Vec::new(alloc);
    bytes.extend_from_slice(front_of(layout))?;
    bytes.extend_from_slice(&[0; 32])?;
    bytes.extend_from_slice(&[size, 0, memo, 0, 0, 0, 0, 0])?;
    Ok(bytes)
}

/// Two numbers of eight bytes each.
fn push_two(bytes: &mut Vec<u8>, first: u64, second: u64) -> Result<(), AllocError> {
    bytes.extend_from_slice(&first.to_be_bytes())?;
    bytes.extend_from_slice(&second.to_be_bytes())
}

/// A park of four zeros at this place, and the entry of it.
fn push_park(
    bytes: &mut Vec<u8>,
    layout: Layout,
    offset: u64,
    count: u8,
) -> Result<(), AllocError> {
    bytes.extend_from_slice(&[0; 4])?;
    bytes.extend_from_slice(&offset.to_be_bytes())?;
    bytes.extend_from_slice(&[0, 0, 0, 4, 0, 0, 0, count])?;
    bytes.extend_from_slice(&DIGEST[..layout.digest_bytes()])?;
    bytes.extend_from_slice(&[0; 8])
}

/// Where the small file has the park of the table after so many others.
fn park_at(layout: Layout, memo: &[u8], table: u64) -> u64 {
    let each = 4 + layout.entry_bytes() as u64;
    (memo.len() as u64)
        .wrapping_add(176)
        .wrapping_add(each.wrapping_mul(table))
}

/// A small plot file of size 10 with this memo: each table has one park, of the four bytes 00 00 00 00.
fn small_file(alloc: Global, layout: Layout, memo: &[u8]) -> Result<Vec<u8>, AllocError> {
    let mut bytes = header_start(alloc, layout, 10, (memo.len() % 256) as u8)?;
    for table in 0..7u64 {
        push_two(
            &mut bytes,
            COUNTS[table as usize],
            park_at(layout, memo, table).wrapping_add(4),
        )?;
    }
    bytes.extend_from_slice(&park_at(layout, memo, 7).to_be_bytes())?;
    bytes.extend_from_slice(memo)?;
    for table in 0..7u64 {
        push_park(
            &mut bytes,
            layout,
            park_at(layout, memo, table),
            if table < 5 { 3 } else { 1 },
        )?;
    }
    Ok(bytes)
}

/// The small file without a memo, with some bytes changed.
fn changed(alloc: Global, layout: Layout, changes: &[(usize, u8)]) -> Result<Vec<u8>, AllocError> {
    let mut bytes = small_file(alloc, layout, &[])?;
    for (at, byte) in changes {
        if let Some(place) = bytes.get_mut(*at) {
            *place = *byte;
        }
    }
    Ok(bytes)
}

/// The small file with another park, and the digest of it in its entry.
fn with_park(
    alloc: Global,
    layout: Layout,
    at: usize,
    park: &[u8; 4],
) -> Result<Vec<u8>, AllocError> {
    let digest = Sha256::digest(park.as_slice());
    let mut bytes = small_file(alloc, layout, &[])?;
    for (i, byte) in park.iter().enumerate() {
        if let Some(place) = bytes.get_mut(at.wrapping_add(i)) {
            *place = *byte;
        }
    }
    for i in 0..layout.digest_bytes() {
        if let Some(place) = bytes.get_mut(at.wrapping_add(20 + i)) {
            *place = digest[i];
        }
    }
    Ok(bytes)
}

/// Why the file `p` of a disk is not opened; None where it is.
fn refusal_in<D: Disk>(alloc: Global, disk: &mut D) -> Option<OpenRefusal> {
    match Plot::open(alloc, disk, "p") {
        Ok(_) => None,
        Err(refusal) => Some(refusal),
    }
}

/// What reading number i of table t of the file `p` answers; None where it does not open or has no such place.
fn number_in<D: Disk>(
    alloc: Global,
    disk: &mut D,
    t: u8,
    i: u64,
) -> Option<Result<u128, ReadRefusal>> {
    let Ok(mut plot) = Plot::open(alloc, disk, "p") else {
        return None;
    };
    if t < 1 || t > 7 || plot.count(t) <= i {
        return None;
    }
    Some(plot.number(disk, t, i))
}

/// A disk with these bytes in the file `p`, whose calls of these numbers fail.
fn disk_of(alloc: Global, bytes: &[u8], failing: &[u64]) -> Result<MemoryDisk, Memory> {
    let failing = failing.to_vec(alloc).map_err(|_| Memory)?;
    let mut disk = MemoryDisk::new(alloc, failing);
    disk.add("p", bytes)?;
    Ok(disk)
}

/// Why a file of these bytes is not opened; None where it is.
fn refusal_of(alloc: Global, bytes: &[u8]) -> Result<Option<OpenRefusal>, Memory> {
    let mut disk = disk_of(alloc, bytes, &[])?;
    Ok(refusal_in(alloc, &mut disk))
}

/// What reading number i of table t of a file answers; None where it does not open or has no such place.
fn number_of(
    alloc: Global,
    bytes: &[u8],
    t: u8,
    i: u64,
) -> Result<Option<Result<u128, ReadRefusal>>, Memory> {
    let mut disk = disk_of(alloc, bytes, &[])?;
    Ok(number_in(alloc, &mut disk, t, i))
}

/// Opening a file of these bytes shows this damage.
fn opening_shows(rt: &impl Abort, alloc: Global, bytes: &[u8], damage: Damage) -> Result<(), Fail> {
    assert_eq!(rt;
        refusal_of(alloc, bytes)?,
        Some(OpenRefusal::Damage(damage))
    );
    Ok(())
}

/// Opening the small file with these bytes changed shows this damage.
fn change_shows(
    rt: &impl Abort,
    alloc: Global,
    layout: Layout,
    changes: &[(usize, u8)],
    damage: Damage,
) -> Result<(), Fail> {
    let bytes = changed(alloc, layout, changes)?;
    opening_shows(rt, alloc, bytes.as_slice(), damage)
}

/// Reading the first number of a table shows this damage.
fn number_shows(
    rt: &impl Abort,
    alloc: Global,
    bytes: &[u8],
    t: u8,
    damage: Damage,
) -> Result<(), Fail> {
    let want = Some(Err(ReadRefusal::Damage(damage)));
    assert_eq!(rt; number_of(alloc, bytes, t, 0)?, want);
    Ok(())
}

/// Reading number 2 of table 1 of the small file with one byte changed shows this damage.
fn changed_number_shows(
    rt: &impl Abort,
    alloc: Global,
    layout: Layout,
    at: usize,
    byte: u8,
    damage: Damage,
) -> Result<(), Fail> {
    let bytes = changed(alloc, layout, &[(at, byte)])?;
    let want = Some(Err(ReadRefusal::Damage(damage)));
    assert_eq!(rt;
        number_of(alloc, bytes.as_slice(), 1, 2)?,
        want,
        "byte {at} made {byte}"
    );
    Ok(())
}

/// The id, the size, the layout, the memo, the length and the counts of the small file.
fn has_header(rt: &impl Abort, plot: &Plot, layout: Layout, memo: &[u8], length: u64) {
    assert_eq!(rt; plot.id().0, [0; 32]);
    assert_eq!(rt; plot.size().k(), 10);
    assert_eq!(rt; plot.layout(), layout);
    assert!(rt; plot.memo() == memo);
    assert_eq!(rt; plot.length(), length);
    for table in 1..=7u8 {
        assert_eq!(rt; plot.count(table), COUNTS[table as usize - 1]);
    }
}

/// Table 7 has one number, of the f7 0.
fn has_last_table<D: Disk>(rt: &impl Abort, plot: &mut Plot, disk: &mut D)
    requires { IsOpen plot.old (D.view disk.old) }
{
    assert_eq!(rt; plot.size().k(), 10);
    assert_eq!(rt; plot.count(7), 1);
    assert_eq!(rt; parks_of(plot.layout(), 1), 1);
    assert_eq!(rt; plot.head(disk, 0), Ok(0));
    assert_eq!(rt; plot.under(disk, 0, 0), Ok(0));
    assert_eq!(rt; plot.under(disk, 0, 1), Ok(1));
}

/// Over a disk that fails two times, table 6 has one number, which is read the third time.
fn is_read_the_third_time<D: Disk>(rt: &impl Abort, plot: &mut Plot, disk: &mut D)
    requires { IsOpen plot.old (D.view disk.old) }
{
    assert_eq!(rt; plot.count(6), 1);
    assert_eq!(rt; plot.number(disk, 6, 0), Err(ReadRefusal::DiskFailed));
    assert_eq!(rt; plot.number(disk, 6, 0), Err(ReadRefusal::DiskFailed));
    assert_eq!(rt; plot.number(disk, 6, 0), Ok(0));
}

/// The small file of this layout and memo has so many bytes, and is opened by so many calls on the disk.
fn small_file_opens(
    rt: &impl Abort,
    alloc: Global,
    layout: Layout,
    memo: &[u8],
    length: u64,
    calls: u64,
) -> Result<(), Fail> {
    let bytes = small_file(alloc, layout, memo)?;
    assert_eq!(rt; bytes.len() as u64, length);
    let mut disk = disk_of(alloc, bytes.as_slice(), &[])?;
    let plot = Plot::open(alloc, &mut disk, "p")?;
    assert_eq!(rt; disk.calls(), calls);
    has_header(rt, &plot, layout, memo, length);
    Ok(())
}

#[test]
fn the_small_file_shows_its_header(rt: HostRuntime) -> Result<(), Fail> {
    let alloc = rt.alloc();
    small_file_opens(&rt, alloc, Layout::One, &[], 428, 2)?;
    small_file_opens(&rt, alloc, Layout::Two, &[], 484, 2)?;
    // The memo is a read of its own.
    small_file_opens(&rt, alloc, Layout::Two, &[0xab, 0xcd], 486, 3)
}

/// The small file shows the numbers 0, 1 and 2, as far as a table goes.
fn shows_numbers(rt: &impl Abort, alloc: Global, layout: Layout, memo: &[u8]) -> Result<(), Fail> {
    let bytes = small_file(alloc, layout, memo)?;
    for table in 1..=7u8 {
        for i in 0..3u64 {
            let want = if i < COUNTS[table as usize - 1] {
                Some(Ok(i as u128))
            } else {
                None
            };
            let got = number_of(alloc, bytes.as_slice(), table, i)?;
            assert_eq!(rt; got, want, "table {table}, place {i}");
        }
    }
    Ok(())
}

#[test]
fn the_small_file_shows_its_numbers(rt: HostRuntime) -> Result<(), Fail> {
    shows_numbers(&rt, rt.alloc(), Layout::One, &[])?;
    shows_numbers(&rt, rt.alloc(), Layout::Two, &[])?;
    shows_numbers(&rt, rt.alloc(), Layout::Two, &[0xab, 0xcd])
}

/// Table 7 of the small file shows its head and counts by five reads.
fn shows_last_table(rt: &impl Abort, alloc: Global, layout: Layout) -> Result<(), Fail> {
    let bytes = small_file(alloc, layout, &[])?;
    let mut disk = disk_of(alloc, bytes.as_slice(), &[])?;
    let mut plot = Plot::open(alloc, &mut disk, "p")?;
    has_last_table(rt, &mut plot, &mut disk);
    assert_eq!(rt; disk.calls(), 7);
    Ok(())
}

#[test]
fn table_7_of_the_small_file_shows_its_head_and_counts(rt: HostRuntime) -> Result<(), Fail> {
    shows_last_table(&rt, rt.alloc(), Layout::One)?;
    shows_last_table(&rt, rt.alloc(), Layout::Two)
}

/// Opening the small file with one byte changed names this field.
fn names_field(
    rt: &impl Abort,
    alloc: Global,
    layout: Layout,
    rows: &[(usize, u8, HeaderField)],
) -> Result<(), Fail> {
    for (at, byte, field) in rows {
        let damage = Damage::Header { field: *field };
        change_shows(rt, alloc, layout, &[(*at, *byte)], damage)?;
    }
    Ok(())
}

#[test]
fn a_changed_field_of_the_header_is_named(rt: HostRuntime) -> Result<(), Fail> {
    for layout in [Layout::One, Layout::Two] {
        let rows = [
            (1, 0, HeaderField::Name),
            (15, 0, HeaderField::Name),
            (15, 0x33, HeaderField::Name),
            (48, 0, HeaderField::Size),
            (48, 9, HeaderField::Size),
            (48, 51, HeaderField::Size),
            (48, 255, HeaderField::Size),
            (51, 1, HeaderField::Zeros),
            (55, 128, HeaderField::Zeros),
            (62, 9, HeaderField::Counts),
            (152, 255, HeaderField::Counts),
        ];
        names_field(&rt, rt.alloc(), layout, &rows)?;
    }
    let zeros = [(49, 1, HeaderField::Zeros), (50, 1, HeaderField::Zeros)];
    names_field(&rt, rt.alloc(), Layout::One, &zeros)?;
    let memo = [(49, 2, HeaderField::Memo), (49, 255, HeaderField::Memo)];
    names_field(&rt, rt.alloc(), Layout::Two, &memo)
}

#[test]
fn a_memo_has_at_most_256_bytes_and_ends_before_the_tables(rt: HostRuntime) -> Result<(), Fail> {
    let alloc = rt.alloc();
    let long = Damage::Header {
        field: HeaderField::Memo,
    };
    change_shows(&rt, alloc, Layout::Two, &[(49, 1), (50, 1)], long)?;
    // Of 256 bytes and of 5 it reaches into table 1, whose directory is at byte 180.
    let directory = Damage::Directory { table: 1, park: 0 };
    change_shows(&rt, alloc, Layout::Two, &[(49, 1)], directory)?;
    change_shows(&rt, alloc, Layout::Two, &[(50, 5)], directory)
}

#[test]
fn a_changed_place_of_a_directory_is_named_by_its_table(rt: HostRuntime) -> Result<(), Fail> {
    for (layout, at, byte, table) in [
        (Layout::One, 71, 0xaf, 1),
        (Layout::One, 64, 255, 1),
        (Layout::One, 63, 0, 1),
        (Layout::One, 87, 0xd0, 2),
        (Layout::One, 167, 0xab, 7),
        (Layout::Two, 71, 0xaf, 1),
        (Layout::Two, 64, 255, 1),
        (Layout::Two, 63, 0, 1),
        (Layout::Two, 87, 0xd8, 2),
        (Layout::Two, 167, 0xbb, 7),
    ] {
        let damage = Damage::Directory { table, park: 0 };
        change_shows(&rt, rt.alloc(), layout, &[(at, byte)], damage)?;
    }
    // The name of the other layout: a directory of table 1 is taken to be longer, or shorter, than it is.
    let longer = Damage::Directory { table: 2, park: 0 };
    change_shows(&rt, rt.alloc(), Layout::One, &[(15, 0x32)], longer)?;
    let shorter = Damage::Directory { table: 7, park: 0 };
    change_shows(&rt, rt.alloc(), Layout::Two, &[(15, 0x31)], shorter)
}

/// Opening the small file with both bytes changed names this field.
fn of_two_names(
    rt: &impl Abort,
    alloc: Global,
    layout: Layout,
    rows: &[((usize, u8), (usize, u8), HeaderField)],
) -> Result<(), Fail> {
    for (first, second, field) in rows {
        let damage = Damage::Header { field: *field };
        change_shows(rt, alloc, layout, &[*first, *second], damage)?;
    }
    Ok(())
}

#[test]
fn of_two_damages_of_a_header_the_first_is_named(rt: HostRuntime) -> Result<(), Fail> {
    let alloc = rt.alloc();
    for (layout, length) in [(Layout::One, 428), (Layout::Two, 484)] {
        let gate = Damage::NotOpen { length, gate: 0 };
        change_shows(&rt, alloc, layout, &[(0, 0), (1, 0)], gate)?;
        let rows = [
            ((1, 0), (48, 0), HeaderField::Name),
            ((48, 0), (51, 1), HeaderField::Size),
            ((51, 1), (49, 2), HeaderField::Zeros),
            ((56, 255), (175, 0), HeaderField::Counts),
        ];
        of_two_names(&rt, alloc, layout, &rows)?;
        let said = Damage::Length {
            said: 256,
            found: length,
        };
        change_shows(&rt, alloc, layout, &[(175, 0), (71, 0xaf)], said)?;
    }
    let zeros = [((49, 1), (56, 255), HeaderField::Zeros)];
    of_two_names(&rt, alloc, Layout::One, &zeros)?;
    let memo = [((49, 2), (56, 255), HeaderField::Memo)];
    of_two_names(&rt, alloc, Layout::Two, &memo)
}

/// The small file with one more byte, and its byte 175 as it is said.
fn longer(alloc: Global, layout: Layout, low: u8) -> Result<Vec<u8>, AllocError> {
    let mut bytes = changed(alloc, layout, &[(175, low)])?;
    bytes.push(0)?;
    Ok(bytes)
}

/// The small file cut off.
fn shorter(
    alloc: Global,
    layout: Layout,
    memo: &[u8],
    length: usize,
) -> Result<Vec<u8>, AllocError> {
    let mut bytes = small_file(alloc, layout, memo)?;
    bytes.truncate(length);
    Ok(bytes)
}

#[test]
fn a_file_that_is_too_long_is_refused(rt: HostRuntime) -> Result<(), Fail> {
    let alloc = rt.alloc();
    for (layout, low, said, found) in [
        (Layout::One, 0xac, 428, 429),
        (Layout::Two, 0xe4, 484, 485),
    ] {
        let bytes = longer(alloc, layout, low)?;
        opening_shows(&rt, alloc, bytes.as_slice(), Damage::Length { said, found })?;
    }
    // The header says one byte more too, and the last directory ends before it.
    let directory = Damage::Directory { table: 7, park: 0 };
    for (layout, low) in [(Layout::One, 0xad), (Layout::Two, 0xe5)] {
        let bytes = longer(alloc, layout, low)?;
        opening_shows(&rt, alloc, bytes.as_slice(), directory)?;
    }
    Ok(())
}

#[test]
fn a_file_that_is_too_short_is_refused(rt: HostRuntime) -> Result<(), Fail> {
    let alloc = rt.alloc();
    for (layout, said, last) in [(Layout::One, 428, 427), (Layout::Two, 484, 483)] {
        for (length, gate) in [(0, 0), (1, 1), (175, 1)] {
            let bytes = shorter(alloc, layout, &[], length as usize)?;
            let cut = Damage::NotOpen { length, gate };
            opening_shows(&rt, alloc, bytes.as_slice(), cut)?;
        }
        for found in [176, last] {
            let bytes = shorter(alloc, layout, &[], found as usize)?;
            opening_shows(&rt, alloc, bytes.as_slice(), Damage::Length { said, found })?;
        }
    }
    Ok(())
}

#[test]
fn a_changed_byte_of_an_entry_is_refused(rt: HostRuntime) -> Result<(), Fail> {
    for layout in [Layout::One, Layout::Two] {
        for (at, byte) in [
            (191, 0),
            (189, 0x48),
            (191, 5),
            (187, 0xaf),
            (180, 255),
            (195, 4),
        ] {
            let damage = Damage::Directory { table: 1, park: 0 };
            changed_number_shows(&rt, rt.alloc(), layout, at, byte, damage)?;
        }
    }
    for (layout, head) in [(Layout::One, 211), (Layout::Two, 219)] {
        let damage = Damage::Directory { table: 1, park: 0 };
        changed_number_shows(&rt, rt.alloc(), layout, head, 1, damage)?;
    }
    Ok(())
}

#[test]
fn a_changed_byte_of_a_park_or_its_digest_is_refused(rt: HostRuntime) -> Result<(), Fail> {
    for (layout, at, byte) in [
        (Layout::One, 176, 1),
        (Layout::One, 203, 0),
        (Layout::Two, 176, 1),
        (Layout::Two, 203, 0),
        (Layout::Two, 204, 0),
        (Layout::Two, 211, 0),
    ] {
        let damage = Damage::Digest { table: 1, park: 0 };
        changed_number_shows(&rt, rt.alloc(), layout, at, byte, damage)?;
    }
    Ok(())
}

#[test]
fn a_park_with_a_right_digest_is_refused_by_its_numbers(rt: HostRuntime) -> Result<(), Fail> {
    let alloc = rt.alloc();
    for (layout, last_park) in LAST_PARKS {
        let filled = with_park(alloc, layout, FIRST_PARK, &[0, 0, 0, 1])?;
        let form = Damage::Form { table: 1, park: 0 };
        number_shows(&rt, alloc, filled.as_slice(), 1, form)?;
        // The number 5 of table 7 is place 5 of table 6, which has one number.
        let outside = with_park(alloc, layout, last_park, &[0, 0, 0x14, 0])?;
        let pointer = Damage::Pointer { table: 7, at: 0 };
        number_shows(&rt, alloc, outside.as_slice(), 7, pointer)?;
    }
    // The last byte of the last entry is that of its head.
    let directory = Damage::Directory { table: 7, park: 0 };
    for (layout, head) in [(Layout::One, 427), (Layout::Two, 483)] {
        let headed = changed(alloc, layout, &[(head, 1)])?;
        number_shows(&rt, alloc, headed.as_slice(), 7, directory)?;
    }
    Ok(())
}

#[test]
fn the_small_file_of_size_33_opens_and_its_park_is_none(rt: HostRuntime) -> Result<(), Fail> {
    let alloc = rt.alloc();
    for layout in [Layout::One, Layout::Two] {
        let bytes = changed(alloc, layout, &[(48, 33)])?;
        assert_eq!(rt; refusal_of(alloc, bytes.as_slice())?, None);
        let form = Damage::Form { table: 7, park: 0 };
        number_shows(&rt, alloc, bytes.as_slice(), 7, form)?;
    }
    Ok(())
}

/// A file of this size whose table 1 has three numbers in a park of so many zeros, and whose other tables have none. The
/// digest is not that of the park.
fn long_park(alloc: Global, layout: Layout, size: u8, length: u32) -> Result<Vec<u8>, AllocError> {
    let directory = u64::from(length) + 176;
    let total = directory + layout.entry_bytes() as u64;
    let mut bytes = header_start(alloc, layout, size, 0)?;
    push_two(&mut bytes, 3, directory)?;
    for _ in 0..6 {
        push_two(&mut bytes, 0, total)?;
    }
    bytes.extend_from_slice(&total.to_be_bytes())?;
    bytes.resize(directory as usize, 0)?;
    bytes.extend_from_slice(&176u64.to_be_bytes())?;
    bytes.extend_from_slice(&length.to_be_bytes())?;
    bytes.extend_from_slice(&[0, 0, 0, 3])?;
    bytes.resize(total as usize, 0)?;
    Ok(bytes)
}

#[test]
fn a_park_that_is_longer_than_its_size_and_layout_allow_is_refused(
    rt: HostRuntime,
) -> Result<(), Fail> {
    let alloc = rt.alloc();
    for (layout, size, greatest) in [
        (Layout::One, 32, 18_432),
        (Layout::One, 33, 28_672),
        (Layout::Two, 32, 36_864),
        (Layout::Two, 33, 57_344),
    ] {
        let longest = long_park(alloc, layout, size, greatest)?;
        let digest = Damage::Digest { table: 1, park: 0 };
        number_shows(&rt, alloc, longest.as_slice(), 1, digest)?;
        let longer = long_park(alloc, layout, size, greatest + 1)?;
        let directory = Damage::Directory { table: 1, park: 0 };
        number_shows(&rt, alloc, longer.as_slice(), 1, directory)?;
    }
    Ok(())
}

/// A file of size 10 whose tables have no numbers.
fn empty_file(alloc: Global, layout: Layout) -> Result<Vec<u8>, AllocError> {
    let mut bytes = header_start(alloc, layout, 10, 0)?;
    for _ in 0..7 {
        push_two(&mut bytes, 0, 176)?;
    }
    bytes.extend_from_slice(&176u64.to_be_bytes())?;
    Ok(bytes)
}

#[test]
fn a_file_without_numbers_opens(rt: HostRuntime) -> Result<(), Fail> {
    let alloc = rt.alloc();
    for layout in [Layout::One, Layout::Two] {
        let bytes = empty_file(alloc, layout)?;
        assert_eq!(rt; refusal_of(alloc, bytes.as_slice())?, None);
        assert_eq!(rt; number_of(alloc, bytes.as_slice(), 1, 0)?, None);
    }
    Ok(())
}

#[test]
fn a_failing_disk_is_named(rt: HostRuntime) -> Result<(), Fail> {
    let alloc = rt.alloc();
    let bytes = small_file(alloc, Layout::Two, &[0xab])?;
    let mut none = MemoryDisk::new(alloc, Vec::new(alloc));
    assert_eq!(rt; refusal_in(alloc, &mut none), Some(OpenRefusal::Absent));
    // The call that opens, the read of the header, and that of the memo.
    for call in [0, 1, 2] {
        let mut failing = disk_of(alloc, bytes.as_slice(), &[call])?;
        assert_eq!(rt;
            refusal_in(alloc, &mut failing),
            Some(OpenRefusal::DiskFailed)
        );
    }
    Ok(())
}

#[test]
fn a_plot_reads_on_after_a_failing_disk(rt: HostRuntime) -> Result<(), Fail> {
    let alloc = rt.alloc();
    let bytes = small_file(alloc, Layout::Two, &[])?;
    let mut failing = disk_of(alloc, bytes.as_slice(), &[2, 4])?;
    let mut plot = Plot::open(alloc, &mut failing, "p")?;
    is_read_the_third_time(&rt, &mut plot, &mut failing);
    Ok(())
}

/// Makes the file `p` with these bytes.
fn make_file<D: Disk>(disk: &mut D, bytes: &[u8]) -> Result<(), Memory> {
    let file = disk.create("p").map_err(|_| Memory)?;
    disk.write_at(file, 0, bytes).map_err(|_| Memory)
}

#[test]
fn a_disk_that_reads_zeros_shows_no_plot(rt: HostRuntime) -> Result<(), Fail> {
    let alloc = rt.alloc();
    let mut disk = BlankDisk::new(alloc);
    make_file(&mut disk, small_file(alloc, Layout::Two, &[])?.as_slice())?;
    let want = Damage::NotOpen {
        length: 484,
        gate: 0,
    };
    assert_eq!(rt;
        refusal_in(alloc, &mut disk),
        Some(OpenRefusal::Damage(want))
    );
    Ok(())
}

/// The number that eight bytes from a place on write, the first one highest.
fn eight(bytes: &[u8], at: usize) -> Option<u64> {
    let mut number = 0u64;
    for byte in bytes.get(at..at.checked_add(8)?)? {
        number = number.wrapping_mul(256).wrapping_add(u64::from(*byte));
    }
    Some(number)
}

/// The numbers of a full park and the bytes of an entry, by the name; None where it is neither layout's.
fn said_layout(bytes: &[u8]) -> Option<(u128, u128)> {
    let name = bytes.get(1..16)?;
    if name == b"SPACEPLOT-OWN-1".as_slice() {
        Some((2048, 32))
    } else if name == b"SPACEPLOT-OWN-2".as_slice() {
        Some((4096, 40))
    } else {
        None
    }
}

/// The length of the memo, as the header says it.
fn said_memo(bytes: &[u8]) -> Option<u128> {
    let high = u128::from(*bytes.get(49)?);
    Some(256 * high + u128::from(*bytes.get(50)?))
}

/// The first table whose directory does not lie where it has to, by plain sums.
fn misplaced(bytes: &[u8], length: u64) -> Option<Damage> {
    let (full, entry) = said_layout(bytes)?;
    let mut end = said_memo(bytes)?.checked_add(176)?;
    for table in 1..=7u8 {
        let at = 40 + 16 * usize::from(table);
        let count = u128::from(eight(bytes, at)?);
        let directory = u128::from(eight(bytes, at + 8)?);
        let parks = count.checked_add(full)?.checked_sub(1)?.checked_div(full)?;
        let behind = directory.checked_add(entry.checked_mul(parks)?)?;
        if directory < end || behind > u128::from(length) || (count == 0 && directory != end) {
            return Some(Damage::Directory { table, park: 0 });
        }
        end = behind;
    }
    if end != u128::from(length) {
        return Some(Damage::Directory { table: 7, park: 0 });
    }
    None
}

/// The first field of the header that can't be.
fn broken_field(bytes: &[u8]) -> Option<HeaderField> {
    let Some((full, _)) = said_layout(bytes) else {
        return Some(HeaderField::Name);
    };
    let k = *bytes.get(48)?;
    if k < 10 || k > 50 {
        return Some(HeaderField::Size);
    }
    let zeros = if full == 2048 { 49 } else { 51 };
    if bytes.get(zeros..56)?.iter().any(|byte| *byte != 0) {
        return Some(HeaderField::Zeros);
    }
    if said_memo(bytes)? > 256 {
        return Some(HeaderField::Memo);
    }
    for table in 1..=7usize {
        if eight(bytes, 40 + 16 * table)? > 2 << k {
            return Some(HeaderField::Counts);
        }
    }
    None
}

/// The first rule that a file breaks, as it stands in the format's table.
fn first_broken(bytes: &[u8]) -> Option<Damage> {
    let length = bytes.len() as u64;
    let gate = bytes.first().copied().unwrap_or(0);
    if length < 176 || gate != 1 {
        return Some(Damage::NotOpen { length, gate });
    }
    if let Some(field) = broken_field(bytes) {
        return Some(Damage::Header { field });
    }
    let said = eight(bytes, 168)?;
    if said != length {
        return Some(Damage::Length {
            said,
            found: length,
        });
    }
    misplaced(bytes, length)
}

/// Whether opening shows the first rule that these bytes break.
fn is_named(alloc: Global, bytes: &[u8]) -> Result<bool, Memory> {
    let want = first_broken(bytes).map(OpenRefusal::Damage);
    Ok(refusal_of(alloc, bytes)? == want)
}

/// Each front part of the small file shows the first rule that it breaks.
fn each_cut_is_named(
    rt: &impl Abort,
    alloc: Global,
    layout: Layout,
    memo: &[u8],
    length: usize,
) -> Result<(), Fail> {
    for cut in 0..=length {
        let bytes = shorter(alloc, layout, memo, cut)?;
        assert!(rt; is_named(alloc, bytes.as_slice())?, "{cut} bytes");
    }
    Ok(())
}

/// The small file with each of its first bytes in turn made each of these shows the first rule that it breaks. Opening reads
/// no byte behind the memo.
fn each_change_is_named(
    rt: &impl Abort,
    alloc: Global,
    layout: Layout,
    memo: &[u8],
) -> Result<(), Fail> {
    for at in 0..200usize {
        for byte in [0, 1, 2, 0x32, 0x80, 0xff] {
            let mut bytes = small_file(alloc, layout, memo)?;
            if let Some(place) = bytes.get_mut(at) {
                *place = byte;
            }
            assert!(rt; is_named(alloc, bytes.as_slice())?, "byte {at} made {byte}");
        }
    }
    Ok(())
}

#[test]
fn each_cut_and_each_changed_byte_shows_the_first_broken_rule_of_the_first_layout(
    rt: HostRuntime,
) -> Result<(), Fail> {
    each_cut_is_named(&rt, rt.alloc(), Layout::One, &[], 428)?;
    each_change_is_named(&rt, rt.alloc(), Layout::One, &[])
}

#[test]
fn each_cut_and_each_changed_byte_shows_the_first_broken_rule_of_the_second_layout(
    rt: HostRuntime,
) -> Result<(), Fail> {
    each_cut_is_named(&rt, rt.alloc(), Layout::Two, &[0xab, 0xcd], 486)?;
    each_change_is_named(&rt, rt.alloc(), Layout::Two, &[0xab, 0xcd])
}

/// What reading a park of table t of the file `p` answers; None where it does not open or has no such park.
fn park_in<D: Disk>(
    alloc: Global,
    disk: &mut D,
    t: u8,
    park: u64,
    out: &mut [u128; 4096],
) -> Option<Result<u32, ReadRefusal>> {
    let Ok(mut plot) = Plot::open(alloc, disk, "p") else {
        return None;
    };
    if t < 1 || t > 7 {
        return None;
    }
    let count = plot.count(t);
    if count > 8192 || park >= parks_of(plot.layout(), count) {
        return None;
    }
    Some(plot.park(disk, t, park, out))
}

/// A park of the file `p` has the numbers from this one on; answers how many.
fn has_park_from<D: Disk>(
    rt: &impl Abort,
    alloc: Global,
    disk: &mut D,
    t: u8,
    park: u64,
    first: u128,
) -> Result<u32, Fail> {
    let mut out = [0; MOST_NUMBERS];
    let Some(Ok(count)) = park_in(alloc, disk, t, park, &mut out) else {
        return Err(Fail::from("no park"));
    };
    let mut next = first;
    for number in out.get(..count as usize).ok_or("too many")? {
        assert_eq!(rt; *number, next);
        next = next.wrapping_add(1);
    }
    Ok(count)
}

/// The parks of a table of the file `p`, of so many numbers each but for the last one, have the numbers from 0 on, so many.
fn has_parks_to<D: Disk>(
    rt: &impl Abort,
    alloc: Global,
    disk: &mut D,
    t: u8,
    full: u64,
    count: u64,
) -> Result<(), Fail>
    requires { 1 ≤ full }
{
    let mut out = [0; MOST_NUMBERS];
    let parks = count.div_ceil(full);
    let mut next = 0u64;
    for park in 0..parks {
        let found = has_park_from(rt, alloc, disk, t, park, u128::from(next))?;
        next = next.wrapping_add(u64::from(found));
        assert!(rt; u64::from(found) == full || next == count);
    }
    assert_eq!(rt; next, count);
    assert_eq!(rt; park_in(alloc, disk, t, parks, &mut out), None);
    Ok(())
}

/// A file of size 12 whose tables have so many numbers each is read back park by park.
fn is_read_by_parks(
    rt: &impl Abort,
    alloc: Global,
    layout: Layout,
    memo: &[u8],
    counts: &[u64; 7],
) -> Result<(), Fail>
    requires memo { length memo.now ≤ memo_of layout }
    requires few { All (λ count. count ≤ 8192) counts.now }
{
    let mut disk = MemoryDisk::new(alloc, Vec::new(alloc));
    write_plot(alloc, &mut disk, layout, memo, Size::of(12), counts)?;
    let plot = Plot::open(alloc, &mut disk, "p")?;
    assert_eq!(rt; plot.layout(), layout);
    assert!(rt; plot.memo() == memo);
    let full = layout.full_park() as u64;
    for t in 0..7u8 {
        has_parks_to(rt, alloc, &mut disk, t + 1, full, counts[t as usize])?;
    }
    Ok(())
}

#[test]
fn tables_of_2047_to_4097_numbers_of_the_first_layout_are_read_by_parks(
    rt: HostRuntime,
) -> Result<(), Fail> {
    let counts = [2047, 2048, 2049, 4097, 4096, 1, 0];
    is_read_by_parks(&rt, rt.alloc(), Layout::One, &[], &counts)
}

#[test]
fn tables_of_4095_to_8192_numbers_of_the_second_layout_are_read_by_parks(
    rt: HostRuntime,
) -> Result<(), Fail> {
    let counts = [4095, 4096, 4097, 8192, 2048, 1, 0];
    is_read_by_parks(&rt, rt.alloc(), Layout::Two, &[7; 256], &counts)
}

/// Reading a park of a file of these bytes shows this damage.
fn park_shows(
    rt: &impl Abort,
    alloc: Global,
    bytes: &[u8],
    t: u8,
    damage: Damage,
) -> Result<(), Fail> {
    let mut out = [0; MOST_NUMBERS];
    let mut disk = disk_of(alloc, bytes, &[])?;
    let want = Some(Err(ReadRefusal::Damage(damage)));
    assert_eq!(rt; park_in(alloc, &mut disk, t, 0, &mut out), want);
    Ok(())
}

#[test]
fn a_park_shows_each_damage_but_that_of_a_pointer(rt: HostRuntime) -> Result<(), Fail> {
    let alloc = rt.alloc();
    let mut out = [0; MOST_NUMBERS];
    for (layout, last_park) in LAST_PARKS {
        let listed = changed(alloc, layout, &[(191, 0)])?;
        let directory = Damage::Directory { table: 1, park: 0 };
        park_shows(&rt, alloc, listed.as_slice(), 1, directory)?;
        let digested = changed(alloc, layout, &[(176, 1)])?;
        let digest = Damage::Digest { table: 1, park: 0 };
        park_shows(&rt, alloc, digested.as_slice(), 1, digest)?;
        let filled = with_park(alloc, layout, FIRST_PARK, &[0, 0, 0, 1])?;
        let form = Damage::Form { table: 1, park: 0 };
        park_shows(&rt, alloc, filled.as_slice(), 1, form)?;
        let outside = with_park(alloc, layout, last_park, &[0, 0, 0x14, 0])?;
        let mut disk = disk_of(alloc, outside.as_slice(), &[])?;
        assert_eq!(rt; park_in(alloc, &mut disk, 7, 0, &mut out), Some(Ok(1)));
        assert_eq!(rt; out[0], 5);
    }
    Ok(())
}

#[test]
fn a_number_points_inside_by_the_table_before_it(rt: HostRuntime) -> Result<(), Fail> {
    let alloc = rt.alloc();
    let bytes = small_file(alloc, Layout::Two, &[])?;
    let mut disk = disk_of(alloc, bytes.as_slice(), &[])?;
    let plot = Plot::open(alloc, &mut disk, "p")?;
    // A line point of two values below 1024, and of two of three places.
    assert!(rt; plot.points_inside(1, 523_775));
    assert!(rt; !plot.points_inside(1, 523_776));
    assert!(rt; plot.points_inside(2, 2));
    assert!(rt; !plot.points_inside(2, 3));
    // An f7 below 1024 with the one place of table 6.
    assert!(rt; plot.points_inside(7, 1023 * 2048));
    assert!(rt; !plot.points_inside(7, 1023 * 2048 + 1));
    assert!(rt; !plot.points_inside(7, 1024 * 2048));
    Ok(())
}
