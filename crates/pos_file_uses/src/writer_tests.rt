ghost use Rattle.std.specs.Prelude.{◌≡◌, ◌+◌, ◌^◌, ◌<◌, ◌≤◌, All, length, OnOk};
ghost use Rattle.pos_layout.specs.Layouts.{memo_of};
ghost use Rattle.pos_layout.specs.Writing.{IsStanding};

use pos_edge::{CreateFault, Disk, MemoryDisk, WorkFault};
use pos_layout::{
    Column, HEADER_BYTES, Header, Layout, ParkEntry, PlotWriter, decode_entry, decode_header,
    park_digest,
};
use pos_rice::{MOST_NUMBERS, decode_park};
use pos_tuple::{Id, Size};
use std::alloc::{AllocError, Global};
use std::process::Abort;
use std::test::Fail;

/// Adds the numbers from 0 on, so many, and ends the table.
fn write_table<D: Disk>(writer: &mut PlotWriter, disk: &mut D, count: u64) -> Result<(), WorkFault>
    requires stands { IsStanding writer.old (D.view disk.old) }
    requires tables { length writer.old.columns < 7 }
    requires none { writer.old.count ≡ 0 }
    requires first { writer.old.least ≡ 0 }
    requires few { count ≤ 2 ^ (writer.old.size + 1) }
    ensures stands { OnOk result (IsStanding writer.new (D.view disk.new)) }
    ensures tables { OnOk result (length writer.new.columns ≡ length writer.old.columns + 1) }
    ensures none { OnOk result (writer.new.count ≡ 0) }
    ensures first { OnOk result (writer.new.least ≡ 0) }
    ensures size { writer.new.size ≡ writer.old.size }
{
    for number in 0..count {
        writer.add(disk, u128::from(number))?;
    }
    writer.end_table(disk)
}

/// Writes the plot of an id of zeros whose tables have the numbers from 0 on, so many each, to the file `p`.
pub(crate) fn write_plot<D: Disk>(
    alloc: Global,
    disk: &mut D,
    layout: Layout,
    memo: &[u8],
    size: Size,
    counts: &[u64],
) -> Result<u64, WorkFault>
    requires memo { length memo.now ≤ memo_of layout }
    requires seven { length counts.now ≡ 7 }
    requires few { All (λ count. count ≤ 2 ^ (size + 1)) counts.now }
{
    let file = match disk.create("p") {
        Ok(file) => file,
        Err(CreateFault::Memory) => return Err(WorkFault::Memory),
        Err(_) => return Err(WorkFault::DiskFailed),
    };
    let mut writer = PlotWriter::begin(alloc, file, layout, memo, &Id([0; 32]), size, disk)?;
    for count in counts {
        write_table(&mut writer, disk, *count)?;
    }
    writer.finish(disk)
}

/// The file `p` of this layout with these tables, of a plot of size 10.
fn written(
    alloc: Global,
    layout: Layout,
    memo: &[u8],
    counts: &[u64; 7],
) -> Result<MemoryDisk, Fail>
    requires memo { length memo.now ≤ memo_of layout }
    requires few { All (λ count. count ≤ 2048) counts.now }
{
    let mut disk = MemoryDisk::new(alloc, Vec::new(alloc));
    write_plot(alloc, &mut disk, layout, memo, Size::of(10), counts)?;
    Ok(disk)
}

/// Whether the file `p` has these bytes.
fn has_bytes(disk: &MemoryDisk, want: &[u8]) -> Result<bool, Fail> {
    Ok(disk.contents("p").ok_or("no file")? == want)
}

// The numbers of the toy file's tables.
const COUNTS: [u64; 7] = [3, 3, 3, 3, 3, 1, 1];

// SHA-256 of four zero bytes, as far as a file has it.
const DIGEST: [u8; 16] = [
    0xdf, 0x3f, 0x61, 0x98, 0x04, 0xa9, 0x2f, 0xdb, 0x40, 0x57, 0x19, 0x2d, 0xc4, 0x3d, 0xd7, 0x48,
];

// The letters of each layout.
const FIRST: &[u8; 16] = b"\x01SPACEPLOT-OWN-1";

const SECOND: &[u8; 16] = b"\x01SPACEPLOT-OWN-2";

/// The gate with the name, the id, the size, the length of the memo, and five zeros.
fn header_start(alloc: Global, name: &[u8; 16], memo: u8) -> Result<Vec<u8>, AllocError> {
    let mut bytes = Vec::new(alloc);
    bytes.extend_from_slice(name)?;
    bytes.extend_from_slice(&[0; 32])?;
    bytes.extend_from_slice(&[10, 0, memo, 0, 0, 0, 0, 0])?;
    Ok(bytes)
}

/// A table's line of the header.
fn push_column(bytes: &mut Vec<u8>, count: u64, directory: u64) -> Result<(), AllocError> {
    bytes.extend_from_slice(&count.to_be_bytes())?;
    bytes.extend_from_slice(&directory.to_be_bytes())
}

/// A park of four zeros and the entry of it, with as much of its digest.
fn push_park(
    bytes: &mut Vec<u8>,
    offset: u64,
    count: u64,
    digest: &[u8],
) -> Result<(), AllocError> {
    bytes.extend_from_slice(&[0; 4])?;
    bytes.extend_from_slice(&offset.to_be_bytes())?;
    bytes.extend_from_slice(&[0, 0, 0, 4, 0, 0, 0, if count == 3 { 3 } else { 1 }])?;
    bytes.extend_from_slice(digest)?;
    bytes.extend_from_slice(&[0; 8])
}

/// Behind a header's start its columns and the length, then the memo, and the parks of the toy file at these places.
fn toy_file(
    start: Vec<u8>,
    memo: &[u8],
    parks: &[u64; 7],
    total: u64,
    digest: &[u8],
) -> Result<Vec<u8>, AllocError> {
    let mut bytes = start;
    for t in 0..7 {
        push_column(&mut bytes, COUNTS[t], parks[t].wrapping_add(4))?;
    }
    bytes.extend_from_slice(&total.to_be_bytes())?;
    bytes.extend_from_slice(memo)?;
    for t in 0..7 {
        push_park(&mut bytes, parks[t], COUNTS[t], digest)?;
    }
    Ok(bytes)
}

#[test]
fn the_toy_file_of_the_first_layout_has_its_428_bytes(rt: HostRuntime) -> Result<(), Fail> {
    let alloc = rt.alloc();
    let disk = written(alloc, Layout::One, &[], &COUNTS)?;
    let parks = [176, 212, 248, 284, 320, 356, 392];
    let want = toy_file(
        header_start(alloc, FIRST, 0)?,
        &[],
        &parks,
        428,
        &DIGEST[..8],
    )?;
    assert_eq!(rt; want.len(), 428);
    assert!(rt; has_bytes(&disk, want.as_slice())?);
    Ok(())
}

#[test]
fn the_toy_file_of_the_second_layout_has_its_484_bytes(rt: HostRuntime) -> Result<(), Fail> {
    let alloc = rt.alloc();
    let disk = written(alloc, Layout::Two, &[], &COUNTS)?;
    let parks = [176, 220, 264, 308, 352, 396, 440];
    let want = toy_file(header_start(alloc, SECOND, 0)?, &[], &parks, 484, &DIGEST)?;
    assert_eq!(rt; want.len(), 484);
    assert!(rt; has_bytes(&disk, want.as_slice())?);
    Ok(())
}

#[test]
fn a_memo_of_two_bytes_stands_at_byte_176_and_moves_all_behind_it(
    rt: HostRuntime,
) -> Result<(), Fail> {
    let alloc = rt.alloc();
    let disk = written(alloc, Layout::Two, &[0xab, 0xcd], &COUNTS)?;
    let parks = [178, 222, 266, 310, 354, 398, 442];
    let start = header_start(alloc, SECOND, 2)?;
    let want = toy_file(start, &[0xab, 0xcd], &parks, 486, &DIGEST)?;
    assert_eq!(rt; want.len(), 486);
    assert!(rt; has_bytes(&disk, want.as_slice())?);
    let bytes = disk.contents("p").ok_or("no file")?;
    assert_eq!(rt; piece(bytes, 49, 7), Some([0, 2, 0, 0, 0, 0, 0].as_slice()));
    assert_eq!(rt; piece(bytes, 176, 2), Some([0xab, 0xcd].as_slice()));
    Ok(())
}

/// The header of seven tables without numbers, and no memo.
fn empty_file(alloc: Global, name: &[u8; 16]) -> Result<Vec<u8>, AllocError> {
    let mut bytes = header_start(alloc, name, 0)?;
    for _ in 0..7 {
        push_column(&mut bytes, 0, 176)?;
    }
    bytes.extend_from_slice(&[0, 0, 0, 0, 0, 0, 0, 176])?;
    Ok(bytes)
}

#[test]
fn seven_empty_tables_leave_the_176_bytes_of_the_empty_file(rt: HostRuntime) -> Result<(), Fail> {
    let alloc = rt.alloc();
    let first = written(alloc, Layout::One, &[], &[0; 7])?;
    let want = empty_file(alloc, FIRST)?;
    assert_eq!(rt; want.len(), 176);
    assert!(rt; has_bytes(&first, want.as_slice())?);
    let second = written(alloc, Layout::Two, &[], &[0; 7])?;
    assert!(rt; has_bytes(&second, empty_file(alloc, SECOND)?.as_slice())?);
    Ok(())
}

/// Each image of `p` with 0 to 19 of the later writes has another first byte than 1, or is the finished file.
fn opens_finished(
    rt: &impl Abort,
    alloc: Global,
    disk: &MemoryDisk,
    finished: &[u8],
) -> Result<(), Fail> {
    for writes in 0..20 {
        if let Some(image) = disk.image(alloc, "p", writes)? {
            let opens = image.first() == Some(&1);
            assert!(rt; !opens || image.as_slice() == finished, "{writes} writes");
        }
    }
    Ok(())
}

/// What writing the toy file answers over a disk that stops after so many calls, and the disk then.
fn stopped(
    alloc: Global,
    layout: Layout,
    memo: &[u8],
    calls: u64,
) -> (Result<u64, WorkFault>, MemoryDisk)
    requires { length memo.now ≤ memo_of layout }
{
    let mut disk = MemoryDisk::stopping(alloc, calls);
    let answer = write_plot(alloc, &mut disk, layout, memo, Size::of(10), &COUNTS);
    (answer, disk)
}

/// Wherever the disk stops, no image of the toy file opens but the finished one.
fn stops_anywhere(rt: &impl Abort, alloc: Global, layout: Layout, memo: &[u8]) -> Result<(), Fail>
    requires { length memo.now ≤ memo_of layout }
{
    let whole = written(alloc, layout, memo, &COUNTS)?;
    let finished = whole.contents("p").ok_or("no file")?;
    for calls in 0..=whole.calls() {
        let (answer, disk) = stopped(alloc, layout, memo, calls);
        let want = if calls == whole.calls() {
            Ok(finished.len() as u64)
        } else {
            Err(WorkFault::DiskFailed)
        };
        assert_eq!(rt; answer, want, "{calls} calls");
        opens_finished(rt, alloc, &disk, finished)?;
    }
    Ok(())
}

#[test]
fn no_image_opens_but_the_finished_file_wherever_the_disk_stops(
    rt: HostRuntime,
) -> Result<(), Fail> {
    stops_anywhere(&rt, rt.alloc(), Layout::One, &[])?;
    stops_anywhere(&rt, rt.alloc(), Layout::Two, &[1, 2])
}

/// So many bytes from a place on, if they are there.
fn piece(bytes: &[u8], at: u64, count: usize) -> Option<&[u8]> {
    bytes.get(at as usize..)?.get(..count)
}

/// The entry at this place of a file's bytes.
fn entry_at(bytes: &[u8], layout: Layout, at: u64) -> Result<ParkEntry, Fail> {
    let entry = piece(bytes, at, layout.entry_bytes()).ok_or("no entry")?;
    if entry.len() != layout.entry_bytes() {
        return Err(Fail::from("a short entry"));
    }
    Ok(decode_entry(layout, entry))
}

/// The entry's park has these numbers, which begin with this one, and the digest in the entry.
fn has_numbers_from(
    rt: &impl Abort,
    bytes: &[u8],
    layout: Layout,
    entry: &ParkEntry,
    first: u128,
) -> Result<(), Fail> {
    let mut out = [0; MOST_NUMBERS];
    let park = piece(bytes, entry.offset, entry.park_length as usize).ok_or("no park")?;
    let digest = park_digest(layout, park);
    assert!(rt; digest.bytes() == entry.digest.bytes());
    assert!(rt; 1 <= entry.count && entry.count as usize <= MOST_NUMBERS);
    assert_eq!(rt; decode_park(12, entry.count, park, &mut out), Ok(()));
    let mut next = first;
    for number in &out[..entry.count as usize] {
        assert_eq!(rt; *number, next);
        next = next.wrapping_add(1);
    }
    Ok(())
}

/// The numbers of a table, park by park, are those from 0 on, so many.
fn has_numbers_to(
    rt: &impl Abort,
    bytes: &[u8],
    layout: Layout,
    column: Column,
    count: u64,
) -> Result<(), Fail> {
    assert_eq!(rt; column.count, count);
    let mut next = 0u128;
    for park in 0..count.div_ceil(layout.full_park() as u64) {
        let behind = park
            .checked_mul(layout.entry_bytes() as u64)
            .ok_or("too many")?;
        let at = column.directory.checked_add(behind).ok_or("too far")?;
        let entry = entry_at(bytes, layout, at)?;
        has_numbers_from(rt, bytes, layout, &entry, next)?;
        next = next.wrapping_add(u128::from(entry.count));
    }
    assert_eq!(rt; next, u128::from(count));
    Ok(())
}

/// The header of a file's bytes.
fn header_of(bytes: &[u8]) -> Result<Header, Fail> {
    let header = piece(bytes, 0, HEADER_BYTES).ok_or("no header")?;
    if header.len() != HEADER_BYTES {
        return Err(Fail::from("a short header"));
    }
    Ok(decode_header(header).map_err(|_| "no header")?)
}

/// A file of size 12 whose tables have so many numbers each is read back.
fn is_read_back(
    rt: &impl Abort,
    alloc: Global,
    layout: Layout,
    memo: &[u8],
    counts: &[u64; 7],
) -> Result<(), Fail>
    requires memo { length memo.now ≤ memo_of layout }
    requires few { All (λ count. count ≤ 8192) counts.now }
{
    let mut disk = MemoryDisk::new(alloc, Vec::new(alloc));
    write_plot(alloc, &mut disk, layout, memo, Size::of(12), counts)?;
    let bytes = disk.contents("p").ok_or("no file")?;
    let header = header_of(bytes)?;
    assert_eq!(rt; header.layout, layout);
    assert_eq!(rt; header.file_length, bytes.len() as u64);
    assert_eq!(rt; header.memo_length as usize, memo.len());
    assert_eq!(rt; piece(bytes, 176, memo.len()), Some(memo));
    for t in 0..7 {
        has_numbers_to(rt, bytes, layout, header.columns[t], counts[t])?;
    }
    Ok(())
}

#[test]
fn tables_of_2047_to_4097_numbers_are_read_back_in_the_first_layout(
    rt: HostRuntime,
) -> Result<(), Fail> {
    let counts = [2047, 2048, 2049, 4097, 4096, 1, 0];
    is_read_back(&rt, rt.alloc(), Layout::One, &[], &counts)
}

#[test]
fn tables_of_4095_to_8192_numbers_are_read_back_in_the_second_layout(
    rt: HostRuntime,
) -> Result<(), Fail> {
    let counts = [4095, 4096, 4097, 8192, 2048, 1, 0];
    is_read_back(&rt, rt.alloc(), Layout::Two, &[7; 256], &counts)
}
