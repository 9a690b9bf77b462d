//! Small files of both layouts, byte by byte.

use pos_layout::Layout;
use sha2::{Digest, Sha256};
use std::alloc::{AllocError, Global};

// How many numbers the tables of the small file have.
const COUNTS: [u64; 7] = [3, 3, 3, 3, 3, 1, 1];

/// The gate and the name of a layout.
fn front_of(layout: Layout) -> &'static [u8; 16] {
    match layout {
        Layout::One => b"\x01SPACEPLOT-OWN-1",
        Layout::Two => b"\x01SPACEPLOT-OWN-2",
    }
}

/// The gate, the name, the id of zeros, the size, the length of the memo and five zeros.
fn header_start(alloc: Global, layout: Layout, size: u8, memo: u8) -> Result<Vec<u8>, AllocError> {
    let mut bytes = Vec::new(alloc);
    bytes.extend_from_slice(front_of(layout))?;
    bytes.extend_from_slice(&[0; 32])?;
    bytes.extend_from_slice(&[size, 0, memo, 0, 0, 0, 0, 0])?;
    Ok(bytes)
}

/// Two numbers of eight bytes each.
fn push_two(bytes: &mut Vec<u8>, first: u64, second: u64) -> Result<(), AllocError> {
    bytes.extend_from_slice(&first.to_be_bytes())?;
    bytes.extend_from_slice(&second.to_be_bytes())
}

/// The entry of a park at this offset, of so many numbers.
fn push_entry(
    bytes: &mut Vec<u8>,
    layout: Layout,
    offset: u64,
    count: u32,
    park: &[u8],
) -> Result<(), AllocError> {
    let digest = Sha256::digest(park);
    bytes.extend_from_slice(&offset.to_be_bytes())?;
    bytes.extend_from_slice(&((park.len() % 65_536) as u32).to_be_bytes())?;
    bytes.extend_from_slice(&count.to_be_bytes())?;
    bytes.extend_from_slice(&digest[..layout.digest_bytes()])?;
    bytes.extend_from_slice(&[0; 8])
}

/// Where the small file has the park of the table after so many others.
fn park_at(layout: Layout, memo: &[u8], table: u64) -> u64 {
    let each = 4 + layout.entry_bytes() as u64;
    (memo.len() as u64)
        .wrapping_add(176)
        .wrapping_add(each.wrapping_mul(table))
}

/// A small plot file of size 10 with this memo: each table has one park, of the four bytes 00 00 00 00.
pub(crate) fn small_file(
    alloc: Global,
    layout: Layout,
    memo: &[u8],
) -> Result<Vec<u8>, AllocError> {
    let mut bytes = header_start(alloc, layout, 10, (memo.len() % 256) as u8)?;
    for table in 0..7u64 {
        let directory = park_at(layout, memo, table).wrapping_add(4);
        push_two(&mut bytes, COUNTS[table as usize], directory)?;
    }
    bytes.extend_from_slice(&park_at(layout, memo, 7).to_be_bytes())?;
    bytes.extend_from_slice(memo)?;
    for table in 0..7u64 {
        let count = if table < 5 { 3 } else { 1 };
        bytes.extend_from_slice(&[0; 4])?;
        push_entry(
            &mut bytes,
            layout,
            park_at(layout, memo, table),
            count,
            &[0; 4],
        )?;
    }
    Ok(bytes)
}

/// The small file of the first layout without a memo, with one byte changed.
pub(crate) fn changed(alloc: Global, at: usize, byte: u8) -> Result<Vec<u8>, AllocError> {
    let mut bytes = small_file(alloc, Layout::One, &[])?;
    if let Some(place) = bytes.get_mut(at) {
        *place = byte;
    }
    Ok(bytes)
}

/// A file of the first layout and size 11 whose table 1 has the numbers 0 to 2,047 in one park, and in the next this one
/// number, below 65,536. The other tables have none.
pub(crate) fn file_of_two_parks(alloc: Global, last: u16) -> Result<Vec<u8>, AllocError> {
    let mut bytes = header_start(alloc, Layout::One, 11, 0)?;
    push_two(&mut bytes, 2049, 440)?;
    for _ in 0..6 {
        push_two(&mut bytes, 0, 504)?;
    }
    bytes.extend_from_slice(&504u64.to_be_bytes())?;
    // 24 bits of the number 0, 7 of the count of low bits, and 2,047 codes of one bit.
    let first = [0; 260];
    let [high, low] = last.to_be_bytes();
    let second = [0, high, low, 0];
    bytes.extend_from_slice(&first)?;
    bytes.extend_from_slice(&second)?;
    push_entry(&mut bytes, Layout::One, 176, 2048, &first)?;
    push_entry(&mut bytes, Layout::One, 436, 1, &second)?;
    Ok(bytes)
}

/// A file of the first layout and size 10 whose table 2 has the number 0, and the other tables none: it points to two places
/// of table 1.
pub(crate) fn file_of_one_number(alloc: Global) -> Result<Vec<u8>, AllocError> {
    let mut bytes = header_start(alloc, Layout::One, 10, 0)?;
    push_two(&mut bytes, 0, 176)?;
    push_two(&mut bytes, 1, 180)?;
    for _ in 0..5 {
        push_two(&mut bytes, 0, 212)?;
    }
    bytes.extend_from_slice(&212u64.to_be_bytes())?;
    bytes.extend_from_slice(&[0; 4])?;
    push_entry(&mut bytes, Layout::One, 176, 1, &[0; 4])?;
    Ok(bytes)
}
