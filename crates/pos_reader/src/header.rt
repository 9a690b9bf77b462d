//! From the first bytes of a file to the header of a plot that opens.
ghost use Rattle.std.specs.Prelude.{◌≡◌, ◌↔◌, ◌-◌, ◌*◌, ◌^◌, ◌+◌, ◌<◌, ◌≤◌, false, length, true, IfErr, IfNone, IfOk, IfSome, IsTrue, None, OnOk, OnSome, Some};
ghost use Rattle.pos_layout.specs.Damages.{directory_fault, is_placed, opening};
ghost use Rattle.pos_layout.specs.Fields.{count_of, end_of, header_in, layout_in};
ghost use Rattle.pos_layout.specs.Layouts.{entry_bytes, parks_of};
ghost use Rattle.pos_reader.specs.Steps.{HasCounts};

use pos_layout::{Column, Damage, HEADER_BYTES, Header, Layout, decode_header, parks_of};

// Byte 0 of a plot file that is whole.
const OPEN_GATE: u8 = 1;

/// The header of a file of so many bytes, or the first damage that opening finds. The bytes are the first of the file, and
/// zeros where it has no more.
pub(crate) fn opened_header(bytes: &[u8], file_length: u64) -> Result<Header, Damage>
    requires { length bytes.now ≡ HEADER_BYTES }
    ensures ok { IfOk result (λ h. h ≡ header_in bytes.now) }
    ensures no_damage { OnOk result (opening (layout_in bytes.now) bytes.now file_length ≡ None) }
    ensures damage { IfErr result (λ d. opening (layout_in bytes.now) bytes.now file_length ≡ Some d) }
{
    let gate = bytes[0];
    if file_length < HEADER_BYTES as u64 || gate != OPEN_GATE {
        return Err(Damage::NotOpen {
            length: file_length,
            gate,
        });
    }
    let header = match decode_header(bytes) {
        Ok(header) => header,
        Err(field) => return Err(Damage::Header { field }),
    };
    if header.file_length != file_length {
        return Err(Damage::Length {
            said: header.file_length,
            found: file_length,
        });
    }
    match test_directories(&header) {
        Ok(()) => Ok(header),
        Err(damage) => Err(damage),
    }
}

/// Tests table by table that the directories lie where they can, and that the file ends with the last one.
fn test_directories(header: &Header) -> Result<(), Damage>
    requires { HasCounts header.now }
    ensures ok { OnOk result (directory_fault header.now.layout header.now ≡ None) }
    ensures damage { IfErr result (λ d. directory_fault header.now.layout header.now ≡ Some d) }
{
    let mut end = tables_start(header);
    for table in 1..=7 {
        match placed_end(header, table, end) {
            Some(next) => end = next,
            None => return Err(Damage::Directory { table, park: 0 }),
        }
    }
    if end == header.file_length {
        Ok(())
    } else {
        Err(Damage::Directory { table: 7, park: 0 })
    }
}

/// Where table t ends, if its directory lies after the end of the table before and ends inside the file.
fn placed_end(header: &Header, t: u8, before: u64) -> Option<u64>
    requires counts { HasCounts header.now }
    requires first { 1 ≤ t }
    requires last { t ≤ 7 }
    requires before { before ≡ end_of header.now.layout header.now (t - 1) }
    ensures placed { OnSome result (is_placed header.now.layout header.now t ≡ true) }
    ensures end { IfSome result (λ end. end ≡ end_of header.now.layout header.now t) }
    ensures misplaced { IfNone result (is_placed header.now.layout header.now t ≡ false) }
{
    let column = header.columns[t as usize - 1];
    let length = directory_length(header.layout, column.count);
    if !is_within(before, column.directory, length, header.file_length) {
        return None;
    }
    if column.count == 0 && column.directory != before {
        return None;
    }
    Some(column.directory + length)
}

/// Whether so many bytes from a place on lie between two other places.
pub(crate) fn is_within(start: u64, at: u64, length: u64, end: u64) -> bool
    ensures within { IsTrue result ↔ ((start ≤ at) × (at + length ≤ end)) }
    ensures fits { IsTrue result → at + length < 2 ^ 64 }
{
    start <= at && at <= end && length <= end - at
}

/// How many numbers table t has.
pub(crate) fn count_of(header: &Header, t: u8) -> u64
    requires first { 1 ≤ t }
    requires last { t ≤ 7 }
    ensures { result ≡ count_of header.now t }
{
    header.columns[t as usize - 1].count
}

/// Where table t ends; table 1 begins at the end of "table 0", which is that of the memo.
pub(crate) fn end_of(header: &Header, t: u8) -> u64
    requires counts { HasCounts header.now }
    requires last { t ≤ 7 }
    requires fits { end_of header.now.layout header.now t < 2 ^ 64 }
    ensures { result ≡ end_of header.now.layout header.now t }
{
    if t == 0 {
        return tables_start(header);
    }
    let column = header.columns[t as usize - 1];
    column.directory + directory_length(header.layout, column.count)
}

/// Where the tables begin: at the end of the header and the memo.
fn tables_start(header: &Header) -> u64
    ensures { result ≡ end_of header.now.layout header.now 0 }
{
    HEADER_BYTES as u64 + u64::from(header.memo_length)
}

/// The length in bytes of the directory of so many numbers.
fn directory_length(layout: Layout, count: u64) -> u64
    requires { count ≤ 2 ^ 51 }
    ensures length { result ≡ entry_bytes layout * parks_of layout count }
    ensures small { result < 2 ^ 63 }
{
    layout.entry_bytes() as u64 * parks_of(layout, count)
}
