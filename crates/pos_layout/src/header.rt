//! The header of a plot file, between its bytes and its fields.
ghost use Rattle.std.specs.Prelude.{◌≡◌, ◌≤◌, ◌+◌, ◌*◌, ◌<◌, ◌==◌, ◌&&◌, ◌++◌, nat_le, length, take, OnOk, IfOk, IfErr, Some, None};
ghost use Rattle.pos_layout.specs.Layouts.{name_of, memo_of};
ghost use Rattle.std.specs.List.{list_all};
ghost use Rattle.std.specs.Str.{bytes_eq};
ghost use Rattle.pos_layout.specs.Fields.{column_bytes, columns_bytes, column_in, header_bytes, header_in, layout_in, name_in};
ghost use Rattle.pos_layout.specs.Damages.{header_fault};

use crate::bytes::{eight_at, put, two_at};
use crate::{HeaderField, Layout};
use pos_tuple::{Id, Size};

/// The length of the header in bytes.
pub const HEADER_BYTES: usize = 176;

/// The least size that a plot file may have.
pub const LEAST_SIZE: u32 = 10;

/// The greatest size that a plot file may have.
pub const GREATEST_SIZE: u32 = 50;

/// What the header says of one table: how many numbers it has, and the offset of its directory in bytes.
#[derive(Clone, Copy, Debug, PartialEq, Eq)]
pub struct Column {
    pub count: u64,
    pub directory: u64,
}

/// What the header says: the layout, the id and the size of the plot, the length of the memo in bytes, the columns of
/// tables 1 to 7, and the file's length in bytes.
#[derive(Clone, Copy, Debug, PartialEq, Eq)]
pub struct Header {
    pub layout: Layout,
    pub id: Id,
    pub size: Size,
    pub memo_length: u16,
    pub columns: [Column; 7],
    pub file_length: u64,
}

/// The bytes of a header with a closed gate.
pub fn encode_header(header: &Header) -> [u8; 176]
    ensures bytes { result ≡ header_bytes header.now.layout 0 header.now }
    ensures len { length result ≡ HEADER_BYTES }
{
    let mut bytes = [0; 176];
    put(&mut bytes, 1, &header.layout.name());
    put(&mut bytes, 16, &header.id.0);
    bytes[48] = header.size.k() as u8;
    put(&mut bytes, 49, &header.memo_length.to_be_bytes());
    put(&mut bytes, 51, &[0; 5]);
    put_columns(&mut bytes, &header.columns);
    put(&mut bytes, 168, &header.file_length.to_be_bytes());
    bytes
}

/// Writes the columns of tables 1 to 7 to their places in a header.
fn put_columns(bytes: &mut [u8], columns: &[Column; 7])
    requires { length bytes.old ≡ HEADER_BYTES }
    ensures { take 168 bytes.new ≡ take 56 bytes.old ++ columns_bytes columns.now }
{
    for i in 0..7 {
        put_column(bytes, 56 + 16 * i, columns[i]);
    }
}

/// Writes a column over the 16 bytes from this place on.
fn put_column(bytes: &mut [u8], at: usize, column: Column)
    requires { at + 16 ≤ length bytes.old }
    ensures { take (at + 16) bytes.new ≡ take at bytes.old ++ column_bytes column }
{
    put(bytes, at, &column.count.to_be_bytes());
    put(bytes, at + 8, &column.directory.to_be_bytes());
}

/// The header whose bytes these are, whatever the gate, or the first of its fields that can't be: name, size, zeros,
/// memo, counts. The length and the directories' places are not tested.
pub fn decode_header(bytes: &[u8]) -> Result<Header, HeaderField>
    requires { length bytes.now ≡ HEADER_BYTES }
    ensures ok { IfOk result (λ header. header ≡ header_in bytes.now) }
    ensures no_fault { OnOk result (header_fault (layout_in bytes.now) bytes.now ≡ None) }
    ensures fault { IfErr result (λ field. header_fault (layout_in bytes.now) bytes.now ≡ Some field) }
{
    let layout = layout_in(bytes);
    if !is_named(bytes, layout) {
        return Err(HeaderField::Name);
    }
    let k = u32::from(bytes[48]);
    if !is_size(k) {
        return Err(HeaderField::Size);
    }
    if !are_zero(&bytes[layout.zeros_from()..56]) {
        return Err(HeaderField::Zeros);
    }
    let memo_length = two_at(bytes, 49);
    if !is_memo(layout, memo_length) {
        return Err(HeaderField::Memo);
    }
    let columns = columns_in(bytes);
    if !counts_are_at_most(&columns, 1 << (k + 1)) {
        return Err(HeaderField::Counts);
    }
    let mut id = [0; 32];
    id.copy_from_slice(&bytes[16..48]);
    Ok(Header {
        layout,
        id: Id(id),
        size: Size::of(k),
        memo_length,
        columns,
        file_length: eight_at(bytes, 168),
    })
}

/// The layout that bytes 1 to 15 name, or the first one where they name none.
fn layout_in(bytes: &[u8]) -> Layout
    requires { length bytes.now ≡ HEADER_BYTES }
    ensures { result ≡ layout_in bytes.now }
{
    if is_named(bytes, Layout::Two) {
        Layout::Two
    } else {
        Layout::One
    }
}

/// Whether bytes 1 to 15 are the name of this layout.
fn is_named(bytes: &[u8], layout: Layout) -> bool
    requires { length bytes.now ≡ HEADER_BYTES }
    ensures { result ≡ bytes_eq (name_in bytes.now) (name_of layout) }
{
    bytes[1..16] == layout.name()[..]
}

/// Whether a plot file may have this size.
fn is_size(k: u32) -> bool
    ensures { result ≡ (nat_le LEAST_SIZE k && nat_le k GREATEST_SIZE) }
{
    LEAST_SIZE <= k && k <= GREATEST_SIZE
}

/// Whether a memo of this layout may have so many bytes.
fn is_memo(layout: Layout, length: u16) -> bool
    ensures { result ≡ nat_le length (memo_of layout) }
{
    usize::from(length) <= layout.greatest_memo()
}

/// Whether all these bytes are zero.
fn are_zero(bytes: &[u8]) -> bool
    ensures { result ≡ list_all (λ x. x == 0) bytes.now }
{
    bytes.iter().all(|byte| *byte == 0)
}

/// Whether no table has more numbers than so many.
fn counts_are_at_most(columns: &[Column; 7], most: u64) -> bool
    ensures { result ≡ list_all (λ column. nat_le column.count most) columns.now }
{
    columns.iter().all(|column| column.count <= most)
}

/// The columns of tables 1 to 7.
fn columns_in(bytes: &[u8]) -> [Column; 7]
    requires { length bytes.now ≡ HEADER_BYTES }
    ensures { result ≡ (header_in bytes.now).columns }
{
    [
        column_in(bytes, 1),
        column_in(bytes, 2),
        column_in(bytes, 3),
        column_in(bytes, 4),
        column_in(bytes, 5),
        column_in(bytes, 6),
        column_in(bytes, 7),
    ]
}

/// The column of table t.
fn column_in(bytes: &[u8], t: usize) -> Column
    requires header { length bytes.now ≡ HEADER_BYTES }
    requires first { 1 ≤ t }
    requires last { t ≤ 7 }
    ensures { result ≡ column_in bytes.now t }
{
    Column {
        count: eight_at(bytes, 40 + 16 * t),
        directory: eight_at(bytes, 48 + 16 * t),
    }
}
