// The kinds of records of a plotting run.
ghost use Rattle.std.specs.Prelude.{◌≡◌, ◌+◌, ◌*◌, ◌≤◌};
ghost use Rattle.pos_tuple.specs.Node.{metadata_units};
ghost use Rattle.pos_record.specs.Kinds.{first_code, first_read, FirstFits, value_code, value_read, ValueFits, middle_code, middle_read, MiddleFits, row_code, row_read, RowFits, last_code, last_read, LastFits, pair_code, pair_read, PairFits, number_code, number_read, NumberFits, first_width, middle_width, last_width, pair_width, number_width};
ghost use Rattle.pos_record.specs.KindLaws.{first_width_in_range, first_code_length, first_read_fits, first_read_code, first_code_read, value_width_in_range, value_code_length, value_read_fits, value_read_code, value_code_read, middle_width_in_range, middle_code_length, middle_read_fits, middle_read_code, middle_code_read, row_code_length, row_read_fits, row_read_code, row_code_read, last_width_in_range, last_code_length, last_read_fits, last_read_code, last_code_read, pair_width_in_range, pair_code_length, pair_read_fits, pair_read_code, pair_code_read, number_width_in_range, number_code_length, number_read_fits, number_read_code, number_code_read};

use crate::Record;
use crate::fields::{
    append_metadata, append_two, field, metadata, metadata_at, push_metadata, two_at,
};
use pos_bits::{
    BitString, append_bits, append_number, append_wide_number, number_at, read_bits, wide_number_at,
};

/// An entry of table 1: its y and the value that it is made of.
#[derive(Clone, Copy, Debug, PartialEq, Eq)]
pub struct First {
    pub y: u64,
    pub x: u64,
}

/// A value of table 1.
#[derive(Clone, Copy, Debug, PartialEq, Eq)]
pub struct Value {
    pub x: u64,
}

/// An entry of table T, from 2 to 6: its y, its metadata, and the places of the two entries that it is made of.
#[derive(Clone, Copy, Debug, PartialEq, Eq)]
pub struct Middle<const T: u32> {
    pub y: u64,
    pub meta: BitString,
    pub left: u64,
    pub right: u64,
}

/// An entry of table T, from 2 to 6, as `Middle`, with its metadata as the number that its bits write: `low` has the
/// last 128 of them, `high` those before. The bits of both kinds are the same. A `Row` is smaller and faster.
#[derive(Clone, Copy, Debug, PartialEq, Eq)]
pub struct Row<const T: u32> {
    pub y: u64,
    pub high: u128,
    pub low: u128,
    pub left: u64,
    pub right: u64,
}

/// An entry of table 7: its y, and the places of the two entries that it is made of.
#[derive(Clone, Copy, Debug, PartialEq, Eq)]
pub struct Last {
    pub y: u64,
    pub left: u64,
    pub right: u64,
}

/// Two places of the table below.
#[derive(Clone, Copy, Debug, PartialEq, Eq)]
pub struct Pair {
    pub left: u64,
    pub right: u64,
}

/// A number of a table of the plot file, or the y of an entry of table 7.
#[derive(Clone, Copy, Debug, PartialEq, Eq)]
pub struct Number {
    pub number: u128,
}

impl<const K: u32> Record<K> for First {
    ghost bit_count = { first_width K };

    ghost code = { first_code K };

    ghost read = { first_read K };

    ghost fits = { FirstFits K };

    ghost width_in_range = { first_width_in_range K };

    ghost code_length = { first_code_length K };

    ghost read_fits = { first_read_fits K };

    ghost read_code = { first_read_code K };

    ghost code_read = { first_code_read K };

    #[inline(always)]
    fn width() -> u32 {
        K + 6 + K
    }

    fn put(&self) -> BitString {
        let mut string = BitString::empty();
        string.push(self.y as u128, K + 6);
        string.push(self.x as u128, K);
        string
    }

    fn take(value: &BitString) -> Self {
        First {
            y: field(value, 0, K + 6),
            x: field(value, K + 6, K),
        }
    }

    #[inline(always)]
    fn append_at(&self, bytes: &mut [u8], at: u64) {
        append_two(bytes, at, self.y, K + 6, self.x, K);
    }

    #[inline(always)]
    fn take_at(bytes: &[u8], at: u64) -> Self {
        let (y, x) = two_at(bytes, at, K + 6, K);
        First { y, x }
    }
}

impl<const K: u32> Record<K> for Value {
    ghost bit_count = { K };

    ghost code = { value_code K };

    ghost read = { value_read K };

    ghost fits = { ValueFits K };

    ghost width_in_range = { value_width_in_range K };

    ghost code_length = { value_code_length K };

    ghost read_fits = { value_read_fits K };

    ghost read_code = { value_read_code K };

    ghost code_read = { value_code_read K };

    #[inline(always)]
    fn width() -> u32 {
        K
    }

    fn put(&self) -> BitString {
        let mut string = BitString::empty();
        string.push(self.x as u128, K);
        string
    }

    fn take(value: &BitString) -> Self {
        Value {
            x: field(value, 0, K),
        }
    }

    #[inline(always)]
    fn append_at(&self, bytes: &mut [u8], at: u64) {
        append_number(bytes, at, self.x, K);
    }

    #[inline(always)]
    fn take_at(bytes: &[u8], at: u64) -> Self {
        Value {
            x: number_at(bytes, at, K),
        }
    }
}

impl<const K: u32, const T: u32> Record<K> for Middle<T> {
    ghost bit_count = { middle_width K T };

    ghost code = { middle_code K T };

    ghost read = { middle_read K T };

    ghost fits = { MiddleFits K T };

    ghost width_in_range = { middle_width_in_range K T };

    ghost code_length = { middle_code_length K T };

    ghost read_fits = { middle_read_fits T K T };

    ghost read_code = { middle_read_code K T };

    ghost code_read = { middle_code_read T K T };

    #[inline(always)]
    fn width() -> u32 {
        K + 6 + K * units_of(T) + (K + 1) + (K + 1)
    }

    fn put(&self) -> BitString {
        let mut string = BitString::empty();
        string.push(self.y as u128, K + 6);
        string.join(&self.meta);
        string.push(self.left as u128, K + 1);
        string.push(self.right as u128, K + 1);
        string
    }

    fn take(value: &BitString) -> Self {
        let meta = K * units_of(T);
        Middle {
            y: field(value, 0, K + 6),
            meta: value.part(K + 6, meta),
            left: field(value, K + 6 + meta, K + 1),
            right: field(value, K + 6 + meta + (K + 1), K + 1),
        }
    }

    #[inline(always)]
    fn append_at(&self, bytes: &mut [u8], at: u64) {
        let places = at + (K + 6 + K * units_of(T)) as u64;
        append_number(bytes, at, self.y, K + 6);
        append_bits(bytes, at + (K + 6) as u64, &self.meta);
        append_two(bytes, places, self.left, K + 1, self.right, K + 1);
    }

    #[inline(always)]
    fn take_at(bytes: &[u8], at: u64) -> Self {
        let meta = K * units_of(T);
        let (left, right) = two_at(bytes, at + (K + 6 + meta) as u64, K + 1, K + 1);
        Middle {
            y: number_at(bytes, at, K + 6),
            meta: read_bits(bytes, at + (K + 6) as u64, meta),
            left,
            right,
        }
    }
}

impl<const K: u32, const T: u32> Record<K> for Row<T> {
    ghost bit_count = { middle_width K T };

    ghost code = { row_code K T };

    ghost read = { row_read K T };

    ghost fits = { RowFits K T };

    ghost width_in_range = { middle_width_in_range K T };

    ghost code_length = { row_code_length K T };

    ghost read_fits = { row_read_fits T K T };

    ghost read_code = { row_read_code K T };

    ghost code_read = { row_code_read T K T };

    #[inline(always)]
    fn width() -> u32 {
        K + 6 + K * units_of(T) + (K + 1) + (K + 1)
    }

    fn put(&self) -> BitString {
        let mut string = BitString::empty();
        string.push(self.y as u128, K + 6);
        push_metadata(&mut string, self.high, self.low, K * units_of(T));
        string.push(self.left as u128, K + 1);
        string.push(self.right as u128, K + 1);
        string
    }

    fn take(value: &BitString) -> Self {
        let meta = K * units_of(T);
        let (high, low) = metadata(value, K + 6, meta);
        Row {
            y: field(value, 0, K + 6),
            high,
            low,
            left: field(value, K + 6 + meta, K + 1),
            right: field(value, K + 6 + meta + (K + 1), K + 1),
        }
    }

    #[inline(always)]
    fn append_at(&self, bytes: &mut [u8], at: u64) {
        let meta = K * units_of(T);
        append_number(bytes, at, self.y, K + 6);
        append_metadata(bytes, at + (K + 6) as u64, self.high, self.low, meta);
        append_two(
            bytes,
            at + (K + 6 + meta) as u64,
            self.left,
            K + 1,
            self.right,
            K + 1,
        );
    }

    #[inline(always)]
    fn take_at(bytes: &[u8], at: u64) -> Self {
        let meta = K * units_of(T);
        let (high, low) = metadata_at(bytes, at + (K + 6) as u64, meta);
        let (left, right) = two_at(bytes, at + (K + 6 + meta) as u64, K + 1, K + 1);
        Row {
            y: number_at(bytes, at, K + 6),
            high,
            low,
            left,
            right,
        }
    }
}

impl<const K: u32> Record<K> for Last {
    ghost bit_count = { last_width K };

    ghost code = { last_code K };

    ghost read = { last_read K };

    ghost fits = { LastFits K };

    ghost width_in_range = { last_width_in_range K };

    ghost code_length = { last_code_length K };

    ghost read_fits = { last_read_fits K };

    ghost read_code = { last_read_code K };

    ghost code_read = { last_code_read K };

    #[inline(always)]
    fn width() -> u32 {
        K + 6 + (K + 1) + (K + 1)
    }

    fn put(&self) -> BitString {
        let mut string = BitString::empty();
        string.push(self.y as u128, K + 6);
        string.push(self.left as u128, K + 1);
        string.push(self.right as u128, K + 1);
        string
    }

    fn take(value: &BitString) -> Self {
        Last {
            y: field(value, 0, K + 6),
            left: field(value, K + 6, K + 1),
            right: field(value, K + 6 + (K + 1), K + 1),
        }
    }

    #[inline(always)]
    fn append_at(&self, bytes: &mut [u8], at: u64) {
        append_number(bytes, at, self.y, K + 6);
        append_two(
            bytes,
            at + (K + 6) as u64,
            self.left,
            K + 1,
            self.right,
            K + 1,
        );
    }

    #[inline(always)]
    fn take_at(bytes: &[u8], at: u64) -> Self {
        let (left, right) = two_at(bytes, at + (K + 6) as u64, K + 1, K + 1);
        Last {
            y: number_at(bytes, at, K + 6),
            left,
            right,
        }
    }
}

impl<const K: u32> Record<K> for Pair {
    ghost bit_count = { pair_width K };

    ghost code = { pair_code K };

    ghost read = { pair_read K };

    ghost fits = { PairFits K };

    ghost width_in_range = { pair_width_in_range K };

    ghost code_length = { pair_code_length K };

    ghost read_fits = { pair_read_fits K };

    ghost read_code = { pair_read_code K };

    ghost code_read = { pair_code_read K };

    #[inline(always)]
    fn width() -> u32 {
        K + 1 + (K + 1)
    }

    fn put(&self) -> BitString {
        let mut string = BitString::empty();
        string.push(self.left as u128, K + 1);
        string.push(self.right as u128, K + 1);
        string
    }

    fn take(value: &BitString) -> Self {
        Pair {
            left: field(value, 0, K + 1),
            right: field(value, K + 1, K + 1),
        }
    }

    #[inline(always)]
    fn append_at(&self, bytes: &mut [u8], at: u64) {
        append_two(bytes, at, self.left, K + 1, self.right, K + 1);
    }

    #[inline(always)]
    fn take_at(bytes: &[u8], at: u64) -> Self {
        let (left, right) = two_at(bytes, at, K + 1, K + 1);
        Pair { left, right }
    }
}

impl<const K: u32> Record<K> for Number {
    ghost bit_count = { number_width K };

    ghost code = { number_code K };

    ghost read = { number_read K };

    ghost fits = { NumberFits K };

    ghost width_in_range = { number_width_in_range K };

    ghost code_length = { number_code_length K };

    ghost read_fits = { number_read_fits K };

    ghost read_code = { number_read_code K };

    ghost code_read = { number_code_read K };

    #[inline(always)]
    fn width() -> u32 {
        2 * K + 2
    }

    fn put(&self) -> BitString {
        let mut string = BitString::empty();
        string.push(self.number, 2 * K + 2);
        string
    }

    fn take(value: &BitString) -> Self {
        Number {
            number: value.number(0, 2 * K + 2),
        }
    }

    #[inline(always)]
    fn append_at(&self, bytes: &mut [u8], at: u64) {
        append_wide_number(bytes, at, self.number, 2 * K + 2);
    }

    #[inline(always)]
    fn take_at(bytes: &[u8], at: u64) -> Self {
        Number {
            number: wide_number_at(bytes, at, 2 * K + 2),
        }
    }
}

// How many units of K bits the metadata of a table has.
#[inline(always)]
fn units_of(table: u32) -> u32
    ensures value { result ≡ metadata_units table }
    ensures at_most { result ≤ 4 }
{
    match table {
        1 => 1,
        2 => 2,
        3 => 4,
        4 => 4,
        5 => 3,
        6 => 2,
        _ => 0,
    }
}
