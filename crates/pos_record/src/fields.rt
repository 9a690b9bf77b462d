// Fields read and written on a slice of bytes.
ghost use Rattle.std.specs.Prelude.{◌≡◌, ◌++◌, ◌+◌, ◌*◌, ◌^◌, ◌/◌, ◌%◌, ◌<◌, ◌≤◌, length, take};
ghost use Rattle.pos_bits.specs.Bits.{bits, bits_of, number};
ghost use Rattle.pos_record.specs.Fields.{field_at};

use pos_bits::{BitString, append_number, append_wide_number, number_at, wide_number_at};

// So many bits are written at once.
const PIECE: u32 = 56;

// The number of a field of at most 64 bits of a string.
#[inline(always)]
pub(crate) fn field(value: &BitString, at: u32, width: u32) -> u64
    requires width_fits { width ≤ 64 }
    requires there { at + width ≤ length value.now }
    ensures value { result ≡ field_at at width value.now }
    ensures below { result < 2 ^ width }
{
    value.number(at, width) as u64
}

// Puts two fields behind the first `at` bits, at once where both are short.
#[inline(always)]
pub(crate) fn append_two(
    bytes: &mut [u8],
    at: u64,
    first: u64,
    first_width: u32,
    second: u64,
    second_width: u32,
)
    requires few { length bytes.old < 2 ^ 40 }
    requires first_width_fits { first_width ≤ 56 }
    requires second_width_fits { second_width ≤ 56 }
    requires first_fits { first < 2 ^ first_width }
    requires second_fits { second < 2 ^ second_width }
    requires there { at + first_width + second_width ≤ 8 * length bytes.old }
    ensures bits { take (at + first_width + second_width) (bits_of bytes.new)
        ≡ take at (bits_of bytes.old) ++ bits first first_width ++ bits second second_width }
    ensures len { length bytes.new ≡ length bytes.old }
{
    if first_width + second_width <= PIECE {
        let both = (first << second_width) + second;
        append_number(bytes, at, both, first_width + second_width);
    } else {
        append_number(bytes, at, first, first_width);
        append_number(bytes, at + first_width as u64, second, second_width);
    }
}

// The numbers of two fields, read at once where both are short.
#[inline(always)]
pub(crate) fn two_at(bytes: &[u8], at: u64, first_width: u32, second_width: u32) -> (u64, u64)
    requires few { length bytes.now < 2 ^ 40 }
    requires first_width_fits { first_width ≤ 56 }
    requires second_width_fits { second_width ≤ 56 }
    requires there { at + first_width + second_width ≤ 8 * length bytes.now }
    ensures first { result.0 ≡ field_at at first_width (bits_of bytes.now) }
    ensures second { result.1 ≡ field_at (at + first_width) second_width (bits_of bytes.now) }
    ensures first_below { result.0 < 2 ^ first_width }
    ensures second_below { result.1 < 2 ^ second_width }
{
    if first_width + second_width <= PIECE {
        let both = number_at(bytes, at, first_width + second_width);
        (both >> second_width, both & ((1 << second_width) - 1))
    } else {
        (
            number_at(bytes, at, first_width),
            number_at(bytes, at + first_width as u64, second_width),
        )
    }
}

// Puts the `width` low bits of a number behind the first `at` bits. The number is in two parts, the low one of 128 bits.
#[inline(always)]
pub(crate) fn append_metadata(bytes: &mut [u8], at: u64, high: u128, low: u128, width: u32)
    requires few { length bytes.old < 2 ^ 40 }
    requires width_fits { width ≤ 256 }
    requires fits { high * 2 ^ 128 + low < 2 ^ width }
    requires there { at + width ≤ 8 * length bytes.old }
    ensures bits { take (at + width) (bits_of bytes.new) ≡ take at (bits_of bytes.old) ++ bits (high * 2 ^ 128 + low) width }
    ensures len { length bytes.new ≡ length bytes.old }
{
    if width > 128 {
        append_wide_number(bytes, at, high, width - 128);
        append_wide_number(bytes, at + (width - 128) as u64, low, 128);
    } else {
        append_wide_number(bytes, at, low, width);
    }
}

// The number of at most 256 bits, in two parts, the low one of 128 bits.
#[inline(always)]
pub(crate) fn metadata_at(bytes: &[u8], at: u64, width: u32) -> (u128, u128)
    requires few { length bytes.now < 2 ^ 40 }
    requires width_fits { width ≤ 256 }
    requires there { at + width ≤ 8 * length bytes.now }
    ensures high { result.0 ≡ field_at at width (bits_of bytes.now) / 2 ^ 128 }
    ensures low { result.1 ≡ field_at at width (bits_of bytes.now) % 2 ^ 128 }
{
    if width > 128 {
        (
            wide_number_at(bytes, at, width - 128),
            wide_number_at(bytes, at + (width - 128) as u64, 128),
        )
    } else {
        (0, wide_number_at(bytes, at, width))
    }
}

// Appends the `width` low bits of a number in two parts to a string.
pub(crate) fn push_metadata(string: &mut BitString, high: u128, low: u128, width: u32)
    requires width_fits { width ≤ 256 }
    requires fits { high * 2 ^ 128 + low < 2 ^ width }
    requires room { length string.old + width ≤ 512 }
    ensures bits { string.new ≡ string.old ++ bits (high * 2 ^ 128 + low) width }
    ensures len { length string.new ≡ length string.old + width }
{
    if width > 128 {
        string.push(high, width - 128);
        string.push(low, 128);
    } else {
        string.push(low, width);
    }
}

// The number of at most 256 bits of a string, in two parts, the low one of 128 bits.
pub(crate) fn metadata(value: &BitString, at: u32, width: u32) -> (u128, u128)
    requires width_fits { width ≤ 256 }
    requires short { at + width ≤ 512 }
    requires there { at + width ≤ length value.now }
    ensures high { result.0 ≡ field_at at width value.now / 2 ^ 128 }
    ensures low { result.1 ≡ field_at at width value.now % 2 ^ 128 }
{
    if width > 128 {
        (
            value.number(at, width - 128),
            value.number(at + (width - 128), 128),
        )
    } else {
        (0, value.number(at, width))
    }
}
