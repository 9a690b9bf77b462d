// Bits read and written at any place of a slice of bytes.
ghost use Rattle.std.specs.Prelude.{◌≡◌, Bool, List, ◌++◌, ◌+◌, ◌-◌, ◌*◌, ◌/◌, ◌^◌, ◌<◌, ◌≤◌, ◌%◌, false, drop, length, replicate, take, slice_index};
ghost use Rattle.pos_bits.specs.Bits.{bits, bits_of, number};

use crate::BitString;
use crate::window::{bits_at_byte, low_bits};

// So many bits are read and written at once: at any bit of its first byte a window of eight bytes holds them.
const PIECE: u32 = 56;

/// The string of the `width` bits from bit `at` on. Takes no memory.
pub fn read_bits(bytes: &[u8], at: u64, width: u32) -> BitString
    requires few { length bytes.now < 2 ^ 40 }
    requires width_fits { width ≤ 512 }
    requires there { at + width ≤ 8 * length bytes.now }
    ensures value { result ≡ take width (drop at (bits_of bytes.now)) }
    ensures len { length result ≡ width }
{
    let mut string = BitString::empty();
    let mut done = 0;
    while done < width {
        let count = (width - done).min(PIECE);
        string.push(number_at(bytes, at + done as u64, count) as u128, count);
        done += count;
    }
    string
}

/// Writes the string over the bits from bit `at` on. All other bits stay. Takes no memory.
pub fn write_bits(bytes: &mut [u8], at: u64, value: &BitString)
    requires few { length bytes.old < 2 ^ 40 }
    requires there { at + length value.now ≤ 8 * length bytes.old }
    ensures bits { bits_of bytes.new
        ≡ take at (bits_of bytes.old) ++ value.now ++ drop (at + length value.now) (bits_of bytes.old) }
    ensures len { length bytes.new ≡ length bytes.old }
{
    let mut done = 0;
    while done < value.len() {
        let count = (value.len() - done).min(PIECE);
        let piece = value.number(done, count) as u64;
        write_piece(bytes, at + done as u64, piece, count);
        done += count;
    }
}

/// Puts the string behind the first `at` bits. The bits behind it may be anything afterwards, so it is faster than
/// `write_bits`. Takes no memory.
pub fn append_bits(bytes: &mut [u8], at: u64, value: &BitString)
    requires few { length bytes.old < 2 ^ 40 }
    requires there { at + length value.now ≤ 8 * length bytes.old }
    ensures bits { take (at + length value.now) (bits_of bytes.new) ≡ take at (bits_of bytes.old) ++ value.now }
    ensures len { length bytes.new ≡ length bytes.old }
{
    let mut done = 0;
    while done < value.len() {
        let count = (value.len() - done).min(PIECE);
        let piece = value.number(done, count) as u64;
        append_number(bytes, at + done as u64, piece, count);
        done += count;
    }
}

/// The number that the `width` bits from bit `at` on write, of which there are at most 56. Takes no memory.
#[inline(always)]
pub fn number_at(bytes: &[u8], at: u64, width: u32) -> u64
    requires few { length bytes.now < 2 ^ 40 }
    requires width_fits { width ≤ 56 }
    requires there { at + width ≤ 8 * length bytes.now }
    ensures value { result ≡ number (take width (drop at (bits_of bytes.now))) }
    ensures below { result < 2 ^ width }
{
    let window = bits_at_byte(bytes, (at / 8) as usize) << (at % 8);
    (window >> 8) >> (PIECE - width)
}

/// The number that the `width` bits from bit `at` on write, of which there are at most 128. Takes no memory.
#[inline(always)]
pub fn wide_number_at(bytes: &[u8], at: u64, width: u32) -> u128
    requires few { length bytes.now < 2 ^ 40 }
    requires width_fits { width ≤ 128 }
    requires there { at + width ≤ 8 * length bytes.now }
    ensures value { result ≡ number (take width (drop at (bits_of bytes.now))) }
    ensures below { result < 2 ^ width }
{
    let mut value = 0u128;
    let mut done = 0;
    while done < width {
        let count = (width - done).min(PIECE);
        value = (value << count) + number_at(bytes, at + done as u64, count) as u128;
        done += count;
    }
    value
}

/// Puts the `width` bits of `value`, at most 56, behind the first `at` bits. The bits behind them may be anything
/// afterwards. Takes no memory.
#[inline(always)]
pub fn append_number(bytes: &mut [u8], at: u64, value: u64, width: u32)
    requires few { length bytes.old < 2 ^ 40 }
    requires width_fits { width ≤ 56 }
    requires value_fits { value < 2 ^ width }
    requires there { at + width ≤ 8 * length bytes.old }
    ensures bits { take (at + width) (bits_of bytes.new) ≡ take at (bits_of bytes.old) ++ bits value width }
    ensures len { length bytes.new ≡ length bytes.old }
{
    let byte = (at / 8) as usize;
    let skip = (at % 8) as u32;
    let first = if byte < bytes.len() { bytes[byte] } else { 0 };
    let word = word_behind(first, skip, value, width);
    put_word(bytes, byte, word);
}

/// Puts the `width` bits of `value`, at most 128, behind the first `at` bits. The bits behind them may be anything
/// afterwards. Takes no memory.
#[inline(always)]
pub fn append_wide_number(bytes: &mut [u8], at: u64, value: u128, width: u32)
    requires few { length bytes.old < 2 ^ 40 }
    requires width_fits { width ≤ 128 }
    requires value_fits { value < 2 ^ width }
    requires there { at + width ≤ 8 * length bytes.old }
    ensures bits { take (at + width) (bits_of bytes.new) ≡ take at (bits_of bytes.old) ++ bits value width }
    ensures len { length bytes.new ≡ length bytes.old }
{
    let mut left = width;
    while left > 0 {
        let count = left.min(PIECE);
        let piece = top_bits(value, left, count);
        append_number(bytes, at + (width - left) as u64, piece, count);
        left -= count;
    }
}

// The number that `count` bits write of the low `left` bits of a value, from their top.
#[inline(always)]
fn top_bits(value: u128, left: u32, count: u32) -> u64
    requires count_fits { count ≤ PIECE }
    requires count_within { count ≤ left }
    requires left_fits { left ≤ 128 }
    requires not_none { 0 < count }
    ensures { result ≡ value / 2 ^ (left - count) % 2 ^ count }
{
    ((value >> (left - count)) & ((1 << count) - 1)) as u64
}

// As `append_number`, and all other bits stay.
fn write_piece(bytes: &mut [u8], at: u64, value: u64, width: u32)
    requires few { length bytes.old < 2 ^ 40 }
    requires not_none { 0 < width }
    requires width_fits { width ≤ 56 }
    requires value_fits { value < 2 ^ width }
    requires there { at + width ≤ 8 * length bytes.old }
    ensures bits { bits_of bytes.new
        ≡ take at (bits_of bytes.old) ++ bits value width ++ drop (at + width) (bits_of bytes.old) }
    ensures len { length bytes.new ≡ length bytes.old }
{
    let byte = (at / 8) as usize;
    let skip = (at % 8) as u32;
    let window = bits_at_byte(bytes, byte);
    let first = (window >> 56) as u8;
    let word = word_behind(first, skip, value, width) + low_bits(window, 64 - skip - width);
    put_word(bytes, byte, word);
}

// The first bits of a byte, behind them the bits of a value, and then 0 bits.
#[inline(always)]
fn word_behind(first: u8, skip: u32, value: u64, width: u32) -> u64
    requires skip_fits { skip < 8 }
    requires width_fits { width ≤ 56 }
    requires value_fits { value < 2 ^ width }
    ensures { bits result 64 ≡ take skip (bits first 8) ++ bits value width ++ replicate (64 - skip - width) false }
{
    let kept = first as u64 >> (8 - skip);
    ((kept << 56) + (value << (PIECE - width))) << (8 - skip)
}

// Writes the eight bytes of a word over the bytes from `byte` on, as many of them as there are.
#[inline(always)]
fn put_word(bytes: &mut [u8], byte: usize, word: u64)
    requires { byte ≤ length bytes.old }
    ensures bits { bits_of bytes.new
        ≡ take (8 * length bytes.old) (take (8 * byte) (bits_of bytes.old) ++ bits word 64 ++ drop (8 * byte + 64) (bits_of bytes.old)) }
    ensures len { length bytes.new ≡ length bytes.old }
{
    let left = bytes.len() - byte;
    if left >= 8 {
        bytes[byte..byte + 8].copy_from_slice(&word.to_be_bytes());
    } else {
        bytes[byte..].copy_from_slice(&word.to_be_bytes()[..left]);
    }
}
