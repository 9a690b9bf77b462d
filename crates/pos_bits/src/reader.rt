// A reader of bits over bytes.
ghost use Rattle.std.specs.Prelude.{◌≡◌, ◌≢◌, ◌↔◌, ℕ, Bool, List, ◌∷◌, ◌++◌, ◌*◌, ◌+◌, ◌-◌, ◌/◌, ◌%◌, ◌^◌, ◌<◌, ◌≤◌, true, false, drop, length, replicate, take, IfNone, IfSome, IsNone};
ghost use Rattle.pos_bits.specs.Bits.{bits, bits_of};
ghost use Rattle.pos_bits.specs.Codes.{code_bits};
ghost use Rattle.std.specs.Int.{leading_ones};

use crate::places::wide_number_at;
use crate::window::bits_at_byte;
use std::marker::Model;

// So many bits a window of eight bytes has at any place of its first byte.
const WINDOW_BITS: u32 = 57;

/// Reads the bits of bytes one after another. Contracts see the list of the bits that are left. No call takes memory.
#[derive(Drop)]
pub struct BitReader<'a> {
    bytes: &'a [u8],
    at: u64,
}

impl<'a> Model for BitReader<'a> {
    ghost Value = { List Bool };

    ghost view = { λ r. drop r.at (bits_of r.bytes.now) };

    ghost invariant = { λ r. (length r.bytes.now < 2 ^ 40) × (r.at ≤ 8 * length r.bytes.now) };
}

impl<'a> BitReader<'a> {
    /// A reader of all bits of the bytes, first byte first, the top bit of each byte first.
    pub fn new(bytes: &'a [u8]) -> BitReader<'a>
        requires { length bytes.now < 2 ^ 40 }
        ensures value { result ≡ bits_of bytes.now }
        ensures len { length result ≡ 8 * length bytes.now }
    {
        BitReader { bytes, at: 0 }
    }

    /// The number of bits that are left.
    pub fn left(&self) -> u64
        ensures value { result ≡ length self.now }
        ensures below { result < 2 ^ 43 }
    {
        8 * self.bytes.len() as u64 - self.at
    }

    /// Takes the next `width` bits and answers the number that they write. Where fewer bits are left, it answers None, and
    /// nothing moves.
    pub fn take(&mut self, width: u32) -> Option<u128>
        requires { width ≤ 128 }
        ensures none { IsNone result ↔ (length self.old < width) }
        ensures unchanged { IfNone result (self.new ≡ self.old) }
        ensures some { IfSome result (λ value. self.old ≡ bits value width ++ self.new) }
        ensures below { IfSome result (λ value. value < 2 ^ width) }
    {
        if self.left() < width as u64 {
            return None;
        }
        let mut value = 0u128;
        let mut left = width;
        while left > 0 {
            let count = left.min(56);
            value = (value << count) + self.next(count) as u128;
            left -= count;
        }
        Some(value)
    }

    /// Takes a run of 1 bits and the 0 bit that ends it, and answers the number of 1 bits. Where all bits that are left
    /// are 1 bits, it answers None, and nothing moves.
    pub fn take_run(&mut self) -> Option<u64>
        ensures none { IfNone result (self.old ≡ replicate (length self.old) true) }
        ensures unchanged { IfNone result (self.new ≡ self.old) }
        ensures some { IfSome result (λ ones. self.old ≡ replicate ones true ++ false ∷ self.new) }
    {
        let ones = ones_from(self.bytes, self.at);
        if ones == self.left() {
            return None;
        }
        self.at += ones + 1;
        Some(ones)
    }

    /// Takes the code of a number with `low` low bits, at most 112, and answers the number.
    ///
    /// It answers None only where what is left begins with no code of a number up to the limit, and then nothing moves. It
    /// may answer a number above the limit.
    #[inline(always)]
    pub fn take_code(&mut self, low: u32, limit: u128) -> Option<u128>
        requires low_fits { low ≤ 112 }
        requires limit_fits { limit < 2 ^ 112 }
        ensures some { IfSome result (λ n. self.old ≡ code_bits low n ++ self.new) }
        ensures below { IfSome result (λ n. n < 2 ^ 113) }
        ensures none { IfNone result ((n : ℕ) (s : List Bool) → n ≤ limit → self.old ≢ code_bits low n ++ s) }
        ensures unchanged { IfNone result (self.new ≡ self.old) }
    {
        if self.bytes.len() - (self.at / 8) as usize >= 8 {
            let window = window_at(self.bytes, self.at);
            let ones = window.leading_ones();
            if ones + low < WINDOW_BITS {
                self.at += u64::from(ones + 1 + low);
                return Some(u128::from(short_code(window, ones, low)));
            }
        }
        let (number, at) = code_at(self.bytes, self.at, low, limit)?;
        self.at = at;
        Some(number)
    }

    // Takes bits of one window.
    #[inline(always)]
    fn next(&mut self, width: u32) -> u64
        requires not_none { 0 < width }
        requires width_fits { width ≤ 56 }
        requires there { width ≤ length self.old }
        ensures value { self.old ≡ bits result width ++ self.new }
        ensures below { result < 2 ^ width }
    {
        let value = window_at(self.bytes, self.at) >> (64 - width);
        self.at += width as u64;
        value
    }
}

// The number whose code begins a window with so many 1 bits.
#[inline(always)]
fn short_code(window: u64, ones: u32, low: u32) -> u64
    requires within { ones + low < WINDOW_BITS }
    ensures { result ≡ ones * 2 ^ low + window * 2 ^ ones % 2 ^ 64 / 2 ^ (63 - low) }
{
    (u64::from(ones) << low) + ((window << ones) >> (63 - low))
}

// The number whose code stands at bit `at`, and the bit after it, where a number up to the limit has a code there.
#[cold]
#[inline(never)]
fn code_at(bytes: &[u8], at: u64, low: u32, limit: u128) -> Option<(u128, u64)>
    requires few { length bytes.now < 2 ^ 40 }
    requires within { at ≤ 8 * length bytes.now }
    requires low_fits { low ≤ 112 }
    requires limit_fits { limit < 2 ^ 112 }
    ensures some { IfSome result (λ found. drop at (bits_of bytes.now) ≡ code_bits low found.0 ++ drop found.1 (bits_of bytes.now)) }
    ensures within { IfSome result (λ found. found.1 ≤ 8 * length bytes.now) }
    ensures below { IfSome result (λ found. found.0 < 2 ^ 113) }
    ensures none { IfNone result ((n : ℕ) (s : List Bool) → n ≤ limit → drop at (bits_of bytes.now) ≢ code_bits low n ++ s) }
{
    let end = 8 * bytes.len() as u64;
    let ones = ones_from(bytes, at);
    let from = at + ones + 1;
    if end < from + u64::from(low) {
        return None;
    }
    if u128::from(ones) > limit >> low {
        return None;
    }
    let value = wide_number_at(bytes, from, low);
    Some(((u128::from(ones) << low) + value, from + u64::from(low)))
}

// How many 1 bits stand at bit `at`, up to the next 0 bit or the end.
fn ones_from(bytes: &[u8], at: u64) -> u64
    requires few { length bytes.now < 2 ^ 40 }
    requires within { at ≤ 8 * length bytes.now }
    ensures ones { drop at (bits_of bytes.now) ≡ replicate result true ++ drop (at + result) (bits_of bytes.now) }
    ensures next { at + result < 8 * length bytes.now → drop (at + result) (bits_of bytes.now) ≡ false ∷ drop (at + result + 1) (bits_of bytes.now) }
    ensures within { at + result ≤ 8 * length bytes.now }
{
    let end = 8 * bytes.len() as u64;
    let mut ones = 0;
    while at + ones < end {
        let count = ones_at(bytes, at + ones);
        ones += count as u64;
        if count < WINDOW_BITS {
            return ones;
        }
    }
    ones
}

// How many 1 bits stand at bit `at`, up to the next 0 bit, the end or the end of the window.
#[inline(always)]
fn ones_at(bytes: &[u8], at: u64) -> u32
    requires few { length bytes.now < 2 ^ 40 }
    requires within { at ≤ 8 * length bytes.now }
    ensures ones { drop at (bits_of bytes.now) ≡ replicate result true ++ drop (at + result) (bits_of bytes.now) }
    ensures next { result < WINDOW_BITS → at + result < 8 * length bytes.now → drop (at + result) (bits_of bytes.now) ≡ false ∷ drop (at + result + 1) (bits_of bytes.now) }
    ensures within { at + result ≤ 8 * length bytes.now }
    ensures at_most { result ≤ WINDOW_BITS }
{
    window_at(bytes, at).leading_ones().min(WINDOW_BITS)
}

// The 64 bits from bit `at` on. The first 57 are those of the bytes, or 0 bits past their end.
#[inline(always)]
fn window_at(bytes: &[u8], at: u64) -> u64
    requires few { length bytes.now < 2 ^ 40 }
    requires within { at ≤ 8 * length bytes.now }
    ensures { take WINDOW_BITS (bits result 64) ≡ take WINDOW_BITS (drop at (bits_of bytes.now) ++ replicate 64 false) }
{
    bits_at_byte(bytes, (at / 8) as usize) << (at % 8)
}
