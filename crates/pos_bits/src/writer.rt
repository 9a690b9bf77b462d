// A growing list of bits, kept as bytes.
ghost use Rattle.std.specs.Prelude.{◌≡◌, ℕ, Bool, List, [], ◌∷◌, ◌++◌, ◌+◌, ◌-◌, ◌*◌, ◌/◌, ◌^◌, ◌<◌, ◌≤◌, ◌%◌, true, false, length, replicate, vec_capacity, vec_len, IfOk, OnErr, OnOk};
ghost use Rattle.pos_bits.specs.Bits.{bits, bits_of, bytes as bytes_of_bits};
ghost use Rattle.pos_bits.specs.Codes.{code_bits};
ghost use Rattle.pos_bits.specs.Written.{IsTail};

use crate::Memory;
use crate::window::low_bits;
use std::alloc::Global;
use std::marker::Model;

/// Writes bits one after another. Contracts see the list of the bits that are written so far.
///
/// Whole words of 64 bits are among the bytes, and `rest` has the last `fill` bits, fewer than 64. Where there are such
/// bits, there is room for a word, so that `finish` takes no memory.
#[derive(Drop)]
pub struct BitWriter {
    bytes: Vec<u8>,
    rest: u64,
    fill: u32,
}

impl Model for BitWriter {
    ghost Value = { List Bool };

    ghost view = { λ w. bits_of w.bytes.items ++ bits w.rest w.fill };

    ghost invariant = { λ w. IsTail w.rest w.fill (vec_capacity w.bytes - vec_len w.bytes) };
}

impl BitWriter {
    /// A writer with no bits. It takes no memory.
    pub fn new(alloc: Global) -> BitWriter
        ensures { result ≡ [] }
    {
        BitWriter {
            bytes: Vec::new(alloc),
            rest: 0,
            fill: 0,
        }
    }

    /// A writer with no bits, which takes memory for so many bytes at once.
    ///
    /// The only error is want of memory.
    pub fn with_room(alloc: Global, bytes: usize) -> Result<BitWriter, Memory>
        ensures { IfOk result (λ writer. writer ≡ []) }
    {
        let Ok(bytes) = Vec::with_capacity(alloc, bytes) else {
            return Err(Memory);
        };
        Ok(BitWriter {
            bytes,
            rest: 0,
            fill: 0,
        })
    }

    /// Appends the `width` bits of `value`, top bit first. After `Memory` nothing has changed.
    pub fn put(&mut self, value: u128, width: u32) -> Result<(), Memory>
        requires width_fits { width ≤ 128 }
        requires value_fits { value < 2 ^ width }
        ensures ok { OnOk result (self.new ≡ self.old ++ bits value width) }
        ensures err { OnErr result (self.new ≡ self.old) }
    {
        let Ok(()) = self.bytes.reserve(32) else {
            return Err(Memory);
        };
        (self.rest, self.fill) = append_wide(&mut self.bytes, self.rest, self.fill, value, width);
        Ok(())
    }

    /// Appends so many 1 bits and a 0 bit. After `Memory` nothing has changed.
    pub fn put_run(&mut self, ones: u64) -> Result<(), Memory>
        ensures ok { OnOk result (self.new ≡ self.old ++ (replicate ones true ++ false ∷ [])) }
        ensures err { OnErr result (self.new ≡ self.old) }
    {
        let Ok(()) = self.bytes.reserve((ones / 8) as usize + 32) else {
            return Err(Memory);
        };
        (self.rest, self.fill) = append_run(&mut self.bytes, self.rest, self.fill, ones);
        Ok(())
    }

    /// Appends the code of a number with `low` low bits. After `Memory` nothing has changed.
    #[inline(always)]
    pub fn put_code(&mut self, number: u128, low: u32) -> Result<(), Memory>
        requires low_fits { low < 128 }
        requires run_fits { number / 2 ^ low < 2 ^ 64 }
        ensures ok { OnOk result (self.new ≡ self.old ++ code_bits low number) }
        ensures err { OnErr result (self.new ≡ self.old) }
    {
        if low < 63 && number < u128::from(63 - low) << low {
            let run = (number as u64 >> low) as u32;
            self.put_short(run_and_low(number as u64, run, low), run + 1 + low)
        } else {
            self.put_long(number, low)
        }
    }

    // As `put`, of fewer than 64 bits.
    #[inline(always)]
    fn put_short(&mut self, value: u64, width: u32) -> Result<(), Memory>
        requires width_fits { width < 64 }
        requires value_fits { value < 2 ^ width }
        ensures ok { OnOk result (self.new ≡ self.old ++ bits value width) }
        ensures err { OnErr result (self.new ≡ self.old) }
    {
        // most often the word is not full yet, and where a bit is in it, there is room for all of it
        if self.fill > 0 && width < 64 - self.fill {
            self.rest = (self.rest << width) + value;
            self.fill += width;
            return Ok(());
        }
        let Ok(()) = self.bytes.reserve(24) else {
            return Err(Memory);
        };
        (self.rest, self.fill) = append(&mut self.bytes, self.rest, self.fill, value, width);
        Ok(())
    }

    // As `put_code`, whatever the code's length.
    #[cold]
    #[inline(never)]
    fn put_long(&mut self, number: u128, low: u32) -> Result<(), Memory>
        requires low_fits { low < 128 }
        requires run_fits { number / 2 ^ low < 2 ^ 64 }
        ensures ok { OnOk result (self.new ≡ self.old ++ code_bits low number) }
        ensures err { OnErr result (self.new ≡ self.old) }
    {
        let run = (number >> low) as u64;
        let Ok(()) = self.bytes.reserve((run / 8) as usize + 48) else {
            return Err(Memory);
        };
        (self.rest, self.fill) = append_run(&mut self.bytes, self.rest, self.fill, run);
        let value = number % (1 << low);
        (self.rest, self.fill) = append_wide(&mut self.bytes, self.rest, self.fill, value, low);
        Ok(())
    }

    /// The bytes of the bits: the last byte is filled with 0 bits. It takes no memory.
    pub fn finish(self) -> Vec<u8>
        ensures { result.items ≡ bytes_of_bits self }
    {
        let BitWriter {
            mut bytes,
            rest,
            fill,
        } = self;
        append_last(&mut bytes, rest, fill);
        bytes
    }
}

// So many 1 bits, a 0 bit, and the low bits of a number, as one number.
#[inline(always)]
fn run_and_low(number: u64, run: u32, low: u32) -> u64
    requires short { run + low < 63 }
    ensures fits { result < 2 ^ (run + 1 + low) }
    ensures bits { bits result (run + 1 + low) ≡ replicate run true ++ false ∷ bits (number % 2 ^ low) low }
{
    (((2 << run) - 2) << low) + low_bits(number, low)
}

// As `append`, with up to 128 bits.
fn append_wide(bytes: &mut Vec<u8>, rest: u64, fill: u32, value: u128, width: u32) -> (u64, u32)
    requires fill_fits { fill < 64 }
    requires rest_fits { rest < 2 ^ fill }
    requires width_fits { width ≤ 128 }
    requires value_fits { value < 2 ^ width }
    requires room { vec_len bytes.old + 24 ≤ vec_capacity bytes.old }
    ensures bits { bits_of bytes.new.items ++ bits result.0 result.1 ≡ bits_of bytes.old.items ++ bits rest fill ++ bits value width }
    ensures fill { result.1 < 64 }
    ensures rest { result.0 < 2 ^ result.1 }
    ensures len { 8 * vec_len bytes.new + result.1 ≡ 8 * vec_len bytes.old + fill + width }
    ensures capacity { vec_capacity bytes.old ≤ vec_capacity bytes.new }
{
    if width > 64 {
        let high = (value >> 64) as u64;
        let (rest, fill) = append(bytes, rest, fill, high, width - 64);
        let low = (value & 0xffff_ffff_ffff_ffff) as u64;
        append(bytes, rest, fill, low, 64)
    } else {
        append(bytes, rest, fill, value as u64, width)
    }
}

// Appends so many 1 bits and a 0 bit to bytes and a rest of fewer than 64 bits, and answers the new rest.
fn append_run(bytes: &mut Vec<u8>, rest: u64, fill: u32, ones: u64) -> (u64, u32)
    requires fill_fits { fill < 64 }
    requires rest_fits { rest < 2 ^ fill }
    requires room { vec_len bytes.old + ones / 8 + 24 ≤ vec_capacity bytes.old }
    ensures bits { bits_of bytes.new.items ++ bits result.0 result.1 ≡ bits_of bytes.old.items ++ bits rest fill ++ (replicate ones true ++ false ∷ []) }
    ensures fill { result.1 < 64 }
    ensures rest { result.0 < 2 ^ result.1 }
    ensures len { 8 * vec_len bytes.new + result.1 ≡ 8 * vec_len bytes.old + fill + ones + 1 }
    ensures capacity { vec_capacity bytes.old ≤ vec_capacity bytes.new }
{
    let mut now = rest;
    let mut held = fill;
    let mut left = ones;
    while left >= 32 {
        (now, held) = append(bytes, now, held, 0xffff_ffff, 32);
        left -= 32;
    }
    append(bytes, now, held, (2 << left) - 2, left as u32 + 1)
}

// Appends bits to bytes and a rest of fewer than 64 bits, and answers the new rest.
#[inline(always)]
fn append(bytes: &mut Vec<u8>, rest: u64, fill: u32, value: u64, width: u32) -> (u64, u32)
    requires fill_fits { fill < 64 }
    requires rest_fits { rest < 2 ^ fill }
    requires width_fits { width ≤ 64 }
    requires value_fits { value < 2 ^ width }
    requires room { vec_len bytes.old + 8 ≤ vec_capacity bytes.old }
    ensures bits { bits_of bytes.new.items ++ bits result.0 result.1 ≡ bits_of bytes.old.items ++ bits rest fill ++ bits value width }
    ensures fill { result.1 < 64 }
    ensures rest { result.0 < 2 ^ result.1 }
    ensures len { 8 * vec_len bytes.new + result.1 ≡ 8 * vec_len bytes.old + fill + width }
    ensures capacity { vec_capacity bytes.old ≤ vec_capacity bytes.new }
{
    let room = 64 - fill;
    if width < room {
        return ((rest << width) + value, fill + width);
    }
    let left = width - room;
    let word = if room < 64 {
        (rest << room) + (value >> left)
    } else {
        value >> left
    };
    let Ok(()) = bytes.extend_from_slice(&word.to_be_bytes()) else {
        unreachable!()
    };
    (low_bits(value, left), left)
}

// Appends the bytes of a rest of fewer than 64 bits.
fn append_last(bytes: &mut Vec<u8>, rest: u64, fill: u32)
    requires fill_fits { fill < 64 }
    requires rest_fits { rest < 2 ^ fill }
    requires room { fill ≤ 8 * (vec_capacity bytes.old - vec_len bytes.old) }
    ensures { bytes.new.items ≡ bytes_of_bits (bits_of bytes.old.items ++ bits rest fill) }
{
    if fill == 0 {
        return;
    }
    let last = (rest << (64 - fill)).to_be_bytes();
    let Ok(()) = bytes.extend_from_slice(&last[..(fill as usize + 7) / 8]) else {
        unreachable!()
    };
}
