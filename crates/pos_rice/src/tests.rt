ghost use Rattle.pos_rice.specs.Park.{AreNumbers};
ghost use Rattle.std.specs.Bool.{OnTrue};
ghost use Rattle.std.specs.Prelude.{◌≤◌};

use super::*;
use std::alloc::{Alloc, AllocError, Global};
use std::process::Abort;
use std::slice::Iter;
use std::test::Fail;

/// Whether these are numbers that a park of size k can hold.
fn are_numbers(k: u32, numbers: &[u128]) -> bool
    requires { k ≤ 50 }
    ensures { OnTrue result (AreNumbers k numbers.now) }
{
    if numbers.is_empty() || numbers.len() > MOST_NUMBERS {
        return false;
    }
    let limit = 1 << (2 * k + 2);
    for i in 0..numbers.len() {
        if numbers[i] >= limit {
            return false;
        }
        if i > 0 && numbers[i - 1] >= numbers[i] {
            return false;
        }
    }
    true
}

#[test]
fn worked_parks_are_written(rt: HostRuntime) -> Result<(), Fail> {
    let rows: [(&[u128], &[u8]); 3] = [
        (&[100, 101, 105], &[0x00, 0x01, 0x90, 0x09, 0x40]),
        (&[5], &[0x00, 0x00, 0x14, 0x00]),
        (&[0, 1, 2], &[0x00, 0x00, 0x00, 0x00]),
    ];
    for (numbers, bytes) in rows {
        assert!(rt; are_numbers(10, numbers));
        let park = encode_park(rt.alloc(), 10, numbers)?;
        assert_eq!(rt; park.as_slice(), bytes);
    }
    Ok(())
}

#[test]
fn parks_with_a_wrong_count_of_low_bits_or_a_set_fill_bit_are_refused(rt: HostRuntime) {
    let mut out = [0; 3];
    assert_eq!(rt;
        decode_park(10, 3, &[0x00, 0x01, 0x90, 0x09, 0x40], &mut out),
        Ok(())
    );
    assert_eq!(rt; out, [100, 101, 105]);
    assert_eq!(rt;
        decode_park(10, 3, &[0x00, 0x01, 0x90, 0x10, 0x60], &mut out),
        Err(ParkForm)
    );
    assert_eq!(rt;
        decode_park(10, 3, &[0x00, 0x01, 0x90, 0x09, 0x41], &mut out),
        Err(ParkForm)
    );
    assert_eq!(rt;
        decode_park(10, 3, &[0x00, 0x01, 0x90, 0x09, 0x40, 0x00], &mut out),
        Err(ParkForm)
    );
    assert_eq!(rt;
        decode_park(10, 3, &[0x00, 0x01, 0x90, 0x09], &mut out),
        Err(ParkForm)
    );
}

/// The numbers from 1 on, so many; the last one is another where that is given.
fn numbers_to(alloc: Global, count: usize, last: Option<u128>) -> Result<Vec<u128>, AllocError> {
    let mut numbers = Vec::new(alloc);
    for i in 1..count {
        numbers.push(i as u128)?;
    }
    numbers.push(last.unwrap_or(count as u128))?;
    Ok(numbers)
}

/// Writes and reads a park of so many numbers of size k, and gives its length in bytes.
fn round_trip(
    rt: &(impl Abort + Alloc<A = Global>),
    k: u32,
    count: usize,
    last: Option<u128>,
) -> Result<usize, Fail>
    requires k_low { 10 ≤ k }
    requires k_high { k ≤ 50 }
{
    let numbers = numbers_to(rt.alloc(), count, last)?;
    assert!(rt; are_numbers(k, &numbers));
    let park = encode_park(rt.alloc(), k, &numbers)?;
    let mut out = [0; MOST_NUMBERS];
    assert_eq!(rt;
        decode_park(k, numbers.len() as u32, &park, &mut out),
        Ok(())
    );
    assert!(rt; out[..numbers.len()] == numbers[..]);
    Ok(park.len())
}

/// Parks of one size with steps of 1 alone, and with one huge step at the end.
fn round_trips(rt: &(impl Abort + Alloc<A = Global>), k: u32) -> Result<(), Fail>
    requires k_low { 10 ≤ k }
    requires k_high { k ≤ 50 }
{
    for count in [1, 2, 2048, 4095, 4096] {
        let bits = 2 * k as usize + 9 + (count - 1);
        assert_eq!(rt; round_trip(rt, k, count, None)?, bits.div_ceil(8));
        round_trip(rt, k, count, Some((1 << (2 * k + 2)) - 1))?;
    }
    Ok(())
}

#[test]
fn numbers_come_back_from_parks_of_size_10(rt: HostRuntime) -> Result<(), Fail> {
    round_trips(&rt, 10)
}

#[test]
fn numbers_come_back_from_parks_of_size_32(rt: HostRuntime) -> Result<(), Fail> {
    round_trips(&rt, 32)
}

#[test]
fn numbers_come_back_from_parks_of_size_50(rt: HostRuntime) -> Result<(), Fail> {
    round_trips(&rt, 50)
}

/// The next so many bits as a number.
fn next_number(bits: &mut Iter<'_, u8>, width: u32) -> Option<u128> {
    let mut number = 0u128;
    for _ in 0..width {
        number = (number << 1) | u128::from(*bits.next()?);
    }
    Some(number)
}

/// How many 1 bits stand before the next 0 bit.
fn next_run(bits: &mut Iter<'_, u8>) -> Option<u128> {
    for run in 0..64 {
        if *bits.next()? == 0 {
            return Some(run);
        }
    }
    None
}

/// Three numbers of a park of size 10, read bit by bit.
fn plain_numbers(bits: &[u8]) -> Option<[u128; 3]> {
    let mut bits = bits.iter();
    let mut numbers = [next_number(&mut bits, 22)?, 0, 0];
    let low = u32::try_from(next_number(&mut bits, 7)?).ok()?;
    let power = 2u128.checked_pow(low)?;
    for i in 1..3 {
        let high = next_run(&mut bits)?.checked_mul(power)?;
        let step = high.checked_add(next_number(&mut bits, low)?)?;
        numbers[i] = numbers[i - 1].checked_add(step)?.checked_add(1)?;
    }
    let mean = numbers[2].checked_sub(numbers[0])? / 2;
    let is_low = power <= mean && mean / 2 < power;
    let is_filled = bits.len() < 8 && bits.all(|bit| *bit == 0);
    if is_low && is_filled && numbers[2] < 1 << 22 {
        Some(numbers)
    } else {
        None
    }
}

#[test]
fn each_turned_bit_is_read_as_by_a_plain_decoder(rt: HostRuntime) -> Result<(), Fail> {
    let park = [0x00, 0x01, 0x90, 0x09, 0x40];
    for turned in 0..40 {
        let mut bytes = park;
        bytes[turned / 8] ^= 128 >> (turned % 8);
        let mut bits = Vec::new(rt.alloc());
        for i in 0..40 {
            bits.push((bytes[i / 8] >> (7 - i % 8)) & 1)?;
        }
        let mut out = [0; 3];
        let read = decode_park(10, 3, &bytes, &mut out).ok().map(|()| out);
        assert_eq!(rt; read, plain_numbers(&bits), "bit {turned}");
    }
    Ok(())
}
