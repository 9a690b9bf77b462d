//! From a park to its numbers.

ghost use Rattle.pos_bits.specs.Bits.{bits};
ghost use Rattle.pos_rice.specs.Park.{Park, steps_bits};
ghost use Rattle.pos_rice.specs.Reading.{numbers_in};
ghost use Rattle.pos_rice.specs.Steps.{NoHead, NoSteps, RiseFrom};
ghost use Rattle.pos_rice.specs.declared.TheConstants.{MOST_NUMBERS};
ghost use Rattle.std.specs.Prelude.{◌≡◌, ◌↔◌, ℕ, List, false, ◌++◌, ◌+◌, ◌*◌, ◌^◌, ◌<◌, ◌≤◌, drop, length, replicate, take, IfNone, IfSome, IsTrue, OnErr, OnOk, OnSome};

use crate::low::low_width;
use crate::{MOST_BYTES, ParkForm};
use pos_bits::BitReader;

// The bits of a byte: a park ends in fewer of them that are only filling.
const BYTE_BITS: u64 = 8;

/// Writes the numbers of a park of `count` numbers to the first places of `out`; the other places stay.
///
/// It answers `ParkForm` exactly where no list of so many numbers has these bytes as its park, and then `out` may hold
/// anything. It takes no memory.
pub fn decode_park(k: u32, count: u32, bytes: &[u8], out: &mut [u128]) -> Result<(), ParkForm>
    requires k_low { 10 ≤ k }
    requires k_high { k ≤ 50 }
    requires some { 1 ≤ count }
    requires few { count ≤ MOST_NUMBERS }
    requires room { count ≤ length out.old }
    ensures ok { OnOk result (Park k (take count out.new) bytes.now) }
    ensures numbers { OnOk result (numbers_in k count bytes.now ≡ Some (take count out.new)) }
    ensures rest { OnOk result (drop count out.new ≡ drop count out.old) }
    ensures no_park { OnErr result ((ns : List ℕ) → length ns ≡ count → ¬ Park k ns bytes.now) }
    ensures no_numbers { OnErr result (numbers_in k count bytes.now ≡ None) }
{
    let count = count as usize;
    if bytes.len() > MOST_BYTES {
        return Err(ParkForm);
    }
    let mut reader = BitReader::new(bytes);
    let Some((first, low)) = take_head(&mut reader, k) else {
        return Err(ParkForm);
    };
    out[0] = first;
    let limit = (1 << (2 * k + 2)) - 1;
    let Some(()) = take_steps(&mut reader, low, first, limit, &mut out[1..count]) else {
        return Err(ParkForm);
    };
    if low != low_width(&out[..count]) {
        return Err(ParkForm);
    }
    if is_fill(&mut reader) {
        Ok(())
    } else {
        Err(ParkForm)
    }
}

/// Takes the first number and the count of low bits, if the count is one that a park can have.
fn take_head(reader: &mut BitReader, k: u32) -> Option<(u128, u32)>
    requires { k ≤ 62 }
    ensures some { IfSome result (λ head. reader.old ≡ bits head.0 (2 * k + 2) ++ (bits head.1 7 ++ reader.new)) }
    ensures first { IfSome result (λ head. head.0 < 2 ^ (2 * k + 2)) }
    ensures low { IfSome result (λ head. head.1 < 2 * k + 2) }
    ensures none { IfNone result (NoHead k reader.old) }
{
    let first = reader.take(2 * k + 2)?;
    let low = reader.take(7)? as u32;
    if low < 2 * k + 2 {
        Some((first, low))
    } else {
        None
    }
}

/// Takes the codes of as many numbers as `out` has places, which rise from `first` and stay at most the limit, and
/// writes the numbers there.
fn take_steps(
    reader: &mut BitReader,
    low: u32,
    first: u128,
    limit: u128,
    out: &mut [u128],
) -> Option<()>
    requires low { low ≤ 112 }
    requires first { first ≤ limit }
    requires limit { limit < 2 ^ 112 }
    requires few { length out.old ≤ MOST_NUMBERS }
    ensures some { OnSome result (reader.old ≡ steps_bits low first out.new ++ reader.new) }
    ensures rise { OnSome result (RiseFrom limit first out.new) }
    ensures none { IfNone result (NoSteps low limit first (length out.old) reader.old) }
{
    let mut last = first;
    for place in out.iter_mut() {
        last += reader.take_code(low, limit)? + 1;
        *place = last;
    }
    // they rise, so none of them is above the limit where the last one is not
    if last <= limit { Some(()) } else { None }
}

/// Whether what is left is fewer than eight bits, all 0.
fn is_fill(reader: &mut BitReader) -> bool
    ensures { IsTrue result ↔ ((n : ℕ) × (n < 8) × (reader.old ≡ replicate n false)) }
{
    let left = reader.left();
    if left >= BYTE_BITS {
        return false;
    }
    match reader.take(left as u32) {
        Some(value) => value == 0,
        None => false,
    }
}
