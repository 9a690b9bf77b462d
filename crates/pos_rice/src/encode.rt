//! From numbers to a park.

ghost use Rattle.pos_rice.specs.Park.{AreNumbers, Park, steps_bits};
ghost use Rattle.pos_rice.specs.Steps.{RiseFrom};
ghost use Rattle.pos_rice.specs.declared.TheConstants.{MOST_NUMBERS};
ghost use Rattle.std.specs.Prelude.{◌≡◌, ◌++◌, ◌+◌, ◌^◌, ◌<◌, ◌≤◌, IfOk, OnOk};

use crate::low::low_width;
use pos_bits::{BitWriter, Memory};
use std::alloc::Global;

/// The park of rising numbers, each below 2^(2k + 2).
///
/// The only error is want of memory.
pub fn encode_park(alloc: Global, k: u32, numbers: &[u128]) -> Result<Vec<u8>, Memory>
    requires k_low { 10 ≤ k }
    requires k_high { k ≤ 50 }
    requires numbers { AreNumbers k numbers.now }
    ensures { IfOk result (λ park. Park k numbers.now park.items) }
{
    let first = numbers[0];
    let low = low_width(numbers);
    let mut writer = BitWriter::with_room(alloc, room(low, numbers.len()))?;
    writer.put(first, 2 * k + 2)?;
    writer.put(u128::from(low), 7)?;
    put_steps(&mut writer, low, first, &numbers[1..])?;
    Ok(writer.finish())
}

/// So many bytes hold most parks of so many numbers with so many low bits: the 1 bits of a code are fewer than two on
/// average, and the first number and the count of low bits have at most 109 bits.
fn room(low: u32, count: usize) -> usize
    requires low { low < 128 }
    requires few { count ≤ MOST_NUMBERS }
{
    ((low as usize + 3) * count + 109) / 8 + 1
}

/// Appends the code of each number that comes after `first`.
fn put_steps(writer: &mut BitWriter, low: u32, first: u128, numbers: &[u128]) -> Result<(), Memory>
    requires low_in_range { low < 128 }
    requires near { RiseFrom (first + 2 ^ (63 + low)) first numbers.now }
    ensures { OnOk result (writer.new ≡ writer.old ++ steps_bits low first numbers.now) }
{
    let mut before = first;
    for number in numbers {
        let step = *number - before - 1;
        writer.put_code(step, low)?;
        before = *number;
    }
    Ok(())
}
