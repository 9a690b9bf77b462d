//! The count of low bits that the park of some numbers has.

ghost use Rattle.pos_rice.specs.Park.{IsLow};
ghost use Rattle.std.specs.List.Sorted.{IsStrictlyIncreasing};
ghost use Rattle.std.specs.Prelude.{◌<◌, ◌≤◌, length};

/// How many low bits of each difference the park of these numbers writes as they stand.
pub(crate) fn low_width(numbers: &[u128]) -> u32
    requires some { 1 ≤ length numbers.now }
    requires rising { IsStrictlyIncreasing numbers.now }
    ensures low { IsLow numbers.now result }
    ensures below { result < 128 }
{
    let further = numbers.len() - 1;
    if further == 0 {
        return 0;
    }
    ((numbers[further] - numbers[0]) / further as u128).ilog2()
}
