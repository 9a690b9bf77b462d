// Eight bytes of a slice as one number, the unit in which bits are read.
ghost use Rattle.std.specs.Prelude.{◌≡◌, ◌++◌, ◌^◌, ◌<◌, ◌≤◌, ◌%◌, false, drop, length, replicate, take};
ghost use Rattle.pos_bits.specs.Bits.{bits, bits_of};

/// The 64 bits that begin at byte `at`, as a number. There are 0 bits past the end of the bytes.
#[inline(always)]
pub fn bits_at_byte(bytes: &[u8], at: usize) -> u64
    requires { at ≤ length bytes.now }
    ensures { bits result 64 ≡ take 64 (bits_of (drop at bytes.now) ++ replicate 64 false) }
{
    if bytes.len() - at >= 8 {
        let eight = &bytes[at..at + 8];
        u64::from_be_bytes([
            eight[0], eight[1], eight[2], eight[3], eight[4], eight[5], eight[6], eight[7],
        ])
    } else {
        bits_at_end(bytes, at)
    }
}

/// As `bits_at_byte`, where fewer than eight bytes may be left.
fn bits_at_end(bytes: &[u8], at: usize) -> u64
    requires { at ≤ length bytes.now }
    ensures { bits result 64 ≡ take 64 (bits_of (drop at bytes.now) ++ replicate 64 false) }
{
    let mut window = 0u64;
    for i in 0..8 {
        let byte = if i < bytes.len() - at {
            bytes[at + i]
        } else {
            0
        };
        window = window * 256 + byte as u64;
    }
    window
}

/// The number that the low bits write.
#[inline(always)]
pub fn low_bits(value: u64, width: u32) -> u64
    requires { width < 64 }
    ensures { result ≡ value % 2 ^ width }
{
    value & ((1 << width) - 1)
}
