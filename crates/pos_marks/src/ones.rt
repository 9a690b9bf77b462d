//! Counts of the bits that are set, by words of eight bytes.
ghost use Rattle.std.specs.Prelude.{◌≡◌, ◌+◌, ◌*◌, ◌^◌, ◌%◌, ◌<◌, ◌≤◌, ℕ, length};
ghost use Rattle.pos_lists.specs.Rank.{rank};
ghost use Rattle.pos_marks.specs.Bits.{has_bit, is_set};

/// How many bits of these bytes are set. They are whole words.
pub(crate) fn ones_in(bytes: &[u8]) -> u64
    requires few { length bytes.now < 2 ^ 60 }
    requires words { length bytes.now % 8 ≡ 0 }
    ensures { result ≡ rank (has_bit bytes.now) (8 * length bytes.now) }
{
    let mut ones = 0u64;
    for i in 0..bytes.len() / 8 {
        ones += u64::from(word_at(bytes, i).count_ones());
    }
    ones
}

/// How many of the first `bits` bits of these bytes are set. The bytes are whole words.
pub(crate) fn ones_before(bytes: &[u8], bits: u64) -> u64
    requires few { length bytes.now < 2 ^ 60 }
    requires words { length bytes.now % 8 ≡ 0 }
    requires inside { bits < 8 * length bytes.now }
    ensures { result ≡ rank (has_bit bytes.now) bits }
{
    let whole = (bits / 64) as usize;
    ones_in(&bytes[..whole * 8]) + low_ones(word_at(bytes, whole), (bits % 64) as u32)
}

/// The word of eight bytes with this number, the first of them lowest.
#[inline(always)]
fn word_at(bytes: &[u8], i: usize) -> u64
    requires { 8 * i + 8 ≤ length bytes.now }
    ensures { (j : ℕ) → j < 64 → is_set result j ≡ has_bit bytes.now (64 * i + j) }
{
    let eight = &bytes[i * 8..i * 8 + 8];
    u64::from_le_bytes([
        eight[0], eight[1], eight[2], eight[3], eight[4], eight[5], eight[6], eight[7],
    ])
}

/// How many of the lowest `bits` bits of a word are set.
fn low_ones(word: u64, bits: u32) -> u64
    requires { bits < 64 }
    ensures { result ≡ rank (is_set word) bits }
{
    u64::from((word & ((1 << bits) - 1)).count_ones())
}
