//! Bits of bytes.
ghost use Rattle.std.specs.Prelude.{◌≡◌, ◌*◌, ◌<◌, ◌==◌, ◌||◌, ℕ, length};
ghost use Rattle.pos_marks.specs.Bits.{has_bit};

/// Sets bit i of these bytes.
#[inline(always)]
pub(crate) fn set_bit(bytes: &mut [u8], i: u64)
    requires { i < 8 * length bytes.old }
    ensures { (j : ℕ) → has_bit bytes.new j ≡ ((j == i) || has_bit bytes.old j) }
{
    bytes[(i / 8) as usize] |= 1 << (i % 8);
}
