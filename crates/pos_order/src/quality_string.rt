// The quality of a proof.
ghost use Rattle.std.specs.Prelude.{◌≡◌, ◌^◌, ◌<◌, All, length};
ghost use Rattle.pos_order.specs.Quality.{pair_quality, quality_of};

use crate::to_plot_order;
use pos_bits::BitString;
use pos_tuple::{Challenge, Size};
use sha2::{Digest, Sha256};

/// The quality of a proof of 64 values, given in any order of halves: SHA-256 of the challenge and of the pair of values
/// that the challenge chooses from the tuple in plot order.
///
/// Source of the rule: the Construction document, "quality string"; chiapos, `GetQualityString`.
pub fn quality(challenge: &Challenge, size: Size, values: &[u64; 64]) -> [u8; 32]
    requires { All (λ x. x < 2 ^ size) values.now }
    ensures value { result ≡ quality_of size challenge.now.0 values.now }
    ensures len { length result ≡ 32 }
{
    let mut ordered = *values;
    to_plot_order(&mut ordered);
    let pair = 2 * (challenge.0[31] % 32) as usize;
    pair_quality(challenge, size, ordered[pair], ordered[pair + 1])
}

/// SHA-256 of the challenge and of two values, written as a bit string of 2k bits.
pub fn pair_quality(challenge: &Challenge, size: Size, lesser: u64, greater: u64) -> [u8; 32]
    requires lesser_fits { lesser < 2 ^ size }
    requires greater_fits { greater < 2 ^ size }
    ensures value { result ≡ pair_quality size challenge.now.0 lesser greater }
    ensures len { length result ≡ 32 }
{
    let mut pair = BitString::empty();
    pair.push(lesser as u128, size.k());
    pair.push(greater as u128, size.k());
    let mut block = [0u8; 64];
    let count = pair.to_block(&mut block);
    let mut hasher = Sha256::new();
    hasher.update(&challenge.0[..]);
    hasher.update(&block[..count]);
    hasher.finalize()
}
