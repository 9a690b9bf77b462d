// What a challenge asks for.
ghost use Rattle.std.specs.Prelude.{◌≡◌, ◌^◌, ◌<◌};
ghost use Rattle.pos_tuple.specs.Proof.{challenge_value};

use crate::Size;
use pos_bits::BitString;

/// A challenge.
#[derive(Clone, Copy, Debug, PartialEq, Eq)]
pub struct Challenge(pub [u8; 32]);

/// The number that the first k bits of the challenge write: the f7 of the proofs that answer it.
#[tactic(auto, unfolding(crate::specs::Proof::challenge_value))]
pub fn challenge_value(size: Size, challenge: &Challenge) -> u64
    ensures value { result ≡ challenge_value size challenge.now.0 }
    ensures below { result < 2 ^ size }
{
    BitString::from_bytes(&challenge.0).number(0, size.k()) as u64
}
