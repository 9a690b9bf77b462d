//! The challenges of a check and the id of a survey's plot, by a number.
ghost use Rattle.std.specs.Prelude.{◌≡◌};
ghost use Rattle.pos_check.specs.Challenges.{check_challenge, survey_id};

use pos_tuple::{Challenge, Id};
use sha2::{Digest, Sha256};

/// The most challenges of one check.
pub const MOST_CHALLENGES: u32 = 1_000_000;

/// The first bytes that are hashed for the id of a survey's plot.
const SURVEY_NAME: &[u8; 12] = b"survey-plot-";

/// Challenge number i, from 0, that a check asks the plot of this id for: SHA-256 of i as four bytes, the first on top, and of
/// the id.
pub fn check_challenge(id: &Id, i: u32) -> Challenge
    ensures { result.0 ≡ check_challenge id.now.0 i }
{
    let mut hasher = Sha256::new();
    hasher.update(&i.to_be_bytes()[..]);
    hasher.update(&id.0[..]);
    Challenge(hasher.finalize())
}

/// The id of the plot that a survey makes of this number: SHA-256 of the bytes of `survey-plot-` and of the number as eight
/// bytes, the first on top.
pub fn survey_id(number: u64) -> Id
    ensures { result.0 ≡ survey_id number }
{
    let mut hasher = Sha256::new();
    hasher.update(&SURVEY_NAME[..]);
    hasher.update(&number.to_be_bytes()[..]);
    Id(hasher.finalize())
}
