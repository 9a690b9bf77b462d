// What is answered, and the judge that all calls share.
ghost use Rattle.std.specs.Prelude.{◌≡◌, ◌↔◌, ℕ, IfSome, IsSome};
ghost use Rattle.pos_verify.specs.Verdict.{IsRight};
ghost use Rattle.pos_c.specs.Answers.{AreArguments, Tells, answer_number, telling, telling_none};

use pos_tuple::{Challenge, Id, Size};
use pos_verify::{Verdict, verify};

/// A proof for the challenge.
pub const ACCEPTED: u32 = 0;

/// The proof has other than 8k bytes.
pub const WRONG_LENGTH: u32 = 1;

/// A pair of the proof does not match.
pub const NO_MATCH: u32 = 2;

/// The proof answers other challenges.
pub const WRONG_CHALLENGE: u32 = 3;

/// No plot has these arguments, or the room for the answer has another length.
pub const WRONG_ARGUMENTS: u32 = 4;

/// An answer with its reason. What doesn't belong to the verdict is 0, and the quality is written only where the verdict is
/// that of a proof.
#[repr(C)]
#[derive(Clone, Copy, Debug, PartialEq, Eq)]
pub struct Answer {
    /// Where the length is wrong the length in bytes that was wanted, where the challenge is the number it begins with.
    pub want: u64,
    /// What was found in its place.
    pub found: u64,
    /// Which of the five answers it is.
    pub verdict: u32,
    /// Where a pair does not match its level, from 1 to 6.
    pub level: u32,
    /// Its place in the level, from 0.
    pub pair: u32,
    /// The quality of a proof.
    pub quality: [u8; 32],
}

// The verdict on the bytes of a proof, or None where no plot has the arguments.
pub fn judged(id: &[u8], size: u32, challenge: &[u8], proof: &[u8]) -> Option<Verdict>
    ensures found { IsSome result ↔ AreArguments id.now size challenge.now }
    ensures right { IfSome result (λ verdict. IsRight id.now size challenge.now proof.now verdict) }
{
    let Ok(id) = <[u8; 32]>::try_from(id) else {
        return None;
    };
    let Ok(challenge) = <[u8; 32]>::try_from(challenge) else {
        return None;
    };
    let Some(size) = Size::new(u64::from(size)) else {
        return None;
    };
    Some(verify(&Id(id), size, &Challenge(challenge), proof))
}

// The answer for the bytes of a proof, over the one that stood there.
pub fn explained(id: &[u8], size: u32, challenge: &[u8], proof: &[u8], old: &Answer) -> Answer
    ensures { Tells (AreArguments id.now size challenge.now) id.now size challenge.now proof.now old.now result }
{
    match judged(id, size, challenge, proof) {
        Some(verdict) => told(&verdict, old),
        None => told_none(old),
    }
}

// The number of a verdict.
pub fn number_of(verdict: &Verdict) -> u32
    ensures { result ≡ answer_number verdict.now }
{
    match verdict {
        Verdict::Accepted(_) => ACCEPTED,
        Verdict::WrongLength { .. } => WRONG_LENGTH,
        Verdict::NoMatch { .. } => NO_MATCH,
        Verdict::WrongChallenge { .. } => WRONG_CHALLENGE,
    }
}

// The answer that tells a verdict, over the one that stood there.
pub fn told(verdict: &Verdict, old: &Answer) -> Answer
    ensures { result ≡ telling verdict.now old.now }
{
    let none = told_none(old);
    let verdict_number = number_of(verdict);
    match *verdict {
        Verdict::Accepted(quality) => Answer {
            verdict: verdict_number,
            quality,
            ..none
        },
        Verdict::NoMatch { level, pair } => Answer {
            verdict: verdict_number,
            level: u32::from(level),
            pair: u32::from(pair),
            ..none
        },
        Verdict::WrongLength { want, found } | Verdict::WrongChallenge { want, found } => Answer {
            verdict: verdict_number,
            want,
            found,
            ..none
        },
    }
}

// The answer where nothing was judged.
pub fn told_none(old: &Answer) -> Answer
    ensures { result ≡ telling_none old.now }
{
    Answer {
        want: 0,
        found: 0,
        verdict: WRONG_ARGUMENTS,
        level: 0,
        pair: 0,
        quality: old.quality,
    }
}
