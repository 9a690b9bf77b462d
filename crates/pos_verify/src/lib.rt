//! The verifier: the verdict on the bytes of a proof, with the first test that failed.
#![tactic(auto)]

ghost use Rattle.std.specs.Prelude.{◌≡◌, ◌↔◌, ◌≤◌, ◌<◌, ◌+◌, ◌-◌, ◌*◌, ◌^◌, ℕ, Some, ◌⊎◌, IfOk, IfErr, IfSome, OnOk, slice_get, length, All, IsTrue};
ghost use Rattle.pos_tuple.specs.Node.{node};
ghost use Rattle.pos_tuple.specs.declared.entry.Entry.{Entry};
ghost use Rattle.pos_verify.specs.Verdict.{IsRight, OneVerdict, IsProofBytes, IsAcceptance, FailsFirst};
ghost use Rattle.pos_verify.specs.Levels.{FitsTable, AllFit, AreGroupNodes, AreJoined, StopsAt, joined_at};

use pos_order::{proof_values, quality};
use pos_tuple::{Challenge, Entry, Id, Size, challenge_value, first, fx, matches};

/// What the verifier finds. The first failing test decides: the length in bytes, then the levels from 1 to 6 and in each
/// the pairs from left to right, then the challenge.
#[derive(Clone, Copy, Debug, PartialEq, Eq)]
pub enum Verdict {
    /// A proof, with its quality.
    Accepted([u8; 32]),
    /// The proof has another length than 8k, in bytes.
    WrongLength { want: u64, found: u64 },
    /// This pair of this level, counted from 0, does not match.
    NoMatch { level: u8, pair: u8 },
    /// The proof answers challenges with another value of k bits.
    WrongChallenge { want: u64, found: u64 },
}

impl Verdict {
    /// Whether the proof is accepted.
    pub fn is_accepted(&self) -> bool
        ensures { IsTrue result ↔ IsAcceptance self.now }
    {
        matches!(self, Verdict::Accepted(_))
    }
}

/// Judges the bytes of a proof for a challenge over the plot of this id and size. Takes no memory.
///
/// Source of the rule: the Construction document, "proof verification"; chiapos, `Verifier::ValidateProof`.
pub fn verify(id: &Id, size: Size, challenge: &Challenge, proof: &[u8]) -> Verdict
    ensures right { IsRight id.now.0 size challenge.now.0 proof.now result }
    ensures accepts { IsAcceptance result ↔ IsProofBytes id.now.0 size challenge.now.0 proof.now }
{
    let want = 8 * u64::from(size.k());
    let found = proof.len() as u64;
    if found != want {
        return Verdict::WrongLength { want, found };
    }
    let values = proof_values(size, proof);
    match root_of(id, size, &values) {
        Err(Failing { level, pair }) => Verdict::NoMatch { level, pair },
        Ok(root) => {
            let want = challenge_value(size, challenge);
            let found = root.y >> 6;
            if found != want {
                return Verdict::WrongChallenge { want, found };
            }
            Verdict::Accepted(quality(challenge, size, &values))
        }
    }
}

/// At most one verdict on given bytes is right. It is a law, and does nothing.
pub fn at_most_one_verdict_is_right()
    ensures { OneVerdict }
{}

// The first pair that does not match.
struct Failing {
    level: u8,
    pair: u8,
}

// The entry of table 7 of 64 values, joined level by level.
fn root_of(id: &Id, size: Size, values: &[u64; 64]) -> Result<Entry, Failing>
    requires { All (λ x. x < 2 ^ size) values.now }
    ensures ok { IfOk result (λ root. node id.now.0 size 6 values.now ≡ Some root) }
    ensures err { IfErr result (λ failing. FailsFirst id.now.0 size values.now failing.level failing.pair) }
{
    let mut entries = leaves(id, size, values);
    for level in 1..7u8 {
        if let Err(pair) = join_pairs(size, level, &mut entries) {
            return Err(Failing { level, pair });
        }
    }
    Ok(entries[0])
}

// The entries of table 1 of 64 values.
fn leaves(id: &Id, size: Size, values: &[u64; 64]) -> [Entry; 64]
    requires { All (λ x. x < 2 ^ size) values.now }
    ensures nodes { AreGroupNodes id.now.0 size 0 values.now 64 result }
    ensures fit { AllFit size 1 64 result }
    ensures len { length result ≡ 64 }
{
    let mut entries = [first(id, size, values[0]); 64];
    for i in 0..64 {
        entries[i] = first(id, size, values[i]);
    }
    entries
}

// Replaces the entries in front, two for each group of this level, by the one of each group, or answers the first pair
// that does not match.
fn join_pairs(size: Size, level: u8, entries: &mut [Entry; 64]) -> Result<(), u8>
    requires first_level { 1 ≤ level }
    requires last_level { level ≤ 6 }
    requires fit { AllFit size level (2 * 2 ^ (6 - level)) entries.old }
    ensures ok { OnOk result (AreJoined size (level + 1) (2 ^ (6 - level)) entries.old entries.new) }
    ensures err { IfErr result (λ pair. StopsAt size (level + 1) entries.old (2 ^ (6 - level)) pair) }
    ensures len { length entries.new ≡ 64 }
{
    for pair in 0..1u8 << (6 - level) {
        let Some(joined) = join(size, level, &entries[..], pair as usize) else {
            return Err(pair);
        };
        entries[pair as usize] = joined;
    }
    Ok(())
}

// The entry that the two of a group join to, if they match.
fn join(size: Size, level: u8, entries: &[Entry], pair: usize) -> Option<Entry>
    requires first_level { 1 ≤ level }
    requires last_level { level ≤ 6 }
    requires inside { 2 * pair + 1 < length entries.now }
    requires fit { (e : Entry) → (slice_get entries.now (2 * pair) ≡ Some e) ⊎ (slice_get entries.now (2 * pair + 1) ≡ Some e) → FitsTable size level e }
    ensures joined { result ≡ joined_at size (level + 1) entries.now pair }
    ensures fits { IfSome result (FitsTable size (level + 1)) }
{
    let left = &entries[2 * pair];
    let right = &entries[2 * pair + 1];
    if !matches(left.y, right.y) {
        return None;
    }
    Some(fx(size, level + 1, left, right))
}

#[cfg(test)]
mod tests;
