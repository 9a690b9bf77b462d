// The calls.
ghost use Rattle.std.specs.Prelude.{◌≡◌, ◌≢◌, ◌↔◌, ◌*◌, length};
ghost use Rattle.pos_verify.specs.Verdict.{IsProofBytes, IsRight};
ghost use Rattle.pos_verify.specs.declared.Verdict.TheVariants.{Accepted};
ghost use Rattle.pos_c.specs.Answers.{AreArguments, FitsCall, AnswersOthers, HasBadPair, IsAnswer, OneAnswer, Tells, accepted_answer, length_answer, match_answer, challenge_answer, arguments_answer};
ghost use Rattle.pos_c.specs.Requests.{OneRequestAnswer, TellsEach};

use crate::answer::{ACCEPTED, Answer, WRONG_ARGUMENTS, explained, judged, number_of};
use crate::request::{Request, answered};
use pos_verify::Verdict;

/// The version of these calls: a later one that a caller of this one cannot use has another number.
#[unsafe(no_mangle)]
pub extern "C" fn pos_version() -> u32
    ensures { result ≡ 1 }
{
    1
}

/// Judges the bytes of a proof for a challenge over the plot of this id and size, and writes its quality where it is one:
/// 0 of a proof, 1 of other than 8k bytes, 2 where a pair does not match, 3 where it answers other challenges, and 4 where
/// the id, the challenge or the room has other than 32 bytes or no plot has this size. The first reason decides, with wrong
/// arguments before all.
#[unsafe(no_mangle)]
pub extern "C" fn pos_verify_proof(
    id: &[u8],
    size: u32,
    challenge: &[u8],
    proof: &[u8],
    quality: &mut [u8],
) -> u32
    ensures accepted { (result ≡ accepted_answer) ↔ (FitsCall id.now size challenge.now quality.old × IsProofBytes id.now size challenge.now proof.now) }
    ensures wrong_length { (result ≡ length_answer) ↔ (FitsCall id.now size challenge.now quality.old × (length proof.now ≢ 8 * size)) }
    ensures no_match { (result ≡ match_answer) ↔ (FitsCall id.now size challenge.now quality.old × HasBadPair id.now size proof.now) }
    ensures wrong_challenge { (result ≡ challenge_answer) ↔ (FitsCall id.now size challenge.now quality.old × AnswersOthers id.now size challenge.now proof.now) }
    ensures wrong_arguments { (result ≡ arguments_answer) ↔ (FitsCall id.now size challenge.now quality.old → ⊥) }
    ensures quality { result ≡ accepted_answer → IsRight id.now size challenge.now proof.now (Accepted quality.new) }
    ensures untouched { result ≢ accepted_answer → quality.new ≡ quality.old }
{
    if quality.len() != 32 {
        return WRONG_ARGUMENTS;
    }
    let Some(verdict) = judged(id, size, challenge, proof) else {
        return WRONG_ARGUMENTS;
    };
    if let Verdict::Accepted(found) = &verdict {
        quality.copy_from_slice(found);
    }
    number_of(&verdict)
}

/// As `pos_verify_proof`, and tells the reason of a refusal.
#[unsafe(no_mangle)]
pub extern "C" fn pos_explain_proof(
    id: &[u8],
    size: u32,
    challenge: &[u8],
    proof: &[u8],
    answer: &mut Answer,
) -> u32
    ensures answer { IsAnswer (AreArguments id.now size challenge.now) id.now size challenge.now proof.now result }
    ensures tells { Tells (AreArguments id.now size challenge.now) id.now size challenge.now proof.now answer.old answer.new }
    ensures same { answer.new.verdict ≡ result }
{
    *answer = explained(id, size, challenge, proof, answer);
    answer.verdict
}

/// Judges a proof for each request, and writes its answer in the place of the request: 0 where it did, 4 where there are
/// more or fewer answers than requests, and then nothing is written. A request whose proof lies outside the bytes of all
/// proofs has the answer of wrong arguments.
#[unsafe(no_mangle)]
pub extern "C" fn pos_verify_proofs(
    requests: &[Request],
    proofs: &[u8],
    answers: &mut [Answer],
) -> u32
    ensures done { (result ≡ 0) ↔ (length requests.now ≡ length answers.old) }
    ensures wrong_arguments { (result ≡ 4) ↔ (length requests.now ≢ length answers.old) }
    ensures each { result ≡ 0 → TellsEach requests.now proofs.now answers.old answers.new }
    ensures untouched { result ≢ 0 → answers.new ≡ answers.old }
{
    if requests.len() != answers.len() {
        return WRONG_ARGUMENTS;
    }
    for i in 0..requests.len() {
        answers[i] = answered(&requests[i], proofs, &answers[i]);
    }
    ACCEPTED
}

/// At most one answer tells the right verdict. It is a law, and does nothing.
pub fn at_most_one_answer_is_right()
    ensures alone { OneAnswer }
    ensures requested { OneRequestAnswer }
{}
