//! The verifier as a library for C: what `include/hillcrepe.h` declares. No call takes memory, keeps anything between two
//! calls or calls anything outside, and any of them may run in several threads at once.
//!
//! A slice crosses as a pointer and a length. A `requires` would be checked by nobody, so no call here has one: what
//! doesn't fit is answered.
#![tactic(auto)]

mod answer;
mod calls;
mod request;

pub use answer::Answer;
pub use calls::{
    at_most_one_answer_is_right, pos_explain_proof, pos_verify_proof, pos_verify_proofs,
    pos_version,
};
pub use request::Request;

#[cfg(test)]
mod tests;
