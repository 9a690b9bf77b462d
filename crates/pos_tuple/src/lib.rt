//! Entries of the tables: f1, matching, f2 to f7, and the value that a challenge asks for.
//!
//! Source of the rules: the Proof of Space Construction document, version 1.1, and chiapos.
#![tactic(auto)]

mod block;
mod challenge;
mod entry;
mod in_order;
mod matching;
mod size;
mod stream;

pub use challenge::{Challenge, challenge_value};
pub use entry::{Entry, entry_of_hash, first, fx, message_of};
pub use in_order::{StreamWords, f1_in_order, stream_words};
pub use matching::matches;
pub use size::Size;
pub use stream::{Id, f1};

#[cfg(test)]
mod tests;
