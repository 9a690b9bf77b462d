//! The texts of lists and of damages, as lines of words: the proofs of a challenge, its qualities, and what is wrong with a file.
//!
//! Each call answers a text made whole, whose bytes are those that `specs/Texts` says, or want of memory. The lines are this
//! project's own.
#![tactic(auto)]

mod damage_text;
mod list_text;

pub use damage_text::damage_line;
pub use list_text::{proofs_text, qualities_text};
