//! The theorem on plain lists: from the tables of a plotting run to the list of the proofs for a challenge.
//!
//! Each law is the contract of a function that takes nothing and does nothing: a function that calls it may
//! use the law in its own proof. The statements stand in `specs/`, one file for each module here, beside the definitions
//! that they are about.
#![tactic(auto)]

pub mod listings;
pub mod nodes;
pub mod orders;
pub mod passes;
pub mod plots;
pub mod pruning;
pub mod renumbering;
pub mod tables;
#[cfg(test)]
mod tests;
pub mod there;
pub mod walks;
