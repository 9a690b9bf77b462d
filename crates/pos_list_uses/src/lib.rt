//! Two uses of lists on pages, proved over the public contracts of `pos_runs` alone: pairs copied from one list to
//! another, and eight lists of which one is read and one is pushed on. They show what a caller pays for its lists: one
//! line of proof for each.
//!
//! The tests try each kind of record at four sizes, lists of any number of pages and each failing call of a list's life, and
//! marked places at both ends of a page and on three pages.
//! Source: this project's own.
#![tactic(auto)]

mod copy;
mod eight;

pub use copy::copy_pairs;
pub use eight::EightLists;

#[cfg(test)]
mod client;
#[cfg(test)]
mod list_tests;
#[cfg(test)]
mod many_mark_tests;
#[cfg(test)]
mod mark_tests;
#[cfg(test)]
mod tests;
