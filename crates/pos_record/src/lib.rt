//! Records of a plotting run, packed to bits: what kinds there are, how wide each is at a size K, and how records stand
//! one after another in a slice of bytes.
//!
//! A kind promises that what is put is taken again, and that what is taken fits its size.
//! Source: this project's own. A y has K + 6 bits, a value K, a place of a table K + 1, a number 2K + 2.
#![tactic(auto)]

mod fields;
mod kinds;
pub mod laws;
mod packed;
mod record;

pub use kinds::{First, Last, Middle, Number, Pair, Row, Value};
pub use packed::Packed;
pub use record::Record;

#[cfg(test)]
mod tests;
