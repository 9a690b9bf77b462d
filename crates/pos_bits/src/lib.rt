//! Bit strings of fixed widths, writers and readers of bits, and the answer of a call that found no memory.
//!
//! A bit string is a list of bits, the first one the most significant. As bytes its first bit is the top bit of the first
//! byte, and the last byte is filled with 0 bits at its low end.
#![tactic(auto)]

mod laws;
mod places;
mod reader;
mod string;
mod window;
mod writer;

pub use laws::{bytes_are_of_one_string, bytes_are_the_one_spelling};
pub use places::{
    append_bits, append_number, append_wide_number, number_at, read_bits, wide_number_at,
    write_bits,
};
pub use reader::BitReader;
pub use string::BitString;
pub use writer::BitWriter;

/// What a call answers that needed more memory than there was.
#[derive(Clone, Copy, Debug, PartialEq, Eq)]
pub struct Memory;

#[cfg(test)]
mod tests;
