//! The park code: rising numbers as bytes, in one spelling only.
//!
//! A park of n numbers of size k is the bytes of this bit string: the first number in 2k + 2 bits, a count of low bits
//! in 7 bits, and for each further number the code of d, its difference from the number before it less 1: as many 1 bits
//! as d has above its low bits, a 0 bit, and the low bits. The count of low bits is one fewer than the binary digits of
//! the mean difference, or 0 where n is 1. The last byte is filled with 0 bits.
#![tactic(auto)]

mod decode;
mod encode;
mod laws;
mod low;

pub use decode::decode_park;
pub use encode::encode_park;
pub use laws::{
    a_park_has_one_list, numbers_have_one_park, numbers_in_a_park_are_its_list, parks_are_short,
};

/// The greatest number of numbers that one park holds.
pub const MOST_NUMBERS: usize = 4096;

/// The greatest length of a park in bytes.
pub const MOST_BYTES: usize = 14 * MOST_NUMBERS;

/// What `decode_park` answers where the bytes are no park of so many numbers.
#[derive(Clone, Copy, Debug, PartialEq, Eq)]
pub struct ParkForm;

#[cfg(test)]
mod tests;
