//! What holds of parks, whatever the code: each law is what a function with an empty body ensures.

ghost use Rattle.pos_rice.specs.Park.{Park};
ghost use Rattle.pos_rice.specs.Reading.{numbers_in};
ghost use Rattle.std.specs.Prelude.{◌≡◌, ◌↔◌, ℕ, List, ◌+◌, ◌*◌, ◌<◌, ◌≤◌, length};

use crate::MOST_NUMBERS;

/// Numbers have at most one park.
pub fn numbers_have_one_park()
    ensures { (k : ℕ) (ns s t : List ℕ) → Park k ns s → Park k ns t → s ≡ t }
{}

/// Bytes are the park of at most one list of so many numbers.
///
/// They can be the parks of two lists of different lengths.
pub fn a_park_has_one_list()
    ensures { (k : ℕ) (ms ns s : List ℕ) → k < 64 → length ms ≡ length ns → Park k ms s → Park k ns s → ms ≡ ns }
{}

/// A park is short: its length in bits is bounded by the count of its numbers.
pub fn parks_are_short()
    ensures by_count { (k : ℕ) (ns s : List ℕ) → Park k ns s → 8 * length s ≤ (2 * k + 4) * length ns + 12 }
    ensures to_size_32 { (k : ℕ) (ns s : List ℕ) → k ≤ 32 → Park k ns s → length s ≤ 9 * MOST_NUMBERS }
    ensures to_size_50 { (k : ℕ) (ns s : List ℕ) → k ≤ 50 → Park k ns s → length s ≤ 14 * MOST_NUMBERS }
{}

/// The function that reads a park gives the one list of so many numbers whose park the bytes are, and nothing else.
pub fn numbers_in_a_park_are_its_list()
    ensures { (k n : ℕ) (s ns : List ℕ) → k < 64 →
        (numbers_in k n s ≡ Some ns) ↔ (Park k ns s × (length ns ≡ n)) }
{}
