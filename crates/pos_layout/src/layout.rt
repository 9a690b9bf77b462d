//! The layouts of a plot file, and what each fixes of its parks.
ghost use Rattle.std.specs.Prelude.{◌≡◌, ◌-◌, ◌*◌, ◌^◌, ◌<◌, ◌≤◌, length};
ghost use Rattle.pos_layout.specs.Layouts.{name_of, full_of, digest_of, memo_of, zeros_of, entry_bytes, longest_park, park_count, parks_of};

use pos_tuple::Size;

/// The greatest length of a memo in bytes, in any layout.
pub const MOST_MEMO: usize = 256;

/// How a plot file is laid out. New files have the second layout; files of the first one are read.
#[derive(Clone, Copy, Debug, PartialEq, Eq)]
pub enum Layout {
    /// No memo, parks of 2,048 numbers, eight bytes of each park's SHA-256.
    One,
    /// A memo of up to 256 bytes, parks of 4,096 numbers, sixteen bytes of each park's SHA-256.
    Two,
}

impl Layout {
    /// Bytes 1 to 15 of a file of this layout.
    #[tactic(auto, unfolding(crate::specs::Layouts::name_of))]
    pub fn name(self) -> [u8; 15]
        ensures value { result ≡ name_of self }
        ensures len { length result ≡ 15 }
    {
        match self {
            Layout::One => *b"SPACEPLOT-OWN-1",
            Layout::Two => *b"SPACEPLOT-OWN-2",
        }
    }

    /// How many numbers a park has, but for the last one of a table.
    #[tactic(auto, unfolding(crate::specs::Layouts::full_of))]
    #[inline]
    pub fn full_park(self) -> usize
        ensures value { result ≡ full_of self }
        ensures some { 1 ≤ result }
        ensures few { result ≤ 4096 }
    {
        match self {
            Layout::One => 2048,
            Layout::Two => 4096,
        }
    }

    /// How many bytes of a park's SHA-256 its entry has.
    #[tactic(auto, unfolding(crate::specs::Layouts::digest_of))]
    pub fn digest_bytes(self) -> usize
        ensures value { result ≡ digest_of self }
        ensures some { 1 ≤ result }
        ensures few { result ≤ 16 }
    {
        match self {
            Layout::One => 8,
            Layout::Two => 16,
        }
    }

    /// The length of a directory entry in bytes.
    pub fn entry_bytes(self) -> usize
        ensures value { result ≡ entry_bytes self }
        ensures some { 1 ≤ result }
        ensures few { result ≤ 40 }
    {
        24 + self.digest_bytes()
    }

    /// How many bytes a memo has at most.
    #[tactic(auto, unfolding(crate::specs::Layouts::memo_of))]
    pub fn greatest_memo(self) -> usize
        ensures value { result ≡ memo_of self }
        ensures few { result ≤ MOST_MEMO }
    {
        match self {
            Layout::One => 0,
            Layout::Two => MOST_MEMO,
        }
    }

    /// Where the zeros begin that go up to byte 55.
    #[tactic(auto, unfolding(crate::specs::Layouts::zeros_of))]
    pub(crate) fn zeros_from(self) -> usize
        ensures value { result ≡ 56 - zeros_of self }
        ensures within { result ≤ 56 }
    {
        match self {
            Layout::One => 49,
            Layout::Two => 51,
        }
    }
}

/// The greatest length in bytes that a park may have in a file of this layout and size.
pub fn longest_park(layout: Layout, size: Size) -> u32
    ensures value { result ≡ longest_park layout size }
    ensures small { result ≤ 57344 }
{
    let full = layout.full_park() as u32;
    if size.k() <= 32 { 9 * full } else { 14 * full }
}

/// How many parks a table of so many numbers has.
pub fn parks_of(layout: Layout, count: u64) -> u64
    requires { count < 2 ^ 63 }
    ensures { result ≡ parks_of layout count }
{
    let full = layout.full_park() as u64;
    (count + (full - 1)) / full
}

/// How many numbers this park has, counted from 0, of a table of so many numbers.
pub fn park_count(layout: Layout, count: u64, park: u64) -> u32
    requires { full_of layout * park ≤ count }
    ensures { result ≡ park_count layout count park }
{
    let full = layout.full_park() as u64;
    let left = count - full * park;
    full.min(left) as u32
}
