//! Eight entries of a table at a time, by eight hashes side by side.
//!
//! `fx8` answers what `fx` answers for each of eight pairs, and counts in a `Lanes` that it was called, so that a layer above
//! can promise that it took the fast way. Source of the rule: the Proof of Space Construction document, version 1.1, "f2 to f7".
#![tactic(auto)]

ghost use Rattle.std.specs.Prelude.{◌≡◌, ◌+◌, ◌-◌, ◌*◌, ◌^◌, ◌≤◌, ◌<◌, ℕ, [], All, Some, length, slice_get, slice_index_or};
ghost use Rattle.std.specs.Simd.Lanes.{zip2};
ghost use Rattle.pos_bits.specs.Bits.{bytes};
ghost use Rattle.pos_blake3.specs.Blake3.{blake3_block};
ghost use Rattle.pos_tuple.specs.Node.{IsEntry, collated, message, metadata_units, next_entry};
ghost use Rattle.pos_lanes.specs.Counts.{one_more};
ghost use Rattle.pos_lanes.specs.Places.{IsBlockAt, IsHashAt, IsMessageAt, message_bytes};

use pos_bits::{BitString, number_at};
use pos_blake3::hash8;
use pos_tuple::{Entry, Size};
use std::marker::Model;

#[cfg(test)]
mod tests;

// So many entries are made at once.
const EIGHT: usize = 8;

/// How many times eight entries were made at once. Contracts see the number, which stays at the greatest of 64 bits.
#[derive(Drop)]
pub struct Lanes {
    eights: u64,
}

impl Model for Lanes {
    ghost use Rattle.std.specs.Prelude.{ℕ};

    ghost Value = { ℕ };

    ghost view = { λ l. l.eights };
}

impl Lanes {
    /// No eight entries were made yet.
    pub fn new() -> Lanes
        ensures { result ≡ 0 }
    {
        Lanes { eights: 0 }
    }

    /// How many times eight entries were made.
    pub fn eights(&self) -> u64
        ensures { result ≡ self.now }
    {
        self.eights
    }

    // One time more.
    fn raise(&mut self)
        ensures { self.new ≡ one_more self.old }
    {
        self.eights = self.eights.saturating_add(1);
    }
}

/// The entries of table `t`, from 2 to 7, for eight left and eight right entries of the table before, as `fx` makes each.
/// It does not test that they match. Takes no memory.
pub fn fx8(
    size: Size,
    t: u8,
    left: &[Entry; 8],
    right: &[Entry; 8],
    lanes: &mut Lanes,
) -> [Entry; 8]
    requires first_table { 2 ≤ t }
    requires last_table { t ≤ 7 }
    requires left { All (IsEntry size (t - 1)) left.now }
    requires right { All (IsEntry size (t - 1)) right.now }
    ensures entries { result ≡ zip2 (next_entry size t) left.now right.now }
    ensures each { All (IsEntry size t) result }
    ensures lanes { lanes.new ≡ one_more lanes.old }
{
    let hashes = hashes_of(size, t, left, right);
    lanes.raise();
    let none = Entry {
        y: 0,
        meta: BitString::empty(),
    };
    let mut made = [none; EIGHT];
    for i in 0..EIGHT {
        make_entry(size, t, left, right, &hashes, i, &mut made[i]);
    }
    made
}

// The hashes of eight left and right entries of the table before table t.
//
// All messages are made before the first is written as bytes: what was stored by single words is slow to read by more at
// once before it has reached the memory.
#[inline(always)]
fn hashes_of(size: Size, t: u8, left: &[Entry; 8], right: &[Entry; 8]) -> [[u8; 32]; 8]
    requires first_table { 2 ≤ t }
    requires last_table { t ≤ 7 }
    requires left { All (IsEntry size (t - 1)) left.now }
    requires right { All (IsEntry size (t - 1)) right.now }
    ensures { (i : ℕ) → i < 8 → IsHashAt size left.now right.now i (slice_index_or result i []) }
{
    let mut messages = [BitString::empty(); EIGHT];
    put_messages(size, t, left, right, &mut messages);
    let mut blocks = [[0u8; 64]; EIGHT];
    put_blocks(size, t, left, right, &messages, &mut blocks);
    hash8(&blocks, message_length(size, t, left))
}

// Writes what is hashed of eight left and right entries into empty strings.
#[inline(always)]
fn put_messages(
    size: Size,
    t: u8,
    left: &[Entry; 8],
    right: &[Entry; 8],
    messages: &mut [BitString; 8],
)
    requires first_table { 2 ≤ t }
    requires last_table { t ≤ 7 }
    requires left { All (IsEntry size (t - 1)) left.now }
    requires right { All (IsEntry size (t - 1)) right.now }
    requires empty { (i : ℕ) → i < 8 → slice_index_or messages.old i [] ≡ [] }
    ensures made { (i : ℕ) → i < 8 → IsMessageAt size t left.now right.now i (slice_index_or messages.new i []) }
    ensures len { length messages.new ≡ 8 }
{
    for i in 0..EIGHT {
        put_message(size, t, left, right, i, &mut messages[i]);
    }
}

// Writes what is hashed of the left and the right entry at a place into an empty string.
#[inline(always)]
fn put_message(
    size: Size,
    t: u8,
    left: &[Entry; 8],
    right: &[Entry; 8],
    i: usize,
    message: &mut BitString,
)
    requires first_table { 2 ≤ t }
    requires last_table { t ≤ 7 }
    requires left { All (IsEntry size (t - 1)) left.now }
    requires right { All (IsEntry size (t - 1)) right.now }
    requires inside { i < 8 }
    requires empty { message.old ≡ [] }
    ensures { IsMessageAt size t left.now right.now i message.new }
{
    message.push(left[i].y as u128, size.k() + 6);
    message.join(&left[i].meta);
    message.join(&right[i].meta);
}

// Writes the bytes of eight messages.
#[inline(always)]
fn put_blocks(
    size: Size,
    t: u8,
    left: &[Entry; 8],
    right: &[Entry; 8],
    messages: &[BitString; 8],
    blocks: &mut [[u8; 64]; 8],
)
    requires first_table { 2 ≤ t }
    requires last_table { t ≤ 7 }
    requires messages { (i : ℕ) → i < 8 → IsMessageAt size t left.now right.now i (slice_index_or messages.now i []) }
    ensures blocks { (i : ℕ) → i < 8 → IsBlockAt size t left.now right.now i (slice_index_or blocks.new i []) }
    ensures len { length blocks.new ≡ 8 }
{
    for i in 0..EIGHT {
        put_block(size, t, left, right, i, &messages[i], &mut blocks[i]);
    }
}

// Writes the bytes of the message of the left and the right entry at a place.
#[inline(always)]
fn put_block(
    size: Size,
    t: u8,
    left: &[Entry; 8],
    right: &[Entry; 8],
    i: usize,
    message: &BitString,
    block: &mut [u8; 64],
)
    requires { IsMessageAt size t left.now right.now i message.now }
    ensures { IsBlockAt size t left.now right.now i block.new }
{
    message.to_block(block);
}

// The length in bytes of what is hashed of two entries of the table before table t.
#[inline(always)]
fn message_length(size: Size, t: u8, left: &[Entry; 8]) -> u32
    requires first_table { 2 ≤ t }
    requires last_table { t ≤ 7 }
    requires left { All (IsEntry size (t - 1)) left.now }
    ensures length { result ≡ message_bytes size t }
    ensures at_most { result ≤ 64 }
{
    (size.k() + 6 + 2 * left[0].meta.len() + 7) / 8
}

// Makes the entry of the left and the right entry at a place, by their hash.
#[inline(always)]
fn make_entry(
    size: Size,
    t: u8,
    left: &[Entry; 8],
    right: &[Entry; 8],
    hashes: &[[u8; 32]; 8],
    i: usize,
    made: &mut Entry,
)
    requires first_table { 2 ≤ t }
    requires last_table { t ≤ 7 }
    requires left { All (IsEntry size (t - 1)) left.now }
    requires right { All (IsEntry size (t - 1)) right.now }
    requires inside { i < 8 }
    requires hash { IsHashAt size left.now right.now i (slice_index_or hashes.now i []) }
    ensures entry { slice_get (zip2 (next_entry size t) left.now right.now) i ≡ Some made.new }
    ensures each { IsEntry size t made.new }
{
    set_entry(size, t, &left[i], &right[i], &hashes[i], made);
}

// Makes the entry of a left and a right entry in its place, by their hash.
#[inline(always)]
fn set_entry(size: Size, t: u8, left: &Entry, right: &Entry, hash: &[u8; 32], made: &mut Entry)
    requires first_table { 2 ≤ t }
    requires last_table { t ≤ 7 }
    requires left_meta { length left.now.meta ≡ size * metadata_units (t - 1) }
    requires right_meta { length right.now.meta ≡ size * metadata_units (t - 1) }
    requires hash { hash.now ≡ blake3_block (bytes (message size left.now right.now)) }
    ensures entry { made.new ≡ next_entry size t left.now right.now }
    ensures y { made.new.y < 2 ^ (size + 6) }
    ensures meta { length made.new.meta ≡ size * metadata_units t }
{
    made.y = number_at(hash, 0, size.k() + 6);
    set_metadata(size, t, left, right, hash, &mut made.meta);
}

// Makes the metadata of an entry of table t in its place.
#[inline(always)]
fn set_metadata(
    size: Size,
    t: u8,
    left: &Entry,
    right: &Entry,
    hash: &[u8; 32],
    meta: &mut BitString,
)
    requires first_table { 2 ≤ t }
    requires last_table { t ≤ 7 }
    requires left_meta { length left.now.meta ≡ size * metadata_units (t - 1) }
    requires right_meta { length right.now.meta ≡ size * metadata_units (t - 1) }
    requires hash { hash.now ≡ blake3_block (bytes (message size left.now right.now)) }
    ensures value { meta.new ≡ collated size t left.now right.now }
    ensures len { length meta.new ≡ size * metadata_units t }
{
    if t < 4 {
        *meta = left.meta;
        meta.join(&right.meta);
        return;
    }
    let whole = BitString::from_bytes(hash);
    meta.set_part(&whole, size.k() + 6, size.k() * units_of(t));
}

// How many times k bits of metadata an entry of a table has, from table 4 on.
#[inline(always)]
fn units_of(t: u8) -> u32
    requires first_table { 4 ≤ t }
    requires last_table { t ≤ 7 }
    ensures value { result ≡ metadata_units t }
    ensures at_most { result ≤ 4 }
{
    match t {
        4 => 4,
        5 => 3,
        6 => 2,
        _ => 0,
    }
}
