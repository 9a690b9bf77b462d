// An entry of a table, the entries of table 1, and the step from a table to the next.
ghost use Rattle.std.specs.Prelude.{◌≡◌, ◌+◌, ◌-◌, ◌*◌, ◌^◌, ◌<◌, ◌≤◌, ◌++◌, List, length, replicate, take, drop};
ghost use Rattle.pos_bits.specs.Bits.{bits, byte_count, bytes};
ghost use Rattle.pos_blake3.specs.Blake3.{blake3_block};
ghost use Rattle.pos_tuple.specs.Node.{metadata_units, first_entry, message, hash_bits, collated, next_entry};

use crate::{Id, Size, f1};
use pos_bits::BitString;
use pos_blake3::hash_block;

/// An entry of a table: its y, which has k + 6 bits, and its metadata.
#[derive(Clone, Copy)]
pub struct Entry {
    pub y: u64,
    pub meta: BitString,
}

/// The entry of table 1 for the value `x`.
#[tactic(auto, unfolding(crate::specs::Node::first_entry))]
pub fn first(id: &Id, size: Size, x: u64) -> Entry
    requires { x < 2 ^ size }
    ensures entry { result ≡ first_entry id.now.0 size x }
    ensures y { result.y < 2 ^ (size + 6) }
    ensures meta { length result.meta ≡ size * metadata_units 1 }
{
    let mut meta = BitString::empty();
    meta.push(x as u128, size.k());
    Entry {
        y: f1(id, size, x),
        meta,
    }
}

/// The entry of table `t`, from 2 to 7, for a left and a right entry of the table before. It does not test that they
/// match. Source of the rule: the Construction document, "f2 to f7"; chiapos, `FxCalculator`.
pub fn fx(size: Size, t: u8, left: &Entry, right: &Entry) -> Entry
    requires first_table { 2 ≤ t }
    requires last_table { t ≤ 7 }
    requires left_y { left.now.y < 2 ^ (size + 6) }
    requires right_y { right.now.y < 2 ^ (size + 6) }
    requires left_meta { length left.now.meta ≡ size * metadata_units (t - 1) }
    requires right_meta { length right.now.meta ≡ size * metadata_units (t - 1) }
    ensures entry { result ≡ next_entry size t left.now right.now }
    ensures y { result.y < 2 ^ (size + 6) }
    ensures meta { length result.meta ≡ size * metadata_units t }
{
    let mut block = [0u8; 64];
    let count = message_of(size, left, right, &mut block);
    entry_of_hash(size, t, left, right, &hash_block(&block[..count]))
}

/// Writes what is hashed of a left and a right entry of table t - 1, then zeros, and answers its length in bytes.
pub fn message_of(size: Size, left: &Entry, right: &Entry, block: &mut [u8; 64]) -> usize
    requires left_y { left.now.y < 2 ^ (size + 6) }
    requires room { size + 6 + length left.now.meta + length right.now.meta ≤ 512 }
    ensures bytes { block.new ≡ bytes (message size left.now right.now) ++ replicate (64 - result) 0 }
    ensures count { result ≡ length (bytes (message size left.now right.now)) }
    ensures at_most { result ≤ 64 }
    ensures same_length { result ≡ byte_count (size + 6 + length left.now.meta + length right.now.meta) }
{
    let mut message = BitString::empty();
    message.push(left.y as u128, size.k() + 6);
    message.join(&left.meta);
    message.join(&right.meta);
    message.to_block(block)
}

/// The entry of table `t`, from 2 to 7, for a left and a right entry of the table before, by the hash of `message_of`.
#[tactic(auto, unfolding(crate::specs::Node::next_entry, crate::specs::Node::hash_bits))]
pub fn entry_of_hash(size: Size, t: u8, left: &Entry, right: &Entry, hash: &[u8; 32]) -> Entry
    requires first_table { 2 ≤ t }
    requires last_table { t ≤ 7 }
    requires left_meta { length left.now.meta ≡ size * metadata_units (t - 1) }
    requires right_meta { length right.now.meta ≡ size * metadata_units (t - 1) }
    requires hash { hash.now ≡ blake3_block (bytes (message size left.now right.now)) }
    ensures entry { result ≡ next_entry size t left.now right.now }
    ensures y { result.y < 2 ^ (size + 6) }
    ensures meta { length result.meta ≡ size * metadata_units t }
{
    let hash = BitString::from_bytes(hash);
    Entry {
        y: hash.number(0, size.k() + 6) as u64,
        meta: collate(size, t, left, right, &hash),
    }
}

// The metadata of an entry of table `t`.
#[tactic(auto, unfolding(crate::specs::Node::collated))]
fn collate(size: Size, t: u8, left: &Entry, right: &Entry, hash: &BitString) -> BitString
    requires first_table { 2 ≤ t }
    requires last_table { t ≤ 7 }
    requires left_meta { length left.now.meta ≡ size * metadata_units (t - 1) }
    requires right_meta { length right.now.meta ≡ size * metadata_units (t - 1) }
    requires hash { hash.now ≡ hash_bits size left.now right.now }
    requires hash_len { length hash.now ≡ 256 }
    ensures value { result ≡ collated size t left.now right.now }
    ensures len { length result ≡ size * metadata_units t }
{
    if t < 4 {
        let mut meta = left.meta;
        meta.join(&right.meta);
        return meta;
    }
    let width = size.k() * units_of(t);
    hash.part(size.k() + 6, width)
}

// How many times k bits of metadata an entry of a table has, from table 4 on.
fn units_of(t: u8) -> u32
    requires first_table { 4 ≤ t }
    requires last_table { t ≤ 7 }
    ensures value { result ≡ metadata_units t }
    ensures at_most { result ≤ 4 }
{
    match t {
        4 => 4,
        5 => 3,
        6 => 2,
        _ => 0,
    }
}
