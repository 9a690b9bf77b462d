//! The directory entry of a park, between its bytes and its fields.
ghost use Rattle.std.specs.Prelude.{◌≡◌, ◌≤◌, length, take};
ghost use Rattle.pos_rice.specs.Park.{AreNumbers, Park};
ghost use Rattle.pos_layout.specs.Files.{entry_for};
ghost use Rattle.pos_layout.specs.Rules.{head_of};
ghost use Rattle.pos_layout.specs.Layouts.{digest_of, entry_bytes};
ghost use Rattle.pos_layout.specs.Fields.{entry_fields, entry_of};

use crate::bytes::{eight_at, four_at, put};
use crate::{Layout, ParkDigest, park_digest};
use pos_tuple::Size;

/// The greatest length of an entry in bytes, in any layout.
pub const MOST_ENTRY_BYTES: usize = 40;

/// What the directory says of a park: its offset and its length in bytes, how many numbers it has, the first bytes of
/// its SHA-256, and its head, which is the f7 of its first number in table 7 and 0 in the others.
#[derive(Debug, Drop)]
pub struct ParkEntry {
    pub offset: u64,
    pub park_length: u32,
    pub count: u32,
    pub digest: ParkDigest,
    pub head: u64,
}

/// The bytes of an entry of this layout, at the front of a buffer that has room for any.
pub fn encode_entry(layout: Layout, entry: &ParkEntry) -> [u8; 40]
    requires { length entry.now.digest ≡ digest_of layout }
    ensures bytes { take (entry_bytes layout) result ≡ entry_fields entry.now }
    ensures len { length result ≡ MOST_ENTRY_BYTES }
{
    let digest = layout.digest_bytes();
    let mut bytes = [0; 40];
    put(&mut bytes, 0, &entry.offset.to_be_bytes());
    put(&mut bytes, 8, &entry.park_length.to_be_bytes());
    put(&mut bytes, 12, &entry.count.to_be_bytes());
    put(&mut bytes, 16, entry.digest.bytes());
    put(&mut bytes, 16 + digest, &entry.head.to_be_bytes());
    bytes
}

/// The entry of this layout whose bytes these are.
pub fn decode_entry(layout: Layout, bytes: &[u8]) -> ParkEntry
    requires { length bytes.now ≡ entry_bytes layout }
    ensures { result ≡ entry_of layout bytes.now }
{
    let head = 16 + layout.digest_bytes();
    ParkEntry {
        offset: eight_at(bytes, 0),
        park_length: four_at(bytes, 8),
        count: four_at(bytes, 12),
        digest: ParkDigest::of(&bytes[16..head]),
        head: eight_at(bytes, head),
    }
}

/// The bytes of the entry of a park of table t that stands at this offset, by its numbers and its bytes, at the front of
/// a buffer.
pub(crate) fn park_entry(
    layout: Layout,
    size: Size,
    t: usize,
    offset: u64,
    numbers: &[u128],
    park: &[u8],
) -> [u8; 40]
    requires first { 1 ≤ t }
    requires last { t ≤ 7 }
    requires park { Park size numbers.now park.now }
    ensures bytes { take (entry_bytes layout) result ≡ entry_fields (entry_for layout size t offset numbers.now) }
    ensures len { length result ≡ MOST_ENTRY_BYTES }
{
    // The size is small enough that each number below fits its type.
    let _k = size.k();
    let entry = ParkEntry {
        offset,
        park_length: park.len() as u32,
        count: numbers.len() as u32,
        digest: park_digest(layout, park),
        head: park_head(size, t, numbers),
    };
    encode_entry(layout, &entry)
}

/// The head of a park of table t: the f7 of its first number in table 7, and 0 in the others.
fn park_head(size: Size, t: usize, numbers: &[u128]) -> u64
    requires { AreNumbers size numbers.now }
    ensures { result ≡ head_of size t numbers.now }
{
    let k = size.k();
    if t == 7 {
        (numbers[0] >> (k + 1)) as u64
    } else {
        0
    }
}
