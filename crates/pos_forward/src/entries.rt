// Entries and drafts: metadata as bits and as a number in two parts.
ghost use Rattle.std.specs.Prelude.{◌≡◌, ◌+◌, ◌-◌, ◌*◌, ◌/◌, ◌%◌, ◌^◌, ◌<◌, ◌≤◌, ◌++◌, length};
ghost use Rattle.pos_bits.specs.Bits.{bits, number};
ghost use Rattle.pos_tuple.specs.Node.{IsEntry, metadata_units};
ghost use Rattle.pos_forward.specs.Drafts.{HasDraftBits, draft_of, entry_of_number};

use crate::Draft;
use pos_bits::BitString;
use pos_tuple::{Entry, Size};

/// The entry of table `t`, from 1 to 6, with this y and the metadata that the number writes: `low` has its last 128 bits,
/// `high` those before. Takes no memory.
#[inline]
pub fn entry_of_parts(size: Size, t: u8, y: u64, high: u128, low: u128) -> Entry
    requires first_table { 1 ≤ t }
    requires sixth_table { t ≤ 6 }
    requires y { y < 2 ^ (size + 6) }
    requires meta { high * 2 ^ 128 + low < 2 ^ (size * metadata_units t) }
    ensures entry { result ≡ entry_of_number size t y (high * 2 ^ 128 + low) }
    ensures each { IsEntry size t result }
{
    let mut meta = BitString::empty();
    push_number(&mut meta, high, low, size.k() * units_of(t));
    Entry { y, meta }
}

// Appends the `width` low bits of a number in two parts, the low one of 128 bits.
#[inline]
fn push_number(string: &mut BitString, high: u128, low: u128, width: u32)
    requires width_fits { width ≤ 256 }
    requires fits { high * 2 ^ 128 + low < 2 ^ width }
    requires room { length string.old + width ≤ 512 }
    ensures bits { string.new ≡ string.old ++ bits (high * 2 ^ 128 + low) width }
    ensures len { length string.new ≡ length string.old + width }
{
    if width > 128 {
        string.push(high, width - 128);
        string.push(low, 128);
    } else {
        string.push(low, width);
    }
}

// The draft of an entry of table `t`, from 2 to 7, made of these two places.
#[inline]
pub(crate) fn draft_from(size: Size, t: u8, entry: &Entry, pair: (u64, u64)) -> Draft
    requires first_table { 2 ≤ t }
    requires last_table { t ≤ 7 }
    requires entry { IsEntry size t entry.now }
    ensures draft { result ≡ draft_of entry.now pair }
    ensures fits { HasDraftBits size t result }
{
    let (high, low) = metadata_parts(&entry.meta, size.k() * units_of(t));
    Draft {
        y: entry.y,
        high,
        low,
        left: pair.0,
        right: pair.1,
    }
}

// The number that the `width` bits of metadata write, in two parts, the low one of 128 bits.
#[inline]
fn metadata_parts(meta: &BitString, width: u32) -> (u128, u128)
    requires width_is { length meta.now ≡ width }
    requires width_fits { width ≤ 256 }
    ensures high { result.0 ≡ number meta.now / 2 ^ 128 }
    ensures low { result.1 ≡ number meta.now % 2 ^ 128 }
{
    if width > 128 {
        (meta.number(0, width - 128), meta.number(width - 128, 128))
    } else {
        (0, meta.number(0, width))
    }
}

// How many times k bits of metadata an entry of a table has.
#[inline]
fn units_of(t: u8) -> u32
    requires first_table { 1 ≤ t }
    requires last_table { t ≤ 7 }
    ensures value { result ≡ metadata_units t }
    ensures at_most { result ≤ 4 }
{
    match t {
        1 => 1,
        2 => 2,
        3 => 4,
        4 => 4,
        5 => 3,
        6 => 2,
        _ => 0,
    }
}
