ghost use Rattle.std.specs.Prelude.{◌≡◌, ◌^◌, ◌<◌, ◌≤◌, length};

use crate::{
    Challenge, Entry, Id, Size, challenge_value, f1, f1_in_order, first, fx, matches, stream_words,
};
use pos_bits::BitString;
use std::process::Abort;
use std::test::Fail;

#[test]
fn the_rule_of_matching_by_its_rows(rt: HostRuntime) {
    let rows = [
        // m = 0, 1 and 63; neither of two places beside; m = 64 would be needed
        (0, 15113, true),
        (0, 15244, true),
        (0, 15245, false),
        (0, 23115, true),
        (0, 23242, false),
        // m = 1, where both residues wrap
        (15112, 15116, true),
        // an odd bucket, m = 0 and m = 63, and a place beside
        (15113, 30227, true),
        (15113, 30226, false),
        (15113, 38227, true),
        // the bucket before, the one behind the next, the same
        (15113, 0, false),
        (0, 30226, false),
        (0, 0, false),
    ];
    for (left, right, expected) in rows {
        assert_eq!(rt; matches(left, right), expected);
    }
}

#[test]
fn entries_of_known_values(rt: HostRuntime) -> Result<(), Fail> {
    let id = Id([0; 32]);
    let size = Size::new(12).ok_or("12 is a size")?;
    assert_eq!(rt; size.k(), 12);
    assert_eq!(rt; f1(&id, size, 3208), 114418);
    assert_eq!(rt; f1(&id, size, 2475), 120998);
    let left = first(&id, size, 3208);
    let right = first(&id, size, 2475);
    assert_eq!(rt; left.meta.number(0, 12), 3208);
    let next = fx(size, 2, &left, &right);
    assert_eq!(rt; next.y, 117350);
    assert_eq!(rt; next.meta.number(0, 24), 0b110010001000100110101011);
    let challenge = Challenge([0x8e; 32]);
    assert_eq!(rt; challenge_value(size, &challenge), 0x8e8);
    Ok(())
}

#[test]
fn f1_in_order_and_out_of_order(rt: HostRuntime) -> Result<(), Fail> {
    let size = Size::new(12).ok_or("12 is a size")?;
    let mut words = stream_words(&Id([0; 32]));
    for (x, expected) in [(2475, 120998), (3208, 114418), (2475, 120998)] {
        assert_eq!(rt; f1_in_order(&mut words, size, x), expected);
    }
    Ok(())
}

// An entry of a table whose metadata is the `width` bits of a number.
fn entry_of(y: u64, meta: u128, width: u32) -> Entry
    requires fits { meta < 2 ^ width }
    requires short { width ≤ 64 }
    ensures y { result.y ≡ y }
    ensures meta { length result.meta ≡ width }
{
    let mut bits = BitString::empty();
    bits.push(meta, width);
    Entry { y, meta: bits }
}

// The y and the metadata of an entry.
fn shows(rt: &impl Abort, entry: &Entry, y: u64, meta: u128, width: u32)
    requires { width ≤ 64 }
{
    assert_eq!(rt; entry.y, y);
    assert_eq!(rt; entry.meta.len(), width);
    assert_eq!(rt; entry.meta.number(0, width), meta);
}

// The rows of the tests of chiapos, one a table. The right y is not hashed.
#[test]
fn entries_of_tables_3_to_7_are_those_of_chiapos(rt: HostRuntime) {
    let size = Size::of(16);
    let left = entry_of(0x31e541, 0x35bf992d, 32);
    let right = entry_of(0, 0x7ce42c82, 32);
    shows(
        &rt,
        &fx(size, 3, &left, &right),
        0xf73b3,
        0x35bf992d7ce42c82,
        64,
    );
    let left = entry_of(0x30cb4c, 0x05b6e6e307d4bedc, 64);
    let right = entry_of(0, 0x8a9a021ea648a7dd, 64);
    shows(
        &rt,
        &fx(size, 4, &left, &right),
        0x11ad5,
        0xd4bd0b144fc26138,
        64,
    );
    let left = entry_of(0x25f01e, 0xc2cd789a380208a9, 64);
    let right = entry_of(0, 0x19999e3fa46d6753, 64);
    shows(
        &rt,
        &fx(size, 5, &left, &right),
        0x1f22bd,
        0xabe423040a33,
        48,
    );
    let left = entry_of(0x1f121a, 0xc965815a47c5, 48);
    let right = entry_of(0, 0xf5e008d6af57, 48);
    shows(&rt, &fx(size, 6, &left, &right), 0x1cabbe, 0xc8cc6947, 32);
    let left = entry_of(0x14f410, 0x5fec898f, 32);
    let right = entry_of(0, 0x82283d15, 32);
    shows(&rt, &fx(size, 7, &left, &right), 0x24c3c2, 0, 0);
}
