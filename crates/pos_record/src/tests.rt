ghost use Rattle.std.specs.Prelude.{◌≡◌, ◌+◌, ◌*◌, ◌<◌, ◌≤◌, length};
ghost use Rattle.pos_record.specs.Fields.{IsRecordSize};

use crate::{First, Last, Middle, Number, Packed, Pair, Record, Row, Value};
use pos_bits::BitString;
use std::fmt::Debug;
use std::process::Abort;

// The record has the width that the table of kinds says, and is read back behind three other bits.
fn is_read_back<R: Record<K> + PartialEq + Debug, const K: u32>(
    rt: &impl Abort,
    item: R,
    width: u32,
)
    requires size { IsRecordSize K }
    requires fits { R.fits item }
    requires short { R.bit_count ≤ 512 }
{
    assert_eq!(rt; R::width(), width);
    let string = item.put();
    assert_eq!(rt; string.len(), width);
    let mut bytes = [0xaa; 65];
    item.append_at(&mut bytes, 3);
    assert_eq!(rt; bytes[0] >> 5, 0b101);
    assert!(rt; R::take_at(&bytes, 3) == item);
}

#[test]
fn a_pair_is_two_places_of_thirteen_bits_at_size_12(rt: HostRuntime) {
    let pair = Pair { left: 4, right: 1 };
    let string = <Pair as Record<12>>::put(&pair);
    assert_eq!(rt; string.len(), 26);
    assert_eq!(rt; string.number(0, 26), 4 * 8192 + 1);
}

#[test]
fn kinds_have_their_widths_and_greatest_fields_come_back(rt: HostRuntime) {
    is_read_back::<First, 10>(
        &rt,
        First {
            y: 0xffff,
            x: 0x3ff,
        },
        26,
    );
    is_read_back::<First, 50>(
        &rt,
        First {
            y: 0xff_ffff_ffff_ffff,
            x: 0x3_ffff_ffff_ffff,
        },
        106,
    );
    is_read_back::<Value, 10>(&rt, Value { x: 0x3ff }, 10);
    is_read_back::<Value, 50>(
        &rt,
        Value {
            x: 0x3_ffff_ffff_ffff,
        },
        50,
    );
    is_read_back::<Last, 12>(
        &rt,
        Last {
            y: 0x3ffff,
            left: 0x1fff,
            right: 0x1fff,
        },
        44,
    );
    is_read_back::<Last, 50>(
        &rt,
        Last {
            y: 0xff_ffff_ffff_ffff,
            left: 0x7_ffff_ffff_ffff,
            right: 0,
        },
        158,
    );
    is_read_back::<Pair, 20>(
        &rt,
        Pair {
            left: 0x1f_ffff,
            right: 0x1f_ffff,
        },
        42,
    );
    is_read_back::<Pair, 50>(
        &rt,
        Pair {
            left: 0x7_ffff_ffff_ffff,
            right: 0x7_ffff_ffff_ffff,
        },
        102,
    );
    is_read_back::<Number, 32>(
        &rt,
        Number {
            number: 0x3_ffff_ffff_ffff_ffff,
        },
        66,
    );
    is_read_back::<Number, 50>(
        &rt,
        Number {
            number: 0x3f_ffff_ffff_ffff_ffff_ffff_ffff,
        },
        102,
    );
}

#[test]
fn metadata_comes_back_as_a_string_and_as_a_number(rt: HostRuntime) {
    let row = Row::<3> {
        y: 0x3f_ffff_ffff,
        high: 0,
        low: 0xffff_ffff_ffff_ffff_ffff_ffff_ffff_ffff,
        left: 0x1_ffff_ffff,
        right: 0x1_ffff_ffff,
    };
    is_read_back::<Row<3>, 32>(&rt, row, 232);
    let string = <Row<3> as Record<32>>::put(&row);
    assert_eq!(rt; string.len(), 232);
    let middle = <Middle<3> as Record<32>>::take(&string);
    assert_eq!(rt; middle.meta.len(), 128);
    assert_eq!(rt;
        middle.meta.number(0, 128),
        0xffff_ffff_ffff_ffff_ffff_ffff_ffff_ffff
    );
    assert!(rt; middle.left == 0x1_ffff_ffff && middle.right == 0x1_ffff_ffff);
    let wide = Row::<4> {
        y: 1,
        high: 0xff_ffff_ffff_ffff_ffff,
        low: 2,
        left: 3,
        right: 4,
    };
    is_read_back::<Row<4>, 50>(&rt, wide, 358);
    let mut meta = BitString::empty();
    meta.push(0x3ff, 20);
    let least = Middle::<2> {
        y: 0xffff,
        meta,
        left: 0x7ff,
        right: 0x7ff,
    };
    is_read_back::<Middle<2>, 10>(&rt, least, 58);
}

#[test]
fn a_packed_record_leaves_its_neighbours(rt: HostRuntime) {
    let mut bytes = [0xff; 10];
    assert_eq!(rt; Packed::<Pair, 12>::len(&bytes), 3);
    Packed::<Pair, 12>::set(&mut bytes, 1, &Pair { left: 4, right: 1 });
    let all = Pair {
        left: 0x1fff,
        right: 0x1fff,
    };
    assert_eq!(rt; Packed::<Pair, 12>::get(&bytes, 0), all);
    assert_eq!(rt;
        Packed::<Pair, 12>::get(&bytes, 1),
        Pair { left: 4, right: 1 }
    );
    assert_eq!(rt; Packed::<Pair, 12>::get(&bytes, 2), all);
}
