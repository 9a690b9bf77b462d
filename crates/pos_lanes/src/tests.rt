use crate::{Lanes, fx8};
use pos_tuple::{Id, Size, first, fx};

#[test]
fn eight_entries_are_those_made_one_by_one(rt: HostRuntime) {
    let id = Id([7; 32]);
    let size = Size::of(32);
    let left = first(&id, size, 3);
    let right = first(&id, size, 4);
    let one = fx(size, 2, &left, &right);
    let mut lanes = Lanes::new();
    assert_eq!(rt; lanes.eights(), 0);
    let eight = fx8(size, 2, &[left; 8], &[right; 8], &mut lanes);
    assert_eq!(rt; lanes.eights(), 1);
    for entry in eight.iter() {
        assert_eq!(rt; entry.y, one.y);
    }
}
