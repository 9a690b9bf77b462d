// Table 1, and the matching pairs of entries that are taken one after another.
ghost use Rattle.std.specs.Prelude.{◌<◌, ◌^◌, length};

use pos_forward::{Drafts, Matcher, entry_of_parts, first_table};
use pos_lanes::Lanes;
use pos_record::First;
use pos_tuple::{Id, Size};
use std::alloc::Global;
use std::test::Fail;

// The two y are those that an independent program gives for the id of zeros.
#[test]
fn table_1_of_the_id_of_zeros_at_size_12(rt: HostRuntime) -> Result<(), Fail> {
    let mut rows = Vec::new(rt.alloc());
    first_table(&Id([0; 32]), Size::of(12), &mut rows)?;
    assert_eq!(rt; rows.len(), 4096);
    for (x, y) in [(3208, 114418), (2475, 120998)] {
        assert!(rt; rows.iter().any(|row: &First| row.x == x && row.y == y));
    }
    Ok(())
}

// The places of the pairs whose entries are made.
fn pairs_of(alloc: Global, drafts: &Drafts) -> Result<Vec<(u64, u64)>, Fail> {
    let mut pairs = Vec::new(alloc);
    for i in 0..drafts.len() {
        let draft = drafts.get(i);
        pairs.push((draft.left, draft.right))?;
    }
    Ok(pairs)
}

// The matching pairs of places of entries of table 1 with these y; none where they do not rise, or are not below 65536.
fn matching(alloc: Global, ys: &[u64]) -> Result<Vec<(u64, u64)>, Fail>
    requires { length ys.now < 2 ^ 52 }
{
    let size = Size::of(10);
    let mut matcher = Matcher::new(alloc)?;
    let mut drafts = Drafts::new(alloc);
    let mut lanes = Lanes::new();
    let mut least = 0;
    for i in 0..ys.len() {
        let y = ys[i];
        if y < least || 65536 <= y {
            return Ok(Vec::new(alloc));
        }
        let entry = entry_of_parts(size, 1, y, 0, 5);
        matcher.take(size, 2, 100, &entry, &mut drafts, &mut lanes)?;
        least = y;
    }
    matcher.finish(size, 2, 100, &mut drafts, &mut lanes)?;
    pairs_of(alloc, &drafts)
}

#[test]
fn pairs_of_buckets_that_follow_one_another(rt: HostRuntime) -> Result<(), Fail> {
    let alloc = rt.alloc();
    assert_eq!(rt; matching(alloc, &[])?.as_slice(), [].as_slice());
    // Bucket 0 and then bucket 2: the one between them has no entries.
    assert_eq!(rt;
        matching(alloc, &[15112, 30229, 30229])?.as_slice(),
        [].as_slice()
    );
    // Equal y on both sides are paired each with each; the last bucket has no next one.
    assert_eq!(rt;
        matching(alloc, &[15112, 15112, 15116, 15116, 50000])?.as_slice(),
        [(0, 2), (0, 3), (1, 2), (1, 3)].as_slice()
    );
    Ok(())
}
