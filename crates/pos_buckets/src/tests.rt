use crate::{Places, Targets};
use std::test::Fail;

#[test]
fn pairs_of_two_buckets(rt: HostRuntime) -> Result<(), Fail> {
    let targets = Targets::new(rt.alloc())?;
    let pairs = targets.pairs(rt.alloc(), &[0], &[15113, 15244, 15245])?;
    assert_eq!(rt; pairs.as_slice(), [(0, 0), (0, 1)].as_slice());
    let equal = targets.pairs(rt.alloc(), &[15112, 15112], &[15116, 15116])?;
    assert_eq!(rt;
        equal.as_slice(),
        [(0, 0), (0, 1), (1, 0), (1, 1)].as_slice()
    );
    let mut places = Places::new(rt.alloc())?;
    let mut odd = Vec::new(rt.alloc());
    targets.list(&mut places, &[15113], &[30226, 30227, 38227], &mut odd)?;
    assert_eq!(rt; odd.as_slice(), [(0, 1), (0, 2)].as_slice());
    targets.list(&mut places, &[], &[0, 90000], &mut odd)?;
    assert_eq!(rt; odd.len(), 0);
    Ok(())
}
