// When a left value matches a right value.
ghost use Rattle.std.specs.Prelude.{◌≡◌, ◌↔◌, IsTrue};
ghost use Rattle.pos_tuple.specs.Match.{HasTarget, Match, is_match};

// The parameters of the rule: a bucket has B * C values.
const B: u64 = 119;

const C: u64 = 127;

const BC: u64 = B * C;

// A left value has this many targets in the next bucket.
const TARGETS: u64 = 64;

/// Whether the left value `yl` matches the right value `yr`.
///
/// The quotients of their places in their buckets allow one target at most, since there are fewer targets than
/// quotients; so only this one is tried. Source of the rule: the Construction document's matching function.
#[inline]
pub fn matches(yl: u64, yr: u64) -> bool
    ensures matched { IsTrue result ↔ Match yl yr }
    ensures tested { result ≡ is_match yl yr }
{
    let bucket = yl / BC;
    if yr / BC != bucket + 1 {
        return false;
    }
    has_target(yl, yr)
}

// Whether the right value is, by its place in its bucket, a target of the left one.
#[inline]
fn has_target(yl: u64, yr: u64) -> bool
    ensures { IsTrue result ↔ HasTarget yl yr }
{
    let parity = yl / BC % 2;
    let left = yl % BC;
    let right = yr % BC;
    let target = (right / C + B - left / C) % B;
    let root = 2 * target + parity;
    target < TARGETS && right % C == (root * root + left) % C
}
