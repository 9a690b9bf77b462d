//! Line points: a pair of different numbers as one number that keeps the order of pairs.
#![tactic(auto)]

mod laws;
mod root;

ghost use Rattle.pos_points.specs.Points.{point_of};
ghost use Rattle.pos_lists.specs.Pairs.{greater, lesser};
ghost use Rattle.std.specs.Prelude.{◌≡◌, ◌-◌, ◌*◌, ◌/◌, ◌<◌, ◌≢◌, ◌^◌, max, min};

pub use laws::{points_are_in_either_order, points_are_places, points_keep_the_order};
use root::root_of;

/// The line point of two different numbers, given in either order.
///
/// It is `a * (a - 1) / 2 + b` for the greater number a and the lesser number b: the place of the pair among all pairs,
/// ordered by the greater number and then by the lesser one.
pub fn to_point(a: u64, b: u64) -> u128
    requires differ { a ≢ b }
    requires first_in_range { a < 2 ^ 63 }
    requires second_in_range { b < 2 ^ 63 }
    ensures point { result ≡ point_of a b }
    ensures greater { greater result ≡ max a b }
    ensures lesser { lesser result ≡ min a b }
{
    let (greater, lesser) = if a < b { (b, a) } else { (a, b) };
    let greater = u128::from(greater);
    greater * (greater - 1) / 2 + u128::from(lesser)
}

/// The two numbers, the greater one first, that have this line point.
pub fn from_point(point: u128) -> (u64, u64)
    requires { point < 2 ^ 124 }
    ensures greater { result.0 ≡ greater point }
    ensures lesser { result.1 ≡ lesser point }
    ensures differ { result.1 < result.0 }
    ensures in_range { result.0 < 2 ^ 63 }
    ensures inverse { point_of result.0 result.1 ≡ point }
{
    // For the greater number a, a * (a - 1) is at most 2 * point, so a is the root or one more.
    let root = root_of(2 * point + 1);
    let next = root + 1;
    let greater = if first_point(next) <= point {
        next
    } else {
        root
    };
    (greater, (point - first_point(greater)) as u64)
}

/// The line point of this number and 0: how many pairs there are of lesser numbers.
fn first_point(a: u64) -> u128
    requires positive { 0 < a }
    ensures { result ≡ a * (a - 1) / 2 }
{
    u128::from(a) * u128::from(a - 1) / 2
}

#[cfg(test)]
mod tests;
