//! Square roots of whole numbers, rounded down, by halves: the root of the high half of the digits gives the next
//! digit of the root by one division.

ghost use Rattle.pos_points.specs.Root.{IsRoot};
ghost use Rattle.std.specs.Prelude.{◌+◌, ◌*◌, ◌<◌, ◌≤◌, ◌^◌};

/// A square root rounded down, and what its square leaves of the number.
#[derive(Clone, Copy)]
struct Root {
    root: u64,
    rest: u64,
}

/// The square root of a number below 2^126, rounded down.
pub(crate) fn root_of(n: u128) -> u64
    requires positive { 0 < n }
    requires in_range { n < 2 ^ 126 }
    ensures square_below { result * result ≤ n }
    ensures next_square_above { n < (result + 1) * (result + 1) }
    ensures in_range { result < 2 ^ 63 }
{
    // The number is moved up by an even count of bits, so that its top two bits of 126 are not both 0.
    let half = n.leading_zeros() / 2 - 1;
    let wide = n << (2 * half);
    let high = root_of_word((wide >> 62) as u64);
    refine(high, (wide % (1 << 62)) as u64, 1 << 31).root >> half
}

/// The root of a word whose top two bits are not both 0.
#[inline(always)]
fn root_of_word(n: u64) -> Root
    requires { 2 ^ 62 ≤ n }
    ensures root { IsRoot n result.root result.rest }
    ensures low { 2 ^ 31 ≤ result.root }
    ensures high { result.root < 2 ^ 32 }
{
    let byte = root_of_byte(n >> 56);
    let short = refine(byte, (n >> 48) % 256, 16);
    let half = refine(short, (n >> 32) % 65536, 256);
    refine(half, n % (1 << 32), 65536)
}

/// The root of a byte whose top two bits are not both 0.
#[inline(always)]
fn root_of_byte(n: u64) -> Root
    requires low { 64 ≤ n }
    requires high { n < 256 }
    ensures root { IsRoot n result.root result.rest }
    ensures low { 8 ≤ result.root }
    ensures high { result.root < 16 }
{
    let root = 8
        + u64::from(n >= 81)
        + u64::from(n >= 100)
        + u64::from(n >= 121)
        + u64::from(n >= 144)
        + u64::from(n >= 169)
        + u64::from(n >= 196)
        + u64::from(n >= 225);
    Root {
        root,
        rest: n - root * root,
    }
}

/// The root of a number from the root of its high digits and its next two digits in this base.
///
/// With n = n' b² + d1 b + d0 and n' = s² + r, the next digit of the root is the quotient of r b + d1 by 2 s, or one less.
#[inline(always)]
fn refine(high: Root, digits: u64, base: u64) -> Root
    requires root { high.rest ≤ 2 * high.root }
    requires root_in_range { high.root < 2 ^ 32 }
    requires base { 0 < base }
    requires base_in_range { base ≤ 2 ^ 31 }
    requires wide { base ≤ 2 * high.root }
    requires digits { digits < base * base }
    ensures root { IsRoot ((high.root * high.root + high.rest) * (base * base) + digits) result.root result.rest }
    ensures low { high.root * base ≤ result.root }
    ensures high { result.root < (high.root + 1) * base }
{
    let dividend = high.rest * base + digits / base;
    let divisor = 2 * high.root;
    let quotient = dividend / divisor;
    let square = quotient * quotient;
    let root = high.root * base + quotient;
    let left = dividend % divisor * base + digits % base;
    if square <= left {
        Root {
            root,
            rest: left - square,
        }
    } else {
        Root {
            root: root - 1,
            rest: root + (root - 1) - (square - left),
        }
    }
}
