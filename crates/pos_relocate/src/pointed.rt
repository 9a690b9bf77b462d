//! An entry of a table behind its point, in two widths.
ghost use Rattle.std.specs.Prelude.{◌≡◌, ◌^◌, ◌<◌, ℕ};
ghost use Rattle.std.specs.List.Sorted.{IsNonDecreasingBy, IsPermutation};

/// An entry of a table behind its point, which is a line point or a number of table 7. No call takes memory.
pub trait Pointed: Copy {
    /// The point and the old place.
    ghost pair: { Self → ℕ × ℕ };

    /// What its points are below.
    ghost bound: { ℕ };

    /// The entry at this old place, of this point.
    fn new(point: u128, old: u64) -> Self
        requires { point < bound }
        ensures { pair result ≡ (point, old) };

    /// Its point.
    fn point(&self) -> u128
        ensures { result ≡ (pair self.now).0 };

    /// Its old place.
    fn old(&self) -> u64
        ensures { result ≡ (pair self.now).1 };

    /// Sorts by point.
    fn sort(records: &mut [Self])
        ensures permuted { IsPermutation records.old records.new }
        ensures sorted { IsNonDecreasingBy (λ entry. (pair entry).0) records.new };
}

/// An entry whose point has 64 bits. It sorts in half the time of the other.
#[derive(Clone, Copy, Debug, PartialEq, Eq)]
pub struct Narrow {
    point: u64,
    old: u64,
}

/// An entry whose point has up to 128 bits.
#[derive(Clone, Copy, Debug, PartialEq, Eq)]
pub struct Wide {
    point: u128,
    old: u64,
}

impl Pointed for Narrow {
    ghost pair = { λ entry. (entry.point, entry.old) };

    ghost bound = { 2 ^ 64 };

    #[inline(always)]
    fn new(point: u128, old: u64) -> Narrow {
        Narrow {
            point: point as u64,
            old,
        }
    }

    #[inline(always)]
    fn point(&self) -> u128 {
        u128::from(self.point)
    }

    #[inline(always)]
    fn old(&self) -> u64 {
        self.old
    }

    fn sort(records: &mut [Narrow]) {
        records.sort_unstable_by_key(|entry| entry.point);
    }
}

impl Pointed for Wide {
    ghost pair = { λ entry. (entry.point, entry.old) };

    ghost bound = { 2 ^ 128 };

    #[inline(always)]
    fn new(point: u128, old: u64) -> Wide {
        Wide { point, old }
    }

    #[inline(always)]
    fn point(&self) -> u128 {
        self.point
    }

    #[inline(always)]
    fn old(&self) -> u64 {
        self.old
    }

    fn sort(records: &mut [Wide]) {
        records.sort_unstable_by_key(|entry| entry.point);
    }
}
