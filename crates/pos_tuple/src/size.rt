// The size of a plot.
ghost use Rattle.std.specs.Prelude.{◌≡◌, ◌≤◌, ◌↔◌, IsSome, IfSome};

use std::marker::Model;

/// The size k of a plot, from 10 to 50: its values have k bits. Contracts see the number.
#[derive(Clone, Copy, Debug, PartialEq, Eq)]
pub struct Size {
    k: u32,
}

impl Model for Size {
    ghost use Rattle.std.specs.Prelude.{ℕ, ◌≤◌};

    ghost Value = { ℕ };

    ghost view = { λ s. s.k };

    ghost invariant = { λ s. (10 ≤ s.k) × (s.k ≤ 50) };

    ghost inverse = { λ k. record { k = k } };
}

impl Size {
    /// The size k, or None where k is outside 10 to 50.
    pub fn new(k: u64) -> Option<Size>
        ensures found { IsSome result ↔ ((10 ≤ k) × (k ≤ 50)) }
        ensures value { IfSome result (λ size. size ≡ k) }
    {
        if 10 <= k && k <= 50 {
            Some(Size { k: k as u32 })
        } else {
            None
        }
    }

    /// The size k, where k is known to be in the range of a size.
    pub fn of(k: u32) -> Size
        requires at_least { 10 ≤ k }
        requires at_most { k ≤ 50 }
        ensures { result ≡ k }
    {
        Size { k }
    }

    /// How many bits a value has.
    pub fn k(&self) -> u32
        ensures value { result ≡ self.now }
        ensures at_least { 10 ≤ result }
        ensures at_most { result ≤ 50 }
    {
        self.k
    }
}
