//! The numbers of a table's entries by place, in the least room.
ghost use Rattle.std.specs.Prelude.{◌≡◌, ◌++◌, ◌∷◌, [], ◌^◌, ◌<◌, ◌≤◌, length, slice_index, IfOk, IfErr, OnOk};
ghost use Rattle.pos_relocate.specs.Numbers.{numbers_of, bound_of};

use crate::{push, with_room};
use pos_edge::WorkFault;
use std::alloc::Global;

// Numbers below this have 32 bits.
pub(crate) const SHORT_LIMIT: u64 = 1 << 32;

/// The number of each entry of a table by place, a value or a new place: in 32 bits where all fit, since they are read at random
/// places, and the fewer bytes they have the more of them are near.
#[derive(Drop)]
pub(crate) enum Numbers {
    Short(Vec<u32>),
    Long(Vec<u64>),
}

impl Numbers {
    /// No numbers, with room for so many, each below this limit.
    pub(crate) fn with_room(alloc: Global, count: u64, limit: u64) -> Result<Numbers, WorkFault>
        ensures none { IfOk result (λ numbers. numbers_of numbers ≡ []) }
        ensures bound { IfOk result (λ numbers. limit ≤ bound_of numbers) }
        ensures least { IfOk result (λ numbers. limit ≤ 2 ^ 32 → bound_of numbers ≡ 2 ^ 32) }
        ensures fault { IfErr result (λ fault. fault ≡ WorkFault.Memory) }
    {
        if limit <= SHORT_LIMIT {
            let short = with_room(alloc, count)?;
            return Ok(Numbers::Short(short));
        }
        let long = with_room(alloc, count)?;
        Ok(Numbers::Long(long))
    }

    /// How many numbers there are.
    #[inline(always)]
    pub(crate) fn len(&self) -> u64
        ensures { result ≡ length (numbers_of self.now) }
    {
        match self {
            Numbers::Short(short) => short.len() as u64,
            Numbers::Long(long) => long.len() as u64,
        }
    }

    /// The number at a place.
    #[inline(always)]
    pub(crate) fn at(&self, i: u64) -> u64
        requires { i < length (numbers_of self.now) }
        ensures { result ≡ slice_index (numbers_of self.now) i }
    {
        match self {
            Numbers::Short(short) => u64::from(short[i as usize]),
            Numbers::Long(long) => long[i as usize],
        }
    }

    /// Appends a number; the only error is want of memory.
    #[inline(always)]
    pub(crate) fn push(&mut self, number: u64) -> Result<(), WorkFault>
        requires { number < bound_of self.old }
        ensures ok { OnOk result (numbers_of self.new ≡ numbers_of self.old ++ number ∷ []) }
        ensures bound { OnOk result (bound_of self.new ≡ bound_of self.old) }
        ensures fault { IfErr result (λ fault. fault ≡ WorkFault.Memory) }
    {
        match self {
            Numbers::Short(short) => push(short, number as u32),
            Numbers::Long(long) => push(long, number),
        }
    }
}
