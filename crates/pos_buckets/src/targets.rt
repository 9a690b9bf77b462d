// The targets of left values, as sums of two small tables.
ghost use Rattle.std.specs.Prelude.{◌≡◌, ◌+◌, ◌*◌, ◌/◌, ◌%◌, ◌<◌, ◌≤◌, ℕ, IfOk, length, slice_index};
ghost use Rattle.pos_buckets.specs.Targets.{AreHighs, AreLows, AreTargets, target_place};

use crate::push;
use pos_bits::Memory;
use std::alloc::Global;

// The parameters of the rule: a bucket has B * C values, and a left value has this many targets.
const B: usize = 119;

const C: usize = 127;

pub(crate) const BUCKET: u64 = 15113;

pub(crate) const TARGETS: usize = 64;

const HIGHS: usize = B + TARGETS - 1;

const LOWS: usize = 2 * C * TARGETS;

/// The targets of every left value, in 33 KB.
///
/// A target's place in its bucket is a multiple of 127, which the place of the left value chooses by its quotient, and
/// a rest, which its remainder and the parity of its bucket choose.
#[derive(Drop)]
pub struct Targets {
    highs: Vec<u16>,
    lows: Vec<u16>,
    ghost made: { AreTargets highs.items lows.items },
}

impl Targets {
    /// The targets. The only error is want of memory.
    pub fn new(alloc: Global) -> Result<Targets, Memory> {
        let highs = high_parts(alloc)?;
        let lows = low_parts(alloc)?;
        Ok(Targets { highs, lows })
    }

    // The place in the next bucket of the m-th target of a left value, by its place and the parity of its bucket.
    #[inline(always)]
    pub(crate) fn target(&self, parity: usize, place: usize, m: usize) -> usize
        requires parity { parity < 2 }
        requires place { place < 15113 }
        requires m { m < 64 }
        ensures value { result ≡ target_place parity place m }
        ensures below { result < 15113 }
    {
        let high = self.highs[place / C + m];
        let low = self.lows[(parity * C + place % C) * TARGETS + m];
        usize::from(high) + usize::from(low)
    }
}

// The multiples of 127 that quotients choose.
fn high_parts(alloc: Global) -> Result<Vec<u16>, Memory>
    ensures { IfOk result (λ v. AreHighs v.items) }
{
    let Ok(mut highs) = Vec::with_capacity(alloc, HIGHS) else {
        return Err(Memory);
    };
    for i in 0..HIGHS {
        push(&mut highs, (i % B * C) as u16)?;
    }
    Ok(highs)
}

// The rests that parities, remainders and m choose.
fn low_parts(alloc: Global) -> Result<Vec<u16>, Memory>
    ensures { IfOk result (λ v. AreLows v.items) }
{
    let Ok(mut lows) = Vec::with_capacity(alloc, LOWS) else {
        return Err(Memory);
    };
    for i in 0..LOWS {
        let line = i / TARGETS;
        let root = 2 * (i % TARGETS) + line / C;
        push(&mut lows, ((root * root + line % C) % C) as u16)?;
    }
    Ok(lows)
}
