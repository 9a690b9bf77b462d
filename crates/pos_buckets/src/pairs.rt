// The matching pairs of two buckets.
ghost use Rattle.std.specs.Prelude.{◌≡◌, ◌+◌, ◌*◌, ◌^◌, ◌<◌, ◌≤◌, ℕ, IfOk, OnOk, length, slice_index};
ghost use Rattle.std.specs.List.Sorted.{IsNonDecreasing};
ghost use Rattle.pos_buckets.specs.Hits.{AreHits};
ghost use Rattle.pos_buckets.specs.Pairs.{AreNeighbours, ArePairs};
ghost use Rattle.pos_buckets.specs.PairsBelow.{AreBeside, ArePairsBelow, IsRun, point};
ghost use Rattle.pos_buckets.specs.Places.{AreFlags, IsClear, IsMarked};
ghost use Rattle.pos_buckets.specs.Targets.{target_place};

use crate::places::{mark, unmark};
use crate::targets::{BUCKET, TARGETS};
use crate::{Places, Targets, push};
use pos_bits::Memory;
use std::alloc::Global;

impl Targets {
    /// The places of each matching pair of a left and a right value, once: by left place, then by m, then by right place.
    ///
    /// All of `left` are in one bucket and all of `right` in the next, and `right` rises. The only error is want of memory.
    pub fn pairs(
        &self,
        alloc: Global,
        left: &[u64],
        right: &[u64],
    ) -> Result<Vec<(u32, u32)>, Memory>
        requires neighbours { AreNeighbours left.now right.now }
        requires rise { IsNonDecreasing right.now }
        requires few_left { length left.now < 2 ^ 32 }
        requires few_right { length right.now < 2 ^ 32 }
        ensures { IfOk result (λ pairs. ArePairs left.now right.now pairs.items) }
    {
        let mut places = Places::new(alloc)?;
        let mut wide = Vec::new(alloc);
        self.list(&mut places, left, right, &mut wide)?;
        narrow(alloc, left, right, &wide)
    }

    /// The same pairs, in place of what `pairs` held, for lists of any length.
    ///
    /// `places` are clear before and after, also where the answer is want of memory, the only error; `pairs` then holds
    /// some of the pairs.
    pub fn list(
        &self,
        places: &mut Places,
        left: &[u64],
        right: &[u64],
        pairs: &mut Vec<(usize, usize)>,
    ) -> Result<(), Memory>
        requires clear { IsClear places.old }
        requires neighbours { AreNeighbours left.now right.now }
        requires rise { IsNonDecreasing right.now }
        ensures pairs { OnOk result (ArePairs left.now right.now pairs.new.items) }
        ensures clear { IsClear places.new }
    {
        pairs.clear();
        if left.is_empty() || right.is_empty() {
            return Ok(());
        }
        let base = right[0] / BUCKET * BUCKET;
        mark(places, base, right);
        let listed = self.list_marked(places, base, left, right, pairs);
        unmark(places, base, right);
        listed
    }

    // The pairs of all left values, where the places of the right values are marked.
    fn list_marked(
        &self,
        places: &Places,
        base: u64,
        left: &[u64],
        right: &[u64],
        pairs: &mut Vec<(usize, usize)>,
    ) -> Result<(), Memory>
        requires beside { AreBeside base left.now right.now }
        requires marked { IsMarked base right.now places.now }
        requires none { ArePairsBelow left.now right.now (point 0 0 0) pairs.old.items }
        ensures { OnOk result (ArePairsBelow left.now right.now (point (length left.now) 0 0) pairs.new.items) }
    {
        for i in 0..left.len() {
            self.list_left(places, base, left, right, i, pairs)?;
        }
        Ok(())
    }

    // The pairs of one left value.
    #[inline]
    fn list_left(
        &self,
        places: &Places,
        base: u64,
        left: &[u64],
        right: &[u64],
        i: usize,
        pairs: &mut Vec<(usize, usize)>,
    ) -> Result<(), Memory>
        requires beside { AreBeside base left.now right.now }
        requires marked { IsMarked base right.now places.now }
        requires inside { i < length left.now }
        requires before { ArePairsBelow left.now right.now (point i 0 0) pairs.old.items }
        ensures { OnOk result (ArePairsBelow left.now right.now (point (i + 1) 0 0) pairs.new.items) }
    {
        let parity = (left[i] / BUCKET % 2) as usize;
        let place = (left[i] % BUCKET) as usize;
        let mut hits = self.marked_targets(places, parity, place);
        while hits != 0 {
            let m = hits.trailing_zeros() as usize;
            hits &= !(1u64 << m);
            let target = self.target(parity, place, m);
            push_run(
                base + target as u64,
                places.firsts[target],
                left,
                right,
                i,
                m,
                pairs,
            )?;
        }
        Ok(())
    }

    // The word whose bit m is the mark of the m-th target. It is made before any pair is listed, so that the 64 tests
    // go without a branch.
    #[inline]
    fn marked_targets(&self, places: &Places, parity: usize, place: usize) -> u64
        requires parity { parity < 2 }
        requires place { place < 15113 }
        requires flags { AreFlags places.now.marks.items }
        ensures { AreHits parity place places.now.marks.items result }
    {
        let mut hits = 0u64;
        for n in 0..TARGETS {
            let target = self.target(parity, place, TARGETS - 1 - n);
            hits = hits * 2 + u64::from(places.marks[target]);
        }
        hits
    }
}

// The pairs of one left value with the right values that are its m-th target, the first of which stands at `first`.
#[inline]
fn push_run(
    target: u64,
    first: usize,
    left: &[u64],
    right: &[u64],
    i: usize,
    m: usize,
    pairs: &mut Vec<(usize, usize)>,
) -> Result<(), Memory>
    requires inside { i < length left.now }
    requires m { m < 64 }
    requires run { IsRun target first m (slice_index left.now i) right.now }
    requires before { ArePairsBelow left.now right.now (point i m 0) pairs.old.items }
    ensures { OnOk result (ArePairsBelow left.now right.now (point i (m + 1) 0) pairs.new.items) }
{
    for j in first..right.len() {
        if right[j] != target {
            return Ok(());
        }
        push(pairs, (i, j))?;
    }
    Ok(())
}

// The same pairs with places of 32 bits.
fn narrow(
    alloc: Global,
    left: &[u64],
    right: &[u64],
    wide: &[(usize, usize)],
) -> Result<Vec<(u32, u32)>, Memory>
    requires pairs { ArePairs left.now right.now wide.now }
    requires few_left { length left.now < 2 ^ 32 }
    requires few_right { length right.now < 2 ^ 32 }
    ensures { IfOk result (λ pairs. pairs.items ≡ wide.now) }
{
    let Ok(mut pairs) = Vec::with_capacity(alloc, wide.len()) else {
        return Err(Memory);
    };
    for pair in wide {
        push(&mut pairs, (pair.0 as u32, pair.1 as u32))?;
    }
    Ok(pairs)
}
