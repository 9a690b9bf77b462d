// Which places of a bucket have a value, and the index of the first value there.
ghost use Rattle.std.specs.Prelude.{◌≡◌, ◌+◌, ◌-◌, ◌<◌, ◌≤◌, ℕ, IfOk, length, slice_index};
ghost use Rattle.std.specs.List.Sorted.{IsNonDecreasing};
ghost use Rattle.pos_buckets.specs.Places.{AreInside, IsClear, IsMarked};

use pos_bits::Memory;
use std::alloc::Global;

const BUCKET_PLACES: usize = 15113;

/// Room for the places of one bucket, which is made once and used for every bucket.
#[derive(Drop)]
pub struct Places {
    pub(crate) marks: Vec<u8>,
    pub(crate) firsts: Vec<usize>,
}

impl Places {
    /// No place has a value. The only error is want of memory.
    pub fn new(alloc: Global) -> Result<Places, Memory>
        ensures { IfOk result IsClear }
    {
        let Ok(marks) = vec![in alloc; 0u8; BUCKET_PLACES] else {
            return Err(Memory);
        };
        let Ok(firsts) = vec![in alloc; 0usize; BUCKET_PLACES] else {
            return Err(Memory);
        };
        Ok(Places { marks, firsts })
    }
}

// Marks the places of these values, which rise, in the bucket that begins at `base`.
pub(crate) fn mark(places: &mut Places, base: u64, values: &[u64])
    requires clear { IsClear places.old }
    requires inside { AreInside base values.now }
    requires rise { IsNonDecreasing values.now }
    ensures { IsMarked base values.now places.new }
{
    for i in 0..values.len() {
        let place = (values[i] - base) as usize;
        if places.marks[place] == 0 {
            places.marks[place] = 1;
            places.firsts[place] = i;
        }
    }
}

// Takes these marks away.
pub(crate) fn unmark(places: &mut Places, base: u64, values: &[u64])
    requires marked { IsMarked base values.now places.old }
    requires inside { AreInside base values.now }
    ensures { IsClear places.new }
{
    for i in 0..values.len() {
        let place = (values[i] - base) as usize;
        places.marks[place] = 0;
    }
}
