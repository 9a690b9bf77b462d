// The entries of one bucket of a table, beside their y.
ghost use Rattle.std.specs.Prelude.{◌≡◌, ◌+◌, ◌++◌, ◌∷◌, [], OnOk};
ghost use Rattle.pos_forward.specs.Waiting.{HasOneEntryMore, IsEmptyBucket};

use crate::push;
use pos_bits::Memory;
use pos_tuple::Entry;
use std::alloc::Global;

/// Entries that follow one another in a table, all of one bucket: the number of the bucket behind theirs, the place of
/// the first of them, and each one's y and entry.
#[derive(Drop)]
pub(crate) struct Bucket {
    pub(crate) next: u64,
    pub(crate) first: u64,
    pub(crate) ys: Vec<u64>,
    pub(crate) entries: Vec<Entry>,
}

impl Bucket {
    // No entries.
    pub(crate) fn new(alloc: Global) -> Bucket
        ensures { IsEmptyBucket 0 0 result }
    {
        Bucket {
            next: 0,
            first: 0,
            ys: Vec::new(alloc),
            entries: Vec::new(alloc),
        }
    }

    // Gives the entries up; those to come begin at this place and are in the bucket before `next`.
    pub(crate) fn begin(&mut self, first: u64, next: u64)
        ensures { IsEmptyBucket first next self.new }
    {
        self.next = next;
        self.first = first;
        self.ys.clear();
        self.entries.clear();
    }

    // One entry more.
    #[inline(always)]
    pub(crate) fn add(&mut self, entry: &Entry) -> Result<(), Memory>
        ensures { OnOk result (HasOneEntryMore entry.now self.old self.new) }
    {
        push(&mut self.ys, entry.y)?;
        push(&mut self.entries, *entry)?;
        Ok(())
    }
}
