// The entries of a table while it is gathered.
ghost use Rattle.std.specs.Prelude.{◌≡◌, ◌↔◌, ℕ, List, ◌+◌, ◌<◌, ◌≤◌, ◌++◌, ◌∷◌, [], IsTrue, length, map, slice_get, Some, OnOk, AllPairs};
ghost use Rattle.std.specs.List.Sorted.{IsPermutation};
ghost use Rattle.pos_tuple.specs.declared.entry.Entry.{Entry};
ghost use Rattle.pos_forward.specs.Keeping.{IsShort, whole_draft};
ghost use Rattle.pos_forward.specs.Tables.{AreUnsorted, IsSortedTable};

use crate::push;
use pos_bits::Memory;
use std::alloc::Global;
use std::marker::Model;

/// An entry of a table from 2 to 7 while the table is gathered: its y, its metadata as a number, of which `low` has the
/// last 128 bits and `high` those before, and the places of the two entries that it is made of.
#[derive(Clone, Copy, Debug, PartialEq, Eq)]
pub struct Draft {
    pub y: u64,
    pub high: u128,
    pub low: u128,
    pub left: u64,
    pub right: u64,
}

// A draft in half the room: one with no high metadata, whose y has 62 bits at most and whose places have 33, as every one
// has of sizes up to 32. A sort moves whole rows, and takes as long as these are large.
#[derive(Clone, Copy)]
pub(crate) struct ShortDraft {
    pub(crate) low: u128,
    // y, then the left and the right place: in the order of these numbers y rises.
    pub(crate) key: u128,
}

/// The entries of one table while it is gathered. Contracts see their list. It is kept from table to table, so that no
/// memory is taken anew.
#[derive(Drop)]
pub struct Drafts {
    // They are kept as short ones as long as all are short, and as whole ones from then on.
    short: Vec<ShortDraft>,
    whole: Vec<Draft>,
}

impl Model for Drafts {
    ghost use Rattle.std.specs.Prelude.{List};
    ghost use Rattle.pos_forward.specs.declared.drafts.Draft.{Draft};
    ghost use Rattle.pos_forward.specs.Keeping.{kept_drafts};

    ghost Value = { List Draft };

    ghost view = { λ d. kept_drafts d.short.items d.whole.items };
}

impl Drafts {
    /// No drafts.
    pub fn new(alloc: Global) -> Drafts
        ensures { result ≡ [] }
    {
        Drafts {
            short: Vec::new(alloc),
            whole: Vec::new(alloc),
        }
    }

    /// Gives all drafts up, and keeps the memory.
    pub fn clear(&mut self)
        ensures { self.new ≡ [] }
    {
        self.short.clear();
        self.whole.clear();
    }

    /// How many drafts there are.
    #[inline]
    pub fn len(&self) -> usize
        ensures { result ≡ length self.now }
    {
        if self.whole.is_empty() {
            self.short.len()
        } else {
            self.whole.len()
        }
    }

    /// The draft at a place.
    #[inline]
    pub fn get(&self, i: usize) -> Draft
        requires { i < length self.now }
        ensures { slice_get self.now i ≡ Some result }
    {
        if self.whole.is_empty() {
            whole_of(&self.short[i])
        } else {
            self.whole[i]
        }
    }

    /// Orders the drafts by y, equal ones in any order. Takes no memory.
    ///
    /// Where they are the entries of all matching pairs of a table, they are then the next table.
    pub fn sort(&mut self)
        ensures permutation { IsPermutation self.old self.new }
        ensures rise { AllPairs (λ a b. a.y ≤ b.y) self.new }
        ensures table { (k n : ℕ) (es : List Entry) → AreUnsorted k (n + 2) es self.old
            → IsSortedTable k n es self.new }
    {
        if self.whole.is_empty() {
            self.short
                .sort_unstable_by_key(|row: &ShortDraft| (row.key >> 64) as u64);
        } else {
            self.whole.sort_unstable_by_key(|row: &Draft| row.y);
        }
    }

    // One draft more. The only error is want of memory.
    #[inline(always)]
    pub(crate) fn add(&mut self, draft: Draft) -> Result<(), Memory>
        ensures { OnOk result (self.new ≡ self.old ++ draft ∷ []) }
    {
        if self.whole.is_empty() && is_short(&draft) {
            return push(&mut self.short, short_of(&draft));
        }
        self.add_whole(draft)
    }

    // One draft more, where the drafts are not all short ones.
    fn add_whole(&mut self, draft: Draft) -> Result<(), Memory>
        ensures { OnOk result (self.new ≡ self.old ++ draft ∷ []) }
    {
        if self.whole.is_empty() {
            push_whole(self.short.as_slice(), &mut self.whole)?;
        }
        push(&mut self.whole, draft)
    }
}

// Puts these drafts behind the others.
fn push_whole(rows: &[ShortDraft], whole: &mut Vec<Draft>) -> Result<(), Memory>
    ensures { OnOk result (whole.new.items ≡ whole.old.items ++ map whole_draft rows.now) }
{
    for i in 0..rows.len() {
        let row = &rows[i];
        push(whole, whole_of(row))?;
    }
    Ok(())
}

// Whether a draft can be kept as a short one.
#[inline(always)]
fn is_short(draft: &Draft) -> bool
    ensures { IsTrue result ↔ IsShort draft.now }
{
    draft.high == 0 && draft.y < 1 << 62 && draft.left < 1 << 33 && draft.right < 1 << 33
}

// The short form of a draft.
#[inline(always)]
fn short_of(draft: &Draft) -> ShortDraft
    requires { IsShort draft.now }
    ensures { whole_draft result ≡ draft.now }
{
    ShortDraft {
        low: draft.low,
        key: ((draft.y as u128) << 66) + ((draft.left as u128) << 33) + draft.right as u128,
    }
}

// The draft of a short form.
#[inline(always)]
fn whole_of(row: &ShortDraft) -> Draft
    ensures { result ≡ whole_draft row.now }
{
    Draft {
        y: (row.key >> 66) as u64,
        high: 0,
        low: row.low,
        left: ((row.key >> 33) % (1 << 33)) as u64,
        right: (row.key % (1 << 33)) as u64,
    }
}
