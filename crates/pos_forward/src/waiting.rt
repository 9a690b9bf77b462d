// Matching pairs that wait until there are eight of them.
ghost use Rattle.std.specs.Prelude.{◌≡◌, ℕ, List, ◌+◌, ◌-◌, ◌<◌, ◌≤◌, ◌++◌, ◌∷◌, [], length, All, OnOk};
ghost use Rattle.pos_tuple.specs.declared.entry.Entry.{Entry};
ghost use Rattle.std.specs.Simd.Lanes.{zip2};
ghost use Rattle.pos_tuple.specs.Node.{IsEntry, next_entry};
ghost use Rattle.pos_lanes.specs.Counts.{one_more};
ghost use Rattle.pos_forward.specs.Drafts.{entry_of_place};
ghost use Rattle.pos_forward.specs.Waiting.{AreAllMade, AreMadeOrWait, AreOfTable, HasEight, HasMade, HasOnePairMore, IsFew};
ghost use Rattle.pos_forward.specs.Eights.{CountsEights};

use crate::Drafts;
use crate::entries::draft_from;
use pos_bits::{BitString, Memory};
use pos_lanes::{Lanes, fx8};
use pos_tuple::{Entry, Size, fx};

// So many entries are made at once.
pub(crate) const EIGHT: usize = 8;

/// Fewer than eight matching pairs: their entries and their places in the table.
#[derive(Drop)]
pub(crate) struct Waiting {
    pub(crate) count: usize,
    pub(crate) left: [Entry; 8],
    pub(crate) right: [Entry; 8],
    pub(crate) pairs: [(u64, u64); 8],
}

impl Waiting {
    // No pair waits.
    pub(crate) fn new() -> Waiting
        ensures none { result.count ≡ 0 }
        ensures room { HasEight result }
    {
        let none = Entry {
            y: 0,
            meta: BitString::empty(),
        };
        Waiting {
            count: 0,
            left: [none; 8],
            right: [none; 8],
            pairs: [(0, 0); 8],
        }
    }

    // One pair more. Where there are eight, their entries of table `t` are made.
    #[inline]
    pub(crate) fn add(
        &mut self,
        size: Size,
        t: u8,
        left: &Entry,
        right: &Entry,
        pair: (u64, u64),
        drafts: &mut Drafts,
        lanes: &mut Lanes,
    ) -> Result<(), Memory>
        requires first_table { 2 ≤ t }
        requires last_table { t ≤ 7 }
        requires few { IsFew size t self.old }
        requires left { IsEntry size (t - 1) left.now }
        requires right { IsEntry size (t - 1) right.now }
        ensures few { OnOk result (IsFew size t self.new) }
        ensures gathered { OnOk result ((es : List Entry) (pairs : List (ℕ × ℕ)) → left.now ≡ entry_of_place es pair.0
            → right.now ≡ entry_of_place es pair.1 → AreMadeOrWait size t es pairs self.old drafts.old
            → AreMadeOrWait size t es (pairs ++ pair ∷ []) self.new drafts.new) }
        ensures lanes { OnOk result ((base : ℕ) → CountsEights base lanes.old drafts.old
            → CountsEights base lanes.new drafts.new) }
    {
        self.put(left, right, pair);
        if self.count < EIGHT {
            return Ok(());
        }
        self.make_eight(size, t, drafts, lanes)?;
        Ok(())
    }

    // Puts a pair behind the others.
    #[inline(always)]
    fn put(&mut self, left: &Entry, right: &Entry, pair: (u64, u64))
        requires few { self.old.count < 8 }
        requires room { HasEight self.old }
        ensures { HasOnePairMore left.now right.now pair self.old self.new }
    {
        self.left[self.count] = *left;
        self.right[self.count] = *right;
        self.pairs[self.count] = pair;
        self.count += 1;
    }

    // Makes the entries of eight pairs at once.
    fn make_eight(
        &mut self,
        size: Size,
        t: u8,
        drafts: &mut Drafts,
        lanes: &mut Lanes,
    ) -> Result<(), Memory>
        requires first_table { 2 ≤ t }
        requires last_table { t ≤ 7 }
        requires eight { self.old.count ≡ 8 }
        requires room { HasEight self.old }
        requires fit { AreOfTable size t self.old }
        ensures made { OnOk result (AreAllMade size t self.old self.new drafts.old drafts.new) }
        ensures lanes { lanes.new ≡ one_more lanes.old }
    {
        let made = fx8(size, t, &self.left, &self.right, lanes);
        add_made(size, t, &made, &self.pairs, drafts)?;
        self.count = 0;
        Ok(())
    }

    // Makes the entries of the pairs that are left, fewer than eight.
    pub(crate) fn make_rest(&mut self, size: Size, t: u8, drafts: &mut Drafts) -> Result<(), Memory>
        requires first_table { 2 ≤ t }
        requires last_table { t ≤ 7 }
        requires few { IsFew size t self.old }
        ensures { OnOk result (AreAllMade size t self.old self.new drafts.old drafts.new) }
    {
        let count = self.count;
        make_each(
            size,
            t,
            &self.left[..count],
            &self.right[..count],
            &self.pairs[..count],
            drafts,
        )?;
        self.count = 0;
        Ok(())
    }
}

// Adds the drafts of entries of table `t` that are made of these pairs of places.
fn add_made(
    size: Size,
    t: u8,
    made: &[Entry],
    pairs: &[(u64, u64)],
    drafts: &mut Drafts,
) -> Result<(), Memory>
    requires first_table { 2 ≤ t }
    requires last_table { t ≤ 7 }
    requires as_many { length made.now ≡ length pairs.now }
    requires each { All (IsEntry size t) made.now }
    ensures { OnOk result (HasMade size t made.now pairs.now drafts.old drafts.new) }
{
    for j in 0..made.len() {
        drafts.add(draft_from(size, t, &made[j], pairs[j]))?;
    }
    Ok(())
}

// Makes the entries of table `t` of these pairs one by one.
fn make_each(
    size: Size,
    t: u8,
    left: &[Entry],
    right: &[Entry],
    pairs: &[(u64, u64)],
    drafts: &mut Drafts,
) -> Result<(), Memory>
    requires first_table { 2 ≤ t }
    requires last_table { t ≤ 7 }
    requires as_many { length left.now ≡ length pairs.now }
    requires as_many_right { length right.now ≡ length pairs.now }
    requires left { All (IsEntry size (t - 1)) left.now }
    requires right { All (IsEntry size (t - 1)) right.now }
    ensures { OnOk result (HasMade size t (zip2 (next_entry size t) left.now right.now) pairs.now drafts.old drafts.new) }
{
    for j in 0..pairs.len() {
        let made = fx(size, t, &left[j], &right[j]);
        drafts.add(draft_from(size, t, &made, pairs[j]))?;
    }
    Ok(())
}
