// The matching pairs of a table whose entries are taken one after another.
ghost use Rattle.std.specs.Prelude.{◌≡◌, ℕ, List, ◌+◌, ◌-◌, ◌^◌, ◌<◌, ◌≤◌, ◌++◌, ◌∷◌, [], length, map, All, IfErr, IfOk, OnOk, IsErrOf};
ghost use Rattle.pos_tuple.specs.declared.entry.Entry.{Entry};
ghost use Rattle.pos_tuple.specs.Match.{bucket};
ghost use Rattle.pos_tuple.specs.Node.{IsEntry};
ghost use Rattle.pos_forward.specs.Eights.{CountsEights};
ghost use Rattle.pos_forward.specs.Waiting.{AreMadeOrWait, IsFew, StandsIn, shifted};
ghost use Rattle.pos_forward.specs.Matched.{HasPairsTo, HasTurned, IsMatched, IsReady, MayTake, MayFinish, IsOverfull};
ghost use Rattle.pos_forward.specs.Tables.{AreUnsorted};

use crate::Drafts;
use crate::buckets::Bucket;
use crate::waiting::Waiting;
use pos_bits::Memory;
use pos_buckets::{Places, Targets};
use pos_lanes::Lanes;
use pos_tuple::{Entry, Size};
use std::alloc::Global;

// A bucket has so many values.
const BUCKET: u64 = 15113;

/// Why a table could not be made.
#[derive(Clone, Copy, Debug, PartialEq, Eq)]
pub enum MatchFault {
    /// It would have more entries than the capacity.
    Full,
    /// There was no memory.
    Memory,
}

impl From<Memory> for MatchFault {
    ghost use Rattle.std.specs.Prelude.{◌≡◌};
    ghost use Rattle.pos_forward.specs.declared.matcher.MatchFault.TheVariants.{Memory as no_memory};

    ghost from_gives = { λ _ fault. fault ≡ no_memory };

    fn from(_: Memory) -> MatchFault {
        MatchFault::Memory
    }
}

/// Takes the entries of a table one after another, in the order of y, and makes the entry of the next table for each
/// matching pair of them. It keeps the last two buckets, and fewer than eight pairs whose entries are not made yet.
///
/// It is made once and used for every table. After a refusal nothing is known of it.
#[derive(Drop)]
pub struct Matcher {
    pub(crate) targets: Targets,
    pub(crate) places: Places,
    pub(crate) pairs: Vec<(usize, usize)>,
    pub(crate) left: Bucket,
    pub(crate) right: Bucket,
    pub(crate) waiting: Waiting,
}

impl Matcher {
    /// Ready for the first table. The only error is want of memory.
    pub fn new(alloc: Global) -> Result<Matcher, Memory>
        ensures { IfOk result IsReady }
    {
        Ok(Matcher {
            targets: Targets::new(alloc)?,
            places: Places::new(alloc)?,
            pairs: Vec::new(alloc),
            left: Bucket::new(alloc),
            right: Bucket::new(alloc),
            waiting: Waiting::new(),
        })
    }

    /// Takes the next entry of table `t` - 1, whose y is not below those before; the table to be made is `t`, from 2 to 7.
    /// What `drafts` had stays, and the entries of table `t` that are made come behind it.
    ///
    /// `Full` where the matching pairs so far are more than `capacity`; they are counted after each pair of buckets.
    #[inline]
    pub fn take(
        &mut self,
        size: Size,
        t: u8,
        capacity: u64,
        entry: &Entry,
        drafts: &mut Drafts,
        lanes: &mut Lanes,
    ) -> Result<(), MatchFault>
        requires first_table { 2 ≤ t }
        requires last_table { t ≤ 7 }
        requires next { MayTake size t entry.now self.old drafts.old }
        ensures taken { OnOk result ((es : List Entry) → IsMatched size t es self.old drafts.old
            → All (λ e. e.y ≤ entry.now.y) es
            → IsMatched size t (es ++ entry.now ∷ []) self.new drafts.new) }
        ensures full { IsErrOf result MatchFault.Full → (es : List Entry)
            → IsMatched size t es self.old drafts.old → IsOverfull capacity es }
        ensures lanes { OnOk result ((base : ℕ) → CountsEights base lanes.old drafts.old
            → CountsEights base lanes.new drafts.new) }
    {
        self.make_way(size, t, capacity, entry.y, drafts, lanes)?;
        self.right.add(entry)?;
        Ok(())
    }

    /// Makes what is left, where all entries of table `t` - 1 were taken: `drafts` are then the entries of table `t`, in
    /// no order, at most `capacity` of them. The matcher is ready for the next table.
    ///
    /// `Full` where there are more than `capacity` matching pairs.
    pub fn finish(
        &mut self,
        size: Size,
        t: u8,
        capacity: u64,
        drafts: &mut Drafts,
        lanes: &mut Lanes,
    ) -> Result<(), MatchFault>
        requires first_table { 2 ≤ t }
        requires last_table { t ≤ 7 }
        requires taken { MayFinish size t self.old drafts.old }
        ensures made { OnOk result ((es : List Entry) → IsMatched size t es self.old drafts.old
            → AreUnsorted size t es drafts.new) }
        ensures within { OnOk result (length drafts.new ≤ capacity) }
        ensures ready { OnOk result (IsReady self.new) }
        ensures full { IsErrOf result MatchFault.Full → (es : List Entry)
            → IsMatched size t es self.old drafts.old → IsOverfull capacity es }
        ensures lanes { OnOk result ((base : ℕ) → CountsEights base lanes.old drafts.old
            → CountsEights base lanes.new drafts.new) }
    {
        let next = self.right.next + 1;
        self.close(size, t, capacity, next, drafts, lanes)?;
        self.waiting.make_rest(size, t, drafts)?;
        self.left.begin(0, 0);
        self.right.begin(0, 0);
        Ok(())
    }

    // Begins a bucket where a value is not in the right one.
    #[inline]
    fn make_way(
        &mut self,
        size: Size,
        t: u8,
        capacity: u64,
        y: u64,
        drafts: &mut Drafts,
        lanes: &mut Lanes,
    ) -> Result<(), MatchFault>
        requires first_table { 2 ≤ t }
        requires last_table { t ≤ 7 }
        requires taken { MayFinish size t self.old drafts.old }
        ensures ready { OnOk result ((es : List Entry) → IsMatched size t es self.old drafts.old
            → All (λ e. e.y ≤ y) es → HasPairsTo size t es self.new.right.first self.new drafts.new
            × (bucket y + 1 ≡ self.new.right.next)) }
        ensures small { OnOk result (self.new.right.next < 2 ^ 59) }
        ensures full { IsErrOf result MatchFault.Full → (es : List Entry)
            → IsMatched size t es self.old drafts.old → IsOverfull capacity es }
        ensures lanes { OnOk result ((base : ℕ) → CountsEights base lanes.old drafts.old
            → CountsEights base lanes.new drafts.new) }
    {
        let number = y / BUCKET;
        if number < self.right.next {
            return Ok(());
        }
        self.close(size, t, capacity, number + 1, drafts, lanes)?;
        Ok(())
    }

    // Makes the entries of the matching pairs of the two buckets. The right bucket becomes the left one, and the right one
    // has no entries yet, and is the one before `next`.
    fn close(
        &mut self,
        size: Size,
        t: u8,
        capacity: u64,
        next: u64,
        drafts: &mut Drafts,
        lanes: &mut Lanes,
    ) -> Result<(), MatchFault>
        requires first_table { 2 ≤ t }
        requires last_table { t ≤ 7 }
        requires taken { MayFinish size t self.old drafts.old }
        requires behind { self.old.right.next < next }
        requires small { next < 2 ^ 60 }
        ensures closed { OnOk result ((es : List Entry) → IsMatched size t es self.old drafts.old
            → HasPairsTo size t es self.new.right.first self.new drafts.new) }
        ensures empty { OnOk result (self.new.right.entries.items ≡ []) }
        ensures next { OnOk result (self.new.right.next ≡ next) }
        ensures within { OnOk result (length drafts.new + self.new.waiting.count ≤ capacity) }
        ensures full { IsErrOf result MatchFault.Full → (es : List Entry)
            → IsMatched size t es self.old drafts.old → IsOverfull capacity es }
        ensures lanes { OnOk result ((base : ℕ) → CountsEights base lanes.old drafts.old
            → CountsEights base lanes.new drafts.new) }
    {
        self.join(size, t, drafts, lanes)?;
        self.test_room(capacity, drafts)?;
        self.turn(next);
        Ok(())
    }

    // Refuses where more pairs are made or wait than the capacity.
    #[inline(always)]
    fn test_room(&self, capacity: u64, drafts: &Drafts) -> Result<(), MatchFault>
        requires few { self.now.waiting.count < 8 }
        ensures within { OnOk result (length drafts.now + self.now.waiting.count ≤ capacity) }
        ensures full { IfErr result (λ _. capacity < length drafts.now + self.now.waiting.count) }
    {
        let made = drafts.len() as u64;
        if made > capacity || (self.waiting.count as u64) > capacity - made {
            return Err(MatchFault::Full);
        }
        Ok(())
    }

    // The right bucket becomes the left one, and the right one has no entries yet, and is the one before `next`.
    fn turn(&mut self, next: u64)
        requires behind { self.old.right.next < next }
        requires small { next < 2 ^ 60 }
        requires room { self.old.right.first + length self.old.right.entries.items < 2 ^ 60 }
        ensures { HasTurned next self.old self.new }
    {
        let first = self.right.first + self.right.entries.len() as u64;
        std::mem::swap(&mut self.left, &mut self.right);
        self.right.begin(first, next);
    }

    // Makes the entries of the matching pairs of the two buckets, where they are neighbours.
    fn join(
        &mut self,
        size: Size,
        t: u8,
        drafts: &mut Drafts,
        lanes: &mut Lanes,
    ) -> Result<(), Memory>
        requires first_table { 2 ≤ t }
        requires last_table { t ≤ 7 }
        requires taken { MayFinish size t self.old drafts.old }
        ensures joined { OnOk result ((es : List Entry) → IsMatched size t es self.old drafts.old
            → HasPairsTo size t es (length es) self.new drafts.new) }
        ensures next { OnOk result (self.new.right.next ≡ self.old.right.next) }
        ensures lanes { OnOk result ((base : ℕ) → CountsEights base lanes.old drafts.old
            → CountsEights base lanes.new drafts.new) }
    {
        if self.left.next + 1 != self.right.next {
            return Ok(());
        }
        self.targets.list(
            &mut self.places,
            self.left.ys.as_slice(),
            self.right.ys.as_slice(),
            &mut self.pairs,
        )?;
        gather(
            size,
            t,
            &self.left,
            &self.right,
            self.pairs.as_slice(),
            &mut self.waiting,
            drafts,
            lanes,
        )?;
        Ok(())
    }
}

// Makes the entries of these pairs of places in two buckets.
fn gather(
    size: Size,
    t: u8,
    left: &Bucket,
    right: &Bucket,
    pairs: &[(usize, usize)],
    waiting: &mut Waiting,
    drafts: &mut Drafts,
    lanes: &mut Lanes,
) -> Result<(), Memory>
    requires first_table { 2 ≤ t }
    requires last_table { t ≤ 7 }
    requires few { IsFew size t waiting.old }
    requires left_entries { All (IsEntry size (t - 1)) left.now.entries.items }
    requires right_entries { All (IsEntry size (t - 1)) right.now.entries.items }
    requires left_places { left.now.first + length left.now.entries.items < 2 ^ 60 }
    requires right_places { right.now.first + length right.now.entries.items < 2 ^ 60 }
    requires inside { All (λ p. (p.0 < length left.now.entries.items) × (p.1 < length right.now.entries.items)) pairs.now }
    ensures few { OnOk result (IsFew size t waiting.new) }
    ensures gathered { OnOk result ((es : List Entry) (done : List (ℕ × ℕ)) → StandsIn es left.now → StandsIn es right.now
        → AreMadeOrWait size t es done waiting.old drafts.old
        → AreMadeOrWait size t es (done ++ map (shifted left.now.first right.now.first) pairs.now) waiting.new drafts.new) }
    ensures lanes { OnOk result ((base : ℕ) → CountsEights base lanes.old drafts.old
        → CountsEights base lanes.new drafts.new) }
{
    for pair in pairs {
        waiting.add(
            size,
            t,
            &left.entries[pair.0],
            &right.entries[pair.1],
            (left.first + pair.0 as u64, right.first + pair.1 as u64),
            drafts,
            lanes,
        )?;
    }
    Ok(())
}
