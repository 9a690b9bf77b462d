// The tables of a plotting run, on pages.
ghost use Rattle.std.specs.Prelude.{◌≡◌, [], ◌∷◌, slice_set, ◌+◌, ◌-◌, ◌/◌, ◌%◌, ◌^◌, ◌<◌, ◌≤◌, ℕ, true, length, slice_get, IfOk, IfErr, OnOk, OnErr};
ghost use Rattle.pos_edge.specs.Faults.{Rose};
ghost use Rattle.pos_edge.specs.Frame.{SameFaults};
ghost use Rattle.pos_lists.specs.TableLists.{TableLists, entries, pairs_of};
ghost use Rattle.pos_record.specs.Fields.{IsRecordSize};
ghost use Rattle.pos_record.specs.Kinds.{number_width, pair_width};
ghost use Rattle.pos_runs.specs.Pages.{ListStands, per_page};
ghost use Rattle.pos_runs.specs.Lists.{IsListRead, reads_after};
ghost use Rattle.pos_runs.specs.Runs.{TablesState, pages_at, StandsSealed, TablesStand};

use crate::Ordered;
use pos_edge::{Disk, WorkFault};
use pos_record::{Number, Pair, Value};
use std::marker::Model;

/// The tables of a plotting run: the values of table 1, the pairs of places of tables 2 to 7, each in the table below,
/// and the y of table 7. Contracts see the eight lists; the plain lists that they stand for are said of them and the
/// disk by `TablesStand`. No call takes memory.
#[derive(Drop)]
pub struct Tables<const K: u32> {
    values: Ordered<Value, K>,
    p2: Ordered<Pair, K>,
    p3: Ordered<Pair, K>,
    p4: Ordered<Pair, K>,
    p5: Ordered<Pair, K>,
    p6: Ordered<Pair, K>,
    p7: Ordered<Pair, K>,
    last: Ordered<Number, K>,
}

impl<const K: u32> Model for Tables<K> {
    ghost use Rattle.std.specs.Prelude.{[], ◌∷◌};
    ghost use Rattle.pos_runs.specs.Runs.{TablesState};

    ghost Value = { TablesState };

    ghost view = { λ t. t.values ∷ t.p2 ∷ t.p3 ∷ t.p4 ∷ t.p5 ∷ t.p6 ∷ t.p7 ∷ t.last ∷ [] };
}

impl<const K: u32> Tables<K> {
    /// These lists as tables. A number of `last` is a y.
    pub fn new(
        values: Ordered<Value, K>,
        p2: Ordered<Pair, K>,
        p3: Ordered<Pair, K>,
        p4: Ordered<Pair, K>,
        p5: Ordered<Pair, K>,
        p6: Ordered<Pair, K>,
        p7: Ordered<Pair, K>,
        last: Ordered<Number, K>,
    ) -> Tables<K>
        ensures { result ≡ values.entry ∷ p2.entry ∷ p3.entry ∷ p4.entry ∷ p5.entry ∷ p6.entry ∷ p7.entry ∷ last.entry ∷ [] }
    {
        Tables {
            values,
            p2,
            p3,
            p4,
            p5,
            p6,
            p7,
            last,
        }
    }

    /// How many entries table t has.
    pub fn count(&self, t: u8) -> u64
        requires first { 1 ≤ t }
        requires last { t ≤ 7 }
        ensures { result ≡ (pages_at self.now (t - 1)).count }
    {
        match t {
            1 => self.values.len(),
            2 => self.p2.len(),
            3 => self.p3.len(),
            4 => self.p4.len(),
            5 => self.p5.len(),
            6 => self.p6.len(),
            _ => self.p7.len(),
        }
    }

    /// The number in the name of a scratch file: that of the values for 1, of table t's pairs for 2 to 7, of the y for 8.
    pub fn file(&self, t: u8) -> u32
        requires first { 1 ≤ t }
        requires last { t ≤ 8 }
        ensures { result ≡ (pages_at self.now (t - 1)).number }
    {
        match t {
            1 => self.values.file(),
            2 => self.p2.file(),
            3 => self.p3.file(),
            4 => self.p4.file(),
            5 => self.p5.file(),
            6 => self.p6.file(),
            7 => self.p7.file(),
            _ => self.last.file(),
        }
    }

    /// Value i of table 1.
    pub fn value<D: Disk>(&mut self, disk: &mut D, i: u64) -> Result<u64, WorkFault>
        requires size { IsRecordSize K }
        requires stands { StandsSealed K (pages_at self.old 0) (D.view disk.old) }
        requires there { i < (pages_at self.old 0).count }
        ensures read { IsListRead (pages_at self.old 0) (pages_at self.new 0) (D.view disk.old) (D.view disk.new) }
        ensures others { self.new ≡ slice_set self.old 0 (pages_at self.new 0) }
        ensures reads { (D.view disk.new).reads ≡ reads_after K i (pages_at self.old 0) (D.view disk.old) }
        ensures stands { OnOk result ((ts : TableLists) → TablesStand K self.old ts (D.view disk.old)
            → TablesStand K self.new ts (D.view disk.new)) }
        ensures value { IfOk result (λ x. (ts : TableLists) → TablesStand K self.old ts (D.view disk.old)
            → (D.view disk.old).tells ≡ true → slice_get ts.values i ≡ Some x) }
        ensures fits { IfOk result (λ x. x < 2 ^ K) }
        ensures failed { OnErr result (Rose (D.view disk.old).faults (D.view disk.new).faults) }
        ensures quiet { OnOk result (SameFaults (D.view disk.old) (D.view disk.new)) }
        ensures fault { IfErr result (λ fault. fault ≡ WorkFault.DiskFailed) }
    {
        let found = self.values.get(disk, i)?;
        Ok(found.x)
    }

    /// Pair i of table t: the left and the right place in the table below.
    #[inline(always)]
    pub fn pair<D: Disk>(&mut self, disk: &mut D, t: u8, i: u64) -> Result<(u64, u64), WorkFault>
        requires size { IsRecordSize K }
        requires first { 2 ≤ t }
        requires last { t ≤ 7 }
        requires stands { StandsSealed (pair_width K) (pages_at self.old (t - 1)) (D.view disk.old) }
        requires there { i < (pages_at self.old (t - 1)).count }
        ensures read { IsListRead (pages_at self.old (t - 1)) (pages_at self.new (t - 1)) (D.view disk.old) (D.view disk.new) }
        ensures others { self.new ≡ slice_set self.old (t - 1) (pages_at self.new (t - 1)) }
        ensures reads { (D.view disk.new).reads ≡ reads_after (pair_width K) i (pages_at self.old (t - 1)) (D.view disk.old) }
        ensures stands { OnOk result ((ts : TableLists) → TablesStand K self.old ts (D.view disk.old)
            → TablesStand K self.new ts (D.view disk.new)) }
        ensures value { IfOk result (λ pair. (ts : TableLists) → TablesStand K self.old ts (D.view disk.old)
            → (D.view disk.old).tells ≡ true → slice_get (pairs_of ts (t - 1)) i ≡ Some pair) }
        ensures fits { IfOk result (λ pair. (pair.0 < 2 ^ (K + 1)) × (pair.1 < 2 ^ (K + 1))) }
        ensures failed { OnErr result (Rose (D.view disk.old).faults (D.view disk.new).faults) }
        ensures quiet { OnOk result (SameFaults (D.view disk.old) (D.view disk.new)) }
        ensures fault { IfErr result (λ fault. fault ≡ WorkFault.DiskFailed) }
    {
        self.reach_pair(disk, t, i)?;
        let found = self.pairs(t).here(i);
        Ok((found.left, found.right))
    }

    // The list of the pairs of table t.
    #[inline(always)]
    fn pairs(&self, t: u8) -> &Ordered<Pair, K>
        requires first { 2 ≤ t }
        requires last { t ≤ 7 }
        ensures { result.now ≡ pages_at self.now (t - 1) }
    {
        match t {
            2 => &self.p2,
            3 => &self.p3,
            4 => &self.p4,
            5 => &self.p5,
            6 => &self.p6,
            _ => &self.p7,
        }
    }

    // Brings the page of pair i of table t into memory where it is not there. In the order of places it nearly always is: only the
    // test stands where a pair is asked for.
    #[inline(always)]
    fn reach_pair<D: Disk>(&mut self, disk: &mut D, t: u8, i: u64) -> Result<(), WorkFault>
        requires size { IsRecordSize K }
        requires first { 2 ≤ t }
        requires last { t ≤ 7 }
        requires stands { StandsSealed (pair_width K) (pages_at self.old (t - 1)) (D.view disk.old) }
        requires there { i < (pages_at self.old (t - 1)).count }
        ensures read { IsListRead (pages_at self.old (t - 1)) (pages_at self.new (t - 1)) (D.view disk.old) (D.view disk.new) }
        ensures others { self.new ≡ slice_set self.old (t - 1) (pages_at self.new (t - 1)) }
        ensures reads { (D.view disk.new).reads ≡ reads_after (pair_width K) i (pages_at self.old (t - 1)) (D.view disk.old) }
        ensures page { OnOk result ((pages_at self.new (t - 1)).page ≡ i / per_page (pair_width K)) }
        ensures long { OnOk result (length (pages_at self.new (t - 1)).bytes ≡ 65536) }
        ensures stands { OnOk result ((ts : TableLists) → TablesStand K self.old ts (D.view disk.old)
            → TablesStand K self.new ts (D.view disk.new)) }
        ensures failed { OnErr result (Rose (D.view disk.old).faults (D.view disk.new).faults) }
        ensures quiet { OnOk result (SameFaults (D.view disk.old) (D.view disk.new)) }
        ensures fault { IfErr result (λ fault. fault ≡ WorkFault.DiskFailed) }
    {
        if self.pairs(t).is_here(i) {
            return Ok(());
        }
        self.bring_pair(disk, t, i)?;
        Ok(())
    }

    // As `reach_pair`, of a page that is not there.
    #[cold]
    #[inline(never)]
    fn bring_pair<D: Disk>(&mut self, disk: &mut D, t: u8, i: u64) -> Result<(), WorkFault>
        requires size { IsRecordSize K }
        requires first { 2 ≤ t }
        requires last { t ≤ 7 }
        requires stands { StandsSealed (pair_width K) (pages_at self.old (t - 1)) (D.view disk.old) }
        requires there { i < (pages_at self.old (t - 1)).count }
        ensures read { IsListRead (pages_at self.old (t - 1)) (pages_at self.new (t - 1)) (D.view disk.old) (D.view disk.new) }
        ensures others { self.new ≡ slice_set self.old (t - 1) (pages_at self.new (t - 1)) }
        ensures reads { (D.view disk.new).reads ≡ reads_after (pair_width K) i (pages_at self.old (t - 1)) (D.view disk.old) }
        ensures page { OnOk result ((pages_at self.new (t - 1)).page ≡ i / per_page (pair_width K)) }
        ensures long { OnOk result (length (pages_at self.new (t - 1)).bytes ≡ 65536) }
        ensures stands { OnOk result ((ts : TableLists) → TablesStand K self.old ts (D.view disk.old)
            → TablesStand K self.new ts (D.view disk.new)) }
        ensures failed { OnErr result (Rose (D.view disk.old).faults (D.view disk.new).faults) }
        ensures quiet { OnOk result (SameFaults (D.view disk.old) (D.view disk.new)) }
        ensures fault { IfErr result (λ fault. fault ≡ WorkFault.DiskFailed) }
    {
        match t {
            2 => self.p2.reach(disk, i)?,
            3 => self.p3.reach(disk, i)?,
            4 => self.p4.reach(disk, i)?,
            5 => self.p5.reach(disk, i)?,
            6 => self.p6.reach(disk, i)?,
            7 => self.p7.reach(disk, i)?,
            _ => unreachable!(),
        }
        Ok(())
    }

    /// The y of entry i of table 7: the low 64 bits of the number, which is the whole number where it is below 2^(K + 6).
    pub fn last<D: Disk>(&mut self, disk: &mut D, i: u64) -> Result<u64, WorkFault>
        requires size { IsRecordSize K }
        requires stands { StandsSealed (number_width K) (pages_at self.old 7) (D.view disk.old) }
        requires there { i < (pages_at self.old 7).count }
        ensures read { IsListRead (pages_at self.old 7) (pages_at self.new 7) (D.view disk.old) (D.view disk.new) }
        ensures others { self.new ≡ slice_set self.old 7 (pages_at self.new 7) }
        ensures reads { (D.view disk.new).reads ≡ reads_after (number_width K) i (pages_at self.old 7) (D.view disk.old) }
        ensures stands { OnOk result ((ts : TableLists) → TablesStand K self.old ts (D.view disk.old)
            → TablesStand K self.new ts (D.view disk.new)) }
        ensures value { IfOk result (λ y. (ts : TableLists) → TablesStand K self.old ts (D.view disk.old)
            → (D.view disk.old).tells ≡ true → (number : ℕ) × (slice_get ts.last i ≡ Some number) × (y ≡ number % 2 ^ 64)) }
        ensures failed { OnErr result (Rose (D.view disk.old).faults (D.view disk.new).faults) }
        ensures quiet { OnOk result (SameFaults (D.view disk.old) (D.view disk.new)) }
        ensures fault { IfErr result (λ fault. fault ≡ WorkFault.DiskFailed) }
    {
        let found = self.last.get(disk, i)?;
        Ok((found.number & 0xffff_ffff_ffff_ffff) as u64)
    }
}
