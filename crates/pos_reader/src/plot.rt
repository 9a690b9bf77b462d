//! An open plot file.
ghost use Rattle.std.specs.Prelude.{◌≡◌, ◌-◌, ◌+◌, ◌*◌, ◌/◌, ◌%◌, ◌^◌, ◌<◌, ◌≤◌, ℕ, List, false, length, take, true, IfErr, IfOk, IsErrOf, IsTrue, Some, Ok, Err};
ghost use Rattle.pos_edge.specs.Calls.{IsThere, WasAbsent};
ghost use Rattle.pos_edge.specs.Frame.{ChangesOnly, IsUntouched, NameOf, Nothing};
ghost use Rattle.pos_layout.specs.Damages.{opening};
ghost use Rattle.pos_layout.specs.Fields.{count_of, header_in, layout_in, memo_in};
ghost use Rattle.pos_layout.specs.Layouts.{full_of, memo_of, park_count, parks_of};
ghost use Rattle.pos_layout.specs.Lists.{points_inside};
ghost use Rattle.pos_layout.specs.Reading.{head, num, read_park, under};
ghost use Rattle.pos_layout.specs.Rules.{IsLaidOut, Opens};
ghost use Rattle.pos_layout.specs.declared.damage.Damage.{Damage};
ghost use Rattle.pos_reader.specs.Answers.{Answers};
ghost use Rattle.pos_reader.specs.Plots.{IsOpen, IsPlotFile, OnlyReads, opened_plot};
ghost use Rattle.pos_reader.specs.Readings.{CountsFaults, IsOpenFault, IsPlotOpened, IsReading};
ghost use Rattle.pos_rice.specs.Park.{AreNumbers};

use crate::park::{count_below, least_with, points_inside};
use crate::reads::{read_entry, read_header, read_memo, read_park};
use crate::{OpenRefusal, ReadRefusal, header};
use pos_edge::{Disk, FileId, OpenFault};
use pos_layout::{Damage, Header, Layout, longest_park};
use pos_rice::MOST_NUMBERS;
use pos_tuple::{Id, Size};
use std::alloc::Global;
use std::marker::Model;

/// A plot file that was opened, with the buffers that its calls need. Contracts see the file, the header and the memo.
///
/// Each call on the disk wants the plot's file live there, with all its bytes: `open` leaves it so, each call here too, and
/// no call of a disk but a removal of this file ends it. What a call answers is said over a disk that tells, of the bytes
/// that the file holds when the call begins, where they open and have the plot's header and memo: `open` leaves this so, too.
#[derive(Drop)]
pub struct Plot {
    file: FileId,
    header: Header,
    memo: Vec<u8>,
    bytes: Vec<u8>,
    numbers: Vec<u128>,
}

impl Model for Plot {
    ghost use Rattle.std.specs.Prelude.{◌≡◌, ◌≤◌, length, vec_len};
    ghost use Rattle.pos_layout.specs.Layouts.{longest_park};
    ghost use Rattle.pos_layout.specs.Rules.{IsLaidOut};
    ghost use Rattle.pos_reader.specs.Plots.{PlotState, opened_plot};
    ghost use Rattle.pos_rice.specs.declared.TheConstants.{MOST_NUMBERS};

    ghost Value = { PlotState };

    ghost view = { λ p. opened_plot p.file.0 p.header p.memo.items };

    ghost invariant = { λ p. IsLaidOut p.header.layout p.header × (length p.memo.items ≡ p.header.memo_length)
        × (longest_park p.header.layout p.header.size ≤ vec_len p.bytes) × (MOST_NUMBERS ≤ vec_len p.numbers) };
}

impl Plot {
    /// Opens the file of this name, by at most two reads. It takes all memory that the calls of the plot need.
    ///
    /// Over a disk that tells it is Ok exactly where the file opens, and `Absent` exactly where there is none, but for a
    /// failure of the disk and want of memory; else it answers the first damage that opening finds. `DiskFailed` comes
    /// exactly where the disk failed. No file changes.
    pub fn open<D: Disk>(alloc: Global, disk: &mut D, name: &str) -> Result<Plot, OpenRefusal>
        ensures kept { ChangesOnly Nothing Nothing (D.view disk.old) (D.view disk.new) }
        ensures reads { (D.view disk.new).reads ≤ (D.view disk.old).reads + 2 }
        ensures ok { IfOk result (λ p. IsPlotOpened name.now p (D.view disk.old) (D.view disk.new)) }
        ensures damage { (d : Damage) → IsErrOf result (OpenRefusal.Damage d) → (D.view disk.old).tells ≡ true
            → (b : List ℕ) × ((D.view disk.old).contents name.now ≡ Some b) × (opening (layout_in b) b (length b) ≡ Some d) }
        ensures absent { IsErrOf result OpenRefusal.Absent
            → WasAbsent name.now (D.view disk.old) × IsUntouched (D.view disk.old) (D.view disk.new) }
        ensures faults { CountsFaults OpenRefusal.DiskFailed result (D.view disk.old) (D.view disk.new) }
    {
        let file = match disk.open(name) {
            Ok(file) => file,
            Err(OpenFault::Absent) => return Err(OpenRefusal::Absent),
            Err(OpenFault::Failed) => return Err(OpenRefusal::DiskFailed),
            Err(OpenFault::Memory) => return Err(OpenRefusal::Memory),
        };
        read_plot(alloc, disk, file)
    }

    /// The plot's file, as long as it is open.
    pub fn file(&self) -> FileId
        ensures { result.0 ≡ self.now.file }
    {
        self.file
    }

    /// The layout of the plot's file.
    pub fn layout(&self) -> Layout
        ensures { result ≡ self.now.header.layout }
    {
        self.header.layout
    }

    /// The plot's memo: at most 256 bytes, and none in the first layout.
    pub fn memo(&self) -> &[u8]
        ensures memo { result.now ≡ self.now.memo }
        ensures length { length result.now ≡ self.now.header.memo_length }
        ensures few { length result.now ≤ memo_of self.now.header.layout }
    {
        self.memo.as_slice()
    }

    /// The plot's id.
    pub fn id(&self) -> Id
        ensures { result ≡ self.now.header.id }
    {
        self.header.id
    }

    /// The plot's size.
    pub fn size(&self) -> Size
        ensures size { result ≡ self.now.header.size }
        ensures laid_out { IsLaidOut self.now.header.layout self.now.header }
    {
        self.header.size
    }

    /// The length of the plot's file in bytes.
    pub fn length(&self) -> u64
        ensures length { result ≡ self.now.header.file_length }
        ensures laid_out { IsLaidOut self.now.header.layout self.now.header }
    {
        self.header.file_length
    }

    /// How many numbers table t, from 1 to 7, has.
    pub fn count(&self, t: u8) -> u64
        requires first { 1 ≤ t }
        requires last { t ≤ 7 }
        ensures count { result ≡ count_of self.now.header t }
        ensures few { result ≤ 2 ^ (self.now.header.size + 1) }
        ensures laid_out { IsLaidOut self.now.header.layout self.now.header }
    {
        header::count_of(&self.header, t)
    }

    /// Number i of table t, counted from 0, or the first damage on the way to it: of the directory's entry, of the park's
    /// digest, of the park, of its head, and then of the number's pointers. At most two reads, and no memory.
    pub fn number<D: Disk>(&mut self, disk: &mut D, t: u8, i: u64) -> Result<u128, ReadRefusal>
        requires is_open { IsOpen self.old (D.view disk.old) }
        requires first { 1 ≤ t }
        requires last { t ≤ 7 }
        requires place { i < count_of self.old.header t }
        ensures reading { IsReading 2 result self.old self.new (D.view disk.old) (D.view disk.new) }
        ensures number { (b : List ℕ) → IsPlotFile self.old b (D.view disk.old) → Answers result (num (layout_in b) b t i) }

        // over every disk
        ensures below { IfOk result (λ n. n < 2 ^ (2 * self.old.header.size + 2)) }
        ensures in_range { IfOk result (λ n.
            points_inside self.old.header.size t (count_of self.old.header (t - 1)) n ≡ true) }
    {
        let (park, place) = place_in(self.header.layout, i);
        let numbers = self.numbers.as_mut_slice();
        read_park(
            disk,
            self.file,
            &self.header,
            t,
            park,
            &mut self.bytes,
            numbers,
        )?;
        let number = numbers[place];
        if !points_inside(&self.header, t, number) {
            return Err(ReadRefusal::Damage(Damage::Pointer { table: t, at: i }));
        }
        Ok(number)
    }

    /// Whether a number points inside the table before table t, as each number of table t has to.
    pub fn points_inside(&self, t: u8, number: u128) -> bool
        requires first { 1 ≤ t }
        requires last { t ≤ 7 }
        ensures { result ≡ points_inside self.now.header.size t (count_of self.now.header (t - 1)) number }
    {
        points_inside(&self.header, t, number)
    }

    /// Writes the numbers of a park of table t, counted from 0, to the first places of `out`, and answers how many they
    /// are, or the first damage of the park's entry, digest, form and head. At most two reads, and no memory.
    ///
    /// `out` has room for the greatest park of any layout. After a refusal it may hold anything. Where the numbers point
    /// is not tested: `points_inside` does that.
    pub fn park<D: Disk>(
        &mut self,
        disk: &mut D,
        t: u8,
        park: u64,
        out: &mut [u128],
    ) -> Result<u32, ReadRefusal>
        requires is_open { IsOpen self.old (D.view disk.old) }
        requires first { 1 ≤ t }
        requires last { t ≤ 7 }
        requires park { park < parks_of self.old.header.layout (count_of self.old.header t) }
        requires room { MOST_NUMBERS ≤ length out.old }
        ensures reading { IsReading 2 result self.old self.new (D.view disk.old) (D.view disk.new) }
        ensures numbers { IfOk result (λ n. (b : List ℕ) → IsPlotFile self.old b (D.view disk.old)
            → read_park (layout_in b) b t park ≡ Ok (take n out.new)) }
        ensures damage { (d : Damage) → IsErrOf result (ReadRefusal.Damage d)
            → (b : List ℕ) → IsPlotFile self.old b (D.view disk.old) → read_park (layout_in b) b t park ≡ Err d }

        // over every disk
        ensures count { IfOk result (λ n. n ≡ park_count self.old.header.layout (count_of self.old.header t) park) }
        ensures are_numbers { IfOk result (λ n. AreNumbers self.old.header.size (take n out.new)) }
        ensures laid_out { IsLaidOut self.old.header.layout self.old.header }
    {
        let count = read_park(disk, self.file, &self.header, t, park, &mut self.bytes, out)?;
        Ok(count)
    }

    /// The head of a park of table 7, which is the f7 of its first number, as its directory says, or the damage of the
    /// directory's entry. At most one read, and no memory.
    pub fn head<D: Disk>(&mut self, disk: &mut D, park: u64) -> Result<u64, ReadRefusal>
        requires is_open { IsOpen self.old (D.view disk.old) }
        requires park { park < parks_of self.old.header.layout (count_of self.old.header 7) }
        ensures reading { IsReading 1 result self.old self.new (D.view disk.old) (D.view disk.new) }
        ensures head { (b : List ℕ) → IsPlotFile self.old b (D.view disk.old) → Answers result (head (layout_in b) b park) }
    {
        let entry = read_entry(disk, self.file, &self.header, 7, park)?;
        Ok(entry.head)
    }

    /// How many numbers of a park of table 7 have an f7 below this one, or the first damage of its entry, digest, form and
    /// head. At most two reads, and no memory.
    pub fn under<D: Disk>(&mut self, disk: &mut D, park: u64, f7: u64) -> Result<u32, ReadRefusal>
        requires is_open { IsOpen self.old (D.view disk.old) }
        requires park { park < parks_of self.old.header.layout (count_of self.old.header 7) }
        requires f7 { f7 ≤ 2 ^ self.old.header.size }
        ensures reading { IsReading 2 result self.old self.new (D.view disk.old) (D.view disk.new) }
        ensures under { (b : List ℕ) → IsPlotFile self.old b (D.view disk.old) → Answers result (under (layout_in b) b park f7) }

        // over every disk
        ensures at_most { IfOk result (λ n. n ≤ park_count self.old.header.layout (count_of self.old.header 7) park) }
    {
        let limit = least_with(self.header.size, f7);
        let numbers = self.numbers.as_mut_slice();
        let count = read_park(
            disk,
            self.file,
            &self.header,
            7,
            park,
            &mut self.bytes,
            numbers,
        )?;
        Ok(count_below(numbers, count, limit))
    }
}

/// The park that has place i of a table, and the place in this park.
fn place_in(layout: Layout, i: u64) -> (u64, usize)
    ensures park { result.0 ≡ i / full_of layout }
    ensures place { result.1 ≡ i % full_of layout }
    ensures few { result.1 < MOST_NUMBERS }
{
    let full = layout.full_park() as u64;
    (i / full, (i % full) as usize)
}

/// The plot of an open file, by at most two reads.
fn read_plot<D: Disk>(alloc: Global, disk: &mut D, file: FileId) -> Result<Plot, OpenRefusal>
    requires live { IsTrue ((D.view disk.old).is_live file.0) }
    requires there { IsThere file.0 (D.view disk.old) }
    ensures reads { OnlyReads 2 (D.view disk.old) (D.view disk.new) }
    ensures file { IfOk result (λ p. p.file ≡ file.0) }
    ensures laid_out { IfOk result (λ p. IsLaidOut p.header.layout p.header) }
    ensures whole { IfOk result (λ p. p.header.file_length ≡ (D.view disk.old).size_of file.0) }
    ensures ok { IfOk result (λ p. (name b : List ℕ) → NameOf file.0 (D.view disk.old) name
        → (D.view disk.old).contents name ≡ Some b → (D.view disk.old).size_of file.0 ≡ length b
        → Opens p.header.layout b × (p.header ≡ header_in b) × (p.memo ≡ memo_in b)) }
    ensures damage { (d : Damage) → IsErrOf result (OpenRefusal.Damage d)
        → (name b : List ℕ) → NameOf file.0 (D.view disk.old) name → (D.view disk.old).contents name ≡ Some b
        → (D.view disk.old).size_of file.0 ≡ length b → opening (layout_in b) b (length b) ≡ Some d }
    ensures found { IsErrOf result OpenRefusal.Absent → ⊥ }
    ensures faults { CountsFaults OpenRefusal.DiskFailed result (D.view disk.old) (D.view disk.new) }
{
    match read_header(disk, file) {
        Ok(header) => with_memo(alloc, disk, file, header),
        Err(ReadRefusal::DiskFailed) => Err(OpenRefusal::DiskFailed),
        Err(ReadRefusal::Damage(damage)) => Err(OpenRefusal::Damage(damage)),
    }
}

/// The plot of a file that opens with this header, by at most one read.
fn with_memo<D: Disk>(
    alloc: Global,
    disk: &mut D,
    file: FileId,
    header: Header,
) -> Result<Plot, OpenRefusal>
    requires live { IsTrue ((D.view disk.old).is_live file.0) }
    requires there { IsThere file.0 (D.view disk.old) }
    requires laid_out { IsLaidOut header.layout header }
    requires whole { header.file_length ≤ (D.view disk.old).size_of file.0 }
    ensures reads { OnlyReads 1 (D.view disk.old) (D.view disk.new) }
    ensures kept { IfOk result (λ p. (p.file ≡ file.0) × (p.header ≡ header)) }
    ensures memo { IfOk result (λ p. (name b : List ℕ) → NameOf file.0 (D.view disk.old) name
        → (D.view disk.old).contents name ≡ Some b → header ≡ header_in b → p.memo ≡ memo_in b) }
    ensures fault { IfErr result IsOpenFault }
    ensures faults { CountsFaults OpenRefusal.DiskFailed result (D.view disk.old) (D.view disk.new) }
{
    let Ok(mut memo) = vec![in alloc; 0; header.memo_length as usize] else {
        return Err(OpenRefusal::Memory);
    };
    match read_memo(disk, file, &header, memo.as_mut_slice()) {
        Ok(()) => with_buffers(alloc, file, header, memo),
        Err(_) => Err(OpenRefusal::DiskFailed),
    }
}

/// The plot of a header and a memo, with its buffers.
fn with_buffers(
    alloc: Global,
    file: FileId,
    header: Header,
    memo: Vec<u8>,
) -> Result<Plot, OpenRefusal>
    requires laid_out { IsLaidOut header.layout header }
    requires memo { length memo.items ≡ header.memo_length }
    ensures ok { IfOk result (λ p. p ≡ opened_plot file.0 header memo.items) }
    ensures refusal { IfErr result (λ refusal. refusal ≡ OpenRefusal.Memory) }
{
    let Ok(bytes) = vec![in alloc; 0; longest_park(header.layout, header.size) as usize] else {
        return Err(OpenRefusal::Memory);
    };
    let Ok(numbers) = vec![in alloc; 0; MOST_NUMBERS] else {
        return Err(OpenRefusal::Memory);
    };
    Ok(Plot {
        file,
        header,
        memo,
        bytes,
        numbers,
    })
}
