//! The set of marked places.
ghost use Rattle.std.specs.Prelude.{◌≡◌, ◌+◌, ◌*◌, ◌^◌, ◌<◌, ◌≤◌, ℕ, Bool, true, Some, length, IfErr, IfOk, IsErrOf, IsOk, IsTrue, OnErr, OnOk};
ghost use Rattle.pos_edge.specs.Faults.{Rose};
ghost use Rattle.pos_edge.specs.Frame.{ChangesFile, ChangesOnly, IsUntouched, Just, KeepsIds, NameOf, Nothing, ReadsOnly, SameFaults, SameFaultsBut};
ghost use Rattle.pos_edge.specs.Images.{ImagesBy, MayVanish};
ghost use Rattle.pos_edge.specs.Calls.{Ends, IsAsItWasOrGone, IsCreated, IsGone, IsHalfCreated, IsThere, WasThere};
ghost use Rattle.pos_edge.specs.ScratchNames.{IsLeft, StandsOn, next_name, with_file, without_file};
ghost use Rattle.pos_lists.specs.Rank.{rank};
ghost use Rattle.pos_lists.specs.Places.{with_place};
ghost use Rattle.pos_marks.specs.Marks.{AreNewMarks, AreSealed, AreUnsealed, Marked, SameMarks, marks_file, marks_number, page_count, place_count};
ghost use Rattle.pos_marks.specs.Pages.{IsSealFault};

use crate::bits::set_bit;
use crate::counts::{BLOCK_PLACES, counts_of, ones_in_block};
use crate::pages::{PAGE_BYTES, PAGE_PLACES, read_page, write_pages, zeros};
use pos_edge::{Disk, FileId, MAX_SCRATCH_FILES, Scratch, WorkFault};
use std::alloc::Global;

/// A set of places below a limit.
///
/// The marks are made in memory, then sealed, and then read from the pages of the set's scratch file. What a value stands
/// for, a test of places, is said of it and of the disk by `Marked`.
#[derive(Drop)]
pub struct Marks {
    alloc: Global,
    file: FileId,
    number: u32,
    places: u64,
    is_sealed: bool,
    // Until they are sealed: a bit for each place, the lowest bit of a byte first, up to the end of the last page.
    bits: Vec<u8>,
    // Once they are sealed: how many places are marked below each multiple of BLOCK_PLACES.
    counts: Vec<u64>,
    // Once they are sealed: which page is in memory, and that page.
    loaded: Option<u64>,
    page: Vec<u8>,
}

impl Marks {
    /// A set of places below `places` with none marked, and an empty scratch file for it.
    ///
    /// At most 2^52 places; the `Scratch` has made fewer than 10,000 files. `Exists` where the file's name is there.
    pub fn new<D: Disk>(
        alloc: Global,
        places: u64,
        scratch: &mut Scratch,
        disk: &mut D,
    ) -> Result<Marks, WorkFault>
        requires few { places ≤ 2 ^ 52 }
        requires room { scratch.old.made < MAX_SCRATCH_FILES }
        ensures kept { ChangesOnly (Just (next_name scratch.old)) Nothing (D.view disk.old) (D.view disk.new) }
        ensures reads { (D.view disk.new).reads ≡ (D.view disk.old).reads }
        ensures ok { IfOk result (λ marks. IsCreated (next_name scratch.old) (marks_file marks) (D.view disk.old) (D.view disk.new)) }
        ensures made { IfOk result (λ marks. scratch.new ≡ with_file scratch.old (marks_file marks)) }
        ensures new { IfOk result (λ marks. AreNewMarks places scratch.old.made marks (D.view disk.new)) }
        ensures refused { OnErr result (scratch.new ≡ scratch.old) }
        ensures exists { (file : _) → IsErrOf result (WorkFault.Exists file)
            → (file ≡ scratch.old.made) × WasThere (next_name scratch.old) (D.view disk.old)
            × IsUntouched (D.view disk.old) (D.view disk.new) }
        ensures failed { IsErrOf result WorkFault.DiskFailed
            → IsHalfCreated (next_name scratch.old) (D.view disk.old) (D.view disk.new) }
        ensures no_damage { (damage : _) → IsErrOf result (WorkFault.Scratch damage) → ⊥ }
        ensures memory { IsErrOf result WorkFault.Memory → IsUntouched (D.view disk.old) (D.view disk.new) }
        ensures quiet { SameFaultsBut WorkFault.DiskFailed result (D.view disk.old) (D.view disk.new) }
        ensures stands { StandsOn scratch.old (D.view disk.old) → StandsOn scratch.new (D.view disk.new) }
    {
        let pages = places.div_ceil(PAGE_PLACES);
        let bits = zeros(alloc, (pages * PAGE_BYTES) as usize)?;
        let number = scratch.made();
        let file = scratch.create(disk)?;
        Ok(Marks {
            alloc,
            file,
            number,
            places,
            is_sealed: false,
            bits,
            counts: Vec::new(alloc),
            loaded: None,
            page: Vec::new(alloc),
        })
    }

    /// Marks a place below the limit, before the marks are sealed.
    ///
    /// The marks are in memory until then, so it takes none, leaves the disk alone and never fails.
    #[inline(always)]
    pub fn set<D: Disk>(&mut self, disk: &mut D, i: u64) -> Result<(), WorkFault>
        requires stands { (p : ℕ → Bool) × Marked self.old p (D.view disk.old) }
        requires unsealed { AreUnsealed self.old }
        requires inside { i < place_count self.old }
        ensures ok { IsOk result }
        ensures untouched { disk.new ≡ disk.old }
        ensures same { SameMarks self.old self.new }
        ensures unsealed { AreUnsealed self.new }
        ensures marked { (p : ℕ → Bool) → Marked self.old p (D.view disk.old) → Marked self.new (with_place i p) (D.view disk.new) }
    {
        let _ = disk;
        set_bit(self.bits.as_mut_slice(), i);
        Ok(())
    }

    /// Writes the marks to the file and counts them, and keeps no page of them in memory. After a refusal the set has ended.
    pub fn seal<D: Disk>(&mut self, disk: &mut D) -> Result<(), WorkFault>
        requires stands { (p : ℕ → Bool) × Marked self.old p (D.view disk.old) }
        requires unsealed { AreUnsealed self.old }
        ensures kept { ChangesFile (marks_file self.old) (D.view disk.old) (D.view disk.new) }
        ensures ids { KeepsIds Nothing (D.view disk.old) (D.view disk.new) }
        ensures reads { (D.view disk.new).reads ≡ (D.view disk.old).reads }
        ensures same { SameMarks self.old self.new }
        ensures sealed { OnOk result (AreSealed self.new) }
        ensures marked { OnOk result ((p : ℕ → Bool) → Marked self.old p (D.view disk.old) → Marked self.new p (D.view disk.new)) }
        ensures size { OnOk result (place_count self.old ≤ 8 * (D.view disk.new).size_of (marks_file self.old)) }
        ensures fault { IfErr result IsSealFault }
        ensures failed { IsErrOf result WorkFault.DiskFailed → Rose (D.view disk.old).faults (D.view disk.new).faults }
        ensures quiet { SameFaultsBut WorkFault.DiskFailed result (D.view disk.old) (D.view disk.new) }
    {
        let page = zeros(self.alloc, PAGE_BYTES as usize)?;
        let counts = counts_of(self.alloc, &self.bits)?;
        write_pages(disk, self.file, &self.bits)?;
        self.bits = Vec::new(self.alloc);
        self.counts = counts;
        self.page = page;
        self.is_sealed = true;
        Ok(())
    }

    /// Whether a place below the limit is marked, once the marks are sealed. One read at most; in the order of places each
    /// page is read once. Takes no memory. After a refusal the set has ended.
    #[inline(always)]
    pub fn has<D: Disk>(&mut self, disk: &mut D, i: u64) -> Result<bool, WorkFault>
        requires stands { (p : ℕ → Bool) × Marked self.old p (D.view disk.old) }
        requires sealed { AreSealed self.old }
        requires inside { i < place_count self.old }
        ensures only_reads { ReadsOnly (D.view disk.old) (D.view disk.new) }
        ensures reads { (D.view disk.new).reads ≤ (D.view disk.old).reads + 1 }
        ensures same { SameMarks self.old self.new }
        ensures sealed { AreSealed self.new }
        ensures marked { OnOk result ((p : ℕ → Bool) → Marked self.old p (D.view disk.old) → Marked self.new p (D.view disk.new)) }
        ensures value { IfOk result (λ marked. (p : ℕ → Bool) → Marked self.old p (D.view disk.old)
            → (D.view disk.old).tells ≡ true → marked ≡ p i) }
        ensures fault { IfErr result (λ fault. fault ≡ WorkFault.DiskFailed) }
        ensures failed { OnErr result (Rose (D.view disk.old).faults (D.view disk.new).faults) }
        ensures quiet { OnOk result (SameFaults (D.view disk.old) (D.view disk.new)) }
    {
        self.load(disk, i / PAGE_PLACES)?;
        let byte = self.page[(i % PAGE_PLACES / 8) as usize];
        Ok(byte >> (i % 8) & 1 == 1)
    }

    /// How many places below i are marked, once the marks are sealed; i is at most the limit. One read at most. Takes no
    /// memory. After a refusal the set has ended.
    pub fn rank<D: Disk>(&mut self, disk: &mut D, i: u64) -> Result<u64, WorkFault>
        requires stands { (p : ℕ → Bool) × Marked self.old p (D.view disk.old) }
        requires sealed { AreSealed self.old }
        requires inside { i ≤ place_count self.old }
        ensures only_reads { ReadsOnly (D.view disk.old) (D.view disk.new) }
        ensures reads { (D.view disk.new).reads ≤ (D.view disk.old).reads + 1 }
        ensures same { SameMarks self.old self.new }
        ensures sealed { AreSealed self.new }
        ensures marked { OnOk result ((p : ℕ → Bool) → Marked self.old p (D.view disk.old) → Marked self.new p (D.view disk.new)) }
        ensures value { IfOk result (λ below. (p : ℕ → Bool) → Marked self.old p (D.view disk.old)
            → (D.view disk.old).tells ≡ true → below ≡ rank p i) }
        // over every disk
        ensures most { IfOk result (λ below. below ≤ i) }
        ensures fault { IfErr result (λ fault. fault ≡ WorkFault.DiskFailed) }
        ensures failed { OnErr result (Rose (D.view disk.old).faults (D.view disk.new).faults) }
        ensures quiet { OnOk result (SameFaults (D.view disk.old) (D.view disk.new)) }
    {
        let before = self.counts[(i / BLOCK_PLACES) as usize];
        if i % BLOCK_PLACES == 0 {
            return Ok(before);
        }
        self.load(disk, i / PAGE_PLACES)?;
        Ok(before + ones_in_block(&self.page, i % PAGE_PLACES))
    }

    /// Removes the file, and ends the set whatever it answers. Takes no memory.
    pub fn remove<D: Disk>(self, scratch: &mut Scratch, disk: &mut D) -> Result<(), WorkFault>
        requires left { IsLeft scratch.old (marks_file self) }
        requires live { IsTrue ((D.view disk.old).is_live (marks_file self)) }
        requires there { IsThere (marks_file self) (D.view disk.old) }
        ensures left { scratch.new ≡ without_file scratch.old (marks_file self) }
        ensures kept { ChangesOnly (NameOf (marks_file self) (D.view disk.old)) (Just (marks_file self)) (D.view disk.old) (D.view disk.new) }
        ensures reads { (D.view disk.new).reads ≡ (D.view disk.old).reads }
        ensures ends { Ends (marks_file self) (D.view disk.old) (D.view disk.new) }
        ensures images { ImagesBy MayVanish (marks_file self) (D.view disk.old) (D.view disk.new) }
        ensures ok { OnOk result (IsGone (marks_file self) (D.view disk.old) (D.view disk.new)) }
        ensures failed { OnErr result (Rose (D.view disk.old).faults (D.view disk.new).faults) }
        ensures quiet { OnOk result (SameFaults (D.view disk.old) (D.view disk.new)) }
        ensures was_or_gone { IsAsItWasOrGone (marks_file self) (D.view disk.old) (D.view disk.new) }
        ensures fault { IfErr result (λ fault. fault ≡ WorkFault.DiskFailed) }
        ensures stands { StandsOn scratch.old (D.view disk.old) → StandsOn scratch.new (D.view disk.new) }
    {
        scratch.remove(disk, self.file)
    }

    /// The number in the name of the scratch file. Takes no memory.
    pub fn file(&self) -> u32
        ensures { result ≡ marks_number self.now }
    {
        self.number
    }

    // Has this page in memory.
    #[inline(always)]
    fn load<D: Disk>(&mut self, disk: &mut D, page: u64) -> Result<(), WorkFault>
        requires stands { (p : ℕ → Bool) × Marked self.old p (D.view disk.old) }
        requires sealed { AreSealed self.old }
        requires inside { page < page_count (place_count self.old) }
        ensures only_reads { ReadsOnly (D.view disk.old) (D.view disk.new) }
        ensures reads { (D.view disk.new).reads ≤ (D.view disk.old).reads + 1 }
        ensures same { SameMarks self.old self.new }
        ensures sealed { AreSealed self.new }
        ensures marked { OnOk result ((p : ℕ → Bool) → Marked self.old p (D.view disk.old) → Marked self.new p (D.view disk.new)) }
        ensures loaded { OnOk result (self.new.loaded ≡ Some page) }
        ensures room { OnOk result (length self.new.page.items ≡ PAGE_BYTES) }
        ensures counts { self.new.counts ≡ self.old.counts }
        ensures fault { IfErr result (λ fault. fault ≡ WorkFault.DiskFailed) }
        ensures failed { OnErr result (Rose (D.view disk.old).faults (D.view disk.new).faults) }
        ensures quiet { OnOk result (SameFaults (D.view disk.old) (D.view disk.new)) }
    {
        if self.loaded == Some(page) {
            return Ok(());
        }
        self.read(disk, page)
    }

    // Reads this page.
    #[inline(never)]
    fn read<D: Disk>(&mut self, disk: &mut D, page: u64) -> Result<(), WorkFault>
        requires stands { (p : ℕ → Bool) × Marked self.old p (D.view disk.old) }
        requires sealed { AreSealed self.old }
        requires inside { page < page_count (place_count self.old) }
        ensures only_reads { ReadsOnly (D.view disk.old) (D.view disk.new) }
        ensures reads { (D.view disk.new).reads ≤ (D.view disk.old).reads + 1 }
        ensures same { SameMarks self.old self.new }
        ensures sealed { AreSealed self.new }
        ensures marked { OnOk result ((p : ℕ → Bool) → Marked self.old p (D.view disk.old) → Marked self.new p (D.view disk.new)) }
        ensures loaded { OnOk result (self.new.loaded ≡ Some page) }
        ensures room { OnOk result (length self.new.page.items ≡ PAGE_BYTES) }
        ensures counts { self.new.counts ≡ self.old.counts }
        ensures fault { IfErr result (λ fault. fault ≡ WorkFault.DiskFailed) }
        ensures failed { OnErr result (Rose (D.view disk.old).faults (D.view disk.new).faults) }
        ensures quiet { OnOk result (SameFaults (D.view disk.old) (D.view disk.new)) }
    {
        self.loaded = None;
        let file = self.file;
        let buffer = self.page.as_mut_slice();
        read_page(disk, file, page, buffer)?;
        self.loaded = Some(page);
        Ok(())
    }
}
