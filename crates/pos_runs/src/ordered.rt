// A list of records on pages of a scratch file.
ghost use Rattle.std.specs.Prelude.{◌≡◌, ◌+◌, ◌*◌, ◌/◌, ◌^◌, ◌<◌, ◌≤◌, ◌↔◌, [], ◌∷◌, ◌++◌, List, length, true, false, slice_get, IsTrue, IsErrOf, IfOk, IfErr, OnOk, OnErr};
ghost use Rattle.pos_edge.specs.Faults.{Rose, counted};
ghost use Rattle.pos_edge.specs.Frame.{ReadsOnly, SameFaults, SameFaultsBut, IsUntouched, Nothing, Just, NameOf};
ghost use Rattle.pos_edge.specs.Images.{ImagesBy, MayVanish};
ghost use Rattle.pos_edge.specs.Calls.{AreBytesAt, IsThere, IsWritten, WasThere, IsHalfCreated, Ends, IsGone, IsAsItWasOrGone};
ghost use Rattle.pos_edge.specs.ScratchNames.{next_name, with_file, without_file, IsLeft, StandsOn};
ghost use Rattle.pos_edge.specs.ScratchWork.{IsNameBetween, IsScratchWork, IsScratchDone};
ghost use Rattle.pos_bits.specs.Bits.{bits_of};
ghost use Rattle.pos_record.specs.Fields.{IsRecordSize, part_at};
ghost use Rattle.pos_runs.specs.Pages.{per_page, ListStands, ListHolds, PageHolds};
ghost use Rattle.pos_runs.specs.Lists.{IsListWrite, IsListRead, reads_after, reads_for, flushed, with_page, HasRoom, HasOneMore, IsSealedFrom, IsNewList, IsPageFault};

use crate::pages::{PAGE_BITS, PAGE_BYTES, read_page, write_page};
use pos_edge::{Disk, FileId, MAX_SCRATCH_FILES, Scratch, WorkFault};
use pos_record::Record;
use std::alloc::Global;
use std::marker::{Model, PhantomData};

/// How many records a list has at most.
pub const MAX_RECORDS: u64 = 1 << 52;

/// A list of records in the order in which they were pushed, on pages of 65,536 bytes of a scratch file of its own.
/// Contracts see its pages; the records that it stands for are said of it and the disk by `ListHolds`.
///
/// After a refusal of one of its calls nothing is known of the list but its file, so that it can be removed.
#[derive(Drop)]
pub struct Ordered<R, const K: u32> {
    file: FileId,
    number: u32,
    count: u64,
    is_sealed: bool,
    written: u64,
    page: u64,
    used: u64,
    bytes: Vec<u8>,
    _kind: PhantomData<R>,
}

impl<R, const K: u32> Model for Ordered<R, K> {
    ghost use Rattle.pos_runs.specs.Pages.{ListPages};

    ghost Value = { ListPages };

    ghost view = { λ o. record { file = o.file.0; number = o.number; count = o.count; is_sealed = o.is_sealed; written = o.written; page = o.page; used = o.used; bytes = o.bytes.items } };
}

impl<R: Record<K>, const K: u32> Ordered<R, K> {
    /// An empty list in a scratch file of the next name.
    pub fn new<D: Disk>(
        alloc: Global,
        scratch: &mut Scratch,
        disk: &mut D,
    ) -> Result<Ordered<R, K>, WorkFault>
        requires size { IsRecordSize K }
        requires few { scratch.old.made < MAX_SCRATCH_FILES }
        ensures work { IsScratchWork (IsNameBetween scratch.old.base scratch.old.made (scratch.new.made + 1)) Nothing
            scratch.old scratch.new (D.view disk.old) (D.view disk.new) }
        ensures done { OnOk result (IsScratchDone (IsNameBetween scratch.old.base scratch.old.made scratch.new.made) Nothing
            scratch.old scratch.new (D.view disk.old) (D.view disk.new)) }
        ensures reads { (D.view disk.new).reads ≡ (D.view disk.old).reads }
        ensures ok { IfOk result (λ list. IsNewList scratch.old list (D.view disk.old) (D.view disk.new)) }
        ensures made { IfOk result (λ list. scratch.new ≡ with_file scratch.old list.file) }
        ensures stands { IfOk result (λ list. ListStands R.bit_count list (D.view disk.new)) }
        ensures list { IfOk result (λ list. ListHolds R.read R.bit_count list [] (D.view disk.new)) }
        ensures refused { OnErr result (scratch.new ≡ scratch.old) }
        ensures exists { (file : _) → IsErrOf result (WorkFault.Exists file)
            → (file ≡ scratch.old.made) × WasThere (next_name scratch.old) (D.view disk.old)
            × IsUntouched (D.view disk.old) (D.view disk.new) }
        ensures failed { IsErrOf result WorkFault.DiskFailed
            → IsHalfCreated (next_name scratch.old) (D.view disk.old) (D.view disk.new) }
        ensures no_damage { (damage : _) → IsErrOf result (WorkFault.Scratch damage) → ⊥ }
        ensures memory { IsErrOf result WorkFault.Memory → IsUntouched (D.view disk.old) (D.view disk.new) }
        ensures quiet { SameFaultsBut WorkFault.DiskFailed result (D.view disk.old) (D.view disk.new) }
    {
        let number = scratch.made();
        let Ok(bytes) = vec![in alloc; 0u8; PAGE_BYTES] else {
            return Err(WorkFault::Memory);
        };
        let file = match scratch.create(disk) {
            Ok(file) => file,
            Err(fault) => return Err(fault),
        };
        Ok(Ordered {
            file,
            number,
            count: 0,
            is_sealed: false,
            written: 0,
            page: 0,
            used: 0,
            bytes,
            _kind: PhantomData,
        })
    }

    /// Puts a record behind the others.
    #[inline(always)]
    pub fn push<D: Disk>(&mut self, disk: &mut D, item: &R) -> Result<(), WorkFault>
        requires size { IsRecordSize K }
        requires stands { ListStands R.bit_count self.old (D.view disk.old) }
        requires open { self.old.is_sealed ≡ false }
        requires few { self.old.count < MAX_RECORDS }
        requires fits { R.fits item.now }
        ensures write { IsListWrite self.old self.new (D.view disk.old) (D.view disk.new) }
        ensures stands { OnOk result (ListStands R.bit_count self.new (D.view disk.new)) }
        ensures more { OnOk result (HasOneMore self.old self.new) }
        ensures list { OnOk result ((xs : _) → ListHolds R.read R.bit_count self.old xs (D.view disk.old)
            → ListHolds R.read R.bit_count self.new (xs ++ item.now ∷ []) (D.view disk.new)) }
        ensures failed { IsErrOf result WorkFault.DiskFailed
            → Rose (D.view disk.old).faults (D.view disk.new).faults }
        ensures quiet { SameFaultsBut WorkFault.DiskFailed result (D.view disk.old) (D.view disk.new) }
        ensures fault { IfErr result IsPageFault }
    {
        let width = R::width();
        self.make_room(disk, (PAGE_BITS / width) as u64)?;
        item.append_at(self.bytes.as_mut_slice(), self.used * width as u64);
        self.used += 1;
        self.count += 1;
        Ok(())
    }

    /// Writes what is left in memory. From then on the list can be read, and takes no more records.
    pub fn seal<D: Disk>(&mut self, disk: &mut D) -> Result<(), WorkFault>
        requires size { IsRecordSize K }
        requires stands { ListStands R.bit_count self.old (D.view disk.old) }
        requires open { self.old.is_sealed ≡ false }
        ensures write { IsListWrite self.old self.new (D.view disk.old) (D.view disk.new) }
        ensures stands { OnOk result (ListStands R.bit_count self.new (D.view disk.new)) }
        ensures sealed { OnOk result (IsSealedFrom self.old self.new) }
        ensures long { OnOk result (self.new.count * R.bit_count / 8 ≤ (D.view disk.new).size_of self.new.file) }
        ensures list { OnOk result ((xs : _) → ListHolds R.read R.bit_count self.old xs (D.view disk.old)
            → ListHolds R.read R.bit_count self.new xs (D.view disk.new)) }
        ensures failed { IsErrOf result WorkFault.DiskFailed
            → Rose (D.view disk.old).faults (D.view disk.new).faults }
        ensures quiet { SameFaultsBut WorkFault.DiskFailed result (D.view disk.old) (D.view disk.new) }
        ensures fault { IfErr result IsPageFault }
    {
        if self.used == 0 {
            self.is_sealed = true;
            return Ok(());
        }
        self.flush(disk)?;
        self.is_sealed = true;
        Ok(())
    }

    /// How many records the list has.
    pub fn len(&self) -> u64
        ensures { result ≡ self.now.count }
    {
        self.count
    }

    /// Whether the list has no records.
    pub fn is_empty(&self) -> bool
        ensures { IsTrue result ↔ (self.now.count ≡ 0) }
    {
        self.count == 0
    }

    /// The number in the name of the list's scratch file.
    pub fn file(&self) -> u32
        ensures { result ≡ self.now.number }
    {
        self.number
    }

    /// Record i. Its page is read where it is not the one that was read last. Takes no memory.
    #[inline(always)]
    pub fn get<D: Disk>(&mut self, disk: &mut D, i: u64) -> Result<R, WorkFault>
        requires size { IsRecordSize K }
        requires stands { ListStands R.bit_count self.old (D.view disk.old) }
        requires sealed { self.old.is_sealed ≡ true }
        requires there { i < self.old.count }
        ensures read { IsListRead self.old self.new (D.view disk.old) (D.view disk.new) }
        ensures reads { (D.view disk.new).reads ≡ reads_after R.bit_count i self.old (D.view disk.old) }
        ensures page { OnOk result (self.new.page ≡ i / per_page R.bit_count) }
        ensures stands { OnOk result (ListStands R.bit_count self.new (D.view disk.new)) }
        ensures list { OnOk result ((xs : _) → ListHolds R.read R.bit_count self.old xs (D.view disk.old)
            → ListHolds R.read R.bit_count self.new xs (D.view disk.new)) }
        ensures value { IfOk result (λ item. (xs : _) → ListHolds R.read R.bit_count self.old xs (D.view disk.old)
            → (D.view disk.old).tells ≡ true → slice_get xs i ≡ Some item) }
        ensures fits { IfOk result (λ item. R.fits item) }
        ensures failed { OnErr result (Rose (D.view disk.old).faults (D.view disk.new).faults) }
        ensures quiet { OnOk result (SameFaults (D.view disk.old) (D.view disk.new)) }
        ensures fault { IfErr result (λ fault. fault ≡ WorkFault.DiskFailed) }
    {
        self.reach(disk, i)?;
        Ok(self.here(i))
    }

    // Brings the page of record i into memory where it is not there.
    #[inline(always)]
    pub(crate) fn reach<D: Disk>(&mut self, disk: &mut D, i: u64) -> Result<(), WorkFault>
        requires size { IsRecordSize K }
        requires stands { ListStands R.bit_count self.old (D.view disk.old) }
        requires sealed { self.old.is_sealed ≡ true }
        requires there { i < self.old.count }
        ensures read { IsListRead self.old self.new (D.view disk.old) (D.view disk.new) }
        ensures reads { (D.view disk.new).reads ≡ reads_after R.bit_count i self.old (D.view disk.old) }
        ensures page { OnOk result (self.new.page ≡ i / per_page R.bit_count) }
        ensures stands { OnOk result (ListStands R.bit_count self.new (D.view disk.new)) }
        ensures list { OnOk result ((xs : _) → ListHolds R.read R.bit_count self.old xs (D.view disk.old)
            → ListHolds R.read R.bit_count self.new xs (D.view disk.new)) }
        ensures failed { OnErr result (Rose (D.view disk.old).faults (D.view disk.new).faults) }
        ensures quiet { OnOk result (SameFaults (D.view disk.old) (D.view disk.new)) }
        ensures fault { IfErr result (λ fault. fault ≡ WorkFault.DiskFailed) }
    {
        let page = i / records_on_page::<R, K>();
        self.ready(disk, page)?;
        Ok(())
    }

    // Whether the page of record i is in memory.
    #[inline(always)]
    pub(crate) fn is_here(&self, i: u64) -> bool
        requires size { IsRecordSize K }
        ensures { IsTrue result ↔ (self.now.page ≡ i / per_page R.bit_count) }
    {
        self.page == i / records_on_page::<R, K>()
    }

    // Record i, whose page is in memory.
    #[inline(always)]
    pub(crate) fn here(&self, i: u64) -> R
        requires size { IsRecordSize K }
        requires long { length self.now.bytes ≡ 65536 }
        ensures value { (xs : _) → PageHolds R.read R.bit_count (i / per_page R.bit_count) xs self.now.bytes
            → i < length xs → slice_get xs i ≡ Some result }
        ensures fits { R.fits result }
    {
        let place = i % records_on_page::<R, K>();
        record_at::<R, K>(self.bytes.as_slice(), place * R::width() as u64)
    }

    /// Removes the list's file, also after a refusal of another call. Takes no memory.
    pub fn remove<D: Disk>(self, scratch: &mut Scratch, disk: &mut D) -> Result<(), WorkFault>
        requires left { IsLeft scratch.old self.file }
        requires live { IsTrue ((D.view disk.old).is_live self.file) }
        requires there { IsThere self.file (D.view disk.old) }
        ensures work { IsScratchWork (NameOf self.file (D.view disk.old)) (Just self.file)
            scratch.old scratch.new (D.view disk.old) (D.view disk.new) }
        ensures done { OnOk result (StandsOn scratch.old (D.view disk.old)
            → IsScratchDone (NameOf self.file (D.view disk.old)) (Just self.file)
            scratch.old scratch.new (D.view disk.old) (D.view disk.new)) }
        ensures left { scratch.new ≡ without_file scratch.old self.file }
        ensures reads { (D.view disk.new).reads ≡ (D.view disk.old).reads }
        ensures ends { Ends self.file (D.view disk.old) (D.view disk.new) }
        ensures images { ImagesBy MayVanish self.file (D.view disk.old) (D.view disk.new) }
        ensures ok { OnOk result (IsGone self.file (D.view disk.old) (D.view disk.new)) }
        ensures failed { OnErr result (Rose (D.view disk.old).faults (D.view disk.new).faults) }
        ensures was_or_gone { IsAsItWasOrGone self.file (D.view disk.old) (D.view disk.new) }
        ensures quiet { OnOk result (SameFaults (D.view disk.old) (D.view disk.new)) }
        ensures fault { IfErr result (λ fault. fault ≡ WorkFault.DiskFailed) }
    {
        scratch.remove(disk, self.file)
    }

    // Writes the page in memory where it is full, so that there is room for one more record.
    #[inline(always)]
    fn make_room<D: Disk>(&mut self, disk: &mut D, records: u64) -> Result<(), WorkFault>
        requires size { IsRecordSize K }
        requires per_page { records ≡ per_page R.bit_count }
        requires stands { ListStands R.bit_count self.old (D.view disk.old) }
        requires open { self.old.is_sealed ≡ false }
        ensures write { IsListWrite self.old self.new (D.view disk.old) (D.view disk.new) }
        ensures stands { OnOk result (ListStands R.bit_count self.new (D.view disk.new)) }
        ensures room { OnOk result (HasRoom R.bit_count self.old self.new) }
        ensures list { OnOk result ((xs : _) → ListHolds R.read R.bit_count self.old xs (D.view disk.old)
            → ListHolds R.read R.bit_count self.new xs (D.view disk.new)) }
        ensures failed { IsErrOf result WorkFault.DiskFailed
            → Rose (D.view disk.old).faults (D.view disk.new).faults }
        ensures quiet { SameFaultsBut WorkFault.DiskFailed result (D.view disk.old) (D.view disk.new) }
        ensures fault { IfErr result IsPageFault }
    {
        if self.used < records {
            return Ok(());
        }
        self.flush(disk)?;
        Ok(())
    }

    // Writes the page in memory behind those that are written.
    fn flush<D: Disk>(&mut self, disk: &mut D) -> Result<(), WorkFault>
        requires live { IsTrue ((D.view disk.old).is_live self.old.file) }
        requires there { IsThere self.old.file (D.view disk.old) }
        requires within { 65536 * self.old.written ≤ (D.view disk.old).size_of self.old.file }
        requires few { self.old.written < 2 ^ 46 }
        requires long { length self.old.bytes ≡ 65536 }
        ensures write { IsListWrite self.old self.new (D.view disk.old) (D.view disk.new) }
        ensures flushed { OnOk result (self.new ≡ flushed self.old) }
        ensures written { OnOk result (IsWritten self.old.file (65536 * self.old.written) self.old.bytes (D.view disk.old) (D.view disk.new)) }
        ensures failed { IsErrOf result WorkFault.DiskFailed
            → Rose (D.view disk.old).faults (D.view disk.new).faults }
        ensures quiet { SameFaultsBut WorkFault.DiskFailed result (D.view disk.old) (D.view disk.new) }
        ensures fault { IfErr result IsPageFault }
    {
        write_page(disk, self.file, self.written, self.bytes.as_slice())?;
        self.written += 1;
        self.page = self.written;
        self.used = 0;
        Ok(())
    }

    // Brings a page into memory where it is not there.
    #[inline(always)]
    fn ready<D: Disk>(&mut self, disk: &mut D, page: u64) -> Result<(), WorkFault>
        requires stands { ListStands R.bit_count self.old (D.view disk.old) }
        requires sealed { self.old.is_sealed ≡ true }
        requires there { page < self.old.written }
        requires few { self.old.written < 2 ^ 46 }
        ensures read { IsListRead self.old self.new (D.view disk.old) (D.view disk.new) }
        ensures reads { (D.view disk.new).reads ≡ reads_for page self.old (D.view disk.old) }
        ensures page { OnOk result (self.new.page ≡ page) }
        ensures stands { OnOk result (ListStands R.bit_count self.new (D.view disk.new)) }
        ensures list { OnOk result ((xs : _) → ListHolds R.read R.bit_count self.old xs (D.view disk.old)
            → ListHolds R.read R.bit_count self.new xs (D.view disk.new)) }
        ensures failed { OnErr result (Rose (D.view disk.old).faults (D.view disk.new).faults) }
        ensures quiet { OnOk result (SameFaults (D.view disk.old) (D.view disk.new)) }
        ensures fault { IfErr result (λ fault. fault ≡ WorkFault.DiskFailed) }
    {
        if self.page == page {
            return Ok(());
        }
        self.bring(disk, page)?;
        Ok(())
    }

    // Reads a page into memory.
    #[cold]
    fn bring<D: Disk>(&mut self, disk: &mut D, page: u64) -> Result<(), WorkFault>
        requires live { IsTrue ((D.view disk.old).is_live self.old.file) }
        requires there { IsThere self.old.file (D.view disk.old) }
        requires within { 65536 * page + 65536 ≤ (D.view disk.old).size_of self.old.file }
        requires few { page < 2 ^ 46 }
        requires long { length self.old.bytes ≡ 65536 }
        ensures read { IsListRead self.old self.new (D.view disk.old) (D.view disk.new) }
        ensures reads { (D.view disk.new).reads ≡ counted (D.view disk.old).reads }
        ensures page { OnOk result (self.new ≡ with_page self.old page self.new.bytes) }
        ensures long { length self.new.bytes ≡ 65536 }
        ensures bytes { OnOk result (AreBytesAt self.old.file (65536 * page) self.new.bytes (D.view disk.old)) }
        ensures failed { OnErr result (Rose (D.view disk.old).faults (D.view disk.new).faults) }
        ensures quiet { OnOk result (SameFaults (D.view disk.old) (D.view disk.new)) }
        ensures fault { IfErr result (λ fault. fault ≡ WorkFault.DiskFailed) }
    {
        read_page(disk, self.file, page, self.bytes.as_mut_slice())?;
        self.page = page;
        Ok(())
    }
}

// How many records a page has.
#[inline(always)]
fn records_on_page<R: Record<K>, const K: u32>() -> u64
    requires size { IsRecordSize K }
    ensures { result ≡ per_page R.bit_count }
{
    (PAGE_BITS / R::width()) as u64
}

// So many bytes hold a record that begins at any bit of the first one, and the window that its last bits are read by.
const WINDOW: usize = 80;

// As `take_at`, over a few bytes of the page where there are so many, so that one test serves all fields.
#[inline(always)]
fn record_at<R: Record<K>, const K: u32>(bytes: &[u8], at: u64) -> R
    requires size { IsRecordSize K }
    requires few { length bytes.now < 2 ^ 40 }
    requires there { at + R.bit_count ≤ 8 * length bytes.now }
    ensures { result ≡ R.read (part_at at R.bit_count (bits_of bytes.now)) }
{
    let byte = (at / 8) as usize;
    if bytes.len() - byte >= WINDOW {
        R::take_at(&bytes[byte..byte + WINDOW], at % 8)
    } else {
        R::take_at(bytes, at)
    }
}
