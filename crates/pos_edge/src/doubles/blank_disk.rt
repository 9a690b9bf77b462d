// A disk for tests that keeps no bytes.
ghost use Rattle.std.specs.Prelude.{◌≡◌, ◌+◌, ◌<◌, ◌≤◌, ◌^◌, ◌++◌, ◌∷◌, [], ◌↔◌, is_ok, if◌then◌else◌, ℕ, true, false, max, map, replicate, length, slice_get, slice_set, get_or, None, Some, IsTrue, IsOk, IsErrOf, IfOk, IfSome, IfNone, OnOk, OnErr, string_bytes, vec_len, vec_capacity};
ghost use Rattle.pos_edge.specs.Faults.{Rose, counted};
ghost use Rattle.pos_edge.specs.Frame.{ChangesOnly, ChangesFile, KeepsIds, SameFaults, SameFaultsBut, IsUntouched, Nothing, Just, NameOf};
ghost use Rattle.pos_edge.specs.Images.{ImagesBy, Tears, Stays, MayVanish};
ghost use Rattle.pos_edge.specs.Calls.{IsThere, WasThere, WasAbsent, IsCreated, IsHalfCreated, IsOpened, AreBytesAt, IsWritten, IsHalfWritten, SameContents, IsSynced, Ends, IsGone, IsAsItWasOrGone};
ghost use Rattle.pos_edge.specs.Quiet.{quiet_view, quiet_is_disk, live_in, known_size, QuietCreates, QuietOpens, QuietReads, QuietWrites, QuietSyncs, QuietRemoves};
ghost use Rattle.pos_edge.specs.BlankDisks.{HasName, HasLength, with_name, fresh_blank, quiet_of, blank_view};
ghost use Rattle.pos_edge.specs.BlankFiles.{blank_names, IsThereAt, lengthened, removed};

use crate::{CreateFault, Disk, DiskFailed, FileId, MAX_READ, OpenFault, WriteFault};
use std::alloc::Global;
use std::marker::Model;

/// A name that was used, whether its file is there, and how many bytes that has.
#[derive(Drop)]
struct BlankFile {
    name: String,
    there: bool,
    length: u64,
}

/// A `FileId` by its number: whether it is live, the place of its name, and how many bytes it knows of.
#[derive(Clone, Copy, Debug, PartialEq, Eq)]
pub struct BlankHandle {
    pub live: bool,
    pub slot: usize,
    pub size: u64,
}

/// A disk for tests. It keeps the names and the lengths of its files and no bytes, tells nothing,
/// reads zeros, and never fails.
#[derive(Drop)]
pub struct BlankDisk {
    alloc: Global,
    files: Vec<BlankFile>,
    handles: Vec<BlankHandle>,
    reads: u64,
}

impl Model for BlankDisk {
    ghost use Rattle.std.specs.Prelude.{◌<◌, ◌^◌};
    ghost use Rattle.pos_edge.specs.BlankDisks.{BlankState};

    ghost Value = { BlankState };

    ghost use Rattle.pos_edge.specs.BlankFiles.{blank_names};

    ghost view = { λ s. record { names = blank_names s.files.items; handles = s.handles.items; reads = s.reads } };

    ghost invariant = { λ s. s.reads < 2 ^ 64 };
}

impl BlankDisk {
    /// A disk with no files.
    pub fn new(alloc: Global) -> BlankDisk
        ensures { result ≡ fresh_blank }
    {
        BlankDisk {
            alloc,
            files: Vec::new(alloc),
            handles: Vec::new(alloc),
            reads: 0,
        }
    }

    fn make(&mut self, name: &str) -> Result<FileId, CreateFault>
        ensures gives { QuietCreates (quiet_of self.old) result (quiet_of self.new) }
        ensures exactly { IsErrOf result CreateFault.Exists ↔ HasName name.now self.old }
        ensures names { self.new.names ≡ (if is_ok result then with_name name.now self.old.names else self.old.names) }
        ensures made { OnOk result (HasLength name.now 0 self.new) }
        ensures never { IsErrOf result CreateFault.Failed → ⊥ }
    {
        if find(&self.files, name).is_some() {
            return Err(CreateFault::Exists);
        }
        if self.files.reserve(1).is_err() || self.handles.reserve(1).is_err() {
            return Err(CreateFault::Memory);
        }
        let Ok(text) = String::from_str(self.alloc, name) else {
            return Err(CreateFault::Memory);
        };
        let slot = self.files.len();
        add(&mut self.files, text);
        Ok(FileId(give(&mut self.handles, slot, 0)))
    }

    fn find(&mut self, name: &str) -> Result<FileId, OpenFault>
        ensures gives { QuietOpens (quiet_of self.old) result (quiet_of self.new) }
        ensures exactly { IsErrOf result OpenFault.Absent ↔ (HasName name.now self.old → ⊥) }
        ensures names { self.new.names ≡ self.old.names }
        ensures size { IfOk result (λ file. HasLength name.now (known_size (slice_get (quiet_of self.new).sizes file.0)) self.old) }
        ensures never { IsErrOf result OpenFault.Failed → ⊥ }
    {
        let Some(slot) = find(&self.files, name) else {
            return Err(OpenFault::Absent);
        };
        if self.handles.reserve(1).is_err() {
            return Err(OpenFault::Memory);
        }
        let size = self.files[slot].length;
        Ok(FileId(give(&mut self.handles, slot, size)))
    }

    fn read(&mut self, buf: &mut [u8])
        ensures gives { (self.new.reads ≡ counted self.old.reads) × (self.new.handles ≡ self.old.handles) × (self.new.names ≡ self.old.names) }
        ensures zeros { buf.new ≡ replicate (length buf.old) 0 }
        ensures fits { self.old.reads < 2 ^ 64 }
    {
        self.reads = self.reads.saturating_add(1);
        buf.fill(0);
    }

    fn write(&mut self, id: u64, end: u64)
        requires { IsTrue (live_in (slice_get (quiet_of self.old).sizes id)) }
        ensures sizes { (size : ℕ) → slice_get (quiet_of self.old).sizes id ≡ Some (Some size)
            → (quiet_of self.new).sizes ≡ slice_set (quiet_of self.old).sizes id (Some (max size end)) }
        ensures names { (handle : BlankHandle) → slice_get self.old.handles id ≡ Some handle
            → self.new.names ≡ lengthened handle.slot end self.old.names }
        ensures reads { self.new.reads ≡ self.old.reads }
    {
        let handle = self.handles[id as usize];
        raise(&mut self.files, handle.slot, end);
        let size = handle.size.max(end);
        self.handles[id as usize] = BlankHandle { size, ..handle };
    }

    fn take(&mut self, id: u64)
        requires { IsTrue (live_in (slice_get (quiet_of self.old).sizes id)) }
        ensures sizes { (quiet_of self.new).sizes ≡ slice_set (quiet_of self.old).sizes id None }
        ensures names { (handle : BlankHandle) → slice_get self.old.handles id ≡ Some handle
            → self.new.names ≡ removed handle.slot self.old.names }
        ensures reads { self.new.reads ≡ self.old.reads }
    {
        let handle = self.handles[id as usize];
        forget(&mut self.files, handle.slot);
        self.handles[id as usize] = BlankHandle {
            live: false,
            ..handle
        };
    }
}

impl Disk for BlankDisk {
    ghost view = { blank_view };

    ghost is_disk = { λ disk. quiet_is_disk (quiet_of disk) };

    fn create(&mut self, name: &str) -> Result<FileId, CreateFault>
        ensures kept { ChangesOnly (Just name.now) Nothing (blank_view self.old) (blank_view self.new) }
        ensures reads { (blank_view self.new).reads ≡ (blank_view self.old).reads }
        ensures ok { IfOk result (λ file. IsCreated name.now file.0 (blank_view self.old) (blank_view self.new)) }
        ensures exists { IsErrOf result CreateFault.Exists
            → WasThere name.now (blank_view self.old) × IsUntouched (blank_view self.old) (blank_view self.new) }
        ensures failed { IsErrOf result CreateFault.Failed
            → IsHalfCreated name.now (blank_view self.old) (blank_view self.new) }
        ensures memory { IsErrOf result CreateFault.Memory → IsUntouched (blank_view self.old) (blank_view self.new) }
        ensures quiet { SameFaultsBut CreateFault.Failed result (blank_view self.old) (blank_view self.new) }
        // It is by the names that are kept, and doesn't fail.
        ensures exactly { IsErrOf result CreateFault.Exists ↔ HasName name.now self.old }
        ensures names { self.new.names ≡ (if is_ok result then with_name name.now self.old.names else self.old.names) }
        ensures made { OnOk result (HasLength name.now 0 self.new) }
        ensures never { IsErrOf result CreateFault.Failed → ⊥ }
    {
        self.make(name)
    }

    fn open(&mut self, name: &str) -> Result<FileId, OpenFault>
        ensures kept { ChangesOnly Nothing Nothing (blank_view self.old) (blank_view self.new) }
        ensures reads { (blank_view self.new).reads ≡ (blank_view self.old).reads }
        ensures ok { IfOk result (λ file. IsOpened name.now file.0 (blank_view self.old) (blank_view self.new)) }
        ensures absent { IsErrOf result OpenFault.Absent
            → WasAbsent name.now (blank_view self.old) × IsUntouched (blank_view self.old) (blank_view self.new) }
        ensures failed { IsErrOf result OpenFault.Failed
            → Rose (blank_view self.old).faults (blank_view self.new).faults × KeepsIds Nothing (blank_view self.old) (blank_view self.new) }
        ensures memory { IsErrOf result OpenFault.Memory → IsUntouched (blank_view self.old) (blank_view self.new) }
        ensures quiet { SameFaultsBut OpenFault.Failed result (blank_view self.old) (blank_view self.new) }
        ensures exactly { IsErrOf result OpenFault.Absent ↔ (HasName name.now self.old → ⊥) }
        ensures names { self.new.names ≡ self.old.names }
        ensures length { IfOk result (λ file. HasLength name.now ((blank_view self.new).size_of file.0) self.old) }
        ensures never { IsErrOf result OpenFault.Failed → ⊥ }
    {
        self.find(name)
    }

    fn size(&self, file: FileId) -> u64 {
        self.handles[file.0 as usize].size
    }

    fn read_at(&mut self, file: FileId, at: u64, buf: &mut [u8]) -> Result<(), DiskFailed>
        requires live { IsTrue ((blank_view self.old).is_live file.0) }
        requires there { IsThere file.0 (blank_view self.old) }
        requires short { length buf.old ≤ MAX_READ }
        requires within { at + length buf.old ≤ (blank_view self.old).size_of file.0 }
        ensures kept { ChangesOnly Nothing Nothing (blank_view self.old) (blank_view self.new) }
        ensures reads { (blank_view self.new).reads ≡ counted (blank_view self.old).reads }
        ensures ids { KeepsIds Nothing (blank_view self.old) (blank_view self.new) }
        ensures ok { OnOk result (AreBytesAt file.0 at buf.new (blank_view self.old)) }
        ensures failed { OnErr result (Rose (blank_view self.old).faults (blank_view self.new).faults) }
        ensures quiet { OnOk result (SameFaults (blank_view self.old) (blank_view self.new)) }
        ensures zeros { buf.new ≡ replicate (length buf.old) 0 }
        ensures names { self.new.names ≡ self.old.names }
        ensures never { IsOk result }
    {
        self.read(buf);
        Ok(())
    }

    fn write_at(&mut self, file: FileId, at: u64, bytes: &[u8]) -> Result<(), WriteFault>
        requires live { IsTrue ((blank_view self.old).is_live file.0) }
        requires there { IsThere file.0 (blank_view self.old) }
        requires within { at ≤ (blank_view self.old).size_of file.0 }
        requires fits { at + length bytes.now < 2 ^ 63 }
        ensures kept { ChangesFile file.0 (blank_view self.old) (blank_view self.new) }
        ensures reads { (blank_view self.new).reads ≡ (blank_view self.old).reads }
        ensures ids { KeepsIds Nothing (blank_view self.old) (blank_view self.new) }
        ensures images { ImagesBy (Tears at (length bytes.now)) file.0 (blank_view self.old) (blank_view self.new) }
        ensures ok { OnOk result (IsWritten file.0 at bytes.now (blank_view self.old) (blank_view self.new)) }
        ensures failed { IsErrOf result WriteFault.Failed
            → IsHalfWritten file.0 at (length bytes.now) (blank_view self.old) (blank_view self.new) }
        ensures memory { IsErrOf result WriteFault.Memory → IsUntouched (blank_view self.old) (blank_view self.new) }
        ensures quiet { SameFaultsBut WriteFault.Failed result (blank_view self.old) (blank_view self.new) }
        ensures names { (handle : BlankHandle) → slice_get self.old.handles file.0 ≡ Some handle
            → self.new.names ≡ lengthened handle.slot (at + length bytes.now) self.old.names }
        ensures never { IsOk result }
    {
        self.write(file.0, at + bytes.len() as u64);
        Ok(())
    }

    fn sync(&mut self, _file: FileId) -> Result<(), DiskFailed>
        requires live { IsTrue ((blank_view self.old).is_live _file.0) }
        requires there { IsThere _file.0 (blank_view self.old) }
        ensures kept { ChangesOnly (NameOf _file.0 (blank_view self.old)) Nothing (blank_view self.old) (blank_view self.new) }
        ensures reads { (blank_view self.new).reads ≡ (blank_view self.old).reads }
        ensures ids { KeepsIds Nothing (blank_view self.old) (blank_view self.new) }
        ensures contents { SameContents (blank_view self.old) (blank_view self.new) }
        ensures images { ImagesBy Stays _file.0 (blank_view self.old) (blank_view self.new) }
        ensures ok { OnOk result (IsSynced _file.0 (blank_view self.new)) }
        ensures failed { OnErr result (Rose (blank_view self.old).faults (blank_view self.new).faults) }
        ensures quiet { OnOk result (SameFaults (blank_view self.old) (blank_view self.new)) }
        ensures same { self.new ≡ self.old }
        ensures never { IsOk result }
    {
        Ok(())
    }

    fn remove(&mut self, file: FileId) -> Result<(), DiskFailed>
        requires live { IsTrue ((blank_view self.old).is_live file.0) }
        requires there { IsThere file.0 (blank_view self.old) }
        ensures kept { ChangesOnly (NameOf file.0 (blank_view self.old)) (Just file.0) (blank_view self.old) (blank_view self.new) }
        ensures reads { (blank_view self.new).reads ≡ (blank_view self.old).reads }
        ensures ends { Ends file.0 (blank_view self.old) (blank_view self.new) }
        ensures images { ImagesBy MayVanish file.0 (blank_view self.old) (blank_view self.new) }
        ensures ok { OnOk result (IsGone file.0 (blank_view self.old) (blank_view self.new)) }
        ensures failed { OnErr result (Rose (blank_view self.old).faults (blank_view self.new).faults) }
        ensures quiet { OnOk result (SameFaults (blank_view self.old) (blank_view self.new)) }
        ensures left { IsAsItWasOrGone file.0 (blank_view self.old) (blank_view self.new) }
        ensures names { (handle : BlankHandle) → slice_get self.old.handles file.0 ≡ Some handle
            → self.new.names ≡ removed handle.slot self.old.names }
        ensures never { IsOk result }
    {
        self.take(file.0);
        Ok(())
    }
}

// The place of a file that is there.
fn find(files: &[BlankFile], name: &str) -> Option<usize>
    ensures found { IfSome result (λ i. (i < length files.now) × IsThereAt (blank_names files.now) i name.now) }
    ensures none { IfNone result ((i : ℕ) → i < length files.now → IsThereAt (blank_names files.now) i name.now → ⊥) }
{
    for (i, file) in files.iter().enumerate() {
        if file.there && file.name.as_str() == name {
            return Some(i);
        }
    }
    None
}

// One more empty file, for which there is room.
fn add(files: &mut Vec<BlankFile>, name: String)
    requires { vec_len files.old < vec_capacity files.old }
    ensures { blank_names files.new.items ≡ blank_names files.old.items ++ record { name = string_bytes name; there = true; length = 0 } ∷ [] }
{
    let file = BlankFile {
        name,
        there: true,
        length: 0,
    };
    if files.push(file).is_err() {
        unreachable!();
    }
}

// One more handle, for which there is room. Its place is its number.
fn give(handles: &mut Vec<BlankHandle>, slot: usize, size: u64) -> u64
    requires { vec_len handles.old < vec_capacity handles.old }
    ensures id { result ≡ length handles.old.items }
    ensures items { handles.new.items ≡ handles.old.items ++ record { live = true; slot = slot; size = size } ∷ [] }
{
    let id = handles.len() as u64;
    let handle = BlankHandle {
        live: true,
        slot,
        size,
    };
    if handles.push(handle).is_err() {
        unreachable!();
    }
    id
}

// The file has at least so many bytes.
fn raise(files: &mut Vec<BlankFile>, slot: usize, end: u64)
    ensures { blank_names files.new.items ≡ lengthened slot end (blank_names files.old.items) }
{
    if slot < files.len() {
        let file = &mut files[slot];
        file.length = file.length.max(end);
    }
}

// The file is gone.
fn forget(files: &mut Vec<BlankFile>, slot: usize)
    ensures { blank_names files.new.items ≡ removed slot (blank_names files.old.items) }
{
    if slot < files.len() {
        files[slot].there = false;
    }
}
