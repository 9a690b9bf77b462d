// A disk in memory, which fails at calls that were named before.
ghost use Rattle.std.specs.Prelude.{◌≡◌, ◌+◌, ◌^◌, ◌<◌, ◌≤◌, ◌↔◌, ℕ, List, [], length, slice_get, option_map, if◌then◌else◌, Some, None, IsTrue, IsErr, IsErrOf, IfOk, IfSome, IfNone, IsNone, OnOk, OnErr};
ghost use Rattle.pos_edge.specs.Faults.{Rose, counted};
ghost use Rattle.pos_edge.specs.Frame.{ChangesOnly, ChangesFile, KeepsIds, SameFaults, SameFaultsBut, IsUntouched, Nothing, Just, NameOf};
ghost use Rattle.pos_edge.specs.Images.{ImagesBy, Tears, Stays, MayVanish};
ghost use Rattle.pos_edge.specs.Calls.{IsThere, WasThere, WasAbsent, IsCreated, IsHalfCreated, IsOpened, AreBytesAt, IsWritten, IsHalfWritten, SameContents, IsSynced, Ends, IsGone, IsAsItWasOrGone};
ghost use Rattle.pos_edge.specs.Log.{contents_of, state_of, IsImage};
ghost use Rattle.pos_edge.specs.MemoryDisks.{OpenFile, DiskState, memory_view, fresh_disk, FailsAtCall, CanUse, CreateGives, OpenGives, ReadGives, WriteGives, SyncGives, RemoveGives, IsSoundDisk, image_after, placed, passed, failed, history_in};
ghost use Rattle.pos_edge.specs.MemoryLaws.{memory_is_disk};

use super::history::History;
use crate::{CreateFault, Disk, DiskFailed, FileId, MAX_READ, Memory, OpenFault, WriteFault};
use std::alloc::Global;
use std::marker::Model;

/// Files in memory with all that happened to them. It tells everything. The calls of the trait but `size`
/// are counted from 0, and those that are named when it is made fail and change no file.
/// Contracts see the history, the `FileId`s given, the counts, and what it was made with.
#[derive(Drop)]
pub struct MemoryDisk {
    history: History,
    calls: u64,
    faults: u64,
    reads: u64,
    failing: Vec<u64>,
    limit: Option<u64>,
}

impl Model for MemoryDisk {
    ghost use Rattle.pos_edge.specs.MemoryDisks.{DiskState};

    ghost Value = { DiskState };

    ghost view = { λ s. record { log = s.history.log; open_files = s.history.open_files; calls = s.calls; faults = s.faults; reads = s.reads; failing = s.failing.items; limit = s.limit } };

    ghost use Rattle.std.specs.Prelude.{◌<◌, ◌^◌};

    ghost invariant = { λ s. (s.faults < 2 ^ 64) × (s.reads < 2 ^ 64) };
}

impl MemoryDisk {
    /// A disk with no files. A call whose number stands in `failing` fails.
    pub fn new(alloc: Global, failing: Vec<u64>) -> MemoryDisk
        ensures { result ≡ fresh_disk failing.items None }
    {
        MemoryDisk {
            history: History::new(alloc),
            calls: 0,
            faults: 0,
            reads: 0,
            failing,
            limit: None,
        }
    }

    /// A disk with no files that lets so many calls pass, and fails each later one.
    pub fn stopping(alloc: Global, calls: u64) -> MemoryDisk
        ensures { result ≡ fresh_disk [] (Some calls) }
    {
        MemoryDisk {
            history: History::new(alloc),
            calls: 0,
            faults: 0,
            reads: 0,
            failing: Vec::new(alloc),
            limit: Some(calls),
        }
    }

    /// Puts a synced file there. It is no counted call. After `Memory` nothing has changed.
    pub fn add(&mut self, name: &str, bytes: &[u8]) -> Result<(), Memory>
        requires { contents_of name.now self.old.log ≡ None }
        ensures ok { OnOk result (self.new ≡ placed name.now bytes.now self.old) }
        ensures memory { OnErr result (self.new ≡ self.old) }
    {
        self.history.add(name, bytes).map_err(|_| Memory)
    }

    /// The bytes under a name. None where no file has it.
    pub fn contents(&self, name: &str) -> Option<&[u8]>
        ensures there { IfSome result (λ bytes. contents_of name.now self.now.log ≡ Some bytes.now) }
        ensures absent { IsNone result ↔ (contents_of name.now self.now.log ≡ None) }
    {
        self.history.contents(name)
    }

    /// How many calls were made.
    pub fn calls(&self) -> u64
        ensures { result ≡ self.now.calls }
    {
        self.calls
    }

    /// One image of a file: its bytes at the last sync since it was made, with so many of the later writes.
    /// None where there is no file, or it was not synced since it was made and `writes` is 0.
    pub fn image(&self, alloc: Global, name: &str, writes: u64) -> Result<Option<Vec<u8>>, Memory>
        ensures shown { IfOk result (λ image. option_map (λ v. v.items) image ≡ image_after writes (state_of name.now self.now.log).file) }
        // It is one of the images that the disk tells.
        ensures told { IfOk result (λ image. (memory_view self.now).image name.now (length self.now.log) (option_map (λ v. v.items) image)) }
    {
        self.history.image(alloc, name, writes).map_err(|_| Memory)
    }

    // Counts the call, and tells whether it is one that is to fail.
    fn fails(&mut self) -> bool
        ensures cause { IsTrue result ↔ FailsAtCall self.old }
        ensures counts { self.new ≡ (if result then failed self.old else passed self.old) }
        ensures sound { IsSoundDisk self.old }
    {
        self.history.known();
        let stopped = match self.limit {
            Some(limit) => limit <= self.calls,
            None => false,
        };
        let fails = stopped || self.failing.contains(&self.calls);
        self.calls = self.calls.saturating_add(1);
        if fails {
            self.faults = self.faults.saturating_add(1);
        }
        fails
    }

    fn make(&mut self, name: &str) -> Result<FileId, CreateFault>
        ensures gives { CreateGives self.old name.now result self.new }
        ensures sound { IsSoundDisk self.old }
    {
        if self.fails() {
            return Err(CreateFault::Failed);
        }
        match self.history.make(name) {
            Ok(Some(id)) => Ok(FileId(id)),
            Ok(None) => Err(CreateFault::Exists),
            Err(_) => Err(CreateFault::Memory),
        }
    }

    fn find(&mut self, name: &str) -> Result<FileId, OpenFault>
        ensures gives { OpenGives self.old name.now result self.new }
        ensures sound { IsSoundDisk self.old }
    {
        if self.fails() {
            return Err(OpenFault::Failed);
        }
        match self.history.open(name) {
            Ok(Some(id)) => Ok(FileId(id)),
            Ok(None) => Err(OpenFault::Absent),
            Err(_) => Err(OpenFault::Memory),
        }
    }

    fn read(&mut self, file: FileId, at: u64, buf: &mut [u8]) -> Result<(), DiskFailed>
        requires { (used : OpenFile) × CanUse (history_in self.old) file.0 used × (at + length buf.old ≤ used.size) }
        ensures gives { (used : OpenFile) → CanUse (history_in self.old) file.0 used
            → ReadGives self.old used at buf.new result self.new }
        ensures sound { IsSoundDisk self.old }
    {
        let fails = self.fails();
        self.reads = self.reads.saturating_add(1);
        if fails {
            return Err(DiskFailed);
        }
        self.history.read(file.0, at, buf);
        Ok(())
    }

    fn write(&mut self, file: FileId, at: u64, bytes: &[u8]) -> Result<(), WriteFault>
        requires usable { (used : OpenFile) × CanUse (history_in self.old) file.0 used × (at ≤ used.size) }
        requires fits { at + length bytes.now < 2 ^ 63 }
        ensures gives { (used : OpenFile) → CanUse (history_in self.old) file.0 used
            → WriteGives self.old file.0 used at bytes.now result self.new }
        ensures sound { IsSoundDisk self.old }
    {
        if self.fails() {
            return Err(WriteFault::Failed);
        }
        self.history
            .write(file.0, at, bytes)
            .map_err(|_| WriteFault::Memory)
    }

    fn settle(&mut self, file: FileId) -> Result<(), DiskFailed>
        requires { (used : OpenFile) × CanUse (history_in self.old) file.0 used }
        ensures gives { (used : OpenFile) → CanUse (history_in self.old) file.0 used → SyncGives self.old used result self.new }
        ensures sound { IsSoundDisk self.old }
    {
        if self.fails() {
            return Err(DiskFailed);
        }
        self.history.sync(file.0);
        Ok(())
    }

    fn take(&mut self, file: FileId) -> Result<(), DiskFailed>
        requires { (used : OpenFile) × CanUse (history_in self.old) file.0 used }
        ensures gives { (used : OpenFile) → CanUse (history_in self.old) file.0 used
            → RemoveGives self.old file.0 used result self.new }
        ensures sound { IsSoundDisk self.old }
    {
        if self.fails() {
            self.history.end(file.0);
            return Err(DiskFailed);
        }
        self.history.remove(file.0);
        Ok(())
    }
}

impl Disk for MemoryDisk {
    ghost view = { memory_view };

    ghost is_disk = { memory_is_disk };

    fn create(&mut self, name: &str) -> Result<FileId, CreateFault>
        ensures kept { ChangesOnly (Just name.now) Nothing (memory_view self.old) (memory_view self.new) }
        ensures reads { (memory_view self.new).reads ≡ (memory_view self.old).reads }
        ensures ok { IfOk result (λ file. IsCreated name.now file.0 (memory_view self.old) (memory_view self.new)) }
        ensures exists { IsErrOf result CreateFault.Exists
            → WasThere name.now (memory_view self.old) × IsUntouched (memory_view self.old) (memory_view self.new) }
        ensures failed { IsErrOf result CreateFault.Failed
            → IsHalfCreated name.now (memory_view self.old) (memory_view self.new) }
        ensures memory { IsErrOf result CreateFault.Memory → IsUntouched (memory_view self.old) (memory_view self.new) }
        ensures quiet { SameFaultsBut CreateFault.Failed result (memory_view self.old) (memory_view self.new) }
        // It fails exactly where this call is to fail.
        ensures fails { IsErrOf result CreateFault.Failed ↔ FailsAtCall self.old }
        ensures exactly { CreateGives self.old name.now result self.new }
    {
        self.make(name)
    }

    fn open(&mut self, name: &str) -> Result<FileId, OpenFault>
        ensures kept { ChangesOnly Nothing Nothing (memory_view self.old) (memory_view self.new) }
        ensures reads { (memory_view self.new).reads ≡ (memory_view self.old).reads }
        ensures ok { IfOk result (λ file. IsOpened name.now file.0 (memory_view self.old) (memory_view self.new)) }
        ensures absent { IsErrOf result OpenFault.Absent
            → WasAbsent name.now (memory_view self.old) × IsUntouched (memory_view self.old) (memory_view self.new) }
        ensures failed { IsErrOf result OpenFault.Failed
            → Rose (memory_view self.old).faults (memory_view self.new).faults × KeepsIds Nothing (memory_view self.old) (memory_view self.new) }
        ensures memory { IsErrOf result OpenFault.Memory → IsUntouched (memory_view self.old) (memory_view self.new) }
        ensures quiet { SameFaultsBut OpenFault.Failed result (memory_view self.old) (memory_view self.new) }
        ensures fails { IsErrOf result OpenFault.Failed ↔ FailsAtCall self.old }
        ensures exactly { OpenGives self.old name.now result self.new }
    {
        self.find(name)
    }

    fn size(&self, file: FileId) -> u64 {
        self.history.size(file.0)
    }

    fn read_at(&mut self, file: FileId, at: u64, buf: &mut [u8]) -> Result<(), DiskFailed>
        requires live { IsTrue ((memory_view self.old).is_live file.0) }
        requires there { IsThere file.0 (memory_view self.old) }
        requires short { length buf.old ≤ MAX_READ }
        requires within { at + length buf.old ≤ (memory_view self.old).size_of file.0 }
        ensures kept { ChangesOnly Nothing Nothing (memory_view self.old) (memory_view self.new) }
        ensures reads { (memory_view self.new).reads ≡ counted (memory_view self.old).reads }
        ensures ids { KeepsIds Nothing (memory_view self.old) (memory_view self.new) }
        ensures ok { OnOk result (AreBytesAt file.0 at buf.new (memory_view self.old)) }
        ensures failed { OnErr result (Rose (memory_view self.old).faults (memory_view self.new).faults) }
        ensures quiet { OnOk result (SameFaults (memory_view self.old) (memory_view self.new)) }
        ensures fails { IsErr result ↔ FailsAtCall self.old }
        ensures exactly { (used : OpenFile) → CanUse (history_in self.old) file.0 used
            → ReadGives self.old used at buf.new result self.new }
    {
        self.read(file, at, buf)
    }

    fn write_at(&mut self, file: FileId, at: u64, bytes: &[u8]) -> Result<(), WriteFault>
        requires live { IsTrue ((memory_view self.old).is_live file.0) }
        requires there { IsThere file.0 (memory_view self.old) }
        requires within { at ≤ (memory_view self.old).size_of file.0 }
        requires fits { at + length bytes.now < 2 ^ 63 }
        ensures kept { ChangesFile file.0 (memory_view self.old) (memory_view self.new) }
        ensures reads { (memory_view self.new).reads ≡ (memory_view self.old).reads }
        ensures ids { KeepsIds Nothing (memory_view self.old) (memory_view self.new) }
        ensures images { ImagesBy (Tears at (length bytes.now)) file.0 (memory_view self.old) (memory_view self.new) }
        ensures ok { OnOk result (IsWritten file.0 at bytes.now (memory_view self.old) (memory_view self.new)) }
        ensures failed { IsErrOf result WriteFault.Failed
            → IsHalfWritten file.0 at (length bytes.now) (memory_view self.old) (memory_view self.new) }
        ensures memory { IsErrOf result WriteFault.Memory → IsUntouched (memory_view self.old) (memory_view self.new) }
        ensures quiet { SameFaultsBut WriteFault.Failed result (memory_view self.old) (memory_view self.new) }
        ensures fails { IsErrOf result WriteFault.Failed ↔ FailsAtCall self.old }
        ensures exactly { (used : OpenFile) → CanUse (history_in self.old) file.0 used
            → WriteGives self.old file.0 used at bytes.now result self.new }
    {
        self.write(file, at, bytes)
    }

    fn sync(&mut self, file: FileId) -> Result<(), DiskFailed>
        requires live { IsTrue ((memory_view self.old).is_live file.0) }
        requires there { IsThere file.0 (memory_view self.old) }
        ensures kept { ChangesOnly (NameOf file.0 (memory_view self.old)) Nothing (memory_view self.old) (memory_view self.new) }
        ensures reads { (memory_view self.new).reads ≡ (memory_view self.old).reads }
        ensures ids { KeepsIds Nothing (memory_view self.old) (memory_view self.new) }
        ensures contents { SameContents (memory_view self.old) (memory_view self.new) }
        ensures images { ImagesBy Stays file.0 (memory_view self.old) (memory_view self.new) }
        ensures ok { OnOk result (IsSynced file.0 (memory_view self.new)) }
        ensures failed { OnErr result (Rose (memory_view self.old).faults (memory_view self.new).faults) }
        ensures quiet { OnOk result (SameFaults (memory_view self.old) (memory_view self.new)) }
        ensures fails { IsErr result ↔ FailsAtCall self.old }
        ensures exactly { (used : OpenFile) → CanUse (history_in self.old) file.0 used
            → SyncGives self.old used result self.new }
    {
        self.settle(file)
    }

    fn remove(&mut self, file: FileId) -> Result<(), DiskFailed>
        requires live { IsTrue ((memory_view self.old).is_live file.0) }
        requires there { IsThere file.0 (memory_view self.old) }
        ensures kept { ChangesOnly (NameOf file.0 (memory_view self.old)) (Just file.0) (memory_view self.old) (memory_view self.new) }
        ensures reads { (memory_view self.new).reads ≡ (memory_view self.old).reads }
        ensures ends { Ends file.0 (memory_view self.old) (memory_view self.new) }
        ensures images { ImagesBy MayVanish file.0 (memory_view self.old) (memory_view self.new) }
        ensures ok { OnOk result (IsGone file.0 (memory_view self.old) (memory_view self.new)) }
        ensures failed { OnErr result (Rose (memory_view self.old).faults (memory_view self.new).faults) }
        ensures quiet { OnOk result (SameFaults (memory_view self.old) (memory_view self.new)) }
        ensures left { IsAsItWasOrGone file.0 (memory_view self.old) (memory_view self.new) }
        ensures fails { IsErr result ↔ FailsAtCall self.old }
        ensures exactly { (used : OpenFile) → CanUse (history_in self.old) file.0 used
            → RemoveGives self.old file.0 used result self.new }
    {
        self.take(file)
    }
}
