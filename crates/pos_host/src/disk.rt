// The disk over real files.
ghost use Rattle.std.specs.Prelude.{◌≡◌, ◌+◌, ◌<◌, ◌≤◌, ◌^◌, ◌++◌, ◌∷◌, [], ℕ, max, length, slice_get, slice_set, None, Some, IsTrue, vec_len, vec_capacity};
ghost use Rattle.pos_host.specs.Handles.{sizes_of};
ghost use Rattle.pos_edge.specs.Quiet.{quiet_view, quiet_is_disk, live_in, known_size, QuietCreates, QuietOpens, QuietReads, QuietWrites, QuietSyncs, QuietRemoves};

use crate::open::{HostFile, create_new, is_folder_synced, open_to_read};
use pos_edge::{CreateFault, Disk, DiskFailed, FileId, OpenFault, WriteFault};
use std::alloc::Global;
use std::fs;
use std::fs::File;
use std::io::ErrorKind;
use std::marker::Model;
use std::os::unix::fs::FileExt;
use std::rt::Files;

/// Real files, by their paths. It tells no contents, names or images.
///
/// - `create` makes a file that may be written; `open` opens one for reads alone, so nothing is written to a file that
///   the disk did not make: a write to another fails, and counts as a fault.
/// - What is no plain file, as a folder, a fifo or a device, is not opened: `open` answers `Failed`. A name below a plain
///   file, or longer than the system takes, is a name that no file has: `Absent`.
/// - A sync and a removal sync the folder too, since else a new file may be absent after a crash and a removed one return.
/// - Once a sync has failed each later one fails: the system may have dropped what was to be written, and says so once.
#[derive(Drop)]
pub struct HostDisk<'a, R: Files<File = File>> {
    rt: &'a R,
    alloc: Global,
    handles: Vec<Option<HostFile>>,
    faults: u64,
    reads: u64,
    is_sync_lost: bool,
}

impl<'a, R: Files<File = File>> Model for HostDisk<'a, R> {
    ghost use Rattle.std.specs.Prelude.{map, option_map, ◌<◌, ◌^◌};
    ghost use Rattle.pos_edge.specs.Quiet.{QuietState};

    ghost Value = { QuietState };

    ghost view = { λ s. record { faults = s.faults; reads = s.reads; sizes = map (option_map (λ file. file.size)) s.handles.items } };

    ghost invariant = { λ s. (s.faults < 2 ^ 64) × (s.reads < 2 ^ 64) };
}

impl<'a, R: Files<File = File>> HostDisk<'a, R> {
    /// The files that this runtime reaches.
    pub fn new(rt: &'a R, alloc: Global) -> HostDisk<'a, R> {
        HostDisk {
            rt,
            alloc,
            handles: Vec::new(alloc),
            faults: 0,
            reads: 0,
            is_sync_lost: false,
        }
    }

    fn make(&mut self, name: &str) -> Result<FileId, CreateFault>
        ensures { QuietCreates self.old result self.new }
    {
        if self.handles.reserve(1).is_err() {
            return Err(CreateFault::Memory);
        }
        let Ok(text) = String::from_str(self.alloc, name) else {
            return Err(CreateFault::Memory);
        };
        match create_new(self.rt, text) {
            Ok(open) => Ok(FileId(give(&mut self.handles, open))),
            Err(ErrorKind::AlreadyExists) => Err(CreateFault::Exists),
            Err(_) => {
                self.faults = self.faults.saturating_add(1);
                Err(CreateFault::Failed)
            }
        }
    }

    fn find(&mut self, name: &str) -> Result<FileId, OpenFault>
        ensures { QuietOpens self.old result self.new }
    {
        if self.handles.reserve(1).is_err() {
            return Err(OpenFault::Memory);
        }
        let Ok(text) = String::from_str(self.alloc, name) else {
            return Err(OpenFault::Memory);
        };
        match open_to_read(self.rt, text) {
            Ok(open) => Ok(FileId(give(&mut self.handles, open))),
            Err(ErrorKind::NotFound | ErrorKind::NotADirectory | ErrorKind::InvalidFilename) => {
                Err(OpenFault::Absent)
            }
            Err(_) => {
                self.faults = self.faults.saturating_add(1);
                Err(OpenFault::Failed)
            }
        }
    }

    fn read(&mut self, id: u64, at: u64, buf: &mut [u8]) -> Result<(), DiskFailed>
        requires { IsTrue (live_in (slice_get self.old.sizes id)) }
        ensures gives { QuietReads self.old result self.new }
        ensures fits { self.old.reads < 2 ^ 64 }
    {
        let is_read = match &self.handles[id as usize] {
            Some(open) => open.file.read_exact_at(buf, at).is_ok(),
            None => false,
        };
        self.reads = self.reads.saturating_add(1);
        if is_read {
            return Ok(());
        }
        self.faults = self.faults.saturating_add(1);
        Err(DiskFailed)
    }

    fn write(&mut self, id: u64, at: u64, bytes: &[u8]) -> Result<(), WriteFault>
        requires live { IsTrue (live_in (slice_get self.old.sizes id)) }
        requires fits { at + length bytes.now < 2 ^ 63 }
        ensures { (size : ℕ) → slice_get self.old.sizes id ≡ Some (Some size)
            → QuietWrites self.old id size (at + length bytes.now) result self.new }
    {
        let is_written = match &self.handles[id as usize] {
            Some(open) => open.file.write_all_at(bytes, at).is_ok(),
            None => false,
        };
        if !is_written {
            self.faults = self.faults.saturating_add(1);
            return Err(WriteFault::Failed);
        }
        raise(&mut self.handles, id as usize, at + bytes.len() as u64);
        Ok(())
    }

    fn settle(&mut self, id: u64) -> Result<(), DiskFailed>
        requires { IsTrue (live_in (slice_get self.old.sizes id)) }
        ensures { QuietSyncs self.old result self.new }
    {
        let is_synced = match &self.handles[id as usize] {
            Some(open) => open.file.sync_all().is_ok() && is_folder_synced(self.rt, &open.name),
            None => false,
        };
        if is_synced && !self.is_sync_lost {
            return Ok(());
        }
        self.is_sync_lost = true;
        self.faults = self.faults.saturating_add(1);
        Err(DiskFailed)
    }

    fn take(&mut self, id: u64) -> Result<(), DiskFailed>
        requires { IsTrue (live_in (slice_get self.old.sizes id)) }
        ensures { QuietRemoves self.old id result self.new }
    {
        let Some(open) = end(&mut self.handles, id as usize) else {
            self.faults = self.faults.saturating_add(1);
            return Err(DiskFailed);
        };
        let is_removed = fs::remove_file(self.rt, open.name.as_str()).is_ok();
        let is_synced = is_folder_synced(self.rt, &open.name);
        if is_removed && is_synced {
            return Ok(());
        }
        // A folder that was not synced may lack the names of other files too.
        self.is_sync_lost |= !is_synced;
        self.faults = self.faults.saturating_add(1);
        Err(DiskFailed)
    }
}

// One more open file, for which there is room. Its place is its number.
fn give(handles: &mut Vec<Option<HostFile>>, file: HostFile) -> u64
    requires { vec_len handles.old < vec_capacity handles.old }
    ensures id { result ≡ length handles.old.items }
    ensures sizes { sizes_of handles.new.items ≡ sizes_of handles.old.items ++ Some file.size ∷ [] }
{
    let id = handles.len() as u64;
    if handles.push(Some(file)).is_err() {
        unreachable!();
    }
    id
}

// The file has at least so many bytes.
fn raise(handles: &mut Vec<Option<HostFile>>, id: usize, end: u64)
    requires { id < vec_len handles.old }
    ensures { (size : ℕ) → slice_get (sizes_of handles.old.items) id ≡ Some (Some size)
        → sizes_of handles.new.items ≡ slice_set (sizes_of handles.old.items) id (Some (max size end)) }
{
    if let Some(open) = &mut handles[id] {
        open.size = open.size.max(end);
    }
}

// Gives up the file's place.
fn end(handles: &mut Vec<Option<HostFile>>, id: usize) -> Option<HostFile>
    requires { id < vec_len handles.old }
    ensures { sizes_of handles.new.items ≡ slice_set (sizes_of handles.old.items) id None }
{
    handles[id].take()
}

impl<'a, R: Files<File = File>> Disk for HostDisk<'a, R> {
    ghost view = { quiet_view };

    ghost is_disk = { quiet_is_disk };

    fn create(&mut self, name: &str) -> Result<FileId, CreateFault> {
        self.make(name)
    }

    fn open(&mut self, name: &str) -> Result<FileId, OpenFault> {
        self.find(name)
    }

    fn size(&self, file: FileId) -> u64 {
        match &self.handles[file.0 as usize] {
            Some(open) => open.size,
            None => 0,
        }
    }

    fn read_at(&mut self, file: FileId, at: u64, buf: &mut [u8]) -> Result<(), DiskFailed> {
        self.read(file.0, at, buf)
    }

    fn write_at(&mut self, file: FileId, at: u64, bytes: &[u8]) -> Result<(), WriteFault> {
        self.write(file.0, at, bytes)
    }

    fn sync(&mut self, file: FileId) -> Result<(), DiskFailed> {
        self.settle(file.0)
    }

    fn remove(&mut self, file: FileId) -> Result<(), DiskFailed> {
        self.take(file.0)
    }
}
