// Files in memory with all that happened to them.
ghost use Rattle.std.specs.Prelude.{◌≡◌, ◌≢◌, ◌+◌, ◌<◌, ◌≤◌, ◌^◌, All, ℕ, true, List, [], ◌∷◌, ◌++◌, length, map, fold, slice_get, slice_range, option_map, Some, None, IsTrue, get_or, OnOk, OnErr, IfOk, IfSome, IfNone, string_bytes, vec_len, vec_capacity};
ghost use Rattle.pos_edge.specs.Images.{written};
ghost use Rattle.pos_edge.specs.Log.{Writing as Act_Writing, Removing as Act_Removing, acted, never, state_of, contents_of};
ghost use Rattle.pos_edge.specs.Histories.{cache_of, made_file, written_file, synced_file, gone_file, placed_file, KeepsOrAdds, IsReplayedFile, act_of, seen_at};
ghost use Rattle.pos_edge.specs.MemoryDisks.{OpenFile, IsSoundHandle, CanUse, MakeGives, FindGives, noted_in, replaced_in, placed_in, synced_in, grown, ended, live_of, size_in, image_after};

use std::alloc::{AllocError, Global};
use std::marker::Model;

/// What a call did to a file that it changed.
#[derive(Drop)]
enum Deed {
    Made,
    Wrote(u64, Vec<u8>),
    Synced,
    Gone,
}

/// One such call: the place of the file's name, and what was done.
#[derive(Drop)]
struct Entry {
    slot: usize,
    deed: Deed,
}

/// A `FileId` by its number: whether it is live, the place of its file's name, how often that name
/// had been removed when it was given, and how many bytes it is known to have.
#[derive(Clone, Copy)]
struct Handle {
    live: bool,
    slot: usize,
    removals: usize,
    size: u64,
}

/// What is kept for a name: whether a file is there, whether it needs no sync, its bytes, and how
/// often the name was removed.
#[derive(Drop)]
struct MemoryFile {
    there: bool,
    clean: bool,
    bytes: Vec<u8>,
    removals: usize,
}

/// Files in memory. Contracts see the history, and the `FileId`s given so far.
#[derive(Drop)]
pub(crate) struct History {
    alloc: Global,
    names: Vec<String>,
    files: Vec<MemoryFile>,
    handles: Vec<Handle>,
    log: Vec<Entry>,
}

impl Model for History {
    ghost use Rattle.pos_edge.specs.MemoryDisks.{HistoryState};

    ghost Value = { HistoryState };

    ghost use Rattle.pos_edge.specs.Histories.{history_of, HoldsInside};

    ghost view = { history_of };

    ghost invariant = { HoldsInside };
}

impl History {
    /// No file was made yet.
    pub(crate) fn new(alloc: Global) -> History
        ensures { result ≡ record { log = []; open_files = [] } }
    {
        History {
            alloc,
            names: Vec::new(alloc),
            files: Vec::new(alloc),
            handles: Vec::new(alloc),
            log: Vec::new(alloc),
        }
    }

    // Tells a caller what holds of every history.
    pub(crate) fn known(&self)
        ensures { All (IsSoundHandle self.now.log) self.now.open_files }
    {
        let _names = &self.names;
    }

    /// Makes an empty file, and gives a `FileId` for it. None where the name is there.
    pub(crate) fn make(&mut self, name: &str) -> Result<Option<u64>, AllocError>
        ensures { MakeGives self.old name.now result self.new }
    {
        let slot = slot_of(self.alloc, &mut self.names, &mut self.files, name)?;
        if self.files[slot].there {
            return Ok(None);
        }
        make_room(&mut self.log, self.files.len(), self.handles.len())?;
        self.handles.reserve(1)?;
        let removals = make_file(&mut self.files[slot]);
        note(&mut self.log, slot, Deed::Made);
        Ok(Some(give(&mut self.handles, slot, removals, 0)))
    }

    /// Gives a `FileId` for the file of this name. None where the name is not there.
    pub(crate) fn open(&mut self, name: &str) -> Result<Option<u64>, AllocError>
        ensures { FindGives self.old name.now result self.new }
    {
        let Some(slot) = find(&self.names, name) else {
            return Ok(None);
        };
        if !self.files[slot].there {
            return Ok(None);
        }
        make_room(&mut self.log, self.files.len(), self.handles.len())?;
        self.handles.reserve(1)?;
        let removals = self.files[slot].removals;
        let size = self.files[slot].bytes.len() as u64;
        Ok(Some(give(&mut self.handles, slot, removals, size)))
    }

    /// Writes a piece. Where memory is short nothing changes.
    pub(crate) fn write(&mut self, id: u64, at: u64, piece: &[u8]) -> Result<(), AllocError>
        requires usable { (file : OpenFile) × CanUse self.old id file × (at ≤ file.size) }
        requires fits { at + length piece.now < 2 ^ 63 }
        ensures ok { (file : OpenFile) → CanUse self.old id file → OnOk result (self.new
            ≡ replaced_in id (grown (at + length piece.now) file) (noted_in file.name (Act_Writing at piece.now) self.old)) }
        ensures err { OnErr result (self.new ≡ self.old) }
    {
        let handle = self.handles[id as usize];
        let slot = handle.slot;
        make_room(&mut self.log, self.files.len(), self.handles.len())?;
        let kept = Vec::from_slice(self.alloc, piece)?;
        write_file(&mut self.files[slot], at as usize, piece)?;
        note(&mut self.log, slot, Deed::Wrote(at, kept));
        let size = handle.size.max(at + piece.len() as u64);
        self.handles[id as usize] = Handle { size, ..handle };
        Ok(())
    }

    /// Fills the buffer with the bytes from a place on.
    pub(crate) fn read(&self, id: u64, at: u64, buf: &mut [u8])
        requires usable { (file : OpenFile) × CanUse self.now id file × (at + length buf.old ≤ file.size) }
        ensures { (file : OpenFile) → CanUse self.now id file → (bytes : List ℕ)
            × (contents_of file.name self.now.log ≡ Some bytes)
            × (buf.new ≡ slice_range bytes at (at + length buf.new)) }
    {
        let slot = self.handles[id as usize].slot;
        let start = at as usize;
        buf.copy_from_slice(&self.files[slot].bytes[start..start + buf.len()]);
    }

    /// How many bytes the `FileId` knows of.
    pub(crate) fn size(&self, id: u64) -> u64
        requires { IsTrue (live_of (slice_get self.now.open_files id)) }
        ensures { result ≡ size_in (slice_get self.now.open_files id) }
    {
        self.handles[id as usize].size
    }

    /// Makes what is written the one thing that a crash may leave. Takes no memory.
    pub(crate) fn sync(&mut self, id: u64)
        requires { (file : OpenFile) × CanUse self.old id file }
        ensures { (file : OpenFile) → CanUse self.old id file → self.new ≡ synced_in file self.old }
    {
        let slot = self.handles[id as usize].slot;
        if !self.files[slot].clean {
            sync_file(&mut self.files[slot]);
            note(&mut self.log, slot, Deed::Synced);
        }
    }

    /// Removes the file, and ends the `FileId`. Takes no memory.
    pub(crate) fn remove(&mut self, id: u64)
        requires { (file : OpenFile) × CanUse self.old id file }
        ensures { (file : OpenFile) → CanUse self.old id file → self.new
            ≡ replaced_in id (ended file) (noted_in file.name Act_Removing self.old) }
    {
        let handle = self.handles[id as usize];
        let slot = handle.slot;
        remove_file(&mut self.files[slot]);
        note(&mut self.log, slot, Deed::Gone);
        self.handles[id as usize] = Handle {
            live: false,
            ..handle
        };
    }

    /// Ends the `FileId`, and leaves the file.
    pub(crate) fn end(&mut self, id: u64)
        requires { (file : OpenFile) × CanUse self.old id file }
        ensures { (file : OpenFile) → CanUse self.old id file → self.new ≡ replaced_in id (ended file) self.old }
    {
        let handle = self.handles[id as usize];
        self.handles[id as usize] = Handle {
            live: false,
            ..handle
        };
    }

    /// Puts a synced file there. Where memory is short nothing changes.
    pub(crate) fn add(&mut self, name: &str, bytes: &[u8]) -> Result<(), AllocError>
        requires { contents_of name.now self.old.log ≡ None }
        ensures ok { OnOk result (self.new ≡ placed_in name.now bytes.now self.old) }
        ensures err { OnErr result (self.new ≡ self.old) }
    {
        let slot = slot_of(self.alloc, &mut self.names, &mut self.files, name)?;
        make_room(&mut self.log, self.files.len(), self.handles.len())?;
        let kept = Vec::from_slice(self.alloc, bytes)?;
        let shown = Vec::from_slice(self.alloc, bytes)?;
        place_file(&mut self.files[slot], shown);
        note(&mut self.log, slot, Deed::Made);
        note(&mut self.log, slot, Deed::Wrote(0, kept));
        note(&mut self.log, slot, Deed::Synced);
        Ok(())
    }

    /// The bytes under a name.
    pub(crate) fn contents(&self, name: &str) -> Option<&[u8]>
        ensures there { IfSome result (λ bytes. contents_of name.now self.now.log ≡ Some bytes.now) }
        ensures absent { IfNone result (contents_of name.now self.now.log ≡ None) }
    {
        let slot = find(&self.names, name)?;
        let file = &self.files[slot];
        if !file.there {
            return None;
        }
        Some(&file.bytes)
    }

    /// The file at its last sync, with so many of the later writes.
    pub(crate) fn image(
        &self,
        alloc: Global,
        name: &str,
        writes: u64,
    ) -> Result<Option<Vec<u8>>, AllocError>
        ensures { IfOk result (λ image. option_map (λ v. v.items) image ≡ image_after writes (state_of name.now self.now.log).file) }
    {
        let Some(slot) = find(&self.names, name) else {
            return Ok(None);
        };
        let replay = replay_of(alloc, &self.log, slot, writes)?;
        Ok(shown(replay, writes))
    }
}

/// What was found of one file in the history: whether it is there and was synced, how many writes came
/// later, its bytes, and its bytes with a part of the later writes.
#[derive(Drop)]
struct Replay {
    there: bool,
    synced: bool,
    later: u64,
    whole: Vec<u8>,
    shown: Vec<u8>,
}

impl Replay {
    // One event more.
    fn follow(&mut self, deed: &Deed, writes: u64) -> Result<(), AllocError>
        ensures { OnOk result ((file : _) → IsReplayedFile writes file self.old
            → IsReplayedFile writes (acted (act_of deed.now) (record { removals = 0; file = file })).file self.new) }
    {
        match deed {
            Deed::Made => {
                self.there = true;
                self.synced = false;
                self.later = 0;
                self.whole.clear();
                self.shown.clear();
            }
            Deed::Wrote(at, piece) => {
                overwrite(&mut self.whole, *at as usize, piece)?;
                if self.later < writes {
                    overwrite(&mut self.shown, *at as usize, piece)?;
                }
                self.later = self.later.saturating_add(1);
            }
            Deed::Synced => {
                self.shown.clear();
                self.shown.extend_from_slice(&self.whole)?;
                self.synced = true;
                self.later = 0;
            }
            Deed::Gone => self.there = false,
        }
        Ok(())
    }
}

// The image that was replayed. None where there is no file, or no sync and no write.
fn shown(replay: Replay, writes: u64) -> Option<Vec<u8>>
    ensures { (file : _) → IsReplayedFile writes file replay → option_map (λ v. v.items) result ≡ image_after writes file }
{
    let Replay {
        there,
        synced,
        later: _,
        whole: _,
        shown,
    } = replay;
    if !there {
        return None;
    }
    if writes == 0 && !synced {
        return None;
    }
    Some(shown)
}

// Follows the file of one place through the history.
fn replay_of(alloc: Global, log: &[Entry], slot: usize, writes: u64) -> Result<Replay, AllocError>
    ensures { IfOk result (λ replay. IsReplayedFile writes (fold (seen_at slot) never log.now).file replay) }
{
    let mut replay = Replay {
        there: false,
        synced: false,
        later: 0,
        whole: Vec::new(alloc),
        shown: Vec::new(alloc),
    };
    for entry in log {
        if entry.slot == slot {
            replay.follow(&entry.deed, writes)?;
        }
    }
    Ok(replay)
}

// After it the file needs no sync.
fn sync_file(file: &mut MemoryFile)
    ensures { cache_of file.new ≡ synced_file (cache_of file.old) }
{
    file.clean = true;
}

// Takes the file away, and counts that.
fn remove_file(file: &mut MemoryFile)
    requires { file.old.removals < 2 ^ 63 }
    ensures { cache_of file.new ≡ gone_file (cache_of file.old) }
{
    file.there = false;
    file.clean = true;
    file.bytes.clear();
    file.removals += 1;
}

// Puts bytes there that need no sync.
fn place_file(file: &mut MemoryFile, bytes: Vec<u8>)
    ensures { cache_of file.new ≡ placed_file bytes.items (cache_of file.old) }
{
    file.there = true;
    file.clean = true;
    file.bytes = bytes;
}

// Makes a file that is empty and not synced, and tells how often its name was removed.
fn make_file(file: &mut MemoryFile) -> usize
    ensures file { cache_of file.new ≡ made_file (cache_of file.old) }
    ensures removals { result ≡ file.old.removals }
{
    file.there = true;
    file.clean = false;
    file.bytes.clear();
    file.removals
}

// Where memory is short nothing changes.
fn write_file(file: &mut MemoryFile, at: usize, piece: &[u8]) -> Result<(), AllocError>
    ensures ok { OnOk result (cache_of file.new ≡ written_file at piece.now (cache_of file.old)) }
    ensures err { OnErr result (cache_of file.new ≡ cache_of file.old) }
{
    overwrite(&mut file.bytes, at, piece)?;
    file.clean = false;
    Ok(())
}

// Makes room for three events and for what each file and each handle may still ask for.
fn make_room(log: &mut Vec<Entry>, files: usize, handles: usize) -> Result<(), AllocError>
    ensures items { log.new.items ≡ log.old.items }
    ensures room { OnOk result (length log.old.items + (files + handles + 3) ≤ vec_capacity log.new) }
    ensures grows { vec_capacity log.old ≤ vec_capacity log.new }
{
    log.reserve(files.saturating_add(handles).saturating_add(3))
}

// One more event, for which there is room.
fn note(log: &mut Vec<Entry>, slot: usize, deed: Deed)
    requires { vec_len log.old < vec_capacity log.old }
    ensures items { log.new.items ≡ log.old.items ++ record { slot = slot; deed = deed } ∷ [] }
    ensures room { vec_capacity log.old ≤ vec_capacity log.new }
{
    if log.push(Entry { slot, deed }).is_err() {
        unreachable!();
    }
}

// One more handle, for which there is room. Its place is its number.
fn give(handles: &mut Vec<Handle>, slot: usize, removals: usize, size: u64) -> u64
    requires { vec_len handles.old < vec_capacity handles.old }
    ensures id { result ≡ length handles.old.items }
    ensures items { handles.new.items ≡ handles.old.items ++ record { live = true; slot = slot; removals = removals; size = size } ∷ [] }
{
    let id = handles.len() as u64;
    let handle = Handle {
        live: true,
        slot,
        removals,
        size,
    };
    if handles.push(handle).is_err() {
        unreachable!();
    }
    id
}

// Writes a piece over the bytes from a place on, and past their end. Where memory is short nothing changes.
fn overwrite(bytes: &mut Vec<u8>, at: usize, piece: &[u8]) -> Result<(), AllocError>
    ensures ok { OnOk result (bytes.new.items ≡ written at piece.now bytes.old.items) }
    ensures err { OnErr result (bytes.new.items ≡ bytes.old.items) }
{
    let start = at.min(bytes.len());
    let over = piece.len().min(bytes.len() - start);
    let (front, behind) = piece.split_at(over);
    bytes.reserve(behind.len())?;
    bytes[start..start + over].copy_from_slice(front);
    bytes.extend_from_slice(behind)
}

// The place of a name, which is added where it is new.
fn slot_of(
    alloc: Global,
    names: &mut Vec<String>,
    files: &mut Vec<MemoryFile>,
    name: &str,
) -> Result<usize, AllocError>
    ensures found { IfOk result (λ i. (i < length names.new.items) × (get_or (map string_bytes names.new.items) i [] ≡ name.now)) }
    ensures kept { KeepsOrAdds name.now names.old.items files.old.items names.new.items files.new.items }
    ensures err { OnErr result ((i : ℕ) → i < length names.old.items → get_or (map string_bytes names.old.items) i [] ≢ name.now) }
{
    if let Some(i) = find(names, name) {
        return Ok(i);
    }
    names.reserve(1)?;
    files.reserve(1)?;
    let text = String::from_str(alloc, name)?;
    let slot = names.len();
    let file = MemoryFile {
        there: false,
        clean: true,
        bytes: Vec::new(alloc),
        removals: 0,
    };
    if names.push(text).is_err() || files.push(file).is_err() {
        unreachable!();
    }
    Ok(slot)
}

// The place of a name.
fn find(names: &[String], name: &str) -> Option<usize>
    ensures found { IfSome result (λ i. (i < length names.now) × (get_or (map string_bytes names.now) i [] ≡ name.now)) }
    ensures none { IfNone result ((i : ℕ) → i < length names.now → get_or (map string_bytes names.now) i [] ≢ name.now) }
{
    for (i, known) in names.iter().enumerate() {
        if known.as_str() == name {
            return Some(i);
        }
    }
    None
}
