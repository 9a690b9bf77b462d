//! The names of a list.
ghost use Rattle.std.specs.Prelude.{◌≡◌, ◌∷◌, ◌+◌, ◌-◌, ◌*◌, ◌^◌, ◌<◌, ◌≤◌, ℕ, List, All, None, Some, IfOk, IfSome, IsErrOf, IsTrue, MatchOption, length, map, drop, take, string_bytes, true};
ghost use Rattle.pos_edge.specs.Calls.{IsThere, WasAbsent};
ghost use Rattle.pos_edge.specs.Frame.{ChangesOnly, NameOf, Nothing};
ghost use Rattle.pos_reader.specs.Plots.{OnlyReads};
ghost use Rattle.pos_reader.specs.Readings.{CountsFaults};
ghost use Rattle.pos_farm.specs.NameLists.{BeginsWithName, HasBadLine, IsListedName, IsNameList};
ghost use Rattle.pos_farm.specs.Steps.{BeginsWith, StandsAt};

use pos_edge::{Disk, FileId, OpenFault};
use std::alloc::Global;

/// How many names a list has at most.
pub const MOST_NAMES: usize = 256;

/// How many bytes a name in a list has at most.
pub const LONGEST_NAME: usize = 1_024;

/// How many bytes are read for a line: the longest name and its newline just fit.
const LINE_BYTES: usize = 1_025;

/// What ends a line.
const NEWLINE: u8 = b'\n';

/// Why there is no list of names.
#[derive(Clone, Copy, Debug, PartialEq, Eq)]
pub enum ListFault {
    /// No file has the name of the list.
    Absent,
    DiskFailed,
    /// This line, counted from 0, is the first that is not the line of a name, or is one too many.
    Line { line: u64 },
    Memory,
}

/// The names in a file: each is UTF-8 of 1 to 1024 bytes and ends with a newline, and there are at most 256.
///
/// Over a disk that tells, Ok has the names of all lines, in their order, and `Line` is answered exactly where a line breaks a
/// rule: it is the first such, where a rest without a newline and a line with number 256 are such lines. A file of no bytes
/// lists no names. `Absent` comes exactly where there is no file of this name, and `DiskFailed` exactly where the disk failed.
/// No file changes. At most 256 reads of 1025 bytes, however long the file is; memory is taken for the names alone.
pub fn read_list<D: Disk>(alloc: Global, name: &str, disk: &mut D) -> Result<Vec<String>, ListFault>
    ensures kept { ChangesOnly Nothing Nothing (D.view disk.old) (D.view disk.new) }
    ensures reads { (D.view disk.new).reads ≤ (D.view disk.old).reads + 256 }
    ensures few { IfOk result (λ names. length names.items ≤ MOST_NAMES) }
    ensures names { IfOk result (λ names. (D.view disk.old).tells ≡ true
        → (b : List ℕ) × ((D.view disk.old).contents name.now ≡ Some b) × IsNameList b (map string_bytes names.items)) }
    ensures line { (line : ℕ) → IsErrOf result (ListFault.Line line) → (D.view disk.old).tells ≡ true
        → (b : List ℕ) × ((D.view disk.old).contents name.now ≡ Some b) × HasBadLine b line }
    ensures absent { IsErrOf result ListFault.Absent → WasAbsent name.now (D.view disk.old) }
    ensures faults { CountsFaults ListFault.DiskFailed result (D.view disk.old) (D.view disk.new) }
{
    let file = match disk.open(name) {
        Ok(file) => file,
        Err(OpenFault::Absent) => return Err(ListFault::Absent),
        Err(OpenFault::Failed) => return Err(ListFault::DiskFailed),
        Err(OpenFault::Memory) => return Err(ListFault::Memory),
    };
    read_names(alloc, file, disk)
}

/// The names in an open file, a line at a time.
fn read_names<D: Disk>(alloc: Global, file: FileId, disk: &mut D) -> Result<Vec<String>, ListFault>
    requires live { IsTrue ((D.view disk.old).is_live file.0) }
    requires there { IsThere file.0 (D.view disk.old) }
    ensures reads { OnlyReads 256 (D.view disk.old) (D.view disk.new) }
    ensures few { IfOk result (λ names. length names.items ≤ MOST_NAMES) }
    ensures names { IfOk result (λ names. (name b : List ℕ) → NameOf file.0 (D.view disk.old) name
        → (D.view disk.old).contents name ≡ Some b → (D.view disk.old).size_of file.0 ≡ length b → IsNameList b (map string_bytes names.items)) }
    ensures line { (line : ℕ) → IsErrOf result (ListFault.Line line) → (name b : List ℕ) → NameOf file.0 (D.view disk.old) name
        → (D.view disk.old).contents name ≡ Some b → (D.view disk.old).size_of file.0 ≡ length b → HasBadLine b line }
    ensures found { IsErrOf result ListFault.Absent → ⊥ }
    ensures faults { CountsFaults ListFault.DiskFailed result (D.view disk.old) (D.view disk.new) }
{
    let size = disk.size(file);
    let mut names = Vec::new(alloc);
    let mut at = 0;
    for line in 0..MOST_NAMES {
        if at == size {
            return Ok(names);
        }
        let name = read_name(alloc, file, at, line as u64, disk)?;
        at += name.len() as u64 + 1;
        let Ok(()) = names.push(name) else {
            return Err(ListFault::Memory);
        };
    }
    if at == size {
        Ok(names)
    } else {
        Err(ListFault::Line {
            line: MOST_NAMES as u64,
        })
    }
}

/// The name whose line stands at a place of an open file, by one read. A line that is none has this number.
fn read_name<D: Disk>(
    alloc: Global,
    file: FileId,
    at: u64,
    line: u64,
    disk: &mut D,
) -> Result<String, ListFault>
    requires live { IsTrue ((D.view disk.old).is_live file.0) }
    requires there { IsThere file.0 (D.view disk.old) }
    requires within { at ≤ (D.view disk.old).size_of file.0 }
    ensures reads { OnlyReads 1 (D.view disk.old) (D.view disk.new) }
    ensures fits { IfOk result (λ name. at + length (string_bytes name) + 1 ≤ (D.view disk.old).size_of file.0) }
    ensures name { IfOk result (λ name. (called b : List ℕ) → NameOf file.0 (D.view disk.old) called
        → (D.view disk.old).contents called ≡ Some b → (D.view disk.old).size_of file.0 ≡ length b → StandsAt b at (string_bytes name)) }
    ensures none { (other : ℕ) → IsErrOf result (ListFault.Line other) → (other ≡ line) × ((called b : List ℕ) → NameOf file.0 (D.view disk.old) called
        → (D.view disk.old).contents called ≡ Some b → (D.view disk.old).size_of file.0 ≡ length b → BeginsWithName (drop at b) → ⊥) }
    ensures found { IsErrOf result ListFault.Absent → ⊥ }
    ensures faults { CountsFaults ListFault.DiskFailed result (D.view disk.old) (D.view disk.new) }
{
    let mut buffer = [0; LINE_BYTES];
    let count = (disk.size(file) - at).min(LINE_BYTES as u64) as usize;
    let front = &mut buffer[..count];
    let Ok(()) = disk.read_at(file, at, front) else {
        return Err(ListFault::DiskFailed);
    };
    own_name(alloc, front, line)
}

/// The name whose line stands at the beginning of these bytes, in memory of its own.
fn own_name(alloc: Global, bytes: &[u8], line: u64) -> Result<String, ListFault>
    requires { length bytes.now ≤ LINE_BYTES }
    ensures name { IfOk result (λ name. BeginsWith (string_bytes name) bytes.now) }
    ensures none { (other : ℕ) → IsErrOf result (ListFault.Line other) → (other ≡ line) × (BeginsWithName bytes.now → ⊥) }
    ensures failed { IsErrOf result ListFault.DiskFailed → ⊥ }
    ensures found { IsErrOf result ListFault.Absent → ⊥ }
{
    let Some(name) = front_name(bytes) else {
        return Err(ListFault::Line { line });
    };
    String::from_str(alloc, name).map_err(|_| ListFault::Memory)
}

/// The name whose line stands at the beginning of these bytes, if one does.
fn front_name(bytes: &[u8]) -> Option<&str>
    requires { length bytes.now ≤ LINE_BYTES }
    ensures { MatchOption result (BeginsWithName bytes.now → ⊥) (λ name. BeginsWith name.now bytes.now) }
{
    match line_end(bytes) {
        Some(end) => name_before(bytes, end),
        None => None,
    }
}

/// What stands before the first newline, if it is a name.
fn name_before(bytes: &[u8], end: usize) -> Option<&str>
    requires short { length bytes.now ≤ LINE_BYTES }
    requires inside { end < length bytes.now }
    requires newline { drop end bytes.now ≡ NEWLINE ∷ drop (end + 1) bytes.now }
    requires before { All (λ x. x ≡ NEWLINE → ⊥) (take end bytes.now) }
    ensures { MatchOption result (BeginsWithName bytes.now → ⊥) (λ name. BeginsWith name.now bytes.now) }
{
    if end == 0 {
        return None;
    }
    match std::str::from_utf8(&bytes[..end]) {
        Ok(name) => Some(name),
        Err(_) => None,
    }
}

/// Where the first newline stands, if there is one.
fn line_end(bytes: &[u8]) -> Option<usize>
    ensures inside { IfSome result (λ end. end < length bytes.now) }
    ensures newline { IfSome result (λ end. drop end bytes.now ≡ NEWLINE ∷ drop (end + 1) bytes.now) }
    ensures before { IfSome result (λ end. All (λ x. x ≡ NEWLINE → ⊥) (take end bytes.now)) }
    ensures none { result ≡ None → All (λ x. x ≡ NEWLINE → ⊥) bytes.now }
{
    for i in 0..bytes.len() {
        if bytes[i] == NEWLINE {
            return Some(i);
        }
    }
    None
}
