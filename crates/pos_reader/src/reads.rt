//! What is read of a plot's file: its header, an entry of a directory, a park.
ghost use Rattle.std.specs.Prelude.{◌≡◌, ◌+◌, ◌*◌, ◌++◌, ◌≤◌, ℕ, List, drop, length, take, true, Err, IfErr, IfOk, IsErrOf, IsTrue, Ok, OnErr, OnOk, Some};
ghost use Rattle.pos_edge.specs.Calls.{IsThere};
ghost use Rattle.pos_edge.specs.Frame.{NameOf};
ghost use Rattle.pos_layout.specs.Bytes.{part};
ghost use Rattle.pos_layout.specs.Damages.{opening};
ghost use Rattle.pos_layout.specs.Fields.{count_of, directory_of, header_in, layout_in, memo_in};
ghost use Rattle.pos_layout.specs.Layouts.{entry_bytes, longest_park, park_count};
ghost use Rattle.pos_layout.specs.Reading.{is_listed, read_entry, read_park};
ghost use Rattle.pos_layout.specs.Rules.{IsLaidOut, Opens};
ghost use Rattle.pos_reader.specs.Answers.{Answers};
ghost use Rattle.pos_reader.specs.Plots.{HoldsPlot, OnlyReads};
ghost use Rattle.pos_reader.specs.Readings.{CountsFaults};
ghost use Rattle.pos_reader.specs.Steps.{IsPark};
ghost use Rattle.pos_rice.specs.Park.{AreNumbers};
ghost use Rattle.pos_rice.specs.declared.TheConstants.{MOST_NUMBERS};
ghost use Rattle.pos_layout.specs.declared.damage.Damage.{Damage};

use crate::ReadRefusal;
use crate::entry::listed_entry;
use crate::header::opened_header;
use crate::park::park_numbers;
use pos_edge::{Disk, DiskFailed, FileId};
use pos_layout::{HEADER_BYTES, Header, MOST_ENTRY_BYTES, ParkEntry};

/// Fills the buffer with the bytes of a file from a place on.
fn read<D: Disk>(disk: &mut D, file: FileId, at: u64, buf: &mut [u8]) -> Result<(), ReadRefusal>
    requires live { IsTrue ((D.view disk.old).is_live file.0) }
    requires there { IsThere file.0 (D.view disk.old) }
    requires short { length buf.old ≤ 65536 }
    requires within { at + length buf.old ≤ (D.view disk.old).size_of file.0 }
    ensures reads { OnlyReads 1 (D.view disk.old) (D.view disk.new) }
    ensures ok { OnOk result ((name b : List ℕ) → NameOf file.0 (D.view disk.old) name
        → (D.view disk.old).contents name ≡ Some b → buf.new ≡ part b at (length buf.old)) }
    ensures faults { CountsFaults ReadRefusal.DiskFailed result (D.view disk.old) (D.view disk.new) }
    ensures refusal { IfErr result (λ refusal. refusal ≡ ReadRefusal.DiskFailed) }
{
    match disk.read_at(file, at, buf) {
        Ok(()) => Ok(()),
        Err(DiskFailed) => Err(ReadRefusal::DiskFailed),
    }
}

/// Writes the first bytes of a file to the front of the buffer, as far as the file and the buffer go.
fn read_front<D: Disk>(
    disk: &mut D,
    file: FileId,
    file_length: u64,
    buf: &mut [u8],
) -> Result<(), ReadRefusal>
    requires live { IsTrue ((D.view disk.old).is_live file.0) }
    requires there { IsThere file.0 (D.view disk.old) }
    requires size { file_length ≡ (D.view disk.old).size_of file.0 }
    requires short { length buf.old ≤ 65536 }
    ensures reads { OnlyReads 1 (D.view disk.old) (D.view disk.new) }
    ensures ok { OnOk result ((name b : List ℕ) → NameOf file.0 (D.view disk.old) name
        → (D.view disk.old).contents name ≡ Some b → file_length ≡ length b
        → buf.new ≡ take (length buf.old) b ++ drop (length b) buf.old) }
    ensures faults { CountsFaults ReadRefusal.DiskFailed result (D.view disk.old) (D.view disk.new) }
    ensures refusal { IfErr result (λ refusal. refusal ≡ ReadRefusal.DiskFailed) }
{
    let front = file_length.min(buf.len() as u64) as usize;
    match read(disk, file, 0, &mut buf[..front]) {
        Ok(()) => Ok(()),
        Err(refusal) => Err(refusal),
    }
}

/// The header of a file that opens.
pub(crate) fn read_header<D: Disk>(disk: &mut D, file: FileId) -> Result<Header, ReadRefusal>
    requires live { IsTrue ((D.view disk.old).is_live file.0) }
    requires there { IsThere file.0 (D.view disk.old) }
    ensures reads { OnlyReads 1 (D.view disk.old) (D.view disk.new) }
    ensures laid_out { IfOk result (λ h. IsLaidOut h.layout h) }
    ensures whole { IfOk result (λ h. h.file_length ≡ (D.view disk.old).size_of file.0) }
    ensures ok { IfOk result (λ h. (name b : List ℕ) → NameOf file.0 (D.view disk.old) name
        → (D.view disk.old).contents name ≡ Some b → (D.view disk.old).size_of file.0 ≡ length b
        → Opens h.layout b × (h ≡ header_in b)) }
    ensures damage { (d : Damage) → IsErrOf result (ReadRefusal.Damage d)
        → (name b : List ℕ) → NameOf file.0 (D.view disk.old) name → (D.view disk.old).contents name ≡ Some b
        → (D.view disk.old).size_of file.0 ≡ length b → opening (layout_in b) b (length b) ≡ Some d }
    ensures faults { CountsFaults ReadRefusal.DiskFailed result (D.view disk.old) (D.view disk.new) }
{
    let file_length = disk.size(file);
    let mut bytes = [0; HEADER_BYTES];
    read_front(disk, file, file_length, &mut bytes)?;
    match opened_header(&bytes, file_length) {
        Ok(header) => Ok(header),
        Err(damage) => Err(ReadRefusal::Damage(damage)),
    }
}

/// Writes the memo of a file that opens to the buffer, which is as long as the memo, by at most one read.
pub(crate) fn read_memo<D: Disk>(
    disk: &mut D,
    file: FileId,
    header: &Header,
    memo: &mut [u8],
) -> Result<(), ReadRefusal>
    requires live { IsTrue ((D.view disk.old).is_live file.0) }
    requires there { IsThere file.0 (D.view disk.old) }
    requires laid_out { IsLaidOut header.now.layout header.now }
    requires whole { header.now.file_length ≤ (D.view disk.old).size_of file.0 }
    requires length { length memo.old ≡ header.now.memo_length }
    ensures reads { OnlyReads 1 (D.view disk.old) (D.view disk.new) }
    ensures ok { OnOk result ((name b : List ℕ) → NameOf file.0 (D.view disk.old) name
        → (D.view disk.old).contents name ≡ Some b → header.now ≡ header_in b → memo.new ≡ memo_in b) }
    ensures faults { CountsFaults ReadRefusal.DiskFailed result (D.view disk.old) (D.view disk.new) }
    ensures refusal { IfErr result (λ refusal. refusal ≡ ReadRefusal.DiskFailed) }
{
    if header.memo_length == 0 {
        return Ok(());
    }
    match read(disk, file, HEADER_BYTES as u64, memo) {
        Ok(()) => Ok(()),
        Err(refusal) => Err(refusal),
    }
}

/// The entry of a park of table t, by one read.
pub(crate) fn read_entry<D: Disk>(
    disk: &mut D,
    file: FileId,
    header: &Header,
    t: u8,
    park: u64,
) -> Result<ParkEntry, ReadRefusal>
    requires laid_out { IsLaidOut header.now.layout header.now }
    requires live { IsTrue ((D.view disk.old).is_live file.0) }
    requires there { IsThere file.0 (D.view disk.old) }
    requires whole { header.now.file_length ≤ (D.view disk.old).size_of file.0 }
    requires park { IsPark header.now.layout header.now t park }
    ensures reads { OnlyReads 1 (D.view disk.old) (D.view disk.new) }
    ensures listed { IfOk result (λ e. is_listed header.now.layout header.now t park e ≡ true) }
    ensures entry { (memo b : List ℕ) → HoldsPlot file.0 header.now memo b (D.view disk.old)
        → Answers result (read_entry (layout_in b) b t park) }
    ensures faults { CountsFaults ReadRefusal.DiskFailed result (D.view disk.old) (D.view disk.new) }
{
    let mut buffer = [0; MOST_ENTRY_BYTES];
    let bytes = &mut buffer[..header.layout.entry_bytes()];
    let at = entry_place(header, t, park);
    read(disk, file, at, bytes)?;
    match listed_entry(header, t, park, bytes) {
        Ok(entry) => Ok(entry),
        Err(damage) => Err(ReadRefusal::Damage(damage)),
    }
}

/// Where the directory of table t has the entry of a park.
fn entry_place(header: &Header, t: u8, park: u64) -> u64
    requires laid_out { IsLaidOut header.now.layout header.now }
    requires park { IsPark header.now.layout header.now t park }
    ensures place { result ≡ directory_of header.now t + entry_bytes header.now.layout * park }
    ensures within { result + entry_bytes header.now.layout ≤ header.now.file_length }
{
    // Read so that its range is known: the entry ends inside the file.
    let _file_length = header.file_length;
    header.columns[t as usize - 1].directory + header.layout.entry_bytes() as u64 * park
}

/// Writes the numbers of a park of table t to the first places of `numbers` and answers how many they are, by two reads.
/// After a refusal the buffers may hold anything.
pub(crate) fn read_park<D: Disk>(
    disk: &mut D,
    file: FileId,
    header: &Header,
    t: u8,
    park: u64,
    bytes: &mut [u8],
    numbers: &mut [u128],
) -> Result<u32, ReadRefusal>
    requires laid_out { IsLaidOut header.now.layout header.now }
    requires live { IsTrue ((D.view disk.old).is_live file.0) }
    requires there { IsThere file.0 (D.view disk.old) }
    requires whole { header.now.file_length ≤ (D.view disk.old).size_of file.0 }
    requires park { IsPark header.now.layout header.now t park }
    requires bytes { longest_park header.now.layout header.now.size ≤ length bytes.old }
    requires numbers { MOST_NUMBERS ≤ length numbers.old }
    ensures reads { OnlyReads 2 (D.view disk.old) (D.view disk.new) }
    ensures count { IfOk result (λ n. n ≡ park_count header.now.layout (count_of header.now t) park) }
    ensures numbers { IfOk result (λ n. AreNumbers header.now.size (take n numbers.new)) }
    ensures ok { IfOk result (λ n. (memo b : List ℕ) → HoldsPlot file.0 header.now memo b (D.view disk.old)
        → read_park (layout_in b) b t park ≡ Ok (take n numbers.new)) }
    ensures damage { (d : Damage) → IsErrOf result (ReadRefusal.Damage d)
        → (memo b : List ℕ) → HoldsPlot file.0 header.now memo b (D.view disk.old) → read_park (layout_in b) b t park ≡ Err d }
    ensures faults { CountsFaults ReadRefusal.DiskFailed result (D.view disk.old) (D.view disk.new) }
{
    let entry = read_entry(disk, file, header, t, park)?;
    let bytes = &mut bytes[..entry.park_length as usize];
    read(disk, file, entry.offset, bytes)?;
    match park_numbers(header, t, park, &entry, bytes, numbers) {
        Ok(()) => Ok(entry.count),
        Err(damage) => Err(ReadRefusal::Damage(damage)),
    }
}
