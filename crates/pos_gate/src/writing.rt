//! A file whose first byte, its gate, stays 0 until all else is on the disk.
ghost use Rattle.std.specs.Prelude.{◌≡◌, ◌+◌, ◌^◌, ◌<◌, ◌≤◌, [], ◌∷◌, ℕ, List, length, IsTrue, OnOk};
ghost use Rattle.pos_edge.specs.Images.{Stays, Tears, written};
ghost use Rattle.pos_edge.specs.Calls.{IsSynced, IsThere, IsWritten, SameContents};
ghost use Rattle.pos_gate.specs.Gates.{Holds, HoldsShut, IsFresh, IsShut, IsShutOr, IsTiny, opened};
ghost use Rattle.pos_gate.specs.Works.{Works, WorksBy};

use pos_edge::{Disk, DiskFailed, FileId, WorkFault, WriteFault};

/// Writes a closed gate into a fresh file, and brings it onto the disk.
///
/// The file is live and empty, as one is that was just created. A crash leaves at most one byte of it until the gate is on
/// the disk. `DiskFailed` comes exactly where the disk failed; another fault is `Memory`.
pub fn begin<D: Disk>(disk: &mut D, file: FileId) -> Result<(), WorkFault>
    requires { IsFresh file.0 (D.view disk.old) }
    ensures works { Works IsTiny file.0 result (D.view disk.old) (D.view disk.new) }
    ensures ok { OnOk result (HoldsShut file.0 (0 ∷ []) (D.view disk.new)) }
{
    write(disk, file, 0, &[0])?;
    sync(disk, file)
}

/// Writes a piece behind the closed gate of a file, over what is there and past the end.
///
/// `at` is at least 1 and at most the file's length in bytes. The gate stays closed, whatever a crash leaves.
pub fn write_past<D: Disk>(
    disk: &mut D,
    file: FileId,
    at: u64,
    piece: &[u8],
) -> Result<(), WorkFault>
    requires held { (b : List ℕ) × HoldsShut file.0 b (D.view disk.old) × (at ≤ length b) }
    requires behind { 1 ≤ at }
    requires fits { at + length piece.now < 2 ^ 63 }
    ensures works { Works IsShut file.0 result (D.view disk.old) (D.view disk.new) }
    ensures ok { OnOk result ((b : List ℕ) → HoldsShut file.0 b (D.view disk.old) → at ≤ length b
        → HoldsShut file.0 (written at piece.now b) (D.view disk.new)) }
{
    write(disk, file, at, piece)
}

/// Brings a file with a closed gate onto the disk, then opens its gate, and brings that onto the disk.
///
/// After it a crash leaves the file as it is. Until then, and after a fault, it leaves a closed gate, or these bytes but
/// for the gate.
pub fn open_gate<D: Disk>(disk: &mut D, file: FileId) -> Result<(), WorkFault>
    requires { (b : List ℕ) × HoldsShut file.0 b (D.view disk.old) }
    ensures works { (b : List ℕ) → HoldsShut file.0 b (D.view disk.old)
        → Works (IsShutOr (opened b)) file.0 result (D.view disk.old) (D.view disk.new) }
    ensures ok { OnOk result ((b : List ℕ) → HoldsShut file.0 b (D.view disk.old)
        → Holds file.0 (opened b) (D.view disk.new)) }
{
    sync(disk, file)?;
    write(disk, file, 0, &[1])?;
    sync(disk, file)
}

/// Writes a piece, with the faults of work in place of the disk's.
fn write<D: Disk>(disk: &mut D, file: FileId, at: u64, piece: &[u8]) -> Result<(), WorkFault>
    requires live { IsTrue ((D.view disk.old).is_live file.0) }
    requires there { IsThere file.0 (D.view disk.old) }
    requires within { at ≤ (D.view disk.old).size_of file.0 }
    requires fits { at + length piece.now < 2 ^ 63 }
    ensures works { WorksBy (Tears at (length piece.now)) file.0 result (D.view disk.old) (D.view disk.new) }
    ensures ok { OnOk result (IsWritten file.0 at piece.now (D.view disk.old) (D.view disk.new)) }
{
    match disk.write_at(file, at, piece) {
        Ok(()) => Ok(()),
        Err(WriteFault::Failed) => Err(WorkFault::DiskFailed),
        Err(WriteFault::Memory) => Err(WorkFault::Memory),
    }
}

/// Syncs a file, with the faults of work in place of the disk's.
fn sync<D: Disk>(disk: &mut D, file: FileId) -> Result<(), WorkFault>
    requires live { IsTrue ((D.view disk.old).is_live file.0) }
    requires there { IsThere file.0 (D.view disk.old) }
    ensures works { WorksBy Stays file.0 result (D.view disk.old) (D.view disk.new) }
    ensures size { (D.view disk.new).size_of file.0 ≡ (D.view disk.old).size_of file.0 }
    ensures contents { SameContents (D.view disk.old) (D.view disk.new) }
    ensures ok { OnOk result (IsSynced file.0 (D.view disk.new)) }
{
    match disk.sync(file) {
        Ok(()) => Ok(()),
        Err(DiskFailed) => Err(WorkFault::DiskFailed),
    }
}
