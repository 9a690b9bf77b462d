//! A plot file as a file with a gate: its first bytes, what is added to it, and its header at the end.
ghost use Rattle.std.specs.Prelude.{◌≡◌, ◌+◌, ◌++◌, ◌^◌, ◌<◌, ◌≤◌, ℕ, List, length, replicate, OnOk};
ghost use Rattle.pos_edge.specs.Images.{written};
ghost use Rattle.pos_gate.specs.Gates.{opened};
ghost use Rattle.pos_layout.specs.Images.{Holds, HoldsShut, IsFresh, IsShut, IsShutOr, IsTinyOrShut};
ghost use Rattle.pos_layout.specs.Writing.{Works};

use crate::MOST_MEMO;
use crate::bytes::put;
use pos_edge::{Disk, FileId, WorkFault};
use pos_gate::{begin, open_gate, write_past};

/// Writes a closed gate into a fresh file, and only after it is on the disk zeros up to the end of a header, and a memo.
pub(crate) fn begin_shut<D: Disk>(disk: &mut D, file: FileId, memo: &[u8]) -> Result<(), WorkFault>
    requires fresh { IsFresh file.0 (D.view disk.old) }
    requires memo { length memo.now ≤ MOST_MEMO }
    ensures works { Works IsTinyOrShut file.0 result (D.view disk.old) (D.view disk.new) }
    ensures ok { OnOk result (HoldsShut file.0 (replicate 176 0 ++ memo.now) (D.view disk.new)) }
{
    begin(disk, file)?;
    let mut rest = [0; 175 + MOST_MEMO];
    put(&mut rest, 175, memo);
    write_past(disk, file, 1, &rest[..175 + memo.len()])
}

/// Appends a piece to a file with a closed gate.
pub(crate) fn append<D: Disk>(
    disk: &mut D,
    file: FileId,
    at: u64,
    piece: &[u8],
) -> Result<(), WorkFault>
    requires held { (b : List ℕ) × HoldsShut file.0 b (D.view disk.old) × (length b ≡ at) }
    requires fits { at + length piece.now < 2 ^ 63 }
    ensures works { Works IsShut file.0 result (D.view disk.old) (D.view disk.new) }
    ensures ok { OnOk result ((b : List ℕ) → HoldsShut file.0 b (D.view disk.old) → length b ≡ at
        → HoldsShut file.0 (b ++ piece.now) (D.view disk.new)) }
{
    write_past(disk, file, at, piece)
}

/// Writes the header but its gate, and opens the gate only after all else is on the disk.
pub(crate) fn finish_shut<D: Disk>(
    disk: &mut D,
    file: FileId,
    header: &[u8],
) -> Result<(), WorkFault>
    requires held { (b : List ℕ) × HoldsShut file.0 b (D.view disk.old) × (176 ≤ length b) }
    requires header { length header.now ≡ 175 }
    ensures works { (b : List ℕ) → HoldsShut file.0 b (D.view disk.old) → 176 ≤ length b
        → Works (IsShutOr (opened (written 1 header.now b))) file.0 result (D.view disk.old) (D.view disk.new) }
    ensures ok { OnOk result ((b : List ℕ) → HoldsShut file.0 b (D.view disk.old) → 176 ≤ length b
        → Holds file.0 (opened (written 1 header.now b)) (D.view disk.new)) }
{
    write_past(disk, file, 1, header)?;
    open_gate(disk, file)
}
