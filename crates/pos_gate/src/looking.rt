//! What a file is that was not finished.
ghost use Rattle.std.specs.Prelude.{◌≡◌, ◌↔◌, ◌+◌, ◌≤◌, ℕ, List, length, min, take, IfOk, IsTrue, OnErr, OnOk, Some};
ghost use Rattle.pos_edge.specs.Calls.{IsThere};
ghost use Rattle.pos_edge.specs.Faults.{Rose};
ghost use Rattle.pos_edge.specs.Frame.{NameOf, ReadsOnly, SameFaults};
ghost use Rattle.pos_gate.specs.Gates.{IsUnfinished};

use pos_edge::{Disk, DiskFailed, FileId};

/// The greatest length in bytes of a mark that is looked for behind a gate.
pub const MOST_MARK: usize = 63;

/// Whether a file is one that was not finished, of those with this mark behind the gate: it has at most one byte, or its
/// gate is closed, or the mark stands behind the gate. A finished file with this mark answers true too: who asks has to know
/// from elsewhere that the file was not finished, or may be lost.
///
/// At most one read, of the gate and as many bytes as the mark has. It takes no memory, and `DiskFailed` comes exactly
/// where the disk failed.
pub fn is_unfinished<D: Disk>(disk: &mut D, file: FileId, mark: &[u8]) -> Result<bool, DiskFailed>
    requires live { IsTrue ((D.view disk.old).is_live file.0) }
    requires there { IsThere file.0 (D.view disk.old) }
    requires few { length mark.now ≤ MOST_MARK }
    ensures kept { ReadsOnly (D.view disk.old) (D.view disk.new) }
    ensures reads { (D.view disk.new).reads ≤ (D.view disk.old).reads + 1 }
    ensures ok { IfOk result (λ found. (name b : List ℕ) → NameOf file.0 (D.view disk.old) name
        → (D.view disk.old).contents name ≡ Some b → (D.view disk.old).size_of file.0 ≡ length b
        → IsTrue found ↔ IsUnfinished mark.now b) }
    ensures failed { OnErr result (Rose (D.view disk.old).faults (D.view disk.new).faults) }
    ensures quiet { OnOk result (SameFaults (D.view disk.old) (D.view disk.new)) }
{
    let length = disk.size(file);
    let mut front = [0; MOST_MARK + 1];
    let count = length.min(mark.len() as u64 + 1) as usize;
    let front = &mut front[..count];
    disk.read_at(file, 0, front)?;
    Ok(begins_unfinished(front, mark))
}

/// Whether a file that begins with these bytes was not finished: its gate and as many bytes more as the mark has, or all of
/// a shorter file.
fn begins_unfinished(front: &[u8], mark: &[u8]) -> bool
    ensures { (b : List ℕ) → front.now ≡ take (min (length b) (length mark.now + 1)) b
        → IsTrue result ↔ IsUnfinished mark.now b }
{
    if front.len() <= 1 || front[0] == 0 {
        return true;
    }
    &front[1..] == mark
}
