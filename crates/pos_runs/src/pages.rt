// The pages of a list in its file, whatever kind of records they have.
ghost use Rattle.std.specs.Prelude.{◌≡◌, ◌+◌, ◌*◌, ◌^◌, ◌<◌, ◌≤◌, ℕ, List, length, take, drop, true, Some, IsTrue, IsErrOf, IfErr, OnOk, OnErr, vec_len};
ghost use Rattle.pos_edge.specs.Faults.{Rose, counted};
ghost use Rattle.pos_edge.specs.Frame.{ChangesFile, KeepsIds, ReadsOnly, SameFaults, SameFaultsBut, Nothing};
ghost use Rattle.pos_edge.specs.Calls.{IsThere, IsWritten, AreBytesAt};
ghost use Rattle.pos_runs.specs.Lists.{IsPageFault};

use pos_edge::{Disk, FileId, MAX_READ, WorkFault, WriteFault};

// How many bytes a page has.
pub(crate) const PAGE_BYTES: usize = MAX_READ;

// How many bits a page has.
pub(crate) const PAGE_BITS: u32 = 524_288;

// Writes a page behind those that are written.
pub(crate) fn write_page<D: Disk>(
    disk: &mut D,
    file: FileId,
    page: u64,
    bytes: &[u8],
) -> Result<(), WorkFault>
    requires live { IsTrue ((D.view disk.old).is_live file.0) }
    requires there { IsThere file.0 (D.view disk.old) }
    requires within { 65536 * page ≤ (D.view disk.old).size_of file.0 }
    requires few { page < 2 ^ 46 }
    requires long { length bytes.now ≡ 65536 }
    ensures frame { ChangesFile file.0 (D.view disk.old) (D.view disk.new) }
    ensures ids { KeepsIds Nothing (D.view disk.old) (D.view disk.new) }
    ensures reads { (D.view disk.new).reads ≡ (D.view disk.old).reads }
    ensures ok { OnOk result (IsWritten file.0 (65536 * page) bytes.now (D.view disk.old) (D.view disk.new)) }
    ensures failed { IsErrOf result WorkFault.DiskFailed
        → Rose (D.view disk.old).faults (D.view disk.new).faults }
    ensures quiet { SameFaultsBut WorkFault.DiskFailed result (D.view disk.old) (D.view disk.new) }
    ensures fault { IfErr result IsPageFault }
{
    match disk.write_at(file, PAGE_BYTES as u64 * page, bytes) {
        Ok(()) => Ok(()),
        Err(WriteFault::Failed) => Err(WorkFault::DiskFailed),
        Err(WriteFault::Memory) => Err(WorkFault::Memory),
    }
}

// Reads a page that was written.
pub(crate) fn read_page<D: Disk>(
    disk: &mut D,
    file: FileId,
    page: u64,
    bytes: &mut [u8],
) -> Result<(), WorkFault>
    requires live { IsTrue ((D.view disk.old).is_live file.0) }
    requires there { IsThere file.0 (D.view disk.old) }
    requires within { 65536 * page + 65536 ≤ (D.view disk.old).size_of file.0 }
    requires few { page < 2 ^ 46 }
    requires long { length bytes.old ≡ 65536 }
    ensures only { ReadsOnly (D.view disk.old) (D.view disk.new) }
    ensures reads { (D.view disk.new).reads ≡ counted (D.view disk.old).reads }
    ensures len { length bytes.new ≡ 65536 }
    ensures ok { OnOk result (AreBytesAt file.0 (65536 * page) bytes.new (D.view disk.old)) }
    ensures failed { OnErr result (Rose (D.view disk.old).faults (D.view disk.new).faults) }
    ensures quiet { OnOk result (SameFaults (D.view disk.old) (D.view disk.new)) }
    ensures fault { IfErr result (λ fault. fault ≡ WorkFault.DiskFailed) }
{
    match disk.read_at(file, PAGE_BYTES as u64 * page, bytes) {
        Ok(()) => Ok(()),
        Err(_) => Err(WorkFault::DiskFailed),
    }
}
