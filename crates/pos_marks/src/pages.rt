//! The pages of a scratch file.
ghost use Rattle.std.specs.Prelude.{◌≡◌, ◌+◌, ◌*◌, ◌^◌, ◌<◌, ◌≤◌, ◌%◌, length, replicate, IfErr, IfOk, IsErrOf, IsTrue, OnErr, OnOk};
ghost use Rattle.pos_edge.specs.Faults.{Rose, counted};
ghost use Rattle.pos_edge.specs.Frame.{ChangesFile, KeepsIds, Nothing, ReadsOnly, SameFaults, SameFaultsBut};
ghost use Rattle.pos_edge.specs.Calls.{AreBytesAt, IsThere};
ghost use Rattle.pos_marks.specs.Pages.{BeginsWith, IsSealFault};

use pos_edge::{Disk, FileId, WorkFault, WriteFault};
use std::alloc::Global;

/// How many bytes a page has: as many as one read takes.
pub(crate) const PAGE_BYTES: u64 = 65_536;

/// How many places a page has, a bit for each.
pub(crate) const PAGE_PLACES: u64 = 524_288;

/// So many zeros.
pub(crate) fn zeros(alloc: Global, count: usize) -> Result<Vec<u8>, WorkFault>
    ensures ok { IfOk result (λ bytes. bytes.items ≡ replicate count 0) }
    ensures fault { IfErr result (λ fault. fault ≡ WorkFault.Memory) }
{
    vec![in alloc; 0u8; count].map_err(|_| WorkFault::Memory)
}

/// Writes whole pages from the start of the file on.
pub(crate) fn write_pages<D: Disk>(
    disk: &mut D,
    file: FileId,
    bytes: &[u8],
) -> Result<(), WorkFault>
    requires live { IsTrue ((D.view disk.old).is_live file.0) }
    requires there { IsThere file.0 (D.view disk.old) }
    requires whole { length bytes.now % PAGE_BYTES ≡ 0 }
    requires few { length bytes.now < 2 ^ 60 }
    ensures kept { ChangesFile file.0 (D.view disk.old) (D.view disk.new) }
    ensures ids { KeepsIds Nothing (D.view disk.old) (D.view disk.new) }
    ensures reads { (D.view disk.new).reads ≡ (D.view disk.old).reads }
    ensures size { OnOk result (length bytes.now ≤ (D.view disk.new).size_of file.0) }
    ensures ok { OnOk result (BeginsWith file.0 bytes.now (D.view disk.new)) }
    ensures fault { IfErr result IsSealFault }
    ensures failed { IsErrOf result WorkFault.DiskFailed → Rose (D.view disk.old).faults (D.view disk.new).faults }
    ensures quiet { SameFaultsBut WorkFault.DiskFailed result (D.view disk.old) (D.view disk.new) }
{
    for page in 0..bytes.len() as u64 / PAGE_BYTES {
        let start = page * PAGE_BYTES;
        let piece = &bytes[start as usize..(start + PAGE_BYTES) as usize];
        match disk.write_at(file, start, piece) {
            Ok(()) => {}
            Err(WriteFault::Failed) => return Err(WorkFault::DiskFailed),
            Err(WriteFault::Memory) => return Err(WorkFault::Memory),
        }
    }
    Ok(())
}

/// Reads a page.
pub(crate) fn read_page<D: Disk>(
    disk: &mut D,
    file: FileId,
    page: u64,
    buffer: &mut [u8],
) -> Result<(), WorkFault>
    requires live { IsTrue ((D.view disk.old).is_live file.0) }
    requires there { IsThere file.0 (D.view disk.old) }
    requires room { length buffer.old ≡ PAGE_BYTES }
    requires few { page < 2 ^ 40 }
    requires within { PAGE_BYTES * page + PAGE_BYTES ≤ (D.view disk.old).size_of file.0 }
    ensures only_reads { ReadsOnly (D.view disk.old) (D.view disk.new) }
    ensures reads { (D.view disk.new).reads ≡ counted (D.view disk.old).reads }
    ensures len { length buffer.new ≡ PAGE_BYTES }
    ensures ok { OnOk result (AreBytesAt file.0 (PAGE_BYTES * page) buffer.new (D.view disk.old)) }
    ensures fault { IfErr result (λ fault. fault ≡ WorkFault.DiskFailed) }
    ensures failed { OnErr result (Rose (D.view disk.old).faults (D.view disk.new).faults) }
    ensures quiet { OnOk result (SameFaults (D.view disk.old) (D.view disk.new)) }
{
    disk.read_at(file, PAGE_BYTES * page, buffer)
        .map_err(|_| WorkFault::DiskFailed)
}
