// The comparison of two files, page by page.
ghost use Rattle.std.specs.Prelude.{◌≡◌, ◌+◌, ◌*◌, ◌^◌, ◌<◌, ◌≤◌, ℕ, List, length, take, IfOk};
ghost use Rattle.pos_layout.specs.Bytes.{part};
ghost use Rattle.pos_audit.specs.Comparisons.{HoldsFile, IsComparison, IsLook, IsReadable, IsSecondCompared, PageAnswer};

use crate::difference::difference;
use crate::{AuditFault, Audited};
use pos_edge::{Disk, DiskFailed, FileId};

// How many bytes are read of a file at once.
pub(crate) const PAGE: usize = 65_536;

/// Opens the second file by its name, compares the first one with it, and removes it. The buffers have room for a page each.
pub(crate) fn compare_with<D: Disk>(
    found: FileId,
    name: &str,
    page: &mut [u8],
    other: &mut [u8],
    disk: &mut D,
) -> Result<Audited, AuditFault>
    requires readable { IsReadable found.0 (D.view disk.old) }
    requires page { length page.old ≡ PAGE }
    requires other { length other.old ≡ PAGE }
    ensures { IsSecondCompared found.0 name.now result (D.view disk.old) (D.view disk.new) }
{
    let want = disk.open(name)?;
    let audited = compare(found, want, page, other, disk)?;
    disk.remove(want)?;
    Ok(audited)
}

/// Compares two open files, page by page.
fn compare<D: Disk>(
    found: FileId,
    want: FileId,
    page: &mut [u8],
    other: &mut [u8],
    disk: &mut D,
) -> Result<Audited, DiskFailed>
    requires found { IsReadable found.0 (D.view disk.old) }
    requires want { IsReadable want.0 (D.view disk.old) }
    requires page { length page.old ≡ PAGE }
    requires other { length other.old ≡ PAGE }
    ensures look { IsLook result (D.view disk.old) (D.view disk.new) }
    ensures compared { IfOk result (λ audited. (b c : List ℕ) → HoldsFile found.0 b (D.view disk.old)
        → HoldsFile want.0 c (D.view disk.old) → IsComparison b c audited) }
{
    let length = disk.size(found);
    let longest = length.max(disk.size(want));
    let pages = longest.div_ceil(PAGE as u64);
    for number in 0..pages {
        let at = number * PAGE as u64;
        let answer = compare_pages(found, want, at, page, other, disk)?;
        match answer {
            Some(difference) => return Ok(difference),
            None => {}
        }
    }
    Ok(Audited::Same { length })
}

/// Compares the pages of two open files from a place on.
fn compare_pages<D: Disk>(
    found: FileId,
    want: FileId,
    at: u64,
    page: &mut [u8],
    other: &mut [u8],
    disk: &mut D,
) -> Result<Option<Audited>, DiskFailed>
    requires found { IsReadable found.0 (D.view disk.old) }
    requires want { IsReadable want.0 (D.view disk.old) }
    requires page { length page.old ≡ PAGE }
    requires other { length other.old ≡ PAGE }
    ensures look { IsLook result (D.view disk.old) (D.view disk.new) }
    ensures page { length page.new ≡ PAGE }
    ensures other { length other.new ≡ PAGE }
    ensures answer { IfOk result (λ answer. (b c : List ℕ) → HoldsFile found.0 b (D.view disk.old)
        → HoldsFile want.0 c (D.view disk.old) → PageAnswer at (part b at PAGE) (part c at PAGE) answer) }
{
    let found_count = read_page(found, at, page, disk)?;
    let want_count = read_page(want, at, other, disk)?;
    Ok(difference(at, &page[..found_count], &other[..want_count]))
}

/// Writes the bytes of an open file from a place on to the front of the buffer, at most a page of them, and answers how many
/// they are: none from the file's end on.
fn read_page<D: Disk>(
    file: FileId,
    at: u64,
    page: &mut [u8],
    disk: &mut D,
) -> Result<usize, DiskFailed>
    requires readable { IsReadable file.0 (D.view disk.old) }
    requires page { length page.old ≡ PAGE }
    ensures look { IsLook result (D.view disk.old) (D.view disk.new) }
    ensures page { length page.new ≡ PAGE }
    ensures few { IfOk result (λ count. count ≤ PAGE) }
    ensures fits { IfOk result (λ count. 0 < count → at + count < 2 ^ 64) }
    ensures bytes { IfOk result (λ count. (b : List ℕ) → HoldsFile file.0 b (D.view disk.old)
        → take count page.new ≡ part b at PAGE) }
{
    let size = disk.size(file);
    let start = at.min(size);
    let count = (size - start).min(PAGE as u64) as usize;
    disk.read_at(file, start, &mut page[..count])?;
    Ok(count)
}
