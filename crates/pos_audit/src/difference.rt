// The first difference of two pages.
ghost use Rattle.std.specs.Prelude.{◌≡◌, ◌+◌, ◌^◌, ◌<◌, length, slice_get};
ghost use Rattle.pos_audit.specs.Comparisons.{DifferAt, PageAnswer};

use crate::Audited;

/// What two pages from this place of two files on show: their first difference, or nothing where they are the same.
pub(crate) fn difference(at: u64, found: &[u8], want: &[u8]) -> Option<Audited>
    requires found_fits { 0 < length found.now → at + length found.now < 2 ^ 64 }
    requires want_fits { 0 < length want.now → at + length want.now < 2 ^ 64 }
    ensures { PageAnswer at found.now want.now result }
{
    if found == want {
        return None;
    }
    let place = first_difference(found, want);
    Some(Audited::Differs {
        at: at + place as u64,
        want: byte_at(want, place),
        found: byte_at(found, place),
    })
}

/// The first place at which two lists of bytes differ; where one is the front of the other, its end.
fn first_difference(found: &[u8], want: &[u8]) -> usize
    requires { found.now ≡ want.now → ⊥ }
    ensures { DifferAt found.now want.now result }
{
    let shorter = found.len().min(want.len());
    for place in 0..shorter {
        if found[place] != want[place] {
            return place;
        }
    }
    shorter
}

/// The byte at this place, if the list goes so far.
fn byte_at(bytes: &[u8], place: usize) -> Option<u8>
    ensures { result ≡ slice_get bytes.now place }
{
    bytes.get(place).copied()
}
