//! From the bytes of a directory's entry to what it says of a park.
ghost use Rattle.std.specs.Prelude.{◌≡◌, ◌-◌, length, false};
ghost use Rattle.pos_layout.specs.Layouts.{entry_bytes};
ghost use Rattle.pos_layout.specs.Reading.{is_listed};
ghost use Rattle.pos_layout.specs.Rules.{IsLaidOut};
ghost use Rattle.pos_reader.specs.Steps.{IsPark, listed};

use crate::header::{count_of, end_of, is_within};
use pos_layout::{Damage, Header, ParkEntry, decode_entry, longest_park, park_count};

/// The entry of a park of table t, if it can be that.
pub(crate) fn listed_entry(
    header: &Header,
    t: u8,
    park: u64,
    bytes: &[u8],
) -> Result<ParkEntry, Damage>
    requires laid_out { IsLaidOut header.now.layout header.now }
    requires park { IsPark header.now.layout header.now t park }
    requires entry { length bytes.now ≡ entry_bytes header.now.layout }
    ensures { result ≡ listed header.now.layout header.now t park bytes.now }
{
    let entry = decode_entry(header.layout, bytes);
    if is_listed(header, t, park, &entry) {
        Ok(entry)
    } else {
        Err(Damage::Directory { table: t, park })
    }
}

/// Whether an entry can be that of a park of table t, whatever it says.
fn is_listed(header: &Header, t: u8, park: u64, entry: &ParkEntry) -> bool
    requires laid_out { IsLaidOut header.now.layout header.now }
    requires park { IsPark header.now.layout header.now t park }
    ensures { result ≡ is_listed header.now.layout header.now t park entry.now }
{
    let length = entry.park_length;
    if length == 0 || length > longest_park(header.layout, header.size) {
        return false;
    }
    let directory = header.columns[t as usize - 1].directory;
    let start = end_of(header, t - 1);
    if !is_within(start, entry.offset, u64::from(length), directory) {
        return false;
    }
    if entry.count != park_count(header.layout, count_of(header, t), park) {
        return false;
    }
    t == 7 || entry.head == 0
}
