// The entries of a table, read back one after another, and the drafts of the next one.
ghost use Rattle.std.specs.Prelude.{◌≡◌, ◌+◌, ◌-◌, ◌<◌, ◌≤◌, ◌++◌, ◌∷◌, [], ℕ, List, length, All, IsErrOf, IfErr, IfOk, OnOk};
ghost use Rattle.pos_edge.specs.Faults.{Rose};
ghost use Rattle.pos_tuple.specs.Node.{IsEntry};
ghost use Rattle.pos_tuple.specs.declared.entry.Entry.{Entry};
ghost use Rattle.pos_record.specs.Fields.{IsRecordSize};
ghost use Rattle.pos_runs.specs.Lists.{IsListRead, reads_after};
ghost use Rattle.pos_runs.specs.Runs.{StandsSealed};
ghost use Rattle.pos_forward.specs.Tables.{AreUnsorted};
ghost use Rattle.pos_forward.specs.Eights.{CountsEights};
ghost use Rattle.pos_forward.specs.Matched.{IsMatched, IsReady, MayTake, MayFinish, IsOverfull};
ghost use Rattle.pos_forward.specs.Gathering.{HasSameRecords, IsNextEntry, IsReadRefusal, IsMatchRefusal, IsGathered, IsGatherAnswer};

use crate::kinds::Stored;
use crate::{Drafts, ForwardFault, MatchFault, Matcher};
use pos_edge::{Disk, ScratchDamage, WorkFault};
use pos_lanes::Lanes;
use pos_runs::Ordered;
use pos_tuple::{Entry, Size};

// What is kept from table to table: the capacity, the matcher, and the drafts of the table that is made.
#[derive(Drop)]
pub(crate) struct Room {
    pub(crate) capacity: u64,
    pub(crate) matcher: Matcher,
    pub(crate) drafts: Drafts,
}

// The drafts of table `t`, from 2 to 7, made of the rows of the table below.
pub(crate) fn gather<D: Disk, R: Stored<K>, const K: u32>(
    disk: &mut D,
    size: Size,
    t: u8,
    room: &mut Room,
    lanes: &mut Lanes,
    rows: &mut Ordered<R, K>,
) -> Result<(), ForwardFault>
    requires size { size ≡ K }
    requires sizes { IsRecordSize K }
    requires below { t ≡ R.table + 1 }
    requires first_table { 1 ≤ R.table }
    requires sixth_table { R.table ≤ 6 }
    requires stands { StandsSealed R.bit_count rows.old (D.view disk.old) }
    requires ready { IsReady room.old.matcher }
    ensures read { IsListRead rows.old rows.new (D.view disk.old) (D.view disk.new) }
    ensures made { OnOk result (IsGathered size t R.entry R.read R.bit_count rows.old room.new.drafts (D.view disk.old)) }
    ensures within { OnOk result (length room.new.drafts ≤ room.old.capacity) }
    ensures ready { OnOk result (IsReady room.new.matcher) }
    ensures capacity { room.new.capacity ≡ room.old.capacity }
    ensures lanes { OnOk result (CountsEights lanes.old lanes.new room.new.drafts) }
    ensures reads { OnOk result (0 < rows.old.count → rows.old.page ≡ rows.old.written
        → Rose (D.view disk.old).reads (D.view disk.new).reads) }
    ensures answer { IsGatherAnswer result K t room.old.capacity R.entry R.read R.bit_count rows.old
        (D.view disk.old) (D.view disk.new) }
{
    room.drafts.clear();
    let mut least = 0;
    for i in 0..rows.len() {
        let entry = read_entry(disk, size, rows, i, least)?;
        take_entry(size, t, room, lanes, &entry)?;
        least = entry.y;
    }
    finish(size, t, room, lanes)
}

// The entry of a row. Its y is not below that of the row before; where it is, that is damage.
#[inline(always)]
fn read_entry<D: Disk, R: Stored<K>, const K: u32>(
    disk: &mut D,
    size: Size,
    rows: &mut Ordered<R, K>,
    i: u64,
    least: u64,
) -> Result<Entry, ForwardFault>
    requires size { size ≡ K }
    requires sizes { IsRecordSize K }
    requires first_table { 1 ≤ R.table }
    requires sixth_table { R.table ≤ 6 }
    requires stands { StandsSealed R.bit_count rows.old (D.view disk.old) }
    requires there { i < rows.old.count }
    ensures read { IsListRead rows.old rows.new (D.view disk.old) (D.view disk.new) }
    ensures reads { (D.view disk.new).reads ≡ reads_after R.bit_count i rows.old (D.view disk.old) }
    ensures same { OnOk result (HasSameRecords R.read R.bit_count rows.old rows.new (D.view disk.old) (D.view disk.new)) }
    ensures entry { IfOk result (λ e. IsNextEntry K R.table R.entry R.read R.bit_count rows.old i least e (D.view disk.old)) }
    ensures refusal { IsReadRefusal result K R.entry R.read R.bit_count rows.old i least (D.view disk.old) (D.view disk.new) }
{
    let row = match rows.get(disk, i) {
        Ok(row) => row,
        Err(fault) => return Err(ForwardFault::Work(fault)),
    };
    let entry = row.entry(size);
    if entry.y < least {
        return Err(ForwardFault::Work(WorkFault::Scratch(ScratchDamage {
            file: rows.file(),
            at: i,
            found: entry.y as u128,
            least: least as u128,
            limit: 1 << (K + 6),
        })));
    }
    Ok(entry)
}

// Hands the next entry to the matcher.
#[inline(always)]
fn take_entry(
    size: Size,
    t: u8,
    room: &mut Room,
    lanes: &mut Lanes,
    entry: &Entry,
) -> Result<(), ForwardFault>
    requires first_table { 2 ≤ t }
    requires last_table { t ≤ 7 }
    requires next { MayTake size t entry.now room.old.matcher room.old.drafts }
    ensures taken { OnOk result ((es : List Entry) → IsMatched size t es room.old.matcher room.old.drafts
        → All (λ e. e.y ≤ entry.now.y) es
        → IsMatched size t (es ++ entry.now ∷ []) room.new.matcher room.new.drafts) }
    ensures capacity { room.new.capacity ≡ room.old.capacity }
    ensures full { IsErrOf result (ForwardFault.TableFull t) → (es : List Entry)
        → IsMatched size t es room.old.matcher room.old.drafts → IsOverfull room.old.capacity es }
    ensures refusal { IfErr result (IsMatchRefusal t) }
    ensures lanes { OnOk result ((base : ℕ) → CountsEights base lanes.old room.old.drafts
        → CountsEights base lanes.new room.new.drafts) }
{
    match room
        .matcher
        .take(size, t, room.capacity, entry, &mut room.drafts, lanes)
    {
        Ok(()) => Ok(()),
        Err(MatchFault::Full) => Err(ForwardFault::TableFull { table: t }),
        Err(MatchFault::Memory) => Err(ForwardFault::Work(WorkFault::Memory)),
    }
}

// Makes what is left.
fn finish(size: Size, t: u8, room: &mut Room, lanes: &mut Lanes) -> Result<(), ForwardFault>
    requires first_table { 2 ≤ t }
    requires last_table { t ≤ 7 }
    requires taken { MayFinish size t room.old.matcher room.old.drafts }
    ensures made { OnOk result ((es : List Entry) → IsMatched size t es room.old.matcher room.old.drafts
        → AreUnsorted size t es room.new.drafts) }
    ensures within { OnOk result (length room.new.drafts ≤ room.old.capacity) }
    ensures ready { OnOk result (IsReady room.new.matcher) }
    ensures capacity { room.new.capacity ≡ room.old.capacity }
    ensures full { IsErrOf result (ForwardFault.TableFull t) → (es : List Entry)
        → IsMatched size t es room.old.matcher room.old.drafts → IsOverfull room.old.capacity es }
    ensures refusal { IfErr result (IsMatchRefusal t) }
    ensures lanes { OnOk result ((base : ℕ) → CountsEights base lanes.old room.old.drafts
        → CountsEights base lanes.new room.new.drafts) }
{
    match room
        .matcher
        .finish(size, t, room.capacity, &mut room.drafts, lanes)
    {
        Ok(()) => Ok(()),
        Err(MatchFault::Full) => Err(ForwardFault::TableFull { table: t }),
        Err(MatchFault::Memory) => Err(ForwardFault::Work(WorkFault::Memory)),
    }
}
