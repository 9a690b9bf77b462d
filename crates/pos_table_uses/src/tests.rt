ghost use Rattle.std.specs.Prelude.{◌≡◌, ◌-◌, ◌<◌, ◌≤◌, ℕ, Bool, length, true, IfOk, OnOk};
ghost use Rattle.pos_edge.specs.Frame.{ReadsOnly};
ghost use Rattle.pos_edge.specs.ScratchNames.{IsLeft, ScratchState, StandsOn};
ghost use Rattle.pos_lists.specs.TableLists.{TableLists, PairsInside};
ghost use Rattle.pos_marks.specs.Marks.{AreSealed, Marked, place_count};
ghost use Rattle.pos_record.specs.Fields.{IsRecordSize};
ghost use Rattle.pos_runs.specs.Runs.{IsTablesFile, TablesStand, pages_at};
ghost use Rattle.pos_prune.specs.KeptTables.{KeptStand};
ghost use Rattle.pos_table_uses.specs.Reading.{HasRead};

use pos_edge::{Disk, MemoryDisk, Scratch, WorkFault};
use pos_forward::{ForwardFault, forward};
use pos_lanes::Lanes;
use pos_marks::Marks;
use pos_prune::{Kept, prune};
use pos_runs::{Plan, Tables};
use pos_tuple::Id;
use std::alloc::Global;
use std::test::Fail;

// So many places, all of them noted or none.
fn places_of(alloc: Global, count: u64, are_noted: bool) -> Result<Vec<bool>, WorkFault>
    ensures { IfOk result (λ noted. length noted.items ≡ count) }
{
    vec![in alloc; are_noted; count as usize].map_err(|_| WorkFault::Memory)
}

// Notes this place.
fn note(noted: &mut [bool], place: u64)
    ensures { length noted.new ≡ length noted.old }
{
    if place < noted.len() as u64 {
        noted[place as usize] = true;
    }
}

// Notes the two places of pair i of table t, in the table below, where place i itself is noted.
fn note_pair<D: Disk, const K: u32>(
    tables: &mut Tables<K>,
    t: u8,
    i: u64,
    is_noted: bool,
    noted: &mut [bool],
    disk: &mut D,
) -> Result<(), WorkFault>
    requires size { IsRecordSize K }
    requires first { 2 ≤ t }
    requires last { t ≤ 7 }
    requires stands { (ts : TableLists) × TablesStand K tables.old ts (D.view disk.old) }
    requires there { i < (pages_at tables.old (t - 1)).count }
    ensures read { OnOk result (HasRead K tables.old tables.new (D.view disk.old) (D.view disk.new)) }
    ensures count { length noted.new ≡ length noted.old }
{
    if !is_noted {
        return Ok(());
    }
    let (left, right) = tables.pair(disk, t, i)?;
    note(noted, left);
    note(noted, right);
    Ok(())
}

// Of each place of the table below table t, whether a pair of table t names it whose own place is noted.
fn named_by<D: Disk, const K: u32>(
    alloc: Global,
    tables: &mut Tables<K>,
    t: u8,
    above: &[bool],
    disk: &mut D,
) -> Result<Vec<bool>, WorkFault>
    requires size { IsRecordSize K }
    requires first { 2 ≤ t }
    requires last { t ≤ 7 }
    requires stands { (ts : TableLists) × TablesStand K tables.old ts (D.view disk.old) }
    requires places { length above.now ≡ (pages_at tables.old (t - 1)).count }
    ensures read { OnOk result (HasRead K tables.old tables.new (D.view disk.old) (D.view disk.new)) }
    ensures count { IfOk result (λ noted. length noted.items ≡ (pages_at tables.old (t - 1 - 1)).count) }
{
    let mut noted = places_of(alloc, tables.count(t - 1), false)?;
    for i in 0..above.len() {
        note_pair(tables, t, i as u64, above[i], noted.as_mut_slice(), disk)?;
    }
    Ok(noted)
}

// Of each place of tables 2 to 6, whether an entry of table 7 reaches it.
#[derive(Drop)]
struct Reached {
    t2: Vec<bool>,
    t3: Vec<bool>,
    t4: Vec<bool>,
    t5: Vec<bool>,
    t6: Vec<bool>,
}

// What plain loops find to be reached, from table 7 down.
fn find_reached<D: Disk, const K: u32>(
    alloc: Global,
    tables: &mut Tables<K>,
    disk: &mut D,
) -> Result<Reached, WorkFault>
    requires size { IsRecordSize K }
    requires stands { (ts : TableLists) × TablesStand K tables.old ts (D.view disk.old) }
    ensures read { OnOk result (HasRead K tables.old tables.new (D.view disk.old) (D.view disk.new)) }
    ensures of_table_2 { IfOk result (λ found. length found.t2.items ≡ (pages_at tables.old 1).count) }
    ensures of_table_3 { IfOk result (λ found. length found.t3.items ≡ (pages_at tables.old 2).count) }
    ensures of_table_4 { IfOk result (λ found. length found.t4.items ≡ (pages_at tables.old 3).count) }
    ensures of_table_5 { IfOk result (λ found. length found.t5.items ≡ (pages_at tables.old 4).count) }
    ensures of_table_6 { IfOk result (λ found. length found.t6.items ≡ (pages_at tables.old 5).count) }
{
    let all = places_of(alloc, tables.count(7), true)?;
    let t6 = named_by(alloc, tables, 7, &all, disk)?;
    let t5 = named_by(alloc, tables, 6, &t6, disk)?;
    let t4 = named_by(alloc, tables, 5, &t5, disk)?;
    let t3 = named_by(alloc, tables, 4, &t4, disk)?;
    let t2 = named_by(alloc, tables, 3, &t3, disk)?;
    Ok(Reached { t2, t3, t4, t5, t6 })
}

// How many places are noted.
fn noted_of(noted: &[bool]) -> u64 {
    let mut count = 0u64;
    for i in 0..noted.len() {
        if noted[i] {
            count += 1;
        }
    }
    count
}

// How many places are marked and not noted, or noted and not marked.
fn differing<D: Disk>(marks: &mut Marks, noted: &[bool], disk: &mut D) -> Result<u64, WorkFault>
    requires stands { (p : ℕ → Bool) × Marked marks.old p (D.view disk.old) }
    requires sealed { AreSealed marks.old }
    requires places { place_count marks.old ≡ length noted.now }
    ensures only { OnOk result (ReadsOnly (D.view disk.old) (D.view disk.new)) }
    ensures stands { OnOk result ((p : ℕ → Bool) × Marked marks.new p (D.view disk.new)) }
    ensures sealed { AreSealed marks.new }
    ensures places { place_count marks.new ≡ length noted.now }
{
    let mut differing = 0u64;
    for i in 0..noted.len() {
        if marks.has(disk, i as u64)? != noted[i] {
            differing += 1;
        }
    }
    Ok(differing)
}

// How many places there are, how many of them are noted, how many the marks count, and how many are marked and not noted, or
// noted and not marked.
fn compared<D: Disk>(marks: &mut Marks, noted: &[bool], disk: &mut D) -> Result<[u64; 4], WorkFault>
    requires stands { (p : ℕ → Bool) × Marked marks.old p (D.view disk.old) }
    requires sealed { AreSealed marks.old }
    requires places { place_count marks.old ≡ length noted.now }
    ensures { OnOk result (ReadsOnly (D.view disk.old) (D.view disk.new)) }
{
    let places = noted.len() as u64;
    let differing = differing(marks, noted, disk)?;
    let marked = marks.rank(disk, places)?;
    Ok([places, noted_of(noted), marked, differing])
}

// The kept places of tables 2 to 6 beside the reached ones.
fn all_compared<D: Disk, const K: u32>(
    kept: Kept<K>,
    found: &Reached,
    disk: &mut D,
) -> Result<[[u64; 4]; 5], WorkFault>
    requires stands { (s : ScratchState) × (ts : TableLists) × KeptStand K s kept.tables kept.m2 kept.m3 kept.m4 kept.m5 kept.m6
        ts (D.view disk.old) }
    requires of_table_2 { length found.now.t2.items ≡ (pages_at kept.tables 1).count }
    requires of_table_3 { length found.now.t3.items ≡ (pages_at kept.tables 2).count }
    requires of_table_4 { length found.now.t4.items ≡ (pages_at kept.tables 3).count }
    requires of_table_5 { length found.now.t5.items ≡ (pages_at kept.tables 4).count }
    requires of_table_6 { length found.now.t6.items ≡ (pages_at kept.tables 5).count }
{
    let Kept {
        tables: _,
        m2,
        m3,
        m4,
        m5,
        m6,
    } = kept;
    let (mut m2, mut m3, mut m4, mut m5, mut m6) = (m2, m3, m4, m5, m6);
    let of_table_2 = compared(&mut m2, &found.t2, disk)?;
    let of_table_3 = compared(&mut m3, &found.t3, disk)?;
    let of_table_4 = compared(&mut m4, &found.t4, disk)?;
    let of_table_5 = compared(&mut m5, &found.t5, disk)?;
    let of_table_6 = compared(&mut m6, &found.t6, disk)?;
    Ok([of_table_2, of_table_3, of_table_4, of_table_5, of_table_6])
}

// Notes what is reached, then prunes the tables, and compares.
fn pruned<D: Disk, const K: u32>(
    alloc: Global,
    tables: Tables<K>,
    scratch: &mut Scratch,
    disk: &mut D,
) -> Result<[[u64; 4]; 5], WorkFault>
    requires size { IsRecordSize K }
    requires room { scratch.old.made ≤ 9960 }
    requires files { StandsOn scratch.old (D.view disk.old) }
    requires left { (file : ℕ) → IsTablesFile tables file → IsLeft scratch.old file }
    requires stands { (ts : TableLists) × TablesStand K tables ts (D.view disk.old)
        × ((D.view disk.old).tells ≡ true → PairsInside ts 6) }
{
    let mut tables = tables;
    let found = find_reached(alloc, &mut tables, disk)?;
    let kept = prune(alloc, tables, scratch, disk)?;
    all_compared(kept, &found, disk)
}

// Makes the tables of an id, and prunes them.
fn made_and_pruned<D: Disk, const K: u32>(
    alloc: Global,
    id: &Id,
    disk: &mut D,
) -> Result<[[u64; 4]; 5], ForwardFault>
    requires { IsRecordSize K }
{
    let Ok(mut scratch) = Scratch::new(alloc, "s") else {
        return Err(ForwardFault::Work(WorkFault::Memory));
    };
    let plan = Plan::standard(K);
    let mut lanes = Lanes::new();
    let tables = forward::<D, K>(alloc, id, &plan, &mut scratch, disk, &mut lanes)?;
    pruned(alloc, tables, &mut scratch, disk).map_err(|fault| ForwardFault::Work(fault))
}

// A row for each table from 2 to 6: how many entries it has, how many of them an entry of table 7 reaches by the plain loops,
// how many are kept, and at how many the two differ. The numbers are those that an independent program gives. Of the second id
// fewer entries would be kept were the first pairs of tables 3 to 6 left out, or their last ones; of the id of zeros their first
// pairs make no difference.
#[test]
fn the_places_that_table_7_reaches_are_kept(rt: HostRuntime) -> Result<(), Fail> {
    let mut disk = MemoryDisk::new(rt.alloc(), Vec::new(rt.alloc()));
    assert_eq!(rt;
        made_and_pruned::<MemoryDisk, 12>(rt.alloc(), &Id([0; 32]), &mut disk)?,
        [
            [3817, 1434, 1434, 0],
            [3422, 903, 903, 0],
            [2689, 523, 523, 0],
            [1691, 289, 289, 0],
            [667, 157, 157, 0],
        ]
    );
    let mut disk = MemoryDisk::new(rt.alloc(), Vec::new(rt.alloc()));
    assert_eq!(rt;
        made_and_pruned::<MemoryDisk, 12>(rt.alloc(), &Id([0xcc; 32]), &mut disk)?,
        [
            [3774, 1257, 1257, 0],
            [3378, 763, 763, 0],
            [2682, 436, 436, 0],
            [1616, 241, 241, 0],
            [577, 133, 133, 0],
        ]
    );
    Ok(())
}
