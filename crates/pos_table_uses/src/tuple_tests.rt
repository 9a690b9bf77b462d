// Each table, as the values that its entries are made of, against plain loops over all pairs of entries.
ghost use Rattle.std.specs.Prelude.{◌≡◌, ◌<◌, suc, OnOk};
ghost use Rattle.pos_lists.specs.TableLists.{TableLists};
ghost use Rattle.pos_record.specs.Fields.{IsRecordSize};
ghost use Rattle.pos_runs.specs.Runs.{TablesStand, pages_at};
ghost use Rattle.pos_prune.specs.Passes.{SameLists};

use crate::plain::{Row, Values, first_rows, joined_values, next_rows, width_of};
use pos_edge::{Disk, MemoryDisk, Scratch, WorkFault};
use pos_forward::{ForwardFault, forward};
use pos_lanes::Lanes;
use pos_runs::{Plan, Tables};
use pos_tuple::{Id, Size};
use std::alloc::Global;
use std::test::Fail;

// The values of an entry of table 1.
fn value_at<D: Disk, const K: u32>(
    tables: &mut Tables<K>,
    i: u64,
    disk: &mut D,
) -> Result<Values, WorkFault>
    requires size { IsRecordSize K }
    requires stands { (ts : TableLists) × TablesStand K tables.old ts (D.view disk.old) }
    requires there { i < (pages_at tables.old 0).count }
    ensures stands { OnOk result ((ts : TableLists) × TablesStand K tables.new ts (D.view disk.new)) }
    ensures lists { OnOk result (SameLists tables.old tables.new) }
{
    let mut values = [0u64; 64];
    values[0] = tables.value(disk, i)?;
    Ok(values)
}

// The values of the entries of table 1.
fn first_values<D: Disk, const K: u32>(
    alloc: Global,
    tables: &mut Tables<K>,
    disk: &mut D,
) -> Result<Vec<Values>, WorkFault>
    requires size { IsRecordSize K }
    requires stands { (ts : TableLists) × TablesStand K tables.old ts (D.view disk.old) }
    ensures stands { OnOk result ((ts : TableLists) × TablesStand K tables.new ts (D.view disk.new)) }
{
    let mut all = Vec::new(alloc);
    for i in 0..tables.count(1) {
        let values = value_at(tables, i, disk)?;
        all.push(values).map_err(|_| WorkFault::Memory)?;
    }
    Ok(all)
}

// The values at a place of a level; zeros where there is no such place.
fn values_at(below: &[Values], place: u64) -> Values {
    match below.get(place as usize) {
        Some(values) => *values,
        None => [0; 64],
    }
}

// The values of entry i of the level above, of those of the entries of a level.
fn joined_at<D: Disk, const K: u32>(
    level: u8,
    tables: &mut Tables<K>,
    i: u64,
    below: &[Values],
    disk: &mut D,
) -> Result<Values, WorkFault>
    requires level { level < 6 }
    requires size { IsRecordSize K }
    requires stands { (ts : TableLists) × TablesStand K tables.old ts (D.view disk.old) }
    requires there { i < (pages_at tables.old (suc level)).count }
    ensures stands { OnOk result ((ts : TableLists) × TablesStand K tables.new ts (D.view disk.new)) }
    ensures lists { OnOk result (SameLists tables.old tables.new) }
{
    let (left, right) = tables.pair(disk, level + 2, i)?;
    Ok(joined_values(
        &values_at(below, left),
        &values_at(below, right),
        width_of(level),
    ))
}

// The values of the entries of the level above, of those of the entries of a level.
fn next_values<D: Disk, const K: u32>(
    alloc: Global,
    level: u8,
    tables: &mut Tables<K>,
    below: &[Values],
    disk: &mut D,
) -> Result<Vec<Values>, WorkFault>
    requires level { level < 6 }
    requires size { IsRecordSize K }
    requires stands { (ts : TableLists) × TablesStand K tables.old ts (D.view disk.old) }
    ensures stands { OnOk result ((ts : TableLists) × TablesStand K tables.new ts (D.view disk.new)) }
{
    let mut all = Vec::new(alloc);
    for i in 0..tables.count(level + 2) {
        let values = joined_at(level, tables, i, below, disk)?;
        all.push(values).map_err(|_| WorkFault::Memory)?;
    }
    Ok(all)
}

// Whether these rows have the same values as these entries, each as often.
fn are_same(alloc: Global, rows: &[Row], entries: &[Values]) -> Result<bool, WorkFault> {
    let mut found = Vec::new(alloc);
    for row in rows {
        found.push(row.values).map_err(|_| WorkFault::Memory)?;
    }
    let mut others = Vec::new(alloc);
    for values in entries {
        others.push(*values).map_err(|_| WorkFault::Memory)?;
    }
    found.sort_unstable();
    others.sort_unstable();
    Ok(found == others)
}

// Up to which table the entries are those that plain loops over all pairs find: 7 where all are.
fn agreeing<D: Disk, const K: u32>(
    alloc: Global,
    id: &Id,
    tables: &mut Tables<K>,
    disk: &mut D,
) -> Result<u8, Fail>
    requires size { IsRecordSize K }
    requires stands { (ts : TableLists) × TablesStand K tables.old ts (D.view disk.old) }
{
    let size = Size::of(K);
    let mut rows = first_rows(alloc, id, size)?;
    let mut values = first_values(alloc, tables, disk)?;
    if !are_same(alloc, &rows, &values)? {
        return Ok(0);
    }
    for level in 0..6u8 {
        rows = next_rows(alloc, size, level, &rows)?;
        values = next_values(alloc, level, tables, &values, disk)?;
        if !are_same(alloc, &rows, &values)? {
            return Ok(level + 1);
        }
    }
    Ok(7)
}

// Makes the tables of the id of zeros; how many entries tables 2 and 7 have, and up to which table plain loops agree.
fn made_and_compared<D: Disk, const K: u32>(
    alloc: Global,
    disk: &mut D,
) -> Result<(u64, u64, u8), Fail>
    requires { IsRecordSize K }
{
    let Ok(mut scratch) = Scratch::new(alloc, "s") else {
        return Err(ForwardFault::Work(WorkFault::Memory).into());
    };
    let plan = Plan::standard(K);
    let mut lanes = Lanes::new();
    let id = Id([0; 32]);
    let tables = forward::<D, K>(alloc, &id, &plan, &mut scratch, disk, &mut lanes)?;
    let mut tables = tables;
    let (second, last) = (tables.count(2), tables.count(7));
    let table = agreeing(alloc, &id, &mut tables, disk)?;
    Ok((second, last, table))
}

#[test]
fn at_size_10_plain_loops_find_each_table(rt: HostRuntime) -> Result<(), Fail> {
    let mut disk = MemoryDisk::new(rt.alloc(), Vec::new(rt.alloc()));
    assert_eq!(rt;
        made_and_compared::<MemoryDisk, 10>(rt.alloc(), &mut disk)?,
        (867, 0, 7)
    );
    Ok(())
}

#[test]
fn at_size_11_plain_loops_find_each_table(rt: HostRuntime) -> Result<(), Fail> {
    let mut disk = MemoryDisk::new(rt.alloc(), Vec::new(rt.alloc()));
    assert_eq!(rt;
        made_and_compared::<MemoryDisk, 11>(rt.alloc(), &mut disk)?,
        (1713, 0, 7)
    );
    Ok(())
}
