// The kept places of all tables.
ghost use Rattle.std.specs.Prelude.{◌≡◌, ◌+◌, ◌<◌, ◌≤◌, ℕ, true, IfOk, IsErrOf, OnOk};
ghost use Rattle.pos_edge.specs.Faults.{Rose};
ghost use Rattle.pos_edge.specs.Frame.{Nothing, SameFaultsBut};
ghost use Rattle.pos_edge.specs.Calls.{WasThere};
ghost use Rattle.pos_edge.specs.ScratchNames.{IsLeft, StandsOn, scratch_name};
ghost use Rattle.pos_edge.specs.ScratchWork.{IsNameBetween, IsScratchDone, IsScratchWork};
ghost use Rattle.pos_lists.specs.TableLists.{TableLists, PairsInside};
ghost use Rattle.pos_record.specs.Fields.{IsRecordSize};
ghost use Rattle.pos_runs.specs.Runs.{IsTablesFile, TablesStand, pages_at};
ghost use Rattle.pos_prune.specs.KeptTables.{KeptStand, MarksStand};
ghost use Rattle.pos_prune.specs.Marking.{AreLowerMade, AreMarksKept, AreUpperMade, IsMarkAnswer};
ghost use Rattle.pos_prune.specs.Passes.{IsPairDamage};

use crate::Kept;
use crate::levels::{marks_below, marks_of_six};
use pos_edge::{Disk, Scratch, WorkFault};
use pos_marks::Marks;
use pos_runs::Tables;
use std::alloc::Global;

/// Finds of each of the tables 2 to 6 the places that an entry of table 7 reaches. Reads each list of pairs once, in order, and
/// makes five scratch files, whatever it answers no more. A file of others under a scratch name is left as it is.
///
/// The tables' lists stand, and their files are scratch files that are left; the `Scratch` has made at most 9,960. `Exists`
/// where the name of a file that was to be made is there; `Scratch` where a pair points outside of the table below, which
/// over a disk that tells never comes.
/// Source: the Construction document, "back propagation".
pub fn prune<D: Disk, const K: u32>(
    alloc: Global,
    tables: Tables<K>,
    scratch: &mut Scratch,
    disk: &mut D,
) -> Result<Kept<K>, WorkFault>
    requires size { IsRecordSize K }
    requires room { scratch.old.made ≤ 9960 }
    requires files { StandsOn scratch.old (D.view disk.old) }
    requires left { (file : ℕ) → IsTablesFile tables file → IsLeft scratch.old file }
    requires stands { (ts : TableLists) × TablesStand K tables ts (D.view disk.old)
        × ((D.view disk.old).tells ≡ true → PairsInside ts 6) }
    ensures work { IsScratchWork (IsNameBetween scratch.old.base scratch.old.made (scratch.new.made + 1)) Nothing
        scratch.old scratch.new (D.view disk.old) (D.view disk.new) }
    ensures done { OnOk result (IsScratchDone (IsNameBetween scratch.old.base scratch.old.made scratch.new.made) Nothing
        scratch.old scratch.new (D.view disk.old) (D.view disk.new)) }
    ensures most { scratch.new.made ≤ scratch.old.made + 5 }
    ensures made { OnOk result (scratch.new.made ≡ scratch.old.made + 5) }
    ensures kept { IfOk result (λ kept. (ts : TableLists) → TablesStand K tables.entry ts (D.view disk.old)
        → ((D.view disk.old).tells ≡ true → PairsInside ts 6)
        → KeptStand K scratch.new kept.tables kept.m2 kept.m3 kept.m4 kept.m5 kept.m6 ts (D.view disk.new)) }
    ensures counts { IfOk result (λ kept. (n : ℕ) → (pages_at kept.tables n).count ≡ (pages_at tables.entry n).count) }
    ensures exists { (file : _) → IsErrOf result (WorkFault.Exists file)
        → (file ≡ scratch.new.made) × WasThere (scratch_name scratch.old.base file) (D.view disk.old) }
    ensures failed { IsErrOf result WorkFault.DiskFailed → Rose (D.view disk.old).faults (D.view disk.new).faults }
    ensures quiet { SameFaultsBut WorkFault.DiskFailed result (D.view disk.old) (D.view disk.new) }
    ensures damage { (d : _) → IsErrOf result (WorkFault.Scratch d) → (n : ℕ) × (n < 6) × IsPairDamage tables.entry n d }
    ensures never { (d : _) → IsErrOf result (WorkFault.Scratch d) → (D.view disk.old).tells ≡ true → ⊥ }
{
    kept_levels(alloc, tables, scratch, disk)
}

// The marks of all five levels, from the highest down.
fn kept_levels<D: Disk, const K: u32>(
    alloc: Global,
    tables: Tables<K>,
    scratch: &mut Scratch,
    disk: &mut D,
) -> Result<Kept<K>, WorkFault>
    requires size { IsRecordSize K }
    requires room { scratch.old.made ≤ 9960 }
    requires files { StandsOn scratch.old (D.view disk.old) }
    requires left { (file : ℕ) → IsTablesFile tables file → IsLeft scratch.old file }
    requires stands { (ts : TableLists) × TablesStand K tables ts (D.view disk.old)
        × ((D.view disk.old).tells ≡ true → PairsInside ts 6) }
    ensures answer { IsMarkAnswer K 5 tables.entry result scratch.old scratch.new (D.view disk.old) (D.view disk.new) }
    ensures made { IfOk result (λ kept. AreMarksKept K tables.entry kept.tables kept.m2 kept.m3 kept.m4 kept.m5 kept.m6
        scratch.old scratch.new (D.view disk.old) (D.view disk.new)) }
{
    let mut tables = tables;
    let upper = upper_levels(alloc, &mut tables, scratch, disk)?;
    let Upper { m4, m5, m6 } = upper;
    let mut m4 = m4;
    let lower = lower_levels(alloc, &mut tables, &mut m4, scratch, disk)?;
    let Lower { m2, m3 } = lower;
    Ok(Kept {
        tables,
        m2,
        m3,
        m4,
        m5,
        m6,
    })
}

// The marks of tables 4 to 6.
#[derive(Drop)]
struct Upper {
    m4: Marks,
    m5: Marks,
    m6: Marks,
}

// The marks of tables 2 and 3.
#[derive(Drop)]
struct Lower {
    m2: Marks,
    m3: Marks,
}

// The marks of tables 6, 5 and 4.
fn upper_levels<D: Disk, const K: u32>(
    alloc: Global,
    tables: &mut Tables<K>,
    scratch: &mut Scratch,
    disk: &mut D,
) -> Result<Upper, WorkFault>
    requires size { IsRecordSize K }
    requires room { scratch.old.made ≤ 9960 }
    requires files { StandsOn scratch.old (D.view disk.old) }
    requires left { (file : ℕ) → IsTablesFile tables.old file → IsLeft scratch.old file }
    requires stands { (ts : TableLists) × TablesStand K tables.old ts (D.view disk.old)
        × ((D.view disk.old).tells ≡ true → PairsInside ts 6) }
    ensures answer { IsMarkAnswer K 3 tables.old result scratch.old scratch.new (D.view disk.old) (D.view disk.new) }
    ensures made { IfOk result (λ upper. AreUpperMade K tables.old tables.new upper.m4 upper.m5 upper.m6
        scratch.old scratch.new (D.view disk.old) (D.view disk.new)) }
{
    let mut m6 = marks_of_six(alloc, tables, scratch, disk)?;
    let mut m5 = marks_below(alloc, tables, 4, &mut m6, scratch, disk)?;
    let m4 = marks_below(alloc, tables, 3, &mut m5, scratch, disk)?;
    Ok(Upper { m4, m5, m6 })
}

// The marks of tables 3 and 2, by those of table 4.
fn lower_levels<D: Disk, const K: u32>(
    alloc: Global,
    tables: &mut Tables<K>,
    above: &mut Marks,
    scratch: &mut Scratch,
    disk: &mut D,
) -> Result<Lower, WorkFault>
    requires size { IsRecordSize K }
    requires room { scratch.old.made ≤ 9970 }
    requires files { StandsOn scratch.old (D.view disk.old) }
    requires left { (file : ℕ) → IsTablesFile tables.old file → IsLeft scratch.old file }
    requires stands { (ts : TableLists) × TablesStand K tables.old ts (D.view disk.old)
        × ((D.view disk.old).tells ≡ true → PairsInside ts 6) × MarksStand scratch.old above.old 3 ts (D.view disk.old) }
    ensures answer { IsMarkAnswer K 2 tables.old result scratch.old scratch.new (D.view disk.old) (D.view disk.new) }
    ensures made { IfOk result (λ lower. AreLowerMade K tables.old tables.new above.old above.new lower.m2 lower.m3
        scratch.old scratch.new (D.view disk.old) (D.view disk.new)) }
{
    let mut m3 = marks_below(alloc, tables, 2, above, scratch, disk)?;
    let m2 = marks_below(alloc, tables, 1, &mut m3, scratch, disk)?;
    Ok(Lower { m2, m3 })
}
