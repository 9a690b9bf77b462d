// The marks of one level: a new set, marked by a pass over the level above, and sealed. Levels count from 0 to 6: level n is
// table n + 1.
ghost use Rattle.std.specs.Prelude.{◌≡◌, ◌+◌, ◌<◌, ◌≤◌, ℕ, suc, Bool, IfOk, OnOk};
ghost use Rattle.pos_edge.specs.ScratchNames.{IsLeft, StandsOn};
ghost use Rattle.pos_lists.specs.TableLists.{TableLists};
ghost use Rattle.pos_marks.specs.Marks.{AreSealed, Marked, marks_file, place_count};
ghost use Rattle.pos_record.specs.Fields.{IsRecordSize};
ghost use Rattle.pos_runs.specs.Runs.{IsTablesFile, TablesStand, pages_at};
ghost use Rattle.pos_prune.specs.Marking.{AreMarksMade, IsMarkAnswer};
ghost use Rattle.pos_prune.specs.Passes.{HasAsked, gives_below, is_marked};

use crate::pairs::{mark_all, mark_kept};
use pos_edge::{Disk, MAX_SCRATCH_FILES, Scratch, WorkFault};
use pos_marks::Marks;
use pos_runs::Tables;
use std::alloc::Global;

// The marks of table 6, on the places of all pairs of table 7.
pub(crate) fn marks_of_six<D: Disk, const K: u32>(
    alloc: Global,
    tables: &mut Tables<K>,
    scratch: &mut Scratch,
    disk: &mut D,
) -> Result<Marks, WorkFault>
    requires size { IsRecordSize K }
    requires room { scratch.old.made < MAX_SCRATCH_FILES }
    requires files { StandsOn scratch.old (D.view disk.old) }
    requires left { (file : ℕ) → IsTablesFile tables.old file → IsLeft scratch.old file }
    requires stands { (ts : TableLists) × TablesStand K tables.old ts (D.view disk.old) }
    ensures answer { IsMarkAnswer K 1 tables.old result scratch.old scratch.new (D.view disk.old) (D.view disk.new) }
    ensures made { IfOk result (λ marks. AreMarksMade K 5 (gives_below (pages_at tables.old 6).count) tables.old tables.new marks
        scratch.old scratch.new (D.view disk.old) (D.view disk.new)) }
{
    let mut marks = Marks::new(alloc, tables.count(6), scratch, disk)?;
    mark_all(tables, &mut marks, disk)?;
    marks.seal(disk)?;
    Ok(marks)
}

// The marks of a level, on the places of those pairs of the level above whose own places are marked there.
pub(crate) fn marks_below<D: Disk, const K: u32>(
    alloc: Global,
    tables: &mut Tables<K>,
    level: u8,
    above: &mut Marks,
    scratch: &mut Scratch,
    disk: &mut D,
) -> Result<Marks, WorkFault>
    requires size { IsRecordSize K }
    requires level { level < 6 }
    requires room { scratch.old.made < MAX_SCRATCH_FILES }
    requires files { StandsOn scratch.old (D.view disk.old) }
    requires left { (file : ℕ) → IsTablesFile tables.old file → IsLeft scratch.old file }
    requires stands { (ts : TableLists) × TablesStand K tables.old ts (D.view disk.old) }
    requires above { (u : ℕ → Bool) × Marked above.old u (D.view disk.old) }
    requires above_left { IsLeft scratch.old (marks_file above.old) }
    requires sealed { AreSealed above.old }
    requires above_places { place_count above.old ≡ (pages_at tables.old (suc level)).count }
    ensures answer { IsMarkAnswer K 1 tables.old result scratch.old scratch.new (D.view disk.old) (D.view disk.new) }
    ensures made { IfOk result (λ marks. AreMarksMade K level (is_marked above.old (D.view disk.old)) tables.old tables.new marks
        scratch.old scratch.new (D.view disk.old) (D.view disk.new)) }
    ensures asked { OnOk result (HasAsked above.old above.new (D.view disk.old) (D.view disk.new)) }
{
    let mut marks = Marks::new(alloc, tables.count(level + 1), scratch, disk)?;
    mark_kept(tables, level, above, &mut marks, disk)?;
    marks.seal(disk)?;
    Ok(marks)
}
