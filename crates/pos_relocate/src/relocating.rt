//! The seven tables of the file, from the lowest to the highest.
ghost use Rattle.std.specs.Prelude.{◌≡◌, ℕ, List, true, IfOk, IsErrOf, OnOk};
ghost use Rattle.pos_lists.specs.TableLists.{TableLists};
ghost use Rattle.pos_lists.specs.Sound.{IsSound};
ghost use Rattle.pos_runs.specs.Runs.{SameTables, TablesStand, pages_at};
ghost use Rattle.pos_laws.specs.Tables.{Describes};
ghost use Rattle.pos_layout.specs.Writing.{SameFile};
ghost use Rattle.pos_relocate.specs.Passes.{AreBelow, IsPass};
ghost use Rattle.pos_relocate.specs.Numbers.{numbers_of};
ghost use Rattle.pos_relocate.specs.Relocating.{AreAllUsed, AreLevelsAdded, AreRelocated, CanRelocate, IsSomethingTwice};

use crate::chosen::Chosen;
use crate::gathering::gather_values;
use crate::lasts::last;
use crate::levels::renumber;
use crate::numbers::Numbers;
use pos_edge::{Disk, WorkFault};
use pos_layout::PlotWriter;
use pos_marks::Marks;
use pos_runs::Tables;
use std::alloc::Global;

/// Adds the seven tables of the file to a writer that has none yet, made of these tables and of the marks of the used places of
/// tables 2 to 6, and ends each.
///
/// Each list on pages is read once and in order; the new places of one table are in memory. `Scratch` names a record that was
/// read back as a number out of its range: over a disk that tells and sound tables it comes only where two used entries of a
/// table can't be told apart, so never over the tables of an id.
/// Source: the Construction document, "compression" and "sort on line points".
pub fn relocate_tables<D: Disk, const K: u32>(
    alloc: Global,
    mut tables: Tables<K>,
    m2: Marks,
    m3: Marks,
    m4: Marks,
    m5: Marks,
    m6: Marks,
    writer: &mut PlotWriter,
    disk: &mut D,
) -> Result<(), WorkFault>
    requires { CanRelocate K tables m2 m3 m4 m5 m6 writer.old (D.view disk.old) }
    ensures pass { IsPass writer.old.file result (D.view disk.old) (D.view disk.new) }
    ensures same { SameFile writer.old writer.new }
    ensures ok { OnOk result (AreRelocated K tables.entry m2 m3 m4 m5 m6 writer.old writer.new (D.view disk.old) (D.view disk.new)) }
    ensures damage { (damage : _) → IsErrOf result (WorkFault.Scratch damage) → (ts : TableLists)
        → TablesStand K tables.entry ts (D.view disk.old) → (D.view disk.old).tells ≡ true → IsSound ts K
        → AreAllUsed m2 m3 m4 m5 m6 ts (D.view disk.old) → IsSomethingTwice ts K tables.entry damage }
    ensures never { (damage : _) → IsErrOf result (WorkFault.Scratch damage) → (ts : TableLists) (id : List ℕ)
        → TablesStand K tables.entry ts (D.view disk.old) → (D.view disk.old).tells ≡ true → Describes ts id K
        → AreAllUsed m2 m3 m4 m5 m6 ts (D.view disk.old) → ⊥ }
{
    let places = renumber_levels(alloc, &mut tables, m2, m3, m4, m5, m6, writer, disk)?;
    last(alloc, &mut tables, &places, writer, disk)
}

// Renumbers the used entries of tables 2 to 7, each table over the numbers of the one below, and answers the new places of
// table 7.
fn renumber_levels<D: Disk, const K: u32>(
    alloc: Global,
    tables: &mut Tables<K>,
    m2: Marks,
    m3: Marks,
    m4: Marks,
    m5: Marks,
    m6: Marks,
    writer: &mut PlotWriter,
    disk: &mut D,
) -> Result<Numbers, WorkFault>
    requires { CanRelocate K tables.old m2 m3 m4 m5 m6 writer.old (D.view disk.old) }
    ensures pass { IsPass writer.old.file result (D.view disk.old) (D.view disk.new) }
    ensures same { SameFile writer.old writer.new }
    ensures tables { OnOk result (SameTables K tables.old tables.new (D.view disk.old) (D.view disk.new)) }
    ensures places { IfOk result (λ places. AreBelow (pages_at tables.old 6).count (pages_at tables.old 6).count (numbers_of places)) }
    ensures ok { IfOk result (λ places. AreLevelsAdded K 6 m2 m3 m4 m5 m6 (numbers_of places) tables.old
        writer.old writer.new (D.view disk.old) (D.view disk.new)) }
    ensures damage { (damage : _) → IsErrOf result (WorkFault.Scratch damage) → (ts : TableLists)
        → TablesStand K tables.old ts (D.view disk.old) → (D.view disk.old).tells ≡ true → IsSound ts K
        → AreAllUsed m2 m3 m4 m5 m6 ts (D.view disk.old) → IsSomethingTwice ts K tables.old damage }
{
    let mut places = gather_values(alloc, tables, disk)?;
    let mut limit = 1 << K;
    let mut t = 2;
    for chosen in [
        Chosen::Those(m2),
        Chosen::Those(m3),
        Chosen::Those(m4),
        Chosen::Those(m5),
        Chosen::Those(m6),
        Chosen::Each,
    ] {
        places = renumber(alloc, tables, t, chosen, places, limit, writer, disk)?;
        limit = places.len();
        t += 1;
    }
    Ok(places)
}
