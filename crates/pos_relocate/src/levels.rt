//! The renumbering of one table.
ghost use Rattle.std.specs.Prelude.{◌≡◌, ◌-◌, ◌*◌, ◌/◌, ◌^◌, ◌≤◌, ◌↔◌, ◌⊎◌, ℕ, Bool, true, slice_index, IfOk, IsErrOf, IsTrue, OnOk};
ghost use Rattle.pos_lists.specs.TableLists.{TableLists};
ghost use Rattle.pos_runs.specs.Runs.{SameTables, TablesStand, pages_at};
ghost use Rattle.pos_layout.specs.Writing.{OpensNext, SameFile};
ghost use Rattle.pos_relocate.specs.Passes.{AreBelow, IsPass};
ghost use Rattle.pos_relocate.specs.Choosing.{Chooses};
ghost use Rattle.pos_relocate.specs.Gathering.{SomeHasNoPoint};
ghost use Rattle.pos_relocate.specs.Numbers.{numbers_of};
ghost use Rattle.pos_relocate.specs.Levels.{CanRenumber, IsLevelAdded, IsPointTwice};

use crate::chosen::Chosen;
use crate::gathering::gather;
use crate::numbering::number_least;
use crate::numbers::Numbers;
use crate::pointed::{Narrow, Pointed, Wide};
use pos_edge::{Disk, WorkFault};
use pos_layout::PlotWriter;
use pos_runs::Tables;
use std::alloc::Global;

/// Renumbers the chosen entries of table t: adds the file's table t - 1 to the writer, and answers the new places by old
/// place.
///
/// `below` has the numbers of the table below by place, each less than `limit`; it is given up before the entries are
/// sorted. The entries take the least room that holds their points. `Scratch` where an entry has no point, or a point
/// comes twice.
pub(crate) fn renumber<D: Disk, const K: u32>(
    alloc: Global,
    tables: &mut Tables<K>,
    t: u8,
    chosen: Chosen,
    below: Numbers,
    limit: u64,
    writer: &mut PlotWriter,
    disk: &mut D,
) -> Result<Numbers, WorkFault>
    requires { CanRenumber K t limit chosen (numbers_of below) tables.old writer.old (D.view disk.old) }
    ensures pass { IsPass writer.old.file result (D.view disk.old) (D.view disk.new) }
    ensures same { SameFile writer.old writer.new }
    ensures next { OnOk result (OpensNext writer.old writer.new) }
    ensures tables { OnOk result (SameTables K tables.old tables.new (D.view disk.old) (D.view disk.new)) }
    ensures places { IfOk result (λ places. AreBelow (pages_at tables.old (t - 1)).count (pages_at tables.old (t - 1)).count (numbers_of places)) }
    ensures ok { IfOk result (λ places. IsLevelAdded K t chosen (numbers_of below) (numbers_of places) tables.old
        writer.old writer.new (D.view disk.old) (D.view disk.new)) }
    ensures damage { (damage : _) → IsErrOf result (WorkFault.Scratch damage)
        → (ts : TableLists) (p : ℕ → Bool) → TablesStand K tables.old ts (D.view disk.old)
        → Chooses chosen (pages_at tables.old (t - 1)).count p (D.view disk.old) → (D.view disk.old).tells ≡ true
        → SomeHasNoPoint ts (t - 2) p limit (numbers_of below) tables.old damage
        ⊎ IsPointTwice ts K (t - 2) (λ i. p i ≡ true) (slice_index (numbers_of below)) (pages_at tables.old (t - 1)).number damage }
{
    if is_narrow(limit) {
        renumber_in::<Narrow, D, K>(alloc, tables, t, chosen, below, limit, writer, disk)
    } else {
        renumber_in::<Wide, D, K>(alloc, tables, t, chosen, below, limit, writer, disk)
    }
}

// Whether the points of numbers below this limit have 64 bits.
fn is_narrow(limit: u64) -> bool
    ensures { IsTrue result ↔ (limit * (limit - 1) / 2 ≤ 2 ^ 64) }
{
    u128::from(limit) * u128::from(limit.saturating_sub(1)) / 2 <= 1 << 64
}

// The same with entries of this width.
fn renumber_in<P: Pointed, D: Disk, const K: u32>(
    alloc: Global,
    tables: &mut Tables<K>,
    t: u8,
    mut chosen: Chosen,
    below: Numbers,
    limit: u64,
    writer: &mut PlotWriter,
    disk: &mut D,
) -> Result<Numbers, WorkFault>
    requires can { CanRenumber K t limit chosen (numbers_of below) tables.old writer.old (D.view disk.old) }
    requires exact { limit * (limit - 1) / 2 ≤ P.bound }
    ensures pass { IsPass writer.old.file result (D.view disk.old) (D.view disk.new) }
    ensures same { SameFile writer.old writer.new }
    ensures next { OnOk result (OpensNext writer.old writer.new) }
    ensures tables { OnOk result (SameTables K tables.old tables.new (D.view disk.old) (D.view disk.new)) }
    ensures places { IfOk result (λ places. AreBelow (pages_at tables.old (t - 1)).count (pages_at tables.old (t - 1)).count (numbers_of places)) }
    ensures ok { IfOk result (λ places. IsLevelAdded K t chosen (numbers_of below) (numbers_of places) tables.old
        writer.old writer.new (D.view disk.old) (D.view disk.new)) }
    ensures damage { (damage : _) → IsErrOf result (WorkFault.Scratch damage)
        → (ts : TableLists) (p : ℕ → Bool) → TablesStand K tables.old ts (D.view disk.old)
        → Chooses chosen (pages_at tables.old (t - 1)).count p (D.view disk.old) → (D.view disk.old).tells ≡ true
        → SomeHasNoPoint ts (t - 2) p limit (numbers_of below) tables.old damage
        ⊎ IsPointTwice ts K (t - 2) (λ i. p i ≡ true) (slice_index (numbers_of below)) (pages_at tables.old (t - 1)).number damage }
{
    let entries = gather::<P, D, K>(alloc, tables, t, &mut chosen, &below, limit, disk)?;
    drop(below);
    let count = tables.count(t);
    let places = number_least::<P, D, K>(alloc, entries, count, tables.file(t), writer, disk)?;
    Ok(places)
}
