// The filling of a plot file: the tables are made on scratch files, and the lists of the file written.
ghost use Rattle.std.specs.Prelude.{◌≡◌, ◌+◌, ◌^◌, ◌≤◌, ℕ, List, OnOk};
ghost use Rattle.pos_edge.specs.Frame.{NameOf};
ghost use Rattle.pos_edge.specs.ScratchNames.{IsScratchName, fresh_scratch};
ghost use Rattle.pos_layout.specs.Drafts.{Stands, begun};
ghost use Rattle.pos_layout.specs.declared.layout.Layout.{Layout};
ghost use Rattle.pos_layout.specs.Writing.{IsBegun};
ghost use Rattle.pos_plot.specs.Filling.{CanFill, HasLists, IsFilling};
ghost use Rattle.pos_plot.specs.Steps.{HasFilled, IsFill};

use crate::PlotFault;
use pos_edge::{Disk, Scratch, WorkFault};
use pos_forward::forward;
use pos_lanes::Lanes;
use pos_layout::{GREATEST_SIZE, LEAST_SIZE, PlotWriter};
use pos_prune::{Kept, prune};
use pos_relocate::relocate_tables;
use pos_runs::{Plan, Tables};
use pos_tuple::Id;
use std::alloc::Global;

// Makes the tables of the id, and writes the seven lists of the file from them.
pub(crate) fn fill<D: Disk, const K: u32>(
    alloc: Global,
    id: &Id,
    plan: &Plan,
    files: &mut Scratch,
    writer: &mut PlotWriter,
    disk: &mut D,
) -> Result<(), PlotFault>
    requires least { LEAST_SIZE ≤ K }
    requires greatest { K ≤ GREATEST_SIZE }
    requires plan { plan.now ≤ 2 ^ (K + 1) }
    requires fresh { files.old ≡ fresh_scratch files.old.base }
    requires begins { IsBegun writer.old.file writer.old.layout K writer.old }
    requires stands { (l : Layout) × (memo : List ℕ) × Stands writer.old (begun l memo id.now.0 K) (D.view disk.old) }
    requires other { (n : List ℕ) → NameOf writer.old.file (D.view disk.old) n → IsScratchName files.old.base n → ⊥ }
    ensures fill { IsFill id.now.0 K plan.now files.old.base writer.old.file result (D.view disk.old) (D.view disk.new) }
    ensures ok { OnOk result (HasFilled id.now.0 K plan.now files.old.base files.new writer.old writer.new
        (D.view disk.old) (D.view disk.new)) }
{
    let mut lanes = Lanes::new();
    let tables = forward::<D, K>(alloc, id, plan, files, disk, &mut lanes)?;
    fill_from::<D, K>(alloc, tables, files, writer, disk)?;
    Ok(())
}

/// Marks the used places of these tables, and writes the seven lists of the file from them: the filling of a plot file from
/// whatever tables stand.
///
/// A writer has nothing yet in a file that is none of the scratch files. `Exists` names the scratch file that is there;
/// `Scratch` names a record that was read back as a number out of its range: never over a disk that tells and the tables of an
/// id. Whatever ends it, the file does not open.
pub fn fill_from<D: Disk, const K: u32>(
    alloc: Global,
    tables: Tables<K>,
    files: &mut Scratch,
    writer: &mut PlotWriter,
    disk: &mut D,
) -> Result<(), WorkFault>
    requires { CanFill K tables files.old writer.old (D.view disk.old) }
    ensures filling { IsFilling K tables.entry files.old files.new writer.old.file result (D.view disk.old) (D.view disk.new) }
    ensures ok { OnOk result (HasLists K tables.entry files.old files.new writer.old writer.new (D.view disk.old) (D.view disk.new)) }
{
    let kept = prune(alloc, tables, files, disk)?;
    let Kept {
        tables,
        m2,
        m3,
        m4,
        m5,
        m6,
    } = kept;
    relocate_tables(alloc, tables, m2, m3, m4, m5, m6, writer, disk)?;
    Ok(())
}
