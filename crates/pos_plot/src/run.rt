// A whole plotting run.
ghost use Rattle.std.specs.Prelude.{◌≡◌, ◌+◌, ◌^◌, ◌≤◌, ℕ, length};
ghost use Rattle.pos_layout.specs.Layouts.{memo_of};
ghost use Rattle.pos_edge.specs.ScratchNames.{IsScratchName};
ghost use Rattle.pos_plot.specs.PlotRuns.{IsPlotRun};

use crate::PlotFault;
use crate::closing::close;
use crate::filling::fill;
use crate::starting::start;
use pos_edge::{Disk, Scratch};
use pos_layout::{GREATEST_SIZE, LEAST_SIZE, Layout};
use pos_runs::Plan;
use pos_tuple::{Id, Size};
use std::alloc::Global;

/// How many numbers each table of a plot file has, from table 1 to table 7, and how many bytes the file has.
#[derive(Clone, Copy, Debug, PartialEq, Eq)]
pub struct Counts {
    pub tables: [u64; 7],
    pub length: u64,
}

/// How many scratch files a run makes: fourteen while it makes the tables, five for the used places.
pub const SCRATCH_FILES: u32 = 19;

/// Makes the plot file of an id and the size K, from 10 to 50, in a layout, with a memo, under a name, and answers its counts.
///
/// The memo has at most 256 bytes, and none in the first layout. No table from 2 to 7 may have more entries than the plan allows, at most 2^(K + 1). The scratch files are called by
/// `scratch`, a full stop and a number, and the plot file by none of these names. The file is made and begun, the tables
/// are made, their used places marked and the lists written; then the scratch files are removed, and the file is finished.
///
/// Where the name of the file is there, nothing is changed or made. Else the file, whatever ends the run, does not open
/// or is the finished one; after a refusal it and scratch files may be left, after Ok no scratch file is. Whatever ends it,
/// each other file that was there is as it was. `Exists` names the file that is there, of scratch files the first; `TableFull` the first table that outgrows the plan; `DiskFailed` comes where the disk failed;
/// `Scratch` never over a disk that tells.
/// Source: the Construction document, "plotting".
pub fn plot<D: Disk, const K: u32>(
    alloc: Global,
    id: &Id,
    plan: &Plan,
    layout: Layout,
    memo: &[u8],
    name: &str,
    scratch: &str,
    disk: &mut D,
) -> Result<Counts, PlotFault>
    requires least { LEAST_SIZE ≤ K }
    requires greatest { K ≤ GREATEST_SIZE }
    requires plan { plan.now ≤ 2 ^ (K + 1) }
    requires memo { length memo.now ≤ memo_of layout }
    requires apart { IsScratchName scratch.now name.now → ⊥ }
    ensures { IsPlotRun layout memo.now id.now.0 K plan.now name.now scratch.now result (D.view disk.old) (D.view disk.new) }
{
    let mut files = Scratch::new(alloc, scratch)?;
    let mut writer = start(alloc, id, Size::of(K), layout, memo, name, disk)?;
    fill::<D, K>(alloc, id, plan, &mut files, &mut writer, disk)?;
    let counts = close(&mut files, writer, disk)?;
    Ok(counts)
}
