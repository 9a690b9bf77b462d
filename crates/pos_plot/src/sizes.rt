// The choice of a size.
ghost use Rattle.std.specs.Prelude.{◌≡◌, ◌+◌, ◌^◌, ◌≤◌, ℕ, length};
ghost use Rattle.pos_edge.specs.ScratchNames.{IsScratchName};
ghost use Rattle.pos_layout.specs.Layouts.{memo_of};
ghost use Rattle.pos_plot.specs.PlotRuns.{IsPlotRun};

use crate::{Counts, PlotFault, plot};
use pos_edge::Disk;
use pos_layout::{GREATEST_SIZE, Layout};
use pos_runs::Plan;
use pos_tuple::{Id, Size};
use std::alloc::Global;

// The run of one of these sizes, the last of them where it is none of the others.
macro_rules! by_size {
    ($alloc:ident, $id:ident, $size:ident, $plan:ident, $layout:ident, $memo:ident, $name:ident, $scratch:ident, $disk:ident; $($k:literal)* ; $last:literal) => {
        match $size.k() {
            $($k => plot::<D, $k>($alloc, $id, $plan, $layout, $memo, $name, $scratch, $disk),)*
            _ => plot::<D, $last>($alloc, $id, $plan, $layout, $memo, $name, $scratch, $disk),
        }
    };
}

/// `plot` of this size.
pub fn plot_sized<D: Disk>(
    alloc: Global,
    id: &Id,
    size: Size,
    plan: &Plan,
    layout: Layout,
    memo: &[u8],
    name: &str,
    scratch: &str,
    disk: &mut D,
) -> Result<Counts, PlotFault>
    requires size { size ≤ GREATEST_SIZE }
    requires plan { plan.now ≤ 2 ^ (size + 1) }
    requires memo { length memo.now ≤ memo_of layout }
    requires apart { IsScratchName scratch.now name.now → ⊥ }
    ensures { IsPlotRun layout memo.now id.now.0 size plan.now name.now scratch.now result (D.view disk.old) (D.view disk.new) }
{
    let k = size.k();
    if k <= 17 {
        small(alloc, id, size, plan, layout, memo, name, scratch, disk)
    } else if k <= 25 {
        middling(alloc, id, size, plan, layout, memo, name, scratch, disk)
    } else if k <= 32 {
        large(alloc, id, size, plan, layout, memo, name, scratch, disk)
    } else if k <= 40 {
        larger(alloc, id, size, plan, layout, memo, name, scratch, disk)
    } else if k <= 48 {
        huge(alloc, id, size, plan, layout, memo, name, scratch, disk)
    } else {
        greatest(alloc, id, size, plan, layout, memo, name, scratch, disk)
    }
}

// Sizes 10 to 17.
fn small<D: Disk>(
    alloc: Global,
    id: &Id,
    size: Size,
    plan: &Plan,
    layout: Layout,
    memo: &[u8],
    name: &str,
    scratch: &str,
    disk: &mut D,
) -> Result<Counts, PlotFault>
    requires most { size ≤ 17 }
    requires plan { plan.now ≤ 2 ^ (size + 1) }
    requires memo { length memo.now ≤ memo_of layout }
    requires apart { IsScratchName scratch.now name.now → ⊥ }
    ensures { IsPlotRun layout memo.now id.now.0 size plan.now name.now scratch.now result (D.view disk.old) (D.view disk.new) }
{
    by_size!(alloc, id, size, plan, layout, memo, name, scratch, disk; 10 11 12 13 14 15 16; 17)
}

// Sizes 18 to 25.
fn middling<D: Disk>(
    alloc: Global,
    id: &Id,
    size: Size,
    plan: &Plan,
    layout: Layout,
    memo: &[u8],
    name: &str,
    scratch: &str,
    disk: &mut D,
) -> Result<Counts, PlotFault>
    requires least { 18 ≤ size }
    requires most { size ≤ 25 }
    requires plan { plan.now ≤ 2 ^ (size + 1) }
    requires memo { length memo.now ≤ memo_of layout }
    requires apart { IsScratchName scratch.now name.now → ⊥ }
    ensures { IsPlotRun layout memo.now id.now.0 size plan.now name.now scratch.now result (D.view disk.old) (D.view disk.new) }
{
    by_size!(alloc, id, size, plan, layout, memo, name, scratch, disk; 18 19 20 21 22 23 24; 25)
}

// Sizes 26 to 32.
fn large<D: Disk>(
    alloc: Global,
    id: &Id,
    size: Size,
    plan: &Plan,
    layout: Layout,
    memo: &[u8],
    name: &str,
    scratch: &str,
    disk: &mut D,
) -> Result<Counts, PlotFault>
    requires least { 26 ≤ size }
    requires most { size ≤ 32 }
    requires plan { plan.now ≤ 2 ^ (size + 1) }
    requires memo { length memo.now ≤ memo_of layout }
    requires apart { IsScratchName scratch.now name.now → ⊥ }
    ensures { IsPlotRun layout memo.now id.now.0 size plan.now name.now scratch.now result (D.view disk.old) (D.view disk.new) }
{
    by_size!(alloc, id, size, plan, layout, memo, name, scratch, disk; 26 27 28 29 30 31; 32)
}

// Sizes 33 to 40.
fn larger<D: Disk>(
    alloc: Global,
    id: &Id,
    size: Size,
    plan: &Plan,
    layout: Layout,
    memo: &[u8],
    name: &str,
    scratch: &str,
    disk: &mut D,
) -> Result<Counts, PlotFault>
    requires least { 33 ≤ size }
    requires most { size ≤ 40 }
    requires plan { plan.now ≤ 2 ^ (size + 1) }
    requires memo { length memo.now ≤ memo_of layout }
    requires apart { IsScratchName scratch.now name.now → ⊥ }
    ensures { IsPlotRun layout memo.now id.now.0 size plan.now name.now scratch.now result (D.view disk.old) (D.view disk.new) }
{
    by_size!(alloc, id, size, plan, layout, memo, name, scratch, disk; 33 34 35 36 37 38 39; 40)
}

// Sizes 41 to 48.
fn huge<D: Disk>(
    alloc: Global,
    id: &Id,
    size: Size,
    plan: &Plan,
    layout: Layout,
    memo: &[u8],
    name: &str,
    scratch: &str,
    disk: &mut D,
) -> Result<Counts, PlotFault>
    requires least { 41 ≤ size }
    requires most { size ≤ 48 }
    requires plan { plan.now ≤ 2 ^ (size + 1) }
    requires memo { length memo.now ≤ memo_of layout }
    requires apart { IsScratchName scratch.now name.now → ⊥ }
    ensures { IsPlotRun layout memo.now id.now.0 size plan.now name.now scratch.now result (D.view disk.old) (D.view disk.new) }
{
    by_size!(alloc, id, size, plan, layout, memo, name, scratch, disk; 41 42 43 44 45 46 47; 48)
}

// Sizes 49 and 50.
fn greatest<D: Disk>(
    alloc: Global,
    id: &Id,
    size: Size,
    plan: &Plan,
    layout: Layout,
    memo: &[u8],
    name: &str,
    scratch: &str,
    disk: &mut D,
) -> Result<Counts, PlotFault>
    requires least { 49 ≤ size }
    requires most { size ≤ 50 }
    requires plan { plan.now ≤ 2 ^ (size + 1) }
    requires memo { length memo.now ≤ memo_of layout }
    requires apart { IsScratchName scratch.now name.now → ⊥ }
    ensures { IsPlotRun layout memo.now id.now.0 size plan.now name.now scratch.now result (D.view disk.old) (D.view disk.new) }
{
    by_size!(alloc, id, size, plan, layout, memo, name, scratch, disk; 49; 50)
}
