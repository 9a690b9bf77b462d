// The start of a run: its file is made, with a closed gate.
ghost use Rattle.std.specs.Prelude.{◌≡◌, ◌≤◌, length, IfOk};
ghost use Rattle.pos_layout.specs.Layouts.{memo_of};
ghost use Rattle.pos_plot.specs.Steps.{HasStarted, IsFileStart};

use crate::PlotFault;
use pos_edge::Disk;
use pos_layout::{GREATEST_SIZE, Layout, PlotWriter};
use pos_tuple::{Id, Size};
use std::alloc::Global;

/// Makes the file of this name, and begins the plot of an id in it: its gate is closed.
///
/// The memo is as long as the layout allows. `Exists` where the name is there; nothing is changed then. After another refusal
/// the file may be left, and does not open.
pub fn start<D: Disk>(
    alloc: Global,
    id: &Id,
    size: Size,
    layout: Layout,
    memo: &[u8],
    name: &str,
    disk: &mut D,
) -> Result<PlotWriter, PlotFault>
    requires size { size ≤ GREATEST_SIZE }
    requires memo { length memo.now ≤ memo_of layout }
    ensures start { IsFileStart name.now result (D.view disk.old) (D.view disk.new) }
    ensures ok { IfOk result (λ w. HasStarted layout memo.now id.now.0 size name.now w (D.view disk.old) (D.view disk.new)) }
{
    let file = disk.create(name)?;
    let writer = PlotWriter::begin(alloc, file, layout, memo, id, size, disk)?;
    Ok(writer)
}
