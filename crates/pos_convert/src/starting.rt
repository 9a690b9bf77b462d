// The start of a conversion: its file is made, with a closed gate.
ghost use Rattle.std.specs.Prelude.{◌≡◌, ◌≤◌, length, IfOk};
ghost use Rattle.pos_convert.specs.Copies.{HasStartedCopy, IsCopyStart};

use crate::ConvertFault;
use pos_edge::Disk;
use pos_layout::{Layout, MOST_MEMO, PlotWriter};
use pos_reader::Plot;
use std::alloc::Global;

/// Makes the file of this name, and begins the plot of another one's id and size in it, in the second layout with a memo: its
/// gate is closed.
///
/// `Exists` where the name is there; nothing is changed then. After another refusal the file may be left, and does not open.
pub(crate) fn start<D: Disk>(
    alloc: Global,
    plot: &Plot,
    memo: &[u8],
    name: &str,
    disk: &mut D,
) -> Result<PlotWriter, ConvertFault>
    requires memo { length memo.now ≤ MOST_MEMO }
    ensures start { IsCopyStart name.now result (D.view disk.old) (D.view disk.new) }
    ensures ok { IfOk result (λ w. HasStartedCopy plot.now memo.now name.now w (D.view disk.old) (D.view disk.new)) }
{
    let file = disk.create(name)?;
    let writer = PlotWriter::begin(
        alloc,
        file,
        Layout::Two,
        memo,
        &plot.id(),
        plot.size(),
        disk,
    )?;
    Ok(writer)
}
