//! The conversion of a plot file.
ghost use Rattle.std.specs.Prelude.{◌≤◌, length};
ghost use Rattle.pos_reader.specs.Plots.{IsOpen};
ghost use Rattle.pos_convert.specs.Conversions.{IsConversion};

use crate::ConvertFault;
use crate::copying::copy_tables;
use crate::starting::start;
use pos_edge::Disk;
use pos_layout::MOST_MEMO;
use pos_reader::Plot;
use pos_rice::MOST_NUMBERS;
use std::alloc::Global;

/// Writes the lists of an open plot to a new file of this name, in the second layout with a memo, and answers its length in
/// bytes.
///
/// The memo has at most 256 bytes. Over a disk that tells, Ok leaves the whole file of the lists that the plot's file shows;
/// `Exists` comes where the name is there, and nothing is changed then; `Damage` is the first by table and then by place that
/// a number shows: one that reading it finds, or that it is not above the one before it. `DiskFailed` comes where the disk
/// failed.
///
/// The plot stays open as it is, and no other file changes. Where the name was absent, whatever ends the conversion, the new
/// file does not open or is the converted one; after a refusal it may be left.
pub fn convert<D: Disk>(
    alloc: Global,
    plot: &mut Plot,
    memo: &[u8],
    name: &str,
    disk: &mut D,
) -> Result<u64, ConvertFault>
    requires is_open { IsOpen plot.old (D.view disk.old) }
    requires memo { length memo.now ≤ MOST_MEMO }
    ensures { IsConversion plot.old plot.new memo.now name.now result (D.view disk.old) (D.view disk.new) }
{
    let Ok(mut numbers) = vec![in alloc; 0; MOST_NUMBERS] else {
        return Err(ConvertFault::Memory);
    };
    let mut writer = start(alloc, plot, memo, name, disk)?;
    copy_tables(plot, numbers.as_mut_slice(), &mut writer, disk)?;
    let length = writer.finish(disk)?;
    Ok(length)
}
