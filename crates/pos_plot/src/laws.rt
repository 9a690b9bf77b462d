//! What follows from the contract of a plotting run: each law is what a function with an empty body ensures.
ghost use Rattle.pos_plot.specs.PlotLaws.{APlotFileIsOne, LeaveEqualBytes};

use pos_edge::Disk;

/// At most one file of a layout and a memo is that of the plot of an id and a size.
pub fn a_plot_file_is_one()
    ensures { APlotFileIsOne }
{}

/// Any two runs for one id, size, layout and memo that went well over disks that tell leave equal bytes, whatever their plans
/// and names.
/// The disks are those before and after each run.
pub fn finished_runs_leave_equal_bytes<D: Disk, E: Disk>(
    before: &D,
    after: &D,
    other_before: &E,
    other_after: &E,
)
    ensures { LeaveEqualBytes (D.view before.now) (D.view after.now) (E.view other_before.now) (E.view other_after.now) }
{
    let _ = before;
    let _ = after;
    let _ = other_before;
    let _ = other_after;
}
