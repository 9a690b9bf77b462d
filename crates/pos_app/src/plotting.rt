// The command that makes a plot file.
ghost use Rattle.std.specs.Prelude.{◌≡◌, ◌≢◌, ◌^◌, ◌+◌, ◌≤◌, Err};
ghost use Rattle.pos_edge.specs.Frame.{ChangesOnly, Nothing};
ghost use Rattle.pos_plot.specs.PlotRuns.{IsRunName};
ghost use Rattle.pos_app.specs.Statuses.{disk_fault_status, sink_fault_status};
ghost use Rattle.pos_app.specs.Answers.{TellsFaults, TellsSinkFaults};
ghost use Rattle.pos_app.specs.PlottingAnswers.{SaysPlotting, SaysPlotEnd, SaysPlotFault};
ghost use Rattle.pos_app.specs.Read.{AreOutputNames};

use crate::command::{Making, Names};
use crate::saying::{
    DISK_FAULT, DONE, NAME, OUT_OF_MEMORY, SCRATCH_DAMAGE, TABLE_FULL, say, say_text,
};
use crate::text::{
    DISK_FAULT_LINE, exists_line, full_line, plotted_line, scratch_exists_line, scratch_line,
};
use pos_edge::{Disk, Sink};
use pos_layout::Layout;
use pos_plot::{Counts, Name, PlotFault, plot_sized};
use pos_runs::Plan;
use pos_tuple::Size;
use std::alloc::Global;

/// Makes a plot file with the standard plan, and says the counts of its tables or why it was not made.
pub fn run_plot<D: Disk, S: Sink>(
    alloc: Global,
    making: &Making<'_>,
    disk: &mut D,
    out: &mut S,
) -> u8
    requires { AreOutputNames making.now.names }
    ensures plotting { SaysPlotting making.now.id.0 making.now.size making.now.names.file.now making.now.names.base.now
        (D.view disk.old) (D.view disk.new) result (S.heard out.old) (S.heard out.new) }
    ensures faults { TellsFaults result (D.view disk.old) (D.view disk.new) }
    ensures sink { TellsSinkFaults result (S.heard out.old) (S.heard out.new) }
{
    let plan = Plan::standard(making.size.k());
    let Names { file, base } = making.names;
    let Making { id, size, .. } = making;
    let answer = plot_sized(alloc, id, *size, &plan, Layout::Two, &[], file, base, disk);
    say_end(alloc, making.size, &making.names, &answer, out)
}

// Says how a plotting run ended.
fn say_end<S: Sink>(
    alloc: Global,
    size: Size,
    names: &Names<'_>,
    answer: &Result<Counts, PlotFault>,
    out: &mut S,
) -> u8
    ensures said { SaysPlotEnd size names.now.file.now names.now.base.now answer.now result (S.heard out.old) (S.heard out.new) }
    ensures disk_fault { result ≡ disk_fault_status → answer.now ≡ Err PlotFault.DiskFailed }
    ensures quiet { result ≢ disk_fault_status → result ≢ sink_fault_status → answer.now ≢ Err PlotFault.DiskFailed }
    ensures sink { TellsSinkFaults result (S.heard out.old) (S.heard out.new) }
{
    match answer {
        Ok(counts) => say_text(plotted_line(alloc, size.k(), &counts.tables), out, DONE),
        Err(fault) => say_fault(alloc, names, fault, out),
    }
}

/// Says why no plot was made.
pub fn say_fault<S: Sink>(alloc: Global, names: &Names<'_>, fault: &PlotFault, out: &mut S) -> u8
    ensures said { SaysPlotFault names.now.file.now names.now.base.now fault.now result (S.heard out.old) (S.heard out.new) }
    ensures disk_fault { result ≡ disk_fault_status → fault.now ≡ PlotFault.DiskFailed }
    ensures quiet { result ≢ disk_fault_status → result ≢ sink_fault_status → fault.now ≢ PlotFault.DiskFailed }
    ensures sink { TellsSinkFaults result (S.heard out.old) (S.heard out.new) }
{
    match fault {
        PlotFault::Exists(Name::Plot) => say_text(exists_line(alloc, names.file), out, NAME),
        PlotFault::Exists(Name::Scratch(number)) => {
            say_text(scratch_exists_line(alloc, names.base, *number), out, NAME)
        }
        PlotFault::TableFull { table } => say_text(full_line(alloc, *table), out, TABLE_FULL),
        PlotFault::DiskFailed => say(out, DISK_FAULT_LINE, DISK_FAULT),
        PlotFault::Scratch(damage) => say_text(scratch_line(alloc, damage), out, SCRATCH_DAMAGE),
        PlotFault::Memory => OUT_OF_MEMORY,
    }
}
