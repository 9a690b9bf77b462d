//! The audit of a plot file.
ghost use Rattle.std.specs.Prelude.{◌≡◌, ◌++◌, ℕ, List};
ghost use Rattle.pos_edge.specs.Frame.{NameOf};
ghost use Rattle.pos_layout.specs.Rules.{IsLaidOut};
ghost use Rattle.pos_plot.specs.PlotRuns.{IsRunName};
ghost use Rattle.pos_reader.specs.Plots.{IsOpen};
ghost use Rattle.pos_audit.specs.Audits.{IsAudit, IsPlotAudit, second_name};

use crate::comparing::{PAGE, compare_with};
use crate::{AuditFault, Audited};
use pos_edge::Disk;
use pos_plot::plot_sized;
use pos_reader::Plot;
use pos_runs::Plan;
use std::alloc::Global;

/// Opens the file of this name, makes the plot of its id and size again, in its layout and with its memo, under the name that
/// is `scratch` and `-audit`, compares the two files byte by byte, and removes the second one.
///
/// The name does not begin with `scratch`. Over a disk that tells, `Same` is answered exactly where the file is the whole
/// plot of its id and size, and `Differs` exactly where it is not, but for a refusal. `Absent` comes where the name is not
/// there, `Damage` with the first damage that opening finds, `Exists` where that name was there, of scratch files the first;
/// `TableFull` names the first table of the plot with more entries than a table may have; `DiskFailed` comes where the disk
/// failed; `Lost` and `Scratch` never over a disk that tells.
///
/// No name that was there changes, whatever is answered. After Ok the second file and the scratch files are gone; after a
/// refusal those that were made may be left.
pub fn audit<D: Disk>(
    alloc: Global,
    name: &str,
    scratch: &str,
    disk: &mut D,
) -> Result<Audited, AuditFault>
    requires apart { (rest : List ℕ) → name.now ≡ scratch.now ++ rest → ⊥ }
    ensures { IsAudit name.now scratch.now result (D.view disk.old) (D.view disk.new) }
{
    let plot = Plot::open(alloc, disk, name)?;
    audit_plot(alloc, &plot, scratch, disk)
}

/// Audits the file of an open plot, which is of no name that the run may write.
fn audit_plot<D: Disk>(
    alloc: Global,
    plot: &Plot,
    scratch: &str,
    disk: &mut D,
) -> Result<Audited, AuditFault>
    requires is_open { IsOpen plot.now (D.view disk.old) }
    requires apart { (n : List ℕ) → NameOf plot.now.file (D.view disk.old) n → IsRunName (second_name scratch.now) scratch.now n → ⊥ }
    ensures { IsPlotAudit plot.now scratch.now result (D.view disk.old) (D.view disk.new) }
{
    let Ok(mut page) = vec![in alloc; 0; PAGE] else {
        return Err(AuditFault::Memory);
    };
    let Ok(mut other) = vec![in alloc; 0; PAGE] else {
        return Err(AuditFault::Memory);
    };
    let Ok(second) = format!(in alloc; "{scratch}-audit") else {
        return Err(AuditFault::Memory);
    };
    let size = plot.size();
    let plan = Plan::standard(size.k());
    plot_sized(
        alloc,
        &plot.id(),
        size,
        &plan,
        plot.layout(),
        plot.memo(),
        &second,
        scratch,
        disk,
    )?;
    compare_with(
        plot.file(),
        &second,
        page.as_mut_slice(),
        other.as_mut_slice(),
        disk,
    )
}
