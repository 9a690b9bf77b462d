//! What follows from the contract of an audit: each law is what a function with an empty body ensures.
ghost use Rattle.pos_audit.specs.AuditLaws.{AuditTells, CanAuditIsAudited, RefusesWhatIsNoPlotFile};

use pos_edge::Disk;

/// What any audit says, of disks before and after it: `Same` is answered exactly where the file is the plot of its id.
pub fn an_audit_tells_the_plot<D: Disk>(before: &D, after: &D)
    ensures { AuditTells (D.view before.now) (D.view after.now) }
{
    let _ = before;
    let _ = after;
}

/// An audit of a file that opens, over absent names and with no full table, answers what it found, if no fault of the disk and no
/// want of memory stops it.
pub fn what_can_be_audited_is<D: Disk>(before: &D, after: &D)
    ensures { CanAuditIsAudited (D.view before.now) (D.view after.now) }
{
    let _ = before;
    let _ = after;
}

/// An audit of an absent name, or of a file that does not open, is refused with just that, if no fault of the disk and no want of
/// memory stops it.
pub fn what_is_no_plot_file_is_refused<D: Disk>(before: &D, after: &D)
    ensures { RefusesWhatIsNoPlotFile (D.view before.now) (D.view after.now) }
{
    let _ = before;
    let _ = after;
}
