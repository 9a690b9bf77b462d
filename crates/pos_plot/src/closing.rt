// The close of a run: the scratch files are removed, and then the plot file is finished.
ghost use Rattle.std.specs.Prelude.{◌≡◌, ◌-◌, ◌≤◌, ℕ, List, length, slice_index, IfOk};
ghost use Rattle.pos_edge.specs.Frame.{NameOf};
ghost use Rattle.pos_edge.specs.ScratchNames.{IsLeft, IsScratchName, StandsOn};
ghost use Rattle.pos_layout.specs.Drafts.{count_so_far};
ghost use Rattle.pos_layout.specs.Writing.{IsStanding};
ghost use Rattle.pos_plot.specs.Steps.{HasClosed, IsClose};

use crate::Counts;
use pos_edge::{Disk, Scratch, WorkFault};
use pos_layout::PlotWriter;

/// Removes the scratch files that are left, and finishes the plot file. The gate opens last.
///
/// The seven tables are ended, and the plot file is none of the scratch files. After a refusal the file does not open or is
/// the finished one.
pub fn close<D: Disk>(
    files: &mut Scratch,
    writer: PlotWriter,
    disk: &mut D,
) -> Result<Counts, WorkFault>
    requires stand { StandsOn files.old (D.view disk.old) }
    requires stands { IsStanding writer (D.view disk.old) }
    requires ended { length writer.columns ≡ 7 }
    requires apart { IsLeft files.old writer.file → ⊥ }
    requires other { (n : List ℕ) → NameOf writer.file (D.view disk.old) n → IsScratchName files.old.base n → ⊥ }
    ensures close { IsClose files.old writer result (D.view disk.old) (D.view disk.new) }
    ensures ok { IfOk result (λ counts. HasClosed files.old writer counts (D.view disk.old) (D.view disk.new)) }
{
    let tables = numbers_in(&writer);
    files.clear(disk)?;
    let length = writer.finish(disk)?;
    Ok(Counts { tables, length })
}

// How many numbers each table has.
fn numbers_in(writer: &PlotWriter) -> [u64; 7]
    ensures { (t : ℕ) → 1 ≤ t → t ≤ 7 → slice_index result (t - 1) ≡ count_so_far writer.now t }
{
    [
        writer.count(1),
        writer.count(2),
        writer.count(3),
        writer.count(4),
        writer.count(5),
        writer.count(6),
        writer.count(7),
    ]
}
