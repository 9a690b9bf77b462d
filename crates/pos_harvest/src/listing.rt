//! The proofs, or the qualities, of all places of table 7 that answer a challenge.
ghost use Rattle.std.specs.Prelude.{◌≡◌, ◌+◌, ◌*◌, ◌^◌, ◌<◌, ◌≤◌, ℕ, List, All, IfOk, IsErrOf, length};
ghost use Rattle.pos_tuple.specs.Proof.{Proof};
ghost use Rattle.pos_layout.specs.declared.damage.Damage.{Damage};
ghost use Rattle.pos_layout.specs.Fields.{count_of, layout_in};
ghost use Rattle.pos_reader.specs.Plots.{IsOpen, IsPlotFile};
ghost use Rattle.pos_harvest.specs.Listings.{IsListing, IsProofListDamage, IsQualityListDamage, ListsProofs, ListsQualities};

use crate::places::{proofs_of_places, qualities_of_places};
use crate::refusal::ListRefusal;
use crate::span::find;
use pos_edge::Disk;
use pos_reader::Plot;
use pos_tuple::Challenge;
use std::alloc::Global;

/// All proofs of a plot for a challenge, by the order of their places in table 7, each with its values in the order of a
/// proof.
///
/// Over every disk what is listed are proofs of the plot's id and size for the challenge. Over a disk that tells, Ok is the
/// list of a span, whatever the file's bytes are, with the proof of each place; over the plot of an id these are all of its
/// proofs, each once, by rising plot order. A damage is one that the search for the span shows, or what the first place of a
/// span shows that has no proof. So many reads for Ok as are listed times 128, and 100; `DiskFailed` comes exactly where the
/// disk failed. After any answer the plot is as it was.
pub fn list_proofs<D: Disk>(
    alloc: Global,
    plot: &mut Plot,
    disk: &mut D,
    challenge: &Challenge,
) -> Result<Vec<[u64; 64]>, ListRefusal>
    requires { IsOpen plot.old (D.view disk.old) }
    ensures listing { IsListing (100 + 128 * count_of plot.old.header 7) result plot.old plot.new (D.view disk.old) (D.view disk.new) }
    ensures reads { IfOk result (λ out. (D.view disk.new).reads ≤ (D.view disk.old).reads + 100 + 128 * length out.items) }
    ensures listed { IfOk result (λ out. (b : List ℕ) → IsPlotFile plot.old b (D.view disk.old)
        → ListsProofs (layout_in b) b challenge.now.0 out.items) }
    ensures damage { (d : Damage) → IsErrOf result (ListRefusal.Damage d)
        → (b : List ℕ) → IsPlotFile plot.old b (D.view disk.old) → IsProofListDamage (layout_in b) b challenge.now.0 d }

    // over every disk
    ensures proofs { IfOk result (λ out. All (λ xs. Proof plot.old.header.id.0 plot.old.header.size challenge.now.0 xs) out.items) }
    ensures small { IfOk result (λ out. All (λ xs. All (λ x. x < 2 ^ plot.old.header.size) xs) out.items) }
{
    let (first, second) = find(plot, disk, challenge)?;
    proofs_of_places(alloc, plot, disk, challenge, first, second)
}

/// The qualities of these proofs in the same order, each by one branch, without making the proofs.
///
/// Over a disk that tells, Ok is the list of a span, whatever the file's bytes are, with the quality of each place's branch;
/// over the plot of an id these are the qualities of all of its proofs. A damage is one that the search for the span shows,
/// or the first on the branch of the first place of a span that shows one. So many reads for Ok as are listed times 14, and
/// 100; `DiskFailed` comes exactly where the disk failed. After any answer the plot is as it was.
pub fn list_qualities<D: Disk>(
    alloc: Global,
    plot: &mut Plot,
    disk: &mut D,
    challenge: &Challenge,
) -> Result<Vec<[u8; 32]>, ListRefusal>
    requires { IsOpen plot.old (D.view disk.old) }
    ensures listing { IsListing (100 + 14 * count_of plot.old.header 7) result plot.old plot.new (D.view disk.old) (D.view disk.new) }
    ensures reads { IfOk result (λ out. (D.view disk.new).reads ≤ (D.view disk.old).reads + 100 + 14 * length out.items) }
    ensures listed { IfOk result (λ out. (b : List ℕ) → IsPlotFile plot.old b (D.view disk.old)
        → ListsQualities (layout_in b) b challenge.now.0 out.items) }
    ensures damage { (d : Damage) → IsErrOf result (ListRefusal.Damage d)
        → (b : List ℕ) → IsPlotFile plot.old b (D.view disk.old) → IsQualityListDamage (layout_in b) b challenge.now.0 d }

    // over every disk
    ensures len { IfOk result (λ out. All (λ quality. length quality ≡ 32) out.items) }
{
    let (first, second) = find(plot, disk, challenge)?;
    qualities_of_places(alloc, plot, disk, challenge, first, second)
}
