//! The proof, the values and the quality of a place of table 7 of an open plot, each number read from the file.
ghost use Rattle.std.specs.Prelude.{◌≡◌, ◌^◌, ◌<◌, ℕ, List, All, IfOk, length};
ghost use Rattle.pos_tuple.specs.Proof.{Proof};
ghost use Rattle.pos_layout.specs.Fields.{count_of, layout_in};
ghost use Rattle.pos_reader.specs.Answers.{Answers};
ghost use Rattle.pos_reader.specs.Plots.{IsOpen, IsPlotFile};
ghost use Rattle.pos_reader.specs.Readings.{IsReading};
ghost use Rattle.pos_harvest.specs.Places.{AnswersProof, quality_in, tuple_at};

use crate::branch::quality_of_place;
use crate::tuple::{proof_of_place, values_of_place};
use pos_edge::Disk;
use pos_reader::{Plot, ReadRefusal};
use pos_tuple::Challenge;

/// The proof of a place of table 7, its values in the order of a proof.
///
/// Over every disk what is answered is a proof of the plot's id and size for the challenge. Over a disk that tells, the
/// answer is by the values to which the place unfolds: their one order that is a proof, `NotAProof` exactly where none is,
/// and the first damage on the way where there is one: of table 7, then of table 6 down, the lesser place before the greater,
/// each with all that lies below it. At most 128 reads, and no memory.
pub fn proof_at<D: Disk>(
    plot: &mut Plot,
    disk: &mut D,
    challenge: &Challenge,
    place: u64,
) -> Result<[u64; 64], ReadRefusal>
    requires is_open { IsOpen plot.old (D.view disk.old) }
    requires place { place < count_of plot.old.header 7 }
    ensures reading { IsReading 128 result plot.old plot.new (D.view disk.old) (D.view disk.new) }
    ensures answer { (b : List ℕ) → IsPlotFile plot.old b (D.view disk.old)
        → AnswersProof (layout_in b) b challenge.now.0 place result }

    // over every disk
    ensures proof { IfOk result (λ xs. Proof plot.old.header.id.0 plot.old.header.size challenge.now.0 xs) }
    ensures small { IfOk result (λ xs. All (λ x. x < 2 ^ plot.old.header.size) xs) }
    ensures len { IfOk result (λ xs. length xs ≡ 64) }
{
    proof_of_place(plot, disk, challenge, place)
}

/// The 64 values to which a place of table 7 unfolds.
///
/// Over a disk that tells, the answer is these values, or the first damage on the way: of table 7, then of table 6 down, the
/// lesser place before the greater, each with all that lies below it. At most 128 reads, and no memory.
pub fn values_at<D: Disk>(
    plot: &mut Plot,
    disk: &mut D,
    place: u64,
) -> Result<[u64; 64], ReadRefusal>
    requires is_open { IsOpen plot.old (D.view disk.old) }
    requires place { place < count_of plot.old.header 7 }
    ensures reading { IsReading 128 result plot.old plot.new (D.view disk.old) (D.view disk.new) }
    ensures small { IfOk result (λ xs. All (λ x. x < 2 ^ plot.old.header.size) xs) }
    ensures len { IfOk result (λ xs. length xs ≡ 64) }
    ensures values { (b : List ℕ) → IsPlotFile plot.old b (D.view disk.old) → Answers result (tuple_at (layout_in b) b place) }
{
    values_of_place(plot, disk, place)
}

/// The quality of the proof of a place of table 7, by one branch alone: the low 5 bits of the challenge's last byte, the
/// highest first, choose at tables 6 to 2 the lesser place by a 0 and the greater by a 1, and the branch ends at the pair of
/// table 1.
///
/// Over a disk that tells, the answer is the quality of this branch, or the first damage on it. At most 14 reads, and no
/// memory.
pub fn quality_at<D: Disk>(
    plot: &mut Plot,
    disk: &mut D,
    challenge: &Challenge,
    place: u64,
) -> Result<[u8; 32], ReadRefusal>
    requires is_open { IsOpen plot.old (D.view disk.old) }
    requires place { place < count_of plot.old.header 7 }
    ensures reading { IsReading 14 result plot.old plot.new (D.view disk.old) (D.view disk.new) }
    ensures quality { (b : List ℕ) → IsPlotFile plot.old b (D.view disk.old)
        → Answers result (quality_in (layout_in b) b challenge.now.0 place) }
    ensures len { IfOk result (λ quality. length quality ≡ 32) }
{
    quality_of_place(plot, disk, challenge, place)
}
