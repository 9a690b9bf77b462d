//! The quality of a place of table 7 that shows a proof.
ghost use Rattle.std.specs.Prelude.{◌≡◌, ◌^◌, ◌<◌, ℕ, List, All, IfOk, IsErrOf, Ok};
ghost use Rattle.pos_order.specs.Quality.{pair_quality, quality_index};
ghost use Rattle.pos_laws.specs.Listing.{pair_in};
ghost use Rattle.pos_layout.specs.declared.damage.Damage.{Damage};
ghost use Rattle.pos_layout.specs.Fields.{count_of, layout_in};
ghost use Rattle.pos_reader.specs.Plots.{IsOpen, IsPlotFile};
ghost use Rattle.pos_reader.specs.Readings.{IsReading};
ghost use Rattle.pos_harvest.specs.Places.{FailsAsProof, ShowsProof, quality_in};

use pos_edge::Disk;
use pos_harvest::{is_turned, values_at};
use pos_layout::Damage;
use pos_order::pair_quality;
use pos_reader::{Plot, ReadRefusal};
use pos_tuple::{Challenge, Size};

/// The quality of a place of table 7, if it shows a proof for the challenge; else why it shows none. Both follow from its 64
/// values, so each number is read once. At most 128 reads, and no memory.
pub fn proved_quality<D: Disk>(
    plot: &mut Plot,
    disk: &mut D,
    challenge: &Challenge,
    place: u64,
) -> Result<[u8; 32], ReadRefusal>
    requires is_open { IsOpen plot.old (D.view disk.old) }
    requires place { place < count_of plot.old.header 7 }
    ensures reading { IsReading 128 result plot.old plot.new (D.view disk.old) (D.view disk.new) }
    ensures proof { IfOk result (λ _. (b : List ℕ) → IsPlotFile plot.old b (D.view disk.old)
        → (xs : List ℕ) × ShowsProof (layout_in b) b challenge.now.0 place xs) }
    ensures quality { IfOk result (λ quality. (b : List ℕ) → IsPlotFile plot.old b (D.view disk.old)
        → quality_in (layout_in b) b challenge.now.0 place ≡ Ok quality) }
    ensures damage { (d : Damage) → IsErrOf result (ReadRefusal.Damage d)
        → (b : List ℕ) → IsPlotFile plot.old b (D.view disk.old) → FailsAsProof (layout_in b) b challenge.now.0 place d }
{
    let mut values = values_at(plot, disk, place)?;
    let quality = branch_quality(challenge, plot.size(), &values);
    if is_turned(plot, challenge, &mut values) {
        Ok(quality)
    } else {
        Err(ReadRefusal::Damage(Damage::NotAProof { at: place }))
    }
}

/// The quality of the branch that the challenge chooses: of the pair of these values at its end.
fn branch_quality(challenge: &Challenge, size: Size, values: &[u64; 64]) -> [u8; 32]
    requires { All (λ x. x < 2 ^ size) values.now }
    ensures { result ≡ pair_quality size challenge.now.0 (pair_in (quality_index challenge.now.0) values.now).0 (pair_in (quality_index challenge.now.0) values.now).1 }
{
    let pair = 2 * (challenge.0[31] % 32) as usize;
    pair_quality(challenge, size, values[pair], values[pair + 1])
}
