//! The check of a plot.
ghost use Rattle.std.specs.Prelude.{◌≡◌, ◌+◌, ◌-◌, ◌*◌, ◌^◌, ◌<◌, ◌≤◌, ℕ, List, IfOk, IsErrOf, OnOk};
ghost use Rattle.pos_layout.specs.declared.damage.Damage.{Damage};
ghost use Rattle.pos_layout.specs.Fields.{count_of, layout_in};
ghost use Rattle.pos_reader.specs.Plots.{IsOpen, IsPlotFile};
ghost use Rattle.pos_reader.specs.Readings.{IsReading};
ghost use Rattle.pos_harvest.specs.Listings.{IsProofListDamage, StopsListing};
ghost use Rattle.pos_check.specs.Summaries.{IsSummary, StopsCheck};
ghost use Rattle.pos_check.specs.Steps.{TakesChallenge, TakesPlaces};
ghost use Rattle.pos_check.specs.declared.challenges.TheConstants.{MOST_CHALLENGES};

use crate::challenges::{MOST_CHALLENGES, check_challenge};
use crate::place::proved_quality;
use crate::summary::Summary;
use pos_edge::Disk;
use pos_harvest::find;
use pos_reader::{Plot, ReadRefusal};
use pos_tuple::Challenge;
use sha2::{Digest, Sha256};

/// Asks the plot for its first n challenges, at most 1,000,000, and sums up what it shows: each place of their spans a proof.
///
/// Over a disk that tells, Ok is the summary of the file, whatever its bytes are. A damage is what the first challenge shows
/// that has not a proof at each place: one of the search for its span, or that of the first such place. So many reads for Ok
/// as there are proofs times 128, and 100 for each challenge; `DiskFailed` comes exactly where the disk failed. After any
/// answer the plot is as it was. No memory.
pub fn check<D: Disk>(plot: &mut Plot, disk: &mut D, n: u32) -> Result<Summary, ReadRefusal>
    requires is_open { IsOpen plot.old (D.view disk.old) }
    requires few { n ≤ MOST_CHALLENGES }
    ensures reading { IsReading ((100 + 128 * count_of plot.old.header 7) * n) result plot.old plot.new (D.view disk.old) (D.view disk.new) }
    ensures summary { IfOk result (λ s. (b : List ℕ) → IsPlotFile plot.old b (D.view disk.old) → IsSummary (layout_in b) b n s) }
    ensures damage { (d : Damage) → IsErrOf result (ReadRefusal.Damage d)
        → (b : List ℕ) → IsPlotFile plot.old b (D.view disk.old) → StopsCheck (layout_in b) b n d }

    // over every disk
    ensures challenges { IfOk result (λ s. s.challenges ≡ n) }
    ensures reads { IfOk result (λ s. (D.view disk.new).reads ≤ (D.view disk.old).reads + (100 * n + 128 * s.proofs)) }
{
    let id = plot.id();
    let mut hasher = Sha256::new();
    let mut proofs = 0;
    for i in 0..n {
        let challenge = check_challenge(&id, i);
        let count = add_challenge(plot, disk, &challenge, &mut hasher)?;
        proofs += u128::from(count);
    }
    Ok(Summary {
        challenges: n,
        proofs,
        digest: hasher.finalize(),
    })
}

/// Adds the qualities of all places of a challenge to what is hashed, and answers how many they are.
fn add_challenge<D: Disk>(
    plot: &mut Plot,
    disk: &mut D,
    challenge: &Challenge,
    hasher: &mut Sha256,
) -> Result<u64, ReadRefusal>
    requires { IsOpen plot.old (D.view disk.old) }
    ensures reading { IsReading (100 + 128 * count_of plot.old.header 7) result plot.old plot.new (D.view disk.old) (D.view disk.new) }
    ensures reads { IfOk result (λ count. (D.view disk.new).reads ≤ (D.view disk.old).reads + (100 + 128 * count)) }
    ensures small { IfOk result (λ count. count < 2 ^ 64) }
    ensures checked { IfOk result (λ count. (b : List ℕ) → IsPlotFile plot.old b (D.view disk.old)
        → TakesChallenge (layout_in b) b challenge.now.0 count hasher.old hasher.new) }
    ensures damage { (d : Damage) → IsErrOf result (ReadRefusal.Damage d)
        → (b : List ℕ) → IsPlotFile plot.old b (D.view disk.old) → IsProofListDamage (layout_in b) b challenge.now.0 d }
{
    let (first, second) = find(plot, disk, challenge)?;
    add_places(plot, disk, challenge, first, second, hasher)?;
    Ok(second - first)
}

/// Adds the qualities of these places of table 7, in order, to what is hashed.
fn add_places<D: Disk>(
    plot: &mut Plot,
    disk: &mut D,
    challenge: &Challenge,
    first: u64,
    second: u64,
    hasher: &mut Sha256,
) -> Result<(), ReadRefusal>
    requires is_open { IsOpen plot.old (D.view disk.old) }
    requires ordered { first ≤ second }
    requires inside { second ≤ count_of plot.old.header 7 }
    ensures reading { IsReading (128 * (second - first)) result plot.old plot.new (D.view disk.old) (D.view disk.new) }
    ensures added { OnOk result ((b : List ℕ) → IsPlotFile plot.old b (D.view disk.old)
        → TakesPlaces (layout_in b) b challenge.now.0 first second hasher.old hasher.new) }
    ensures damage { (d : Damage) → IsErrOf result (ReadRefusal.Damage d)
        → (b : List ℕ) → IsPlotFile plot.old b (D.view disk.old) → StopsListing (layout_in b) b challenge.now.0 first second d }
{
    for place in first..second {
        let quality = proved_quality(plot, disk, challenge, place)?;
        hasher.update(&quality[..]);
    }
    Ok(())
}
