//! One plot asked for a challenge.
ghost use Rattle.std.specs.Prelude.{◌≡◌, ◌+◌, ◌-◌, ◌*◌, ◌^◌, ◌<◌, ◌≤◌, ℕ, List, All, IfOk, IsErrOf, length};
ghost use Rattle.pos_edge.specs.Frame.{ChangesOnly, Nothing};
ghost use Rattle.pos_layout.specs.declared.damage.Damage.{Damage};
ghost use Rattle.pos_layout.specs.Fields.{count_of, layout_in};
ghost use Rattle.pos_reader.specs.Plots.{IsOpen, IsPlotFile};
ghost use Rattle.pos_reader.specs.Readings.{IsReading};
ghost use Rattle.pos_harvest.specs.Listings.{IsProofListDamage, StopsListing};
ghost use Rattle.pos_harvest.specs.Places.{FailsAsProof, ShowsProof};
ghost use Rattle.pos_order.specs.Quality.{quality_of};
ghost use Rattle.pos_farm.specs.Offers.{AreOffered, HasOffers, offer_of};
ghost use Rattle.pos_farm.specs.PlotAnswers.{CountsAnswer, CountsFailure, IsPlotAnswer, IsTrueOffer, OffersTruly};
ghost use Rattle.pos_farm.specs.Steps.{IsOpenAnswer, IsOfferAt, OffersTrulyAt};

use crate::offer::{Answer, Offer, better};
use pos_edge::{Disk, Memory};
use pos_harvest::{find, proof_at};
use pos_order::quality;
use pos_reader::{OpenRefusal, Plot, ReadRefusal};
use pos_tuple::Challenge;
use std::alloc::Global;

/// Asks the plot file of this name for its proofs of a challenge: how many there are, and the best of them.
///
/// Over a disk that tells, `Absent` comes where no file has the name; of a file that is no plot the answer is the first damage
/// that opening finds; of one that opens it is what there is in place of the list of its proofs, where there is such a damage,
/// and else their number and the first of them. `DiskFailed` comes exactly where the disk failed. Over every disk what is
/// offered is a proof for the challenge, with its quality. No file changes. Memory is taken to
/// open the plot, and none for a place; at a want of it, nothing is said of the plot.
pub fn ask<D: Disk>(
    alloc: Global,
    name: &str,
    challenge: &Challenge,
    disk: &mut D,
) -> Result<Answer, Memory>
    ensures kept { ChangesOnly Nothing Nothing (D.view disk.old) (D.view disk.new) }
    ensures answer { IfOk result (λ answer. IsPlotAnswer name.now challenge.now.0 (D.view disk.old) answer) }
    ensures truly { IfOk result (λ answer. OffersTruly challenge.now.0 answer) }
    ensures faults { CountsAnswer result (D.view disk.old) (D.view disk.new) }
{
    match Plot::open(alloc, disk, name) {
        Ok(mut plot) => Ok(ask_plot(&mut plot, challenge, disk)),
        Err(OpenRefusal::Absent) => Ok(Answer::Absent),
        Err(OpenRefusal::DiskFailed) => Ok(Answer::DiskFailed),
        Err(OpenRefusal::Damage(damage)) => Ok(Answer::Damaged(damage)),
        Err(OpenRefusal::Memory) => Err(Memory),
    }
}

/// Asks an open plot. It is never absent.
fn ask_plot<D: Disk>(plot: &mut Plot, challenge: &Challenge, disk: &mut D) -> Answer
    requires { IsOpen plot.old (D.view disk.old) }
    ensures kept { ChangesOnly Nothing Nothing (D.view disk.old) (D.view disk.new) }
    ensures answer { IsOpenAnswer plot.old challenge.now.0 (D.view disk.old) result }
    ensures truly { OffersTruly challenge.now.0 result }
    ensures faults { CountsFailure result (D.view disk.old) (D.view disk.new) }
{
    match find_offers(plot, disk, challenge) {
        Ok((number, best)) => Answer::Proofs { number, best },
        Err(ReadRefusal::DiskFailed) => Answer::DiskFailed,
        Err(ReadRefusal::Damage(damage)) => Answer::Damaged(damage),
    }
}

/// How many offers an open plot has, and the first of them.
fn find_offers<D: Disk>(
    plot: &mut Plot,
    disk: &mut D,
    challenge: &Challenge,
) -> Result<(u64, Option<Offer>), ReadRefusal>
    requires { IsOpen plot.old (D.view disk.old) }
    ensures reading { IsReading (100 + 128 * count_of plot.old.header 7) result plot.old plot.new (D.view disk.old) (D.view disk.new) }
    ensures offers { IfOk result (λ found. (b : List ℕ) → IsPlotFile plot.old b (D.view disk.old)
        → HasOffers b challenge.now.0 found.0 found.1) }
    ensures truly { IfOk result (λ found. OffersTrulyAt challenge.now.0 found.1) }
    ensures damage { (d : Damage) → IsErrOf result (ReadRefusal.Damage d)
        → (b : List ℕ) → IsPlotFile plot.old b (D.view disk.old) → IsProofListDamage (layout_in b) b challenge.now.0 d }
{
    let (first, second) = find(plot, disk, challenge)?;
    let best = best_of_places(plot, disk, challenge, first, second)?;
    Ok((second - first, best))
}

/// The first offer of these places of table 7.
fn best_of_places<D: Disk>(
    plot: &mut Plot,
    disk: &mut D,
    challenge: &Challenge,
    first: u64,
    second: u64,
) -> Result<Option<Offer>, ReadRefusal>
    requires is_open { IsOpen plot.old (D.view disk.old) }
    requires ordered { first ≤ second }
    requires inside { second ≤ count_of plot.old.header 7 }
    ensures reading { IsReading (128 * (second - first)) result plot.old plot.new (D.view disk.old) (D.view disk.new) }
    ensures offered { IfOk result (λ best. (b : List ℕ) → IsPlotFile plot.old b (D.view disk.old)
        → AreOffered (layout_in b) b challenge.now.0 first second (second - first) best) }
    ensures truly { IfOk result (λ best. OffersTrulyAt challenge.now.0 best) }
    ensures damage { (d : Damage) → IsErrOf result (ReadRefusal.Damage d)
        → (b : List ℕ) → IsPlotFile plot.old b (D.view disk.old) → StopsListing (layout_in b) b challenge.now.0 first second d }
{
    let mut best = None;
    for place in first..second {
        let offer = offer_at(plot, disk, challenge, place)?;
        best = Some(better(best, offer));
    }
    Ok(best)
}

/// The offer of a place of table 7, if it shows a proof for the challenge; else why it shows none. The place is unfolded once,
/// and the quality is that of the proof.
fn offer_at<D: Disk>(
    plot: &mut Plot,
    disk: &mut D,
    challenge: &Challenge,
    place: u64,
) -> Result<Offer, ReadRefusal>
    requires is_open { IsOpen plot.old (D.view disk.old) }
    requires place { place < count_of plot.old.header 7 }
    ensures reading { IsReading 128 result plot.old plot.new (D.view disk.old) (D.view disk.new) }
    ensures offer { IfOk result (λ offer. (b : List ℕ) → IsPlotFile plot.old b (D.view disk.old)
        → IsOfferAt b challenge.now.0 place offer) }
    ensures truly { IfOk result (λ offer. IsTrueOffer challenge.now.0 offer) }
    ensures damage { (d : Damage) → IsErrOf result (ReadRefusal.Damage d)
        → (b : List ℕ) → IsPlotFile plot.old b (D.view disk.old) → FailsAsProof (layout_in b) b challenge.now.0 place d }
{
    let proof = proof_at(plot, disk, challenge, place)?;
    let size = plot.size();
    Ok(Offer {
        place,
        quality: quality(challenge, size, &proof),
        size,
        proof,
    })
}
