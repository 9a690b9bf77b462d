//! The proofs, or the qualities, of places of table 7 in order, over any source of numbers.
ghost use Rattle.std.specs.Prelude.{◌≡◌, ◌-◌, ◌*◌, ◌^◌, ◌<◌, ◌≤◌, ℕ, List, All, IfOk, IsErrOf, length};
ghost use Rattle.pos_tuple.specs.Proof.{Proof};
ghost use Rattle.pos_layout.specs.declared.damage.Damage.{Damage};
ghost use Rattle.pos_layout.specs.Fields.{count_of, layout_in};
ghost use Rattle.pos_reader.specs.Plots.{IsOpen};
ghost use Rattle.pos_harvest.specs.Listings.{AreProofsOf, AreQualitiesOf, IsSourceListing, StopsListing, StopsQualities};

use crate::branch::quality_of_place;
use crate::numbers::Numbers;
use crate::refusal::ListRefusal;
use crate::tuple::proof_of_place;
use pos_edge::Disk;
use pos_tuple::Challenge;
use std::alloc::Global;

/// The proofs of these places of table 7, in order, or what the first place shows that has none. At most 128 reads for each
/// place; want of memory is free.
pub fn proofs_of_places<N: Numbers, D: Disk>(
    alloc: Global,
    source: &mut N,
    disk: &mut D,
    challenge: &Challenge,
    first: u64,
    second: u64,
) -> Result<Vec<[u64; 64]>, ListRefusal>
    requires is_open { IsOpen (N.source.plot source.old) (D.view disk.old) }
    requires ordered { first ≤ second }
    requires inside { second ≤ count_of (N.source.plot source.old).header 7 }
    ensures listing { IsSourceListing N.source (128 * (second - first)) result source.old source.new (D.view disk.old) (D.view disk.new) }
    ensures listed { IfOk result (λ out. (b : List ℕ) → N.source.Serves source.old b (D.view disk.old)
        → AreProofsOf (layout_in b) b challenge.now.0 first second out.items) }
    ensures damage { (d : Damage) → IsErrOf result (ListRefusal.Damage d)
        → (b : List ℕ) → N.source.Serves source.old b (D.view disk.old) → StopsListing (layout_in b) b challenge.now.0 first second d }

    // over every disk
    ensures as_long { IfOk result (λ out. length out.items ≡ second - first) }
    ensures proofs { IfOk result (λ out. All (λ xs. Proof (N.source.plot source.old).header.id.0 (N.source.plot source.old).header.size challenge.now.0 xs) out.items) }
    ensures small { IfOk result (λ out. All (λ xs. All (λ x. x < 2 ^ (N.source.plot source.old).header.size) xs) out.items) }
{
    let mut proofs = Vec::new(alloc);
    for place in first..second {
        let proof = match proof_of_place(source, disk, challenge, place) {
            Ok(proof) => proof,
            Err(refusal) => return Err(N::listed(refusal)),
        };
        proofs.push(proof)?;
    }
    Ok(proofs)
}

/// The qualities of these places of table 7, in order, or the first damage on the branch of the first place that shows one. At
/// most 14 reads for each place; want of memory is free.
pub fn qualities_of_places<N: Numbers, D: Disk>(
    alloc: Global,
    source: &mut N,
    disk: &mut D,
    challenge: &Challenge,
    first: u64,
    second: u64,
) -> Result<Vec<[u8; 32]>, ListRefusal>
    requires is_open { IsOpen (N.source.plot source.old) (D.view disk.old) }
    requires ordered { first ≤ second }
    requires inside { second ≤ count_of (N.source.plot source.old).header 7 }
    ensures listing { IsSourceListing N.source (14 * (second - first)) result source.old source.new (D.view disk.old) (D.view disk.new) }
    ensures listed { IfOk result (λ out. (b : List ℕ) → N.source.Serves source.old b (D.view disk.old)
        → AreQualitiesOf (layout_in b) b challenge.now.0 first second out.items) }
    ensures damage { (d : Damage) → IsErrOf result (ListRefusal.Damage d)
        → (b : List ℕ) → N.source.Serves source.old b (D.view disk.old) → StopsQualities (layout_in b) b challenge.now.0 first second d }

    // over every disk
    ensures as_long { IfOk result (λ out. length out.items ≡ second - first) }
    ensures len { IfOk result (λ out. All (λ quality. length quality ≡ 32) out.items) }
{
    let mut qualities = Vec::new(alloc);
    for place in first..second {
        let quality = match quality_of_place(source, disk, challenge, place) {
            Ok(quality) => quality,
            Err(refusal) => return Err(N::listed(refusal)),
        };
        qualities.push(quality)?;
    }
    Ok(qualities)
}
