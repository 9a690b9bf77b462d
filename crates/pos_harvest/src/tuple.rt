//! The proof of a place of table 7, over any source of numbers.
ghost use Rattle.std.specs.Prelude.{◌≡◌, ◌+◌, ◌-◌, ◌*◌, ◌^◌, ◌<◌, ◌≤◌, ℕ, List, All, Err, IfErr, IfOk, Ok, OnOk, Some, length, true, false};
ghost use Rattle.pos_tuple.specs.Proof.{Proof};
ghost use Rattle.pos_lists.specs.PlotLists.{place_in};
ghost use Rattle.pos_lists.specs.Walk.{walk};
ghost use Rattle.pos_layout.specs.declared.damage.Damage.{Damage};
ghost use Rattle.pos_layout.specs.Fields.{count_of, layout_in};
ghost use Rattle.pos_layout.specs.Reading.{num};
ghost use Rattle.pos_layout.specs.Rules.{IsLaidOut};
ghost use Rattle.pos_order.specs.Order.{Turning};
ghost use Rattle.pos_reader.specs.Plots.{IsOpen};
ghost use Rattle.pos_harvest.specs.Places.{AnswersProofBy, IsNoProof, tuple_at};
ghost use Rattle.pos_harvest.specs.Searches.{places_of};
ghost use Rattle.pos_harvest.specs.Sources.{AnswersBy, IsSourceRead};

use crate::numbers::Numbers;
use pos_edge::Disk;
use pos_layout::Damage;
use pos_order::entry_in_proof_order;
use pos_points::from_point;
use pos_reader::Plot;
use pos_tuple::{Challenge, Size, challenge_value};

/// The proof of a place of table 7, its values in the order of a proof, over any source of the plot's numbers.
///
/// What is answered is a proof of the plot's id and size for the challenge, whatever the source answers by. Where it answers by
/// bytes, the answer is by the values to which the place unfolds in them, as `proof_at` says. At most 128 reads.
pub fn proof_of_place<N: Numbers, D: Disk>(
    source: &mut N,
    disk: &mut D,
    challenge: &Challenge,
    place: u64,
) -> Result<[u64; 64], N::Refusal>
    requires is_open { IsOpen (N.source.plot source.old) (D.view disk.old) }
    requires place { place < count_of (N.source.plot source.old).header 7 }
    ensures reading { IsSourceRead N.source 128 result source.old source.new (D.view disk.old) (D.view disk.new) }
    ensures answer { (b : List ℕ) → N.source.Serves source.old b (D.view disk.old)
        → AnswersProofBy N.source.found (layout_in b) b challenge.now.0 place result }

    // over every disk
    ensures proof { IfOk result (λ xs. Proof (N.source.plot source.old).header.id.0 (N.source.plot source.old).header.size challenge.now.0 xs) }
    ensures small { IfOk result (λ xs. All (λ x. x < 2 ^ (N.source.plot source.old).header.size) xs) }
    ensures len { IfOk result (λ xs. length xs ≡ 64) }
{
    let mut values = values_of_place(source, disk, place)?;
    if is_turned(source.plot(), challenge, &mut values) {
        Ok(values)
    } else {
        Err(N::damaged(Damage::NotAProof { at: place }))
    }
}

/// Turns 64 values into the order in which they are a proof of the plot's id and size for the challenge, if there is one: true
/// exactly where one of their orders of halves is a proof, and then they are left in it. No memory.
pub fn is_turned(plot: &Plot, challenge: &Challenge, values: &mut [u64; 64]) -> bool
    requires { All (λ x. x < 2 ^ plot.now.header.size) values.old }
    ensures turned { result ≡ true → Turning 6 values.new values.old }
    ensures proof { result ≡ true → Proof plot.now.header.id.0 plot.now.header.size challenge.now.0 values.new }
    ensures none { result ≡ false → IsNoProof plot.now.header.id.0 plot.now.header.size challenge.now.0 values.old }
    ensures small { All (λ x. x < 2 ^ plot.now.header.size) values.new }
    ensures len { length values.new ≡ 64 }
{
    match entry_in_proof_order(&plot.id(), plot.size(), values) {
        Some(root) => root.y / 64 == challenge_value(plot.size(), challenge),
        None => false,
    }
}

/// The 64 values to which a place of table 7 unfolds, over any source of the plot's numbers.
///
/// Where the source answers by bytes, the answer is these values, or the first damage on the way, as `values_at` says. At most
/// 128 reads.
pub fn values_of_place<N: Numbers, D: Disk>(
    source: &mut N,
    disk: &mut D,
    place: u64,
) -> Result<[u64; 64], N::Refusal>
    requires is_open { IsOpen (N.source.plot source.old) (D.view disk.old) }
    requires place { place < count_of (N.source.plot source.old).header 7 }
    ensures reading { IsSourceRead N.source 128 result source.old source.new (D.view disk.old) (D.view disk.new) }
    ensures small { IfOk result (λ xs. All (λ x. x < 2 ^ (N.source.plot source.old).header.size) xs) }
    ensures len { IfOk result (λ xs. length xs ≡ 64) }
    ensures values { (b : List ℕ) → N.source.Serves source.old b (D.view disk.old) → AnswersBy N.source.found result (tuple_at (layout_in b) b place) }
{
    let size = source.plot().size();
    let number = source.number(disk, 7, place)?;
    let mut values = [0; 64];
    unfold(source, disk, 6, place_in(size, number), &mut values)?;
    Ok(values)
}

/// The place of table 6 in a number of table 7.
pub(crate) fn place_in(size: Size, number: u128) -> u64
    ensures { result ≡ place_in size number }
{
    (number % (1 << (size.k() + 1))) as u64
}

/// Writes the 2 ^ table values of a place of a table from 1 to 6; a value is a place of a table 0.
fn unfold<N: Numbers, D: Disk>(
    source: &mut N,
    disk: &mut D,
    table: u8,
    place: u64,
    values: &mut [u64],
) -> Result<(), N::Refusal>
    requires is_open { IsOpen (N.source.plot source.old) (D.view disk.old) }
    requires laid_out { IsLaidOut (N.source.plot source.old).header.layout (N.source.plot source.old).header }
    requires count { length values.old ≡ 2 ^ table }
    requires few { table ≤ 6 }
    requires place { place < places_of (N.source.plot source.old).header table }
    ensures reading { IsSourceRead N.source (2 * (2 ^ table - 1)) result source.old source.new (D.view disk.old) (D.view disk.new) }
    ensures small { OnOk result (All (λ x. x < 2 ^ (N.source.plot source.old).header.size) values.new) }
    ensures walked { OnOk result ((b : List ℕ) → N.source.Serves source.old b (D.view disk.old)
        → walk (num (layout_in b) b) table place ≡ Ok values.new) }
    ensures damage { IfErr result (λ refusal. (d : Damage) → N.source.found refusal ≡ Some d
        → (b : List ℕ) → N.source.Serves source.old b (D.view disk.old) → walk (num (layout_in b) b) table place ≡ Err d) }
{
    if table == 0 {
        values[0] = place;
        return Ok(());
    }
    let number = source.number(disk, table, place)?;
    let (greater, lesser) = from_point(number);
    let (left, right) = values.split_at_mut(values.len() / 2);
    unfold(source, disk, table - 1, lesser, left)?;
    unfold(source, disk, table - 1, greater, right)
}
