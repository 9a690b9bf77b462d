//! The quality of a place of table 7, by one branch of its tree, over any source of numbers.
ghost use Rattle.std.specs.Prelude.{◌≡◌, ◌-◌, ◌*◌, ◌^◌, ◌<◌, ◌≤◌, ℕ, List, IfOk, length};
ghost use Rattle.pos_lists.specs.Walk.{limb};
ghost use Rattle.pos_layout.specs.Fields.{count_of, layout_in};
ghost use Rattle.pos_layout.specs.Reading.{num};
ghost use Rattle.pos_layout.specs.Rules.{IsLaidOut};
ghost use Rattle.pos_reader.specs.Plots.{IsOpen};
ghost use Rattle.pos_harvest.specs.Places.{quality_in};
ghost use Rattle.pos_harvest.specs.Sources.{AnswersBy, IsSourceRead};

use crate::numbers::Numbers;
use crate::tuple::place_in;
use pos_edge::Disk;
use pos_order::pair_quality;
use pos_points::from_point;
use pos_tuple::Challenge;

/// The quality of a place of table 7, by one branch alone, over any source of the plot's numbers.
///
/// Where the source answers by bytes, the answer is the quality of this branch, or the first damage on it, as `quality_at` says.
/// At most 14 reads.
pub fn quality_of_place<N: Numbers, D: Disk>(
    source: &mut N,
    disk: &mut D,
    challenge: &Challenge,
    place: u64,
) -> Result<[u8; 32], N::Refusal>
    requires is_open { IsOpen (N.source.plot source.old) (D.view disk.old) }
    requires place { place < count_of (N.source.plot source.old).header 7 }
    ensures reading { IsSourceRead N.source 14 result source.old source.new (D.view disk.old) (D.view disk.new) }
    ensures quality { (b : List ℕ) → N.source.Serves source.old b (D.view disk.old)
        → AnswersBy N.source.found result (quality_in (layout_in b) b challenge.now.0 place) }
    ensures len { IfOk result (λ quality. length quality ≡ 32) }
{
    let size = source.plot().size();
    let number = source.number(disk, 7, place)?;
    let from = place_in(size, number);
    let (lesser, greater) = follow(source, disk, 6, challenge.0[31] % 32, from)?;
    Ok(pair_quality(challenge, size, lesser, greater))
}

/// The two values at the end of a branch of a place of a table from 1 to 6, as the bits of q choose.
fn follow<N: Numbers, D: Disk>(
    source: &mut N,
    disk: &mut D,
    table: u8,
    q: u8,
    place: u64,
) -> Result<(u64, u64), N::Refusal>
    requires is_open { IsOpen (N.source.plot source.old) (D.view disk.old) }
    requires laid_out { IsLaidOut (N.source.plot source.old).header.layout (N.source.plot source.old).header }
    requires first { 1 ≤ table }
    requires last { table ≤ 6 }
    requires place { place < count_of (N.source.plot source.old).header table }
    ensures reading { IsSourceRead N.source (2 * table) result source.old source.new (D.view disk.old) (D.view disk.new) }
    ensures small { IfOk result (λ pair. (pair.0 < 2 ^ (N.source.plot source.old).header.size) × (pair.1 < 2 ^ (N.source.plot source.old).header.size)) }
    ensures answer { (b : List ℕ) → N.source.Serves source.old b (D.view disk.old)
        → AnswersBy N.source.found result (limb (num (layout_in b) b) (table - 1) q place) }
{
    let number = source.number(disk, table, place)?;
    let (greater, lesser) = from_point(number);
    if table == 1 {
        return Ok((lesser, greater));
    }
    let half = 1 << (table - 2);
    if q < half {
        follow(source, disk, table - 1, q, lesser)
    } else {
        follow(source, disk, table - 1, q - half, greater)
    }
}
