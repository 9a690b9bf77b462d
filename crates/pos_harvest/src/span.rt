//! The places of table 7 that answer a challenge.
ghost use Rattle.std.specs.Prelude.{◌≡◌, ◌+◌, ◌^◌, ◌<◌, ◌≤◌, ℕ, List, IfOk, IsErrOf};
ghost use Rattle.pos_layout.specs.declared.damage.Damage.{Damage};
ghost use Rattle.pos_layout.specs.Fields.{count_of, layout_in};
ghost use Rattle.pos_layout.specs.Layouts.{parks_of};
ghost use Rattle.pos_layout.specs.Rules.{IsLaidOut};
ghost use Rattle.pos_reader.specs.Plots.{IsOpen, IsPlotFile};
ghost use Rattle.pos_reader.specs.Readings.{IsReading};
ghost use Rattle.pos_reader.specs.Spans.{IsLastDamage, Span};
ghost use Rattle.pos_harvest.specs.Searches.{IsBetween, IsStart};

use pos_edge::Disk;
use pos_layout::parks_of;
use pos_reader::{Plot, ReadRefusal};
use pos_tuple::{Challenge, challenge_value};

/// The places of table 7 whose f7 is the first k bits of the challenge: from the first up to, not with, the second.
///
/// Over a disk that tells, Ok is a span by the heads of the parks and one look into a park at each end, whatever the file's
/// bytes are; over the file of a plot there is just one. A damage is one that such a read shows. At most 100 reads, and no
/// memory.
pub fn find<D: Disk>(
    plot: &mut Plot,
    disk: &mut D,
    challenge: &Challenge,
) -> Result<(u64, u64), ReadRefusal>
    requires { IsOpen plot.old (D.view disk.old) }
    ensures reading { IsReading 100 result plot.old plot.new (D.view disk.old) (D.view disk.new) }
    ensures span { IfOk result (λ span. (b : List ℕ) → IsPlotFile plot.old b (D.view disk.old)
        → Span (layout_in b) b challenge.now.0 span.0 span.1) }
    ensures damage { (d : Damage) → IsErrOf result (ReadRefusal.Damage d)
        → (b : List ℕ) → IsPlotFile plot.old b (D.view disk.old) → IsLastDamage (layout_in b) b d }

    // over every disk
    ensures ordered { IfOk result (λ span. span.0 ≤ span.1) }
    ensures inside { IfOk result (λ span. span.1 ≤ count_of plot.old.header 7) }
{
    let f7 = challenge_value(plot.size(), challenge);
    let first = start_of(plot, disk, f7, 0)?;
    let second = start_of(plot, disk, f7 + 1, first.parks)?;
    Ok((first.place, first.place.max(second.place)))
}

/// Where the numbers with an f7 of some value or above begin.
#[derive(Clone, Copy)]
struct Start {
    /// How many parks come first until one begins with such a number.
    parks: u64,
    place: u64,
}

/// Where the numbers with this f7 or one above begin, if the first parks, so many, begin below it.
fn start_of<D: Disk>(plot: &mut Plot, disk: &mut D, f7: u64, low: u64) -> Result<Start, ReadRefusal>
    requires is_open { IsOpen plot.old (D.view disk.old) }
    requires laid_out { IsLaidOut plot.old.header.layout plot.old.header }
    requires f7 { f7 ≤ 2 ^ plot.old.header.size }
    requires inside { low ≤ parks_of plot.old.header.layout (count_of plot.old.header 7) }
    ensures reading { IsReading 43 result plot.old plot.new (D.view disk.old) (D.view disk.new) }
    ensures parks { IfOk result (λ start. (low ≤ start.parks) × (start.parks ≤ parks_of plot.old.header.layout (count_of plot.old.header 7))) }
    ensures place { IfOk result (λ start. start.place ≤ count_of plot.old.header 7) }
    ensures found { IfOk result (λ start. (b : List ℕ) → IsPlotFile plot.old b (D.view disk.old)
        → IsBetween (layout_in b) b f7 low (parks_of plot.old.header.layout (count_of plot.old.header 7)) → IsStart (layout_in b) b f7 start.parks start.place) }
    ensures damage { (d : Damage) → IsErrOf result (ReadRefusal.Damage d)
        → (b : List ℕ) → IsPlotFile plot.old b (D.view disk.old) → IsLastDamage (layout_in b) b d }
{
    let all = parks_of(plot.layout(), plot.count(7));
    let parks = parks_below(plot, disk, f7, low, all)?;
    let place = first_place(plot, disk, f7, parks)?;
    Ok(Start { parks, place })
}

/// How many parks come first until one begins with this f7 or one above; the first `low` begin below it, and the one at
/// `high`, if there is one, does not. A read halves what is open.
fn parks_below<D: Disk>(
    plot: &mut Plot,
    disk: &mut D,
    f7: u64,
    low: u64,
    high: u64,
) -> Result<u64, ReadRefusal>
    requires is_open { IsOpen plot.old (D.view disk.old) }
    requires ordered { low ≤ high }
    requires inside { high ≤ parks_of plot.old.header.layout (count_of plot.old.header 7) }
    ensures reading { (steps : ℕ) → high < low + 2 ^ steps
        → IsReading steps result plot.old plot.new (D.view disk.old) (D.view disk.new) }
    ensures within { IfOk result (λ parks. (low ≤ parks) × (parks ≤ high)) }
    ensures found { IfOk result (λ parks. (b : List ℕ) → IsPlotFile plot.old b (D.view disk.old)
        → IsBetween (layout_in b) b f7 low high → IsBetween (layout_in b) b f7 parks parks) }
    ensures damage { (d : Damage) → IsErrOf result (ReadRefusal.Damage d)
        → (b : List ℕ) → IsPlotFile plot.old b (D.view disk.old) → IsLastDamage (layout_in b) b d }
{
    if low == high {
        return Ok(low);
    }
    let middle = low + (high - low) / 2;
    if plot.head(disk, middle)? < f7 {
        parks_below(plot, disk, f7, middle + 1, high)
    } else {
        parks_below(plot, disk, f7, low, middle)
    }
}

/// The place behind the numbers below an f7 of the last of the first parks.
fn first_place<D: Disk>(
    plot: &mut Plot,
    disk: &mut D,
    f7: u64,
    parks: u64,
) -> Result<u64, ReadRefusal>
    requires is_open { IsOpen plot.old (D.view disk.old) }
    requires laid_out { IsLaidOut plot.old.header.layout plot.old.header }
    requires f7 { f7 ≤ 2 ^ plot.old.header.size }
    requires inside { parks ≤ parks_of plot.old.header.layout (count_of plot.old.header 7) }
    ensures reading { IsReading 2 result plot.old plot.new (D.view disk.old) (D.view disk.new) }
    ensures place { IfOk result (λ place. place ≤ count_of plot.old.header 7) }
    ensures found { IfOk result (λ place. (b : List ℕ) → IsPlotFile plot.old b (D.view disk.old)
        → IsBetween (layout_in b) b f7 parks parks → IsStart (layout_in b) b f7 parks place) }
    ensures damage { (d : Damage) → IsErrOf result (ReadRefusal.Damage d)
        → (b : List ℕ) → IsPlotFile plot.old b (D.view disk.old) → IsLastDamage (layout_in b) b d }
{
    if parks == 0 {
        return Ok(0);
    }
    let park = parks - 1;
    let full = plot.layout().full_park() as u64;
    let below = plot.under(disk, park, f7)?;
    Ok(full * park + u64::from(below))
}
