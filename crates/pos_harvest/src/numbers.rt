//! Where the numbers of an open plot come from.
ghost use Rattle.std.specs.Prelude.{◌≡◌, ◌↔◌, ◌-◌, ◌+◌, ◌*◌, ◌^◌, ◌<◌, ◌≤◌, ℕ, List, Some, true, IfOk};
ghost use Rattle.pos_layout.specs.declared.damage.Damage.{Damage};
ghost use Rattle.pos_layout.specs.Fields.{count_of, layout_in};
ghost use Rattle.pos_layout.specs.Lists.{points_inside};
ghost use Rattle.pos_layout.specs.Reading.{num};
ghost use Rattle.pos_reader.specs.Plots.{IsOpen};
ghost use Rattle.pos_harvest.specs.Sources.{AnswersBy, IsSourceRead, Source, opened_source};

use crate::refusal::ListRefusal;
use pos_edge::Disk;
use pos_layout::Damage;
use pos_reader::{Plot, ReadRefusal};

/// Where the numbers of an open plot come from: the plot's file, or something above it that keeps some of them. The walks of
/// this crate are over any source, so that what they answer does not depend on what is kept.
pub trait Numbers {
    /// Why a number is not answered.
    type Refusal;

    /// The plot, the bytes by which the source answers, and what its refusals mean.
    ghost source: { Source Self Self.Refusal };

    /// The open plot.
    fn plot(&self) -> &Plot
        ensures { result.now ≡ source.plot self.now };

    /// Number i of table t, counted from 0, or the first damage on the way to it, as an open plot answers it. At most two reads.
    fn number<D: Disk>(&mut self, disk: &mut D, t: u8, i: u64) -> Result<u128, Self::Refusal>
        requires is_open { IsOpen (source.plot self.old) (D.view disk.old) }
        requires first { 1 ≤ t }
        requires last { t ≤ 7 }
        requires place { i < count_of (source.plot self.old).header t }
        ensures reading { IsSourceRead source 2 result self.old self.new (D.view disk.old) (D.view disk.new) }
        ensures number { (b : List ℕ) → source.Serves self.old b (D.view disk.old) → AnswersBy source.found result (num (layout_in b) b t i) }

        // over every disk
        ensures below { IfOk result (λ n. n < 2 ^ (2 * (source.plot self.old).header.size + 2)) }
        ensures in_range { IfOk result (λ n.
            points_inside (source.plot self.old).header.size t (count_of (source.plot self.old).header (t - 1)) n ≡ true) };

    /// The refusal that names this damage.
    fn damaged(damage: Damage) -> Self::Refusal
        ensures named { source.found result ≡ Some damage }
        ensures other { result ≡ source.failed → ⊥ };

    /// The same refusal, in place of a list.
    fn listed(refusal: Self::Refusal) -> ListRefusal
        ensures failed { (result ≡ ListRefusal.DiskFailed) ↔ (refusal ≡ source.failed) }
        ensures named { (d : Damage) → (result ≡ ListRefusal.Damage d) ↔ (source.found refusal ≡ Some d) };
}

impl Numbers for Plot {
    type Refusal = ReadRefusal;

    ghost source = { opened_source };

    fn plot(&self) -> &Plot {
        self
    }

    fn number<D: Disk>(&mut self, disk: &mut D, t: u8, i: u64) -> Result<u128, ReadRefusal> {
        Plot::number(self, disk, t, i)
    }

    fn damaged(damage: Damage) -> ReadRefusal {
        ReadRefusal::Damage(damage)
    }

    fn listed(refusal: ReadRefusal) -> ListRefusal {
        ListRefusal::from(refusal)
    }
}
