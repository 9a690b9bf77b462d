// Numbers of one table, tested and added to the new file.
ghost use Rattle.std.specs.Prelude.{◌≡◌, ◌+◌, ◌*◌, ◌^◌, ◌<◌, ◌≤◌, length, IfOk, IsErrOf};
ghost use Rattle.pos_layout.specs.Writing.{IsStanding};
ghost use Rattle.pos_layout.specs.declared.damage.Damage.{Damage};
ghost use Rattle.pos_rice.specs.Park.{AreNumbers};
ghost use Rattle.pos_convert.specs.Copies.{HasAdded, IsCopying, IsListStop, NumberAnswer};

use crate::ConvertFault;
use pos_edge::Disk;
use pos_layout::{Damage, GREATEST_SIZE, PlotWriter};
use pos_reader::Plot;

/// Adds numbers of table t, the first of which has this place, to the open table of the new file, and answers the least
/// number that may come after them; or the damage of the first that points outside or is not above the one before it.
///
/// `next` is the least number that the writer may take, and it has as many numbers of the table as come before these.
pub(crate) fn add_numbers<D: Disk>(
    plot: &Plot,
    t: u8,
    first: u64,
    numbers: &[u128],
    next: u128,
    writer: &mut PlotWriter,
    disk: &mut D,
) -> Result<u128, ConvertFault>
    requires from { 1 ≤ t }
    requires to { t ≤ 7 }
    requires small { plot.now.header.size ≤ GREATEST_SIZE }
    requires numbers { AreNumbers plot.now.header.size numbers.now }
    requires fits { first + length numbers.now ≤ 2 ^ (plot.now.header.size + 1) }
    requires stands { IsStanding writer.old (D.view disk.old) }
    requires tables { length writer.old.columns < 7 }
    requires size { writer.old.size ≡ plot.now.header.size }
    requires least { writer.old.least ≡ next }
    requires count { writer.old.count ≡ first }
    ensures copying { IsCopying plot.now plot.now writer.old writer.new result (D.view disk.old) (D.view disk.new) }
    ensures ok { IfOk result (λ least. HasAdded plot.now t numbers.now least writer.old writer.new (D.view disk.old) (D.view disk.new)) }
    ensures damage { (d : Damage) → IsErrOf result (ConvertFault.Damage d) → IsListStop plot.now t first next numbers.now d }
{
    let mut least = next;
    for i in 0..numbers.len() {
        let number = numbers[i];
        match damage_of(plot, t, first + i as u64, least, number) {
            Some(damage) => return Err(ConvertFault::Damage(damage)),
            None => {}
        }
        writer.add(disk, number)?;
        least = number + 1;
    }
    Ok(least)
}

/// The damage that a number at this place of table t shows: it points outside, or is below the least that may stand there.
fn damage_of(plot: &Plot, t: u8, at: u64, least: u128, number: u128) -> Option<Damage>
    requires from { 1 ≤ t }
    requires to { t ≤ 7 }
    ensures { NumberAnswer plot.now t at least number result }
{
    if !plot.points_inside(t, number) {
        return Some(Damage::Pointer { table: t, at });
    }
    if number < least {
        return Some(Damage::Order { table: t, at });
    }
    None
}
