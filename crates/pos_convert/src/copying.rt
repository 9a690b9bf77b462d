// The seven tables of a plot, copied park by park.
ghost use Rattle.std.specs.Prelude.{◌≡◌, ◌+◌, ◌*◌, ◌<◌, ◌≤◌, ℕ, List, length, IfOk, OnOk, IsErrOf};
ghost use Rattle.std.specs.Prelude.{◌⊎◌};
ghost use Rattle.pos_layout.specs.Fields.{count_of, layout_in};
ghost use Rattle.pos_layout.specs.Layouts.{full_of, parks_of};
ghost use Rattle.pos_layout.specs.Writing.{IsStanding};
ghost use Rattle.pos_layout.specs.declared.damage.Damage.{Damage};
ghost use Rattle.pos_reader.specs.Plots.{IsOpen, IsPlotFile};
ghost use Rattle.pos_convert.specs.Conversions.{IsFileStop, IsTableStop};
ghost use Rattle.pos_convert.specs.Copies.{HasBegun, HasCopiedPark, HasCopiedTable, HasCopiedTables, IsApart, IsCopying, IsParkDamaged, IsParkStop};

use crate::ConvertFault;
use crate::adding::add_numbers;
use pos_edge::Disk;
use pos_layout::{PlotWriter, parks_of};
use pos_reader::Plot;
use pos_rice::MOST_NUMBERS;

/// Copies the seven tables of a plot to a new file that was just begun, and ends each there; or answers the first damage by
/// table and place. `numbers` has room for the greatest park.
pub(crate) fn copy_tables<D: Disk>(
    plot: &mut Plot,
    numbers: &mut [u128],
    writer: &mut PlotWriter,
    disk: &mut D,
) -> Result<(), ConvertFault>
    requires is_open { IsOpen plot.old (D.view disk.old) }
    requires apart { IsApart plot.old writer.old (D.view disk.old) }
    requires room { MOST_NUMBERS ≤ length numbers.old }
    requires begun { HasBegun writer.old (D.view disk.old) }
    requires size { writer.old.size ≡ plot.old.header.size }
    ensures copying { IsCopying plot.old plot.new writer.old writer.new result (D.view disk.old) (D.view disk.new) }
    ensures ok { OnOk result (HasCopiedTables plot.old 7 writer.old writer.new (D.view disk.old) (D.view disk.new)) }
    ensures damage { (d : Damage) → IsErrOf result (ConvertFault.Damage d)
        → (b : List ℕ) → IsPlotFile plot.old b (D.view disk.old) → IsFileStop (layout_in b) b d }
{
    for table in 0..7 {
        copy_table(plot, table + 1, numbers, writer, disk)?;
    }
    Ok(())
}

/// Copies table t to the open table of the new file, which has no numbers yet, and ends it there.
fn copy_table<D: Disk>(
    plot: &mut Plot,
    t: u8,
    numbers: &mut [u128],
    writer: &mut PlotWriter,
    disk: &mut D,
) -> Result<(), ConvertFault>
    requires is_open { IsOpen plot.old (D.view disk.old) }
    requires from { 1 ≤ t }
    requires to { t ≤ 7 }
    requires apart { IsApart plot.old writer.old (D.view disk.old) }
    requires room { MOST_NUMBERS ≤ length numbers.old }
    requires stands { IsStanding writer.old (D.view disk.old) }
    requires tables { length writer.old.columns < 7 }
    requires size { writer.old.size ≡ plot.old.header.size }
    requires least { writer.old.least ≡ 0 }
    requires count { writer.old.count ≡ 0 }
    ensures copying { IsCopying plot.old plot.new writer.old writer.new result (D.view disk.old) (D.view disk.new) }
    ensures room { length numbers.new ≡ length numbers.old }
    ensures ok { OnOk result (HasCopiedTable plot.old t writer.old writer.new (D.view disk.old) (D.view disk.new)) }
    ensures damage { (d : Damage) → IsErrOf result (ConvertFault.Damage d)
        → (b : List ℕ) → IsPlotFile plot.old b (D.view disk.old) → IsTableStop (layout_in b) b t d }
{
    let parks = parks_of(plot.layout(), plot.count(t));
    let mut next = 0;
    for park in 0..parks {
        next = copy_park(plot, t, park, numbers, next, writer, disk)?;
    }
    writer.end_table(disk)?;
    Ok(())
}

/// Copies a park of table t, and answers the least number that may come after its numbers. All parks before it were copied.
fn copy_park<D: Disk>(
    plot: &mut Plot,
    t: u8,
    park: u64,
    numbers: &mut [u128],
    next: u128,
    writer: &mut PlotWriter,
    disk: &mut D,
) -> Result<u128, ConvertFault>
    requires is_open { IsOpen plot.old (D.view disk.old) }
    requires from { 1 ≤ t }
    requires to { t ≤ 7 }
    requires park { park < parks_of plot.old.header.layout (count_of plot.old.header t) }
    requires apart { IsApart plot.old writer.old (D.view disk.old) }
    requires room { MOST_NUMBERS ≤ length numbers.old }
    requires stands { IsStanding writer.old (D.view disk.old) }
    requires tables { length writer.old.columns < 7 }
    requires size { writer.old.size ≡ plot.old.header.size }
    requires least { writer.old.least ≡ next }
    requires count { writer.old.count ≡ full_of plot.old.header.layout * park }
    ensures copying { IsCopying plot.old plot.new writer.old writer.new result (D.view disk.old) (D.view disk.new) }
    ensures room { length numbers.new ≡ length numbers.old }
    ensures ok { IfOk result (λ least. HasCopiedPark plot.old t park least writer.old writer.new (D.view disk.old) (D.view disk.new)) }
    ensures damage { (d : Damage) → IsErrOf result (ConvertFault.Damage d)
        → (b : List ℕ) → IsPlotFile plot.old b (D.view disk.old) → IsParkDamaged t park b d ⊎ IsParkStop plot.old t park next b d }
{
    let count = plot.park(disk, t, park, numbers)?;
    let first = plot.layout().full_park() as u64 * park;
    add_numbers(
        plot,
        t,
        first,
        &numbers[..count as usize],
        next,
        writer,
        disk,
    )
}
