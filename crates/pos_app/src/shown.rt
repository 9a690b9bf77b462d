// What the commands on a plot file find in it.
ghost use Rattle.std.specs.Prelude.{◌≡◌, ◌≤◌, ◌+◌, string_bytes};
ghost use Rattle.pos_reader.specs.Readings.{IsPlotOpened};
ghost use Rattle.pos_app.specs.FileAnswers.{IsOpeningDamage};
ghost use Rattle.pos_app.specs.InspectAnswers.{IsHeaderText};
ghost use Rattle.pos_app.specs.ListAnswers.{IsProofsText, IsQualitiesText, IsProveDamage, IsQualityDamage};
ghost use Rattle.pos_app.specs.CheckAnswers.{IsCheckedText, IsCheckDamage};
ghost use Rattle.pos_app.specs.Refused.{Finds};

use crate::refusal::Refusal;
use crate::text::{checked_line, inspect_text};
use pos_check::check;
use pos_edge::Disk;
use pos_harvest::{list_proofs, list_qualities};
use pos_reader::Plot;
use pos_text::{proofs_text, qualities_text};
use pos_tuple::Challenge;
use std::alloc::Global;

// Opens a plot file, by at most two reads.
fn open_plot<D: Disk>(alloc: Global, file: &str, disk: &mut D) -> Result<Plot, Refusal>
    ensures opened { Finds (λ plot. IsPlotOpened file.now plot (D.view disk.old) (D.view disk.new)) IsOpeningDamage file.now result (D.view disk.old) (D.view disk.new) }
    ensures reads { (D.view disk.new).reads ≤ (D.view disk.old).reads + 2 }
{
    Ok(Plot::open(alloc, disk, file)?)
}

/// The lines of the header of a plot file.
pub fn header_text<D: Disk>(alloc: Global, file: &str, disk: &mut D) -> Result<String, Refusal>
    ensures { Finds (λ text. IsHeaderText file.now (D.view disk.old) (string_bytes text)) IsOpeningDamage file.now result (D.view disk.old) (D.view disk.new) }
{
    let plot = open_plot(alloc, file, disk)?;
    Ok(inspect_text(alloc, &plot)?)
}

/// The lines of the proofs that a plot file holds for a challenge.
pub fn listed_proofs<D: Disk>(
    alloc: Global,
    file: &str,
    challenge: &Challenge,
    disk: &mut D,
) -> Result<String, Refusal>
    ensures { Finds (λ text. IsProofsText file.now challenge.now.0 (D.view disk.old) (D.view disk.new) (string_bytes text)) (IsProveDamage challenge.now.0) file.now result (D.view disk.old) (D.view disk.new) }
{
    let mut plot = open_plot(alloc, file, disk)?;
    let proofs = list_proofs(alloc, &mut plot, disk, challenge)?;
    Ok(proofs_text(alloc, plot.size(), proofs.as_slice())?)
}

/// The lines of their qualities.
pub fn listed_qualities<D: Disk>(
    alloc: Global,
    file: &str,
    challenge: &Challenge,
    disk: &mut D,
) -> Result<String, Refusal>
    ensures { Finds (λ text. IsQualitiesText file.now challenge.now.0 (D.view disk.old) (D.view disk.new) (string_bytes text)) (IsQualityDamage challenge.now.0) file.now result (D.view disk.old) (D.view disk.new) }
{
    let mut plot = open_plot(alloc, file, disk)?;
    let qualities = list_qualities(alloc, &mut plot, disk, challenge)?;
    Ok(qualities_text(alloc, qualities.as_slice())?)
}

/// The line of the summary of a plot file that is tested by so many challenges.
pub fn checked_text<D: Disk>(
    alloc: Global,
    file: &str,
    challenges: u32,
    disk: &mut D,
) -> Result<String, Refusal>
    requires { challenges ≤ 1000000 }
    ensures { Finds (λ text. IsCheckedText file.now challenges (D.view disk.old) (D.view disk.new) (string_bytes text)) (IsCheckDamage challenges) file.now result (D.view disk.old) (D.view disk.new) }
{
    let mut plot = open_plot(alloc, file, disk)?;
    let summary = check(&mut plot, disk, challenges)?;
    Ok(checked_line(alloc, &summary)?)
}
