//! A plot that is made of a number, and checked.
ghost use Rattle.std.specs.Prelude.{◌≡◌, ◌≤◌, ℕ};
ghost use Rattle.pos_edge.specs.ScratchNames.{IsScratchName};
ghost use Rattle.pos_check.specs.Surveys.{IsFileCheck, IsSurvey};
ghost use Rattle.pos_check.specs.declared.challenges.TheConstants.{MOST_CHALLENGES};
ghost use Rattle.pos_check.specs.declared.surveying.SurveyFault.TheVariants.{Open, Plot, Read};

use crate::challenges::{MOST_CHALLENGES, survey_id};
use crate::checking::check;
use crate::summary::Summary;
use pos_edge::Disk;
use pos_layout::Layout;
use pos_plot::{Counts, PlotFault, plot_sized};
use pos_reader::{OpenRefusal, Plot, ReadRefusal};
use pos_runs::Plan;
use pos_tuple::Size;
use std::alloc::Global;

/// Why a survey has no summary.
#[derive(Clone, Copy, Debug, PartialEq, Eq)]
pub enum SurveyFault {
    /// No plot was made.
    Plot(PlotFault),
    /// It was not opened.
    Open(OpenRefusal),
    /// It was not checked to its end.
    Read(ReadRefusal),
}

impl From<PlotFault> for SurveyFault {
    ghost from_gives = { λ fault gives. gives ≡ Plot fault };

    fn from(fault: PlotFault) -> SurveyFault {
        SurveyFault::Plot(fault)
    }
}

impl From<OpenRefusal> for SurveyFault {
    ghost from_gives = { λ refusal gives. gives ≡ Open refusal };

    fn from(refusal: OpenRefusal) -> SurveyFault {
        SurveyFault::Open(refusal)
    }
}

impl From<ReadRefusal> for SurveyFault {
    ghost from_gives = { λ refusal gives. gives ≡ Read refusal };

    fn from(refusal: ReadRefusal) -> SurveyFault {
        SurveyFault::Read(refusal)
    }
}

/// Makes the plot of a number, whose id is `survey_id`, in a file of this name, of the second layout and with no memo, and with scratch files of these names, opens it
/// and checks it by n challenges, at most 1,000,000. Each survey of a number and a size makes the same file and the same summary.
///
/// What it leaves is what a plotting run leaves; the check changes nothing. Over a disk that tells, Ok leaves the file of the
/// plot, whose proofs are those of the summary, and no refusal is of the file that was made.
pub fn survey<D: Disk>(
    alloc: Global,
    size: Size,
    number: u64,
    n: u32,
    name: &str,
    scratch: &str,
    disk: &mut D,
) -> Result<(Counts, Summary), SurveyFault>
    requires apart { IsScratchName scratch.now name.now → ⊥ }
    requires few { n ≤ MOST_CHALLENGES }
    ensures { IsSurvey number size n name.now scratch.now result (D.view disk.old) (D.view disk.new) }
{
    let plan = Plan::standard(size.k());
    let counts = plot_sized(
        alloc,
        &survey_id(number),
        size,
        &plan,
        Layout::Two,
        &[],
        name,
        scratch,
        disk,
    )?;
    let summary = check_file(alloc, name, n, disk)?;
    Ok((counts, summary))
}

/// Opens the plot file of this name, and checks it by n challenges.
fn check_file<D: Disk>(
    alloc: Global,
    name: &str,
    n: u32,
    disk: &mut D,
) -> Result<Summary, SurveyFault>
    requires { n ≤ MOST_CHALLENGES }
    ensures { IsFileCheck name.now n result (D.view disk.old) (D.view disk.new) }
{
    let mut plot = Plot::open(alloc, disk, name)?;
    let summary = check(&mut plot, disk, n)?;
    Ok(summary)
}
