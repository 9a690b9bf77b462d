// The command that makes the plot of a number, and tests it.
ghost use Rattle.std.specs.Prelude.{◌≡◌, ◌≢◌, ◌≤◌, Err};
ghost use Rattle.pos_check.specs.Surveys.{FailsOnDisk, IsDiskFault};
ghost use Rattle.pos_app.specs.Statuses.{disk_fault_status, sink_fault_status};
ghost use Rattle.pos_app.specs.Answers.{TellsFaults, TellsSinkFaults};
ghost use Rattle.pos_app.specs.SurveyAnswers.{SaysSurvey, SaysSurveyEnd, SaysSurveyFault};
ghost use Rattle.pos_app.specs.Read.{IsSurveyable};

use crate::command::{Names, Surveyed};
use crate::plotting::say_fault;
use crate::program::say_refusal;
use crate::refusal::Refusal;
use crate::saying::{DONE, say_text};
use crate::text::survey_text;
use pos_check::{Summary, SurveyFault, survey};
use pos_edge::{Disk, Sink};
use pos_plot::Counts;
use pos_tuple::Size;
use std::alloc::Global;

/// Makes the plot of a number, tests it, and says the counts of its tables and the summary, or why there is none.
pub fn run_survey<D: Disk, S: Sink>(
    alloc: Global,
    made: &Surveyed<'_>,
    disk: &mut D,
    out: &mut S,
) -> u8
    requires { IsSurveyable made.now }
    ensures survey { SaysSurvey made.now.size made.now.number made.now.challenges made.now.names.file.now made.now.names.base.now
        (D.view disk.old) (D.view disk.new) result (S.heard out.old) (S.heard out.new) }
    ensures faults { TellsFaults result (D.view disk.old) (D.view disk.new) }
    ensures sink { TellsSinkFaults result (S.heard out.old) (S.heard out.new) }
{
    let Names { file, base } = made.names;
    let answer = survey(
        alloc,
        made.size,
        made.number,
        made.challenges,
        file,
        base,
        disk,
    );
    say_end(alloc, made.size, &made.names, &answer, out)
}

// Says how a survey ended.
fn say_end<S: Sink>(
    alloc: Global,
    size: Size,
    names: &Names<'_>,
    answer: &Result<(Counts, Summary), SurveyFault>,
    out: &mut S,
) -> u8
    ensures said { SaysSurveyEnd size names.now.file.now names.now.base.now answer.now result (S.heard out.old) (S.heard out.new) }
    ensures disk_fault { result ≡ disk_fault_status → FailsOnDisk answer.now }
    ensures quiet { result ≢ disk_fault_status → result ≢ sink_fault_status → FailsOnDisk answer.now → ⊥ }
    ensures sink { TellsSinkFaults result (S.heard out.old) (S.heard out.new) }
{
    match answer {
        Ok((counts, summary)) => say_text(
            survey_text(alloc, size.k(), &counts.tables, summary),
            out,
            DONE,
        ),
        Err(fault) => say_survey_fault(alloc, names, fault, out),
    }
}

// Says why there is no summary.
fn say_survey_fault<S: Sink>(
    alloc: Global,
    names: &Names<'_>,
    fault: &SurveyFault,
    out: &mut S,
) -> u8
    ensures said { SaysSurveyFault names.now.file.now names.now.base.now fault.now result (S.heard out.old) (S.heard out.new) }
    ensures disk_fault { result ≡ disk_fault_status → IsDiskFault fault.now }
    ensures quiet { result ≢ disk_fault_status → result ≢ sink_fault_status → IsDiskFault fault.now → ⊥ }
    ensures sink { TellsSinkFaults result (S.heard out.old) (S.heard out.new) }
{
    match fault {
        SurveyFault::Plot(fault) => say_fault(alloc, names, fault, out),
        SurveyFault::Open(refusal) => say_refusal(alloc, names.file, &Refusal::from(*refusal), out),
        SurveyFault::Read(refusal) => say_refusal(alloc, names.file, &Refusal::from(*refusal), out),
    }
}
