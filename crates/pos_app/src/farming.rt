// The command that asks the plots of a list.
ghost use Rattle.std.specs.Prelude.{◌≡◌, ◌≢◌, ◌≤◌, IfOk, length, map, string_bytes};
ghost use Rattle.pos_edge.specs.Faults.{Rose};
ghost use Rattle.pos_edge.specs.Frame.{ChangesOnly, Nothing};
ghost use Rattle.pos_farm.specs.declared.list.TheConstants.{MOST_NAMES};
ghost use Rattle.pos_app.specs.Statuses.{disk_fault_status};
ghost use Rattle.pos_app.specs.Answers.{TellsSinkFaults};
ghost use Rattle.pos_app.specs.FarmAnswers.{IsAnswersText, SaysAnswers, SaysFarm, SaysListFault};

use crate::command::Question;
use crate::farm_lines::{bad_line, farm_text};
use crate::saying::{BAD_LINE, DISK_FAULT, DONE, NAME, OUT_OF_MEMORY, say, say_text};
use crate::text::{DISK_FAULT_LINE, absent_line};
use pos_edge::{Disk, Memory, Sink};
use pos_farm::{ListFault, best, farm, read_list};
use pos_tuple::Challenge;
use std::alloc::Global;

/// Asks the plots of a list for a challenge, and says what each of them answers and the best of their proofs, or why there is no
/// list.
pub fn run_farm<D: Disk, S: Sink>(
    alloc: Global,
    question: &Question<'_>,
    disk: &mut D,
    out: &mut S,
) -> u8
    ensures farm { SaysFarm question.now.file.now question.now.challenge.0 (D.view disk.old) (D.view disk.new) result (S.heard out.old) (S.heard out.new) }
    ensures disk_fault { result ≡ disk_fault_status → Rose (D.view disk.old).faults (D.view disk.new).faults }
    ensures sink { TellsSinkFaults result (S.heard out.old) (S.heard out.new) }
    ensures files { ChangesOnly Nothing Nothing (D.view disk.old) (D.view disk.new) }
{
    match read_list(alloc, question.file, disk) {
        Ok(names) => ask_names(alloc, names.as_slice(), &question.challenge, disk, out),
        Err(fault) => say_list_fault(alloc, question.file, &fault, out),
    }
}

// Asks the plots of these names, and says what each of them answers and the best of their proofs.
fn ask_names<D: Disk, S: Sink>(
    alloc: Global,
    names: &[String],
    challenge: &Challenge,
    disk: &mut D,
    out: &mut S,
) -> u8
    requires { length names.now ≤ MOST_NAMES }
    ensures said { SaysAnswers (map string_bytes names.now) challenge.now.0 (D.view disk.old) (D.view disk.new) result (S.heard out.old) (S.heard out.new) }
    ensures no_disk_fault { result ≢ disk_fault_status }
    ensures sink { TellsSinkFaults result (S.heard out.old) (S.heard out.new) }
    ensures files { ChangesOnly Nothing Nothing (D.view disk.old) (D.view disk.new) }
{
    match answers_text(alloc, names, challenge, disk) {
        Ok(text) => say(out, text.as_bytes(), DONE),
        Err(Memory) => OUT_OF_MEMORY,
    }
}

// The lines of their answers.
fn answers_text<D: Disk>(
    alloc: Global,
    names: &[String],
    challenge: &Challenge,
    disk: &mut D,
) -> Result<String, Memory>
    requires { length names.now ≤ MOST_NAMES }
    ensures text { IfOk result (λ text. IsAnswersText (map string_bytes names.now) challenge.now.0 (D.view disk.old) (D.view disk.new) (string_bytes text)) }
    ensures files { ChangesOnly Nothing Nothing (D.view disk.old) (D.view disk.new) }
{
    let answers = farm(alloc, names, challenge, disk)?;
    let first = best(answers.as_slice());
    match farm_text(alloc, answers.as_slice(), first) {
        Ok(text) => Ok(text),
        Err(_) => Err(Memory),
    }
}

// Says why there is no list.
fn say_list_fault<S: Sink>(alloc: Global, list: &str, fault: &ListFault, out: &mut S) -> u8
    ensures said { SaysListFault list.now fault.now result (S.heard out.old) (S.heard out.new) }
    ensures disk_fault { result ≡ disk_fault_status → fault.now ≡ ListFault.DiskFailed }
    ensures sink { TellsSinkFaults result (S.heard out.old) (S.heard out.new) }
{
    match fault {
        ListFault::Absent => say_text(absent_line(alloc, list), out, NAME),
        ListFault::DiskFailed => say(out, DISK_FAULT_LINE, DISK_FAULT),
        ListFault::Line { line } => say_text(bad_line(alloc, *line), out, BAD_LINE),
        ListFault::Memory => OUT_OF_MEMORY,
    }
}
