// The top call.
ghost use Rattle.std.specs.Prelude.{◌≡◌, ◌≢◌, ◌*◌, ◌≤◌, ◌↔◌, true, ℕ, List, IsSome, length};
ghost use Rattle.std.specs.Bool.{IsFalse};
ghost use Rattle.pos_edge.specs.Faults.{Rose};
ghost use Rattle.pos_edge.specs.Frame.{ChangesOnly, Nothing};
ghost use Rattle.pos_verify.specs.Verdict.{IsAcceptance, IsProofBytes, IsRight};
ghost use Rattle.pos_app.specs.Words.{bytes_word};
ghost use Rattle.pos_app.specs.Command.{Verify, MakePlot, Prove, Quality, Inspect, CheckPlot, Survey, Farm, Asks, AsksFor, AsksList, AsksNoList, AsksOfFile, AsksToVerify, IsNoCommand, MakesNoFile, NeedsNoDisk, asks_list, makes_files, needs_disk};
ghost use Rattle.pos_app.specs.Statuses.{done_status, refused_status, usage_status, disk_fault_status, damage_status, sink_fault_status, memory_status, list_status};
ghost use Rattle.pos_app.specs.Texts.{usage_line};
ghost use Rattle.pos_app.specs.Answers.{Speaks, TellsFaults, TellsSinkFaults};
ghost use Rattle.pos_app.specs.VerifyAnswers.{SaysVerdict, TellsProofs, verdict_status};
ghost use Rattle.pos_app.specs.PlottingAnswers.{SaysPlotting, TellsPlotting, IsPlotStatus, EndsSafely};
ghost use Rattle.pos_app.specs.FileAnswers.{NamesDamage, RefusesUnopened};
ghost use Rattle.pos_app.specs.InspectAnswers.{HoldsOpenFile, SaysInspection, ShowsHeader};
ghost use Rattle.pos_app.specs.ListAnswers.{SaysProofs, SaysQualities, WritesNoFalseProof, ReadsForProofs, ReadsForQualities};
ghost use Rattle.pos_app.specs.PlotAnswers.{HoldsPlotOf, HoldsWholeFile, ShowsProofsOrNone, ShowsQualities, SaysTheProofs, SaysTheQualities};
ghost use Rattle.pos_app.specs.CheckAnswers.{SaysCheck, SaysTheSummary, ShowsSummaryOrNone, ReadsForCheck, NamesCheckDamage};
ghost use Rattle.pos_app.specs.SurveyAnswers.{SaysSurvey, TellsSurvey, IsSurveyStatus};
ghost use Rattle.pos_app.specs.FarmAnswers.{NamesNoFalseProof, SaysFarm, TellsList};
ghost use Rattle.pos_check.specs.Challenges.{survey_id};
ghost use Rattle.pos_app.specs.Obeyed.{SaysAnswer, TellsAnswer};
ghost use Rattle.pos_app.specs.Refused.{SaysRefusal};
ghost use Rattle.pos_app.specs.Read.{IsObeyable, digits_bytes, meant};

use crate::command::{Command, Judged, Question, Test, read_command};
use crate::farming::run_farm;
use crate::plotting::run_plot;
use crate::refusal::Refusal;
use crate::saying::{DAMAGE, DISK_FAULT, DONE, NAME, OUT_OF_MEMORY, REFUSED, USAGE, say, say_text};
use crate::shown::{checked_text, header_text, listed_proofs, listed_qualities};
use crate::surveying::run_survey;
use crate::text::{DISK_FAULT_LINE, USAGE_LINE, absent_line, verdict_line};
use pos_edge::{Disk, Sink};
use pos_text::damage_line;
use pos_verify::{Verdict, verify};
use std::alloc::Global;

// The most bytes that a proof of any size has.
const LONGEST_PROOF: usize = 400;

/// Runs the program on the words behind its name, and answers its status. Every text goes to `out`.
pub fn run<D: Disk, S: Sink>(alloc: Global, words: &[String], disk: &mut D, out: &mut S) -> u8
    // Words that are no command take no memory.
    ensures usage { IsNoCommand words.now
        → Speaks usage_status usage_line result (S.heard out.old) (S.heard out.new) }

    // The usage line's status comes from them alone, that of a refused proof from `verify` alone, and that of a bad line from
    // `farm` alone.
    ensures usage_only { result ≡ usage_status → IsNoCommand words.now }
    ensures refused_only { result ≡ refused_status → AsksToVerify words.now }
    ensures list_only { result ≡ list_status → AsksList words.now }

    // `verify ID K CHALLENGE PROOF`.
    ensures verify { (id challenge proof : List ℕ) (k : ℕ) → Asks words.now (Verify id k challenge proof)
        → SaysVerdict id k challenge proof result (S.heard out.old) (S.heard out.new) }
    ensures proofs { (id challenge proof : List ℕ) (k : ℕ) → Asks words.now (Verify id k challenge proof)
        → TellsProofs id k challenge proof result }

    // `plot ID K FILE SCRATCH`: one run, and what its status tells; what it leaves, whatever ends it.
    ensures plot { (id file base : List ℕ) (k : ℕ) → Asks words.now (MakePlot id k file base)
        → SaysPlotting id k file base (D.view disk.old) (D.view disk.new) result (S.heard out.old) (S.heard out.new) }
    ensures plotting { (id file base : List ℕ) (k : ℕ) → Asks words.now (MakePlot id k file base) → (D.view disk.old).tells ≡ true
        → TellsPlotting id k file base (D.view disk.old) (D.view disk.new) result (S.heard out.old) (S.heard out.new) }
    ensures plot_status { (id file base : List ℕ) (k : ℕ) → Asks words.now (MakePlot id k file base) → IsPlotStatus result }
    ensures crash { (id file base : List ℕ) (k : ℕ) → Asks words.now (MakePlot id k file base)
        → EndsSafely id k file base (D.view disk.old) (D.view disk.new) }

    // `prove FILE CHALLENGE`: over any file, over a whole file, over the plot of an id; and two facts over every disk.
    ensures prove { (file c : List ℕ) → Asks words.now (Prove file c)
        → SaysProofs file c (D.view disk.old) (D.view disk.new) result (S.heard out.old) (S.heard out.new) }
    ensures whole_proofs { (file c : List ℕ) → Asks words.now (Prove file c) → (held : HoldsWholeFile file (D.view disk.old))
        → ShowsProofsOrNone file held.bytes held.lists c (D.view disk.old) (D.view disk.new) result (S.heard out.old) (S.heard out.new) }
    ensures lists { (file c id : List ℕ) (k : ℕ) → Asks words.now (Prove file c) → HoldsPlotOf id k file (D.view disk.old)
        → SaysTheProofs id k c (D.view disk.old) (D.view disk.new) result (S.heard out.old) (S.heard out.new) }
    ensures no_false_proof { (file c : List ℕ) → Asks words.now (Prove file c)
        → WritesNoFalseProof file c (S.heard out.old) (S.heard out.new) }
    ensures proof_reads { (file c : List ℕ) → Asks words.now (Prove file c) → result ≡ done_status
        → ReadsForProofs (D.view disk.old) (D.view disk.new) (S.heard out.old) (S.heard out.new) }

    // `quality FILE CHALLENGE`, likewise.
    ensures quality { (file c : List ℕ) → Asks words.now (Quality file c)
        → SaysQualities file c (D.view disk.old) (D.view disk.new) result (S.heard out.old) (S.heard out.new) }
    ensures whole_qualities { (file c : List ℕ) → Asks words.now (Quality file c) → (held : HoldsWholeFile file (D.view disk.old))
        → ShowsQualities file held.lists c (D.view disk.old) (D.view disk.new) result (S.heard out.old) (S.heard out.new) }
    ensures rates { (file c id : List ℕ) (k : ℕ) → Asks words.now (Quality file c) → HoldsPlotOf id k file (D.view disk.old)
        → SaysTheQualities id k c (D.view disk.old) (D.view disk.new) result (S.heard out.old) (S.heard out.new) }
    ensures quality_reads { (file c : List ℕ) → Asks words.now (Quality file c) → result ≡ done_status
        → ReadsForQualities (D.view disk.old) (D.view disk.new) (S.heard out.old) (S.heard out.new) }

    // `inspect FILE`: over any file, and over one that opens.
    ensures inspect { (file : List ℕ) → Asks words.now (Inspect file)
        → SaysInspection file (D.view disk.old) (D.view disk.new) result (S.heard out.old) (S.heard out.new) }
    ensures inspects { (file : List ℕ) → Asks words.now (Inspect file) → (held : HoldsOpenFile file (D.view disk.old))
        → ShowsHeader held.bytes (D.view disk.old) (D.view disk.new) result (S.heard out.old) (S.heard out.new) }

    // `check FILE N`: over any file, over a whole file, over the plot of an id.
    ensures check { (file : List ℕ) (n : ℕ) → Asks words.now (CheckPlot file n)
        → SaysCheck file n (D.view disk.old) (D.view disk.new) result (S.heard out.old) (S.heard out.new) }
    ensures whole_check { (file : List ℕ) (n : ℕ) → Asks words.now (CheckPlot file n) → (held : HoldsWholeFile file (D.view disk.old))
        → ShowsSummaryOrNone file n (D.view disk.old) held (D.view disk.new) result (S.heard out.old) (S.heard out.new) }
    ensures checks { (file id : List ℕ) (k n : ℕ) → Asks words.now (CheckPlot file n) → HoldsPlotOf id k file (D.view disk.old)
        → SaysTheSummary id k n (D.view disk.old) (D.view disk.new) result (S.heard out.old) (S.heard out.new) }
    ensures check_reads { (file : List ℕ) (n : ℕ) → Asks words.now (CheckPlot file n) → result ≡ done_status
        → ReadsForCheck n (D.view disk.old) (D.view disk.new) (S.heard out.old) (S.heard out.new) }
    ensures check_damages { (file : List ℕ) (n : ℕ) → Asks words.now (CheckPlot file n) → (D.view disk.old).tells ≡ true → result ≡ damage_status
        → NamesCheckDamage file n (D.view disk.old) (S.heard out.old) (S.heard out.new) }

    // `survey K NUMBER N FILE SCRATCH`: one survey, and what its status tells; what it leaves, whatever ends it.
    ensures survey { (file base : List ℕ) (k number n : ℕ) → Asks words.now (Survey k number n file base)
        → SaysSurvey k number n file base (D.view disk.old) (D.view disk.new) result (S.heard out.old) (S.heard out.new) }
    ensures surveying { (file base : List ℕ) (k number n : ℕ) → Asks words.now (Survey k number n file base) → (D.view disk.old).tells ≡ true
        → TellsSurvey k number n file base (D.view disk.old) (D.view disk.new) result (S.heard out.old) (S.heard out.new) }
    ensures survey_status { (file base : List ℕ) (k number n : ℕ) → Asks words.now (Survey k number n file base) → IsSurveyStatus result }
    ensures survey_crash { (file base : List ℕ) (k number n : ℕ) → Asks words.now (Survey k number n file base)
        → EndsSafely (survey_id number) k file base (D.view disk.old) (D.view disk.new) }

    // `farm LIST CHALLENGE`: what each plot of the list answers and the best of their proofs, or why there is no list; what the
    // list decides, over a disk that tells; and that the best proof is none that is false, over every disk.
    ensures farm { (list c : List ℕ) → Asks words.now (Farm list c)
        → SaysFarm list c (D.view disk.old) (D.view disk.new) result (S.heard out.old) (S.heard out.new) }
    ensures farm_list { (list c : List ℕ) → Asks words.now (Farm list c) → (D.view disk.old).tells ≡ true
        → TellsList list c (D.view disk.old) (D.view disk.new) result (S.heard out.old) (S.heard out.new) }
    ensures farm_proof { (list c : List ℕ) → Asks words.now (Farm list c)
        → NamesNoFalseProof list c (S.heard out.old) (S.heard out.new) }

    // Every command on a file, over a disk that tells: a file that is not there or does not open, and what 4 names.
    ensures any_file { (file : List ℕ) → AsksOfFile words.now file → (D.view disk.old).tells ≡ true
        → RefusesUnopened file (D.view disk.old) (D.view disk.new) result (S.heard out.old) (S.heard out.new) }
    ensures damages { (file c : List ℕ) → AsksFor words.now file c → (D.view disk.old).tells ≡ true → result ≡ damage_status
        → NamesDamage file c (D.view disk.old) (S.heard out.old) (S.heard out.new) }

    // Every run; but `farm`, which goes on where the disk fails at a plot, may end well though the disk's faults rose.
    ensures sink_fault { TellsSinkFaults result (S.heard out.old) (S.heard out.new) }
    ensures disk_fault { result ≡ disk_fault_status → Rose (D.view disk.old).faults (D.view disk.new).faults }
    ensures disk_told { AsksNoList words.now → TellsFaults result (D.view disk.old) (D.view disk.new) }
    ensures out_of_memory { result ≡ memory_status → (S.heard out.new).text ≡ (S.heard out.old).text }
    ensures no_disk { NeedsNoDisk words.now → disk.new ≡ disk.old }
    ensures files { MakesNoFile words.now → ChangesOnly Nothing Nothing (D.view disk.old) (D.view disk.new) }
{
    match read_command(words) {
        None => say(out, USAGE_LINE, USAGE),
        Some(command) => obey(alloc, &command, disk, out),
    }
}

// Does what a command says.
fn obey<D: Disk, S: Sink>(alloc: Global, command: &Command<'_>, disk: &mut D, out: &mut S) -> u8
    requires { IsObeyable command.now }
    ensures answer { SaysAnswer (meant command.now) (D.view disk.old) (D.view disk.new) result (S.heard out.old) (S.heard out.new) }
    ensures proofs { TellsAnswer (meant command.now) result }
    ensures disk_fault { result ≡ disk_fault_status → Rose (D.view disk.old).faults (D.view disk.new).faults }
    ensures faults { IsFalse (asks_list (meant command.now)) → TellsFaults result (D.view disk.old) (D.view disk.new) }
    ensures sink { TellsSinkFaults result (S.heard out.old) (S.heard out.new) }
    ensures disk { IsFalse (needs_disk (meant command.now)) → disk.new ≡ disk.old }
    ensures files { IsFalse (makes_files (meant command.now)) → ChangesOnly Nothing Nothing (D.view disk.old) (D.view disk.new) }
{
    match command {
        Command::Verify(judged) => run_verify(alloc, judged, out),
        Command::MakePlot(making) => run_plot(alloc, making, disk, out),
        Command::Prove(question) => run_prove(alloc, question, disk, out),
        Command::Quality(question) => run_quality(alloc, question, disk, out),
        Command::Inspect(file) => run_inspect(alloc, file, disk, out),
        Command::CheckPlot(test) => run_check(alloc, test, disk, out),
        Command::Survey(made) => run_survey(alloc, made, disk, out),
        Command::Farm(question) => run_farm(alloc, question, disk, out),
    }
}

// Judges a proof and says the verdict.
fn run_verify<S: Sink>(alloc: Global, judged: &Judged<'_>, out: &mut S) -> u8
    requires { IsSome (bytes_word judged.now.proof.now) }
    ensures verdict { SaysVerdict judged.now.id.0 judged.now.size judged.now.challenge.0 (digits_bytes judged.now.proof.now) result (S.heard out.old) (S.heard out.new) }
    ensures proofs { TellsProofs judged.now.id.0 judged.now.size judged.now.challenge.0 (digits_bytes judged.now.proof.now) result }
    ensures no_disk_fault { result ≢ disk_fault_status }
    ensures sink { TellsSinkFaults result (S.heard out.old) (S.heard out.new) }
{
    let verdict = judge(judged);
    match verdict_line(alloc, &verdict) {
        Err(_) => OUT_OF_MEMORY,
        Ok(line) => say(out, line.as_bytes(), status_of(&verdict)),
    }
}

// The verdict on the bytes that the digits write. More than any proof has are not decoded, so this takes no memory.
#[tactic(auto, using(crate::proofs::DigitLemmas::length_digits))]
fn judge(judged: &Judged<'_>) -> Verdict
    requires { IsSome (bytes_word judged.now.proof.now) }
    ensures right { IsRight judged.now.id.0 judged.now.size judged.now.challenge.0 (digits_bytes judged.now.proof.now) result }
    ensures accepts { IsAcceptance result ↔ IsProofBytes judged.now.id.0 judged.now.size judged.now.challenge.0 (digits_bytes judged.now.proof.now) }
{
    let count = judged.proof.len() / 2;
    if count > LONGEST_PROOF {
        let want = 8 * u64::from(judged.size.k());
        let found = count as u64;
        return Verdict::WrongLength { want, found };
    }
    let mut buffer = [0; LONGEST_PROOF];
    judge_bytes(judged, &mut buffer[..count])
}

// Decodes the digits into the bytes, for which there is just the room, and judges these.
#[tactic(auto, using(crate::proofs::DigitLemmas::decoded_digits))]
fn judge_bytes(judged: &Judged<'_>, bytes: &mut [u8]) -> Verdict
    requires digits { IsSome (bytes_word judged.now.proof.now) }
    requires room { length judged.now.proof.now ≡ 2 * length bytes.old }
    ensures right { IsRight judged.now.id.0 judged.now.size judged.now.challenge.0 (digits_bytes judged.now.proof.now) result }
    ensures accepts { IsAcceptance result ↔ IsProofBytes judged.now.id.0 judged.now.size judged.now.challenge.0 (digits_bytes judged.now.proof.now) }
{
    if hex::decode_to_slice(judged.proof, bytes).is_err() {
        unreachable!();
    }
    verify(&judged.id, judged.size, &judged.challenge, bytes)
}

// Says the header of a plot file, or why there is none.
fn run_inspect<D: Disk, S: Sink>(alloc: Global, file: &str, disk: &mut D, out: &mut S) -> u8
    ensures inspection { SaysInspection file.now (D.view disk.old) (D.view disk.new) result (S.heard out.old) (S.heard out.new) }
    ensures faults { TellsFaults result (D.view disk.old) (D.view disk.new) }
    ensures sink { TellsSinkFaults result (S.heard out.old) (S.heard out.new) }
    ensures files { ChangesOnly Nothing Nothing (D.view disk.old) (D.view disk.new) }
{
    match header_text(alloc, file, disk) {
        Ok(text) => say(out, text.as_bytes(), DONE),
        Err(refusal) => say_refusal(alloc, file, &refusal, out),
    }
}

// Says the proofs that a plot file holds for a challenge, or why there is no list.
fn run_prove<D: Disk, S: Sink>(
    alloc: Global,
    question: &Question<'_>,
    disk: &mut D,
    out: &mut S,
) -> u8
    ensures proofs { SaysProofs question.now.file.now question.now.challenge.0 (D.view disk.old) (D.view disk.new) result (S.heard out.old) (S.heard out.new) }
    ensures faults { TellsFaults result (D.view disk.old) (D.view disk.new) }
    ensures sink { TellsSinkFaults result (S.heard out.old) (S.heard out.new) }
    ensures files { ChangesOnly Nothing Nothing (D.view disk.old) (D.view disk.new) }
{
    match listed_proofs(alloc, question.file, &question.challenge, disk) {
        Ok(text) => say(out, text.as_bytes(), DONE),
        Err(refusal) => say_refusal(alloc, question.file, &refusal, out),
    }
}

// Says the qualities of these proofs, or why there is no list.
fn run_quality<D: Disk, S: Sink>(
    alloc: Global,
    question: &Question<'_>,
    disk: &mut D,
    out: &mut S,
) -> u8
    ensures qualities { SaysQualities question.now.file.now question.now.challenge.0 (D.view disk.old) (D.view disk.new) result (S.heard out.old) (S.heard out.new) }
    ensures faults { TellsFaults result (D.view disk.old) (D.view disk.new) }
    ensures sink { TellsSinkFaults result (S.heard out.old) (S.heard out.new) }
    ensures files { ChangesOnly Nothing Nothing (D.view disk.old) (D.view disk.new) }
{
    match listed_qualities(alloc, question.file, &question.challenge, disk) {
        Ok(text) => say(out, text.as_bytes(), DONE),
        Err(refusal) => say_refusal(alloc, question.file, &refusal, out),
    }
}

// Says the summary of a plot file that is tested, or why there is none.
fn run_check<D: Disk, S: Sink>(alloc: Global, test: &Test<'_>, disk: &mut D, out: &mut S) -> u8
    requires { test.now.challenges ≤ 1000000 }
    ensures summary { SaysCheck test.now.file.now test.now.challenges (D.view disk.old) (D.view disk.new) result (S.heard out.old) (S.heard out.new) }
    ensures faults { TellsFaults result (D.view disk.old) (D.view disk.new) }
    ensures sink { TellsSinkFaults result (S.heard out.old) (S.heard out.new) }
    ensures files { ChangesOnly Nothing Nothing (D.view disk.old) (D.view disk.new) }
{
    match checked_text(alloc, test.file, test.challenges, disk) {
        Ok(text) => say(out, text.as_bytes(), DONE),
        Err(refusal) => say_refusal(alloc, test.file, &refusal, out),
    }
}

/// Says why a command on a plot file has nothing to show.
pub fn say_refusal<S: Sink>(alloc: Global, file: &str, refusal: &Refusal, out: &mut S) -> u8
    ensures said { SaysRefusal file.now refusal.now result (S.heard out.old) (S.heard out.new) }
    ensures disk_fault { result ≡ disk_fault_status → refusal.now ≡ Refusal.DiskFailed }
    ensures quiet { result ≢ disk_fault_status → result ≢ sink_fault_status → refusal.now ≢ Refusal.DiskFailed }
    ensures sink { TellsSinkFaults result (S.heard out.old) (S.heard out.new) }
{
    match refusal {
        Refusal::Absent => say_text(absent_line(alloc, file), out, NAME),
        Refusal::DiskFailed => say(out, DISK_FAULT_LINE, DISK_FAULT),
        Refusal::Damage(damage) => say_text(damage_line(alloc, damage), out, DAMAGE),
        Refusal::Memory => OUT_OF_MEMORY,
    }
}

// The status of a verdict.
fn status_of(verdict: &Verdict) -> u8
    ensures status { result ≡ verdict_status verdict.now }
    ensures accepted { IsAcceptance verdict.now → result ≡ done_status }
    ensures refused { (IsAcceptance verdict.now → ⊥) → result ≡ refused_status }
{
    if verdict.is_accepted() { DONE } else { REFUSED }
}
