// The lines that the program writes.
ghost use Rattle.std.specs.Prelude.{◌≡◌, ◌++◌, IfOk, OnOk, string_bytes};
ghost use Rattle.pos_edge.specs.ScratchNames.{scratch_name};
ghost use Rattle.pos_app.specs.SurveyAnswers.{survey_text};
ghost use Rattle.pos_app.specs.Texts.{verdict_line, plotted_line, exists_line, full_line, scratch_line, inspect_text, header_part, header_lines, id_line, size_line, table_line, length_line, memo_line, layout_lines, checked_line, absent_line};

use pos_check::Summary;
use pos_edge::ScratchDamage;
use pos_layout::Layout;
use pos_reader::Plot;
use pos_tuple::Id;
use pos_verify::Verdict;
use std::alloc::{AllocError, Global};

/// What is said where the words are no command.
pub const USAGE_LINE: &[u8; 30] = b"usage: pos_main COMMAND WORDS\n";

/// The line of a verdict.
pub fn verdict_line(alloc: Global, verdict: &Verdict) -> Result<String, AllocError>
    ensures { IfOk result (λ line. string_bytes line ≡ verdict_line verdict.now) }
{
    match verdict {
        Verdict::Accepted(quality) => {
            let digits = hex::encode(alloc, &quality[..])?;
            format!(in alloc; "accepted {digits}\n")
        }
        Verdict::WrongLength { want, found } => {
            format!(in alloc; "refused length {want} {found}\n")
        }
        Verdict::NoMatch { level, pair } => format!(in alloc; "refused match {level} {pair}\n"),
        Verdict::WrongChallenge { want, found } => {
            format!(in alloc; "refused challenge {want} {found}\n")
        }
    }
}

/// The line of a plot of size k that was made, with the counts of its tables.
pub fn plotted_line(alloc: Global, k: u32, counts: &[u64; 7]) -> Result<String, AllocError>
    ensures { IfOk result (λ line. string_bytes line ≡ plotted_line k counts.now) }
{
    let [first, second, third, fourth, fifth, sixth, seventh] = *counts;
    let rest = format!(in alloc; "{fourth} {fifth} {sixth} {seventh}\n")?;
    format!(in alloc; "plotted {k} {first} {second} {third} {rest}")
}

/// The line of a name that was to be made and is there.
pub fn exists_line(alloc: Global, name: &str) -> Result<String, AllocError>
    ensures { IfOk result (λ line. string_bytes line ≡ exists_line name.now) }
{
    format!(in alloc; "exists {name}\n")
}

/// The line of a scratch file that was to be made and is there.
pub fn scratch_exists_line(alloc: Global, base: &str, number: u32) -> Result<String, AllocError>
    ensures { IfOk result (λ line. string_bytes line ≡ exists_line (scratch_name base.now number)) }
{
    let name = format!(in alloc; "{base}.{number}")?;
    exists_line(alloc, name.as_str())
}

/// The line of a table that has too many entries.
pub fn full_line(alloc: Global, table: u8) -> Result<String, AllocError>
    ensures { IfOk result (λ line. string_bytes line ≡ full_line table) }
{
    format!(in alloc; "table full {table}\n")
}

/// The line of a record that was read back out of its range.
pub fn scratch_line(alloc: Global, damage: &ScratchDamage) -> Result<String, AllocError>
    ensures { IfOk result (λ line. string_bytes line ≡ scratch_line damage.now) }
{
    let ScratchDamage {
        file,
        at,
        found,
        least,
        limit,
    } = damage;
    let place = format!(in alloc; "{at}:")?;
    let range = format!(in alloc; "{least}..{limit}")?;
    format!(in alloc; "scratch {file} record {place} {found} outside {range}\n")
}

/// The lines of an open plot: its id, its size, the counts of its tables and the length of its file, and in layout 2 the
/// layout and the memo.
pub fn inspect_text(alloc: Global, plot: &Plot) -> Result<String, AllocError>
    ensures { IfOk result (λ text. string_bytes text ≡ inspect_text plot.now.header plot.now.memo) }
{
    let mut text = header_part(alloc, plot)?;
    push_layout(alloc, &mut text, plot.layout(), plot.memo())?;
    Ok(text)
}

// The lines of the header in either layout.
fn header_part(alloc: Global, plot: &Plot) -> Result<String, AllocError>
    ensures { IfOk result (λ text. string_bytes text ≡ header_part plot.now.header) }
{
    let counts = [
        plot.count(1),
        plot.count(2),
        plot.count(3),
        plot.count(4),
        plot.count(5),
        plot.count(6),
        plot.count(7),
    ];
    header_lines(alloc, &plot.id(), plot.size().k(), &counts, plot.length())
}

fn header_lines(
    alloc: Global,
    id: &Id,
    k: u32,
    counts: &[u64; 7],
    length: u64,
) -> Result<String, AllocError>
    ensures { IfOk result (λ text. string_bytes text ≡ header_lines id.now.0 k counts.now length) }
{
    let mut text = id_line(alloc, id)?;
    push_size(alloc, &mut text, k)?;
    for i in 0..7 {
        push_table(alloc, &mut text, i as u8 + 1, counts[i])?;
    }
    push_length(alloc, &mut text, length)?;
    Ok(text)
}

fn id_line(alloc: Global, id: &Id) -> Result<String, AllocError>
    ensures { IfOk result (λ text. string_bytes text ≡ id_line id.now.0) }
{
    let id = hex::encode(alloc, &id.0[..])?;
    format!(in alloc; "id {id}\n")
}

fn push_size(alloc: Global, text: &mut String, k: u32) -> Result<(), AllocError>
    ensures { OnOk result (string_bytes text.new ≡ string_bytes text.old ++ size_line k) }
{
    let line = format!(in alloc; "k {k}\n")?;
    text.push_str(line.as_str())
}

// Appends the line of table t.
fn push_table(alloc: Global, text: &mut String, t: u8, count: u64) -> Result<(), AllocError>
    ensures { OnOk result (string_bytes text.new ≡ string_bytes text.old ++ table_line t count) }
{
    let line = format!(in alloc; "table {t} {count}\n")?;
    text.push_str(line.as_str())
}

fn push_length(alloc: Global, text: &mut String, length: u64) -> Result<(), AllocError>
    ensures { OnOk result (string_bytes text.new ≡ string_bytes text.old ++ length_line length) }
{
    let line = format!(in alloc; "length {length}\n")?;
    text.push_str(line.as_str())
}

// Appends the lines of the layout and the memo.
fn push_layout(
    alloc: Global,
    text: &mut String,
    layout: Layout,
    memo: &[u8],
) -> Result<(), AllocError>
    ensures { OnOk result (string_bytes text.new ≡ string_bytes text.old ++ layout_lines layout memo.now) }
{
    match layout {
        Layout::One => Ok(()),
        Layout::Two => push_second(alloc, text, memo),
    }
}

// Appends those of layout 2.
fn push_second(alloc: Global, text: &mut String, memo: &[u8]) -> Result<(), AllocError>
    ensures { OnOk result (string_bytes text.new ≡ string_bytes text.old ++ layout_lines Layout.Two memo.now) }
{
    let line = memo_line(alloc, memo)?;
    let lines = format!(in alloc; "layout 2\n{line}")?;
    text.push_str(lines.as_str())
}

fn memo_line(alloc: Global, memo: &[u8]) -> Result<String, AllocError>
    ensures { IfOk result (λ line. string_bytes line ≡ memo_line memo.now) }
{
    if memo.is_empty() {
        return format!(in alloc; "memo\n");
    }
    let digits = hex::encode(alloc, memo)?;
    format!(in alloc; "memo {digits}\n")
}

/// What is said where the disk failed.
pub const DISK_FAULT_LINE: &[u8; 11] = b"disk fault\n";

/// The line of a summary.
pub fn checked_line(alloc: Global, summary: &Summary) -> Result<String, AllocError>
    ensures { IfOk result (λ line. string_bytes line ≡ checked_line summary.now.challenges summary.now.proofs summary.now.digest) }
{
    let Summary {
        challenges,
        proofs,
        ..
    } = *summary;
    let digest = hex::encode(alloc, &summary.digest[..])?;
    format!(in alloc; "checked {challenges} proofs {proofs} digest {digest}\n")
}

/// The line of a plot that was made, and that of its summary.
pub fn survey_text(
    alloc: Global,
    k: u32,
    counts: &[u64; 7],
    summary: &Summary,
) -> Result<String, AllocError>
    ensures { IfOk result (λ text. string_bytes text ≡ survey_text k counts.now summary.now) }
{
    let mut text = plotted_line(alloc, k, counts)?;
    let line = checked_line(alloc, summary)?;
    text.push_str(line.as_str())?;
    Ok(text)
}

/// The line of a name that no file has.
pub fn absent_line(alloc: Global, name: &str) -> Result<String, AllocError>
    ensures { IfOk result (λ line. string_bytes line ≡ absent_line name.now) }
{
    format!(in alloc; "absent {name}\n")
}
