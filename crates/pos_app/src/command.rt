// Which words are a command. A command borrows its words, so that reading them takes no memory.
ghost use Rattle.std.specs.Prelude.{◌≡◌, ◌≤◌, ◌^◌, ◌%◌, map, length, slice_index, IfSome, IfNone, IsSome, IsTrue, ◌↔◌, Some, None, string_bytes};
ghost use Rattle.std.specs.List.{AllPass};
ghost use Rattle.std.specs.Option.{option_map};
ghost use Rattle.hex.specs.Hex.{is_hex_digit};
ghost use Rattle.pos_app.specs.Words.{decimal_word, size_word, challenges_word, number_word, hash_word, bytes_word, file_word, begins_as_scratch, output_words};
ghost use Rattle.pos_app.specs.Command.{command_of, verify_command, plot_command, question_words, inspect_command, check_command, survey_command};
ghost use Rattle.pos_app.specs.Read.{Reads, AreOutputNames, IsPlain};

use hex::FromHex;
use pos_check::MOST_CHALLENGES;
use pos_tuple::{Challenge, Id, Size};

/// A command, with what its words write.
#[derive(Clone, Copy)]
pub enum Command<'a> {
    /// Judge a proof.
    Verify(Judged<'a>),
    /// Make the plot file of an id.
    MakePlot(Making<'a>),
    /// List the proofs that a plot file holds for a challenge.
    Prove(Question<'a>),
    /// List the qualities of these proofs.
    Quality(Question<'a>),
    /// Show what the header of the plot file of this name says.
    Inspect(&'a str),
    /// Test a plot file by challenges.
    CheckPlot(Test<'a>),
    /// Make the plot of a number, and test it.
    Survey(Surveyed<'a>),
    /// Ask the plots of a list for a challenge, and find the best of their proofs.
    Farm(Question<'a>),
}

/// A proof, as an even number of hexadecimal digits, with what it is to be a proof for.
#[derive(Clone, Copy)]
pub struct Judged<'a> {
    pub id: Id,
    pub size: Size,
    pub challenge: Challenge,
    pub proof: &'a str,
}

/// The id and the size of a plot that is to be made, and its names.
#[derive(Clone, Copy)]
pub struct Making<'a> {
    pub id: Id,
    pub size: Size,
    pub names: Names<'a>,
}

/// The name of a plot file that is to be made, and what the names of scratch files for it begin with, before a full stop.
#[derive(Clone, Copy)]
pub struct Names<'a> {
    pub file: &'a str,
    pub base: &'a str,
}

/// The name of a plot file, or of a list of plot files, and the challenge that it is asked for.
#[derive(Clone, Copy)]
pub struct Question<'a> {
    pub file: &'a str,
    pub challenge: Challenge,
}

/// The name of a plot file, and by how many challenges it is tested.
#[derive(Clone, Copy)]
pub struct Test<'a> {
    pub file: &'a str,
    pub challenges: u32,
}

/// The size and the number of a plot that is to be made and tested, by how many challenges, and its names.
#[derive(Clone, Copy)]
pub struct Surveyed<'a> {
    pub size: Size,
    pub number: u64,
    pub challenges: u32,
    pub names: Names<'a>,
}

/// Reads the words of a command line, those after the program's name. None where they are no command.
pub fn read_command(words: &[String]) -> Option<Command<'_>>
    ensures { Reads result (command_of (map string_bytes words.now)) }
{
    match words.split_first() {
        Some((name, rest)) if name.as_str() == "verify" => read_verify(rest),
        Some((name, rest)) if name.as_str() == "plot" => read_plot(rest),
        Some((name, rest)) if name.as_str() == "prove" => Some(Command::Prove(read_question(
            rest,
        )?)),
        Some((name, rest)) if name.as_str() == "quality" => {
            Some(Command::Quality(read_question(rest)?))
        }
        Some((name, rest)) if name.as_str() == "inspect" => read_inspect(rest),
        Some((name, rest)) if name.as_str() == "check" => read_check(rest),
        Some((name, rest)) if name.as_str() == "survey" => read_survey(rest),
        Some((name, rest)) if name.as_str() == "farm" => Some(Command::Farm(read_question(rest)?)),
        _ => None,
    }
}

// Reads the words behind `verify`.
fn read_verify(words: &[String]) -> Option<Command<'_>>
    ensures { Reads result (verify_command (map string_bytes words.now)) }
{
    if words.len() != 4 {
        return None;
    }
    let Some(id) = read_hash(words[0].as_str()) else {
        return None;
    };
    let Some(size) = read_size(words[1].as_str()) else {
        return None;
    };
    let Some(challenge) = read_hash(words[2].as_str()) else {
        return None;
    };
    let Some(proof) = read_digits(words[3].as_str()) else {
        return None;
    };
    Some(Command::Verify(Judged {
        id: Id(id),
        size,
        challenge: Challenge(challenge),
        proof,
    }))
}

// Reads the words behind `plot`.
fn read_plot(words: &[String]) -> Option<Command<'_>>
    ensures { Reads result (plot_command (map string_bytes words.now)) }
{
    if words.len() != 4 {
        return None;
    }
    let Some(id) = read_hash(words[0].as_str()) else {
        return None;
    };
    let Some(size) = read_size(words[1].as_str()) else {
        return None;
    };
    let Some(names) = read_names(words[2].as_str(), words[3].as_str()) else {
        return None;
    };
    Some(Command::MakePlot(Making {
        id: Id(id),
        size,
        names,
    }))
}

// Reads the two words that name what a command makes.
fn read_names<'a>(file: &'a str, base: &'a str) -> Option<Names<'a>>
    ensures read { option_map (λ names. (names.file.now, names.base.now)) result ≡ output_words file.now base.now }
    ensures apart { IfSome result (λ names. AreOutputNames names) }
{
    let Some(file) = read_file(file) else {
        return None;
    };
    let Some(base) = read_file(base) else {
        return None;
    };
    if begins_as_scratch(base, file) {
        return None;
    }
    Some(Names { file, base })
}

// Whether the name begins with the base and a full stop.
fn begins_as_scratch(base: &str, name: &str) -> bool
    ensures { result ≡ begins_as_scratch base.now name.now }
{
    match name.as_bytes().strip_prefix(base.as_bytes()) {
        Some(rest) => begins_with_stop(rest),
        None => false,
    }
}

// The first byte is a full stop.
fn begins_with_stop(bytes: &[u8]) -> bool
    ensures { IsTrue result ↔ (slice_index bytes.now 0 ≡ 46) }
{
    matches!(bytes.first(), Some(b'.'))
}

// Reads the words behind `prove`, `quality` and `farm`.
fn read_question(words: &[String]) -> Option<Question<'_>>
    ensures { option_map (λ question. (question.file.now, question.challenge.0)) result ≡ question_words (map string_bytes words.now) }
{
    if words.len() != 2 {
        return None;
    }
    let Some(file) = read_file(words[0].as_str()) else {
        return None;
    };
    let Some(challenge) = read_hash(words[1].as_str()) else {
        return None;
    };
    Some(Question {
        file,
        challenge: Challenge(challenge),
    })
}

// Reads the word behind `inspect`.
fn read_inspect(words: &[String]) -> Option<Command<'_>>
    ensures { Reads result (inspect_command (map string_bytes words.now)) }
{
    if words.len() != 1 {
        return None;
    }
    let Some(file) = read_file(words[0].as_str()) else {
        return None;
    };
    Some(Command::Inspect(file))
}

// Reads the words behind `check`.
fn read_check(rest: &[String]) -> Option<Command<'_>>
    ensures { Reads result (check_command (map string_bytes rest.now)) }
{
    if rest.len() != 2 {
        return None;
    }
    let Some(file) = read_file(rest[0].as_str()) else {
        return None;
    };
    let Some(challenges) = read_challenges(rest[1].as_str()) else {
        return None;
    };
    Some(Command::CheckPlot(Test { file, challenges }))
}

// Reads the words behind `survey`.
fn read_survey(words: &[String]) -> Option<Command<'_>>
    ensures { Reads result (survey_command (map string_bytes words.now)) }
{
    if words.len() != 5 {
        return None;
    }
    let Some(size) = read_size(words[0].as_str()) else {
        return None;
    };
    let Some(number) = read_number(words[1].as_str()) else {
        return None;
    };
    let Some(challenges) = read_challenges(words[2].as_str()) else {
        return None;
    };
    let Some(names) = read_names(words[3].as_str(), words[4].as_str()) else {
        return None;
    };
    Some(Command::Survey(Surveyed {
        size,
        number,
        challenges,
        names,
    }))
}

// The name of a file.
fn read_file(word: &str) -> Option<&str>
    ensures { option_map (λ file. file.now) result ≡ file_word word.now }
{
    match word.as_bytes().first() {
        None | Some(b'-') => None,
        Some(_) => Some(word),
    }
}

// The 32 bytes that 64 hexadecimal digits write.
fn read_hash(word: &str) -> Option<[u8; 32]>
    ensures { result ≡ hash_word word.now }
{
    <[u8; 32] as FromHex>::from_hex(word).ok()
}

// An even number of hexadecimal digits.
#[tactic(auto, using(crate::proofs::DigitLemmas::some_digits, crate::proofs::DigitLemmas::none_digits))]
fn read_digits(word: &str) -> Option<&str>
    ensures some { IfSome result (λ digits. (digits.now ≡ word.now) × IsSome (bytes_word word.now)) }
    ensures none { IfNone result (bytes_word word.now ≡ None) }
{
    if word.len() % 2 == 0 && are_digits(word.as_bytes()) {
        Some(word)
    } else {
        None
    }
}

// Only hexadecimal digits, in either case.
fn are_digits(bytes: &[u8]) -> bool
    ensures { IsTrue result ↔ AllPass is_hex_digit bytes.now }
{
    bytes.iter().all(|byte| is_digit(*byte))
}

fn is_digit(byte: u8) -> bool
    ensures { result ≡ is_hex_digit byte }
{
    matches!(byte, b'0'..=b'9' | b'a'..=b'f' | b'A'..=b'F')
}

// A size in decimal.
fn read_size(word: &str) -> Option<Size>
    ensures { result ≡ size_word word.now }
{
    Size::new(read_decimal(word)?)
}

// The number of a plot, in decimal.
fn read_number(word: &str) -> Option<u64>
    ensures { result ≡ number_word word.now }
{
    read_decimal(word)
}

// How many challenges, in decimal.
fn read_challenges(word: &str) -> Option<u32>
    ensures read { result ≡ challenges_word word.now }
    ensures few { IfSome result (λ n. n ≤ 1000000) }
{
    let challenges = read_decimal(word)?;
    if challenges <= u64::from(MOST_CHALLENGES) {
        Some(challenges as u32)
    } else {
        None
    }
}

// A number in decimal digits without a sign, and without a leading zero except in 0 itself.
fn read_decimal(word: &str) -> Option<u64>
    ensures read { IfSome result (λ n. decimal_word word.now ≡ Some n) }
    ensures none { IfNone result (IfSome (decimal_word word.now) (λ n. 2 ^ 64 ≤ n)) }
{
    if !is_plain(word.as_bytes()) {
        return None;
    }
    word.parse::<u64>().ok()
}

// No sign stands in front, and no zero before other digits.
fn is_plain(digits: &[u8]) -> bool
    ensures { IsTrue result ↔ IsPlain digits.now }
{
    match digits.first() {
        Some(b'+') => false,
        Some(b'0') => digits.len() == 1,
        _ => true,
    }
}
