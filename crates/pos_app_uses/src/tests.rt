mod checks;
mod inspect;
mod lists;
mod plotting;
mod search;
mod surveys;

use pos_app::run;
use pos_edge::{Disk, MemoryDisk, MemorySink};
use pos_tuple::Id;
use std::alloc::Global;
use std::test::Fail;

const ID: &str = "0000000000000000000000000000000000000000000000000000000000000000";

const CHALLENGE: &str = "8eb0000000000000000000000000000000000000000000000000000000000000";

// The challenge with its first bit turned.
const TURNED: &str = "0eb0000000000000000000000000000000000000000000000000000000000000";

const PROOF: &str =
    "c889aba8b2380f9bd6d06651bbf4114733e6a26aef371424e269758ffbbb91e140c6ace20dc8dc4ba3bf2896879bd50deab97ec39e9ee3be7b5888a2af037cd79a84890bab669199c2904edb16cf976a084b398e912297ce15fb82f89a24fbc0";

// The proof with its halves of 32 values exchanged.
const EXCHANGED: &str =
    "eab97ec39e9ee3be7b5888a2af037cd79a84890bab669199c2904edb16cf976a084b398e912297ce15fb82f89a24fbc0c889aba8b2380f9bd6d06651bbf4114733e6a26aef371424e269758ffbbb91e140c6ace20dc8dc4ba3bf2896879bd50d";

// The status and the text of a run with these words over a disk, with a sink that fails at the puts of these numbers.
pub fn answer_on<D: Disk>(
    alloc: Global,
    words: &[&str],
    failing: &[u64],
    disk: &mut D,
) -> Result<(u8, Vec<u8>), Fail> {
    let mut owned = Vec::new(alloc);
    for word in words {
        owned.push(String::from_str(alloc, word)?)?;
    }
    let mut sink = MemorySink::new(alloc, failing.to_vec(alloc)?, 4096)?;
    let status = run(alloc, owned.as_slice(), disk, &mut sink);
    Ok((status, sink.text().to_vec(alloc)?))
}

// The same over a disk with no files; the sink fails at its first put where it is said.
fn answer(alloc: Global, words: &[&str], fails: bool) -> Result<(u8, Vec<u8>), Fail> {
    let mut disk = MemoryDisk::new(alloc, Vec::new(alloc));
    let failing: &[u64] = if fails { &[0] } else { &[] };
    answer_on(alloc, words, failing, &mut disk)
}

fn repeated(alloc: Global, digit: &str, times: u32) -> Result<String, Fail> {
    let mut text = String::new(alloc);
    for _ in 0..times {
        text.push_str(digit)?;
    }
    Ok(text)
}

#[test]
fn a_proof_is_accepted_in_either_case(rt: HostRuntime) -> Result<(), Fail> {
    let alloc = rt.alloc();
    let accepted = b"accepted f5c480fc25dc135208b49720eb0df0b590708544caecb9125c8fc7117da36b71\n";
    let (status, text) = answer(alloc, &["verify", ID, "12", CHALLENGE, PROOF], false)?;
    assert_eq!(rt; text.as_slice(), accepted.as_slice());
    assert_eq!(rt; status, 0);
    let challenge = CHALLENGE.to_ascii_uppercase(alloc)?;
    let proof = PROOF.to_ascii_uppercase(alloc)?;
    let words = ["verify", ID, "12", challenge.as_str(), proof.as_str()];
    let (status, text) = answer(alloc, &words, false)?;
    assert_eq!(rt; text.as_slice(), accepted.as_slice());
    assert_eq!(rt; status, 0);
    Ok(())
}

#[test]
fn refusals_name_the_first_failing_test(rt: HostRuntime) -> Result<(), Fail> {
    let alloc = rt.alloc();
    let whole = repeated(alloc, "0", 288)?;
    let short = repeated(alloc, "0", 286)?;
    let long = repeated(alloc, "0", 290)?;
    let longest = repeated(alloc, "0", 100_000)?;
    let greatest = repeated(alloc, "0", 800)?;
    let rows = [
        ("18", ID, whole.as_str(), "refused match 1 0\n"),
        ("18", ID, short.as_str(), "refused length 144 143\n"),
        ("18", ID, long.as_str(), "refused length 144 145\n"),
        ("18", ID, longest.as_str(), "refused length 144 50000\n"),
        ("18", ID, "", "refused length 144 0\n"),
        ("33", ID, "", "refused length 264 0\n"),
        ("50", ID, greatest.as_str(), "refused match 1 0\n"),
        ("12", CHALLENGE, EXCHANGED, "refused match 6 0\n"),
        // a challenge whose first bits differ, and one whose first bit is turned
        ("12", ID, PROOF, "refused challenge 0 2283\n"),
        ("12", TURNED, PROOF, "refused challenge 235 2283\n"),
    ];
    for (k, challenge, proof, wanted) in rows {
        let (status, text) = answer(alloc, &["verify", ID, k, challenge, proof], false)?;
        assert_eq!(rt; text.as_slice(), wanted.as_bytes());
        assert_eq!(rt; status, 1);
    }
    Ok(())
}

#[test]
fn words_that_are_no_command_answer_the_usage_line(rt: HostRuntime) -> Result<(), Fail> {
    let alloc = rt.alloc();
    let words: [&[&str]; 28] = [
        &[],
        &["verify"],
        &["plot", ID, "10", "p"],
        &["plot", ID, "10", "s.0", "s"],
        &["plot", ID, "10", "s.", "s"],
        &["plot", ID, "10", "", "s"],
        &["plot", ID, "10", "p", "-s"],
        &["plot", ID, "51", "p", "s"],
        &["plot", &ID[1..], "10", "p", "s"],
        &["plot", ID, "10", "p", "s", ""],
        &["verify", ID, "9", ID, ""],
        &["verify", ID, "51", ID, ""],
        &["verify", ID, "018", ID, ""],
        &["verify", ID, "+18", ID, ""],
        &["verify", &ID[1..], "18", ID, ""],
        &["verify", ID, "18", ID, "0"],
        &["verify", ID, "18", ID, "0g"],
        &["verify", ID, "-18", ID, ""],
        &["verify", ID, "18", ID, "", ""],
        &["inspect"],
        &["inspect", ""],
        &["inspect", "-p"],
        &["inspect", "p", "q"],
        &["prove", "p"],
        &["prove", "p", &ID[1..]],
        &["prove", "-p", ID],
        &["quality", "", ID],
        &["quality", "p", ID, ID],
    ];
    for words in words {
        let (status, text) = answer(alloc, words, false)?;
        assert_eq!(rt;
            text.as_slice(),
            b"usage: pos_main COMMAND WORDS\n".as_slice()
        );
        assert_eq!(rt; status, 2);
    }
    Ok(())
}

#[test]
fn a_sink_that_fails_gives_its_status(rt: HostRuntime) -> Result<(), Fail> {
    let alloc = rt.alloc();
    let (status, text) = answer(alloc, &["verify", ID, "12", CHALLENGE, PROOF], true)?;
    assert_eq!(rt; text.len(), 0);
    assert_eq!(rt; status, 7);
    let (status, _) = answer(alloc, &[], true)?;
    assert_eq!(rt; status, 7);
    Ok(())
}

// The digits of numbers of 12 bits.
fn digits_of(alloc: Global, values: &[u64]) -> Result<String, Fail> {
    let mut text = String::new(alloc);
    for value in values {
        text.push_str(format!(in alloc; "{value:03x}")?.as_str())?;
    }
    Ok(text)
}

#[test]
fn the_first_proof_that_plain_loops_find_is_accepted(rt: HostRuntime) -> Result<(), Fail> {
    let alloc = rt.alloc();
    for first in 0..10u8 {
        let mut id = Id([0; 32]);
        id.0[0] = first;
        let Some(found) = search::first_found(alloc, &id)? else {
            continue;
        };
        let rest = repeated(alloc, "0", 61)?;
        let challenge = format!(in alloc; "{:03x}{rest}", found.y >> 6)?;
        let tail = repeated(alloc, "0", 62)?;
        let name = format!(in alloc; "{first:02x}{tail}")?;
        let proof = digits_of(alloc, &found.values)?;
        let words = [
            "verify",
            name.as_str(),
            "12",
            challenge.as_str(),
            proof.as_str(),
        ];
        let (status, text) = answer(alloc, &words, false)?;
        assert!(rt; text.as_slice().starts_with(b"accepted "));
        assert_eq!(rt; status, 0);
        // These are the words of the program's stored run.
        assert_eq!(rt; name.as_str(), ID);
        assert_eq!(rt; challenge.as_str(), CHALLENGE);
        assert_eq!(rt; proof.as_str(), PROOF);
        return Ok(());
    }
    Err(Fail::from("one of the ids has a proof"))
}
