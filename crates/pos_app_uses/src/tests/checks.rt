//! `check` over small files, over a changed one, and over none.

use crate::tests::inspect::{answer_over, empty_file, toy_file};
use std::test::Fail;

#[test]
fn small_files_are_checked(rt: HostRuntime) -> Result<(), Fail> {
    let alloc = rt.alloc();
    let empty = empty_file(alloc)?;
    let toy = toy_file(alloc)?;
    // SHA-256 of no bytes; by an independent program, challenge number 1815 is the first that the toy file's place answers
    let rows = [
        (
            true,
            "0",
            0,
            "checked 0 proofs 0 digest e3b0c44298fc1c149afbf4c8996fb92427ae41e4649b934ca495991b7852b855\n",
        ),
        (
            true,
            "5",
            0,
            "checked 5 proofs 0 digest e3b0c44298fc1c149afbf4c8996fb92427ae41e4649b934ca495991b7852b855\n",
        ),
        (
            false,
            "1815",
            0,
            "checked 1815 proofs 0 digest e3b0c44298fc1c149afbf4c8996fb92427ae41e4649b934ca495991b7852b855\n",
        ),
        (false, "1816", 4, "damage not-a-proof 0\n"),
        (true, "1000001", 2, "usage: pos_main COMMAND WORDS\n"),
        (true, "01", 2, "usage: pos_main COMMAND WORDS\n"),
    ];
    for (is_empty, n, wanted, said) in rows {
        let bytes = if is_empty { &empty } else { &toy };
        let (status, text) = answer_over(alloc, &["check", "toy", n], bytes.as_slice(), &[])?;
        assert_eq!(rt; text.as_slice(), said.as_bytes());
        assert_eq!(rt; status, wanted);
    }
    Ok(())
}

#[test]
fn a_check_names_a_damage_a_fault_and_an_absence(rt: HostRuntime) -> Result<(), Fail> {
    let alloc = rt.alloc();
    let mut bytes = toy_file(alloc)?;
    *bytes.get_mut(0).ok_or("no such place")? = 0;
    let (status, text) = answer_over(alloc, &["check", "toy", "0"], bytes.as_slice(), &[])?;
    assert_eq!(rt; text.as_slice(), b"damage not-open 428 0\n".as_slice());
    assert_eq!(rt; status, 4);
    let toy = toy_file(alloc)?;
    // the first call opens, the second reads the header, the third looks for the first span
    for call in [0, 1, 2] {
        let (status, text) = answer_over(alloc, &["check", "toy", "1"], toy.as_slice(), &[call])?;
        assert_eq!(rt; text.as_slice(), b"disk fault\n".as_slice());
        assert_eq!(rt; status, 3);
    }
    let (status, text) = answer_over(alloc, &["check", "nothing", "1"], toy.as_slice(), &[])?;
    assert_eq!(rt; text.as_slice(), b"absent nothing\n".as_slice());
    assert_eq!(rt; status, 5);
    Ok(())
}
