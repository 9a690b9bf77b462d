//! `prove` and `quality` over small files, over changed ones, and over none.

use crate::tests::ID;
use crate::tests::inspect::{TWO, answer_over, empty_file, toy_file, toy_of};
use std::test::Fail;

// SHA-256 of 32 zero bytes and of the values 0 and 1, as two strings of 10 bits.
const QUALITY: &str =
    "62b5cf44b810625206d73ba6c2920119055d53ed81386cc860345466c8a83500\n1 qualities\n";

#[test]
fn small_files_show_their_lists_or_the_first_damage(rt: HostRuntime) -> Result<(), Fail> {
    let alloc = rt.alloc();
    // what stands at a place, and what is said then: the byte at 0 is a 1
    let rows = [
        (0, 1, "prove", 4, "damage not-a-proof 0\n"),
        (0, 1, "quality", 0, QUALITY),
        (0, 0, "prove", 4, "damage not-open 428 0\n"),
        (176, 1, "prove", 4, "damage digest 1 0\n"),
        (191, 0, "prove", 4, "damage directory 1 0\n"),
        (191, 0, "quality", 4, "damage directory 1 0\n"),
    ];
    for (at, byte, command, wanted, said) in rows {
        let mut bytes = toy_file(alloc)?;
        *bytes.get_mut(at).ok_or("no such place")? = byte;
        let (status, text) = answer_over(alloc, &[command, "toy", ID], bytes.as_slice(), &[])?;
        assert_eq!(rt; text.as_slice(), said.as_bytes());
        assert_eq!(rt; status, wanted);
    }
    let toy = toy_of(alloc, TWO, &[0xab, 0xcd])?;
    let (status, text) = answer_over(alloc, &["quality", "toy", ID], toy.as_slice(), &[])?;
    assert_eq!(rt; text.as_slice(), QUALITY.as_bytes());
    assert_eq!(rt; status, 0);
    let empty = empty_file(alloc)?;
    let (status, text) = answer_over(alloc, &["prove", "toy", ID], empty.as_slice(), &[])?;
    assert_eq!(rt; text.as_slice(), b"0 proofs\n".as_slice());
    assert_eq!(rt; status, 0);
    Ok(())
}

#[test]
fn a_list_that_the_disk_cuts_off_is_a_fault(rt: HostRuntime) -> Result<(), Fail> {
    let alloc = rt.alloc();
    let toy = toy_file(alloc)?;
    // the first call opens, the second reads the header, the last of these is within the tables
    for call in [0, 1, 2, 9] {
        let (status, text) = answer_over(alloc, &["quality", "toy", ID], toy.as_slice(), &[call])?;
        assert_eq!(rt; text.as_slice(), b"disk fault\n".as_slice());
        assert_eq!(rt; status, 3);
    }
    let (status, text) = answer_over(alloc, &["prove", "nothing", ID], toy.as_slice(), &[])?;
    assert_eq!(rt; text.as_slice(), b"absent nothing\n".as_slice());
    assert_eq!(rt; status, 5);
    Ok(())
}
