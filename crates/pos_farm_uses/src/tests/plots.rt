//! The plots of a list, and the best of their proofs.

use crate::tests::{FILE, small_file};
use pos_edge::{Disk, MemoryDisk};
use pos_farm::{Answer, ask, best, farm, read_list};
use pos_layout::Damage;
use pos_tuple::Challenge;
use std::alloc::Global;
use std::test::Fail;

// The quality of the one proof of the plot of size 12, which answers challenges that begin with 8eb.
const QUALITY: [u8; 32] = [
    0xf5, 0xc4, 0x80, 0xfc, 0x25, 0xdc, 0x13, 0x52, 0x08, 0xb4, 0x97, 0x20, 0xeb, 0x0d, 0xf0, 0xb5,
    0x90, 0x70, 0x85, 0x44, 0xca, 0xec, 0xb9, 0x12, 0x5c, 0x8f, 0xc7, 0x11, 0x7d, 0xa3, 0x6b, 0x71,
];

/// What the plots of the list `list` answer.
fn answers_of<D: Disk>(
    alloc: Global,
    challenge: &Challenge,
    disk: &mut D,
) -> Result<Vec<Answer>, Fail> {
    let Ok(names) = read_list(alloc, "list", disk) else {
        return Err(Fail::from("the list is good"));
    };
    let Ok(answers) = farm(alloc, names.as_slice(), challenge, disk) else {
        return Err(Fail::from("there is memory"));
    };
    Ok(answers)
}

/// A challenge that begins with these bytes, and then with zeros.
fn challenge_of(first: u8, second: u8) -> Challenge {
    let mut challenge = Challenge([0; 32]);
    challenge.0[0] = first;
    challenge.0[1] = second;
    challenge
}

/// The plot of one proof as `p`, and the small file of no id as `toy`, with this list; the calls of these numbers fail.
fn disk_of_two(alloc: Global, list: &[u8], failing: &[u64]) -> Result<MemoryDisk, Fail> {
    let mut disk = MemoryDisk::new(alloc, failing.to_vec(alloc)?);
    disk.add("list", list)?;
    disk.add("p", FILE.as_slice())?;
    let toy = small_file(alloc)?;
    disk.add("toy", toy.as_slice())?;
    Ok(disk)
}

/// The number of the plot, the place and the quality of the best offer.
fn best_of(answers: &[Answer]) -> Option<(u64, u64, [u8; 32])> {
    let (plot, offer) = best(answers)?;
    let quality = offer.quality;
    Some((plot, offer.place, quality))
}

/// How many proofs a plot answers with.
fn number_in(answer: Option<&Answer>) -> Option<u64> {
    match answer {
        Some(Answer::Proofs { number, .. }) => Some(*number),
        _ => None,
    }
}

#[test]
fn a_damaged_plot_and_an_absent_one_end_nothing(rt: HostRuntime) -> Result<(), Fail> {
    let alloc = rt.alloc();
    let mut disk = disk_of_two(alloc, b"toy\nnothing\np\n", &[])?;
    let answers = answers_of(alloc, &challenge_of(0, 0), &mut disk)?;
    assert_eq!(rt; answers.len(), 3);
    assert_eq!(rt;
        answers.first(),
        Some(&Answer::Damaged(Damage::NotAProof { at: 0 }))
    );
    assert_eq!(rt; answers.get(1), Some(&Answer::Absent));
    assert_eq!(rt; number_in(answers.get(2)), Some(0));
    assert_eq!(rt; best_of(answers.as_slice()), None);
    Ok(())
}

#[test]
fn of_equal_proofs_that_of_the_first_plot_is_the_best(rt: HostRuntime) -> Result<(), Fail> {
    let alloc = rt.alloc();
    let mut disk = disk_of_two(alloc, b"toy\np\np\n", &[])?;
    let answers = answers_of(alloc, &challenge_of(0x8e, 0xb0), &mut disk)?;
    assert_eq!(rt; number_in(answers.first()), Some(0));
    assert_eq!(rt; number_in(answers.get(1)), Some(1));
    assert_eq!(rt; number_in(answers.get(2)), Some(1));
    assert_eq!(rt; best_of(answers.as_slice()), Some((1, 0, QUALITY)));
    Ok(())
}

#[test]
fn a_plot_whose_disk_fails_ends_nothing(rt: HostRuntime) -> Result<(), Fail> {
    let alloc = rt.alloc();
    // the first call opens the list, two read its lines, and the one that fails opens the first plot
    let mut disk = disk_of_two(alloc, b"p\np\n", &[3])?;
    let answers = answers_of(alloc, &challenge_of(0x8e, 0xb0), &mut disk)?;
    assert_eq!(rt; answers.first(), Some(&Answer::DiskFailed));
    assert_eq!(rt; number_in(answers.get(1)), Some(1));
    assert_eq!(rt; best_of(answers.as_slice()), Some((1, 0, QUALITY)));
    Ok(())
}

/// Removes the file `p`.
fn remove_plot<D: Disk>(disk: &mut D) -> Result<(), Fail> {
    let Ok(file) = disk.open("p") else {
        return Err(Fail::from("the plot is there"));
    };
    let Ok(()) = disk.remove(file) else {
        return Err(Fail::from("the disk does not fail"));
    };
    Ok(())
}

/// How many proofs the plot `p` answers with; None where it answers with none.
fn number_of_p<D: Disk>(
    alloc: Global,
    challenge: &Challenge,
    disk: &mut D,
) -> Result<Option<u64>, Fail> {
    match ask(alloc, "p", challenge, disk) {
        Ok(Answer::Proofs { number, .. }) => Ok(Some(number)),
        Ok(Answer::Absent) => Ok(None),
        _ => Err(Fail::from("the plot answers, or is absent")),
    }
}

#[test]
fn a_plot_that_goes_between_two_names_is_absent(rt: HostRuntime) -> Result<(), Fail> {
    let alloc = rt.alloc();
    let mut disk = disk_of_two(alloc, b"", &[])?;
    let challenge = challenge_of(0x8e, 0xb0);
    let first = number_of_p(alloc, &challenge, &mut disk)?;
    assert_eq!(rt; first, Some(1));
    remove_plot(&mut disk)?;
    let second = number_of_p(alloc, &challenge, &mut disk)?;
    assert_eq!(rt; second, None);
    Ok(())
}
