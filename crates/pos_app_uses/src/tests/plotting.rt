//! `plot` over disks in memory: what is made, what is there already, and what a stop leaves.

use crate::tests::{ID, answer_on};
use pos_edge::{BlankDisk, Disk, MemoryDisk};
use std::alloc::Global;
use std::test::Fail;

// The counts that plain loops give for the id of zeros at size 12.
const PLOTTED: &str = "plotted 12 1434 903 523 289 157 88 88\n";

// The status and the text of a run over a disk.
fn said_on<D: Disk>(alloc: Global, words: &[&str], disk: &mut D) -> Result<(u8, String), Fail> {
    let (status, text) = answer_on(alloc, words, &[], disk)?;
    let text = String::from_utf8(text).map_err(|_| "no text")?;
    Ok((status, text))
}

#[test]
fn a_plot_is_made_where_no_name_is_there(rt: HostRuntime) -> Result<(), Fail> {
    let alloc = rt.alloc();
    let mut disk = MemoryDisk::new(alloc, Vec::new(alloc));
    let words = ["plot", ID, "12", "p", "s"];
    let (status, text) = said_on(alloc, &words, &mut disk)?;
    assert_eq!(rt; text.as_str(), PLOTTED);
    assert_eq!(rt; status, 0);
    let (status, text) = said_on(alloc, &words, &mut disk)?;
    assert_eq!(rt; text.as_str(), "exists p\n");
    assert_eq!(rt; status, 5);
    // by plain loops
    let (status, text) = said_on(alloc, &["check", "p", "100"], &mut disk)?;
    assert_eq!(rt;
        text.as_str(),
        "checked 100 proofs 1 digest 7cc5b2340f13ce0f829e882b15c240210c749909970802c26da6a6682f849dfb\n"
    );
    assert_eq!(rt; status, 0);
    Ok(())
}

#[test]
fn a_plot_may_be_empty(rt: HostRuntime) -> Result<(), Fail> {
    let alloc = rt.alloc();
    let mut disk = MemoryDisk::new(alloc, Vec::new(alloc));
    // no tuple of this id has an entry in table 7 at size 10
    let (status, text) = said_on(alloc, &["plot", ID, "10", "r", "s"], &mut disk)?;
    assert_eq!(rt; text.as_str(), "plotted 10 0 0 0 0 0 0 0\n");
    assert_eq!(rt; status, 0);
    let (status, text) = said_on(alloc, &["prove", "r", ID], &mut disk)?;
    assert_eq!(rt; text.as_str(), "0 proofs\n");
    assert_eq!(rt; status, 0);
    Ok(())
}

#[test]
fn a_scratch_file_that_is_there_ends_a_run(rt: HostRuntime) -> Result<(), Fail> {
    let alloc = rt.alloc();
    let mut disk = MemoryDisk::new(alloc, Vec::new(alloc));
    disk.add("s.0", b"any")?;
    let (status, text) = said_on(alloc, &["plot", ID, "12", "p", "s"], &mut disk)?;
    assert_eq!(rt; text.as_str(), "exists s.0\n");
    assert_eq!(rt; status, 5);
    let (status, _) = said_on(alloc, &["inspect", "p"], &mut disk)?;
    assert_eq!(rt; status, 4);
    Ok(())
}

// A run over a disk that fails at one call ends with a disk fault, and the file does not open.
fn fails_well(alloc: Global, call: u64) -> Result<bool, Fail> {
    let mut failing = Vec::new(alloc);
    failing.push(call)?;
    let mut disk = MemoryDisk::new(alloc, failing);
    let (status, text) = said_on(alloc, &["plot", ID, "12", "p", "s"], &mut disk)?;
    let (opened, _) = said_on(alloc, &["inspect", "p"], &mut disk)?;
    Ok(status == 3 && text.as_str() == "disk fault\n" && opened == 4)
}

#[test]
fn a_call_that_fails_ends_a_run(rt: HostRuntime) -> Result<(), Fail> {
    let alloc = rt.alloc();
    for call in [1, 10, 30, 50, 70, 90] {
        assert!(rt; fails_well(alloc, call)?);
    }
    Ok(())
}

// Each y of table 1 is read back as 0, so that no pair matches.
#[test]
fn a_disk_that_keeps_no_bytes_gives_an_empty_plot(rt: HostRuntime) -> Result<(), Fail> {
    let alloc = rt.alloc();
    let mut disk = BlankDisk::new(alloc);
    let (status, text) = said_on(alloc, &["plot", ID, "12", "p", "s"], &mut disk)?;
    assert_eq!(rt; text.as_str(), "plotted 12 0 0 0 0 0 0 0\n");
    assert_eq!(rt; status, 0);
    Ok(())
}

// Whether this is what a stop may leave of the file: it does not open, or is the finished one.
fn is_shut_or(alloc: Global, image: &[u8], finished: &[u8]) -> Result<bool, Fail> {
    let mut disk = MemoryDisk::new(alloc, Vec::new(alloc));
    disk.add("p", image)?;
    let (status, _) = said_on(alloc, &["inspect", "p"], &mut disk)?;
    Ok(status == 4 || image == finished)
}

// Runs over a disk that stops after so many calls. It ends with a disk fault, and no image of the file opens but the
// finished one.
fn stops_well(alloc: Global, calls: u64, finished: &[u8]) -> Result<bool, Fail> {
    let mut disk = MemoryDisk::stopping(alloc, calls);
    let (status, text) = said_on(alloc, &["plot", ID, "12", "p", "s"], &mut disk)?;
    let mut well = status == 3 && text.as_str() == "disk fault\n";
    for writes in 0..4 {
        if let Some(image) = disk.image(alloc, "p", writes)? {
            well = well && is_shut_or(alloc, image.as_slice(), finished)?;
        }
    }
    Ok(well)
}

// The first 6 calls, the last 14, and every eighth between them.
#[test]
fn a_stop_at_a_call_leaves_no_other_plot(rt: HostRuntime) -> Result<(), Fail> {
    let alloc = rt.alloc();
    let mut disk = MemoryDisk::new(alloc, Vec::new(alloc));
    let (_, text) = said_on(alloc, &["plot", ID, "12", "p", "s"], &mut disk)?;
    assert_eq!(rt; text.as_str(), PLOTTED);
    let finished = disk.contents("p").unwrap_or(&[]);
    for calls in 0..disk.calls() {
        if calls < 6 || disk.calls() - calls <= 14 || calls % 8 == 0 {
            assert!(rt; stops_well(alloc, calls, finished)?);
        }
    }
    Ok(())
}
