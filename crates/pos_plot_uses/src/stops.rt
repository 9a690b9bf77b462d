//! Runs over a disk that stops after some call, and over one that fails at one call alone.

use crate::plots::plot_with;
use pos_edge::MemoryDisk;
use pos_layout::Layout;
use pos_plot::PlotFault;
use pos_reader::{OpenRefusal, Plot};
use std::alloc::Global;
use std::test::Fail;

// More writes than a run makes to its file from one sync to the next.
const MANY_WRITES: u64 = 24;

// Whether this is what a stop may leave of the file: it does not open, or is the finished one.
fn is_shut_or(alloc: Global, image: &[u8], finished: &[u8]) -> Result<bool, Fail> {
    let mut disk = MemoryDisk::new(alloc, Vec::new(alloc));
    disk.add("p", image)?;
    match Plot::open(alloc, &mut disk, "p") {
        Ok(_) => Ok(image == finished),
        Err(OpenRefusal::Damage(_)) => Ok(true),
        Err(_) => Ok(false),
    }
}

// Whether each image of the file is so.
fn leaves_no_other_plot(alloc: Global, disk: &MemoryDisk, finished: &[u8]) -> Result<bool, Fail> {
    let mut well = true;
    for writes in 0..MANY_WRITES {
        if let Some(image) = disk.image(alloc, "p", writes)? {
            well = well && is_shut_or(alloc, image.as_slice(), finished)?;
        }
    }
    Ok(well)
}

// Runs over a disk that will fail, beside another file. The run ends with that failure, the other file stays, and no image of
// the plot's file opens but the finished one.
fn fails_well(alloc: Global, disk: &mut MemoryDisk, finished: &[u8]) -> Result<bool, Fail> {
    let answer = plot_with::<MemoryDisk, 12>(alloc, 0, Layout::Two, disk);
    let left = leaves_no_other_plot(alloc, disk, finished)?;
    let kept = disk.contents("other") == Some(b"any".as_slice());
    Ok(answer == Err(PlotFault::DiskFailed) && left && kept)
}

// Over a disk that stops after so many calls.
fn stops_well(alloc: Global, calls: u64, finished: &[u8]) -> Result<bool, Fail> {
    let mut disk = MemoryDisk::stopping(alloc, calls);
    disk.add("other", b"any")?;
    fails_well(alloc, &mut disk, finished)
}

// Over a disk on which this call alone fails.
fn misses_well(alloc: Global, call: u64, finished: &[u8]) -> Result<bool, Fail> {
    let mut failing = Vec::new(alloc);
    failing.push(call)?;
    let mut disk = MemoryDisk::new(alloc, failing);
    disk.add("other", b"any")?;
    fails_well(alloc, &mut disk, finished)
}

// A disk with the finished plot.
fn finished_disk(alloc: Global) -> Result<MemoryDisk, Fail> {
    let mut disk = MemoryDisk::new(alloc, Vec::new(alloc));
    match plot_with::<MemoryDisk, 12>(alloc, 0, Layout::Two, &mut disk) {
        Ok(_) => Ok(disk),
        Err(_) => Err(Fail::from("a plot is made where nothing fails")),
    }
}

// One of the first 40 of so many calls, of the last 40, or of every tenth between them.
fn is_tried(call: u64, calls: u64) -> bool {
    call < 40 || calls.saturating_sub(call) <= 40 || call % 10 == 0
}

#[test]
fn a_stop_at_a_call_leaves_no_other_plot(rt: HostRuntime) -> Result<(), Fail> {
    let alloc = rt.alloc();
    let disk = finished_disk(alloc)?;
    let finished = disk.contents("p").unwrap_or(&[]);
    for call in 0..disk.calls() {
        if is_tried(call, disk.calls()) {
            assert!(rt; stops_well(alloc, call, finished)?, "at call {call}");
        }
    }
    Ok(())
}

#[test]
fn one_failing_call_leaves_no_other_plot(rt: HostRuntime) -> Result<(), Fail> {
    let alloc = rt.alloc();
    let disk = finished_disk(alloc)?;
    let finished = disk.contents("p").unwrap_or(&[]);
    for call in 0..disk.calls() {
        if is_tried(call, disk.calls()) {
            assert!(rt; misses_well(alloc, call, finished)?, "at call {call}");
        }
    }
    Ok(())
}
