//! The outside as the program meets it: files, output and input.
//!
//! The traits `Disk`, `Sink` and `Source` carry their whole meaning: what each call does to files, to what a crash may leave of
//! them and to the count of faults, by its answer. `Scratch` makes and removes the files that some work needs for a time.
//! The doubles in memory meet the traits and tell everything. What several calls leave as it was is said by the frames
//! `ChangesOnly` and `ChangesFile`, what work on scratch files did by `IsScratchWork` and `IsScratchDone`.
#![tactic(auto)]

mod disk;
mod doubles;
mod scratch;
mod sink;
mod source;

pub use disk::{CreateFault, Disk, DiskFailed, FileId, MAX_READ, OpenFault, WriteFault};
pub use doubles::{BlankDisk, MemoryDisk, MemorySink, MemorySource};
pub use scratch::{MAX_SCRATCH_FILES, Scratch, ScratchDamage, ScratchFile, WorkFault};
pub use sink::{PutFailed, Sink};
pub use source::{Source, TakeFailed};

/// What a call answers that needed more memory than there was.
#[derive(Clone, Copy, Debug, PartialEq, Eq)]
pub struct Memory;
