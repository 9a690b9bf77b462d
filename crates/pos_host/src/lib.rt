//! The outside as the machine has it: files, standard output and standard input. None tells what it holds.
#![tactic(auto)]

mod disk;
mod open;
mod sink;
mod source;

pub use disk::HostDisk;
pub use sink::HostSink;
pub use source::HostSource;

#[cfg(test)]
mod tests;
