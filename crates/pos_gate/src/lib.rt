//! A file with a gate: its first byte stays 0 until all else is on the disk, and a file with a closed gate is not yet
//! what it is to become.
//!
//! `begin` writes a closed gate into a fresh file, `write_past` writes anywhere behind it, and `open_gate` makes the
//! gate 1 after all that was written is on the disk. So whatever a crash leaves is the whole file, or has at most one
//! byte, or a closed gate, or is the whole file but for the gate's byte. `is_unfinished` tells such a file from others
//! by a mark that stands behind the gate.
#![tactic(auto)]

mod looking;
mod writing;

pub use looking::{MOST_MARK, is_unfinished};
pub use writing::{begin, open_gate, write_past};
