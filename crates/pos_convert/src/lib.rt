//! The conversion of a plot file: its seven lists are read park by park and written to a new file of the second layout, with
//! a memo.
//!
//! Whatever the bytes of the file are, each number is tested as it is copied: that it points inside, and that it is above the
//! one before it. So the new file, if it opens, is the whole file of lists that can be plots' lists, and a damage is the first
//! one by table and place. The new file's gate opens last of all. The old file is only read.
//! Source: this project's own.
#![tactic(auto)]

mod adding;
mod converting;
mod copying;
mod fault;
pub mod laws;
mod starting;

pub use converting::convert;
pub use fault::ConvertFault;
