//! The plot file: its two layouts, what its bytes mean, and its writer.
//!
//! A layout fixes the name, the longest memo, how many numbers a full park has and how much of a digest an entry keeps;
//! all else is one set of definitions, laws and calls for both. The laws (`laws`) say that a plot has one file for each
//! layout and memo, that a file has one plot, what opening finds, and that no crash leaves another file that opens.
//! `PlotWriter` writes a file number by number and is shown to leave the file of the lists that were added, whatever the
//! disk answers on the way. `pos_reader` reads such files. Source: this project's own format, docs/FORMAT.md.
#![tactic(auto)]

mod bytes;
mod damage;
mod digest;
mod entry;
mod header;
pub mod laws;
mod layout;
mod shut;
mod writer;

pub use damage::{Damage, HeaderField};
pub use digest::{ParkDigest, park_digest};
pub use entry::{MOST_ENTRY_BYTES, ParkEntry, decode_entry, encode_entry};
pub use header::{
    Column, GREATEST_SIZE, HEADER_BYTES, Header, LEAST_SIZE, decode_header, encode_header,
};
pub use layout::{Layout, MOST_MEMO, longest_park, park_count, parks_of};
pub use writer::PlotWriter;
