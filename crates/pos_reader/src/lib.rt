//! The reader of a plot file: any bytes are opened or refused by the first damage that they show, and a plot that is open
//! answers its numbers one at a time.
#![tactic(auto)]

mod entry;
mod header;
mod park;
mod plot;
mod reads;
mod refusal;

pub use plot::Plot;
pub use pos_layout::{Damage, HeaderField};
pub use refusal::{OpenRefusal, ReadRefusal};
