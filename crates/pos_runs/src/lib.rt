//! Lists of records on disk: each stands bit-packed on pages of a scratch file of its own, in the order in which its
//! records were pushed, and is read back in any order. The tables of a plotting run are eight such lists.
//!
//! What a list stands for is a plain list, said of the list and the disk by `ListHolds`, over a disk that tells what its
//! files hold. Over every disk, what is read back fits the size. Each page is written once, and getting the records in
//! order reads each page once.
//! Source: this project's own.
#![tactic(auto)]

mod ordered;
mod pages;
mod plan;
mod tables;

pub use ordered::{MAX_RECORDS, Ordered};
pub use plan::Plan;
pub use tables::Tables;
