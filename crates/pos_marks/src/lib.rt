//! A set of places below a limit, kept on the pages of a scratch file: which places are marked, and how many below a place.
//!
//! A run marks places in any order, seals the marks, and then asks for them. Until they are sealed the marks are bits in
//! memory, one a place; `seal` writes them to the file, page by page, and gives that memory up. From then on one page is in
//! memory, and who asks for places in order reads each page once.
#![tactic(auto)]

mod bits;
mod counts;
mod ones;
mod pages;
mod set;

pub use set::Marks;
