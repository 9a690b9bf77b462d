//! The plain lists that a plotting run makes and that a plot is, with no disk, page or park in them: tables of pairs, used
//! places, ranks, seven lists of numbers, and the trees of values that these stand for.
//!
//! The definitions stand in `specs/`, for the contracts of the crates above. Here is what holds of them alone: each law is
//! what a function that takes nothing and does nothing ensures, and who calls it may use it in a proof of its own.
//! Levels count from 0 to 6, tables of a plot from 1 to 7, places from 0.
#![tactic(auto)]

pub mod numbering;
pub mod pairs;
pub mod ranks;
pub mod used;
