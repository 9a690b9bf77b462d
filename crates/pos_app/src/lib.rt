//! The program: words, texts and statuses. `run` does all that the program does.
#![tactic(auto)]

mod command;
mod farm_lines;
mod farming;
mod plotting;
mod program;
mod refusal;
mod saying;
mod shown;
mod surveying;
mod text;

pub use program::run;
