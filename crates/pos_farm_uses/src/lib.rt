//! Uses of many plots that are asked for one challenge: lists that are good and that have a bad line, plots that are absent,
//! damaged or fail while others answer, and the best of their proofs, over files whose bytes an independent program made.
//! Source: this project's own.
#![tactic(auto)]

#[cfg(test)]
mod tests;
