//! Uses of an open plot: its spans, its proofs and qualities, and its checks, over files whose bytes an independent program made;
//! and the plot of a number, made and checked.
//! Source: this project's own.
#![tactic(auto)]

#[cfg(test)]
mod tests;
