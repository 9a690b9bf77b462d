//! Uses of the outside in memory and of scratch files, each public call of `pos_edge` once: what the doubles answer, what they
//! keep, which images they show, and which files work on scratch files makes and removes.
//! Source: this project's own.
#![tactic(auto)]

#[cfg(test)]
mod tests;
