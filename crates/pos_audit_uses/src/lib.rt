//! Uses of an audit: of small files that are the plot of their id in either layout, of one that is the plot of none, and of
//! names that are there or not. A call of `audit` builds the runs of all sizes, so these tests take long to build.
//! Source: this project's own.
#![tactic(auto)]

#[cfg(test)]
mod audits;
