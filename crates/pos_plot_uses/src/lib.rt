//! Uses of a plotting run and of the numbering of its tables: plots of small sizes over disks in memory that are whole, that
//! stop, that fail at one call and that keep no bytes; and entries that are numbered in both widths. It shows what a caller
//! pays who makes plots. Sizes 10 and 12 are made by `plot` alone: a call of `plot_sized` builds the runs of all 41 sizes, and the
//! tests of the commands make one.
//! Source: this project's own.
#![tactic(auto)]

#[cfg(test)]
mod numbering;
#[cfg(test)]
mod plots;
#[cfg(test)]
mod stops;
