//! Uses of the plot file, by the public calls of `pos_layout` and `pos_reader`: what the writer leaves byte by byte and at each
//! crash, and what the reader answers of small files, whole, cut off and changed at each byte.
//! Source: this project's own.
#![tactic(auto)]

#[cfg(test)]
mod reader_tests;
#[cfg(test)]
mod writer_tests;
