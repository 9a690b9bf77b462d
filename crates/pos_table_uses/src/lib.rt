//! Uses of the calls that make tables and prune them, by a caller of another crate: how many entries tables have, what plain
//! loops over all pairs find, and the places that are kept of tables 2 to 6 beside those that plain loops reach from table 7.
//! It shows what a caller pays who reads the tables and their kept places in turn.
//! Source: this project's own.
#![tactic(auto)]

#[cfg(test)]
mod forward_tests;
#[cfg(test)]
mod matcher_tests;
#[cfg(test)]
mod plain;
#[cfg(test)]
mod tests;
#[cfg(test)]
mod tuple_tests;
