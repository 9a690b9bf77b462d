//! Uses of the program's one call over disks and outputs in memory: each command, with its text and its status.
//! Source: this project's own.
#![tactic(auto)]

#[cfg(test)]
mod tests;
