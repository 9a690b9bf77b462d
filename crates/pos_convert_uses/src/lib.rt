//! Uses of a conversion: of small files of both layouts, of files with damages, and of disks that fail.
//! Source: this project's own.
#![tactic(auto)]

#[cfg(test)]
mod conversions;
#[cfg(test)]
mod files;
