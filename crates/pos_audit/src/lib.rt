//! The audit of a plot file: its plot is made again from its id and size, in its layout and with its memo, under another name,
//! and the two files are compared byte by byte.
//!
//! It answers that they are the same, which is so exactly where the file is the whole plot of its id, or the first place at
//! which they differ. The very file that was opened is compared, page by page, and the second file is removed. No name that
//! was there before changes, whatever is answered.
//! Source: the comparison is this project's own.
#![tactic(auto)]

mod auditing;
mod comparing;
mod difference;
mod fault;
mod found;
pub mod laws;

pub use auditing::audit;
pub use fault::{AuditFault, AuditName};
pub use found::Audited;
