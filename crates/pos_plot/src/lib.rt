//! The whole plotting run: from an id, a plan and two names to the plot file of the id.
//!
//! The plot file is created and begun first, with its gate closed. Then the seven tables are made on scratch files, the
//! used places of them marked, and the seven lists of the file written. All scratch files are removed before the file is
//! finished, and its gate is opened last of all. So whatever stops a run, no image of the file opens but the finished
//! one, and two runs for one id, size, layout and memo leave equal bytes. `start`, `fill_from` and `close` are the parts of a run
//! that do not make tables, for a run that has them already.
//! Source: the Construction document, "plotting"; the order of the work is this project's own.
#![tactic(auto)]

mod closing;
mod fault;
mod filling;
pub mod laws;
mod run;
mod sizes;
mod starting;

pub use closing::close;
pub use fault::{Name, PlotFault};
pub use filling::fill_from;
pub use run::{Counts, SCRATCH_FILES, plot};
pub use sizes::plot_sized;
pub use starting::start;
