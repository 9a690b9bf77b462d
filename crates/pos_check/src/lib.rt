//! A farmer's test of a plot: for challenges that follow from the plot's id alone, all of its proofs are made and counted,
//! and one digest of their qualities stands for all of them. Two plots of one id, and two runs over one plot, show the same.
//!
//! The challenges and the digest are this project's own.
#![tactic(auto)]

mod challenges;
mod checking;
mod laws;
mod place;
mod summary;
mod surveying;

pub use challenges::{MOST_CHALLENGES, check_challenge, survey_id};
pub use checking::check;
pub use laws::{a_plots_summary_is_of_its_proofs, a_whole_files_summary_is_one};
pub use summary::Summary;
pub use surveying::{SurveyFault, survey};
