//! From an open plot file and a challenge to every proof and every quality: the places of table 7 that answer the challenge
//! are a span, a place unfolds to 64 values, which in one order of halves are a proof, and one branch of it gives the
//! quality.
//!
//! Over a file whose bytes are anything no answer is a false proof, the first damage on the way is named, and each call
//! makes a bounded number of reads. Sources of the rules: the Proof of Space Construction document, version 1.1, and
//! chiapos; the order of reading is this project's own.
#![tactic(auto)]

mod branch;
mod laws;
mod listing;
mod numbers;
mod place;
mod places;
mod refusal;
mod span;
mod tuple;

pub use branch::quality_of_place;
pub use laws::{
    a_plots_proofs_are_listed, a_plots_span_is_shown, a_whole_files_places_are_shown,
    damages_are_of_the_file, damages_have_their_causes,
};
pub use listing::{list_proofs, list_qualities};
pub use numbers::Numbers;
pub use place::{proof_at, quality_at, values_at};
pub use places::{proofs_of_places, qualities_of_places};
pub use refusal::ListRefusal;
pub use span::find;
pub use tuple::{is_turned, proof_of_place, values_of_place};
