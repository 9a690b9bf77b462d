//! Many plots asked for one challenge: each plot of a list of files answers with the proofs that it has and the best of them,
//! and the best of all is found.
//!
//! Of two offers the one of the lesser quality comes first; of equal qualities that of the earlier plot in the list, and then of
//! the earlier place. A plot that is absent, damaged or fails does not end the work on the others. The list, the order and the
//! answers are this project's own; the qualities are those of the Construction document.
#![tactic(auto)]

mod asking;
mod farming;
mod laws;
mod list;
mod offer;

pub use asking::ask;
pub use farming::{best, farm};
pub use laws::{answers_are_of_their_plots, bytes_list_names_or_have_a_bad_line};
pub use list::{LONGEST_NAME, ListFault, MOST_NAMES, read_list};
pub use offer::{Answer, Offer};
