//! Of the tables of a run only the places go into the file that an entry of the last table reaches. `prune` finds them, from the
//! last table down: each pair of table 7 marks its two places in table 6, and each pair of a lower table that stands at a
//! marked place marks its two places in the table below. Each list is read once, in order.
//!
//! Over a disk that tells what its files hold, the marked places of tables 2 to 6 are exactly the used ones (`KeptStand`). Over
//! any other, a pair that points outside of the table below is named, and nothing outside of the marks is set.
//! Source: the Construction document, "back propagation".
#![tactic(auto)]

mod damage;
mod kept;
mod levels;
mod pairs;
mod pruning;

pub use kept::Kept;
pub use pruning::prune;
