//! The order of tuples, plot order, the order of a proof, the values of a proof's bytes and the bytes of its values, and
//! the quality of a proof.
//!
//! Source of the rules: the Proof of Space Construction document, version 1.1, and chiapos.
#![tactic(auto)]

mod laws;
mod order;
mod quality_string;
mod turned;
mod values;

pub use laws::{
    one_turning, plot_order_is_exact, turnings_have_one_plot_order, turnings_have_one_quality,
};
pub use order::{below, to_plot_order};
pub use quality_string::{pair_quality, quality};
pub use turned::{entry_in_proof_order, to_proof_order};
pub use values::{proof_bytes, proof_values};

#[cfg(test)]
mod tests;
