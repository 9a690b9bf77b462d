//! What a check of a plot found.

/// What a check of a plot found: how many challenges it was asked for, how many proofs it has for them in all, and SHA-256 of
/// the qualities of these proofs, one after another, by challenge and then by place in table 7.
#[derive(Clone, Copy, Debug, PartialEq, Eq)]
pub struct Summary {
    pub challenges: u32,
    pub proofs: u128,
    pub digest: [u8; 32],
}
