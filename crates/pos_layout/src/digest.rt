//! The beginning of a park's SHA-256, as a directory has it.
ghost use Rattle.std.specs.Prelude.{◌≡◌, ◌≤◌, length, take};
ghost use Rattle.sha2.specs.Sha256.{sha256};
ghost use Rattle.pos_layout.specs.Layouts.{digest_of};

use crate::Layout;
use sha2::{Digest, Sha256};
use std::marker::Model;

// The most bytes that a layout keeps of a digest.
const MOST: usize = 16;

/// The first bytes of the SHA-256 of a park, as many as its layout keeps. Contracts see them as a list.
#[derive(Debug, Drop)]
pub struct ParkDigest {
    bytes: [u8; 16],
    count: usize,
}

impl Model for ParkDigest {
    ghost use Rattle.std.specs.Prelude.{◌≡◌, ◌≤◌, ℕ, List, length, take};

    ghost Value = { List ℕ };

    ghost view = { λ d. take d.count d.bytes };

    ghost invariant = { λ d. (d.count ≤ 16) × (length d.bytes ≡ 16) };
}

impl ParkDigest {
    /// The digest with these bytes.
    pub(crate) fn of(first: &[u8]) -> ParkDigest
        requires { length first.now ≤ MOST }
        ensures { result ≡ first.now }
    {
        let mut bytes = [0; 16];
        let count = first.len();
        bytes[..count].copy_from_slice(first);
        ParkDigest { bytes, count }
    }

    /// Its bytes.
    pub fn bytes(&self) -> &[u8]
        ensures value { result.now ≡ self.now }
        ensures few { length result.now ≤ MOST }
    {
        &self.bytes[..self.count]
    }
}

/// The first bytes of the SHA-256 of a park, as a directory of this layout has them.
pub fn park_digest(layout: Layout, park: &[u8]) -> ParkDigest
    ensures { result ≡ take (digest_of layout) (sha256 park.now) }
{
    let mut hasher = Sha256::new();
    hasher.update(park);
    let whole = hasher.finalize();
    ParkDigest::of(&whole[..layout.digest_bytes()])
}
