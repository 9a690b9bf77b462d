//! Counts of marks, so that a rank looks at few bytes.
ghost use Rattle.std.specs.Prelude.{◌≡◌, ◌+◌, ◌*◌, ◌/◌, ◌%◌, ◌^◌, ◌<◌, IfErr, IfOk, length};
ghost use Rattle.pos_lists.specs.Rank.{rank};
ghost use Rattle.pos_marks.specs.Bits.{AreRankCounts, has_bit};

use crate::ones::{ones_before, ones_in};
use crate::pages::{PAGE_BYTES, PAGE_PLACES};
use pos_edge::WorkFault;
use std::alloc::Global;

/// How many bytes hold the marks between two counts: 64 words of 64 bits.
const BLOCK_BYTES: usize = 512;

/// How many places lie between two counts.
pub(crate) const BLOCK_PLACES: u64 = 4096;

/// How many bits are set before each multiple of `BLOCK_BYTES` bytes.
pub(crate) fn counts_of(alloc: Global, bytes: &[u8]) -> Result<Vec<u64>, WorkFault>
    requires { length bytes.now < 2 ^ 60 }
    ensures ok { IfOk result (λ counts. AreRankCounts bytes.now counts.items) }
    ensures fault { IfErr result (λ fault. fault ≡ WorkFault.Memory) }
{
    let mut ones = 0u64;
    let mut counts = Vec::new(alloc);
    counts.push(0).map_err(|_| WorkFault::Memory)?;
    for block in 0..bytes.len() / BLOCK_BYTES {
        let start = block * BLOCK_BYTES;
        ones += ones_in(&bytes[start..start + BLOCK_BYTES]);
        counts.push(ones).map_err(|_| WorkFault::Memory)?;
    }
    Ok(counts)
}

/// How many bits of its block are set before bit `at` of a page.
pub(crate) fn ones_in_block(page: &[u8], at: u64) -> u64
    requires whole { length page.now ≡ PAGE_BYTES }
    requires inside { at < PAGE_PLACES }
    ensures { result ≡ rank (λ j. has_bit page.now (4096 * (at / 4096) + j)) (at % 4096) }
{
    let start = (at / BLOCK_PLACES) as usize * BLOCK_BYTES;
    ones_before(&page[start..start + BLOCK_BYTES], at % BLOCK_PLACES)
}
