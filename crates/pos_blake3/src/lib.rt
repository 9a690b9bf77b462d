//! BLAKE3 of one block, the hash behind f2 to f7. Source of the rule: the BLAKE3 paper, 2.2 to 2.4.
#![tactic(auto)]

mod lanes;

ghost use Rattle.std.specs.Prelude.{◌≡◌, ℕ, [], ◌+◌, ◌-◌, ◌<◌, ◌≤◌, ◌++◌, drop, length, replicate, slice_index_or, take};
ghost use Rattle.pos_blake3.specs.Blake3.{mix_words, mix, round, permuted, rounds, initial_state, word_from, message_words, halves_joined, word_bytes, blake3_block};

use lanes::hash4;

/// The most bytes that one block holds.
pub const BLOCK_BYTES: usize = 64;

// The words that every hash begins with.
const INITIAL: [u32; 8] = [
    0x6a09e667, 0xbb67ae85, 0x3c6ef372, 0xa54ff53a, 0x510e527f, 0x9b05688c, 0x1f83d9ab, 0x5be0cd19,
];

// The flags of a block that is the start of a chunk, its end and the root.
const ONLY_BLOCK: u32 = 11;

/// The BLAKE3 hash of a message of at most 64 bytes. Takes no memory.
#[tactic(auto, unfolding(crate::specs::Blake3::blake3_block))]
pub fn hash_block(bytes: &[u8]) -> [u8; 32]
    requires { length bytes.now ≤ 64 }
    ensures hash { result ≡ blake3_block bytes.now }
    ensures len { length result ≡ 32 }
{
    let message = message_of(bytes);
    let state = compress(start_of(bytes.len() as u32), message);
    bytes_of(halves_of(&state))
}

/// The BLAKE3 hashes of the first `len` bytes of eight blocks, behind which stand zeros, as `hash_block` gives each.
/// Takes no memory.
pub fn hash8(blocks: &[[u8; 64]; 8], len: u32) -> [[u8; 32]; 8]
    requires short { len ≤ 64 }
    requires zeros { (j : ℕ) → j < 8 → drop len (slice_index_or blocks.now j []) ≡ replicate (64 - len) 0 }
    ensures hashes { (j : ℕ) → j < 8 → slice_index_or result j [] ≡ blake3_block (take len (slice_index_or blocks.now j [])) }
    ensures count { length result ≡ 8 }
{
    let [a, b, c, d] = hash4(&blocks[0], &blocks[1], &blocks[2], &blocks[3], len);
    let [e, f, g, h] = hash4(&blocks[4], &blocks[5], &blocks[6], &blocks[7], len);
    [a, b, c, d, e, f, g, h]
}

// The state that the rounds begin with, for a message of so many bytes.
#[tactic(auto, unfolding(crate::specs::Blake3::initial_state, crate::specs::Blake3::initial_words))]
#[inline(always)]
fn start_of(len: u32) -> [u32; 16]
    ensures { result ≡ initial_state len }
{
    [
        INITIAL[0], INITIAL[1], INITIAL[2], INITIAL[3], INITIAL[4], INITIAL[5], INITIAL[6],
        INITIAL[7], INITIAL[0], INITIAL[1], INITIAL[2], INITIAL[3], 0, 0, len, ONLY_BLOCK,
    ]
}

// The sixteen words of a message, with zeros behind its end.
#[tactic(auto, using(crate::proofs::BlakeLemmas::words_of_padded))]
#[inline(always)]
fn message_of(bytes: &[u8]) -> [u32; 16]
    requires { length bytes.now ≤ 64 }
    ensures { result ≡ message_words bytes.now }
{
    words_of(&padded(bytes))
}

// A message with zeros behind it.
#[inline(always)]
fn padded(bytes: &[u8]) -> [u8; BLOCK_BYTES]
    requires { length bytes.now ≤ 64 }
    ensures { result ≡ bytes.now ++ replicate (64 - length bytes.now) 0 }
{
    let mut block = [0u8; BLOCK_BYTES];
    block[..bytes.len()].copy_from_slice(bytes);
    block
}

#[tactic(auto, unfolding(crate::specs::Blake3::message_words))]
#[inline(always)]
fn words_of(block: &[u8; BLOCK_BYTES]) -> [u32; 16]
    ensures { result ≡ message_words block.now }
{
    [
        word_at(block, 0),
        word_at(block, 4),
        word_at(block, 8),
        word_at(block, 12),
        word_at(block, 16),
        word_at(block, 20),
        word_at(block, 24),
        word_at(block, 28),
        word_at(block, 32),
        word_at(block, 36),
        word_at(block, 40),
        word_at(block, 44),
        word_at(block, 48),
        word_at(block, 52),
        word_at(block, 56),
        word_at(block, 60),
    ]
}

// The word of the four bytes from a place on, least significant first.
#[inline(always)]
fn word_at(block: &[u8; BLOCK_BYTES], i: usize) -> u32
    requires { i + 3 < 64 }
    ensures { result ≡ word_from block.now i }
{
    u32::from_le_bytes([block[i], block[i + 1], block[i + 2], block[i + 3]])
}

// The seven rounds.
#[tactic(auto, unfolding(crate::specs::Blake3::rounds))]
#[inline(always)]
fn compress(state: [u32; 16], message: [u32; 16]) -> [u32; 16]
    ensures { result ≡ rounds 7 state message }
{
    let mut v = state;
    let m0 = message;
    apply_round(&mut v, &m0);
    let m1 = permute(&m0);
    apply_round(&mut v, &m1);
    let m2 = permute(&m1);
    apply_round(&mut v, &m2);
    let m3 = permute(&m2);
    apply_round(&mut v, &m3);
    let m4 = permute(&m3);
    apply_round(&mut v, &m4);
    let m5 = permute(&m4);
    apply_round(&mut v, &m5);
    let m6 = permute(&m5);
    apply_round(&mut v, &m6);
    v
}

// One round: the columns, then the diagonals.
#[tactic(auto, unfolding(crate::specs::Blake3::round))]
#[inline(always)]
fn apply_round(v: &mut [u32; 16], m: &[u32; 16])
    ensures { v.new ≡ round v.old m.now }
{
    mix_at(v, 0, 4, 8, 12, m[0], m[1]);
    mix_at(v, 1, 5, 9, 13, m[2], m[3]);
    mix_at(v, 2, 6, 10, 14, m[4], m[5]);
    mix_at(v, 3, 7, 11, 15, m[6], m[7]);
    mix_at(v, 0, 5, 10, 15, m[8], m[9]);
    mix_at(v, 1, 6, 11, 12, m[10], m[11]);
    mix_at(v, 2, 7, 8, 13, m[12], m[13]);
    mix_at(v, 3, 4, 9, 14, m[14], m[15]);
}

// The mixing function on four words of the state.
#[tactic(auto, unfolding(crate::specs::Blake3::mix))]
#[inline(always)]
fn mix_at(v: &mut [u32; 16], a: usize, b: usize, c: usize, d: usize, p: u32, q: u32)
    requires a_inside { a < 16 }
    requires b_inside { b < 16 }
    requires c_inside { c < 16 }
    requires d_inside { d < 16 }
    ensures { v.new ≡ mix v.old a b c d p q }
{
    let mixed = mix_four(v[a], v[b], v[c], v[d], p, q);
    v[a] = mixed.0;
    v[b] = mixed.1;
    v[c] = mixed.2;
    v[d] = mixed.3;
}

#[tactic(auto, unfolding(crate::specs::Blake3::mix_words))]
#[inline(always)]
fn mix_four(a: u32, b: u32, c: u32, d: u32, p: u32, q: u32) -> (u32, u32, u32, u32)
    ensures { result ≡ mix_words a b c d p q }
{
    let a = a.wrapping_add(b).wrapping_add(p);
    let d = (d ^ a).rotate_right(16);
    let c = c.wrapping_add(d);
    let b = (b ^ c).rotate_right(12);
    let a = a.wrapping_add(b).wrapping_add(q);
    let d = (d ^ a).rotate_right(8);
    let c = c.wrapping_add(d);
    let b = (b ^ c).rotate_right(7);
    (a, b, c, d)
}

// The message of the next round.
#[tactic(auto, unfolding(crate::specs::Blake3::permuted, crate::specs::Blake3::permutation))]
#[inline(always)]
fn permute(m: &[u32; 16]) -> [u32; 16]
    ensures { result ≡ permuted m.now }
{
    [
        m[2], m[6], m[3], m[10], m[7], m[0], m[4], m[13], m[1], m[11], m[12], m[5], m[9], m[14],
        m[15], m[8],
    ]
}

// The output's words: the two halves of the state joined.
#[tactic(auto, unfolding(crate::specs::Blake3::halves_joined))]
#[inline(always)]
fn halves_of(v: &[u32; 16]) -> [u32; 8]
    ensures { result ≡ halves_joined v.now }
{
    [
        v[0] ^ v[8],
        v[1] ^ v[9],
        v[2] ^ v[10],
        v[3] ^ v[11],
        v[4] ^ v[12],
        v[5] ^ v[13],
        v[6] ^ v[14],
        v[7] ^ v[15],
    ]
}

// The bytes of the words, each least significant byte first.
#[tactic(auto, unfolding(crate::specs::Blake3::word_bytes))]
#[inline(always)]
fn bytes_of(words: [u32; 8]) -> [u8; 32]
    ensures { result ≡ word_bytes words }
{
    let mut out = [0u8; 32];
    for (i, word) in words.iter().enumerate() {
        out[4 * i..4 * i + 4].copy_from_slice(&word.to_le_bytes());
    }
    out
}

#[cfg(test)]
mod tests;
