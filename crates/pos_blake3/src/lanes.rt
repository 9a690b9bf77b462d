// Four hashes side by side: each word of the state is a vector with a lane for each block. Without wide registers two times
// four lanes are faster than eight at once, which do not all fit.
ghost use Rattle.std.specs.Prelude.{◌≡◌, ℕ, ◌+◌, ◌-◌, ◌<◌, ◌≤◌, ◌∷◌, [], slice_index, take, drop, replicate, bit_xor};
ghost use Rattle.pos_blake3.specs.Blake3.{add32, xor_rotate, mix_words, mix, round, permuted, rounds, initial_state, word_from, message_words, halves_joined, word_bytes, blake3_block};
ghost use Rattle.pos_blake3.specs.Lanes.{lane};

use crate::{BLOCK_BYTES, INITIAL, ONLY_BLOCK, bytes_of, word_at};
use std::simd::u32x4;

// The hashes of the first `len` bytes of four blocks, behind which stand zeros.
#[inline(always)]
pub fn hash4(
    a: &[u8; BLOCK_BYTES],
    b: &[u8; BLOCK_BYTES],
    c: &[u8; BLOCK_BYTES],
    d: &[u8; BLOCK_BYTES],
    len: u32,
) -> [[u8; 32]; 4]
    requires short { len ≤ 64 }
    requires zeros_a { drop len a.now ≡ replicate (64 - len) 0 }
    requires zeros_b { drop len b.now ≡ replicate (64 - len) 0 }
    requires zeros_c { drop len c.now ≡ replicate (64 - len) 0 }
    requires zeros_d { drop len d.now ≡ replicate (64 - len) 0 }
    ensures { result ≡ blake3_block (take len a.now) ∷ blake3_block (take len b.now)
        ∷ blake3_block (take len c.now) ∷ blake3_block (take len d.now) ∷ [] }
{
    let message = messages_of(a, b, c, d);
    let state = compress4(starts_of(len), message);
    let words = halves_of4(&state);
    [
        bytes_of(words_in_lane(&words, 0)),
        bytes_of(words_in_lane(&words, 1)),
        bytes_of(words_in_lane(&words, 2)),
        bytes_of(words_in_lane(&words, 3)),
    ]
}

#[inline(always)]
fn add4(a: u32x4, b: u32x4) -> u32x4
    ensures { (j : ℕ) → j < 4 → slice_index result j ≡ add32 (slice_index a j) (slice_index b j) }
{
    a + b
}

#[inline(always)]
fn xor4(a: u32x4, b: u32x4) -> u32x4
    ensures { (j : ℕ) → j < 4 → slice_index result j ≡ bit_xor (slice_index a j) (slice_index b j) }
{
    a ^ b
}

#[inline(always)]
fn xor_rotate4(a: u32x4, b: u32x4, n: u32) -> u32x4
    requires some { 0 < n }
    requires few { n < 32 }
    ensures { (j : ℕ) → j < 4 → slice_index result j ≡ xor_rotate (slice_index a j) (slice_index b j) n }
{
    let x = a ^ b;
    (x >> u32x4::splat(n)) | (x << u32x4::splat(32 - n))
}

// The mixing function on four words of each block's state.
#[inline(always)]
fn mix_four4(
    a: u32x4,
    b: u32x4,
    c: u32x4,
    d: u32x4,
    p: u32x4,
    q: u32x4,
) -> (u32x4, u32x4, u32x4, u32x4)
    ensures { (j : ℕ) → j < 4
        → (slice_index result.0 j, slice_index result.1 j, slice_index result.2 j, slice_index result.3 j)
        ≡ mix_words (slice_index a j) (slice_index b j) (slice_index c j) (slice_index d j) (slice_index p j) (slice_index q j) }
{
    let ab = add4(a, b);
    let a1 = add4(ab, p);
    let d1 = xor_rotate4(d, a1, 16);
    let c1 = add4(c, d1);
    let b1 = xor_rotate4(b, c1, 12);
    let ab1 = add4(a1, b1);
    let a2 = add4(ab1, q);
    let d2 = xor_rotate4(d1, a2, 8);
    let c2 = add4(c1, d2);
    let b2 = xor_rotate4(b1, c2, 7);
    (a2, b2, c2, d2)
}

// The mixing function on four words, by their places.
#[inline(always)]
fn mix_at4(v: &mut [u32x4; 16], a: usize, b: usize, c: usize, d: usize, p: u32x4, q: u32x4)
    requires a_inside { a < 16 }
    requires b_inside { b < 16 }
    requires c_inside { c < 16 }
    requires d_inside { d < 16 }
    ensures { (j : ℕ) → j < 4
        → lane j v.new ≡ mix (lane j v.old) a b c d (slice_index p j) (slice_index q j) }
{
    let mixed = mix_four4(v[a], v[b], v[c], v[d], p, q);
    v[a] = mixed.0;
    v[b] = mixed.1;
    v[c] = mixed.2;
    v[d] = mixed.3;
}

// One round: the columns, then the diagonals.
#[inline(always)]
fn apply_round4(v: &mut [u32x4; 16], m: &[u32x4; 16])
    ensures { (j : ℕ) → j < 4 → lane j v.new ≡ round (lane j v.old) (lane j m.now) }
{
    mix_at4(v, 0, 4, 8, 12, m[0], m[1]);
    mix_at4(v, 1, 5, 9, 13, m[2], m[3]);
    mix_at4(v, 2, 6, 10, 14, m[4], m[5]);
    mix_at4(v, 3, 7, 11, 15, m[6], m[7]);
    mix_at4(v, 0, 5, 10, 15, m[8], m[9]);
    mix_at4(v, 1, 6, 11, 12, m[10], m[11]);
    mix_at4(v, 2, 7, 8, 13, m[12], m[13]);
    mix_at4(v, 3, 4, 9, 14, m[14], m[15]);
}

// The messages of the next round.
#[inline(always)]
fn permute4(m: &[u32x4; 16]) -> [u32x4; 16]
    ensures { (j : ℕ) → j < 4 → lane j result ≡ permuted (lane j m.now) }
{
    [
        m[2], m[6], m[3], m[10], m[7], m[0], m[4], m[13], m[1], m[11], m[12], m[5], m[9], m[14],
        m[15], m[8],
    ]
}

// The seven rounds.
#[inline(always)]
fn compress4(state: [u32x4; 16], message: [u32x4; 16]) -> [u32x4; 16]
    ensures { (j : ℕ) → j < 4 → lane j result ≡ rounds 7 (lane j state) (lane j message) }
{
    let mut v = state;
    let m0 = message;
    apply_round4(&mut v, &m0);
    let m1 = permute4(&m0);
    apply_round4(&mut v, &m1);
    let m2 = permute4(&m1);
    apply_round4(&mut v, &m2);
    let m3 = permute4(&m2);
    apply_round4(&mut v, &m3);
    let m4 = permute4(&m3);
    apply_round4(&mut v, &m4);
    let m5 = permute4(&m4);
    apply_round4(&mut v, &m5);
    let m6 = permute4(&m5);
    apply_round4(&mut v, &m6);
    v
}

// The states that the rounds begin with, for messages of so many bytes.
#[inline(always)]
fn starts_of(len: u32) -> [u32x4; 16]
    ensures { (j : ℕ) → j < 4 → lane j result ≡ initial_state len }
{
    [
        u32x4::splat(INITIAL[0]),
        u32x4::splat(INITIAL[1]),
        u32x4::splat(INITIAL[2]),
        u32x4::splat(INITIAL[3]),
        u32x4::splat(INITIAL[4]),
        u32x4::splat(INITIAL[5]),
        u32x4::splat(INITIAL[6]),
        u32x4::splat(INITIAL[7]),
        u32x4::splat(INITIAL[0]),
        u32x4::splat(INITIAL[1]),
        u32x4::splat(INITIAL[2]),
        u32x4::splat(INITIAL[3]),
        u32x4::splat(0),
        u32x4::splat(0),
        u32x4::splat(len),
        u32x4::splat(ONLY_BLOCK),
    ]
}

// The words of four blocks, side by side.
#[inline(always)]
fn messages_of(
    a: &[u8; BLOCK_BYTES],
    b: &[u8; BLOCK_BYTES],
    c: &[u8; BLOCK_BYTES],
    d: &[u8; BLOCK_BYTES],
) -> [u32x4; 16]
    ensures lane_a { lane 0 result ≡ message_words a.now }
    ensures lane_b { lane 1 result ≡ message_words b.now }
    ensures lane_c { lane 2 result ≡ message_words c.now }
    ensures lane_d { lane 3 result ≡ message_words d.now }
{
    [
        words_at(a, b, c, d, 0),
        words_at(a, b, c, d, 4),
        words_at(a, b, c, d, 8),
        words_at(a, b, c, d, 12),
        words_at(a, b, c, d, 16),
        words_at(a, b, c, d, 20),
        words_at(a, b, c, d, 24),
        words_at(a, b, c, d, 28),
        words_at(a, b, c, d, 32),
        words_at(a, b, c, d, 36),
        words_at(a, b, c, d, 40),
        words_at(a, b, c, d, 44),
        words_at(a, b, c, d, 48),
        words_at(a, b, c, d, 52),
        words_at(a, b, c, d, 56),
        words_at(a, b, c, d, 60),
    ]
}

// The word at one place of each block.
#[inline(always)]
fn words_at(
    a: &[u8; BLOCK_BYTES],
    b: &[u8; BLOCK_BYTES],
    c: &[u8; BLOCK_BYTES],
    d: &[u8; BLOCK_BYTES],
    i: usize,
) -> u32x4
    requires { i + 3 < 64 }
    ensures { result ≡ word_from a.now i ∷ word_from b.now i ∷ word_from c.now i ∷ word_from d.now i ∷ [] }
{
    u32x4::from_array([word_at(a, i), word_at(b, i), word_at(c, i), word_at(d, i)])
}

// The outputs' words: the two halves of each state joined.
#[inline(always)]
fn halves_of4(v: &[u32x4; 16]) -> [u32x4; 8]
    ensures { (j : ℕ) → j < 4 → lane j result ≡ halves_joined (lane j v.now) }
{
    [
        xor4(v[0], v[8]),
        xor4(v[1], v[9]),
        xor4(v[2], v[10]),
        xor4(v[3], v[11]),
        xor4(v[4], v[12]),
        xor4(v[5], v[13]),
        xor4(v[6], v[14]),
        xor4(v[7], v[15]),
    ]
}

// The words of one block.
#[inline(always)]
fn words_in_lane(h: &[u32x4; 8], j: usize) -> [u32; 8]
    requires { j < 4 }
    ensures { result ≡ lane j h.now }
{
    [
        h[0].to_array()[j],
        h[1].to_array()[j],
        h[2].to_array()[j],
        h[3].to_array()[j],
        h[4].to_array()[j],
        h[5].to_array()[j],
        h[6].to_array()[j],
        h[7].to_array()[j],
    ]
}
