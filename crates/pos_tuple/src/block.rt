// One block of the key stream, for a few words of it: the generator makes four at a time.
//
// Source of the rule: RFC 8439, 2.1 to 2.3, with 8 rounds and a counter of 64 bits.
ghost use Rattle.std.specs.Prelude.{◌≡◌, ◌<◌, slice_index};
ghost use Rattle.rand_chacha.specs.Block.{add32, xor_rotate, quarter_round, column_round, diagonal_round, double_rounds, initial_state};
ghost use Rattle.rand_chacha.specs.ChaCha.{key_of};
ghost use Rattle.pos_tuple.specs.Stream.{stream_key};

use crate::Id;
use crate::stream::key_of;
use rand_core::utils::read_u32;

// The state that the rounds of this block of the id's stream begin with.
#[inline(always)]
pub(crate) fn state_before(id: &Id, block: u64) -> [u32; 16]
    ensures { result ≡ initial_state (key_of (stream_key id.now.0)) block 0 }
{
    let key = key_of(id);
    [
        0x6170_7865,
        0x3320_646e,
        0x7962_2d32,
        0x6b20_6574,
        read_u32(&key, 0),
        read_u32(&key, 1),
        read_u32(&key, 2),
        read_u32(&key, 3),
        read_u32(&key, 4),
        read_u32(&key, 5),
        read_u32(&key, 6),
        read_u32(&key, 7),
        (block & 0xffff_ffff) as u32,
        (block >> 32) as u32,
        0,
        0,
    ]
}

// The state that eight rounds make of it.
#[tactic(auto, unfolding(rand_chacha::specs::Block::double_rounds))]
#[inline(always)]
pub(crate) fn state_after(before: [u32; 16]) -> [u32; 16]
    ensures { result ≡ double_rounds 4 before }
{
    let one = diagonal_round(column_round(before));
    let two = diagonal_round(column_round(one));
    let three = diagonal_round(column_round(two));
    diagonal_round(column_round(three))
}

// A word of the block between these states.
#[inline(always)]
pub(crate) fn word_between(before: &[u32; 16], after: &[u32; 16], at: usize) -> u32
    requires { at < 16 }
    ensures { result ≡ add32 (slice_index after.now at) (slice_index before.now at) }
{
    after[at].wrapping_add(before[at])
}

#[tactic(auto, unfolding(rand_chacha::specs::Block::column_round))]
#[inline(always)]
fn column_round(x: [u32; 16]) -> [u32; 16]
    ensures { result ≡ column_round x }
{
    let (x0, x4, x8, x12) = quarter_round(x[0], x[4], x[8], x[12]);
    let (x1, x5, x9, x13) = quarter_round(x[1], x[5], x[9], x[13]);
    let (x2, x6, x10, x14) = quarter_round(x[2], x[6], x[10], x[14]);
    let (x3, x7, x11, x15) = quarter_round(x[3], x[7], x[11], x[15]);
    [
        x0, x1, x2, x3, x4, x5, x6, x7, x8, x9, x10, x11, x12, x13, x14, x15,
    ]
}

#[tactic(auto, unfolding(rand_chacha::specs::Block::diagonal_round))]
#[inline(always)]
fn diagonal_round(x: [u32; 16]) -> [u32; 16]
    ensures { result ≡ diagonal_round x }
{
    let (x0, x5, x10, x15) = quarter_round(x[0], x[5], x[10], x[15]);
    let (x1, x6, x11, x12) = quarter_round(x[1], x[6], x[11], x[12]);
    let (x2, x7, x8, x13) = quarter_round(x[2], x[7], x[8], x[13]);
    let (x3, x4, x9, x14) = quarter_round(x[3], x[4], x[9], x[14]);
    [
        x0, x1, x2, x3, x4, x5, x6, x7, x8, x9, x10, x11, x12, x13, x14, x15,
    ]
}

#[tactic(auto, unfolding(rand_chacha::specs::Block::quarter_round))]
#[inline(always)]
fn quarter_round(a: u32, b: u32, c: u32, d: u32) -> (u32, u32, u32, u32)
    ensures { result ≡ quarter_round a b c d }
{
    let a1 = a.wrapping_add(b);
    let d1 = xor_rotate(d, a1, 16);
    let c1 = c.wrapping_add(d1);
    let b1 = xor_rotate(b, c1, 12);
    let a2 = a1.wrapping_add(b1);
    let d2 = xor_rotate(d1, a2, 8);
    let c2 = c1.wrapping_add(d2);
    let b2 = xor_rotate(b1, c2, 7);
    (a2, b2, c2, d2)
}

#[inline(always)]
fn xor_rotate(a: u32, b: u32, places: u32) -> u32
    ensures { result ≡ xor_rotate a b places }
{
    (a ^ b).rotate_left(places)
}
