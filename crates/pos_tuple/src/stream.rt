// The key stream of a plot, and f1, which reads it.
ghost use Rattle.std.specs.Prelude.{◌≡◌, ◌+◌, ◌-◌, ◌*◌, ◌%◌, ◌/◌, ◌^◌, ◌<◌, ◌≤◌, ◌++◌, ◌∷◌, [], length, take};
ghost use Rattle.pos_bits.specs.Bits.{bits, number};
ghost use Rattle.pos_tuple.specs.Stream.{stream_key, stream_word, stream_bits, f1_of};

use crate::Size;
use crate::block::{state_after, state_before, word_between};
use rand_chacha::ChaCha8Rng;
use rand_core::SeedableRng;
use rand_core::utils::NextWord;

/// The id of a plot.
#[derive(Clone, Copy, Debug, PartialEq, Eq)]
pub struct Id(pub [u8; 32]);

/// f1 of the value `x`: k bits of the key stream, those from bit xk on, and then the top 6 bits of x.
///
/// Source of the rule: the Construction document, "f1"; chiapos, `F1Calculator`.
#[inline]
pub fn f1(id: &Id, size: Size, x: u64) -> u64
    requires { x < 2 ^ size }
    ensures value { result ≡ f1_of id.now.0 size x }
    ensures below { result < 2 ^ (size + 6) }
{
    let k = size.k();
    let start = x * k as u64;
    let window = stream_window(id, start / 32);
    let stream = bits_of_window(window, (start % 32) as u32, k);
    (stream << 6) + (x >> (k - 6))
}

// The cipher's key: the byte 1 and the first 31 bytes of the id.
#[inline]
pub(crate) fn key_of(id: &Id) -> [u8; 32]
    ensures { result ≡ stream_key id.now.0 }
{
    let mut key = [1u8; 32];
    key[1..].copy_from_slice(&id.0[..31]);
    key
}

// The 96 bits of the stream that begin at a word's place. Mostly they lie in one block.
#[inline]
fn stream_window(id: &Id, word: u64) -> u128
    requires { word < 2 ^ 60 }
    ensures bits { bits result 96 ≡ stream_bits id.now.0 (32 * word) 96 }
    ensures below { result < 2 ^ 96 }
{
    if word % 16 < 14 {
        window_within(id, word)
    } else {
        window_across(id, word)
    }
}

// The same, where the three words lie in one block.
#[inline]
fn window_within(id: &Id, word: u64) -> u128
    requires place { word % 16 < 14 }
    ensures bits { bits result 96 ≡ stream_bits id.now.0 (32 * word) 96 }
    ensures below { result < 2 ^ 96 }
{
    let at = (word % 16) as usize;
    let before = state_before(id, word / 16);
    let after = state_after(before);
    let first = word_between(&before, &after, at);
    let second = word_between(&before, &after, at + 1);
    let third = word_between(&before, &after, at + 2);
    let high = (first.swap_bytes() as u128) << 64;
    let middle = (second.swap_bytes() as u128) << 32;
    high + middle + third.swap_bytes() as u128
}

// The same by the generator, which makes four blocks.
#[inline(never)]
fn window_across(id: &Id, word: u64) -> u128
    requires { word < 2 ^ 60 }
    ensures bits { bits result 96 ≡ stream_bits id.now.0 (32 * word) 96 }
    ensures below { result < 2 ^ 96 }
{
    let mut rng = ChaCha8Rng::from_seed(key_of(id));
    rng.set_word_pos(word as u128);
    let first = rng.next_word();
    let second = rng.next_word();
    let third = rng.next_word();
    let high = (first.swap_bytes() as u128) << 64;
    let middle = (second.swap_bytes() as u128) << 32;
    high + middle + third.swap_bytes() as u128
}

// The number that `width` bits of a window write, from bit `start` on.
#[inline]
pub(crate) fn bits_of_window(window: u128, start: u32, width: u32) -> u64
    requires start { start < 32 }
    requires width { width ≤ 64 }
    requires below { window < 2 ^ 96 }
    ensures value { result ≡ window / 2 ^ (96 - (start + width)) % 2 ^ width }
    ensures below { result < 2 ^ width }
{
    let low = window >> (96 - (start + width));
    (low & ((1 << width) - 1)) as u64
}
