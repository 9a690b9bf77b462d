// f1 of many values in rising order: the key stream is read once, word by word.
ghost use Rattle.std.specs.Prelude.{◌≡◌, ◌+◌, ◌*◌, ◌/◌, ◌^◌, ◌<◌, ℕ, List};
ghost use Rattle.pos_bits.specs.Bits.{bits};
ghost use Rattle.pos_tuple.specs.Stream.{ReadsFrom, AreWords, stream_bits, f1_of};

use crate::stream::{bits_of_window, key_of};
use crate::{Id, Size};
use rand_chacha::ChaCha8Rng;
use rand_core::SeedableRng;
use rand_core::utils::NextWord;
use std::marker::Model;

/// The key stream of a plot while it is read in order. Contracts see the plot's id.
#[derive(Drop)]
pub struct StreamWords {
    id: Id,
    window: Window,
}

impl Model for StreamWords {
    ghost use Rattle.std.specs.Prelude.{ℕ, List};
    ghost use Rattle.pos_tuple.specs.Stream.{AreWords};

    ghost Value = { List ℕ };

    ghost view = { λ s. s.id.0 };

    ghost invariant = { λ s. AreWords s.id.0 s.window };
}

// Three words of the stream that follow one another, from the one numbered `word` on, and a generator that gives the
// word behind them.
#[derive(Drop)]
struct Window {
    word: u64,
    first: u32,
    second: u32,
    third: u32,
    rng: ChaCha8Rng,
}

/// The key stream of the plot with this id, at its start.
pub fn stream_words(id: &Id) -> StreamWords
    ensures { result ≡ id.now.0 }
{
    let mut rng = ChaCha8Rng::from_seed(key_of(id));
    rng.set_word_pos(0);
    StreamWords {
        id: *id,
        window: window_at(rng, 0),
    }
}

/// f1 of the value `x`, as [`f1`](crate::f1) gives it.
///
/// Where each `x` is the one before plus 1, each word of the stream is made once. Any other `x` is right too, and slower.
#[inline]
pub fn f1_in_order(words: &mut StreamWords, size: Size, x: u64) -> u64
    requires { x < 2 ^ size }
    ensures value { result ≡ f1_of words.old size x }
    ensures below { result < 2 ^ (size + 6) }
    ensures same { words.new ≡ words.old }
{
    let k = size.k();
    let start = x * k as u64;
    move_to(&mut words.window, start / 32);
    let window = bits_of(&words.window);
    let stream = bits_of_window(window, (start % 32) as u32, k);
    (stream << 6) + (x >> (k - 6))
}

// The window from a word's place on; the generator stands at that place.
fn window_at(mut rng: ChaCha8Rng, word: u64) -> Window
    requires { word < 2 ^ 60 }
    ensures words { (id : List ℕ) → ReadsFrom id word rng → AreWords id result }
    ensures word { result.word ≡ word }
{
    let first = rng.next_word();
    let second = rng.next_word();
    let third = rng.next_word();
    Window {
        word,
        first,
        second,
        third,
        rng,
    }
}

// Moves the window to a word's place. A value of at most 50 bits begins at most two words behind the one before.
#[inline]
fn move_to(window: &mut Window, word: u64)
    requires { word < 2 ^ 60 }
    ensures words { (id : List ℕ) → AreWords id window.old → AreWords id window.new }
    ensures word { window.new.word ≡ word }
{
    if window.word < word {
        step(window);
    }
    if window.word < word {
        step(window);
    }
    if window.word != word {
        jump(window, word);
    }
}

// Moves the window by one word.
#[inline]
fn step(window: &mut Window)
    requires { window.old.word + 1 < 2 ^ 60 }
    ensures words { (id : List ℕ) → AreWords id window.old → AreWords id window.new }
    ensures word { window.new.word ≡ window.old.word + 1 }
{
    window.word += 1;
    window.first = window.second;
    window.second = window.third;
    window.third = window.rng.next_word();
}

// Moves the window to any place, by setting the generator anew.
#[inline(never)]
fn jump(window: &mut Window, word: u64)
    requires { word < 2 ^ 60 }
    ensures words { (id : List ℕ) → AreWords id window.old → AreWords id window.new }
    ensures word { window.new.word ≡ word }
{
    window.rng.set_word_pos(word as u128);
    window.word = word;
    window.first = window.rng.next_word();
    window.second = window.rng.next_word();
    window.third = window.rng.next_word();
}

// The 96 bits of the stream in a window.
#[inline]
fn bits_of(window: &Window) -> u128
    ensures bits { (id : List ℕ) → AreWords id window.now → bits result 96 ≡ stream_bits id (32 * window.now.word) 96 }
    ensures below { result < 2 ^ 96 }
{
    let high = (window.first.swap_bytes() as u128) << 64;
    let middle = (window.second.swap_bytes() as u128) << 32;
    high + middle + window.third.swap_bytes() as u128
}
