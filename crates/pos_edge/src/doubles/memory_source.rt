// A source in memory, which fails at takes that were named before.
ghost use Rattle.std.specs.Prelude.{◌≡◌, ◌≤◌, ◌<◌, ◌↔◌, [], ℕ, length, take, slice_get, min, max, Some, IsErr, IfOk, OnOk, OnErr};
ghost use Rattle.pos_edge.specs.Faults.{Rose, counted};
ghost use Rattle.pos_edge.specs.Sources.{Supply, IsTaken, IsDrained, FailsAtTake, fresh_source, most_into, next_count};

use crate::{Source, TakeFailed};
use std::marker::Model;

/// A source that gives the bytes that it was made with, and fails at takes that were named before.
/// Contracts see the bytes left, the numbers of bytes taken and of takes so far, its count of faults, and what it was
/// made with.
#[derive(Drop)]
pub struct MemorySource {
    bytes: Vec<u8>,
    at: usize,
    taken: u64,
    takes: u64,
    faults: u64,
    pieces: Vec<u32>,
    failing: Vec<u64>,
}

impl Model for MemorySource {
    ghost use Rattle.std.specs.Prelude.{◌≤◌, drop, vec_len};
    ghost use Rattle.pos_edge.specs.Sources.{SourceState};

    ghost Value = { SourceState };

    ghost view = { λ s. record { left = drop s.at s.bytes.items; taken = s.taken; takes = s.takes; faults = s.faults; pieces = s.pieces.items; failing = s.failing.items } };

    ghost invariant = { λ s. s.at ≤ vec_len s.bytes };
}

impl MemorySource {
    /// A source of these bytes. Takes are counted from 0: take i gives at most `pieces[i]` bytes, and at least one of
    /// those that are left; where there is no such piece, as many as fit. Those whose numbers stand in `failing` fail.
    pub fn new(bytes: Vec<u8>, pieces: Vec<u32>, failing: Vec<u64>) -> MemorySource
        ensures { result ≡ fresh_source bytes.items pieces.items failing.items }
    {
        MemorySource {
            bytes,
            at: 0,
            taken: 0,
            takes: 0,
            faults: 0,
            pieces,
            failing,
        }
    }
}

impl Source for MemorySource {
    ghost supply = { λ s. record { left = Some s.left; taken = s.taken; faults = s.faults } };

    fn take(&mut self, buf: &mut [u8]) -> Result<usize, TakeFailed>
        requires { 0 < length buf.old }
        ensures fits { IfOk result (λ n. n ≤ length buf.new) }
        ensures given { IfOk result (λ n. IsTaken (take n buf.new) (record { left = Some self.old.left; taken = self.old.taken; faults = self.old.faults }) (record { left = Some self.new.left; taken = self.new.taken; faults = self.new.faults })) }
        ensures ends { IfOk result (λ n. n ≡ 0 → IsDrained (Some self.old.left)) }
        ensures nothing { OnErr result (IsTaken [] (record { left = Some self.old.left; taken = self.old.taken; faults = self.old.faults }) (record { left = Some self.new.left; taken = self.new.taken; faults = self.new.faults })) }
        ensures never_falls { self.old.faults ≤ self.new.faults }
        ensures cause { OnErr result (Rose self.old.faults self.new.faults) }
        ensures quiet { OnOk result (self.new.faults ≡ self.old.faults) }
        // It fails exactly where this take is to fail, and else gives as many bytes as its piece says.
        ensures fails { IsErr result ↔ FailsAtTake self.old }
        ensures gives { IfOk result (λ n. n ≡ next_count self.old (length buf.old)) }
        ensures takes { self.new.takes ≡ counted self.old.takes }
        ensures pieces { self.new.pieces ≡ self.old.pieces }
        ensures failing { self.new.failing ≡ self.old.failing }
    {
        let fails = self.failing.contains(&self.takes);
        let most = most_of(&self.pieces, self.takes, buf.len());
        self.takes = self.takes.saturating_add(1);
        if fails {
            self.faults = self.faults.saturating_add(1);
            return Err(TakeFailed);
        }
        let n = most.min(self.bytes.len() - self.at);
        fill(buf, &self.bytes[self.at..self.at + n]);
        self.at += n;
        self.taken = self.taken.saturating_add(n as u64);
        Ok(n)
    }
}

// How many bytes take number `take` gives at most into a buffer of so many bytes.
fn most_of(pieces: &[u32], take: u64, room: usize) -> usize
    ensures { result ≡ most_into room (slice_get pieces.now take) }
{
    match pieces.get(take as usize) {
        Some(piece) => room.min((*piece as usize).max(1)),
        None => room,
    }
}

// Fills a front part of the buffer.
fn fill(buf: &mut [u8], bytes: &[u8])
    requires { length bytes.now ≤ length buf.old }
    ensures { take (length bytes.now) buf.new ≡ bytes.now }
{
    buf[..bytes.len()].copy_from_slice(bytes);
}
