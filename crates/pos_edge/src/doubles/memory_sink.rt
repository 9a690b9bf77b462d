// A sink in memory, which fails at puts that were named before.
ghost use Rattle.std.specs.Prelude.{◌≡◌, ◌≤◌, ◌^◌, ◌↔◌, is_some, Some, IsErr, IfOk, OnOk, OnErr};
ghost use Rattle.pos_edge.specs.Faults.{Rose, counted};
ghost use Rattle.pos_edge.specs.Sinks.{followed_by, AppendsPartOf, FailsAtPut, fresh_sink};

use crate::{Memory, PutFailed, Sink};
use std::alloc::Global;
use std::marker::Model;

/// A sink that keeps what it was given, up to its room, and fails at puts that were named before.
/// Contracts see its text, the number of puts so far, its count of faults, and what it was made with.
#[derive(Drop)]
pub struct MemorySink {
    text: Vec<u8>,
    puts: u64,
    faults: u64,
    failing: Vec<u64>,
    room: u64,
}

impl Model for MemorySink {
    ghost use Rattle.std.specs.Prelude.{◌≡◌, ◌≤◌, ◌^◌, vec_capacity, vec_len};
    ghost use Rattle.pos_edge.specs.Sinks.{SinkState};

    ghost Value = { SinkState };

    ghost view = { λ s. record { text = s.text.items; puts = s.puts; faults = s.faults; failing = s.failing.items; room = s.room } };

    // The room was taken when the sink was made, so a put takes no memory.
    ghost invariant = { λ s. (s.room ≤ vec_capacity s.text) × (vec_len s.text ≤ s.room) × (s.room ≤ 2 ^ 32) };
}

impl MemorySink {
    /// An empty sink with room for that many bytes. Puts are counted from 0, and those whose numbers
    /// stand in `failing` fail.
    pub fn new(alloc: Global, failing: Vec<u64>, room: u64) -> Result<MemorySink, Memory>
        requires { room ≤ 2 ^ 32 }
        ensures { IfOk result (λ s. s ≡ fresh_sink failing.items room) }
    {
        let text = Vec::with_capacity(alloc, room as usize).map_err(|_| Memory)?;
        Ok(MemorySink {
            text,
            puts: 0,
            faults: 0,
            failing,
            room,
        })
    }

    /// What was written.
    pub fn text(&self) -> &[u8]
        ensures { result.now ≡ self.now.text }
    {
        &self.text
    }
}

impl Sink for MemorySink {
    ghost heard = { λ s. record { text = Some s.text; faults = s.faults } };

    /// Writes the whole piece, or nothing of it where it fails.
    fn put(&mut self, bytes: &[u8]) -> Result<(), PutFailed>
        ensures appended { OnOk result (Some self.new.text ≡ followed_by (Some self.old.text) bytes.now) }
        ensures cut_short { OnErr result (AppendsPartOf bytes.now (Some self.old.text) (Some self.new.text)) }
        ensures told { is_some (Some self.new.text) ≡ is_some (Some self.old.text) }
        ensures never_falls { self.old.faults ≤ self.new.faults }
        ensures cause { OnErr result (Rose self.old.faults self.new.faults) }
        // It fails exactly where this put is to fail or there is no room for the piece.
        ensures fails { IsErr result ↔ FailsAtPut self.old bytes.now }
        ensures nothing { OnErr result (self.new.text ≡ self.old.text) }
        ensures quiet { OnOk result (self.new.faults ≡ self.old.faults) }
        ensures puts { self.new.puts ≡ counted self.old.puts }
        ensures failing { self.new.failing ≡ self.old.failing }
        ensures room { self.new.room ≡ self.old.room }
    {
        let fails = self.failing.contains(&self.puts);
        self.puts = self.puts.saturating_add(1);
        let left = self.room - self.text.len() as u64;
        if !fails && bytes.len() as u64 <= left && self.text.extend_from_slice(bytes).is_ok() {
            return Ok(());
        }
        self.faults = self.faults.saturating_add(1);
        Err(PutFailed)
    }
}
