// How a run ends: the statuses, and the writing of a text.
ghost use Rattle.std.specs.Prelude.{◌≡◌, ◌≢◌, ◌⊎◌, IfOk, OnErr, string_bytes};
ghost use Rattle.pos_app.specs.Statuses.{sink_fault_status};
ghost use Rattle.pos_app.specs.Answers.{Speaks, IsUnsaid, EndsWith, TellsSinkFaults};

use pos_edge::Sink;
use std::alloc::AllocError;

// The statuses that the program ends with.
pub const DONE: u8 = 0;

pub const REFUSED: u8 = 1;

pub const USAGE: u8 = 2;

pub const DISK_FAULT: u8 = 3;

pub const DAMAGE: u8 = 4;

pub const NAME: u8 = 5;

pub const TABLE_FULL: u8 = 6;

pub const SINK_FAULT: u8 = 7;

pub const SCRATCH_DAMAGE: u8 = 8;

pub const OUT_OF_MEMORY: u8 = 9;

pub const BAD_LINE: u8 = 11;

/// Writes a text for which there was memory.
pub fn say_text<S: Sink>(text: Result<String, AllocError>, out: &mut S, status: u8) -> u8
    ensures said { IfOk text (λ line. Speaks status (string_bytes line) result (S.heard out.old) (S.heard out.new)) }
    ensures unsaid { OnErr text (IsUnsaid result (S.heard out.old) (S.heard out.new)) }
    ensures ends { EndsWith status result }
    ensures sink { status ≢ sink_fault_status → TellsSinkFaults result (S.heard out.old) (S.heard out.new) }
{
    match text {
        Ok(line) => say(out, line.as_bytes(), status),
        Err(_) => OUT_OF_MEMORY,
    }
}

/// Writes a text and answers the status, or that of a sink that failed.
pub fn say<S: Sink>(out: &mut S, text: &[u8], status: u8) -> u8
    ensures said { Speaks status text.now result (S.heard out.old) (S.heard out.new) }
    ensures ends { (result ≡ status) ⊎ (result ≡ sink_fault_status) }
    ensures sink { status ≢ sink_fault_status → TellsSinkFaults result (S.heard out.old) (S.heard out.new) }
{
    match out.put(text) {
        Ok(()) => status,
        Err(_) => SINK_FAULT,
    }
}
