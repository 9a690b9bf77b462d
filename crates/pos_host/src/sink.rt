// Standard output as a sink.
ghost use Rattle.std.specs.Prelude.{None};
ghost use Rattle.std.specs.Prelude.{◌≡◌, ◌≤◌, length};

use pos_edge::{PutFailed, Sink};
use std::io::{ErrorKind, Write};

/// A sink over a writer, as `io::writer(&rt)` for standard output. It doesn't tell what was written, and takes no
/// memory. An empty piece is handed to the writer too.
#[derive(Drop)]
pub struct HostSink<W: Write + Drop> {
    out: W,
    faults: u64,
}

impl<W: Write + Drop> HostSink<W> {
    /// A sink over this writer that has not failed yet. `PutFailed` where the writer doesn't take an empty piece, as a
    /// standard output that is closed.
    pub fn new(out: W) -> Result<HostSink<W>, PutFailed> {
        let mut out = out;
        if is_written(&mut out, &[]) {
            Ok(HostSink { out, faults: 0 })
        } else {
            Err(PutFailed)
        }
    }
}

impl<W: Write + Drop> Sink for HostSink<W> {
    ghost heard = { λ s. record { text = None; faults = s.faults } };

    fn put(&mut self, bytes: &[u8]) -> Result<(), PutFailed> {
        if is_written(&mut self.out, bytes) {
            return Ok(());
        }
        self.faults = self.faults.saturating_add(1);
        Err(PutFailed)
    }
}

// Whether the whole piece went out; an empty one is handed over once. A writer that takes nothing of a piece that is
// not empty has failed; one that was interrupted is asked again.
fn is_written<W: Write>(out: &mut W, bytes: &[u8]) -> bool {
    let mut rest = bytes;
    for _ in 0..u64::MAX {
        match out.write(rest) {
            Ok(n) if n == rest.len() => return true,
            Ok(0) => return false,
            Ok(n) => rest = &rest[n..],
            Err(e) if e.kind() == ErrorKind::Interrupted => {}
            Err(_) => return false,
        }
    }
    false
}
