// Standard input as a source.
ghost use Rattle.std.specs.Prelude.{◌≡◌, ◌≤◌, ◌<◌, length, None, IfSome};

use pos_edge::{Source, TakeFailed};
use std::io::{ErrorKind, Read};

/// A source over a reader, as `rt.stdin()` for standard input. It keeps no bytes of its own, so that a take gives what
/// one read gave, as soon as it is there. It doesn't tell what is left, and takes no memory.
#[derive(Drop)]
pub struct HostSource<R: Read + Drop> {
    input: R,
    taken: u64,
    faults: u64,
}

impl<R: Read + Drop> HostSource<R> {
    /// A source over this reader that nothing was taken from yet.
    pub fn new(input: R) -> HostSource<R> {
        HostSource {
            input,
            taken: 0,
            faults: 0,
        }
    }
}

impl<R: Read + Drop> Source for HostSource<R> {
    ghost supply = { λ s. record { left = None; taken = s.taken; faults = s.faults } };

    fn take(&mut self, buf: &mut [u8]) -> Result<usize, TakeFailed> {
        match read_once(&mut self.input, buf) {
            Some(n) => {
                self.taken = self.taken.saturating_add(n as u64);
                Ok(n)
            }
            None => {
                self.faults = self.faults.saturating_add(1);
                Err(TakeFailed)
            }
        }
    }
}

// How many bytes one read gave. A reader that was interrupted is asked again.
fn read_once<R: Read>(input: &mut R, buf: &mut [u8]) -> Option<usize>
    ensures { IfSome result (λ n. n ≤ length buf.new) }
{
    for _ in 0..u64::MAX {
        match input.read(buf) {
            Ok(n) => return Some(n),
            Err(e) if e.kind() == ErrorKind::Interrupted => {}
            Err(_) => return None,
        }
    }
    None
}
