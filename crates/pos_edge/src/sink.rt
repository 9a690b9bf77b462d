// Where text goes.
ghost use Rattle.std.specs.Prelude.{◌≡◌, ◌≤◌, is_some, OnOk, OnErr};
ghost use Rattle.pos_edge.specs.Faults.{Rose};
ghost use Rattle.pos_edge.specs.Sinks.{Heard, followed_by, AppendsPartOf};

/// A sink didn't take a whole piece.
#[derive(Clone, Copy, Debug, PartialEq, Eq)]
pub struct PutFailed;

/// Where text goes. A sink that takes nothing of a piece that isn't empty has failed.
pub trait Sink {
    /// What the sink was given, where it tells it, and how often it has failed.
    ghost heard: { Self → Heard };

    /// Writes a piece behind what was written before. Takes no memory.
    fn put(&mut self, bytes: &[u8]) -> Result<(), PutFailed>
        ensures appended { OnOk result ((heard self.new).text ≡ followed_by (heard self.old).text bytes.now) }
        ensures cut_short { OnErr result (AppendsPartOf bytes.now (heard self.old).text (heard self.new).text) }
        ensures told { is_some (heard self.new).text ≡ is_some (heard self.old).text }
        ensures never_falls { (heard self.old).faults ≤ (heard self.new).faults }
        ensures cause { OnErr result (Rose (heard self.old).faults (heard self.new).faults) }
        ensures quiet { OnOk result ((heard self.new).faults ≡ (heard self.old).faults) };
}
