// Where input comes from.
ghost use Rattle.std.specs.Prelude.{◌≡◌, ◌≤◌, ◌<◌, [], length, take, IfOk, OnOk, OnErr};
ghost use Rattle.pos_edge.specs.Faults.{Rose};
ghost use Rattle.pos_edge.specs.Sources.{Supply, IsTaken, IsDrained};

/// A source gave nothing, though it may have more.
#[derive(Clone, Copy, Debug, PartialEq, Eq)]
pub struct TakeFailed;

/// Where input comes from.
pub trait Source {
    /// The bytes that are left, where the source tells them, how many were taken, and how often it has failed.
    ghost supply: { Self → Supply };

    /// Fills a front part of the buffer with the next bytes, and answers how many: 0 where none are left. What stands
    /// behind them in the buffer, and in all of it after a failure, is not told. Takes no memory.
    fn take(&mut self, buf: &mut [u8]) -> Result<usize, TakeFailed>
        requires { 0 < length buf.old }
        ensures fits { IfOk result (λ n. n ≤ length buf.new) }
        ensures given { IfOk result (λ n. IsTaken (take n buf.new) (supply self.old) (supply self.new)) }
        ensures ends { IfOk result (λ n. n ≡ 0 → IsDrained (supply self.old).left) }
        ensures nothing { OnErr result (IsTaken [] (supply self.old) (supply self.new)) }
        ensures never_falls { (supply self.old).faults ≤ (supply self.new).faults }
        ensures cause { OnErr result (Rose (supply self.old).faults (supply self.new).faults) }
        ensures quiet { OnOk result ((supply self.new).faults ≡ (supply self.old).faults) };
}
