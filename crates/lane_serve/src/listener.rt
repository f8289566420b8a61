//! Where connections come from, and where they go back to.
ghost use Rattle.std.specs.Prelude.{◌≡◌, ℕ, IsErr};
ghost use Rattle.std.specs.declared.option.Option.{Option};
ghost use Rattle.sector_extent.specs.Causes.{Charges};
ghost use Rattle.lane_serve.specs.Listeners.{Listening, Accepts, MayFinish, Finishes};

use byte_ports::{Sink, Source};

/// The fault of a listener.
#[derive(Clone, Copy, Debug, PartialEq, Eq)]
pub struct ListenFailed;

/// Gives connections, one after another, and takes each back once it was served.
pub trait Listener {
    /// Where the bytes of a connection come from.
    type A: Source + Send;

    /// Where they go.
    type B: Sink + Send;

    /// How a connection ended.
    type E;

    // The faults so far.
    ghost faults: { Self → ℕ };

    // The connections that it gave, as they were then, and those that it took back with their ends,
    // where it tells them.
    ghost told: { Self → Option (Listening Self.A Self.B Self.E) };

    /// The next connection, or None where no more come.
    fn accept(&mut self) -> Result<Option<(Self::A, Self::B)>, ListenFailed>
        ensures told { Accepts (told self.old) (told self.new) result }
        ensures cause { Charges faults self.old self.new (IsErr result) };

    /// Takes a connection back that was served. It counts no fault.
    fn finish(&mut self, source: Self::A, sink: Self::B, end: Self::E)
        requires { MayFinish (told self.old) }
        ensures told { Finishes (told self.old) (told self.new) source sink end }
        ensures calm { faults self.new ≡ faults self.old };
}
