//! The traits of what gives bytes and of what takes them.
ghost use Rattle.std.specs.Prelude.{ℕ, List, IsErr};
ghost use Rattle.std.specs.declared.option.Option.{Option};
ghost use Rattle.std.specs.Io.{ReadsAtMost};
ghost use Rattle.std.specs.Io.KnownBytes.{ReadConsumes};
ghost use Rattle.sector_extent.specs.Causes.{Charges};
ghost use Rattle.byte_ports.specs.Ports.{WritesAll};

/// The fault of a source or of a sink.
#[derive(Clone, Copy, Debug, PartialEq, Eq)]
pub struct PortFailed;

/// Gives bytes, in order and once.
pub trait Source {
    // The bytes left, where the source tells them.
    ghost left: { Self → Option (List ℕ) };

    // The faults so far.
    ghost faults: { Self → ℕ };

    /// Takes up to `out.len()` bytes into the front of `out`, and answers how many. Zero with room in
    /// `out` is the end. A read that fails has taken nothing. What stands in `out` behind the bytes
    /// taken is open, and after a failure all of it.
    fn read(&mut self, out: &mut [u8]) -> Result<usize, PortFailed>
        ensures bound { ReadsAtMost result out.new }
        ensures bytes { ReadConsumes (left self.old) (left self.new) result out.new }
        ensures cause { Charges faults self.old self.new (IsErr result) };
}

/// Takes bytes, in order.
pub trait Sink {
    // The bytes written, where the sink tells them.
    ghost written: { Self → Option (List ℕ) };

    // The faults so far.
    ghost faults: { Self → ℕ };

    /// Writes all of `bytes`. After a failure a front of `bytes` was written.
    fn write_all(&mut self, bytes: &[u8]) -> Result<(), PortFailed>
        ensures bytes { WritesAll (written self.old) (written self.new) result bytes.now }
        ensures cause { Charges faults self.old self.new (IsErr result) };
}
