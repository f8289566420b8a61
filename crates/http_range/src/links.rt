//! The trait of what carries requests to a server and replies back.
ghost use Rattle.std.specs.Prelude.{ℕ, IfOk, IsErr, IsTrue};
ghost use Rattle.sector_extent.specs.Causes.{Charges};
ghost use Rattle.http_range.specs.Links.{LinkState, Sends, Receives, Redials, is_end};
ghost use Rattle.http_range.specs.Serving.{Serves, EndsServed};

/// The fault of a link.
#[derive(Clone, Copy, Debug, PartialEq, Eq)]
pub struct LinkFailed;

/// A connection to a server, which can be dialed again.
pub trait Link {
    // The faults so far, and where the link tells them its dials and the files that it serves. Which of
    // them it tells, and the files, never change.
    ghost state: { Self → LinkState };

    /// Sends all of `bytes`. After a failure a front of them was sent.
    fn send(&mut self, bytes: &[u8]) -> Result<(), LinkFailed>
        ensures bytes { Sends (state self.old) (state self.new) bytes.now result }
        ensures cause { Charges (λ link. (state link).faults) self.old self.new (IsErr result) };

    /// Receives up to `out.len()` bytes into the front of `out`, and answers how many. Zero with room
    /// in `out` is the end. A receive that fails has taken nothing. What stands in `out` behind the
    /// bytes received is open, and after a failure all of it.
    fn receive(&mut self, out: &mut [u8]) -> Result<usize, LinkFailed>
        ensures bytes { Receives (state self.old) (state self.new) out.new result }
        ensures end { IfOk result (λ count. IsTrue (is_end count out.new) → EndsServed (state self.new)) }
        ensures cause { Charges (λ link. (state link).faults) self.old self.new (IsErr result) };

    /// Begins a new dial, on which nothing was sent or received. A redial that fails has done so, or
    /// has left the present dial as it is.
    fn redial(&mut self) -> Result<(), LinkFailed>
        ensures dials { Redials (state self.old) (state self.new) result }
        ensures cause { Charges (λ link. (state link).faults) self.old self.new (IsErr result) };

    /// A link that tells its files tells its dials too, and answers on each of them what was sent there.
    ghost serves: { (link : Self) → Serves (state link) };
}
