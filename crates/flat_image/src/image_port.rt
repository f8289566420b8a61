//! What a connection asks of an image.
ghost use Rattle.std.specs.Prelude.{◌≡◌, ℕ, ◌+◌, ◌/◌, ◌^◌, ◌≤◌, Bool, MatchResult, IsErrOf, length};
ghost use Rattle.flat_image.specs.History.{IsWithin};
ghost use Rattle.flat_image.specs.Ports.{PortState, IsWorn, ChargesPort, Reads, ReadFails, Makes, ChangeFails, Flushes, FlushFails};

use crate::act::Act;
use crate::port_fault::PortFault;

/// A caller's way to an image that others change as well. Each call notes entries in one history,
/// of which the port has seen a beginning. Places and counts are in sectors of 512 bytes, and bytes
/// are whole sectors. A call over no sectors is a call like others.
pub trait ImagePort {
    // What the port has seen. Its base, its number and the number of entries before it never change.
    ghost state: { Self → PortState };

    // A flush may want memory.
    ghost flush_takes_memory: { Bool };

    /// The number of sectors of the image, 1 to 2^31.
    fn sectors(&self) -> u64
        ensures sectors { result ≡ (state self.now).base.sectors }
        ensures some { 1 ≤ result }
        ensures few { result ≤ 2 ^ 31 }
        ensures counted { (state self.now).first + length (state self.now).seen ≤ 2 ^ 62 };

    /// Reads the sectors from `at` on into `out`. After a refusal `out` may have been written.
    fn read(&mut self, at: u64, out: &mut [u8]) -> Result<(), PortFault>
        requires { IsWithin (state self.old).base.sectors at out.old }
        ensures read { MatchResult result
            (λ _. Reads (state self.old) (state self.new) at (length out.new / 512) out.new)
            (ReadFails (state self.old) (state self.new) at (length out.new / 512)) }
        ensures cause { ChargesPort (state self.old) (state self.new) result }
        ensures worn { IsWorn (state self.old) → IsErrOf result PortFault.Worn };

    /// Writes the bytes from sector `at` on. A refused write changes nothing of the image.
    fn write(&mut self, at: u64, bytes: &[u8]) -> Result<(), PortFault>
        requires { IsWithin (state self.old).base.sectors at bytes.now }
        ensures write { MatchResult result
            (λ _. Makes (state self.old) (state self.new) (Act.Write at bytes.now))
            (ChangeFails (state self.old) (state self.new) (Act.Write at bytes.now)) }
        ensures cause { ChargesPort (state self.old) (state self.new) result }
        ensures worn { IsWorn (state self.old) → IsErrOf result PortFault.Worn };

    /// Makes `count` sectors from `at` on zero. A refused zero changes nothing of the image.
    fn zero(&mut self, at: u64, count: u64) -> Result<(), PortFault>
        requires { at + count ≤ (state self.old).base.sectors }
        ensures zero { MatchResult result
            (λ _. Makes (state self.old) (state self.new) (Act.Zero at count))
            (ChangeFails (state self.old) (state self.new) (Act.Zero at count)) }
        ensures cause { ChargesPort (state self.old) (state self.new) result }
        ensures worn { IsWorn (state self.old) → IsErrOf result PortFault.Worn };

    /// After it every crash leaves all that the port has seen.
    fn flush(&mut self) -> Result<(), PortFault>
        ensures flush { MatchResult result
            (λ _. Flushes (state self.old) (state self.new))
            (FlushFails flush_takes_memory (state self.old) (state self.new)) }
        ensures cause { ChargesPort (state self.old) (state self.new) result }
        ensures worn { IsWorn (state self.old) → IsErrOf result PortFault.Worn };
}
