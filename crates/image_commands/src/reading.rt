//! Reads the sectors of a source.
ghost use Rattle.std.specs.Prelude.{◌≡◌, ◌%◌, ◌≤◌, vec_len, IfOk, IfErr, IfSome, IsErrOf};
ghost use Rattle.sector_extent.specs.Causes.{Charges};
ghost use Rattle.layer_commands.specs.Input.{TakesSectors};
ghost use Rattle.layer_commands.specs.Ports.{TakesAtMost};
ghost use Rattle.image_commands.specs.ImageSteps.{IsSourceRefusal};

use byte_ports::Source;
use layer_commands::{Refusal, read_input};
use sector_extent::SECTOR;
use std::alloc::Global;

/// The most bytes that are taken for one write.
pub const MOST_WRITE: usize = 33_554_432;

/// All bytes of the source, which are whole sectors, at most 33,554,432 bytes of them. It takes at
/// most one byte more.
pub fn read_sectors<A: Source>(alloc: Global, source: &mut A) -> Result<Vec<u8>, Refusal>
    ensures whole { IfOk result (λ bytes. IfSome (A.left source.old) (λ file. bytes.items ≡ file)) }
    ensures short { IfOk result (λ bytes. vec_len bytes ≤ 33554432) }
    ensures sectors { IfOk result (λ bytes. vec_len bytes % 512 ≡ 0) }
    ensures taken { IfOk result (λ bytes. TakesSectors (A.left source.old) (A.left source.new) 33554432) }
    ensures refused { IfErr result (IsSourceRefusal (A.left source.old) (A.left source.new)) }
    ensures within { TakesAtMost (A.left source.old) (A.left source.new) 33554433 }
    ensures cause { Charges A.faults source.old source.new (IsErrOf result Refusal.SourceFault) }
{
    match read_input(alloc, source, MOST_WRITE) {
        Ok(bytes) => {
            if bytes.len() % SECTOR != 0 {
                return Err(Refusal::NotWholeSectors);
            }
            Ok(bytes)
        }
        Err(refusal) => Err(refusal),
    }
}
