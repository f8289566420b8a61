//! Reads the source piece by piece.
ghost use Rattle.std.specs.Prelude.{◌≡◌, ◌+◌, ◌^◌, ◌<◌, ◌≤◌, ◌⊎◌, length, vec_len, IfOk, IfErr, OnErr, IfSome, IsErrOf};
ghost use Rattle.std.specs.Io.KnownBytes.{Consumes};
ghost use Rattle.sector_extent.specs.Causes.{Charges};
ghost use Rattle.layer_commands.specs.Ports.{TakesAtMost};
ghost use Rattle.layer_commands.specs.Input.{IsInputRefusal, ReadsPiece};

use crate::refusal::Refusal;
use byte_ports::{Source, read_full};
use std::alloc::Global;

/// The most bytes that are taken as a layer.
pub const MOST_LAYER: usize = 1 << 30;

// Bytes of one read.
const PIECE: usize = 1 << 18;

// Reads `room` bytes through `piece`, or those that are left, and puts them behind the others. Memory
// is taken first.
fn read_piece<A: Source>(
    source: &mut A,
    room: usize,
    piece: &mut [u8],
    bytes: &mut Vec<u8>,
) -> Result<usize, Refusal>
    requires { length piece.old ≡ room }
    ensures read { IfOk result
        (ReadsPiece (A.left source.old) (A.left source.new) bytes.old.items bytes.new.items room) }
    ensures within { OnErr result (TakesAtMost (A.left source.old) (A.left source.new) room) }
    ensures only { IfErr result (λ refusal. (refusal ≡ Refusal.SourceFault) ⊎ (refusal ≡ Refusal.Memory)) }
    ensures wanting { IsErrOf result Refusal.Memory → source.new ≡ source.old }
    ensures cause { Charges A.faults source.old source.new (IsErrOf result Refusal.SourceFault) }
{
    match bytes.reserve(room) {
        Ok(()) => {}
        Err(_) => return Err(Refusal::Memory),
    }
    let count = match read_full(source, piece) {
        Ok(count) => count,
        Err(_) => return Err(Refusal::SourceFault),
    };
    match bytes.extend_from_slice(&piece[..count]) {
        Ok(()) => Ok(count),
        Err(_) => unreachable!(),
    }
}

/// All bytes of the source, of which there are at most so many. It takes at most one byte more.
pub fn read_input<A: Source>(alloc: Global, source: &mut A, most: usize) -> Result<Vec<u8>, Refusal>
    requires { most < 2 ^ 62 }
    ensures whole { IfOk result (λ bytes. IfSome (A.left source.old) (λ file. bytes.items ≡ file)) }
    ensures short { IfOk result (λ bytes. vec_len bytes ≤ most) }
    ensures taken { IfOk result (λ bytes. Consumes (A.left source.old) (A.left source.new) bytes.items) }
    ensures refused { IfErr result (IsInputRefusal (A.left source.old) (A.left source.new) most) }
    ensures within { TakesAtMost (A.left source.old) (A.left source.new) (most + 1) }
    ensures cause { Charges A.faults source.old source.new (IsErrOf result Refusal.SourceFault) }
{
    let mut piece = vec![in alloc; 0; PIECE]?;
    let mut bytes = Vec::new(alloc);
    while bytes.len() <= most {
        let room = PIECE.min(most + 1 - bytes.len());
        let count = read_piece(source, room, &mut piece[..room], &mut bytes)?;
        if count < room {
            return Ok(bytes);
        }
    }
    Err(Refusal::TooLong)
}
