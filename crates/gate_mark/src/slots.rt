//! The bytes of the two slots.
ghost use Rattle.std.specs.Prelude.{◌≡◌, ℕ, ◌+◌, ◌^◌, ◌<◌, ◌≤◌, ◌==◌, ◌↔◌, List, length, IsTrue, IfOk, OnOk, replicate, IsErr};
ghost use Rattle.std.specs.Int.{to_le_bytes, w64};
ghost use Rattle.sector_extent.specs.Causes.{Charges};
ghost use Rattle.block_disk.specs.Changes.{piece, put, Only};
ghost use Rattle.block_disk.specs.Claims.{Quiet};
ghost use Rattle.gate_mark.specs.MarkFile.{gate_of, sequence_of, body_of};

use crate::mark::Slot;
use block_disk::{Disk, DiskFailed};

// Bytes of both slots.
const SLOTS: u64 = 1024;

/// What stands in a slot.
#[derive(Clone, Copy)]
pub(crate) struct SlotRead {
    pub(crate) is_open: bool,
    pub(crate) sequence: u64,
    pub(crate) body: [u8; 48],
}

// Puts the bytes at their place.
fn paste(out: &mut [u8], at: usize, bytes: &[u8])
    requires { at + length bytes.now ≤ length out.old }
    ensures { out.new ≡ put out.old at bytes.now }
{
    out[at..at + bytes.len()].copy_from_slice(bytes);
}

/// A sequence and a body, as they stand in a slot.
pub(crate) fn attempt_bytes(sequence: u64, body: &[u8; 48]) -> [u8; 56]
    ensures { result ≡ put (put (replicate 56 0) 0 (to_le_bytes w64 sequence)) 8 body.now }
{
    let mut bytes = [0; 56];
    paste(&mut bytes, 0, &sequence.to_le_bytes());
    paste(&mut bytes, 8, body);
    bytes
}

/// Both slots closed, with sequence 1 and the body in the first.
pub(crate) fn closed_slots(body: &[u8; 48]) -> [u8; 1024]
    ensures { result ≡ put (replicate 1024 0) 8 (put (put (replicate 56 0) 0 (to_le_bytes w64 1)) 8 body.now) }
{
    let mut slots = [0; 1024];
    paste(&mut slots, 8, &attempt_bytes(1, body));
    slots
}

/// What stands in a slot of these.
pub(crate) fn read_slot(slots: &[u8; 1024], slot: Slot) -> SlotRead
    ensures is_open { result.is_open ≡ (gate_of slot slots.now == 165) }
    ensures sequence { result.sequence ≡ sequence_of slot slots.now }
    ensures body { result.body ≡ body_of slot slots.now }
{
    let base = slot.base() as usize;
    let mut sequence = [0; 8];
    sequence.copy_from_slice(&slots[base + 8..base + 16]);
    let mut body = [0; 48];
    body.copy_from_slice(&slots[base + 16..base + 64]);
    SlotRead {
        is_open: slots[base] == 0xA5,
        sequence: u64::from_le_bytes(sequence),
        body,
    }
}

/// Syncs the file and reads both slots. False where it has not so many bytes.
pub(crate) fn read_both<D: Disk>(
    disk: &mut D,
    file: u32,
    out: &mut [u8; 1024],
) -> Result<bool, DiskFailed>
    ensures long { IfOk result (λ is_long. IsTrue D.tells
        → (IsTrue is_long ↔ (1024 ≤ length ((D.state disk.old).seen file)))) }
    ensures bytes { IfOk result (λ is_long. IsTrue D.tells → IsTrue is_long
        → out.new ≡ piece 0 1024 ((D.state disk.old).seen file)) }
    ensures durable { OnOk result (Only ((D.state disk.old).seen file) ((D.state disk.new).may_leave file)) }
    ensures quiet { Quiet (D.state disk.old) (D.state disk.new) }
    ensures cause { Charges D.faults disk.old disk.new (IsErr result) }
{
    disk.sync(file)?;
    if disk.size(file)? < SLOTS {
        return Ok(false);
    }
    disk.read_at(file, 0, out)?;
    Ok(true)
}
