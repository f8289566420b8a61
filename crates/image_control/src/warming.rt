//! Warming of a lower layer.
ghost use Rattle.std.specs.Prelude.{◌≡◌, ℕ, ◌+◌, ◌*◌, ◌/◌, ◌^◌, ◌<◌, ◌≤◌, length, IfOk, IfSome, IsErr};
ghost use Rattle.sector_extent.specs.Causes.{Charges};
ghost use Rattle.layer_shelf.specs.Shelves.{SameFiles, file_at};
ghost use Rattle.control_session.specs.ControlTable.{blocks_of};

use layer_shelf::{Shelf, ShelfFailed};

// The bytes of a block.
const BLOCK: u64 = 65_536;

// Reads the first byte of a block.
fn touch<S: Shelf>(shelf: &mut S, layer: u32, block: u64) -> Result<(), ShelfFailed>
    requires file { layer < S.count shelf.old }
    requires range { 65536 * block + 1 ≤ 2 ^ 50 }
    ensures same { SameFiles S.files S.count shelf.old shelf.new }
    ensures cause { Charges S.faults shelf.old shelf.new (IsErr result) }
{
    let mut byte = [0];
    shelf.read(layer, BLOCK * block, &mut byte)
}

// Reads the first byte of each of the first `blocks` blocks of a layer's file.
fn touch_all<S: Shelf>(shelf: &mut S, layer: u32, blocks: u64) -> Result<(), ShelfFailed>
    requires file { layer < S.count shelf.old }
    requires range { 65536 * blocks ≤ 2 ^ 50 + 65535 }
    ensures same { SameFiles S.files S.count shelf.old shelf.new }
    ensures cause { Charges S.faults shelf.old shelf.new (IsErr result) }
{
    for block in 0..blocks {
        match touch(shelf, layer, block) {
            Ok(()) => {}
            Err(fault) => return Err(fault),
        }
    }
    Ok(())
}

/// Looks up each block of a layer's file once, and answers how many these are.
pub(crate) fn warm<S: Shelf>(shelf: &mut S, layer: u32) -> Result<u64, ShelfFailed>
    requires file { layer < S.count shelf.old }
    ensures blocks { IfOk result (λ blocks. IfSome (S.files shelf.old) (λ list.
        blocks ≡ blocks_of (file_at list layer))) }
    ensures same { SameFiles S.files S.count shelf.old shelf.new }
    ensures cause { Charges S.faults shelf.old shelf.new (IsErr result) }
{
    let length = shelf.length(layer)?;
    let blocks = length.div_ceil(BLOCK);
    touch_all(shelf, layer, blocks)?;
    Ok(blocks)
}
