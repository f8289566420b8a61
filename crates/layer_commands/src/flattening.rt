//! Writes the flat image of layers piece by piece.
ghost use Rattle.std.specs.Prelude.{◌≡◌, ◌+◌, ◌*◌, ◌^◌, ◌<◌, ◌≤◌, ◌⊎◌, length, replicate, vec_capacity, OnOk, OnErr, IfErr, IfSome, IsErr, IsErrOf};
ghost use Rattle.std.specs.Option.{ForSome};
ghost use Rattle.std.specs.Io.KnownBytes.{Appends};
ghost use Rattle.sector_extent.specs.Causes.{Charges};
ghost use Rattle.byte_ports.specs.Ports.{AppendsFront};
ghost use Rattle.layer_shelf.specs.Shelves.{SameFiles};
ghost use Rattle.layer_commands.specs.Flattening.{AreTold, FitIn, flat_part, told_flat};

use crate::commands::write_text;
use crate::refusal::Refusal;
use byte_ports::Sink;
use layer_shelf::{Shelf, ShelfFailed};
use sealed_layer::{Layer, paint_part};
use sector_extent::SECTOR;
use std::alloc::Global;

// Sectors of a piece, 1 MiB of them.
const PIECE_SECTORS: u64 = 2048;

// Paints `count` sectors of the flat image from `at` on over `piece`, which is zeros.
fn paint_piece<S: Shelf>(
    shelf: &mut S,
    layers: &[Layer],
    at: u64,
    count: u64,
    piece: &mut [u8],
) -> Result<(), ShelfFailed>
    requires files { length layers.now ≡ S.count shelf.old }
    requires few { length layers.now < 2 ^ 32 }
    requires within { at + count ≤ 2 ^ 31 }
    requires blank { piece.old ≡ replicate (512 * count) 0 }
    requires told { ForSome (S.files shelf.old) (λ files. AreTold files layers.now) }
    ensures painted { OnOk result (IfSome (S.files shelf.old) (λ files.
        piece.new ≡ flat_part files layers.now at count)) }
    ensures same { SameFiles S.files S.count shelf.old shelf.new }
    ensures cause { Charges S.faults shelf.old shelf.new (IsErr result) }
{
    for (k, layer) in layers.iter().enumerate() {
        paint_part(shelf, k as u32, layer, at, piece)?;
    }
    Ok(())
}

// Writes `count` sectors of the flat image from `at` on, for which `piece` has room.
fn write_piece<B: Sink, S: Shelf>(
    shelf: &mut S,
    layers: &[Layer],
    at: u64,
    count: u64,
    piece: &mut Vec<u8>,
    out: &mut B,
) -> Result<(), Refusal>
    requires files { length layers.now ≡ S.count shelf.old }
    requires few { length layers.now < 2 ^ 32 }
    requires within { at + count ≤ 2 ^ 31 }
    requires room { 512 * count ≤ vec_capacity piece.old }
    requires told { ForSome (S.files shelf.old) (λ files. AreTold files layers.now) }
    ensures room { vec_capacity piece.old ≤ vec_capacity piece.new }
    ensures done { OnOk result (IfSome (S.files shelf.old) (λ files.
        Appends (B.written out.old) (B.written out.new) (flat_part files layers.now at count))) }
    ensures front { OnErr result (IfSome (S.files shelf.old) (λ files.
        AppendsFront (B.written out.old) (B.written out.new) (flat_part files layers.now at count))) }
    ensures only { IfErr result (λ refusal. (refusal ≡ Refusal.ShelfFault) ⊎ (refusal ≡ Refusal.SinkFault)) }
    ensures same { SameFiles S.files S.count shelf.old shelf.new }
    ensures shelf_cause { Charges S.faults shelf.old shelf.new (IsErrOf result Refusal.ShelfFault) }
    ensures sink_cause { Charges B.faults out.old out.new (IsErrOf result Refusal.SinkFault) }
{
    piece.clear();
    match piece.resize(count as usize * SECTOR, 0) {
        Ok(()) => {}
        Err(_) => unreachable!(),
    }
    match paint_piece(shelf, layers, at, count, piece.as_mut_slice()) {
        Ok(()) => {}
        Err(_) => return Err(Refusal::ShelfFault),
    }
    write_text(piece.as_slice(), out)
}

/// Writes the flat image of the layers, the lowest first, which are the files of the shelf; it has so
/// many sectors, and none of them has more. Each piece is painted in one buffer and written with one
/// call.
pub fn write_flat<B: Sink, S: Shelf>(
    alloc: Global,
    shelf: &mut S,
    layers: &[Layer],
    sectors: u64,
    out: &mut B,
) -> Result<(), Refusal>
    requires files { length layers.now ≡ S.count shelf.old }
    requires few { length layers.now < 2 ^ 32 }
    requires small { sectors ≤ 2 ^ 31 }
    requires sizes { ForSome (S.files shelf.old) (λ _. FitIn sectors layers.now) }
    requires told { ForSome (S.files shelf.old) (λ files. AreTold files layers.now) }
    ensures done { OnOk result (IfSome (S.files shelf.old) (λ files.
        Appends (B.written out.old) (B.written out.new) (told_flat sectors files layers.now))) }
    ensures front { OnErr result (IfSome (S.files shelf.old) (λ files.
        AppendsFront (B.written out.old) (B.written out.new) (told_flat sectors files layers.now))) }
    ensures only { IfErr result (λ refusal. (refusal ≡ Refusal.ShelfFault) ⊎ (refusal ≡ Refusal.SinkFault)
        ⊎ ((refusal ≡ Refusal.Memory) × (out.new ≡ out.old))) }
    ensures same { SameFiles S.files S.count shelf.old shelf.new }
    ensures shelf_cause { Charges S.faults shelf.old shelf.new (IsErrOf result Refusal.ShelfFault) }
    ensures sink_cause { Charges B.faults out.old out.new (IsErrOf result Refusal.SinkFault) }
{
    let room = sectors.min(PIECE_SECTORS) as usize * SECTOR;
    let mut piece = Vec::with_capacity(alloc, room)?;
    let mut at = 0;
    while at < sectors {
        let count = (sectors - at).min(PIECE_SECTORS);
        write_piece(shelf, layers, at, count, &mut piece, out)?;
        at += count;
    }
    Ok(())
}
