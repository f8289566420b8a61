//! Writes the flat image of one layer in memory, run after run: long runs straight from its file,
//! short ones together.
ghost use Rattle.std.specs.Prelude.{◌≡◌, ◌+◌, ◌*◌, ◌^◌, ◌<◌, ◌≤◌, ◌⊎◌, false, [], ◌∷◌, length, replicate, vec_capacity, OnOk, OnErr, IfErr, IsErrOf};
ghost use Rattle.std.specs.Io.KnownBytes.{Appends};
ghost use Rattle.sector_extent.specs.Causes.{Charges};
ghost use Rattle.byte_ports.specs.Ports.{AppendsFront};
ghost use Rattle.flat_image.specs.LayerFiles.{LayerOf};
ghost use Rattle.layer_commands.specs.Flattening.{told_flat};
ghost use Rattle.layer_commands.specs.Runs.{Puts, PutsFront, row_bytes, zeros};

use crate::commands::write_text;
use crate::refusal::Refusal;
use byte_ports::Sink;
use sealed_layer::Layer;
use sector_extent::SECTOR;
use seg_mapping::Row;
use std::alloc::Global;

// Bytes of a run that is written by itself.
const LONG_RUN: usize = 1 << 16;

// Bytes of short runs that are written together, and of zeros at a time.
const PIECE: usize = 1 << 20;

// Writes what is kept.
fn write_kept<B: Sink>(kept: &mut Vec<u8>, out: &mut B) -> Result<(), Refusal>
    ensures done { OnOk result (Appends (B.written out.old) (B.written out.new) kept.old.items) }
    ensures none { OnOk result (kept.new.items ≡ []) }
    ensures room { vec_capacity kept.new ≡ vec_capacity kept.old }
    ensures front { OnErr result (AppendsFront (B.written out.old) (B.written out.new) kept.old.items) }
    ensures only { IfErr result (λ refusal. refusal ≡ Refusal.SinkFault) }
    ensures cause { Charges B.faults out.old out.new (IsErrOf result Refusal.SinkFault) }
{
    if kept.is_empty() {
        return Ok(());
    }
    write_text(kept.as_slice(), out)?;
    kept.clear();
    Ok(())
}

// Puts a run behind what was put so far.
fn put_run<B: Sink>(run: &[u8], kept: &mut Vec<u8>, out: &mut B) -> Result<(), Refusal>
    requires room { 2 ^ 16 ≤ vec_capacity kept.old }
    ensures put { OnOk result
        (Puts (B.written out.old) (B.written out.new) kept.old.items kept.new.items run.now) }
    ensures front { OnErr result (PutsFront (B.written out.old) (B.written out.new) kept.old.items run.now) }
    ensures room { vec_capacity kept.old ≤ vec_capacity kept.new }
    ensures only { IfErr result (λ refusal. refusal ≡ Refusal.SinkFault) }
    ensures cause { Charges B.faults out.old out.new (IsErrOf result Refusal.SinkFault) }
{
    if run.len() >= LONG_RUN {
        write_kept(kept, out)?;
        return write_text(run, out);
    }
    if kept.len() + run.len() > kept.capacity() {
        write_kept(kept, out)?;
    }
    match kept.extend_from_slice(run) {
        Ok(()) => Ok(()),
        Err(_) => unreachable!(),
    }
}

// Puts so many sectors of zeros, as many at a time as there are in `blank`.
fn put_zeros<B: Sink>(
    count: u64,
    blank: &[u8],
    kept: &mut Vec<u8>,
    out: &mut B,
) -> Result<(), Refusal>
    requires few { count ≤ 2 ^ 31 }
    requires some { 0 < length blank.now }
    requires blank { blank.now ≡ replicate (length blank.now) 0 }
    requires room { 2 ^ 16 ≤ vec_capacity kept.old }
    ensures put { OnOk result
        (Puts (B.written out.old) (B.written out.new) kept.old.items kept.new.items (zeros count)) }
    ensures front { OnErr result (PutsFront (B.written out.old) (B.written out.new) kept.old.items (zeros count)) }
    ensures room { vec_capacity kept.old ≤ vec_capacity kept.new }
    ensures only { IfErr result (λ refusal. refusal ≡ Refusal.SinkFault) }
    ensures cause { Charges B.faults out.old out.new (IsErrOf result Refusal.SinkFault) }
{
    let mut left = count as usize * SECTOR;
    while left > 0 {
        let size = left.min(blank.len());
        put_run(&blank[..size], kept, out)?;
        left -= size;
    }
    Ok(())
}

// Puts the sectors of a row of the file.
fn put_row<B: Sink>(
    file: &[u8],
    row: &Row,
    blank: &[u8],
    kept: &mut Vec<u8>,
    out: &mut B,
) -> Result<(), Refusal>
    requires place { row.now.zeroed ≡ false → 512 * (row.now.place + row.now.count) ≤ length file.now }
    requires some { 0 < length blank.now }
    requires blank { blank.now ≡ replicate (length blank.now) 0 }
    requires few { row.now.count ≤ 2 ^ 31 }
    requires room { 2 ^ 16 ≤ vec_capacity kept.old }
    ensures put { OnOk result
        (Puts (B.written out.old) (B.written out.new) kept.old.items kept.new.items (row_bytes file.now row.now)) }
    ensures front { OnErr result
        (PutsFront (B.written out.old) (B.written out.new) kept.old.items (row_bytes file.now row.now)) }
    ensures room { vec_capacity kept.old ≤ vec_capacity kept.new }
    ensures only { IfErr result (λ refusal. refusal ≡ Refusal.SinkFault) }
    ensures cause { Charges B.faults out.old out.new (IsErrOf result Refusal.SinkFault) }
{
    if row.zeroed {
        return put_zeros(row.count as u64, blank, kept, out);
    }
    let (_, data) = file.split_at(row.place as usize * SECTOR);
    let (run, _) = data.split_at(row.count as usize * SECTOR);
    put_run(run, kept, out)
}

// Puts the sectors of the layer's flat image.
fn put_layer<B: Sink>(
    file: &[u8],
    layer: &Layer,
    blank: &[u8],
    kept: &mut Vec<u8>,
    out: &mut B,
) -> Result<(), Refusal>
    requires told { LayerOf file.now layer.now.head layer.now.rows }
    requires limit { length file.now ≤ 2 ^ 30 }
    requires some { 0 < length blank.now }
    requires blank { blank.now ≡ replicate (length blank.now) 0 }
    requires room { 2 ^ 16 ≤ vec_capacity kept.old }
    ensures put { OnOk result
        (Puts (B.written out.old) (B.written out.new) kept.old.items kept.new.items
        (told_flat layer.now.head.sectors (file.now ∷ []) (layer.now ∷ []))) }
    ensures front { OnErr result (PutsFront (B.written out.old) (B.written out.new) kept.old.items
        (told_flat layer.now.head.sectors (file.now ∷ []) (layer.now ∷ []))) }
    ensures only { IfErr result (λ refusal. refusal ≡ Refusal.SinkFault) }
    ensures cause { Charges B.faults out.old out.new (IsErrOf result Refusal.SinkFault) }
{
    let rows = layer.rows();
    let mut at = 0;
    for row in rows {
        put_zeros(row.offset - at, blank, kept, out)?;
        put_row(file, row, blank, kept, out)?;
        at = row.offset + row.count as u64;
    }
    put_zeros(layer.sectors() - at, blank, kept, out)
}

/// Writes the flat image of the one layer whose file these bytes are.
pub fn write_layer<B: Sink>(
    alloc: Global,
    file: &[u8],
    layer: &Layer,
    out: &mut B,
) -> Result<(), Refusal>
    requires told { LayerOf file.now layer.now.head layer.now.rows }
    requires limit { length file.now ≤ 2 ^ 30 }
    ensures done { OnOk result (Appends (B.written out.old) (B.written out.new)
        (told_flat layer.now.head.sectors (file.now ∷ []) (layer.now ∷ []))) }
    ensures front { OnErr result (AppendsFront (B.written out.old) (B.written out.new)
        (told_flat layer.now.head.sectors (file.now ∷ []) (layer.now ∷ []))) }
    ensures only { IfErr result (λ refusal. (refusal ≡ Refusal.SinkFault)
        ⊎ ((refusal ≡ Refusal.Memory) × (out.new ≡ out.old))) }
    ensures cause { Charges B.faults out.old out.new (IsErrOf result Refusal.SinkFault) }
{
    let size = PIECE.min(layer.sectors() as usize * SECTOR);
    let blank = vec![in alloc; 0; size]?;
    let mut kept = Vec::with_capacity(alloc, PIECE)?;
    put_layer(file, layer, blank.as_slice(), &mut kept, out)?;
    write_kept(&mut kept, out)
}
