//! The commands over layers.
ghost use Rattle.std.specs.Prelude.{◌≡◌, ◌^◌, ◌≤◌, false, IfErr, OnErr, OnOk, IsErrOf};
ghost use Rattle.std.specs.Io.KnownBytes.{Appends};
ghost use Rattle.sector_extent.specs.Causes.{Charges};
ghost use Rattle.byte_ports.specs.Ports.{AppendsFront};
ghost use Rattle.layer_stack.specs.declared.fault.StackFault.TheVariants.{Empty};
ghost use Rattle.tool_setup.specs.declared.command.Command.TheVariants.{Flatten, Info, Stack};
ghost use Rattle.layer_commands.specs.Ports.{by_shelf};
ghost use Rattle.layer_commands.specs.Flattening.{upper_sectors};
ghost use Rattle.layer_commands.specs.Causes.{Cause, PrintsAll};

use crate::flattening::write_flat;
use crate::refusal::Refusal;
use crate::reports::{info_report, stack_report};
use crate::stacks::{read_one, read_stack};
use byte_ports::Sink;
use layer_shelf::Shelf;
use sealed_layer::Layer;
use std::alloc::Global;

/// Writes all of a text.
pub fn write_text<B: Sink>(text: &[u8], out: &mut B) -> Result<(), Refusal>
    ensures done { OnOk result (Appends (B.written out.old) (B.written out.new) text.now) }
    ensures front { OnErr result (AppendsFront (B.written out.old) (B.written out.new) text.now) }
    ensures refused { IfErr result (λ refusal. refusal ≡ Refusal.SinkFault) }
    ensures cause { Charges B.faults out.old out.new (IsErrOf result Refusal.SinkFault) }
{
    match out.write_all(text) {
        Ok(()) => Ok(()),
        Err(_) => Err(Refusal::SinkFault),
    }
}

/// The sectors of a stack of layers, which are those of the uppermost, or 0 where there is none.
pub fn stack_sectors(layers: &[Layer]) -> u64
    ensures value { result ≡ upper_sectors layers.now }
    ensures few { result ≤ 2 ^ 31 }
{
    match layers.last() {
        Some(layer) => layer.sectors(),
        None => 0,
    }
}

/// Writes the flat image of the shelf's layers.
pub fn flatten_shelf<B: Sink, S: Shelf>(
    alloc: Global,
    shelf: &mut S,
    out: &mut B,
) -> Result<(), Refusal>
    ensures done { OnOk result (PrintsAll (Flatten false)
        (by_shelf B.Sink S.Shelf out.old shelf.old) (by_shelf B.Sink S.Shelf out.new shelf.new)) }
    ensures refused { IfErr result (Cause (Flatten false)
        (by_shelf B.Sink S.Shelf out.old shelf.old) (by_shelf B.Sink S.Shelf out.new shelf.new)) }
    ensures empty { S.count shelf.old ≡ 0 → IsErrOf result (Refusal.Stack Empty) }
    ensures few { OnOk result (S.count shelf.old ≤ 255) }
    ensures sink_few { IsErrOf result Refusal.SinkFault → S.count shelf.old ≤ 255 }
    ensures shelf_cause { Charges S.faults shelf.old shelf.new (IsErrOf result Refusal.ShelfFault) }
    ensures sink_cause { Charges B.faults out.old out.new (IsErrOf result Refusal.SinkFault) }
{
    let layers = read_stack(alloc, shelf)?;
    let stack = layers.as_slice();
    let sectors = stack_sectors(stack);
    write_flat(alloc, shelf, stack, sectors, out)
}

/// Prints the head of the layer of that number. No other layer is read, and where there is none of the
/// number the shelf is not asked.
pub fn print_head<B: Sink, S: Shelf>(
    alloc: Global,
    number: u64,
    shelf: &mut S,
    out: &mut B,
) -> Result<(), Refusal>
    ensures done { OnOk result (PrintsAll (Info number)
        (by_shelf B.Sink S.Shelf out.old shelf.old) (by_shelf B.Sink S.Shelf out.new shelf.new)) }
    ensures refused { IfErr result (Cause (Info number)
        (by_shelf B.Sink S.Shelf out.old shelf.old) (by_shelf B.Sink S.Shelf out.new shelf.new)) }
    ensures missing { S.count shelf.old ≤ number → IsErrOf result Refusal.NoLayer }
    ensures unasked { S.count shelf.old ≤ number → shelf.new ≡ shelf.old }
    ensures shelf_cause { Charges S.faults shelf.old shelf.new (IsErrOf result Refusal.ShelfFault) }
    ensures sink_cause { Charges B.faults out.old out.new (IsErrOf result Refusal.SinkFault) }
{
    if number >= shelf.count() as u64 {
        return Err(Refusal::NoLayer);
    }
    let layer = read_one(alloc, shelf, number as u32)?;
    let text = info_report(alloc, number as u32, layer.head())?;
    write_text(text.as_bytes(), out)
}

/// Prints a line for each layer of the shelf's stack.
pub fn print_stack<B: Sink, S: Shelf>(
    alloc: Global,
    shelf: &mut S,
    out: &mut B,
) -> Result<(), Refusal>
    ensures done { OnOk result (PrintsAll Stack
        (by_shelf B.Sink S.Shelf out.old shelf.old) (by_shelf B.Sink S.Shelf out.new shelf.new)) }
    ensures refused { IfErr result (Cause Stack
        (by_shelf B.Sink S.Shelf out.old shelf.old) (by_shelf B.Sink S.Shelf out.new shelf.new)) }
    ensures empty { S.count shelf.old ≡ 0 → IsErrOf result (Refusal.Stack Empty) }
    ensures few { OnOk result (S.count shelf.old ≤ 255) }
    ensures sink_few { IsErrOf result Refusal.SinkFault → S.count shelf.old ≤ 255 }
    ensures shelf_cause { Charges S.faults shelf.old shelf.new (IsErrOf result Refusal.ShelfFault) }
    ensures sink_cause { Charges B.faults out.old out.new (IsErrOf result Refusal.SinkFault) }
{
    let layers = read_stack(alloc, shelf)?;
    let text = stack_report(alloc, layers.as_slice())?;
    write_text(text.as_bytes(), out)
}
