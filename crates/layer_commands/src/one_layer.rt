//! Flattens one layer that was read from the source.
ghost use Rattle.std.specs.Prelude.{◌+◌, ◌^◌, ◌≤◌, true, length, IfErr, IsErrOf, OnOk};
ghost use Rattle.sector_extent.specs.Causes.{Charges};
ghost use Rattle.tool_setup.specs.declared.command.Command.TheVariants.{Flatten};
ghost use Rattle.layer_commands.specs.Ports.{TakesAtMost, by_source};
ghost use Rattle.layer_commands.specs.Causes.{Cause, PrintsAll};
ghost use Rattle.layer_commands.specs.OneLayer.{IsImageCause, WritesImage};

use crate::reading::{MOST_LAYER, read_input};
use crate::refusal::Refusal;
use crate::runs::write_layer;
use crate::stacks::layer_refusal;
use byte_ports::{Sink, Source};
use sealed_layer::layer_in;
use std::alloc::Global;

// Writes the flat image of the layer whose file these bytes are.
fn flatten_file<B: Sink>(alloc: Global, file: &[u8], out: &mut B) -> Result<(), Refusal>
    requires { length file.now ≤ 2 ^ 30 }
    ensures done { OnOk result (WritesImage file.now (B.written out.old) (B.written out.new)) }
    ensures refused { IfErr result (IsImageCause file.now (B.written out.old) (B.written out.new)) }
    ensures sink_cause { Charges B.faults out.old out.new (IsErrOf result Refusal.SinkFault) }
{
    match layer_in(alloc, file) {
        Ok(layer) => write_layer(alloc, file, &layer, out),
        Err(fault) => Err(layer_refusal(0, fault)),
    }
}

/// Writes the flat image of one layer that is read from the source to its end. Its parent is not
/// looked at.
pub fn flatten_source<A: Source, B: Sink>(
    alloc: Global,
    source: &mut A,
    out: &mut B,
) -> Result<(), Refusal>
    ensures done { OnOk result (PrintsAll (Flatten true)
        (by_source A.Source B.Sink source.old out.old) (by_source A.Source B.Sink source.new out.new)) }
    ensures refused { IfErr result (Cause (Flatten true)
        (by_source A.Source B.Sink source.old out.old) (by_source A.Source B.Sink source.new out.new)) }
    ensures within { TakesAtMost (A.left source.old) (A.left source.new) (2 ^ 30 + 1) }
    ensures source_cause { Charges A.faults source.old source.new (IsErrOf result Refusal.SourceFault) }
    ensures sink_cause { Charges B.faults out.old out.new (IsErrOf result Refusal.SinkFault) }
{
    match read_input(alloc, source, MOST_LAYER) {
        Ok(bytes) => flatten_file(alloc, bytes.as_slice(), out),
        Err(refusal) => Err(refusal),
    }
}
