//! Runs a command over layers.
ghost use Rattle.std.specs.Prelude.{◌≡◌, ◌≤◌, IfErr, OnOk, IsOk, IsErrOf};
ghost use Rattle.layer_commands.specs.Ports.{TakesAtMost, ports_of};
ghost use Rattle.layer_commands.specs.Causes.{AreCharged, Cause, IsCounted, IsMissing, IsOverLayers, PrintsAll, most_taken};

use crate::commands::{flatten_shelf, print_head, print_stack};
use crate::one_layer::flatten_source;
use crate::refusal::Refusal;
use byte_ports::{Sink, Source};
use layer_shelf::Shelf;
use std::alloc::Global;
use tool_setup::Command;

/// Runs a command that makes no image and opens none.
pub fn run_layers<A: Source, B: Sink, S: Shelf>(
    alloc: Global,
    command: Command,
    source: &mut A,
    out: &mut B,
    shelf: &mut S,
) -> Result<(), Refusal>
    requires { IsOverLayers command }
    ensures done { OnOk result (PrintsAll command
        (ports_of A.Source B.Sink S.Shelf source.old out.old shelf.old)
        (ports_of A.Source B.Sink S.Shelf source.new out.new shelf.new)) }
    ensures refused { IfErr result (Cause command
        (ports_of A.Source B.Sink S.Shelf source.old out.old shelf.old)
        (ports_of A.Source B.Sink S.Shelf source.new out.new shelf.new)) }
    ensures charged { AreCharged
        (ports_of A.Source B.Sink S.Shelf source.old out.old shelf.old)
        (ports_of A.Source B.Sink S.Shelf source.new out.new shelf.new) (λ refusal. IsErrOf result refusal) }
    ensures counted { IsCounted command (S.count shelf.old) (λ refusal. IsErrOf result refusal) (IsOk result) }
    ensures unasked { IsMissing command (S.count shelf.old) → shelf.new ≡ shelf.old }
    ensures within { TakesAtMost (A.left source.old) (A.left source.new) (most_taken command) }
{
    match command {
        Command::Flatten { stdin: true } => flatten_source(alloc, source, out),
        Command::Flatten { stdin: false } => flatten_shelf(alloc, shelf, out),
        Command::Info(number) => print_head(alloc, number, shelf, out),
        Command::Stack => print_stack(alloc, shelf, out),
        Command::Create(_)
        | Command::Grow(_)
        | Command::Read { .. }
        | Command::Write { .. }
        | Command::Zero { .. }
        | Command::Commit(_)
        | Command::Sweep
        | Command::Make { .. }
        | Command::Export { .. } => unreachable!(),
    }
}
