//! Answers one line.
ghost use Rattle.std.specs.Prelude.{◌≡◌, ◌<◌, ◌≤◌, MatchResult};
ghost use Rattle.std.specs.Io.KnownBytes.{Appends};
ghost use Rattle.byte_ports.specs.Ports.{AppendsFront};
ghost use Rattle.control_session.specs.Lines.{IsCall};
ghost use Rattle.control_session.specs.Sessions.{Answers};

use crate::control_end::ControlEnd;
use crate::control_port::ControlPort;
use crate::line::{Call, Line};
use crate::text::{Text, commit_text, fixed, status_text, warm_text};
use byte_ports::Sink;

// Asks the port what the line asks.
fn ask<C: ControlPort>(port: &mut C, call: Call) -> Text
    requires { IsCall (Line.Asks call) }
    ensures { Answers (Line.Asks call) (C.state port.old) (C.state port.new) result.bytes }
{
    match call {
        Call::Commit(uuid) => {
            let answer = port.commit(uuid);
            commit_text(uuid, answer)
        }
        Call::Warm(layer) => {
            let answer = port.warm(layer);
            warm_text(layer, answer)
        }
        Call::Status => {
            let answer = port.status();
            status_text(answer)
        }
    }
}

/// What is answered to the line, once the port answered what the line asks.
pub(crate) fn answer_to<C: ControlPort>(port: &mut C, line: Line) -> Text
    requires { IsCall line }
    ensures { Answers line (C.state port.old) (C.state port.new) result.bytes }
{
    match line {
        Line::Asks(call) => ask(port, call),
        Line::NoLayer => fixed("refused no layer\n"),
        Line::Quit => fixed("bye\n"),
        Line::Other => fixed("refused line\n"),
    }
}

/// Sends all of `bytes`.
pub(crate) fn send<B: Sink>(sink: &mut B, bytes: &[u8]) -> Result<(), ControlEnd>
    ensures { MatchResult result
        (λ _. Appends (B.written sink.old) (B.written sink.new) bytes.now × (B.faults sink.new ≡ B.faults sink.old))
        (λ end. (end ≡ ControlEnd.SinkFault) × AppendsFront (B.written sink.old) (B.written sink.new) bytes.now
        × (B.faults sink.old < B.faults sink.new)) }
{
    match sink.write_all(bytes) {
        Ok(()) => Ok(()),
        Err(_) => Err(ControlEnd::SinkFault),
    }
}
