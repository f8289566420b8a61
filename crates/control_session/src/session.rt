//! Serves control lines, one after another.
ghost use Rattle.std.specs.Prelude.{◌≡◌, ◌^◌, true, false, length};
ghost use Rattle.control_session.specs.Controls.{Rest, one_line, lines, control};
ghost use Rattle.control_session.specs.Sessions.{ends, Ended, Serves, GoesOn, IsIdle};

use crate::answering::{answer_to, send};
use crate::control_end::ControlEnd;
use crate::control_port::ControlPort;
use crate::line::{Line, line_said};
use crate::reading::{BUFFER, read_line};
use byte_ports::{Sink, Source};
use std::alloc::Global;

/// Serves control lines over the port, each by one line, until a line or a fault ends it or the
/// input ends. It reads nothing behind a line before that line is answered.
pub fn serve_control<A: Source, B: Sink, C: ControlPort>(
    alloc: Global,
    source: &mut A,
    sink: &mut B,
    port: &mut C,
) -> ControlEnd
    ensures { Serves control
        (ends (A.left source.old) (A.faults source.old) (B.written sink.old) (B.faults sink.old) (C.state port.old))
        (ends (A.left source.new) (A.faults source.new) (B.written sink.new) (B.faults sink.new)
        (C.state port.new)) result }
{
    match vec![in alloc; 0; BUFFER] {
        Ok(buffer) => {
            let mut buffer = buffer;
            serve_lines(source, sink, port, buffer.as_mut_slice())
        }
        Err(_) => ControlEnd::Memory,
    }
}

// Serves at most 2^62 lines.
fn serve_lines<A: Source, B: Sink, C: ControlPort>(
    source: &mut A,
    sink: &mut B,
    port: &mut C,
    buffer: &mut [u8],
) -> ControlEnd
    requires { length buffer.old ≡ 257 }
    ensures { Ended (lines (2 ^ 62))
        (ends (A.left source.old) (A.faults source.old) (B.written sink.old) (B.faults sink.old) (C.state port.old))
        (ends (A.left source.new) (A.faults source.new) (B.written sink.new) (B.faults sink.new)
        (C.state port.new)) result }
{
    for number in 0..1u64 << 62 {
        match serve_line(source, sink, port, buffer) {
            Ok(()) => {}
            Err(end) => return end,
        }
    }
    ControlEnd::TooManyLines
}

// Reads a line and answers it, or ends the control.
fn serve_line<A: Source, B: Sink, C: ControlPort>(
    source: &mut A,
    sink: &mut B,
    port: &mut C,
    buffer: &mut [u8],
) -> Result<(), ControlEnd>
    requires { length buffer.old ≡ 257 }
    ensures { (go : Rest) → IsIdle go
        → GoesOn (one_line go) go
        (ends (A.left source.old) (A.faults source.old) (B.written sink.old) (B.faults sink.old) (C.state port.old))
        (ends (A.left source.new) (A.faults source.new) (B.written sink.new) (B.faults sink.new)
        (C.state port.new)) result }
{
    let found = read_line(source, buffer)?;
    let line = line_said(&buffer[..found.count]);
    let text = answer_to(port, line);
    send(sink, text.as_str().as_bytes())?;
    if is_quit(line) {
        return Err(ControlEnd::Quit);
    }
    if found.last {
        return Err(ControlEnd::Ended);
    }
    Ok(())
}

fn is_quit(line: Line) -> bool
    ensures yes { result ≡ true → line ≡ Line.Quit }
    ensures no { result ≡ false → line ≡ Line.Quit → ⊥ }
{
    matches!(line, Line::Quit)
}
