//! The beginning of a connection, up to its first request.
ghost use Rattle.std.specs.Prelude.{◌≡◌, ℕ, ◌^◌, ◌<◌, ◌≤◌, length, Bool, Option, List};
ghost use Rattle.flat_image.specs.Ports.{PortState};
ghost use Rattle.nbd_wire.specs.declared.options.OptionHead.{OptionHead};
ghost use Rattle.nbd_session.specs.Talks.{Rest, talk, greeted, options, with_head, after_option, transmission};
ghost use Rattle.nbd_session.specs.Sessions.{ends, GoesOn, IsIdle};
ghost use Rattle.nbd_session.specs.Handshakes.{in_phase};

use crate::export::Export;
use crate::option_answers::{MOST_DATA, Phase, answer_long, answer_short};
use crate::reading::{fill, skip};
use crate::sending::send;
use crate::served::Served;
use byte_ports::{Sink, Source};
use nbd_wire::{Hello, OptionHead, decode_hello, decode_option, hello_bytes};

// The most options that are answered.
const MOST_OPTIONS: u32 = 64;

// Greets the client and answers its options, up to where it may send requests. The image has
// `sectors` sectors.
pub(crate) fn shake_hands<A: Source, B: Sink>(
    export: &Export,
    sectors: u64,
    source: &mut A,
    sink: &mut B,
    buffer: &mut [u8],
) -> Result<(), Served>
    requires few { sectors ≤ 2 ^ 31 }
    requires room { length buffer.old ≡ 8192 }
    ensures { (takes : Bool) (port : PortState)
        → GoesOn takes (talk export.now sectors) (λ _. transmission export.now sectors (2 ^ 62))
        (ends (A.left source.old) (A.faults source.old) (B.written sink.old) (B.faults sink.old) port)
        (ends (A.left source.new) (A.faults source.new) (B.written sink.new) (B.faults sink.new) port) result }
{
    send(sink, &hello_bytes())?;
    let hello = read_hello(source)?;
    serve_options(export, sectors, hello, source, sink, buffer)
}

// The client's word.
fn read_hello<A: Source>(source: &mut A) -> Result<Hello, Served>
    ensures { (takes : Bool) (export : Export) (n : ℕ) (written : Option (List ℕ)) (faults : ℕ) (port : PortState)
        → GoesOn takes (greeted export n) (λ hello. options export n hello 64)
        (ends (A.left source.old) (A.faults source.old) written faults port)
        (ends (A.left source.new) (A.faults source.new) written faults port) result }
{
    let mut word = [0; 4];
    fill(source, &mut word)?;
    match decode_hello(&word) {
        Some(hello) => Ok(hello),
        None => Err(Served::BadHello),
    }
}

// The head of an option.
fn read_head<A: Source>(source: &mut A) -> Result<OptionHead, Served>
    ensures { (takes : Bool) (next : OptionHead → Rest) (written : Option (List ℕ)) (faults : ℕ) (port : PortState)
        → GoesOn takes (with_head next) next
        (ends (A.left source.old) (A.faults source.old) written faults port)
        (ends (A.left source.new) (A.faults source.new) written faults port) result }
{
    let mut word = [0; 16];
    fill(source, &mut word)?;
    match decode_option(&word) {
        Some(head) => Ok(head),
        None => Err(Served::BadMagic),
    }
}

// Reads an option and answers it.
fn serve_option<A: Source, B: Sink>(
    export: &Export,
    sectors: u64,
    hello: Hello,
    source: &mut A,
    sink: &mut B,
    buffer: &mut [u8],
) -> Result<Phase, Served>
    requires few { sectors ≤ 2 ^ 31 }
    requires room { length buffer.old ≡ 8192 }
    ensures { (takes : Bool) (more start : Rest) (port : PortState) → IsIdle more → IsIdle start
        → GoesOn takes (with_head (after_option export.now sectors hello more start)) (in_phase more start)
        (ends (A.left source.old) (A.faults source.old) (B.written sink.old) (B.faults sink.old) port)
        (ends (A.left source.new) (A.faults source.new) (B.written sink.new) (B.faults sink.new) port) result }
{
    let head = read_head(source)?;
    answer_option(export, sectors, hello, head, source, sink, buffer)
}

// Reads the data of an option, or drops them where they are long, and answers.
fn answer_option<A: Source, B: Sink>(
    export: &Export,
    sectors: u64,
    hello: Hello,
    head: OptionHead,
    source: &mut A,
    sink: &mut B,
    buffer: &mut [u8],
) -> Result<Phase, Served>
    requires few { sectors ≤ 2 ^ 31 }
    requires room { length buffer.old ≡ 8192 }
    ensures { (takes : Bool) (more start : Rest) (port : PortState) → IsIdle more → IsIdle start
        → GoesOn takes (after_option export.now sectors hello more start head) (in_phase more start)
        (ends (A.left source.old) (A.faults source.old) (B.written sink.old) (B.faults sink.old) port)
        (ends (A.left source.new) (A.faults source.new) (B.written sink.new) (B.faults sink.new) port) result }
{
    let count = head.length as usize;
    if count > MOST_DATA {
        skip(source, count, buffer)?;
        return answer_long(head.option, sink);
    }
    fill(source, &mut buffer[..count])?;
    answer_short(export, sectors, hello, head.option, buffer, count, sink)
}

// Answers options until the client may send requests.
fn serve_options<A: Source, B: Sink>(
    export: &Export,
    sectors: u64,
    hello: Hello,
    source: &mut A,
    sink: &mut B,
    buffer: &mut [u8],
) -> Result<(), Served>
    requires few { sectors ≤ 2 ^ 31 }
    requires room { length buffer.old ≡ 8192 }
    ensures { (takes : Bool) (port : PortState)
        → GoesOn takes (options export.now sectors hello 64) (λ _. transmission export.now sectors (2 ^ 62))
        (ends (A.left source.old) (A.faults source.old) (B.written sink.old) (B.faults sink.old) port)
        (ends (A.left source.new) (A.faults source.new) (B.written sink.new) (B.faults sink.new) port) result }
{
    for _ in 0..MOST_OPTIONS {
        match serve_option(export, sectors, hello, source, sink, buffer)? {
            Phase::Options => {}
            Phase::Transmission => return Ok(()),
            Phase::Aborted => return Err(Served::Aborted),
            Phase::UnknownExport => return Err(Served::UnknownExport),
        }
    }
    read_head(source)?;
    Err(Served::TooManyOptions)
}
