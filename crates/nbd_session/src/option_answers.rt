//! Answers the options of a handshake.
ghost use Rattle.std.specs.Prelude.{◌≡◌, ◌+◌, ◌^◌, ◌≤◌, ◌++◌, length, take};
ghost use Rattle.nbd_wire.specs.Infos.{info_name, info_export_bytes, info_block_size_bytes};
ghost use Rattle.nbd_session.specs.Options.{OptionAnswer, export_flags, is_named, with_data, ack, refused, listed, informed, info_answer, name_answer, short_answer, long_answer};
ghost use Rattle.nbd_session.specs.Handshakes.{next_of, Says};

use crate::export::Export;
use crate::sending::send;
use crate::served::Served;
use byte_ports::Sink;
use nbd_wire::{Hello, decode_info, info_block_size, info_export, join, name_reply, option_reply};

// What comes after an option.
#[derive(Clone, Copy, Debug, PartialEq, Eq)]
pub(crate) enum Phase {
    /// Another option.
    Options,
    /// The first request.
    Transmission,
    /// The end, since the client gave up.
    Aborted,
    /// The end, since another export was named.
    UnknownExport,
}

// The most bytes of data of an option that are looked at.
pub(crate) const MOST_DATA: usize = 8192;

const EXPORT_NAME: u32 = 1;

const ABORT: u32 = 2;

const LIST: u32 = 3;

const INFO: u32 = 6;

const GO: u32 = 7;

const ACK: u32 = 1;

const SERVER: u32 = 2;

const INFO_REPLY: u32 = 3;

const UNSUPPORTED: u32 = 0x8000_0001;

const INVALID: u32 = 0x8000_0003;

const UNKNOWN: u32 = 0x8000_0006;

const TOO_BIG: u32 = 0x8000_0009;

// Answers an option whose data were read.
#[tactic(auto, unfolding(crate::specs::Options::short_answer))]
pub(crate) fn answer_short<B: Sink>(
    export: &Export,
    sectors: u64,
    hello: Hello,
    option: u32,
    buffer: &mut [u8],
    count: usize,
    sink: &mut B,
) -> Result<Phase, Served>
    requires few { sectors ≤ 2 ^ 31 }
    requires room { length buffer.old ≡ 8192 }
    requires within { count ≤ 8192 }
    ensures { Says (short_answer export.now sectors hello option (take count buffer.old))
        (B.written sink.old) (B.written sink.new) (B.faults sink.old) (B.faults sink.new) result }
{
    match option {
        EXPORT_NAME => answer_name(export, sectors, hello, &buffer[..count], sink),
        ABORT => say(sink, &option_reply(ABORT, ACK, 0), Phase::Aborted),
        LIST => {
            if count > 0 {
                return refuse_option(sink, LIST, INVALID);
            }
            answer_list(export, buffer, sink)
        }
        INFO => answer_info(
            export,
            sectors,
            INFO,
            &buffer[..count],
            Phase::Options,
            sink,
        ),
        GO => answer_info(
            export,
            sectors,
            GO,
            &buffer[..count],
            Phase::Transmission,
            sink,
        ),
        _ => refuse_option(sink, option, UNSUPPORTED),
    }
}

// Answers an option whose data were too long and are gone.
#[tactic(auto, unfolding(crate::specs::Options::long_answer))]
pub(crate) fn answer_long<B: Sink>(option: u32, sink: &mut B) -> Result<Phase, Served>
    ensures { Says (long_answer option)
        (B.written sink.old) (B.written sink.new) (B.faults sink.old) (B.faults sink.new) result }
{
    if option == EXPORT_NAME {
        return Ok(Phase::UnknownExport);
    }
    refuse_option(sink, option, TOO_BIG)
}

// Sends all that is said to an option.
fn say<B: Sink>(sink: &mut B, said: &[u8], phase: Phase) -> Result<Phase, Served>
    ensures { Says (record { said = said.now; next = next_of phase })
        (B.written sink.old) (B.written sink.new) (B.faults sink.old) (B.faults sink.new) result }
{
    match send(sink, said) {
        Ok(()) => Ok(phase),
        Err(end) => Err(end),
    }
}

fn refuse_option<B: Sink>(sink: &mut B, option: u32, error: u32) -> Result<Phase, Served>
    ensures { Says (refused option error)
        (B.written sink.old) (B.written sink.new) (B.faults sink.old) (B.faults sink.new) result }
{
    say(sink, &option_reply(option, error, 0), Phase::Options)
}

fn flags(export: &Export) -> u16
    ensures { result ≡ export_flags export.now }
{
    if export.read_only { 0x0107 } else { 0x016D }
}

// The name of the export, or no name.
fn is_named(export: &Export, name: &[u8]) -> bool
    ensures { result ≡ is_named export.now name.now }
{
    name.is_empty() || name == export.name.as_slice()
}

fn answer_name<B: Sink>(
    export: &Export,
    sectors: u64,
    hello: Hello,
    name: &[u8],
    sink: &mut B,
) -> Result<Phase, Served>
    requires { sectors ≤ 2 ^ 31 }
    ensures { Says (name_answer export.now sectors hello name.now)
        (B.written sink.old) (B.written sink.new) (B.faults sink.old) (B.faults sink.new) result }
{
    if !is_named(export, name) {
        return Ok(Phase::UnknownExport);
    }
    let said = name_reply(sectors, flags(export));
    if hello.no_zeroes {
        return say(sink, &said, Phase::Transmission);
    }
    let padded: [u8; 134] = join(said, [0; 124]);
    say(sink, &padded, Phase::Transmission)
}

fn answer_list<B: Sink>(export: &Export, buffer: &mut [u8], sink: &mut B) -> Result<Phase, Served>
    requires { length buffer.old ≡ 8192 }
    ensures { Says (listed export.now)
        (B.written sink.old) (B.written sink.new) (B.faults sink.old) (B.faults sink.new) result }
{
    let count = write_list(export, buffer);
    say(sink, &buffer[..count], Phase::Options)
}

// Writes the two replies to LIST, and gives how many bytes they have.
fn write_list(export: &Export, buffer: &mut [u8]) -> usize
    requires { length buffer.old ≡ 8192 }
    ensures said { take result buffer.new ≡ (listed export.now).said }
    ensures within { result ≤ 8192 }
{
    let name = export.name.as_slice();
    let count = name.len() as u32;
    let head: [u8; 24] = join(option_reply(LIST, SERVER, 4 + count), count.to_be_bytes());
    let (front, rest) = buffer.split_at_mut(24);
    let (middle, rest) = rest.split_at_mut(name.len());
    let (back, _) = rest.split_at_mut(20);
    front.copy_from_slice(&head);
    middle.copy_from_slice(name);
    back.copy_from_slice(&option_reply(LIST, ACK, 0));
    44 + name.len()
}

fn answer_info<B: Sink>(
    export: &Export,
    sectors: u64,
    option: u32,
    items: &[u8],
    phase: Phase,
    sink: &mut B,
) -> Result<Phase, Served>
    requires { sectors ≤ 2 ^ 31 }
    ensures { Says (info_answer export.now sectors option (next_of phase) (info_name items.now))
        (B.written sink.old) (B.written sink.new) (B.faults sink.old) (B.faults sink.new) result }
{
    let Some(name) = decode_info(items) else {
        return refuse_option(sink, option, INVALID);
    };
    if !is_named(export, name) {
        return refuse_option(sink, option, UNKNOWN);
    }
    say(sink, &info_replies(option, sectors, flags(export)), phase)
}

// INFO export, INFO block size and ACK.
#[tactic(auto, unfolding(nbd_wire::specs::Infos::info_export_bytes, nbd_wire::specs::Infos::info_block_size_bytes))]
fn info_replies(option: u32, sectors: u64, flags: u16) -> [u8; 86]
    requires { sectors ≤ 2 ^ 31 }
    ensures { result ≡ with_data option 3 (info_export_bytes sectors flags)
        ++ with_data option 3 info_block_size_bytes ++ ack option }
{
    let size: [u8; 32] = join(
        option_reply(option, INFO_REPLY, 12),
        info_export(sectors, flags),
    );
    let blocks: [u8; 34] = join(option_reply(option, INFO_REPLY, 14), info_block_size());
    let both: [u8; 66] = join(size, blocks);
    join(both, option_reply(option, ACK, 0))
}
