use crate::expecting::{holds, holds_at};
use byte_ports::{MemSink, MemSource};
use control_session::{commit_text, status_text, warm_text, *};
use sector_extent::{Bytes, CallList};
use std::alloc::{AllocError, Global};
use std::process::Abort;
use std::test::Fail;

const FIVE_LINES: &str = "status\nwarm 0\nwarm 1\ncommit x\nquit\n";

// The first number of the history in memory is 2^62 - 510.
const FIVE_ANSWERS: &str = "status sectors 4 layers 1 entries 4611686018427387394 pending none
warmed 0 1
refused no layer
refused line
bye
";

const COMMITTED: &str = "committed 22222222-2222-2222-2222-222222222222
status sectors 4 layers 2 entries 4611686018427387396 pending none
";

const LONGEST: &str = "status sectors 18446744073709551615 layers 4294967295 \
    entries 18446744073709551615 pending 22222222-2222-2222-2222-222222222222\n";

fn calls(alloc: Global, failing: &[u64]) -> Result<CallList, AllocError> {
    Ok(CallList::from_vec(Vec::from_slice(alloc, failing)?))
}

// How a control ended, and what was sent.
#[derive(Drop)]
struct Ran {
    end: ControlEnd,
    out: Bytes,
}

// Serves these lines, where these calls of source and sink fail.
fn run(alloc: Global, input: &[u8], reads: &[u64], writes: &[u64]) -> Result<Ran, Fail> {
    let input = Bytes::from_vec(Vec::from_slice(alloc, input)?);
    let mut source = MemSource::new(input, calls(alloc, reads)?);
    let mut sink = MemSink::new(alloc, calls(alloc, writes)?);
    let mut port = PlainControl::new(4, 12_288);
    let end = serve_control(alloc, &mut source, &mut sink, &mut port);
    let out = sink.into_bytes();
    Ok(Ran { end, out })
}

// Whether these lines are served so.
fn is_served(alloc: Global, input: &[u8], sent: &[u8], end: ControlEnd) -> Result<bool, Fail> {
    let ran = run(alloc, input, &[], &[])?;
    Ok(ran.end == end && ran.out.as_slice() == sent)
}

// Lines, what is sent, and how the control ends.
const LINES: [(&str, &str, ControlEnd); 11] = [
    (FIVE_LINES, FIVE_ANSWERS, ControlEnd::Quit),
    (
        "commit 22222222222222222222222222222222\nstatus\n",
        COMMITTED,
        ControlEnd::Ended,
    ),
    ("warm 4294967296", "refused no layer\n", ControlEnd::Ended),
    ("warm 0000000000\n", "warmed 0 1\n", ControlEnd::Ended),
    ("warm 00000000000\n", "refused line\n", ControlEnd::Ended),
    ("warm  0\n", "refused line\n", ControlEnd::Ended),
    ("warm -1\n", "refused line\n", ControlEnd::Ended),
    (
        "commit 00000000-0000-0000-0000-000000000000\n",
        "refused line\n",
        ControlEnd::Ended,
    ),
    (
        "\nquit\r\nquit",
        "refused line\nrefused line\nbye\n",
        ControlEnd::Quit,
    ),
    ("", "", ControlEnd::Ended),
    ("quit\nstatus\n", "bye\n", ControlEnd::Quit),
];

#[test]
fn each_line_has_its_answer(rt: HostRuntime) -> Result<(), Fail> {
    for (input, sent, end) in LINES {
        let is_right = is_served(rt.alloc(), input.as_bytes(), sent.as_bytes(), end)?;
        holds(&rt, is_right, input);
    }
    Ok(())
}

fn line_ends(bytes: &[u8]) -> usize {
    let mut count: usize = 0;
    for byte in bytes {
        if *byte == b'\n' {
            count = count.saturating_add(1);
        }
    }
    count
}

// The lines, of which a last one may have no end.
fn lines_in(bytes: &[u8]) -> usize {
    match bytes.last() {
        Some(b'\n') | None => line_ends(bytes),
        Some(_) => line_ends(bytes).saturating_add(1),
    }
}

// Whether a control that is served the front of the five lines answers each line there.
fn is_cut(alloc: Global, count: usize) -> Result<bool, Fail> {
    let Some(input) = FIVE_LINES.as_bytes().get(..count) else {
        return Ok(false);
    };
    let ran = run(alloc, input, &[], &[])?;
    let lines = line_ends(ran.out.as_slice());
    Ok(lines == lines_in(input) && ran.end == ControlEnd::Ended)
}

#[test]
fn lines_are_cut_after_each_byte(rt: HostRuntime) -> Result<(), Fail> {
    for count in 0..FIVE_LINES.len() - 1 {
        holds_at(&rt, is_cut(rt.alloc(), count)?, "cut after", count);
    }
    Ok(())
}

#[test]
fn a_line_may_have_256_bytes(rt: HostRuntime) -> Result<(), Fail> {
    let alloc = rt.alloc();
    let refused = b"refused line\n";
    let mut input = Vec::from_slice(alloc, &[b'x'; 256])?;
    let last = is_served(alloc, &input, refused, ControlEnd::Ended)?;
    holds(&rt, last, "256 bytes");
    input.push(b'\n')?;
    input.extend_from_slice(&[b'x'; 257])?;
    let long = is_served(alloc, &input, refused, ControlEnd::LongLine)?;
    holds(&rt, long, "257 bytes");
    Ok(())
}

// Whether a control whose source fails at that call ends so, once the lines before are answered.
fn ends_by_source(alloc: Global, call: usize) -> Result<bool, Fail> {
    let input = FIVE_LINES.as_bytes();
    let ran = run(alloc, input, &[call as u64], &[])?;
    let lines = match input.get(..call) {
        Some(front) => line_ends(front),
        None => return Ok(false),
    };
    Ok(ran.end == ControlEnd::SourceFault && line_ends(ran.out.as_slice()) == lines)
}

// And where its sink fails at that call.
fn ends_by_sink(alloc: Global, call: usize) -> Result<bool, Fail> {
    let ran = run(alloc, FIVE_LINES.as_bytes(), &[], &[call as u64])?;
    Ok(ran.end == ControlEnd::SinkFault && line_ends(ran.out.as_slice()) == call)
}

#[test]
fn a_fault_ends_the_control(rt: HostRuntime) -> Result<(), Fail> {
    for call in 0..FIVE_LINES.len() {
        holds_at(&rt, ends_by_source(rt.alloc(), call)?, "the source", call);
    }
    for call in 0..5usize {
        holds_at(&rt, ends_by_sink(rt.alloc(), call)?, "the sink", call);
    }
    Ok(())
}

const COMMITS: [(CommitAnswer, &str); 7] = [
    (
        CommitAnswer::Done,
        "committed 11111111-1111-1111-1111-111111111111\n",
    ),
    (
        CommitAnswer::Busy([0x22; 16]),
        "refused busy 22222222-2222-2222-2222-222222222222\n",
    ),
    (CommitAnswer::TooMany, "refused too many layers\n"),
    (CommitAnswer::UuidTwice, "refused uuid twice\n"),
    (CommitAnswer::Failed, "refused disk fault\n"),
    (CommitAnswer::Worn, "refused worn\n"),
    (CommitAnswer::Memory, "refused memory\n"),
];

const STATUSES: [(StatusAnswer, &str); 2] = [
    (StatusAnswer::Worn, "refused worn\n"),
    (
        StatusAnswer::Now {
            sectors: u64::MAX,
            layers: u32::MAX,
            entries: u64::MAX,
            pending: Some([0x22; 16]),
        },
        LONGEST,
    ),
];

fn is_commit(answer: CommitAnswer, text: &str) -> bool {
    commit_text([0x11; 16], answer).as_str() == text
}

#[test]
fn each_answer_has_its_text(rt: HostRuntime) {
    for (answer, text) in COMMITS {
        holds(&rt, is_commit(answer, text), text);
    }
    for (answer, text) in STATUSES {
        holds(&rt, status_text(answer).as_str() == text, text);
    }
    let failed = warm_text(7, WarmAnswer::Failed);
    holds(&rt, failed.as_str() == "refused shelf fault\n", "a warming");
}

// How many commits are done, of 255.
fn commit_all(port: &mut PlainControl) -> usize {
    let mut done: usize = 0;
    for number in 1..=255u8 {
        if port.commit([number; 16]) == CommitAnswer::Done {
            done = done.saturating_add(1);
        }
    }
    done
}

#[test]
fn a_port_is_worn_behind_255_commits(rt: HostRuntime) {
    let mut port = PlainControl::new(4, 0);
    holds(&rt, commit_all(&mut port) == 255, "255 commits");
    holds(
        &rt,
        port.commit([0xAA; 16]) == CommitAnswer::Worn,
        "one more",
    );
    holds(&rt, port.status() == StatusAnswer::Worn, "the status");
    holds(&rt, port.warm(0) == WarmAnswer::Done(0), "a warming");
}
