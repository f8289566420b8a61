//! Runs of the commands over parts in memory.
use block_disk::{Disk, MemDisk};
use byte_ports::{MemSink, MemSource};
use layer_shelf::MemShelf;
use sector_extent::{Bytes, CallList, FileTexts};
use std::alloc::{AllocError, Global};
use std::process::Abort;
use std::test::Fail;
use tool_run::run_tool;
use tool_setup::WordList;

/// Whose first call fails.
#[derive(Clone, Copy, PartialEq, Eq)]
pub enum Failing {
    Nobody,
    Source,
    Sink,
    Shelf,
    Disk,
}

/// What a run answers and writes, and the disk.
#[derive(Drop)]
pub struct Ran<D> {
    pub status: u8,
    pub out: Bytes,
    pub notes: Bytes,
    pub disk: D,
}

/// Ends the test with this line, unless it holds.
pub fn holds(rt: &impl Abort, is_so: bool, line: &str) {
    assert!(rt; is_so, "{line}");
}

fn calls(alloc: Global, fails: bool) -> Result<CallList, AllocError> {
    let mut calls = Vec::new(alloc);
    if fails {
        calls.push(0)?;
    }
    Ok(CallList::from_vec(calls))
}

fn words_of(alloc: Global, line: &str) -> Result<WordList, AllocError> {
    let mut words = Vec::new(alloc);
    for word in line.split(' ') {
        words.push(String::from_str(alloc, word)?)?;
    }
    Ok(WordList::from_vec(words))
}

fn source_of(alloc: Global, input: Vec<u8>, failing: Failing) -> Result<MemSource, AllocError> {
    let failing = calls(alloc, failing == Failing::Source)?;
    Ok(MemSource::new(Bytes::from_vec(input), failing))
}

fn sink_of(alloc: Global, fails: bool) -> Result<MemSink, AllocError> {
    Ok(MemSink::new(alloc, calls(alloc, fails)?))
}

fn shelf_of(alloc: Global, files: Vec<Bytes>, failing: Failing) -> Result<MemShelf, Fail> {
    if files.len() > 256 {
        return Err(Fail::new("too many files"));
    }
    let failing = calls(alloc, failing == Failing::Shelf)?;
    Ok(MemShelf::new(FileTexts::from_vec(files), failing))
}

// Runs the words over these parts.
fn run_over<D: Disk + Drop>(
    alloc: Global,
    words: WordList,
    source: MemSource,
    out: MemSink,
    notes: MemSink,
    disk: D,
    shelf: MemShelf,
) -> Ran<D> {
    let mut source = source;
    let mut out = out;
    let mut notes = notes;
    let mut shelf = shelf;
    let (status, disk) = run_tool(
        alloc,
        &words,
        &mut source,
        &mut out,
        &mut notes,
        disk,
        &mut shelf,
    );
    Ran {
        status: status.code,
        out: out.into_bytes(),
        notes: notes.into_bytes(),
        disk,
    }
}

/// Runs a command on a disk over these lower files, with that source.
pub fn run<D: Disk + Drop>(
    alloc: Global,
    disk: D,
    line: &str,
    input: Vec<u8>,
    files: Vec<Bytes>,
    failing: Failing,
) -> Result<Ran<D>, Fail> {
    Ok(run_over(
        alloc,
        words_of(alloc, line)?,
        source_of(alloc, input, failing)?,
        sink_of(alloc, failing == Failing::Sink)?,
        sink_of(alloc, false)?,
        disk,
        shelf_of(alloc, files, failing)?,
    ))
}

/// The disk, whose first call fails where it is to.
pub fn failing_disk(alloc: Global, disk: MemDisk, failing: Failing) -> Result<MemDisk, AllocError> {
    let mut disk = disk;
    disk.fail(calls(alloc, failing == Failing::Disk)?);
    Ok(disk)
}

/// What a run prints, or notes of a refusal: this text, or sectors of one byte each.
#[derive(Clone, Copy)]
pub enum Said {
    Text(&'static str),
    Sectors(&'static [u8]),
}

/// One sector after another, each of one byte.
pub fn sectors(alloc: Global, bytes: &[u8]) -> Result<Vec<u8>, AllocError> {
    let mut all = Vec::new(alloc);
    for byte in bytes {
        all.extend_from_slice(&[*byte; 512])?;
    }
    Ok(all)
}

fn said_bytes(alloc: Global, said: Said) -> Result<Vec<u8>, AllocError> {
    match said {
        Said::Text(text) => Vec::from_slice(alloc, text.as_bytes()),
        Said::Sectors(bytes) => sectors(alloc, bytes),
    }
}

// Whether one of these has the bytes, and the other one none: the first where it is all right.
fn is_said(is_right: bool, out: &[u8], notes: &[u8], said: &[u8]) -> bool {
    if is_right {
        return out == said && notes.is_empty();
    }
    notes == said && out.is_empty()
}

/// Whether a run answers that and says this.
pub fn answers<D>(alloc: Global, ran: &Ran<D>, code: u8, said: Said) -> Result<bool, AllocError> {
    let said = said_bytes(alloc, said)?;
    let is_right = is_said(code == 0, ran.out.as_slice(), ran.notes.as_slice(), &said);
    Ok(is_right && ran.status == code)
}
