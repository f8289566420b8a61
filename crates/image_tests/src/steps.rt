//! Steps of an image and their replies, in short.
ghost use Rattle.std.specs.Prelude.{◌≡◌, ◌≢◌, ◌+◌, ◌*◌, ◌≤◌, IfOk, length};
ghost use Rattle.lsmt_header.specs.Blocks.{nil};
ghost use Rattle.image_core.specs.Steps.{MayStep, MayRun};

use block_disk::DiskFailed;
use image_core::{
    CopyFault, CopyState, FreezeFault, GrowFault, Numbered, Reply, SealFault, Status, Step,
    StepList,
};
use sector_extent::{Bytes, Extent, GapList, Memory};
use std::alloc::Global;
use std::test::Fail;
use top_writer::{ReadFault, WriteFault};

pub(crate) type Uuid = [u8; 16];

pub(crate) const ONE: Uuid = [0x11; 16];

pub(crate) const TWO: Uuid = [0x22; 16];

/// A step, with a sector of each byte of a write.
#[derive(Clone, Copy)]
pub(crate) enum Act<'a> {
    Plan(u64, u64),
    Write(u64, &'a [u8]),
    Zero(u64, u64),
    Flush,
    Grow(u64),
    Freeze(Uuid),
    Copy(Uuid),
    Seal(Uuid),
    Sweep,
    Status,
}

/// What it replies.
#[derive(Clone, Copy)]
pub(crate) enum Said<'a> {
    /// A sector of each byte, and places and lengths of gaps.
    Planned(&'a [u8], &'a [(u64, u32)]),
    Done,
    More,
    Whole,
    SealedAs(u32),
    Swept(u32),
    Failed,
    Busy(Uuid),
    UuidTwice,
    NotPending(Option<Uuid>),
    NotWhole(u64, u64),
    NotLarger(u64),
    /// Sectors, layers, and the commit in progress.
    Now(u64, u32, Option<Uuid>),
}

/// A step, and what it is to reply.
pub(crate) type Line<'a> = (Act<'a>, Said<'a>);

// An extent of an image of so many sectors.
fn extent_in(sectors: u64, at: u64, count: u64) -> Result<Extent, Fail>
    ensures { IfOk result (λ extent. extent.at + extent.count ≤ sectors) }
{
    let extent = Extent::new(at, count).ok_or("extent")?;
    if extent.end() > sectors {
        return Err(Fail::from("past the end"));
    }
    Ok(extent)
}

/// A sector of each of these bytes.
pub(crate) fn sectors_of(alloc: Global, bytes: &[u8]) -> Result<Vec<u8>, Fail> {
    let mut sectors = Vec::new(alloc);
    for byte in bytes {
        sectors.extend_from_slice(&[*byte; 512])?;
    }
    Ok(sectors)
}

/// Whether these are sectors of these bytes.
pub(crate) fn are_sectors(sectors: &[u8], bytes: &[u8]) -> bool {
    sectors.len() % 512 == 0
        && sectors.len() / 512 == bytes.len()
        && sectors
            .chunks_exact(512)
            .zip(bytes)
            .all(|(sector, byte)| sector.iter().all(|b| b == byte))
}

fn write_of(alloc: Global, sectors: u64, at: u64, bytes: &[u8]) -> Result<Step, Fail>
    ensures { IfOk result (MayStep sectors) }
{
    let extent = extent_in(sectors, at, bytes.len() as u64)?;
    let written = sectors_of(alloc, bytes)?;
    if written.len() != 512 * extent.count as usize {
        return Err(Fail::from("another length"));
    }
    Ok(Step::Write(extent, Bytes::from_vec(written)))
}

fn freeze_of(sectors: u64, uuid: Uuid) -> Result<Step, Fail>
    ensures { IfOk result (MayStep sectors) }
{
    if uuid == [0; 16] || sectors == 0 {
        return Err(Fail::from("no uuid"));
    }
    Ok(Step::Freeze(uuid))
}

fn grow_of(sectors: u64, larger: u64) -> Result<Step, Fail>
    ensures { IfOk result (MayStep sectors) }
{
    if larger > 1 << 31 || sectors == 0 {
        return Err(Fail::from("too large"));
    }
    Ok(Step::Grow(larger))
}

fn step_of(alloc: Global, sectors: u64, act: &Act) -> Result<Step, Fail>
    ensures { IfOk result (MayStep sectors) }
{
    match act {
        Act::Plan(at, count) => Ok(Step::Plan(extent_in(sectors, *at, *count)?)),
        Act::Write(at, bytes) => write_of(alloc, sectors, *at, bytes),
        Act::Zero(at, count) => Ok(Step::Zero(extent_in(sectors, *at, *count)?)),
        Act::Flush => Ok(Step::Flush),
        Act::Grow(larger) => grow_of(sectors, *larger),
        Act::Freeze(uuid) => freeze_of(sectors, *uuid),
        Act::Copy(uuid) => Ok(Step::Copy(*uuid)),
        Act::Seal(uuid) => Ok(Step::Seal(*uuid)),
        Act::Sweep => Ok(Step::Sweep),
        Act::Status => Ok(Step::Status),
    }
}

// Adds a step of an image of so many sectors.
fn push(list: &mut StepList, sectors: u64, step: Step) -> Result<(), Memory>
    requires step { MayStep sectors step }
    requires may { MayRun sectors list.old }
    ensures may { MayRun sectors list.new }
{
    list.push(Numbered { number: 7, step })
}

/// The steps of a table, for an image of so many sectors.
pub(crate) fn list_of(alloc: Global, sectors: u64, lines: &[Line]) -> Result<StepList, Fail>
    ensures { IfOk result (MayRun sectors) }
{
    let mut list = StepList::from_vec(Vec::new(alloc));
    for line in lines {
        let step = step_of(alloc, sectors, &line.0)?;
        push(&mut list, sectors, step)?;
    }
    Ok(list)
}

fn is_gap(gap: &Extent, place: &(u64, u32)) -> bool {
    gap.at == place.0 && gap.count == place.1
}

fn are_gaps(gaps: &[Extent], places: &[(u64, u32)]) -> bool {
    gaps.len() == places.len()
        && gaps
            .iter()
            .zip(places)
            .all(|(gap, place)| is_gap(gap, place))
}

// Whether a plan or a change was made, or the disk failed in it.
fn is_outcome(done: bool, failed: bool, said: &Said) -> bool {
    match said {
        Said::Done => done,
        Said::Failed => failed,
        _ => false,
    }
}

fn is_freeze(outcome: &Result<(), FreezeFault>, said: &Said) -> bool {
    match (outcome, said) {
        (Ok(()), Said::Done) => true,
        (Err(FreezeFault::Busy(found)), Said::Busy(uuid)) => found == uuid,
        (Err(FreezeFault::UuidTwice), Said::UuidTwice) => true,
        (Err(FreezeFault::Failed), Said::Failed) => true,
        _ => false,
    }
}

fn is_grow(outcome: &Result<(), GrowFault>, said: &Said) -> bool {
    match (outcome, said) {
        (Ok(()), Said::Done) => true,
        (Err(GrowFault::Busy(found)), Said::Busy(uuid)) => found == uuid,
        (Err(GrowFault::NotLarger(found)), Said::NotLarger(sectors)) => found == sectors,
        (Err(GrowFault::Failed), Said::Failed) => true,
        _ => false,
    }
}

fn is_copy(outcome: &Result<CopyState, CopyFault>, said: &Said) -> bool {
    match (outcome, said) {
        (Ok(CopyState::More), Said::More) => true,
        (Ok(CopyState::Whole), Said::Whole) => true,
        (Err(CopyFault::NotPending(found)), Said::NotPending(pending)) => found == pending,
        (Err(CopyFault::Failed), Said::Failed) => true,
        _ => false,
    }
}

fn is_seal(outcome: &Result<u32, SealFault>, said: &Said) -> bool {
    match (outcome, said) {
        (Ok(found), Said::SealedAs(epoch)) => found == epoch,
        (Err(SealFault::NotPending(found)), Said::NotPending(pending)) => found == pending,
        (Err(SealFault::NotWhole { done, total }), Said::NotWhole(some, all)) => {
            done == some && total == all
        }
        (Err(SealFault::Failed), Said::Failed) => true,
        _ => false,
    }
}

fn is_sweep(outcome: &Result<u32, DiskFailed>, said: &Said) -> bool {
    match (outcome, said) {
        (Ok(found), Said::Swept(count)) => found == count,
        (Err(_), Said::Failed) => true,
        _ => false,
    }
}

fn is_status(status: &Status, said: &Said) -> bool {
    match said {
        Said::Now(sectors, layers, pending) => {
            (status.sectors, status.layers, status.pending) == (*sectors, *layers, *pending)
        }
        _ => false,
    }
}

fn is_plan(outcome: &Result<(), ReadFault>, bytes: &Bytes, gaps: &GapList, said: &Said) -> bool {
    match said {
        Said::Planned(sectors, places) => {
            outcome.is_ok()
                && are_sectors(bytes.as_slice(), sectors)
                && are_gaps(gaps.as_slice(), places)
        }
        _ => is_outcome(outcome.is_ok(), *outcome == Err(ReadFault::Failed), said),
    }
}

/// Whether the reply is that.
pub(crate) fn is_said(reply: &Reply, said: &Said) -> bool {
    match reply {
        Reply::Planned {
            outcome,
            bytes,
            gaps,
        } => is_plan(outcome, bytes, gaps, said),
        Reply::Wrote(outcome) | Reply::Zeroed(outcome) => {
            is_outcome(outcome.is_ok(), *outcome == Err(WriteFault::Failed), said)
        }
        Reply::Flushed(outcome) => is_outcome(outcome.is_ok(), outcome.is_err(), said),
        Reply::Grown(outcome) => is_grow(outcome, said),
        Reply::Frozen(outcome) => is_freeze(outcome, said),
        Reply::Copied(outcome) => is_copy(outcome, said),
        Reply::SealedAs(outcome) => is_seal(outcome, said),
        Reply::Swept(outcome) => is_sweep(outcome, said),
        Reply::Now(status) => is_status(status, said),
    }
}

/// Whether the replies are those of the table.
pub(crate) fn are_said(replies: &[Reply], lines: &[Line]) -> bool {
    replies.len() == lines.len()
        && replies
            .iter()
            .zip(lines)
            .all(|(reply, line)| is_said(reply, &line.1))
}
