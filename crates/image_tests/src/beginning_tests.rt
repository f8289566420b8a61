//! An image is made and changed while each call of the disk fails, or is the last before a crash. What is loaded then
//! has a beginning of what was done.
use crate::disks::{CHOICES, Fault, faulty, shelf};
use crate::expecting::{holds, holds_at};
use crate::scenes::{Answer, Outcome, Part, Played, load, make};
use crate::steps::{Act, Line, Said, are_sectors, is_said};
use block_disk::{CrashChoice, MemDisk};
use image_core::{LoadFault, ReplyList};
use std::alloc::Global;
use std::process::Abort;
use std::test::Fail;

// Two sectors, each with a flush behind it.
const CHANGES: [Line<'static>; 4] = [
    (Act::Write(0, &[0x61]), Said::Done),
    (Act::Flush, Said::Done),
    (Act::Write(1, &[0x62]), Said::Done),
    (Act::Flush, Said::Done),
];

// Which of these steps were made; none where no image was.
type Done = Option<[bool; 4]>;

fn done_in(replies: &ReplyList) -> [bool; 4] {
    let mut done = [false; 4];
    for (number, reply) in replies.as_slice().iter().enumerate().take(4) {
        done[number] = is_said(reply, &Said::Done);
    }
    done
}

// The first answer as replies.
fn first_said(answers: &[Answer]) -> Result<[bool; 4], Fail> {
    match answers.first() {
        Some(answer) => match &answer.outcome {
            Outcome::Said(replies) => Ok(done_in(replies)),
            Outcome::Read(_) => Err(Fail::from("another answer")),
        },
        None => Err(Fail::from("no answer")),
    }
}

fn changed(alloc: Global, fault: Fault) -> Result<(MemDisk, Done), Fail> {
    let disk = faulty(alloc, MemDisk::new(alloc), fault)?;
    match make(alloc, disk, shelf(alloc, &[])?, 8, &[Part::Steps(&CHANGES)])? {
        Ok(played) => {
            let Played { disk, answers, .. } = played;
            Ok((disk, Some(first_said(answers.as_slice())?)))
        }
        Err((disk, _)) => Ok((disk, None)),
    }
}

// Which of the two sectors an image has; none where there is no image.
type Held = Option<(bool, bool)>;

fn held_in(sectors: &[u8]) -> Result<(bool, bool), Fail> {
    for (first, second) in [(0, 0), (0x61, 0), (0, 0x62), (0x61, 0x62)] {
        if are_sectors(sectors, &[first, second, 0, 0, 0, 0, 0, 0]) {
            return Ok((first != 0, second != 0));
        }
    }
    Err(Fail::from("other sectors"))
}

// The first answer as a read.
fn first_held(answers: &[Answer]) -> Result<(bool, bool), Fail> {
    match answers.first() {
        Some(answer) => match &answer.outcome {
            Outcome::Read(Ok(sectors)) => held_in(sectors.as_slice()),
            _ => Err(Fail::from("the sectors were not read")),
        },
        None => Err(Fail::from("no answer")),
    }
}

fn left(alloc: Global, disk: MemDisk, choice: CrashChoice) -> Result<Held, Fail> {
    match load(
        alloc,
        disk.crash(choice)?,
        shelf(alloc, &[])?,
        &[],
        &[Part::Any],
    )? {
        Ok(played) => {
            let Played { disk, answers, .. } = played;
            let _disk = disk;
            Ok(Some(first_held(answers.as_slice())?))
        }
        Err((disk, fault)) => {
            let _disk = disk;
            if fault != LoadFault::NoImage {
                return Err(Fail::from("the files were not loaded"));
            }
            Ok(None)
        }
    }
}

// Whether a crash may leave that: a beginning of the writes that succeeded, with all that a later flush kept.
fn may_hold(done: [bool; 4], held: (bool, bool)) -> bool {
    let [first, flushed, second, kept] = done;
    let (has_first, has_second) = held;
    if has_first && !first || has_second && !second {
        return false;
    }
    if first && (flushed || kept) && !has_first || second && kept && !has_second {
        return false;
    }
    has_first || !has_second || !first
}

fn fits(done: Done, held: Held) -> bool {
    match (done, held) {
        (Some(done), Some(held)) => may_hold(done, held),
        (Some(_), None) => false,
        (None, Some(held)) => held == (false, false),
        (None, None) => true,
    }
}

// Whether all went well, and what a crash of each kind left fits.
fn all_fits(rt: &impl Abort, alloc: Global, call: u64, fault: Fault) -> Result<bool, Fail> {
    let mut all = true;
    for choice in CHOICES {
        let (disk, done) = changed(alloc, fault)?;
        let held = left(alloc, disk, choice)?;
        holds_at(rt, fits(done, held), "call", call as usize);
        all = done == Some([true; 4]) && all;
    }
    Ok(all)
}

#[test]
fn a_beginning_is_left(rt: HostRuntime) -> Result<(), Fail> {
    let alloc = rt.alloc();
    let mut calls = 0u64;
    for call in 0..100 {
        let once = all_fits(&rt, alloc, call, Fault::Call(call))?;
        let stopped = all_fits(&rt, alloc, call, Fault::From(call))?;
        if once && stopped {
            break;
        }
        calls = calls.saturating_add(1);
    }
    holds(&rt, calls > 30 && calls < 100, "calls");
    Ok(())
}
