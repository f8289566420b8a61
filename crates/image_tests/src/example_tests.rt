//! Images without layers, step by step.
use crate::disks::{CHOICES, Fault, faulty, file_of, loaded, made, shelf};
use crate::expecting::{holds, holds_at};
use crate::layers::{COMMITTED, layer_file};
use crate::scenes::{Answer, Part, Played, are_answers, load, make};
use crate::steps::{Act, Line, ONE, Said, TWO};
use block_disk::MemDisk;
use image_core::{CreateFault, LoadFault};
use std::alloc::Global;
use std::process::Abort;
use std::test::Fail;

// Why a load of that disk is refused.
fn refusal(alloc: Global, disk: MemDisk) -> Result<Option<LoadFault>, Fail> {
    match load(alloc, disk, shelf(alloc, &[])?, &[], &[])? {
        Ok(played) => {
            let _disk = played.disk;
            Ok(None)
        }
        Err((disk, fault)) => {
            let _disk = disk;
            Ok(Some(fault))
        }
    }
}

// Why no image is made on it.
fn not_made(alloc: Global, disk: MemDisk) -> Result<Option<CreateFault>, Fail> {
    match make(alloc, disk, shelf(alloc, &[])?, 8, &[])? {
        Ok(played) => {
            let _disk = played.disk;
            Ok(None)
        }
        Err((disk, fault)) => {
            let _disk = disk;
            Ok(Some(fault))
        }
    }
}

#[test]
fn an_image_is_made_once(rt: HostRuntime) -> Result<(), Fail> {
    let alloc = rt.alloc();
    let none = refusal(alloc, MemDisk::new(alloc))?;
    holds(&rt, none == Some(LoadFault::NoImage), "no image");
    let disk = made(alloc, MemDisk::new(alloc), &[], 8, &[])?;
    let again = not_made(alloc, disk)?;
    holds(&rt, again == Some(CreateFault::Exists), "made again");
    Ok(())
}

// A commit, with steps that are refused.
const ORDER: [Line<'static>; 8] = [
    (Act::Freeze(ONE), Said::Done),
    (Act::Freeze(TWO), Said::Busy(ONE)),
    (Act::Copy(TWO), Said::NotPending(Some(ONE))),
    (Act::Seal(ONE), Said::NotWhole(0, 1)),
    (Act::Copy(ONE), Said::Whole),
    (Act::Seal(ONE), Said::SealedAs(0)),
    (Act::Freeze(ONE), Said::UuidTwice),
    (Act::Seal(ONE), Said::NotPending(None)),
];

// Sectors are written over one another, and zeros; they are read, and committed.
const WRITTEN: [Line<'static>; 7] = [
    (Act::Write(3, &[0x61, 0x62, 0x63]), Said::Done),
    (Act::Write(4, &[0x64]), Said::Done),
    (Act::Zero(5, 1), Said::Done),
    (Act::Plan(3, 3), Said::Planned(&[0x61, 0x64, 0], &[])),
    (Act::Freeze(TWO), Said::Done),
    (Act::Copy(TWO), Said::Whole),
    (Act::Seal(TWO), Said::SealedAs(0)),
];

const EACH_KIND: [Line<'static>; 5] = [
    (Act::Write(3, &[0x61]), Said::Done),
    (Act::Zero(4, 2), Said::Done),
    (Act::Plan(2, 2), Said::Planned(&[0, 0x61], &[(2, 1)])),
    (Act::Flush, Said::Done),
    (Act::Status, Said::Now(8, 0, None)),
];

// Steps of an image of eight sectors, and how many entries they note.
const LISTS: [(&[Line<'static>], u64); 4] = [
    (&ORDER, 2),
    (&WRITTEN, 6),
    (&EACH_KIND, 4),
    (&[(Act::Flush, Said::Done)], 1),
];

// The entries behind the last answer.
fn entries_in(answers: &[Answer]) -> u64 {
    match answers.last() {
        Some(answer) => answer.steps,
        None => 0,
    }
}

fn are_made(alloc: Global, lines: &[Line], entries: u64) -> Result<bool, Fail> {
    let parts = [Part::Steps(lines)];
    match make(alloc, MemDisk::new(alloc), shelf(alloc, &[])?, 8, &parts)? {
        Ok(played) => {
            let answers = played.answers.as_slice();
            Ok(entries_in(answers) == entries && are_answers(&parts, answers))
        }
        Err((disk, _)) => {
            let _disk = disk;
            Err(Fail::from("no image was made"))
        }
    }
}

#[test]
fn steps_have_their_replies(rt: HostRuntime) -> Result<(), Fail> {
    for (number, (lines, entries)) in LISTS.iter().enumerate() {
        holds_at(&rt, are_made(rt.alloc(), lines, *entries)?, "list", number);
    }
    Ok(())
}

const READ: [Line<'static>; 1] = [(Act::Plan(3, 1), Said::Planned(&[0x61], &[]))];

#[test]
fn what_was_written_is_committed_and_loaded(rt: HostRuntime) -> Result<(), Fail> {
    let alloc = rt.alloc();
    let mut disk = made(alloc, MemDisk::new(alloc), &[], 8, &[Part::Steps(&WRITTEN)])?;
    let file = file_of(alloc, &mut disk, 4)?;
    holds(&rt, file.len() == 12_288, "its length");
    holds(&rt, file == layer_file(alloc, &COMMITTED)?, "the layer");
    let disk = made(
        alloc,
        MemDisk::new(alloc),
        &[],
        8,
        &[Part::Steps(&EACH_KIND)],
    )?;
    let _disk = loaded(alloc, disk, &[], &[Part::Steps(&READ)])?;
    Ok(())
}

// All of an image of 1,024 sectors is written at once, and committed with six copies.
const BY_FIVE: [Line<'static>; 9] = [
    (Act::Write(0, &[0x61; 1_024]), Said::Done),
    (Act::Freeze(TWO), Said::Done),
    (Act::Copy(TWO), Said::More),
    (Act::Copy(TWO), Said::More),
    (Act::Copy(TWO), Said::More),
    (Act::Copy(TWO), Said::More),
    (Act::Copy(TWO), Said::Whole),
    (Act::Copy(TWO), Said::Whole),
    (Act::Seal(TWO), Said::SealedAs(0)),
];

const THIRD_FAILS: [Line<'static>; 9] = [
    (Act::Write(0, &[0x61; 1_024]), Said::Done),
    (Act::Freeze(TWO), Said::Done),
    (Act::Copy(TWO), Said::More),
    (Act::Copy(TWO), Said::More),
    (Act::Copy(TWO), Said::Failed),
    (Act::Copy(TWO), Said::More),
    (Act::Copy(TWO), Said::More),
    (Act::Copy(TWO), Said::Whole),
    (Act::Seal(TWO), Said::SealedAs(0)),
];

// The file that is committed, where that call of the disk failed and it was in the third copy.
fn third_failed(alloc: Global, call: u64) -> Result<Option<Vec<u8>>, Fail> {
    let disk = faulty(alloc, MemDisk::new(alloc), Fault::Call(call))?;
    let parts = [Part::Steps(&THIRD_FAILS)];
    match make(alloc, disk, shelf(alloc, &[])?, 1_024, &parts)? {
        Ok(played) => {
            let Played { disk, answers, .. } = played;
            let mut disk = disk;
            if !are_answers(&parts, answers.as_slice()) {
                return Ok(None);
            }
            Ok(Some(file_of(alloc, &mut disk, 4)?))
        }
        Err((disk, _)) => {
            let _disk = disk;
            Ok(None)
        }
    }
}

#[test]
fn a_file_is_copied_in_five_pieces(rt: HostRuntime) -> Result<(), Fail> {
    let alloc = rt.alloc();
    let parts = [Part::Steps(&BY_FIVE)];
    let mut disk = made(alloc, MemDisk::new(alloc), &[], 1_024, &parts)?;
    let file = file_of(alloc, &mut disk, 4)?;
    holds(&rt, file.len() == 536_576, "its length");
    for call in 0..100 {
        if let Some(found) = third_failed(alloc, call)? {
            holds(&rt, found == file, "the file");
            return Ok(());
        }
    }
    Err(Fail::from("no third copy failed"))
}

// Calls of the disk in the making of an image, in a write with the flush behind it, and in a later one
// of these, whose mark has a gate to be closed.
const MADE: u64 = 20;

const FIRST: u64 = 8;

const SECOND: u64 = 10;

// Two sectors, the first of them flushed; the second flushed too; with that flush failing; and with the
// first one failing.
const ONE_FLUSH: [Line<'static>; 3] = [
    (Act::Write(0, &[0x61]), Said::Done),
    (Act::Flush, Said::Done),
    (Act::Write(1, &[0x62]), Said::Done),
];

const BOTH: [Line<'static>; 4] = [
    (Act::Write(0, &[0x61]), Said::Done),
    (Act::Flush, Said::Done),
    (Act::Write(1, &[0x62]), Said::Done),
    (Act::Flush, Said::Done),
];

const SECOND_FAILS: [Line<'static>; 4] = [
    (Act::Write(0, &[0x61]), Said::Done),
    (Act::Flush, Said::Done),
    (Act::Write(1, &[0x62]), Said::Done),
    (Act::Flush, Said::Failed),
];

const FIRST_FAILS: [Line<'static>; 4] = [
    (Act::Write(0, &[0x61]), Said::Done),
    (Act::Flush, Said::Failed),
    (Act::Write(1, &[0x62]), Said::Done),
    (Act::Flush, Said::Done),
];

// What fails, the steps, and what the second sector is after a crash of each kind: old, new and torn. It
// fails in the write of the gate or in the sync behind it.
const CRASHES: [(Fault, &[Line<'static>], [u8; 3]); 5] = [
    (Fault::Nothing, &ONE_FLUSH, [0, 0, 0]),
    (
        Fault::From(MADE + FIRST + SECOND - 2),
        &SECOND_FAILS,
        [0, 0, 0],
    ),
    (
        Fault::From(MADE + FIRST + SECOND - 1),
        &SECOND_FAILS,
        [0, 0x62, 0x62],
    ),
    (
        Fault::From(MADE + FIRST + SECOND),
        &BOTH,
        [0x62, 0x62, 0x62],
    ),
    (
        Fault::Call(MADE + FIRST - 1),
        &FIRST_FAILS,
        [0x62, 0x62, 0x62],
    ),
];

#[test]
fn a_crash_keeps_what_was_flushed(rt: HostRuntime) -> Result<(), Fail> {
    let alloc = rt.alloc();
    for (fault, lines, seconds) in &CRASHES {
        for (choice, second) in CHOICES.iter().zip(seconds) {
            let disk = faulty(alloc, MemDisk::new(alloc), *fault)?;
            let disk = made(alloc, disk, &[], 8, &[Part::Steps(lines)])?;
            let bytes = [0x61, *second, 0, 0, 0, 0, 0, 0];
            let _disk = loaded(alloc, disk.crash(*choice)?, &[], &[Part::Read(&bytes)])?;
        }
    }
    Ok(())
}
