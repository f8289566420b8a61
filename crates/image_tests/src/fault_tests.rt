//! Each call of the disk that a step makes fails, and in turn is the last before a crash. Whatever a crash leaves
//! is loaded, a commit in progress is carried to its end, and the image grows.
use crate::disks::{CHOICES, Fault, disk_of, faulty, file_of, files_on, loaded, made, shelf};
use crate::expecting::{holds, holds_at};
use crate::layers::{COMMITTED, layer_file};
use crate::old_tests::{APART, OldFiles, TOGETHER, old_disk};
use crate::scenes::{Answer, Outcome, Part, Played, are_answered, are_answers, load};
use crate::steps::{Act, Line, Said, TWO, are_said, are_sectors, is_said};
use block_disk::{CrashChoice, MemDisk};
use image_core::LoadFault;
use sector_extent::CallList;
use std::alloc::Global;
use std::process::Abort;
use std::test::Fail;

// More calls than any run makes.
const MOST: u64 = 200;

// The files that a case begins with.
#[derive(Clone, Copy)]
enum Start {
    // three sectors that are written, one of them again and one zeroed, and flushed
    Written,
    Old(OldFiles<'static>),
}

const WRITTEN: [Line<'static>; 4] = [
    (Act::Write(3, &[0x61, 0x62, 0x63]), Said::Done),
    (Act::Write(4, &[0x64]), Said::Done),
    (Act::Zero(5, 1), Said::Done),
    (Act::Flush, Said::Done),
];

fn started(alloc: Global, start: Start) -> Result<Vec<Vec<u8>>, Fail> {
    match start {
        Start::Written => {
            let disk = made(alloc, MemDisk::new(alloc), &[], 8, &[Part::Steps(&WRITTEN)])?;
            let mut left = disk.crash(CrashChoice::New)?;
            files_on(alloc, &mut left)
        }
        Start::Old(files) => {
            let mut disk = old_disk(alloc, &files)?;
            files_on(alloc, &mut disk)
        }
    }
}

// A step, with the steps before it, and a sector of each byte: of the image that is loaded, of the image
// before the step, and of the image behind it.
#[derive(Clone, Copy)]
struct Case<'a> {
    start: Start,
    before: &'a [Line<'a>],
    step: Line<'a>,
    loaded: &'a [u8],
    reads: &'a [u8],
    then: &'a [u8],
    // a crash keeps what the step did
    keeps: bool,
}

const BASE: [u8; 8] = [0, 0, 0, 0x61, 0x64, 0, 0, 0];

const MORE: [u8; 8] = [0x65, 0, 0, 0x61, 0x64, 0, 0, 0];

const GROWN: [u8; 12] = [0, 0, 0, 0x61, 0x64, 0, 0, 0, 0, 0, 0, 0];

const WRITE: Line<'static> = (Act::Write(0, &[0x65]), Said::Done);

const FREEZE: Line<'static> = (Act::Freeze(TWO), Said::Done);

const COPY: Line<'static> = (Act::Copy(TWO), Said::Whole);

const SEAL: Line<'static> = (Act::Seal(TWO), Said::SealedAs(0));

const SWEEP: Line<'static> = (Act::Sweep, Said::Swept(1));

const FLUSH: Line<'static> = (Act::Flush, Said::Done);

const GROW: Line<'static> = (Act::Grow(12), Said::Done);

// A step that changes no sector.
const FREEZES: Case<'static> = Case {
    start: Start::Written,
    before: &[],
    step: FREEZE,
    loaded: &BASE,
    reads: &BASE,
    then: &BASE,
    keeps: true,
};

const CHANGES: [Case<'static>; 3] = [
    Case {
        start: Start::Written,
        before: &[],
        step: WRITE,
        loaded: &BASE,
        reads: &BASE,
        then: &MORE,
        keeps: false,
    },
    Case {
        start: Start::Written,
        before: &[WRITE],
        step: FLUSH,
        loaded: &BASE,
        reads: &MORE,
        then: &MORE,
        keeps: true,
    },
    Case {
        before: &[FREEZE, COPY, SEAL],
        step: SWEEP,
        ..FREEZES
    },
];

const FROZEN: [Case<'static>; 2] = [
    FREEZES,
    Case {
        start: Start::Old(TOGETHER),
        ..FREEZES
    },
];

const COMMITS: [Case<'static>; 2] = [
    Case {
        before: &[FREEZE],
        step: COPY,
        ..FREEZES
    },
    Case {
        before: &[FREEZE, COPY],
        step: SEAL,
        ..FREEZES
    },
];

// A sector is written behind a freeze.
const WRITES: [Case<'static>; 3] = [
    Case {
        before: &[FREEZE],
        step: WRITE,
        then: &MORE,
        keeps: false,
        ..FREEZES
    },
    Case {
        before: &[FREEZE, WRITE, FLUSH, COPY],
        step: SEAL,
        reads: &MORE,
        then: &MORE,
        ..FREEZES
    },
    Case {
        before: &[FREEZE, WRITE, COPY, SEAL, SWEEP],
        step: FLUSH,
        reads: &MORE,
        then: &MORE,
        ..FREEZES
    },
];

const GROWS: [Case<'static>; 2] = [
    Case {
        start: Start::Written,
        before: &[],
        step: GROW,
        loaded: &BASE,
        reads: &BASE,
        then: &GROWN,
        keeps: true,
    },
    Case {
        start: Start::Old(APART),
        before: &[(Act::Write(7, &[0x64]), Said::Done)],
        step: GROW,
        loaded: &[0, 0x61, 0, 0, 0, 0x63, 0, 0],
        reads: &[0, 0x61, 0, 0, 0, 0x63, 0, 0x64],
        then: &[0, 0x61, 0, 0, 0, 0x63, 0, 0x64, 0, 0, 0, 0],
        keeps: true,
    },
];

// Which call failed: one before the step, one of the step, or none.
#[derive(Clone, Copy, PartialEq, Eq)]
enum When {
    Before,
    Within,
    Behind,
}

// Whether the steps got these replies.
fn has_said(answer: &Answer, lines: &[Line]) -> bool {
    match &answer.outcome {
        Outcome::Said(replies) => are_said(replies.as_slice(), lines),
        Outcome::Read(_) => false,
    }
}

// Which call failed, by the answers to the steps before, the step, a read, the step again and a read. Where the
// disk does not stop, the failure is noted and the step is made the next time.
fn told(case: &Case, answers: &[Answer], parts: &[Part], stops: bool) -> Result<When, Fail> {
    let [before, step, ..] = answers else {
        return Err(Fail::from("other answers"));
    };
    if !has_said(before, case.before) {
        return Ok(When::Before);
    }
    if has_said(step, &[case.step]) {
        return Ok(When::Behind);
    }
    let is_noted = step.steps == before.steps.wrapping_add(1);
    if !is_noted || !has_said(step, &[(case.step.0, Said::Failed)]) {
        return Err(Fail::from("another reply"));
    }
    if !stops && !are_answered(parts, answers, 2) {
        return Err(Fail::from("it does not go on"));
    }
    Ok(When::Within)
}

// What a case leaves on a disk with these files, of which that fails.
fn tried(
    alloc: Global,
    case: &Case,
    files: &[Vec<u8>],
    fault: Fault,
) -> Result<(When, MemDisk), Fail> {
    let disk = faulty(alloc, disk_of(alloc, files)?, fault)?;
    let step = [case.step];
    let parts = [
        Part::Steps(case.before),
        Part::Steps(&step),
        Part::Read(case.reads),
        Part::Steps(&step),
        Part::Read(case.then),
    ];
    match load(alloc, disk, shelf(alloc, &[])?, &[], &parts)? {
        Ok(played) => {
            let Played { disk, answers, .. } = played;
            let stops = matches!(fault, Fault::From(_));
            Ok((told(case, answers.as_slice(), &parts, stops)?, disk))
        }
        Err((disk, fault)) => {
            if fault != LoadFault::Failed {
                return Err(Fail::from("another refusal"));
            }
            Ok((When::Before, disk))
        }
    }
}

// A commit, where nothing of it was done; and where it was frozen, and where it was sealed before.
const END: [Line<'static>; 3] = [FREEZE, COPY, SEAL];

const ENDS: [[Line<'static>; 3]; 3] = [
    END,
    [(Act::Freeze(TWO), Said::Busy(TWO)), COPY, SEAL],
    [
        (Act::Freeze(TWO), Said::UuidTwice),
        (Act::Copy(TWO), Said::NotPending(None)),
        (Act::Seal(TWO), Said::NotPending(None)),
    ],
];

// A grow, and one of an image that has grown.
const ONCE: [Line<'static>; 1] = [GROW];

const LARGER: [[Line<'static>; 1]; 2] = [ONCE, [(Act::Grow(12), Said::NotLarger(12))]];

const TO_THE_END: [Part<'static>; 5] = [
    Part::Any,
    Part::Steps(&END),
    Part::Any,
    Part::Steps(&ONCE),
    Part::Any,
];

fn is_end(answer: &Answer) -> bool {
    ENDS.iter().any(|lines| has_said(answer, lines))
}

fn is_larger(answer: &Answer) -> bool {
    LARGER.iter().any(|lines| has_said(answer, lines))
}

// The sectors that were read, or none.
fn read_in(answer: &Answer) -> &[u8] {
    match &answer.outcome {
        Outcome::Read(Ok(sectors)) => sectors.as_slice(),
        _ => &[],
    }
}

// Whether a crash may leave these sectors, where the step was made or not.
fn may_be_left(case: &Case, sectors: &[u8], done: bool) -> bool {
    if are_sectors(sectors, case.then) {
        return true;
    }
    let before = are_sectors(sectors, case.loaded) || are_sectors(sectors, case.reads);
    before && !(done && case.keeps)
}

// Whether these are twelve sectors, of which the first are those and the others zeros.
fn are_grown(grown: &[u8], sectors: &[u8]) -> bool {
    if grown.len() != 6_144 || sectors.len() > 6_144 {
        return false;
    }
    let (front, behind) = grown.split_at(sectors.len());
    front == sectors && behind.iter().all(|byte| *byte == 0)
}

// Whether what a crash left is one of the images of the case, is committed, and grows, with the same sectors.
fn are_right(case: &Case, answers: &[Answer], done: bool) -> bool {
    let [found, end, still, larger, grown] = answers else {
        return false;
    };
    let sectors = read_in(found);
    may_be_left(case, sectors, done)
        && is_end(end)
        && read_in(still) == sectors
        && is_larger(larger)
        && are_grown(read_in(grown), sectors)
}

// Loads what a crash left, and carries its commit to the end.
fn goes_on(alloc: Global, case: &Case, disk: MemDisk, done: bool) -> Result<(), Fail> {
    match load(alloc, disk, shelf(alloc, &[])?, &[], &TO_THE_END)? {
        Ok(played) => {
            let Played { disk, answers, .. } = played;
            let mut disk = disk;
            if !are_right(case, answers.as_slice(), done) {
                return Err(Fail::from("other answers"));
            }
            is_committed(alloc, &mut disk, answers.as_slice())
        }
        Err((disk, _)) => {
            let _disk = disk;
            Err(Fail::from("what a crash left was not loaded"))
        }
    }
}

// Where the image that was loaded is that of the example, its commit has the layer of the example.
fn is_committed(alloc: Global, disk: &mut MemDisk, answers: &[Answer]) -> Result<(), Fail> {
    let is_base = answers
        .first()
        .is_some_and(|found| are_sectors(read_in(found), &BASE));
    if is_base && file_of(alloc, disk, 4)? != layer_file(alloc, &COMMITTED)? {
        return Err(Fail::from("another layer"));
    }
    Ok(())
}

// What a crash of each kind leaves of a case with that fault goes on. It answers which call failed.
fn each_crash(alloc: Global, case: &Case, files: &[Vec<u8>], fault: Fault) -> Result<When, Fail> {
    let mut last = When::Before;
    for choice in CHOICES {
        let (when, disk) = tried(alloc, case, files, fault)?;
        if when == When::Before {
            let _disk = disk;
            return Ok(when);
        }
        let stops = matches!(fault, Fault::From(_));
        let done = when == When::Behind || !stops;
        goes_on(alloc, case, disk.crash(choice)?, done)?;
        last = when;
    }
    Ok(last)
}

// Each call of the case fails, or is the last, until none does. It answers how many of them were calls of the step.
fn each_call(alloc: Global, case: &Case, files: &[Vec<u8>], stops: bool) -> Result<u64, Fail> {
    let mut within = 0u64;
    for call in 0..MOST {
        let fault = if stops {
            Fault::From(call)
        } else {
            Fault::Call(call)
        };
        match each_crash(alloc, case, files, fault)? {
            When::Before => {}
            When::Within => within = within.saturating_add(1),
            When::Behind => return Ok(within),
        }
    }
    Err(Fail::from("it never went through"))
}

// Whether calls of each case fail, as many where the disk stops there.
fn check_cases(rt: &impl Abort, alloc: Global, cases: &[Case]) -> Result<(), Fail> {
    for (number, case) in cases.iter().enumerate() {
        let files = started(alloc, case.start)?;
        let failed = each_call(alloc, case, files.as_slice(), false)?;
        let stopped = each_call(alloc, case, files.as_slice(), true)?;
        holds_at(rt, failed > 0 && failed == stopped, "case", number);
    }
    Ok(())
}

#[test]
fn each_call_of_a_change_fails(rt: HostRuntime) -> Result<(), Fail> {
    check_cases(&rt, rt.alloc(), &CHANGES)
}

#[test]
fn each_call_of_a_freeze_fails(rt: HostRuntime) -> Result<(), Fail> {
    check_cases(&rt, rt.alloc(), &FROZEN)
}

#[test]
fn each_call_of_a_commit_fails(rt: HostRuntime) -> Result<(), Fail> {
    check_cases(&rt, rt.alloc(), &COMMITS)
}

#[test]
fn each_call_behind_a_freeze_fails(rt: HostRuntime) -> Result<(), Fail> {
    check_cases(&rt, rt.alloc(), &WRITES)
}

#[test]
fn each_call_of_a_grow_fails(rt: HostRuntime) -> Result<(), Fail> {
    check_cases(&rt, rt.alloc(), &GROWS)
}

// Steps of the image that is loaded.
const LOADED: [(Start, &[Line<'static>]); 4] = [
    (Start::Old(TOGETHER), &[]),
    (Start::Written, &[]),
    (Start::Written, &[FREEZE, COPY]),
    (Start::Written, &[FREEZE, COPY, SEAL]),
];

// The files of an image of which these steps were made.
fn to_load(alloc: Global, start: Start, lines: &[Line]) -> Result<Vec<Vec<u8>>, Fail> {
    let disk = disk_of(alloc, started(alloc, start)?.as_slice())?;
    let disk = loaded(alloc, disk, &[], &[Part::Steps(lines)])?;
    let mut left = disk.crash(CrashChoice::Old)?;
    files_on(alloc, &mut left)
}

// Whether a load fails with that fault. It is refused for that, and the next one is not, with or without a crash.
fn fails(
    alloc: Global,
    files: &[Vec<u8>],
    fault: Fault,
    choice: Option<CrashChoice>,
) -> Result<bool, Fail> {
    let disk = faulty(alloc, disk_of(alloc, files)?, fault)?;
    match load(alloc, disk, shelf(alloc, &[])?, &[], &[])? {
        Ok(played) => {
            let _disk = played.disk;
            Ok(false)
        }
        Err((disk, fault)) => {
            if fault != LoadFault::Failed {
                return Err(Fail::from("another refusal"));
            }
            let left = match choice {
                Some(choice) => disk.crash(choice)?,
                None => disk,
            };
            let _disk = loaded(alloc, left, &[], &[Part::Read(&BASE)])?;
            Ok(true)
        }
    }
}

// Whether that call is one of the load: it fails, and it is the last before a crash of each kind.
fn is_of_load(alloc: Global, files: &[Vec<u8>], call: u64) -> Result<bool, Fail> {
    let is_one = fails(alloc, files, Fault::Call(call), None)?;
    for choice in CHOICES {
        if fails(alloc, files, Fault::From(call), Some(choice))? != is_one {
            return Err(Fail::from("it fails in one way alone"));
        }
    }
    Ok(is_one)
}

// How many calls a load makes.
fn calls_of_load(alloc: Global, files: &[Vec<u8>]) -> Result<u64, Fail> {
    for call in 0..MOST {
        if !is_of_load(alloc, files, call)? {
            return Ok(call);
        }
    }
    Err(Fail::from("it never went through"))
}

#[test]
fn each_call_of_a_load_fails(rt: HostRuntime) -> Result<(), Fail> {
    let alloc = rt.alloc();
    for (number, (start, lines)) in LOADED.iter().enumerate() {
        let files = to_load(alloc, *start, lines)?;
        let calls = calls_of_load(alloc, files.as_slice())?;
        holds_at(&rt, calls > 10, "load", number);
    }
    Ok(())
}

// Whether the reply of that number is that.
fn is_reply(answer: &Answer, number: usize, said: &Said) -> bool {
    match &answer.outcome {
        Outcome::Said(replies) => match replies.as_slice().get(number) {
            Some(reply) => is_said(reply, said),
            None => false,
        },
        Outcome::Read(_) => false,
    }
}

// Which call failed first of a step that is made three times in one list, and whether it failed twice, by the answers
// to the steps before, the list and a read. The failures are noted, and then it is made.
fn told_twice(case: &Case, answers: &[Answer], parts: &[Part]) -> Result<(When, bool), Fail> {
    let [before, list, ..] = answers else {
        return Err(Fail::from("other answers"));
    };
    if !has_said(before, case.before) {
        return Ok((When::Before, false));
    }
    if is_reply(list, 0, &case.step.1) {
        return Ok((When::Behind, false));
    }
    if !is_reply(list, 1, &Said::Failed) {
        return Ok((When::Within, false));
    }
    if list.steps != before.steps.wrapping_add(3) || !are_answers(parts, answers) {
        return Err(Fail::from("it does not go on"));
    }
    Ok((When::Within, true))
}

fn fails_twice(
    alloc: Global,
    case: &Case,
    files: &[Vec<u8>],
    calls: &[u64],
    choice: CrashChoice,
) -> Result<(When, bool), Fail> {
    let mut disk = disk_of(alloc, files)?;
    disk.fail(CallList::from_vec(Vec::from_slice(alloc, calls)?));
    let failed = (case.step.0, Said::Failed);
    let list = [failed, failed, case.step];
    let parts = [
        Part::Steps(case.before),
        Part::Steps(&list),
        Part::Read(case.then),
    ];
    match load(alloc, disk, shelf(alloc, &[])?, &[], &parts)? {
        Ok(played) => {
            let Played { disk, answers, .. } = played;
            let (when, twice) = told_twice(case, answers.as_slice(), &parts)?;
            if twice {
                goes_on(alloc, case, disk.crash(choice)?, true)?;
            }
            Ok((when, twice))
        }
        Err((disk, _)) => {
            let _disk = disk;
            Ok((When::Before, false))
        }
    }
}

// How many pairs of calls fail of a step that is made three times.
fn each_pair(alloc: Global, case: &Case) -> Result<u64, Fail> {
    let files = started(alloc, case.start)?;
    let mut pairs = 0u64;
    for first in 0..MOST {
        for (choice, behind) in CHOICES.iter().zip([1, 3, 7]) {
            let calls = [first, first + behind];
            let (when, twice) = fails_twice(alloc, case, files.as_slice(), &calls, *choice)?;
            if when == When::Behind {
                return Ok(pairs);
            }
            if twice {
                pairs = pairs.saturating_add(1);
            }
        }
    }
    Err(Fail::from("it never went through"))
}

#[test]
fn two_calls_fail(rt: HostRuntime) -> Result<(), Fail> {
    for case in [CHANGES[1], FROZEN[0], GROWS[0]] {
        holds(&rt, each_pair(rt.alloc(), &case)? > 5, "two failures");
    }
    Ok(())
}
