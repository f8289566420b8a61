//! What the lines of the control do beside the lanes.
use crate::clients::Ask;
use crate::expecting::holds;
use crate::images::{FIRST, Lower, image_over};
use crate::lane_tests::{
    LARGE, READ_BEFORE_AND_AFTER, READ_TWICE, SEALED, USED_FIRST, USED_SECOND, WRITE_AND_FLUSH,
    is_read_again, is_sealed,
};
use crate::scenes::{Signals, is_served, play};
use crate::signals::Barrier;
use control_session::ControlEnd;
use std::test::Fail;

const LINES: &[u8] = b"status\nwarm 0\nwarm 1\ncommit x\nquit\n";

const ANSWERS: &[u8] =
    b"status sectors 4 layers 1 entries 0 pending none\nwarmed 0 1\nrefused no layer\nrefused line\nbye\n";

#[test]
fn each_line_is_answered(rt: HostRuntime) -> Result<(), Fail> {
    let alloc = rt.alloc();
    let signals = Signals::new();
    let outcome = play(
        &rt,
        alloc,
        image_over(alloc, &[FIRST])?,
        &[FIRST],
        signals.first_client(&[]),
        signals.second_client(&[]),
        signals.controller(LINES, ANSWERS),
    )?;
    holds(
        &rt,
        is_served(alloc, &signals, &outcome, &[], &[], ANSWERS)?,
        "each line",
    );
    holds(&rt, outcome.end == Some(ControlEnd::Quit), "its end");
    Ok(())
}

const WARM: &[u8] = b"warm 0\n";

const WARMED: &[u8] = b"warmed 0 1\n";

#[test]
fn a_block_that_is_warm_is_not_read_again(rt: HostRuntime) -> Result<(), Fail> {
    let alloc = rt.alloc();
    let signals = Signals::new();
    let mut first = signals.first_client(&READ_TWICE);
    first.after = &signals.control;
    let outcome = play(
        &rt,
        alloc,
        image_over(alloc, &[FIRST])?,
        &[FIRST],
        first,
        signals.second_client(&[]),
        signals.controller(WARM, WARMED),
    )?;
    holds(
        &rt,
        is_served(alloc, &signals, &outcome, &READ_TWICE, &[], WARMED)?,
        "two reads",
    );
    holds(&rt, outcome.end == Some(ControlEnd::Ended), "its end");
    holds(
        &rt,
        signals.reads.count() == 0,
        "no read of the lane's shelf",
    );
    Ok(())
}

const COMMIT: &[u8] = b"commit 22222222-2222-2222-2222-222222222222\nstatus\n";

const COMMITTED: &[u8] =
    b"committed 22222222-2222-2222-2222-222222222222\nstatus sectors 4 layers 2 entries 5 pending none\n";

// What lane 1 wrote, as it is committed.
const SEALED_SECTOR: Lower = Lower {
    uuid: 0x22,
    parent: 0x11,
    sectors: 4,
    data: &[0x7A],
    rows: &[1, 0, 0, 0, 0, 0, 4, 0, 8, 0, 0, 0, 0, 0, 0, 0],
};

// The read of lane 0 waits in its fetch until lane 1 has flushed a write to that sector and the control has
// committed it. The history is then that read, the write, the flush, the freeze and the seal.
#[test]
fn a_commit_goes_on_while_a_lane_waits(rt: HostRuntime) -> Result<(), Fail> {
    let alloc = rt.alloc();
    let signals = Signals::new();
    let mut first = signals.first_client(&READ_BEFORE_AND_AFTER);
    first.barrier = Barrier {
        shut: &signals.always,
        asked: &signals.asked,
        opened: &signals.control,
    };
    let mut second = signals.second_client(&WRITE_AND_FLUSH);
    second.after = &signals.asked;
    let mut control = signals.controller(COMMIT, COMMITTED);
    control.after = &signals.second;
    let disk = image_over(alloc, &[FIRST])?;
    let outcome = play(&rt, alloc, disk, &[FIRST], first, second, control)?;
    let first = &READ_BEFORE_AND_AFTER;
    holds(
        &rt,
        is_served(
            alloc,
            &signals,
            &outcome,
            first,
            &WRITE_AND_FLUSH,
            COMMITTED,
        )?,
        "all",
    );
    let (sealed, _disk) = is_sealed(alloc, outcome.disk, &SEALED_SECTOR)?;
    holds(&rt, sealed, "the sealed file");
    Ok(())
}

const WRITE_AND_READ: [Ask; 2] = [Ask::Write(0, 512, 0x7A), Ask::Read(0, 512, 0x7A)];

// The control's warming waits in its fetch until lane 0 has read what it wrote.
#[test]
fn a_lane_goes_on_while_the_control_waits(rt: HostRuntime) -> Result<(), Fail> {
    let alloc = rt.alloc();
    let signals = Signals::new();
    let mut first = signals.first_client(&WRITE_AND_READ);
    first.after = &signals.asked;
    let mut control = signals.controller(WARM, WARMED);
    control.after = &signals.accepted;
    control.barrier = Barrier {
        shut: &signals.accepted,
        asked: &signals.asked,
        opened: &signals.first,
    };
    let disk = image_over(alloc, &[FIRST])?;
    let second = signals.second_client(&[]);
    let outcome = play(&rt, alloc, disk, &[FIRST], first, second, control)?;
    holds(
        &rt,
        is_served(alloc, &signals, &outcome, &WRITE_AND_READ, &[], WARMED)?,
        "all",
    );
    Ok(())
}

const COMMIT_ALL: &[u8] = b"commit 33333333-3333-3333-3333-333333333333\n";

const COMMITTED_ALL: &[u8] = b"committed 33333333-3333-3333-3333-333333333333\n";

#[test]
fn what_two_lanes_wrote_is_committed_and_read_again(rt: HostRuntime) -> Result<(), Fail> {
    let alloc = rt.alloc();
    let signals = Signals::new();
    let mut second = signals.second_client(&USED_SECOND);
    second.done = &signals.first;
    let mut control = signals.controller(COMMIT_ALL, COMMITTED_ALL);
    control.after = &signals.first;
    control.times = 2;
    let disk = image_over(alloc, &LARGE)?;
    let first = signals.first_client(&USED_FIRST);
    let outcome = play(&rt, alloc, disk, &LARGE, first, second, control)?;
    let first = &USED_FIRST;
    holds(
        &rt,
        is_served(
            alloc,
            &signals,
            &outcome,
            first,
            &USED_SECOND,
            COMMITTED_ALL,
        )?,
        "all",
    );
    let (sealed, disk) = is_sealed(alloc, outcome.disk, &SEALED)?;
    holds(&rt, sealed, "the sealed file");
    holds(
        &rt,
        is_read_again(&rt, alloc, disk)?,
        "every read is as before",
    );
    Ok(())
}
