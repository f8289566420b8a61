//! Seats of one image, one after another and at once.
ghost use Rattle.std.specs.Prelude.{◌≡◌, ◌+◌, ◌*◌, ◌<◌, ◌≤◌, [], false, length, IfOk};
ghost use Rattle.lsmt_header.specs.Blocks.{nil};
ghost use Rattle.turn_lock.specs.Locks.{AreSeats};
ghost use Rattle.flat_image.specs.declared.base.Base.{Base};
ghost use Rattle.flat_image.specs.History.{History};
ghost use Rattle.image_core.specs.Seen.{seen, StandsFor};
ghost use Rattle.image_core.specs.Steps.{MayStep, MayRun};
ghost use Rattle.shared_image.specs.Turns.{IsIdleSeat, IsSameSeat};

use crate::images::{holds, new_image, no_files, shelf_of, started};
use block_disk::{Disk, MemDisk};
use flat_image::PortFault;
use image_core::{CopyState, Image, Numbered, ReplyList, Status, Step, StepList, run_steps};
use sealed_layer::{paint_part, read_layer};
use sector_extent::{Bytes, Extent, GapList, ListOf, Memory};
use shared_image::{ImageSeat, SharedImage, acknowledged_law, committed_law, one_thread_law};
use std::alloc::Global;
use std::sync::Wait;
use std::sync::atomic::{AtomicU64, Ordering};
use std::test::Fail;
use std::thread;
use std::thread::{Threads, yield_now};

// The sectors of the image, and those that each of four seats has for itself.
const SECTORS: u64 = 16;

const OWN: u64 = 4;

// The uuid of a commit.
const COMMIT: [u8; 16] = [0x22; 16];

// How often a caller looks for the others before it goes on without them.
const LOOKS: u32 = 100_000;

// The callers that came, and those that were done, with a bit for each number.
#[derive(Drop)]
struct Meeting {
    came: AtomicU64,
    done: AtomicU64,
}

impl Meeting {
    fn new() -> Meeting {
        Meeting {
            came: AtomicU64::new(0),
            done: AtomicU64::new(0),
        }
    }

    // Comes, and looks for the others.
    fn come(&self) {
        self.came.fetch_add(1, Ordering::SeqCst);
        for _ in 0..LOOKS {
            if self.came.load(Ordering::SeqCst) >= 5 {
                return;
            }
            yield_now();
        }
    }

    fn tell(&self, number: u64) {
        self.done.fetch_add(1 << number.min(4), Ordering::SeqCst);
    }

    fn are_done(&self) -> u64 {
        self.done.load(Ordering::SeqCst)
    }
}

// Two flushes by one seat.
fn flush_twice<D: Disk, R: Wait>(
    rt: &R,
    shared: &SharedImage<D>,
    mut seat: ImageSeat<D>,
) -> [Result<(), PortFault>; 2]
    requires { IsIdleSeat shared.now seat }
{
    let first = shared.flush(rt, &mut seat);
    [first, shared.flush(rt, &mut seat)]
}

#[test]
fn a_shared_image_wears_out(rt: HostRuntime) -> Result<(), Fail> {
    let alloc = rt.alloc();
    let (shared, list) = started(
        alloc,
        MemDisk::new(alloc),
        SECTORS,
        1,
        4_611_686_018_427_387_903,
    )?;
    let Some(seat) = list.into_vec().pop() else {
        return Err("a seat")?;
    };
    let answers = flush_twice(&rt, &shared, seat);
    holds(
        &rt,
        answers == [Ok(()), Err(PortFault::Worn)],
        "the second flush",
    );
    Ok(())
}

// A sector that one seat wrote, as another plans it that met it, and what this one is told of the image.
fn planned_behind<D: Disk, R: Wait>(
    rt: &R,
    alloc: Global,
    shared: &SharedImage<D>,
    mut from: ImageSeat<D>,
    mut to: ImageSeat<D>,
) -> Result<([u8; 512], bool, u64), Fail>
    requires sectors { shared.now.base.sectors ≡ 16 }
    requires from { IsIdleSeat shared.now from }
    requires to { IsIdleSeat shared.now to }
{
    let extent = Extent { at: 3, count: 1 };
    shared.write(rt, &mut from, extent, &[0x61; 512])?;
    shared.meet(&mut from, &mut to)?;
    let mut out = [0; 512];
    let mut gaps = GapList::from_vec(Vec::new(alloc));
    let _snapshot = shared.plan(rt, alloc, &mut to, extent, &mut out, &mut gaps)?;
    let (status, count) = shared.status(rt, &mut to)?;
    Ok((
        out,
        gaps.as_slice().is_empty() && status.sectors == SECTORS,
        count,
    ))
}

#[test]
fn seats_meet(rt: HostRuntime) -> Result<(), Fail> {
    let alloc = rt.alloc();
    let (shared, list) = started(alloc, MemDisk::new(alloc), SECTORS, 2, 7)?;
    let mut list = list.into_vec();
    let Some(to) = list.pop() else {
        return Err("a seat")?;
    };
    let Some(from) = list.pop() else {
        return Err("a seat")?;
    };
    let (out, whole, count) = planned_behind(&rt, alloc, &shared, from, to)?;
    holds(&rt, out == [0x61; 512], "the sector");
    holds(&rt, whole && count == 9, "the status");
    Ok(())
}

// The bytes that one of four callers writes into two sectors of its own, and into a fourth one.
fn own_bytes(number: u64) -> [u8; 1024] {
    [number.min(3) as u8 + 0x61; 1024]
}

const LAST: [u8; 512] = [0x70; 512];

// What one of four seats does in sectors of its own.
fn change_own<D: Disk, R: Wait>(
    rt: &R,
    shared: &SharedImage<D>,
    seat: &mut ImageSeat<D>,
    number: u64,
) -> Result<(), PortFault>
    requires sectors { shared.now.base.sectors ≡ 16 }
    requires seat { IsIdleSeat shared.now seat.old }
    requires number { number < 4 }
    ensures same { IsSameSeat seat.old seat.new }
{
    let at = OWN * number;
    shared.write(rt, seat, Extent { at, count: 2 }, &own_bytes(number))?;
    shared.zero(
        rt,
        seat,
        Extent {
            at: at + 1,
            count: 2,
        },
    )?;
    shared.flush(rt, seat)?;
    shared.write(
        rt,
        seat,
        Extent {
            at: at + 3,
            count: 1,
        },
        &LAST,
    )
}

// Copies all pieces of the commit.
fn copy_whole<D: Disk, R: Wait>(rt: &R, shared: &SharedImage<D>, seat: &mut ImageSeat<D>) -> bool
    requires seat { IsIdleSeat shared.now seat.old }
    ensures same { IsSameSeat seat.old seat.new }
{
    for _ in 0..100 {
        match shared.copy(rt, seat, COMMIT) {
            Ok(CopyState::More) => {}
            Ok(CopyState::Whole) => return true,
            Err(_) => return false,
        }
    }
    false
}

// What a fifth seat does: it makes a whole commit.
fn commit_whole<D: Disk, R: Wait>(
    rt: &R,
    alloc: Global,
    shared: &SharedImage<D>,
    seat: &mut ImageSeat<D>,
) -> bool
    requires seat { IsIdleSeat shared.now seat.old }
    ensures same { IsSameSeat seat.old seat.new }
{
    shared.freeze(rt, alloc, seat, COMMIT).is_ok()
        && copy_whole(rt, shared, seat)
        && shared.seal(rt, seat, COMMIT).is_ok()
}

// What the caller with that number does, and whether it was done.
fn act<D: Disk, R: Wait>(
    rt: &R,
    alloc: Global,
    shared: &SharedImage<D>,
    seat: &mut ImageSeat<D>,
    number: u64,
) -> bool
    requires sectors { shared.now.base.sectors ≡ 16 }
    requires seat { IsIdleSeat shared.now seat.old }
    ensures same { IsSameSeat seat.old seat.new }
{
    if number < 4 {
        return change_own(rt, shared, seat, number).is_ok();
    }
    commit_whole(rt, alloc, shared, seat)
}

// The same by the seat with that number, once all have come. Where it is done, the bit of the number is
// added.
fn act_as<D: Disk, R: Wait>(
    rt: &R,
    alloc: Global,
    shared: &SharedImage<D>,
    seat: &mut ImageSeat<D>,
    number: usize,
    meeting: &Meeting,
)
    requires sectors { shared.now.base.sectors ≡ 16 }
    requires seat { (seat.old.lock ≡ shared.now.id) × (seat.old.holds ≡ false) }
    ensures { (seat.new.lock ≡ seat.old.lock) × (seat.new.number ≡ seat.old.number) × (seat.new.holds ≡ false) }
{
    let number = number.min(4) as u64;
    meeting.come();
    if act(rt, alloc, shared, seat, number) {
        meeting.tell(number);
    }
}

// All five at once, each in a thread of its own.
fn act_by_each<D: Disk + Send, R: Threads + Wait + Sync>(
    rt: &R,
    alloc: Global,
    shared: &SharedImage<D>,
    seats: &mut [ImageSeat<D>],
    meeting: &Meeting,
)
    requires sectors { shared.now.base.sectors ≡ 16 }
    requires seats { AreSeats shared.now.id shared.now.seats seats.old }
    ensures { AreSeats shared.now.id shared.now.seats seats.new }
{
    let threads = seats.len().max(1);
    thread::for_each_mut(
        rt,
        seats,
        threads,
        &|number, seat| { act_as(rt, alloc, shared, seat, number, meeting) },
    );
}

// The image that they leave.
fn changed_at_once<D: Disk + Send + Drop, R: Threads + Wait + Sync>(
    rt: &R,
    alloc: Global,
    disk: D,
    meeting: &Meeting,
) -> Result<Image<D>, Fail>
    ensures { IfOk result (λ image. (base : Base) × (history : History) × (base.lowers ≡ [])
        × StandsFor (seen D.Disk image) base history) }
{
    let (shared, list) = started(alloc, disk, SECTORS, 5, 0)?;
    let mut list = list.into_vec();
    act_by_each(rt, alloc, &shared, list.as_mut_slice(), meeting);
    Ok(shared.close(ListOf::from_vec(list)))
}

// The sectors of an image whose commit has five pieces.
const MANY: u64 = 1024;

// Writes the first sector, which the first piece of the commit's file has, and the last one, which the last
// piece has.
fn write_ends<D: Disk, R: Wait>(
    rt: &R,
    shared: &SharedImage<D>,
    seat: &mut ImageSeat<D>,
) -> Result<(), PortFault>
    requires sectors { shared.now.base.sectors ≡ 1024 }
    requires seat { IsIdleSeat shared.now seat.old }
    ensures same { IsSameSeat seat.old seat.new }
{
    shared.write(rt, seat, Extent { at: 0, count: 1 }, &[0x7A; 512])?;
    shared.write(rt, seat, Extent { at: 1023, count: 1 }, &[0x7A; 512])
}

// Copies the next piece of a commit, and then writes both ends by another seat.
fn copy_beside<D: Disk, R: Wait>(
    rt: &R,
    shared: &SharedImage<D>,
    seat: &mut ImageSeat<D>,
    other: &mut ImageSeat<D>,
) -> Result<CopyState, Fail>
    requires sectors { shared.now.base.sectors ≡ 1024 }
    requires seat { IsIdleSeat shared.now seat.old }
    requires other { IsIdleSeat shared.now other.old }
    ensures seat { IsSameSeat seat.old seat.new }
    ensures other { IsSameSeat other.old other.new }
{
    let state = shared.copy(rt, seat, COMMIT);
    write_ends(rt, shared, other)?;
    match state {
        Ok(state) => Ok(state),
        Err(_) => Err(Fail::from("it was not copied")),
    }
}

// Writes all sectors.
fn write_whole<D: Disk, R: Wait>(
    rt: &R,
    alloc: Global,
    shared: &SharedImage<D>,
    seat: &mut ImageSeat<D>,
) -> Result<(), Fail>
    requires sectors { shared.now.base.sectors ≡ 1024 }
    requires seat { IsIdleSeat shared.now seat.old }
    ensures same { IsSameSeat seat.old seat.new }
{
    let bytes = vec![in alloc; 0x61; 524_288]?;
    let all = Extent { at: 0, count: 1024 };
    shared.write(rt, seat, all, bytes.as_slice())?;
    Ok(())
}

// Writes all sectors, and begins a commit of them.
fn freeze_whole<D: Disk, R: Wait>(
    rt: &R,
    alloc: Global,
    shared: &SharedImage<D>,
    seat: &mut ImageSeat<D>,
) -> Result<(), Fail>
    requires sectors { shared.now.base.sectors ≡ 1024 }
    requires seat { IsIdleSeat shared.now seat.old }
    ensures same { IsSameSeat seat.old seat.new }
{
    write_whole(rt, alloc, shared, seat)?;
    if shared.freeze(rt, alloc, seat, COMMIT).is_err() {
        return Err(Fail::from("it was not frozen"));
    }
    Ok(())
}

// All pieces of the commit of an image that was written whole.
fn copied_beside<D: Disk, R: Wait>(
    rt: &R,
    alloc: Global,
    shared: &SharedImage<D>,
    seat: &mut ImageSeat<D>,
    other: &mut ImageSeat<D>,
) -> Result<[CopyState; 5], Fail>
    requires sectors { shared.now.base.sectors ≡ 1024 }
    requires seat { IsIdleSeat shared.now seat.old }
    requires other { IsIdleSeat shared.now other.old }
    ensures seat { IsSameSeat seat.old seat.new }
    ensures other { IsSameSeat other.old other.new }
{
    freeze_whole(rt, alloc, shared, seat)?;
    let first = copy_beside(rt, shared, seat, other)?;
    let second = copy_beside(rt, shared, seat, other)?;
    let third = copy_beside(rt, shared, seat, other)?;
    let fourth = copy_beside(rt, shared, seat, other)?;
    let fifth = copy_beside(rt, shared, seat, other)?;
    Ok([first, second, third, fourth, fifth])
}

// Seals the commit, and reads the file that it left, of a block, 1,024 sectors, a block of rows and a block.
fn sealed_file<D: Disk, R: Wait>(
    rt: &R,
    alloc: Global,
    shared: &SharedImage<D>,
    seat: &mut ImageSeat<D>,
) -> Result<(u32, Vec<u8>), Fail>
    requires seat { IsIdleSeat shared.now seat.old }
    ensures same { IsSameSeat seat.old seat.new }
{
    let mut file = vec![in alloc; 0; 536_576]?;
    let Ok(epoch) = shared.seal(rt, seat, COMMIT) else {
        return Err(Fail::from("it was not sealed"));
    };
    shared.peek(rt, seat, epoch, 0, file.as_mut_slice())?;
    Ok((epoch, file))
}

// What a commit came to: what the copies answered, the epoch and the file, and the first sector and the
// status afterwards.
#[derive(Drop)]
struct Commit {
    states: [CopyState; 5],
    epoch: u32,
    file: Vec<u8>,
    out: [u8; 512],
    told: (Status, u64),
}

// Commits an image that was written whole, beside writes of another seat.
fn committed_beside<D: Disk, R: Wait>(
    rt: &R,
    alloc: Global,
    shared: &SharedImage<D>,
    mut seat: ImageSeat<D>,
    mut other: ImageSeat<D>,
) -> Result<Commit, Fail>
    requires sectors { shared.now.base.sectors ≡ 1024 }
    requires seat { IsIdleSeat shared.now seat }
    requires other { IsIdleSeat shared.now other }
{
    let states = copied_beside(rt, alloc, shared, &mut seat, &mut other)?;
    let (epoch, file) = sealed_file(rt, alloc, shared, &mut seat)?;
    let mut out = [0; 512];
    let mut gaps = GapList::from_vec(Vec::new(alloc));
    let extent = Extent { at: 0, count: 1 };
    let _snapshot = shared.plan(rt, alloc, &mut seat, extent, &mut out, &mut gaps)?;
    let told = shared.status(rt, &mut seat)?;
    Ok(Commit {
        states,
        epoch,
        file,
        out,
        told,
    })
}

fn are_copied(states: [CopyState; 5]) -> bool {
    let more = CopyState::More;
    states == [more, more, more, more, CopyState::Whole]
}

// Whether this is the status of an image with one layer, after a write, the freeze, two writes beside each
// copy, the seal and the plan.
fn is_told(told: (Status, u64)) -> bool {
    let status = Status {
        sectors: MANY,
        layers: 1,
        pending: None,
    };
    told == (status, 14)
}

// The sectors of an image of 1,024 that a layer file makes of zeros.
fn painted(alloc: Global, file: Vec<u8>) -> Result<Vec<u8>, Fail> {
    let mut shelf = shelf_of(alloc, file)?;
    let layer = read_layer(alloc, &mut shelf, 0)?;
    if layer.sectors() != MANY {
        return Err(Fail::from("it has other sectors"));
    }
    let mut out = vec![in alloc; 0; 524_288]?;
    match paint_part(&mut shelf, 0, &layer, 0, out.as_mut_slice()) {
        Ok(()) => Ok(out),
        Err(_) => Err(Fail::from("it was not painted")),
    }
}

// Whether the file has what the image held at its freeze.
fn is_frozen(alloc: Global, file: Vec<u8>) -> Result<bool, Fail> {
    let sectors = painted(alloc, file)?;
    Ok(sectors.as_slice().iter().all(|byte| *byte == 0x61))
}

#[test]
fn a_commit_is_copied_in_five_turns(rt: HostRuntime) -> Result<(), Fail> {
    let alloc = rt.alloc();
    let (shared, list) = started(alloc, MemDisk::new(alloc), MANY, 2, 0)?;
    let mut list = list.into_vec();
    let Some(other) = list.pop() else {
        return Err("a seat")?;
    };
    let Some(seat) = list.pop() else {
        return Err("a seat")?;
    };
    let commit = committed_beside(&rt, alloc, &shared, seat, other)?;
    holds(&rt, are_copied(commit.states), "five pieces");
    holds(
        &rt,
        commit.epoch == 0 && commit.out == [0x7A; 512],
        "the sector",
    );
    holds(&rt, is_told(commit.told), "the status");
    holds(&rt, is_frozen(alloc, commit.file)?, "the layer");
    committed_law();
    Ok(())
}

// Adds a step, under that number.
fn push_step(list: &mut StepList, number: u32, step: Step) -> Result<(), Memory>
    requires step { MayStep 16 step }
    requires may { MayRun 16 list.old }
    ensures may { MayRun 16 list.new }
    ensures length { length list.new ≤ length list.old + 1 }
{
    list.push(Numbered { number, step })
}

// What one of the four callers that write does, as steps.
fn push_own(alloc: Global, list: &mut StepList, number: u32) -> Result<(), Memory>
    requires number { number < 4 }
    requires may { MayRun 16 list.old }
    ensures may { MayRun 16 list.new }
    ensures length { length list.new ≤ length list.old + 4 }
{
    let at = OWN * u64::from(number);
    let bytes = Bytes::from_vec(own_bytes(u64::from(number)).to_vec(alloc)?);
    push_step(list, number, Step::Write(Extent { at, count: 2 }, bytes))?;
    let zeros = Extent {
        at: at + 1,
        count: 2,
    };
    push_step(list, number, Step::Zero(zeros))?;
    push_step(list, number, Step::Flush)?;
    let last = Extent {
        at: at + 3,
        count: 1,
    };
    let bytes = Bytes::from_vec(LAST.to_vec(alloc)?);
    push_step(list, number, Step::Write(last, bytes))
}

// What all five do, as steps, with those of the commit among the others.
fn all_steps(alloc: Global) -> Result<StepList, Memory>
    ensures may { IfOk result (MayRun 16) }
    ensures length { IfOk result (λ list. length list ≤ 19) }
{
    let mut list = StepList::from_vec(Vec::new(alloc));
    push_own(alloc, &mut list, 0)?;
    push_step(&mut list, 4, Step::Freeze(COMMIT))?;
    push_own(alloc, &mut list, 1)?;
    push_step(&mut list, 4, Step::Copy(COMMIT))?;
    push_own(alloc, &mut list, 2)?;
    push_step(&mut list, 4, Step::Seal(COMMIT))?;
    push_own(alloc, &mut list, 3)?;
    Ok(list)
}

// The image that this leaves, made in one thread.
fn changed_in_turn<D: Disk + Drop>(alloc: Global, disk: D) -> Result<Image<D>, Fail>
    ensures { IfOk result (λ image. (base : Base) × (history : History) × (base.lowers ≡ [])
        × StandsFor (seen D.Disk image) base history) }
{
    let mut image = new_image(alloc, disk, SECTORS)?;
    let mut replies = ReplyList::from_vec(Vec::new(alloc));
    run_steps(alloc, &mut image, &all_steps(alloc)?, &mut replies)?;
    Ok(image)
}

// What an image of sixteen sectors is seen as: all its bytes, what it says of itself, and its steps.
type Sight = ([u8; 8192], Status, u64);

// That of one over no lower layers.
fn sight_of<D: Disk>(alloc: Global, image: &mut Image<D>) -> Result<Sight, Fail>
    requires over { (base : Base) × (history : History) × (base.lowers ≡ [])
        × StandsFor (seen D.Disk image.old) base history }
{
    let steps = image.steps();
    let status = image.status();
    if image.sectors() != SECTORS || steps > 1000 {
        return Err(Fail::from("it is another image"));
    }
    let mut out = [0xFF; 8192];
    let all = Extent { at: 0, count: 16 };
    let mut shelf = no_files(alloc);
    let answer = image.read_whole(alloc, &mut shelf, all, &mut out);
    match answer {
        Ok(()) => Ok((out, status, steps)),
        Err(_) => Err(Fail::from("it was not read")),
    }
}

// Whether these are the status and the steps of one layer more, and the four steps of each of four
// callers with the two of a commit that note something.
fn is_committed(status: Status, steps: u64) -> bool {
    let expected = Status {
        sectors: SECTORS,
        layers: 1,
        pending: None,
    };
    status == expected && steps == 18
}

#[test]
fn what_threads_did_at_once_is_done(rt: HostRuntime) -> Result<(), Fail> {
    let alloc = rt.alloc();
    let meeting = Meeting::new();
    let mut closed = changed_at_once(&rt, alloc, MemDisk::new(alloc), &meeting)?;
    let mut run = changed_in_turn(alloc, MemDisk::new(alloc))?;
    holds(&rt, meeting.are_done() == 31, "all five");
    let (bytes, status, steps) = sight_of(alloc, &mut closed)?;
    let (same, other, others) = sight_of(alloc, &mut run)?;
    holds(&rt, bytes == same, "the same bytes");
    holds(&rt, is_committed(status, steps), "the commit");
    holds(&rt, is_committed(other, others), "the same commit");
    acknowledged_law();
    one_thread_law(&closed, &run);
    Ok(())
}
