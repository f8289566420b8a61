//! How many turns of a shared image threads take in a second.
ghost use Rattle.std.specs.Prelude.{◌≡◌, ◌<◌, false, IfOk};
ghost use Rattle.turn_lock.specs.Locks.{AreSeats};
ghost use Rattle.shared_image.specs.Turns.{IsIdleSeat, IsSameSeat};

use crate::images::started;
use block_disk::{Disk, MemDisk};
use sector_extent::Extent;
use shared_image::{ImageSeat, SharedImage};
use std::alloc::Global;
use std::rt::Clock;
use std::sync::Wait;
use std::test::Fail;
use std::thread;
use std::thread::Threads;
use std::time::Instant;

// The sectors of the image, which has 64 MiB.
const SECTORS: u64 = 131_072;

// What a thread asks of the image in each of its turns.
#[derive(Clone, Copy)]
enum Asked {
    Status,
    Write,
}

// A turn. A write goes to one of the image's pieces of 4 KiB.
fn ask<D: Disk, R: Wait>(
    rt: &R,
    shared: &SharedImage<D>,
    seat: &mut ImageSeat<D>,
    asked: Asked,
    number: u64,
)
    requires sectors { shared.now.base.sectors ≡ 131072 }
    requires seat { IsIdleSeat shared.now seat.old }
    ensures same { IsSameSeat seat.old seat.new }
{
    match asked {
        Asked::Status => {
            let _ = shared.status(rt, seat);
        }
        Asked::Write => {
            let extent = Extent {
                at: 8 * (number % 16_384),
                count: 8,
            };
            let _ = shared.write(rt, seat, extent, &[7; 4096]);
        }
    }
}

// So many turns.
fn ask_all<D: Disk, R: Wait>(
    rt: &R,
    shared: &SharedImage<D>,
    seat: &mut ImageSeat<D>,
    asked: Asked,
    count: u64,
)
    requires sectors { shared.now.base.sectors ≡ 131072 }
    requires seat { (seat.old.lock ≡ shared.now.id) × (seat.old.holds ≡ false) }
    ensures { (seat.new.lock ≡ seat.old.lock) × (seat.new.number ≡ seat.old.number) × (seat.new.holds ≡ false) }
{
    for number in 0..count {
        ask(rt, shared, seat, asked, number);
    }
}

// So many turns by each seat, in threads of their own.
fn ask_by_each<D: Disk + Send, R: Threads + Wait + Sync>(
    rt: &R,
    shared: &SharedImage<D>,
    seats: &mut [ImageSeat<D>],
    asked: Asked,
    each: u64,
)
    requires sectors { shared.now.base.sectors ≡ 131072 }
    requires seats { AreSeats shared.now.id shared.now.seats seats.old }
{
    let threads = seats.len().max(1);
    thread::for_each_mut(
        rt,
        seats,
        threads,
        &|_, seat| { ask_all(rt, shared, seat, asked, each) },
    );
}

// The turns in a second of so many threads, of which there are so many in all.
fn turns<R: Threads + Wait + Clock + Sync>(
    rt: &R,
    alloc: Global,
    threads: u32,
    asked: Asked,
    count: u64,
) -> Result<u64, Fail> {
    let threads = threads.max(1);
    let (shared, seats) = started(alloc, MemDisk::new(alloc), SECTORS, threads, 0)?;
    let mut seats = seats.into_vec();
    let start = Instant::now(rt)?;
    ask_by_each(
        rt,
        &shared,
        seats.as_mut_slice(),
        asked,
        count / u64::from(threads),
    );
    let micros = u64::try_from(start.elapsed(rt)?.as_micros()).unwrap_or(u64::MAX);
    Ok(count.min(1_000_000) * 1_000_000 / micros.max(1))
}

#[test]
fn turns_of_one_two_and_four_threads(rt: HostRuntime) -> Result<(), Fail> {
    for threads in [1, 2, 4] {
        let asked = turns(&rt, rt.alloc(), threads, Asked::Status, 400_000)?;
        let writes = turns(&rt, rt.alloc(), threads, Asked::Write, 20_000)?;
        println!(rt;
            "{threads} threads: {asked} looks at the status and {writes} writes a second"
        )?;
    }
    Ok(())
}
