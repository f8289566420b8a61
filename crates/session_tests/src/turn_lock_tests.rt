//! Turns on a value that keeps a list of numbers, and stands for the acts that made it.
ghost use Rattle.std.specs.Prelude.{◌≡◌, ◌^◌, ◌<◌, ◌≤◌, false, length, IfOk};
ghost use Rattle.turn_lock.specs.Locks.{AreSeats};

use crate::expecting::{holds, holds_at};
use flat_image::{Named, Stands};
use sector_extent::ListOf;
use std::alloc::Global;
use std::marker::Brand;
use std::process::Abort;
use std::sync::Wait;
use std::test::Fail;
use std::thread;
use std::thread::Threads;
use turn_lock::{Property, Said, Seat, SeatList, Turn, Worn};

// The act that added a number.
struct Added {
    number: u64,
}

// There were no numbers.
struct Empty;

#[derive(Drop)]
struct Numbers {
    list: Vec<u64>,
}

impl Stands for Numbers {
    ghost use Rattle.std.specs.Prelude.{◌≡◌, map};

    type Act = Added;

    type Base = Empty;

    ghost stands = { λ value _ _ history. value.list.items ≡ map (λ e. e.act.number) history };
}

impl Named<Added> for Brand {
    ghost it = { record { number = 0 } };
}

impl Named<Empty> for Brand {
    ghost it = { record {} };
}

// The act that added as many as there are numbers.
struct Counted;

impl Property<Numbers, Added> for Counted {
    ghost use Rattle.std.specs.Prelude.{◌≡◌, length};

    ghost holds = { λ numbers added. added.number ≡ length numbers.list.items };
}

// An act that only exists.
fn an_act_that_is_said(numbers: &Numbers) -> Said<Added>
    ensures { result.value.number ≡ length numbers.now.list.items }
{
    Said::such::<Numbers, Counted>(numbers)
}

// Adds a number, in one turn. False where memory is wanting.
fn add_as<N: Named<Added>, R: Wait>(
    rt: &R,
    lock: &Turn<Numbers>,
    seat: &mut Seat<Numbers>,
    number: u64,
) -> Result<bool, Worn>
    requires act { N.it.number ≡ number }
    requires seat { (seat.old.lock ≡ lock.now.id) × (seat.old.holds ≡ false) }
    ensures { (seat.new.lock ≡ seat.old.lock) × (seat.new.number ≡ seat.old.number) × (seat.new.holds ≡ false) }
{
    let mut held = match lock.hold(rt, seat) {
        Ok(held) => held,
        Err(worn) => return Err(worn),
    };
    let pushed = held.value.list.push(number).is_ok();
    if pushed {
        lock.note::<N>(seat, held);
    } else {
        lock.give(seat, held);
    }
    Ok(pushed)
}

fn add<R: Wait>(
    rt: &R,
    lock: &Turn<Numbers>,
    seat: &mut Seat<Numbers>,
    number: u64,
) -> Result<bool, Worn>
    requires { (seat.old.lock ≡ lock.now.id) × (seat.old.holds ≡ false) }
    ensures { (seat.new.lock ≡ seat.old.lock) × (seat.new.number ≡ seat.old.number) × (seat.new.holds ≡ false) }
{
    add_as::<Brand, R>(rt, lock, seat, number)
}

// So many additions, one turn each.
fn add_all<R: Wait>(rt: &R, lock: &Turn<Numbers>, seat: &mut Seat<Numbers>, count: u64)
    requires { (seat.old.lock ≡ lock.now.id) × (seat.old.holds ≡ false) }
    ensures { (seat.new.lock ≡ seat.old.lock) × (seat.new.number ≡ seat.old.number) × (seat.new.holds ≡ false) }
{
    for number in 0..count {
        let _ = add(rt, lock, seat, number);
    }
}

fn started(
    alloc: Global,
    seats: u32,
    first: u64,
) -> Result<(Turn<Numbers>, SeatList<Numbers>), Fail>
    requires seats { 0 < seats }
    requires first { first ≤ 2 ^ 62 }
    ensures { IfOk result (λ made. (made.0.seats ≡ seats) × AreSeats made.0.id seats made.1) }
{
    let numbers = Numbers {
        list: Vec::new(alloc),
    };
    match Turn::start::<Brand>(alloc, numbers, seats, first) {
        Ok(made) => Ok(made),
        Err(_) => Err("memory")?,
    }
}

// So many additions by each seat, in threads of their own.
fn add_by_each<R: Threads + Wait + Sync>(
    rt: &R,
    lock: &Turn<Numbers>,
    seats: &mut [Seat<Numbers>],
    each: u64,
)
    requires { AreSeats lock.now.id lock.now.seats seats.old }
    ensures { AreSeats lock.now.id lock.now.seats seats.new }
{
    let threads = seats.len().max(1);
    thread::for_each_mut(rt, seats, threads, &|_, seat| add_all(rt, lock, seat, each));
}

// How many numbers there are once each seat has added so many.
fn added_by<R: Threads + Wait + Sync>(
    rt: &R,
    alloc: Global,
    seats: u32,
    each: u64,
) -> Result<usize, Fail>
    requires { 0 < seats }
{
    let (lock, list) = started(alloc, seats, 0)?;
    let mut list = list.into_vec();
    add_by_each(rt, &lock, list.as_mut_slice(), each);
    let numbers = lock.close(ListOf::from_vec(list));
    drop(an_act_that_is_said(&numbers));
    Ok(numbers.list.len())
}

#[test]
fn no_turn_is_lost(rt: HostRuntime) -> Result<(), Fail> {
    for (threads, each, sum) in [(1, 3, 3), (2, 1000, 2000), (4, 500, 2000)] {
        let count = added_by(&rt, rt.alloc(), threads, each)?;
        holds_at(&rt, count == sum, "by threads", threads as usize);
    }
    Ok(())
}

// Two additions by one seat.
fn add_twice<R: Wait>(
    rt: &R,
    lock: &Turn<Numbers>,
    mut seat: Seat<Numbers>,
) -> [Result<bool, Worn>; 2]
    requires { (seat.lock ≡ lock.now.id) × (seat.holds ≡ false) }
{
    let first = add(rt, lock, &mut seat, 7);
    [first, add(rt, lock, &mut seat, 8)]
}

#[test]
fn a_lock_wears_out(rt: HostRuntime) -> Result<(), Fail> {
    let (lock, list) = started(rt.alloc(), 1, 4_611_686_018_427_387_903)?;
    let Some(seat) = list.into_vec().pop() else {
        return Err("a seat")?;
    };
    let answers = add_twice(&rt, &lock, seat);
    holds(&rt, answers == [Ok(true), Err(Worn)], "two turns");
    Ok(())
}

// How many numbers a seat finds that met another, which had added one.
fn found_behind<R: Wait>(
    rt: &R,
    lock: &Turn<Numbers>,
    mut from: Seat<Numbers>,
    mut to: Seat<Numbers>,
) -> Result<usize, Fail>
    requires from { (from.lock ≡ lock.now.id) × (from.holds ≡ false) }
    requires to { (to.lock ≡ lock.now.id) × (to.holds ≡ false) }
{
    let _ = add(rt, lock, &mut from, 9);
    lock.meet(&mut from, &mut to)?;
    match lock.hold(rt, &mut to) {
        Ok(held) => {
            let count = held.value.list.len();
            lock.give(&mut to, held);
            Ok(count)
        }
        Err(_) => Err("worn")?,
    }
}

#[test]
fn seats_meet(rt: HostRuntime) -> Result<(), Fail> {
    let (lock, list) = started(rt.alloc(), 2, 0)?;
    let mut list = list.into_vec();
    let Some(to) = list.pop() else {
        return Err("a seat")?;
    };
    let Some(from) = list.pop() else {
        return Err("a seat")?;
    };
    let count = found_behind(&rt, &lock, from, to)?;
    holds(&rt, count == 1, "the numbers");
    Ok(())
}
