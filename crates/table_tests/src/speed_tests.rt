//! What puts into small and large tables take.
ghost use Rattle.std.specs.Prelude.{◌^◌, ◌≤◌};

use crate::seg_table_tests::draw;
use sector_extent::{Extent, Memory};
use seg_table::{SegTable, What};
use std::alloc::Global;
use std::rt::Clock;
use std::test::Fail;
use std::time::Instant;

// How many puts are timed at once.
const PUTS: u64 = 200_000;

// Puts 8 sectors at each multiple of 512 sectors, in rising order, none beside another.
fn filled(alloc: Global, segments: u64) -> Result<SegTable, Memory>
    requires { segments ≤ 2 ^ 22 }
{
    let mut table = SegTable::new(alloc);
    for number in 0..segments {
        table.reserve(1)?;
        if let Some(extent) = Extent::new(512 * number, 8) {
            table.put(extent, What::Zero);
        }
    }
    Ok(table)
}

// Puts 8 sectors each over segments that are there: over any of them, or over those of so many that
// stand side by side, before it goes on to the next so many.
fn put_over(table: &mut SegTable, segments: u64, near: u64) -> Result<(), Memory>
    requires segments { segments ≤ 2 ^ 22 }
    requires near { near ≤ 2 ^ 22 }
{
    let mut state = 1;
    for number in 0..PUTS {
        let from = number / 64 * 3904;
        let at = 512 * ((from + draw(&mut state, near.max(1))) % segments.max(1));
        table.reserve(1)?;
        if let Some(extent) = Extent::new(at + number % 3, 8) {
            table.put(extent, What::Place(number));
        }
    }
    Ok(())
}

// How many nanoseconds a put took, where so many were made since the start.
fn each<R: Clock>(rt: &R, start: Instant, puts: u64) -> Result<u64, Fail> {
    let nanos = u64::try_from(start.elapsed(rt)?.as_nanos()).unwrap_or(u64::MAX);
    Ok(nanos / puts.max(1))
}

#[test]
fn puts_into_small_and_large_tables(rt: HostRuntime) -> Result<(), Fail> {
    for segments in [1_000, 100_000, 4_000_000] {
        let start = Instant::now(&rt)?;
        let mut table = filled(rt.alloc(), segments)?;
        let rising = each(&rt, start, segments)?;
        let start = Instant::now(&rt)?;
        put_over(&mut table, segments, 64)?;
        let near = each(&rt, start, PUTS)?;
        let start = Instant::now(&rt)?;
        put_over(&mut table, segments, segments)?;
        let anywhere = each(&rt, start, PUTS)?;
        println!(rt;
            "{segments} segments: {rising} ns a put in rising order, {near} ns near the last, {anywhere} ns anywhere"
        )?;
    }
    Ok(())
}
