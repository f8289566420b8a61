//! Tables of many leaves, and what is joined.
ghost use Rattle.std.specs.Prelude.{◌≡◌, ◌+◌, ◌<◌, ◌≤◌, length, IfOk};

use crate::seg_table_tests::NOTHING;
use sector_extent::{Extent, Found, Memory, Steps};
use seg_table::{SegTable, Segment, What};
use std::alloc::Global;
use std::marker::Brand;
use std::sync::ledger::{Blank, Ledger};
use std::test::Fail;

// Puts of one place each at so many even sectors.
fn spread(alloc: Global, puts: u64) -> Result<SegTable, Memory>
    requires { puts ≤ 100000 }
{
    let mut table = SegTable::new(alloc);
    for number in 0..puts {
        table.reserve(1)?;
        if let Some(extent) = Extent::new(2 * number, 1) {
            table.put(extent, What::Place(number));
        }
    }
    Ok(table)
}

// The piece at a sector of a table of 100,000 segments takes at most 28 steps.
fn find_one<L: Ledger>(
    table: &SegTable,
    at: u64,
    out: &mut [Segment],
    steps: &mut Steps<L>,
) -> Found
    requires len { length table.now.segments ≡ 100000 }
    requires at { at < 200000 }
    requires one { length out.old ≡ 1 }
    ensures { steps.new ≤ steps.old + 28 }
{
    table.find(at, 1, out, steps)
}

// What is found at the sector 100,000, where there are 100,000 segments.
fn found_in<L: Ledger>(table: &SegTable, blank: Blank) -> Option<(Found, Segment)>
    requires name { blank.name ≡ L.name }
    requires parts { blank.parts ≡ L.parts }
    requires some { 0 < blank.parts }
{
    if table.len() != 100_000 {
        return None;
    }
    let mut steps = Steps::<L>::new(blank);
    let mut out = [NOTHING];
    let found = find_one(table, 100_000, &mut out, &mut steps);
    Some((found, out[0]))
}

#[test]
fn a_search_over_many_leaves(rt: HostRuntime) -> Result<(), Fail> {
    let mut table = spread(rt.alloc(), 100_000)?;
    let extent = Extent {
        at: 100_000,
        count: 1,
    };
    let found = Found {
        pieces: 1,
        until: 100_001,
    };
    let segment = Segment {
        extent,
        what: What::Place(50_000),
    };
    assert_eq!(rt;
        found_in::<Brand>(&table, Blank::new(1)),
        Some((found, segment))
    );
    table.reserve(1)?;
    table.put(
        Extent {
            at: 0,
            count: 200_000,
        },
        What::Zero,
    );
    assert_eq!(rt; table.len(), 1);
    Ok(())
}

fn put_place(table: &mut SegTable, extent: Extent, place: u8)
    requires { 0 < table.old.spare }
{
    if extent.count == 0 {
        return;
    }
    if place == 0 {
        table.put(extent, What::Zero);
    } else {
        table.put(extent, What::Place(u64::from(place)));
    }
}

// Each put with how many segments there are then. A place of 0 stands for zeros.
#[test]
fn what_goes_on_is_one_segment(rt: HostRuntime) -> Result<(), Fail> {
    let puts: [(u64, u64, u8, usize); 11] = [
        (8, 8, 100, 1),
        (16, 8, 108, 1),
        (0, 8, 92, 1),
        (24, 8, 117, 2),
        (32, 8, 0, 3),
        (48, 8, 0, 4),
        (40, 8, 0, 3),
        (4, 40, 96, 2),
        (44, 1, 136, 2),
        (2, 1, 94, 2),
        (2, 1, 95, 4),
    ];
    let mut table = SegTable::new(rt.alloc());
    for (at, count, place, len) in puts {
        table.reserve(1)?;
        if let Some(extent) = Extent::new(at, count) {
            put_place(&mut table, extent, place);
        }
        assert_eq!(rt; table.len(), len, "at {at}");
    }
    Ok(())
}
