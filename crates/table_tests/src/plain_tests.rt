//! Random puts into a table in leaves and into the plain one.
ghost use Rattle.std.specs.Prelude.{◌≡◌, ◌<◌, ◌≤◌, ◌^◌, IfSome};
ghost use Rattle.seg_table.specs.Put.{Fits};

use crate::seg_table_tests::{NOTHING, draw, part_of};
use sector_extent::{Extent, Found, Memory, Steps};
use seg_table::{PlainTable, SegTable, Segment, What};
use std::alloc::Global;
use std::marker::Brand;
use std::process::Abort;
use std::sync::ledger::{Blank, Ledger};
use std::test::Fail;

// The sectors that are put and looked at.
const SECTORS: u64 = 4096;

// How many sectors a put has at most: mostly few, at times as many as several leaves have.
fn most(number: u64) -> u64
    ensures { 0 < result }
{
    match number % 64 {
        0 => 2048,
        1..=8 => 64,
        _ => 4,
    }
}

// An extent of any place, and what goes on into its neighbours every other time.
fn random_put(state: &mut u64, number: u64) -> Option<(Extent, What)>
    ensures { IfSome result (λ put. (0 < put.0.count) × Fits put.1 put.0.count) }
{
    let at = draw(state, SECTORS);
    let count = 1 + draw(state, most(number).min(SECTORS - at));
    let extent = Extent::new(at, count)?;
    let what = match draw(state, 4) {
        0 => What::Zero,
        1 => What::Place(draw(state, 1 << 40)),
        _ => What::Place((1 << 40) + at),
    };
    Some((extent, what))
}

// Both say the same of a sector.
fn agree<L: Ledger>(table: &SegTable, plain: &PlainTable, at: u64, steps: &mut Steps<L>) -> bool
    requires { at < 2 ^ 31 }
{
    let mut left = [NOTHING];
    let mut right = [NOTHING];
    let found = table.find(at, 1, &mut left, steps);
    found == plain.find(at, 1, &mut right, steps) && left == right
}

// Both say the same of so many sectors, and of what is the next one that is set.
fn agree_on<L: Ledger>(
    rt: &impl Abort,
    table: &SegTable,
    plain: &PlainTable,
    from: u64,
    until: u64,
    blank: Blank,
)
    requires within { until ≤ 2 ^ 31 }
    requires name { blank.name ≡ L.name }
    requires parts { blank.parts ≡ L.parts }
    requires some { 0 < blank.parts }
{
    let mut steps = Steps::<L>::new(blank);
    for at in from..until {
        assert!(rt; agree(table, plain, at, &mut steps), "at {at}");
        match (table.walk(at), plain.walk(at)) {
            (None, None) => {}
            (Some(left), Some(right)) => {
                assert_eq!(rt; (left.extent.at, left.what), (right.extent.at, right.what));
            }
            _ => assert!(rt; false, "walk from {at}"),
        }
    }
}

// One of the two tables.
#[derive(Clone, Copy)]
enum Either<'a> {
    Leaves(&'a SegTable),
    Plain(&'a PlainTable),
}

fn find_five<L: Ledger>(
    table: Either,
    at: u64,
    out: &mut [Segment; 5],
    steps: &mut Steps<L>,
) -> Found
    requires { at < 4096 }
    ensures { (result.pieces ≤ 5) × (result.until ≤ 4096) }
{
    let count = (SECTORS - at) as u32;
    match table {
        Either::Leaves(table) => table.find(at, count, out, steps),
        Either::Plain(table) => table.find(at, count, out, steps),
    }
}

// Sets the cells of a segment that are not set yet. Whether that is all of them.
fn set_cells(cells: &mut [Option<What>], segment: &Segment) -> bool {
    for number in 0..segment.extent.count {
        match cells.get_mut(segment.extent.at.saturating_add(u64::from(number)) as usize) {
            Some(cell) if cell.is_none() => *cell = Some(part_of(segment.what, number)),
            _ => return false,
        }
    }
    true
}

// The cells of all sectors as `find` gives them, five segments at a time.
fn found_cells<L: Ledger>(
    rt: &impl Abort,
    alloc: Global,
    table: Either,
    blank: Blank,
) -> Result<Vec<Option<What>>, Memory>
    requires name { blank.name ≡ L.name }
    requires parts { blank.parts ≡ L.parts }
    requires some { 0 < blank.parts }
{
    let mut steps = Steps::<L>::new(blank);
    let mut cells = vec![in alloc; None; 4096]?;
    let mut out = [NOTHING; 5];
    let mut from = 0;
    for _ in 0..SECTORS {
        if from >= SECTORS {
            break;
        }
        let found = find_five(table, from, &mut out, &mut steps);
        for segment in &out[..found.pieces] {
            assert!(rt;
                set_cells(cells.as_mut_slice(), segment),
                "a cell from {from}"
            );
        }
        from = found.until;
    }
    assert_eq!(rt; from, SECTORS);
    Ok(cells)
}

// Whether both give the same cells.
fn are_alike(
    rt: &impl Abort,
    alloc: Global,
    table: &SegTable,
    plain: &PlainTable,
) -> Result<bool, Memory> {
    let mut cells = Vec::new(alloc);
    for table in [Either::Leaves(table), Either::Plain(plain)] {
        cells.push(found_cells::<Brand>(rt, alloc, table, Blank::new(1))?)?;
    }
    Ok(cells.as_slice().first() == cells.as_slice().last())
}

#[test]
fn random_puts_agree_with_the_plain_form(rt: HostRuntime) -> Result<(), Fail> {
    let mut table = SegTable::new(rt.alloc());
    let mut plain = PlainTable::new(rt.alloc());
    let mut state = 1;
    for number in 0..10_000 {
        if let Some((extent, what)) = random_put(&mut state, number) {
            table.reserve(1)?;
            plain.reserve(1)?;
            table.put(extent, what);
            plain.put(extent, what);
            let end = extent.end();
            agree_on::<Brand>(
                &rt,
                &table,
                &plain,
                extent.at.saturating_sub(1),
                extent.at + 1,
                Blank::new(1),
            );
            agree_on::<Brand>(
                &rt,
                &table,
                &plain,
                end - 1,
                (end + 1).min(SECTORS),
                Blank::new(1),
            );
        }
        if number % 500 == 499 {
            assert!(rt;
                are_alike(&rt, rt.alloc(), &table, &plain)?,
                "after put {number}"
            );
        }
    }
    agree_on::<Brand>(&rt, &table, &plain, 0, SECTORS, Blank::new(1));
    assert!(rt; table.len() < plain.len());
    Ok(())
}
