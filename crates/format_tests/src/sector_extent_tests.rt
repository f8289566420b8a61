ghost use Rattle.std.specs.Prelude.{◌≡◌, ◌<◌};

use crate::expecting::{holds, holds_at};
use sector_extent::*;
use std::marker::Brand;
use std::sync::ledger::{Blank, Ledger};
use std::test::Fail;

// A place, a number of sectors, and whether an image can have them.
const EXTENTS: [(u64, u64, bool); 7] = [
    (0, 0, true),
    (1 << 31, 0, true),
    ((1 << 31) - 1, 1, true),
    (1 << 31, 1, false),
    (0, 1 << 31, true),
    (0, (1 << 31) + 1, false),
    (u64::MAX, 1, false),
];

#[test]
fn extents_end_within_an_image(rt: HostRuntime) {
    for (number, (at, count, is_made)) in EXTENTS.iter().enumerate() {
        let is_some = Extent::new(*at, *count).is_some();
        holds_at(&rt, is_some == *is_made, "extent", number);
    }
}

#[test]
fn extents_meet(rt: HostRuntime) -> Result<(), Fail> {
    let left = Extent::new(3, 4).ok_or("left")?;
    let right = Extent::new(6, 9).ok_or("right")?;
    let beside = Extent::new(7, 9).ok_or("beside")?;
    holds(&rt, left.end() == 7, "the end");
    holds(&rt, left.meet(&right) == Extent::new(6, 1), "right");
    holds(&rt, left.meet(&beside).is_none(), "beside");
    Ok(())
}

#[test]
fn lists_give_their_members_back(rt: HostRuntime) -> Result<(), Fail> {
    let mut bytes = Bytes::from_vec(Vec::from_slice(rt.alloc(), &[1])?);
    bytes.push(2)?;
    holds(&rt, bytes.as_slice() == [1, 2].as_slice(), "the bytes");
    let all = bytes.into_vec();
    holds(&rt, all.as_slice() == [1, 2].as_slice(), "the vector");
    let gap = Extent::new(5, 2).ok_or("gap")?;
    let gaps = GapList::from_vec(Vec::from_slice(rt.alloc(), &[gap])?);
    holds(&rt, gaps.as_slice() == [gap].as_slice(), "the gaps");
    Ok(())
}

// A place and a number of sectors.
type Part = (u64, u64);

// What parts an extent of six sectors from 3 on, and what stands before it and behind it.
const PARTED: [(Part, Option<Part>, Option<Part>); 6] = [
    ((5, 2), Some((3, 2)), Some((7, 2))),
    ((0, 4), None, Some((4, 5))),
    ((8, 9), Some((3, 5)), None),
    ((0, 20), None, None),
    ((0, 3), None, Some((3, 6))),
    ((9, 1), Some((3, 6)), None),
];

fn part_of(extent: Option<Extent>) -> Option<Part> {
    extent.map(|e| (e.at, u64::from(e.count)))
}

#[test]
fn extents_are_parted_by_another(rt: HostRuntime) -> Result<(), Fail> {
    let whole = Extent::new(3, 6).ok_or("whole")?;
    for (number, ((at, count), before, behind)) in PARTED.iter().enumerate() {
        let other = Extent::new(*at, *count).ok_or("other")?;
        if other.count == 0 {
            return Err(Fail::from("an empty one"));
        }
        let (one, two) = whole.minus(&other);
        let is_right = part_of(one) == *before && part_of(two) == *behind;
        holds_at(&rt, is_right, "extent", number);
    }
    Ok(())
}

// A number of sectors, and how many rows map them.
const ROWS: [(u64, u64); 7] = [
    (0, 0),
    (1, 1),
    (16_383, 1),
    (16_384, 2),
    (65_536, 5),
    (8_388_607, 513),
    (u64::MAX, 1_125_968_630_513_921),
];

// The number of a row of 65,536 sectors, and what it maps.
const PARTS: [(u64, Option<Part>); 4] = [
    (1, Some((16_383, 16_383))),
    (4, Some((65_532, 4))),
    (5, None),
    (u64::MAX, None),
];

#[test]
fn rows_map_parts(rt: HostRuntime) -> Result<(), Fail> {
    for (number, (count, rows)) in ROWS.iter().enumerate() {
        holds_at(&rt, rows_needed(*count) == *rows, "sectors", number);
    }
    let whole = Extent::new(0, 65_536).ok_or("whole")?;
    for (row, part) in PARTS.iter() {
        let is_right = part_of(whole.row_part(*row)) == *part;
        holds_at(&rt, is_right, "row", *row as usize);
    }
    Ok(())
}

fn two_steps<L: Ledger>(blank: Blank)
    requires name { blank.name ≡ L.name }
    requires parts { blank.parts ≡ L.parts }
    requires some { 0 < blank.parts }
{
    let mut steps = Steps::<L>::new(blank);
    steps.tick();
    steps.tick();
}

#[test]
fn steps_are_counted() {
    two_steps::<Brand>(Blank::new(1));
}
