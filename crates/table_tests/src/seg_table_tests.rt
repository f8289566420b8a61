ghost use Rattle.std.specs.Prelude.{◌≡◌, ◌<◌};

use sector_extent::{Extent, Steps};
use seg_table::{SegTable, Segment, What};
use std::marker::Brand;
use std::process::Abort;
use std::sync::ledger::{Blank, Ledger};
use std::test::Fail;

const SECTORS: usize = 64;

type Cells = [Option<What>; 64];

pub(crate) const NOTHING: Segment = Segment {
    extent: Extent { at: 0, count: 0 },
    what: What::Zero,
};

// The next number of a small generator.
pub(crate) fn draw(state: &mut u64, below: u64) -> u64
    requires { 0 < below }
    ensures { result < below }
{
    *state = state
        .wrapping_mul(6_364_136_223_846_793_005)
        .wrapping_add(1_442_695_040_888_963_407);
    (*state >> 33) % below
}

// What the sector of that number in a segment has.
pub(crate) fn part_of(what: What, number: u32) -> What {
    match what {
        What::Place(place) => What::Place(place.wrapping_add(u64::from(number))),
        What::Zero => What::Zero,
    }
}

// Sets the cells of a segment, one by one.
fn paint(cells: &mut Cells, segment: &Segment) {
    let at = segment.extent.at as usize;
    let end = segment.extent.end() as usize;
    for number in at..end {
        if number < SECTORS {
            cells[number] = Some(part_of(segment.what, (number - at) as u32));
        }
    }
}

// The cells as `find` gives them, five segments at a time.
fn found_cells<L: Ledger>(rt: &impl Abort, table: &SegTable, blank: Blank) -> Cells
    requires name { blank.name ≡ L.name }
    requires parts { blank.parts ≡ L.parts }
    requires some { 0 < blank.parts }
{
    let mut steps = Steps::<L>::new(blank);
    let mut cells = [None; 64];
    let mut out = [NOTHING; 5];
    let mut from = 0;
    for _ in 0..SECTORS {
        if from >= 64 {
            break;
        }
        let found = table.find(from, (64 - from) as u32, &mut out, &mut steps);
        let mut end = from;
        for segment in &out[..found.pieces] {
            assert!(rt; end <= segment.extent.at);
            end = segment.extent.end();
            paint(&mut cells, segment);
        }
        assert!(rt; end <= found.until);
        from = found.until;
    }
    assert_eq!(rt; from, 64);
    cells
}

// The cells as `walk` gives them.
fn walked_cells(rt: &impl Abort, table: &SegTable) -> Cells {
    let mut cells = [None; 64];
    let mut from = 0;
    for _ in 0..=SECTORS {
        match table.walk(from) {
            None => return cells,
            Some(segment) => {
                assert!(rt; from <= segment.extent.at);
                from = segment.extent.end();
                paint(&mut cells, &segment);
            }
        }
    }
    assert!(rt; false, "the walk does not end");
    cells
}

#[test]
fn find_and_walk_agree_with_a_flat_list(rt: HostRuntime) -> Result<(), Fail> {
    let mut table = SegTable::new(rt.alloc());
    let mut flat = [None; 64];
    let mut state = 1;
    for number in 0..300u64 {
        let at = draw(&mut state, 64);
        let count = 1 + draw(&mut state, (64 - at).min(16));
        let what = if draw(&mut state, 3) == 0 {
            What::Zero
        } else {
            What::Place(draw(&mut state, 1000))
        };
        if let Some(extent) = Extent::new(at, count) {
            table.reserve(1)?;
            table.put(extent, what);
            paint(&mut flat, &Segment { extent, what });
        }
        let found = found_cells::<Brand>(&rt, &table, Blank::new(1));
        assert!(rt; found == flat, "find after put {number}");
        assert!(rt;
            walked_cells(&rt, &table) == flat,
            "walk after put {number}"
        );
    }
    Ok(())
}

// Three sectors at 3, one over the second of them, and zeros over the third.
#[test]
fn later_puts_hide_earlier_ones(rt: HostRuntime) -> Result<(), Fail> {
    let mut table = SegTable::new(rt.alloc());
    assert_eq!(rt; table.len(), 0);
    assert_eq!(rt; table.walk(0), None);
    table.reserve(3)?;
    table.put(Extent { at: 3, count: 3 }, What::Place(0));
    table.put(Extent { at: 4, count: 1 }, What::Place(3));
    table.put(Extent { at: 5, count: 1 }, What::Zero);
    assert_eq!(rt; table.len(), 3);
    let cases = [
        (0, 3, What::Place(0)),
        (4, 4, What::Place(3)),
        (5, 5, What::Zero),
    ];
    for (from, at, what) in cases {
        let extent = Extent::new(at, 1).ok_or("extent")?;
        assert_eq!(rt; table.walk(from), Some(Segment { extent, what }));
    }
    assert_eq!(rt; table.walk(6), None);
    assert_eq!(rt; table.walk(u64::MAX), None);
    Ok(())
}
