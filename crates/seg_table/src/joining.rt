//! Segments that go on into each other are made one.
ghost use Rattle.std.specs.Prelude.{◌≡◌, ◌+◌, ◌↔◌, IsTrue};
ghost use Rattle.seg_table.specs.Put.{IsPut};
ghost use Rattle.seg_table.specs.Segments.{AreSegments, GoesOn, IsBoth, IsJoined};

use crate::leaf::Leaf;
use crate::segment::Segment;
use sector_extent::Extent;

// Whether the second segment begins where the first one ends, with what follows there.
fn goes_on(first: &Segment, second: &Segment) -> bool
    requires { IsPut first.now }
    ensures { IsTrue result ↔ GoesOn first.now second.now }
{
    if first.extent.end() != second.extent.at {
        return false;
    }
    first.what.onward(first.extent.count as u64) == second.what
}

// Both as one.
fn both(first: &Segment, second: &Segment) -> Segment
    requires first { IsPut first.now }
    requires second { IsPut second.now }
    requires on { GoesOn first.now second.now }
    ensures { IsBoth first.now second.now result }
{
    Segment {
        extent: Extent {
            at: first.extent.at,
            count: first.extent.count + second.extent.count,
        },
        what: first.what,
    }
}

// Joins the segment of that number with the next one, where that one goes on.
fn join_at(leaf: &mut Leaf, number: usize)
    requires { AreSegments 0 leaf.old }
    ensures { IsJoined leaf.old leaf.new }
{
    if leaf.len() < 2 || number > leaf.len() - 2 {
        return;
    }
    let first = leaf.as_slice()[number];
    let second = leaf.as_slice()[number + 1];
    if goes_on(&first, &second) {
        leaf.remove(number + 1);
        leaf.set(number, both(&first, &second));
    }
}

/// Joins the segment of that number with the one behind it and the one before it, where they go on
/// into each other.
pub(crate) fn join_around(leaf: &mut Leaf, number: usize)
    requires { AreSegments 0 leaf.old }
    ensures { IsJoined leaf.old leaf.new }
{
    join_at(leaf, number);
    if number > 0 {
        join_at(leaf, number - 1);
    }
}
