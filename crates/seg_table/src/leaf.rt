ghost use Rattle.std.specs.Prelude.{◌≡◌, ◌+◌, ◌<◌, ◌≤◌, [], ◌∷◌, ◌++◌, IfOk, OnOk, vec_len, ◌^◌, take, drop, length};
ghost use Rattle.seg_table.specs.Segments.{first_of, joined};

use crate::segment::Segment;
use sector_extent::Memory;
use std::alloc::Global;
use std::marker::Model;

/// The most segments of a leaf in a table.
pub(crate) const MOST: usize = 255;

// A put into a leaf cuts one segment in two and stands between its parts.
const ROOM: usize = MOST + 2;

/// A list of segments with room for two more than a leaf of a table has. The sector where the first
/// one begins stands in it, so that a search over leaves looks at no segment.
#[derive(Drop)]
pub(crate) struct Leaf {
    first: u64,
    segments: Vec<Segment>,
}

impl Model for Leaf {
    ghost use Rattle.std.specs.Prelude.{◌≡◌, ◌≤◌, List, vec_capacity};
    ghost use Rattle.seg_table.specs.declared.segment.Segment.{Segment};
    ghost use Rattle.seg_table.specs.Segments.{first_of};

    ghost Value = { List Segment };

    ghost view = { λ leaf. leaf.segments.items };

    ghost invariant = { λ leaf. (leaf.first ≡ first_of leaf.segments.items) × (257 ≤ vec_capacity leaf.segments) };
}

// Where the first segment begins, or else 0.
fn first_in(segments: &[Segment]) -> u64
    ensures { result ≡ first_of segments.now }
{
    match segments.first() {
        None => 0,
        Some(segment) => segment.extent.at,
    }
}

impl Leaf {
    pub(crate) fn new(alloc: Global) -> Result<Leaf, Memory>
        ensures { IfOk result (λ leaf. leaf ≡ []) }
    {
        let segments = Vec::with_capacity(alloc, ROOM)?;
        Ok(Leaf { first: 0, segments })
    }

    /// Where the first segment begins, or else 0.
    pub(crate) fn first(&self) -> u64
        ensures { result ≡ first_of self.now }
    {
        self.first
    }

    pub(crate) fn as_slice(&self) -> &[Segment]
        ensures { result.now ≡ self.now }
    {
        self.segments.as_slice()
    }

    pub(crate) fn len(&self) -> usize
        ensures { result ≡ length self.now }
    {
        self.segments.len()
    }

    pub(crate) fn clear(&mut self)
        ensures { self.new ≡ [] }
    {
        self.segments.clear();
        self.first = 0;
    }

    pub(crate) fn push(&mut self, segment: Segment)
        requires room { length self.old < 257 }
        ensures { self.new ≡ self.old ++ segment ∷ [] }
    {
        self.segments.push_reserved(segment);
        self.first = first_in(self.segments.as_slice());
    }

    pub(crate) fn extend(&mut self, more: &[Segment])
        requires room { length self.old + length more.now ≤ 257 }
        ensures { self.new ≡ self.old ++ more.now }
    {
        let _ = self.segments.extend_from_slice(more);
        self.first = first_in(self.segments.as_slice());
    }

    /// Removes the segment of that number.
    pub(crate) fn remove(&mut self, number: usize)
        requires { number < length self.old }
        ensures { self.new ≡ take number self.old ++ drop (number + 1) self.old }
    {
        self.segments.remove(number);
        self.first = first_in(self.segments.as_slice());
    }

    /// Puts a segment in the place of the one of that number.
    pub(crate) fn set(&mut self, number: usize, segment: Segment)
        requires { number < length self.old }
        ensures { self.new ≡ take number self.old ++ segment ∷ drop (number + 1) self.old }
    {
        self.segments[number] = segment;
        self.first = first_in(self.segments.as_slice());
    }

    /// Leaves the first `cut` segments.
    pub(crate) fn truncate(&mut self, cut: usize)
        ensures { self.new ≡ take cut self.old }
    {
        self.segments.truncate(cut);
        self.first = first_in(self.segments.as_slice());
    }
}

/// Adds leaves up to that number of them.
pub(crate) fn fill_spares(
    alloc: Global,
    spares: &mut Vec<Leaf>,
    number: usize,
) -> Result<(), Memory>
    ensures ok { OnOk result (number ≤ vec_len spares.new) }
    ensures more { vec_len spares.old ≤ vec_len spares.new }
{
    let more = number.saturating_sub(spares.len());
    spares.reserve(more)?;
    for _ in 0..more {
        spares.push_reserved(Leaf::new(alloc)?);
    }
    Ok(())
}

/// How many segments the leaves have.
pub(crate) fn count_in(leaves: &[Leaf]) -> usize
    requires few { length (joined leaves.now) ≤ 2 ^ 31 }
    ensures { result ≡ length (joined leaves.now) }
{
    let mut count = 0;
    for leaf in leaves {
        count += leaf.len();
    }
    count
}
