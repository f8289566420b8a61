//! Stretches of an image of which a top has one thing.
ghost use Rattle.std.specs.Prelude.{◌≡◌, ℕ, ◌+◌, ◌*◌, ◌^◌, ◌<◌, ◌≤◌, ◌↔◌, IsTrue, IfSome, IfNone, Some, None};
ghost use Rattle.seg_table.specs.declared.segment.What.{What};
ghost use Rattle.top_writer.specs.Reading.{along, IsJoined, IsParted};

use sector_extent::Extent;
use seg_table::{Segment, What};

/// Sectors of an image that lie side by side, and what the top has of them: nothing, zeros, or
/// sectors that lie side by side in the data file too.
#[derive(Clone, Copy)]
pub(crate) struct Stretch {
    pub(crate) at: u64,
    pub(crate) count: u64,
    pub(crate) what: Option<What>,
}

impl Stretch {
    /// The sector after the last one.
    pub(crate) fn end(&self) -> u64
        requires { self.now.at + self.now.count ≤ 2 ^ 31 }
        ensures { result ≡ self.now.at + self.now.count }
    {
        self.at + self.count
    }

    /// The sectors from `at` up to `end`, of which the top has nothing.
    pub(crate) fn gap(at: u64, end: u64) -> Stretch
        requires { at ≤ end }
        ensures at { result.at ≡ at }
        ensures end { result.at + result.count ≡ end }
        ensures what { result.what ≡ None }
    {
        Stretch {
            at,
            count: end - at,
            what: None,
        }
    }

    /// The sectors of a segment.
    pub(crate) fn of(segment: &Segment) -> Stretch
        ensures at { result.at ≡ segment.now.extent.at }
        ensures count { result.count ≡ segment.now.extent.count }
        ensures what { result.what ≡ Some segment.now.what }
    {
        Stretch {
            at: segment.extent.at,
            count: segment.extent.count as u64,
            what: Some(segment.what),
        }
    }

    /// The sectors as an extent.
    pub(crate) fn extent(&self) -> Extent
        requires { self.now.at + self.now.count ≤ 2 ^ 31 }
        ensures at { result.at ≡ self.now.at }
        ensures count { result.count ≡ self.now.count }
    {
        Extent {
            at: self.at,
            count: self.count as u32,
        }
    }

    // The stretch that begins behind this one has what would stand there if this one went on.
    fn goes_on(&self, next: &Stretch) -> bool
        requires { self.now.count ≤ 2 ^ 31 }
        ensures { IsTrue result ↔ (next.now.what ≡ along self.now.what self.now.count) }
    {
        match (self.what, next.what) {
            (None, None) => true,
            (Some(What::Zero), Some(What::Zero)) => true,
            (Some(What::Place(place)), Some(What::Place(other))) => {
                other >= place && other - place == self.count
            }
            _ => false,
        }
    }

    /// Both as one, where one of them is empty, or the second one goes on where the first one ends.
    pub(crate) fn joined(&self, next: &Stretch) -> Option<Stretch>
        requires room { self.now.at + self.now.count + next.now.count ≤ 2 ^ 31 }
        requires behind { next.now.at ≡ self.now.at + self.now.count }
        ensures some { IfSome result (IsJoined self.now next.now) }
        ensures none { IfNone result (IsParted self.now next.now) }
    {
        if next.count == 0 {
            return Some(*self);
        }
        if self.count == 0 {
            return Some(*next);
        }
        if self.goes_on(next) {
            Some(Stretch {
                at: self.at,
                count: self.count + next.count,
                what: self.what,
            })
        } else {
            None
        }
    }
}
