ghost use Rattle.std.specs.Prelude.{◌≡◌, ℕ, ◌+◌, ◌-◌, ◌^◌, ◌<◌, ◌≤◌, ◌⊎◌, All, IfSome, IfNone, IsNone, ◌↔◌, slice_index_or, Some, None, take, drop, length};
ghost use Rattle.std.specs.Option.{option_map};
ghost use Rattle.seg_table.specs.Cells.{cell_in, onward, IsEdge};
ghost use Rattle.seg_table.specs.Pieces.{AreCells, AreUnset, IsNext, IsUnparted, end_of};
ghost use Rattle.seg_table.specs.Put.{Fits, IsPut};

use crate::segment::{Segment, What};
use sector_extent::{Extent, Found, Steps};
use std::sync::ledger::{Blank, Ledger};

// What all sectors from a first one up to `until` have: the first one has `what`.
#[derive(Clone, Copy)]
struct Run {
    what: Option<What>,
    until: u64,
}

// The one way to look at a put, which counts.
fn probe<'a, L: Ledger>(puts: &'a [Segment], number: usize, steps: &mut Steps<L>) -> &'a Segment
    requires { number < length puts.now }
    ensures put { result.now ≡ slice_index_or puts.now number result.now }
    ensures counted { steps.new ≡ steps.old + 1 }
{
    steps.tick();
    &puts[number]
}

// Asks the puts, the newest first, what the sectors from `from` on have.
fn run_from<L: Ledger>(puts: &[Segment], from: u64, end: u64, steps: &mut Steps<L>) -> Run
    requires puts { All IsPut puts.now }
    requires some { from < end }
    ensures some { from < result.until }
    ensures within { result.until ≤ end }
    ensures same { (sector : ℕ) → from ≤ sector → sector < result.until
        → cell_in puts.now sector ≡ option_map (λ w. onward w (sector - from)) result.what }
    ensures fits { IfSome result.what (λ w. Fits w (result.until - from)) }
    ensures edge { (result.until ≡ end) ⊎ IsEdge puts.now result.until }
    ensures counted { steps.old ≤ steps.new }
{
    let mut until = end;
    for number in (0..puts.len()).rev() {
        let put = probe(puts, number, steps);
        if from < put.extent.at {
            until = until.min(put.extent.at);
        } else if from < put.extent.end() {
            let what = put.what.onward(from - put.extent.at);
            return Run {
                what: Some(what),
                until: until.min(put.extent.end()),
            };
        }
    }
    Run { what: None, until }
}

// The segment of the sectors from `at` up to `until`.
fn piece(at: u64, until: u64, what: What) -> Segment
    requires some { at < until }
    requires within { until ≤ 2 ^ 31 }
    ensures at { result.extent.at ≡ at }
    ensures end { end_of result ≡ until }
    ensures what { result.what ≡ what }
{
    Segment {
        extent: Extent {
            at,
            count: (until - at) as u32,
        },
        what,
    }
}

// The first segment inside the range from `from` up to `end`.
pub(crate) fn next_in<L: Ledger>(
    puts: &[Segment],
    from: u64,
    end: u64,
    steps: &mut Steps<L>,
) -> Option<Segment>
    requires puts { All IsPut puts.now }
    requires within { end ≤ 2 ^ 31 }
    ensures next { IfSome result (λ s. IsNext (cell_in puts.now) from s × (end_of s ≤ end)) }
    ensures unparted { IfSome result (IsUnparted puts.now end) }
    ensures none { IfNone result (AreUnset (cell_in puts.now) from end) }
    ensures counted { steps.old ≤ steps.new }
{
    let mut at = from;
    while at < end {
        let run = run_from(puts, at, end, steps);
        if let Some(what) = run.what {
            return Some(piece(at, run.until, what));
        }
        at = run.until;
    }
    None
}

// Writes the segments inside the range into `out`.
pub(crate) fn find_in<L: Ledger>(
    puts: &[Segment],
    from: u64,
    end: u64,
    out: &mut [Segment],
    steps: &mut Steps<L>,
) -> Found
    requires puts { All IsPut puts.now }
    requires within { end ≤ 2 ^ 31 }
    requires some { from ≤ end }
    ensures cells { AreCells (cell_in puts.now) from result.until (take result.pieces out.new) }
    ensures within { result.until ≤ end }
    ensures room { result.pieces ≤ length out.new }
    ensures full { result.until < end → result.pieces ≡ length out.new }
    ensures unparted { All (IsUnparted puts.now end) (take result.pieces out.new) }
    ensures rest { drop result.pieces out.new ≡ drop result.pieces out.old }
    ensures counted { steps.old ≤ steps.new }
{
    let mut until = from;
    for pieces in 0..out.len() {
        match next_in(puts, until, end, steps) {
            None => return Found { pieces, until: end },
            Some(segment) => {
                until = segment.extent.end();
                out[pieces] = segment;
            }
        }
    }
    Found {
        pieces: out.len(),
        until,
    }
}

// The first segment from `from` on. It is for no caller that counts.
pub(crate) fn walk_uncounted<L: Ledger>(
    puts: &[Segment],
    from: u64,
    blank: Blank,
) -> Option<Segment>
    requires puts { All IsPut puts.now }
    requires name { blank.name ≡ L.name }
    requires parts { blank.parts ≡ L.parts }
    requires some { 0 < blank.parts }
    ensures next { IfSome result (IsNext (cell_in puts.now) from) }
    ensures none { IsNone result ↔ ((sector : ℕ) → from ≤ sector → cell_in puts.now sector ≡ None) }
    ensures unparted { IfSome result (IsUnparted puts.now (2 ^ 31)) }
{
    let mut steps = Steps::<L>::new(blank);
    next_in(puts, from, 1 << 31, &mut steps)
}
