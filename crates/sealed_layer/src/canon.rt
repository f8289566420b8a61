ghost use Rattle.std.specs.Prelude.{◌≡◌, ℕ, ◌+◌, ◌-◌, ◌*◌, ◌^◌, ◌<◌, ◌≤◌, ◌↔◌, List, [], ◌∷◌, ◌++◌, IsTrue, IfSome, OnOk, OnErr, Some, None, length, min, if◌then◌else◌, vec_len, vec_capacity};
ghost use Rattle.sector_extent.specs.Rows.{rows_for};
ghost use Rattle.flat_image.specs.CanonicalFiles.{Stretch, parts_of, rows_from, canonical_rows};
ghost use Rattle.flat_image.specs.Sheets.{Cell};
ghost use Rattle.flat_image.specs.Stretches.{AreStretches};
ghost use Rattle.sealed_layer.specs.Canon.{rows_ahead, rows_for_all, last_end};

use sector_extent::{Extent, Memory, ROW_SECTORS, rows_needed};
use seg_mapping::Row;
use std::alloc::Global;
use std::marker::Model;

/// Sectors of an image side by side that are all zero or all filled.
#[derive(Clone, Copy, Debug, PartialEq, Eq)]
struct Run {
    at: u64,
    count: u64,
    zeroed: bool,
}

/// The rows of a canonical file, from extents that come in rising order. Extents that touch and are
/// of one kind are one.
#[derive(Drop)]
pub struct CanonRows {
    rows: Vec<Row>,
    // where the next filled sector stands that is in no row
    place: u64,
    // the last extents that came, in no row yet; there is room for its rows
    latest: Option<Run>,
}

impl Model for CanonRows {
    ghost use Rattle.std.specs.Prelude.{◌+◌, ◌^◌, ◌<◌, ◌≤◌, vec_len, vec_capacity, MatchOption};
    ghost use Rattle.std.specs.Option.{option_map};
    ghost use Rattle.sector_extent.specs.Rows.{rows_for};
    ghost use Rattle.sealed_layer.specs.Canon.{CanonState};

    ghost Value = { CanonState };

    ghost view = { λ c. record {
      closed = c.rows.items;
      place = c.place;
      open_run = option_map (λ r. record { at = r.at; count = r.count; zeroed = r.zeroed }) c.latest;
    } };

    // each sector before the last run is counted in the place once at most
    ghost invariant = { λ c. MatchOption c.latest (c.place ≤ 2 ^ 54)
        (λ r. (0 < r.count) × (r.at + r.count ≤ 2 ^ 31) × (vec_len c.rows + rows_for r.count ≤ vec_capacity c.rows)
        × (c.place ≤ 2 ^ 54 + r.at)) };
}

// The next part of a run that is cut into rows.
fn row_at(run: &Run, number: u64, place: u64) -> Row
    requires run { run.now.at + run.now.count ≤ 2 ^ 31 }
    requires number { number < rows_for run.now.count }
    ensures { result ≡ record {
      offset = run.now.at + 16383 * number;
      count = min 16383 (run.now.count - 16383 * number);
      place = if run.now.zeroed then 0 else place;
      zeroed = run.now.zeroed;
      tag = 0;
    } }
{
    let skipped = ROW_SECTORS * number;
    Row {
        offset: run.at + skipped,
        count: ROW_SECTORS.min(run.count - skipped) as u32,
        place: if run.zeroed { 0 } else { place },
        zeroed: run.zeroed,
        tag: 0,
    }
}

// Appends the rows of a run, for which there is room, and answers the place behind its sectors.
fn close_run(rows: &mut Vec<Row>, run: &Run, place: u64) -> u64
    requires run { run.now.at + run.now.count ≤ 2 ^ 31 }
    requires place { place ≤ 2 ^ 55 }
    requires room { vec_len rows.old + rows_for run.now.count ≤ vec_capacity rows.old }
    ensures rows { rows.new.items ≡ rows.old.items
        ++ rows_from place (parts_of (record { at = run.now.at; count = run.now.count; zeroed = run.now.zeroed })) }
    ensures room { vec_capacity rows.new ≡ vec_capacity rows.old }
    ensures place { result ≡ if run.now.zeroed then place else place + run.now.count }
{
    let mut place = place;
    for number in 0..rows_needed(run.count) {
        let row = row_at(run, number, place);
        if !run.zeroed {
            place += row.count as u64;
        }
        rows.push_reserved(row);
    }
    place
}

impl CanonRows {
    /// No rows yet. The first filled sector is to stand at that place.
    pub fn new(alloc: Global, first_place: u64) -> CanonRows
        requires { first_place ≤ 2 ^ 54 }
        ensures rows { (more : List Stretch) → rows_ahead result more ≡ rows_for_all first_place more }
        ensures end { last_end result ≡ 0 }
    {
        CanonRows {
            rows: Vec::new(alloc),
            place: first_place,
            latest: None,
        }
    }

    /// Goes on by an extent, which begins at the end of the last one or later. Without memory the
    /// rows are as before.
    pub fn push(&mut self, extent: Extent, zeroed: bool) -> Result<(), Memory>
        requires some { 0 < extent.count }
        requires order { last_end self.old ≤ extent.at }
        // whatever comes next, the rows are those of this extent and of what comes next
        ensures ok { OnOk result ((more : List Stretch) → rows_ahead self.new more
            ≡ rows_ahead self.old (record { at = extent.at; count = extent.count; zeroed = zeroed } ∷ more)) }
        ensures end { OnOk result (last_end self.new ≡ extent.at + extent.count) }
        ensures err { OnErr result (self.new ≡ self.old) }
    {
        let next = Run {
            at: extent.at,
            count: extent.count as u64,
            zeroed,
        };
        match self.latest {
            None => {
                self.rows.reserve(rows_needed(next.count) as usize)?;
                self.latest = Some(next);
            }
            Some(run) => {
                self.rows.reserve((rows_needed(run.count) + rows_needed(next.count)) as usize)?;
                if run.zeroed == zeroed && run.at + run.count == extent.at {
                    self.latest = Some(Run {
                        at: run.at,
                        count: run.count + next.count,
                        zeroed: run.zeroed,
                    });
                } else {
                    self.place = close_run(&mut self.rows, &run, self.place);
                    self.latest = Some(next);
                }
            }
        }
        Ok(())
    }

    /// The rows of all extents that came.
    pub fn finish(self) -> Vec<Row>
        ensures rows { result.items ≡ rows_ahead self [] }
        // of extents that have the cells of a sheet, from place 8 on, they are those of its canonical file
        ensures canonical { (sheet : List Cell) (list : List Stretch) → AreStretches 0 sheet list
            → rows_ahead self [] ≡ rows_for_all 8 list → result.items ≡ canonical_rows sheet }
    {
        let mut rows = self.rows;
        if let Some(run) = self.latest {
            close_run(&mut rows, &run, self.place);
        }
        rows
    }
}
