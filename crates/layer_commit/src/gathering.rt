//! The rows and the sources of a table, gathered from segment to segment.
ghost use Rattle.std.specs.Prelude.{◌≡◌, ℕ, ◌+◌, ◌^◌, ◌<◌, ◌≤◌, IsTrue, OnOk, IfOk};
ghost use Rattle.seg_table.specs.Cells.{cells_of};
ghost use Rattle.seg_table.specs.Pieces.{end_of};
ghost use Rattle.seg_table.specs.declared.segment.What.TheVariants.{Place};
ghost use Rattle.sealed_layer.specs.Canon.{last_end};
ghost use Rattle.layer_commit.specs.Segments.{Adds};
ghost use Rattle.layer_commit.specs.Gathered.{ArePlaces, IsGathered};
ghost use Rattle.layer_commit.specs.Sources.{AreSources, counted, Extends, IsBehind};

use crate::source::Source;
use sealed_layer::CanonRows;
use sector_extent::Memory;
use seg_table::{SegTable, Segment, What};
use std::alloc::Global;

// Where the data of a file begins, in sectors.
const FIRST_SECTOR: u64 = 8;

// The rows and the sources of the first segments of a table.
#[derive(Drop)]
pub(crate) struct Gathering {
    pub(crate) rows: CanonRows,
    pub(crate) sources: Vec<Source>,
    // where the next filled sector stands in the new file
    pub(crate) filled: u64,
}

// Makes the last source longer, where the sectors go on from it in the data file too.
fn extend_last(sources: &mut Vec<Source>, source: &Source) -> bool
    requires behind { IsBehind source.now sources.old.items }
    ensures longer { IsTrue result → Extends source.now sources.old.items sources.new.items }
    ensures same { ¬ IsTrue result → sources.new.items ≡ sources.old.items }
{
    if let Some(last) = sources.last_mut() {
        if last.from + last.count == source.from {
            last.count += source.count;
            return true;
        }
    }
    false
}

// Adds sectors behind those before them.
fn push_source(sources: &mut Vec<Source>, source: &Source) -> Result<(), Memory>
    requires behind { IsBehind source.now sources.old.items }
    ensures { OnOk result (Extends source.now sources.old.items sources.new.items) }
{
    if !extend_last(sources, source) {
        sources.push(*source)?;
    }
    Ok(())
}

impl Gathering {
    // Goes on by a segment that lies behind those before it.
    fn add(&mut self, segment: &Segment) -> Result<(), Memory>
        requires some { 0 < segment.now.extent.count }
        requires order { last_end self.old.rows ≤ segment.now.extent.at }
        requires sources { AreSources 8 self.old.sources.items }
        requires filled { self.old.filled ≡ 8 + counted self.old.sources.items }
        requires room { self.old.filled ≤ 8 + segment.now.extent.at }
        requires low { (place : ℕ) → segment.now.what ≡ Place place → place < 2 ^ 40 }
        ensures adds { OnOk result
            (Adds segment.now self.old.rows self.new.rows self.old.sources.items self.new.sources.items) }
        ensures filled { OnOk result (self.new.filled ≡ 8 + counted self.new.sources.items) }
        ensures room { OnOk result (self.new.filled ≤ 8 + end_of segment.now) }
    {
        match segment.what {
            What::Zero => self.rows.push(segment.extent, true),
            What::Place(place) => {
                self.rows.push(segment.extent, false)?;
                let source = Source {
                    from: place,
                    to: self.filled,
                    count: segment.extent.count as u64,
                };
                push_source(&mut self.sources, &source)?;
                self.filled += source.count;
                Ok(())
            }
        }
    }
}

// Walks over a table from its first segment to its last.
pub(crate) fn gather(alloc: Global, table: &SegTable) -> Result<Gathering, Memory>
    requires low { ArePlaces (cells_of table.now) }
    ensures all { IfOk result (λ g. IsGathered (cells_of table.now) g.rows g.sources.items) }
    ensures filled { IfOk result (λ g. g.filled ≡ 8 + counted g.sources.items) }
    ensures low { IfOk result (λ g. g.filled ≤ 8 + 2 ^ 31) }
{
    let mut gathering = Gathering {
        rows: CanonRows::new(alloc, FIRST_SECTOR),
        sources: Vec::new(alloc),
        filled: FIRST_SECTOR,
    };
    let mut from = 0;
    while let Some(segment) = table.walk(from) {
        gathering.add(&segment)?;
        from = segment.extent.end();
    }
    Ok(gathering)
}
