ghost use Rattle.std.specs.Prelude.{◌≡◌, ℕ, ◌+◌, ◌-◌, ◌*◌, ◌^◌, ◌<◌, ◌≤◌, ◌↔◌, ◌⊎◌, All, IfSome, IsNone, None, OnOk, take, drop, length};
ghost use Rattle.seg_table.specs.Cells.{cells_of, IsEdge, Sets};
ghost use Rattle.seg_table.specs.Pieces.{AreCells, IsNext, IsUnparted};
ghost use Rattle.seg_table.specs.Put.{Fits};

use crate::change::put_uncounted;
use crate::leaf::{Leaf, count_in, fill_spares};
use crate::search::{find_in, walk_uncounted};
use crate::segment::{Segment, What};
use sector_extent::{Extent, Found, Memory, Steps};
use std::alloc::Global;
use std::marker::{Brand, Model};
use std::sync::ledger::{Blank, Ledger};

/// Which sectors of an image are set, and to what. A later put hides an earlier one.
#[derive(Drop)]
pub struct SegTable {
    alloc: Global,
    leaves: Vec<Leaf>,
    // empty or not, they are there for leaves to come
    spares: Vec<Leaf>,
    // for how many puts there is room
    spare: usize,
}

impl Model for SegTable {
    ghost use Rattle.std.specs.Prelude.{vec_len, vec_capacity};
    ghost use Rattle.seg_table.specs.Cells.{Table};
    ghost use Rattle.seg_table.specs.Segments.{AreRoomy, joined};

    ghost Value = { Table };

    ghost view = { λ table. record { segments = joined table.leaves.items; spare = table.spare } };

    ghost invariant = { λ table.
        AreRoomy table.leaves.items (vec_len table.leaves) (vec_capacity table.leaves)
        (vec_len table.spares) table.spare };
}

impl SegTable {
    /// A table in which no sector is set.
    pub fn new(alloc: Global) -> SegTable
        ensures cells { (sector : ℕ) → cells_of result sector ≡ None }
        ensures len { length result.segments ≡ 0 }
    {
        SegTable {
            alloc,
            leaves: Vec::new(alloc),
            spares: Vec::new(alloc),
            spare: 0,
        }
    }

    /// Makes room for so many puts at least, and keeps the room that there is. Each put may want a
    /// leaf of 8 KiB, so a long list is put in parts, with room for one part at a time.
    pub fn reserve(&mut self, puts: usize) -> Result<(), Memory>
        ensures ok { OnOk result (puts ≤ self.new.spare) }
        ensures same { self.new.segments ≡ self.old.segments }
        ensures room { self.old.spare ≤ self.new.spare }
    {
        if puts <= self.spare {
            return Ok(());
        }
        self.leaves.reserve(puts)?;
        fill_spares(self.alloc, &mut self.spares, puts)?;
        self.spare = puts;
        Ok(())
    }

    /// Sets the sectors of `extent`, the first one to `what` and the next ones to what follows it.
    /// It takes no memory.
    pub fn put(&mut self, extent: Extent, what: What)
        requires room { 0 < self.old.spare }
        requires some { 0 < extent.count }
        requires fits { Fits what extent.count }
        ensures cells { Sets (cells_of self.old) (cells_of self.new) (record { extent = extent; what = what }) }
        ensures spare { self.new.spare + 1 ≡ self.old.spare }
        ensures edges { (sector : ℕ) → IsEdge self.new.segments sector
            → IsEdge self.old.segments sector ⊎ ((sector ≡ extent.at) ⊎ (sector ≡ extent.at + extent.count)) }
        ensures len { length self.new.segments ≤ length self.old.segments + 2 }
    {
        let segment = Segment { extent, what };
        put_uncounted::<Brand>(&mut self.leaves, &mut self.spares, segment, Blank::new(1));
        self.spare -= 1;
    }

    /// Writes the segments inside the `count` sectors from `at` on into `out`, up to the sector
    /// `until` of the answer, where the range ends or `out` is full. The entries behind them stay.
    pub fn find<L: Ledger>(
        &self,
        at: u64,
        count: u32,
        out: &mut [Segment],
        steps: &mut Steps<L>,
    ) -> Found
        requires { at + count ≤ 2 ^ 31 }
        ensures cells { AreCells (cells_of self.now) at result.until (take result.pieces out.new) }
        ensures within { result.until ≤ at + count }
        ensures room { result.pieces ≤ length out.new }
        ensures full { result.until < at + count → result.pieces ≡ length out.new }
        // a piece ends only where the range or a segment of the table does, or another one begins
        ensures unparted { All (IsUnparted self.now.segments (at + count)) (take result.pieces out.new) }
        ensures rest { drop result.pieces out.new ≡ drop result.pieces out.old }
        ensures counted { steps.old ≤ steps.new }
        ensures bound { 2 ^ (steps.new - steps.old - result.pieces) ≤ 1024 * (2 * length self.now.segments + 1) }
    {
        find_in(self.leaves.as_slice(), at, at + count as u64, out, steps)
    }

    /// The first segment that ends past `from`. Of one that begins before `from` it is the part
    /// from there on.
    pub fn walk(&self, from: u64) -> Option<Segment>
        ensures next { IfSome result (IsNext (cells_of self.now) from) }
        ensures none { IsNone result ↔ ((sector : ℕ) → from ≤ sector → cells_of self.now sector ≡ None) }
        ensures unparted { IfSome result (IsUnparted self.now.segments (2 ^ 31)) }
    {
        walk_uncounted::<Brand>(self.leaves.as_slice(), from, Blank::new(1))
    }

    /// How many segments the table keeps.
    pub fn len(&self) -> usize
        ensures { result ≡ length self.now.segments }
    {
        count_in(self.leaves.as_slice())
    }
}
