//! The beginning of a sealing.
ghost use Rattle.std.specs.Prelude.{◌≡◌, ◌≢◌, ℕ, ◌*◌, ◌^◌, ◌≤◌, nat_lt, if◌then◌else◌, [], IfOk, List, length};
ghost use Rattle.seg_table.specs.Cells.{cells_of};
ghost use Rattle.lsmt_header.specs.Blocks.{nil, IsSize};
ghost use Rattle.lsmt_header.specs.declared.head.Kind.TheVariants.{SealedHead};
ghost use Rattle.flat_image.specs.CanonicalFiles.{canonical_rows};
ghost use Rattle.layer_commit.specs.Fitting.{Begun};
ghost use Rattle.layer_commit.specs.Gathered.{ArePlaces, EndBy};
ghost use Rattle.layer_commit.specs.Sources.{table_sheet};
ghost use Rattle.layer_commit.specs.View.{view_of};

use crate::gathering::gather;
use crate::laying::SECTOR;
use crate::parts::SealParts;
use lsmt_header::{Head, Kind, Tag};
use sealed_layer::Layer;
use sector_extent::Memory;
use seg_table::SegTable;
use std::alloc::Global;

// What a layer is called, and what it stands over.
#[derive(Clone, Copy, Debug, PartialEq, Eq)]
struct Naming {
    uuid: [u8; 16],
    parent: [u8; 16],
    // the sectors of the layer below, or its own
    below: u64,
    sectors: u64,
}

// The head of a layer with so many filled sectors and rows.
fn head_of(naming: &Naming, filled: u64, rows: u64) -> Head
    requires { filled ≤ 2 ^ 50 }
    ensures { result ≡ record {
      version = if nat_lt naming.now.below naming.now.sectors then 2 else 1;
      kind = SealedHead;
      index_at = 512 * filled;
      rows = rows;
      sectors = naming.now.sectors;
      uuid = naming.now.uuid;
      parent = naming.now.parent;
      tag = [];
    } }
{
    Head {
        version: if naming.below < naming.sectors { 2 } else { 1 },
        kind: Kind::SealedHead,
        index_at: SECTOR * filled,
        rows,
        sectors: naming.sectors,
        uuid: naming.uuid,
        parent: naming.parent,
        tag: Tag::empty(),
    }
}

impl SealParts {
    // A sealing of a table, of which nothing is written.
    pub(crate) fn begin(
        alloc: Global,
        table: &SegTable,
        uuid: [u8; 16],
        parent: [u8; 16],
        below: u64,
        sectors: u64,
        from_file: u32,
        to_file: u32,
    ) -> Result<SealParts, Memory>
        requires named { uuid ≢ nil }
        requires size { IsSize sectors }
        requires files { from_file ≢ to_file }
        requires within { EndBy sectors (cells_of table.now) }
        requires low { ArePlaces (cells_of table.now) }
        // the rows are the same whatever the data
        requires few { (stored : List ℕ) × (length (canonical_rows (table_sheet stored sectors table.now)) ≤ 2 ^ 24) }
        ensures { IfOk result (λ parts. Begun table.now uuid parent below sectors from_file to_file (view_of parts)) }
    {
        let gathering = gather(alloc, table)?;
        let buffer = vec![in alloc; 0; 131_072]?;
        let rows = gathering.rows.finish();
        let naming = Naming {
            uuid,
            parent,
            below,
            sectors,
        };
        let head = head_of(&naming, gathering.filled, rows.len() as u64);
        Ok(SealParts {
            layer: Layer::new(head, rows),
            sources: gathering.sources,
            buffer,
            from_file,
            to_file,
            done: 0,
        })
    }
}
