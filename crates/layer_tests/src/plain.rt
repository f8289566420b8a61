ghost use Rattle.std.specs.Prelude.{◌≡◌, ◌≤◌, ◌^◌, length};
ghost use Rattle.flat_image.specs.RowCells.{AreLayerRows};
ghost use Rattle.merged_index.specs.Cells.{cell_in, numbered, what_of};

use merged_index::PieceWhat;
use sealed_layer::Layer;
use seg_mapping::Row;

// What the rows of that layer say of a sector: what the first one says that has it.
fn said_in(number: u8, rows: &[Row], sector: u64) -> PieceWhat
    requires sound { AreLayerRows (2 ^ 31) (2 ^ 50) 0 rows.now }
    ensures { result ≡ what_of number rows.now sector }
{
    for row in rows {
        if row.offset <= sector && sector < row.offset + row.count as u64 {
            if row.zeroed {
                return PieceWhat::Zero;
            }
            return PieceWhat::Filled {
                layer: number,
                place: row.place + (sector - row.offset),
            };
        }
    }
    PieceWhat::Hole
}

// The index in its plain form: the layers, which are asked from the uppermost down.
pub(crate) fn plain_cell(layers: &[Layer], sector: u64) -> PieceWhat
    requires few { length layers.now ≤ 255 }
    ensures { result ≡ cell_in (numbered 0 layers.now) sector }
{
    for number in (0..layers.len()).rev() {
        let what = said_in(number as u8, layers[number].rows(), sector);
        match what {
            PieceWhat::Hole => {}
            _ => return what,
        }
    }
    PieceWhat::Hole
}
