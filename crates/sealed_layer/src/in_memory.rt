//! Reads a layer whose whole file stands in memory.
ghost use Rattle.std.specs.Prelude.{◌≡◌, ◌+◌, ◌*◌, ◌^◌, ◌≤◌, IfOk, IfErr, IsErrOf, All, length};
ghost use Rattle.lsmt_header.specs.declared.head.Kind.TheVariants.{SealedHead};
ghost use Rattle.lsmt_header.specs.Blocks.{IsValid, Fits};
ghost use Rattle.flat_image.specs.RowCells.{AreSpelled, AreLayerRows};
ghost use Rattle.flat_image.specs.LayerFiles.{IsFramed, LayerOf};
ghost use Rattle.sealed_layer.specs.Layers.{IsTagged};
ghost use Rattle.sealed_layer.specs.LayerFaults.{IsLayerFault};
ghost use Rattle.sealed_layer.specs.RowReading.{StopsReading};
ghost use Rattle.sealed_layer.specs.declared.fault.LayerFault.TheVariants as layer_fault;

use crate::fault::LayerFault;
use crate::layer::Layer;
use crate::reading::{check_index, decode_head, is_trailer};
use crate::rows::push_rows;
use lsmt_header::Head;
use seg_mapping::Row;
use std::alloc::Global;

/// The head and the rows of the layer whose file these bytes are. No shelf is asked, so none fails.
pub fn layer_in(alloc: Global, file: &[u8]) -> Result<Layer, LayerFault>
    requires { length file.now ≤ 2 ^ 50 }
    ensures found { IfOk result (λ layer. LayerOf file.now layer.head layer.rows) }
    ensures fault { IfErr result (IsLayerFault file.now) }
    ensures sure { IsErrOf result layer_fault.Failed → ⊥ }
{
    let head = framed_head(file)?;
    check_index(&head, file.len() as u64)?;
    let rows = rows_in(alloc, file, &head)?;
    Ok(Layer::new(head, rows))
}

// The head of the first block, where the last block is its trailer.
fn framed_head(file: &[u8]) -> Result<Head, LayerFault>
    ensures found { IfOk result (IsFramed file.now) }
    ensures valid { IfOk result (λ head. (head.kind ≡ SealedHead) × IsValid head) }
    ensures sized { IfOk result Fits }
    ensures fault { IfErr result (IsLayerFault file.now) }
    ensures sure { IsErrOf result layer_fault.Failed → ⊥ }
{
    let (Some(front), Some(end)) = (file.first_chunk(), file.last_chunk()) else {
        return Err(LayerFault::Short);
    };
    if file.len() < 8192 {
        return Err(LayerFault::Short);
    }
    let head = decode_head(front)?;
    let mut front = *front;
    if !is_trailer(end, &mut front) {
        return Err(LayerFault::TrailerDiffers);
    }
    Ok(head)
}

// The rows, in a list of their own.
fn rows_in(alloc: Global, file: &[u8], head: &Head) -> Result<Vec<Row>, LayerFault>
    requires size { head.now.sectors ≤ 2 ^ 31 }
    requires few { head.now.rows ≤ 2 ^ 24 }
    requires place { head.now.index_at + 16 * head.now.rows ≤ length file.now }
    ensures sound { IfOk result (λ rows. AreLayerRows head.now.sectors head.now.index_at 0 rows.items) }
    ensures tags { IfOk result (λ rows. All IsTagged rows.items) }
    ensures count { IfOk result (λ rows. length rows.items ≡ head.now.rows) }
    ensures found { IfOk result (λ rows. AreSpelled file.now head.now.index_at rows.items) }
    ensures fault { IfErr result (StopsReading file.now head.now) }
    ensures sure { IsErrOf result layer_fault.Failed → ⊥ }
{
    let count = head.rows as usize;
    let mut rows = Vec::with_capacity(alloc, count)?;
    let (_, index) = file.split_at(head.index_at as usize);
    let (index, _) = index.split_at(16 * count);
    push_rows(&mut rows, 0, index, head)?;
    Ok(rows)
}
