ghost use Rattle.std.specs.Prelude.{◌≡◌, ◌+◌, ◌*◌, ◌^◌, ◌<◌, ◌≤◌, ◌↔◌, ◌⊎◌, IsTrue, IfOk, IfErr, IfSome, OnOk, IsErrOf, All, [], min, length, slice_set, vec_capacity};
ghost use Rattle.std.specs.Option.{ForSome};
ghost use Rattle.sector_extent.specs.Causes.{Charges};
ghost use Rattle.lsmt_header.specs.declared.head.Kind.TheVariants.{SealedHead};
ghost use Rattle.lsmt_header.specs.Blocks.{IsValid, Fits, BlockOf};
ghost use Rattle.layer_shelf.specs.Shelves.{SameFiles, file_at};
ghost use Rattle.flat_image.specs.RowCells.{AreSpelled, AreLayerRows};
ghost use Rattle.flat_image.specs.LayerFiles.{IsFramed, IsIndexPlace, LayerOf};
ghost use Rattle.sealed_layer.specs.Layers.{IsTagged};
ghost use Rattle.sealed_layer.specs.LayerFaults.{IsLayerFault, IsNoHead};
ghost use Rattle.sealed_layer.specs.declared.fault.LayerFault.TheVariants as layer_fault;
ghost use Rattle.sealed_layer.specs.RowReading.{StopsReading};

use crate::fault::LayerFault;
use crate::layer::Layer;
use crate::rows::push_rows;
use layer_shelf::Shelf;
use lsmt_header::{Head, Kind, decode_block};
use sector_extent::SECTOR;
use seg_mapping::Row;
use std::alloc::Global;

// Bytes of a block of a head.
const BLOCK: u64 = 4096;

// Rows that are read at a time, 64 KiB of them.
const PIECE_ROWS: usize = 4096;

/// Reads the head and the rows of file `k` of the shelf. The data sectors are not read.
pub fn read_layer<S: Shelf>(alloc: Global, shelf: &mut S, k: u32) -> Result<Layer, LayerFault>
    requires { k < S.count shelf.old }
    ensures found { IfOk result (λ layer.
        IfSome (S.files shelf.old) (λ files. LayerOf (file_at files k) layer.head layer.rows)) }
    ensures fault { IfErr result (λ fault. IfSome (S.files shelf.old) (λ files. IsLayerFault (file_at files k) fault)) }
    ensures same { SameFiles S.files S.count shelf.old shelf.new }
    ensures cause { Charges S.faults shelf.old shelf.new (IsErrOf result layer_fault.Failed) }
{
    let len = shelf.length(k)?;
    if len < 2 * BLOCK {
        return Err(LayerFault::Short);
    }
    let head = read_head(shelf, k, len)?;
    check_index(&head, len)?;
    let rows = read_rows(alloc, shelf, k, &head)?;
    Ok(Layer::new(head, rows))
}

// Reads the first and the last block.
fn read_head<S: Shelf>(shelf: &mut S, k: u32, len: u64) -> Result<Head, LayerFault>
    requires file { k < S.count shelf.old }
    requires long { 8192 ≤ len }
    requires limit { len ≤ 2 ^ 50 }
    requires told { ForSome (S.files shelf.old) (λ files. len ≡ length (file_at files k)) }
    ensures found { IfOk result (λ head. IfSome (S.files shelf.old) (λ files. IsFramed (file_at files k) head)) }
    ensures valid { IfOk result (λ head. (head.kind ≡ SealedHead) × IsValid head) }
    ensures sized { IfOk result Fits }
    ensures fault { IfErr result (λ fault. IfSome (S.files shelf.old) (λ files. IsLayerFault (file_at files k) fault)) }
    ensures same { SameFiles S.files S.count shelf.old shelf.new }
    ensures cause { Charges S.faults shelf.old shelf.new (IsErrOf result layer_fault.Failed) }
{
    let mut front = [0; 4096];
    shelf.read(k, 0, &mut front)?;
    let head = decode_head(&front)?;
    let mut end = [0; 4096];
    shelf.read(k, len - BLOCK, &mut end)?;
    if !is_trailer(&end, &mut front) {
        return Err(LayerFault::TrailerDiffers);
    }
    Ok(head)
}

// The head whose block this is.
pub(crate) fn decode_head(block: &[u8; 4096]) -> Result<Head, LayerFault>
    ensures found { IfOk result (λ head. BlockOf block.now head × (head.kind ≡ SealedHead)) }
    ensures fault { IfErr result (IsNoHead block.now) }
{
    match decode_block(block, Kind::SealedHead) {
        Ok(head) => Ok(head),
        Err(fault) => Err(LayerFault::Head(fault)),
    }
}

// The block is the one at the front with the byte at 12 made 6. The front is changed.
pub(crate) fn is_trailer(end: &[u8; 4096], front: &mut [u8; 4096]) -> bool
    ensures { IsTrue result ↔ (end.now ≡ slice_set front.old 12 6) }
{
    front[12] = 6;
    *end == *front
}

// Whether the index that the head names fits a file of so many bytes.
pub(crate) fn check_index(head: &Head, len: u64) -> Result<(), LayerFault>
    requires { len ≤ 2 ^ 50 }
    ensures ok { OnOk result ((head.now.rows ≤ 2 ^ 24) × IsIndexPlace len head.now.index_at head.now.rows) }
    ensures fault { IfErr result (λ fault. ((fault ≡ LayerFault.TooManyRows head.now.rows) × (2 ^ 24 < head.now.rows))
        ⊎ ((fault ≡ LayerFault.BadIndexPlace) × (head.now.rows ≤ 2 ^ 24)
        × (IsIndexPlace len head.now.index_at head.now.rows → ⊥))) }
{
    if head.rows > 1 << 24 {
        return Err(LayerFault::TooManyRows(head.rows));
    }
    let at = head.index_at;
    if at < BLOCK || at > len || at % SECTOR as u64 != 0 {
        return Err(LayerFault::BadIndexPlace);
    }
    if (at + 16 * head.rows).div_ceil(BLOCK) * BLOCK + BLOCK != len {
        return Err(LayerFault::BadIndexPlace);
    }
    Ok(())
}

// Reads the rows.
fn read_rows<S: Shelf>(
    alloc: Global,
    shelf: &mut S,
    k: u32,
    head: &Head,
) -> Result<Vec<Row>, LayerFault>
    requires file { k < S.count shelf.old }
    requires size { head.now.sectors ≤ 2 ^ 31 }
    requires few { head.now.rows ≤ 2 ^ 24 }
    requires place { head.now.index_at + 16 * head.now.rows ≤ 2 ^ 50 }
    ensures sound { IfOk result (λ rows. AreLayerRows head.now.sectors head.now.index_at 0 rows.items) }
    ensures tags { IfOk result (λ rows. All IsTagged rows.items) }
    ensures count { IfOk result (λ rows. length rows.items ≡ head.now.rows) }
    ensures found { IfOk result (λ rows.
        IfSome (S.files shelf.old) (λ files. AreSpelled (file_at files k) head.now.index_at rows.items)) }
    ensures fault { IfErr result (λ fault.
        IfSome (S.files shelf.old) (λ files. StopsReading (file_at files k) head.now fault)) }
    ensures same { SameFiles S.files S.count shelf.old shelf.new }
    ensures cause { Charges S.faults shelf.old shelf.new (IsErrOf result layer_fault.Failed) }
{
    let count = head.rows as usize;
    let mut rows = Vec::with_capacity(alloc, count)?;
    let mut buffer = vec![in alloc; 0u8; 16 * count.min(PIECE_ROWS)]?;
    fill_rows(shelf, k, head, buffer.as_mut_slice(), &mut rows)?;
    Ok(rows)
}

// Reads the rows into a list that has room for them, a piece at a time.
fn fill_rows<S: Shelf>(
    shelf: &mut S,
    k: u32,
    head: &Head,
    buffer: &mut [u8],
    rows: &mut Vec<Row>,
) -> Result<(), LayerFault>
    requires file { k < S.count shelf.old }
    requires size { head.now.sectors ≤ 2 ^ 31 }
    requires few { head.now.rows ≤ 2 ^ 24 }
    requires place { head.now.index_at + 16 * head.now.rows ≤ 2 ^ 50 }
    requires buffer { length buffer.old ≡ 16 * min head.now.rows 4096 }
    requires none { rows.old.items ≡ [] }
    requires room { head.now.rows ≤ vec_capacity rows.old }
    ensures sound { AreLayerRows head.now.sectors head.now.index_at 0 rows.new.items }
    ensures tags { All IsTagged rows.new.items }
    ensures count { OnOk result (length rows.new.items ≡ head.now.rows) }
    ensures found { OnOk result
        (IfSome (S.files shelf.old) (λ files. AreSpelled (file_at files k) head.now.index_at rows.new.items)) }
    ensures fault { IfErr result (λ fault.
        IfSome (S.files shelf.old) (λ files. StopsReading (file_at files k) head.now fault)) }
    ensures same { SameFiles S.files S.count shelf.old shelf.new }
    ensures cause { Charges S.faults shelf.old shelf.new (IsErrOf result layer_fault.Failed) }
{
    let count = head.rows as usize;
    let mut low = 0;
    while rows.len() < count {
        let more = (count - rows.len()).min(PIECE_ROWS);
        let (piece, _) = buffer.split_at_mut(16 * more);
        shelf.read(k, head.index_at + 16 * rows.len() as u64, piece)?;
        low = push_rows(rows, low, piece, head)?;
    }
    Ok(())
}
