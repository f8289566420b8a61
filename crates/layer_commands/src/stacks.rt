//! Reads the layers of a shelf.
ghost use Rattle.std.specs.Prelude.{◌≡◌, ◌^◌, ◌<◌, ◌≤◌, ◌↔◌, length, map, All, IfOk, IfErr, IfSome, IsErrOf};
ghost use Rattle.sector_extent.specs.Causes.{Charges};
ghost use Rattle.layer_shelf.specs.Shelves.{SameFiles, file_at};
ghost use Rattle.flat_image.specs.LayerFiles.{LayerOf};
ghost use Rattle.flat_image.specs.Stacks.{Legal};
ghost use Rattle.layer_stack.specs.declared.fault.StackFault.TheVariants.{Empty};
ghost use Rattle.sealed_layer.specs.Layers.{IsLayerIndex};
ghost use Rattle.layer_commands.specs.Flattening.{AreTold};
ghost use Rattle.layer_commands.specs.Reading.{AreFilesRefused, IsFileRefusal, IsStackRefusal, refusal_of};

use crate::refusal::Refusal;
use layer_shelf::Shelf;
use layer_stack::{StackFault, check};
use lsmt_header::Head;
use sealed_layer::{Layer, LayerFault, read_layer};
use std::alloc::{AllocError, Global};

// What a fault of the file of that number is refused as.
pub(crate) fn layer_refusal(number: u32, fault: LayerFault) -> Refusal
    ensures { result ≡ refusal_of number fault }
{
    match fault {
        LayerFault::Failed => Refusal::ShelfFault,
        LayerFault::Memory => Refusal::Memory,
        LayerFault::Short
        | LayerFault::Head(_)
        | LayerFault::TrailerDiffers
        | LayerFault::TooManyRows(_)
        | LayerFault::BadIndexPlace
        | LayerFault::Row { .. }
        | LayerFault::RowOrder(_)
        | LayerFault::RowRange(_)
        | LayerFault::RowPlace(_) => Refusal::Layer(number, fault),
    }
}

/// Reads file `k` of the shelf as a layer.
pub fn read_one<S: Shelf>(alloc: Global, shelf: &mut S, k: u32) -> Result<Layer, Refusal>
    requires { k < S.count shelf.old }
    ensures found { IfOk result (λ layer. IfSome (S.files shelf.old) (λ files.
        LayerOf (file_at files k) layer.head layer.rows)) }
    ensures sound { IfOk result (λ layer. IsLayerIndex layer.head layer.rows) }
    ensures refused { IfErr result (IsFileRefusal (S.files shelf.old) k) }
    ensures same { SameFiles S.files S.count shelf.old shelf.new }
    ensures cause { Charges S.faults shelf.old shelf.new (IsErrOf result Refusal.ShelfFault) }
{
    match read_layer(alloc, shelf, k) {
        Ok(layer) => {
            let _rows = layer.rows();
            Ok(layer)
        }
        Err(fault) => Err(layer_refusal(k, fault)),
    }
}

/// Reads all files of the shelf as layers, in order.
pub fn read_layers<S: Shelf>(alloc: Global, shelf: &mut S) -> Result<Vec<Layer>, Refusal>
    ensures count { IfOk result (λ layers. length layers.items ≡ S.count shelf.old) }
    ensures few { IfOk result (λ layers. length layers.items < 2 ^ 32) }
    ensures told { IfOk result (λ layers. IfSome (S.files shelf.old) (λ files. AreTold files layers.items)) }
    ensures sound { IfOk result (λ layers. All (λ layer. IsLayerIndex layer.head layer.rows) layers.items) }
    ensures refused { IfErr result (AreFilesRefused (S.files shelf.old)) }
    ensures same { SameFiles S.files S.count shelf.old shelf.new }
    ensures cause { Charges S.faults shelf.old shelf.new (IsErrOf result Refusal.ShelfFault) }
{
    let count = shelf.count();
    let mut layers = Vec::new(alloc);
    for k in 0..count {
        let layer = read_one(alloc, shelf, k)?;
        layers.push(layer)?;
    }
    Ok(layers)
}

fn heads_of(alloc: Global, layers: &[Layer]) -> Result<Vec<Head>, AllocError>
    ensures { IfOk result (λ heads. heads.items ≡ map (λ layer. layer.head) layers.now) }
{
    layers.iter().map(|layer| *layer.head()).collect(alloc)
}

/// Reads all files of the shelf as layers, and checks that they are a stack.
pub fn read_stack<S: Shelf>(alloc: Global, shelf: &mut S) -> Result<Vec<Layer>, Refusal>
    ensures count { IfOk result (λ layers. length layers.items ≡ S.count shelf.old) }
    ensures few { IfOk result (λ layers. length layers.items ≤ 255) }
    ensures told { IfOk result (λ layers. IfSome (S.files shelf.old) (λ files. AreTold files layers.items)) }
    ensures legal { IfOk result (λ layers. Legal (map (λ layer. layer.head) layers.items)) }
    ensures sound { IfOk result (λ layers. All (λ layer. IsLayerIndex layer.head layer.rows) layers.items) }
    ensures refused { IfErr result (IsStackRefusal (S.files shelf.old) (S.count shelf.old)) }
    ensures empty { IsErrOf result (Refusal.Stack Empty) ↔ (S.count shelf.old ≡ 0) }
    ensures same { SameFiles S.files S.count shelf.old shelf.new }
    ensures cause { Charges S.faults shelf.old shelf.new (IsErrOf result Refusal.ShelfFault) }
{
    if shelf.count() == 0 {
        return Err(Refusal::Stack(StackFault::Empty));
    }
    let layers = read_layers(alloc, shelf)?;
    let heads = heads_of(alloc, layers.as_slice())?;
    match check(heads.as_slice()) {
        Ok(()) => Ok(layers),
        Err(fault) => Err(Refusal::Stack(fault)),
    }
}
