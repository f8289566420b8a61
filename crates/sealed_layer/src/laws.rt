ghost use Rattle.std.specs.Prelude.{◌≡◌, ℕ, ◌⊎◌, All, List};
ghost use Rattle.seg_mapping.specs.declared.Row.{Row};
ghost use Rattle.lsmt_header.specs.declared.head.Head.{Head};
ghost use Rattle.flat_image.specs.CanonicalFiles.{blank_file};
ghost use Rattle.flat_image.specs.LayerFiles.{LayerOf};
ghost use Rattle.sealed_layer.specs.declared.fault.LayerFault.{LayerFault};
ghost use Rattle.sealed_layer.specs.LayerFaults.{IsLayerFault};
ghost use Rattle.sealed_layer.specs.Layers.{IsLayerIndex};

use crate::layer::Layer;

/// A file is one layer at most, and the file of a layer has no fault. So `read_layer` answers the
/// layer of a file just where it is one, unless the shelf fails or memory is wanting.
pub fn layer_laws()
    ensures one { (file : List ℕ) (head other : Head) (rows others : List Row) → LayerOf file head rows
        → LayerOf file other others → (head ≡ other) × (rows ≡ others) }
    ensures sound { (file : List ℕ) (head : Head) (rows : List Row) (fault : LayerFault) → LayerOf file head rows
        → IsLayerFault file fault
        → (fault ≡ LayerFault.Failed) ⊎ (fault ≡ LayerFault.Memory) }
    // what a layer in memory keeps is the head and the rows of some file
    ensures blank { (head : Head) (rows : List Row) → IsLayerIndex head rows
        → LayerOf (blank_file head rows) head rows }
{}

/// Layers in memory keep what a layer keeps, each of them. The loop does nothing.
pub fn layers_law(layers: &[Layer])
    ensures { All (λ layer. IsLayerIndex layer.head layer.rows) layers.now }
{
    for layer in layers {
        let _rows = layer.rows();
    }
}
