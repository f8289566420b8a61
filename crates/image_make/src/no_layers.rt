//! A shelf without files, for an image that lies over no layers.
use layer_shelf::{Shelf, ShelfFailed};

/// So many files, of which nothing is told but that there are none.
#[derive(Clone, Copy)]
pub struct NoLayers {
    pub(crate) count: u32,
}

impl Shelf for NoLayers {
    ghost use Rattle.image_make.specs.NoLayers.{files_of_none, none-counted};

    ghost files = { λ s. files_of_none s.count };

    ghost count = { λ s. s.count };

    ghost faults = { λ _. 0 };

    ghost counted = { λ s. none-counted s.count };

    fn count(&self) -> u32 {
        self.count
    }

    fn length(&mut self, _k: u32) -> Result<u64, ShelfFailed> {
        Ok(0)
    }

    fn read(&mut self, _k: u32, _at: u64, _out: &mut [u8]) -> Result<(), ShelfFailed> {
        Ok(())
    }
}
