//! A shelf that comes back with the files it was handed with.
ghost use Rattle.std.specs.Prelude.{◌≡◌, ◌+◌, ◌^◌, ◌<◌, ◌≤◌, length, take, drop, OnOk, IfOk, IfSome, IsErr};
ghost use Rattle.sector_extent.specs.Causes.{Charges};
ghost use Rattle.layer_shelf.specs.Shelves.{SameFiles, file_at};
ghost use Rattle.lane_export.specs.Caching.{HasFiles};

use layer_shelf::{Shelf, ShelfFailed};
use std::marker::{Brand, Model, PhantomData};

// Names the files of shelves, where they are told, and their number, for contracts alone: a caller passes
// `Brand`, and its proof picks them.
pub(crate) trait Files {
    ghost use Rattle.std.specs.Prelude.{ℕ, List};
    ghost use Rattle.std.specs.declared.option.Option.{Option};

    ghost told: { Option (List (List ℕ)) };

    ghost count: { ℕ };
}

impl Files for Brand {
    ghost use Rattle.std.specs.Prelude.{None};

    ghost told = { None };

    ghost count = { 0 };
}

// A shelf that has the files that `F` names. A lane that runs says nothing of its shelf's files, and so
// their name stands in the type.
#[derive(Drop)]
pub(crate) struct KeptShelf<S: Shelf, F: Files> {
    shelf: S,
    named: PhantomData<F>,
}

impl<S: Shelf, F: Files> Model for KeptShelf<S, F> {
    ghost use Rattle.lane_export.specs.Caching.{HasFiles};

    ghost Value = { S };

    ghost view = { λ s. s.shelf };

    ghost invariant = { λ s. HasFiles S.Shelf F.told F.count s.shelf };
}

impl<S: Shelf, F: Files> KeptShelf<S, F> {
    pub(crate) fn new(shelf: S) -> KeptShelf<S, F>
        requires { HasFiles S.Shelf F.told F.count shelf }
        ensures { result ≡ shelf }
    {
        KeptShelf {
            shelf,
            named: PhantomData,
        }
    }

    pub(crate) fn into_inner(self) -> S
        ensures shelf { result ≡ self }
        ensures files { HasFiles S.Shelf F.told F.count result }
    {
        let KeptShelf { shelf, named: _ } = self;
        shelf
    }
}

impl<S: Shelf, F: Files> Shelf for KeptShelf<S, F> {
    ghost files = { λ s. S.files s };

    ghost count = { λ s. S.count s };

    ghost faults = { λ s. S.faults s };

    ghost counted = { λ s. S.counted s };

    fn count(&self) -> u32 {
        self.shelf.count()
    }

    fn length(&mut self, k: u32) -> Result<u64, ShelfFailed> {
        self.shelf.length(k)
    }

    fn read(&mut self, k: u32, at: u64, out: &mut [u8]) -> Result<(), ShelfFailed> {
        self.shelf.read(k, at, out)
    }
}
