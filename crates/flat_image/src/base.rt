ghost use Rattle.std.specs.Prelude.{ℕ, List, Option};
ghost use Rattle.std.specs.Borrow.{ftrue};
ghost use Rattle.flat_image.specs.Sheets.{Cell};
ghost use Rattle.flat_image.specs.Frozen.{Frozen};

use crate::stands::Named;
use std::marker::{Brand, Model};

/// What an image starts from, before the first entry of its history. It stands in contracts alone.
pub struct Base {
    pub ghost sectors: { ℕ },
    pub ghost lowers: { List (List ℕ) },
    pub ghost done: { List (List ℕ) },
    pub ghost frozen: { Option Frozen },
    pub ghost top: { List Cell },
    pub ghost rows: { ℕ },
    pub ghost filled: { ℕ },
    pub ghost faults: { ℕ },
}

impl Model for Base {
    ghost also_owns = { λ _. ftrue };
}

// the base of a call that passes `Brand` is the one that the caller's proof picks
impl Named<Base> for Brand {
    ghost use Rattle.std.specs.Prelude.{[], None};

    ghost it = { record {
      sectors = 0;
      lowers = [];
      done = [];
      frozen = None;
      top = [];
      rows = 0;
      filled = 0;
      faults = 0;
    } };
}
