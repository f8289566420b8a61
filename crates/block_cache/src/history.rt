//! What a cache stands for: a capacity, the files that its blocks are of, and what was done since.
ghost use Rattle.std.specs.Prelude.{ℕ, List, Option};
ghost use Rattle.std.specs.Borrow.{ftrue};

use crate::key::Key;
use flat_image::Named;
use std::marker::{Brand, Model};

/// What one entry of a history did to a cache.
#[derive(Clone, Copy, Debug, PartialEq, Eq)]
pub enum CacheAct {
    /// The key was looked up.
    Look(Key),
    /// The key's block was put in.
    Put(Key),
    /// No memory was left to put the key's block in.
    Skip(Key),
}

/// What a cache starts from: how many blocks it may have, and the files, where they are told. It
/// stands in contracts alone.
pub struct CacheBase {
    pub ghost capacity: { ℕ },
    pub ghost files: { Option (List (List ℕ)) },
}

impl Model for CacheBase {
    ghost also_owns = { λ _. ftrue };
}

// the act of a call that passes `Brand` is the one that the caller's proof picks
impl Named<CacheAct> for Brand {
    ghost use Rattle.block_cache.specs.declared.history.CacheAct.TheVariants.{Look};

    ghost it = { Look (record { layer = 0; block = 0 }) };
}

// the base of a call that passes `Brand` is the one that the caller's proof picks
impl Named<CacheBase> for Brand {
    ghost use Rattle.std.specs.Prelude.{None};

    ghost it = { record { capacity = 0; files = None } };
}
