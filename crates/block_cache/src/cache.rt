//! The cache alone.
ghost use Rattle.std.specs.Prelude.{◌≡◌, ℕ, ◌+◌, ◌<◌, ◌≤◌, List, [], ◌∷◌, ◌++◌, length, IfOk, OnOk, OnErr};
ghost use Rattle.std.specs.Option.{ForSome};
ghost use Rattle.flat_image.specs.declared.stands.Entry.{Entry};
ghost use Rattle.flat_image.specs.Entries.{entry};
ghost use Rattle.block_cache.specs.declared.history.CacheAct.{CacheAct};
ghost use Rattle.block_cache.specs.declared.history.CacheAct.TheVariants.{Look, Put};
ghost use Rattle.block_cache.specs.declared.history.CacheBase.{CacheBase};
ghost use Rattle.block_cache.specs.Blocks.{block_of, Looks, Copies, looked_up, put_in};
ghost use Rattle.block_cache.specs.CacheHistory.{StandsFor, Finds};

use crate::history::{CacheAct, CacheBase};
use crate::key::Key;
use flat_image::Stands;
use lru::LruCache;
use sector_extent::{Bytes, Memory};
use std::alloc::Global;
use std::marker::Model;
use std::num::NonZeroUsize;

/// A cache of blocks by key. A new block takes the place of the one that was not used for longest.
#[derive(Drop)]
pub struct Cache {
    alloc: Global,
    blocks: LruCache<Key, Bytes>,
}

impl Model for Cache {
    ghost use Rattle.block_cache.specs.Blocks.{CacheState};

    ghost Value = { CacheState };

    ghost view = { λ c. record { capacity = c.blocks.cap; blocks = c.blocks.entries } };
}

impl Cache {
    /// An empty cache for so many blocks.
    pub fn new(alloc: Global, capacity: u32) -> Result<Cache, Memory>
        requires some { 0 < capacity }
        requires few { capacity ≤ 16384 }
        ensures empty { IfOk result (λ cache. cache ≡ record { capacity = capacity; blocks = [] }) }
        ensures stands { IfOk result (λ cache. (base : CacheBase) → base.capacity ≡ capacity →
            StandsFor cache base []) }
    {
        let Some(capacity) = NonZeroUsize::new(capacity as usize) else {
            unreachable!()
        };
        let blocks = LruCache::new(alloc, capacity)?;
        Ok(Cache { alloc, blocks })
    }

    /// Copies a range of the key's block, from byte `at` on, if it is in. The key then comes first.
    pub fn look(&mut self, key: Key, at: usize, out: &mut [u8]) -> bool
        requires { at + length out.old ≤ 65536 }
        ensures looks { Looks self.old key at out.old result out.new }
        ensures after { self.new ≡ looked_up self.old key }
        ensures history { (base : CacheBase) (history : List (Entry CacheAct)) (number : ℕ) →
            StandsFor self.old base history →
            Finds base history key at (length out.old) result out.new
            × StandsFor self.new base (history ++ entry number (Look key) ∷ []) }
    {
        match self.blocks.get(&key) {
            Some(block) => copy_part(block.as_slice(), at, out),
            None => false,
        }
    }

    /// Keeps a copy of the bytes as the key's block, which then comes first.
    pub fn put(&mut self, key: Key, bytes: &[u8]) -> Result<(), Memory>
        requires some { 0 < length bytes.now }
        requires few { length bytes.now ≤ 65536 }
        ensures ok { OnOk result (self.new ≡ put_in self.old key bytes.now) }
        ensures err { OnErr result (self.new ≡ self.old) }
        ensures history { OnOk result ((base : CacheBase) (history : List (Entry CacheAct)) (number : ℕ) →
            ForSome base.files (λ files. bytes.now ≡ block_of files key) → StandsFor self.old base history →
            StandsFor self.new base (history ++ entry number (Put key) ∷ [])) }
    {
        let block = copy_of(self.alloc, bytes)?;
        self.keep(key, block)?;
        Ok(())
    }

    // Takes the block in, and gives back the one whose place it takes.
    pub(crate) fn keep(&mut self, key: Key, block: Bytes) -> Result<Option<(Key, Bytes)>, Memory>
        ensures ok { OnOk result (self.new ≡ put_in self.old key block) }
        ensures err { OnErr result (self.new ≡ self.old) }
    {
        // The length is asked for, since contracts then know that no key stands twice.
        let _ = self.blocks.len();
        Ok(self.blocks.push(key, block)?)
    }
}

// A copy of the bytes.
pub(crate) fn copy_of(alloc: Global, bytes: &[u8]) -> Result<Bytes, Memory>
    ensures { IfOk result (λ copy. copy ≡ bytes.now) }
{
    Ok(Bytes::from_vec(bytes.to_vec(alloc)?))
}

// Copies a range of a block, if it has it.
fn copy_part(block: &[u8], at: usize, out: &mut [u8]) -> bool
    ensures { Copies block.now at out.old result out.new }
{
    if at > block.len() || block.len() - at < out.len() {
        return false;
    }
    out.copy_from_slice(&block[at..at + out.len()]);
    true
}

impl Stands for Cache {
    ghost use Rattle.block_cache.specs.CacheHistory.{StandsFor};

    type Act = CacheAct;

    type Base = CacheBase;

    ghost stands = { λ cache base _ history. StandsFor cache base history };
}
