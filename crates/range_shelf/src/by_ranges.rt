//! A shelf over a fetcher: each read is one fetch of its range.
ghost use Rattle.std.specs.Prelude.{◌≡◌, ℕ, ◌+◌, ◌-◌, ◌^◌, ◌<◌, ◌≤◌, [], List, Ok, Option, Some, None, false, is_err, if◌then◌else◌, length, replicate, slice_index_or, slice_set, Result, IsOk, IfOk, IfSome, OnOk, OnErr, MatchResult, MatchOption, take, drop};
ghost use Rattle.http_range.specs.Fetching.{IsFresh};
ghost use Rattle.http_range.specs.Requests.{TargetTexts};
ghost use Rattle.http_range.specs.declared.reason.FetchFault.{FetchFault};
ghost use Rattle.layer_shelf.specs.Shelves.{SameFiles, file_at};
ghost use Rattle.range_shelf.specs.RangeShelves.{RangeShelfState, FetchesRange, FetchesRight, IsLength, files_told};

use http_range::{FetchFault, Fetcher, Link, Target};
use layer_shelf::{Shelf, ShelfFailed};
use sector_extent::{FaultCount, ListOf, Memory};
use std::alloc::Global;
use std::marker::Model;

/// Where files stand, in order.
pub type TargetList = ListOf<Target>;

/// The greatest length of a file in bytes.
const MAX_LENGTH: u64 = 1 << 50;

/// File `k` is the file at the target of number `k`. It takes its memory when it is made, and none
/// later. Where its link tells that it serves all of them, it tells its files.
#[derive(Drop)]
pub struct RangeShelf<L: Link> {
    fetcher: Fetcher<L>,
    targets: TargetList,
    lengths: Vec<Option<u64>>,
    faults: FaultCount,
}

impl<L: Link> Model for RangeShelf<L> {
    ghost use Rattle.std.specs.Prelude.{◌≡◌, ◌^◌, ◌<◌, length, All};
    ghost use Rattle.range_shelf.specs.RangeShelves.{RangeShelfState, IsShort, IsRight};

    ghost Value = { RangeShelfState };

    ghost view = { λ s. record {
      fetcher = s.fetcher;
      targets = s.targets;
      lengths = s.lengths.items;
      faults = s.faults.count;
    } };

    ghost invariant = { λ s. (length s.targets < 2 ^ 32) × (length s.lengths.items ≡ length s.targets)
        × All IsShort s.lengths.items × IsRight (record {
          fetcher = s.fetcher;
          targets = s.targets;
          lengths = s.lengths.items;
          faults = s.faults.count;
        }) };
}

// So many lengths that are not known.
fn no_lengths(alloc: Global, count: usize) -> Result<Vec<Option<u64>>, Memory>
    ensures { IfOk result (λ lengths. lengths.items ≡ replicate count None) }
{
    Ok(vec![in alloc; None; count]?)
}

impl<L: Link> RangeShelf<L> {
    /// Takes the memory. Where the link tells its dials, nothing was sent on the present one, and no
    /// fault has come since it began.
    pub fn new(alloc: Global, link: L, targets: TargetList) -> Result<RangeShelf<L>, (L, Memory)>
        requires fresh { IsFresh (L.state link) }
        requires few { length targets < 2 ^ 32 }
        ensures { MatchResult result
            (λ s. s ≡ record {
              fetcher = record { link = L.state link; held = []; used = false; refused = false };
              targets = targets;
              lengths = replicate (length targets) None;
              faults = 0;
            })
            (λ e. e.0 ≡ link) }
    {
        let count = targets.as_slice().len();
        match no_lengths(alloc, count) {
            Ok(lengths) => match Fetcher::new(alloc, link) {
                Ok(fetcher) => Ok(RangeShelf {
                    fetcher,
                    targets,
                    lengths,
                    faults: FaultCount::new(),
                }),
                Err(refused) => Err(refused),
            },
            Err(_) => Err((link, Memory)),
        }
    }
}

// One fetch of the range that fills `out`.
fn fetch_range<L: Link>(
    fetcher: &mut Fetcher<L>,
    targets: &TargetList,
    k: u32,
    at: u64,
    out: &mut [u8],
) -> Result<u64, FetchFault>
    requires file { k < length targets.now }
    requires some { 0 < length out.old }
    requires small { at + length out.old ≤ 2 ^ 63 }
    ensures fetched { (d : TargetTexts) → FetchesRange (slice_index_or targets.now k d) at (at + (length out.old - 1))
        fetcher.old fetcher.new out.new result }
    ensures blobs { fetcher.new.link.blobs ≡ fetcher.old.link.blobs }
    ensures right { FetchesRight fetcher.old fetcher.new targets.now k at (at + (length out.old - 1)) out.new result }
{
    fetcher.fetch(&targets.as_slice()[k as usize], at, out)
}

impl<L: Link> RangeShelf<L> {
    // Asks for byte 0 of the file, and keeps the total.
    fn ask_length(&mut self, k: u32) -> Result<u64, ShelfFailed>
        requires { k < length self.old.targets }
        ensures asked { (inner : Result ℕ FetchFault) × (bytes : List ℕ) × IsLength inner result
            × ((d : TargetTexts) → FetchesRange (slice_index_or self.old.targets k d) 0 0
            self.old.fetcher self.new.fetcher bytes inner) }
        ensures limit { IfOk result (λ n. n ≤ 2 ^ 50) }
        ensures after { self.new ≡ record self.old {
          fetcher = self.new.fetcher;
          lengths = self.new.lengths;
          faults = (if is_err result then self.old.faults + 1 else self.old.faults);
        } }
        ensures kept { MatchResult result
            (λ n. self.new.lengths ≡ slice_set self.old.lengths k (Some n))
            (λ _. self.new.lengths ≡ self.old.lengths) }
        ensures blobs { self.new.fetcher.link.blobs ≡ self.old.fetcher.link.blobs }
        ensures length { IfOk result (λ n. IfSome (files_told self.old) (λ list. n ≡ length (file_at list k))) }
    {
        let mut byte = [0; 1];
        match fetch_range(&mut self.fetcher, &self.targets, k, 0, &mut byte) {
            Ok(total) => {
                if total > MAX_LENGTH {
                    self.faults.raise();
                    return Err(ShelfFailed);
                }
                self.lengths[k as usize] = Some(total);
                Ok(total)
            }
            Err(_) => {
                self.faults.raise();
                Err(ShelfFailed)
            }
        }
    }
}

impl<L: Link> Shelf for RangeShelf<L> {
    ghost use Rattle.range_shelf.specs.RangeLaws.{told_count};

    ghost files = { files_told };

    ghost count = { λ s. length s.targets };

    ghost faults = { λ s. s.faults };

    ghost counted = { told_count };

    fn count(&self) -> u32
        ensures { result ≡ length self.now.targets }
    {
        self.targets.as_slice().len() as u32
    }

    /// Asks for byte 0 of the file once, and keeps the total. A total over 2^50 is not kept.
    fn length(&mut self, k: u32) -> Result<u64, ShelfFailed>
        requires { k < length self.old.targets }
        ensures known { MatchOption (slice_index_or self.old.lengths k None)
            ((inner : Result ℕ FetchFault) × (bytes : List ℕ) × IsLength inner result
            × ((d : TargetTexts) → FetchesRange (slice_index_or self.old.targets k d) 0 0
            self.old.fetcher self.new.fetcher bytes inner))
            (λ n. (result ≡ Ok n) × (self.new.fetcher ≡ self.old.fetcher)) }
        ensures limit { IfOk result (λ n. n ≤ 2 ^ 50) }
        ensures after { self.new ≡ record self.old {
          fetcher = self.new.fetcher;
          lengths = self.new.lengths;
          faults = (if is_err result then self.old.faults + 1 else self.old.faults);
        } }
        ensures kept { MatchResult result
            (λ n. self.new.lengths ≡ slice_set self.old.lengths k (Some n))
            (λ _. self.new.lengths ≡ self.old.lengths) }
        ensures same { SameFiles files_told (λ (s : RangeShelfState). length s.targets) self.old self.new }
        ensures length { IfOk result (λ n. IfSome (files_told self.old) (λ list. n ≡ length (file_at list k))) }
    {
        match self.lengths[k as usize] {
            Some(length) => Ok(length),
            None => self.ask_length(k),
        }
    }

    /// One fetch of the range, and none where the range is empty.
    fn read(&mut self, k: u32, at: u64, out: &mut [u8]) -> Result<(), ShelfFailed>
        requires file { k < length self.old.targets }
        requires range { at + length out.old ≤ 2 ^ 50 }
        ensures empty { length out.old ≡ 0 → IsOk result × (self.new.fetcher ≡ self.old.fetcher) }
        ensures fetched { 0 < length out.old → (inner : Result ℕ FetchFault) × (is_err result ≡ is_err inner)
            × ((d : TargetTexts) → FetchesRange (slice_index_or self.old.targets k d) at (at + (length out.old - 1))
            self.old.fetcher self.new.fetcher out.new inner) }
        ensures after { self.new ≡ record self.old {
          fetcher = self.new.fetcher;
          faults = (if is_err result then self.old.faults + 1 else self.old.faults);
        } }
        ensures same { SameFiles files_told (λ (s : RangeShelfState). length s.targets) self.old self.new }
        ensures bytes { OnOk result (IfSome (files_told self.old) (λ list.
            out.new ≡ take (length out.old) (drop at (file_at list k)))) }
        ensures within { OnOk result (IfSome (files_told self.old) (λ list.
            0 < length out.old → at + length out.old ≤ length (file_at list k))) }
    {
        if out.is_empty() {
            return Ok(());
        }
        match fetch_range(&mut self.fetcher, &self.targets, k, at, out) {
            Ok(_) => Ok(()),
            Err(_) => {
                self.faults.raise();
                Err(ShelfFailed)
            }
        }
    }
}
