//! The trait of what holds the lower layer files.
ghost use Rattle.std.specs.Prelude.{◌≡◌, ℕ, ◌+◌, ◌^◌, ◌<◌, ◌≤◌, List, length, take, drop, OnOk, IfOk, IfSome, IsErr};
ghost use Rattle.std.specs.declared.option.Option.{Option};
ghost use Rattle.sector_extent.specs.Causes.{Charges};
ghost use Rattle.layer_shelf.specs.Shelves.{SameFiles, file_at};

/// The fault of a shelf.
#[derive(Clone, Copy, Debug, PartialEq, Eq)]
pub struct ShelfFailed;

/// Numbered files that never change.
pub trait Shelf {
    /// The files, where the shelf tells them.
    ghost files: { Self → Option (List (List ℕ)) };

    /// How many files there are.
    ghost count: { Self → ℕ };

    /// The faults so far.
    ghost faults: { Self → ℕ };

    /// How many files there are. It never changes.
    fn count(&self) -> u32
        ensures { result ≡ count self.now };

    /// The length of file `k` in bytes. A file of over 2^50 bytes is a fault.
    fn length(&mut self, k: u32) -> Result<u64, ShelfFailed>
        requires { k < count self.old }
        ensures length { IfOk result (λ n. IfSome (files self.old) (λ list. n ≡ length (file_at list k))) }
        ensures limit { IfOk result (λ n. n ≤ 2 ^ 50) }
        ensures same { SameFiles files count self.old self.new }
        ensures cause { Charges faults self.old self.new (IsErr result) };

    /// Fills `out` with the bytes of file `k` from byte `at` on. A range that is not empty and goes past
    /// the end is a fault. After a fault what stands in `out` is open.
    fn read(&mut self, k: u32, at: u64, out: &mut [u8]) -> Result<(), ShelfFailed>
        requires file { k < count self.old }
        requires range { at + length out.old ≤ 2 ^ 50 }
        ensures bytes { OnOk result (IfSome (files self.old) (λ list.
            out.new ≡ take (length out.old) (drop at (file_at list k)))) }
        ensures within { OnOk result (IfSome (files self.old) (λ list.
            0 < length out.old → at + length out.old ≤ length (file_at list k))) }
        ensures same { SameFiles files count self.old self.new }
        ensures cause { Charges faults self.old self.new (IsErr result) };

    /// A shelf that tells its files tells each of them.
    ghost counted: { (shelf : Self) → IfSome (files shelf) (λ list. length list ≡ count shelf) };
}
