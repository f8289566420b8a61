//! Writes that are synced.
ghost use Rattle.std.specs.Prelude.{◌≡◌, ℕ, ◌+◌, ◌^◌, ◌≤◌, List, length, OnOk, IsErr};
ghost use Rattle.sector_extent.specs.Causes.{Charges};
ghost use Rattle.block_disk.specs.Changes.{put, Torn, Follows};
ghost use Rattle.block_disk.specs.Claims.{FileRun};
ghost use Rattle.gate_mark.specs.Through.{IsPut, IsTorn};

use block_disk::{Disk, DiskFailed};

/// Writes the bytes and syncs the file. At each moment a crash leaves an old outcome with the write
/// torn, and after Ok one with the write done.
pub(crate) fn write_through<D: Disk>(
    disk: &mut D,
    file: u32,
    at: u64,
    bytes: &[u8],
) -> Result<(), DiskFailed>
    requires { at + length bytes.now ≤ 2 ^ 50 }
    ensures run { FileRun file (D.state disk.old) (D.state disk.new)
        (IsTorn (D.state disk.old) file at (length bytes.now)) }
    ensures torn { (c : List ℕ) → (D.state disk.new).may_leave file c
        → IsTorn (D.state disk.old) file at (length bytes.now) c }
    ensures done { OnOk result ((c : List ℕ) → (D.state disk.new).may_leave file c
        → IsPut (D.state disk.old) file at bytes.now c) }
    ensures cause { Charges D.faults disk.old disk.new (IsErr result) }
{
    disk.write_at(file, at, bytes)?;
    disk.sync(file)?;
    Ok(())
}
