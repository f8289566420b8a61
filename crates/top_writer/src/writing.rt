//! Writes and zeros.
ghost use Rattle.std.specs.Prelude.{◌≡◌, ℕ, ◌+◌, ◌*◌, ◌^◌, ◌<◌, ◌≤◌, ◌↔◌, List, Err, IsTrue, OnOk, OnErr, IfErr, IsErrOf, length, vec_len, vec_capacity, IsErr};
ghost use Rattle.sector_extent.specs.Causes.{Charges};
ghost use Rattle.sector_extent.specs.Rows.{rows_for};
ghost use Rattle.seg_table.specs.Put.{Fits};
ghost use Rattle.block_disk.specs.Changes.{put, Torn};
ghost use Rattle.block_disk.specs.DiskState.{Steps};
ghost use Rattle.flat_image.specs.History.{HasRoom, IsOver};
ghost use Rattle.top_writer.specs.declared.fault.WriteFault.TheVariants.{Full, Memory, Failed};
ghost use Rattle.top_writer.specs.Changes.{Notes, IsZeroed};
ghost use Rattle.top_writer.specs.Files.{data_file};
ghost use Rattle.top_writer.specs.Fitting.{IsFitted, TopGoes};
ghost use Rattle.top_writer.specs.Stands.{with_write, unchanged, as_before};
ghost use Rattle.top_writer.specs.View.{view_of, sectors_of, rows_used, sectors_used};

use crate::fault::WriteFault;
use crate::layout::{BLOCK, FIRST_SECTOR, ROW, data_number};
use crate::top::Top;
use crate::waiting::push_rows;
use block_disk::{Disk, DiskFailed};
use flat_image::{TOP_ROWS, TOP_SECTORS};
use sector_extent::{Extent, Memory, SECTOR, rows_needed};
use seg_table::What;

// So many rows and sectors are more than a top may have.
fn is_over(rows: u64, sectors: u64) -> bool
    ensures { IsTrue result ↔ IsOver rows sectors }
{
    rows > TOP_ROWS || sectors > TOP_SECTORS
}

impl Top {
    /// Writes the sectors of an extent. They stand in the data file then, and are kept from the next
    /// flush on. A refusal changes nothing of the top, and as being full or for want of memory nothing
    /// of the disk.
    pub fn write<D: Disk>(
        &mut self,
        disk: &mut D,
        extent: Extent,
        bytes: &[u8],
    ) -> Result<(), WriteFault>
        requires size { length bytes.now ≡ 512 * extent.count }
        requires within { extent.at + extent.count ≤ sectors_of self.old }
        requires fits { IsFitted D.tells (D.state disk.old) self.old }
        ensures ok { OnOk result (TopGoes D.tells (D.state disk.old) (D.state disk.new) self.old self.new
            (with_write extent.at bytes.now) as_before) }
        ensures err { OnErr result
            (TopGoes D.tells (D.state disk.old) (D.state disk.new) self.old self.new unchanged as_before) }
        ensures full { IsOver (rows_used self.old + rows_for extent.count) (sectors_used self.old + extent.count)
            ↔ (result ≡ Err (Full (rows_used self.old) (sectors_used self.old))) }
        ensures only { (rows sectors : ℕ) → result ≡ Err (Full rows sectors)
            → (rows ≡ rows_used self.old) × (sectors ≡ sectors_used self.old) }
        ensures fitted { IsFitted D.tells (D.state disk.new) self.new }
        ensures mark { (view_of self.new).mark ≡ (view_of self.old).mark }
        ensures same { OnErr result (view_of self.new ≡ view_of self.old) }
        // a refusal that is not the disk's comes before the disk is called
        ensures spared { OnErr result (¬ IsErrOf result Failed → disk.new ≡ disk.old) }
        ensures cause { Charges D.faults disk.old disk.new (IsErrOf result Failed) }
    {
        let rows = rows_needed(extent.count as u64);
        self.check_room(rows, extent.count as u64)?;
        if extent.count == 0 {
            return Ok(());
        }
        self.reserve(rows)?;
        self.append(disk, bytes)?;
        let place = FIRST_SECTOR + self.filled;
        self.note(extent, What::Place(place));
        self.filled += extent.count as u64;
        Ok(())
    }

    /// Makes the sectors of an extent zeros. It uses no sectors of data, and makes no call of the
    /// disk. A refusal changes nothing.
    pub fn zero(&mut self, extent: Extent) -> Result<(), WriteFault>
        requires within { extent.at + extent.count ≤ sectors_of self.old }
        ensures ok { OnOk result (IsZeroed (view_of self.old) extent (view_of self.new)) }
        ensures err { OnErr result (view_of self.new ≡ view_of self.old) }
        ensures full { IsOver (rows_used self.old + rows_for extent.count) (sectors_used self.old)
            ↔ (result ≡ Err (Full (rows_used self.old) (sectors_used self.old))) }
        ensures only { (rows sectors : ℕ) → result ≡ Err (Full rows sectors)
            → (rows ≡ rows_used self.old) × (sectors ≡ sectors_used self.old) }
        ensures failed { IsErrOf result Failed → ⊥ }
    {
        let rows = rows_needed(extent.count as u64);
        self.check_room(rows, 0)?;
        if extent.count == 0 {
            return Ok(());
        }
        self.reserve(rows)?;
        self.note(extent, What::Zero);
        Ok(())
    }

    // Refuses a change that takes more rows and sectors than there is room for.
    fn check_room(&self, rows: u64, sectors: u64) -> Result<(), WriteFault>
        ensures room { OnOk result (HasRoom (self.now.rows + rows) (self.now.filled + sectors)) }
        ensures full { IfErr result (λ fault. fault ≡ Full self.now.rows self.now.filled) }
        ensures over { OnErr result (IsOver (self.now.rows + rows) (self.now.filled + sectors)) }
    {
        if is_over(
            self.rows.saturating_add(rows),
            self.filled.saturating_add(sectors),
        ) {
            return Err(WriteFault::Full {
                rows: self.rows,
                sectors: self.filled,
            });
        }
        Ok(())
    }

    // Makes room for one more put, and so many more rows.
    fn reserve(&mut self, rows: u64) -> Result<(), Memory>
        requires { rows ≤ 2 ^ 22 }
        ensures same { view_of self.new ≡ view_of self.old }
        ensures table { OnOk result (0 < self.new.table.spare) }
        ensures waiting { OnOk result (vec_len self.new.waiting + 16 * rows ≤ vec_capacity self.new.waiting) }
    {
        self.table.reserve(1)?;
        self.waiting.reserve((ROW * rows) as usize)?;
        Ok(())
    }

    // Writes sectors behind those of the data file.
    fn append<D: Disk>(&self, disk: &mut D, bytes: &[u8]) -> Result<(), DiskFailed>
        requires epoch { self.now.epoch ≤ 255 }
        requires place { 4096 + 512 * self.now.filled + length bytes.now ≤ 2 ^ 50 }
        ensures written { OnOk result (IsTrue D.tells → (D.state disk.new).seen (data_file self.now.epoch)
            ≡ put ((D.state disk.old).seen (data_file self.now.epoch)) (4096 + 512 * self.now.filled) bytes.now) }
        ensures steps { Steps (data_file self.now.epoch)
            (Torn (4096 + 512 * self.now.filled) (length bytes.now)) (D.state disk.old) (D.state disk.new) }
        ensures cause { Charges D.faults disk.old disk.new (IsErr result) }
    {
        let end = BLOCK + SECTOR as u64 * self.filled;
        disk.write_at(data_number(self.epoch), end, bytes)?;
        Ok(())
    }

    // Sets the sectors of an extent in the table, and adds the rows that say so to those that wait.
    // There is room for both.
    fn note(&mut self, extent: Extent, what: What)
        requires table { 0 < self.old.table.spare }
        requires waiting { vec_len self.old.waiting + 16 * rows_for extent.count ≤ vec_capacity self.old.waiting }
        requires some { 0 < extent.count }
        requires fits { Fits what extent.count }
        requires rows { self.old.rows + rows_for extent.count ≤ 2 ^ 22 }
        ensures { Notes (view_of self.old) extent what (view_of self.new) }
    {
        push_rows(&mut self.waiting, &extent, what);
        self.rows += rows_needed(extent.count as u64);
        self.table.put(extent, what);
    }
}
