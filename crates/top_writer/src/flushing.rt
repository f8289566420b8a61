//! A flush.
ghost use Rattle.std.specs.Prelude.{◌≡◌, ℕ, ◌+◌, ◌*◌, ◌^◌, ◌<◌, ◌≤◌, ◌↔◌, List, Option, IsTrue, OnOk, OnErr, length, IsErr};
ghost use Rattle.sector_extent.specs.Causes.{Charges};
ghost use Rattle.block_disk.specs.Changes.{put, Torn, Same, Only};
ghost use Rattle.block_disk.specs.DiskState.{Steps};
ghost use Rattle.top_writer.specs.Files.{data_file, index_file, HeadsAsked};
ghost use Rattle.flat_image.specs.Left.{Stand};
ghost use Rattle.top_writer.specs.Fitting.{IsFitted, IsFlushed, TopFits, TopGoes, ViewStored};
ghost use Rattle.top_writer.specs.Stands.{unchanged, as_before, just_this, this_too};
ghost use Rattle.top_writer.specs.View.{view_of, sequence_of, table_of};

use crate::layout::{BLOCK, ROW, body_of, counts_of, data_number, index_number};
use crate::top::Top;
use block_disk::{Disk, DiskFailed};

impl Top {
    /// Puts all that was written and zeroed onto the disk: the rows that are not there yet with one
    /// write, a sync of the data and one of the rows, and then the mark that counts them. Where
    /// nothing is new since a flush that succeeded, it makes no call of the disk. It takes no memory.
    /// After a failure the top is as it was, and a later flush keeps all of it.
    pub fn flush<D: Disk>(&mut self, disk: &mut D) -> Result<(), DiskFailed>
        requires sequence { sequence_of self.old < 2 ^ 63 }
        requires fits { IsFitted D.tells (D.state disk.old) self.old }
        ensures ok { OnOk result
            (TopGoes D.tells (D.state disk.old) (D.state disk.new) self.old self.new unchanged just_this) }
        ensures err { OnErr result
            (TopGoes D.tells (D.state disk.old) (D.state disk.new) self.old self.new unchanged this_too) }
        ensures flushed { OnOk result (IsFlushed self.new) }
        ensures still { IsFlushed self.old → (disk.new ≡ disk.old) × (self.new ≡ self.old) }
        ensures table { table_of self.new ≡ table_of self.old }
        ensures fitted { IsFitted D.tells (D.state disk.new) self.new }
        ensures cause { Charges D.faults disk.old disk.new (IsErr result) }
    {
        if self.is_flushed() {
            return Ok(());
        }
        self.store(disk)?;
        let body = body_of(self.rows, self.filled);
        self.mark.set(disk, &body)?;
        Ok(())
    }

    // Nothing is new: the mark counts all rows and sectors, and no other body was attempted since.
    fn is_flushed(&self) -> bool
        ensures { IsTrue result ↔ IsFlushed self.now }
    {
        if !self.mark.is_settled() {
            return false;
        }
        let (rows, sectors) = counts_of(&self.mark.get());
        rows == self.rows && sectors == self.filled
    }

    // Writes the rows that wait, and syncs the data and the rows.
    fn store<D: Disk>(&mut self, disk: &mut D) -> Result<(), DiskFailed>
        requires fits { IsFitted D.tells (D.state disk.old) self.old }
        ensures goes { TopGoes D.tells (D.state disk.old) (D.state disk.new) self.old self.new unchanged as_before }
        ensures stored { OnOk result ((n : ℕ) (asked : HeadsAsked) (s : Stand) (may : List Stand)
            → TopFits D.tells (D.state disk.old) n asked self.old s may
            → ViewStored D.tells (D.state disk.new) n asked (view_of self.new) s may) }
        ensures mark { self.new.mark ≡ self.old.mark }
        ensures table { self.new.table ≡ self.old.table }
        ensures cause { Charges D.faults disk.old disk.new (IsErr result) }
    {
        self.append_rows(disk)?;
        self.sync_data(disk)?;
        self.sync_rows(disk)?;
        self.synced = self.rows;
        self.waiting.clear();
        Ok(())
    }

    // Writes the rows that wait behind those that are on the disk.
    fn append_rows<D: Disk>(&self, disk: &mut D) -> Result<(), DiskFailed>
        requires epoch { self.now.epoch ≤ 255 }
        requires place { 4096 + 16 * self.now.synced + length self.now.waiting.items ≤ 2 ^ 50 }
        ensures written { OnOk result (IsTrue D.tells → (D.state disk.new).seen (index_file self.now.epoch)
            ≡ put ((D.state disk.old).seen (index_file self.now.epoch))
            (4096 + 16 * self.now.synced) self.now.waiting.items) }
        ensures steps { Steps (index_file self.now.epoch)
            (Torn (4096 + 16 * self.now.synced) (length self.now.waiting.items))
            (D.state disk.old) (D.state disk.new) }
        ensures cause { Charges D.faults disk.old disk.new (IsErr result) }
    {
        let end = BLOCK + ROW * self.synced;
        disk.write_at(index_number(self.epoch), end, self.waiting.as_slice())?;
        Ok(())
    }

    // Syncs the data file.
    fn sync_data<D: Disk>(&self, disk: &mut D) -> Result<(), DiskFailed>
        requires epoch { self.now.epoch ≤ 255 }
        ensures durable { OnOk result (Only ((D.state disk.new).seen (data_file self.now.epoch))
            ((D.state disk.new).may_leave (data_file self.now.epoch))) }
        ensures steps { Steps (data_file self.now.epoch) Same (D.state disk.old) (D.state disk.new) }
        ensures cause { Charges D.faults disk.old disk.new (IsErr result) }
    {
        disk.sync(data_number(self.epoch))?;
        Ok(())
    }

    // Syncs the index file.
    fn sync_rows<D: Disk>(&self, disk: &mut D) -> Result<(), DiskFailed>
        requires epoch { self.now.epoch ≤ 255 }
        ensures durable { OnOk result (Only ((D.state disk.new).seen (index_file self.now.epoch))
            ((D.state disk.new).may_leave (index_file self.now.epoch))) }
        ensures steps { Steps (index_file self.now.epoch) Same (D.state disk.old) (D.state disk.new) }
        ensures cause { Charges D.faults disk.old disk.new (IsErr result) }
    {
        disk.sync(index_number(self.epoch))?;
        Ok(())
    }
}
