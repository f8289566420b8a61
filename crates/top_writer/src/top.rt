ghost use Rattle.std.specs.Prelude.{◌≡◌, ◌^◌, ◌≤◌};
ghost use Rattle.top_writer.specs.Changes.{IsGrown};
ghost use Rattle.top_writer.specs.View.{view_of, table_of, sectors_of, rows_used, sectors_used};

use gate_mark::Mark;
use seg_table::SegTable;

/// The writable top of an image: what was written and zeroed since it was made, in three files of a
/// disk. All counts are in sectors, and rows.
#[derive(Drop)]
pub struct Top {
    pub(crate) epoch: u32,
    // the sectors of the image
    pub(crate) sectors: u64,
    pub(crate) mark: Mark,
    pub(crate) table: SegTable,
    // the rows that are on the disk
    pub(crate) synced: u64,
    // all rows, and the sectors of the data
    pub(crate) rows: u64,
    pub(crate) filled: u64,
    // the bytes of the rows that are not on the disk yet, as they will stand in the index
    pub(crate) waiting: Vec<u8>,
}

impl Top {
    /// The sectors of the image.
    pub fn sectors(&self) -> u64
        ensures { result ≡ sectors_of self.now }
    {
        self.sectors
    }

    /// Lets it be the top of an image of so many sectors, no fewer than before: no cell changes, and those that
    /// come are holes. It makes no call of the disk, and takes no memory. From then on the heads of its files
    /// may say fewer sectors than the image has.
    pub fn grow(&mut self, sectors: u64)
        requires more { sectors_of self.old ≤ sectors }
        requires few { sectors ≤ 2 ^ 31 }
        ensures { IsGrown (view_of self.old) sectors (view_of self.new) }
    {
        self.sectors = sectors;
    }

    /// The rows that it uses, and the sectors of data.
    pub fn used(&self) -> (u64, u64)
        ensures rows { result.0 ≡ rows_used self.now }
        ensures sectors { result.1 ≡ sectors_used self.now }
    {
        (self.rows, self.filled)
    }

    /// Which sectors it has, and where their bytes stand in the data file, in sectors from the front
    /// of the file.
    pub fn table(&self) -> &SegTable
        ensures { result.now ≡ table_of self.now }
    {
        &self.table
    }
}
