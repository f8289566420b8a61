//! Making a top.
ghost use Rattle.std.specs.Prelude.{◌≡◌, ℕ, ◌+◌, ◌^◌, ◌<◌, ◌≤◌, Bool, List, [], ◌∷◌, Some, IsTrue, OnOk, IfOk, IsErrOf, IsErr};
ghost use Rattle.sector_extent.specs.Causes.{Charges};
ghost use Rattle.lsmt_header.specs.declared.head.Kind.TheVariants.{TopBytes, TopRows};
ghost use Rattle.lsmt_header.specs.Blocks.{IsSize, nil};
ghost use Rattle.block_disk.specs.Claims.{Run, FileRun};
ghost use Rattle.flat_image.specs.Left.{fresh_stand};
ghost use Rattle.top_writer.specs.declared.fault.TopMakeFault.TheVariants.{Memory, Failed};
ghost use Rattle.top_writer.specs.Files.{asked_of, data_file, index_file, mark_file, TopFiles, new_head};
ghost use Rattle.top_writer.specs.Fitting.{IsFlushed, TopFits};
ghost use Rattle.top_writer.specs.Making.{IsMade, IsNewMark};
ghost use Rattle.top_writer.specs.View.{epoch_of, sectors_of, sequence_of};

use crate::fault::TopMakeFault;
use crate::layout::{body_of, data_number, first_block, index_number, mark_number};
use crate::top::Top;
use block_disk::{Disk, DiskFailed};
use gate_mark::Mark;
use lsmt_header::Kind;
use seg_table::SegTable;
use std::alloc::Global;

impl Top {
    /// Makes the three files of an epoch those of a top in which nothing was written, of an image of
    /// so many sectors over the layer with that uuid. It takes no memory.
    pub fn create<D: Disk>(
        alloc: Global,
        disk: &mut D,
        epoch: u32,
        sectors: u64,
        parent: [u8; 16],
    ) -> Result<Top, TopMakeFault>
        requires epoch { epoch ≤ 255 }
        requires size { IsSize sectors }
        ensures fits { IfOk result (λ top. (exact : Bool) → TopFits D.tells (D.state disk.new) sectors
            (asked_of exact (Some parent)) top (fresh_stand sectors) (fresh_stand sectors ∷ [])) }
        ensures is { IfOk result (λ top. (epoch_of top ≡ epoch) × (sectors_of top ≡ sectors) × (sequence_of top ≡ 1)) }
        ensures flushed { IfOk result IsFlushed }
        ensures bytes { OnOk result
            (IsMade D.tells (D.state disk.new) (data_file epoch) (new_head TopBytes sectors parent)) }
        ensures index { OnOk result
            (IsMade D.tells (D.state disk.new) (index_file epoch) (new_head TopRows sectors nil)) }
        ensures any_moment { Run (TopFiles epoch) (D.state disk.old) (D.state disk.new) (λ files. Unit {0}) }
        ensures memory { IsErrOf result Memory → ⊥ }
        ensures cause { Charges D.faults disk.old disk.new (IsErrOf result Failed) }
    {
        match make_files(disk, epoch, sectors, parent) {
            Ok(mark) => Ok(Top {
                epoch,
                sectors,
                mark,
                table: SegTable::new(alloc),
                synced: 0,
                rows: 0,
                filled: 0,
                waiting: Vec::new(alloc),
            }),
            Err(_) => Err(TopMakeFault::Failed),
        }
    }
}

// Makes the files, and answers the mark.
fn make_files<D: Disk>(
    disk: &mut D,
    epoch: u32,
    sectors: u64,
    parent: [u8; 16],
) -> Result<Mark, DiskFailed>
    requires epoch { epoch ≤ 255 }
    requires size { IsSize sectors }
    ensures bytes { OnOk result
        (IsMade D.tells (D.state disk.new) (data_file epoch) (new_head TopBytes sectors parent)) }
    ensures index { OnOk result (IsMade D.tells (D.state disk.new) (index_file epoch) (new_head TopRows sectors nil)) }
    ensures mark { IfOk result (λ mark. IsNewMark (D.state disk.new) (mark_file epoch) mark) }
    ensures run { Run (TopFiles epoch) (D.state disk.old) (D.state disk.new) (λ files. Unit {0}) }
    ensures cause { Charges D.faults disk.old disk.new (IsErr result) }
{
    make_file(
        disk,
        data_number(epoch),
        &first_block(Kind::TopBytes, sectors, parent),
    )?;
    make_file(
        disk,
        index_number(epoch),
        &first_block(Kind::TopRows, sectors, [0; 16]),
    )?;
    let mark = Mark::format(disk, mark_number(epoch), &body_of(0, 0))?;
    Ok(mark)
}

// Makes a file this block.
fn make_file<D: Disk>(disk: &mut D, file: u32, block: &[u8; 4096]) -> Result<(), DiskFailed>
    ensures left { OnOk result ((c : List ℕ) → (D.state disk.new).may_leave file c → c ≡ block.now) }
    ensures seen { OnOk result (IsTrue D.tells → (D.state disk.new).seen file ≡ block.now) }
    ensures run { FileRun file (D.state disk.old) (D.state disk.new) (λ c. Unit {0}) }
    ensures cause { Charges D.faults disk.old disk.new (IsErr result) }
{
    disk.cut(file, 0)?;
    disk.write_at(file, 0, block)?;
    disk.sync(file)?;
    Ok(())
}
