//! Loading a top.
ghost use Rattle.std.specs.Prelude.{◌≡◌, ℕ, ◌+◌, ◌*◌, ◌^◌, ◌<◌, ◌≤◌, ◌⊎◌, List, Option, [], ◌∷◌, Err, IsTrue, OnOk, IfOk, IfErr, IsErrOf, MatchResult, IsErr};
ghost use Rattle.sector_extent.specs.Causes.{Charges};
ghost use Rattle.lsmt_header.specs.Blocks.{IsSize};
ghost use Rattle.block_disk.specs.Changes.{Only};
ghost use Rattle.block_disk.specs.Claims.{Quiet};
ghost use Rattle.gate_mark.specs.Mark.{file_of, sequence_in, body_in, IsKept, MayHold};
ghost use Rattle.gate_mark.specs.MarkFile.{Shows};
ghost use Rattle.flat_image.specs.Left.{Stand};
ghost use Rattle.top_writer.specs.declared.fault.TopFault.TheVariants.{Memory, Failed, NoTop};
ghost use Rattle.top_writer.specs.declared.fault.TopReason.{TopReason};
ghost use Rattle.top_writer.specs.Blank.{blank_sheet};
ghost use Rattle.top_writer.specs.Files.{Stored, HeadsAsked, asked_of, stored_in, data_file, index_file, mark_file};
ghost use Rattle.top_writer.specs.Fitting.{IsFlushed, TopFits};
ghost use Rattle.top_writer.specs.Loading.{IsRefused, IsShort, IsFront, IsFound};
ghost use Rattle.top_writer.specs.Reasons.{HasParent, IsReason};
ghost use Rattle.top_writer.specs.Showing.{ShowsTop};
ghost use Rattle.top_writer.specs.View.{epoch_of, sectors_of, sequence_of, table_of};

use crate::fault::{TopFault, TopReason};
use crate::layout::{BLOCK, data_number, index_number, mark_number};
use crate::load_checks::{check_counts, check_fronts};
use crate::load_rows::read_table;
use crate::top::Top;
use block_disk::{Disk, DiskFailed};
use gate_mark::{Mark, MarkFault};
use std::alloc::Global;

// The length of a file in bytes, and its first block.
#[derive(Clone, Copy)]
struct Front {
    len: u64,
    block: [u8; 4096],
}

// What the files of a top say before its rows are read: their mark, and the rows and the sectors of
// data that it counts.
#[derive(Clone, Copy)]
struct Found {
    mark: Mark,
    rows: u64,
    filled: u64,
}

impl Top {
    /// Reads the top of an epoch, of an image of so many sectors, after a sync of its three files. Its heads
    /// say just so many, where that is asked for, or else no more. The parent is compared where one is given.
    pub fn load<D: Disk>(
        alloc: Global,
        disk: &mut D,
        epoch: u32,
        sectors: u64,
        exact: bool,
        parent: Option<[u8; 16]>,
    ) -> Result<Top, TopFault>
        requires epoch { epoch ≤ 255 }
        requires size { IsSize sectors }
        // the top that the files show, by a mark whose sequence is at most 2^61, and what a crash may leave is
        // just that; where the disk does not tell, what was read of them, with zeros as data
        ensures shows { IfOk result (λ top. (s : Stand)
            × TopFits D.tells (D.state disk.new) sectors (asked_of exact parent) top s (s ∷ [])
            × (IsTrue D.tells
            → (shown : ShowsTop sectors (asked_of exact parent) s (stored_in epoch (D.state disk.old).seen))
            × (shown.sequence ≤ 2 ^ 61))
            × (¬ IsTrue D.tells → s.cells ≡ blank_sheet sectors (table_of top).segments)) }
        ensures is { IfOk result (λ top.
            (epoch_of top ≡ epoch) × (sectors_of top ≡ sectors) × (sequence_of top ≤ 2 ^ 61)) }
        ensures flushed { IfOk result IsFlushed }
        ensures reason { (reason : TopReason) → result ≡ Err (NoTop reason) → IsTrue D.tells
            → IsReason sectors (asked_of exact parent) (stored_in epoch (D.state disk.old).seen) reason }
        // files that show a top are loaded as that top, or there is no memory, or the disk fails
        ensures complete { (s : Stand)
            (shows : ShowsTop sectors (asked_of exact parent) s (stored_in epoch (D.state disk.old).seen))
            → shows.sequence ≤ 2 ^ 61 → IsTrue D.tells
            → MatchResult result
            (λ top. TopFits D.tells (D.state disk.new) sectors (asked_of exact parent) top s (s ∷ []))
            (λ fault. (fault ≡ Memory) ⊎ (fault ≡ Failed)) }
        ensures quiet { Quiet (D.state disk.old) (D.state disk.new) }
        ensures cause { Charges D.faults disk.old disk.new (IsErrOf result Failed) }
    {
        let found = find(disk, epoch, sectors, exact, parent)?;
        let table = read_table(alloc, disk, epoch, sectors, found.rows, found.filled)?;
        Ok(Top {
            epoch,
            sectors,
            mark: found.mark,
            table,
            synced: found.rows,
            rows: found.rows,
            filled: found.filled,
            waiting: Vec::new(alloc),
        })
    }
}

// Syncs the files, and reads and checks all of them but the rows.
fn find<D: Disk>(
    disk: &mut D,
    epoch: u32,
    sectors: u64,
    exact: bool,
    parent: Option<[u8; 16]>,
) -> Result<Found, TopFault>
    requires epoch { epoch ≤ 255 }
    ensures found { IfOk result (λ found. IsFound D.tells (D.state disk.new) epoch sectors (asked_of exact parent)
        (stored_in epoch (D.state disk.old).seen) found.mark found.rows found.filled) }
    ensures reason { IfErr result (λ fault. IsTrue D.tells
        → IsRefused sectors (asked_of exact parent) (stored_in epoch (D.state disk.old).seen) fault) }
    ensures quiet { Quiet (D.state disk.old) (D.state disk.new) }
    ensures cause { Charges D.faults disk.old disk.new (IsErrOf result Failed) }
{
    sync_files(disk, epoch)?;
    let bytes = read_front(disk, data_number(epoch))?;
    let index = read_front(disk, index_number(epoch))?;
    check_fronts(&bytes.block, &index.block, sectors, exact, parent)?;
    let mark = load_mark(disk, epoch)?;
    let (rows, filled) = check_counts(&mark, index.len, bytes.len)?;
    Ok(Found { mark, rows, filled })
}

// After it a crash leaves of the data and of the rows what a read gives.
fn sync_files<D: Disk>(disk: &mut D, epoch: u32) -> Result<(), DiskFailed>
    requires epoch { epoch ≤ 255 }
    ensures bytes { OnOk result
        (Only ((D.state disk.old).seen (data_file epoch)) ((D.state disk.new).may_leave (data_file epoch))) }
    ensures index { OnOk result
        (Only ((D.state disk.old).seen (index_file epoch)) ((D.state disk.new).may_leave (index_file epoch))) }
    ensures quiet { Quiet (D.state disk.old) (D.state disk.new) }
    ensures cause { Charges D.faults disk.old disk.new (IsErr result) }
{
    disk.sync(data_number(epoch))?;
    disk.sync(index_number(epoch))?;
    disk.sync(mark_number(epoch))?;
    Ok(())
}

// The length of a file and its first block.
fn read_front<D: Disk>(disk: &mut D, file: u32) -> Result<Front, TopFault>
    ensures front { IfOk result (λ front. IsTrue D.tells
        → IsFront ((D.state disk.old).seen file) front.len front.block) }
    ensures short { IfErr result (IsShort D.tells ((D.state disk.old).seen file)) }
    ensures quiet { Quiet (D.state disk.old) (D.state disk.new) }
    ensures cause { Charges D.faults disk.old disk.new (IsErrOf result Failed) }
{
    let len = disk.size(file)?;
    if len < BLOCK {
        return Err(TopFault::NoTop(TopReason::HeadShort));
    }
    let mut block = [0; 4096];
    disk.read_at(file, 0, &mut block)?;
    Ok(Front { len, block })
}

// The mark of the epoch.
fn load_mark<D: Disk>(disk: &mut D, epoch: u32) -> Result<Mark, TopFault>
    requires epoch { epoch ≤ 255 }
    ensures mark { IfOk result (λ m. (file_of m ≡ mark_file epoch) × (sequence_in m ≤ 2 ^ 61)) }
    ensures shows { IfOk result (λ m. IsTrue D.tells
        → Shows (sequence_in m) (body_in m) ((D.state disk.old).seen (mark_file epoch))) }
    ensures bodies { IfOk result (λ m. (b : List ℕ) → MayHold m b → b ≡ body_in m) }
    ensures kept { IfOk result (IsKept (D.state disk.new)) }
    ensures reason { IfErr result (λ fault. IsTrue D.tells
        → (n : ℕ) (asked : HeadsAsked) (t : Stored) → HasParent n asked t
        → t.mark ≡ (D.state disk.old).seen (mark_file epoch) → IsRefused n asked t fault) }
    ensures quiet { Quiet (D.state disk.old) (D.state disk.new) }
    ensures cause { Charges D.faults disk.old disk.new (IsErrOf result Failed) }
{
    match Mark::load(disk, mark_number(epoch)) {
        Ok(mark) => Ok(mark),
        Err(MarkFault::Failed) => Err(TopFault::Failed),
        Err(MarkFault::NoMark) => Err(TopFault::NoTop(TopReason::NoMark)),
        Err(MarkFault::Worn(sequence)) => Err(TopFault::NoTop(TopReason::MarkWorn(sequence))),
    }
}
