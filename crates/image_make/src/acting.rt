//! Does the acts that are drawn, one after another.
ghost use Rattle.std.specs.Prelude.{◌≡◌, ◌≢◌, ◌+◌, ◌*◌, ◌^◌, ◌<◌, ◌≤◌, [], ◌∷◌, length, replicate, ltb, true, Contains, None, ◌↔◌, IsTrue, IfErr, IfOk, IsErrOf, OnOk};
ghost use Rattle.sector_extent.specs.Causes.{Charges};
ghost use Rattle.lsmt_header.specs.Blocks.{nil};
ghost use Rattle.flat_image.specs.declared.act.Act.TheVariants as act;
ghost use Rattle.image_core.specs.Growing.{pending_in};
ghost use Rattle.image_core.specs.Committing.{uuids_in};
ghost use Rattle.image_core.specs.Seen.{seen, view, faults_in, IsImage, StandsFor};
ghost use Rattle.image_commands.specs.Images.{entries};
ghost use Rattle.image_commands.specs.ImageSteps.{Adds};
ghost use Rattle.image_make.specs.declared.draws.Drawn.TheVariants.{Commit, Write, Zero};
ghost use Rattle.image_make.specs.Acts.{acts_with, is_made, made_acts, tally_of};
ghost use Rattle.image_make.specs.Making.{AsksIn, AsksOf, all_entries, new_image};
ghost use Rattle.image_make.specs.Steps.{AsksNothing, MayAct, StopsIn};

use crate::draws::{Drawn, draw_act};
use crate::tally::{Tally, no_tally, with_one};
use block_disk::Disk;
use image_commands::{commit_whole, extent_of};
use image_core::Image;
use layer_commands::Refusal;
use sector_extent::SECTOR;
use std::alloc::{AllocError, Global};
use top_writer::WriteFault;

// The most bytes of a write: eight sectors.
const BLOCK: usize = 4096;

// Puts all that was written onto the disk.
fn flush_once<D: Disk>(image: &mut Image<D>) -> Result<bool, Refusal>
    requires standing { IsImage (seen D.Disk image.old) }
    requires steps { (view image.old).steps < 2 ^ 62 }
    ensures adds { OnOk result (Adds (entries (act.Flush ∷ [])) (seen D.Disk image.old) (seen D.Disk image.new)) }
    ensures done { IfOk result (λ done. done ≡ true) }
    ensures standing { OnOk result (IsImage (seen D.Disk image.new)) }
    ensures stepped { OnOk result ((view image.new).steps ≡ (view image.old).steps + 1) }
    ensures refused { IfErr result (StopsIn (entries (act.Flush ∷ [])) AsksNothing
        (seen D.Disk image.old) (seen D.Disk image.new)) }
    ensures cause { Charges (faults_in D.Disk) image.old image.new (IsErrOf result Refusal.DiskFault) }
{
    match image.flush() {
        Ok(()) => Ok(true),
        Err(_) => Err(Refusal::DiskFault),
    }
}

// Makes so many sectors zeros, for which the top has room.
fn zero_once<D: Disk>(image: &mut Image<D>, at: u64, count: u64) -> Result<bool, Refusal>
    requires standing { IsImage (seen D.Disk image.old) }
    requires steps { (view image.old).steps < 2 ^ 62 }
    requires may { MayAct (view image.old) (Zero at count) }
    ensures adds { OnOk result (Adds (entries (act.Zero at count ∷ []))
        (seen D.Disk image.old) (seen D.Disk image.new)) }
    ensures done { IfOk result (λ done. done ≡ true) }
    ensures standing { OnOk result (IsImage (seen D.Disk image.new)) }
    ensures stepped { OnOk result ((view image.new).steps ≡ (view image.old).steps + 1) }
    ensures refused { IfErr result (StopsIn (entries (act.Zero at count ∷ [])) AsksNothing
        (seen D.Disk image.old) (seen D.Disk image.new)) }
    ensures cause { Charges (faults_in D.Disk) image.old image.new (IsErrOf result Refusal.DiskFault) }
{
    match image.zero(extent_of(at, count)) {
        Ok(()) => Ok(true),
        Err(WriteFault::Full { .. }) => unreachable!(),
        Err(WriteFault::Memory) => Err(Refusal::Memory),
        Err(WriteFault::Failed) => unreachable!(),
    }
}

// Makes each byte this one.
fn fill_piece(piece: &mut [u8], byte: u8)
    ensures { piece.new ≡ replicate (length piece.old) byte }
{
    piece.fill(byte);
}

// Makes each byte of so many sectors this one.
fn fill_sectors(piece: &mut [u8], count: u64, byte: u8)
    requires { length piece.old ≡ 512 * count }
    ensures { piece.new ≡ replicate (512 * count) byte }
{
    fill_piece(piece, byte);
}

// Writes so many sectors, for which the top has room, each byte of which is this one. They are put together
// at the front of `block`.
fn write_once<D: Disk>(
    image: &mut Image<D>,
    at: u64,
    count: u64,
    byte: u8,
    block: &mut [u8],
) -> Result<bool, Refusal>
    requires standing { IsImage (seen D.Disk image.old) }
    requires steps { (view image.old).steps < 2 ^ 62 }
    requires may { MayAct (view image.old) (Write at count byte) }
    requires room { 4096 ≤ length block.old }
    ensures adds { OnOk result (Adds (entries (act.Write at (replicate (512 * count) byte) ∷ []))
        (seen D.Disk image.old) (seen D.Disk image.new)) }
    ensures done { IfOk result (λ done. done ≡ true) }
    ensures standing { OnOk result (IsImage (seen D.Disk image.new)) }
    ensures stepped { OnOk result ((view image.new).steps ≡ (view image.old).steps + 1) }
    ensures refused { IfErr result (StopsIn (entries (act.Write at (replicate (512 * count) byte) ∷ []))
        AsksNothing (seen D.Disk image.old) (seen D.Disk image.new)) }
    ensures cause { Charges (faults_in D.Disk) image.old image.new (IsErrOf result Refusal.DiskFault) }
{
    let piece = &mut block[..count as usize * SECTOR];
    fill_sectors(piece, count, byte);
    match image.write(extent_of(at, count), piece) {
        Ok(()) => Ok(true),
        Err(WriteFault::Full { .. }) => unreachable!(),
        Err(WriteFault::Memory) => Err(Refusal::Memory),
        Err(WriteFault::Failed) => Err(Refusal::DiskFault),
    }
}

fn is_too_many(refusal: Refusal) -> bool
    ensures { IsTrue result ↔ (refusal ≡ Refusal.TooManyLayers) }
{
    refusal == Refusal::TooManyLayers
}

// Makes what was written a layer with this uuid, which none of the layers has, and answers whether it did:
// where the image has 255 layers, nothing is changed.
fn commit_once<D: Disk>(
    alloc: Global,
    image: &mut Image<D>,
    uuid: [u8; 16],
) -> Result<bool, Refusal>
    requires standing { IsImage (seen D.Disk image.old) }
    requires named { uuid ≢ nil }
    requires steps { (view image.old).steps < 2 ^ 61 }
    requires free { pending_in (view image.old) ≡ None }
    requires unlike { Contains (uuids_in (view image.old)) uuid → ⊥ }
    ensures adds { OnOk result (Adds (entries (acts_with (length (uuids_in (view image.old))) (Commit uuid)))
        (seen D.Disk image.old) (seen D.Disk image.new)) }
    ensures done { IfOk result (λ done. done ≡ ltb (length (uuids_in (view image.old))) 255) }
    ensures standing { OnOk result (IsImage (seen D.Disk image.new)) }
    ensures stepped { OnOk result ((view image.new).steps ≤ (view image.old).steps + 2) }
    ensures refused { IfErr result (StopsIn (entries (acts_with (length (uuids_in (view image.old))) (Commit uuid)))
        (AsksIn (Commit uuid)) (seen D.Disk image.old) (seen D.Disk image.new)) }
    ensures cause { Charges (faults_in D.Disk) image.old image.new (IsErrOf result Refusal.DiskFault) }
{
    match commit_whole(alloc, image, uuid) {
        Ok(_) => Ok(true),
        Err(refusal) => {
            if is_too_many(refusal) {
                return Ok(false);
            }
            Err(refusal)
        }
    }
}

// Does an act that was drawn, and answers whether it did: a commit is refused where the image has 255
// layers, and changes nothing then.
fn act_on<D: Disk>(
    alloc: Global,
    image: &mut Image<D>,
    drawn: Drawn,
    block: &mut [u8],
) -> Result<bool, Refusal>
    requires standing { IsImage (seen D.Disk image.old) }
    requires steps { (view image.old).steps < 2 ^ 61 }
    requires may { MayAct (view image.old) drawn }
    requires room { 4096 ≤ length block.old }
    ensures adds { OnOk result (Adds (entries (acts_with (length (uuids_in (view image.old))) drawn))
        (seen D.Disk image.old) (seen D.Disk image.new)) }
    ensures done { IfOk result (λ done. done ≡ is_made (length (uuids_in (view image.old))) drawn) }
    ensures standing { OnOk result (IsImage (seen D.Disk image.new)) }
    ensures stepped { OnOk result ((view image.new).steps ≤ (view image.old).steps + 2) }
    ensures refused { IfErr result (StopsIn (entries (acts_with (length (uuids_in (view image.old))) drawn))
        (AsksIn drawn) (seen D.Disk image.old) (seen D.Disk image.new)) }
    ensures cause { Charges (faults_in D.Disk) image.old image.new (IsErrOf result Refusal.DiskFault) }
{
    match drawn {
        Drawn::Flush => flush_once(image),
        Drawn::Zero { at, count } => zero_once(image, at, count),
        Drawn::Write { at, count, byte } => write_once(image, at, count, byte, block),
        Drawn::Commit { uuid } => commit_once(alloc, image, uuid),
    }
}

/// Does so many acts that are drawn of the seed, to an image in which nothing was written, and answers how
/// many there were of each kind. Writes are put together in `block`.
pub fn do_acts<D: Disk>(
    alloc: Global,
    image: &mut Image<D>,
    seed: u64,
    count: u32,
    block: &mut [u8],
) -> Result<Tally, Refusal>
    requires fresh { StandsFor (seen D.Disk image.old) (new_image (faults_in D.Disk image.old)) [] }
    requires seed { seed < 2 ^ 31 }
    requires few { count ≤ 100000 }
    requires room { 4096 ≤ length block.old }
    ensures adds { OnOk result (Adds (entries (made_acts seed count)) (seen D.Disk image.old) (seen D.Disk image.new)) }
    ensures tally { IfOk result (λ tally. tally ≡ tally_of seed count) }
    ensures standing { OnOk result (IsImage (seen D.Disk image.new)) }
    ensures stepped { OnOk result ((view image.new).steps ≤ 2 * count) }
    ensures refused { IfErr result (StopsIn (entries (made_acts seed count)) (AsksOf seed count)
        (seen D.Disk image.old) (seen D.Disk image.new)) }
    ensures cause { Charges (faults_in D.Disk) image.old image.new (IsErrOf result Refusal.DiskFault) }
{
    let mut state = seed;
    let mut tally = no_tally();
    for number in 0..count {
        let (drawn, behind) = draw_act(state, number);
        let done = act_on(alloc, image, drawn, block)?;
        tally = with_one(tally, drawn, done);
        state = behind;
    }
    Ok(tally)
}

/// So many bytes.
pub fn make_block(alloc: Global, room: usize) -> Result<Vec<u8>, AllocError>
    ensures { IfOk result (λ block. length block.items ≡ room) }
{
    vec![in alloc; 0; room]
}

/// Does so many acts that are drawn of the seed, and puts onto the disk what they wrote.
pub fn make_all<D: Disk>(
    alloc: Global,
    image: &mut Image<D>,
    seed: u64,
    count: u32,
) -> Result<Tally, Refusal>
    requires fresh { StandsFor (seen D.Disk image.old) (new_image (faults_in D.Disk image.old)) [] }
    requires seed { seed < 2 ^ 31 }
    requires few { count ≤ 100000 }
    ensures adds { OnOk result (Adds (all_entries seed count) (seen D.Disk image.old) (seen D.Disk image.new)) }
    ensures tally { IfOk result (λ tally. tally ≡ tally_of seed count) }
    ensures standing { OnOk result (IsImage (seen D.Disk image.new)) }
    ensures stepped { OnOk result ((view image.new).steps ≤ 2 * count + 1) }
    ensures refused { IfErr result (StopsIn (all_entries seed count) (AsksOf seed count)
        (seen D.Disk image.old) (seen D.Disk image.new)) }
    ensures cause { Charges (faults_in D.Disk) image.old image.new (IsErrOf result Refusal.DiskFault) }
{
    let mut block = make_block(alloc, BLOCK)?;
    let tally = do_acts(alloc, image, seed, count, block.as_mut_slice())?;
    flush_once(image)?;
    Ok(tally)
}
