//! Disks of images: what is made and loaded on them, and which of their calls fail.
use crate::layers::{LayerText, layer_files};
use crate::scenes::{Part, Played, are_answers, load, make, shelf_of};
use block_disk::{CrashChoice, Disk, FileList, MemDisk};
use layer_shelf::MemShelf;
use sector_extent::{Bytes, CallList};
use std::alloc::Global;
use std::test::Fail;

pub(crate) const CHOICES: [CrashChoice; 3] = [
    CrashChoice::Old,
    CrashChoice::New,
    CrashChoice::Torn,
];

/// What fails of a disk: nothing, the call of a number, or each one from that on.
#[derive(Clone, Copy)]
pub(crate) enum Fault {
    Nothing,
    Call(u64),
    From(u64),
}

/// The disk from now on.
pub(crate) fn faulty(alloc: Global, disk: MemDisk, fault: Fault) -> Result<MemDisk, Fail> {
    let mut disk = disk;
    match fault {
        Fault::Nothing => {}
        Fault::Call(call) => {
            disk.fail(CallList::from_vec(Vec::from_slice(alloc, &[call])?));
        }
        Fault::From(call) => disk.stop(call),
    }
    Ok(disk)
}

/// The shelf of layers.
pub(crate) fn shelf(alloc: Global, layers: &[LayerText]) -> Result<MemShelf, Fail> {
    shelf_of(alloc, layer_files(alloc, layers)?)
}

// The disk where these are the answers.
fn answered(played: Played<MemDisk>, parts: &[Part]) -> Result<MemDisk, Fail> {
    if !are_answers(parts, played.answers.as_slice()) {
        return Err(Fail::from("other answers"));
    }
    Ok(played.disk)
}

/// The disk of a new image over layers, which answered the parts so.
pub(crate) fn made(
    alloc: Global,
    disk: MemDisk,
    layers: &[LayerText],
    sectors: u64,
    parts: &[Part],
) -> Result<MemDisk, Fail> {
    match make(alloc, disk, shelf(alloc, layers)?, sectors, parts)? {
        Ok(played) => answered(played, parts),
        Err((disk, _)) => {
            let _disk = disk;
            Err(Fail::from("no image was made"))
        }
    }
}

/// The disk of an image that was loaded over layers, and answered the parts so.
pub(crate) fn loaded(
    alloc: Global,
    disk: MemDisk,
    layers: &[LayerText],
    parts: &[Part],
) -> Result<MemDisk, Fail> {
    match load(alloc, disk, shelf(alloc, layers)?, &[], parts)? {
        Ok(played) => answered(played, parts),
        Err((disk, _)) => {
            let _disk = disk;
            Err(Fail::from("no image was loaded"))
        }
    }
}

/// The bytes of a file.
pub(crate) fn file_of(alloc: Global, disk: &mut MemDisk, file: u32) -> Result<Vec<u8>, Fail> {
    let size = disk.size(file)?;
    if size > 1_048_576 {
        return Err(Fail::from("the file is longer"));
    }
    let mut bytes = vec![in alloc; 0; size as usize]?;
    disk.read_at(file, 0, bytes.as_mut_slice())?;
    Ok(bytes)
}

/// The bytes of the files of an image of two epochs.
pub(crate) fn files_on(alloc: Global, disk: &mut MemDisk) -> Result<Vec<Vec<u8>>, Fail> {
    let mut files = Vec::new(alloc);
    for file in 0..9 {
        files.push(file_of(alloc, disk, file)?)?;
    }
    Ok(files)
}

/// A disk with these files.
pub(crate) fn disk_of(alloc: Global, files: &[Vec<u8>]) -> Result<MemDisk, Fail> {
    let mut list = Vec::new(alloc);
    let mut number = 0;
    for file in files {
        let bytes = Bytes::from_vec(Vec::from_slice(alloc, file.as_slice())?);
        list.push((number, bytes))?;
        number = 1u32.saturating_add(number);
    }
    Ok(MemDisk::of(alloc, FileList::from_vec(list))?)
}
