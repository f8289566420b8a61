//! Images whose manifest has format 0.
use crate::disks::{disk_of, file_of, loaded, shelf};
use crate::expecting::{holds, holds_at};
use crate::layers::FIRST;
use crate::scenes::{Part, load};
use crate::steps::{Act, Line, Said, TWO, sectors_of};
use block_disk::{Disk, MemDisk};
use image_core::LoadFault;
use std::alloc::Global;
use std::process::Abort;
use std::test::Fail;

/// The four files of an image, byte for byte as they were written then.
#[derive(Clone, Copy)]
pub(crate) struct OldFiles<'a> {
    // of the manifest, the data, the rows and the mark
    lengths: [u64; 4],
    // a sector of each byte, from place 8 on
    data: &'a [u8],
    // a file, a place, and the bytes there; what no piece says is zeros
    pieces: &'a [(u32, usize, [u8; 16])],
}

/// Sector 1, zeros at 2 and sector 5.
pub(crate) const APART: OldFiles<'static> = OldFiles {
    lengths: [1_024, 5_632, 4_144, 1_024],
    data: &[0x61, 0x62, 0x63],
    pieces: &[
        (0, 0, [0xA5, 0, 0, 0, 0, 0, 0, 0, 1, 0, 0, 0, 0, 0, 0, 0]),
        (0, 48, [8, 0, 0, 0, 0, 0, 0, 0, 0, 0, 0, 0, 0, 0, 0, 0]),
        (
            1,
            0,
            [79, 66, 68, 76, 65, 89, 82, 49, 1, 0, 0, 0, 5, 0, 0, 0],
        ),
        (1, 32, [8, 0, 0, 0, 0, 0, 0, 0, 0, 0, 0, 0, 0, 0, 0, 0]),
        (
            2,
            0,
            [79, 66, 68, 76, 65, 89, 82, 49, 1, 0, 0, 0, 1, 0, 0, 0],
        ),
        (2, 32, [8, 0, 0, 0, 0, 0, 0, 0, 0, 0, 0, 0, 0, 0, 0, 0]),
        (2, 4_096, [1, 0, 0, 0, 0, 0, 8, 0, 8, 0, 0, 0, 0, 0, 0, 0]),
        (2, 4_112, [2, 0, 0, 0, 0, 0, 4, 0, 0, 0, 0, 0, 0, 0, 128, 0]),
        (2, 4_128, [5, 0, 0, 0, 0, 0, 4, 0, 10, 0, 0, 0, 0, 0, 0, 0]),
        (3, 0, [0xA5, 0, 0, 0, 0, 0, 0, 0, 3, 0, 0, 0, 0, 0, 0, 0]),
        (3, 16, [3, 0, 0, 0, 0, 0, 0, 0, 3, 0, 0, 0, 0, 0, 0, 0]),
        (3, 512, [0xA5, 0, 0, 0, 0, 0, 0, 0, 2, 0, 0, 0, 0, 0, 0, 0]),
        (3, 528, [1, 0, 0, 0, 0, 0, 0, 0, 2, 0, 0, 0, 0, 0, 0, 0]),
    ],
};

/// Sectors 3 to 5, of which the second was written again and the third was zeroed.
pub(crate) const TOGETHER: OldFiles<'static> = OldFiles {
    lengths: [1_024, 6_144, 4_144, 1_024],
    data: &[0x61, 0x62, 0x63, 0x64],
    pieces: &[
        (0, 0, [0xA5, 0, 0, 0, 0, 0, 0, 0, 1, 0, 0, 0, 0, 0, 0, 0]),
        (0, 48, [8, 0, 0, 0, 0, 0, 0, 0, 0, 0, 0, 0, 0, 0, 0, 0]),
        (
            1,
            0,
            [79, 66, 68, 76, 65, 89, 82, 49, 1, 0, 0, 0, 5, 0, 0, 0],
        ),
        (1, 32, [8, 0, 0, 0, 0, 0, 0, 0, 0, 0, 0, 0, 0, 0, 0, 0]),
        (
            2,
            0,
            [79, 66, 68, 76, 65, 89, 82, 49, 1, 0, 0, 0, 1, 0, 0, 0],
        ),
        (2, 32, [8, 0, 0, 0, 0, 0, 0, 0, 0, 0, 0, 0, 0, 0, 0, 0]),
        (2, 4_096, [3, 0, 0, 0, 0, 0, 12, 0, 8, 0, 0, 0, 0, 0, 0, 0]),
        (2, 4_112, [4, 0, 0, 0, 0, 0, 4, 0, 11, 0, 0, 0, 0, 0, 0, 0]),
        (2, 4_128, [5, 0, 0, 0, 0, 0, 4, 0, 0, 0, 0, 0, 0, 0, 128, 0]),
        (3, 0, [0xA5, 0, 0, 0, 0, 0, 0, 0, 1, 0, 0, 0, 0, 0, 0, 0]),
        (3, 512, [0xA5, 0, 0, 0, 0, 0, 0, 0, 2, 0, 0, 0, 0, 0, 0, 0]),
        (3, 528, [3, 0, 0, 0, 0, 0, 0, 0, 4, 0, 0, 0, 0, 0, 0, 0]),
    ],
};

fn put(file: &mut Vec<u8>, at: usize, bytes: &[u8; 16]) {
    for (number, byte) in bytes.iter().enumerate() {
        let place = at.saturating_add(number);
        if place < file.len() {
            file[place] = *byte;
        }
    }
}

// The bytes of the file of that number.
fn old_file(alloc: Global, files: &OldFiles, number: usize) -> Result<Vec<u8>, Fail> {
    let mut file = vec![in alloc; 0; 4_096]?;
    if number == 1 {
        file.extend_from_slice(sectors_of(alloc, files.data)?.as_slice())?;
    }
    file.resize(files.lengths[number.min(3)] as usize, 0)?;
    for (of, at, bytes) in files.pieces {
        if *of as usize == number {
            put(&mut file, *at, bytes);
        }
    }
    Ok(file)
}

/// A disk with these files.
pub(crate) fn old_disk(alloc: Global, files: &OldFiles) -> Result<MemDisk, Fail> {
    let mut list = Vec::new(alloc);
    for number in 0..4 {
        list.push(old_file(alloc, files, number)?)?;
    }
    disk_of(alloc, list.as_slice())
}

// Whether the disk has just these files.
fn has_files(alloc: Global, disk: &mut MemDisk, files: &OldFiles) -> Result<bool, Fail> {
    for number in 0..4 {
        let found = file_of(alloc, disk, number as u32)?;
        if found != old_file(alloc, files, number)? {
            return Ok(false);
        }
    }
    Ok(disk.size(4)? == 0)
}

const PLANNED: [(OldFiles<'static>, [Part<'static>; 2]); 2] = [
    (
        APART,
        [
            Part::Steps(&[(
                Act::Plan(0, 8),
                Said::Planned(&[0, 0x61, 0, 0, 0, 0x63, 0, 0], &[(0, 1), (3, 2), (6, 2)]),
            )]),
            Part::Read(&[0, 0x61, 0, 0, 0, 0x63, 0, 0]),
        ],
    ),
    (
        TOGETHER,
        [
            Part::Steps(&[(
                Act::Plan(0, 8),
                Said::Planned(&[0, 0, 0, 0x61, 0x64, 0, 0, 0], &[(0, 3), (6, 2)]),
            )]),
            Part::Read(&[0, 0, 0, 0x61, 0x64, 0, 0, 0]),
        ],
    ),
];

#[test]
fn old_files_are_loaded_and_read(rt: HostRuntime) -> Result<(), Fail> {
    let alloc = rt.alloc();
    for (number, (files, parts)) in PLANNED.iter().enumerate() {
        let mut disk = loaded(alloc, old_disk(alloc, files)?, &[], parts)?;
        holds_at(&rt, has_files(alloc, &mut disk, files)?, "files", number);
    }
    Ok(())
}

// Of format 0 no image is loaded over a layer of another size.
#[test]
fn an_old_image_has_the_size_of_its_layers(rt: HostRuntime) -> Result<(), Fail> {
    let alloc = rt.alloc();
    let disk = old_disk(alloc, &TOGETHER)?;
    match load(alloc, disk, shelf(alloc, &[FIRST])?, &[], &[])? {
        Ok(played) => {
            let _disk = played.disk;
            Err(Fail::from("it was loaded"))
        }
        Err((disk, fault)) => {
            let _disk = disk;
            holds(&rt, fault == LoadFault::SizeDiffers, "its size");
            Ok(())
        }
    }
}

const FROZEN: [Line<'static>; 1] = [(Act::Freeze(TWO), Said::Done)];

const GROWN: [Line<'static>; 3] = [
    (Act::Write(7, &[0x64]), Said::Done),
    (Act::Grow(12), Said::Done),
    (Act::Grow(12), Said::NotLarger(12)),
];

// What a step puts into the second slot of the manifest: the gate and a sequence, the number of layers and
// the epoch, the commit in progress, and the sectors with the format.
const SLOTS: [(&[Line<'static>], [[u8; 16]; 4]); 2] = [
    (
        &FROZEN,
        [
            [0xA5, 0, 0, 0, 0, 0, 0, 0, 2, 0, 0, 0, 0, 0, 0, 0],
            [0, 0, 0, 0, 0, 0, 0, 0, 1, 0, 0, 0, 0, 0, 0, 0],
            TWO,
            [8, 0, 0, 0, 0, 0, 0, 0, 2, 0, 0, 0, 0, 0, 0, 0],
        ],
    ),
    (
        &GROWN,
        [
            [0xA5, 0, 0, 0, 0, 0, 0, 0, 2, 0, 0, 0, 0, 0, 0, 0],
            [0; 16],
            [0; 16],
            [12, 0, 0, 0, 0, 0, 0, 0, 2, 0, 0, 0, 0, 0, 0, 0],
        ],
    ),
];

// Whether the second slot of the manifest begins so, and the first one is as it was.
fn is_manifest(alloc: Global, disk: &mut MemDisk, slot: &[[u8; 16]; 4]) -> Result<bool, Fail> {
    let mut wanted = old_file(alloc, &TOGETHER, 0)?;
    for (number, bytes) in slot.iter().enumerate() {
        put(
            &mut wanted,
            16usize.wrapping_mul(number).wrapping_add(512),
            bytes,
        );
    }
    Ok(file_of(alloc, disk, 0)? == wanted)
}

#[test]
fn the_manifest_is_written_in_the_newer_format(rt: HostRuntime) -> Result<(), Fail> {
    let alloc = rt.alloc();
    for (number, (lines, slot)) in SLOTS.iter().enumerate() {
        let disk = old_disk(alloc, &TOGETHER)?;
        let mut disk = loaded(alloc, disk, &[], &[Part::Steps(lines)])?;
        holds_at(
            &rt,
            is_manifest(alloc, &mut disk, slot)?,
            "manifest",
            number,
        );
    }
    Ok(())
}
