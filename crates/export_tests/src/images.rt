//! Layer files, and disks with an image.
use block_disk::MemDisk;
use byte_ports::{MemSink, MemSource};
use layer_shelf::MemShelf;
use sector_extent::{Bytes, CallList, FileTexts};
use std::alloc::{AllocError, Global};
use std::test::Fail;
use tool_run::run_tool;
use tool_setup::WordList;

/// A layer: its uuid and its parent are of one byte each, and so is each of its sectors of data. Its rows
/// stand as bytes.
#[derive(Clone, Copy)]
pub struct Lower {
    pub uuid: u8,
    pub parent: u8,
    pub sectors: u64,
    pub data: &'static [u8],
    pub rows: &'static [u8],
}

/// The layer L1: 4 sectors, with S(61) and S(62) from sector 1 on.
pub const FIRST: Lower = Lower {
    uuid: 0x11,
    parent: 0,
    sectors: 4,
    data: &[0x61, 0x62],
    rows: &[1, 0, 0, 0, 0, 0, 8, 0, 8, 0, 0, 0, 0, 0, 0, 0],
};

fn push_block(file: &mut Vec<u8>, lower: &Lower, flags: u8) -> Result<(), AllocError> {
    let end = file.len().saturating_add(4096);
    let index_at = 4096 + 512 * lower.data.len().min(1 << 20) as u64;
    file.extend_from_slice(b"OBDLAYR1")?;
    file.extend_from_slice(&[1, 0, 0, 0, flags, 0, 0, 0])?;
    file.extend_from_slice(&index_at.to_le_bytes())?;
    file.extend_from_slice(&(lower.rows.len() as u64 / 16).to_le_bytes())?;
    file.extend_from_slice(&lower.sectors.to_le_bytes())?;
    file.extend_from_slice(&[lower.uuid; 16])?;
    file.extend_from_slice(&[lower.parent; 16])?;
    file.resize(end, 0)
}

/// The file of a layer.
pub fn layer_file(alloc: Global, lower: &Lower) -> Result<Vec<u8>, AllocError> {
    let mut file = Vec::new(alloc);
    push_block(&mut file, lower, 7)?;
    for byte in lower.data {
        file.extend_from_slice(&[*byte; 512])?;
    }
    file.extend_from_slice(lower.rows)?;
    let blocks = file.len().div_ceil(4096);
    file.resize(blocks.saturating_mul(4096), 0)?;
    push_block(&mut file, lower, 6)?;
    Ok(file)
}

/// No calls.
pub fn no_calls(alloc: Global) -> CallList {
    CallList::from_vec(Vec::new(alloc))
}

/// A shelf with these layers, whose calls of these numbers fail.
pub fn shelf_of(alloc: Global, lowers: &[Lower], failing: CallList) -> Result<MemShelf, Fail> {
    let mut files = Vec::new(alloc);
    for lower in lowers {
        files.push(Bytes::from_vec(layer_file(alloc, lower)?))?;
    }
    if files.len() > 255 {
        return Err(Fail::new("too many layers"));
    }
    Ok(MemShelf::new(FileTexts::from_vec(files), failing))
}

/// The words of a line, with one space between each two.
pub fn words_of(alloc: Global, line: &str) -> Result<WordList, AllocError> {
    let mut words = Vec::new(alloc);
    for word in line.split(' ') {
        words.push(String::from_str(alloc, word)?)?;
    }
    Ok(WordList::from_vec(words))
}

/// The disk after a command over these layers, which is done.
pub fn run_on(alloc: Global, disk: MemDisk, line: &str, lowers: &[Lower]) -> Result<MemDisk, Fail> {
    let mut source = MemSource::new(Bytes::from_vec(Vec::new(alloc)), no_calls(alloc));
    let mut out = MemSink::new(alloc, no_calls(alloc));
    let mut notes = MemSink::new(alloc, no_calls(alloc));
    let mut shelf = shelf_of(alloc, lowers, no_calls(alloc))?;
    let words = words_of(alloc, line)?;
    let (status, disk) = run_tool(
        alloc,
        &words,
        &mut source,
        &mut out,
        &mut notes,
        disk,
        &mut shelf,
    );
    if status.code != 0 {
        return Err(Fail::new("the command was refused"));
    }
    Ok(disk)
}

/// A disk with a new image over these layers.
pub fn image_over(alloc: Global, lowers: &[Lower]) -> Result<MemDisk, Fail> {
    run_on(alloc, MemDisk::new(alloc), "create", lowers)
}
