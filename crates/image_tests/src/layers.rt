//! Files of layers.
use crate::steps::sectors_of;
use lsmt_header::{Head, Kind, Tag, encode_block};
use sector_extent::{Bytes, FileTexts};
use seg_mapping::{Row, encode};
use std::alloc::Global;
use std::test::Fail;

/// A layer whose uuid and parent are sixteen times these bytes. Its file has a sector of each byte of the
/// data, from place 8 on.
#[derive(Clone, Copy)]
pub(crate) struct LayerText<'a> {
    pub(crate) version: u32,
    pub(crate) uuid: u8,
    pub(crate) parent: u8,
    pub(crate) sectors: u64,
    pub(crate) data: &'a [u8],
    // offset, count, place, and whether they are zeros
    pub(crate) rows: &'a [(u64, u32, u64, bool)],
}

/// Two sectors of a layer of four.
pub(crate) const FIRST: LayerText<'static> = LayerText {
    version: 1,
    uuid: 0x11,
    parent: 0,
    sectors: 4,
    data: &[0x61, 0x62],
    rows: &[(1, 2, 8, false)],
};

/// One that has six, over that.
pub(crate) const TALLER: LayerText<'static> = LayerText {
    version: 2,
    uuid: 0x22,
    parent: 0x11,
    sectors: 6,
    data: &[0x64],
    rows: &[(5, 1, 8, false)],
};

/// What an image commits of eight sectors, of which the fourth and the fifth are written and the sixth is zeroed.
pub(crate) const COMMITTED: LayerText<'static> = LayerText {
    version: 1,
    uuid: 0x22,
    parent: 0,
    sectors: 8,
    data: &[0x61, 0x64],
    rows: &[(3, 2, 8, false), (5, 1, 0, true)],
};

fn push_block(file: &mut Vec<u8>, head: &Head) -> Result<(), Fail> {
    if !head.is_valid() {
        return Err(Fail::from("no head"));
    }
    file.extend_from_slice(&encode_block(head))?;
    Ok(())
}

fn push_row(file: &mut Vec<u8>, parts: &(u64, u32, u64, bool)) -> Result<(), Fail> {
    let (offset, count, place, zeroed) = *parts;
    let row = Row {
        offset,
        count,
        place,
        zeroed,
        tag: 0,
    };
    if !row.fits() {
        return Err(Fail::from("no row"));
    }
    file.extend_from_slice(&encode(&row))?;
    Ok(())
}

/// The head of its file at the front, or at the end.
pub(crate) fn head_of(layer: &LayerText, kind: Kind) -> Head {
    Head {
        version: layer.version,
        kind,
        index_at: 512u64
            .wrapping_mul(layer.data.len() as u64)
            .wrapping_add(4_096),
        rows: layer.rows.len() as u64,
        sectors: layer.sectors,
        uuid: [layer.uuid; 16],
        parent: [layer.parent; 16],
        tag: Tag::empty(),
    }
}

/// The file of a layer.
pub(crate) fn layer_file(alloc: Global, layer: &LayerText) -> Result<Vec<u8>, Fail> {
    let mut file = Vec::new(alloc);
    push_block(&mut file, &head_of(layer, Kind::SealedHead))?;
    file.extend_from_slice(sectors_of(alloc, layer.data)?.as_slice())?;
    for row in layer.rows {
        push_row(&mut file, row)?;
    }
    let padded = file.len().div_ceil(4_096).wrapping_mul(4_096);
    file.resize(padded, 0)?;
    push_block(&mut file, &head_of(layer, Kind::SealedEnd))?;
    Ok(file)
}

/// The files of layers.
pub(crate) fn layer_files(alloc: Global, layers: &[LayerText]) -> Result<FileTexts, Fail> {
    let mut files = Vec::new(alloc);
    for layer in layers {
        files.push(Bytes::from_vec(layer_file(alloc, layer)?))?;
    }
    Ok(FileTexts::from_vec(files))
}
