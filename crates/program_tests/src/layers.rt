//! Layer files.
use sector_extent::Bytes;
use std::alloc::{AllocError, Global};

/// A layer, whose uuid and parent are of one byte each, and so is each of its sectors of data. Its rows
/// stand as bytes.
#[derive(Clone, Copy)]
pub struct Layer {
    pub version: u8,
    pub uuid: u8,
    pub parent: u8,
    pub sectors: u8,
    pub data: &'static [u8],
    pub rows: &'static [u8],
}

/// The layer L1: S(61) and S(62) at 1.
pub const FIRST: Layer = Layer {
    version: 1,
    uuid: 0x11,
    parent: 0,
    sectors: 4,
    data: &[0x61, 0x62],
    rows: &[1, 0, 0, 0, 0, 0, 8, 0, 8, 0, 0, 0, 0, 0, 0, 0],
};

/// L2 over L1, without rows.
pub const SECOND: Layer = Layer {
    version: 1,
    uuid: 0x22,
    parent: 0x11,
    sectors: 4,
    data: &[],
    rows: &[],
};

/// L3 over L1, with zeros at 2.
pub const THIRD: Layer = Layer {
    version: 1,
    uuid: 0x33,
    parent: 0x11,
    sectors: 4,
    data: &[],
    rows: &[2, 0, 0, 0, 0, 0, 4, 0, 0, 0, 0, 0, 0, 0, 0x80, 0],
};

/// L4 over L1, of version 2, with 6 sectors and S(64) at 5.
pub const FOURTH: Layer = Layer {
    version: 2,
    uuid: 0x22,
    parent: 0x11,
    sectors: 6,
    data: &[0x64],
    rows: &[5, 0, 0, 0, 0, 0, 4, 0, 8, 0, 0, 0, 0, 0, 0, 0],
};

fn push_block(file: &mut Vec<u8>, layer: Layer, flags: u8) -> Result<(), AllocError> {
    let end = file.len().saturating_add(4096);
    let index_at = 4096 + 512 * layer.data.len().min(1 << 20) as u64;
    file.extend_from_slice(b"OBDLAYR1")?;
    file.extend_from_slice(&[layer.version, 0, 0, 0, flags, 0, 0, 0])?;
    file.extend_from_slice(&index_at.to_le_bytes())?;
    file.extend_from_slice(&(layer.rows.len() as u64 / 16).to_le_bytes())?;
    file.extend_from_slice(&[layer.sectors, 0, 0, 0, 0, 0, 0, 0])?;
    file.extend_from_slice(&[layer.uuid; 16])?;
    file.extend_from_slice(&[layer.parent; 16])?;
    file.resize(end, 0)
}

/// The file of a layer.
pub fn layer_file(alloc: Global, layer: Layer) -> Result<Vec<u8>, AllocError> {
    let mut file = Vec::new(alloc);
    push_block(&mut file, layer, 7)?;
    for byte in layer.data {
        file.extend_from_slice(&[*byte; 512])?;
    }
    file.extend_from_slice(layer.rows)?;
    let blocks = file.len().div_ceil(4096);
    file.resize(blocks.saturating_mul(4096), 0)?;
    push_block(&mut file, layer, 6)?;
    Ok(file)
}

/// The files of layers, in order.
pub fn files_of(alloc: Global, layers: &[Layer]) -> Result<Vec<Bytes>, AllocError> {
    let mut files = Vec::new(alloc);
    for layer in layers {
        files.push(Bytes::from_vec(layer_file(alloc, *layer)?))?;
    }
    Ok(files)
}
