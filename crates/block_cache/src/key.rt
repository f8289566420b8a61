/// Bytes of a block. The last one of a file may have fewer.
pub const BLOCK: usize = 65_536;

/// One block of one file, both numbered from 0.
#[derive(Clone, Copy, Debug, PartialEq, Eq, Hash)]
pub struct Key {
    pub layer: u32,
    pub block: u64,
}
