/// What an image says of itself: its sectors, how many lower and committed layers it has, and the
/// uuid of the commit in progress.
#[derive(Clone, Copy, Debug, PartialEq, Eq)]
pub struct Status {
    pub sectors: u64,
    pub layers: u32,
    pub pending: Option<[u8; 16]>,
}
