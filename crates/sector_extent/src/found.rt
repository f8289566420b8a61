/// What a search over a range of sectors found: the first `pieces` entries of the caller's slice
/// are the pieces of the range up to the sector `until`.
#[derive(Clone, Copy, Debug, PartialEq, Eq)]
pub struct Found {
    pub pieces: usize,
    pub until: u64,
}
