/// Entries that a history may have.
pub const HISTORY_ENTRIES: u64 = 1 << 62;

/// Rows that a top may have.
pub const TOP_ROWS: u64 = 1 << 22;

/// Sectors that a top's data may have.
pub const TOP_SECTORS: u64 = 1 << 30;
