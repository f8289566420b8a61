ghost use Rattle.std.specs.Prelude.{◌≡◌};
ghost use Rattle.sector_extent.specs.Rows.{rows_for};

/// Sectors that one row of an index can map at most.
pub const ROW_SECTORS: u64 = 16_383;

/// Rows that map so many sectors.
pub fn rows_needed(count: u64) -> u64
    ensures { result ≡ rows_for count }
{
    count.div_ceil(ROW_SECTORS)
}
