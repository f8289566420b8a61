//! What an image holds, in two numbers.
ghost use Rattle.std.specs.Prelude.{◌≡◌, ◌*◌, ◌≤◌, length, sum, cond, ltb};
ghost use Rattle.flat_image.specs.Sectors.{sector_count, sectors_in};
ghost use Rattle.image_make.specs.Sums.{filled_in, sum_in};

use sector_extent::SECTOR;

/// Sectors of the image that `make` makes.
pub const SECTORS: u64 = 4096;

/// The sectors with a byte other than zero, and the sum of all bytes modulo 2^32.
#[derive(Clone, Copy, Debug, PartialEq, Eq)]
pub struct Sums {
    pub filled: u32,
    pub sum: u32,
}

// The sum of the bytes of a sector.
fn sector_sum(sector: &[u8]) -> u64
    requires { length sector.now ≡ 512 }
    ensures is { result ≡ sum sector.now }
    ensures most { result ≤ 130560 }
{
    sector.iter().map(|&byte| u64::from(byte)).sum()
}

/// What the sectors of an image come to, which stand as bytes.
pub fn sum_sectors(bytes: &[u8]) -> Sums
    requires whole { length bytes.now ≡ 512 * sector_count bytes.now }
    requires few { length bytes.now ≤ 2097152 }
    ensures filled { result.filled ≡ filled_in (sectors_in bytes.now) }
    ensures sum { result.sum ≡ sum_in (sectors_in bytes.now) }
{
    let mut rest = bytes;
    let mut left = bytes.len() / SECTOR;
    let mut filled = 0;
    let mut total: u64 = 0;
    while left > 0 {
        let (sector, behind) = rest.split_at(SECTOR);
        let own = sector_sum(sector);
        filled += is_some_sum(own);
        total += own;
        rest = behind;
        left -= 1;
    }
    Sums {
        filled,
        sum: (total % (1 << 32)) as u32,
    }
}

// One for a sum that is not zero.
fn is_some_sum(sum: u64) -> u32
    ensures is { result ≡ cond (ltb 0 sum) 1 0 }
    ensures most { result ≤ 1 }
{
    if sum > 0 {
        return 1;
    }
    0
}
