ghost use Rattle.std.specs.Prelude.{◌≡◌, ℕ, ◌+◌, ◌-◌, ◌*◌, ◌^◌, ◌<◌, ◌≤◌, ◌↔◌, min, IsNone, IfSome};

use crate::rows::{ROW_SECTORS, rows_needed};

/// `count` sectors of an image from sector `at` on. It may be empty.
#[derive(Clone, Copy, Debug, PartialEq, Eq)]
pub struct Extent {
    pub at: u64,
    pub count: u32,
    pub ghost in_image: { at + count ≤ 2 ^ 31 },
}

impl Extent {
    ghost use Rattle.sector_extent.specs.Places.{IsIn, Covers};
    ghost use Rattle.sector_extent.specs.Rows.{rows_for};

    /// None for an extent that ends past 2^31, the greatest number of sectors of an image.
    pub fn new(at: u64, count: u64) -> Option<Extent>
        ensures none { IsNone result ↔ (2 ^ 31 < at + count) }
        ensures place { IfSome result (λ e. (e.at ≡ at) × (e.count ≡ count)) }
    {
        let end = at.checked_add(count)?;
        if end > 1 << 31 {
            return None;
        }
        Some(Extent {
            at,
            count: count as u32,
        })
    }

    /// The sector after the last one.
    pub fn end(&self) -> u64
        ensures { result ≡ self.now.at + self.now.count }
    {
        self.at + self.count as u64
    }

    /// The sectors that are in both.
    pub fn meet(&self, other: &Extent) -> Option<Extent>
        ensures both { IfSome result (λ e. (p : ℕ) → IsIn e p ↔ (IsIn self.now p × IsIn other.now p)) }
        ensures none { IsNone result ↔ ((p : ℕ) → IsIn self.now p → IsIn other.now p → ⊥) }
        ensures some { IfSome result (λ e. 0 < e.count) }
    {
        let at = self.at.max(other.at);
        let end = self.end().min(other.end());
        if at < end {
            Some(Extent {
                at,
                count: (end - at) as u32,
            })
        } else {
            None
        }
    }
    /// The sectors before `other` and those after it.
    pub fn minus(&self, other: &Extent) -> (Option<Extent>, Option<Extent>)
        requires { 0 < other.now.count }
        ensures before { Covers result.0 (λ p. IsIn self.now p × (p < other.now.at)) }
        ensures after { Covers result.1 (λ p. IsIn self.now p × (other.now.at + other.now.count ≤ p)) }
    {
        (
            between(self.at, self.end().min(other.at)),
            between(self.at.max(other.end()), self.end()),
        )
    }

    /// The part that the row of that number maps, where the rows of an extent are numbered from 0
    /// and all but the last map the most that a row can.
    pub fn row_part(&self, number: u64) -> Option<Extent>
        ensures none { IsNone result ↔ (rows_for self.now.count ≤ number) }
        ensures place { IfSome result (λ part. part.at ≡ self.now.at + 16383 * number) }
        ensures count { IfSome result (λ part. part.count ≡ min 16383 (self.now.count - 16383 * number)) }
    {
        let count = self.count as u64;
        if number >= rows_needed(count) {
            return None;
        }
        let skipped = ROW_SECTORS * number;
        Some(Extent {
            at: self.at + skipped,
            count: ROW_SECTORS.min(count - skipped) as u32,
        })
    }
}

/// The sectors from `from` up to `end`, where there are any.
fn between(from: u64, end: u64) -> Option<Extent>
    requires { end ≤ 2 ^ 31 }
    ensures none { IsNone result ↔ (end ≤ from) }
    ensures place { IfSome result (λ e. (e.at ≡ from) × (e.at + e.count ≡ end)) }
{
    if from < end {
        Some(Extent {
            at: from,
            count: (end - from) as u32,
        })
    } else {
        None
    }
}
