//! Takes just so many bytes from a source.
ghost use Rattle.std.specs.Prelude.{◌≡◌, ℕ, ◌<◌, List, length, MatchResult};
ghost use Rattle.std.specs.Io.KnownBytes.{Consumes};
ghost use Rattle.byte_ports.specs.Ports.{FillsTo, TakesSome};
ghost use Rattle.nbd_session.specs.Sessions.{IsCut};

use crate::buffers::Buffers;
use crate::served::Served;
use byte_ports::{Source, read_full};

// Fills `out`, or stops at the end, and answers how many bytes were taken.
pub(crate) fn pull<A: Source>(source: &mut A, out: &mut [u8]) -> Result<usize, Served>
    ensures { MatchResult result
        (λ count. FillsTo (A.left source.old) (A.left source.new) out.new count
        × (A.faults source.new ≡ A.faults source.old))
        (λ end. (end ≡ Served.SourceFault) × TakesSome (A.left source.old) (A.left source.new) out.new
        × (A.faults source.old < A.faults source.new)) }
{
    match read_full(source, out) {
        Ok(count) => Ok(count),
        Err(_) => Err(Served::SourceFault),
    }
}

// Fills `out`.
pub(crate) fn fill<A: Source>(source: &mut A, out: &mut [u8]) -> Result<(), Served>
    ensures { MatchResult result
        (λ _. Consumes (A.left source.old) (A.left source.new) out.new
        × (A.faults source.new ≡ A.faults source.old))
        (IsCut (A.left source.old) (A.left source.new) (A.faults source.old) (A.faults source.new) (length out.new)) }
{
    match read_full(source, out) {
        Ok(count) => {
            if count < out.len() {
                return Err(Served::Truncated);
            }
            Ok(())
        }
        Err(_) => Err(Served::SourceFault),
    }
}

// Takes `size` bytes and drops them, a buffer of `out` at a time.
pub(crate) fn skip<A: Source>(source: &mut A, size: usize, out: &mut [u8]) -> Result<(), Served>
    requires { 0 < length out.old }
    ensures { MatchResult result
        (λ _. (bytes : List ℕ) × (length bytes ≡ size) × Consumes (A.left source.old) (A.left source.new) bytes
        × (A.faults source.new ≡ A.faults source.old))
        (IsCut (A.left source.old) (A.left source.new) (A.faults source.old) (A.faults source.new) size) }
{
    let mut left = size;
    while left > 0 {
        let count = left.min(out.len());
        fill(source, &mut out[..count])?;
        left -= count;
    }
    Ok(())
}

// Takes `size` bytes and drops them, by the largest buffer that there is.
pub(crate) fn skip_data<A: Source>(
    source: &mut A,
    size: usize,
    buffers: &mut Buffers,
) -> Result<(), Served>
    ensures { MatchResult result
        (λ _. (bytes : List ℕ) × (length bytes ≡ size) × Consumes (A.left source.old) (A.left source.new) bytes
        × (A.faults source.new ≡ A.faults source.old))
        (IsCut (A.left source.old) (A.left source.new) (A.faults source.old) (A.faults source.new) size) }
{
    if buffers.large.is_empty() {
        skip(source, size, buffers.small.as_mut_slice())
    } else {
        skip(source, size, buffers.large.as_mut_slice())
    }
}
