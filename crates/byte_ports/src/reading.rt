//! Reads until a buffer is full.
ghost use Rattle.std.specs.Prelude.{IfOk, OnErr, IsErr};
ghost use Rattle.sector_extent.specs.Causes.{Charges};
ghost use Rattle.byte_ports.specs.Ports.{FillsTo, TakesSome};

use crate::ports::{PortFailed, Source};

/// Reads until `out` is full or the source is at its end, and answers how many bytes were taken. Each
/// turn takes at least one byte. After a failure the bytes taken so far stand in the front of `out`.
pub fn read_full<A: Source>(source: &mut A, out: &mut [u8]) -> Result<usize, PortFailed>
    ensures full { IfOk result (FillsTo (A.left source.old) (A.left source.new) out.new) }
    ensures failed { OnErr result (TakesSome (A.left source.old) (A.left source.new) out.new) }
    ensures cause { Charges A.faults source.old source.new (IsErr result) }
{
    let mut at = 0;
    while at < out.len() {
        let count = source.read(&mut out[at..])?;
        if count == 0 {
            break;
        }
        at += count;
    }
    Ok(at)
}
