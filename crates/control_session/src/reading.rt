//! Reads a line from a source, and nothing behind it.
ghost use Rattle.std.specs.Prelude.{◌≡◌, ◌<◌, ◌≤◌, [], ◌∷◌, length, MatchResult, MatchOption};
ghost use Rattle.std.specs.Io.KnownBytes.{Consumes, IsAtEnd};
ghost use Rattle.control_session.specs.Reading.{ReadsLine, StopsReading};

use crate::control_end::ControlEnd;
use byte_ports::Source;

/// The bytes of a buffer for a line, one more than a line may have.
pub(crate) const BUFFER: usize = 257;

/// A line in the front of the buffer: its length without its LF, and whether the input ended in its
/// place.
#[derive(Clone, Copy)]
pub(crate) struct Found {
    pub(crate) count: usize,
    pub(crate) last: bool,
}

// The next byte, or None at the end.
fn next_byte<A: Source>(source: &mut A) -> Result<Option<u8>, ControlEnd>
    ensures { MatchResult result
        (λ next. MatchOption next
        (Consumes (A.left source.old) (A.left source.new) [] × IsAtEnd (A.left source.new))
        (λ byte. Consumes (A.left source.old) (A.left source.new) (byte ∷ []))
        × (A.faults source.new ≡ A.faults source.old))
        (λ end. (end ≡ ControlEnd.SourceFault) × Consumes (A.left source.old) (A.left source.new) []
        × (A.faults source.old < A.faults source.new)) }
{
    let mut byte = [0];
    match source.read(&mut byte) {
        Ok(0) => Ok(None),
        Ok(_) => Ok(Some(byte[0])),
        Err(_) => Err(ControlEnd::SourceFault),
    }
}

/// Reads the next line, byte by byte, so that nothing behind it is taken. A source over a socket
/// reads ahead by itself.
pub(crate) fn read_line<A: Source>(source: &mut A, line: &mut [u8]) -> Result<Found, ControlEnd>
    requires { length line.old ≡ 257 }
    ensures { MatchResult result
        (λ found. ReadsLine (A.left source.old) (A.left source.new) line.new found
        × (A.faults source.new ≡ A.faults source.old))
        (StopsReading (A.left source.old) (A.left source.new) (A.faults source.old) (A.faults source.new)) }
{
    for count in 0..line.len() {
        match next_byte(source)? {
            Some(byte) => {
                if byte == b'\n' {
                    return Ok(Found { count, last: false });
                }
                line[count] = byte;
            }
            None => {
                if count == 0 {
                    return Err(ControlEnd::Ended);
                }
                return Ok(Found { count, last: true });
            }
        }
    }
    Err(ControlEnd::LongLine)
}
