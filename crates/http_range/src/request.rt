//! The text of a request, in pieces and whole.
ghost use Rattle.std.specs.Prelude.{◌≡◌, ◌+◌, ◌^◌, ◌<◌, ◌≤◌, [], ◌++◌, length, take, drop, codes, decimal, IfOk};
ghost use Rattle.http_range.specs.Requests.{range_line, request_text};

use crate::target::Target;
use itoa::Buffer;
use sector_extent::{Bytes, Memory};
use std::alloc::Global;
use std::marker::Model;

/// What stands before the path.
pub const BEFORE_PATH: &[u8; 4] = b"GET ";

/// What stands between the path and the host.
pub const BEFORE_HOST: &[u8; 17] = b" HTTP/1.1\r\nHost: ";

/// The room for the last piece of a request.
const LINE: usize = 96;

/// The last piece of a request, which names the range.
#[derive(Drop)]
pub struct RangeLine {
    bytes: [u8; LINE],
    len: usize,
}

impl Model for RangeLine {
    ghost use Rattle.std.specs.Prelude.{ℕ, ◌≤◌, List, take};

    ghost Value = { List ℕ };

    ghost view = { λ line. take line.len line.bytes };

    ghost invariant = { λ line. line.len ≤ 96 };
}

// Writes the bytes at this place.
fn put_at(block: &mut [u8], at: usize, bytes: &[u8])
    requires { at + length bytes.now ≤ length block.old }
    ensures { block.new ≡ take at block.old ++ bytes.now ++ drop (at + length bytes.now) block.old }
{
    block[at..at + bytes.len()].copy_from_slice(bytes);
}

impl RangeLine {
    /// The piece for the bytes `first` to `last`, both included.
    pub fn new(first: u64, last: u64) -> RangeLine
        ensures { result ≡ range_line first last }
    {
        let mut line = RangeLine {
            bytes: [0; LINE],
            len: 0,
        };
        line.put(b"\r\nRange: bytes=");
        line.put_number(first);
        line.put(b"-");
        line.put_number(last);
        line.put(b"\r\n\r\n");
        line
    }

    fn put(&mut self, piece: &[u8])
        requires { length self.old + length piece.now ≤ 96 }
        ensures { self.new ≡ self.old ++ piece.now }
    {
        put_at(&mut self.bytes, self.len, piece);
        self.len += piece.len();
    }

    fn put_number(&mut self, number: u64)
        requires { length self.old + 20 ≤ 96 }
        ensures text { self.new ≡ self.old ++ decimal number }
        ensures short { length self.new ≤ length self.old + 20 }
    {
        let mut buffer = Buffer::new();
        self.put(buffer.format(number).as_bytes());
    }

    pub fn as_slice(&self) -> &[u8]
        ensures { result.now ≡ self.now }
    {
        &self.bytes[..self.len]
    }
}

/// The text of a request for the bytes `first` to `last`, both included.
pub fn ask_bytes(alloc: Global, target: &Target, first: u64, last: u64) -> Result<Bytes, Memory>
    requires { first ≤ last }
    ensures { IfOk result (λ text. text ≡ request_text target.now first last) }
{
    let mut text = Vec::from_slice(alloc, BEFORE_PATH)?;
    text.extend_from_slice(target.path())?;
    text.extend_from_slice(BEFORE_HOST)?;
    text.extend_from_slice(target.host())?;
    text.extend_from_slice(RangeLine::new(first, last).as_slice())?;
    Ok(Bytes::from_vec(text))
}
