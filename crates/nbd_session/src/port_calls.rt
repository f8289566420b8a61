//! Puts requests to the port.
ghost use Rattle.std.specs.Prelude.{◌≡◌, ℕ, ◌+◌, ◌*◌, ◌^◌, ◌≤◌, List, ◌++◌, length, MatchResult, IfOk};
ghost use Rattle.flat_image.specs.History.{IsWithin};
ghost use Rattle.flat_image.specs.Ports.{Reads};
ghost use Rattle.flat_image.specs.declared.act.Act.{Act};
ghost use Rattle.flat_image.specs.declared.act.Act.TheVariants as act;
ghost use Rattle.nbd_wire.specs.Requests.{simple_reply_bytes};
ghost use Rattle.nbd_session.specs.Replies.{answer_of};
ghost use Rattle.nbd_session.specs.Fits.{ReadRefused, Flushed, Changes, Follows, ChargesAnswer};

use crate::errno::{Errno, errno_of};
use flat_image::ImagePort;
use nbd_wire::simple_reply;

// The bytes of the head of a reply.
pub(crate) const HEAD: usize = 16;

// Reads `count` sectors into `out`, behind the head of the reply.
pub(crate) fn read_reply<P: ImagePort>(
    port: &mut P,
    at: u64,
    count: u64,
    cookie: u64,
    out: &mut [u8],
) -> Result<(), Errno>
    requires within { at + count ≤ (P.state port.old).base.sectors }
    requires size { length out.old ≡ 16 + 512 * count }
    ensures does { MatchResult result
        (λ _. (bytes : List ℕ) × (out.new ≡ simple_reply_bytes 0 cookie ++ bytes)
        × Reads (P.state port.old) (P.state port.new) at count bytes)
        (ReadRefused (P.state port.old) (P.state port.new) at count) }
    ensures cause { ChargesAnswer (P.state port.old) (P.state port.new) (answer_of result) }
{
    let (head, data) = out.split_at_mut(HEAD);
    match port.read(at, data) {
        Ok(()) => {
            head.copy_from_slice(&simple_reply(0, cookie));
            Ok(())
        }
        Err(fault) => Err(errno_of(fault)),
    }
}

// Writes the bytes from sector `at` on, and flushes where that is asked for.
pub(crate) fn write_sectors<P: ImagePort>(
    port: &mut P,
    at: u64,
    bytes: &[u8],
    fua: bool,
) -> Result<(), Errno>
    requires { IsWithin (P.state port.old).base.sectors at bytes.now }
    ensures does { Changes P.flush_takes_memory (P.state port.old) (P.state port.new)
        (act.Write at bytes.now) fua (answer_of result) }
    ensures cause { ChargesAnswer (P.state port.old) (P.state port.new) (answer_of result) }
{
    match port.write(at, bytes) {
        Ok(()) => flush_behind(port, fua),
        Err(fault) => Err(errno_of(fault)),
    }
}

// Makes `count` sectors from `at` on zero, and flushes where that is asked for.
pub(crate) fn zero_sectors<P: ImagePort>(
    port: &mut P,
    at: u64,
    count: u64,
    fua: bool,
) -> Result<(), Errno>
    requires { at + count ≤ (P.state port.old).base.sectors }
    ensures does { Changes P.flush_takes_memory (P.state port.old) (P.state port.new)
        (act.Zero at count) fua (answer_of result) }
    ensures cause { ChargesAnswer (P.state port.old) (P.state port.new) (answer_of result) }
{
    match port.zero(at, count) {
        Ok(()) => flush_behind(port, fua),
        Err(fault) => Err(errno_of(fault)),
    }
}

// The flush behind a change that was made.
fn flush_behind<P: ImagePort>(port: &mut P, fua: bool) -> Result<(), Errno>
    ensures does { Follows P.flush_takes_memory (P.state port.old) (P.state port.new) fua (answer_of result) }
    ensures cause { ChargesAnswer (P.state port.old) (P.state port.new) (answer_of result) }
{
    if fua { flush_all(port) } else { Ok(()) }
}

// Flushes.
pub(crate) fn flush_all<P: ImagePort>(port: &mut P) -> Result<(), Errno>
    ensures does { Flushed P.flush_takes_memory (P.state port.old) (P.state port.new) (answer_of result) }
    ensures cause { ChargesAnswer (P.state port.old) (P.state port.new) (answer_of result) }
{
    match port.flush() {
        Ok(()) => Ok(()),
        Err(fault) => Err(errno_of(fault)),
    }
}
