//! A shelf over range requests.
ghost use Rattle.std.specs.Prelude.{◌^◌, ◌<◌, length, IfOk};

use crate::expecting::holds;
use crate::noted_link::{Log, NotedLink, target};
use layer_shelf::{Shelf, ShelfFailed};
use range_shelf::*;
use std::alloc::Global;
use std::process::Abort;
use std::test::Fail;

fn targets(alloc: Global) -> Result<TargetList, Fail>
    ensures { IfOk result (λ list. length list < 2 ^ 32) }
{
    let mut list = Vec::new(alloc);
    list.push(target(alloc)?)?;
    Ok(TargetList::from_vec(list))
}

fn shelf_of<'a>(
    alloc: Global,
    log: &'a Log,
    text: &[u8],
) -> Result<RangeShelf<NotedLink<'a>>, Fail> {
    let link = NotedLink::new(log, Vec::from_slice(alloc, text)?);
    match RangeShelf::new(alloc, link, targets(alloc)?) {
        Ok(shelf) => Ok(shelf),
        Err(_) => Err(Fail::from("memory")),
    }
}

// The length twice, a read of nothing, and one of four bytes where the link has nothing more.
fn asked<S: Shelf>(
    shelf: &mut S,
) -> Result<([Result<u64, ShelfFailed>; 2], [Result<(), ShelfFailed>; 2]), Fail> {
    if shelf.count() != 1 {
        return Err(Fail::from("other files"));
    }
    let first = shelf.length(0);
    let nothing = shelf.read(0, 0, &mut []);
    let second = shelf.length(0);
    Ok(([first, second], [nothing, shelf.read(0, 4096, &mut [0; 4])]))
}

const LENGTH: &[u8; 72] =
    b"HTTP/1.1 206 OK\r\nContent-Range: bytes 0-0/200000\r\nContent-Length: 1\r\n\r\na";

const FIRST_BYTE: &[u8; 61] =
    b"GET /l/0 HTTP/1.1\r\nHost: 127.0.0.1:8080\r\nRange: bytes=0-0\r\n\r\n";

#[test]
fn a_length_is_asked_for_once(rt: HostRuntime) -> Result<(), Fail> {
    let log = Log::new(FIRST_BYTE);
    let mut shelf = shelf_of(rt.alloc(), &log, LENGTH)?;
    let (lengths, reads) = asked(&mut shelf)?;
    holds(&rt, lengths == [Ok(200_000); 2], "both lengths");
    holds(&rt, reads == [Ok(()), Err(ShelfFailed)], "both reads");
    let (_, texts, _) = log.noted();
    holds(&rt, texts == 1, "the requests for the length");
    Ok(())
}
