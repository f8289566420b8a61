ghost use Rattle.std.specs.Prelude.{IfOk};
ghost use Rattle.http_range.specs.Fetching.{IsFresh};
ghost use Rattle.http_range.specs.InMemory.{mem_state};

use crate::expecting::holds;
use crate::noted_link::{bytes_of, target};
use http_range::*;
use sector_extent::{CallList, FileTexts};
use std::alloc::{AllocError, Global};
use std::io::{Read, Write};
use std::net::{Net, TcpListener, TcpStream};
use std::process::Abort;
use std::test::Fail;

const GOOD: &[u8; 88] =
    b"HTTP/1.1 206 Partial Content\r\nContent-Length: 4\r\nContent-Range: bytes 4-7/200000\r\n\r\nabcd";

// A link of two dials, each of which receives the same bytes.
fn link_of(alloc: Global, reply: &[u8], failing: &[u64]) -> Result<MemLink, AllocError>
    ensures { IfOk result (λ link. IsFresh (mem_state link)) }
{
    let mut texts = Vec::new(alloc);
    texts.push(bytes_of(alloc, reply)?)?;
    texts.push(bytes_of(alloc, reply)?)?;
    let failing = CallList::from_vec(Vec::from_slice(alloc, failing)?);
    Ok(MemLink::new(alloc, FileTexts::from_vec(texts), failing))
}

type Fetched = Result<u64, FetchFault>;

const FAILED: Fetched = Err(FetchFault::Failed);

// The answers of two fetches of bytes 4 to 7.
fn two_fetches(alloc: Global, reply: &[u8], failing: &[u64]) -> Result<(Fetched, Fetched), Fail> {
    let link = link_of(alloc, reply, failing)?;
    let target = target(alloc)?;
    let mut out = [0; 4];
    match Fetcher::new(alloc, link) {
        Ok(mut fetcher) => {
            let first = fetcher.fetch(&target, 4, &mut out);
            let second = fetcher.fetch(&target, 4, &mut out);
            Ok((first, second))
        }
        Err(_) => Err(Fail::from("memory")),
    }
}

// The sixth call is the first receive; after a refusal the redial comes first.
#[test]
fn a_link_that_fails(rt: HostRuntime) -> Result<(), Fail> {
    let answers = two_fetches(rt.alloc(), GOOD, &[5])?;
    holds(&rt, answers == (FAILED, Ok(200_000)), "a failing link");
    Ok(())
}

// A host, whether it names a port, and where it is dialed.
const HOSTS: [(&str, bool, &str); 7] = [
    ("127.0.0.1:8080", true, "127.0.0.1:8080"),
    ("127.0.0.1", false, "127.0.0.1"),
    ("layers.example", false, "layers.example"),
    ("layers.example:81", true, "layers.example:81"),
    ("[::1]", false, "::1"),
    ("[::1]:81", true, "[::1]:81"),
    ("[::1", true, "[::1"),
];

fn is_dialed(host: &[u8], port: bool, address: &[u8]) -> bool {
    names_port(host) == port && host_address(host) == address
}

#[test]
fn hosts_with_and_without_a_port(rt: HostRuntime) {
    for (host, port, address) in HOSTS {
        let is_right = is_dialed(host.as_bytes(), port, address.as_bytes());
        holds(&rt, is_right, host);
    }
}

// Sends, and accepts the connection that this makes.
fn dialed<R: Net<Listener = TcpListener, Stream = TcpStream>>(
    link: &mut TcpLink<R>,
    listener: &TcpListener,
) -> Result<TcpStream, Fail> {
    link.send(b"GET ")?;
    let (served, _peer) = listener.accept()?;
    Ok(served)
}

// Whether what is sent comes, and what is answered is received up to its end.
fn goes_both_ways<R: Net<Stream = TcpStream>>(
    link: &mut TcpLink<R>,
    served: TcpStream,
) -> Result<bool, Fail> {
    let mut served = served;
    served.write_all(b"ok")?;
    link.send(b"/")?;
    let mut out = [0; 4];
    let count = link.receive(&mut out)?;
    let mut request = [0; 5];
    served.read_exact(&mut request)?;
    drop(served);
    let end = link.receive(&mut out)?;
    Ok(count == 2 && end == 0 && request == *b"GET /")
}

#[test]
fn a_link_over_tcp(rt: HostRuntime) -> Result<(), Fail> {
    for name in ["127.0.0.1", "localhost"] {
        let listener = TcpListener::bind(&rt, "127.0.0.1:0")?;
        let address = listener.local_addr()?;
        let host = format!(in rt.alloc(); "{name}:{}", address.port())?;
        let mut link = TcpLink::new(&rt, bytes_of(rt.alloc(), host.as_bytes())?);
        let served = dialed(&mut link, &listener)?;
        holds(&rt, goes_both_ways(&mut link, served)?, name);
        drop(listener);
        holds(&rt, link.redial().is_err(), "nobody listens");
    }
    Ok(())
}
