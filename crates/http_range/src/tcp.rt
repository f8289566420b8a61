//! A link over TCP.
ghost use Rattle.std.specs.Prelude.{◌≡◌, ◌+◌, ◌<◌, ◌≤◌, ◌↔◌, None, length, IfOk, IsTrue};
ghost use Rattle.http_range.specs.Hosts.{IsDialed, NamesPort};

use crate::links::{Link, LinkFailed};
use crate::target::HostText;
use sector_extent::FaultCount;
use std::io::{ErrorKind, Read, Write};
use std::net::{Net, SocketAddr, TcpStream, ToSocketAddrs};
use std::time::Duration;

/// The port where the host names none.
const PORT: u16 = 80;

/// How many bytes of a request go out at once.
const GATHERED: usize = 2048;

/// Seconds to connect to one address.
const CONNECT_SECONDS: u64 = 10;

/// Seconds without a byte.
const IDLE_SECONDS: u64 = 30;

/// A connection to a host, which is dialed at the first send and kept. What is sent is gathered until
/// something is received, so that a request goes out in one piece. It tells nothing.
#[derive(Drop)]
pub struct TcpLink<R> {
    rt: R,
    host: HostText,
    stream: Option<TcpStream>,
    gathered: [u8; GATHERED],
    len: usize,
    faults: FaultCount,
    ghost fits: { len ≤ 2048 },
}

impl<R: Net<Stream = TcpStream>> TcpLink<R> {
    pub fn new(rt: R, host: HostText) -> TcpLink<R>
        ensures { ⟦<TcpLink<R> as Link>⟧.state result ≡ record { faults = 0; dials = None; blobs = None } }
    {
        TcpLink {
            rt,
            host,
            stream: None,
            gathered: [0; GATHERED],
            len: 0,
            faults: FaultCount::new(),
        }
    }

    fn dial(&mut self) -> Result<(), LinkFailed>
        ensures { self.new.faults ≡ self.old.faults }
    {
        self.len = 0;
        self.stream = None;
        self.stream = Some(connect(&self.rt, self.host.as_slice())?);
        Ok(())
    }

    fn gather(&mut self, bytes: &[u8]) -> Result<(), LinkFailed>
        ensures { self.new.faults ≡ self.old.faults }
    {
        if self.stream.is_none() {
            self.dial()?;
        }
        if bytes.len() > GATHERED - self.len {
            self.flush()?;
            return write_to(&mut self.stream, bytes);
        }
        put_at(&mut self.gathered, self.len, bytes);
        self.len += bytes.len();
        Ok(())
    }

    fn flush(&mut self) -> Result<(), LinkFailed>
        ensures same { self.new.faults ≡ self.old.faults }
    {
        let len = self.len;
        self.len = 0;
        write_to(&mut self.stream, &self.gathered[..len])
    }
}

impl<R: Net<Stream = TcpStream>> TcpLink<R> {
    fn take(&mut self, out: &mut [u8]) -> Result<usize, LinkFailed>
        ensures same { self.new.faults ≡ self.old.faults }
        ensures bound { IfOk result (λ n. n ≤ length out.new) }
    {
        if self.len > 0 {
            self.flush()?;
        }
        read_from(&mut self.stream, out)
    }
}

fn put_at(block: &mut [u8], at: usize, bytes: &[u8])
    requires { at + length bytes.now ≤ length block.old }
{
    block[at..at + bytes.len()].copy_from_slice(bytes);
}

fn connect<R: Net<Stream = TcpStream>>(rt: &R, host: &[u8]) -> Result<TcpStream, LinkFailed> {
    let Ok(text) = str::from_utf8(host_address(host)) else {
        return Err(LinkFailed);
    };
    if names_port(host) {
        connect_to(rt, text)
    } else {
        connect_to(rt, (text, PORT))
    }
}

/// The address alone, of an IPv6 address in brackets that no port follows; any other host as it is.
pub fn host_address(host: &[u8]) -> &[u8]
    ensures { IsDialed host.now result.now }
{
    match host.strip_prefix(b"[".as_slice()) {
        Some(rest) => match rest.strip_suffix(b"]".as_slice()) {
            Some(address) => address,
            None => host,
        },
        None => host,
    }
}

/// Whether a host names a port: a colon stands behind the last bracket.
pub fn names_port(host: &[u8]) -> bool
    ensures { IsTrue result ↔ NamesPort host.now }
{
    for at in (0..host.len()).rev() {
        if host[at] == b']' {
            return false;
        }
        if host[at] == b':' {
            return true;
        }
    }
    false
}

fn connect_to<R: Net<Stream = TcpStream>, A: ToSocketAddrs>(
    rt: &R,
    host: A,
) -> Result<TcpStream, LinkFailed> {
    let Ok(addresses) = host.to_socket_addrs(rt) else {
        return Err(LinkFailed);
    };
    for address in addresses {
        if let Ok(stream) = connect_one(rt, address) {
            return Ok(stream);
        }
    }
    Err(LinkFailed)
}

fn connect_one<R: Net<Stream = TcpStream>>(
    rt: &R,
    address: SocketAddr,
) -> Result<TcpStream, LinkFailed> {
    match rt.connect_timeout(address, Duration::from_secs(CONNECT_SECONDS)) {
        Ok(stream) => limited(stream),
        Err(_) => Err(LinkFailed),
    }
}

// No delay of small writes, and an end to waiting.
fn limited(stream: TcpStream) -> Result<TcpStream, LinkFailed> {
    let idle = Duration::from_secs(IDLE_SECONDS);
    if stream.set_nodelay(true).is_err()
        || stream.set_read_timeout(Some(idle)).is_err()
        || stream.set_write_timeout(Some(idle)).is_err()
    {
        return Err(LinkFailed);
    }
    Ok(stream)
}

fn write_to(stream: &mut Option<TcpStream>, bytes: &[u8]) -> Result<(), LinkFailed> {
    match stream {
        Some(stream) => write_pieces(stream, bytes),
        None => Err(LinkFailed),
    }
}

// A write that takes nothing of a piece that is not empty is a failure.
fn write_pieces(stream: &mut TcpStream, bytes: &[u8]) -> Result<(), LinkFailed> {
    let mut at = 0;
    while at < bytes.len() {
        at += write_some(stream, &bytes[at..])?;
    }
    Ok(())
}

fn write_some(stream: &mut TcpStream, piece: &[u8]) -> Result<usize, LinkFailed>
    ensures some { IfOk result (λ n. 0 < n) }
    ensures bound { IfOk result (λ n. n ≤ length piece.now) }
{
    for _ in 0..u64::MAX {
        match stream.write(piece) {
            Ok(0) => return Err(LinkFailed),
            Ok(count) => return Ok(count),
            Err(error) => {
                if error.kind() != ErrorKind::Interrupted {
                    return Err(LinkFailed);
                }
            }
        }
    }
    Err(LinkFailed)
}

fn read_from(stream: &mut Option<TcpStream>, out: &mut [u8]) -> Result<usize, LinkFailed>
    ensures bound { IfOk result (λ n. n ≤ length out.new) }
{
    match stream {
        Some(stream) => read_some(stream, out),
        None => Err(LinkFailed),
    }
}

fn read_some(stream: &mut TcpStream, out: &mut [u8]) -> Result<usize, LinkFailed>
    ensures bound { IfOk result (λ n. n ≤ length out.new) }
{
    for _ in 0..u64::MAX {
        match stream.read(out) {
            Ok(count) => return Ok(count),
            Err(error) => {
                if error.kind() != ErrorKind::Interrupted {
                    return Err(LinkFailed);
                }
            }
        }
    }
    Err(LinkFailed)
}

impl<R: Net<Stream = TcpStream>> Link for TcpLink<R> {
    ghost state = { λ s. record { faults = s.faults.count; dials = None; blobs = None } };

    ghost serves = { λ _. tt };

    fn send(&mut self, bytes: &[u8]) -> Result<(), LinkFailed> {
        match self.gather(bytes) {
            Ok(()) => Ok(()),
            Err(failed) => {
                self.faults.raise();
                Err(failed)
            }
        }
    }

    fn receive(&mut self, out: &mut [u8]) -> Result<usize, LinkFailed> {
        match self.take(out) {
            Ok(count) => Ok(count),
            Err(failed) => {
                self.faults.raise();
                Err(failed)
            }
        }
    }

    fn redial(&mut self) -> Result<(), LinkFailed> {
        match self.dial() {
            Ok(()) => Ok(()),
            Err(failed) => {
                self.faults.raise();
                Err(failed)
            }
        }
    }
}
