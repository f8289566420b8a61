// Over a TCP stream.
use crate::ahead::{AheadSource, LateSink, joined};
use byte_ports::{StdSink, StdSource};
use std::alloc::Global;
use std::io;
use std::net::TcpStream;

/// The source of a TCP connection.
pub type TcpSource = AheadSource<StdSource<TcpStream>, StdSink<TcpStream>>;

/// The sink of a TCP connection.
pub type TcpSink = LateSink<StdSink<TcpStream>>;

/// The two ends of a connection over a stream. Small pieces are sent without waiting for the peer's
/// word on those before.
pub fn over_stream(alloc: Global, stream: TcpStream) -> io::Result<(TcpSource, TcpSink)> {
    stream.set_nodelay(true)?;
    let writer = stream.try_clone()?;
    Ok(joined(alloc, StdSource::new(stream), StdSink::new(writer))?)
}
