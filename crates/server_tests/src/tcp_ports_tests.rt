//! Connections over loopback, both ends in this process.
use byte_ports::{Sink, Source, read_full};
use lane_serve::Listener;
use std::alloc::Global;
use std::io::{self, Read, Write};
use std::net::{Net, Shutdown, SocketAddr, TcpListener, TcpStream};
use std::process::Abort;
use std::test::Fail;
use std::thread;
use std::thread::Threads;
use std::time::{Clock, Duration};
use tcp_ports::{TcpLane, TcpSink, TcpSource, control_ends, finish, over_stream};

// Ends the test with these words, unless it holds.
fn holds(rt: &impl Abort, is_so: bool, words: &str) {
    assert!(rt; is_so, "{words}");
}

// A client's stream, and the two ends of the connection that it made.
fn connected<R: Net<Listener = TcpListener, Stream = TcpStream>>(
    rt: &R,
    alloc: Global,
    listener: &TcpListener,
) -> Result<(TcpStream, TcpSource, TcpSink), Fail> {
    let client = TcpStream::connect(rt, listener.local_addr()?)?;
    let (stream, _) = listener.accept()?;
    let (source, sink) = over_stream(alloc, stream)?;
    Ok((client, source, sink))
}

// Answers each piece of so many bytes with the same bytes, until the input ends, and says how many. None
// where the source, the sink or the end of the connection failed.
fn echo(source: TcpSource, sink: TcpSink, piece: &mut [u8]) -> Option<u64> {
    let mut source = source;
    let mut sink = sink;
    let mut count = 0;
    for number in 0..u64::MAX {
        let taken = read_full(&mut source, piece).ok()?;
        if taken < piece.len() {
            count = number;
            break;
        }
        sink.write_all(piece).ok()?;
    }
    finish(source, sink).ok()?;
    Some(count)
}

// The bytes 0 to 199.
fn counting() -> [u8; 200] {
    let mut bytes = [0; 200];
    for at in 0..200u8 {
        bytes[usize::from(at)] = at;
    }
    bytes
}

fn send_in_two(client: &mut TcpStream, bytes: &[u8], split: usize) -> io::Result<()> {
    let (front, back) = bytes.split_at(split.min(bytes.len()));
    client.write_all(front)?;
    client.write_all(back)?;
    client.shutdown(Shutdown::Write)
}

fn has_back(client: &mut TcpStream, sent: &[u8; 200]) -> io::Result<bool> {
    let mut back = [0; 200];
    client.read_exact(&mut back)?;
    Ok(back == *sent)
}

// Whether these bytes, sent in two pieces, come back in four.
fn is_echoed<R: Net<Listener = TcpListener, Stream = TcpStream>>(
    rt: &R,
    alloc: Global,
    listener: &TcpListener,
    sent: &[u8; 200],
    split: usize,
) -> Result<bool, Fail> {
    let (client, source, sink) = connected(rt, alloc, listener)?;
    let mut client = client;
    send_in_two(&mut client, sent, split)?;
    let mut piece = [0; 50];
    let count = echo(source, sink, &mut piece);
    Ok(count == Some(4) && has_back(&mut client, sent)?)
}

#[test]
fn bytes_go_both_ways_however_they_are_split(rt: HostRuntime) -> Result<(), Fail> {
    let listener = TcpListener::bind(&rt, "127.0.0.1:0")?;
    let sent = counting();
    for split in 0..=200 {
        let is_right = is_echoed(&rt, rt.alloc(), &listener, &sent, split)?;
        holds(&rt, is_right, "bytes in two pieces");
    }
    Ok(())
}

// Sends a byte and waits for it, so many times.
fn ask_one_by_one(client: TcpStream, count: u64) -> io::Result<()> {
    let mut client = client;
    let mut byte = [7];
    for _ in 0..count {
        client.write_all(&byte)?;
        client.read_exact(&mut byte)?;
    }
    Ok(())
}

// Sends so many requests of 28 bytes at once, and then reads the replies.
fn ask_at_once(client: TcpStream, count: u64) -> io::Result<()> {
    let mut client = client;
    let request = [9; 28];
    for _ in 0..count {
        client.write_all(&request)?;
    }
    let mut reply = [0; 28];
    for _ in 0..count {
        client.read_exact(&mut reply)?;
    }
    Ok(())
}

// How many of 200 single bytes are answered.
fn answered_one_by_one<R: Net<Listener = TcpListener, Stream = TcpStream> + Threads>(
    rt: &R,
    alloc: Global,
    listener: &TcpListener,
) -> Result<Option<u64>, Fail> {
    let (client, source, sink) = connected(rt, alloc, listener)?;
    let (asked, answered) = thread::join(
        rt,
        move || ask_one_by_one(client, 200),
        move || {
            let mut piece = [0; 1];
            echo(source, sink, &mut piece)
        },
    );
    asked?;
    Ok(answered)
}

// How many of 1,000 requests.
fn answered_at_once<R: Net<Listener = TcpListener, Stream = TcpStream> + Threads>(
    rt: &R,
    alloc: Global,
    listener: &TcpListener,
) -> Result<Option<u64>, Fail> {
    let (client, source, sink) = connected(rt, alloc, listener)?;
    let (asked, answered) = thread::join(
        rt,
        move || ask_at_once(client, 1000),
        move || {
            let mut piece = [0; 28];
            echo(source, sink, &mut piece)
        },
    );
    asked?;
    Ok(answered)
}

#[test]
fn a_client_that_waits_is_answered(rt: HostRuntime) -> Result<(), Fail> {
    let listener = TcpListener::bind(&rt, "127.0.0.1:0")?;
    let count = answered_one_by_one(&rt, rt.alloc(), &listener)?;
    holds(&rt, count == Some(200), "one by one");
    let count = answered_at_once(&rt, rt.alloc(), &listener)?;
    holds(&rt, count == Some(1000), "at once");
    Ok(())
}

// Writes 1 MiB at a time until a write fails, and says whether the next one, and the end, fail too.
fn fails_for_good(sink: &mut TcpSink, bytes: &[u8]) -> bool {
    for _ in 0..64 {
        if sink.write_all(bytes).is_err() {
            return sink.write_all(&[1]).is_err();
        }
    }
    false
}

// What is left of a connection whose client went: a part of a request, a reply, a read and the end.
fn ends_in_faults(source: TcpSource, sink: TcpSink, large: &[u8]) -> [bool; 4] {
    let mut source = source;
    let mut sink = sink;
    let mut request = [0; 28];
    let cut = read_full(&mut source, &mut request).ok() == Some(10);
    let reply = fails_for_good(&mut sink, large);
    let read = source.read(&mut request).is_err();
    [cut, reply, read, finish(source, sink).is_err()]
}

fn goes_away<R: Net<Listener = TcpListener, Stream = TcpStream>>(
    rt: &R,
    alloc: Global,
    listener: &TcpListener,
) -> Result<[bool; 4], Fail> {
    let large = vec![in alloc; 3; 1 << 20]?;
    let (client, source, sink) = connected(rt, alloc, listener)?;
    let mut client = client;
    client.write_all(&[5; 10])?;
    drop(client);
    Ok(ends_in_faults(source, sink, &large))
}

#[test]
fn a_client_that_goes_is_a_fault(rt: HostRuntime) -> Result<(), Fail> {
    let listener = TcpListener::bind(&rt, "127.0.0.1:0")?;
    let [cut, reply, read, end] = goes_away(&rt, rt.alloc(), &listener)?;
    holds(&rt, cut, "of a request cut off");
    holds(&rt, reply, "in a reply");
    holds(&rt, read, "a read sends nothing more");
    holds(&rt, end, "the end");
    Ok(())
}

// Whether writes to a client that reads nothing fail once it goes, and the end of the connection too.
fn waits_in_vain<R: Net<Listener = TcpListener, Stream = TcpStream> + Threads + Clock + Sync>(
    rt: &R,
    alloc: Global,
    listener: &TcpListener,
) -> Result<[bool; 2], Fail> {
    let large = vec![in alloc; 3; 1 << 20]?;
    let (client, source, sink) = connected(rt, alloc, listener)?;
    let mut sink = sink;
    let (_, failed) = thread::join(
        rt,
        move || {
            thread::sleep(rt, Duration::from_millis(200));
            drop(client)
        },
        || fails_for_good(&mut sink, &large),
    );
    Ok([failed, finish(source, sink).is_err()])
}

#[test]
fn a_client_that_reads_nothing_is_waited_for(rt: HostRuntime) -> Result<(), Fail> {
    let listener = TcpListener::bind(&rt, "127.0.0.1:0")?;
    let [failed, end] = waits_in_vain(&rt, rt.alloc(), &listener)?;
    holds(&rt, failed, "once it goes");
    holds(&rt, end, "the end");
    Ok(())
}

// Whether the source takes the byte that the client sends.
fn takes_byte(client: &mut TcpStream, source: &mut TcpSource) -> io::Result<bool> {
    let mut byte = [1];
    client.write_all(&byte)?;
    Ok(source.read(&mut byte).ok() == Some(1))
}

// Whether the client finds nothing of a reply that was written.
fn finds_nothing(client: &mut TcpStream) -> io::Result<bool> {
    let mut byte = [0];
    client.set_nonblocking(true)?;
    let nothing = client.read(&mut byte).is_err();
    client.set_nonblocking(false)?;
    Ok(nothing)
}

fn finds_reply(client: &mut TcpStream) -> io::Result<bool> {
    let mut reply = [0; 3];
    client.read_exact(&mut reply)?;
    Ok(&reply == b"abc")
}

// A reply is written between two reads of the source: whether it goes nowhere before the second one, and
// comes then.
fn is_kept(client: TcpStream, source: TcpSource, sink: TcpSink) -> io::Result<[bool; 5]> {
    let mut client = client;
    let mut source = source;
    let mut sink = sink;
    let first = takes_byte(&mut client, &mut source)?;
    let written = sink.write_all(b"ab").is_ok() && sink.write_all(b"c").is_ok();
    let nothing = finds_nothing(&mut client)?;
    let second = takes_byte(&mut client, &mut source)?;
    Ok([first, written, nothing, second, finds_reply(&mut client)?])
}

#[test]
fn replies_are_kept_until_the_source_waits(rt: HostRuntime) -> Result<(), Fail> {
    let listener = TcpListener::bind(&rt, "127.0.0.1:0")?;
    let (client, source, sink) = connected(&rt, rt.alloc(), &listener)?;
    let [first, written, nothing, second, reply] = is_kept(client, source, sink)?;
    holds(&rt, first, "the first request");
    holds(&rt, written, "a reply is taken");
    holds(&rt, nothing, "a reply that is not sent yet");
    holds(&rt, second, "the second request");
    holds(&rt, reply, "the reply");
    Ok(())
}

// Whether a client was sent all of this, and then the end.
fn is_told_hello(client: &mut TcpStream) -> io::Result<bool> {
    let mut told = [0; 6];
    let count = client.read(&mut told)?;
    Ok(count == 5 && client.read(&mut told)? == 0)
}

// Whether a connection of the lane is served.
fn is_served<C: Clock, R: Net<Stream = TcpStream>>(
    rt: &R,
    address: SocketAddr,
    lane: &mut TcpLane<'_, C, u8>,
) -> Result<bool, Fail> {
    let client = TcpStream::connect(rt, address)?;
    let mut client = client;
    let Ok(Some((source, sink))) = lane.accept() else {
        return Ok(false);
    };
    let mut sink = sink;
    let written = sink.write_all(b"hello").is_ok();
    lane.finish(source, sink, 0);
    Ok(written && is_told_hello(&mut client)?)
}

#[test]
fn lanes_share_an_address(rt: HostRuntime) -> Result<(), Fail> {
    let listener = TcpListener::bind(&rt, "127.0.0.1:0")?;
    let address = listener.local_addr()?;
    let mut first = TcpLane::<HostRuntime, u8>::new(&rt, rt.alloc(), listener.try_clone()?);
    let mut second = TcpLane::<HostRuntime, u8>::new(&rt, rt.alloc(), listener);
    holds(&rt, is_served(&rt, address, &mut first)?, "the first lane");
    holds(
        &rt,
        is_served(&rt, address, &mut second)?,
        "the second lane",
    );
    Ok(())
}

// Whether the source gives these bytes one by one.
fn gives<A: Source>(source: &mut A, bytes: &[u8]) -> bool {
    let mut byte = [0];
    for wanted in bytes {
        if source.read(&mut byte).ok() != Some(1) || byte[0] != *wanted {
            return false;
        }
    }
    true
}

fn is_told_at_once(client: &mut TcpStream) -> io::Result<bool> {
    let mut told = [0; 4];
    client.read_exact(&mut told)?;
    Ok(&told == b"told")
}

// Whether nothing is written before the connection is there, what is asked comes, what is told goes at
// once, and the end comes.
fn is_controlled<A: Source, B: Sink>(
    client: TcpStream,
    source: &mut A,
    sink: &mut B,
) -> io::Result<[bool; 3]> {
    let mut client = client;
    client.write_all(b"ask")?;
    let asked = gives(source, b"ask");
    let written = sink.write_all(b"told").is_ok() && is_told_at_once(&mut client)?;
    client.shutdown(Shutdown::Write)?;
    let mut byte = [0];
    Ok([asked, written, source.read(&mut byte).ok() == Some(0)])
}

#[test]
fn a_control_waits_for_its_connection(rt: HostRuntime) -> Result<(), Fail> {
    let listener = TcpListener::bind(&rt, "127.0.0.1:0")?;
    let address = listener.local_addr()?;
    let (mut source, mut sink) = control_ends(&rt, rt.alloc(), listener)?;
    let early = sink.write_all(b"early").is_err();
    holds(&rt, early, "before the connection is there");
    let client = TcpStream::connect(&rt, address)?;
    let [asked, told, ended] = is_controlled(client, &mut source, &mut sink)?;
    holds(&rt, asked, "what is asked");
    holds(&rt, told, "at once");
    holds(&rt, ended, "the end");
    Ok(())
}
