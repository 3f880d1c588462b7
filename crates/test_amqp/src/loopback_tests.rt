//! Connections one after the other, over sockets of this machine: each peer has sent all that it sends before it is accepted.

use crate::recv_tests::{AMPLE, RECORDS, STREAM, served_by};
use std::alloc::Global;
use std::io::{self, Read, Write};
use std::net::{Ipv4Addr, Shutdown, SocketAddr, TcpListener, TcpStream};
use std::process::Abort;
use std::test::Fail;

/// What answers the stream: the header, the answers to open, begin and attach, a flow of one place of credit, and for each
/// message its disposition and a flow; then the close.
const WRITTEN: &[u8] =
    b"\x41\x4d\x51\x50\x00\x01\x00\x00\x00\x00\x00\x1a\x02\x00\x00\x00\x00\x53\x10\xc0\x0d\x04\xa1\x01\x72\x40\x70\x00\x00\x02\x00\x60\x00\x00\x00\x00\x00\x17\x02\x00\x00\x00\x00\x53\x11\xc0\x0a\x05\x60\x00\x00\x43\x52\x64\x43\x52\x01\x00\x00\x00\x22\x02\x00\x00\x00\x00\x53\x12\xc0\x15\x0b\xa1\x01\x6c\x43\x41\x40\x40\x00\x53\x28\x45\x00\x53\x29\x45\x40\x40\x40\x53\x0a\x00\x00\x00\x17\x02\x00\x00\x00\x00\x53\x13\xc0\x0a\x07\x43\x52\x64\x43\x43\x43\x43\x52\x01\x00\x00\x00\x16\x02\x00\x00\x00\x00\x53\x15\xc0\x09\x05\x41\x43\x40\x41\x00\x53\x24\x45\x00\x00\x00\x19\x02\x00\x00\x00\x00\x53\x13\xc0\x0c\x07\x52\x01\x52\x63\x43\x43\x43\x52\x01\x52\x01\x00\x00\x00\x17\x02\x00\x00\x00\x00\x53\x15\xc0\x0a\x05\x41\x52\x01\x40\x41\x00\x53\x24\x45\x00\x00\x00\x19\x02\x00\x00\x00\x00\x53\x13\xc0\x0c\x07\x52\x02\x52\x62\x43\x43\x43\x52\x02\x52\x01\x00\x00\x00\x0c\x02\x00\x00\x00\x00\x53\x18\x45";

/// Returns a listener on a free port, and its address.
pub fn listening(rt: &HostRuntime) -> io::Result<(TcpListener, SocketAddr)> {
    let listener = TcpListener::bind(rt, SocketAddr::from((Ipv4Addr::LOCALHOST, 0)))?;
    let address = listener.local_addr()?;
    Ok((listener, address))
}

/// Returns a peer that has sent these bytes, and sends no more.
pub fn connected(rt: &HostRuntime, address: SocketAddr, bytes: &[u8]) -> io::Result<TcpStream> {
    let mut stream = TcpStream::connect(rt, address)?;
    stream.write_all(bytes)?;
    stream.shutdown(Shutdown::Write)?;
    Ok(stream)
}

/// Returns all that a peer is sent.
fn received(alloc: Global, mut stream: TcpStream) -> io::Result<Vec<u8>> {
    let mut bytes = Vec::new(alloc);
    stream.read_to_end(&mut bytes)?;
    Ok(bytes)
}

/// Asserts that a peer that sent the whole stream was answered.
fn assert_answered(rt: &impl Abort, alloc: Global, stream: TcpStream) -> Result<(), Fail> {
    let bytes = received(alloc, stream)?;
    assert_eq!(rt; bytes.as_slice(), WRITTEN);
    Ok(())
}

#[test]
fn a_peer_is_answered_over_a_socket(rt: HostRuntime) -> Result<(), Fail> {
    let (listener, address) = listening(&rt)?;
    let stream = connected(&rt, address, STREAM)?;
    let (all_closed, log, records) = served_by(rt.alloc(), &listener, 1, AMPLE)?;
    assert_eq!(rt;
        (all_closed, log.as_str()),
        (true, "connection 1: Closed\n")
    );
    assert_eq!(rt; records.as_slice(), RECORDS);
    assert_answered(&rt, rt.alloc(), stream)
}

#[test]
fn two_peers_are_answered_in_turn(rt: HostRuntime) -> Result<(), Fail> {
    let (listener, address) = listening(&rt)?;
    let first = connected(&rt, address, STREAM)?;
    let second = connected(&rt, address, STREAM)?;
    let (all_closed, log, records) = served_by(rt.alloc(), &listener, 2, AMPLE)?;
    let wanted = "connection 1: Closed\nconnection 2: Closed\n";
    assert_eq!(rt; (all_closed, log.as_str()), (true, wanted));
    assert_eq!(rt; records.len(), 2 * RECORDS.len());
    assert_answered(&rt, rt.alloc(), first)?;
    assert_answered(&rt, rt.alloc(), second)
}

/// A peer of another protocol, and two that stop inside a frame and between two: the one that waits after them is
/// served.
#[test]
fn one_that_waits_is_served_behind_others_that_fail(rt: HostRuntime) -> Result<(), Fail> {
    let (listener, address) = listening(&rt)?;
    let other = connected(&rt, address, b"AMQP\x03\x01\x00\x00")?;
    let inside = connected(&rt, address, &STREAM[..40])?;
    let between = connected(&rt, address, &STREAM[..45])?;
    let waiting = connected(&rt, address, STREAM)?;
    let (all_closed, log, records) = served_by(rt.alloc(), &listener, 4, AMPLE)?;
    let wanted =
        "connection 1: Failed\nconnection 2: Inside\nconnection 3: Between\nconnection 4: Closed\n";
    assert_eq!(rt; (all_closed, log.as_str()), (false, wanted));
    assert_eq!(rt; records.as_slice(), RECORDS);
    for (stream, answered) in [(other, 8), (inside, 34), (between, 57)] {
        let bytes = received(rt.alloc(), stream)?;
        assert_eq!(rt; bytes.len(), answered);
        assert!(rt; WRITTEN.starts_with(&bytes));
    }
    assert_answered(&rt, rt.alloc(), waiting)
}

/// If no peer waits and the listener doesn't either, no connection is accepted.
#[test]
fn an_accept_that_fails_is_logged(rt: HostRuntime) -> Result<(), Fail> {
    let (listener, address) = listening(&rt)?;
    listener.set_nonblocking(true)?;
    let stream = connected(&rt, address, STREAM)?;
    let (all_closed, log, records) = served_by(rt.alloc(), &listener, 2, AMPLE)?;
    let wanted = "connection 1: Closed\nconnection 2: Read\n";
    assert_eq!(rt; (all_closed, log.as_str()), (false, wanted));
    assert_eq!(rt; records.as_slice(), RECORDS);
    assert_answered(&rt, rt.alloc(), stream)
}

/// After a sink that fails the peer that waits is not accepted, and none of the first one's messages is answered.
#[test]
fn a_sink_that_fails_ends_it_though_one_waits(rt: HostRuntime) -> Result<(), Fail> {
    let (listener, address) = listening(&rt)?;
    let first = connected(&rt, address, STREAM)?;
    let second = connected(&rt, address, STREAM)?;
    let (all_closed, log, records) = served_by(rt.alloc(), &listener, 2, 0)?;
    assert_eq!(rt; (all_closed, log.as_str()), (false, "connection 1: Sink\n"));
    assert!(rt; records.is_empty());
    drop(listener);
    let answered = received(rt.alloc(), first)?;
    assert!(rt; answered.is_empty());
    drop(second);
    Ok(())
}
