//! Peers and gateway by turns.

use crate::scene::{
    ATTACHED, CLOSE, DELIVERED, EMPTY, FIRST, RECORD, RECORDS, STREAM, Scene, Store, Stored,
    Taking, dispositions, hears_close, received, send, times,
};
use amqp_gateway::GatewayFault;
use std::cell::RefCell;
use std::net::TcpStream;
use std::process::Abort;
use std::str;
use std::test::Fail;

#[test]
fn records_stand_in_a_block_and_are_synced_once(rt: HostRuntime) -> Result<(), Fail> {
    let store = RefCell::new(Store::new(rt.alloc()));
    records_stand_in_a_block_in(&rt, &rt, &mut Scene::new(&rt, &store, 3)?)?;
    assert_one_synced_block(&rt, &store.into_inner());
    Ok(())
}

// The body borrows what it uses: one that may drop it at each exit takes minutes to prove.
fn assert_one_synced_block(rt: &impl Abort, store: &Store) {
    let head = b"\x00\x00\x00\x00\x00\x00\x00\x01\x00\x00\x00\x26";
    assert_eq!(rt; store.bytes.get(..12), Some(head.as_slice()));
    assert_records(rt, store);
    assert_eq!(rt; store.syncs, 1);
}

/// Asserts that the records of both deliveries stand behind the head of their block.
fn assert_records(rt: &impl Abort, store: &Store) {
    assert_eq!(rt; store.bytes.get(12..), Some(RECORDS));
}

fn records_stand_in_a_block_in(
    rt: &impl Abort,
    host: &HostRuntime,
    scene: &mut Stored<'_>,
) -> Result<(), Fail> {
    let mut peer = scene.peer(host, STREAM)?;
    assert!(rt; scene.turns(8, 1).is_ok());
    assert!(rt; hears_close(host.alloc(), &mut peer)?);
    assert_eq!(rt; (scene.gateway.open(), scene.log.count(": Closed")), (0, 1));
    assert_eq!(rt; scene.gateway.counts().messages, 2);
    Ok(())
}

#[test]
fn a_silent_peer_is_closed(rt: HostRuntime) -> Result<(), Fail> {
    let store = RefCell::new(Store::new(rt.alloc()));
    a_silent_peer_in(&rt, &rt, &mut Scene::new(&rt, &store, 3)?)
}

fn a_silent_peer_in(
    rt: &impl Abort,
    host: &HostRuntime,
    scene: &mut Stored<'_>,
) -> Result<(), Fail> {
    let mut peer = scene.peer(host, STREAM.get(..ATTACHED).unwrap_or(&[]))?;
    assert!(rt; scene.turns(4, 1).is_ok());
    assert!(rt; scene.turns(12, 800).is_ok());
    assert_eq!(rt; scene.gateway.open(), 1);
    assert!(rt; scene.turns(4, 800).is_ok());
    assert_eq!(rt; (scene.gateway.open(), scene.log.count(": Idle")), (0, 1));
    assert!(rt; hears_close(host.alloc(), &mut peer)?);
    Ok(())
}

/// One that sends a byte now and then, and no open.
#[test]
fn a_peer_that_does_not_open_is_closed(rt: HostRuntime) -> Result<(), Fail> {
    let store = RefCell::new(Store::new(rt.alloc()));
    does_not_open_in(&rt, &rt, &mut Scene::new(&rt, &store, 3)?)
}

fn does_not_open_in(
    rt: &impl Abort,
    host: &HostRuntime,
    scene: &mut Stored<'_>,
) -> Result<(), Fail> {
    let mut peer = scene.peer(host, b"")?;
    for byte in STREAM.get(..12).unwrap_or(&[]) {
        send(&mut peer, &[*byte])?;
        assert!(rt; scene.turns(1, 800).is_ok());
    }
    assert_eq!(rt; scene.gateway.open(), 1);
    send(&mut peer, STREAM.get(12..13).unwrap_or(&[]))?;
    assert!(rt; scene.turns(4, 800).is_ok());
    assert_eq!(rt; (scene.gateway.open(), scene.log.count(": Idle")), (0, 1));
    Ok(())
}

/// One that opens twice, and does not answer the close, but goes on to send.
#[test]
fn a_peer_that_was_ended_is_not_awaited_for_ever(rt: HostRuntime) -> Result<(), Fail> {
    let store = RefCell::new(Store::new(rt.alloc()));
    was_ended_in(&rt, &rt, &mut Scene::new(&rt, &store, 3)?)
}

fn was_ended_in(rt: &impl Abort, host: &HostRuntime, scene: &mut Stored<'_>) -> Result<(), Fail> {
    let mut peer = scene.peer(host, STREAM.get(..25).unwrap_or(&[]))?;
    assert!(rt; scene.turns(2, 1).is_ok());
    send(&mut peer, STREAM.get(8..25).unwrap_or(&[]))?;
    for _ in 0..12 {
        assert!(rt; scene.turns(1, 800).is_ok());
        send(&mut peer, EMPTY)?;
    }
    assert_eq!(rt; scene.gateway.open(), 1);
    assert!(rt; scene.turns(4, 800).is_ok());
    assert_eq!(rt; (scene.gateway.open(), scene.log.count(": Failed")), (0, 1));
    assert_eq!(rt; scene.log.count(": ended with amqp:illegal-state"), 1);
    Ok(())
}

/// The open of this peer wants to hear something each 2,000 milliseconds at least.
#[test]
fn a_peer_that_asks_for_it_hears_of_this_side(rt: HostRuntime) -> Result<(), Fail> {
    let store = RefCell::new(Store::new(rt.alloc()));
    asks_for_it_in(&rt, &rt, &mut Scene::new(&rt, &store, 3)?)
}

fn asks_for_it_in(rt: &impl Abort, host: &HostRuntime, scene: &mut Stored<'_>) -> Result<(), Fail> {
    let open =
        b"AMQP\x00\x01\x00\x00\x00\x00\x00\x19\x02\x00\x00\x00\x00\x53\x10\xc0\x0c\x05\xa1\x01\x61\x40\x40\x40\x70\x00\x00\x07\xd0";
    let mut peer = scene.peer(host, open)?;
    assert!(rt; scene.turns(4, 1).is_ok());
    assert!(rt; scene.turns(24, 500).is_ok());
    let beats = times(&received(host.alloc(), &mut peer)?, EMPTY);
    assert!(rt; (6..=10).contains(&beats));
    Ok(())
}

/// An open of 60,000 bytes is told with the first 255 bytes of its container-id, up to the last whole character, and its
/// idle-time-out counts.
#[test]
fn a_long_open_is_read_whole(rt: HostRuntime) -> Result<(), Fail> {
    let store = RefCell::new(Store::new(rt.alloc()));
    long_open_in(&rt, &rt, &mut Scene::sized(&rt, &store, 3, true, 65_536)?)
}

fn long_open_in(rt: &impl Abort, host: &HostRuntime, scene: &mut Stored<'_>) -> Result<(), Fail> {
    let mut peer = scene.peer(host, b"AMQP\x00\x01\x00\x00")?;
    let open = long_open();
    for part in open.chunks(20_000) {
        send(&mut peer, part)?;
        assert!(rt; scene.turns(8, 1).is_ok());
    }
    let name = str::from_utf8(open.get(25..279).unwrap_or(&[])).unwrap_or("");
    let line = format!(in host.alloc(); "connection 1: opened by {name:?}")?;
    assert_eq!(rt; scene.log.count(&line), 1);
    assert!(rt; scene.turns(24, 500).is_ok());
    let beats = times(&received(host.alloc(), &mut peer)?, EMPTY);
    assert!(rt; (6..=10).contains(&beats));
    Ok(())
}

/// Returns an open whose container-id is 150 times a character of two bytes. Its idle-time-out is 2,000 milliseconds,
/// and a property fills it up to 60,000 bytes.
fn long_open() -> [u8; 60_000] {
    let mut open = [b'x'; 60_000];
    open[..25].copy_from_slice(
        b"\x00\x00\xea\x60\x02\x00\x00\x00\x00\x53\x10\xd0\x00\x00\xea\x50\x00\x00\x00\x0a\xb1\x00\x00\x01\x2c",
    );
    for character in open[25..325].chunks_exact_mut(2) {
        character.copy_from_slice("é".as_bytes());
    }
    open[325..354].copy_from_slice(
        b"\x40\x40\x40\x70\x00\x00\x07\xd0\x40\x40\x40\x40\xd1\x00\x00\xe9\x0a\x00\x00\x00\x02\xa3\x01\x6b\xb1\x00\x00\xe8\xfe",
    );
    open
}

/// While its records are not taken, or not flushed, no peer is read, no answer is sent, and no time counts.
#[test]
fn a_sink_that_takes_nothing_holds_all_up(rt: HostRuntime) -> Result<(), Fail> {
    for taking in [Taking::Nothing, Taking::Unflushed] {
        holds_all_up_by(&rt, &rt, taking)?;
    }
    Ok(())
}

fn holds_all_up_by(rt: &impl Abort, host: &HostRuntime, taking: Taking) -> Result<(), Fail> {
    let store = RefCell::new(Store::new(host.alloc()));
    holds_all_up_in(rt, host, &store, &mut Scene::new(host, &store, 3)?, taking)?;
    assert_records(rt, &store.into_inner());
    Ok(())
}

fn holds_all_up_in(
    rt: &impl Abort,
    host: &HostRuntime,
    store: &RefCell<Store>,
    scene: &mut Stored<'_>,
    taking: Taking,
) -> Result<(), Fail> {
    let mut peer = scene.peer(host, STREAM.get(..DELIVERED).unwrap_or(&[]))?;
    set(store, taking);
    assert!(rt; scene.turns(4, 1).is_ok());
    send(&mut peer, CLOSE)?;
    assert!(rt; scene.turns(40, 1000).is_ok());
    assert_eq!(rt; (scene.gateway.open(), scene.log.count(": Closed")), (1, 0));
    set(store, Taking::All);
    assert!(rt; scene.turns(6, 1).is_ok());
    assert_eq!(rt; (scene.gateway.open(), scene.log.count(": Closed")), (0, 1));
    Ok(())
}

/// No sender hears of a record that is not written, not flushed or not on the disk, at whichever call the sink fails.
#[test]
fn a_sink_that_fails_ends_it(rt: HostRuntime) -> Result<(), Fail> {
    for calls in 0..6 {
        a_sink_that_fails_behind(&rt, &rt, calls)?;
    }
    Ok(())
}

fn a_sink_that_fails_behind(rt: &impl Abort, host: &HostRuntime, calls: usize) -> Result<(), Fail> {
    let store = RefCell::new(Store::new(host.alloc()));
    a_sink_that_fails_in(rt, host, &store, &mut Scene::new(host, &store, 3)?, calls)
}

fn a_sink_that_fails_in(
    rt: &impl Abort,
    host: &HostRuntime,
    store: &RefCell<Store>,
    scene: &mut Stored<'_>,
    calls: usize,
) -> Result<(), Fail> {
    let mut peer = scene.peer(host, STREAM.get(..ATTACHED).unwrap_or(&[]))?;
    fail_behind(store, calls);
    it_ends(rt, scene, &mut peer, calls)?;
    assert_eq!(rt; dispositions(host.alloc(), &mut peer)?, calls / 3);
    assert_eq!(rt; records_in(store)?, calls.saturating_add(1) / 3);
    Ok(())
}

fn it_ends(
    rt: &impl Abort,
    scene: &mut Stored<'_>,
    peer: &mut TcpStream,
    calls: usize,
) -> Result<(), Fail> {
    assert!(rt; scene.turns(4, 1).is_ok());
    send(peer, STREAM.get(ATTACHED..FIRST).unwrap_or(&[]))?;
    let first = scene.turns(4, 1);
    assert_eq!(rt; first.is_err(), calls < 3);
    send(peer, STREAM.get(FIRST..DELIVERED).unwrap_or(&[]))?;
    if first.is_ok() {
        assert_eq!(rt; scene.turns(4, 1), Err(GatewayFault::Sink));
    }
    assert_eq!(rt; (scene.gateway.open(), scene.log.count(": Sink")), (0, 1));
    Ok(())
}

/// After the time of grace it ends also where its records are not taken, or not flushed, and no sender hears of one.
#[test]
fn a_sink_that_takes_nothing_is_not_awaited_at_the_end(rt: HostRuntime) -> Result<(), Fail> {
    for (taking, sync) in [
        (Taking::Nothing, true),
        (Taking::Unflushed, true),
        (Taking::Unflushed, false),
    ] {
        is_not_awaited_by(&rt, &rt, taking, sync)?;
    }
    Ok(())
}

fn is_not_awaited_by(
    rt: &impl Abort,
    host: &HostRuntime,
    taking: Taking,
    sync: bool,
) -> Result<(), Fail> {
    let store = RefCell::new(Store::new(host.alloc()));
    is_not_awaited_in(
        rt,
        host,
        &store,
        &mut Scene::with(host, &store, 3, sync)?,
        taking,
    )
}

fn is_not_awaited_in(
    rt: &impl Abort,
    host: &HostRuntime,
    store: &RefCell<Store>,
    scene: &mut Stored<'_>,
    taking: Taking,
) -> Result<(), Fail> {
    let mut peer = scene.peer(host, STREAM.get(..DELIVERED).unwrap_or(&[]))?;
    set(store, taking);
    assert!(rt; scene.turns(4, 1).is_ok());
    scene.gateway.stop();
    assert!(rt; scene.turns(3, 500).is_ok());
    assert_eq!(rt; scene.turns(2, 500), Err(GatewayFault::Sink));
    assert!(rt; scene.gateway.is_done());
    assert_eq!(rt; scene.log.count(": Stopped"), 1);
    assert_eq!(rt; dispositions(host.alloc(), &mut peer)?, 0);
    Ok(())
}

/// A sink that takes a few bytes at a time gets all of them, in order, and no sender hears of any before.
#[test]
fn a_sink_that_takes_a_few_bytes_gets_all(rt: HostRuntime) -> Result<(), Fail> {
    let store = RefCell::new(Store::new(rt.alloc()));
    a_few_bytes_in(&rt, &rt, &store, &mut Scene::new(&rt, &store, 3)?)?;
    assert_records(&rt, &store.into_inner());
    Ok(())
}

fn a_few_bytes_in(
    rt: &impl Abort,
    host: &HostRuntime,
    store: &RefCell<Store>,
    scene: &mut Stored<'_>,
) -> Result<(), Fail> {
    let mut peer = scene.peer(host, STREAM)?;
    for _ in 0..7 {
        assert_eq!(rt; scene.log.count(": Closed"), 0);
        give_room(store, 8);
        assert!(rt; scene.turns(2, 1).is_ok());
    }
    assert!(rt; scene.turns(4, 1).is_ok());
    assert_eq!(rt; scene.log.count(": Closed"), 1);
    assert!(rt; hears_close(host.alloc(), &mut peer)?);
    Ok(())
}

/// A message without end, in frames of 60 bytes of it each.
const ENDLESS: &[u8] =
    b"\x00\x00\x00\x52\x02\x00\x00\x00\x00\x53\x14\xc0\x09\x06\x43\x43\xa0\x01\x74\x40\x40\x41............................................................";

const FURTHER: &[u8] =
    b"\x00\x00\x00\x50\x02\x00\x00\x00\x00\x53\x14\xc0\x07\x06\x43\x40\x40\x40\x40\x41............................................................";

/// A flow of the session that asks for one in answer.
const ECHO: &[u8] =
    b"\x00\x00\x00\x1a\x02\x00\x00\x00\x00\x53\x13\xc0\x0d\x0a\x43\x52\x64\x43\x52\x64\x40\x40\x40\x40\x40\x41";

/// Good peers get all that they are to get, whatever the others do, and each other ends as it is to.
#[test]
fn peers_of_all_kinds_are_served_at_once(rt: HostRuntime) -> Result<(), Fail> {
    let store = RefCell::new(Store::new(rt.alloc()));
    all_kinds_in(&rt, &rt, &mut Scene::new(&rt, &store, 16)?)
}

fn all_kinds_in(rt: &impl Abort, host: &HostRuntime, scene: &mut Stored<'_>) -> Result<(), Fail> {
    let mut good = peers(host, scene, &[STREAM; 4])?;
    let mut slow = scene.peer(host, &[])?;
    let _silent = scene.peer(host, b"AMQP\x00\x01\x00\x00")?;
    bad_ones_leave(rt, host, scene, &mut slow)?;
    good_ones_get_all(rt, host, scene, &mut good, &mut slow)?;
    each_other_ends(rt, scene);
    Ok(())
}

/// Returns a peer for each of these streams, which it has sent.
fn peers(
    host: &HostRuntime,
    scene: &Stored<'_>,
    streams: &[&[u8]],
) -> Result<Vec<TcpStream>, Fail> {
    let mut peers = Vec::new(host.alloc());
    for stream in streams {
        peers.push(scene.peer(host, stream)?)?;
    }
    Ok(peers)
}

/// Two peers send without end while a slow one sends its bytes, and then leave, as does one that breaks off.
fn bad_ones_leave(
    rt: &impl Abort,
    host: &HostRuntime,
    scene: &mut Stored<'_>,
    slow: &mut TcpStream,
) -> Result<(), Fail> {
    let attached = STREAM.get(..ATTACHED).unwrap_or(&[]);
    let mut endless = scene.peer(host, attached)?;
    let mut flood = scene.peer(host, attached)?;
    let _broken = scene.peer(host, STREAM.get(..DELIVERED - 4).unwrap_or(&[]))?;
    bad_ones_send(rt, scene, slow, &mut endless, &mut flood)
}

fn bad_ones_send(
    rt: &impl Abort,
    scene: &mut Stored<'_>,
    slow: &mut TcpStream,
    endless: &mut TcpStream,
    flood: &mut TcpStream,
) -> Result<(), Fail> {
    send(endless, ENDLESS)?;
    for byte in STREAM {
        send(slow, &[*byte])?;
        send(endless, FURTHER)?;
        send(flood, ECHO)?;
        assert!(rt; scene.turns(1, 1).is_ok());
        let peers = (scene.gateway.open() as u64).saturating_mul(scene.bound);
        assert!(rt; scene.gateway.held() <= peers.saturating_add(scene.records));
    }
    Ok(())
}

fn good_ones_get_all(
    rt: &impl Abort,
    host: &HostRuntime,
    scene: &mut Stored<'_>,
    good: &mut [TcpStream],
    slow: &mut TcpStream,
) -> Result<(), Fail> {
    assert!(rt; scene.turns(4, 1).is_ok());
    for peer in good {
        assert!(rt; hears_close(host.alloc(), peer)?);
    }
    assert!(rt; hears_close(host.alloc(), slow)?);
    assert_eq!(rt;
        (scene.log.count(": Closed"), scene.gateway.counts().messages),
        (5, 11)
    );
    Ok(())
}

fn each_other_ends(rt: &impl Abort, scene: &mut Stored<'_>) {
    assert_eq!(rt;
        scene
            .log
            .count("link 0 0 ended with amqp:link:message-size-exceeded"),
        1
    );
    assert!(rt; scene.turns(24, 500).is_ok());
    assert_eq!(rt; (scene.gateway.open(), scene.log.count(": Idle")), (0, 1));
}

/// A piece of many short frames is heard in several turns, in which another peer is served to its end.
#[test]
fn many_short_frames_are_heard_in_parts(rt: HostRuntime) -> Result<(), Fail> {
    let store = RefCell::new(Store::new(rt.alloc()));
    heard_in_parts_in(&rt, &rt, &mut Scene::new(&rt, &store, 3)?)
}

fn heard_in_parts_in(
    rt: &impl Abort,
    host: &HostRuntime,
    scene: &mut Stored<'_>,
) -> Result<(), Fail> {
    let mut flood = scene.peer(host, STREAM.get(..ATTACHED).unwrap_or(&[]))?;
    assert!(rt; scene.turns(2, 1).is_ok());
    send_flood(&mut flood)?;
    let _good = scene.peer(host, STREAM)?;
    assert!(rt; scene.turns(4, 1).is_ok());
    assert_eq!(rt;
        (
            scene.gateway.open(),
            scene.log.count("connection 2: Closed")
        ),
        (1, 1)
    );
    assert!(rt; scene.turns(6, 1).is_ok());
    assert_eq!(rt; scene.log.count("connection 1: Closed"), 1);
    Ok(())
}

/// Sends 400 empty frames at once, and a close.
fn send_flood(flood: &mut TcpStream) -> Result<(), Fail> {
    let mut bytes = [0; 3200];
    for frame in bytes.chunks_exact_mut(EMPTY.len()) {
        frame.copy_from_slice(EMPTY);
    }
    send(flood, &bytes)?;
    send(flood, CLOSE)?;
    Ok(())
}

#[test]
fn a_peer_too_many_waits(rt: HostRuntime) -> Result<(), Fail> {
    let store = RefCell::new(Store::new(rt.alloc()));
    too_many_in(&rt, &rt, &mut Scene::new(&rt, &store, 3)?)
}

fn too_many_in(rt: &impl Abort, host: &HostRuntime, scene: &mut Stored<'_>) -> Result<(), Fail> {
    let mut first = scene.peer(host, STREAM.get(..DELIVERED).unwrap_or(&[]))?;
    let attached = STREAM.get(..ATTACHED).unwrap_or(&[]);
    let _others = peers(host, scene, &[attached, b"AMQP\x00\x01\x00\x00", STREAM])?;
    the_fourth_waits(rt, scene, &mut first)
}

fn the_fourth_waits(
    rt: &impl Abort,
    scene: &mut Stored<'_>,
    first: &mut TcpStream,
) -> Result<(), Fail> {
    assert!(rt; scene.turns(6, 1).is_ok());
    assert_eq!(rt;
        (scene.gateway.open(), scene.gateway.counts().accepted),
        (3, 3)
    );
    send(first, CLOSE)?;
    assert!(rt; scene.turns(8, 1).is_ok());
    assert_eq!(rt; (scene.gateway.open(), scene.log.count(": Closed")), (2, 2));
    scene.gateway.stop();
    assert!(rt; scene.turns(6, 300).is_ok());
    assert!(rt; scene.gateway.is_done());
    assert_eq!(rt; scene.log.count(": Stopped"), 2);
    Ok(())
}

/// Returns how many records stand in a store.
fn records_in(store: &RefCell<Store>) -> Result<usize, Fail> {
    let store = store.try_borrow().ok().ok_or("in use")?;
    Ok(times(&store.bytes, RECORD))
}

/// A store takes this many bytes more.
fn give_room(store: &RefCell<Store>, room: usize) {
    if let Ok(mut store) = store.try_borrow_mut() {
        store.room = room;
    }
}

/// A store fails after this many calls.
fn fail_behind(store: &RefCell<Store>, calls: usize) {
    if let Ok(mut store) = store.try_borrow_mut() {
        store.calls = calls;
    }
}

/// What a store does from now on.
fn set(store: &RefCell<Store>, taking: Taking) {
    if let Ok(mut store) = store.try_borrow_mut() {
        store.taking = taking;
    }
}
