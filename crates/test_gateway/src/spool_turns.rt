//! Peers and a gateway with a spool, by turns.

use crate::full_disk::Disk;
use crate::scene::{
    ATTACHED, DELIVERED, DISPOSITION, EMPTY, FIRST, RECORD, RECORDS, STREAM, Scene, heard, send,
    times,
};
use amqp_gateway::HeldUp;
use amqp_spool::{Dir, Spool};
use amqp_spool_keeper::SpoolKeeper;
use std::cell::Cell;
use std::fs;
use std::io::{self, ErrorKind};
use std::net::TcpStream;
use std::process::Abort;
use std::random::RandomSource;
use std::rc::Rc;
use std::test::Fail;
use std::time::{Clock, Duration};

/// How many bytes a record of these tests has at most with its introduction: messages have at most 100.
const ROOM: u32 = 2_023;

/// A clock whose time goes on by a second at each look, and a source of bytes that are all the same.
#[derive(Drop)]
struct Ticks<T: Drop> {
    seconds: Cell<u64>,
    kept: T,
}

impl<T: Drop> Clock for Ticks<T> {
    fn monotonic(&self) -> io::Result<Duration> {
        let seconds = self.seconds.get().saturating_add(1);
        self.seconds.set(seconds);
        Ok(Duration::from_secs(seconds))
    }

    fn since_1970(&self) -> io::Result<Duration> {
        self.monotonic()
    }
}

impl<T: Drop> RandomSource for Ticks<T> {
    fn fill_bytes(&self, buf: &mut [u8]) -> io::Result<()> {
        buf.fill(7);
        Ok(())
    }
}

/// Returns how many dispositions came to a peer.
fn answered(host: &HostRuntime, peer: &mut TcpStream) -> io::Result<usize> {
    Ok(times(&heard(host.alloc(), peer)?, DISPOSITION))
}

type Spooled = Scene<SpoolKeeper<Ticks<()>, Dir<Disk<HostRuntime>>>>;

/// Returns a gateway with a spool in a directory that is made anew, on a disk that may be full. Its segments have at most
/// so many bytes, and credit is granted while so many are free.
fn spooled(
    rt: HostRuntime,
    is_full: &Rc<Cell<bool>>,
    path: &str,
    limit: u64,
    reserve: u64,
) -> Result<Spooled, Fail> {
    let _ = fs::remove_dir_all(&rt, path);
    let alloc = rt.alloc();
    let disk = Disk {
        rt,
        is_full: is_full.clone()?,
    };
    let dir = Dir::open(disk, alloc, path, *b"0123456789abcdef")?;
    let spool = Spool::new(dir, alloc, *b"0123456789abcdef", 8192, limit, 4096);
    let mut spool = spool.ok().ok_or("no spool")?;
    spool.start([1; 16]).ok().ok_or("not started")?;
    let ticks = Ticks {
        seconds: Cell::new(0),
        kept: (),
    };
    let keeper = SpoolKeeper::new(ticks, alloc, spool, ROOM, reserve);
    Scene::of(&rt, keeper, 3, 512)
}

/// Returns how many records a directory has in its first segment, by their bytes.
fn records_in(rt: &HostRuntime, path: &str) -> Result<usize, Fail> {
    let segment = format!(in rt.alloc(); "{path}/00000000000000000001.seg")?;
    let bytes = fs::read(rt, segment.as_str())?;
    Ok(times(&bytes, RECORD))
}

/// Each record is in a segment before its sender hears of it, after who sent it: connection 1 from its address, the
/// container `a`, the link `l`, no user and a target without an address.
#[test]
fn a_record_says_who_sent_it(rt: HostRuntime) -> Result<(), Fail> {
    let path = "says_who_sent_it";
    let is_full = Rc::new(rt.alloc(), Cell::new(false))?;
    let mut scene = spooled(rt, &is_full, path, 100_000, 0)?;
    says_who_in(&rt, &rt, &mut scene, path)?;
    fs::remove_dir_all(&rt, path)?;
    Ok(())
}

fn says_who_in(
    rt: &impl Abort,
    host: &HostRuntime,
    scene: &mut Spooled,
    path: &str,
) -> Result<(), Fail> {
    let mut peer = scene.peer(host, STREAM.get(..DELIVERED).unwrap_or(&[]))?;
    assert!(rt; scene.turns(4, 1).is_ok());
    assert_eq!(rt; answered(host, &mut peer)?, 2);
    assert_eq!(rt; records_in(host, path)?, 2);
    let address = peer.local_addr()?;
    let address = format!(in host.alloc(); "{address}")?;
    let segment = fs::read(host, "says_who_sent_it/00000000000000000001.seg")?;
    let mut said = Vec::from_slice(host.alloc(), b"\x01\0\0\0\0\0\0\0\0\0\0\0\x01")?;
    said.push(u8::try_from(address.len()).unwrap_or(u8::MAX))?;
    said.extend_from_slice(address.as_bytes())?;
    said.extend_from_slice(b"\x01a\x01l\0\x02\0\0\x02\0\0\0\0\x01t")?;
    said.extend_from_slice(RECORDS.get(..19).unwrap_or(&[]))?;
    assert_eq!(rt; times(&segment, &said), 1);
    Ok(())
}

/// While the disk is full nobody hears of a record, and the peers are there: they get empty frames. Once it has room
/// all goes on by itself.
#[test]
fn a_full_disk_is_waited_for(rt: HostRuntime) -> Result<(), Fail> {
    let path = "full_disk";
    let is_full = Rc::new(rt.alloc(), Cell::new(false))?;
    let mut scene = spooled(rt, &is_full, path, 100_000, 0)?;
    waits_for_room_in(&rt, &rt, &mut scene, &is_full, path)?;
    fs::remove_dir_all(&rt, path)?;
    Ok(())
}

fn waits_for_room_in(
    rt: &impl Abort,
    host: &HostRuntime,
    scene: &mut Spooled,
    is_full: &Cell<bool>,
    path: &str,
) -> Result<(), Fail> {
    let mut other = scene.peer(host, &with_time_out()?)?;
    let mut peer = scene.peer(host, STREAM.get(..ATTACHED).unwrap_or(&[]))?;
    assert!(rt; scene.turns(4, 1).is_ok());
    let _ = heard(host.alloc(), &mut other)?;
    is_full.set(true);
    send(&mut peer, STREAM.get(ATTACHED..FIRST).unwrap_or(&[]))?;
    let mut late = scene.peer(host, &with_time_out()?)?;
    assert!(rt; scene.turns(40, 1_000).is_ok());
    assert!(rt; heard(host.alloc(), &mut late)?.is_empty()); // nothing comes before the header
    assert_eq!(rt; scene.gateway.held_up(), Some(HeldUp::Records));
    assert_eq!(rt; (answered(host, &mut peer)?, scene.gateway.open()), (0, 3));
    assert!(rt; times(&heard(host.alloc(), &mut other)?, EMPTY) >= 10);
    is_full.set(false);
    assert!(rt; scene.turns(4, 250).is_ok());
    assert_eq!(rt; scene.gateway.held_up(), None);
    assert!(rt; heard(host.alloc(), &mut late)?.starts_with(b"AMQP"));
    assert_eq!(rt;
        (answered(host, &mut peer)?, records_in(host, path)?),
        (1, 1)
    );
    Ok(())
}

/// A peer's header and its open with an idle-time-out of 2,000 milliseconds.
fn with_time_out() -> Result<[u8; 33], Fail> {
    Ok(
        *b"AMQP\0\x01\0\0\0\0\0\x19\x02\0\0\0\0\x53\x10\xc0\x0c\x05\xa1\x01b\x40\x40\x40\x70\0\0\x07\xd0",
    )
}

/// Without room for what credit may bring links get none, and what they had credit for is taken.
#[test]
fn without_room_links_get_no_credit(rt: HostRuntime) -> Result<(), Fail> {
    let path = "no_credit";
    let is_full = Rc::new(rt.alloc(), Cell::new(false))?;
    let mut scene = spooled(rt, &is_full, path, 100_000, 100_000)?;
    gets_no_credit_in(&rt, &rt, &mut scene)?;
    fs::remove_dir_all(&rt, path)?;
    Ok(())
}

fn gets_no_credit_in(rt: &impl Abort, host: &HostRuntime, scene: &mut Spooled) -> Result<(), Fail> {
    let mut peer = scene.peer(host, STREAM.get(..ATTACHED).unwrap_or(&[]))?;
    assert!(rt; scene.turns(4, 1).is_ok());
    assert_eq!(rt; scene.gateway.held_up(), Some(HeldUp::Credit));
    let came = heard(host.alloc(), &mut peer)?;
    assert_eq!(rt;
        (times(&came, b"\0\x53\x12"), times(&came, b"\0\x53\x13")),
        (1, 0)
    );
    Ok(())
}
