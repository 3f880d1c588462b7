//! An admission that is asked before a link gets credit.

use crate::scene::{ATTACHED, DELIVERED, EMPTY, STREAM, Scene, Shared, Store, heard, send, times};
use amqp_endpoint::Endpoint;
use amqp_gateway::{Admission, Outlet, Verdict};
use amqp_reason::{Reason, conditions};
use std::cell::{Cell, RefCell};
use std::process::Abort;
use std::test::Fail;

/// Where the attach of a stream begins.
const ATTACH: usize = 45;

/// The same attach, of a link `m` at handle 1.
const ATTACH_M: &[u8] =
    b"\x00\x00\x00\x21\x02\x00\x00\x00\x00\x53\x12\xc0\x14\x0a\xa1\x01\x6d\x52\x01\x42\x40\x40\x00\x53\x28\x45\x00\x53\x29\x45\x40\x40\x43";

/// A detach of handle 0 with closed true [2.7.7].
const DETACH: &[u8] = b"\x00\x00\x00\x10\x02\x00\x00\x00\x00\x53\x16\xc0\x03\x02\x43\x41";

/// The detaches of handles 0 and 1, with closed true and the error `amqp:not-found` [2.8.14].
const REFUSED: &[u8] =
    b"\x00\x53\x16\xc0\x19\x03\x43\x41\x00\x53\x1d\xc0\x11\x01\xa3\x0eamqp:not-found";

const REFUSED_M: &[u8] =
    b"\x00\x53\x16\xc0\x1a\x03\x52\x01\x41\x00\x53\x1d\xc0\x11\x01\xa3\x0eamqp:not-found";

/// With which a flow begins [2.7.4].
const FLOW: &[u8] = b"\x00\x53\x13";

/// Flows of handle 0 after no, one and two deliveries: windows of 100, 99 and 98 places, and a credit of 2.
const FIRST_CREDIT: &[u8] = b"\x00\x53\x13\xc0\x0a\x07\x43\x52\x64\x43\x43\x43\x43\x52\x02";

const SECOND_CREDIT: &[u8] =
    b"\x00\x53\x13\xc0\x0c\x07\x52\x01\x52\x63\x43\x43\x43\x52\x01\x52\x02";

const THIRD_CREDIT: &[u8] = b"\x00\x53\x13\xc0\x0c\x07\x52\x02\x52\x62\x43\x43\x43\x52\x02\x52\x02";

/// Admits links of one name, with so much credit.
#[derive(Drop)]
struct OneName<'a> {
    name: &'a [u8],
    most: &'a Cell<u32>,
}

impl Admission for OneName<'_> {
    fn verdict(&mut self, endpoint: &Endpoint, channel: u16, handle: u32) -> Verdict<'_> {
        match endpoint.link(channel, handle) {
            Some(link) if link.name == self.name => Verdict::Admit {
                most: self.most.get(),
            },
            _ => Verdict::Refuse(Reason::new(conditions::NOT_FOUND)),
        }
    }
}

type Asking<'a> = Scene<Outlet<Shared<'a>>, OneName<'a>>;

fn asking<'a>(
    rt: &HostRuntime,
    store: &'a RefCell<Store>,
    name: &'a [u8],
    most: &'a Cell<u32>,
) -> Result<Asking<'a>, Fail> {
    let keeper = Outlet::new(rt.alloc(), Shared(store), true);
    Scene::by(rt, keeper, OneName { name, most }, 3, 512)
}

/// Returns how often a peer is sent a flow.
fn flows(came: &[u8]) -> usize {
    times(came, FLOW)
}

/// One that is admitted gets its credit, and what it lacks of it once at most half is left.
#[test]
fn an_admitted_link_gets_credit(rt: HostRuntime) -> Result<(), Fail> {
    let store = RefCell::new(Store::new(rt.alloc()));
    let most = Cell::new(2);
    gets_credit_in(&rt, &rt, &mut asking(&rt, &store, b"l", &most)?)
}

fn gets_credit_in(rt: &impl Abort, host: &HostRuntime, scene: &mut Asking<'_>) -> Result<(), Fail> {
    let mut peer = scene.peer(host, STREAM.get(..ATTACHED).unwrap_or(&[]))?;
    assert!(rt; scene.turns(4, 1).is_ok());
    let came = heard(host.alloc(), &mut peer)?;
    assert_eq!(rt; (flows(&came), times(&came, FIRST_CREDIT)), (1, 1));
    send(&mut peer, STREAM.get(ATTACHED..DELIVERED).unwrap_or(&[]))?;
    assert!(rt; scene.turns(4, 1).is_ok());
    let came = heard(host.alloc(), &mut peer)?;
    assert_eq!(rt;
        (
            flows(&came),
            times(&came, SECOND_CREDIT),
            times(&came, THIRD_CREDIT)
        ),
        (2, 1, 1)
    );
    Ok(())
}

/// One that is refused is told why and gets no credit, and the others go on.
#[test]
fn a_refused_link_is_told_why(rt: HostRuntime) -> Result<(), Fail> {
    let store = RefCell::new(Store::new(rt.alloc()));
    let most = Cell::new(2);
    told_why_in(&rt, &rt, &mut asking(&rt, &store, b"l", &most)?)
}

fn told_why_in(rt: &impl Abort, host: &HostRuntime, scene: &mut Asking<'_>) -> Result<(), Fail> {
    let mut peer = scene.peer(host, STREAM.get(..ATTACHED).unwrap_or(&[]))?;
    assert!(rt; scene.turns(4, 1).is_ok());
    let _ = heard(host.alloc(), &mut peer)?;
    send(&mut peer, ATTACH_M)?;
    assert!(rt; scene.turns(4, 1).is_ok());
    let came = heard(host.alloc(), &mut peer)?;
    assert_eq!(rt; (flows(&came), times(&came, REFUSED_M)), (0, 1));
    let line = "connection 1: link 0 1 refused with amqp:not-found";
    assert_eq!(rt; scene.log.count(line), 1);
    send(&mut peer, STREAM.get(ATTACHED..DELIVERED).unwrap_or(&[]))?;
    assert!(rt; scene.turns(4, 1).is_ok());
    assert_eq!(rt; flows(&heard(host.alloc(), &mut peer)?), 2);
    Ok(())
}

/// Of 120 links that are refused one after the other, 100 are told on standard error.
#[test]
fn refusals_without_end_fill_no_log(rt: HostRuntime) -> Result<(), Fail> {
    let store = RefCell::new(Store::new(rt.alloc()));
    let most = Cell::new(2);
    fill_no_log_in(&rt, &rt, &mut asking(&rt, &store, b"x", &most)?)
}

fn fill_no_log_in(rt: &impl Abort, host: &HostRuntime, scene: &mut Asking<'_>) -> Result<(), Fail> {
    let mut peer = scene.peer(host, STREAM.get(..ATTACH).unwrap_or(&[]))?;
    let mut refused = 0usize;
    for _ in 0..120 {
        send(&mut peer, STREAM.get(ATTACH..ATTACHED).unwrap_or(&[]))?;
        send(&mut peer, DETACH)?;
        assert!(rt; scene.turns(2, 1).is_ok());
        refused = refused.saturating_add(times(&heard(host.alloc(), &mut peer)?, REFUSED));
    }
    assert!(rt; scene.turns(4, 1).is_ok());
    refused = refused.saturating_add(times(&heard(host.alloc(), &mut peer)?, REFUSED));
    let told = scene.log.count(" refused with amqp:not-found");
    let rest = scene.log.count(": what else is ended is not told");
    assert_eq!(rt; (refused, told, rest), (120, 100, 1));
    Ok(())
}

/// What it says counts when it is asked next: here after an empty frame.
#[test]
fn an_admission_is_asked_again(rt: HostRuntime) -> Result<(), Fail> {
    let store = RefCell::new(Store::new(rt.alloc()));
    let most = Cell::new(0);
    asked_again_in(&rt, &rt, &mut asking(&rt, &store, b"l", &most)?, &most)
}

fn asked_again_in(
    rt: &impl Abort,
    host: &HostRuntime,
    scene: &mut Asking<'_>,
    most: &Cell<u32>,
) -> Result<(), Fail> {
    let mut peer = scene.peer(host, STREAM.get(..ATTACHED).unwrap_or(&[]))?;
    assert!(rt; scene.turns(4, 1).is_ok());
    assert_eq!(rt; flows(&heard(host.alloc(), &mut peer)?), 0);
    most.set(2);
    send(&mut peer, EMPTY)?;
    assert!(rt; scene.turns(4, 1).is_ok());
    let came = heard(host.alloc(), &mut peer)?;
    assert_eq!(rt; (flows(&came), times(&came, FIRST_CREDIT)), (1, 1));
    Ok(())
}
