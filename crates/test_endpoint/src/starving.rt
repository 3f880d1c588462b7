//! A connection that is served on after memory was refused: in the end it is as if memory had been ample.
ghost use Rattle.std.specs.Prelude.{IsTrue};
ghost use Rattle.amqp_frame.specs.Devices.{has_failed};

use crate::devices::{Calls, Kept, NEVER, Source};
use crate::peer::OPENING;
use crate::serving::{config, one_by_one};
use amqp_endpoint::{End, Endpoint};
use amqp_frame::{AtHand, Device, Direct, HoldsBack};
use amqp_serve::{ServeFault, serve};
use std::alloc::{AllocError, Global};
use std::io::{BufReader, Write};
use std::process::Abort;
use std::test::Fail;
use test_heap::TestHeap;

/// What the peer sends after its opening: an attach at handle 1, three messages in two transfers each, of which
/// the first two come turn about on both links, and a close.
const MESSAGES: [&[u8]; 8] = [
    b"\x00\x00\x00\x21\x02\x00\x00\x00\x00\x53\x12\xc0\x14\x0a\xa1\x01m\x52\x01\x42\x40\x40\x00\x53\x28\x45\x00\x53\x29\x45\x40\x40\x43",
    b"\x00\x00\x00\x19\x02\x00\x00\x00\x00\x53\x14\xc0\x09\x06\x43\x43\xa0\x01t\x40\x40\x41abc",
    b"\x00\x00\x00\x1a\x02\x00\x00\x00\x00\x53\x14\xc0\x0b\x06\x52\x01\x52\x01\xa0\x01u\x40\x40\x41fg",
    b"\x00\x00\x00\x11\x02\x00\x00\x00\x00\x53\x14\xc0\x02\x01\x43de",
    b"\x00\x00\x00\x11\x02\x00\x00\x00\x00\x53\x14\xc0\x03\x01\x52\x01h",
    b"\x00\x00\x00\x18\x02\x00\x00\x00\x00\x53\x14\xc0\x0a\x06\x43\x52\x02\xa0\x01v\x40\x40\x41i",
    b"\x00\x00\x00\x10\x02\x00\x00\x00\x00\x53\x14\xc0\x02\x01\x43j",
    b"\x00\x00\x00\x0c\x02\x00\x00\x00\x00\x53\x18\x45",
];

/// The records of the three.
const RECORDS: &[u8] =
    b"\x00\x00\x00\x00\x00\x00\x00\x00\x00\x00\x00\x00\x00\x00\x00\x00\x00\x05abcde\
    \x00\x00\x00\x00\x00\x01\x00\x00\x00\x01\x00\x00\x00\x00\x00\x00\x00\x03fgh\
    \x00\x00\x00\x00\x00\x00\x00\x00\x00\x02\x00\x00\x00\x00\x00\x00\x00\x02ij";

/// How often a connection is served on at most.
const TRIES: u64 = 100;

/// An endpoint whose heap refuses requests.
type Refused<'a> = Endpoint<&'a TestHeap<Global>>;

/// Which requests are refused after the first one that is.
#[derive(Clone, Copy, Debug)]
enum Again {
    Never,
    /// Whenever it is served on, one that comes later than the one before did: so what a unit wants is given in the end.
    Later,
}

/// The number of the first request that is refused, and which others are.
#[derive(Clone, Copy, Debug)]
struct Refusal {
    first: u64,
    again: Again,
}

impl Refusal {
    /// Returns the number of the next one, from where it is served on after this many others; 0 if there is none.
    fn next(self, refused: u64) -> u64 {
        match self.again {
            Again::Never => 0,
            Again::Later => self.first.saturating_add(refused).saturating_add(1),
        }
    }
}

/// The result of a connection that was served to its end.
#[derive(Debug, PartialEq, Eq, Drop)]
struct Served {
    end: End,
    written: Vec<u8>,
    recorded: Vec<u8>,
}

/// Returns all that the peer sends.
fn stream(alloc: Global) -> Result<Vec<u8>, AllocError> {
    let mut bytes = Vec::new(alloc);
    append(&mut bytes, &OPENING)?;
    append(&mut bytes, &MESSAGES)?;
    Ok(bytes)
}

fn append(bytes: &mut Vec<u8>, units: &[&[u8]]) -> Result<(), AllocError> {
    for unit in units {
        bytes.extend_from_slice(unit)?;
    }
    Ok(())
}

/// Serves a new endpoint to the end of the stream, by a reader that has a buffer of this many bytes. Its heap
/// refuses nothing before. Answers too how often memory was refused.
fn serve_refused(
    rt: &impl Abort,
    alloc: Global,
    heap: &TestHeap<Global>,
    room: usize,
    refusal: Refusal,
) -> Result<(Served, u64), Fail> {
    let mut endpoint = Endpoint::new(heap, config(heap)?)?;
    serve_by(rt, alloc, heap, &mut endpoint, room, refusal)
}

/// Serves this endpoint so.
// The body borrows what it uses: one that may drop it at each exit takes minutes to prove.
fn serve_by(
    rt: &impl Abort,
    alloc: Global,
    heap: &TestHeap<Global>,
    endpoint: &mut Refused<'_>,
    room: usize,
    refusal: Refusal,
) -> Result<(Served, u64), Fail> {
    let (stream, calls) = (stream(alloc)?, Calls::new(NEVER));
    let source = Source {
        rest: &stream,
        most: NEVER,
        calls,
    };
    let (mut written, mut recorded) = (Kept::all(alloc), Kept::all(alloc));
    heap.restart(refusal.first);
    let (end, refused) = serve_on(
        rt,
        heap,
        endpoint,
        &mut Device::new(BufReader::with_capacity(alloc, room, source)?),
        &mut Device::new(Direct::new(&mut written)),
        &mut Device::new(&mut recorded),
        refusal,
    )?;
    let served = Served {
        end,
        written: written.bytes,
        recorded: recorded.bytes,
    };
    Ok((served, refused))
}

/// Serves it, and serves it on each time that memory was refused.
fn serve_on<R: AtHand + Drop, W: Write + HoldsBack + Drop, S: Write + Drop>(
    rt: &impl Abort,
    heap: &TestHeap<Global>,
    endpoint: &mut Refused<'_>,
    reader: &mut Device<R>,
    writer: &mut Device<W>,
    sink: &mut Device<S>,
    refusal: Refusal,
) -> Result<(End, u64), Fail>
    requires reader { ¬ (IsTrue (has_failed reader.old)) }
    requires writer { ¬ (IsTrue (has_failed writer.old)) }
    requires sink { ¬ (IsTrue (has_failed sink.old)) }
{
    for refused in 0..TRIES {
        match serve(endpoint, reader, writer, sink, one_by_one()) {
            Ok(end) => return Ok((end, refused)),
            Err(ServeFault::NoMemory) => {
                assert_starved(rt, endpoint);
                heap.restart(refusal.next(refused));
            }
            Err(_) => return Err(Fail::from("a device failed")),
        }
    }
    Err(Fail::from("memory is refused without end"))
}

/// Asserts that a unit waits, but nothing to be sent, and no message to be taken.
fn assert_starved(rt: &impl Abort, endpoint: &Refused<'_>) {
    assert!(rt; !endpoint.is_between() && !endpoint.is_over());
    assert!(rt; endpoint.unsent_front().is_empty());
    for handle in 0..2 {
        if let Some(link) = endpoint.link(0, handle) {
            assert_eq!(rt; link.ready, 0, "{handle}");
        }
    }
}

/// Serves one whose heap refuses nothing.
fn serve_amply(rt: &impl Abort, alloc: Global, room: usize) -> Result<Served, Fail> {
    let none = Refusal {
        first: 0,
        again: Again::Never,
    };
    let (ample, refused) = serve_refused(rt, alloc, &TestHeap::new(alloc, 0), room, none)?;
    assert_eq!(rt; (ample.end, refused), (End::Closed, 0), "{room}");
    assert!(rt; ample.recorded.as_slice() == RECORDS, "{room}");
    Ok(ample)
}

/// Refuses each request in turn until there is none of that number, and returns how many there were.
fn refuse_each(
    rt: &impl Abort,
    alloc: Global,
    room: usize,
    again: Again,
    ample: &Served,
) -> Result<u64, Fail> {
    for first in 1..100 {
        let heap = TestHeap::new(alloc, 0);
        let refusal = Refusal { first, again };
        let (served, refused) = serve_refused(rt, alloc, &heap, room, refusal)?;
        assert!(rt; served == *ample, "{room} {refusal:?}");
        assert_eq!(rt; heap.live(), 0, "{room} {refusal:?}");
        if refused == 0 {
            return Ok(first.saturating_sub(1));
        }
    }
    Err(Fail::from("too many requests"))
}

/// Asked for are the session; the table of handles, and for each link its name, source, target and itself; for the first delivery
/// of a link its place, in two parts; for each its first bytes and more room for the others; and the index where two are open.
#[test]
fn refusals_leave_no_trace(rt: HostRuntime) -> Result<(), Fail> {
    for (room, again) in [
        (1, Again::Never),
        (1, Again::Later),
        (50, Again::Never),
        (50, Again::Later),
        (8192, Again::Never),
        (8192, Again::Later),
    ] {
        let ample = serve_amply(&rt, rt.alloc(), room)?;
        let requests = refuse_each(&rt, rt.alloc(), room, again, &ample)?;
        assert_eq!(rt; requests, 1 + 5 + 4 + 4 + 5 + 2, "{room} {again:?}");
    }
    Ok(())
}
