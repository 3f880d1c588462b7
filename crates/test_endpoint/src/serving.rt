//! Whole connections: what is read and written at once, and what is flushed before.
ghost use Rattle.std.specs.Prelude.{IsTrue};
ghost use Rattle.amqp_frame.specs.Devices.{has_failed};

use crate::devices::{Calls, Kept, NEVER, Source};
use amqp_endpoint::{Config, End, Endpoint};
use amqp_frame::{AtHand, Device, Direct, HoldsBack};
use amqp_perform::Outcome as Settlement;
use amqp_serve::{Policy, ServeFault, serve};
use std::alloc::{AllocError, Allocator, Global};
use std::cell::{Cell, RefCell};
use std::io::{self, BufReader, BufWriter, Read, Write};
use std::process::Abort;
use std::test::Fail;

/// The peer's header, open, begin and attach, two deliveries in one transfer each, and a close: 130 bytes.
pub const STREAM: &[u8] =
    b"\x41\x4d\x51\x50\x00\x01\x00\x00\x00\x00\x00\x11\x02\x00\x00\x00\x00\x53\x10\xc0\x04\x01\xa1\x01\x61\x00\x00\x00\x14\x02\x00\x00\x00\x00\x53\x11\xc0\x07\x04\x40\x43\x52\x64\x52\x64\x00\x00\x00\x20\x02\x00\x00\x00\x00\x53\x12\xc0\x13\x0a\xa1\x01\x6c\x43\x42\x40\x40\x00\x53\x28\x45\x00\x53\x29\x45\x40\x40\x43\x00\x00\x00\x14\x02\x00\x00\x00\x00\x53\x14\xc0\x06\x03\x43\x43\xa0\x01\x74\x78\x00\x00\x00\x15\x02\x00\x00\x00\x00\x53\x14\xc0\x07\x03\x43\x52\x01\xa0\x01\x74\x78\x00\x00\x00\x0c\x02\x00\x00\x00\x00\x53\x18\x45";

/// What is written: the header, the answers to open, begin and attach, a flow of one place of credit, and for each
/// message its disposition and a flow; then the close.
pub const WRITTEN: &[u8] =
    b"\x41\x4d\x51\x50\x00\x01\x00\x00\x00\x00\x00\x1a\x02\x00\x00\x00\x00\x53\x10\xc0\x0d\x04\xa1\x01\x72\x40\x70\x00\x00\x02\x00\x60\x00\x00\x00\x00\x00\x17\x02\x00\x00\x00\x00\x53\x11\xc0\x0a\x05\x60\x00\x00\x43\x52\x64\x43\x52\x01\x00\x00\x00\x22\x02\x00\x00\x00\x00\x53\x12\xc0\x15\x0b\xa1\x01\x6c\x43\x41\x40\x40\x00\x53\x28\x45\x00\x53\x29\x45\x40\x40\x40\x53\x0a\x00\x00\x00\x17\x02\x00\x00\x00\x00\x53\x13\xc0\x0a\x07\x43\x52\x64\x43\x43\x43\x43\x52\x01\x00\x00\x00\x16\x02\x00\x00\x00\x00\x53\x15\xc0\x09\x05\x41\x43\x40\x41\x00\x53\x24\x45\x00\x00\x00\x19\x02\x00\x00\x00\x00\x53\x13\xc0\x0c\x07\x52\x01\x52\x63\x43\x43\x43\x52\x01\x52\x01\x00\x00\x00\x17\x02\x00\x00\x00\x00\x53\x15\xc0\x0a\x05\x41\x52\x01\x40\x41\x00\x53\x24\x45\x00\x00\x00\x19\x02\x00\x00\x00\x00\x53\x13\xc0\x0c\x07\x52\x02\x52\x62\x43\x43\x43\x52\x02\x52\x01\x00\x00\x00\x0c\x02\x00\x00\x00\x00\x53\x18\x45";

/// The records of both messages.
pub const RECORDS: &[u8] =
    b"\x00\x00\x00\x00\x00\x00\x00\x00\x00\x00\x00\x00\x00\x00\x00\x00\x00\x01\x78\x00\x00\x00\x00\x00\x00\x00\x00\x00\x01\x00\x00\x00\x00\x00\x00\x00\x01\x78";

/// The bytes of each.
pub const RECORD: usize = 19;

/// The lengths of the stream at which a unit ends.
pub const ENDS: [usize; 7] = [8, 25, 45, 77, 97, 118, 130];

/// How much answers this many of its units.
const ANSWERS: [usize; 8] = [0, 8, 34, 57, 114, 161, 209, 221];

/// What is read of it where all is given that is requested: the header, and of each frame the four bytes of SIZE,
/// the four after them, and what is left.
const READS: [usize; 19] = [8, 4, 4, 9, 4, 4, 12, 4, 4, 24, 4, 4, 12, 4, 4, 13, 4, 4, 4];

/// Serves the front of the stream, with one place of credit.
fn serve_stream<R: AtHand + Drop, W: Write + HoldsBack + Drop>(
    alloc: Global,
    source: R,
    writer: W,
    sink: &mut Kept,
) -> Result<Result<End, ServeFault>, AllocError> {
    serve_over(
        alloc,
        &mut Device::new(source),
        &mut Device::new(writer),
        &mut Device::new(sink),
    )
}

/// Serves the front of the stream over these devices, with one place of credit.
fn serve_over<R: AtHand + Drop, W: Write + HoldsBack + Drop, S: Write + Drop>(
    alloc: Global,
    reader: &mut Device<R>,
    writer: &mut Device<W>,
    sink: &mut Device<S>,
) -> Result<Result<End, ServeFault>, AllocError>
    requires reader { ¬ (IsTrue (has_failed reader.old)) }
    requires writer { ¬ (IsTrue (has_failed writer.old)) }
    requires sink { ¬ (IsTrue (has_failed sink.old)) }
{
    let mut endpoint = Endpoint::new(alloc, config(alloc)?)?;
    Ok(serve(&mut endpoint, reader, writer, sink, one_by_one()))
}

/// Returns the container 'r', with frames of 512 bytes, channel 0, the handles 0 and 1, four deliveries of ten
/// bytes for a link, and a window of 100 places.
pub fn config<A: Allocator + Copy>(alloc: A) -> Result<Config<A>, AllocError> {
    let name = String::from_str(alloc, "r")?;
    Config::checked(name, 512, 0, 1, 4, 10, 100).ok_or(AllocError)
}

/// One place of credit at a time, and each message accepted.
pub fn one_by_one() -> Policy {
    Policy {
        credit: 1,
        outcome: Settlement::Accepted,
    }
}

/// Returns the stream, in pieces of this many bytes at most, with a failure at the read of this number.
fn stream_by(most: usize, failing: usize) -> Source<'static> {
    Source {
        rest: STREAM,
        most,
        calls: Calls::new(failing),
    }
}

/// Returns how many bytes answer this many units of the stream.
pub fn answers_to(units: usize) -> usize {
    ANSWERS.get(units).copied().unwrap_or(0)
}

/// Returns how many units end in this many bytes of the stream.
fn units_in(given: usize) -> usize {
    ENDS.iter().filter(|end| **end <= given).count()
}

/// After a reader that fails all that was read is recorded and answered, however much the sink and the writer
/// keep.
#[test]
fn what_was_read_is_recorded_and_answered(rt: HostRuntime) -> Result<(), Fail> {
    let mut given = 0_usize;
    for (read, count) in READS.iter().enumerate() {
        let (written, recorded) = kept_before(&rt, rt.alloc(), read)?;
        let units = units_in(given);
        let records = units.saturating_sub(4).saturating_mul(RECORD);
        let answers = WRITTEN.get(..answers_to(units));
        assert!(rt; Some(written.as_slice()) == answers, "{read}");
        assert!(rt;
            Some(recorded.as_slice()) == RECORDS.get(..records),
            "{read}"
        );
        given = given.saturating_add(*count);
    }
    Ok(())
}

/// Returns what is written and recorded through buffers where the read of this number fails.
fn kept_before(rt: &impl Abort, alloc: Global, read: usize) -> Result<(Vec<u8>, Vec<u8>), Fail> {
    let (mut written, mut recorded) = (Kept::all(alloc), Kept::all(alloc));
    let mut reader = Device::new(Direct::new(stream_by(NEVER, read)));
    let mut writer = Device::new(BufWriter::new(alloc, &mut written)?);
    let mut sink = Device::new(BufWriter::new(alloc, &mut recorded)?);
    let end = serve_over(alloc, &mut reader, &mut writer, &mut sink)?;
    let _ = writer.into_inner().into_parts(); // they flush nothing more
    let _ = sink.into_inner().into_parts();
    assert_eq!(rt; end, Err(ServeFault::Read), "{read}");
    Ok((written.bytes, recorded.bytes))
}

/// What a reader has at hand is served as what is read.
#[test]
fn what_is_at_hand_is_served_the_same(rt: HostRuntime) -> Result<(), Fail> {
    for room in [1, 3, 50, 8192] {
        for most in [1, 3, NEVER] {
            let mut writer = Kept::all(rt.alloc());
            let mut sink = Kept::all(rt.alloc());
            let reader = BufReader::with_capacity(rt.alloc(), room, stream_by(most, NEVER))?;
            let end = serve_stream(rt.alloc(), reader, Direct::new(&mut writer), &mut sink)?;
            assert_eq!(rt; end, Ok(End::Closed), "{room} {most}");
            assert!(rt; writer.bytes.as_slice() == WRITTEN, "{room} {most}");
            assert!(rt; sink.bytes.as_slice() == RECORDS, "{room} {most}");
        }
    }
    Ok(())
}

/// What reached the peer: how many bytes were written and flushed to it, and by how many writes.
#[derive(Drop)]
struct Wire {
    written: Cell<usize>,
    flushed: Cell<usize>,
    writes: Cell<usize>,
}

impl Wire {
    fn new() -> Wire {
        Wire {
            written: Cell::new(0),
            flushed: Cell::new(0),
            writes: Cell::new(0),
        }
    }
}

impl Write for &Wire {
    fn write(&mut self, buf: &[u8]) -> io::Result<usize> {
        self.written
            .set(self.written.get().saturating_add(buf.len()));
        self.writes.set(self.writes.get().saturating_add(1));
        Ok(buf.len())
    }

    fn flush(&mut self) -> io::Result<()> {
        self.flushed.set(self.written.get());
        Ok(())
    }
}

/// Gives at most this many bytes at a time, and only where all that answers what it gave before was flushed.
#[derive(Drop)]
struct Asker<'a> {
    given: usize,
    most: usize,
    wire: &'a Wire,
}

impl Read for Asker<'_> {
    fn read(&mut self, buf: &mut [u8]) -> io::Result<usize> {
        if answers_to(units_in(self.given)) != self.wire.flushed.get() {
            return Err(io::Error::from(io::ErrorKind::WouldBlock));
        }
        let rest = STREAM.get(self.given..).unwrap_or(&[]);
        let count = buf.len().min(rest.len()).min(self.most);
        buf[..count].copy_from_slice(&rest[..count]);
        self.given = self.given.saturating_add(count);
        Ok(count)
    }
}

/// Nothing waits in a writer that buffers while it reads, nor at the end.
#[test]
fn output_is_flushed_before_each_read(rt: HostRuntime) -> Result<(), Fail> {
    for most in [1, 3, NEVER] {
        for room in [0, 1, 16, 8192] {
            assert_flushed(&rt, rt.alloc(), most, room)?;
        }
    }
    Ok(())
}

fn asking<'a>(most: usize, wire: &'a Wire) -> Asker<'a> {
    Asker {
        given: 0,
        most,
        wire,
    }
}

fn assert_flushed(rt: &impl Abort, alloc: Global, most: usize, room: usize) -> Result<(), Fail> {
    let wire = Wire::new();
    let reader = Direct::new(asking(most, &wire));
    let writer = BufWriter::with_capacity(alloc, room, &wire)?;
    let end = serve_stream(alloc, reader, writer, &mut Kept::all(alloc))?;
    assert_eq!(rt; end, Ok(End::Closed), "{most} {room}");
    assert_eq!(rt; wire.flushed.get(), WRITTEN.len(), "{most} {room}");
    Ok(())
}

/// All that answers what one read brought goes out at once, and so do its records.
#[test]
fn what_a_read_brought_is_answered_by_one_write(rt: HostRuntime) -> Result<(), Fail> {
    for (most, writes, records) in [(4096, 1, 1), (65, 2, 1), (26, 5, 2)] {
        let (wire, recorded) = (Wire::new(), Wire::new());
        let end = serve_over(
            rt.alloc(),
            &mut Device::new(BufReader::new(rt.alloc(), asking(most, &wire))?),
            &mut Device::new(BufWriter::new(rt.alloc(), &wire)?),
            &mut Device::new(BufWriter::new(rt.alloc(), &recorded)?),
        )?;
        assert_eq!(rt; end, Ok(End::Closed), "{most}");
        let counted = (wire.writes.get(), recorded.writes.get());
        assert_eq!(rt; counted, (writes, records), "{most}");
    }
    Ok(())
}

/// Notes how long the room is that it reads into, and fills it.
#[derive(Drop)]
struct Filler<'a> {
    rest: &'a [u8],
    rooms: &'a RefCell<Vec<usize>>,
}

impl Read for Filler<'_> {
    fn read(&mut self, buf: &mut [u8]) -> io::Result<usize> {
        let Ok(mut rooms) = self.rooms.try_borrow_mut() else {
            return Err(io::Error::from(io::ErrorKind::Other));
        };
        if rooms.push(buf.len()).is_err() {
            return Err(io::Error::from(io::ErrorKind::OutOfMemory));
        }
        let count = buf.len().min(self.rest.len());
        buf[..count].copy_from_slice(&self.rest[..count]);
        self.rest = &self.rest[count..];
        Ok(count)
    }
}

/// No byte is read but of the unit that is due.
#[test]
fn each_read_wants_what_is_due(rt: HostRuntime) -> Result<(), Fail> {
    let rooms = RefCell::new(Vec::new(rt.alloc()));
    let source = Filler {
        rest: STREAM,
        rooms: &rooms,
    };
    let mut writer = Kept::all(rt.alloc());
    let mut sink = Kept::all(rt.alloc());
    let end = serve_stream(
        rt.alloc(),
        Direct::new(source),
        Direct::new(&mut writer),
        &mut sink,
    )?;
    assert_eq!(rt; end, Ok(End::Closed));
    assert_eq!(rt; rooms.into_inner().as_slice(), READS.as_slice());
    Ok(())
}

/// A buffer that has room for all is filled once, and each unit is acted upon where it lies, the first one too.
#[test]
fn a_buffer_is_filled_between_two_units(rt: HostRuntime) -> Result<(), Fail> {
    let rooms = RefCell::new(Vec::new(rt.alloc()));
    let source = Filler {
        rest: STREAM,
        rooms: &rooms,
    };
    let reader = BufReader::with_capacity(rt.alloc(), 8192, source)?;
    let mut writer = Kept::all(rt.alloc());
    let mut sink = Kept::all(rt.alloc());
    let end = serve_stream(rt.alloc(), reader, Direct::new(&mut writer), &mut sink)?;
    assert_eq!(rt; end, Ok(End::Closed));
    assert_eq!(rt; rooms.into_inner().as_slice(), [8192].as_slice());
    Ok(())
}

/// Fails at its first write, where what it was given before is lost.
#[derive(Drop)]
struct Broken;

impl Write for Broken {
    fn write(&mut self, _buf: &[u8]) -> io::Result<usize> {
        Err(io::Error::from(io::ErrorKind::BrokenPipe))
    }

    fn flush(&mut self) -> io::Result<()> {
        Ok(())
    }
}

/// No disposition leaves before the record that it answers. The first one answers 114 bytes of the peer's. If the
/// sink buffers and fails at its first write, the peer got those of them that a writer with this much room could
/// not keep: all, or all but the last 57, or none; and none if the sink failed at the flush before the second
/// read, which comes before the writer's.
#[test]
fn no_answer_leaves_before_its_record(rt: HostRuntime) -> Result<(), Fail> {
    for (most, room, sent) in [
        (4096, 0, 114),
        (4096, 1, 114),
        (4096, 22, 114),
        (4096, 64, 57),
        (4096, 8192, 0),
        (104, 8192, 0),
    ] {
        let wire = Wire::new();
        let end = over_a_broken_sink(rt.alloc(), most, room, &wire)?;
        assert_eq!(rt; end, Err(ServeFault::Sink), "{most} {room}");
        assert_eq!(rt; wire.written.get(), sent, "{most} {room}");
    }
    Ok(())
}

fn over_a_broken_sink(
    alloc: Global,
    most: usize,
    room: usize,
    wire: &Wire,
) -> Result<Result<End, ServeFault>, Fail> {
    let mut reader = Device::new(BufReader::new(alloc, stream_by(most, NEVER))?);
    let mut writer = Device::new(BufWriter::with_capacity(alloc, room, wire)?);
    let mut sink = Device::new(BufWriter::new(alloc, Broken)?);
    let end = serve_over(alloc, &mut reader, &mut writer, &mut sink)?;
    let _ = writer.into_inner().into_parts(); // what it holds back is thrown away
    Ok(end)
}
