//! One call of a device fails, each in turn, where bytes go whole, in threes or one by one.

use crate::devices::{Calls, Kept, NEVER, Source};
use crate::serving::{ENDS, RECORD, RECORDS, STREAM, WRITTEN, answers_to, config, one_by_one};
use amqp_endpoint::{End, Endpoint};
use amqp_frame::{Device, Direct};
use amqp_serve::{ServeFault, serve};
use std::alloc::Global;
use std::process::Abort;
use std::test::Fail;

/// A device, and the fault that tells of its failure.
#[derive(Clone, Copy, Debug, PartialEq, Eq)]
enum Failing {
    Reader,
    Writer,
    Sink,
}

/// The call that fails, and how many bytes go at a time.
#[derive(Clone, Copy, Debug)]
struct Failure {
    device: Failing,
    call: usize,
    most: usize,
}

impl Failure {
    /// The number of the call, if it is one of this device.
    fn of(self, device: Failing) -> usize {
        if self.device == device {
            self.call
        } else {
            NEVER
        }
    }

    fn fault(self) -> ServeFault {
        match self.device {
            Failing::Reader => ServeFault::Read,
            Failing::Writer => ServeFault::Write,
            Failing::Sink => ServeFault::Sink,
        }
    }
}

/// How often a device is called in all. The header is read at once, and of a frame the four bytes of SIZE, the
/// four after them, and what is left. The writer is flushed eight times, at first, at its end, and before six of
/// the reads, and takes the header and nine frames; the sink is flushed at first and after each record, which it
/// takes in two parts.
#[test]
fn each_call_of_each_device_fails_once(rt: HostRuntime) -> Result<(), Fail> {
    for (most, reads, writes, records) in [(1, 130, 229, 41), (3, 53, 86, 17), (NEVER, 19, 18, 7)] {
        assert_fails(&rt, rt.alloc(), Failing::Reader, most, reads)?;
        assert_fails(&rt, rt.alloc(), Failing::Writer, most, writes)?;
        assert_fails(&rt, rt.alloc(), Failing::Sink, most, records)?;
    }
    Ok(())
}

/// Asserts that a device fails at each of this many calls, and is called no more often.
fn assert_fails(
    rt: &impl Abort,
    alloc: Global,
    device: Failing,
    most: usize,
    calls: usize,
) -> Result<(), Fail> {
    for call in 0..calls.saturating_add(1) {
        let failure = Failure { device, call, most };
        let wanted = if call < calls {
            Err(failure.fault())
        } else {
            Ok(End::Closed)
        };
        assert_served(rt, alloc, failure, wanted)?;
    }
    Ok(())
}

/// Serves the stream with a failure. What was written and recorded begins what would be, and is all of it if
/// nothing failed; after a record that failed no answer to it was written.
fn assert_served(
    rt: &impl Abort,
    alloc: Global,
    failure: Failure,
    wanted: Result<End, ServeFault>,
) -> Result<(), Fail> {
    let mut endpoint = Endpoint::new(alloc, config(alloc)?)?;
    let mut reader = Device::new(Direct::new(Source {
        rest: STREAM,
        most: failure.most,
        calls: Calls::new(failure.of(Failing::Reader)),
    }));
    let mut written = Kept::failing(alloc, failure.most, failure.of(Failing::Writer));
    let mut recorded = Kept::failing(alloc, failure.most, failure.of(Failing::Sink));
    let end = serve(
        &mut endpoint,
        &mut reader,
        &mut Device::new(Direct::new(&mut written)),
        &mut Device::new(&mut recorded),
        one_by_one(),
    );
    assert_eq!(rt; end, wanted, "{failure:?}");
    assert!(rt;
        is_kept(end, &written.bytes, &recorded.bytes),
        "{failure:?}"
    );
    if end.is_err() {
        let rest = reader.into_inner().into_inner().rest;
        let read = STREAM.len().saturating_sub(rest.len());
        assert_left(rt, &mut endpoint, failure, read);
    }
    Ok(())
}

/// Returns whether this begins what is written and recorded in all, is all of it if nothing failed, and has no
/// answer whose record the sink does not have.
fn is_kept(end: Result<End, ServeFault>, written: &[u8], recorded: &[u8]) -> bool {
    if !WRITTEN.starts_with(written) || !RECORDS.starts_with(recorded) {
        return false;
    }
    let records = recorded.len() / RECORD;
    match end {
        Ok(_) => written.len() == WRITTEN.len() && recorded.len() == RECORDS.len(),
        Err(ServeFault::Sink) => written.len() <= answers_to(4_usize.saturating_add(records)),
        Err(_) => true,
    }
}

/// Asserts what an endpoint still answers after a failure, where this many bytes of the stream were read: it holds
/// no more than may be held, and was given all of them; then it holds what was not written, which is nothing if
/// the reader failed.
fn assert_left(rt: &impl Abort, endpoint: &mut Endpoint, failure: Failure, read: usize) {
    assert!(rt;
        endpoint.held() <= 512 + 8192 + 64 + (1407 + 4 * (10 + 96)),
        "{failure:?}"
    );
    assert_eq!(rt; endpoint.finish(), end_at(read), "{failure:?}");
    let most = if failure.device == Failing::Reader {
        0
    } else {
        8192
    };
    assert!(rt; endpoint.held() <= most, "{failure:?}");
}

/// How the connection stands once this many bytes of the stream came, of which the last unit is a close.
fn end_at(read: usize) -> End {
    let ended = ENDS.iter().copied().filter(|end| *end <= read).max();
    match read.saturating_sub(ended.unwrap_or(0)) {
        _ if read == STREAM.len() => End::Closed,
        0 => End::Between,
        inside => End::Inside(inside),
    }
}
