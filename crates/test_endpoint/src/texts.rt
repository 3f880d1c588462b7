//! The texts of what the endpoint and the sender tell, and of their faults.

use amqp_endpoint::{CallFault, End, Event, LimitFault, Outcome, Scope};
use amqp_perform::Condition;
use amqp_send::OfferFault;
use amqp_serve::ServeFault;
use std::alloc::Global;
use std::error::Error;
use std::fmt::Display;
use std::process::Abort;
use std::test::Fail;

/// Asserts that it is shown so.
fn assert_shown<T: Display + Drop>(
    rt: &impl Abort,
    alloc: Global,
    value: T,
    text: &str,
) -> Result<(), Fail> {
    let shown = format!(in alloc; "{value}")?;
    assert_eq!(rt; shown.as_str(), text);
    Ok(())
}

/// Asserts that it is an error with this text.
fn assert_said<E: Error>(rt: &impl Abort, alloc: Global, fault: E, text: &str) -> Result<(), Fail> {
    assert_shown(rt, alloc, fault, text)
}

#[test]
fn events_and_ends_are_shown_as_scripts_print_them(rt: HostRuntime) -> Result<(), Fail> {
    let alloc = rt.alloc();
    let link = Scope::Link {
        channel: 1,
        handle: 4294967295,
    };
    for (event, text) in [
        (Event::Opened, "Opened"),
        (Event::Begun { channel: 65535 }, "Begun 65535"),
        (
            Event::Attached {
                channel: 0,
                handle: 7,
            },
            "Attached 0 7",
        ),
        (
            Event::Unfinished {
                channel: 0,
                handle: 7,
            },
            "Part 0 7",
        ),
        (
            Event::Ready {
                channel: 0,
                handle: 7,
            },
            "Ready 0 7",
        ),
        (
            Event::Aborted {
                channel: 0,
                handle: 7,
            },
            "Aborted 0 7",
        ),
        (
            Event::Drained {
                channel: 0,
                handle: 7,
            },
            "Drained 0 7",
        ),
        (
            Event::Settled {
                channel: 0,
                count: 2,
            },
            "Settled 0 2",
        ),
        (
            Event::Detached {
                channel: 0,
                handle: 7,
                dropped: 1,
            },
            "Detached 0 7 dropped=1",
        ),
        (
            Event::Ended {
                channel: 3,
                dropped: 0,
            },
            "Ended 3 dropped=0",
        ),
        (Event::Closed { dropped: 12 }, "Closed dropped=12"),
        (
            Event::Failed {
                scope: Scope::Connection,
                condition: Condition::FramingError,
                dropped: 0,
            },
            "Failed connection amqp:connection:framing-error dropped=0",
        ),
        (
            Event::Failed {
                scope: Scope::Session { channel: 5 },
                condition: Condition::WindowViolation,
                dropped: 2,
            },
            "Failed session 5 amqp:session:window-violation dropped=2",
        ),
        (
            Event::Failed {
                scope: link,
                condition: Condition::TransferLimitExceeded,
                dropped: 3,
            },
            "Failed link 1 4294967295 amqp:link:transfer-limit-exceeded dropped=3",
        ),
    ] {
        assert_shown(&rt, alloc, event, text)?;
        assert_shown(&rt, alloc, Outcome::Event(event), text)?;
    }
    assert_shown(&rt, alloc, Outcome::More, "More")?;
    assert_shown(&rt, alloc, Outcome::Blocked, "Blocked")?;
    assert_shown(&rt, alloc, Outcome::NoMemory, "NoMemory")?;
    assert_shown(&rt, alloc, Outcome::Dead, "Dead")?;
    assert_shown(&rt, alloc, End::Failed, "Failed")?;
    assert_shown(&rt, alloc, End::Closed, "Closed")?;
    assert_shown(&rt, alloc, End::Between, "Between")?;
    assert_shown(&rt, alloc, End::Inside(9), "Inside 9")?;
    assert_shown(&rt, alloc, Condition::Other, "")
}

#[test]
fn faults_are_errors_with_sentences(rt: HostRuntime) -> Result<(), Fail> {
    let alloc = rt.alloc();
    for (fault, text) in [
        (CallFault::NoSession, "no session is live on this channel"),
        (CallFault::NoLink, "no link is live at this handle"),
        (
            CallFault::TooMuchCredit,
            "credit and open deliveries would be more than the link allows",
        ),
        (
            CallFault::WindowTooWide,
            "the window would pass 2147483647 places",
        ),
        (CallFault::Full, "the output has less than 2560 free bytes"),
        (CallFault::NothingReady, "no delivery of the link is ready"),
        (
            CallFault::NoDelivery,
            "no open delivery has this id, or the last id of the range is behind its first",
        ),
        (
            CallFault::NotTaken,
            "a delivery that is named was not handed up",
        ),
        (
            CallFault::AlreadyTold,
            "the sender was told what became of a delivery that is named, and has to settle it",
        ),
        (
            CallFault::MixedModes,
            "deliveries of the modes first and second cannot be settled at once",
        ),
        (
            CallFault::Dead,
            "the connection is over, or this side has closed it",
        ),
        (CallFault::NotOpen, "the connection is not open"),
        (
            CallFault::BadError,
            "the condition is not 1 to 64 printable characters, or the description is not at most 255 bytes of UTF-8",
        ),
    ] {
        assert_said(&rt, alloc, fault, text)?;
    }
    for (fault, text) in [
        (ServeFault::Read, "the reader has failed"),
        (ServeFault::Write, "the writer has failed"),
        (ServeFault::Sink, "the sink has failed"),
        (ServeFault::NoMemory, "memory was refused"),
    ] {
        assert_said(&rt, alloc, fault, text)?;
    }
    assert_said(
        &rt,
        alloc,
        LimitFault::TooMany,
        "the table of limits has more than 16 rows",
    )?;
    assert_said(
        &rt,
        alloc,
        LimitFault::BadRow(3),
        "row 3 of the limits: the prefix has 1 to 255 bytes, and it allows 1 to 1024 deliveries of 1 to 1073741824 bytes",
    )?;
    assert_said(
        &rt,
        alloc,
        LimitFault::SamePrefix(15),
        "row 15 of the limits has the prefix of an earlier one",
    )?;
    assert_said(
        &rt,
        alloc,
        OfferFault::Busy,
        "the last frame of another message is not yet in the pipe",
    )?;
    assert_said(
        &rt,
        alloc,
        OfferFault::Ended(Condition::InvalidField),
        "the sender has ended: InvalidField",
    )
}
