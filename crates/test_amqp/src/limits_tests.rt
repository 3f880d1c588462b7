//! Fifty links whose names begin with one of five prefixes: each takes messages as long as the limit of its name says, and none
//! a byte longer.

use crate::loopback_tests::{connected, listening};
use crate::recv_tests::served_under;
use amqp_endpoint::{CallFault, Config, Endpoint, Event, LinkLimit, Outcome, Scope};
use amqp_perform::{
    Attach, Begin, Close, Condition, Open, Outcome as Settlement, Performative, ReceiverSettleMode,
    Role, SenderSettleMode, Transfer, write_frame,
};
use std::alloc::{AllocError, Global};
use std::process::Abort;
use std::test::Fail;

/// A prefix, and what its links may keep: one of them begins another.
#[derive(Clone, Copy)]
struct Row {
    prefix: &'static str,
    allowed: u32,
    max_message: u32,
}

const ROWS: [Row; 5] = [
    Row {
        prefix: "t/",
        allowed: 2,
        max_message: 16,
    },
    Row {
        prefix: "t/a/",
        allowed: 3,
        max_message: 32,
    },
    Row {
        prefix: "f/",
        allowed: 1,
        max_message: 400,
    },
    Row {
        prefix: "q",
        allowed: 4,
        max_message: 1,
    },
    Row {
        prefix: "zz",
        allowed: 1,
        max_message: 64,
    },
];

const LINKS: u32 = 50;

/// The longest payload of all, and a byte more.
const PAYLOAD: [u8; 401] = [b'x'; 401];

fn row_of(handle: u32) -> Row {
    ROWS[(handle % 5) as usize]
}

/// Returns a configuration with these rows, whose own limits hold for no link.
fn config(alloc: Global) -> Result<Config, Fail> {
    let mut limits = Vec::new(alloc);
    for row in ROWS {
        limits.push(LinkLimit {
            prefix: Vec::from_slice(alloc, row.prefix.as_bytes())?,
            allowed: row.allowed,
            max_message: row.max_message,
        })?;
    }
    let name = String::from_str(alloc, "r")?;
    let config = Config::checked(name, 512, 0, 63, 10, 100, 2048).ok_or("out of range")?;
    match config.with_limits(limits) {
        Ok(config) => Ok(config),
        Err(_) => Err(Fail::from("no table")),
    }
}

fn framed(
    alloc: Global,
    performative: &Performative<'_>,
    payload: &[u8],
) -> Result<Vec<u8>, AllocError> {
    let mut room = [0; 512];
    let len = write_frame(0, performative, payload, &mut room).unwrap_or(0);
    Vec::from_slice(alloc, &room[..len])
}

/// The header, an open and a begin.
fn opening(alloc: Global) -> Result<Vec<u8>, AllocError> {
    let open = Performative::Open(Open {
        container_id: "p",
        hostname: &[],
        max_frame_size: 512,
        channel_max: 0,
        idle_time_out: &[],
        outgoing_locales: &[],
        incoming_locales: &[],
        offered_capabilities: &[],
        desired_capabilities: &[],
        properties: &[],
    });
    let begin = Performative::Begin(Begin {
        remote_channel: None,
        next_outgoing_id: 0,
        incoming_window: 100,
        outgoing_window: 100,
        handle_max: 63,
        offered_capabilities: &[],
        desired_capabilities: &[],
        properties: &[],
    });
    let mut bytes = Vec::from_slice(alloc, b"AMQP\x00\x01\x00\x00")?;
    bytes.extend_from_slice(&framed(alloc, &open, &[])?)?;
    bytes.extend_from_slice(&framed(alloc, &begin, &[])?)?;
    Ok(bytes)
}

/// Returns the attach of a sender at a handle, under a name with the prefix of its row.
fn attach(alloc: Global, handle: u32) -> Result<Vec<u8>, AllocError> {
    let prefix = row_of(handle).prefix;
    let name = format!(in alloc; "{prefix}{handle}")?;
    let attach = Performative::Attach(Attach {
        name: &name,
        handle,
        role: Role::Sender,
        snd_settle_mode: SenderSettleMode::Mixed,
        rcv_settle_mode: ReceiverSettleMode::First,
        source: b"\x00\x53\x28\x45",
        target: b"\x00\x53\x29\x45",
        unsettled: &[],
        incomplete_unsettled: &[],
        initial_delivery_count: Some(0),
        max_message_size: &[],
        offered_capabilities: &[],
        desired_capabilities: &[],
        properties: &[],
    });
    framed(alloc, &attach, &[])
}

/// Returns a delivery of this many bytes in one transfer.
fn delivery(alloc: Global, handle: u32, id: u32, len: usize) -> Result<Vec<u8>, AllocError> {
    let transfer = Performative::Transfer(Transfer {
        handle,
        delivery_id: Some(id),
        delivery_tag: Some(b"t"),
        message_format: Some(0),
        settled: None,
        more: false,
        rcv_settle_mode: None,
        state: &[],
        resume: false,
        aborted: false,
        batchable: &[],
    });
    framed(alloc, &transfer, PAYLOAD.get(..len).unwrap_or(&[]))
}

/// An endpoint, and how many bytes it holds at most.
#[derive(Drop)]
struct Held {
    endpoint: Endpoint,
    most: u64,
}

impl Held {
    /// Returns what a piece results in.
    fn feed(&mut self, rt: &impl Abort, piece: &[u8]) -> Outcome {
        let outcome = self.endpoint.feed(piece).outcome;
        self.assert_within(rt);
        self.drain();
        outcome
    }

    fn assert_within(&self, rt: &impl Abort) {
        assert!(rt; self.endpoint.held() <= self.most);
    }

    fn drain(&mut self) {
        let mut room = [0; 1024];
        for _ in 0..8 {
            self.endpoint.output(&mut room);
        }
    }

    /// The connection and a session are opened.
    fn open(&mut self, rt: &impl Abort, opening: &[u8]) {
        let mut at = 0;
        for _ in 0..3 {
            at = self
                .endpoint
                .feed(opening.get(at..).unwrap_or(&[]))
                .used
                .saturating_add(at);
            self.drain();
        }
        assert_eq!(rt; at, opening.len());
    }

    /// All links take what their rows say, and no more.
    // The body borrows what it uses: one that may drop it at each exit takes minutes to prove.
    fn assert_each(&mut self, rt: &impl Abort, alloc: Global) -> Result<(), AllocError> {
        for handle in 0..LINKS {
            self.assert_limited(rt, alloc, handle)?;
        }
        for handle in 0..LINKS {
            self.assert_ended(rt, alloc, handle)?;
        }
        Ok(())
    }

    /// A link with this row takes what its row says, and no more.
    fn assert_limited(
        &mut self,
        rt: &impl Abort,
        alloc: Global,
        handle: u32,
    ) -> Result<(), AllocError> {
        let row = row_of(handle);
        let most = u64::from(row.allowed).saturating_mul(u64::from(row.max_message) + 96);
        self.most = self.most.saturating_add(1407).saturating_add(most);
        let attached = self.feed(rt, &attach(alloc, handle)?);
        let event = Event::Attached { channel: 0, handle };
        assert!(rt; attached == Outcome::Event(event));
        let more = row.allowed.saturating_add(1);
        let much = self.endpoint.grant(0, handle, more);
        assert!(rt; much == Err(CallFault::TooMuchCredit));
        assert!(rt; self.endpoint.grant(0, handle, row.allowed) == Ok(()));
        self.assert_within(rt);
        let longest = row.max_message as usize;
        let ready = self.feed(rt, &delivery(alloc, handle, handle, longest)?);
        assert!(rt; ready == Outcome::Event(Event::Ready { channel: 0, handle }));
        Ok(())
    }

    /// Its message is taken and settled, and one that is a byte longer ends it, where credit is left.
    fn assert_ended(
        &mut self,
        rt: &impl Abort,
        alloc: Global,
        handle: u32,
    ) -> Result<(), AllocError> {
        let row = row_of(handle);
        let longest = row.max_message as usize;
        match self.endpoint.take(0, handle) {
            Ok(taken) => assert!(rt; taken.message.len() == longest),
            Err(_) => panic!(rt; "no message is ready"),
        }
        let id = handle;
        assert!(rt; self.endpoint.settle(0, id, Settlement::Accepted) == Ok(()));
        self.assert_within(rt);
        let _ = self.endpoint.grant(0, handle, 1);
        let long = delivery(alloc, handle, handle.saturating_add(LINKS), longest + 1)?;
        let failed = Outcome::Event(Event::Failed {
            scope: Scope::Link { channel: 0, handle },
            condition: Condition::MessageSizeExceeded,
            dropped: 0,
        });
        assert!(rt; self.feed(rt, &long) == failed);
        Ok(())
    }
}

#[test]
fn each_link_keeps_what_its_name_may(rt: HostRuntime) -> Result<(), Fail> {
    let alloc = rt.alloc();
    let mut held = Held {
        endpoint: Endpoint::new(alloc, config(alloc)?)?,
        most: 512 + 8192 + 64,
    };
    let opening = opening(alloc)?;
    held.open(&rt, &opening);
    held.assert_each(&rt, alloc)?;
    Ok(())
}

/// Returns all links, a message on each that is as long as it may be, one on each that is a byte longer, and a
/// close.
fn stream(alloc: Global) -> Result<Vec<u8>, AllocError> {
    let mut bytes = opening(alloc)?;
    for handle in 0..LINKS {
        bytes.extend_from_slice(&attach(alloc, handle)?)?;
    }
    for more in 0..2 {
        for handle in 0..LINKS {
            let len = (row_of(handle).max_message as usize).saturating_add(more);
            let id = handle.saturating_add(LINKS.saturating_mul(more as u32));
            bytes.extend_from_slice(&delivery(alloc, handle, id, len)?)?;
        }
    }
    let close = Performative::Close(Close { error: &[] });
    bytes.extend_from_slice(&framed(alloc, &close, &[])?)?;
    Ok(bytes)
}

#[test]
fn a_server_gives_each_link_what_its_name_may_have(rt: HostRuntime) -> Result<(), Fail> {
    let alloc = rt.alloc();
    let config = config(alloc)?;
    let (listener, address) = listening(&rt)?;
    let peer = connected(&rt, address, &stream(alloc)?)?;
    let (all_closed, log, records) = served_under(alloc, &config, &listener, 1, 10_000)?;
    assert_eq!(rt;
        (all_closed, log.as_str()),
        (true, "connection 1: Closed\n")
    );
    drop(peer);
    // A record has 18 bytes and its message: its channel, its handle, its id, and how long it is.
    let mut rest = records.as_slice();
    for handle in 0..LINKS {
        let len = row_of(handle).max_message;
        let mut wanted = [0; 18];
        wanted[2..6].copy_from_slice(&handle.to_be_bytes());
        wanted[6..10].copy_from_slice(&handle.to_be_bytes());
        wanted[14..18].copy_from_slice(&len.to_be_bytes());
        assert!(rt; rest.starts_with(&wanted));
        rest = rest.get((len as usize).saturating_add(18)..).unwrap_or(&[]);
    }
    assert!(rt; rest.is_empty());
    Ok(())
}
