//! Frames of a peer, mostly such as one may send now.

use crate::model::history::{Life, ends_delivery};
use crate::model::{Model, Session, Stage, low};
use crate::numbers::Choices;
use amqp_frame::HEADER;
use amqp_perform::{
    Attach, Begin, Close, Detach, Disposition, End, Flow, Open, Performative, ReceiverSettleMode,
    Role, SenderSettleMode, Transfer, write_frame,
};
use std::alloc::{AllocError, Global};

/// What a frame is to say.
#[derive(Clone, Copy, Debug, PartialEq, Eq)]
pub enum Kind {
    Transfer,
    LinkFlow,
    SessionFlow,
    Disposition,
    Attach,
    Detach,
    Begin,
    End,
    Close,
    Open,
    Empty,
    /// Of the longest frame, or of one byte more.
    Long,
    /// Many flows that want an answer each.
    Echoes,
    /// Bytes that were chosen one by one.
    Raw,
}

/// More than a frame has beside its payload.
const ROOM: usize = 1600;

/// A message is kept in pieces of this many bytes.
const PIECE: u32 = 4096;

/// How many flows come at once: the answers to all of them are more than may wait to be sent.
const ECHOES: usize = 300;

/// What a sender with long names says.
static LONG: [u8; 1100] = [0x6e; 1100];

/// The bytes of a frame, or of a part of one.
type Made = Result<Vec<u8>, AllocError>;

/// A link that is attached, and where.
#[derive(Clone, Copy)]
struct Place {
    channel: u16,
    handle: u32,
    life: Life,
}

/// What makes the frames of a list.
#[derive(Drop)]
pub struct Peer {
    alloc: Global,
    /// The next delivery-id.
    next_id: u32,
    /// The next byte of a payload.
    next_byte: u8,
}

impl Peer {
    pub fn new(alloc: Global, first_id: u32) -> Peer {
        Peer {
            alloc,
            next_id: first_id,
            next_byte: 0,
        }
    }

    /// Returns the bytes of a frame. One that can't come before others is preceded by none of them: it comes in
    /// its place.
    pub fn frame(&mut self, model: &Model, choices: &mut Choices<'_>, kind: Kind) -> Made {
        let is_wild = choices.is_one_of(64);
        match model.stage {
            Stage::Header if is_wild => Vec::from_slice(self.alloc, b"AMQP\x03\x01\x00\x00"),
            Stage::Header => Vec::from_slice(self.alloc, &HEADER),
            Stage::Opening if !is_wild => self.open(choices),
            _ => self.frame_of(model, choices, kind, is_wild),
        }
    }

    /// Returns a frame after the open, of another kind where that can't come.
    fn frame_of(
        &mut self,
        model: &Model,
        choices: &mut Choices<'_>,
        kind: Kind,
        is_wild: bool,
    ) -> Made {
        match kind {
            Kind::Empty => Vec::from_slice(self.alloc, b"\x00\x00\x00\x08\x02\x00\x00\x01"),
            Kind::Long => self.long(model, choices),
            Kind::Raw => self.raw(choices),
            Kind::Open => self.open(choices),
            Kind::Close => written(
                self.alloc,
                0,
                &Performative::Close(Close { error: &[] }),
                &[],
            ),
            _ => {
                let beyond = u32::from(is_wild);
                let limit = u32::from(model.channel_limit).saturating_add(1);
                let channel = (choices.below(limit.saturating_add(beyond)) % 65536) as u16;
                match model.session(channel) {
                    Some(session) if !is_wild => self.on(model, choices, session, kind),
                    None if !is_wild => self.begin(choices, channel),
                    _ => self.wild(choices, channel, kind),
                }
            }
        }
    }

    /// Returns a frame of a session that has begun.
    fn on(
        &mut self,
        model: &Model,
        choices: &mut Choices<'_>,
        session: Session,
        kind: Kind,
    ) -> Made {
        let channel = session.channel;
        let is_wanted = session.is_live || choices.is_one_of(2);
        match kind {
            Kind::End | Kind::Begin => self.end(channel),
            _ if !is_wanted => self.end(channel),
            Kind::SessionFlow => self.flow(choices, channel, None, Some(0)),
            Kind::Echoes => self.echoes(channel),
            Kind::Disposition => self.disposition(model, choices, session),
            _ => {
                let handle = choices.below(session.handle_max.min(254).saturating_add(1));
                match model.link(session, handle) {
                    None => self.attach(choices, channel, handle),
                    Some(link) => {
                        let place = Place {
                            channel,
                            handle,
                            life: link.life,
                        };
                        self.on_link(model, choices, place, kind)
                    }
                }
            }
        }
    }

    /// Returns a frame of a link that is attached.
    fn on_link(
        &mut self,
        model: &Model,
        choices: &mut Choices<'_>,
        place: Place,
        kind: Kind,
    ) -> Made {
        let (channel, handle, link) = (place.channel, place.handle, place.life.link);
        match kind {
            Kind::Detach => self.detach(choices, channel, handle),
            Kind::Attach if choices.is_one_of(4) => self.attach(choices, channel, handle),
            Kind::LinkFlow | Kind::Attach => self.link_flow(model, choices, place),
            _ if model.history.is_marked(link) && choices.is_one_of(2) => {
                self.link_flow(model, choices, place)
            }
            _ => {
                let is_head = ends_delivery(model.history.last_part(link));
                if is_head && model.history.credit(link) == 0 && !choices.is_one_of(32) {
                    return self.flow(choices, channel, Some(handle), None);
                }
                self.transfer(model, choices, place, is_head)
            }
        }
    }

    fn link_flow(&mut self, model: &Model, choices: &mut Choices<'_>, place: Place) -> Made {
        let credit = model.history.credit(place.life.link);
        let count = count_of(choices, model.history.count(place.life), credit);
        self.flow(choices, place.channel, Some(place.handle), count)
    }

    /// Returns a frame where it can't come.
    fn wild(&mut self, choices: &mut Choices<'_>, channel: u16, kind: Kind) -> Made {
        match kind {
            Kind::Begin => self.begin(choices, channel),
            Kind::End => self.end(channel),
            Kind::Detach => self.detach(choices, channel, 1),
            Kind::Attach => self.attach(choices, channel, 3),
            _ => self.flow(choices, channel, Some(2), None),
        }
    }

    /// Returns a frame of the longest size, or of one byte more, that says nothing.
    fn long(&mut self, model: &Model, choices: &mut Choices<'_>) -> Made {
        let more = u32::from(choices.is_one_of(4));
        let size = model.settings.max_frame.saturating_add(more);
        let mut frame = Vec::from_elem(self.alloc, 0, size as usize)?;
        let head = [0x02, 0, 0, 0, 0, 0x53, 0x13, 0xc0, 0x05, 0x04];
        for (to, from) in frame.iter_mut().zip(size.to_be_bytes().iter()) {
            *to = *from;
        }
        for (to, from) in frame.iter_mut().skip(4).zip(head.iter()) {
            *to = *from;
        }
        for to in frame.iter_mut().skip(14).take(4) {
            *to = 0x43;
        }
        Ok(frame)
    }

    fn raw(&mut self, choices: &mut Choices<'_>) -> Made {
        let mut bytes = Vec::new(self.alloc);
        for _ in 0..choices.below(12) {
            bytes.push(choices.byte())?;
        }
        let size = low(bytes.len() as u64).saturating_add(8);
        let mut frame = Vec::from_slice(self.alloc, &size.to_be_bytes())?;
        frame.extend_from_slice(b"\x02\x00\x00\x00")?;
        frame.extend_from_slice(&bytes)?;
        Ok(frame)
    }

    fn open(&mut self, choices: &mut Choices<'_>) -> Made {
        let open = Performative::Open(Open {
            container_id: "peer",
            hostname: &[],
            max_frame_size: choices.of(&[512, 512, 4096, 65536, 65536, 65536, 65536, 511], 512),
            channel_max: choices.of(&[0, 1, 2, 65535, 65535, 65535], 0),
            idle_time_out: &[],
            outgoing_locales: &[],
            incoming_locales: &[],
            offered_capabilities: &[],
            desired_capabilities: &[],
            properties: &[],
        });
        written(self.alloc, 0, &open, &[])
    }

    fn begin(&mut self, choices: &mut Choices<'_>, channel: u16) -> Made {
        let remote_channel = if choices.is_one_of(64) { Some(0) } else { None };
        let begin = Performative::Begin(Begin {
            remote_channel,
            next_outgoing_id: choices.number(),
            incoming_window: 100,
            outgoing_window: 100,
            handle_max: choices.of(&[u32::MAX, u32::MAX, 1, 0], 1),
            offered_capabilities: &[],
            desired_capabilities: &[],
            properties: &[],
        });
        written(self.alloc, channel, &begin, &[])
    }

    fn attach(&mut self, choices: &mut Choices<'_>, channel: u16, handle: u32) -> Made {
        let (is_strange, shape) = (choices.is_one_of(8), choices.byte());
        let source = termini(self.alloc, is_strange, shape)?;
        let is_nameless = is_strange && shape % 8 == 2;
        let attach = Performative::Attach(Attach {
            name: name(is_strange, shape),
            handle,
            role: if is_strange && shape % 8 == 3 {
                Role::Receiver
            } else {
                Role::Sender
            },
            snd_settle_mode: SenderSettleMode::Mixed,
            rcv_settle_mode: mode(choices.is_one_of(2)),
            source: &source,
            target: if is_strange && shape % 8 == 4 {
                b"\x00\x53\x30\x45"
            } else {
                b"\x00\x53\x29\x45"
            },
            unsettled: &[],
            incomplete_unsettled: &[],
            initial_delivery_count: if is_nameless {
                None
            } else {
                Some(choices.number())
            },
            max_message_size: &[],
            offered_capabilities: &[],
            desired_capabilities: &[],
            properties: &[],
        });
        written(self.alloc, channel, &attach, &[])
    }

    fn flow(
        &mut self,
        choices: &mut Choices<'_>,
        channel: u16,
        handle: Option<u32>,
        delivery_count: Option<u32>,
    ) -> Made {
        let next_outgoing_id = choices.number();
        let flow = Performative::Flow(Flow {
            next_incoming_id: None,
            incoming_window: 100,
            next_outgoing_id,
            outgoing_window: 100,
            handle,
            delivery_count,
            link_credit: None,
            available: None,
            drain: false,
            echo: choices.is_one_of(2),
            properties: &[],
        });
        written(self.alloc, channel, &flow, &[])
    }

    fn echoes(&mut self, channel: u16) -> Made {
        let one = self.flow(&mut Choices::new(&[0, 0, 1]), channel, None, None)?;
        let mut all = Vec::new(self.alloc);
        for _ in 0..ECHOES {
            all.extend_from_slice(&one)?;
        }
        Ok(all)
    }

    fn disposition(&mut self, model: &Model, choices: &mut Choices<'_>, session: Session) -> Made {
        let around = choices.below(4);
        let first = some_id(model, choices, session)?.wrapping_sub(around);
        let last = match choices.below(4) {
            0 => None,
            1 => Some(first.wrapping_add(1 << 31).wrapping_sub(around)),
            2 => Some(first.wrapping_add(around).wrapping_add(around)),
            _ => Some(some_id(model, choices, session)?),
        };
        let disposition = Performative::Disposition(Disposition {
            role: if choices.is_one_of(16) {
                Role::Receiver
            } else {
                Role::Sender
            },
            first,
            last,
            settled: !choices.is_one_of(16),
            state: &[],
            batchable: &[],
        });
        written(self.alloc, session.channel, &disposition, &[])
    }

    fn detach(&mut self, choices: &mut Choices<'_>, channel: u16, handle: u32) -> Made {
        let detach = Performative::Detach(Detach {
            handle,
            closed: choices.is_one_of(2),
            error: &[],
        });
        written(self.alloc, channel, &detach, &[])
    }

    fn end(&mut self, channel: u16) -> Made {
        written(
            self.alloc,
            channel,
            &Performative::End(End { error: &[] }),
            &[],
        )
    }

    /// Returns a transfer that begins a delivery, or goes on with one.
    fn transfer(
        &mut self,
        model: &Model,
        choices: &mut Choices<'_>,
        place: Place,
        is_head: bool,
    ) -> Made {
        let shape = Shape {
            strange: choices.below(64),
            flags: choices.byte(),
            is_head,
            is_second: place.life.is_second,
        };
        let before = if is_head {
            0
        } else {
            model.unfinished_len(place.life)?
        };
        let payload = self.payload(model, choices, before)?;
        let id = self.next_id;
        if is_head {
            self.next_id = id.wrapping_add(1);
        }
        let transfer = Performative::Transfer(shape.transfer(place.handle, id));
        written(self.alloc, place.channel, &transfer, &payload)
    }

    /// Returns a payload for a message that has this many bytes: a short one, one that goes up to where a message
    /// may end or where a piece of one ends, or a byte further.
    fn payload(&mut self, model: &Model, choices: &mut Choices<'_>, before: u32) -> Made {
        let most = model.settings.max_message.saturating_sub(before);
        let piece = PIECE - before % PIECE;
        let room = model.settings.max_frame.saturating_sub(64);
        let len = match choices.below(16) {
            0 => most,
            1 => most.saturating_add(1),
            2 => most / 2,
            3..=5 => piece.min(most),
            6 => piece.saturating_add(1).min(most),
            _ => choices.below(4).min(most),
        };
        let len = len.min(room);
        let mut payload = Vec::with_capacity(self.alloc, len as usize)?;
        for _ in 0..len {
            self.next_byte = self.next_byte.wrapping_add(1);
            payload.push(self.next_byte)?;
        }
        Ok(payload)
    }
}

/// What a transfer is like.
#[derive(Clone, Copy)]
struct Shape {
    /// What is wrong with it, if anything.
    strange: u32,
    flags: u8,
    is_head: bool,
    /// The mode of its link.
    is_second: bool,
}

impl Shape {
    /// Returns a transfer with this id, if it has one.
    fn transfer(self, handle: u32, id: u32) -> Transfer<'static> {
        let flags = self.flags;
        Transfer {
            handle,
            delivery_id: self.id(id),
            delivery_tag: self.tag(),
            message_format: if self.is_head && flags & 4 == 4 {
                Some(7)
            } else {
                None
            },
            settled: match flags % 16 {
                1 => Some(true),
                2 => Some(false),
                _ => None,
            },
            more: flags & 96 == 96 || flags & 24 == 24,
            rcv_settle_mode: self.mode(),
            state: &[],
            resume: self.strange == 17,
            aborted: flags & 224 == 224,
            batchable: &[],
        }
    }

    fn id(self, id: u32) -> Option<u32> {
        match self.strange {
            1 => Some(id),
            2 => Some(id.wrapping_add(1)),
            _ if self.is_head => Some(id),
            _ => None,
        }
    }

    fn tag(self) -> Option<&'static [u8]> {
        match self.strange {
            3 => None,
            4 => LONG.get(..33),
            _ if self.is_head => LONG.get(..usize::from(self.flags % 4)),
            _ => None,
        }
    }

    fn mode(self) -> Option<ReceiverSettleMode> {
        match self.strange {
            5 => Some(mode(true)),
            6 | 18..=29 => Some(mode(false)),
            7..=16 => Some(mode(self.is_second)),
            _ => None,
        }
    }
}

fn mode(is_second: bool) -> ReceiverSettleMode {
    if is_second {
        ReceiverSettleMode::Second
    } else {
        ReceiverSettleMode::First
    }
}

/// The name of a link, sometimes a long one.
fn name(is_strange: bool, shape: u8) -> &'static str {
    let bytes = match shape % 8 {
        1 if is_strange => LONG.get(..300),
        _ => LONG.get(..usize::from(shape % 4)),
    };
    str::from_utf8(bytes.unwrap_or(&[])).unwrap_or("")
}

/// Returns the source of an attach, sometimes a long one.
fn termini(alloc: Global, is_strange: bool, shape: u8) -> Made {
    let len = match shape % 8 {
        5 if is_strange => 1024,
        6 if is_strange => 480,
        7 if is_strange => 1020,
        _ => return Vec::from_slice(alloc, b"\x00\x53\x28\x45"),
    };
    let mut source = Vec::from_slice(alloc, b"\xb0")?;
    source.extend_from_slice(&u32::to_be_bytes(len))?;
    source.extend_from_slice(LONG.get(..len as usize).unwrap_or(&[]))?;
    Ok(source)
}

/// Returns the delivery-count of a flow: none, or one that uses up no credit, some, all, or more than there is; or
/// one that is behind.
fn count_of(choices: &mut Choices<'_>, count: u32, credit: u64) -> Option<u32> {
    let credit = low(credit);
    match choices.below(16) {
        0..=2 => None,
        3..=6 => Some(count),
        7..=11 => Some(count.wrapping_add(credit)),
        12..=13 => Some(count.wrapping_add(credit / 2)),
        14 => Some(count.wrapping_sub(1)),
        _ => Some(count.wrapping_add(credit).wrapping_add(1)),
    }
}

/// Returns the id of an open delivery of a session, or one at which something turns.
pub fn some_id(
    model: &Model,
    choices: &mut Choices<'_>,
    session: Session,
) -> Result<u32, AllocError> {
    let mut at = choices.below(16);
    for link in model.links.iter() {
        if link.is_live && link.life.session == session.life {
            for delivery in model.open_deliveries(link.life)?.iter() {
                if at == 0 {
                    return Ok(delivery.id);
                }
                at = at.saturating_sub(4);
            }
        }
    }
    Ok(choices.number())
}

/// Returns a frame, as its bytes.
fn written(alloc: Global, channel: u16, performative: &Performative<'_>, payload: &[u8]) -> Made {
    let room = payload.len().saturating_add(ROOM);
    let mut frame = Vec::from_elem(alloc, 0, room)?;
    let len = write_frame(channel, performative, payload, frame.as_mut_slice()).unwrap_or(0);
    frame.truncate(len);
    Ok(frame)
}
