//! What the frames of a link come to.

use crate::model::delivery::Delivery;
use crate::model::history::{Life, NONE, Part, What, ends_delivery};
use crate::model::{Link, Model, Session};
use amqp_endpoint::{Event, Outcome, Scope};
use amqp_perform::{Attach, Condition, Flow, Performative, ReceiverSettleMode, Role, Transfer};
use std::alloc::AllocError;

/// The most bytes of a name, of source and target together, and of a tag.
const MAX_NAME: usize = 255;

const MAX_TERMINI: usize = 1024;

const MAX_TAG: usize = 32;

/// How the target of a coordinator begins.
const COORDINATORS: [&[u8]; 4] = [
    b"\x00\x53\x30",
    b"\x00\x80\x00\x00\x00\x00\x00\x00\x00\x30",
    b"\x00\xa3\x15amqp:coordinator:list",
    b"\x00\xb3\x00\x00\x00\x15amqp:coordinator:list",
];

fn is_second(mode: ReceiverSettleMode) -> bool {
    match mode {
        ReceiverSettleMode::First => false,
        ReceiverSettleMode::Second => true,
    }
}

impl Model {
    pub(super) fn act_on_attach(
        &mut self,
        session: Session,
        attach: Attach<'_>,
    ) -> Result<Outcome, AllocError> {
        if attach.handle > session.handle_max {
            return self.fail(Condition::FramingError);
        }
        if attach.name.len() > MAX_NAME {
            return self.fail_session(session, Condition::ResourceLimitExceeded);
        }
        if self.link(session, attach.handle).is_some() {
            return self.fail_session(session, Condition::HandleInUse);
        }
        if attach.role == Role::Sender && attach.initial_delivery_count.is_none() {
            return self.fail_session(session, Condition::InvalidField);
        }
        let mut size = [0; 9];
        let size = ulong(self.settings.max_message, &mut size);
        let reply = reply_to(attach, size);
        match self.refusal(attach, reply)? {
            Some(condition) => self.refuse(session, attach, reply, condition),
            None => {
                self.write_attach(session.channel, reply)?;
                self.keep(session, attach, true)?;
                Ok(Outcome::Event(Event::Attached {
                    channel: session.channel,
                    handle: attach.handle,
                }))
            }
        }
    }

    /// Returns why the link of an attach is refused.
    fn refusal(
        &self,
        attach: Attach<'_>,
        reply: Attach<'_>,
    ) -> Result<Option<Condition>, AllocError> {
        let is_coordinator = COORDINATORS
            .iter()
            .any(|front| attach.target.starts_with(*front));
        if attach.role == Role::Receiver || is_coordinator {
            return Ok(Some(Condition::NotImplemented));
        }
        let termini = attach.source.len().saturating_add(attach.target.len());
        if termini > MAX_TERMINI {
            return Ok(Some(Condition::ResourceLimitExceeded));
        }
        let length = self.length(&Performative::Attach(reply))?;
        if length > u64::from(self.peer_frame) {
            return Ok(Some(Condition::FrameSizeTooSmall));
        }
        Ok(None)
    }

    fn refuse(
        &mut self,
        session: Session,
        attach: Attach<'_>,
        reply: Attach<'_>,
        condition: Condition,
    ) -> Result<Outcome, AllocError> {
        let (channel, handle) = (session.channel, attach.handle);
        let count = match attach.role {
            Role::Receiver => Some(0),
            Role::Sender => None,
        };
        let bare = Attach {
            source: &[],
            target: &[],
            max_message_size: &[],
            initial_delivery_count: count,
            ..reply
        };
        self.write_attach(channel, bare)?;
        self.write_detach(channel, handle, true, condition.span())?;
        self.keep(session, attach, false)?;
        Ok(failed_link(channel, handle, condition, 0))
    }

    fn keep(
        &mut self,
        session: Session,
        attach: Attach<'_>,
        is_live: bool,
    ) -> Result<(), AllocError> {
        let life = Life {
            session: session.life,
            link: self.new_life(),
            is_second: is_second(attach.rcv_settle_mode),
            first_count: attach.initial_delivery_count.unwrap_or(0),
        };
        let link = Link {
            handle: attach.handle,
            life,
            is_live,
            name: Vec::from_slice(self.alloc, attach.name.as_bytes())?,
            source: Vec::from_slice(self.alloc, attach.source)?,
            target: Vec::from_slice(self.alloc, attach.target)?,
        };
        self.links.push(link)?;
        Ok(())
    }

    /// This side detaches a link.
    pub(super) fn end_link(&mut self, link: u32) {
        for kept in self.links.iter_mut() {
            if kept.life.link == link {
                kept.is_live = false;
            }
        }
    }

    /// Returns the link of a frame: whether it is live, and what its sums want; none if the handle is not in
    /// use.
    fn link_of(&self, session: Session, handle: u32) -> Option<(bool, Life)> {
        let link = self.link(session, handle)?;
        Some((link.is_live, link.life))
    }

    /// Ends a link with an error.
    fn fail_link(
        &mut self,
        session: Session,
        handle: u32,
        life: Life,
        condition: Condition,
    ) -> Result<Outcome, AllocError> {
        let dropped = self.ready(life)?;
        self.write_detach(session.channel, handle, true, condition.span())?;
        self.end_link(life.link);
        Ok(failed_link(session.channel, handle, condition, dropped))
    }

    pub(super) fn act_on_transfer(
        &mut self,
        session: Session,
        transfer: Transfer<'_>,
        payload: &[u8],
    ) -> Result<Outcome, AllocError> {
        if self.window(session) == 0 {
            return self.fail_session(session, Condition::WindowViolation);
        }
        let (channel, handle) = (session.channel, transfer.handle);
        let Some((is_live, life)) = self.link_of(session, handle) else {
            return self.fail_session(session, Condition::UnattachedHandle);
        };
        let part = part_of(self.alloc, transfer, payload)?;
        let fault = if is_live {
            self.transfer_fault(session, life, transfer, payload)?
        } else {
            None
        };
        if fault.is_some() || !is_live {
            self.record(session.life, NONE, What::Sent(part))?;
            return match fault {
                Some(condition) => self.fail_link(session, handle, life, condition),
                None => Ok(Outcome::More),
            };
        }
        self.record(session.life, life.link, What::Sent(part))?;
        Ok(Outcome::Event(if transfer.aborted {
            Event::Aborted { channel, handle }
        } else if transfer.more {
            Event::Unfinished { channel, handle }
        } else {
            Event::Ready { channel, handle }
        }))
    }

    /// Returns what is wrong with a transfer on a live link.
    fn transfer_fault(
        &self,
        session: Session,
        life: Life,
        transfer: Transfer<'_>,
        payload: &[u8],
    ) -> Result<Option<Condition>, AllocError> {
        if transfer.resume {
            return Ok(Some(Condition::NotImplemented));
        }
        let mut len = payload.len() as u64;
        if ends_delivery(self.history.last_part(life.link)) {
            if self.is_bad_head(session, life, transfer)? {
                return Ok(Some(Condition::InvalidField));
            }
            if self.history.credit(life.link) == 0 {
                return Ok(Some(Condition::TransferLimitExceeded));
            }
        } else {
            let deliveries = self.history.deliveries(self.alloc, life)?;
            if let Some(delivery) = deliveries.last() {
                if self.differs(*delivery, transfer) {
                    return Ok(Some(Condition::InvalidField));
                }
                len = len.saturating_add(delivery.len);
            }
        }
        if !transfer.aborted && len > u64::from(self.settings.max_message) {
            return Ok(Some(Condition::MessageSizeExceeded));
        }
        Ok(None)
    }

    fn is_bad_head(
        &self,
        session: Session,
        life: Life,
        transfer: Transfer<'_>,
    ) -> Result<bool, AllocError> {
        let (Some(id), Some(tag)) = (transfer.delivery_id, transfer.delivery_tag) else {
            return Ok(true);
        };
        let asks_second = transfer.rcv_settle_mode.is_some_and(is_second);
        let is_settled = transfer.settled == Some(true);
        if tag.len() > MAX_TAG || (asks_second && !life.is_second && !is_settled) {
            return Ok(true);
        }
        self.is_open_in(session, id)
    }

    /// Whether a delivery of a session with this id is open.
    pub(super) fn is_open_in(&self, session: Session, id: u32) -> Result<bool, AllocError> {
        for link in self.links.iter() {
            if link.is_live && link.life.session == session.life {
                for delivery in self.open_deliveries(link.life)?.iter() {
                    if delivery.id == id {
                        return Ok(true);
                    }
                }
            }
        }
        Ok(false)
    }

    /// Returns whether a transfer that goes on with a delivery says something else than its head.
    fn differs(&self, delivery: Delivery, transfer: Transfer<'_>) -> bool {
        let Some(head) = self.history.head(delivery) else {
            return true;
        };
        let id = transfer.delivery_id.unwrap_or(delivery.id);
        let format = head.format.unwrap_or(0);
        let tags = match (transfer.delivery_tag, &head.tag) {
            (Some(tag), Some(first)) => tag != first.as_slice(),
            (Some(_), None) => true,
            (None, _) => false,
        };
        id != delivery.id || tags || transfer.message_format.unwrap_or(format) != format
    }

    pub(super) fn act_on_link_flow(
        &mut self,
        session: Session,
        handle: u32,
        flow: Flow<'_>,
    ) -> Result<Outcome, AllocError> {
        let channel = session.channel;
        let Some((is_live, life)) = self.link_of(session, handle) else {
            return self.fail_session(session, Condition::UnattachedHandle);
        };
        if !is_live {
            return Ok(Outcome::More);
        }
        let credit = self.history.credit(life.link);
        let count = self.history.count(life);
        let ahead = u64::from(flow.delivery_count.unwrap_or(count).wrapping_sub(count));
        let is_ahead = credit < ahead;
        let what = What::Flowed {
            next_outgoing_id: flow.next_outgoing_id,
            advance: if is_ahead { 0 } else { ahead },
        };
        if is_ahead && ahead < 1 << 31 {
            self.record(session.life, NONE, what)?;
            return self.fail_link(session, handle, life, Condition::TransferLimitExceeded);
        }
        let was_marked = self.history.is_marked(life.link);
        self.record(session.life, life.link, what)?;
        if flow.echo {
            self.write_link_flow(session, handle, life)?;
        }
        if was_marked && self.history.credit(life.link) == 0 {
            return Ok(Outcome::Event(Event::Drained { channel, handle }));
        }
        Ok(Outcome::More)
    }

    /// A detach of the peer is answered, unless it answers.
    pub(super) fn act_on_detach(
        &mut self,
        session: Session,
        handle: u32,
        closed: bool,
    ) -> Result<Outcome, AllocError> {
        let channel = session.channel;
        let Some((is_live, life)) = self.link_of(session, handle) else {
            return self.fail_session(session, Condition::UnattachedHandle);
        };
        let mut dropped = 0;
        if is_live {
            dropped = self.ready(life)?;
            self.write_detach(channel, handle, closed, &[])?;
        }
        self.links.retain(|link| link.life.link != life.link);
        Ok(Outcome::Event(Event::Detached {
            channel,
            handle,
            dropped,
        }))
    }
}

fn failed_link(channel: u16, handle: u32, condition: Condition, dropped: u32) -> Outcome {
    Outcome::Event(Event::Failed {
        scope: Scope::Link { channel, handle },
        condition,
        dropped,
    })
}

/// Returns the attach that answers one.
fn reply_to<'a>(attach: Attach<'a>, max_message_size: &'a [u8]) -> Attach<'a> {
    Attach {
        role: match attach.role {
            Role::Sender => Role::Receiver,
            Role::Receiver => Role::Sender,
        },
        unsettled: &[],
        incomplete_unsettled: &[],
        initial_delivery_count: None,
        max_message_size,
        offered_capabilities: &[],
        desired_capabilities: &[],
        properties: &[],
        ..attach
    }
}

/// Returns the shortest spelling of a number as ulong.
fn ulong(number: u32, room: &mut [u8; 9]) -> &[u8] {
    match u8::try_from(number) {
        Ok(0) => b"\x44",
        Ok(small) => {
            room[0] = 0x53;
            room[1] = small;
            &room[..2]
        }
        Err(_) => {
            room[0] = 0x80;
            room[5..].copy_from_slice(&number.to_be_bytes());
            &room[..]
        }
    }
}

/// Returns a transfer, as the history keeps it.
fn part_of(
    alloc: std::alloc::Global,
    transfer: Transfer<'_>,
    payload: &[u8],
) -> Result<Part, AllocError> {
    Ok(Part {
        id: transfer.delivery_id,
        tag: match transfer.delivery_tag {
            Some(tag) => Some(Vec::from_slice(alloc, tag)?),
            None => None,
        },
        format: transfer.message_format,
        settled: transfer.settled == Some(true),
        more: transfer.more,
        second: transfer.rcv_settle_mode.map(is_second),
        aborted: transfer.aborted,
        payload: Vec::from_slice(alloc, payload)?,
    })
}
