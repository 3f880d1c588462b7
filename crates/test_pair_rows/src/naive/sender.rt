//! The sender: the message that waits, and plain counts.

use crate::naive::sizes::{ABSENT, BYTE, EMPTY, TAG, UBYTE, USHORT, flag, frame, text, uint};
use crate::naive::way::Way;
use crate::naive::{Reply, Sent};
use amqp_send::{News, OfferFault};
use std::alloc::AllocError;

/// The longest frame of the sender, and what it takes the endpoint's for until that has said it [2.7.1].
const MAX_FRAME: u64 = 4096;

const LEAST_FRAME: u64 = 512;

/// The room without which a frame of the endpoint waits.
const ROOM: usize = 64;

/// The container-id and the link's name have one byte each.
const NAME: usize = 1;

/// A message of which frames are to be written.
#[derive(Clone, Copy)]
struct Message<'a> {
    rest: &'a [u8],
    is_begun: bool,
}

#[derive(Clone, Copy, Drop)]
pub struct Sender<'a> {
    max_frame: u64,
    /// The endpoint's begin has come.
    has_begun: bool,
    /// A flow of it has.
    has_flowed: bool,
    /// How many transfers may be sent in all [2.5.6], and how far the delivery-count may come [2.6.7].
    most_transfers: u64,
    most_count: u64,
    transfers: u64,
    count: u64,
    deliveries: u32,
    message: Option<Message<'a>>,
    /// How often a frame of the endpoint waited.
    pub times_blocked: u64,
}

impl<'a> Sender<'a> {
    /// A new one writes its header.
    pub fn new(way: &mut Way<Sent<'a>>) -> Result<Sender<'a>, AllocError> {
        way.write(Sent::Header, 8)?;
        Ok(Sender {
            max_frame: LEAST_FRAME,
            has_begun: false,
            has_flowed: false,
            most_transfers: 0,
            most_count: 0,
            transfers: 0,
            count: 0,
            deliveries: 0,
            message: None,
            times_blocked: 0,
        })
    }

    fn credit(&self) -> u64 {
        self.most_count.saturating_sub(self.count)
    }

    /// Takes a message over, if none waits.
    pub fn offer(
        &mut self,
        message: &'a [u8],
        way: &mut Way<Sent<'a>>,
    ) -> Result<Option<OfferFault>, AllocError> {
        if self.message.is_some() {
            return Ok(Some(OfferFault::Busy));
        }
        self.message = Some(Message {
            rest: message,
            is_begun: false,
        });
        self.write_all(way)?;
        Ok(None)
    }

    /// Takes what it is fed, and acts upon it if there is room for an answer.
    pub fn feed(
        &mut self,
        from: &mut Way<Reply>,
        way: &mut Way<Sent<'a>>,
    ) -> Result<(usize, Option<News>), AllocError> {
        let used = from.feed();
        let Some(reply) = from.waiting() else {
            return Ok((used, None));
        };
        if way.room() < ROOM {
            self.times_blocked = self.times_blocked.saturating_add(1);
            return Ok((used, None));
        }
        from.pass();
        let news = self.hear(reply, way)?;
        self.write_all(way)?;
        Ok((used, news))
    }

    fn hear(&mut self, reply: Reply, way: &mut Way<Sent<'a>>) -> Result<Option<News>, AllocError> {
        match reply {
            Reply::Header => self.open(way)?,
            Reply::Open { max_frame } => self.max_frame = max_frame.min(MAX_FRAME),
            Reply::Begin { window } => {
                self.has_begun = true;
                if !self.has_flowed {
                    self.most_transfers = window;
                }
            }
            Reply::Attach => {}
            Reply::Flow {
                most_transfers,
                of_link,
            } => {
                self.has_flowed = true;
                self.most_transfers = most_transfers;
                if let Some(link) = of_link {
                    self.most_count = link.most_count;
                    if link.drain && self.message.is_none() {
                        self.drain(way)?;
                    }
                }
            }
            Reply::Disposition { id, outcome } => {
                return Ok(Some(News::Disposition {
                    first: id,
                    last: id,
                    outcome: Some(outcome),
                }));
            }
        }
        Ok(None)
    }

    /// The opening: open, begin and attach.
    fn open(&mut self, way: &mut Way<Sent<'a>>) -> Result<(), AllocError> {
        let open = [text(NAME), ABSENT, uint(MAX_FRAME), USHORT];
        way.write(Sent::Open, frame(&open))?;
        let begin = [ABSENT, BYTE, BYTE, uint(2048), BYTE];
        way.write(Sent::Begin, frame(&begin))?;
        let attach = [
            text(NAME),
            BYTE,
            BYTE,
            UBYTE,
            ABSENT,
            EMPTY,
            EMPTY,
            ABSENT,
            ABSENT,
            BYTE,
        ];
        way.write(Sent::Attach, frame(&attach))
    }

    /// Uses the credit up, and says so.
    fn drain(&mut self, way: &mut Way<Sent<'a>>) -> Result<(), AllocError> {
        self.count = self.count.max(self.most_count);
        let next_incoming_id = if self.has_begun { BYTE } else { ABSENT };
        let flow = [
            next_incoming_id,
            BYTE,
            uint(self.transfers),
            uint(2048),
            BYTE,
            uint(self.count),
            uint(self.credit()),
            ABSENT,
            BYTE,
        ];
        let says = Sent::Flow {
            transfers: self.transfers,
            count: self.count,
        };
        way.write(says, frame(&flow))
    }

    /// Writes the frames that may be written.
    pub fn write_all(&mut self, way: &mut Way<Sent<'a>>) -> Result<(), AllocError> {
        let Some(message) = self.message else {
            return Ok(());
        };
        for _ in 0..message.rest.len().saturating_add(1) {
            if !self.write_frame(way)? {
                break;
            }
        }
        Ok(())
    }

    /// Writes the next frame of the message, if it may be written, and returns whether it was.
    fn write_frame(&mut self, way: &mut Way<Sent<'a>>) -> Result<bool, AllocError> {
        let Some(message) = self.message else {
            return Ok(false);
        };
        let has_credit = message.is_begun || self.credit() > 0;
        if !has_credit || self.transfers >= self.most_transfers {
            return Ok(false);
        }
        let id = if message.is_begun {
            None
        } else {
            Some(self.deliveries)
        };
        let most = self.max_frame as usize;
        let is_last = transfer(id, false).saturating_add(message.rest.len()) <= most;
        let count = if is_last {
            message.rest.len()
        } else {
            most.saturating_sub(transfer(id, true))
        };
        let (payload, rest) = message.rest.split_at(count.min(message.rest.len()));
        let len = transfer(id, !is_last).saturating_add(payload.len());
        if len > way.room() {
            return Ok(false);
        }
        let says = Sent::Transfer {
            id,
            payload,
            more: !is_last,
        };
        way.write(says, len)?;
        self.transfers = self.transfers.saturating_add(1);
        if id.is_some() {
            self.count = self.count.saturating_add(1);
            self.deliveries = self.deliveries.saturating_add(1);
        }
        self.message = if is_last {
            None
        } else {
            Some(Message {
                rest,
                is_begun: true,
            })
        };
        Ok(true)
    }
}

/// Returns how long a transfer is without its payload: the first of a delivery has its id, its tag and its format,
/// and each has its handle.
fn transfer(id: Option<u32>, more: bool) -> usize {
    match id {
        Some(id) => frame(&[BYTE, uint(u64::from(id)), TAG, BYTE, ABSENT, flag(more)]),
        None => frame(&[BYTE, ABSENT, ABSENT, ABSENT, ABSENT, flag(more)]),
    }
}
