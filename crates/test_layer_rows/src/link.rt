//! A link on the bench: its calls, and all that it shows.
//!
//! `attach first 4 10 0` is a new link: its mode, how many deliveries and bytes of one it allows, and the sender's first
//! count. The first delivery that was handed up is kept, and read by `message`, `piece`, `pieces`,
//! `sizes` and `write`.

use crate::messages::{copied, joined, piece, shown_taken, sizes, written};
use crate::words::{mode_of, payload_of, transfer_of};
use amqp_link::{Link, LinkBounds, Taken, Terms};
use amqp_perform::ReceiverSettleMode;
use std::alloc::{AllocError, Global};
use std::mem;
use test_row_files::words::{cut, name_of, number, two_numbers};
use test_row_files::{Heap, Miss, Subject};

/// A link, and the first delivery that it handed up.
#[derive(Drop)]
pub struct LinkRows<'a> {
    heap: Heap<'a>,
    link: Link<Heap<'a>>,
    /// What a link has that was never attached.
    idle: Terms,
    first: Option<Taken<Heap<'a>>>,
}

impl<'a> LinkRows<'a> {
    /// One whose link allows one delivery of one byte.
    pub fn new(heap: Heap<'a>) -> Result<LinkRows<'a>, Miss> {
        let (Some(terms), Some(idle)) = (least_terms(), least_terms()) else {
            return Err(Miss::Unread("refused bounds"));
        };
        Ok(LinkRows {
            heap,
            link: Link::attach(heap, terms),
            idle,
            first: None,
        })
    }

    /// Makes a call that names one number at most, and says what it answers.
    fn plain_call(&mut self, alloc: Global, name: &str, words: &str) -> Result<String, Miss> {
        match name {
            "grant" => Ok(format!(in alloc; "{:?}", self.link.grant(number(words)?))?),
            "count" => Ok(format!(in alloc; "{:?}", self.link.sender_count(number(words)?))?),
            "standing" => Ok(format!(in alloc; "{:?}", self.link.standing(number(words)?))?),
            "open" => Ok(format!(in alloc; "{}", self.link.has_open(number(words)?))?),
            "drop_all" => {
                let dropped = mem::replace(&mut self.link, Link::attach(self.heap, self.idle));
                Ok(format!(in alloc; "{}", dropped.drop_all())?)
            }
            _ => self.range_call(alloc, name, words),
        }
    }

    /// Makes a call that names a range of ids, and says what it answers.
    fn range_call(&mut self, alloc: Global, name: &str, words: &str) -> Result<String, Miss> {
        let (first, last) = two_numbers(words)?;
        match name {
            "fault" => Ok(format!(in alloc; "{:?}", self.link.settle_fault(first, last))?),
            "settle" => Ok(format!(in alloc; "{:?}", self.link.settle(first, last))?),
            "peer" => Ok(format!(in alloc; "{:?}", self.link.peer_settled(first, last))?),
            "bounds" => bounds(alloc, first, last),
            _ => Err(Miss::Unread("no such call")),
        }
    }

    /// Makes a call that has no answer.
    fn quiet_call(&mut self, name: &str, words: &str) -> Result<(), Miss> {
        match name {
            "attach" => self.attach(words)?,
            "drain" => self.link.drain(),
            "go" => self.link = Link::attach(self.heap, self.idle),
            _ => self.first = None,
        }
        Ok(())
    }

    fn attach(&mut self, words: &str) -> Result<(), Miss> {
        let (mode, numbers) = cut(words, ' ')?;
        let (allowed, numbers) = cut(numbers, ' ')?;
        let (most, count) = two_numbers(numbers)?;
        let Some(terms) = terms(mode_of(mode)?, number(allowed)?, most, count) else {
            return Err(Miss::Unread("refused bounds"));
        };
        self.link = Link::attach(self.heap, terms);
        Ok(())
    }

    /// Returns a transfer with the fields before the `<` and the payload after it.
    fn transfer(&mut self, alloc: Global, words: &str) -> Result<String, Miss> {
        let (fields, payload) = cut(words, '<')?;
        let payload = payload_of(alloc, payload)?;
        let answer = self.link.transfer(&transfer_of(fields)?, &payload);
        Ok(format!(in alloc; "{answer:?}")?)
    }

    fn take(&mut self, alloc: Global) -> Result<String, Miss> {
        let Some(taken) = self.link.take() else {
            return Ok(String::from_str(alloc, "None")?);
        };
        let answer = shown_taken(alloc, &taken)?;
        if self.first.is_none() {
            self.first = Some(taken);
        }
        Ok(answer)
    }

    /// Reads the first message that was handed up.
    fn read(&self, alloc: Global, name: &str, words: &str) -> Result<String, Miss> {
        let message = &self.first.as_ref().ok_or("nothing is taken")?.message;
        match name {
            "message" => copied(alloc, self.heap, message),
            "piece" => piece(alloc, message, words),
            "pieces" => joined(alloc, message),
            "sizes" => sizes(alloc, message),
            _ => written(alloc, message, words),
        }
    }

    /// Its numbers, by their names.
    fn numbers(&self, alloc: Global) -> Result<String, AllocError> {
        let (credit, count) = (self.link.credit(), self.link.delivery_count());
        let (opened, ready) = (self.link.opened(), self.link.ready());
        let (room, held) = (self.link.room(), self.link.held());
        format!(in alloc;
            "credit={credit} count={count} opened={opened} ready={ready} room={room} held={held}"
        )
    }

    /// Returns what the next transfer is, the id of the delivery that it goes on with, and whether the sender is
    /// asked to use its credit up.
    fn standing_of_it(&self, alloc: Global) -> Result<String, AllocError> {
        let next = if self.link.next_is_head() {
            "head"
        } else {
            "rest"
        };
        let drain = if self.link.is_draining() {
            "draining"
        } else {
            "steady"
        };
        let id = self.link.unfinished_id();
        format!(in alloc; "{next} unfinished={id:?} {drain}")
    }

    /// Returns the ids below 16 that are open.
    fn open_ids(&self, alloc: Global) -> Result<String, AllocError> {
        let mut text = String::from_str(alloc, "open=")?;
        let mut mark = "";
        for id in 0..16 {
            if self.link.has_open(id) {
                text.push_str(&format!(in alloc; "{mark}{id}")?)?;
                mark = ",";
            }
        }
        Ok(text)
    }
}

impl Subject for LinkRows<'_> {
    fn begin(&mut self) {
        self.link = Link::attach(self.heap, self.idle);
        self.first = None;
    }

    fn call(&mut self, alloc: Global, words: &str) -> Result<String, Miss> {
        let (name, words) = name_of(words);
        match name {
            "attach" | "drain" | "go" | "let_go" => {
                self.quiet_call(name, words)?;
                Ok(String::from_str(alloc, "()")?)
            }
            "transfer" => self.transfer(alloc, words),
            "take" => self.take(alloc),
            "message" | "piece" | "pieces" | "sizes" | "write" => self.read(alloc, name, words),
            _ => self.plain_call(alloc, name, words),
        }
    }

    fn shown(&self, alloc: Global) -> Result<String, Miss> {
        let (numbers, open) = (self.numbers(alloc)?, self.open_ids(alloc)?);
        let standing = self.standing_of_it(alloc)?;
        Ok(format!(in alloc; "{numbers} {open} {standing}")?)
    }
}

/// None if a link can't have these bounds.
fn terms(
    rcv_settle_mode: ReceiverSettleMode,
    allowed: u32,
    max_message_size: u32,
    initial_delivery_count: u32,
) -> Option<Terms> {
    Some(Terms {
        initial_delivery_count,
        rcv_settle_mode,
        bounds: LinkBounds::new(allowed, max_message_size)?,
    })
}

fn least_terms() -> Option<Terms> {
    terms(ReceiverSettleMode::First, 1, 1, 0)
}

/// Returns the bounds that were requested, or `None` where a link can't have them.
fn bounds(alloc: Global, allowed: u32, max_message_size: u32) -> Result<String, Miss> {
    match LinkBounds::new(allowed, max_message_size) {
        None => Ok(String::from_str(alloc, "None")?),
        Some(bounds) => {
            let (allowed, most) = (bounds.allowed(), bounds.max_message_size());
            Ok(format!(in alloc; "{allowed} {most}")?)
        }
    }
}
