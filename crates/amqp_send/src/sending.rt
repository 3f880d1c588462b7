//! What a sender says and sends, without the bytes that come in.
ghost use Rattle.std.specs.Prelude.{◌≡◌, ◌≤◌, ◌+◌, ◌++◌, ℕ, min, length, take, drop, is_none, ◌&&◌, IfOk, IfErr, OnOk, Some, None, true, false, if◌then◌else◌};
ghost use Rattle.std.specs.String.{string_bytes};
ghost use Rattle.amqp_perform.specs.declared.condition.Condition.{Condition};
ghost use Rattle.amqp_send.specs.Flows as flows;
ghost use Rattle.amqp_send.specs.Keeping.{terms_of};
ghost use Rattle.amqp_send.specs.Sendings as spec;
ghost use Rattle.amqp_send.specs.Tellings.{IsLawful};
ghost use Rattle.amqp_send.specs.Sendings.{Message, sending_begins, answered, heard_in, news_in, can_write, wrote, all_written, changed, SendEvent, offer_fault, may_close, pipe_size};

use crate::config::SendConfig;
use crate::flow_state::FlowState;
use crate::frames;
use crate::laws::lengths_of_frames;
use crate::news::{News, OfferFault};
use crate::outgoing::{Outgoing, write_frame_of};
use crate::output::Output;
use crate::talk::Talk;
use crate::telling::{Limits, Telling};
use amqp_frame::HEADER;
use amqp_perform::Condition;
use std::alloc::{AllocError, Allocator, Global};
use std::marker::Model;

/// How many bytes the frame of a close has.
const CLOSE_ROOM: usize = 12;

/// What a sender says and sends.
#[derive(Drop)]
pub struct Sending<A: Allocator + Copy = Global> {
    config: SendConfig<A>,
    talk: Talk,
    flow: FlowState,
    message: Option<Outgoing<A>>,
    output: Output<A>,
}

impl<A: Allocator + Copy> Model for Sending<A> {
    ghost use Rattle.amqp_send.specs.Sendings.{Sending};

    ghost Value = { Sending };

    ghost use Rattle.amqp_send.specs.Keeping.{terms_of};
    ghost use Rattle.amqp_send.specs.Calls.{IsSending};

    ghost view = { λ a. record { terms = terms_of a.config; talk = a.talk; flow = a.flow; message = a.message; unsent = a.output } };

    ghost invariant = { λ a. IsSending (terms_of a.config) a.talk a.flow a.output };
}

impl<A: Allocator + Copy> Sending<A> {
    /// Makes a sending that has written the header. An error says that memory was refused.
    pub fn new(alloc: A, config: SendConfig<A>) -> Result<Self, AllocError>
        requires container_id { length (string_bytes config.container_id) ≤ 255 }
        requires name { length (string_bytes config.name) ≤ 255 }
        ensures { IfOk result (λ s. s ≡ sending_begins (terms_of config)) }
    {
        let mut output = Output::new(alloc)?;
        output.put_bytes(&HEADER);
        Ok(Sending {
            config,
            talk: Talk::Silent,
            flow: FlowState::new(),
            message: None,
            output,
        })
    }

    /// Returns how many more bytes the pipe holds.
    pub fn room(&self) -> usize
        ensures { length self.now.unsent + result ≡ pipe_size }
    {
        self.output.room()
    }

    /// Returns why a message is not taken over; `None` if it may be.
    pub fn offer_fault(&self) -> Option<OfferFault>
        ensures { result ≡ offer_fault self.now }
    {
        match self.talk {
            Talk::Ended(condition) => Some(OfferFault::Ended(condition)),
            Talk::Closing => Some(OfferFault::Ended(Condition::Other)),
            Talk::Silent | Talk::Talking => match self.message {
                Some(_) => Some(OfferFault::Busy),
                None => None,
            },
        }
    }

    /// Takes a message over.
    pub fn offer(&mut self, message: Vec<u8, A>)
        ensures { self.new ≡ changed self.old (SendEvent.Offered message.items) }
    {
        self.message = Some(Outgoing::new(message));
    }

    /// Acts upon what a unit of the receiver told, and returns the news of it.
    pub fn hear(&mut self, told: Telling) -> Option<News>
        requires room { length self.old.unsent + 64 ≤ pipe_size }
        requires lawful { IsLawful told }
        ensures new { self.new ≡ heard_in self.old.talk told self.old }
        ensures news { result ≡ news_in self.old.talk told }
    {
        match self.talk {
            Talk::Silent => self.greet(told),
            Talk::Talking => self.listen(told),
            Talk::Closing => self.listen_closing(told),
            Talk::Ended(_) => None,
        }
    }

    /// Acts upon the receiver's header: the opening follows, or the sender ends.
    fn greet(&mut self, told: Telling) -> Option<News>
        requires { self.old.talk ≡ Talk.Silent }
        ensures new { self.new ≡ spec.greeted told self.old }
        ensures news { result ≡ spec.greeted_news told }
    {
        match told {
            Telling::Nothing => {
                frames::put_opening(&self.config, &mut self.output);
                self.talk = Talk::Talking;
                None
            }
            _ => self.end(Condition::Other),
        }
    }

    /// Acts upon what is told while the sender talks.
    fn listen(&mut self, told: Telling) -> Option<News>
        requires talking { self.old.talk ≡ Talk.Talking }
        requires room { length self.old.unsent + 64 ≤ pipe_size }
        requires lawful { IsLawful told }
        ensures new { self.new ≡ spec.heard told self.old }
        ensures news { result ≡ spec.heard_news told }
    {
        match told {
            Telling::Nothing => None,
            Telling::Opened(max_frame_size) => {
                self.flow = self.flow.opened(max_frame_size);
                None
            }
            Telling::Begun(next_outgoing_id, incoming_window) => {
                self.flow = self.flow.begun(next_outgoing_id, incoming_window);
                None
            }
            Telling::Flowed(limits) => {
                self.answer(limits);
                None
            }
            Telling::Disposed(first, last, outcome) => Some(News::Disposition {
                first,
                last,
                outcome,
            }),
            Telling::Left(condition) | Telling::Closed(condition) => self.end(condition),
            Telling::Unread => self.end(Condition::Other),
        }
    }

    /// Acts upon what is told after the sender's own close: only the receiver's close counts
    /// [2.4.3].
    fn listen_closing(&mut self, told: Telling) -> Option<News>
        ensures new { self.new ≡ spec.heard_closing told self.old }
        ensures news { result ≡ spec.closing_news told }
    {
        match told {
            Telling::Closed(condition) => self.end(condition),
            _ => None,
        }
    }

    /// Ends the sender.
    fn end(&mut self, condition: Condition) -> Option<News>
        ensures new { self.new ≡ spec.ended condition self.old }
        ensures news { result ≡ Some (News.Ended condition) }
    {
        self.talk = Talk::Ended(condition);
        Some(News::Ended(condition))
    }

    /// Takes the limits of a flow, and answers the flow if it asks for that.
    fn answer(&mut self, limits: Limits)
        requires talking { self.old.talk ≡ Talk.Talking }
        requires room { length self.old.unsent + 64 ≤ pipe_size }
        ensures { self.new ≡ spec.flowed limits self.old }
    {
        let drains = limits.of_link && limits.drain && self.message.is_none();
        self.flow = self.flow.limited(limits);
        if drains {
            self.flow = self.flow.drained();
            frames::put_flow(self.flow, true, &mut self.output);
        } else if limits.echo {
            frames::put_flow(self.flow, false, &mut self.output);
        }
    }

    /// Writes the next frame of the message if it may be written, and returns whether it may.
    fn write_next(&mut self) -> bool
        ensures new { self.new ≡ wrote self.old }
        ensures did { result ≡ can_write self.old }
        ensures frames { 512 ≤ self.old.flow.max_frame_size }
    {
        match self.talk {
            Talk::Talking => {}
            Talk::Silent | Talk::Closing | Talk::Ended(_) => return false,
        }
        match &mut self.message {
            None => false,
            Some(message) => {
                let (goes, ends) = write_frame_of(message, &mut self.flow, &mut self.output);
                if ends {
                    self.message = None;
                }
                goes
            }
        }
    }

    /// Writes each frame of the message that may be written.
    pub fn write_all(&mut self)
        ensures new { self.new ≡ all_written self.old }
        ensures none { can_write self.new ≡ false }
    {
        lengths_of_frames();
        'frames: while self.write_next() {}
    }

    /// Writes the close if the sender talks and there is room, and returns whether that is so.
    pub fn close(&mut self) -> bool
        ensures may { result ≡ may_close self.old }
        ensures new { self.new ≡ (if result then changed self.old SendEvent.CloseWritten else self.old) }
    {
        match self.talk {
            Talk::Talking if self.output.room() >= CLOSE_ROOM => {
                frames::put_close(&mut self.output);
                self.talk = Talk::Closing;
                true
            }
            _ => false,
        }
    }

    /// Moves the first bytes that wait into `out`, as many as it holds, and returns how many.
    pub fn read_into(&mut self, out: &mut [u8]) -> usize
        ensures count { result ≡ min (length out.old) (length self.old.unsent) }
        ensures read { out.new ≡ take result self.old.unsent ++ drop result out.old }
        ensures new { self.new ≡ changed self.old (SendEvent.Moved result) }
        ensures frames { 512 ≤ self.old.flow.max_frame_size }
    {
        self.output.read_into(out)
    }
}
