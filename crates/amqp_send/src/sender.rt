//! A sender over one connection.
ghost use Rattle.std.specs.Prelude.{◌≡◌, ◌≤◌, ◌<◌, ◌++◌, ℕ, min, [], length, take, drop, IfOk, IfErr, OnOk, IsTrue, IsFalse, Some, None, true, false, ◌↔◌};
ghost use Rattle.std.specs.String.{string_bytes};
ghost use Rattle.amqp_frame.specs.Splits.{IsEmptied, Waits};
ghost use Rattle.amqp_frame.specs.Units.{StreamUnit, due_after};
ghost use Rattle.amqp_send.specs.Calls.{SenderState};
ghost use Rattle.amqp_send.specs.Keeping.{terms_of};
ghost use Rattle.amqp_send.specs.Runs.{Offer, Output, Close, TakenOver, Refused, MovedOut, Closed, Does, IsFed, IsStart};
ghost use Rattle.amqp_send.specs.Tellings.{told_of, IsLawful};
ghost use Rattle.amqp_send.specs.Sendings.{SendEvent, send_after, sent_news, offer_fault, has_room, may_close, can_write, left_to_send};

use crate::config::SendConfig;
use crate::flow_state::MAX_FRAME_SIZE;
use crate::laws::lengths_of_frames;
use crate::news::{News, OfferFault};
use crate::sending::Sending;
use crate::telling::told_by_unit;
use amqp_frame::Splitter;
use std::alloc::{AllocError, Allocator, Global};
use std::marker::Model;

/// How much room the pipe must have before a unit is acted upon.
const ANSWER_ROOM: usize = 64;

/// A sender over one connection, with one session on channel 0 and one link on handle 0 [2.4, 2.5, 2.6].
///
/// It sends one message at a time, each as one delivery. A first frame needs credit from the receiver. Each
/// frame needs a place in the receiver's window and room in the output pipe of 8192 bytes. Only
/// [`Sender::new`] takes memory.
#[derive(Drop)]
pub struct Sender<A: Allocator + Copy = Global> {
    input: Splitter<A>,
    sending: Sending<A>,
}

impl<A: Allocator + Copy> Model for Sender<A> {
    ghost use Rattle.amqp_send.specs.Calls.{SenderState, IsSender};

    ghost Value = { SenderState };

    ghost view = { λ a. record { input = a.input; sending = a.sending } };

    ghost invariant = { λ a. IsSender a.input a.sending };
}

impl<A: Allocator + Copy> Sender<A> {
    /// Makes a sender that has written the protocol header [2.2].
    ///
    /// The opening follows once the receiver's header has come. The container-id and the link's name have at
    /// most 255 bytes each. Takes all the memory that the sender ever needs; an error says that it is refused.
    pub fn new(alloc: A, config: SendConfig<A>) -> Result<Self, AllocError>
        requires container_id { length (string_bytes config.container_id) ≤ 255 }
        requires name { length (string_bytes config.name) ≤ 255 }
        ensures { IfOk result (λ s. IsStart (terms_of config) s) }
    {
        Ok(Sender {
            input: Splitter::new(alloc, MAX_FRAME_SIZE as usize)?,
            sending: Sending::new(alloc, config)?,
        })
    }

    /// Takes a message over, which is sent as the receiver allows.
    ///
    /// The message comes back with `Busy` while the last frame of another one is not yet in the pipe, and with
    /// `Ended` once the sender has ended or was closed; the sender is then unchanged.
    pub fn offer(&mut self, message: Vec<u8, A>) -> Result<(), (OfferFault, Vec<u8, A>)>
        ensures ok { OnOk result ((offer_fault self.old.sending ≡ None) × (self.new ≡ record self.old { sending = send_after self.old.sending (SendEvent.Offered message.items) })) }
        ensures err { IfErr result (λ e. (offer_fault self.old.sending ≡ Some e.0) × (e.1.items ≡ message.items) × (self.new ≡ self.old)) }
        ensures taken_over { OnOk result (Does self.old self.new (Offer message.items) TakenOver) }
        ensures refused { IfErr result (λ e. Does self.old self.new (Offer message.items) (Refused e.0)) }
        ensures written { can_write self.new.sending ≡ false }
    {
        if let Some(fault) = self.sending.offer_fault() {
            return Err((fault, message));
        }
        self.sending.offer(message);
        self.sending.write_all();
        Ok(())
    }

    /// Takes bytes of the receiver up to the end of its header, of one frame, or to the byte that shows that
    /// there is none, and returns how many, with what they brought.
    ///
    /// A whole unit is acted upon if the pipe has 64 bytes of room, and the frames that may then be written are
    /// written. Otherwise the unit waits: no byte is taken while it does, and the next call tries it again.
    pub fn feed(&mut self, piece: &[u8]) -> (usize, Option<News>)
        ensures bound { result.0 ≤ length piece.now }
        ensures does { IsFed self.old self.new piece.now result.0 result.1 }
        ensures written { can_write self.new.sending ≡ false }
    {
        let used = self.input.push(piece);
        (used, self.act())
    }

    /// Acts upon the unit that waits, if one does and the pipe has room for an answer.
    fn act(&mut self) -> Option<News>
        ensures acted { (u : StreamUnit) → Waits self.old.input u → has_room self.old.sending ≡ true
            → IsEmptied self.old.input self.new.input (due_after u) × (self.new.sending ≡ send_after self.old.sending (SendEvent.Acted u)) × (result ≡ sent_news self.old.sending u) }
        ensures waits { has_room self.old.sending ≡ false → (self.new ≡ self.old) × (result ≡ None) }
        ensures none { ((u : StreamUnit) → Waits self.old.input u → ⊥) → (self.new ≡ self.old) × (result ≡ None) }
        ensures lawful { (u : StreamUnit) → Waits self.old.input u → has_room self.old.sending ≡ true → IsLawful (told_of u) }
        ensures written { can_write self.new.sending ≡ false }
    {
        if self.sending.room() < ANSWER_ROOM {
            return None;
        }
        let told = told_by_unit(&self.input)?;
        self.input.drop_frame();
        let news = self.sending.hear(told);
        self.sending.write_all();
        news
    }

    /// Moves the first bytes that wait to be sent into `out`, as many as it holds, and returns how many.
    ///
    /// The frames for which there is room then are written after the others, so more may wait after the call.
    pub fn output(&mut self, out: &mut [u8]) -> usize
        ensures count { result ≡ min (length out.old) (length self.old.sending.unsent) }
        ensures read { out.new ≡ take result self.old.sending.unsent ++ drop result out.old }
        ensures new { self.new ≡ record self.old { sending = send_after self.old.sending (SendEvent.Moved result) } }
        ensures does { Does self.old self.new (Output (length out.old)) (MovedOut (take result out.new)) }
        ensures written { can_write self.new.sending ≡ false }

        // So a loop that moves all out ends.
        ensures less { 0 < result → left_to_send self.new.sending < left_to_send self.old.sending }
    {
        lengths_of_frames();
        let count = self.sending.read_into(out);
        self.sending.write_all();
        count
    }

    /// Closes the connection: writes the close and returns true [2.4.3].
    ///
    /// After that only the receiver's close counts. Returns false, with nothing changed, before the opening is
    /// written, once the sender was closed or has ended, and if the pipe has fewer than 12 bytes of room.
    pub fn close(&mut self) -> bool
        ensures may { result ≡ may_close self.old.sending }
        ensures closed { IsTrue result → self.new ≡ record self.old { sending = send_after self.old.sending SendEvent.CloseWritten } }
        ensures unchanged { IsFalse result → self.new ≡ self.old }
        ensures does { Does self.old self.new Close (Closed result) }
        ensures written { can_write self.new.sending ≡ false }
    {
        let closed = self.sending.close();
        if closed {
            self.sending.write_all();
        }
        closed
    }
}
