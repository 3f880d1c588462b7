//! A sender, an endpoint, and the two pipes between them.
ghost use Rattle.std.specs.Prelude.{◌≡◌, ◌≤◌, length, take, drop, IfOk, OnOk};
ghost use Rattle.amqp_endpoint.specs.Runs as of_endpoint;
ghost use Rattle.amqp_pair.specs.Turns.{Offer, ToEndpoint, ToSender, Ask, turn_of, AreStart, TurnDone, IsFilled, IsFedWhole, IsAnswered, IsHeardWhole};
ghost use Rattle.amqp_session.specs.Calls.{Widen, Grant, Drain, Take, Settle};
ghost use Rattle.amqp_send.specs.Keeping.{terms_of};
ghost use Rattle.std.specs.String.{string_bytes};

use crate::turn::{Turn, TurnAnswer};
use amqp_endpoint::laws::are_bytes;
use amqp_endpoint::{Config, Endpoint, Fed};
use amqp_link::Taken;
use amqp_perform::Outcome;
use amqp_send::{News, SendConfig, Sender};
use std::alloc::{AllocError, Allocator, Global};
use std::marker::Model;

/// How many bytes a pipe holds.
const PIPE_SIZE: usize = 8192;

/// Both ends, the bytes on their way to each, and the messages that were taken.
#[derive(Drop)]
pub struct Pair<A: Allocator + Copy = Global> {
    pub sender: Sender<A>,
    pub endpoint: Endpoint<A>,
    to_endpoint: Vec<u8, A>,
    to_sender: Vec<u8, A>,
    pub taken: Vec<Taken<A>, A>,
}

impl<A: Allocator + Copy> Model for Pair<A> {
    ghost use Rattle.std.specs.Prelude.{◌≤◌, length, map};
    ghost use Rattle.amqp_endpoint.specs.Endpoints.{handed_in};
    ghost use Rattle.amqp_pair.specs.Turns.{Ends};

    ghost Value = { Ends };

    ghost view = { λ a. record { sender = a.sender; endpoint = a.endpoint; to_endpoint = a.to_endpoint.items; to_sender = a.to_sender.items; taken = map handed_in a.taken.items } };

    ghost invariant = { λ a. (length a.to_endpoint.items ≤ 8192) × (length a.to_sender.items ≤ 8192) };
}

impl<A: Allocator + Copy> Pair<A> {
    /// Makes new ends and empty pipes. An error says that memory was refused.
    pub fn new(alloc: A, config: Config<A>, send_config: SendConfig<A>) -> Result<Self, AllocError>
        requires container_id { length (string_bytes send_config.container_id) ≤ 255 }
        requires name { length (string_bytes send_config.name) ≤ 255 }
        ensures { IfOk result (λ p. AreStart config (terms_of send_config) p) }
    {
        Ok(Pair {
            sender: Sender::new(alloc, send_config)?,
            endpoint: Endpoint::new(alloc, config)?,
            to_endpoint: Vec::new(alloc),
            to_sender: Vec::new(alloc),
            taken: Vec::new(alloc),
        })
    }

    /// Makes one turn. The only error is that memory is refused: for the copy of a message, for bytes that are moved, or
    /// for the list of the messages that were taken.
    pub fn make(&mut self, alloc: A, turn: &Turn<'_>) -> Result<TurnAnswer, AllocError>
        ensures { IfOk result (λ answer. TurnDone self.old self.new (turn_of turn.now) answer) }
    {
        match *turn {
            Turn::Offer(message) => self.offer(alloc, message),
            Turn::ToEndpoint(n) => self.to_endpoint(alloc, n),
            Turn::ToSender(n) => self.to_sender(alloc, n),
            Turn::Take => self.take(),
            Turn::Grant(n) => Ok(self.grant(n)),
            Turn::Widen(n) => Ok(self.widen(n)),
            Turn::Drain => Ok(self.drain()),
            Turn::Settle { id, outcome } => Ok(self.settle(id, outcome)),
        }
    }

    /// Offers a copy of the message.
    fn offer(&mut self, alloc: A, message: &[u8]) -> Result<TurnAnswer, AllocError>
        ensures { IfOk result (λ answer. TurnDone self.old self.new (Offer message.now) answer) }
    {
        let copy = Vec::from_slice(alloc, message)?;
        Ok(match self.sender.offer(copy) {
            Ok(()) => TurnAnswer::TakenOver,
            Err((fault, _)) => TurnAnswer::NotTakenOver(fault),
        })
    }

    /// Moves bytes of the sender into its pipe, and feeds the whole pipe to the endpoint.
    #[tactic(auto, using(crate::proofs::Joining::fed_behind))]
    fn to_endpoint(&mut self, alloc: A, n: usize) -> Result<TurnAnswer, AllocError>
        ensures { IfOk result (λ answer. TurnDone self.old self.new (ToEndpoint n) answer) }
    {
        self.fill(alloc, n)?;
        Ok(TurnAnswer::EndpointFed(self.feed()))
    }

    /// Moves bytes of the sender into its pipe.
    fn fill(&mut self, alloc: A, n: usize) -> Result<(), AllocError>
        ensures { OnOk result (IsFilled self.old self.new n) }
    {
        let room = n.min(PIPE_SIZE - self.to_endpoint.len());
        let mut bytes = Vec::from_elem(alloc, 0, room)?;
        let count = self.sender.output(bytes.as_mut_slice());
        self.to_endpoint.extend_from_slice(&bytes[..count])?;
        Ok(())
    }

    /// Feeds the whole pipe to the endpoint, once.
    fn feed(&mut self) -> Fed
        ensures { IsFedWhole self.old self.new result }
    {
        are_bytes(&self.to_endpoint);
        let fed = self.endpoint.feed(&self.to_endpoint);
        drop_front(&mut self.to_endpoint, fed.used);
        fed
    }

    /// Moves bytes of the endpoint into its pipe, and feeds the whole pipe to the sender.
    fn to_sender(&mut self, alloc: A, n: usize) -> Result<TurnAnswer, AllocError>
        ensures { IfOk result (λ answer. TurnDone self.old self.new (ToSender n) answer) }
    {
        self.answer(alloc, n)?;
        let (used, news) = self.hear();
        Ok(TurnAnswer::SenderFed { used, news })
    }

    /// Moves bytes of the endpoint into its pipe.
    fn answer(&mut self, alloc: A, n: usize) -> Result<(), AllocError>
        ensures { OnOk result (IsAnswered self.old self.new n) }
    {
        let room = n.min(PIPE_SIZE - self.to_sender.len());
        let mut bytes = Vec::from_elem(alloc, 0, room)?;
        let count = output_of(&mut self.endpoint, bytes.as_mut_slice());
        self.to_sender.extend_from_slice(&bytes[..count])?;
        Ok(())
    }

    /// Feeds the whole pipe to the sender, once.
    fn hear(&mut self) -> (usize, Option<News>)
        ensures { IsHeardWhole self.old self.new result.0 result.1 }
    {
        let (used, news) = self.sender.feed(&self.to_sender);
        drop_front(&mut self.to_sender, used);
        (used, news)
    }

    /// Takes the first ready delivery, and keeps it.
    fn take(&mut self) -> Result<TurnAnswer, AllocError>
        ensures { IfOk result (λ answer. TurnDone self.old self.new (Ask (Take 0)) answer) }
    {
        Ok(match self.endpoint.take(0, 0) {
            Ok(taken) => {
                self.taken.push(taken)?;
                TurnAnswer::HandedUp
            }
            Err(fault) => TurnAnswer::Refused(fault),
        })
    }

    /// Gives the link credit.
    fn grant(&mut self, n: u32) -> TurnAnswer
        ensures { TurnDone self.old self.new (Ask (Grant 0 n)) result }
    {
        match self.endpoint.grant(0, 0, n) {
            Ok(()) => TurnAnswer::Accepted,
            Err(fault) => TurnAnswer::Refused(fault),
        }
    }

    /// Widens the window.
    fn widen(&mut self, n: u32) -> TurnAnswer
        ensures { TurnDone self.old self.new (Ask (Widen n)) result }
    {
        match self.endpoint.widen(0, n) {
            Ok(()) => TurnAnswer::Accepted,
            Err(fault) => TurnAnswer::Refused(fault),
        }
    }

    /// Asks the sender to use its credit up.
    fn drain(&mut self) -> TurnAnswer
        ensures { TurnDone self.old self.new (Ask (Drain 0)) result }
    {
        match self.endpoint.drain(0, 0) {
            Ok(()) => TurnAnswer::Accepted,
            Err(fault) => TurnAnswer::Refused(fault),
        }
    }

    /// Settles a delivery with its outcome.
    fn settle(&mut self, id: u32, outcome: Outcome) -> TurnAnswer
        ensures { TurnDone self.old self.new (Ask (Settle id outcome)) result }
    {
        match self.endpoint.settle(0, id, outcome) {
            Ok(()) => TurnAnswer::Accepted,
            Err(fault) => TurnAnswer::Refused(fault),
        }
    }
}

/// What a list of turns resulted in.
#[derive(Drop)]
pub struct Joined<A: Allocator + Copy = Global> {
    /// One answer for each turn.
    pub answers: Vec<TurnAnswer, A>,
    /// The pair after the last turn.
    pub pair: Pair<A>,
}

/// Drops the first bytes.
fn drop_front<A: Allocator + Copy>(bytes: &mut Vec<u8, A>, count: usize)
    requires { count ≤ length bytes.old.items }
    ensures { bytes.new.items ≡ drop count bytes.old.items }
{
    bytes.rotate_left(count);
    let left = bytes.len() - count;
    bytes.truncate(left);
}

/// Moves out the first bytes that wait to be sent, as many as the room holds, and returns how many.
fn output_of<A: Allocator + Copy>(endpoint: &mut Endpoint<A>, room: &mut [u8]) -> usize
    ensures bound { result ≤ length room.old }
    ensures does { of_endpoint.Does endpoint.old endpoint.new (of_endpoint.Output (length room.old)) (of_endpoint.MovedOut (take result room.new)) }
{
    endpoint.output(room)
}
