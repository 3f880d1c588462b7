//! The receiver.
ghost use Rattle.std.specs.Prelude.{◌≡◌, ◌≤◌, ◌+◌, ◌++◌, ◌↔◌, length, take, drop, min, IfOk, IsSome, MatchOption};
ghost use Rattle.amqp_endpoint.specs.declared.event.Event.{Event};
ghost use Rattle.amqp_endpoint.specs.declared.event.Outcome.{Outcome};
ghost use Rattle.amqp_endpoint.specs.Connections.{is_dead};
ghost use Rattle.amqp_endpoint.specs.Held.{held};
ghost use Rattle.amqp_endpoint.specs.Uses.{held_by_any, IsAccepted};
ghost use Rattle.amqp_session.specs.Calls.{Take};
ghost use Rattle.example_one_link.specs.Counted.{IsStill};

use amqp_endpoint::laws::{
    are_bytes, is_id, uses_are_bounded, uses_are_counted, what_follows_is_accepted,
};
use amqp_endpoint::{Config, Endpoint, Event, Fed, Outcome};
use amqp_link::Taken;
use amqp_perform::Outcome as Settlement;
use std::alloc::{AllocError, Allocator, Global};
use std::marker::Model;

/// A receiver that grants the link at handle 0 of the session on channel 0 its credit, once; a later link there gets none.
#[derive(Drop)]
pub struct Receiver<A: Allocator + Copy = Global> {
    endpoint: Endpoint<A>,
    credit: u32,
    granted: u32,
    got: u32,
}

impl<A: Allocator + Copy> Model for Receiver<A> {
    ghost use Rattle.example_one_link.specs.Counted.{ReceiverState, IsCounted};

    ghost Value = { ReceiverState };

    ghost view = { λ a. record { endpoint = a.endpoint; credit = a.credit; got = a.got } };

    ghost invariant = { λ a. IsCounted a.endpoint a.credit a.granted a.got };
}

impl<A: Allocator + Copy> Receiver<A> {
    /// Returns a receiver that grants this much credit, or what its link is allowed if that is less [2.6.7]. An
    /// error if memory for its endpoint is refused.
    pub fn new(alloc: A, config: Config<A>, credit: u32) -> Result<Self, AllocError>
        ensures config { IfOk result (λ r. r.endpoint.connection.config ≡ config) }
        ensures credit { IfOk result (λ r. r.credit ≡ credit) }
        ensures got { IfOk result (λ r. r.got ≡ 0) }
    {
        uses_are_counted();
        config.is_within();
        let endpoint = Endpoint::new(alloc, config)?;
        Ok(Receiver {
            endpoint,
            credit,
            granted: 0,
            got: 0,
        })
    }

    /// Takes bytes of the peer, up to the end of the header or of a frame at most [2.2, 2.3.1]. Returns what that
    /// resulted in, as [`Endpoint::feed`] does, and the message that it completed [2.6.14]. That is settled as
    /// accepted, unless its sender settled it or the output has no room for it [2.6.12]. The credit is granted
    /// once the link is there and the output has room [2.6.7].
    pub fn feed(&mut self, piece: &[u8]) -> (Fed, Option<Taken<A>>)
        ensures used { result.0.used ≤ length piece.now }
        ensures ready { (result.0.outcome ≡ Outcome.Event (Event.Ready 0 0)) ↔ IsSome result.1 }
        ensures got { MatchOption result.1 (self.new.got ≡ self.old.got) (λ _. self.new.got ≡ self.old.got + 1) }
        ensures still { IsStill self.old self.new }
    {
        let fed = self.feed_front(piece);
        let taken = match fed.outcome {
            Outcome::Event(
                Event::Ready {
                    channel: 0,
                    handle: 0,
                },
            ) => Some(self.take()),
            _ => None,
        };
        self.grant_once();
        (fed, taken)
    }

    fn feed_front(&mut self, piece: &[u8]) -> Fed
        ensures used { result.used ≤ length piece.now }
        ensures ready { result.outcome ≡ Outcome.Event (Event.Ready 0 0) → IsAccepted self.new.endpoint 0 (Take 0) }
        ensures got { self.new.got ≡ self.old.got }
        ensures still { IsStill self.old self.new }
    {
        uses_are_counted();
        uses_are_bounded();
        what_follows_is_accepted();
        are_bytes(piece);
        self.endpoint.feed(piece)
    }

    /// Takes the message that is ready, and settles it.
    fn take(&mut self) -> Taken<A>
        requires { IsAccepted self.old.endpoint 0 (Take 0) }
        ensures got { self.new.got ≡ self.old.got + 1 }
        ensures still { IsStill self.old self.new }
    {
        uses_are_counted();
        uses_are_bounded();
        match self.endpoint.take(0, 0) {
            Ok(taken) => {
                self.got += 1;
                self.settle(&taken);
                taken
            }
            Err(_) => unreachable!(),
        }
    }

    /// Settles a message that was taken, unless its sender did.
    fn settle(&mut self, taken: &Taken<A>)
        ensures got { self.new.got ≡ self.old.got }
        ensures still { IsStill self.old self.new }
    {
        uses_are_counted();
        uses_are_bounded();
        is_id(taken.delivery_id);
        if !taken.settled {
            let id = taken.delivery_id;
            let _ = self.endpoint.settle(0, id, Settlement::Accepted);
        }
    }

    /// Grants the credit, if it was not granted before. It is refused until the link is there, and while the
    /// output is full.
    fn grant_once(&mut self)
        ensures got { self.new.got ≡ self.old.got }
        ensures still { IsStill self.old self.new }
    {
        uses_are_counted();
        uses_are_bounded();
        if self.granted > 0 || self.credit == 0 {
            return;
        }
        let Some(link) = self.endpoint.link(0, 0) else {
            return;
        };
        let credit = self.credit.min(link.bounds.allowed());
        match self.endpoint.grant(0, 0, credit) {
            Ok(()) => self.granted = credit,
            Err(_) => {}
        }
    }

    /// Moves the first bytes that wait to be sent into `out`, as many as it holds, and returns how many.
    pub fn output(&mut self, out: &mut [u8]) -> usize
        ensures count { result ≡ min (length out.old) (length self.old.endpoint.unsent) }
        ensures read { out.new ≡ take result self.old.endpoint.unsent ++ drop result out.old }
        ensures got { self.new.got ≡ self.old.got }
        ensures still { IsStill self.old self.new }
    {
        uses_are_counted();
        uses_are_bounded();
        self.endpoint.output(out)
    }

    /// Returns how many messages it got: at most the credit that it was made with.
    pub fn got(&self) -> u32
        ensures value { result ≡ self.now.got }
        ensures most { result ≤ self.now.credit }
    {
        uses_are_bounded();
        self.got
    }

    /// Returns how many bytes its endpoint holds: at most what any endpoint of its configuration may hold.
    pub fn held(&self) -> u64
        ensures value { result ≡ held self.now.endpoint }
        ensures most { result ≤ held_by_any self.now.endpoint.connection.config }
    {
        uses_are_bounded();
        self.endpoint.held()
    }

    /// Returns whether the connection is over: no more bytes are used.
    pub fn is_over(&self) -> bool
        ensures { result ≡ is_dead self.now.endpoint.connection.phase }
    {
        self.endpoint.is_over()
    }
}
