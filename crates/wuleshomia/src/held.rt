//! What a handle holds.
ghost use Rattle.std.specs.Prelude.{◌≡◌, ◌++◌, nat_lt, min, length, take, drop, None};
ghost use Rattle.amqp_serve.specs.Servers.{lost_by};
ghost use Rattle.wuleshomia.specs.Exports.{next_of, Moves};
ghost use Rattle.wuleshomia.specs.Serving.{serve_refusal, HasServed};

use crate::codes::{UNSENT, of_lost};
use crate::waiting::{Gathered, Waiting};
use amqp_endpoint::Endpoint;
use amqp_frame::Device;
use amqp_link::Message;
use amqp_serve::{Course, Done, Rule, ServeFault, Stepped, serve_piece};
use std::alloc::Global;

/// An endpoint, and the message that was taken last, until the next one is. Of the last step of serving it has the
/// answers and the records that were not moved out yet, and which of these are lost.
#[derive(Drop)]
pub struct Held {
    pub endpoint: Endpoint,
    pub message: Option<Message>,
    pub answers: Waiting,
    pub records: Waiting,
    pub lost: Option<ServeFault>,
}

impl Held {
    /// Returns whether bytes for the peer wait.
    pub fn has_output(&self) -> bool
        ensures { result ≡ nat_lt 0 (length (next_of self.now.answers self.now.endpoint.unsent)) }
    {
        self.answers.len() > 0 || !self.endpoint.is_all_sent()
    }

    /// Moves bytes for the peer into `room`, the answers of the last step first, and returns how many.
    pub fn output(&mut self, alloc: Global, room: &mut [u8]) -> usize
        ensures count { result ≡ min (length room.old) (length (next_of self.old.answers self.old.endpoint.unsent)) }
        ensures room { room.new ≡ take result (next_of self.old.answers self.old.endpoint.unsent) ++ drop result room.old }
        ensures moves { Moves (length room.old) self.old self.new }
    {
        if self.answers.len() == 0 {
            self.endpoint.output(room)
        } else {
            self.answers.move_into(alloc, room)
        }
    }

    /// Returns the code of why a step is refused, or `None` if it is not.
    pub fn serve_refusal(&self) -> Option<u32>
        ensures { result ≡ serve_refusal self.now }
    {
        if let Some(fault) = self.lost {
            return Some(of_lost(fault));
        }
        if self.has_output() || self.records.len() > 0 {
            Some(UNSENT)
        } else {
            None
        }
    }

    /// Serves a piece of what the peer sent, up to the end of one unit. The answers and the records wait then.
    pub fn serve(&mut self, alloc: Global, rule: Rule, piece: &[u8]) -> Stepped
        requires { serve_refusal self.old ≡ None }
        ensures { HasServed rule piece.now result self.old self.new }
    {
        let mut course = Course {
            rule,
            supplied: false,
        };
        let mut writer = Device::new(Gathered::new(self.answers.emptied(alloc)));
        let mut sink = Device::new(Gathered::new(self.records.emptied(alloc)));
        let stepped = serve_piece(
            &mut self.endpoint,
            &mut course,
            piece,
            &mut writer,
            &mut sink,
        );
        self.answers = Waiting::of(writer.into_inner().into_bytes());
        self.records = Waiting::of(sink.into_inner().into_bytes());
        self.lost = lost_by(stepped.done);
        stepped
    }
}

/// Returns the fault of a step that lost answers or records.
fn lost_by(done: Result<Done, ServeFault>) -> Option<ServeFault>
    ensures { result ≡ lost_by done }
{
    match done {
        Err(ServeFault::Write) => Some(ServeFault::Write),
        Err(ServeFault::Sink) => Some(ServeFault::Sink),
        _ => None,
    }
}
