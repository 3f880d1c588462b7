//! What a gateway counts.

ghost use Rattle.std.specs.Prelude.{◌≡◌};
ghost use Rattle.amqp_gateway.specs.Counts.{counted, ended_by, recorded_by};

use crate::ending::Ending;
use amqp_serve::{Receipt, Stepped};

/// What a gateway has counted since it began. Each number stops at `u64::MAX`.
#[derive(Clone, Copy, Debug, PartialEq, Eq)]
pub struct Counts {
    /// Connections that were accepted.
    pub accepted: u64,
    /// Connections that ended, by how they ended: in the order of [`Ending::ALL`].
    pub ended: [u64; 12],
    /// Messages that were recorded, and their bytes.
    pub messages: u64,
    pub bytes: u64,
}

impl Counts {
    pub const NONE: Counts = Counts {
        accepted: 0,
        ended: [0; 12],
        messages: 0,
        bytes: 0,
    };

    /// Counts a connection that ended.
    pub fn end(&mut self, ending: Ending)
        ensures ended { self.new ≡ ended_by ending self.old }
        ensures accepted { self.new.accepted ≡ self.old.accepted }
        ensures messages { self.new.messages ≡ self.old.messages }
        ensures bytes { self.new.bytes ≡ self.old.bytes }
    {
        let at = ending.place();
        self.ended[at] = self.ended[at].saturating_add(1);
    }

    /// Counts what a step recorded.
    pub fn step(&mut self, stepped: &Stepped)
        ensures counted { self.new ≡ counted self.old (recorded_by stepped.now.done) }
        ensures accepted { self.new.accepted ≡ self.old.accepted }
    {
        let Ok(done) = stepped.done else {
            return;
        };
        if let Receipt::Settled(message)
        | Receipt::Told(message)
        | Receipt::Untold(message, _) = done.receipt
        {
            self.messages = self.messages.saturating_add(1);
            self.bytes = self.bytes.saturating_add(message.len as u64);
        }
    }
}
