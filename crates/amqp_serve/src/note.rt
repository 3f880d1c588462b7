//! What a step has done so far.
ghost use Rattle.std.specs.Prelude.{◌≡◌, true, Some};
ghost use Rattle.amqp_endpoint.specs.Endpoints.{handed_in};
ghost use Rattle.amqp_serve.specs.Deeds.{received_as};
ghost use Rattle.amqp_serve.specs.Noting.{done_of, fate_by, message_of, receipt_of, stepped_by};

use crate::ServeFault;
use crate::records::recorded_len;
use crate::steps::{Done, Receipt, Received, Stepped};
use crate::supplies::Topped;
use amqp_endpoint::{CallFault, Fed};
use amqp_link::Taken;
use std::alloc::Allocator;

/// What became of the message that was ready, as [`Receipt`] says it.
#[derive(Clone, Copy, Debug)]
pub enum Fate {
    Nothing,
    Refused(CallFault),
    Settled,
    Told,
    Untold(CallFault),
}

impl Fate {
    /// Returns the fate of a message that its sender had not settled, by the answer to the call that settles it.
    pub fn of(told: Result<(), CallFault>) -> Fate
        ensures { result ≡ fate_by told }
    {
        match told {
            Ok(()) => Fate::Told,
            Err(fault) => Fate::Untold(fault),
        }
    }
}

/// What a step did, as it is noted on the way.
// Not a `Done`, which is copied with its gaps and has the tag of the message: 95 instructions for each message. The message
// is noted only if somebody asks for it.
#[derive(Clone, Copy, Debug)]
pub struct Note {
    pub(crate) fate: Fate,
    pub(crate) message: Option<Received>,
    pub(crate) topped: Topped,
}

impl Note {
    /// Nothing was done.
    pub const NOTHING: Note = Note {
        fate: Fate::Nothing,
        message: None,
        topped: Topped::NOTHING,
    };

    /// Notes a message that was taken, if `whole`.
    #[inline(always)]
    pub fn took<A: Allocator + Copy>(&mut self, whole: bool, taken: &Taken<A>)
        ensures { whole ≡ true → self.new.message ≡ Some (received_as (handed_in taken.now)) }
    {
        if whole {
            self.message = Some(received_of(taken));
        }
    }

    /// Returns the result of the step that made this note, by what [`Server::step_into`] returned.
    // Inlined for the same reason as `report` in `serving.rt`.
    #[inline(always)]
    pub fn stepped(&self, fed: Fed, end: Result<(), ServeFault>) -> Stepped
        ensures { result ≡ stepped_by fed end self.now }
    {
        Stepped {
            used: fed.used,
            told: fed.outcome,
            done: match end {
                Ok(()) => Ok(self.done()),
                Err(fault) => Err(fault),
            },
        }
    }

    /// Returns the message that was taken and recorded, of a step that ended well and noted it.
    // By value: a reference to it would keep the note in memory.
    #[inline(always)]
    pub fn received(&self) -> Option<Received>
        ensures { result ≡ message_of self.now }
    {
        match self.fate {
            Fate::Nothing | Fate::Refused(_) => None,
            Fate::Settled | Fate::Told | Fate::Untold(_) => self.message,
        }
    }

    /// Returns what was done.
    fn done(&self) -> Done
        ensures { result ≡ done_of self.now }
    {
        Done {
            receipt: self.receipt(),
            topped: self.topped,
        }
    }

    /// Returns the receipt of the message.
    fn receipt(&self) -> Receipt
        ensures { result ≡ receipt_of self.now }
    {
        let Some(message) = self.message else {
            return match self.fate {
                Fate::Refused(fault) => Receipt::Refused(fault),
                _ => Receipt::Nothing,
            };
        };
        match self.fate {
            Fate::Nothing => Receipt::Nothing,
            Fate::Refused(fault) => Receipt::Refused(fault),
            Fate::Settled => Receipt::Settled(message),
            Fate::Told => Receipt::Told(message),
            Fate::Untold(fault) => Receipt::Untold(message, fault),
        }
    }
}

/// Returns what is reported of a message.
#[inline(always)]
fn received_of<A: Allocator + Copy>(taken: &Taken<A>) -> Received
    ensures { result ≡ received_as (handed_in taken.now) }
{
    Received {
        delivery_id: taken.delivery_id,
        delivery_tag: taken.delivery_tag,
        len: recorded_len(&taken.message),
    }
}
