//! Where the records of all connections go.
ghost use Rattle.std.specs.Prelude.{◌≡◌, ◌^◌, ◌-◌, min, Bool, true, ℕ, List, Option, OnOk, OnErr};
ghost use Rattle.amqp_hub.specs.Keepers.{Entry, one_entry, IsMore, HasCome};
ghost use Rattle.amqp_endpoint.specs.Steps.{EndpointState};
ghost use Rattle.amqp_hub.specs.declared.keeper.Origin.{Origin};
ghost use Rattle.amqp_hub.specs.declared.keeper.Progress.{Progress};

use amqp_endpoint::Endpoint;
use amqp_link::Tag;
use std::alloc::{AllocError, Allocator};

/// Where a record came from.
#[derive(Clone, Copy, Debug, PartialEq, Eq)]
pub struct Origin {
    /// The number of its connection.
    pub number: u64,
    /// The channel of its session.
    pub channel: u16,
    /// The handle of its link.
    pub handle: u32,
    /// The delivery-tag of its message [2.8.7].
    pub delivery_tag: Tag,
}

/// How far a keeper has come.
#[derive(Clone, Copy, Debug, PartialEq, Eq)]
pub enum Progress {
    /// It has done all that it was asked for.
    Out,
    /// It can't go on now. It is to be asked again.
    Stuck,
    /// It has failed, and takes nothing any more.
    Failed,
}

/// Keeps the records of many connections. It takes them in order, and after [`Keeper::settle`] for good: from then on
/// their senders may hear of them.
pub trait Keeper {
    // The records that it was given, oldest first, if that is known.
    ghost puts: { Self → Option (List Entry) };

    // Those of them that it has taken for good.
    ghost taken: { Self → Option (List Entry) };

    // It has taken all of them for good.
    ghost settled: { Self → Bool };

    // It takes a record.
    ghost roomy: { Self → Bool };

    // Its device has failed.
    ghost broken: { Self → Bool };

    // How many bytes of records it holds that it has not taken for good.
    ghost holds: { Self → ℕ };

    // It was given this record of this origin, which came to this endpoint, and is this one then.
    ghost accepts: { Self → Origin → EndpointState → List ℕ → Self → Type 0 };

    // It was asked to make room for a record, came so far, and is this one then.
    ghost makes_room: { Self → Progress → Self → Type 0 };

    // It was asked to take all records for good, came so far, and is this one then.
    ghost settles: { Self → Progress → Self → Type 0 };

    /// Notes that the connection of this number comes from there. Returns `AllocError` if memory is refused.
    fn met(&self, _number: u64, _from: &str) -> Result<(), AllocError> {
        Ok(())
    }

    /// Notes that the connection of this number has ended: no record of it comes any more.
    fn left(&self, _number: u64) {}

    /// Returns whether links may get more credit, as far as it knows: whether it has room for what they send for it.
    fn may_grant(&self) -> bool {
        true
    }

    /// Returns whether it takes a record now.
    fn has_room(&self) -> bool
        ensures { result ≡ roomy self.now };

    /// Takes the bytes of a record of this origin. The endpoint of its connection, as it stands after the step, says who
    /// sent it: its peer and, at the handle of the origin, its link. Returns `AllocError` if memory is refused; nothing
    /// has changed then.
    fn put<A: Allocator + Copy>(
        &mut self,
        origin: Origin,
        endpoint: &Endpoint<A>,
        bytes: &[u8],
    ) -> Result<(), AllocError>
        requires { roomy self.old ≡ true }
        ensures put { OnOk result (accepts self.old origin endpoint.now bytes.now self.new) }
        ensures refused { OnErr result (self.new ≡ self.old) };

    /// Makes room for a record, as far as it can do so without taking those that it has for good. `Out` says that
    /// it has room.
    fn make_room(&mut self) -> Progress
        ensures { makes_room self.old result self.new };

    /// Takes all records for good that it was given. `Out` says that it has.
    fn settle(&mut self) -> Progress
        ensures { settles self.old result self.new };

    /// Returns whether it has taken all records for good that it was given.
    fn is_settled(&self) -> bool
        ensures { result ≡ settled self.now };

    /// Returns how many bytes of records it holds that it has not taken for good, or `u64::MAX` if more.
    fn held(&self) -> u64
        ensures { result ≡ min (holds self.now) (2 ^ 64 - 1) };

    /// If it has taken all for good, it has taken what it was given, if that is known.
    ghost settled_is_taken: { (k : Self) → settled k ≡ true → taken k ≡ puts k };

    /// A record that it was given is its last one.
    ghost accepted_is_put: { (k l : Self) (origin : Origin) (endpoint : EndpointState) (bytes : List ℕ) → accepts k origin endpoint bytes l → IsMore (one_entry origin bytes) (puts k) (puts l) (taken k) (taken l) × (broken l ≡ broken k) };

    /// Making room loses none and puts none, takes those in order, and says how far it came: there is room at `Out`.
    ghost room_is_made: { (k l : Self) (p : Progress) → makes_room k p l → HasCome p (puts k) (puts l) (taken k) (taken l) (roomy l) (broken l) };

    /// So does settling: it has taken all for good at `Out`.
    ghost settling_takes: { (k l : Self) (p : Progress) → settles k p l → HasCome p (puts k) (puts l) (taken k) (taken l) (settled l) (broken l) };
}
