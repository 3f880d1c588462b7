//! Running a list of turns.
ghost use Rattle.std.specs.Prelude.{◌≡◌, ℕ, map, take, drop, None, Some, IfOk};
ghost use Rattle.slab.specs.Slab.{get};
ghost use Rattle.amqp_endpoint.specs.Configs.{Configured};
ghost use Rattle.amqp_serve.specs.declared.rules.Rule.{Rule};
ghost use Rattle.amqp_serve.specs.Lives.{IsAlone};
ghost use Rattle.amqp_hub.specs.Ledgers.{new_ledger, records_of, records_under, first_bytes};
ghost use Rattle.amqp_hub.specs.Turns.{Seat, turn_of, answer_of, seat_after, ledger_after, AllFit, TurnDone, LedgerDone};
ghost use Rattle.amqp_hub.specs.Turns as turn;

use crate::HubFault;
use crate::hub::Hub;
use crate::laws::{records_are_by_number, seats_are_alone, seats_go_on};
use crate::ledger::Ledger;
use crate::turn::{Turn, TurnAnswer};
use amqp_endpoint::Config;
use amqp_serve::Rule;
use amqp_serve::step_laws::a_step_tells_what_it_recorded;
use std::alloc::{AllocError, Allocator, Global};

/// The answers to a list of turns, and all that was recorded.
#[derive(Drop)]
pub struct Replayed<A: Allocator + Copy = Global> {
    pub answers: Vec<TurnAnswer<A>, A>,
    pub ledger: Ledger<A>,
}

impl<A: Allocator + Copy> Hub<Ledger<A>, A> {
    /// Makes one turn, and returns its answer. A connection that it opens has these settings, this rule and this
    /// number. Returns `AllocError` if memory for the answer is refused.
    pub fn make(
        &mut self,
        config: &Config<A>,
        rule: Rule,
        number: u64,
        turn: &Turn<'_>,
    ) -> Result<TurnAnswer<A>, AllocError>
        ensures limit { self.new.limit ≡ self.old.limit }
        ensures done { IfOk result (λ a. TurnDone rule config.now self.old.limit number self.old.keeper self.old.members self.new.members (turn_of turn.now) (answer_of a)) }
        ensures ledger { IfOk result (λ a. LedgerDone (λ key. get self.old.members key) (turn_of turn.now) (answer_of a) self.old.keeper self.new.keeper) }
    {
        match *turn {
            Turn::Open => Ok(self.open_one(config, rule, number)),
            Turn::Hear { key, piece } => self.hear_one(key, piece),
            Turn::Hand { key, room } => Ok(self.hand_one(key, room)),
            Turn::Heartbeat { key } => Ok(self.beat_one(key)),
            Turn::Finish { key } => Ok(self.finish_one(key)),
            Turn::Close { key } => Ok(self.close_one(key)),
            Turn::Remove { key } => Ok(self.remove_one(key)),
            Turn::Rule { key, rule } => Ok(self.rule_one(key, rule)),
            Turn::Settle { most } => Ok(self.settle_one(most)),
            Turn::Held => Ok(TurnAnswer::Holds(self.held())),
            Turn::Count => Ok(TurnAnswer::Counts(self.len())),
        }
    }

    /// Opens a connection with a copy of these settings.
    fn open_one(&mut self, config: &Config<A>, rule: Rule, number: u64) -> TurnAnswer<A>
        ensures limit { self.new.limit ≡ self.old.limit }
        ensures done { TurnDone rule config.now self.old.limit number self.old.keeper self.old.members self.new.members turn.Open (answer_of result) }
        ensures ledger { self.new.keeper ≡ self.old.keeper }
    {
        let Ok(copy) = config.copy(self.alloc()) else {
            return TurnAnswer::Refused(HubFault::NoMemory);
        };
        match self.open(copy, rule, number) {
            Ok(key) => TurnAnswer::Opened(key),
            Err(fault) => TurnAnswer::Refused(fault),
        }
    }

    /// Hears a piece, and copies what was put into the ledger.
    fn hear_one(&mut self, key: usize, piece: &[u8]) -> Result<TurnAnswer<A>, AllocError>
        ensures limit { self.new.limit ≡ self.old.limit }
        ensures done { (r : Rule) (config : Configured) (n : ℕ) → IfOk result (λ a. TurnDone r config self.old.limit n self.old.keeper self.old.members self.new.members (turn.Hear key piece.now) (answer_of a)) }
        ensures ledger { IfOk result (λ a. LedgerDone (λ key. get self.old.members key) (turn.Hear key piece.now) (answer_of a) self.old.keeper self.new.keeper) }
    {
        a_step_tells_what_it_recorded(); // a law, for the proof
        let before = self.keeper().records().len();
        let stepped = match self.hear(key, piece) {
            Ok(stepped) => stepped,
            Err(fault) => return Ok(TurnAnswer::Refused(fault)),
        };
        let noted = self.put_since(before)?;
        Ok(TurnAnswer::Heard {
            stepped,
            due: self.waiting_front(key).len(),
            noted,
        })
    }

    /// Returns a copy of the record that the ledger was given after its first `before` ones, if it was given one.
    fn put_since(&self, before: usize) -> Result<Vec<u8, A>, AllocError>
        ensures { IfOk result (λ v. v.items ≡ first_bytes (drop before (records_of self.now.keeper))) }
    {
        match self.keeper().records().get(before) {
            Some(record) => Vec::from_slice(self.alloc(), &record.bytes),
            None => Ok(Vec::new(self.alloc())),
        }
    }

    /// Hands out at most `room` of the bytes that are lent.
    fn hand_one(&mut self, key: usize, room: usize) -> TurnAnswer<A>
        ensures limit { self.new.limit ≡ self.old.limit }
        ensures done { (r : Rule) (config : Configured) (n : ℕ) → TurnDone r config self.old.limit n self.old.keeper self.old.members self.new.members (turn.Hand key room) (answer_of result) }
        ensures ledger { self.new.keeper ≡ self.old.keeper }
    {
        if !self.contains(key) {
            return TurnAnswer::Refused(HubFault::NoKey);
        }
        let front = self.lend(key);
        let count = front.len().min(room);
        let Ok(bytes) = Vec::from_slice(self.alloc(), &front[..count]) else {
            return TurnAnswer::Refused(HubFault::NoMemory);
        };
        self.sent(key, count);
        TurnAnswer::Handed(bytes)
    }

    /// Requests an empty frame.
    fn beat_one(&mut self, key: usize) -> TurnAnswer<A>
        ensures limit { self.new.limit ≡ self.old.limit }
        ensures done { (r : Rule) (config : Configured) (n : ℕ) → TurnDone r config self.old.limit n self.old.keeper self.old.members self.new.members (turn.Heartbeat key) (answer_of result) }
        ensures ledger { self.new.keeper ≡ self.old.keeper }
    {
        match self.heartbeat(key) {
            Ok(frame) => TurnAnswer::Beat(frame),
            Err(fault) => TurnAnswer::Refused(fault),
        }
    }

    /// Ends an input.
    fn finish_one(&mut self, key: usize) -> TurnAnswer<A>
        ensures limit { self.new.limit ≡ self.old.limit }
        ensures done { (r : Rule) (config : Configured) (n : ℕ) → TurnDone r config self.old.limit n self.old.keeper self.old.members self.new.members (turn.Finish key) (answer_of result) }
        ensures ledger { self.new.keeper ≡ self.old.keeper }
    {
        match self.finish(key) {
            Ok(end) => TurnAnswer::Ended(end),
            Err(fault) => TurnAnswer::Refused(fault),
        }
    }

    /// Closes a connection.
    fn close_one(&mut self, key: usize) -> TurnAnswer<A>
        ensures limit { self.new.limit ≡ self.old.limit }
        ensures done { (r : Rule) (config : Configured) (n : ℕ) → TurnDone r config self.old.limit n self.old.keeper self.old.members self.new.members (turn.Close key) (answer_of result) }
        ensures ledger { self.new.keeper ≡ self.old.keeper }
    {
        match self.close(key) {
            Ok(()) => TurnAnswer::Closed,
            Err(fault) => TurnAnswer::Refused(fault),
        }
    }

    /// Removes a connection.
    fn remove_one(&mut self, key: usize) -> TurnAnswer<A>
        ensures limit { self.new.limit ≡ self.old.limit }
        ensures done { (r : Rule) (config : Configured) (n : ℕ) → TurnDone r config self.old.limit n self.old.keeper self.old.members self.new.members (turn.Remove key) (answer_of result) }
        ensures ledger { self.new.keeper ≡ self.old.keeper }
    {
        match self.remove(key) {
            Ok(()) => TurnAnswer::Removed,
            Err(fault) => TurnAnswer::Refused(fault),
        }
    }

    /// Changes a rule.
    fn rule_one(&mut self, key: usize, rule: Rule) -> TurnAnswer<A>
        ensures limit { self.new.limit ≡ self.old.limit }
        ensures done { (r : Rule) (config : Configured) (n : ℕ) → TurnDone r config self.old.limit n self.old.keeper self.old.members self.new.members (turn.Ruled key rule) (answer_of result) }
        ensures ledger { self.new.keeper ≡ self.old.keeper }
    {
        match self.rule(key, rule) {
            Ok(()) => TurnAnswer::Changed,
            Err(fault) => TurnAnswer::Refused(fault),
        }
    }

    /// Settles the ledger, as far as it may come.
    fn settle_one(&mut self, most: Option<usize>) -> TurnAnswer<A>
        ensures limit { self.new.limit ≡ self.old.limit }
        ensures done { (r : Rule) (config : Configured) (n : ℕ) → TurnDone r config self.old.limit n self.old.keeper self.old.members self.new.members (turn.Settle most) (answer_of result) }
        ensures ledger { LedgerDone (λ key. get self.old.members key) (turn.Settle most) (answer_of result) self.old.keeper self.new.keeper }
    {
        self.will_take(most);
        TurnAnswer::Settled(self.settle())
    }
}

/// Makes these turns on a new hub, in order, and returns their answers and the ledger. The ledger has room for `room`
/// records that it has not taken for good. The number of a connection is the place of the turn that opens it, from 0
/// on. Returns `AllocError` if memory for the answers is refused.
///
/// After each turn, what was recorded of each connection, what was handed out for its peer, how much waits, and
/// how it ended is what its own calls alone give. The turns of other keys do not matter (`alone`).
///
/// Each answer fits what the turns before it say (`fits`). A connection hears, ends, is closed and refused as its
/// own calls say. Bytes are handed out only if the ledger had taken all for good that was put until then. A heartbeat
/// is an empty frame between two others. The bytes held, whenever requested, are at most what an endpoint of these
/// settings holds, [`crate::ANSWERS`] and the answers to one unit, for each open connection, and the records that wait.
/// Each has at most the bytes that an endpoint holds, and a head.
///
/// The ledger has each record that was made, once, in order, under the number of its connection and with the link and
/// the tag of its message (`kept`). What it has under the number of a connection is what was recorded of that (`whose`).
pub fn hub_replay<A: Allocator + Copy>(
    alloc: A,
    config: &Config<A>,
    rule: Rule,
    limit: usize,
    room: usize,
    turns: &[Turn<'_>],
) -> Result<Replayed<A>, AllocError>
    ensures alone { IfOk result (λ x. (n key : ℕ) (y : Seat) →
        seat_after rule 0 key (take n (map turn_of turns.now)) (take n (map answer_of x.answers.items)) None ≡ Some y → IsAlone config.now y.life) }
    ensures fits { IfOk result (λ x. AllFit rule config.now limit 0 (new_ledger room) (λ key. None) 0 (map turn_of turns.now) (map answer_of x.answers.items)) }
    ensures kept { IfOk result (λ x. x.ledger ≡ ledger_after rule (new_ledger room) (λ key. None) 0 (map turn_of turns.now) (map answer_of x.answers.items)) }
    ensures whose { IfOk result (λ x. (key : ℕ) (y : Seat) → seat_after rule 0 key (map turn_of turns.now) (map answer_of x.answers.items) None ≡ Some y → records_under y.number x.ledger ≡ y.life.noted) }
{
    seats_go_on(); // three laws, for the proof
    seats_are_alone();
    records_are_by_number();
    let mut hub = Hub::new(alloc, limit, Ledger::new(alloc, room));
    let mut answers = Vec::with_capacity(alloc, turns.len())?;
    for turn in turns {
        let number = answers.len() as u64;
        answers.push_reserved(hub.make(config, rule, number, turn)?);
    }
    Ok(Replayed {
        answers,
        ledger: hub.into_keeper(),
    })
}
