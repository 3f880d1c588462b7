//! Which answers came, so that lists that reach too little are seen.

use amqp_endpoint::{CallFault, End, Event, Outcome};
use amqp_perform::Condition;
use std::fmt::{self, Display, Formatter};

const EVENTS: usize = 12;

const CONDITIONS: usize = 12;

const FAULTS: usize = 12;

const ENDS: usize = 4;

/// The kinds of answers, and which came.
#[derive(Drop)]
pub struct Came {
    events: [bool; EVENTS],
    conditions: [bool; CONDITIONS],
    faults: [bool; FAULTS],
    ends: [bool; ENDS],
    has_blocked: bool,
}

impl Came {
    pub fn new() -> Came {
        Came {
            events: [false; EVENTS],
            conditions: [false; CONDITIONS],
            faults: [false; FAULTS],
            ends: [false; ENDS],
            has_blocked: false,
        }
    }

    pub fn outcome(&mut self, outcome: Outcome) {
        match outcome {
            Outcome::Event(event) => {
                mark(&mut self.events, place_of_event(event));
                if let Event::Failed { condition, .. } = event {
                    mark(&mut self.conditions, place_of_condition(condition));
                }
            }
            Outcome::Blocked => self.has_blocked = true,
            Outcome::More | Outcome::NoMemory | Outcome::Dead => {}
        }
    }

    pub fn fault(&mut self, fault: CallFault) {
        mark(&mut self.faults, place_of_fault(fault));
    }

    pub fn end(&mut self, end: End) {
        let place = match end {
            End::Failed => 0,
            End::Closed => 1,
            End::Inside(_) => 2,
            End::Between => 3,
        };
        mark(&mut self.ends, place);
    }
}

impl Display for Came {
    fn fmt<W: fmt::Write>(&self, f: &mut Formatter<W>) -> fmt::Result {
        let (events, conditions) = (count(&self.events), count(&self.conditions));
        let (faults, ends) = (count(&self.faults), count(&self.ends));
        let blocked = if self.has_blocked { "" } else { "not " };
        write!(
            f,
            "came: {events} of {EVENTS} events, {conditions} of {CONDITIONS} conditions, {faults} of {FAULTS} refusals, {ends} of {ENDS} ends; the output was {blocked}full"
        )
    }
}

fn mark(all: &mut [bool], place: usize) {
    if let Some(came) = all.get_mut(place) {
        *came = true;
    }
}

fn count(all: &[bool]) -> usize {
    all.iter().filter(|came| **came).count()
}

fn place_of_event(event: Event) -> usize {
    match event {
        Event::Opened => 0,
        Event::Begun { .. } => 1,
        Event::Attached { .. } => 2,
        Event::Unfinished { .. } => 3,
        Event::Ready { .. } => 4,
        Event::Aborted { .. } => 5,
        Event::Drained { .. } => 6,
        Event::Settled { .. } => 7,
        Event::Detached { .. } => 8,
        Event::Ended { .. } => 9,
        Event::Closed { .. } => 10,
        Event::Failed { .. } => 11,
    }
}

fn place_of_condition(condition: Condition) -> usize {
    match condition {
        Condition::FramingError => 0,
        Condition::DecodeError => 1,
        Condition::InvalidField => 2,
        Condition::IllegalState => 3,
        Condition::NotImplemented => 4,
        Condition::ResourceLimitExceeded => 5,
        Condition::FrameSizeTooSmall => 6,
        Condition::WindowViolation => 7,
        Condition::HandleInUse => 8,
        Condition::UnattachedHandle => 9,
        Condition::TransferLimitExceeded => 10,
        Condition::MessageSizeExceeded => 11,
        Condition::Other => CONDITIONS,
    }
}

fn place_of_fault(fault: CallFault) -> usize {
    match fault {
        CallFault::NoSession => 0,
        CallFault::NoLink => 1,
        CallFault::TooMuchCredit => 2,
        CallFault::WindowTooWide => 3,
        CallFault::Full => 4,
        CallFault::NothingReady => 5,
        CallFault::NoDelivery => 6,
        CallFault::NotTaken => 7,
        CallFault::AlreadyTold => 8,
        CallFault::Dead => 9,
        CallFault::NotOpen => 10,
        CallFault::MixedModes => 11,
        // no call of these lists has words of its own
        CallFault::BadError => FAULTS,
    }
}
