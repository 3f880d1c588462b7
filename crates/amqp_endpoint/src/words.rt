//! Events, outcomes and ends as scripts print them.
ghost use Rattle.std.specs.Prelude.{Some};

use crate::event::{End, Event, Outcome, Scope};
use std::fmt::{self, Display, Formatter};

impl Display for Scope {
    ghost use Rattle.amqp_endpoint.specs.Words.{scope_text};

    ghost output = { λ s. Some (scope_text s) };

    fn fmt<W: fmt::Write>(&self, f: &mut Formatter<W>) -> fmt::Result {
        match *self {
            Scope::Connection => f.write_str("connection"),
            Scope::Session { channel } => write!(f, "session {channel}"),
            Scope::Link { channel, handle } => write!(f, "link {channel} {handle}"),
        }
    }
}

impl Display for Event {
    ghost use Rattle.amqp_endpoint.specs.Words.{event_text};

    ghost output = { λ e. Some (event_text e) };

    fn fmt<W: fmt::Write>(&self, f: &mut Formatter<W>) -> fmt::Result {
        match *self {
            Event::Opened => f.write_str("Opened"),
            Event::Begun { channel } => write!(f, "Begun {channel}"),
            Event::Attached { channel, handle } => write!(f, "Attached {channel} {handle}"),
            Event::Unfinished { channel, handle } => write!(f, "Part {channel} {handle}"),
            Event::Ready { channel, handle } => write!(f, "Ready {channel} {handle}"),
            Event::Aborted { channel, handle } => write!(f, "Aborted {channel} {handle}"),
            Event::Drained { channel, handle } => write!(f, "Drained {channel} {handle}"),
            Event::Settled { channel, count } => write!(f, "Settled {channel} {count}"),
            Event::Detached {
                channel,
                handle,
                dropped,
            } => write!(f, "Detached {channel} {handle} dropped={dropped}"),
            Event::Ended { channel, dropped } => write!(f, "Ended {channel} dropped={dropped}"),
            Event::Closed { dropped } => write!(f, "Closed dropped={dropped}"),
            Event::Failed {
                scope,
                condition,
                dropped,
            } => write!(f, "Failed {scope} {condition} dropped={dropped}"),
        }
    }
}

impl Display for Outcome {
    ghost use Rattle.amqp_endpoint.specs.Words.{outcome_text};

    ghost output = { λ o. Some (outcome_text o) };

    fn fmt<W: fmt::Write>(&self, f: &mut Formatter<W>) -> fmt::Result {
        match self {
            Outcome::More => f.write_str("More"),
            Outcome::Event(event) => write!(f, "{event}"),
            Outcome::Blocked => f.write_str("Blocked"),
            Outcome::NoMemory => f.write_str("NoMemory"),
            Outcome::Dead => f.write_str("Dead"),
        }
    }
}

impl Display for End {
    ghost use Rattle.amqp_endpoint.specs.Words.{end_text};

    ghost output = { λ e. Some (end_text e) };

    fn fmt<W: fmt::Write>(&self, f: &mut Formatter<W>) -> fmt::Result {
        match self {
            End::Failed => f.write_str("Failed"),
            End::Closed => f.write_str("Closed"),
            End::Between => f.write_str("Between"),
            End::Inside(count) => write!(f, "Inside {count}"),
        }
    }
}
