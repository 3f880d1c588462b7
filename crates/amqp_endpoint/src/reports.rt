//! The endpoint's events for what its sessions report.
ghost use Rattle.std.specs.Prelude.{◌≡◌};
ghost use Rattle.amqp_endpoint.specs.Acting.{ending};
ghost use Rattle.amqp_endpoint.specs.Lines.{report_told};

use crate::event::{Event, Scope};
use amqp_perform::Condition;
use amqp_session::{Report, SessionFault};

/// Returns the event for a report of the session on a channel; `None` for most flows and dispositions.
pub fn told(channel: u16, report: Report) -> Option<Event>
    ensures { result ≡ report_told channel report }
{
    match report {
        Report::Nothing => None,
        Report::Attached { handle } => Some(Event::Attached { channel, handle }),
        Report::Unfinished { handle } => Some(Event::Unfinished { channel, handle }),
        Report::Ready { handle } => Some(Event::Ready { channel, handle }),
        Report::Aborted { handle } => Some(Event::Aborted { channel, handle }),
        Report::Drained { handle } => Some(Event::Drained { channel, handle }),
        Report::Settled { count } => Some(Event::Settled { channel, count }),
        Report::Detached { handle, dropped } => Some(Event::Detached {
            channel,
            handle,
            dropped,
        }),
        Report::Failed {
            handle,
            condition,
            dropped,
        } => Some(Event::Failed {
            scope: Scope::Link { channel, handle },
            condition,
            dropped,
        }),
    }
}

/// Returns the condition with which a session ends that refused a frame; `None` if memory was refused, which
/// ends nothing [2.8.15, 2.8.17].
pub fn condition_of(fault: SessionFault) -> Option<Condition>
    ensures { result ≡ ending fault }
{
    match fault {
        SessionFault::WindowViolation => Some(Condition::WindowViolation),
        SessionFault::HandleInUse => Some(Condition::HandleInUse),
        SessionFault::UnattachedHandle => Some(Condition::UnattachedHandle),
        SessionFault::ResourceLimit => Some(Condition::ResourceLimitExceeded),
        SessionFault::InvalidField => Some(Condition::InvalidField),
        SessionFault::NoMemory => None,
    }
}
