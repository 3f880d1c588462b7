//! How a connection ends: by a fault of its peer, by a close, or with its input.
ghost use Rattle.std.specs.Prelude.{◌≡◌, ◌≤◌, ◌+◌, ◌++◌, [], ◌∷◌, length, true};
ghost use Rattle.amqp_reason.specs.Reasons.{is_valid, reason_of};
ghost use Rattle.amqp_endpoint.specs.Calls.{output_size, reply_room, close_call_spoken, close_with_spoken};
ghost use Rattle.amqp_endpoint.specs.Connections.{connection_after, connection_ready, Broken, Failed, CloseAsked, PeerClosed};
ghost use Rattle.amqp_endpoint.specs.Replies.{joined, close_spoken, aloud, close_said};

use crate::connection::Connection;
use crate::event::{Event, Scope};
use crate::frames;
use crate::opening::say_open;
use crate::output::Output;
use crate::phase::Phase;
use amqp_perform::Condition;
use amqp_reason::Reason;
use std::alloc::Allocator;

/// Writes a close with an error. If the peer's open has not come, the open of this side goes first
/// [2.4.3].
fn say_close<A: Allocator + Copy>(
    connection: &Connection<A>,
    out: &mut Output<A>,
    condition: Condition,
)
    requires { length out.old + reply_room ≤ output_size }
    ensures { out.new ≡ out.old ++ joined (close_spoken connection.now condition) }
{
    if matches!(connection.phase(), Phase::Unopened) {
        say_open(connection, out, 0);
    }
    out.say(0, &frames::close(frames::error(condition)));
}

/// Closes the connection with an error of this side.
pub fn close_with_error<A: Allocator + Copy>(
    connection: &mut Connection<A>,
    out: &mut Output<A>,
    condition: Condition,
) -> Event
    requires { length out.old + reply_room ≤ output_size }
    ensures connection { connection.new ≡ connection_after connection.old Failed }
    ensures unsent { out.new ≡ out.old ++ joined (close_spoken connection.old condition) }
    ensures told { result ≡ Event.Failed Scope.Connection condition (connection_ready connection.old) }
{
    say_close(connection, out, condition);
    Event::Failed {
        scope: Scope::Connection,
        condition,
        dropped: connection.close_with_error(),
    }
}

/// Ends the connection at once after a malformed frame, with a close that states a framing error
/// [2.3.1].
pub fn fail_at_once<A: Allocator + Copy>(
    connection: &mut Connection<A>,
    out: &mut Output<A>,
) -> Event
    requires { length out.old + reply_room ≤ output_size }
    ensures connection { connection.new ≡ connection_after connection.old Broken }
    ensures unsent { out.new ≡ out.old ++ joined (close_spoken connection.old Condition.FramingError) }
    ensures told { result ≡ Event.Failed Scope.Connection Condition.FramingError (connection_ready connection.old) }
{
    say_close(connection, out, Condition::FramingError);
    Event::Failed {
        scope: Scope::Connection,
        condition: Condition::FramingError,
        dropped: connection.fail_at_once(),
    }
}

/// Ends an open connection that the peer closes, and writes the close that answers [2.4.3].
pub fn peer_closes<A: Allocator + Copy>(
    connection: &mut Connection<A>,
    out: &mut Output<A>,
) -> Event
    requires { length out.old + reply_room ≤ output_size }
    ensures connection { connection.new ≡ connection_after connection.old PeerClosed }
    ensures unsent { out.new ≡ out.old ++ joined (aloud (close_said []) ∷ []) }
    ensures told { result ≡ Event.Closed (connection_ready connection.old) }
{
    out.say(0, &frames::close(&[]));
    Event::Closed {
        dropped: connection.peer_closed(),
    }
}

/// Closes the connection for the application. Returns how many ready deliveries were dropped.
pub fn close<A: Allocator + Copy>(connection: &mut Connection<A>, out: &mut Output<A>) -> u32
    requires { length out.old + reply_room ≤ output_size }
    ensures connection { connection.new ≡ connection_after connection.old CloseAsked }
    ensures unsent { out.new ≡ out.old ++ joined close_call_spoken }
    ensures dropped { result ≡ connection_ready connection.old }
{
    out.say(0, &frames::close(&[]));
    connection.close()
}

/// Closes the connection for the application, with an error. Returns how many ready deliveries were dropped.
pub fn close_with<A: Allocator + Copy>(
    connection: &mut Connection<A>,
    out: &mut Output<A>,
    reason: &Reason<'_>,
) -> u32
    requires valid { is_valid (reason_of reason.now) ≡ true }
    requires room { length out.old + reply_room ≤ output_size }
    ensures connection { connection.new ≡ connection_after connection.old CloseAsked }
    ensures unsent { out.new ≡ out.old ++ joined (close_with_spoken (reason_of reason.now)) }
    ensures dropped { result ≡ connection_ready connection.old }
{
    let error = amqp_reason::error(reason);
    out.say(0, &frames::close_with(error.as_slice()));
    connection.close()
}
