//! How this side opens a connection.
ghost use Rattle.std.specs.Prelude.{◌≡◌, ◌≤◌, ◌+◌, ◌++◌, [], length};
ghost use Rattle.amqp_perform.specs.Said.{said_frame};
ghost use Rattle.amqp_endpoint.specs.Calls.{output_size, reply_room};
ghost use Rattle.amqp_endpoint.specs.Replies.{open_said};

use crate::connection::Connection;
use crate::frames;
use crate::output::Output;
use std::alloc::Allocator;

/// Writes the open of this side, with the highest channel [2.4.1].
pub fn say_open<A: Allocator + Copy>(
    connection: &Connection<A>,
    out: &mut Output<A>,
    channel_max: u16,
)
    requires { length out.old + reply_room ≤ output_size }
    ensures new { out.new ≡ out.old ++ said_frame 0 (open_said connection.now.config channel_max) [] }
    ensures most { length out.new ≤ length out.old + 400 }
{
    let config = connection.config();
    let mut scratch = [0; 5];
    let time_out = frames::time_out(config.idle_time_out(), &mut scratch);
    out.say(0, &frames::open(config, channel_max, time_out));
}
