//! How much a peer holds at most, and the records that wait.

ghost use Rattle.std.specs.Prelude.{◌≡◌, ◌≤◌, ◌+◌, ◌^◌, ◌-◌, min};
ghost use Rattle.amqp_endpoint.specs.Held.{any_link_most};
ghost use Rattle.amqp_session.specs.Laws.{link_most};
ghost use Rattle.amqp_gateway.specs.Bounds.{peer_most, outlet_most};

use crate::outlet::MOST;
use crate::peer::PIECE;
use amqp_endpoint::Config;
use amqp_hub::ANSWERS;
use amqp_link::LinkBounds;
use amqp_records::HEAD;

/// How many bytes are kept of a peer and for it besides its endpoint and the answers to a unit. These are
/// a piece that is not heard yet, answers, and a close or an empty frame.
const SOCKET: u64 = (PIECE + ANSWERS) as u64 + 64;

/// How many bytes an endpoint keeps besides a frame, sessions and links: its output.
const OUTPUT: u64 = 8192;

/// The room for the answer to a call, in bytes.
const REPLY: u64 = 2560;

/// How many bytes of records wait for the sink besides the message of the last one: those before it, the head of its
/// block (12), and its own head.
const RECORDS: u64 = (MOST + 12 + HEAD) as u64;

/// Returns how many bytes a link with these bounds keeps at most.
pub fn link_most(bounds: LinkBounds) -> u64
    ensures { result ≡ link_most bounds }
{
    1407 + bounds.allowed() as u64 * (bounds.max_message_size() as u64 + 96)
}

/// Returns a bound of the bytes that a peer of an endpoint with these settings holds; `u64::MAX` if that is more.
/// The bound holds if no link keeps more than `link` bytes ([`link_most`]), whatever its name.
pub fn peer_most(config: &Config, link: u64) -> u64
    ensures { any_link_most config.now ≤ link → min (peer_most config.now) (2 ^ 64 - 1) ≤ result }
{
    let sessions = config.channel_max() as u64 + 1;
    let links = sessions * (config.handle_max() as u64 + 1);
    let answers = (3 + sessions + links) * REPLY;
    let few = config.max_frame() as u64 + OUTPUT + 64 * sessions + answers + SOCKET;
    link.saturating_mul(links).saturating_add(few)
}

/// Returns a bound of the bytes of records that wait for the sink, if a peer's endpoint has these settings; `u64::MAX`
/// if that is more. The bound holds if no link keeps more than `link` bytes ([`link_most`]), whatever its name.
pub fn outlet_most(config: &Config, link: u64) -> u64
    ensures { any_link_most config.now ≤ link → min (outlet_most config.now) (2 ^ 64 - 1) ≤ result }
{
    peer_most(config, link).saturating_add(RECORDS)
}
