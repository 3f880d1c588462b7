//! Who sent a record.

ghost use Rattle.std.specs.Prelude.{◌≡◌, IfOk};
ghost use Rattle.amqp_spool.specs.EntryReading.{introduced_in};
ghost use Rattle.amqp_spool_keeper.specs.Senders.{container_of, sender_of};
ghost use Rattle.std.specs.Option.{option_copied};

use crate::target::Target;
use amqp_endpoint::{Endpoint, Introduction as Peer};
use amqp_hub::Origin;
use amqp_spool::Introduction;
use std::alloc::{AllocError, Allocator};

/// Returns who sent a record of this origin, which came to this endpoint from there. `target` is what was read of the
/// target of the last one's link.
pub fn sender_of<'a, A: Allocator + Copy>(
    origin: &Origin,
    from: &'a [u8],
    endpoint: &'a Endpoint<A>,
    target: &'a mut Target,
) -> Result<Introduction<'a>, AllocError>
    ensures { IfOk result (λ sender. introduced_in sender ≡ sender_of origin.now from.now endpoint.now) }
{
    let mut sender = Introduction {
        link: 0,
        connection: origin.number,
        peer: from,
        container: container_of(endpoint.peer()),
        name: &[],
        user: &[],
        kind: 2,
        target: &[],
    };
    if let Some(link) = endpoint.link(origin.channel, origin.handle) {
        target.read(&link)?;
        let target: &'a Target = target;
        sender.name = link.name;
        sender.kind = target.kind();
        sender.target = target.address();
    }
    Ok(sender)
}

/// Returns the container-id of a peer.
fn container_of(peer: Option<&Peer>) -> &[u8]
    ensures { result.now ≡ container_of (option_copied peer.entry) }
{
    match peer {
        Some(peer) => peer.container_id.as_bytes(),
        None => &[],
    }
}
