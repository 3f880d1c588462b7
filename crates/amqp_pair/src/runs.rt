//! A list of turns.
ghost use Rattle.std.specs.Prelude.{◌≡◌, ◌^◌, ◌≤◌, length, map, IfOk};
ghost use Rattle.std.specs.String.{string_bytes};
ghost use Rattle.amqp_pair.specs.Histories.{IsInRange, HasHistories};
ghost use Rattle.amqp_pair.specs.Served.{AreTerms, AreShort, IsServed};
ghost use Rattle.amqp_pair.specs.Turns.{turn_of, IsJoined, offered_in};
ghost use Rattle.amqp_send.specs.Frames.{IsText};
ghost use Rattle.amqp_send.specs.Keeping.{terms_of};

use crate::laws::{each_end_has_its_history, the_pair_is_served};
use crate::pair::{Joined, Pair};
use crate::turn::Turn;
use amqp_endpoint::Config;
use amqp_endpoint::laws::{are_bytes, is_id};
use amqp_send::SendConfig;
use std::alloc::{AllocError, Allocator};

/// Makes these turns, in order, on a new sender and a new endpoint with two empty pipes of 8192 bytes between them.
///
/// The container-id and the name of the sender's link have at most 255 bytes each. An error says that memory was refused for
/// the ends, the answers, the bytes that are moved, or the messages.
///
/// If each message that is offered is at most as long as the link allows, and at most 2^32 are taken over, then the endpoint
/// reports no failure, and no offer is refused with `Ended`. The messages that were taken are then a beginning of those taken
/// over.
pub fn joined<A: Allocator + Copy>(
    alloc: A,
    config: Config<A>,
    send_config: SendConfig<A>,
    turns: &[Turn<'_>],
) -> Result<Joined<A>, AllocError>
    requires container_id { length (string_bytes send_config.container_id) ≤ 255 }
    requires name { length (string_bytes send_config.name) ≤ 255 }
    ensures run { IfOk result (λ j. IsJoined config (terms_of send_config) (map turn_of turns.now) j.answers.items j.pair) }
    ensures histories { IfOk result (λ j. HasHistories config (terms_of send_config) j.pair) }
    ensures served { IfOk result (λ j. AreShort config (terms_of send_config) (map turn_of turns.now) → length (offered_in (map turn_of turns.now) j.answers.items) ≤ 2 ^ 32 → IsServed (map turn_of turns.now) j.answers.items j.pair) }
{
    each_end_has_its_history();
    the_pair_is_served();
    config.is_within();
    are_terms(&config, &send_config);
    let mut pair = Pair::new(alloc, config, send_config)?;
    let mut answers = Vec::with_capacity(alloc, turns.len())?;
    for turn in turns {
        is_in_range(turn);
        answers.push_reserved(pair.make(alloc, turn)?);
    }
    Ok(Joined { answers, pair })
}

/// A law: the delivery-id of a turn has 32 bits.
fn is_in_range(turn: &Turn<'_>)
    ensures { IsInRange (turn_of turn.now) }
{
    if let Turn::Settle { id, .. } = *turn {
        is_id(id);
    }
}

/// A law: both ends are set up within the ranges of their types.
fn are_terms<A: Allocator + Copy>(config: &Config<A>, send_config: &SendConfig<A>)
    requires container_id { length (string_bytes send_config.now.container_id) ≤ 255 }
    requires name { length (string_bytes send_config.now.name) ≤ 255 }
    ensures { AreTerms config.now (terms_of send_config.now) }
{
    config.is_within();
    is_text(config.container_id());
    let _channels = config.channel_max();
    let _handles = config.handle_max();
    is_text(send_config.container_id.as_str());
    let name = send_config.name.as_str();
    is_text(name);
    let _bounds = config.bounds_for(name.as_bytes());
}

/// A law: the bytes of a `str` are those of a text.
fn is_text(text: &str)
    ensures { IsText text.now }
{
    are_bytes(text.as_bytes());
}
