//! What `amqp_pair` promises of a sender and an endpoint that are joined.

ghost use Rattle.std.specs.Prelude.{◌^◌, ◌≤◌, List, length, map, IfOk};
ghost use Rattle.std.specs.String.{string_bytes};
ghost use Rattle.amqp_endpoint.specs.Configs.{Configured, IsConfigured};
ghost use Rattle.amqp_pair.specs.declared.turn.TurnAnswer.{TurnAnswer as Answered};
ghost use Rattle.amqp_pair.specs.Histories.{AllInRange, HasHistories};
ghost use Rattle.amqp_pair.specs.Served.{AreShort, IsServed, PairLaw};
ghost use Rattle.amqp_pair.specs.Turns as turns;
ghost use Rattle.amqp_pair.specs.Turns.{Ends, turn_of, AreStart, TurnDone, IsJoined, offered_in};
ghost use Rattle.amqp_send.specs.Keeping.{terms_of};
ghost use Rattle.amqp_send.specs.Sendings.{SendTerms};

use amqp_endpoint::Config;
use amqp_pair::{Joined, Pair, Turn, TurnAnswer, laws};
use amqp_send::SendConfig;
use std::alloc::{AllocError, Allocator};

/// Makes a list of turns on a new sender and a new endpoint.
pub fn joined<A: Allocator + Copy>(
    alloc: A,
    config: Config<A>,
    send_config: SendConfig<A>,
    turns: &[Turn<'_>],
) -> Result<Joined<A>, AllocError>
    requires container_id { length (string_bytes send_config.container_id) ≤ 255 }
    requires name { length (string_bytes send_config.name) ≤ 255 }
    ensures run { IfOk result (λ j. IsJoined config (terms_of send_config) (map turn_of turns.now) j.answers.items j.pair) }
    ensures histories { IfOk result (λ j. HasHistories config (terms_of send_config) j.pair) }
    ensures served { IfOk result (λ j. AreShort config (terms_of send_config) (map turn_of turns.now) → length (offered_in (map turn_of turns.now) j.answers.items) ≤ 2 ^ 32 → IsServed (map turn_of turns.now) j.answers.items j.pair) }
{
    amqp_pair::joined(alloc, config, send_config, turns)
}

/// Makes new ends, and empty pipes between them.
pub fn new<A: Allocator + Copy>(
    alloc: A,
    config: Config<A>,
    send_config: SendConfig<A>,
) -> Result<Pair<A>, AllocError>
    requires container_id { length (string_bytes send_config.container_id) ≤ 255 }
    requires name { length (string_bytes send_config.name) ≤ 255 }
    ensures { IfOk result (λ p. AreStart config (terms_of send_config) p) }
{
    Pair::new(alloc, config, send_config)
}

/// Makes one turn.
pub fn make<A: Allocator + Copy>(
    pair: &mut Pair<A>,
    alloc: A,
    turn: &Turn<'_>,
) -> Result<TurnAnswer, AllocError>
    ensures { IfOk result (λ answer. TurnDone pair.old pair.new (turn_of turn.now) answer) }
{
    pair.make(alloc, turn)
}

/// Under every list of turns each end has its run and its history, and what was taken is what the endpoint handed
/// up.
pub fn each_end_has_its_history()
    ensures { (config : Configured) (terms : SendTerms) (turns : List turns.Turn) (answers : List Answered) (last : Ends) → IsConfigured config.container_id config.max_frame config.window → AllInRange turns → IsJoined config terms turns answers last → HasHistories config terms last }
{
    laws::each_end_has_its_history();
}

/// Under every list of turns no feed of the endpoint reports a failure, no offer is refused since the other side
/// ended, and what was taken is a beginning of what was taken over.
pub fn the_pair_is_served()
    ensures { PairLaw }
{
    laws::the_pair_is_served();
}
