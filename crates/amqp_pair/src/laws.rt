//! What holds of what is on its way between two ends. Each function does nothing: its contract is the law.
ghost use Rattle.std.specs.Prelude.{◌≡◌, ℕ, ◌++◌, ◌∷◌, ◌≤◌, List, take, drop};
ghost use Rattle.std.specs.List.{flat_map};
ghost use Rattle.amqp_frame.specs.Splits.{SplitterState, Waits, IsEmptied};
ghost use Rattle.amqp_frame.specs.Units.{StreamUnit, bytes_of, due_after, AreUnits};
ghost use Rattle.amqp_pair.specs.Reading.{LineLaw, OpenLaw, BeginLaw, AttachLaw, FlowLaw, TransferLaw, TakenLaw, HeededLaw};
ghost use Rattle.amqp_pair.specs.Replying.{OpenTells, BeginTells, AttachTells, FlowTells, LinkFlowTells, DispositionTells};
ghost use Rattle.amqp_pair.specs.Tells.{TellsLaw};
ghost use Rattle.amqp_pair.specs.Acted.{ActedLaw};
ghost use Rattle.amqp_pair.specs.Called.{GrantLaw, WidenLaw, DrainLaw, TakeLaw, SettleLaw};
ghost use Rattle.amqp_endpoint.specs.Configs.{Configured, IsConfigured};
ghost use Rattle.amqp_pair.specs.declared.turn.TurnAnswer.{TurnAnswer};
ghost use Rattle.amqp_pair.specs.Histories.{AllInRange, HasHistories};
ghost use Rattle.amqp_pair.specs.Turns.{Turn, Ends, IsJoined};
ghost use Rattle.amqp_pair.specs.Paired.{TurnLaw};
ghost use Rattle.amqp_pair.specs.Served.{PairLaw};
ghost use Rattle.amqp_pair.specs.Attached.{AttachedLaw};
ghost use Rattle.amqp_pair.specs.WordUnits.{WordUnitsLaw};
ghost use Rattle.amqp_pair.specs.Heard.{BeginHeardLaw, FlowHeardLaw, OfferedLaw};
ghost use Rattle.amqp_pair.specs.Stands.{StandsLaw};
ghost use Rattle.amqp_pair.specs.Words.{Writes};
ghost use Rattle.amqp_pair.specs.World.{World, StepLaw, BeginLaw as WorldBeginLaw, WorldLaw};
ghost use Rattle.amqp_send.specs.Sendings.{Sending, all_written};
ghost use Rattle.amqp_pair.specs.Spoken.{spoken, FrontLaw, IsOnWay};
ghost use Rattle.amqp_send.specs.Histories.{Deed, written};
ghost use Rattle.amqp_send.specs.Sendings.{SendTerms};

use amqp_endpoint::laws::{frames_are_as_long, runs_have_a_history as endpoint_runs};
use amqp_frame::laws::{each_unit_has_bytes, no_unit_begins_another};
use amqp_perform::laws::{outcomes_are_found, said_is_a_frame, said_is_read};
use amqp_send::laws::{
    each_call_has_its_history, frames_are_within, frames_may_be_said,
    runs_have_a_history as sender_runs,
};
use amqp_types::laws::{canonical_spells, reading_is_exact};

/// What a sender wrote is units: its header, the frames of its opening, its answers to flows, its transfers, its close
/// [2.2, 2.7].
#[tactic(auto, using(crate::proofs::Spoken::spoken_is))]
pub fn what_is_written_is_units()
    ensures { (terms : SendTerms) (h : List Deed) → written terms h ≡ flat_map bytes_of (spoken terms h) }
{}

/// The units that one end wrote begin with those that the other end acted upon, and the bytes between the ends are the others.
pub fn what_was_acted_upon_comes_first()
    ensures { FrontLaw }
{
    no_unit_begins_another();
    each_unit_has_bytes();
}

/// Units stay on their way while their bytes are moved into the pipe and taken out of it. More may be written after
/// them, and the one that waits is the first.
pub fn units_stay_on_their_way()
    ensures moves { (s : SplitterState) (pipe unsent : List ℕ) (way : List StreamUnit) (n : ℕ) → IsOnWay s pipe unsent way → IsOnWay s (pipe ++ take n unsent) (drop n unsent) way }
    ensures takes { (s t : SplitterState) (pipe unsent : List ℕ) (way : List StreamUnit) (n : ℕ) → t.limit ≡ s.limit → t.stage ≡ s.stage → t.filled ≡ s.filled ++ take n pipe → IsOnWay s pipe unsent way → IsOnWay t (drop n pipe) unsent way }
    ensures writes { (s : SplitterState) (pipe unsent : List ℕ) (way more : List StreamUnit) → AreUnits s.limit s.stage (way ++ more) → IsOnWay s pipe unsent way → IsOnWay s pipe (unsent ++ flat_map bytes_of more) (way ++ more) }
    ensures acts { (s t : SplitterState) (pipe unsent : List ℕ) (way : List StreamUnit) (u : StreamUnit) → 8 ≤ s.limit → Waits s u → IsEmptied s t (due_after u) → IsOnWay s pipe unsent way → (later : List StreamUnit) × (way ≡ u ∷ later) × IsOnWay t pipe unsent later }
{
    no_unit_begins_another();
    each_unit_has_bytes();
}

/// A frame of a receiver that may be said tells the sender what its fields say [2.7].
pub fn frames_tell_what_they_say()
    ensures { TellsLaw }
{
    said_is_read();
    said_is_a_frame();
}

/// Each frame that an endpoint writes to a sender may be said: its open, its begin, its answer to the attach, its flows and its
/// dispositions. They tell the sender its max-frame-size, its incoming-window, nothing, the window and the credit, and what
/// became of a delivery [2.7].
pub fn replies_tell_what_they_say()
    ensures open { OpenTells }
    ensures begin { BeginTells }
    ensures attach { AttachTells }
    ensures flow { FlowTells }
    ensures link_flow { LinkFlowTells }
    ensures disposition { DispositionTells }
{
    frames_tell_what_they_say();
    canonical_spells();
    outcomes_are_found();
}

/// A frame that may be said is read as the line of what its fields say, on a connection that awaits no close [2.4 to 2.7].
pub fn frames_come_to_their_lines()
    ensures { LineLaw }
{
    said_is_read();
    said_is_a_frame();
}

/// The frames of a sender are read as their lines: its open on a connection that awaits one, its begin if its channel is free,
/// and its attach if its handle is free. So are its flows if its link lives, and its transfers if the window has a place too
/// [2.4.1, 2.5.1, 2.5.6, 2.6.2].
pub fn frames_of_a_sender_are_accepted()
    ensures open { OpenLaw }
    ensures begin { BeginLaw }
    ensures attach { AttachLaw }
    ensures flow { FlowLaw }
    ensures transfer { TransferLaw }
{
    frames_come_to_their_lines();
    frames_may_be_said();
}

/// A transfer in which neither session nor link finds a fault is taken, and reported as unfinished or as ready. A flow that
/// doesn't go beyond the credit is heeded. Neither is answered [2.6.7, 2.6.14].
pub fn what_has_no_fault_fails_nothing()
    ensures transfer { TakenLaw }
    ensures flow { HeededLaw }
{}

/// On the message level frames and flows are on their way instead of bytes. Each fair turn keeps the invariant of all numbers.
/// So under every list of fair turns nothing fails, and what was given is a beginning of what was offered. Neither credit nor
/// window of the sender, with what is on its way, is more than the receiver's [2.5.6, 2.6.7].
pub fn the_message_level_is_sound()
    ensures step { StepLaw }
    ensures begin { WorldBeginLaw }
    ensures all { WorldLaw }
{}

/// The frames that a sender writes, the flows and the begin that it hears, and the messages that it takes over are turns of
/// the message level [2.6.7, 2.6.14].
pub fn a_sender_makes_turns()
    ensures writes { (s : Sending) (w : World) → Writes s (all_written s) w }
    ensures flow { FlowHeardLaw }
    ensures begin { BeginHeardLaw }
    ensures offer { OfferedLaw }
{
    frames_are_within();
}

/// After each event of its session that goes on with the link, a connection with one link is as the message level says
/// [2.5.6].
pub fn a_connection_stands_as_the_message_level()
    ensures { StandsLaw }
{}

/// The first word of a sender on its way to a connection with one link is acted upon as the message level acts upon its
/// frame: it ends nothing and is not answered, and session and link are those of the message level [2.5.6, 2.6.7, 2.6.14].
pub fn words_are_acted_upon()
    ensures { ActedLaw }
{
    a_connection_stands_as_the_message_level();
    what_has_no_fault_fails_nothing();
    frames_of_a_sender_are_accepted();
    the_message_level_is_sound();
}

/// The accepted calls of an endpoint with one link are turns of the message level. A grant, a drain and a widening write the
/// flow that the message level sends, and a settlement writes its disposition. A take writes nothing, and hands up what the
/// message level gives [2.5.6, 2.6.7, 2.6.12].
pub fn calls_are_turns()
    ensures grant { GrantLaw }
    ensures widen { WidenLaw }
    ensures drain { DrainLaw }
    ensures take { TakeLaw }
    ensures settle { SettleLaw }
{
    a_connection_stands_as_the_message_level();
}

/// Under every list of turns each end has its run and its history, the pipes lose and invent nothing, and what was taken is
/// what the endpoint handed up. In each life of a link these are the first of the deliveries that are whole in the bytes that
/// it took [2.2 to 2.7].
pub fn each_end_has_its_history()
    ensures { (config : Configured) (terms : SendTerms) (turns : List Turn) (answers : List TurnAnswer) (last : Ends) → IsConfigured config.container_id config.max_frame config.window → AllInRange turns → IsJoined config terms turns answers last → HasHistories config terms last }
{
    endpoint_runs();
    sender_runs();
    each_call_has_its_history();
}

/// The sender's attach, in a session that has begun and has no link, is answered, and its link lives, if the answer is
/// no longer than the sender's frames [2.6.2, 2.6.3, 2.7.1].
pub fn the_attach_is_accepted()
    ensures { AttachedLaw }
{
    reading_is_exact();
    canonical_spells();
}

/// The words of a sender are units of the stream to its receiver, if they are no longer than the receiver accepts [2.3.1].
pub fn words_are_units()
    ensures { WordUnitsLaw }
{
    said_is_a_frame();
}

/// After each turn both ends, and what is on its way between them, are as on the message level. The turn is answered well: no
/// feed of the endpoint reports a failure, and no offer is refused with `Ended`. The sender's credit, with the heads and
/// advances on their way, is at most the endpoint's. Its window, with the transfers on their way, is at most the endpoint's
/// places [2.2 to 2.7].
pub fn each_turn_keeps_the_pair()
    ensures { TurnLaw }
{
    no_unit_begins_another();
    each_unit_has_bytes();
    said_is_a_frame();
    frames_are_within();
    frames_are_as_long();
    words_are_units();
    a_sender_makes_turns();
    replies_tell_what_they_say();
    frames_of_a_sender_are_accepted();
    the_attach_is_accepted();
    words_are_acted_upon();
    calls_are_turns();
    the_message_level_is_sound();
}

/// Under every list of turns no feed of the endpoint reports a failure, no offer is refused with `Ended`, and what was taken is
/// a beginning of what was offered and taken over. This holds if the calls are for the one link, each message that is offered
/// is at most as long as the link allows, and at most 2^32 are taken over [2.5.6, 2.6.7, 2.6.14].
pub fn the_pair_is_served()
    ensures { PairLaw }
{
    each_turn_keeps_the_pair();
    the_message_level_is_sound();
}
