//! What holds for a connection and its history. The functions do nothing: their contracts are the laws.
ghost use Rattle.std.specs.Prelude.{◌≡◌, ℕ, ◌+◌, ◌*◌, ◌^◌, ◌<◌, ◌≤◌, ◌↔◌, false, List, ◌∷◌, [], length, map, sum_by, slice_index, Some, None};
ghost use Rattle.amqp_frame.specs.Units.{StreamUnit, bytes_of};
ghost use Rattle.amqp_link.specs.Histories.{grants, handed_up};
ghost use Rattle.amqp_link.specs.Links.{LinkEvent, open_count};
ghost use Rattle.amqp_perform.specs.declared.outcome.Outcome.{Outcome as Fate};
ghost use Rattle.amqp_perform.specs.declared.performative.Performative.{Performative};
ghost use Rattle.amqp_perform.specs.Performatives.{type_of, performative_cells};
ghost use Rattle.amqp_session.specs.declared.slot.Slot.TheVariants.{Live};
ghost use Rattle.amqp_session.specs.Calls.{Call, Grant, Settle, Take, Widen};
ghost use Rattle.amqp_session.specs.Laws.{IsCallInRange};
ghost use Rattle.amqp_session.specs.Sessions.{Attached, LiveLink, SessionState};
ghost use Rattle.amqp_endpoint.specs.declared.fault.CallFault.TheVariants as refused;
ghost use Rattle.amqp_endpoint.specs.Calls.{reply_room, call_fault, call_event, call_spoken};
ghost use Rattle.amqp_endpoint.specs.Configs.{Configured, IsConfigured, bounds_for};
ghost use Rattle.amqp_endpoint.specs.Connections as connection;
ghost use Rattle.amqp_endpoint.specs.Connections.{ConnectionState, ConnectionEvent, connection_after, connection_bytes, ConnectionMay, is_dead, slot_at};
ghost use Rattle.amqp_endpoint.specs.Credits.{credit_on, granted_to};
ghost use Rattle.amqp_endpoint.specs.Fields.{read_in, read_of};
ghost use Rattle.amqp_endpoint.specs.Held.{held, session_count, channel_links_most, session_parts, session_part_bytes};
ghost use Rattle.amqp_endpoint.specs.Lengths.{said_most};
ghost use Rattle.amqp_perform.specs.Said.{Said, said_frame};
ghost use Rattle.amqp_endpoint.specs.Limits.{Limit, longest, IsLimitOf};
ghost use Rattle.amqp_endpoint.specs.Histories.{phase_of, state_of, Sound, after_all, Accepted};
ghost use Rattle.amqp_endpoint.specs.Lines.{line_of, event_on, fault_on, told_on};
ghost use Rattle.amqp_endpoint.specs.Replies.{open_said, plain_open_said, joined, reply_on};
ghost use Rattle.amqp_endpoint.specs.Runs as runs;
ghost use Rattle.amqp_endpoint.specs.Runs.{Answer, Does, Run, IsStart, handed_of};
ghost use Rattle.amqp_endpoint.specs.declared.event.Event.TheVariants as told;
ghost use Rattle.amqp_endpoint.specs.declared.event.Outcome.TheVariants as outcome;
ghost use Rattle.amqp_endpoint.specs.Steps.{EndpointState, IsKept, IsFed};
ghost use Rattle.amqp_endpoint.specs.declared.event.Outcome.{Outcome};
ghost use Rattle.amqp_endpoint.specs.Takings.{lives, taken_in, link_at, link_part, last_part, past_in, HasNoneReady};
ghost use Rattle.amqp_endpoint.specs.Traces.{IsInRange, AreInRange, IsWholeRun, failure_in, told_by};
ghost use Rattle.amqp_endpoint.specs.Uses.{granted_over, messages_over, held_by_any, IsUsed, IsAccepted};

use amqp_link::laws::open_deliveries_are_selected;
use amqp_perform::laws as performatives;
use amqp_perform::laws::{fields_are_as_long, reading_is_exact, what_is_read_may_be_written};
use amqp_session::laws as session;
use amqp_session::laws::{frames_are_accepted, session_begins, session_goes_on};

/// What is read of a performative is what its fields say [2.7].
pub fn fields_say_the_performative()
    ensures { (config : Configured) (p : Performative) (payload : List ℕ) → read_in config (type_of p) (performative_cells p) payload ≡ read_of config p payload }
{}

/// A connection before its header is what the empty history results in, and that history is sound.
pub fn connection_begins()
    ensures { (config : Configured) → (connection.connection_begins config ≡ state_of config []) × Sound config [] }
{}

/// After one more accepted event, the connection is what the longer history results in, and that history is
/// sound.
pub fn connection_goes_on()
    ensures { (config : Configured) (h : List ConnectionEvent) (e : ConnectionEvent) → config.window < 2 ^ 31 → Sound config h → ConnectionMay (state_of config h) e → (connection_after (state_of config h) e ≡ state_of config (e ∷ h)) × Sound config (e ∷ h) }
{
    session_begins();
    session_goes_on();
}

/// After any list of accepted events, the connection is what the selections over the whole list and the parts
/// of its sessions result in, and the list is sound.
pub fn steps_give_the_history()
    ensures { (config : Configured) (h : List ConnectionEvent) → config.window < 2 ^ 31 → Accepted config h → (after_all config h ≡ state_of config h) × Sound config h }
{
    connection_begins();
    connection_goes_on();
}

/// What a unit results in, on a connection that is not over, is an event that the connection accepts.
pub fn units_are_accepted()
    ensures { (config : Configured) (h : List ConnectionEvent) (u : StreamUnit) → Sound config h → is_dead (phase_of h) ≡ false → ((i : ℕ) → slice_index (bytes_of u) i < 256) → ConnectionMay (state_of config h) (event_on (state_of config h) (line_of (state_of config h) u)) }
{
    reading_is_exact();
    what_is_read_may_be_written();
    frames_are_accepted();
    session::calls_are_accepted();
}

/// A call for a session that is not refused is an event that the connection accepts, if an id that it names has
/// 32 bits.
pub fn calls_are_accepted()
    ensures { (config : Configured) (h : List ConnectionEvent) (unsent : List ℕ) (channel : ℕ) (c : Call) → Sound config h → IsCallInRange c → call_fault (state_of config h) unsent channel c ≡ None → ConnectionMay (state_of config h) (call_event (state_of config h) channel c) }
{
    frames_are_accepted();
    session::calls_are_accepted();
}

/// The bytes held for a connection are those of its history: 64 for each session, and what each live one holds.
pub fn held_is_counted()
    ensures { (config : Configured) (h : List ConnectionEvent) → connection_bytes (state_of config h) ≡ sum_by session_part_bytes (session_parts config h) }
{
    session::held_is_counted();
}

/// The bytes held for a connection are at most 64 for each session, for each live link what its bounds allow,
/// and 128 for each link that waits for the peer's detach.
pub fn held_is_bounded()
    ensures { (config : Configured) (h : List ConnectionEvent) → Sound config h → connection_bytes (state_of config h) ≤ 64 * session_count (state_of config h) + sum_by channel_links_most (state_of config h).sessions }
{
    session::held_is_bounded();
}

/// The limit found for a name is that of the longest prefix of the table with which the name begins, byte by
/// byte. None is found exactly if the name begins with no prefix.
#[tactic(auto, using(crate::proofs::LimitTables::longest_found))]
pub fn the_longest_prefix_is_found()
    ensures { (name : List ℕ) (rows : List Limit) → IsLimitOf name rows (longest name rows) }
{}

/// If no idle-time-out is announced, the open states the other settings, and nothing else [2.4.5, 2.7.1].
pub fn opens_are_plain_without_a_time_out()
    ensures { (config : Configured) (channel_max : ℕ) → config.idle_time_out ≡ None → open_said config channel_max ≡ plain_open_said config channel_max }
{}

/// A frame without payload has at most the length that its fields allow.
pub fn frames_are_as_long()
    ensures { (channel : ℕ) (s : Said) → length (said_frame channel s []) ≤ said_most s }
{
    fields_are_as_long();
    performatives::frames_are_as_long();
}

/// The answer to a unit, and to a call for a session, is at most 2560 bytes long.
pub fn answers_fit_their_room()
    ensures units { (s : ConnectionState) (u : StreamUnit) → length s.config.container_id ≤ 255 → length (reply_on s (line_of s u)) ≤ reply_room }
    ensures calls { (s : ConnectionState) (channel : ℕ) (c : Call) → length (joined (call_spoken s channel c)) ≤ reply_room }
{
    frames_are_as_long();
}

/// A unit results in a failure event exactly if its line names a fault, and then the event states that fault
/// [2.4.6, 2.5.4, 2.6.5].
pub fn failures_are_the_faults()
    ensures { (s : ConnectionState) (u : StreamUnit) → failure_in (told_on s (line_of s u)) ≡ fault_on (line_of s u) }
{}

/// Every list of calls of a new endpoint has a history [2.2 to 2.7].
///
/// Its connection is what the selections over the whole history result in. The bytes that the feeds took are
/// the history's units and the rest. All that was written was moved out or is in the output. What was reported
/// is the events of its units and the answers to its calls. The bytes held are counted and bounded. For each
/// life of a link, ended or not, the messages taken are the first of its whole deliveries.
///
/// It is one history that grows with the calls: the same holds after each of them, for what had happened by
/// then.
pub fn runs_have_a_history()
    ensures { (config : Configured) (calls : List runs.Call) (answers : List Answer) (start last : EndpointState) → IsConfigured config.container_id config.max_frame config.window → AreInRange calls → IsStart config start → Run start calls answers last → IsWholeRun config calls answers last }
{
    connection_begins();
    connection_goes_on();
    units_are_accepted();
    calls_are_accepted();
    frames_are_as_long();
    answers_fit_their_room();
    held_is_counted();
    held_is_bounded();
    open_deliveries_are_selected();
}

/// Two histories of one run are the same: the calls and their answers determine all that happened.
pub fn runs_have_one_history()
    ensures { (config : Configured) (calls : List runs.Call) (answers : List Answer) (last other : EndpointState) → IsConfigured config.container_id config.max_frame config.window → (a : IsWholeRun config calls answers last) → (b : IsWholeRun config calls answers other) → a.past.history ≡ b.past.history }
{
    connection_begins();
    connection_goes_on();
}

/// What was handed up in the life of a link, over the history of a whole connection, is what this link's part
/// of the history hands up.
///
/// Links follow one another at a handle: each attach there begins the next life [2.6.2]. In a life that has
/// ended, or is to come, nothing more is handed up. In no life is more handed up than credit was granted in it
/// [2.6.7].
pub fn each_life_has_its_own_messages()
    ensures stays { (config : Configured) (h : List ConnectionEvent) (e : ConnectionEvent) (channel handle life : ℕ) → ConnectionMay (state_of config h) e → ((l : LiveLink) → link_at (state_of config h) channel handle ≡ Live l → lives channel handle h ≡ life → ⊥) → taken_in channel handle life (e ∷ h) ≡ taken_in channel handle life h }
    ensures part { (channel handle : ℕ) (h : List ConnectionEvent) (a : Attached) (past : List LinkEvent) → link_part channel handle h ≡ Live (a, past) → taken_in channel handle (lives channel handle h) h ≡ map handed_of (handed_up past) }
    ensures within { (config : Configured) (h : List ConnectionEvent) (channel handle life : ℕ) → config.window < 2 ^ 31 → Accepted config h → length (taken_in channel handle life h) ≤ grants (past_in (last_part channel handle life h)) }
{
    connection_begins();
    connection_goes_on();
}

/// A take is refused with `NothingReady` exactly if its link is live and no delivery of it is ready: each whole
/// one was taken [2.6.14].
pub fn takes_are_refused_where_none_is_ready()
    ensures { (config : Configured) (h : List ConnectionEvent) (unsent : List ℕ) (channel handle : ℕ) → Sound config h → (call_fault (state_of config h) unsent channel (Take handle) ≡ Some refused.NothingReady) ↔ HasNoneReady (state_of config h) channel handle }
{}

/// Over the history of an endpoint, the credit of a link rises only by an accepted grant for it, and by exactly
/// as much [2.6.7].
pub fn credit_rises_by_grants()
    ensures granted { (config : Configured) (h : List runs.Happened) (channel handle n : ℕ) (l : LiveLink) → Sound config (runs.events config h) → link_at (state_of config (runs.events config h)) channel handle ≡ Live l → credit_on (state_of config (runs.events config (runs.Called channel (Grant handle n) ∷ h))) channel handle ≡ l.link.credit + n }
    ensures most { (config : Configured) (h : List runs.Happened) (x : runs.Happened) (channel handle : ℕ) → credit_on (state_of config (runs.events config (x ∷ h))) channel handle ≤ credit_on (state_of config (runs.events config h)) channel handle + granted_to channel handle x }
{
    session::credit_rises_by_grants();
}

/// What an application knows of its endpoint without a list of its calls. A new endpoint granted nothing and
/// handed up no message. Each call adds the credit that it granted and the message that it took, if it was
/// accepted [2.6.7, 2.6.14].
pub fn uses_are_counted()
    ensures begins { (config : Configured) (s : EndpointState) (channel handle : ℕ) → IsConfigured config.container_id config.max_frame config.window → IsStart config s → IsUsed config channel handle 0 0 s }
    ensures goes_on { (config : Configured) (channel handle granted messages : ℕ) (old new : EndpointState) (c : runs.Call) (a : Answer) → IsUsed config channel handle granted messages old → IsInRange c → Does old new c a → IsUsed config channel handle (granted + granted_over channel handle (told_by c a)) (messages + messages_over channel handle (told_by c a)) new }
{}

/// After any calls of a new endpoint, it has the configuration that it began with, and holds at most what any
/// endpoint of that may hold. At most as many messages were taken from the links that followed one another at a
/// handle as credit was granted to them [2.6.7].
pub fn uses_are_bounded()
    ensures config { (config : Configured) (channel handle granted messages : ℕ) (s : EndpointState) → IsUsed config channel handle granted messages s → s.connection.config ≡ config }
    ensures held { (config : Configured) (channel handle granted messages : ℕ) (s : EndpointState) → IsUsed config channel handle granted messages s → held s ≤ held_by_any config }
    ensures messages { (config : Configured) (channel handle granted messages : ℕ) (s : EndpointState) → IsUsed config channel handle granted messages s → messages ≤ granted }
{
    connection_begins();
    connection_goes_on();
    runs_have_a_history();
}

/// These calls are accepted [2.5.6, 2.6.7, 2.6.12, 2.6.14], if there is room in the output for one that writes:
///
/// - A take directly after `Ready`.
/// - A settle directly after the take of its delivery, if the sender has not settled that.
/// - A grant for a live link, if credit and open deliveries are then at most what the link is allowed.
/// - A widening for a live session, if its window is then below 2^31 places.
pub fn what_follows_is_accepted()
    ensures take { (config : Configured) (of_channel of_handle granted messages : ℕ) (old new : EndpointState) (piece : List ℕ) (used channel handle : ℕ) → IsUsed config of_channel of_handle granted messages old → IsFed old new piece used (outcome.Event (told.Ready channel handle)) → IsAccepted new channel (Take handle) }
    ensures settle { (config : Configured) (of_channel of_handle granted messages : ℕ) (old new : EndpointState) (channel handle : ℕ) (d : runs.Handed) (fate : Fate) → IsUsed config of_channel of_handle granted messages old → Does old new (runs.InSession channel (Take handle)) (runs.HandedUp d) → d.settled ≡ false → IsAccepted new channel (Settle d.delivery_id fate) }
    ensures grant { (config : Configured) (of_channel of_handle granted messages : ℕ) (s : EndpointState) (channel handle n : ℕ) (l : LiveLink) → IsUsed config of_channel of_handle granted messages s → link_at s.connection channel handle ≡ Live l → l.link.credit + open_count l.link + n ≤ (bounds_for config l.name).allowed → IsAccepted s channel (Grant handle n) }
    ensures widen { (config : Configured) (of_channel of_handle granted messages : ℕ) (s : EndpointState) (channel n : ℕ) (t : SessionState) → IsUsed config of_channel of_handle granted messages s → slot_at s.connection channel ≡ Live t → t.window + n < 2 ^ 31 → IsAccepted s channel (Widen n) }
{
    connection_begins();
    connection_goes_on();
    runs_have_a_history();
}

/// What is in the room of the buffer changes no feed: a feed after a read into the room does what it would do
/// before the read.
#[tactic(auto, using(crate::proofs::Fills::fed_read))]
pub fn fills_are_feeds()
    ensures { (s read new : EndpointState) (piece : List ℕ) (used : ℕ) (o : Outcome) → IsKept s read → IsFed read new piece used o → Does s new (runs.Feed piece) (runs.Fed used o) }
{}

/// Each byte of a piece is below 256.
pub fn are_bytes(piece: &[u8])
    ensures { (i : ℕ) → slice_index piece.now i < 256 }
{}

/// A delivery-id has 32 bits [2.8.9].
pub fn is_id(id: u32)
    ensures { id < 2 ^ 32 }
{}
