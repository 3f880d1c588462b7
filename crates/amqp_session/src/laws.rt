//! What holds for the history of a session. The functions do nothing: their contracts are the laws.
ghost use Rattle.std.specs.Prelude.{◌≡◌, ℕ, ◌+◌, ◌%◌, ◌^◌, ◌<◌, ◌≤◌, true, false, not, List, ◌∷◌, [], sum_by, Some, None};
ghost use Rattle.std.specs.List.{list_any};
ghost use Rattle.amqp_perform.specs.declared.modes.ReceiverSettleMode.{ReceiverSettleMode};
ghost use Rattle.amqp_perform.specs.declared.modes.ReceiverSettleMode.TheVariants.{First, Second};
ghost use Rattle.amqp_link.specs.declared.settlement.Standing.TheVariants.{Told, Awaiting};
ghost use Rattle.amqp_link.specs.Links.{Sent, LinkEvent, Granted, open_count};
ghost use Rattle.amqp_session.specs.declared.slot.Slot.TheVariants.{Free, Live, Waits};
ghost use Rattle.amqp_session.specs.declared.terms.SessionTerms.{SessionTerms};
ghost use Rattle.amqp_session.specs.Calls.{Call, standing_in, standing_fault, settles_at_once, slot_names_first, slot_names_second, range_fault, call_fault, call_event};
ghost use Rattle.amqp_session.specs.Faults.{session_fault, event_of, settled_count};
ghost use Rattle.amqp_session.specs.Frames.{Flowing, Frame, Flows, Transfers, IsInRange};
ghost use Rattle.amqp_session.specs.Laws.{IsCallInRange, IsOfTransfer, parts, slot_most, part_bytes, part_settled, named_total, part_named, NoneStates, IsStatedBefore, IsElsewhere, credit_at, granted_at};
ghost use Rattle.amqp_session.specs.Places.{GoesOn, AllGoOn, Leaves, Gone};
ghost use Rattle.amqp_session.specs.Sessions as session;
ghost use Rattle.amqp_session.specs.Sessions.{Attached, LiveLink, live_begins, SessionState, slot_at, is_open_id, session_bytes, SessionEvent, LinkAttached, Settled, Ignored, Called, happens, is_transfer, stated_by, session_after, SessionMay, IsApart};
ghost use Rattle.amqp_session.specs.Histories.{widenings, transfers, part, state_of, Sound, after_all, Accepted};

use amqp_link::laws as links;
use amqp_link::laws::{
    history_begins, history_goes_on, open_deliveries_are_selected, open_ids_grow_by_heads,
    receiver_settles_what_it_was_handed,
};

/// A session at its begin is what the empty history results in, and that history is sound.
pub fn session_begins()
    ensures { (terms : SessionTerms) → terms.incoming_window < 2 ^ 31 → terms.next_outgoing_id < 2 ^ 32 → (session.session_begins terms ≡ state_of terms []) × Sound terms [] }
{}

/// After one more accepted event, the session is what the longer history results in, and that history is sound.
pub fn session_goes_on()
    ensures { (terms : SessionTerms) (h : List SessionEvent) (e : SessionEvent) → Sound terms h → SessionMay (state_of terms h) e → (session_after (state_of terms h) e ≡ state_of terms (e ∷ h)) × Sound terms (e ∷ h) }
{
    history_begins();
    history_goes_on();
    open_ids_grow_by_heads();
}

/// After any list of accepted events, the session is what the sums over the whole list and the parts of its
/// links result in, and the list is sound.
pub fn steps_give_the_history()
    ensures { (terms : SessionTerms) (h : List SessionEvent) → terms.incoming_window < 2 ^ 31 → terms.next_outgoing_id < 2 ^ 32 → Accepted terms h → (after_all terms h ≡ state_of terms h) × Sound terms h }
{
    session_begins();
    session_goes_on();
}

/// A frame whose numbers are in range, and which has no fault that ends the session, is an event that the
/// session accepts. That is so even if it ends a link or is dropped.
pub fn frames_are_accepted()
    ensures { (terms : SessionTerms) (h : List SessionEvent) (f : Frame) → Sound terms h → IsInRange terms.handle_max f → session_fault (state_of terms h) f ≡ None → SessionMay (state_of terms h) (event_of (state_of terms h) f) }
{}

/// A call that is not refused is an event that the session accepts, if an id that it names has 32 bits.
pub fn calls_are_accepted()
    ensures { (terms : SessionTerms) (h : List SessionEvent) (c : Call) → Sound terms h → IsCallInRange c → call_fault (state_of terms h) c ≡ None → SessionMay (state_of terms h) (call_event (state_of terms h) c) }
{}

/// After any list of accepted events, no two open deliveries of the session have the same id, and each id is a
/// number of 32 bits [2.6.12, 2.8.9].
pub fn open_ids_are_apart()
    ensures { (terms : SessionTerms) (h : List SessionEvent) → Accepted terms h → IsApart (after_all terms h) }
{
    open_ids_grow_by_heads();
}

/// The bytes held for a session are those of its history: 64 for itself, and 128 for each handle in use. For
/// each live link its name, source and target count too, and what is held of its open deliveries.
pub fn held_is_counted()
    ensures { (terms : SessionTerms) (h : List SessionEvent) → session_bytes (state_of terms h) ≡ 64 + sum_by part_bytes (parts terms h) }
{
    open_deliveries_are_selected();
}

/// The bytes held for a session are bounded by its links: 64 for itself, for each live link what its bounds
/// allow, and 128 for each that waits for the peer's detach.
pub fn held_is_bounded()
    ensures { (terms : SessionTerms) (h : List SessionEvent) → Sound terms h → session_bytes (state_of terms h) ≤ 64 + sum_by slot_most (state_of terms h).links }
{
    links::held_is_bounded();
}

/// A disposition of the sender settles as many open deliveries as it settles in the parts of all live links,
/// handed up or not [2.7.6].
pub fn dispositions_settle_what_is_open()
    ensures { (terms : SessionTerms) (h : List SessionEvent) (first last : ℕ) → settled_count (state_of terms h) first last ≡ sum_by (part_settled first last) (parts terms h) }
{
    links::dispositions_settle_what_is_open();
}

/// A settle by this side of a range of ids names as many deliveries as the parts of all live links have that
/// are open, were handed up, and have one of the ids [2.7.6].
pub fn settles_name_what_was_handed_up()
    ensures { (terms : SessionTerms) (h : List SessionEvent) (first last : ℕ) → named_total first last (state_of terms h) ≡ sum_by (part_named first last) (parts terms h) }
{
    receiver_settles_what_it_was_handed();
}

/// A settle of one id names one delivery of the whole session, if one with that id awaits a settle.
pub fn a_settle_names_one_delivery()
    ensures { (s : SessionState) (id : ℕ) (mode : ReceiverSettleMode) → IsApart s → id < 2 ^ 32 → standing_in id s.links ≡ Awaiting mode → named_total id id s ≡ 1 }
{}

/// A settle of one id is refused or accepted by how its delivery stands alone, since no other has the id.
pub fn a_settle_is_a_range_of_one()
    ensures { (s : SessionState) (id : ℕ) → IsApart s → id < 2 ^ 32 → range_fault id id s ≡ standing_fault (standing_in id s.links) }
{}

/// The open deliveries that a settle of a range names are all in the mode of the first, if the settle is not
/// refused. So its disposition says of each what is true of it [2.7.6, 2.8.3].
pub fn a_range_is_in_one_mode()
    ensures first { (s : SessionState) (first last : ℕ) → IsApart s → first < 2 ^ 32 → range_fault first last s ≡ None → list_any (slot_names_first first last) s.links ≡ settles_at_once (standing_in first s.links) }
    ensures second { (s : SessionState) (first last : ℕ) → IsApart s → first < 2 ^ 32 → range_fault first last s ≡ None → list_any (slot_names_second first last) s.links ≡ not (settles_at_once (standing_in first s.links)) }
{}

/// After a settle of one id in mode first, no open delivery of the session has the id. In mode second the
/// sender was told what became of the delivery that has it, which stays open and can't be settled again
/// [2.8.3].
pub fn a_settle_ends_or_tells()
    ensures ends { (s : SessionState) (id : ℕ) → IsApart s → id < 2 ^ 32 → standing_in id s.links ≡ Awaiting First → is_open_id (session_after s (Settled id id)) id ≡ false }
    ensures tells { (s : SessionState) (id : ℕ) → id < 2 ^ 32 → standing_in id s.links ≡ Awaiting Second → standing_in id (session_after s (Settled id id)).links ≡ Told }
{}

/// Each transfer uses a place of the window, even if it is dropped or ends its link, and only widenings add
/// places. What a flow states never changes how many are left [2.5.6].
pub fn places_are_counted()
    ensures history { (terms : SessionTerms) (h : List SessionEvent) → Sound terms h → (state_of terms h).window + transfers h ≡ terms.incoming_window + widenings h }
    ensures transfer { (s : SessionState) (e : SessionEvent) → SessionMay s e → is_transfer e ≡ true → (session_after s e).window + 1 ≡ s.window }
    ensures flow { (s : SessionState) (e : SessionEvent) (next_id : ℕ) → stated_by e ≡ Some next_id → (session_after s e).window ≡ s.window }
{}

/// A transfer without a fault that ends the session uses a place, whatever it results in, and no other frame
/// does [2.5.6].
pub fn transfers_use_places()
    ensures transfer { (s : SessionState) (handle : ℕ) (t : Sent) → session_fault s (Transfers handle t) ≡ None → is_transfer (event_of s (Transfers handle t)) ≡ true }
    ensures alone { (s : SessionState) (f : Frame) → is_transfer (event_of s f) ≡ true → IsOfTransfer f }
{}

/// A flow states its next-outgoing-id, even if it ends its link. A flow for a link that waits for the peer's
/// detach changes nothing [2.6.5, 2.7.4].
pub fn flows_state_ids()
    ensures session { (s : SessionState) (f : Flowing) → f.handle ≡ None → stated_by (event_of s (Flows f)) ≡ Some f.next_outgoing_id }
    ensures live { (s : SessionState) (f : Flowing) (handle : ℕ) (l : LiveLink) → f.handle ≡ Some handle → slot_at s handle ≡ Live l → stated_by (event_of s (Flows f)) ≡ Some f.next_outgoing_id }
    ensures waits { (s : SessionState) (f : Flowing) (handle : ℕ) → f.handle ≡ Some handle → slot_at s handle ≡ Waits → event_of s (Flows f) ≡ Ignored }
{}

/// The next-incoming-id is the next-outgoing-id that the peer stated last, by a flow or else by its begin, plus
/// 1 for each transfer since then, modulo 2^32 [2.5.6].
pub fn next_incoming_id_is_counted()
    ensures flow { (terms : SessionTerms) (next_id : ℕ) (later h : List SessionEvent) → IsStatedBefore next_id later h → (state_of terms h).next_incoming_id ≡ (next_id + transfers later) % 2 ^ 32 }
    ensures begin { (terms : SessionTerms) (h : List SessionEvent) → NoneStates h → (state_of terms h).next_incoming_id ≡ (terms.next_outgoing_id + transfers h) % 2 ^ 32 }
{}

/// Each link has its own life. What happens at other handles does not change it. A link begins with no event
/// when it attaches, even at a handle that another link had before. No credit and no delivery of that other
/// link is found again [2.6.2, 2.6.4].
pub fn each_link_has_its_own_life()
    ensures part_elsewhere { (handle : ℕ) (h : List SessionEvent) (e : SessionEvent) → IsElsewhere handle (happens e) → part handle (e ∷ h) ≡ part handle h }
    ensures part_anew { (handle : ℕ) (a : Attached) (h : List SessionEvent) → part handle (LinkAttached handle a ∷ h) ≡ Live (a, []) }
    ensures elsewhere { (s : SessionState) (handle : ℕ) (e : SessionEvent) → IsElsewhere handle (happens e) → slot_at (session_after s e) handle ≡ slot_at s handle }
    ensures anew { (s : SessionState) (handle : ℕ) (a : Attached) → SessionMay s (LinkAttached handle a) → slot_at (session_after s (LinkAttached handle a)) handle ≡ Live (live_begins a) }
{}

/// The part of a live link becomes one event longer with each event at its handle or at all handles, in the
/// order of the session. Nothing of it is left once this side or the peer ends the link [2.6.4, 2.6.5].
pub fn parts_go_on()
    ensures goes_on { (handle : ℕ) (h : List SessionEvent) (e : SessionEvent) (a : Attached) (before : List LinkEvent) (x : LinkEvent) → happens e ≡ GoesOn handle x → part handle h ≡ Live (a, before) → part handle (e ∷ h) ≡ Live (a, x ∷ before) }
    ensures all_go_on { (handle : ℕ) (h : List SessionEvent) (e : SessionEvent) (a : Attached) (before : List LinkEvent) (x : LinkEvent) → happens e ≡ AllGoOn x → part handle h ≡ Live (a, before) → part handle (e ∷ h) ≡ Live (a, x ∷ before) }
    ensures leaves { (handle : ℕ) (h : List SessionEvent) (e : SessionEvent) → happens e ≡ Leaves handle → part handle (e ∷ h) ≡ Waits }
    ensures gone { (handle : ℕ) (h : List SessionEvent) (e : SessionEvent) → happens e ≡ Gone handle → part handle (e ∷ h) ≡ Free }
{}

/// The credit of a link rises only by a grant for it, and by exactly as much.
pub fn credit_rises_by_grants()
    ensures granted { (terms : SessionTerms) (h : List SessionEvent) (handle n : ℕ) (l : LiveLink) → Sound terms h → slot_at (state_of terms h) handle ≡ Live l → credit_at (state_of terms (Called handle (Granted n) ∷ h)) handle ≡ l.link.credit + n }
    ensures most { (terms : SessionTerms) (h : List SessionEvent) (e : SessionEvent) (handle : ℕ) → credit_at (state_of terms (e ∷ h)) handle ≤ credit_at (state_of terms h) handle + granted_at handle e }
{
    links::credit_rises_by_grants();
}

/// On each live link, credit and open deliveries are together at most what the link allows.
pub fn links_are_within()
    ensures { (terms : SessionTerms) (h : List SessionEvent) (handle : ℕ) (l : LiveLink) → Sound terms h → slot_at (state_of terms h) handle ≡ Live l → l.link.credit + open_count l.link ≤ l.link.terms.bounds.allowed }
{}
