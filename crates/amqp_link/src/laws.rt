//! What holds for the history of a link. The functions do nothing: their contracts are the laws.
ghost use Rattle.std.specs.Prelude.{◌≡◌, ℕ, ◌+◌, ◌*◌, ◌^◌, ◌<◌, ◌≤◌, ◌↔◌, true, List, ◌∷◌, [], length, map, filter, take, sum_by, Option, Some, None};
ghost use Rattle.std.specs.List.{AllByRecursion};
ghost use Rattle.amqp_serial.specs.Numbers.{IsInRange};
ghost use Rattle.amqp_link.specs.declared.terms.Terms.{Terms};
ghost use Rattle.amqp_link.specs.Links.{LinkState, LinkEvent, Granted, FlowStated, SenderSettled, link_after, link_begins, LinkMay, is_drained, deliveries, open_count, link_bytes, open_set, covers, named_count, newly_settled};
ghost use Rattle.amqp_link.specs.Histories.{state_of, Sound, after_all, Accepted, credit, draining, granted_by, content, content_of, handed_up, given, takes, wholes, groups, is_open, is_settled_by, kept, kept_bytes};
ghost use Rattle.amqp_link.specs.Laws.{id_count, begun_with, open_ids, settle_each, settled_each, is_named_by, IsAskedToDrain};

/// A link at its attach is what the empty history results in.
pub fn history_begins()
    ensures { (terms : Terms) → terms.initial_delivery_count < 2 ^ 32 → (link_begins terms ≡ state_of terms []) × Sound terms [] }
{}

/// After one more accepted event, the link is what the longer history results in, and that history is sound.
pub fn history_goes_on()
    ensures { (terms : Terms) (h : List LinkEvent) (e : LinkEvent) → Sound terms h → LinkMay (state_of terms h) e → (link_after (state_of terms h) e ≡ state_of terms (e ∷ h)) × Sound terms (e ∷ h) }
{}

/// After any list of accepted events, the link is what the sums and selections over the whole list result in,
/// and the list is sound.
pub fn steps_give_the_history()
    ensures { (terms : Terms) (h : List LinkEvent) → terms.initial_delivery_count < 2 ^ 32 → Accepted terms h → (after_all terms h ≡ state_of terms h) × Sound terms h }
{}

/// Credit rises only by a grant, and by exactly as much.
pub fn credit_rises_by_grants()
    ensures granted { (terms : Terms) (h : List LinkEvent) (n : ℕ) → Sound terms h → credit terms (Granted n ∷ h) ≡ credit terms h + n }
    ensures most { (terms : Terms) (h : List LinkEvent) (e : LinkEvent) → credit terms (e ∷ h) ≤ credit terms h + granted_by e }
{}

/// What was handed up is the beginning of the whole deliveries, in order and each once. Each is as it was
/// when it was handed up, settled or not.
pub fn handed_up_in_order()
    ensures order { (terms : Terms) (h : List LinkEvent) → terms.initial_delivery_count < 2 ^ 32 → Accepted terms h → map content_of (handed_up h) ≡ map content (take (takes h) (wholes h)) }
    ensures stood { (terms : Terms) (h : List LinkEvent) → terms.initial_delivery_count < 2 ^ 32 → Accepted terms h → handed_up h ≡ given terms h }
{}

/// The open deliveries are, in link order, those of the history that are neither given up nor both handed up
/// and settled. Each is as the history shows it. A message that was handed up is no longer held.
pub fn open_deliveries_are_selected()
    ensures deliveries { (terms : Terms) (h : List LinkEvent) → deliveries (state_of terms h) ≡ map (kept terms h) (filter (is_open terms h) (groups h)) }
    ensures count { (terms : Terms) (h : List LinkEvent) → open_count (state_of terms h) ≡ length (filter (is_open terms h) (groups h)) }
    ensures bytes { (terms : Terms) (h : List LinkEvent) → link_bytes (state_of terms h) ≡ sum_by (kept_bytes h) (filter (is_open terms h) (groups h)) }
{}

/// A disposition of the sender settles as many open deliveries as it settles in the history, handed up or
/// not.
pub fn dispositions_settle_what_is_open()
    ensures { (terms : Terms) (h : List LinkEvent) (first last : ℕ) → newly_settled first last (open_set (state_of terms h)) ≡ length (filter (is_settled_by terms h first last) (groups h)) }
{}

/// A flow without delivery-count does what one with the known count does.
pub fn absent_count_is_the_known_one()
    ensures after { (s : LinkState) → s.delivery_count < 2 ^ 32 → link_after s (FlowStated (Some s.delivery_count)) ≡ link_after s (FlowStated None) }
    ensures may { (s : LinkState) → s.delivery_count < 2 ^ 32 → LinkMay s (FlowStated (Some s.delivery_count)) }
    ensures drained { (s : LinkState) → s.delivery_count < 2 ^ 32 → is_drained s (Some s.delivery_count) ≡ is_drained s None }
{}

/// The bytes held for a link's deliveries are bounded by its terms. For each allowed delivery, the bound
/// counts the longest message, 32 bytes for its tag, and 64 for itself.
pub fn held_is_bounded()
    ensures { (terms : Terms) (h : List LinkEvent) → Sound terms h → link_bytes (state_of terms h) ≤ terms.bounds.allowed * (terms.bounds.max_message_size + 96) }
{}

/// A settle covers the ids from first to last in the arithmetic of serial numbers [2.7.6, 2.8.10].
pub fn covers_is_the_range_of_serial_numbers()
    ensures { (first last id : ℕ) → (covers first last id ≡ true) ↔ IsInRange first last id }
{}

/// The number of open deliveries with an id rises only if an accepted transfer begins one with that id. So no
/// two have the same id as long as each begins with an id that no open one has.
pub fn open_ids_grow_by_heads()
    ensures { (id : ℕ) (s : LinkState) (e : LinkEvent) → LinkMay s e → id_count id (link_after s e) ≤ id_count id s + begun_with id s e }
{}

/// A settle of the sender over a range does what settles of the open ids in it do, one after the other, and
/// settles as many deliveries.
pub fn a_range_is_settled_id_by_id()
    ensures after { (first last : ℕ) (s : LinkState) → AllByRecursion (λ d. d.delivery_id < 2 ^ 32) (deliveries s) → link_after s (SenderSettled first last) ≡ settle_each (filter (covers first last) (open_ids s)) s }
    ensures count { (first last : ℕ) (s : LinkState) → AllByRecursion (λ d. d.delivery_id < 2 ^ 32) (deliveries s) → newly_settled first last (open_set s) ≡ settled_each (filter (covers first last) (open_ids s)) s }
{}

/// A settle of the receiver settles, or tells of, as many deliveries as the history has that are open, were
/// handed up, and have one of its ids.
pub fn receiver_settles_what_it_was_handed()
    ensures { (terms : Terms) (h : List LinkEvent) (first last : ℕ) → named_count first last (open_set (state_of terms h)) ≡ length (filter (is_named_by terms h first last) (groups h)) }
{}

/// A flow tells that the credit is used up exactly if the sender was asked to use it up and none is left
/// after the flow [2.6.7].
pub fn drained_when_no_credit_is_left()
    ensures { (terms : Terms) (h : List LinkEvent) (stated : Option ℕ) → (is_drained (state_of terms h) stated ≡ true) ↔ ((draining terms h ≡ true) × (credit terms (FlowStated stated ∷ h) ≡ 0)) }
{}

/// A link drains exactly if the sender was asked to use its credit up, and no event since then ended that
/// [2.6.7].
pub fn asked_to_drain()
    ensures { (terms : Terms) (h : List LinkEvent) → (draining terms h ≡ true) ↔ IsAskedToDrain terms h }
{}
