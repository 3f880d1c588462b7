//! What holds of every connection that is served. The calls do nothing: their contracts are the laws.
ghost use Rattle.std.specs.Prelude.{◌≡◌, ℕ, ◌≤◌, ◌-◌, ◌++◌, ◌∷◌, [], Bool, List, Option, min};
ghost use Rattle.std.specs.List.{flat_map};
ghost use Rattle.amqp_link.specs.Links.{open_count};
ghost use Rattle.amqp_session.specs.Sessions.{LiveLink};
ghost use Rattle.amqp_session.specs.declared.slot.Slot.{Slot};
ghost use Rattle.amqp_session.specs.declared.slot.Slot.TheVariants.{Live};
ghost use Rattle.amqp_endpoint.specs.Configs.{Configured, IsConfigured};
ghost use Rattle.amqp_endpoint.specs.Runs.{Run, IsStart};
ghost use Rattle.amqp_endpoint.specs.Steps.{EndpointState};
ghost use Rattle.amqp_endpoint.specs.Traces.{AreInRange, IsWholeRun, heard, message_in};
ghost use Rattle.amqp_endpoint.specs.declared.event.End.{End};
ghost use Rattle.amqp_serve.specs.Policies.{rule_of, Serves, IsServed, IsMade, Interrupted};
ghost use Rattle.amqp_serve.specs.Serving.{credit_lack, Stand, Receiving, Over, reading, Step, Served, IsIdle, HasAllTaken, finish_of, fed, moved, recorded, record_of, calls_of, answers_of};
ghost use Rattle.amqp_serve.specs.Cuts.{Made, AreAlike, IsFront};
ghost use Rattle.amqp_serve.specs.declared.rules.Rule.{Rule};
ghost use Rattle.amqp_serve.specs.declared.serving.Policy.{Policy};

use amqp_endpoint::laws::runs_have_a_history;

/// By a policy a link lacks what its credit is short of the policy's, within what it is allowed less its credit
/// and its open deliveries [2.6.7].
#[tactic(auto, using(crate::proofs::Policies::policy_lacks))]
pub fn a_policy_keeps_each_link_at_its_credit()
    ensures { (p : Policy) (l : LiveLink) → credit_lack (rule_of p) (Live l) ≡ min (p.credit - l.link.credit) (l.link.terms.bounds.allowed - l.link.credit - open_count l.link) }
{}

/// By a rule without credit no link lacks any, so no step grants any [2.6.7].
#[tactic(auto, using(crate::proofs::Policies::none_lacked))]
pub fn a_rule_without_credit_grants_none()
    ensures { (r : Rule) (x : Slot LiveLink) → r.credit ≡ 0 → credit_lack r x ≡ 0 }
{}

/// What is served is a run of the endpoint: the calls are in their ranges, and each is in the run with its answer.
#[tactic(auto, using(crate::proofs::Servings::run_of, crate::proofs::Servings::ranges_of))]
pub fn serving_is_a_run()
    ensures range { (p : Policy) (a b : Stand) (s t : EndpointState) (steps : List Step) → Serves p a s steps b t → AreInRange (calls_of steps) }
    ensures run { (p : Policy) (a b : Stand) (s t : EndpointState) (steps : List Step) → Serves p a s steps b t → Run s (calls_of steps) (answers_of steps) t }
{}

/// What is served by a new endpoint has a history, as every run has. The bytes held are bounded, the events
/// reported are those of its units, and the messages handed up are the first of each link's whole deliveries [2.2
/// to 2.7].
pub fn what_is_served_has_a_history()
    ensures { (p : Policy) (a b : Stand) (config : Configured) (s t : EndpointState) (steps : List Step) → IsConfigured config.container_id config.max_frame config.window → IsStart config s → Serves p a s steps b t → IsWholeRun config (calls_of steps) (answers_of steps) t }
{
    runs_have_a_history();
    serving_is_a_run();
}

/// What serving records is the record of each message that was handed up, in order, and of no other.
#[tactic(auto, using(crate::proofs::ServingRecords::records_handed_up))]
pub fn records_are_what_was_handed_up()
    ensures { (steps : List Step) → recorded steps ≡ flat_map (λ m. record_of m.0 m.1 m.2) (flat_map message_in (heard (calls_of steps) (answers_of steps))) }
{}

/// If a new endpoint was served to its end, what was written and recorded, and the end, are what the units of the
/// bytes make, served one by one. Where the reader cut the bytes does not matter.
pub fn serving_follows_the_units()
    ensures { (p : Policy) (config : Configured) (end : End) (bytes : List ℕ) (ended : Bool) (old new : EndpointState) (held now kept keeps : Option (List ℕ)) → IsStart config old → (x : IsServed p end bytes ended old new held now kept keeps) → IsMade p config bytes (record { connection = x.before.connection; written = moved x.steps; recorded = recorded x.steps }) end }
{}

/// What is written and recorded, and the end, are a function of the bytes. Two new endpoints that were served to
/// their end over the same bytes, by the same policy and configuration, wrote and recorded the same, and ended
/// alike. How their readers cut the bytes does not matter.
pub fn serving_ignores_cuts()
    ensures { (p : Policy) (config : Configured) (bytes : List ℕ) (end end2 : End) (ended ended2 : Bool) (old old2 new new2 : EndpointState) (held held2 now now2 kept kept2 keeps keeps2 : Option (List ℕ)) → IsConfigured config.container_id config.max_frame config.window → IsStart config old → IsStart config old2 → (x : IsServed p end bytes ended old new held now kept keeps) → (y : IsServed p end2 bytes ended2 old2 new2 held2 now2 kept2 keeps2) → (end ≡ end2) × (moved x.steps ≡ moved y.steps) × (recorded x.steps ≡ recorded y.steps) × AreAlike held now held2 now2 × AreAlike kept keeps kept2 keeps2 }
{
    serving_follows_the_units();
}

/// At any moment before its end, also where it breaks off, serving has moved out and recorded a beginning of what
/// longer bytes make. `made` says so of what the units of these bytes make, and `same` of another new endpoint
/// that was served to their end.
pub fn serving_begins_the_same()
    ensures made { (p : Policy) (config : Configured) (end : End) (bytes unfed : List ℕ) (old now : EndpointState) (stand : Stand) (steps : List Step) (made : Made) → IsConfigured config.container_id config.max_frame config.window → IsStart config old → Serves p reading old steps stand now → (stand ≡ Over → ⊥) → bytes ≡ fed steps ++ unfed → IsMade p config bytes made end → IsFront (moved steps) made.written × IsFront (recorded steps) made.recorded }
    ensures same { (p : Policy) (config : Configured) (end : End) (bytes unfed : List ℕ) (ended : Bool) (old old2 now new : EndpointState) (stand : Stand) (steps : List Step) (held has kept keeps : Option (List ℕ)) → IsConfigured config.container_id config.max_frame config.window → IsStart config old → IsStart config old2 → Serves p reading old steps stand now → (stand ≡ Over → ⊥) → bytes ≡ fed steps ++ unfed → (y : IsServed p end bytes ended old2 new held has kept keeps) → IsFront (moved steps) (moved y.steps) × IsFront (recorded steps) (recorded y.steps) }
{
    serving_follows_the_units();
}

/// What is served in two parts, one after the other, is served at once. So any list of steps is one run of the
/// rule over the joined bytes.
#[tactic(auto, using(crate::proofs::Servings::served_on))]
pub fn steps_are_one_run()
    ensures { (r : Rule) (a b c : Stand) (bytes more : List ℕ) (old mid new : EndpointState) (held now last kept keeps lasts : Option (List ℕ)) → Served r a b bytes old mid held now kept keeps → Served r b c more mid new now last keeps lasts → Served r a c (bytes ++ more) old new held last kept lasts }
{}

/// What steps result in is a function of their bytes. Take two new endpoints that were served the same bytes by
/// the same rule, in which no answer and no unit waits. Their connections are equal, and they wrote and recorded
/// the same, however the bytes were cut into steps.
pub fn steps_ignore_cuts()
    ensures { (r : Rule) (config : Configured) (bytes : List ℕ) (old old2 new new2 : EndpointState) (held held2 now now2 kept kept2 keeps keeps2 : Option (List ℕ)) → IsConfigured config.container_id config.max_frame config.window → IsStart config old → IsStart config old2 → (x : Served r reading reading bytes old new held now kept keeps) → (y : Served r reading reading bytes old2 new2 held2 now2 kept2 keeps2) → new.unsent ≡ [] → new2.unsent ≡ [] → IsIdle new → IsIdle new2 → (new.connection ≡ new2.connection) × (moved x.steps ≡ moved y.steps) × (recorded x.steps ≡ recorded y.steps) }
{}

/// No message is ready in a new endpoint. If none is ready before serving, none is ready after it, unless it stops
/// just before it takes one.
#[tactic(auto, using(crate::proofs::AllTaken::start_taken, crate::proofs::AllTaken::leaves_taken))]
pub fn serving_takes_what_is_ready()
    ensures start { (config : Configured) (s : EndpointState) → IsStart config s → HasAllTaken s.connection }
    ensures taken { (p : Policy) (b : Stand) (s t : EndpointState) (steps : List Step) → 8 ≤ s.input.limit → HasAllTaken s.connection → Serves p reading s steps b t → ((channel handle : ℕ) → b ≡ Receiving channel handle → ⊥) → HasAllTaken t.connection }
{}

/// Serving that broke off as memory was refused and then went on, any number of times, is one run over all bytes
/// that were read, as if memory had been ample. What was written and recorded is what that run moved out and
/// recorded, and it ends so. (`holds_a_header` says that the buffer of every endpoint has room for eight bytes.)
///
/// Take two new endpoints that were served to their end over the same bytes. They wrote and recorded the same and
/// ended alike, even if memory was refused to one of them on the way. At any moment before its end such serving
/// has moved out and recorded a beginning of it. The calls that were made, with the refused feeds, are a run of
/// the endpoint too.
pub fn refusals_leave_no_trace()
    ensures served { (p : Policy) (end : End) (more : List ℕ) (ended : Bool) (old mid new : EndpointState) (held now last kept keeps lasts : Option (List ℕ)) (steps : List Step) → 8 ≤ old.input.limit → Interrupted p old held kept steps mid now keeps → (y : IsServed p end more ended mid new now last keeps lasts) → (z : IsServed p end (fed steps ++ more) ended old new held last kept lasts) × (moved z.steps ≡ moved (steps ++ y.steps)) × (recorded z.steps ≡ recorded (steps ++ y.steps)) }
    ensures same { (p : Policy) (config : Configured) (more : List ℕ) (end end2 : End) (ended ended2 : Bool) (old mid new old2 new2 : EndpointState) (held now last kept keeps lasts held2 now2 kept2 keeps2 : Option (List ℕ)) (steps : List Step) → IsConfigured config.container_id config.max_frame config.window → IsStart config old → IsStart config old2 → Interrupted p old held kept steps mid now keeps → (y : IsServed p end more ended mid new now last keeps lasts) → (z : IsServed p end2 (fed steps ++ more) ended2 old2 new2 held2 now2 kept2 keeps2) → (end ≡ end2) × (moved (steps ++ y.steps) ≡ moved z.steps) × (recorded (steps ++ y.steps) ≡ recorded z.steps) × AreAlike held last held2 now2 × AreAlike kept lasts kept2 keeps2 }
    ensures begun { (p : Policy) (config : Configured) (end : End) (unfed : List ℕ) (old mid last : EndpointState) (held now kept keeps : Option (List ℕ)) (steps more : List Step) (stand : Stand) (made : Made) → IsConfigured config.container_id config.max_frame config.window → IsStart config old → Interrupted p old held kept steps mid now keeps → Serves p reading mid more stand last → (stand ≡ Over → ⊥) → IsMade p config (fed (steps ++ more) ++ unfed) made end → IsFront (moved (steps ++ more)) made.written × IsFront (recorded (steps ++ more)) made.recorded }
    ensures run { (p : Policy) (end : End) (more : List ℕ) (ended : Bool) (old mid new : EndpointState) (held now last kept keeps lasts : Option (List ℕ)) (steps : List Step) → Interrupted p old held kept steps mid now keeps → (y : IsServed p end more ended mid new now last keeps lasts) → Run old (calls_of (steps ++ y.steps ++ finish_of end ∷ [])) (answers_of (steps ++ y.steps ++ finish_of end ∷ [])) new × AreInRange (calls_of (steps ++ y.steps ++ finish_of end ∷ [])) }
{
    serving_ignores_cuts();
}
