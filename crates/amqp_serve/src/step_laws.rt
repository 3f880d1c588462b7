//! What holds of steps that are made one after another. The calls do nothing: their contracts are the laws.
ghost use Rattle.std.specs.Prelude.{◌≡◌, ℕ, ◌≤◌, ◌++◌, [], List, Option, length};
ghost use Rattle.amqp_endpoint.specs.Configs.{Configured, IsConfigured};
ghost use Rattle.amqp_endpoint.specs.Runs.{Run, IsStart, end_of};
ghost use Rattle.amqp_endpoint.specs.Steps.{EndpointState};
ghost use Rattle.amqp_endpoint.specs.Traces.{AreInRange};
ghost use Rattle.amqp_endpoint.specs.declared.event.End.{End};
ghost use Rattle.amqp_endpoint.specs.declared.event.Outcome.{Outcome};
ghost use Rattle.amqp_serve.specs.Cuts.{Made, IsMade};
ghost use Rattle.amqp_serve.specs.Deeds.{Ends, HasStepped, IsNotedAs};
ghost use Rattle.amqp_serve.specs.Interrupted.{Interrupted};
ghost use Rattle.amqp_serve.specs.Rooms.{answers_room};
ghost use Rattle.amqp_serve.specs.Serving.{Stand, reading, Step, Serves, Served, IsIdle, fed, moved, recorded, calls_of, answers_of};
ghost use Rattle.amqp_serve.specs.declared.rules.Rule.{Rule};
ghost use Rattle.amqp_serve.specs.declared.steps.Done.{Done};

use amqp_endpoint::laws::answers_fit_their_room;

/// What is served is a run of the endpoint: the calls are in their ranges, and each is in the run with its answer.
#[tactic(auto, using(crate::proofs::Servings::run_of, crate::proofs::Servings::ranges_of))]
pub fn steps_are_calls()
    ensures range { (r : Rule) (a b : Stand) (s t : EndpointState) (steps : List Step) → Serves r a s steps b t → AreInRange (calls_of steps) }
    ensures run { (r : Rule) (a b : Stand) (s t : EndpointState) (steps : List Step) → Serves r a s steps b t → Run s (calls_of steps) (answers_of steps) t }
{}

/// Take a new endpoint that was served some bytes, in which no answer and no unit waits. Its connection, and what
/// was written and recorded, are what the units of the bytes make, served one by one. It would end as they make
/// it. No unit waits in a new endpoint.
pub fn steps_follow_the_units()
    ensures begins { (config : Configured) (s : EndpointState) → IsStart config s → IsIdle s }
    ensures made { (r : Rule) (config : Configured) (bytes : List ℕ) (old new : EndpointState) (held now kept keeps : Option (List ℕ)) → IsStart config old → (x : Served r reading reading bytes old new held now kept keeps) → new.unsent ≡ [] → IsIdle new → IsMade r config bytes (record { connection = new.connection; written = moved x.steps; recorded = recorded x.steps }) (end_of new) }
{}

/// What the units of some bytes make is one result, and a connection ends after them in one way.
pub fn what_is_made_is_one()
    ensures { (r : Rule) (config : Configured) (bytes : List ℕ) (m n : Made) (end end2 : End) → IsConfigured config.container_id config.max_frame config.window → IsMade r config bytes m end → IsMade r config bytes n end2 → (m ≡ n) × (end ≡ end2) }
{}

/// A step after others that were refused memory serves the bytes that these used and its own, as if memory had
/// been ample. No unit waits after it.
pub fn refused_steps_are_made_up_for()
    ensures { (r : Rule) (more : List ℕ) (old mid new : EndpointState) (held now last kept keeps lasts : Option (List ℕ)) (steps : List Step) → Interrupted r old held kept steps mid now keeps → Served r reading reading more mid new now last keeps lasts → 8 ≤ old.input.limit → IsIdle new → Served r reading reading (fed steps ++ more) old new held last kept lasts }
{}

/// The answers to one step are at most `answers_room` bytes, if none waited before it.
pub fn a_step_is_answered_within()
    ensures { (r : Rule) (config : Configured) (told : Outcome) (d : Done) (bytes : List ℕ) (old new : EndpointState) (e f : Ends) → IsConfigured config.container_id config.max_frame config.window → old.connection.config ≡ config → 8 ≤ old.input.limit → old.unsent ≡ [] → (x : HasStepped r told d bytes old new e f) → length (moved x.served.steps) ≤ answers_room config }
{
    answers_fit_their_room();
}

/// A step recorded what it tells of: the message of its receipt, from the link on which its event says that one is
/// ready [2.6.14]. One that tells of no message recorded nothing.
pub fn a_step_tells_what_it_recorded()
    ensures { (r : Rule) (told : Outcome) (d : Done) (bytes : List ℕ) (old new : EndpointState) (e f : Ends) → (x : HasStepped r told d bytes old new e f) → IsNotedAs told d.receipt (recorded x.served.steps) }
{}
