//! What holds of each server, over every list of its calls. The calls do nothing: their contracts are the laws.
ghost use Rattle.std.specs.Prelude.{◌≡◌, ◌++◌, ℕ, Bool, List, Option, Some, length};
ghost use Rattle.amqp_endpoint.specs.Configs.{Configured, IsConfigured};
ghost use Rattle.amqp_endpoint.specs.Runs.{IsStart};
ghost use Rattle.amqp_endpoint.specs.Steps.{EndpointState};
ghost use Rattle.amqp_endpoint.specs.declared.event.End.{End};
ghost use Rattle.amqp_serve.specs.Cuts.{Made, IsMade};
ghost use Rattle.amqp_serve.specs.Kept.{LifeGoesOn, LifeIsAlone};
ghost use Rattle.amqp_serve.specs.Lives.{Heard, heard_bytes, Life, ByPeer, last_words, IsMadeBy, AreBy, IsAlone, IsAloneBy};
ghost use Rattle.amqp_serve.specs.Policies.{rule_of, IsServed};
ghost use Rattle.amqp_serve.specs.Serving.{moved, recorded};
ghost use Rattle.amqp_serve.specs.declared.rules.Rule.{Rule};
ghost use Rattle.amqp_serve.specs.declared.serving.Policy.{Policy};

use crate::laws::serving_follows_the_units;
use crate::step_laws::{a_step_is_answered_within, steps_are_calls, what_is_made_is_one};
use amqp_endpoint::laws::{uses_are_bounded, uses_are_counted};

/// A server's life begins, and goes on with each of its calls, whatever the rule of each step.
pub fn lives_go_on()
    ensures { (config : Configured) → LifeGoesOn config }
{
    uses_are_counted();
    uses_are_bounded();
    steps_are_calls();
    a_step_is_answered_within();
}

/// What a server wrote and recorded, and how its connection ended, is what its own calls alone give: each unit served
/// by the rule of the step that ended it, and a topping up by the rule of each step that ended none. They also say
/// whether the connection is over and whether it is open. What the endpoint holds is bounded.
pub fn lives_are_alone()
    ensures { (config : Configured) → LifeIsAlone config }
{
    uses_are_bounded();
}

/// What steps make is one result, and a connection ends after them in one way.
pub fn what_steps_make_is_one()
    ensures { (config : Configured) (steps : List Heard) (m n : Made) (end end2 : End) → IsConfigured config.container_id config.max_frame config.window → IsMadeBy config steps m end → IsMadeBy config steps n end2 → (m ≡ n) × (end ≡ end2) }
{}

/// Steps that all have one rule make what the units of their bytes make by it, served one by one. So where the steps
/// cut the bytes does not matter.
pub fn one_rule_ignores_cuts()
    ensures made { (r : Rule) (config : Configured) (steps : List Heard) (made : Made) (end : End) → AreBy r steps → IsMadeBy config steps made end → IsMade r config (heard_bytes steps) made end }
    ensures alone { (r : Rule) (config : Configured) (l : Life) → AreBy r l.heard → IsAlone config l → IsAloneBy r config l }
{}

/// What was written and recorded in a life of one rule is what `serve` writes and records over the same bytes, however
/// its reader cuts them. Only the last bytes, which wait, and a close of this side differ. If the input has ended, the
/// connection ended as `serve` does.
pub fn alone_is_as_served()
    ensures { (p : Policy) (config : Configured) (l : Life) (end : End) (ended : Bool) (old new : EndpointState) (held now kept keeps : Option (List ℕ)) → IsConfigured config.container_id config.max_frame config.window → IsAloneBy (rule_of p) config l → IsStart config old → (y : IsServed p end (heard_bytes l.heard) ended old new held now kept keeps) → (l.noted ≡ recorded y.steps) × ((rest : List ℕ) × (l.told ++ rest ≡ moved y.steps ++ last_words l.ended) × (length rest ≡ l.due)) × ((e : End) → l.ended ≡ Some (ByPeer e) → e ≡ end) }
{
    serving_follows_the_units();
    what_is_made_is_one();
}
