//! Laws of what is spelled.
ghost use Rattle.std.specs.Prelude.{◌≡◌, ◌≢◌, ◌≤◌, ℕ, true, List, Some, None, length};
ghost use Rattle.amqp_perform.specs.declared.condition.Condition.{Condition};
ghost use Rattle.amqp_perform.specs.declared.condition.Condition.TheVariants as condition;
ghost use Rattle.amqp_perform.specs.declared.outcome.Outcome.TheVariants as outcome;
ghost use Rattle.amqp_perform.specs.Conditions.{name_of, condition_span, condition_of};
ghost use Rattle.amqp_perform.specs.Outcomes.{outcome_of};
ghost use Rattle.amqp_reason.specs.Reasons.{Reason, error_span, rejected_span, is_valid};

/// An error has at most 335 bytes, and rejected with one at most 347.
pub fn spellings_are_short()
    ensures error { (r : Reason) → is_valid r ≡ true → length (error_span r) ≤ 335 }
    ensures rejected { (r : Reason) → is_valid r ≡ true → length (rejected_span r) ≤ 347 }
{}

/// A named condition alone is spelled as this side spells it by itself.
#[tactic(auto, unfolding(crate::specs::Reasons::error_span, amqp_perform::specs::Conditions::condition_span))]
pub fn named_conditions_are_spelled_alike()
    ensures { (c : Condition) → c ≢ condition.Other → error_span (record { condition = name_of c; description = None }) ≡ condition_span c }
{}
