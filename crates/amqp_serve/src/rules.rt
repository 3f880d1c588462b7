//! The rule by which an endpoint is served.
ghost use Rattle.std.specs.Prelude.{◌≡◌};
ghost use Rattle.amqp_serve.specs.Policies.{rule_of, without_credit};

use crate::Policy;
use amqp_perform::Outcome;

/// What is done with each message, and when a link gets credit.
#[derive(Clone, Copy, Debug, PartialEq, Eq)]
pub struct Rule {
    /// The credit that a link is topped up to, within what it is allowed.
    pub credit: u32,
    /// A link is topped up if its credit is at most this. If a link is allowed no more than this, it is topped up
    /// after each message.
    pub mark: u32,
    /// The outcome of each message that its sender has not settled.
    pub outcome: Outcome,
}

impl Rule {
    /// Returns the rule of a policy: its mark is one below the credit, or 0 if that is 0.
    pub fn of(policy: Policy) -> Rule
        ensures { result ≡ rule_of policy }
    {
        Rule {
            credit: policy.credit,
            mark: policy.credit.saturating_sub(1),
            outcome: policy.outcome,
        }
    }

    /// Returns the rule by which no link gets credit, for a host that gives it by [`crate::Server::top_up_link`].
    pub fn without_credit(outcome: Outcome) -> Rule
        ensures { result ≡ without_credit outcome }
    {
        Rule {
            credit: 0,
            mark: 0,
            outcome,
        }
    }
}
