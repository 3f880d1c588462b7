//! Outcomes of deliveries. [3.4]

ghost use Rattle.std.specs.Prelude.{◌≡◌};
ghost use Rattle.amqp_perform.specs.Outcomes.{true_at, second_true, modified_by};
ghost use Rattle.amqp_perform.specs.BodyReading.{list_at};

use crate::cursor::Cursor;
use crate::descriptor::Descriptor;
use crate::fields::Fields;

/// What became of a delivery. [3.4]
#[derive(Clone, Copy, Debug, PartialEq, Eq)]
pub enum Outcome {
    /// It was processed. [3.4.2]
    Accepted,
    /// It is invalid. [3.4.3]
    Rejected,
    /// It was not processed. [3.4.4]
    Released,
    /// It was changed, but not processed. [3.4.5]
    Modified {
        /// The transfer counts as an unsuccessful attempt.
        failed: bool,
        /// It is not to be sent again on this link.
        undeliverable: bool,
    },
}

impl Outcome {
    ghost use Rattle.std.specs.Prelude.{◌≡◌};
    ghost use Rattle.amqp_perform.specs.Outcomes.{outcome_span, outcome_of};

    /// Returns the canonical spelling of the state, with no error and no annotations. [3.4]
    #[tactic(auto, unfolding(crate::specs::Outcomes::outcome_span))]
    pub fn span(self) -> &'static [u8]
        ensures { result.now ≡ outcome_span self }
    {
        match self {
            Outcome::Accepted => b"\x00\x53\x24\x45",
            Outcome::Rejected => b"\x00\x53\x25\x45",
            Outcome::Released => b"\x00\x53\x26\x45",
            Outcome::Modified {
                failed: false,
                undeliverable: false,
            } => b"\x00\x53\x27\x45",
            Outcome::Modified {
                failed: true,
                undeliverable: false,
            } => { b"\x00\x53\x27\xc0\x02\x01\x41" }
            Outcome::Modified {
                failed: false,
                undeliverable: true,
            } => { b"\x00\x53\x27\xc0\x03\x02\x40\x41" }
            Outcome::Modified {
                failed: true,
                undeliverable: true,
            } => { b"\x00\x53\x27\xc0\x03\x02\x41\x41" }
        }
    }

    /// Returns the outcome of a state, by its descriptor; `None` if that describes no outcome. [3.4]
    ///
    /// What follows the descriptor is looked at only for the two flags of modified. A flag that is not there,
    /// or is not true, is false.
    #[tactic(auto, unfolding(crate::specs::Outcomes::outcome_of))]
    pub fn of(span: &[u8]) -> Option<Outcome>
        ensures { result ≡ outcome_of span.now }
    {
        let mut state = Cursor { bytes: span };
        match state.descriptor()? {
            Descriptor::Accepted => Some(Outcome::Accepted),
            Descriptor::Rejected => Some(Outcome::Rejected),
            Descriptor::Released => Some(Outcome::Released),
            Descriptor::Modified => Some(modified(state)),
            _ => None,
        }
    }
}

/// Returns the outcome modified, with the flags that come first in the list.
#[tactic(auto, unfolding(crate::specs::Outcomes::modified_by))]
fn modified(mut state: Cursor<'_>) -> Outcome
    ensures { result ≡ modified_by (list_at state.entry.bytes.now) }
{
    match state.list() {
        Some((count, items)) => flagged(Fields::of(count, items)),
        None => Outcome::Modified {
            failed: false,
            undeliverable: false,
        },
    }
}

/// Returns the outcome modified, with the flags that are left. [3.4.5]
#[tactic(auto, unfolding(crate::specs::Outcomes::second_true))]
fn flagged(mut fields: Fields<'_>) -> Outcome
    ensures { result ≡ Outcome.Modified (true_at fields.entry.left fields.entry.items.bytes.now) (second_true fields.entry.left fields.entry.items.bytes.now) }
{
    let failed = fields.is_true();
    let undeliverable = match fields.span() {
        Some(_) => fields.is_true(),
        None => false,
    };
    Outcome::Modified {
        failed,
        undeliverable,
    }
}
