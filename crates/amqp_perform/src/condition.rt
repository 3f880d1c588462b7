//! Conditions of errors. [2.8.14 to 2.8.18]

ghost use Rattle.std.specs.Prelude.{◌≡◌, MatchOption, Some};
ghost use Rattle.amqp_perform.specs.Conditions.{by_name, condition_of};

use crate::descriptor::Descriptor;
use crate::fields::described_list;
use std::fmt::{self, Display, Formatter};

/// Why a connection, a session or a link was ended. [2.8.14]
#[derive(Clone, Copy, Debug, PartialEq, Eq)]
pub enum Condition {
    /// `amqp:connection:framing-error`
    FramingError,
    /// `amqp:decode-error`
    DecodeError,
    /// `amqp:invalid-field`
    InvalidField,
    /// `amqp:illegal-state`
    IllegalState,
    /// `amqp:not-implemented`
    NotImplemented,
    /// `amqp:resource-limit-exceeded`
    ResourceLimitExceeded,
    /// `amqp:frame-size-too-small`
    FrameSizeTooSmall,
    /// `amqp:session:window-violation`
    WindowViolation,
    /// `amqp:session:handle-in-use`
    HandleInUse,
    /// `amqp:session:unattached-handle`
    UnattachedHandle,
    /// `amqp:link:transfer-limit-exceeded`
    TransferLimitExceeded,
    /// `amqp:link:message-size-exceeded`
    MessageSizeExceeded,
    /// Any other, or none.
    Other,
}

/// The conditions that have a name.
const NAMED: [Condition; 12] = [
    Condition::FramingError,
    Condition::DecodeError,
    Condition::InvalidField,
    Condition::IllegalState,
    Condition::NotImplemented,
    Condition::ResourceLimitExceeded,
    Condition::FrameSizeTooSmall,
    Condition::WindowViolation,
    Condition::HandleInUse,
    Condition::UnattachedHandle,
    Condition::TransferLimitExceeded,
    Condition::MessageSizeExceeded,
];

impl Condition {
    ghost use Rattle.std.specs.Prelude.{◌≡◌};
    ghost use Rattle.amqp_perform.specs.Conditions.{name_of, condition_span, found_by_name, condition_of};

    /// Returns the canonical spelling of an error with this condition and nothing more; empty for `Other`.
    /// [2.8.14]
    #[tactic(auto, unfolding(crate::specs::Conditions::condition_span))]
    pub fn span(self) -> &'static [u8]
        ensures { result.now ≡ condition_span self }
    {
        match self {
            Condition::FramingError => {
                b"\x00\x53\x1d\xc0\x20\x01\xa3\x1damqp:connection:framing-error"
            }
            Condition::DecodeError => b"\x00\x53\x1d\xc0\x14\x01\xa3\x11amqp:decode-error",
            Condition::InvalidField => b"\x00\x53\x1d\xc0\x15\x01\xa3\x12amqp:invalid-field",
            Condition::IllegalState => b"\x00\x53\x1d\xc0\x15\x01\xa3\x12amqp:illegal-state",
            Condition::NotImplemented => b"\x00\x53\x1d\xc0\x17\x01\xa3\x14amqp:not-implemented",
            Condition::ResourceLimitExceeded => {
                b"\x00\x53\x1d\xc0\x1f\x01\xa3\x1camqp:resource-limit-exceeded"
            }
            Condition::FrameSizeTooSmall => {
                b"\x00\x53\x1d\xc0\x1c\x01\xa3\x19amqp:frame-size-too-small"
            }
            Condition::WindowViolation => {
                b"\x00\x53\x1d\xc0\x20\x01\xa3\x1damqp:session:window-violation"
            }
            Condition::HandleInUse => b"\x00\x53\x1d\xc0\x1d\x01\xa3\x1aamqp:session:handle-in-use",
            Condition::UnattachedHandle => {
                b"\x00\x53\x1d\xc0\x21\x01\xa3\x1eamqp:session:unattached-handle"
            }
            Condition::TransferLimitExceeded => {
                b"\x00\x53\x1d\xc0\x24\x01\xa3\x21amqp:link:transfer-limit-exceeded"
            }
            Condition::MessageSizeExceeded => {
                b"\x00\x53\x1d\xc0\x22\x01\xa3\x1famqp:link:message-size-exceeded"
            }
            Condition::Other => b"",
        }
    }

    /// Returns the condition that an error names: the symbol in the first field of a list described as an
    /// error. [2.8.14]
    ///
    /// What follows that field is not looked at. Returns `Other` if there is no such list, or if the first
    /// field is another symbol, of another type or absent.
    pub fn of(span: &[u8]) -> Condition
        ensures { result ≡ condition_of span.now }
    {
        match condition_name(span) {
            Some(name) => Condition::named(name).unwrap_or(Condition::Other),
            None => Condition::Other,
        }
    }

    #[tactic(auto, unfolding(crate::specs::Conditions::found_by_name))]
    fn named(name: &[u8]) -> Option<Condition>
        ensures { result ≡ found_by_name name.now }
    {
        NAMED
            .iter()
            .copied()
            .find(|condition| condition.name() == name)
    }

    /// Returns the symbol of the condition; empty for `Other`.
    pub fn name(self) -> &'static [u8]
        ensures { result.now ≡ name_of self }
    {
        self.text().as_bytes()
    }

    /// Returns the symbol of the condition as a text; empty for `Other`.
    fn text(self) -> &'static str
        ensures { result.now ≡ name_of self }
    {
        match self {
            Condition::FramingError => "amqp:connection:framing-error",
            Condition::DecodeError => "amqp:decode-error",
            Condition::InvalidField => "amqp:invalid-field",
            Condition::IllegalState => "amqp:illegal-state",
            Condition::NotImplemented => "amqp:not-implemented",
            Condition::ResourceLimitExceeded => "amqp:resource-limit-exceeded",
            Condition::FrameSizeTooSmall => "amqp:frame-size-too-small",
            Condition::WindowViolation => "amqp:session:window-violation",
            Condition::HandleInUse => "amqp:session:handle-in-use",
            Condition::UnattachedHandle => "amqp:session:unattached-handle",
            Condition::TransferLimitExceeded => "amqp:link:transfer-limit-exceeded",
            Condition::MessageSizeExceeded => "amqp:link:message-size-exceeded",
            Condition::Other => "",
        }
    }
}

/// Writes the symbol of the condition; nothing for `Other`.
impl Display for Condition {
    ghost use Rattle.amqp_perform.specs.Conditions.{name_of};

    ghost output = { λ c. Some (name_of c) };

    fn fmt<W: fmt::Write>(&self, f: &mut Formatter<W>) -> fmt::Result {
        f.pad(self.text())
    }
}

/// Returns the symbol in the first field of an error.
#[tactic(auto, unfolding(crate::specs::Conditions::condition_of))]
fn condition_name(span: &[u8]) -> Option<&[u8]>
    ensures { MatchOption result (condition_of span.now ≡ Condition.Other) (λ name. condition_of span.now ≡ by_name name.now) }
{
    let mut list = described_list(span)?;
    match list.descriptor {
        Descriptor::Error => list.fields.symbol()?,
        _ => None,
    }
}
