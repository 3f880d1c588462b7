//! The words.
ghost use Rattle.std.specs.Prelude.{◌≡◌, Some, None};
ghost use Rattle.std.specs.List.{list_all};
ghost use Rattle.std.specs.Str.{is_utf8};
ghost use Rattle.amqp_reason.specs.Reasons.{is_printable, is_condition, is_description, is_valid, reason_of};

use std::str;

/// The most bytes of a condition.
const MOST_CONDITION: usize = 64;

/// The most bytes of a description.
const MOST_DESCRIPTION: usize = 255;

/// Why the application refuses a link or a message, or closes the connection.
///
/// A call that is given one is refused with `BadError` if it is not valid: if the condition is no symbol of 1 to 64 printable
/// characters of ASCII, or the description is longer than 255 bytes or no UTF-8.
#[derive(Clone, Copy, Debug, PartialEq, Eq)]
pub struct Reason<'a> {
    /// The condition of the error, as `amqp:not-found`. [2.8.14]
    pub condition: &'a [u8],
    /// What is said about the condition, if anything is.
    pub description: Option<&'a [u8]>,
}

impl<'a> Reason<'a> {
    /// Makes a reason of a condition alone.
    pub fn new(condition: &'a str) -> Reason<'a>
        ensures { reason_of result ≡ record { condition = condition.now; description = None } }
    {
        Reason {
            condition: condition.as_bytes(),
            description: None,
        }
    }

    /// Makes a reason of a condition and a description.
    pub fn described(condition: &'a str, description: &'a str) -> Reason<'a>
        ensures { reason_of result ≡ record { condition = condition.now; description = Some description.now } }
    {
        Reason {
            condition: condition.as_bytes(),
            description: Some(description.as_bytes()),
        }
    }

    /// Returns whether a call takes it: the condition has 1 to 64 characters, all printable ASCII, and the description at most
    /// 255 bytes, which are UTF-8.
    #[tactic(auto, unfolding(crate::specs::Reasons::is_valid))]
    pub fn is_valid(&self) -> bool
        ensures { result ≡ is_valid (reason_of self.now) }
    {
        is_condition(self.condition)
            && match self.description {
                Some(text) => is_description(text),
                None => true,
            }
    }
}

fn is_condition(symbol: &[u8]) -> bool
    ensures { result ≡ is_condition symbol.now }
{
    1 <= symbol.len() && symbol.len() <= MOST_CONDITION && are_printable(symbol)
}

/// Returns whether all bytes are characters of ASCII that are no control.
fn are_printable(symbol: &[u8]) -> bool
    ensures { result ≡ list_all is_printable symbol.now }
{
    symbol.iter().all(|byte| is_printable(*byte))
}

/// Returns whether a byte is a character of ASCII that is no control.
fn is_printable(byte: u8) -> bool
    ensures { result ≡ is_printable byte }
{
    32 <= byte && byte <= 126
}

fn is_description(text: &[u8]) -> bool
    ensures { result ≡ is_description (Some text.now) }
{
    text.len() <= MOST_DESCRIPTION && is_utf8(text)
}

fn is_utf8(text: &[u8]) -> bool
    ensures { result ≡ is_utf8 text.now }
{
    match str::from_utf8(text) {
        Ok(_) => true,
        Err(_) => false,
    }
}
