//! Why a body is no performative.

use amqp_types::ReadFault;

/// Why a body is no performative.
#[derive(Clone, Copy, Debug, PartialEq, Eq)]
pub enum BodyFault {
    /// The body begins with no value, or with one that is deeper than 32 levels. This comes before
    /// `InvalidField`.
    Decode(ReadFault),
    /// The value is no performative: no list described as one of the nine, a mandatory field absent, a field
    /// of a wrong type or outside its range, or too many fields.
    InvalidField,
}
