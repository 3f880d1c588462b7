//! A `sasl-init` and a `sasl-response`, read from the body of a frame. [5.3.3.2, 5.3.3.4]
ghost use Rattle.std.specs.Prelude.{◌≡◌};
ghost use Rattle.std.specs.Option.{option_copied};
ghost use Rattle.amqp_types.specs.Trees.{Trees};
ghost use Rattle.amqp_sasl.specs.Composites.{AreItems};
ghost use Rattle.amqp_sasl.specs.Inits.{Reads, fields_in, init_at, field_in, response_at};

use crate::composite::read_items;
use crate::fields::{Items, binary_in, symbol_in, text_in};

/// The code of a `sasl-init`. [5.3.3.2]
const INIT_CODE: u64 = 0x41;

/// The name of a `sasl-init`. [5.3.3.2]
pub const INIT_NAME: [u8; 19] = *b"amqp:sasl-init:list";

/// The code of a `sasl-response`. [5.3.3.4]
const RESPONSE_CODE: u64 = 0x43;

/// The name of a `sasl-response`. [5.3.3.4]
pub const RESPONSE_NAME: [u8; 23] = *b"amqp:sasl-response:list";

/// The fields of a `sasl-init`, borrowed from the frame.
#[derive(Clone, Copy)]
pub struct SaslInit<'a> {
    pub mechanism: &'a [u8],
    pub response: Option<&'a [u8]>,
    pub hostname: Option<&'a str>,
}

/// Returns the `sasl-init` that is the body of a frame, if it is one.
#[tactic(auto, unfolding(crate::specs::Inits::init_at))]
pub fn read_init(body: &[u8]) -> Option<SaslInit<'_>>
    ensures { Reads result (init_at body.now) }
{
    match read_items(INIT_CODE, INIT_NAME.as_slice(), body) {
        Some(items) => init_from(items),
        None => None,
    }
}

/// Takes the fields of a `sasl-init` from the items of a list.
fn init_from(mut items: Items<'_>) -> Option<SaslInit<'_>>
    ensures { (ts : Trees) → AreItems ts items.entry.left items.entry.bytes.now → Reads result (fields_in ts) }
{
    if items.left > 3 {
        return None;
    }
    let mechanism = symbol_in(items.take()?)?;
    let response = binary_in(items.take()?)?;
    let hostname = text_in(items.take()?)?;
    Some(SaslInit {
        mechanism,
        response,
        hostname,
    })
}

/// Returns what the `sasl-response` says that is the body of a frame, if it is one.
#[tactic(auto, unfolding(crate::specs::Inits::response_at))]
pub fn read_response(body: &[u8]) -> Option<&[u8]>
    ensures { option_copied result ≡ response_at body.now }
{
    match read_items(RESPONSE_CODE, RESPONSE_NAME.as_slice(), body) {
        Some(items) => response_from(items),
        None => None,
    }
}

/// Takes the field of a `sasl-response` from the items of a list.
fn response_from(mut items: Items<'_>) -> Option<&[u8]>
    ensures { (ts : Trees) → AreItems ts items.entry.left items.entry.bytes.now → option_copied result ≡ field_in ts }
{
    if items.left > 1 {
        return None;
    }
    binary_in(items.take()?)?
}
