//! Lines of printable ASCII.

ghost use Rattle.std.specs.Prelude.{◌≡◌, ◌++◌, map, OnOk};
ghost use Rattle.amqp_records.specs.Lines.{printable_of};

use std::alloc::AllocError;

/// What replaces a byte that is not printable ASCII.
const REPLACEMENT: u8 = b'?';

/// Appends a text, with `?` for each byte that is not printable ASCII. So no control character of a peer reaches a
/// terminal, and none breaks a line.
pub fn put_printable(line: &mut Vec<u8>, text: &[u8]) -> Result<(), AllocError>
    ensures { OnOk result (line.new.items ≡ line.old.items ++ map printable_of text.now) }
{
    line.extend(text.iter().map(|byte| printable(*byte)))
}

/// Returns the byte, or `?` if it is not printable ASCII.
fn printable(byte: u8) -> u8
    ensures { result ≡ printable_of byte }
{
    match byte {
        b' '..=b'~' => byte,
        _ => REPLACEMENT,
    }
}
