//! Which addresses links may have, and how much credit, by the lines of a file.
//!
//! Begin reading at [`Addresses`]. A line is `ADDRESS CREDIT`, with one space between them, or `PREFIX* CREDIT` for all addresses that
//! begin so. Without its space and CREDIT the line has the credit that the caller names. An empty line says nothing, and no more does
//! one that begins with `#`.
//!
//! Each character of an address stands for itself, and `\xHH` for the byte with these two hex digits, as `amqp dump` prints it. A space,
//! a control character of ASCII and a backslash have to be spelled so. A `*` that is not the last character stands for itself; `\x2a` is
//! one at the end, and `\x23` a `#` at the start.
#![tactic(auto)]

mod addresses;
mod entry;
mod faults;
pub mod laws;
mod lines;
mod spelling;

pub use addresses::{Addresses, MOST_TEXT};
pub use faults::{AddressesFault, LineFault};
