//! A spool's directory, read beside the gateway that writes it: its records are printed or followed, its segments
//! listed, and all of it is checked.
//!
//! Begin reading at [`print_spool`] (`printing`). It goes through the segments once ([`walk`](walk::walk)); a
//! [`Follower`] (`following`) goes on where it was, as often as it is asked. Both stand on one reader (`reader`): a
//! survey says which segments there are (`survey`), an extent how far each one counts (`extents`), and the batches of
//! the one that is open (`open_segment`) are read one after the other (`batches`). A visitor is told of each record, of
//! numbers that are missing and of damage (`visiting`): a caller may bring its own, and [`Printer`] is one. `heading`
//! makes the line of text before a record, `members` the front of its JSON object, and `amqp_records` prints the
//! message. [`list_spool`] (`listing`) reads heads alone, and [`check_spool`] (`checking`) goes through without
//! printing.
//!
//! Nothing is locked and nothing is written. The format of the files is `amqp_spool`'s. See `specs/Numbers.antt` and
//! `specs/Extents.antt`. The tests are in `test_spool_records`.
#![tactic(auto)]

mod batches;
mod checking;
mod damage;
mod extents;
mod faults;
mod following;
mod heading;
mod listing;
mod members;
mod numbers;
mod open_segment;
mod printing;
mod reader;
mod survey;
mod target;
mod visiting;
mod walk;

pub use checking::check_spool;
pub use damage::Damage;
pub use faults::SpoolFault;
pub use following::Follower;
pub use listing::list_spool;
pub use numbers::Missing;
pub use printing::{Form, Printer, Wanted, print_spool};
pub use visiting::{Found, Visitor};
