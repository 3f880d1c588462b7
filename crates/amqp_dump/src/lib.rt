//! The dump of one direction of a connection: a line for its header, for each of its frames, and for the first
//! fault.
//!
//! Begin with [`dump`] (`printer`). It reads a piece from a `Device`, and `scan` cuts it into units and reports each
//! (`scanned`). It prints their lines into one buffer (`lines`, values by `text`, into a `page`), writes them from
//! there, and reads again. `specs/Entries.antt` defines what is reported of a stream, and `specs/Printing.antt` what is
//! printed of it. The tests are in `test_codec_rows` and `test_amqp`.
#![tactic(auto)]

mod digits;
mod lines;
mod page;
mod printer;
mod scan;
mod scanned;
mod text;

pub use digits::{put_hex, put_number, put_quoted};
pub use lines::{performative_name, put_item};
pub use page::Page;
pub use printer::{DumpFault, dump};
pub use scan::{LIMITS, MAX_FRAME};
pub use scanned::{Scanned, ScannedFrame, StreamFault};
pub use text::put_value;
