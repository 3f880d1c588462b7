//! Shows connections that are served in lines for people: each frame that comes and goes, what it results in, and
//! how the connection ended.
//!
//! Begin reading at [`Trace`]. It is between [`amqp_serve::serve_watched`] and its devices: a [`TracedReader`] and
//! a [`TracedWriter`] report what passes, and each step is reported to it as the watch. `teller` keeps what came
//! (`unit`) and what was written until the step is reported. Then it shows the frame (`frames`), what it resulted
//! in as a sentence (`sentences`, `words`, `links`, `peer_error`), and the answers. A `line` has printable ASCII
//! alone (`specs/Lines.antt`). `outlets` write lines with the connection's number and its age in milliseconds,
//! which a [`Host`] gives. There are no sockets here, and no clock. The tests are in `test_trace_rows`.
#![tactic(auto)]

mod answers;
mod frames;
mod host;
mod line;
mod links;
mod outlet;
mod outlets;
mod peer_error;
mod sentences;
mod teller;
mod trace;
mod unit;
mod words;

pub use host::{Host, TraceFault, View};
pub use peer_error::{PeerError, error_in, rejection_in};
pub use trace::{Trace, TracedReader, TracedWriter};
pub use words::Cause;
