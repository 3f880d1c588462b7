//! The commands of `amqp` on a spool.
//!
//! Begin reading at [`obey`] (`running`). A spool is printed, listed and checked (`reading`). A consumer is added,
//! removed and acknowledged for by commands (`consuming`), or acknowledges on standard input while what is there is
//! printed for it, or what comes (`following`): `pipes` has standard input and standard output, neither of which is
//! waited for while the other is ready, `line` a line of standard input, `acks` what is acknowledged, and `gate` the
//! way to standard output. A fault of the spool is told on standard error, with the directory. The tests are in
//! `test_amqp`.
#![tactic(auto)]

mod acks;
mod consuming;
mod faults;
mod following;
mod gate;
mod line;
mod pipes;
mod reading;
mod running;
mod stderr;

pub use faults::{CommandFault, refused};
pub use pipes::AwaitInput;
pub use running::obey;
pub use stderr::Stderr;
