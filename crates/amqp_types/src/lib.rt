//! The type system of AMQP 1.0 (part 1): values, how bytes spell them, reading and writing them.
//!
//! Begin with [`Value`], [`decode`] and [`encode`]. `decode` returns exactly the value that the bytes begin
//! with, within limits of depth and nodes. `check` returns its length alone; `skip` does so within a depth,
//! without memory. Each returns the first fault from the left, with its place. `encode` appends the one
//! canonical spelling of a value. Without memory, `peek` returns the outermost case of a spelled value, and
//! `put` writes a scalar. `specs/Spelling.antt` defines what a spelling is, and `specs/Misreading.antt` what is
//! wrong if there is none. `specs/Canonical.antt` defines the spelling that is written, and `specs/Reading.antt`
//! the reading function, faults included; `specs/Peeks.antt` defines the outermost cases. The tests are in
//! `test_codec_rows`.
#![tactic(auto)]

mod block;
mod checker;
mod checks;
mod code;
mod decoder;
mod encoder;
mod fault;
mod few_keys;
mod image;
mod key;
mod keys;
mod kind;
pub mod laws;
mod lent_keys;
mod limits;
mod many_keys;
mod marks;
mod part;
mod peeked;
mod peeker;
mod putter;
mod quick_skip;
mod scalar;
mod scalar_value;
mod seen_keys;
mod shape;
mod shell;
mod short_keys;
mod skipper;
mod symbol;
mod value;
mod window;
mod write_fault;

pub use checker::check;
pub use code::{Constructor, Form, SizeWidth, find_code};
pub use decoder::decode;
pub use encoder::encode;
pub use fault::ReadFault;
pub use kind::Kind;
pub use limits::Limits;
pub use peeked::Peek;
pub use peeker::peek;
pub use putter::put;
pub use skipper::{form_len, skip};
pub use symbol::Symbol;
pub use value::Value;
pub use write_fault::WriteFault;
