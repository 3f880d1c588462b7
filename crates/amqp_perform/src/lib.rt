//! The performatives of AMQP 1.0 (part 2, section 2.7), read from the bodies of frames and written as frames,
//! with the conditions of errors and the outcomes of deliveries.
//!
//! Begin with [`read_body`], which borrows the fields from the body, and [`write_frame`], which writes into
//! bytes of the caller. Nothing here takes memory. `specs/Tables.antt` has the fields of each performative,
//! `specs/Bodies.antt` defines what a body says, and `specs/Frames.antt` which frame is written. The tests are
//! in `test_codec_rows`.
#![tactic(auto)]

mod address;
mod condition;
mod cursor;
mod descriptor;
mod fault;
mod field_text;
mod fields;
pub mod laws;
mod modes;
mod outcome;
mod performative;
mod reader;
mod rules;
mod sizes;
mod telling;
mod writer;

pub use address::{Address, address_of};
pub use condition::Condition;
pub use descriptor::Descriptor;
pub use fault::BodyFault;
pub use modes::{ReceiverSettleMode, Role, SenderSettleMode};
pub use outcome::Outcome;
pub use performative::{
    Attach, Begin, Close, Detach, Disposition, End, Flow, Open, Performative, Transfer,
};
pub use reader::{read_body, read_transfer_body, read_transfer_into};
pub use telling::is_performative;
pub use writer::{
    LinkFlow, write_disposition, write_flow, write_frame, write_link_flow, write_settlement,
};
