//! One link that receives: its credit, its deliveries, how their messages are joined, and how the deliveries
//! are settled [2.6.7, 2.6.12, 2.6.14].
//!
//! Begin with `link.rt`. [`Link::attach`] makes a link. [`Link::grant`] and [`Link::drain`] are the receiver's
//! calls; [`Link::transfer`] and [`Link::sender_count`] take what the sender sends. [`Link::take`] hands up a
//! whole delivery, and [`Link::settle`] or [`Link::peer_settled`] settles it. `specs/Links.antt` has the state
//! and what each event does to it, `specs/Histories.antt` what a whole history results in, and [`laws`] says
//! that both agree. The tests are in `test_layer_rows`.
#![tactic(auto)]

mod blocks;
pub mod laws;
mod link;
mod message;
mod open_deliveries;
mod open_delivery;
mod open_ids;
mod places;
mod settlement;
mod tag;
mod terms;
mod transfer;

pub use amqp_frame::Device;
pub use link::{Link, Taken, TooMuchCredit};
pub use message::Message;
pub use open_ids::OpenIds;
pub use settlement::{SettleFault, Standing};
pub use tag::{MAX_TAG, Tag};
pub use terms::{LinkBounds, MAX_ALLOWED, MAX_MESSAGE_SIZE, Terms};
pub use transfer::{LinkFault, Step, Verdict};
