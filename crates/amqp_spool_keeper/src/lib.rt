//! A spool as the keeper of a hub's records.
//!
//! Begin with [`SpoolKeeper`]. Each record goes into the spool with who sent it: the connection's number, the address
//! that it came from, its peer's container-id, the link's name and what its target says of the node. The keeper opens a
//! link of the spool at the first record of a link, and closes it after its connection has left. `specs/Senders.antt`
//! says who sent a record, `specs/Keeping.antt` what each call does. [`Sizes`] divides the bytes that a spool may have.
#![tactic(auto)]

mod keeper;
mod people;
mod sender;
mod sizes;
mod target;

pub use keeper::SpoolKeeper;
pub use sizes::{BESIDES, SMALL_FILES, SizeFault, Sizes};
