//! A receiver of one link, written as an application writes it: it uses the public contracts of `amqp_endpoint`
//! and nothing of its inside. Whatever its peer sends, it never hands out more messages than the credit that it
//! was made with. Its endpoint never holds more than a number that the configuration gives. Both are contracts of
//! [`Receiver::got`], with [`Receiver::feed`], and of [`Receiver::held`]. They follow from the laws
//! `uses_are_counted`, `uses_are_bounded` and `what_follows_is_accepted`, and from the invariant `IsCounted`
//! (`specs/Counted.antt`). `proofs/Counts.antt` has what each call adds.
//!
//! Begin reading at [`Receiver::feed`], which takes what the peer sent. After each feed call [`Receiver::output`]
//! until it returns 0, and send what it gives, since a full output blocks the next frame. If a feed uses none of
//! some bytes, they wait for room or for memory, or the connection is over ([`Receiver::is_over`]).
#![tactic(auto)]

mod receiver;

pub use receiver::Receiver;
