//! Tests of `amqp_gateway` that play peers and gateway by turns, over sockets of this machine. They stand apart, since a crate is
//! proved again with its tests. The library itself is empty.
#![tactic(auto)]

#[cfg(test)]
mod admitted;
#[cfg(test)]
mod full_disk;
#[cfg(test)]
mod scene;
#[cfg(test)]
mod spool_turns;
#[cfg(test)]
mod turns;
