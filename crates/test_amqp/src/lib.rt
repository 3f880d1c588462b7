//! Tests of the commands of `amqp`, and of what `dump` prints, that are no rows: a host, files, listeners and devices of their
//! own. They stand apart, since a crate is proved again with its tests. The library itself is empty.
#![tactic(auto)]

#[cfg(test)]
mod addresses_tests;
#[cfg(test)]
mod consumer_tests;
#[cfg(test)]
mod dump_tests;
#[cfg(test)]
mod limits_tests;
#[cfg(test)]
mod loopback_tests;
#[cfg(test)]
mod places_tests;
#[cfg(test)]
mod recv_tests;
#[cfg(test)]
mod run_tests;
#[cfg(test)]
mod send_tests;
