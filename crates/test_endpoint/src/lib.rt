//! Tests of `amqp_endpoint`, `amqp_script` and `amqp_serve` that are no rows of `test_layer_rows`: memory that is refused,
//! devices that fail, and what a type in hand shows; what a list of turns of `amqp_pair` can come to; and those of the small
//! crates `amqp_serial`, `example_one_link` and `test_heap`. They stand apart, since a crate is proved again with its tests. The
//! library itself is empty.
#![tactic(auto)]

#[cfg(test)]
mod devices;
#[cfg(test)]
mod failing;
#[cfg(test)]
mod fixed_heap;
#[cfg(test)]
mod heap;
#[cfg(test)]
mod memory;
#[cfg(test)]
mod peer;
#[cfg(test)]
mod receiver;
#[cfg(test)]
mod schedules;
#[cfg(test)]
mod scripts;
#[cfg(test)]
mod serials;
#[cfg(test)]
mod serving;
#[cfg(test)]
mod shown;
#[cfg(test)]
mod starving;
#[cfg(test)]
mod stepping;
#[cfg(test)]
mod texts;
