//! Receives messages over sockets.

pub use amqp_receive::{BUFFER, recv_on};
