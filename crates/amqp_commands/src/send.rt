//! Sends one message over a connection.

pub use amqp_send_file::{Fate, SendFault, Why, send_all, send_all_heard};
