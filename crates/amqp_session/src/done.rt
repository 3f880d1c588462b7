//! What a frame results in.

use crate::report::Report;
use amqp_perform::{Detach, Flow};

/// What a frame that was taken results in.
#[derive(Clone, Copy, Debug)]
pub struct Done {
    /// What is reported.
    pub report: Report,
    /// What is to be written.
    pub answer: Answer,
}

/// The answer to a frame.
#[derive(Clone, Copy, Debug)]
pub enum Answer {
    /// Nothing.
    Nothing,
    /// A flow [2.7.4].
    Flow(Flow<'static>),
    /// A detach [2.7.7].
    Detach(Detach<'static>),
    /// What [`crate::write_attach_reply`] writes [2.6.3].
    Attach,
    /// What [`crate::refusal_reply`] returns, and then this detach [2.6.3].
    Refusal(Detach<'static>),
}
