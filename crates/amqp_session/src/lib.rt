//! One session that receives: its window, its links by handle, and what each frame does to them [2.5, 2.6].
//!
//! Begin with `session.rt`. [`Session::begin`] makes a session. Each frame of the peer goes to the call for its
//! performative, or to [`Session::frame`]. The calls of the application are [`Session::widen`],
//! [`Session::grant`], [`Session::drain`], [`Session::take`], [`Session::settle`], [`Session::settle_range`],
//! [`Session::detach`], and with an error [`Session::refuse`] and [`Session::reject`]. `specs/Sessions.antt` has the state and what each event does to it;
//! `specs/Faults.antt` and `specs/Calls.antt` say which event a frame or a call is, or why it is refused. The
//! tests are in `test_layer_rows`.
#![tactic(auto)]

mod done;
mod fault;
mod index;
pub mod laws;
mod ranges;
mod reasons;
mod refusal;
mod replies;
mod report;
mod session;
mod slot;
mod state;
mod survey;
mod terms;
mod view;

pub use done::{Answer, Done};
pub use fault::{CallFault, SessionFault};
pub use ranges::Named;
pub use reasons::{detach_with, disposition_with};
pub use replies::{failure, refusal_reply, write_attach_reply};
pub use report::Report;
pub use session::Session;
pub use slot::Slot;
pub use terms::SessionTerms;
pub use view::LinkView;
