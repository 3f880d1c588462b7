//! Cuts the bytes of an AMQP 1.0 connection into units: the protocol header, whole frames, and the fault that ends a stream.
//! No unit begins another, so it does not matter in which pieces the bytes come: [`laws`] states it.
//!
//! Begin with [`Splitter`]. [`Splitter::push`] takes bytes to the end of a unit, [`Splitter::header`] or [`Splitter::frame`]
//! shows it, [`Splitter::drop_frame`] drops it, and [`Splitter::finish`] ends the stream. The one buffer has room for the
//! longest frame from the start. A reader may fill it: [`Splitter::spare`] lends room, and [`Splitter::filled`] takes what
//! came. [`Device`] is a reader or a writer that keeps its first failure. [`AtHand`] shows the bytes that a reader read ahead,
//! and [`HoldsBack`] tells how many a writer keeps to itself; [`Direct`] is for one that can't say. `specs/Units.antt` defines
//! what a unit is, `specs/Splits.antt` what a splitter holds. The tests are in `test_codec_rows`.
#![tactic(auto)]

mod device;
pub mod laws;
mod room;
mod split;
mod units;

pub use device::{AtHand, Device, Direct, HoldsBack};
pub use split::Splitter;
pub use units::{Frame, FrameFault, HEADER, Stage};
