//! The receiving endpoint for C: a static library of exports alone. Begin reading with its header,
//! `c/wuleshomia.h`, which says what each does.
//!
//! C holds an [`handle::EndpointHandle`], sixteen bytes that are all zero before [`opening::wuleshomia_open`] and after
//! [`opening::wule_free`]. If it holds no endpoint, an export does nothing and says so. If it holds one, an export
//! makes exactly its calls of the endpoint. No export lends bytes to C or keeps bytes of C's.
//!
//! The exports of `spool` have no endpoint: they say what bytes of a spool's files are, which C has read.
//!
//! C may pass NULL to some calls, and texts that end with a zero byte to others. These are `wule_NAME` in `c/calls.c`,
//! over an export `wuleshomia_NAME`, which never gets NULL, and gets the length of each text. The other exports are C's
//! calls themselves.
//!
//! `handle` has what the sixteen bytes own, and with `unboxed` the only raw pointers. `data` has the structs,
//! `codes` the numbers for enums, `held` what a handle holds. The exports are in `opening`, `bytes`, `requests`,
//! `reasons`, `messages`, `views` and `serving`; `specs/Exports.antt` says what each does, and `specs/Spools.antt` it of
//! those in `spool`. By `laws` those on one handle are a run of its endpoint.
#![tactic(auto)]

pub mod bytes;
mod codes;
pub mod data;
pub mod handle;
pub mod held;
pub mod laws;
pub mod messages;
pub mod opening;
pub mod reasons;
pub mod requests;
pub mod serving;
pub mod spool;
mod spool_entries;
mod unboxed;
pub mod views;
mod waiting;
