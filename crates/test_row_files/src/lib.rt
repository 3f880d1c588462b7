//! Tests that are rows of a text file: a call, its answer, and words that are then shown.
//!
//! A program has a type that makes the calls, and its `main` runs the files that its arguments name:
//!
//! ```text
//! struct Counter { count: u32 }
//!
//! impl Subject for Counter {
//!     fn begin(&mut self) {
//!         *self = Counter { count: 0 };
//!     }
//!     fn call(&mut self, alloc: Global, words: &str) -> Result<String, Miss> {
//!         match words.split_once(' ') {
//!             Some(("add", n)) => self.count = self.count.saturating_add(number(n)?),
//!             _ => return Err(Miss::Unread("no such call")),
//!         }
//!         Ok(String::from_str(alloc, "()")?)
//!     }
//!     fn shown(&self, alloc: Global) -> Result<String, Miss> {
//!         Ok(format!(in alloc; "count={}", self.count)?)
//!     }
//! }
//!
//! fn main(rt: HostRuntime) -> Result<(), Miss> {
//!     let heap = TestHeap::new(rt.alloc(), 0);
//!     for name in env::args(&rt)?.skip(1) {
//!         let text = fs::read_to_string(&rt, name.as_str())?;
//!         let file = RowFile::read(rt.alloc(), text.as_str())?;
//!         let report = file.run(rt.alloc(), &heap, &mut Counter { count: 0 })?;
//!         rt.print(report.as_str())?;
//!     }
//!     Ok(())
//! }
//! ```
//!
//! A line of a file is a comment (`# ..`), or one of these. The first two stand before the first title.
//!
//! - `@NAME = hex`: in rows `@NAME` is this hex text. A name is capital letters and `_`; an `@` before others stays.
//! - `subject WORD`: what the rows are about, for a program that has several subjects ([`RowFile::subject`]).
//! - `== TITLE`: the rows below it are one run, for which the subject begins anew.
//! - `CALL | ANSWER | WORDS`: each of the words stands in what is shown behind the call; `same` says that all is as it
//!   was. The words and their `|` may be left out. An answer that begins with `Err` leaves all as it was, unsaid.
//! - `+ CALL | ANSWER | WORDS`: the same of a call that may answer `Err(NoMemory)`, and then is made again.
//! - `repeat 50 from 7 by 2`: the rows up to `end` come 50 times. In them `{n}` is 7, 9, 11 and so on, below 2^32 and
//!   from 0 again; `{n+1}` and `{n-1}` are its neighbours, and so for other distances.
//! - `refuse N`: the run has N requests for memory. It is made again with each of them refused: one call meets it, and
//!   none where the number refused is N + 1 or N + 2.
//!
//! Calls that begin with `heap` are of the library: [`crate::heap`] has them. After each run no memory lives.
//! The report has a line `TITLE: N rows` of the rows that held, and below it a line for each that did not.
#![tactic(auto)]

mod file;
pub mod heap;
mod row;
mod run;
mod spelling;
pub mod words;

pub use file::RowFile;
use std::alloc::{AllocError, AllocFailed, Global};
use std::io;
use test_heap::TestHeap;

/// The memory of a subject.
pub type Heap<'a> = &'a TestHeap<Global>;

/// What rows are about. It takes its memory from the heap of the run, but the texts that it gives from `alloc`.
pub trait Subject: Drop {
    /// Begins anew, with nothing kept.
    fn begin(&mut self);

    /// Makes a call, and says what it answers.
    fn call(&mut self, alloc: Global, words: &str) -> Result<String, Miss>;

    /// Returns all that it shows of itself, as words.
    fn shown(&self, alloc: Global) -> Result<String, Miss>;
}

/// Why a row can't be run.
#[derive(Debug, Drop)]
pub enum Miss {
    /// It can't be read, for this.
    Unread(&'static str),
    /// There is no memory for its texts.
    NoMemory,
    /// A file can't be read, or the report not be printed.
    Io(io::Error),
}

impl From<&'static str> for Miss {
    fn from(why: &'static str) -> Miss {
        Miss::Unread(why)
    }
}

impl From<AllocError> for Miss {
    fn from(_error: AllocError) -> Miss {
        Miss::NoMemory
    }
}

impl<T: Drop> From<AllocFailed<T>> for Miss {
    fn from(_error: AllocFailed<T>) -> Miss {
        Miss::NoMemory
    }
}

impl From<io::Error> for Miss {
    fn from(error: io::Error) -> Miss {
        Miss::Io(error)
    }
}
