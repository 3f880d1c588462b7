//! Calls that ask for the bytes of the heap.
//!
//! `heap live = 0` asks whether this many bytes live, and answers `true` or `false`; so do `<`, `<=` and `>=`, and
//! `heap peak` of the most that lived at a time, and `heap requested` of the bytes that were granted, since the
//! run began. In place of the number may stand `mark` or `mark+N`: a call `heap mark` keeps what there is, the
//! most of it if there are several in a run.

use crate::words::{cut, name_of, number};
use crate::{Heap, Miss};

/// The most bytes that there were at a `heap mark`.
#[derive(Clone, Copy)]
pub struct Mark {
    live: u64,
    requested: u64,
}

impl Mark {
    pub fn new() -> Mark {
        Mark {
            live: 0,
            requested: 0,
        }
    }

    /// Makes a call of the heap, and says what it answers.
    pub fn call(&mut self, heap: Heap<'_>, words: &str) -> Result<&'static str, Miss> {
        let (live, requested) = (heap.live(), heap.requested());
        let holds = match name_of(words) {
            ("mark", "") => {
                self.live = self.live.max(live);
                self.requested = self.requested.max(requested);
                return Ok("()");
            }
            ("live", asked) => compared(live, asked, self.live)?,
            ("peak", asked) => compared(heap.peak(), asked, self.live)?,
            ("requested", asked) => compared(requested, asked, self.requested)?,
            _ => return Err(Miss::Unread("no such call of the heap")),
        };
        Ok(if holds { "true" } else { "false" })
    }
}

/// Returns whether a number of bytes is what these words say.
fn compared(bytes: u64, words: &str, mark: u64) -> Result<bool, Miss> {
    let (sign, wanted) = cut(words, ' ')?;
    let wanted = wanted_of(wanted, mark)?;
    match sign {
        "=" => Ok(bytes == wanted),
        "<" => Ok(bytes < wanted),
        "<=" => Ok(bytes <= wanted),
        ">=" => Ok(bytes >= wanted),
        _ => Err(Miss::Unread("no such comparison")),
    }
}

fn wanted_of(word: &str, mark: u64) -> Result<u64, Miss> {
    match word.strip_prefix("mark") {
        None => Ok(u64::from(number(word)?)),
        Some("") => Ok(mark),
        Some(more) => {
            let more = more.strip_prefix('+').ok_or("no mark")?;
            Ok(mark.saturating_add(u64::from(number(more)?)))
        }
    }
}
