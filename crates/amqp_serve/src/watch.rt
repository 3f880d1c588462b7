//! Watching a connection while it is served.

use crate::Stepped;

/// Gets a report of each step while a connection is served. What it does has no influence on the serving.
pub trait Watch {
    /// Returns whether it takes the report of the next step. It is asked once for each step, before that is made. A
    /// report that it doesn't take isn't made.
    fn listens(&self) -> bool {
        true
    }

    /// Takes the report of a step that was made. The step's answers have gone to the writer and its record to the
    /// sink, as far as these took them.
    fn did(&mut self, stepped: &Stepped);
}

/// A watch that does nothing.
#[derive(Clone, Copy, Debug)]
pub struct Unwatched;

impl Watch for Unwatched {
    #[inline(always)]
    fn listens(&self) -> bool {
        false
    }

    #[inline(always)]
    fn did(&mut self, _stepped: &Stepped) {}
}

/// Passes each report on to the watch, if there is one.
impl<T: Watch> Watch for Option<T> {
    #[inline(always)]
    fn listens(&self) -> bool {
        match self {
            Some(watch) => watch.listens(),
            None => false,
        }
    }

    #[inline(always)]
    fn did(&mut self, stepped: &Stepped) {
        if let Some(watch) = self {
            watch.did(stepped);
        }
    }
}
