//! How far the consumers of a spool are behind.

use amqp_spool::ConsumerName;
use amqp_spool::consumers::Standing;
use std::alloc::{AllocError, Global};

/// How many moments are kept.
const MOMENTS: usize = 64;

/// How far they are apart at least, in milliseconds.
const APART: u64 = 1000;

/// How far a consumer is behind.
#[derive(Clone, Copy, Debug, PartialEq, Eq)]
pub struct Lag {
    pub name: ConsumerName,
    /// How many records it has not acknowledged.
    pub records: u64,
    /// How many seconds the first of them has been there, as far as it is known.
    pub seconds: u64,
}

/// Returns how far consumers are behind that stand there, if the next record has the number `next` at the moment `now`.
pub fn lags(
    alloc: Global,
    standings: &[Standing],
    arrivals: &Arrivals,
    next: u64,
    now: u64,
) -> Result<Vec<Lag>, AllocError> {
    let mut lags = Vec::with_capacity(alloc, standings.len())?;
    for standing in standings {
        let due = standing.number.unwrap_or(0).saturating_add(1);
        lags.push(Lag {
            name: standing.name,
            records: next.saturating_sub(due),
            seconds: arrivals.age(due, now) / 1000,
        })?;
    }
    Ok(lags)
}

/// What the number of the next record was at a moment.
#[derive(Clone, Copy, Debug, PartialEq, Eq)]
struct Moment {
    /// In milliseconds, counted from any fixed moment.
    at: u64,
    next: u64,
}

/// When records arrived: the numbers of the next ones at some moments, at most 64, the first of them the start. Those
/// that are long ago are further apart, so that an age is told about as well as it is long.
#[derive(Drop)]
pub struct Arrivals {
    moments: Vec<Moment>,
}

impl Arrivals {
    /// Begins with no moment. The first that is noted is the start.
    pub fn new(alloc: Global) -> Arrivals {
        Arrivals {
            moments: Vec::new(alloc),
        }
    }

    /// Notes that the next record has this number at the moment `at`. If memory is refused, nothing changes.
    pub fn note(&mut self, at: u64, next: u64) {
        if let Some(last) = self.moments.last() {
            if next <= last.next || at < last.at.saturating_add(APART) {
                return;
            }
        }
        if self.moments.len() >= MOMENTS {
            let dense = self.densest(at).min(MOMENTS - 1);
            self.moments.remove(dense);
        }
        let _ = self.moments.push(Moment { at, next });
    }

    /// Returns for how many milliseconds the record of this number has been there at the moment `now`, as far as it is
    /// known: since the first moment at which it was there. Returns 0 if it was there at none.
    pub fn age(&self, number: u64, now: u64) -> u64 {
        match self.moments.iter().find(|moment| number < moment.next) {
            Some(moment) => now.saturating_sub(moment.at),
            None => 0,
        }
    }

    /// Returns the place of the moment, neither the first nor the last, whose neighbours are the closest for its age.
    fn densest(&self, now: u64) -> usize {
        let mut densest = 1;
        let (mut least, mut old) = (u64::MAX, 1);
        for (index, three) in self.moments.windows(3).enumerate() {
            let [before, moment, after] = three else {
                continue;
            };
            let span = after.at.saturating_sub(before.at);
            let age = now.saturating_sub(moment.at);
            if (span as u128) * (old as u128) < (least as u128) * (age as u128) {
                (least, old) = (span, age);
                densest = index.saturating_add(1);
            }
        }
        densest
    }
}
