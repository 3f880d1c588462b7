//! A keeper in memory.
ghost use Rattle.std.specs.Prelude.{◌≡◌, ◌^◌, ◌-◌, length, map, min, sum_by};
ghost use Rattle.amqp_hub.specs.Ledgers.{record_entry, records_of, new_ledger, will_take};

use crate::keeper::{Keeper, Origin, Progress};
use amqp_endpoint::Endpoint;
use std::alloc::{AllocError, Allocator, Global};
use std::marker::Model;

/// A record, and where it came from.
#[derive(Drop)]
pub struct Record<A: Allocator = Global> {
    pub origin: Origin,
    pub bytes: Vec<u8, A>,
}

/// Keeps records in memory. Its host says how many of them it takes for good, and when it fails.
#[derive(Drop)]
pub struct Ledger<A: Allocator + Copy = Global> {
    records: Vec<Record<A>, A>,
    /// How many of them it has taken for good.
    taken: usize,
    /// How many others there may be.
    room: usize,
    /// How many it takes for good at the next settling, at most; `None` if it fails then.
    takes: Option<usize>,
    has_failed: bool,
    alloc: A,
}

impl<A: Allocator + Copy> Model for Ledger<A> {
    ghost use Rattle.std.specs.Prelude.{◌≤◌, length, map, take, drop};
    ghost use Rattle.amqp_hub.specs.Ledgers.{LedgerState, record_entry};

    ghost Value = { LedgerState };

    ghost view = { λ a. record { taken = take a.taken (map record_entry a.records.items); waiting = drop a.taken (map record_entry a.records.items); room = a.room; takes = a.takes; has_failed = a.has_failed } };

    ghost invariant = { λ a. a.taken ≤ length a.records.items };
}

impl<A: Allocator + Copy> Ledger<A> {
    /// Makes a keeper that has no record, and room for this many until it takes them for good. It takes all for good
    /// when it is asked to.
    pub fn new(alloc: A, room: usize) -> Self
        ensures { result ≡ new_ledger room }
    {
        Ledger {
            records: Vec::new(alloc),
            taken: 0,
            room,
            takes: Some(usize::MAX),
            has_failed: false,
            alloc,
        }
    }

    /// Lets it take at most this many records for good at the next settling, or fail then.
    pub fn will_take(&mut self, most: Option<usize>)
        ensures { self.new ≡ will_take most self.old }
    {
        self.takes = most;
    }

    /// Returns its records, the oldest first.
    pub fn records(&self) -> &[Record<A>]
        ensures { map record_entry result.now ≡ records_of self.now }
    {
        &self.records
    }

    /// Returns how many it has not taken for good.
    fn waiting(&self) -> usize
        ensures { result ≡ length self.now.waiting }
    {
        self.records.len() - self.taken
    }
}

impl<A: Allocator + Copy> Keeper for Ledger<A> {
    ghost use Rattle.std.specs.Prelude.{◌≡◌, Some};
    ghost use Rattle.amqp_hub.specs.Ledgers.{records_of, is_settled, is_roomy, room_in, waiting_bytes, with_record, settled_on, progress_of};
    ghost use Rattle.amqp_hub.specs.LedgerLaws.{settled_is_all, accepted_is_last, room_is_there, settling_goes_on};

    ghost puts = { λ l. Some (records_of l) };

    ghost taken = { λ l. Some l.taken };

    ghost settled = { is_settled };

    ghost roomy = { is_roomy };

    ghost broken = { λ l. l.has_failed };

    ghost holds = { waiting_bytes };

    ghost accepts = { λ old origin _ bytes new. new ≡ with_record origin bytes old };

    ghost makes_room = { λ old p new. (new ≡ old) × (p ≡ room_in old) };

    ghost settles = { λ old p new. (new ≡ settled_on old) × (p ≡ progress_of new) };

    ghost settled_is_taken = { settled_is_all };

    ghost accepted_is_put = { accepted_is_last };

    ghost room_is_made = { room_is_there };

    ghost settling_takes = { settling_goes_on };

    fn has_room(&self) -> bool {
        !self.has_failed && self.waiting() < self.room
    }

    fn put<B: Allocator + Copy>(
        &mut self,
        origin: Origin,
        _endpoint: &Endpoint<B>,
        bytes: &[u8],
    ) -> Result<(), AllocError> {
        let bytes = Vec::from_slice(self.alloc, bytes)?;
        match self.records.push(Record { origin, bytes }) {
            Ok(()) => Ok(()),
            Err(_) => Err(AllocError),
        }
    }

    fn make_room(&mut self) -> Progress {
        if self.has_failed {
            Progress::Failed
        } else if self.has_room() {
            Progress::Out
        } else {
            Progress::Stuck
        }
    }

    fn settle(&mut self) -> Progress {
        if self.has_failed {
            return Progress::Failed;
        }
        let Some(most) = self.takes else {
            self.has_failed = true;
            return Progress::Failed;
        };
        self.taken += most.min(self.waiting());
        if self.waiting() == 0 {
            Progress::Out
        } else {
            Progress::Stuck
        }
    }

    fn is_settled(&self) -> bool {
        !self.has_failed && self.waiting() == 0
    }

    fn held(&self) -> u64 {
        bytes_in(&self.records[self.taken..])
    }
}

/// Returns how many bytes these records have, or `u64::MAX` if more.
fn bytes_in<A: Allocator + Copy>(records: &[Record<A>]) -> u64
    ensures { result ≡ min (sum_by (λ r. length r.bytes.items) records.now) (2 ^ 64 - 1) }
{
    let mut sum = 0_u64;
    for record in records {
        sum = sum.saturating_add(record.bytes.len() as u64);
    }
    sum
}
