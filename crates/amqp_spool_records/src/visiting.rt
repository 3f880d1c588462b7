//! Who is told what is read of a spool.

ghost use Rattle.std.specs.Prelude.{◌≤◌, ◌+◌, ℕ, length, OnOk, OnErr};
ghost use Rattle.amqp_spool_records.specs.Tellings.{MayComeFrom};

use crate::damage::Damage;
use crate::faults::SpoolFault;
use crate::numbers::Missing;
use amqp_spool::{Introduction, Record};

/// A record, and what the spool says of it.
#[derive(Clone, Copy, Debug)]
pub struct Found<'a> {
    /// The id of the spool.
    pub spool: [u8; 16],
    pub number: u64,
    /// When it arrived, in milliseconds since 1970.
    pub time: u64,
    /// How often the gateway was started.
    pub life: u64,
    /// Who sent it.
    pub from: Introduction<'a>,
    /// Its tag and the bytes of the record, at least 18.
    pub sent: Record<'a>,
}

/// One that is told what is read of a spool, in order. An error ends the reading; it is the error of that call then.
///
/// `may_come` says which numbers it may be told next; without it any. If these are all from the number on that is due,
/// it is told no other: so each number comes once, and they rise.
pub trait Visitor {
    ghost may_come: { Self → ℕ → Type 0 } = { λ _ _. Unit {0} };

    /// A segment is opened to be read.
    fn segment(&mut self)
        ensures { (n : ℕ) → may_come self.old n → may_come self.new n };

    /// There is a record.
    fn record(&mut self, found: &Found<'_>) -> Result<(), SpoolFault>
        requires whole { 18 ≤ length found.now.sent.«record».now }
        requires next { may_come self.old found.now.number }
        ensures told { OnOk result (MayComeFrom (may_come self.new) (found.now.number + 1)) }
        ensures refused { OnErr result ((n : ℕ) → may_come self.old n → may_come self.new n) };

    /// There are no records of these numbers in the spool of this id.
    fn gap(&mut self, spool: &[u8; 16], missing: &Missing) -> Result<(), SpoolFault>
        requires next { may_come self.old missing.now.from }
        ensures told { OnOk result (MayComeFrom (may_come self.new) (missing.now.to + 1)) }
        ensures refused { OnErr result ((n : ℕ) → may_come self.old n → may_come self.new n) };

    /// A segment is damaged. The numbers that are missing since then come as a gap, once the next ones are known.
    fn damage(&mut self, damage: &Damage) -> Result<(), SpoolFault>
        ensures { (n : ℕ) → may_come self.old n → may_come self.new n };
}
