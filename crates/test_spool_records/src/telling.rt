//! Visitors of the tests.

ghost use Rattle.std.specs.Prelude.{◌≡◌, ◌≤◌};

use amqp_spool_records::{Damage, Found, Missing, SpoolFault, Visitor};
use std::alloc::{AllocError, Global};

/// Where the text of a message begins in a record: after 18 bytes, and 5 of a section of data.
const TEXT: usize = 23;

/// What a visitor refuses.
#[derive(Clone, Copy, PartialEq, Eq)]
pub enum Refused {
    Nothing,
    /// The record of this number, and numbers that are missing from it on.
    Number(u64),
    Damage,
}

/// One that writes down what it is told, in short: `NUMBER LINK:TEXT`, `gap FROM to TO`, `damage FIRST PLACE FROM
/// NEXT`.
#[derive(Drop)]
pub struct Teller {
    pub text: String,
    refused: Refused,
}

impl Teller {
    pub fn new(alloc: Global, refused: Refused) -> Teller {
        Teller {
            text: String::new(alloc),
            refused,
        }
    }

    /// Fails if this is refused.
    fn ask(&self, asked: Refused) -> Result<(), SpoolFault> {
        if self.refused == asked {
            Err(SpoolFault::Write)
        } else {
            Ok(())
        }
    }

    fn put_record(&mut self, found: &Found<'_>) -> Result<(), AllocError> {
        let name = text_of(found.from.name);
        let text = text_of(found.sent.record.get(TEXT..).unwrap_or(&[]));
        write!(self.text, "{} {name}:{text} / ", found.number)
    }

    fn put_damage(&mut self, damage: &Damage) -> Result<(), AllocError> {
        let Damage {
            first,
            place,
            from,
            ..
        } = *damage;
        match damage.next {
            Some(next) => write!(self.text, "damage {first} {place} {from} {next} / "),
            None => write!(self.text, "damage {first} {place} {from} none / "),
        }
    }
}

fn text_of(bytes: &[u8]) -> &str {
    str::from_utf8(bytes).unwrap_or("no text")
}

impl Visitor for Teller {
    fn segment(&mut self) {}

    fn record(&mut self, found: &Found<'_>) -> Result<(), SpoolFault> {
        self.ask(Refused::Number(found.number))?;
        Ok(self.put_record(found)?)
    }

    fn gap(&mut self, _spool: &[u8; 16], missing: &Missing) -> Result<(), SpoolFault> {
        let Missing { from, to } = *missing;
        self.ask(Refused::Number(from))?;
        write!(self.text, "gap {from} to {to} / ")?;
        Ok(())
    }

    fn damage(&mut self, damage: &Damage) -> Result<(), SpoolFault> {
        self.ask(Refused::Damage)?;
        Ok(self.put_damage(damage)?)
    }
}

/// One that counts what it is told, and sees that the numbers come in order, each once.
#[derive(Clone, Copy)]
pub struct Counter {
    /// The number that has to come next.
    pub next: u64,
    pub records: u64,
    pub missing: u64,
    pub damaged: u64,
    pub is_in_order: bool,
}

impl Counter {
    /// Returns one that has to be told of this number first.
    pub fn new(next: u64) -> Counter
        ensures { result.next ≡ next }
    {
        Counter {
            next,
            records: 0,
            missing: 0,
            damaged: 0,
            is_in_order: true,
        }
    }

    /// Numbers come from one up to the one before another.
    fn come(&mut self, from: u64, next: u64)
        ensures { self.new.next ≡ next }
    {
        if from != self.next {
            self.is_in_order = false;
        }
        self.next = next;
    }
}

impl Visitor for Counter {
    ghost may_come = { λ counter n. counter.next ≤ n };

    fn segment(&mut self) {}

    fn record(&mut self, found: &Found<'_>) -> Result<(), SpoolFault> {
        prove!(self.next <= found.number);
        self.records = self.records.saturating_add(1);
        self.come(found.number, found.number.saturating_add(1));
        Ok(())
    }

    fn gap(&mut self, _spool: &[u8; 16], missing: &Missing) -> Result<(), SpoolFault> {
        prove!(self.next <= missing.from);
        let next = missing.to.saturating_add(1);
        let count = next.saturating_sub(missing.from);
        self.missing = self.missing.saturating_add(count);
        self.come(missing.from, next);
        Ok(())
    }

    fn damage(&mut self, _damage: &Damage) -> Result<(), SpoolFault> {
        self.damaged = self.damaged.saturating_add(1);
        Ok(())
    }
}
