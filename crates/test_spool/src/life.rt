//! A spool that was started.

ghost use Rattle.amqp_spool.specs.Folders.{Now};
ghost use Rattle.amqp_spool.specs.Reads.{IsFound};
ghost use Rattle.amqp_spool.specs.Spools.{IsNew};
ghost use Rattle.std.specs.Prelude.{IfErr};

use amqp_spool::{Call, Folder, Introduction, JournalFault, OpenFault, PutFault, Spool, run};
use std::alloc::{AllocError, Global};
use std::marker::Model;

/// What a record has before the length of its message: channel 1, handle 2, delivery-id 3 and format 0.
const RECORD_HEAD: [u8; 14] = [0, 1, 0, 0, 0, 2, 0, 0, 0, 3, 0, 0, 0, 0];

/// A spool that was started.
#[derive(Drop)]
pub struct Life<F: Folder + Drop> {
    spool: Spool<F>,
}

impl<F: Folder + Drop> Model for Life<F> {
    ghost use Rattle.amqp_spool.specs.Spools.{IsSound};
    ghost use Rattle.amqp_spool.specs.declared.spool.Spool.{Spool};

    ghost Value = { Spool F };

    ghost view = { λ life. life.spool };

    ghost invariant = { λ life. IsSound F.history life.spool };
}

impl<F: Folder + Drop> Life<F> {
    /// Starts a spool. If that fails it is returned with the fault, and may be started again.
    pub fn start(spool: Spool<F>, secret: [u8; 16]) -> Result<Life<F>, (Spool<F>, JournalFault)>
        requires found { Now IsFound (F.history spool.journal.folder) }
        requires is { IsNew spool }
        ensures { IfErr result (λ x. IsNew x.0) }
    {
        let mut spool = spool;
        match spool.start(secret) {
            Ok(()) => Ok(Life { spool }),
            Err(fault) => Err((spool, fault)),
        }
    }

    pub fn open_link(&mut self, from: &Introduction) -> Result<u32, OpenFault> {
        self.spool.open_link(from)
    }

    pub fn close_link(&mut self, link: u32) {
        self.spool.close_link(link);
    }

    /// Puts a message of a link, without so many bytes at the end of its record.
    pub fn put(
        &mut self,
        alloc: Global,
        link: u32,
        tag: &str,
        message: &str,
        cut: usize,
    ) -> Result<(), PutFault> {
        let record = record_of(alloc, message)?;
        let len = record.len().saturating_sub(cut);
        let bytes = record.get(..len).unwrap_or(&[]);
        self.spool.put(link, tag.as_bytes(), bytes)
    }

    /// Makes these calls, whatever they answer.
    pub fn run(&mut self, calls: &[Call]) {
        run(&mut self.spool, calls);
    }

    pub fn settle(&mut self, arrived: u64, secret: [u8; 16]) -> Result<(), JournalFault> {
        self.spool.settle(arrived, secret)
    }

    pub fn tend(&mut self, passed: u64) -> Result<(), JournalFault> {
        self.spool.tend(passed)
    }

    pub fn free(&mut self) -> Result<Option<u64>, JournalFault> {
        self.spool.free()
    }

    /// Says how far it may be read. Returns whether it could.
    pub fn publish(&mut self) -> bool {
        self.spool.publish().is_ok()
    }

    pub fn has_room(&self, len: u32) -> bool {
        self.spool.has_room(len)
    }

    pub fn may_grant(&self, len: u64) -> bool {
        self.spool.may_grant(len)
    }

    pub fn is_settled(&self) -> bool {
        self.spool.is_settled()
    }

    /// Returns how many bytes wait.
    pub fn held(&self) -> u64 {
        self.spool.held()
    }

    pub fn is_open(&self, link: u32) -> bool {
        self.spool.links().get(link).is_some()
    }
}

/// Returns the record of a message. One of 4 GiB or more has another length in it, so that it is no record.
fn record_of(alloc: Global, message: &str) -> Result<Vec<u8>, AllocError> {
    let len = u32::try_from(message.len()).unwrap_or(0);
    let mut record = Vec::from_slice(alloc, &RECORD_HEAD)?;
    record.extend_from_slice(&len.to_be_bytes())?;
    record.extend_from_slice(message.as_bytes())?;
    Ok(record)
}

/// Returns the name of a fault of the disk.
pub fn name_of(fault: JournalFault) -> &'static str {
    match fault {
        JournalFault::NoMemory => "Err(NoMemory)",
        JournalFault::Full => "Full",
        JournalFault::Failed => "Failed",
        JournalFault::Bound => "Bound",
        JournalFault::Damaged => "Damaged",
    }
}

/// Returns the answer of a put that was refused.
pub fn refusal_of(fault: PutFault) -> &'static str {
    match fault {
        PutFault::NotOpen => "Err(NotOpen)",
        PutFault::LongTag => "Err(LongTag)",
        PutFault::NoRecord => "Err(NoRecord)",
        PutFault::Full => "Err(Full)",
        PutFault::TooMany => "Err(TooMany)",
        PutFault::NoMemory => "Err(NoMemory)",
    }
}
