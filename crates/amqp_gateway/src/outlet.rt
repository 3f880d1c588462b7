//! Where the records of all peers go.

ghost use Rattle.std.specs.Prelude.{◌≡◌, ◌-◌, ◌<◌, ◌^◌, ◌&&◌, [], nat_lt, true, false, length, drop, None, IfSome, OnOk};
ghost use Rattle.std.specs.Io.KnownBytes.{Keeps};
ghost use Rattle.amqp_gateway.specs.Outlets.{is_empty, is_settled, WritesOn, waiting, waiting_most, WhereOut, WhereStuck, has_failed_by};
ghost use Rattle.amqp_hub.specs.declared.keeper.Progress.TheVariants as Progress;

use amqp_endpoint::Endpoint;
use amqp_hub::{Keeper, Origin, Progress};
use amqp_records::Blocks;
use std::alloc::{AllocError, Allocator, Global};
use std::io::{self, ErrorKind, Write};
use std::marker::Model;

/// Where records go.
///
/// A sink says by `on_disk` that all that was written to it is on the disk. After a write or a flush nothing is known
/// of that, until [`Sink::sync`] has returned `Ok`. What a device does is not known at all: its `on_disk` says nothing.
pub trait Sink: Write {
    // All that was written to it is on the disk.
    ghost on_disk: { Self → Type 0 };

    /// Syncs what was written to the disk. At `Ok` all of it is there.
    fn sync(&mut self) -> io::Result<()>
        ensures bytes { Keeps (Self.contents self.old) (Self.contents self.new) }
        ensures synced { OnOk result (on_disk self.new) };
}

/// A writer that has no disk: what it took counts as if it were there.
#[derive(Drop)]
pub struct Unsynced<W>(pub W);

impl<W: Write> Write for Unsynced<W> {
    fn write(&mut self, buf: &[u8]) -> io::Result<usize> {
        self.0.write(buf)
    }

    fn flush(&mut self) -> io::Result<()> {
        self.0.flush()
    }
}

impl<W: Write> Sink for Unsynced<W> {
    ghost on_disk = { λ _. Unit {0} };

    fn sync(&mut self) -> io::Result<()> {
        Ok(())
    }
}

/// How many bytes of records may wait; from this many on they are written, even in the middle of a turn.
pub const MOST: usize = 262_144;

/// The records that wait, and the sink.
#[derive(Drop)]
pub struct Outlet<S: Sink + Drop> {
    sink: S,
    alloc: Global,
    blocks: Blocks,
    /// How many bytes of the blocks were written.
    written: usize,
    /// Whether the sink was asked to write or to flush since it was synced last.
    is_fresh: bool,
    has_failed: bool,
    /// Whether a record counts as taken only once it is on the disk.
    syncs: bool,
}

impl<S: Sink + Drop> Model for Outlet<S> {
    ghost use Rattle.std.specs.Prelude.{◌≡◌, true, false};
    ghost use Rattle.amqp_gateway.specs.Outlets.{OutletState};

    ghost Value = { OutletState };

    ghost view = { λ a. record { sink = S.contents a.sink; blocks = a.blocks; written = a.written; is_fresh = a.is_fresh; has_failed = a.has_failed; syncs = a.syncs } };

    // If records are to be on the disk, and it was asked for nothing since, all that it took is there.
    ghost invariant = { λ a. a.syncs ≡ true → a.is_fresh ≡ false → S.on_disk a.sink };
}

impl<S: Sink + Drop> Outlet<S> {
    /// Makes an outlet to a sink, to which nothing was written that is not on the disk. If `syncs` is set, a record is
    /// taken for good only once it is on the disk.
    pub fn new(alloc: Global, sink: S, syncs: bool) -> Outlet<S>
        requires on_disk { S.on_disk sink }
        ensures settled { is_settled result ≡ true }
        ensures syncs { result.syncs ≡ syncs }
    {
        Outlet {
            sink,
            alloc,
            blocks: Blocks::new(alloc),
            written: 0,
            is_fresh: false,
            has_failed: false,
            syncs,
        }
    }

    /// Returns whether no block waits.
    fn is_empty(&self) -> bool
        ensures { result ≡ is_empty self.now }
    {
        self.blocks.as_bytes().is_empty() && self.written == 0
    }

    /// Returns whether so little waits that more may come before it is written.
    fn has_few(&self) -> bool
        ensures { result ≡ nat_lt (length self.now.blocks.bytes - self.now.written) waiting_most }
    {
        self.blocks.as_bytes().len().saturating_sub(self.written) < MOST
    }

    /// Writes and flushes what waits, without syncing it to the disk. `Out` means that nothing waits any more. Until
    /// then the blocks stay. The sink is asked for nothing if no block waits.
    #[tactic(auto, using(crate::proofs::Outs::on_here))]
    pub fn write_out(&mut self) -> Progress
        ensures stays { self.old.has_failed ≡ true → (result ≡ Progress.Failed) × (self.new ≡ self.old) }
        ensures went { WritesOn self.old self.new }
        ensures out { WhereOut result ((self.new.blocks.bytes ≡ []) × (self.new.written ≡ 0)) }
        ensures stuck { WhereStuck result (self.new.blocks ≡ self.old.blocks) }
        ensures failed { self.new.has_failed ≡ has_failed_by result }
        ensures syncs { self.new.syncs ≡ self.old.syncs }
    {
        if self.has_failed {
            return Progress::Failed;
        }
        if self.is_empty() {
            return Progress::Out;
        }
        for _ in 0..u64::MAX {
            match self.write_once() {
                Some(progress) => return progress,
                None => {}
            }
        }
        Progress::Stuck
    }

    /// Writes once from what waits. Returns `None` if it can go on.
    #[tactic(auto, using(crate::proofs::Outs::on_here, crate::proofs::Outs::on_still, crate::proofs::Outs::on_more))]
    fn write_once(&mut self) -> Option<Progress>
        requires { self.old.has_failed ≡ false }
        ensures went { WritesOn self.old self.new }
        ensures goes_on { result ≡ None → self.new.has_failed ≡ false }
        ensures same { result ≡ None → self.new.blocks ≡ self.old.blocks }
        ensures out { IfSome result (λ progress. WhereOut progress ((self.new.blocks.bytes ≡ []) × (self.new.written ≡ 0))) }
        ensures stuck { IfSome result (λ progress. WhereStuck progress (self.new.blocks ≡ self.old.blocks)) }
        ensures failed { IfSome result (λ progress. self.new.has_failed ≡ has_failed_by progress) }
        ensures syncs { self.new.syncs ≡ self.old.syncs }
    {
        let rest = rest_of(&self.blocks, self.written);
        if rest.is_empty() {
            return Some(self.flush());
        }
        self.is_fresh = true; // whatever the write answers
        match self.sink.write(rest) {
            Ok(0) => Some(self.fail()),
            Ok(count) => {
                self.written = self.written.saturating_add(count);
                None
            }
            Err(error) if error.kind() == ErrorKind::WouldBlock => Some(Progress::Stuck),
            Err(error) if error.kind() == ErrorKind::Interrupted => None,
            Err(_) => Some(self.fail()),
        }
    }

    /// Syncs what was written to the disk, if that is asked for and the sink was asked for something since the last time.
    fn sync(&mut self) -> Progress
        requires { self.old.has_failed ≡ false }
        ensures bytes { self.new.blocks ≡ self.old.blocks }
        ensures written { self.new.written ≡ self.old.written }
        ensures kept { Keeps self.old.sink self.new.sink }
        ensures out { WhereOut result ((self.new.syncs && self.new.is_fresh) ≡ false) }
        ensures stuck { WhereStuck result ⊥ }
        ensures failed { self.new.has_failed ≡ has_failed_by result }
        ensures syncs { self.new.syncs ≡ self.old.syncs }
    {
        if !(self.syncs && self.is_fresh) {
            return Progress::Out;
        }
        match self.sink.sync() {
            Ok(()) => {
                self.is_fresh = false;
                Progress::Out
            }
            Err(_) => self.fail(),
        }
    }

    /// Flushes the sink after all that waited was written, and drops the blocks once it has.
    #[tactic(auto, using(crate::proofs::Outs::on_here, crate::proofs::Outs::on_still, crate::proofs::Outs::on_flushed))]
    fn flush(&mut self) -> Progress
        requires well { self.old.has_failed ≡ false }
        requires all { waiting self.old ≡ [] }
        ensures went { WritesOn self.old self.new }
        ensures out { WhereOut result ((self.new.blocks.bytes ≡ []) × (self.new.written ≡ 0)) }
        ensures stuck { WhereStuck result (self.new.blocks ≡ self.old.blocks) }
        ensures failed { self.new.has_failed ≡ has_failed_by result }
        ensures syncs { self.new.syncs ≡ self.old.syncs }
    {
        self.is_fresh = true; // a flush may write as well
        match self.sink.flush() {
            Ok(()) => {
                self.clear();
                Progress::Out
            }
            Err(error) if error.kind() == ErrorKind::WouldBlock => Progress::Stuck,
            Err(error) if error.kind() == ErrorKind::Interrupted => Progress::Stuck,
            Err(_) => self.fail(),
        }
    }

    /// Drops the blocks. If they were many, their memory is given back.
    fn clear(&mut self)
        ensures bytes { self.new.blocks.bytes ≡ [] }
        ensures rest { self.new ≡ record self.old { blocks = self.new.blocks; written = 0 } }
    {
        if self.written > MOST {
            self.blocks = Blocks::new(self.alloc);
        } else {
            self.blocks.clear();
        }
        self.written = 0;
    }

    fn fail(&mut self) -> Progress
        ensures result { result ≡ Progress.Failed }
        ensures failed { self.new ≡ record self.old { has_failed = true } }
    {
        self.has_failed = true;
        Progress::Failed
    }
}

impl<S: Sink + Drop> Keeper for Outlet<S> {
    ghost use Rattle.std.specs.Prelude.{None, length};
    ghost use Rattle.amqp_gateway.specs.Outlets.{is_settled, is_roomy, Accepts, MakesRoom, Settles};
    ghost use Rattle.amqp_gateway.specs.OutletLaws.{nothing_known, accepts_more, makes_room_so, settles_so};

    // What a device was given is not known.
    ghost puts = { λ _. None };

    ghost taken = { λ _. None };

    ghost settled = { is_settled };

    ghost roomy = { is_roomy };

    ghost broken = { λ o. o.has_failed };

    ghost holds = { λ o. length o.blocks.bytes };

    ghost accepts = { Accepts };

    ghost makes_room = { MakesRoom };

    ghost settles = { Settles };

    ghost settled_is_taken = { nothing_known };

    ghost accepted_is_put = { accepts_more };

    ghost room_is_made = { makes_room_so };

    ghost settling_takes = { settles_so };

    /// While a block has begun to be written its size can't change.
    fn has_room(&self) -> bool {
        self.written == 0 && !self.has_failed && self.has_few()
    }

    /// Adds a record to those that wait. A record of 2^32 bytes or more is refused as if for want of memory.
    fn put<A: Allocator + Copy>(
        &mut self,
        origin: Origin,
        _endpoint: &Endpoint<A>,
        bytes: &[u8],
    ) -> Result<(), AllocError> {
        if bytes.is_empty() {
            return Ok(());
        }
        if bytes.len() > u32::MAX as usize {
            return Err(AllocError);
        }
        self.blocks.put(origin.number, bytes)
    }

    /// Writes and flushes what waits, if it is much, without syncing it to the disk.
    fn make_room(&mut self) -> Progress {
        if self.has_room() {
            Progress::Out
        } else {
            self.write_out()
        }
    }

    /// Writes and flushes what waits, and syncs it to the disk if it is asked for. `Out` means that nothing waits any
    /// more. Until then the blocks stay, so that it is not settled.
    fn settle(&mut self) -> Progress {
        match self.write_out() {
            Progress::Out => self.sync(),
            Progress::Stuck => Progress::Stuck,
            Progress::Failed => Progress::Failed,
        }
    }

    /// Returns whether the sink took and flushed all, has not failed and, if that is asked for, has it on the disk.
    fn is_settled(&self) -> bool {
        self.is_empty() && !(self.syncs && self.is_fresh) && !self.has_failed
    }

    fn held(&self) -> u64 {
        self.blocks.as_bytes().len() as u64
    }
}

/// Returns what of the blocks is still to be written, if `written` bytes of them were.
fn rest_of(blocks: &Blocks, written: usize) -> &[u8]
    ensures rest { result.now ≡ drop written blocks.now.bytes }
    ensures fits { length blocks.now.bytes < 2 ^ 64 }
{
    blocks.as_bytes().get(written..).unwrap_or(&[])
}
