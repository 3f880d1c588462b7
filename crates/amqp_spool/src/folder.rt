//! A folder of segments, as a spool sees it.
ghost use Rattle.amqp_spool.specs.Folders.{History, Goes, GoesBy, Now, MayWrite, IsAppended, IsSynced, IsAdded, IsRaised, IsRemoved, making};
ghost use Rattle.amqp_spool.specs.Consumers.{HavePassed};
ghost use Rattle.std.specs.Prelude.{◌≡◌, ℕ, List, Option, Some, length, IfOk, IfSome, OnOk};
ghost use Rattle.amqp_spool.specs.Reads.{HasNames, IsRead};

use crate::end::End;
use crate::segments::Named;
use std::alloc::{AllocError, Global};

/// Why a folder did not do what was asked.
#[derive(Clone, Copy, Debug, PartialEq, Eq)]
pub enum FolderFault {
    /// There is no room for it.
    Full,
    /// The device has failed.
    Failed,
}

/// A folder of segments. A crash during a call leaves what one before it or after it may leave.
pub trait Folder {
    // Each state that it has had, the newest first, if that is known.
    ghost history: { Self → History };

    // Up to which number each of its consumers has acknowledged, if that is known.
    ghost positions: { Self → Option (List ℕ) };

    // Up to which number records were shown to readers in earlier lives, if that is known.
    ghost shown: { Self → Option ℕ };

    /// Returns the segments, the newest first, each with how many bytes it has.
    fn names(&self, alloc: Global) -> Result<Vec<Named>, AllocError>
        ensures { IfOk result (λ names. Now (HasNames names.items) (history self.now)) };

    /// Returns up to which number segments may be missing.
    fn floor(&self) -> u64
        ensures { Now (λ t. t.floor ≡ result) (history self.now) };

    /// Returns up to which number records were shown to readers in earlier lives: these were on the disk. Returns 0 if
    /// none was, or if nothing says so any more.
    fn shown(&self) -> u64
        ensures { (n : ℕ) → shown self.now ≡ Some n → n ≡ result };

    /// Reads bytes of a segment from a place on: of the newest for 0, of the one before it for 1. Fails if it has
    /// fewer.
    fn read(&self, index: usize, at: u64, out: &mut [u8]) -> Result<(), FolderFault>
        ensures len { length out.new ≡ length out.old }
        ensures read { OnOk result (Now (IsRead index at out.new) (history self.now)) };

    /// Makes ready for a write: says whether the room that is kept for a full disk is there.
    fn prepare(&mut self) -> Result<(), FolderFault>
        ensures { history self.new ≡ history self.old };

    /// Says to readers how far it may be read. It says so as long as it can, and nothing rests on it.
    fn publish(&mut self, _end: &End) -> Result<(), FolderFault>
        ensures { history self.new ≡ history self.old }
    {
        Ok(())
    }

    /// Writes at the end of the newest segment.
    fn append(&mut self, bytes: &[u8]) -> Result<(), FolderFault>
        requires { Now MayWrite (history self.old) }
        ensures { Goes (IsAppended bytes.now result) (history self.old) (history self.new) };

    /// Makes durable what was written at the end of the newest segment.
    fn sync(&mut self) -> Result<(), FolderFault>
        requires { Now MayWrite (history self.old) }
        ensures { Goes (IsSynced result) (history self.old) (history self.new) };

    /// Adds a segment with these bytes, whole, in place of one of that name. Once it returns `Ok` it is durable.
    fn add(&mut self, first: u64, bytes: &[u8]) -> Result<(), FolderFault>
        ensures { GoesBy (making (length bytes.now)) (IsAdded first bytes.now result) (history self.old) (history self.new) };

    /// Says, durably, that segments with numbers up to this one alone may be missing.
    fn raise_floor(&mut self, number: u64) -> Result<(), FolderFault>
        ensures { Goes (IsRaised number result) (history self.old) (history self.new) };

    /// Removes the oldest segment, durably.
    fn remove_oldest(&mut self) -> Result<(), FolderFault>
        ensures { Goes (IsRemoved result) (history self.old) (history self.new) };

    /// Returns up to which number all consumers have acknowledged. Until [`Folder::let_go`] they may acknowledge more,
    /// and none is added. Returns `None` if there are none, or if it can't be known now.
    fn passed(&mut self) -> Option<u64>
        ensures same { history self.new ≡ history self.old }
        ensures passed { IfSome result (λ n. (ps : List ℕ) → positions self.old ≡ Some ps → HavePassed n ps) }
    {
        None
    }

    /// Lets consumers be added again.
    fn let_go(&mut self)
        ensures { history self.new ≡ history self.old }
    {}
}
