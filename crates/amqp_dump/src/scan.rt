//! The units of a stream: its header and its frames, each with its place and the value that its body
//! begins with. Nothing of a unit's line is put before it is known whether the unit has a fault.

ghost use Rattle.std.specs.Prelude.{◌≡◌, ◌≢◌, ℕ, ◌+◌, ◌-◌, ◌^◌, ◌<◌, ◌≤◌, true, List, [], ◌++◌, length, is_some, IfOk, OnOk, IfSome};
ghost use Rattle.amqp_frame.specs.Splits.{IsOver};
ghost use Rattle.amqp_perform.specs.BodyReading.{body_at};
ghost use Rattle.amqp_types.specs.Places.{place_of};
ghost use Rattle.amqp_dump.specs.Entries.{PassedCheck, Entry, entry_of, is_fault, header_entry, body_entry, told_entries, TellsOf};
ghost use Rattle.amqp_dump.specs.Steps.{IsWaiting, IsReady, IsReadyBehind, HasTold, PutsNext, taken_by};

use crate::lines::put_line;
use crate::page::Page;
use crate::scanned::{Scanned, ScannedFrame, StreamFault};
use amqp_frame::{Frame, HEADER, Splitter};
use amqp_perform::is_performative;
use amqp_types::{Limits, ReadFault, check};
use std::alloc::{AllocError, Global};

/// The largest frame that is read, in bytes.
pub const MAX_FRAME: usize = 1048576;

/// How much of the value at the front of a body is read.
pub const LIMITS: Limits = Limits {
    depth: 32,
    nodes: 65536,
};

/// Reports the units of a stream, however its bytes come: frames of at most [`MAX_FRAME`] bytes, and values
/// within [`LIMITS`], 32 levels of depth and 65536 nodes.
#[derive(Drop)]
pub struct Scanner {
    splitter: Splitter,
    /// Where the unit that is due begins: bytes from the first one of the stream.
    place: usize,
}

impl Scanner {
    /// Makes a scanner at the start of a stream. It takes memory for the largest frame, and none for frames after
    /// that.
    pub fn new(alloc: Global) -> Result<Self, AllocError>
        ensures { IfOk result (λ s. HasTold s [] []) }
    {
        Ok(Scanner {
            splitter: Splitter::new(alloc, MAX_FRAME)?,
            place: 0,
        })
    }

    /// Returns how many bytes were taken.
    pub fn taken(&self) -> usize
        requires { taken_by self.now < 2 ^ 64 }
        ensures { result ≡ taken_by self.now }
    {
        self.place + self.splitter.len()
    }

    /// Takes bytes of `piece` from `at` on, to the end of the unit that is due, puts the line of that unit into
    /// `lines`, and returns whether it is a fault.
    ///
    /// `at` moves to that end. Returns `None` if the bytes end first; all of them are then taken. It may not be
    /// called after a fault.
    ///
    /// # Errors
    ///
    /// Memory was refused, for reading a value or for the line; `lines` may then hold a beginning of the line. The
    /// scanner may not be used again.
    pub fn next(
        &mut self,
        alloc: Global,
        piece: &[u8],
        at: &mut usize,
        lines: &mut Page,
    ) -> Result<Option<bool>, AllocError>
        requires ready { IsReady self.old }
        requires within { at.old ≤ length piece.now }
        requires fits { taken_by self.old + (length piece.now - at.old) < 2 ^ 64 }
        requires ended { lines.old.begun ≡ [] }
        ensures within { OnOk result (at.new ≤ length piece.now) }
        ensures some { IfOk result (λ told. IfSome told (λ _. at.old < at.new)) }
        ensures taken { OnOk result (taken_by self.new + (length piece.now - at.new) ≡ taken_by self.old + (length piece.now - at.old)) }
        ensures ready { IfOk result (IsReadyBehind self.new) }
        ensures ended { OnOk result (lines.new.begun ≡ []) }
        ensures told { IfOk result (PutsNext self.old piece.now at.old at.new self.new lines.old lines.new) }
    {
        let count = self.splitter.push(&piece[*at..]);
        *at += count;
        let Some(item) = waiting_unit(alloc, &self.splitter, self.place)? else {
            return Ok(None);
        };
        let is_fault = item.is_fault();
        put_line(lines, &item)?;
        self.place += self.splitter.len();
        self.splitter.drop_frame();
        Ok(Some(is_fault))
    }

    /// Returns what is reported of a stream that ends here: a fault, or nothing if it ends after a unit.
    pub fn end(&self) -> Option<Scanned<'_>>
        requires ready { IsReady self.now }
        ensures fault { IfSome result (λ item. is_fault (entry_of item) ≡ true) }
        ensures told { (bytes : List ℕ) (entries : List Entry) → HasTold self.now bytes entries → TellsOf bytes (entries ++ told_entries result) }
    {
        if self.place == 0 {
            Some(Scanned::Fault(0, StreamFault::Header))
        } else if self.splitter.is_empty() {
            None
        } else {
            Some(Scanned::Fault(self.place, StreamFault::Cut))
        }
    }
}

/// Returns the unit that waits in the splitter, if one does.
fn waiting_unit(
    alloc: Global,
    splitter: &Splitter,
    place: usize,
) -> Result<Option<Scanned<'_>>, AllocError>
    requires fits { place + length splitter.now.filled < 2 ^ 64 }
    requires due { IsOver splitter.now.stage → ⊥ }
    ensures { IfOk result (IsWaiting place splitter.now) }
{
    if let Some(header) = splitter.header() {
        return Ok(Some(told_header(place, &header)));
    }
    match splitter.frame() {
        Some(Ok(frame)) => Ok(Some(told_frame(alloc, place, splitter.len(), frame)?)),
        Some(Err(fault)) => Ok(Some(Scanned::Fault(place, StreamFault::Frame(fault)))),
        None => Ok(None),
    }
}

/// Reports the eight bytes in the header's place.
fn told_header<'a>(place: usize, header: &[u8]) -> Scanned<'a>
    ensures { entry_of result ≡ header_entry place header.now }
{
    if header == HEADER.as_slice() {
        Scanned::Header
    } else {
        Scanned::Fault(place, StreamFault::Header)
    }
}

/// Reports a frame of `size` bytes, with the value at the front of its body, or the fault there.
fn told_frame(
    alloc: Global,
    place: usize,
    size: usize,
    frame: Frame<'_>,
) -> Result<Scanned<'_>, AllocError>
    requires fits { place + size < 2 ^ 64 }
    requires body { length frame.body.now ≤ size }
    ensures { IfOk result (λ item. entry_of item ≡ body_entry place size frame.entry.channel (size - length frame.entry.body.now) frame.entry.body.now) }
{
    if frame.body.is_empty() {
        return Ok(Scanned::Frame(ScannedFrame {
            place,
            size,
            channel: frame.channel,
            body: frame.body,
            is_performative: false,
            payload: 0,
        }));
    }
    match check(alloc, frame.body, LIMITS) {
        Ok(length) => Ok(Scanned::Frame(ScannedFrame {
            place,
            size,
            channel: frame.channel,
            body: frame.body,
            is_performative: says_performative(frame.body),
            payload: frame.body.len() - length,
        })),
        Err(fault) => {
            let inside = place_in_body(fault)?;
            let body = place + (size - frame.body.len());
            Ok(Scanned::Fault(body + inside, StreamFault::Value(fault)))
        }
    }
}

/// Whether a body that passed `check` begins with a performative whose fields are valid. [2.7]
fn says_performative(body: &[u8]) -> bool
    requires { PassedCheck body.now }
    ensures { result ≡ is_some (body_at body.now) }
{
    is_performative(body)
}

/// Returns the place of a fault, in bytes from the first one of the body; an error if memory was refused.
fn place_in_body(fault: ReadFault) -> Result<usize, AllocError>
    ensures place { IfOk result (λ place. place ≡ place_of fault) }
    ensures memory { OnOk result (fault ≢ ReadFault.NoMemory) }
{
    fault.place().ok_or(AllocError)
}
