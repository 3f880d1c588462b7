//! The buffer that lines are put into and written from.

ghost use Rattle.std.specs.Prelude.{◌≡◌, ◌≤◌, ◌+◌, ◌++◌, ℕ, length, take, false, IsTrue};

use std::alloc::{AllocError, Global};
use std::marker::Model;

/// The buffer is lengthened by at least this many bytes.
const STEP: usize = 4096;

/// Lines that wait to be written, and the beginning of the next one after them. Putting bytes into a line returns nothing: if
/// memory was refused for some of them, the line gets no end.
#[derive(Drop)]
pub struct Page {
    /// What was put is at its front; zeros or old bytes are after it.
    bytes: Vec<u8>,
    /// Where the last thing that was put ends.
    len: usize,
    /// Where the line that has no end yet begins.
    end: usize,
    /// Memory was refused for something that was put into that line.
    lacks: bool,
    /// It is never lengthened.
    is_fixed: bool,
}

impl Model for Page {
    ghost use Rattle.std.specs.Prelude.{◌≤◌, length, take, drop};
    ghost use Rattle.amqp_dump.specs.Pages as pages;

    ghost Value = { pages.Page };

    ghost view = { λ page. record { whole = take page.end page.bytes.items; begun = drop page.end (take page.len page.bytes.items); lacks = page.lacks } };

    ghost invariant = { λ page. (page.end ≤ page.len) × (page.len ≤ length page.bytes.items) };
}

impl Page {
    ghost use Rattle.std.specs.Prelude.{◌≡◌, [], ◌∷◌, ◌++◌, length, take, false, IfOk, OnOk};

    /// Makes an empty page with room for `capacity` bytes. An error says that memory was refused.
    pub fn with_capacity(alloc: Global, capacity: usize) -> Result<Page, AllocError>
        ensures whole { IfOk result (λ page. page.whole ≡ []) }
        ensures begun { IfOk result (λ page. page.begun ≡ []) }
    {
        Ok(Page {
            bytes: Vec::from_elem(alloc, 0, capacity)?,
            len: 0,
            end: 0,
            lacks: false,
            is_fixed: false,
        })
    }

    /// Makes an empty page that takes at most `capacity` bytes: what finds no room lacks, as if memory had been refused for it.
    pub fn fixed(alloc: Global, capacity: usize) -> Result<Page, AllocError>
        ensures whole { IfOk result (λ page. page.whole ≡ []) }
        ensures begun { IfOk result (λ page. page.begun ≡ []) }
    {
        let mut page = Page::with_capacity(alloc, capacity)?;
        page.is_fixed = true;
        Ok(page)
    }

    /// Puts bytes into the line.
    #[inline(always)]
    pub fn put(&mut self, text: &[u8])
        ensures { self.new.whole ≡ self.old.whole }
    {
        self.put_front(text, text.len());
    }

    /// Puts the first `len` bytes of a text into the line, or all if there are fewer.
    ///
    /// The others are copied too, and written over: so a text whose length the compiler knows is copied without a loop and a
    /// call. If memory was refused for something in the line before, it is not requested again.
    // Without `inline`, `dump` takes 0.9 in 100 more instructions.
    #[inline(always)]
    pub fn put_front(&mut self, text: &[u8], len: usize)
        ensures whole { self.new.whole ≡ self.old.whole }
        ensures put { self.new.lacks ≡ false → (self.old.lacks ≡ false) × (self.new.begun ≡ self.old.begun ++ take len text.now) }
    {
        if !has_room(
            &mut self.bytes,
            self.len,
            text.len(),
            self.lacks | self.is_fixed,
        ) {
            self.lacks = true;
            return;
        }
        put_at(self.bytes.as_mut_slice(), self.len, text);
        self.len += len.min(text.len());
    }

    /// Puts a byte into the line.
    #[inline(always)]
    pub fn put_byte(&mut self, byte: u8)
        ensures { self.new.whole ≡ self.old.whole }
    {
        self.put(&[byte]);
    }

    /// Returns whether memory was refused for something of the line. The line then gets no end, whatever else is put into it.
    pub fn lacks(&self) -> bool
        ensures { result ≡ self.now.lacks }
    {
        self.lacks
    }

    /// Puts a newline, which ends the line. An error says that the line lacks something, or that memory was refused for the
    /// newline.
    pub fn end_line(&mut self) -> Result<(), AllocError>
        ensures all { OnOk result (self.old.lacks ≡ false) }
        ensures whole { OnOk result (self.new.whole ≡ self.old.whole ++ (self.old.begun ++ 10 ∷ [])) }
        ensures begun { OnOk result (self.new.begun ≡ []) }
    {
        if self.lacks || !has_room(&mut self.bytes, self.len, 1, self.is_fixed) {
            return Err(AllocError);
        }
        put_at(self.bytes.as_mut_slice(), self.len, b"\n");
        self.len += 1;
        self.end = self.len;
        Ok(())
    }

    /// Returns how many bytes wait, including those of a line without an end.
    pub fn len(&self) -> usize {
        self.len
    }

    /// Returns the whole lines.
    pub fn as_bytes(&self) -> &[u8]
        ensures { result.now ≡ self.now.whole }
    {
        &self.bytes[..self.end]
    }

    /// Returns what was put into the line that has no end yet.
    pub fn begun(&self) -> &[u8]
        ensures { result.now ≡ self.now.begun }
    {
        &self.bytes[self.end..self.len]
    }

    /// Drops everything that was put.
    pub fn clear(&mut self)
        ensures whole { self.new.whole ≡ [] }
        ensures begun { self.new.begun ≡ [] }
        ensures all { self.new.lacks ≡ false }
    {
        self.len = 0;
        self.end = 0;
        self.lacks = false;
    }
}

/// Returns whether there is room for `more` bytes after the first `len`. Room that is lacking is made, unless it was refused
/// before.
// Without `inline`, `dump` takes 1.9 in 100 more instructions.
#[inline(always)]
fn has_room(bytes: &mut Vec<u8>, len: usize, more: usize, refused: bool) -> bool
    requires { len ≤ length bytes.old.items }
    ensures kept { (n : ℕ) → n ≤ len → take n bytes.new.items ≡ take n bytes.old.items }
    ensures within { len ≤ length bytes.new.items }
    ensures room { IsTrue result → len + more ≤ length bytes.new.items }
{
    more <= bytes.len() - len || !refused && lengthen(bytes, len, more)
}

/// Makes room for `more` bytes after the first `len`, and for some more. Returns false if memory was refused.
#[cold]
#[inline(never)]
fn lengthen(bytes: &mut Vec<u8>, len: usize, more: usize) -> bool
    requires short { len ≤ length bytes.old.items }
    requires lacking { length bytes.old.items ≤ len + more }
    ensures kept { (n : ℕ) → n ≤ len → take n bytes.new.items ≡ take n bytes.old.items }
    ensures within { len ≤ length bytes.new.items }
    ensures room { IsTrue result → len + more ≤ length bytes.new.items }
{
    let Some(room) = len.checked_add(more) else {
        return false;
    };
    bytes.resize(room.saturating_add(STEP), 0).is_ok()
}

/// Puts bytes at their place.
fn put_at(out: &mut [u8], at: usize, bytes: &[u8])
    requires { at + length bytes.now ≤ length out.old }
    ensures kept { (n : ℕ) → n ≤ at → take n out.new ≡ take n out.old }
    ensures put { take (at + length bytes.now) out.new ≡ take at out.old ++ bytes.now }
{
    out[at..at + bytes.len()].copy_from_slice(bytes);
}
