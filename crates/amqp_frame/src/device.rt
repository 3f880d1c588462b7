//! A reader or a writer that keeps its first failure.
ghost use Rattle.std.specs.Prelude.{◌≡◌, ℕ, List, [], ◌+◌, ◌-◌, ◌^◌, ◌<◌, ◌≤◌, ◌↔◌, true, false, length, take, IfOk, IfSome, IsErr, IsTrue, MatchResult, Err, Ok, None, Some, OnErr, OnOk};
ghost use Rattle.std.specs.Io.KnownBytes.{IsAtEnd, Appends, Consumes, Keeps, WriteAppends};
ghost use Rattle.std.specs.Io.Buffered.{reader_buffer, writer_buffer, writer_capacity};
ghost use Rattle.amqp_frame.specs.Devices.{direct_inner, device_inner, device_hand, has_failed, has_ended, is_flushed, reads_left, reads_ahead, AppendsFront};

use std::alloc::Allocator;
use std::io::{self, BufRead, BufReader, BufWriter, ErrorKind, Read, Write};

/// A reader that may have bytes at hand: it read them ahead, and gives them without asking its peer.
pub trait AtHand: Read {
    // the bytes that come next, as far as it has them
    ghost hand: { Self → List ℕ };

    /// Returns the bytes at hand. Returning none is always correct.
    fn at_hand(&self) -> &[u8]
        ensures { result.now ≡ hand self.now };

    /// Takes the first `n` of the bytes at hand.
    fn took(&mut self, n: usize)
        requires { n ≤ length (hand self.old) }
        ensures { Consumes (Self.remaining self.old) (Self.remaining self.new) (take n (hand self.old)) };

    /// Asks its peer once for more bytes if none is at hand, and keeps them at hand.
    ///
    /// Returns how many are then at hand: 0 only if none is left. A reader that keeps no bytes to itself returns `None` and
    /// changes nothing; that is always correct.
    fn fill(&mut self) -> io::Result<Option<usize>>
        ensures hand { IfOk result (λ x. IfSome x (λ n. length (hand self.new) ≡ n)) }
        ensures bytes { Keeps (Self.remaining self.old) (Self.remaining self.new) }
        ensures end { result ≡ Ok (Some 0) → IsAtEnd (Self.remaining self.old) }
        ensures still { result ≡ Ok None → self.new ≡ self.old }
    {
        Ok(None)
    }
}

impl<R: Read, A: Allocator> AtHand for BufReader<R, A> {
    ghost hand = { reader_buffer };

    fn at_hand(&self) -> &[u8] {
        self.buffer()
    }

    fn took(&mut self, n: usize) {
        self.consume(n);
    }

    // A buffer without room is never filled, so an empty one says nothing.
    fn fill(&mut self) -> io::Result<Option<usize>> {
        if self.capacity() == 0 {
            return Ok(None);
        }
        self.fill_buf()?;
        Ok(Some(self.buffer().len()))
    }
}

/// A writer that may know how many bytes it keeps to itself before it passes any on.
pub trait HoldsBack {
    // it keeps at least this many more
    ghost room: { Self → ℕ };

    /// Returns how many more bytes it keeps at least. Returning 0 is always correct.
    fn holds_back(&self) -> usize
        ensures { result ≡ room self.now };
}

impl<W: Write + Drop, A: Allocator> HoldsBack for BufWriter<W, A> {
    ghost room = { λ w. writer_capacity w - length (writer_buffer w) - 1 };

    // A write that fills the buffer may be passed on; if the buffer was empty, it is.
    fn holds_back(&self) -> usize {
        self.capacity()
            .saturating_sub(self.buffer().len())
            .saturating_sub(1)
    }
}

/// A reader or a writer that can't say what it keeps: it has no bytes at hand, and doesn't promise to keep any to
/// itself.
#[derive(Drop)]
pub struct Direct<T> {
    inner: T,
}

impl<T> Direct<T> {
    /// Wraps a reader or a writer.
    pub fn new(inner: T) -> Self
        ensures { direct_inner result ≡ inner }
    {
        Direct { inner }
    }

    /// Returns the reader or writer itself.
    pub fn into_inner(self) -> T
        ensures { result ≡ direct_inner self }
    {
        self.inner
    }
}

impl<T> HoldsBack for Direct<T> {
    ghost room = { λ _. 0 };

    fn holds_back(&self) -> usize {
        0
    }
}

impl<R: Read> Read for Direct<R> {
    ghost remaining = { λ r. R.remaining (direct_inner r) };

    fn read(&mut self, buf: &mut [u8]) -> io::Result<usize> {
        self.inner.read(buf)
    }
}

impl<R: Read> AtHand for Direct<R> {
    ghost hand = { λ _. [] };

    fn at_hand(&self) -> &[u8] {
        &[]
    }

    fn took(&mut self, _n: usize) {}
}

impl<W: Write> Write for Direct<W> {
    ghost contents = { λ w. W.contents (direct_inner w) };

    fn write(&mut self, buf: &[u8]) -> io::Result<usize> {
        self.inner.write(buf)
    }

    fn flush(&mut self) -> io::Result<()> {
        self.inner.flush()
    }
}

/// A reader or a writer that is marked by its first failure, and only fails from then on.
///
/// As a reader it ends once it gave 0 bytes into a buffer with room, or after `2^64 - 1` reads.
#[derive(Drop)]
pub struct Device<T> {
    inner: T,
    failed: bool,
    ended: bool,
    flushed: bool,
    reads_left: u64,
}

impl<T> Device<T> {
    /// Wraps a reader or a writer, not marked and not ended.
    pub fn new(inner: T) -> Self
        ensures inner { device_inner result ≡ inner }
        ensures failed { has_failed result ≡ false }
        ensures ended { has_ended result ≡ false }
        ensures flushed { is_flushed result ≡ false }
        ensures reads { reads_left result ≡ 2 ^ 64 - 1 }
    {
        Device {
            inner,
            failed: false,
            ended: false,
            flushed: false,
            reads_left: u64::MAX,
        }
    }

    /// Returns the reader or writer itself.
    pub fn into_inner(self) -> T
        ensures { result ≡ device_inner self }
    {
        self.inner
    }

    /// Returns whether a call failed, so that it is marked.
    pub fn failed(&self) -> bool
        ensures { result ≡ has_failed self.now }
    {
        self.failed
    }

    /// Returns whether it ended: its reader had no bytes left, or no read is left to ask.
    pub fn ended(&self) -> bool
        ensures { result ≡ has_ended self.now }
    {
        self.ended
    }

    /// Returns an error if it is marked.
    fn unmarked(&self) -> io::Result<()>
        ensures { IsErr result ↔ IsTrue (has_failed self.now) }
    {
        if self.failed() {
            return Err(io::Error::from(ErrorKind::Other));
        }
        Ok(())
    }

    /// Marks it.
    fn mark(&mut self)
        ensures { self.new ≡ record self.old { failed = true } }
    {
        self.failed = true;
    }

    /// Marks it and returns the error.
    fn fail<X>(&mut self, error: io::Error) -> io::Result<X>
        ensures err { result ≡ Err error }
        ensures marked { self.new ≡ record self.old { failed = true } }
    {
        self.mark();
        Err(error)
    }

    /// Notes that its writer took bytes.
    fn wrote(&mut self)
        ensures { self.new ≡ record self.old { flushed = false } }
    {
        self.flushed = false;
    }

    /// Notes what its reader returned: an error marks it, and 0 ends it.
    fn told(&mut self, answer: io::Result<usize>) -> io::Result<usize>
        ensures same { result ≡ answer }
        ensures marked { OnErr answer (self.new ≡ record self.old { failed = true }) }
        ensures inner { device_inner self.new ≡ device_inner self.old }
        ensures reads { reads_left self.new ≡ reads_left self.old }
        ensures unmarked { OnOk answer (has_failed self.new ≡ has_failed self.old) }
        ensures ended { IfOk answer (λ n. (n ≡ 0) ↔ IsTrue (has_ended self.new)) }
    {
        match answer {
            Ok(count) => {
                self.ended = count == 0;
                Ok(count)
            }
            Err(error) => self.fail(error),
        }
    }
}

impl<R: Read> Device<R> {
    /// Reads into the front of `buf`, and returns how many bytes came.
    ///
    /// The first error of the reader marks it. Once marked it returns an error, and once ended 0, without
    /// asking the reader. The reader is not asked either if `buf` is empty.
    pub fn read(&mut self, buf: &mut [u8]) -> io::Result<usize>
        ensures bound { IfOk result (λ n. n ≤ length buf.new) }
        ensures marked { IsErr result ↔ IsTrue (has_failed self.new) }
        ensures zero { has_failed self.new ≡ false → 0 < length buf.old → (result ≡ Ok 0) ↔ IsTrue (has_ended self.new) }

        // What came is what the reader gave. If the reader was asked and gave nothing, nothing was left.
        ensures bytes { MatchResult result
            (λ n. Consumes (R.remaining (device_inner self.old)) (R.remaining (device_inner self.new)) (take n buf.new))
            (λ _. Keeps (R.remaining (device_inner self.old)) (R.remaining (device_inner self.new))) }
        ensures end { has_ended self.old ≡ false → 0 < reads_left self.old → 0 < length buf.old → result ≡ Ok 0 → IsAtEnd (R.remaining (device_inner self.new)) }

        // If the reader is not asked, nothing changes.
        ensures still { IsTrue (has_failed self.old) → self.new ≡ self.old }
        ensures over { IsTrue (has_ended self.old) → self.new ≡ self.old }
        ensures empty { length buf.old ≡ 0 → self.new ≡ self.old }

        // Each read that may ask counts, and after the last one it ends. A failure ends nothing.
        ensures counts { has_failed self.old ≡ false → has_ended self.old ≡ false → 0 < length buf.old → reads_left self.new ≡ reads_left self.old - 1 }
        ensures fewer { has_ended self.old ≡ false → 0 < length buf.old → OnOk result (reads_ahead self.new < reads_ahead self.old) }
        ensures kept { OnErr result (has_ended self.new ≡ has_ended self.old) }
    {
        self.unmarked()?;
        if buf.is_empty() {
            return Ok(0);
        }
        if self.ended || self.reads_left == 0 {
            self.ended = true;
            return Ok(0);
        }
        self.reads_left -= 1;
        let answer = self.inner.read(buf);
        self.told(answer)
    }
}

impl<R: AtHand> Device<R> {
    /// Returns the bytes that its reader has at hand; none if the reader would not be asked any more.
    pub fn at_hand(&self) -> &[u8]
        ensures { result.now ≡ device_hand R.hand self.now }
    {
        if self.failed || self.ended || self.reads_left == 0 {
            return &[];
        }
        self.inner.at_hand()
    }

    /// Takes the first `n` of the bytes at hand. This counts as a read.
    pub fn took(&mut self, n: usize)
        requires some { 0 < length (device_hand R.hand self.old) }
        requires within { n ≤ length (device_hand R.hand self.old) }
        ensures bytes { Consumes (R.remaining (device_inner self.old)) (R.remaining (device_inner self.new)) (take n (device_hand R.hand self.old)) }
        ensures failed { has_failed self.new ≡ false }
        ensures ended { has_ended self.new ≡ false }
        ensures counts { reads_left self.new ≡ reads_left self.old - 1 }
        ensures fewer { reads_ahead self.new < reads_ahead self.old }
    {
        self.reads_left -= 1;
        self.inner.took(n);
    }

    /// Lets its reader ask for more bytes if none is at hand, and returns how many are then at hand.
    ///
    /// The reader's first error marks it, and it ends if no bytes are left. If it returns a number, it counts as a read. It
    /// returns `None` and changes nothing if the reader keeps no bytes to itself, if it has ended, or if at most one read is
    /// left.
    pub fn fill(&mut self) -> io::Result<Option<usize>>
        ensures hand { IfOk result (λ x. IfSome x (λ n. length (device_hand R.hand self.new) ≡ n)) }
        ensures marked { IsErr result ↔ IsTrue (has_failed self.new) }
        ensures zero { IfOk result (λ x. IfSome x (λ n. (n ≡ 0) ↔ IsTrue (has_ended self.new))) }
        ensures bytes { Keeps (R.remaining (device_inner self.old)) (R.remaining (device_inner self.new)) }
        ensures end { result ≡ Ok (Some 0) → IsAtEnd (R.remaining (device_inner self.old)) }
        ensures nothing { result ≡ Ok None → self.new ≡ self.old }

        // If the reader is not asked, nothing changes.
        ensures still { IsTrue (has_failed self.old) → self.new ≡ self.old }
        ensures over { IsTrue (has_ended self.old) → self.new ≡ self.old }

        // Each that returns a number counts. A failure ends nothing.
        ensures counts { IfOk result (λ x. IfSome x (λ _. reads_left self.new ≡ reads_left self.old - 1)) }
        ensures fewer { IfOk result (λ x. IfSome x (λ _. reads_ahead self.new < reads_ahead self.old)) }
        ensures kept { OnErr result (has_ended self.new ≡ has_ended self.old) }
    {
        self.unmarked()?;
        if self.ended || self.reads_left <= 1 {
            return Ok(None);
        }
        match self.inner.fill() {
            Ok(None) => Ok(None),
            Ok(Some(count)) => {
                self.reads_left -= 1;
                Ok(Some(self.told(Ok(count))?))
            }
            Err(error) => self.fail(error),
        }
    }
}

impl<W: HoldsBack> Device<W> {
    /// Returns how many more bytes its writer keeps at least before it passes any on.
    pub fn holds_back(&self) -> usize
        ensures { result ≡ W.room (device_inner self.now) }
    {
        self.inner.holds_back()
    }
}

impl<W: Write> Device<W> {
    /// Writes bytes from the front of `buf`, and returns how many: at least one, unless `buf` is empty.
    ///
    /// The first error of the writer marks it, and so does a write that takes no byte. Once marked it returns
    /// an error without asking the writer. The writer is not asked either if `buf` is empty.
    pub fn write(&mut self, buf: &[u8]) -> io::Result<usize>
        ensures bound { IfOk result (λ n. n ≤ length buf.now) }
        ensures marked { IsErr result ↔ IsTrue (has_failed self.new) }
        ensures some { 0 < length buf.now → IfOk result (λ n. 0 < n) }
        ensures bytes { WriteAppends (W.contents (device_inner self.old)) (W.contents (device_inner self.new)) result buf.now }
        ensures unflushed { 0 < length buf.now → OnOk result (is_flushed self.new ≡ false) }
        ensures ended { has_ended self.new ≡ has_ended self.old }
        ensures reads { reads_left self.new ≡ reads_left self.old }

        // If the writer is not asked, nothing changes.
        ensures still { IsTrue (has_failed self.old) → self.new ≡ self.old }
        ensures empty { length buf.now ≡ 0 → self.new ≡ self.old }
    {
        self.unmarked()?;
        if buf.is_empty() {
            return Ok(0);
        }
        match self.inner.write(buf) {
            Ok(0) => self.fail(io::Error::from(ErrorKind::WriteZero)),
            Ok(count) => {
                self.wrote();
                Ok(count)
            }
            Err(error) => self.fail(error),
        }
    }

    /// Writes all of `buf`, in as many writes as that takes.
    ///
    /// The first write that fails or takes no byte marks it. No write follows then, and what was written is a
    /// front of `buf`. Once marked it returns an error without asking the writer.
    pub fn write_all(&mut self, buf: &[u8]) -> io::Result<()>
        ensures marked { IsErr result ↔ IsTrue (has_failed self.new) }
        ensures written { OnOk result (Appends (W.contents (device_inner self.old)) (W.contents (device_inner self.new)) buf.now) }
        ensures begun { OnErr result (AppendsFront (W.contents (device_inner self.old)) (W.contents (device_inner self.new)) buf.now) }
        ensures unflushed { 0 < length buf.now → OnOk result (is_flushed self.new ≡ false) }
        ensures ended { has_ended self.new ≡ has_ended self.old }
        ensures reads { reads_left self.new ≡ reads_left self.old }

        // If the writer is not asked, nothing changes.
        ensures still { IsTrue (has_failed self.old) → self.new ≡ self.old }
        ensures empty { length buf.now ≡ 0 → self.new ≡ self.old }
    {
        self.unmarked()?;
        let mut at = 0;
        'rest: while at < buf.len() {
            at += self.write(&buf[at..])?;
        }
        Ok(())
    }

    /// Writes bytes from the front of `buf` as [`Device::write`] does, and returns how many, or `None` if that
    /// returns an error.
    // A result that may hold an error has 96 bytes, which caller and callee clear: 50 instructions for each write of a record.
    pub fn put(&mut self, buf: &[u8]) -> Option<usize>
        ensures bound { IfSome result (λ n. n ≤ length buf.now) }
        ensures marked { (result ≡ None) ↔ IsTrue (has_failed self.new) }
        ensures some { 0 < length buf.now → IfSome result (λ n. 0 < n) }
        ensures taken { IfSome result (λ n. Appends (W.contents (device_inner self.old)) (W.contents (device_inner self.new)) (take n buf.now)) }
        ensures none { result ≡ None → Keeps (W.contents (device_inner self.old)) (W.contents (device_inner self.new)) }
        ensures unflushed { 0 < length buf.now → IfSome result (λ _. is_flushed self.new ≡ false) }
        ensures ended { has_ended self.new ≡ has_ended self.old }
        ensures reads { reads_left self.new ≡ reads_left self.old }

        // If the writer is not asked, nothing changes.
        ensures still { IsTrue (has_failed self.old) → self.new ≡ self.old }
        ensures empty { length buf.now ≡ 0 → self.new ≡ self.old }
    {
        if self.failed {
            return None;
        }
        if buf.is_empty() {
            return Some(0);
        }
        match self.inner.write(buf) {
            Ok(count) if count > 0 => {
                self.wrote();
                Some(count)
            }
            _ => {
                self.mark();
                None
            }
        }
    }

    /// Writes all of `buf` as [`Device::write_all`] does, and returns whether it could.
    // As a call it costs 45 instructions for each record of `amqp_serve`.
    #[inline(always)]
    pub fn put_all(&mut self, buf: &[u8]) -> bool
        ensures marked { (result ≡ false) ↔ IsTrue (has_failed self.new) }
        ensures written { result ≡ true → Appends (W.contents (device_inner self.old)) (W.contents (device_inner self.new)) buf.now }
        ensures begun { result ≡ false → AppendsFront (W.contents (device_inner self.old)) (W.contents (device_inner self.new)) buf.now }
        ensures unflushed { 0 < length buf.now → result ≡ true → is_flushed self.new ≡ false }
        ensures ended { has_ended self.new ≡ has_ended self.old }
        ensures reads { reads_left self.new ≡ reads_left self.old }

        // If the writer is not asked, nothing changes.
        ensures still { IsTrue (has_failed self.old) → self.new ≡ self.old }
        ensures empty { length buf.now ≡ 0 → self.new ≡ self.old }
    {
        match self.put(buf) {
            Some(count) if count == buf.len() => true,
            Some(count) => self.write_all(&buf[count..]).is_ok(),
            None => false,
        }
    }

    /// Flushes the writer.
    ///
    /// The first error of the writer marks it. Once marked it returns an error without asking the writer. The
    /// writer is not asked either if nothing was written since the last flush.
    pub fn flush(&mut self) -> io::Result<()>
        ensures marked { IsErr result ↔ IsTrue (has_failed self.new) }
        ensures flushed { OnOk result (is_flushed self.new ≡ true) }
        ensures bytes { Keeps (W.contents (device_inner self.old)) (W.contents (device_inner self.new)) }
        ensures ended { has_ended self.new ≡ has_ended self.old }
        ensures reads { reads_left self.new ≡ reads_left self.old }
        ensures still { IsTrue (has_failed self.old) → self.new ≡ self.old }
        ensures done { is_flushed self.old ≡ true → self.new ≡ self.old }
    {
        self.unmarked()?;
        if self.flushed {
            return Ok(());
        }
        match self.inner.flush() {
            Ok(()) => {
                self.flushed = true;
                Ok(())
            }
            Err(error) => self.fail(error),
        }
    }
}
