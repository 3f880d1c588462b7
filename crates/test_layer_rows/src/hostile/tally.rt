//! What a peer was sent, counted.

use amqp_frame::Splitter;
use amqp_perform::{Condition, Performative, read_body};
use std::alloc::{AllocError, Global};
use std::fmt::{self, Display, Formatter};
use std::io::{self, ErrorKind, Write};

/// The longest frame that is counted.
const LONGEST: usize = 65_536;

/// What may be sent, in the order in which it is told.
const NAMES: [&str; 9] = [
    "header",
    "open",
    "begin",
    "attach",
    "flow",
    "disposition",
    "detach",
    "end",
    "close",
];

/// Counts the frames that are written to it, and what the errors in them say.
#[derive(Drop)]
pub struct Tally {
    input: Splitter,
    counts: [u64; 9],
    errors: u64,
    /// The last one.
    condition: Condition,
    /// It takes this many bytes, and then none.
    room: u64,
    taken: u64,
}

impl Tally {
    /// Returns a peer that reads this many bytes.
    pub fn new(alloc: Global, room: u64) -> Result<Tally, AllocError> {
        Ok(Tally {
            input: Splitter::new(alloc, LONGEST)?,
            counts: [0; 9],
            errors: 0,
            condition: Condition::Other,
            room,
            taken: 0,
        })
    }

    /// Returns whether what it took are whole units.
    pub fn is_whole(&self) -> bool {
        self.input.is_empty()
    }

    /// Counts the unit that is whole, if one is.
    fn count(&mut self) {
        if self.input.header().is_some() {
            self.add(0);
        } else if let Some(Ok(frame)) = self.input.frame() {
            let (place, condition) = place_of(frame.body);
            if condition != Condition::Other {
                self.condition = condition;
                self.errors = self.errors.saturating_add(1);
            }
            self.add(place);
        }
        self.input.drop_frame();
    }

    fn add(&mut self, place: usize) {
        if let Some(count) = self.counts.get_mut(place) {
            *count = count.saturating_add(1);
        }
    }
}

/// The place of a body among the names, and its error.
fn place_of(body: &[u8]) -> (usize, Condition) {
    match read_body(body) {
        Ok((Performative::Open(_), _)) => (1, Condition::Other),
        Ok((Performative::Begin(_), _)) => (2, Condition::Other),
        Ok((Performative::Attach(_), _)) => (3, Condition::Other),
        Ok((Performative::Flow(_), _)) => (4, Condition::Other),
        Ok((Performative::Disposition(_), _)) => (5, Condition::Other),
        Ok((Performative::Detach(detach), _)) => (6, Condition::of(detach.error)),
        Ok((Performative::End(end), _)) => (7, Condition::of(end.error)),
        Ok((Performative::Close(close), _)) => (8, Condition::of(close.error)),
        Ok((Performative::Transfer(_), _)) | Err(_) => (NAMES.len(), Condition::Other),
    }
}

impl Write for Tally {
    fn write(&mut self, buf: &[u8]) -> io::Result<usize> {
        let left = self.room.saturating_sub(self.taken).min(1 << 32) as usize;
        let count = buf.len().min(left);
        if count == 0 && !buf.is_empty() {
            return Err(io::Error::from(ErrorKind::WouldBlock));
        }
        let mut rest = &buf[..count];
        for _ in 0..count {
            if rest.is_empty() {
                break;
            }
            let used = self.input.push(rest);
            rest = rest.get(used..).unwrap_or(&[]);
            self.count();
        }
        self.taken = self.taken.saturating_add(count as u64);
        Ok(count)
    }

    fn flush(&mut self) -> io::Result<()> {
        Ok(())
    }
}

/// The frames in the order of their names, with how many of each, and the last condition.
impl Display for Tally {
    fn fmt<W: fmt::Write>(&self, f: &mut Formatter<W>) -> fmt::Result {
        f.write_str("got=")?;
        let mut is_first = true;
        for (name, count) in NAMES.iter().zip(self.counts.iter()) {
            if *count == 0 {
                continue;
            }
            if !is_first {
                f.write_str(",")?;
            }
            is_first = false;
            f.write_str(name)?;
            if *count > 1 {
                write!(f, "*{count}")?;
            }
        }
        let (errors, name) = (self.errors, self.condition.name());
        let name = str::from_utf8(name).unwrap_or("");
        write!(f, " errors={errors}{name}")
    }
}
