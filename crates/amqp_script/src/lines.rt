//! The lines of a script: what they set up and which calls they ask for.
//!
//! Words are separated by one space. A line is read as bytes: the words that it may have are ASCII, so a line
//! that is not text has another word, and is refused.

use crate::digits::is_hex;
use crate::texts::is_text;
use amqp_endpoint::{Call, Config, LinkLimit};
use amqp_perform::Outcome;
use amqp_reason::Reason;
use std::alloc::{AllocError, Global};

/// The words of a line.
#[derive(Drop)]
struct Words<'a> {
    rest: Option<&'a [u8]>,
}

impl<'a> Words<'a> {
    fn of(line: &'a [u8]) -> Words<'a> {
        Words { rest: Some(line) }
    }

    /// Returns the next word, which may be empty; `None` after the last one.
    fn word(&mut self) -> Option<&'a [u8]> {
        let rest = self.rest.take()?;
        for (at, byte) in rest.iter().enumerate() {
            if *byte == b' ' {
                let (word, behind) = rest.split_at(at);
                self.rest = behind.get(1..);
                return Some(word);
            }
        }
        Some(rest)
    }

    /// Returns the next word as a number below 2^32; `None` unless it is one digit or more, and nothing else.
    fn number(&mut self) -> Option<u32> {
        let rest = self.rest.take()?;
        let mut number: u32 = 0;
        for (at, byte) in rest.iter().enumerate() {
            if *byte == b' ' {
                self.rest = rest.split_at(at).1.get(1..);
                return if at > 0 { Some(number) } else { None };
            }
            let digit = byte.wrapping_sub(b'0');
            if digit > 9 {
                return None;
            }
            number = number.checked_mul(10)?.checked_add(digit as u32)?;
        }
        if rest.is_empty() { None } else { Some(number) }
    }

    /// Returns the next word as a channel, a number below 2^16; `None` if it is none.
    fn channel(&mut self) -> Option<u16> {
        let number = self.number()?;
        if number <= u16::MAX as u32 {
            Some(number as u16)
        } else {
            None
        }
    }

    fn outcome(&mut self) -> Option<Outcome> {
        match self.word()? {
            b"accepted" => Some(Outcome::Accepted),
            b"rejected" => Some(Outcome::Rejected),
            b"released" => Some(Outcome::Released),
            b"modified" => Some(Outcome::Modified {
                failed: false,
                undeliverable: false,
            }),
            _ => None,
        }
    }

    /// Returns whether a word is left.
    fn has_more(&self) -> bool {
        self.rest.is_some()
    }

    /// Returns the reason that the words left state: a condition, and then a text if more is left, whose bytes are
    /// `text`.
    fn reason(&mut self, text: &'a [u8]) -> Option<Reason<'a>> {
        let condition = printed(self.word()?)?.as_bytes();
        if condition.is_empty() {
            return None;
        }
        let description = match self.rest.take() {
            Some(word) if is_text(word) => Some(text),
            Some(_) => return None,
            None => None,
        };
        Some(Reason {
            condition,
            description,
        })
    }

    /// Returns `read` if no word is left, else `None`.
    fn end<T: Drop>(&self, read: T) -> Option<T> {
        match self.rest {
            None => Some(read),
            Some(_) => None,
        }
    }
}

/// Returns what the first line sets up: `config ID MAX_FRAME CHANNEL_MAX HANDLE_MAX ALLOWED MAX_MESSAGE
/// WINDOW`. `None` if it is another line, or a setting is outside its range. It is an error if memory is
/// refused.
pub fn config_of(alloc: Global, line: &[u8]) -> Result<Option<Config>, AllocError> {
    match settings_of(line) {
        Some(settings) => settings.checked(alloc),
        None => Ok(None),
    }
}

/// The words of the first line.
#[derive(Drop)]
struct Settings<'a> {
    id: &'a str,
    max_frame: u32,
    channel_max: u32,
    handle_max: u32,
    allowed: u32,
    max_message: u32,
    window: u32,
}

fn settings_of(line: &[u8]) -> Option<Settings<'_>> {
    let mut words = Words::of(line);
    if words.word()? != b"config".as_slice() {
        return None;
    }
    let id = printed(words.word()?)?;
    let settings = Settings {
        id,
        max_frame: words.number()?,
        channel_max: words.number()?,
        handle_max: words.number()?,
        allowed: words.number()?,
        max_message: words.number()?,
        window: words.number()?,
    };
    words.end(settings)
}

impl Settings<'_> {
    fn checked(&self, alloc: Global) -> Result<Option<Config>, AllocError> {
        Ok(Config::checked(
            String::from_str(alloc, self.id)?,
            self.max_frame,
            self.channel_max,
            self.handle_max,
            self.allowed,
            self.max_message,
            self.window,
        ))
    }
}

/// Returns a word as text if it is printable ASCII without spaces, else `None`.
fn printed(word: &[u8]) -> Option<&str> {
    if word.iter().all(|byte| byte.is_ascii_graphic()) {
        str::from_utf8(word).ok()
    } else {
        None
    }
}

/// Returns the limit that a row `PREFIX ALLOWED MAX_MESSAGE` sets; `None` if it is no such row. It is an error
/// if memory is refused.
pub fn row_of(alloc: Global, row: &[u8]) -> Result<Option<LinkLimit>, AllocError> {
    match row_words(row) {
        Some(row) => Ok(Some(LinkLimit {
            prefix: Vec::from_slice(alloc, row.prefix.as_bytes())?,
            allowed: row.allowed,
            max_message: row.max_message,
        })),
        None => Ok(None),
    }
}

/// The words of a row.
#[derive(Drop)]
struct Row<'a> {
    prefix: &'a str,
    allowed: u32,
    max_message: u32,
}

fn row_words(row: &[u8]) -> Option<Row<'_>> {
    let mut words = Words::of(row);
    let row = Row {
        prefix: printed(words.word()?)?,
        allowed: words.number()?,
        max_message: words.number()?,
    };
    words.end(row)
}

/// The first word of a line that feeds bytes. Alone it feeds none.
const FEED: &[u8] = b"feed";

/// Returns what follows `feed ` in a line that begins so, else `None`.
pub fn fed(line: &[u8]) -> Option<&[u8]> {
    line.strip_prefix(b"feed ".as_slice())
}

/// Returns whether a line asks for a call.
pub fn is_call(line: &[u8]) -> bool {
    match fed(line) {
        Some(hex) => is_hex(hex),
        None => call_of(line, &[]).is_some(),
    }
}

/// Returns the text of a reason, as a line that may have one spells it behind its other words.
pub fn text_in(line: &[u8]) -> Option<&[u8]> {
    // Nearly all lines end here: the words of the others are gone through.
    if !matches!(line.first()?, b'c' | b'r' | b's') || line.ends_with(b" accepted") {
        return None;
    }
    let mut words = Words::of(line);
    let others = match words.word()? {
        b"close" => 1,
        b"refuse" => 3,
        b"settle" => 4,
        b"settle-range" => 5,
        _ => return None,
    };
    for _ in 0..others {
        words.word()?;
    }
    words.rest
}

/// Returns the call that a line asks for; `None` if it asks for none. `piece` has the bytes that a `feed` line
/// feeds, for what follows `feed` is not looked at, and those of the text that a reason has.
pub fn call_of<'a>(line: &'a [u8], piece: &'a [u8]) -> Option<Call<'a>> {
    if line == FEED || fed(line).is_some() {
        return Some(Call::Feed(piece));
    }
    let mut words = Words::of(line);
    let call = match words.word()? {
        b"close" if words.has_more() => Some(Call::CloseWith(words.reason(piece)?)),
        b"close" => Some(Call::Close),
        b"heartbeat" => Some(Call::Heartbeat),
        b"output" => Some(Call::Output(words.number()?)),
        b"held" => Some(Call::Held),
        b"finish" => Some(Call::Finish),
        name => session_call(name, &mut words, piece),
    };
    if words.has_more() { None } else { call }
}

/// Returns the call for a session with this name and the rest of the words; `None` if there is none. The text of
/// a reason has these bytes.
fn session_call<'a>(name: &[u8], words: &mut Words<'a>, text: &'a [u8]) -> Option<Call<'a>> {
    let channel = words.channel()?;
    Some(match name {
        b"grant" => Call::Grant {
            channel,
            handle: words.number()?,
            n: words.number()?,
        },
        b"widen" => Call::Widen {
            channel,
            n: words.number()?,
        },
        b"drain" => Call::Drain {
            channel,
            handle: words.number()?,
        },
        b"take" => Call::Take {
            channel,
            handle: words.number()?,
        },
        b"settle" => {
            let id = words.number()?;
            settle(channel, id, words, text)?
        }
        b"settle-range" => {
            let first = words.number()?;
            let last = words.number()?;
            settle_range(channel, first, last, words, text)?
        }
        b"refuse" => Call::Refuse {
            channel,
            handle: words.number()?,
            reason: words.reason(text)?,
        },
        b"detach" => Call::Detach {
            channel,
            handle: words.number()?,
        },
        _ => return None,
    })
}

/// Returns the settle of a delivery with the outcome that the words left state, and with a reason if more is left
/// behind `rejected`.
fn settle<'a>(channel: u16, id: u32, words: &mut Words<'a>, text: &'a [u8]) -> Option<Call<'a>> {
    let outcome = words.outcome()?;
    if outcome == Outcome::Rejected && words.has_more() {
        return Some(Call::SettleWith {
            channel,
            id,
            reason: words.reason(text)?,
        });
    }
    Some(Call::Settle {
        channel,
        id,
        outcome,
    })
}

/// Returns the settle of a range, in the same way.
fn settle_range<'a>(
    channel: u16,
    first: u32,
    last: u32,
    words: &mut Words<'a>,
    text: &'a [u8],
) -> Option<Call<'a>> {
    let outcome = words.outcome()?;
    if outcome == Outcome::Rejected && words.has_more() {
        return Some(Call::SettleRangeWith {
            channel,
            first,
            last,
            reason: words.reason(text)?,
        });
    }
    Some(Call::SettleRange {
        channel,
        first,
        last,
        outcome,
    })
}
