//! What a peer says of itself in its open [2.7.1].
ghost use Rattle.std.specs.Prelude.{◌≡◌, ◌≤◌, length, take, option_map};
ghost use Rattle.std.specs.Str.{IsUtf8};
ghost use Rattle.std.specs.Str.Lossy.{utf8_valid_len};
ghost use Rattle.amqp_endpoint.specs.FirstTexts.{most_kept, first_text, string_in, uint_in, number_of_4};
ghost use Rattle.amqp_endpoint.specs.Introductions.{introduction_by};

use amqp_perform::Open;
use std::marker::Model;
use std::str;

/// How many bytes of a text are kept, at most.
const MOST: usize = 255;

/// The constructors of a string and of a uint [part 1, 1.6.5 and 1.6.20].
const STR8: u8 = 0xa1;

const STR32: u8 = 0xb1;

const UINT_0: u8 = 0x43;

const SMALL_UINT: u8 = 0x52;

const UINT: u8 = 0x70;

/// What a peer said of itself in its open. It takes no memory of its own.
#[derive(Drop)]
pub struct Introduction {
    pub container_id: FirstText,
    /// The host that it wants to reach, if it named one.
    pub hostname: Option<FirstText>,
    /// How often it wants to hear something at least, in milliseconds, if it said so.
    pub idle_time_out: Option<u32>,
}

impl Introduction {
    /// Returns what is kept of an open.
    pub(crate) fn of(open: &Open<'_>) -> Introduction
        ensures { result ≡ introduction_by open.now }
    {
        let hostname = match string_in(open.hostname) {
            Some(name) => Some(FirstText::of(name)),
            None => None,
        };
        Introduction {
            container_id: FirstText::of(open.container_id.as_bytes()),
            hostname,
            idle_time_out: uint_in(open.idle_time_out),
        }
    }
}

/// The first bytes of a text that a peer chose: at most 255, without a part of a character.
#[derive(Drop)]
pub struct FirstText {
    bytes: [u8; MOST],
    len: usize,
}

impl Model for FirstText {
    ghost use Rattle.std.specs.Prelude.{ℕ, List, ◌≤◌, take};
    ghost use Rattle.std.specs.Str.{IsUtf8};
    ghost use Rattle.amqp_endpoint.specs.FirstTexts.{most_kept};

    ghost Value = { List ℕ };

    ghost view = { λ a. take a.len a.bytes };

    ghost invariant = { λ a. (a.len ≤ most_kept) × IsUtf8 (take a.len a.bytes) };
}

impl FirstText {
    /// Returns what is kept of a text.
    pub(crate) fn of(text: &[u8]) -> FirstText
        ensures { result ≡ first_text text.now }
    {
        let front = first(text, MOST);
        let kept = first(front, text_len(front));
        FirstText {
            bytes: room_of(kept),
            len: kept.len(),
        }
    }

    /// Returns its bytes.
    pub fn as_bytes(&self) -> &[u8]
        ensures { result.now ≡ self.now }
    {
        &self.bytes[..self.len]
    }

    /// Returns it as text.
    pub fn as_str(&self) -> &str
        ensures { result.now ≡ self.now }
    {
        match str::from_utf8(&self.bytes[..self.len]) {
            Ok(text) => text,
            Err(_) => "", // never, since the bytes are whole characters
        }
    }
}

/// Returns the first `most` of these bytes, or all if they are fewer.
fn first(bytes: &[u8], most: usize) -> &[u8]
    ensures { result.now ≡ take most bytes.now }
{
    bytes.get(..most).unwrap_or(bytes)
}

/// Returns room for a text that begins with these bytes.
fn room_of(text: &[u8]) -> [u8; MOST]
    requires { length text.now ≤ most_kept }
    ensures { take (length text.now) result ≡ text.now }
{
    let mut room = [0; MOST];
    room[..text.len()].copy_from_slice(text);
    room
}

/// Returns how many of these bytes are whole characters, from the first on.
fn text_len(bytes: &[u8]) -> usize
    ensures value { result ≡ utf8_valid_len bytes.now }
    ensures bound { result ≤ length bytes.now }
    ensures whole { IsUtf8 (take result bytes.now) }
{
    match str::from_utf8(bytes) {
        Ok(_) => bytes.len(),
        Err(error) => error.valid_up_to(),
    }
}

/// Returns the text of a string, if the bytes spell one.
fn string_in(field: &[u8]) -> Option<&[u8]>
    ensures { option_map (λ b. b.now) result ≡ string_in field.now }
{
    let (code, rest) = field.split_first()?;
    match *code {
        STR8 => {
            let (len, text) = rest.split_first()?;
            text.get(..*len as usize)
        }
        STR32 => {
            let len = front_number(rest)?;
            rest[4..].get(..len as usize)
        }
        _ => None,
    }
}

/// Returns the number of a uint, if the bytes spell one.
fn uint_in(field: &[u8]) -> Option<u32>
    ensures { result ≡ uint_in field.now }
{
    let (code, rest) = field.split_first()?;
    match *code {
        UINT_0 => Some(0),
        SMALL_UINT => Some(*rest.first()? as u32),
        UINT => front_number(rest),
        _ => None,
    }
}

/// Returns the number of the first four bytes, the highest first, if there are as many.
fn front_number(bytes: &[u8]) -> Option<u32>
    ensures { result ≡ number_of_4 bytes.now }
{
    let front = bytes.get(..4)?;
    Some(u32::from_be_bytes([front[0], front[1], front[2], front[3]]))
}
