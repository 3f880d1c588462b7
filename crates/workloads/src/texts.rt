//! Captures that take work to print, dumped: texts of which some bytes are printed as escapes, and values that have to be gone
//! through to see that they are lawful.

use crate::desk::Desk;
use crate::dumped::{dump_bytes, dump_faulty};
use crate::failure::Failure;
use crate::numbers::Numbers;
use crate::peer::Peer;
use std::alloc::{AllocError, Global};

/// How many texts a frame has.
const TEXTS: u32 = 8;

/// How long the texts are.
const LENGTHS: [u32; 6] = [1, 8, 16, 64, 255, 4096];

/// This many keys has a map.
const KEYS: u8 = 24;

/// This many lists stand in each other below the map, the list of the open's fields and its descriptor.
const LEVELS: u32 = 29;

/// The descriptors of an open and an attach.
const OPEN: u8 = 0x10;

const ATTACH: u8 = 0x12;

/// The open before its capabilities: container, hostname, frame size, channels, and nothing of four fields.
const OPEN_FRONT: &[u8] = b"\xa1\x06sender\x40\x70\x00\x01\x00\x00\x60\x00\xff\x40\x40\x40";

/// What a text is of.
#[derive(Clone, Copy)]
pub enum Writing {
    Plain,
    Json,
    Paths,
    Lines,
    German,
    Chinese,
    Quotes8,
    Quotes16,
    Quotes32,
}

const WRITINGS: [Writing; 9] = [
    Writing::Plain,
    Writing::Json,
    Writing::Paths,
    Writing::Lines,
    Writing::German,
    Writing::Chinese,
    Writing::Quotes8,
    Writing::Quotes16,
    Writing::Quotes32,
];

impl Writing {
    fn name(self) -> &'static str {
        match self {
            Writing::Plain => "plain",
            Writing::Json => "json",
            Writing::Paths => "paths",
            Writing::Lines => "lines",
            Writing::German => "german",
            Writing::Chinese => "chinese",
            Writing::Quotes8 => "quotes8",
            Writing::Quotes16 => "quotes16",
            Writing::Quotes32 => "quotes32",
        }
    }

    /// Returns what follows in turn.
    fn words(self) -> &'static [&'static str] {
        match self {
            Writing::Plain => &["A pump ", "of a plant ", "ran for ", "two hours. "],
            Writing::Json => &[
                "{\"id\":1047,",
                "\"name\":\"pump 7\",",
                "\"on\":true,\"at\":",
                "\"2026-11-27\"},",
            ],
            Writing::Paths => &["C:\\plant\\", "pumps\\north\\", "log\\", "november\\"],
            Writing::Lines => &[
                "A pump of a plant ran for two hours.\n",
                "It stopped.\n",
                "Nobody was there to see why it did so, or when.\n",
            ],
            Writing::German => &[
                "Die Kühlung ",
                "läuft für ",
                "größere ",
                "Räume, ",
                "sonst nie. ",
            ],
            Writing::Chinese => &["水", "泵", "在", "运", "行", "时", "停"],
            Writing::Quotes8 => &["seven 7\""],
            Writing::Quotes16 => &["fifteen of them\""],
            Writing::Quotes32 => &["thirty-one of them and one more\""],
        }
    }
}

/// What a frame has.
#[derive(Clone, Copy)]
pub enum Values {
    /// An attach with the outcomes of its source.
    Outcomes,
    /// An open with capabilities.
    Capabilities,
    BinaryKeys,
    /// A map with keys of several kinds.
    MixedKeys,
    /// A map of which the last key is equal to the first.
    EqualKeys,
    /// An array of lists.
    Lists,
    /// Lists in lists, as deep as a dump allows.
    Deep,
}

const VALUES: [Values; 7] = [
    Values::Outcomes,
    Values::Capabilities,
    Values::BinaryKeys,
    Values::MixedKeys,
    Values::EqualKeys,
    Values::Lists,
    Values::Deep,
];

impl Values {
    fn name(self) -> &'static str {
        match self {
            Values::Outcomes => "outcomes",
            Values::Capabilities => "capabilities",
            Values::BinaryKeys => "binary-keys",
            Values::MixedKeys => "mixed-keys",
            Values::EqualKeys => "equal-keys",
            Values::Lists => "lists",
            Values::Deep => "deep",
        }
    }
}

/// A part of the job.
#[derive(Clone, Copy)]
pub enum Part {
    Texts(Writing, u32),
    Values(Values),
}

/// The part of this name and length.
pub fn part_of(name: &str, length: u32) -> Option<Part> {
    for writing in WRITINGS {
        if writing.name() == name {
            return Some(Part::Texts(writing, length.min(4096)));
        }
    }
    for values in VALUES {
        if values.name() == name {
            return Some(Part::Values(values));
        }
    }
    None
}

/// Dumps captures of all parts.
pub fn run(desk: &mut Desk) -> Result<(), Failure> {
    for writing in WRITINGS {
        for length in LENGTHS {
            run_part(desk, Part::Texts(writing, length), 1)?;
        }
    }
    for values in VALUES {
        run_part(desk, Part::Values(values), 1)?;
    }
    Ok(())
}

/// Dumps a capture of one part this many times.
pub fn run_part(desk: &mut Desk, part: Part, times: u32) -> Result<(), Failure> {
    let alloc = desk.alloc;
    desk.peer.bytes.clear();
    desk.peer.open(&[])?;
    match part {
        Part::Texts(writing, length) => {
            for _ in 0..frames_of(length) {
                let texts = texts(alloc, &mut desk.numbers, writing, length)?;
                desk.peer.open_frame(&texts)?;
            }
        }
        Part::Values(values) => {
            for _ in 0..frames_with(values) {
                put_values(alloc, &mut desk.peer, &mut desk.numbers, values)?;
            }
        }
    }
    for _ in 0..times {
        match part {
            Part::Values(Values::EqualKeys) => {
                dump_faulty(alloc, &desk.peer.bytes, &mut desk.answers)?;
            }
            _ => dump_bytes(alloc, &desk.peer.bytes, &mut desk.answers)?,
        }
    }
    Ok(())
}

/// Returns how many frames with texts of this length make a capture.
fn frames_of(length: u32) -> u32 {
    match length {
        0..64 => 24,
        64..1024 => 8,
        _ => 1,
    }
}

/// Returns how many frames with such values make a capture.
fn frames_with(values: Values) -> u32 {
    match values {
        // The first one ends the dump.
        Values::EqualKeys => 1,
        _ => 16,
    }
}

/// Returns a map of some texts.
fn texts(
    alloc: Global,
    numbers: &mut Numbers,
    writing: Writing,
    length: u32,
) -> Result<Vec<u8>, AllocError> {
    let mut items = Vec::new(alloc);
    for number in 0..TEXTS {
        items.extend_from_slice(&[0xa3, 1, 0x61 + (number & 7) as u8, 0xb1])?;
        items.extend_from_slice(&length.to_be_bytes())?;
        put_text(&mut items, numbers, writing, length)?;
    }
    map_of(alloc, TEXTS, &items)
}

/// Appends a text of this length: its words in turn from any one on, and spaces where no whole word fits.
fn put_text(
    items: &mut Vec<u8>,
    numbers: &mut Numbers,
    writing: Writing,
    length: u32,
) -> Result<(), AllocError> {
    let words = writing.words();
    let mut left = length as usize;
    let from = numbers.below((words.len() & 0xff) as u32) as usize;
    // Each word has a byte at least.
    for number in 0..left {
        let at = from.saturating_add(number).checked_rem(words.len());
        let word = words.get(at.unwrap_or(0)).copied().unwrap_or("");
        if word.len() > left {
            break;
        }
        items.extend_from_slice(word.as_bytes())?;
        left = left.saturating_sub(word.len());
    }
    for _ in 0..left {
        items.push(b' ')?;
    }
    Ok(())
}

/// Returns a map of this many keys and values.
fn map_of(alloc: Global, keys: u32, items: &[u8]) -> Result<Vec<u8>, AllocError> {
    sized(alloc, 0xd1, keys.wrapping_mul(2), items)
}

/// Returns a list, a map or an array of 32 bits with these bytes after its count.
fn sized(alloc: Global, code: u8, count: u32, items: &[u8]) -> Result<Vec<u8>, AllocError> {
    let size = ((items.len() as u64).wrapping_add(4) & 0xffff_ffff) as u32;
    let mut value = Vec::from_slice(alloc, &[code])?;
    value.extend_from_slice(&size.to_be_bytes())?;
    value.extend_from_slice(&count.to_be_bytes())?;
    value.extend_from_slice(items)?;
    Ok(value)
}

/// Appends a frame with such values.
fn put_values(
    alloc: Global,
    peer: &mut Peer,
    numbers: &mut Numbers,
    values: Values,
) -> Result<(), Failure> {
    match values {
        Values::Outcomes => peer.list(0, ATTACH, 6, &outcomes(alloc)?),
        Values::Capabilities => peer.list(0, OPEN, 8, &capabilities(alloc)?),
        Values::BinaryKeys => peer.open_frame(&binary_keys(alloc)?),
        Values::MixedKeys => peer.open_frame(&mixed_keys(alloc, false)?),
        Values::EqualKeys => peer.open_frame(&mixed_keys(alloc, true)?),
        Values::Lists => peer.open_frame(&lists(alloc)?),
        Values::Deep => peer.open_frame(&deep(alloc, numbers)?),
    }
}

/// Returns the fields of an attach with the outcomes of its source.
fn outcomes(alloc: Global) -> Result<Vec<u8>, AllocError> {
    let mut fields = Vec::from_slice(alloc, b"\xa1\x04link\x43\x42\x50\x02\x50\x00")?;
    // The source: seven fields that say nothing, a distribution mode among them, the default outcome, the outcomes.
    let mut source = Vec::from_slice(
        alloc,
        b"\xa1\x05queue\x43\x40\x43\x42\x40\x40\x40\x00\x53\x26\x45",
    )?;
    source.extend_from_slice(&symbols(
        alloc,
        &[
            "amqp:accepted:list",
            "amqp:rejected:list",
            "amqp:released:list",
            "amqp:modified:list",
        ],
    )?)?;
    fields.extend_from_slice(&[0, 0x53, 0x28])?;
    fields.extend_from_slice(&sized(alloc, 0xd0, 10, &source)?)?;
    Ok(fields)
}

/// Returns the fields of an open with capabilities.
fn capabilities(alloc: Global) -> Result<Vec<u8>, AllocError> {
    let mut fields = Vec::from_slice(alloc, OPEN_FRONT)?;
    fields.extend_from_slice(&symbols(
        alloc,
        &[
            "ANONYMOUS-RELAY",
            "DELAYED_DELIVERY",
            "SHARED-SUBS",
            "sole-connection",
        ],
    )?)?;
    Ok(fields)
}

/// Returns a map with binary keys.
fn binary_keys(alloc: Global) -> Result<Vec<u8>, AllocError> {
    let mut items = Vec::new(alloc);
    for number in 0..KEYS {
        items.extend_from_slice(&[0xa0, 4, b'k', b'e', b'y', number, 0x55, 7])?;
    }
    map_of(alloc, KEYS as u32, &items)
}

/// Returns a map with keys of several kinds, the first of them again at its end if so asked.
fn mixed_keys(alloc: Global, again: bool) -> Result<Vec<u8>, AllocError> {
    let mut items = Vec::new(alloc);
    for number in 0..KEYS {
        put_key(&mut items, number)?;
        items.extend_from_slice(&[0x55, 7])?;
    }
    let mut keys = KEYS as u32;
    if again {
        put_key(&mut items, 0)?;
        items.extend_from_slice(&[0x55, 7])?;
        keys = keys.wrapping_add(1);
    }
    map_of(alloc, keys, &items)
}

/// Returns a map of one key to an array of lists.
fn lists(alloc: Global) -> Result<Vec<u8>, AllocError> {
    let mut items = Vec::from_slice(alloc, &[0xc0])?;
    for number in 0..KEYS {
        items.extend_from_slice(&[7, 3, 0x52, number, 0x41, 0xa1, 1, b'x'])?;
    }
    let lists = sized(alloc, 0xf0, KEYS as u32, &items)?;
    property(alloc, &lists)
}

/// Returns a map of one key to lists in lists.
fn deep(alloc: Global, numbers: &mut Numbers) -> Result<Vec<u8>, AllocError> {
    let mut value = Vec::from_slice(alloc, &[0x52, (numbers.below(200) & 0xff) as u8])?;
    for _ in 0..LEVELS {
        value = sized(alloc, 0xd0, 1, &value)?;
    }
    property(alloc, &value)
}

/// Returns an array of symbols.
fn symbols(alloc: Global, texts: &[&str]) -> Result<Vec<u8>, AllocError> {
    let mut items = Vec::from_slice(alloc, &[0xa3])?;
    for text in texts {
        items.push((text.len() & 0x7f) as u8)?;
        items.extend_from_slice(text.as_bytes())?;
    }
    sized(alloc, 0xf0, (texts.len() & 0xff) as u32, &items)
}

/// Returns a map of one key to this value.
fn property(alloc: Global, value: &[u8]) -> Result<Vec<u8>, AllocError> {
    let mut items = Vec::from_slice(alloc, b"\xa3\x05value")?;
    items.extend_from_slice(value)?;
    map_of(alloc, 1, &items)
}

/// Appends a key: a symbol, a string, an unsigned or a signed number.
fn put_key(items: &mut Vec<u8>, number: u8) -> Result<(), AllocError> {
    match number % 4 {
        0 => items.extend_from_slice(&[0xa3, 4, b'k', b'e', b'y', 0x40 + number % 32]),
        1 => items.extend_from_slice(&[0xa1, 4, b'k', b'e', b'y', 0x40 + number % 32]),
        2 => items.extend_from_slice(&[0x53, number]),
        _ => items.extend_from_slice(&[0x55, number]),
    }
}
