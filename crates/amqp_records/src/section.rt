//! The sections of a message. [3.2]

ghost use Rattle.std.specs.Prelude.{◌≡◌, ◌<◌, length, None, IfOk, IfSome};

use amqp_dump::LIMITS;
use amqp_types::{Limits, ReadFault, Value, check, decode};
use std::alloc::{AllocError, Global};

/// How much of a section is read: a value as deep and as large as `dump` reads, under a descriptor.
const SECTION_LIMITS: Limits = Limits {
    depth: LIMITS.depth + 1,
    nodes: LIMITS.nodes + 2,
};

/// How many sequences a message may have. An array of many values may take a few bytes, and its text many.
const MOST_SEQUENCES: usize = 8;

/// The kinds of sections, in the order that they have in a message.
#[derive(Clone, Copy, Debug, PartialEq, Eq)]
pub enum SectionKind {
    Header,
    DeliveryAnnotations,
    MessageAnnotations,
    Properties,
    ApplicationProperties,
    Data,
    AmqpSequence,
    AmqpValue,
    Footer,
}

/// The symbols by which descriptors may name the kinds.
const SYMBOLS: [(&str, SectionKind); 9] = [
    ("amqp:header:list", SectionKind::Header),
    (
        "amqp:delivery-annotations:map",
        SectionKind::DeliveryAnnotations,
    ),
    (
        "amqp:message-annotations:map",
        SectionKind::MessageAnnotations,
    ),
    ("amqp:properties:list", SectionKind::Properties),
    (
        "amqp:application-properties:map",
        SectionKind::ApplicationProperties,
    ),
    ("amqp:data:binary", SectionKind::Data),
    ("amqp:amqp-sequence:list", SectionKind::AmqpSequence),
    ("amqp:amqp-value:*", SectionKind::AmqpValue),
    ("amqp:footer:map", SectionKind::Footer),
];

/// A section, borrowed from the message.
#[derive(Clone, Copy, Debug)]
pub struct Section<'a> {
    pub kind: SectionKind,
    /// The bytes of the value that the section's descriptor describes.
    pub value: &'a [u8],
}

impl SectionKind {
    /// Returns the name that the standard gives the kind.
    pub fn name(self) -> &'static str {
        match self {
            SectionKind::Header => "header",
            SectionKind::DeliveryAnnotations => "delivery-annotations",
            SectionKind::MessageAnnotations => "message-annotations",
            SectionKind::Properties => "properties",
            SectionKind::ApplicationProperties => "application-properties",
            SectionKind::Data => "data",
            SectionKind::AmqpSequence => "amqp-sequence",
            SectionKind::AmqpValue => "amqp-value",
            SectionKind::Footer => "footer",
        }
    }

    /// Returns the kind that a descriptor with this number names.
    fn of_code(code: u64) -> Option<SectionKind> {
        match code {
            0x70 => Some(SectionKind::Header),
            0x71 => Some(SectionKind::DeliveryAnnotations),
            0x72 => Some(SectionKind::MessageAnnotations),
            0x73 => Some(SectionKind::Properties),
            0x74 => Some(SectionKind::ApplicationProperties),
            0x75 => Some(SectionKind::Data),
            0x76 => Some(SectionKind::AmqpSequence),
            0x77 => Some(SectionKind::AmqpValue),
            0x78 => Some(SectionKind::Footer),
            _ => None,
        }
    }

    /// Returns the kind that a descriptor with this symbol names.
    // By a table: a match over texts is proved byte by byte, which took a quarter of the crate's proof.
    fn of_symbol(symbol: &[u8]) -> Option<SectionKind> {
        for (name, kind) in &SYMBOLS {
            if name.as_bytes() == symbol {
                return Some(*kind);
            }
        }
        None
    }

    /// Returns the names of the section's fields; none for a kind without fields.
    pub fn fields(self) -> &'static [&'static str] {
        match self {
            SectionKind::Header => &HEADER_FIELDS,
            SectionKind::Properties => &PROPERTIES_FIELDS,
            _ => &[],
        }
    }

    /// Returns whether a section of this kind may follow one of another. No kind comes twice, except data after
    /// data and a sequence after a sequence, and the kinds of a body don't mix.
    fn may_follow(self, before: SectionKind) -> bool {
        match (before, self) {
            (SectionKind::Data, SectionKind::Data) => true,
            (SectionKind::AmqpSequence, SectionKind::AmqpSequence) => true,
            _ => before.rank() < self.rank(),
        }
    }

    /// Returns the place of a kind in a message; the kinds of a body have one place.
    fn rank(self) -> u8 {
        match self {
            SectionKind::Header => 0,
            SectionKind::DeliveryAnnotations => 1,
            SectionKind::MessageAnnotations => 2,
            SectionKind::Properties => 3,
            SectionKind::ApplicationProperties => 4,
            SectionKind::Data | SectionKind::AmqpSequence | SectionKind::AmqpValue => 5,
            SectionKind::Footer => 6,
        }
    }
}

/// The fields of a header. [3.2.1]
const HEADER_FIELDS: [&str; 5] = [
    "durable",
    "priority",
    "ttl",
    "first-acquirer",
    "delivery-count",
];

/// The fields of properties. [3.2.4]
const PROPERTIES_FIELDS: [&str; 13] = [
    "message-id",
    "user-id",
    "to",
    "subject",
    "reply-to",
    "correlation-id",
    "content-type",
    "content-encoding",
    "absolute-expiry-time",
    "creation-time",
    "group-id",
    "group-sequence",
    "reply-to-group-id",
];

impl<'a> Section<'a> {
    /// Returns whether the value has the type of its section.
    fn fits(&self) -> bool {
        match self.kind {
            SectionKind::Header | SectionKind::Properties => {
                is_list(self.value) && count_in(self.value) <= self.kind.fields().len()
            }
            SectionKind::Data => is_binary(self.value),
            SectionKind::AmqpSequence => is_list(self.value),
            SectionKind::AmqpValue => true,
            _ => is_map(self.value),
        }
    }

    /// Returns the bytes of a data section.
    pub fn data(&self) -> &'a [u8] {
        let size = match self.value.first() {
            Some(0xa0) => 1,
            _ => 4,
        };
        self.value.get(1 + size..).unwrap_or(&[])
    }
}

/// Returns whether a value is a list, by its code. [1.6]
fn is_list(value: &[u8]) -> bool {
    matches!(value.first(), Some(0x45 | 0xc0 | 0xd0))
}

fn is_map(value: &[u8]) -> bool {
    matches!(value.first(), Some(0xc1 | 0xd1))
}

fn is_binary(value: &[u8]) -> bool {
    matches!(value.first(), Some(0xa0 | 0xb0))
}

/// Returns how many items a list has.
fn count_in(list: &[u8]) -> usize {
    match *list {
        [0xc0, _, count, ..] => count as usize,
        [0xd0, _, _, _, _, a, b, c, d, ..] => u32::from_be_bytes([a, b, c, d]) as usize,
        _ => 0,
    }
}

/// Returns the sections of a message, in order, or `None` if its bytes are not sections. Sections are values that
/// are described as such, each of its type, in the order of the standard, within the limits of `dump`. At most
/// [`MOST_SEQUENCES`] of them are sequences.
pub fn sections(alloc: Global, message: &[u8]) -> Result<Option<Vec<Section<'_>>>, AllocError> {
    let mut found: Vec<Section<'_>> = Vec::new(alloc);
    let mut rest = message;
    while !rest.is_empty() {
        let Some((section, behind)) = section_at(alloc, rest)? else {
            return Ok(None);
        };
        if !may_stand_behind(section.kind, &found) {
            return Ok(None);
        }
        found.push(section)?;
        rest = behind;
    }
    Ok(Some(found))
}

/// Returns whether a section of this kind may follow these.
fn may_stand_behind(kind: SectionKind, found: &[Section<'_>]) -> bool {
    let Some(last) = found.last() else {
        return true;
    };
    kind.may_follow(last.kind)
        && (kind != SectionKind::AmqpSequence || sequences_in(found) < MOST_SEQUENCES)
}

/// Returns how many sequences there are.
fn sequences_in(found: &[Section<'_>]) -> usize {
    found
        .iter()
        .filter(|section| section.kind == SectionKind::AmqpSequence)
        .count()
}

/// Returns the section at the front, and the bytes after it.
fn section_at(alloc: Global, bytes: &[u8]) -> Result<Option<(Section<'_>, &[u8])>, AllocError>
    ensures { IfOk result (λ found. IfSome found (λ s. length s.1.now < length bytes.now)) }
{
    let Some((0, described)) = bytes.split_first() else {
        return Ok(None);
    };
    let len = match check(alloc, bytes, SECTION_LIMITS) {
        Ok(len) => len,
        Err(fault) => return none_for(fault),
    };
    let (kind, width) = match decode(alloc, described, LIMITS) {
        Ok((descriptor, width)) => (kind_of(&descriptor), width),
        Err(fault) => return none_for(fault),
    };
    let Some(kind) = kind else {
        return Ok(None);
    };
    if len <= width {
        return Ok(None); // never: the descriptor lies within
    }
    let (section, behind) = bytes.split_at(len);
    let value = &section[1 + width..];
    let section = Section { kind, value };
    if section.fits() {
        Ok(Some((section, behind)))
    } else {
        Ok(None)
    }
}

/// Returns what a value that can't be read results in: `None`, or an error if memory was refused.
fn none_for<T>(fault: ReadFault) -> Result<Option<T>, AllocError>
    ensures { IfOk result (λ found. found ≡ None) }
{
    match fault {
        ReadFault::NoMemory => Err(AllocError),
        _ => Ok(None),
    }
}

/// Returns the kind that a descriptor names.
fn kind_of(descriptor: &Value) -> Option<SectionKind> {
    match descriptor {
        Value::Ulong(code) => SectionKind::of_code(*code),
        Value::Symbol(symbol) => SectionKind::of_symbol(symbol.as_bytes()),
        _ => None,
    }
}
