//! A record: a head, and a message.

ghost use Rattle.std.specs.Prelude.{◌≡◌, ◌≤◌, length};
ghost use Rattle.amqp_records.specs.Records.{said, front_of, channel_of, handle_of, id_of, format_of, message_of};

use byteorder::{BigEndian, ByteOrder};

/// How many bytes the head of a record has: channel (2), handle, delivery-id, message-format and the length of the
/// message (4 each), all big-endian.
pub const HEAD: usize = 18;

/// Where the length of the message is in a head.
const LENGTH: usize = 14;

/// What is at the front of some bytes.
#[derive(Clone, Copy, Debug, PartialEq, Eq)]
pub enum Front {
    /// A whole record, of this many bytes.
    Whole(usize),
    /// Less than a record.
    Partial,
    /// A record whose message is longer than is allowed.
    TooLong,
}

/// Returns what is at the front of the bytes, if messages have at most `max_message` bytes.
pub fn front_of(bytes: &[u8], max_message: u32) -> Front
    ensures { result ≡ front_of max_message bytes.now }
{
    if bytes.len() < HEAD {
        return Front::Partial;
    }
    let message = message_len(bytes);
    if message > max_message {
        return Front::TooLong;
    }
    let len = HEAD + message as usize;
    if bytes.len() < len {
        return Front::Partial;
    }
    Front::Whole(len)
}

/// Returns the length of the message, in bytes, that a record's head gives.
pub fn message_len(bytes: &[u8]) -> u32
    requires { HEAD ≤ length bytes.now }
    ensures { result ≡ said bytes.now }
{
    BigEndian::read_u32(&bytes[LENGTH..])
}

/// A record, borrowed from its bytes.
#[derive(Clone, Copy, Debug)]
pub struct Record<'a> {
    pub channel: u16,
    pub handle: u32,
    pub delivery_id: u32,
    pub message_format: u32,
    pub message: &'a [u8],
}

/// Returns the record that these bytes are.
pub fn record_in(bytes: &[u8]) -> Record<'_>
    requires { HEAD ≤ length bytes.now }
    ensures channel { result.channel ≡ channel_of bytes.now }
    ensures handle { result.handle ≡ handle_of bytes.now }
    ensures id { result.delivery_id ≡ id_of bytes.now }
    ensures format { result.message_format ≡ format_of bytes.now }
    ensures message { result.message.now ≡ message_of bytes.now }
{
    Record {
        channel: BigEndian::read_u16(bytes),
        handle: BigEndian::read_u32(&bytes[2..]),
        delivery_id: BigEndian::read_u32(&bytes[6..]),
        message_format: BigEndian::read_u32(&bytes[10..]),
        message: &bytes[HEAD..],
    }
}
