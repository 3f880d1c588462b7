//! What a stream is made of, and how far a frame has come.
ghost use Rattle.std.specs.Prelude.{◌≡◌, ◌*◌, ◌≤◌, ◌↔◌, length, IsTrue};
ghost use Rattle.amqp_frame.specs.Units.{size_of};
ghost use Rattle.amqp_frame.specs.Splits.{IsHeld, IsProgress, IsWholeFront};

use byteorder::{BigEndian, ByteOrder};

/// The protocol header of AMQP 1.0 without a security layer. [2.2]
pub const HEADER: [u8; 8] = [0x41, 0x4d, 0x51, 0x50, 0, 1, 0, 0];

/// How many bytes the fixed part of a frame's header has. [2.3.1]
const FRAME_HEADER: usize = 8;

/// Why the bytes at a frame's place are no frame. [2.3.1]
#[derive(Clone, Copy, Debug, PartialEq, Eq)]
pub enum FrameFault {
    /// SIZE is below the eight bytes of a frame header. It shows at the fourth byte.
    TooSmall,
    /// SIZE is above the largest frame that is accepted. It shows at the fourth byte.
    TooLarge,
    /// DOFF is below 2, or the body would begin after the frame's end. It shows at the eighth byte.
    BadOffset,
    /// TYPE is not 0, that of an AMQP frame. It shows at the eighth byte.
    BadType,
}

impl FrameFault {
    /// Returns the name of the fault.
    pub fn name(self) -> &'static str {
        match self {
            FrameFault::TooSmall => "TooSmall",
            FrameFault::TooLarge => "TooLarge",
            FrameFault::BadOffset => "BadOffset",
            FrameFault::BadType => "BadType",
        }
    }
}

/// A whole frame, borrowed from the buffer that it came in. [2.3.1]
#[derive(Clone, Copy, Debug)]
pub struct Frame<'a> {
    /// The channel number.
    pub channel: u16,
    /// What follows the extended header. It may be empty.
    pub body: &'a [u8],
}

/// What is due next in a stream.
#[derive(Clone, Copy, Debug, PartialEq, Eq)]
pub enum Stage {
    /// The eight bytes of the protocol header.
    Header,
    /// A frame.
    Frames,
    /// Nothing: the header that came is not [`HEADER`].
    Refused,
    /// Nothing: this fault came in a frame's place.
    Faulty(FrameFault),
}

/// How far a frame has come.
#[derive(Clone, Copy)]
pub enum Progress {
    /// Less than a frame: this many more bytes are wanted before it is judged again.
    Wants(usize),
    /// A whole frame.
    Whole,
    /// No frame: it has this fault.
    Fails(FrameFault),
}

impl Progress {
    /// No byte of the frame has come.
    pub const START: Progress = Progress::Wants(4);
}

/// Returns SIZE, whose four bytes are there.
#[tactic(auto, unfolding(crate::specs::Units::size_of))]
fn size_in(bytes: &[u8]) -> usize
    requires { 4 ≤ length bytes.now }
    ensures { result ≡ size_of bytes.now }
{
    BigEndian::read_u32(bytes) as usize
}

/// Judges SIZE once its four bytes are there, and DOFF and TYPE once all eight are.
pub fn progress_of(max: usize, bytes: &[u8]) -> Progress
    requires least { 8 ≤ max }
    requires held { IsHeld max Stage.Frames bytes.now }
    ensures { IsProgress max bytes.now result }
{
    if bytes.len() < 4 {
        return Progress::Wants(4 - bytes.len());
    }
    let size = size_in(bytes);
    if size < FRAME_HEADER {
        return Progress::Fails(FrameFault::TooSmall);
    }
    if size > max {
        return Progress::Fails(FrameFault::TooLarge);
    }
    if bytes.len() < FRAME_HEADER {
        return Progress::Wants(FRAME_HEADER - bytes.len());
    }
    let place = 4 * bytes[4] as usize;
    if place < FRAME_HEADER || place > size {
        return Progress::Fails(FrameFault::BadOffset);
    }
    if bytes[5] != 0 {
        return Progress::Fails(FrameFault::BadType);
    }
    if bytes.len() < size {
        return Progress::Wants(size - bytes.len());
    }
    Progress::Whole
}

/// Returns SIZE of the whole frame at the front of these bytes, if one is there.
pub fn whole_size(max: usize, bytes: &[u8]) -> Option<usize>
    ensures { IsWholeFront max bytes.now result }
{
    if bytes.len() < FRAME_HEADER {
        return None;
    }
    let size = size_in(bytes);
    if size <= bytes.len() && is_lawful(max, size, bytes[4], bytes[5]) {
        Some(size)
    } else {
        None
    }
}

/// Whether SIZE is accepted, DOFF is within it, and TYPE is that of an AMQP frame.
fn is_lawful(max: usize, size: usize, offset: u8, kind: u8) -> bool
    ensures { IsTrue result ↔ ((size ≤ max) × (2 ≤ offset) × (4 * offset ≤ size) × (kind ≡ 0)) }
{
    size <= max && offset >= 2 && 4 * offset as usize <= size && kind == 0
}
