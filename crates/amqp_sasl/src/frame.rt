//! How far a frame of the SASL layer has come. [5.3.1]
ghost use Rattle.std.specs.Prelude.{◌≡◌, ◌≤◌, ◌*◌, length, drop};
ghost use Rattle.amqp_frame.specs.Units.{size_of, offset_of, body_of};
ghost use Rattle.amqp_sasl.specs.Frames.{progress_of};

use byteorder::{BigEndian, ByteOrder};

/// How far a frame has come.
#[derive(Clone, Copy)]
pub enum Progress {
    /// Less than a frame.
    Short,
    /// No frame: a SIZE below 8 or without room, a DOFF below 2 or behind the end, or a TYPE other than 1.
    Bad,
    /// A whole frame.
    Whole,
}

/// Returns SIZE, whose four bytes are there.
#[tactic(auto, unfolding(amqp_frame::specs::Units::size_of))]
fn size_in(bytes: &[u8]) -> usize
    requires { 4 ≤ length bytes.now }
    ensures { result ≡ size_of bytes.now }
{
    BigEndian::read_u32(bytes) as usize
}

/// Returns how far the frame has come that these bytes begin with, and for which there is this room.
#[tactic(auto, unfolding(crate::specs::Frames::progress_of))]
pub fn progress_of(room: usize, bytes: &[u8]) -> Progress
    ensures { result ≡ progress_of room bytes.now }
{
    if bytes.len() < 4 {
        return Progress::Short;
    }
    let size = size_in(bytes);
    if size < 8 || size > room {
        return Progress::Bad;
    }
    if bytes.len() < 8 {
        return Progress::Short;
    }
    let place = 4 * bytes[4] as usize;
    if bytes[4] < 2 || place > size || bytes[5] != 1 {
        return Progress::Bad;
    }
    if bytes.len() < size {
        return Progress::Short;
    }
    Progress::Whole
}

/// Returns the body of a whole frame, which begins where DOFF says.
pub fn body_of(frame: &[u8]) -> &[u8]
    ensures { result.now ≡ body_of frame.now }
{
    let offset = frame.get(4).copied().unwrap_or(0);
    frame.get(4 * offset as usize..).unwrap_or(&[])
}
