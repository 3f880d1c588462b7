//! The names of the files in the directory of a spool.
ghost use Rattle.std.specs.Prelude.{◌≡◌, ℕ, ◌<◌, ◌^◌, List, Some, IfSome};
ghost use Rattle.amqp_spool.specs.FileNames.{segment_name, position_name};
ghost use Rattle.amqp_spool.specs.Positions.{IsName};

use crate::consumer_name::ConsumerName;
use std::fmt::{self, Formatter};

/// How many digits the name of a segment has.
const DIGITS: usize = 20;

/// A file in the directory of a spool, or a directory, seen from there. It is displayed as its name; one of a consumer as
/// the end of its name, after a star.
#[derive(Clone, Copy, Debug, PartialEq, Eq)]
pub enum FileName {
    /// `.`, the directory itself.
    Dir,
    /// `..`, the directory that it is in.
    Parent,
    /// `lock`, which the one gateway holds.
    Lock,
    /// `next.tmp`, the segment that is being made.
    NextTmp,
    /// `FIRST.seg` in 20 digits, the segment whose first record has this number.
    Segment(u64),
    /// `floor.tmp`, the floor that is being made.
    FloorTmp,
    /// `floor`, which says up to which number segments may be missing.
    Floor,
    /// `end`, which says how far the spool may be read.
    End,
    /// `reserve`, which is given up if the disk is full.
    Reserve,
    /// `consumers.lock`, which is held by whoever adds or removes a consumer, or removes segments.
    Consumers,
    /// `*.at`, the position of some consumer.
    Position,
    /// `*.at.tmp`, a position that is being made.
    PositionTmp,
    /// `*.at.lock`, which is held by the one who moves a position.
    PositionLock,
}

impl fmt::Display for FileName {
    ghost use Rattle.amqp_spool.specs.FileNames.{file_name};

    ghost output = { λ name. Some (file_name name) };

    fn fmt<W: fmt::Write>(&self, f: &mut Formatter<W>) -> fmt::Result {
        match *self {
            FileName::Dir => f.write_str("."),
            FileName::Parent => f.write_str(".."),
            FileName::Lock => f.write_str("lock"),
            FileName::NextTmp => f.write_str("next.tmp"),
            FileName::Segment(first) => write!(f, "{first:020}.seg"),
            FileName::FloorTmp => f.write_str("floor.tmp"),
            FileName::Floor => f.write_str("floor"),
            FileName::End => f.write_str("end"),
            FileName::Reserve => f.write_str("reserve"),
            FileName::Consumers => f.write_str("consumers.lock"),
            FileName::Position => f.write_str("*.at"),
            FileName::PositionTmp => f.write_str("*.at.tmp"),
            FileName::PositionLock => f.write_str("*.at.lock"),
        }
    }
}

/// Returns the number of the first record of the segment that has this name. Returns `None` if no segment has it.
pub(crate) fn first_in(name: &str) -> Option<u64>
    ensures is { IfSome result (λ first. name.now ≡ segment_name first) }
    ensures found { (first : ℕ) → first < 2 ^ 64 → name.now ≡ segment_name first → result ≡ Some first }
{
    let digits = name.strip_suffix(".seg")?;
    if digits.len() != DIGITS || digits.starts_with('+') {
        return None;
    }
    digits.parse::<u64>().ok()
}

/// Returns the consumer whose position has this name. Returns `None` if no consumer's has it.
pub(crate) fn consumer_in(name: &str) -> Option<ConsumerName>
    ensures is { IfSome result (λ consumer. name.now ≡ position_name consumer) }
    ensures found { (consumer : List ℕ) → IsName consumer → name.now ≡ position_name consumer → result ≡ Some consumer }
{
    ConsumerName::of(name.strip_suffix(".at")?)
}
