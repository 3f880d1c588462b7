//! What is told of a segment that is damaged.

ghost use Rattle.std.specs.Prelude.{◌≡◌, string_bytes, IfOk};
ghost use Rattle.amqp_spool_records.specs.Damages.{damage_text, missing_text};

use amqp_spool::FileName;
use std::alloc::{AllocError, Global};

/// What can't be read of a segment.
#[derive(Clone, Copy, Debug, PartialEq, Eq)]
pub struct Damage {
    /// The number in the segment's name.
    pub first: u64,
    /// Where it breaks off, in bytes from its begin.
    pub place: u64,
    /// The number of the first record that can't be had.
    pub from: u64,
    /// That of the one after the last of them, if it is known.
    pub next: Option<u64>,
}

/// Returns the line that tells it: `fault: SEGMENT PLACE Damaged, A to B are missing`.
pub fn damage_text(alloc: Global, damage: &Damage) -> Result<String, AllocError>
    ensures { IfOk result (λ text. string_bytes text ≡ damage_text damage.now) }
{
    let name = FileName::Segment(damage.first);
    let place = damage.place;
    let missing = missing_text(alloc, damage.from, damage.next)?;
    format!(in alloc; "fault: {name} {place} Damaged, {missing}\n")
}

/// Returns which numbers are missing, from this one on up to the one before `next`, if that is known.
fn missing_text(alloc: Global, from: u64, next: Option<u64>) -> Result<String, AllocError>
    ensures { IfOk result (λ text. string_bytes text ≡ missing_text from next) }
{
    match next {
        None => format!(in alloc; "{from} and all after it are missing"),
        Some(next) if from < next => {
            let to = next - 1;
            format!(in alloc; "{from} to {to} are missing")
        }
        Some(_) => String::from_str(alloc, "none is missing"),
    }
}
