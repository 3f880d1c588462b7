//! How far a segment counts.

ghost use Rattle.std.specs.Prelude.{◌≡◌, ◌≢◌, Some, None};
ghost use Rattle.amqp_spool_records.specs.declared.extents.Extent.{Extent};
ghost use Rattle.amqp_spool.specs.declared.head.Head.{Head};
ghost use Rattle.amqp_spool.specs.declared.end.End.{End};
ghost use Rattle.amqp_spool_records.specs.Extents.{extent_before, extent_by, extent_unread, extent_followed};

use amqp_spool::{End, HEAD, Head};

/// How far a segment counts.
#[derive(Clone, Copy, Debug, PartialEq, Eq)]
pub struct Extent {
    /// How many of its bytes count. Without it the whole batches do.
    pub bytes: Option<u64>,
    /// The number of the record after its last. Without it none is known.
    pub next: Option<u64>,
}

/// What says how far a segment counts.
#[derive(Clone, Copy, Debug, PartialEq, Eq)]
pub enum Reach {
    /// So far, as the head of the one after it says.
    Counted(Extent),
    /// The newest, for one that goes through once: as the published end says. Without an end the whole batches count.
    Whole(Option<End>),
    /// The newest, for one that follows: as the published end says. Without an end nothing counts yet.
    Published(Option<End>),
}

impl Reach {
    /// Returns how far the segment that begins with the record `first` counts, whose head has this sum, if it can be
    /// read. Returns `None` if that is not known yet.
    pub fn extent(self, first: u64, mark: Option<u64>) -> Option<Extent> {
        match self {
            Reach::Counted(extent) => Some(extent),
            Reach::Whole(end) => Some(match mark {
                Some(mark) => extent_by(first, mark, end),
                None => extent_unread(first, end),
            }),
            Reach::Published(end) => extent_followed(first, mark, end),
        }
    }

    /// Returns the number that is due after the segment; 0 if it is not known.
    pub fn next(self) -> u64 {
        let next = match self {
            Reach::Counted(extent) => extent.next,
            Reach::Whole(end) | Reach::Published(end) => end.map(|end| end.next),
        };
        next.unwrap_or(0)
    }
}

/// Returns how far the segment that begins with the record `first` counts, if another with this head comes after it, which
/// has the number `newer` in its name: as far as that head says, if it speaks of this one.
pub fn extent_before(first: u64, newer: u64, head: Option<Head>) -> Extent
    ensures { result ≡ extent_before first newer head }
{
    let bytes = match head {
        Some(head) if head.before == first => Some(head.counted),
        _ => None,
    };
    Extent {
        bytes,
        next: Some(newer),
    }
}

/// Returns how far the newest segment counts, whose head this is, with this sum: as far as the published end says, if it
/// speaks of this one. If it speaks of one that is newer and not there, the whole batches count, and if it speaks of one
/// that was there before, nothing does.
pub fn extent_by(first: u64, mark: u64, end: Option<End>) -> Extent
    ensures { result ≡ extent_by first mark end }
{
    match end {
        None => Extent {
            bytes: None,
            next: None,
        },
        Some(end) if end.first == first && end.mark == mark => Extent {
            bytes: Some(end.place),
            next: Some(end.next),
        },
        Some(end) if end.first > first => Extent {
            bytes: None,
            next: Some(end.first),
        },
        Some(_) => Extent {
            bytes: Some(HEAD as u64),
            next: Some(first),
        },
    }
}

/// Returns how far the newest segment counts, whose head can't be read: up to the record that the published end says,
/// if it speaks of this one.
pub fn extent_unread(first: u64, end: Option<End>) -> Extent
    ensures { result ≡ extent_unread first end }
{
    let next = match end {
        Some(end) if end.first == first => Some(end.next),
        _ => None,
    };
    Extent { bytes: None, next }
}

/// Returns how far one that follows may read the newest segment, whose head has this sum, if it can be read: as far as
/// the published end says, if it speaks of this file. Else nothing of it is published yet.
pub fn extent_followed(first: u64, mark: Option<u64>, end: Option<End>) -> Option<Extent>
    ensures { result ≡ extent_followed first mark end }
{
    match end {
        Some(end) if end.first == first && mark.is_none_or(|mark| mark == end.mark) => {
            Some(Extent {
                bytes: Some(end.place),
                next: Some(end.next),
            })
        }
        _ => None,
    }
}
