//! What there is in the directory of a spool.

ghost use Rattle.std.specs.Prelude.{◌≡◌, length};

use crate::faults::SpoolFault;
use amqp_spool::{DirFiles, END, End, FLOOR, FileName, Floor, HEAD, Head, MOST_SEGMENTS};
use std::fs::Files;
use std::io::ErrorKind;

/// What there is in the directory of a spool.
#[derive(Drop)]
pub struct Survey {
    /// The id of the spool, if a head or an end says it.
    pub spool: Option<[u8; 16]>,
    /// The numbers of the first records of the segments, the oldest first.
    pub firsts: Vec<u64>,
    /// How far the spool may be read, if that can be read.
    pub end: Option<End>,
    /// Up to which number records may be gone.
    pub floor: u64,
}

impl Survey {
    /// Looks at a directory. Returns `NoSegments` if it has none.
    pub fn of<R: Files + Drop>(files: &DirFiles<R>) -> Result<Survey, SpoolFault> {
        let end = unless_refused(end_in(files))?;
        match Survey::after(files, end)? {
            Some(survey) => Ok(survey),
            None => Err(SpoolFault::NoSegments),
        }
    }

    /// Looks at a directory, after its published end was read: the segment that this speaks of is then among the names,
    /// or newer ones are. Returns `None` if there are no segments.
    pub fn after<R: Files + Drop>(
        files: &DirFiles<R>,
        published: Option<End>,
    ) -> Result<Option<Survey>, SpoolFault> {
        let firsts = firsts_in(files)?;
        if firsts.is_empty() {
            return Ok(None);
        }
        let spool = match newest_head(files, &firsts)? {
            Some(head) => Some(head.spool),
            None => published.map(|end| end.spool),
        };
        let id = id_of(spool);
        let floor = floor_in(files, &id)?;
        let end = published.filter(|end| is_same(&end.spool, &id));
        Ok(Some(Survey {
            spool,
            firsts,
            end,
            floor,
        }))
    }
}

/// Returns the id of a spool; zeros if it is not known.
pub fn id_of(spool: Option<[u8; 16]>) -> [u8; 16] {
    spool.unwrap_or([0; 16])
}

/// Returns whether two spools are one.
pub fn is_same(one: &[u8; 16], other: &[u8; 16]) -> bool {
    *one == *other
}

/// Returns how far a spool may be read. Returns `None` if there is no file that says it, or if it is torn.
pub fn end_in<R: Files + Drop>(files: &DirFiles<R>) -> Result<Option<End>, SpoolFault> {
    let mut bytes = [0; END];
    if is_filled(files, FileName::End, &mut bytes)? {
        Ok(End::read(&bytes))
    } else {
        Ok(None)
    }
}

/// Returns up to which number records of this spool may be gone: 0 if there is no floor of it that can be read.
pub fn floor_in<R: Files + Drop>(files: &DirFiles<R>, spool: &[u8; 16]) -> Result<u64, SpoolFault> {
    let floor = unless_refused(any_floor_in(files))?;
    let own = floor.filter(|floor| is_same(&floor.spool, spool));
    Ok(own.map_or(0, |floor| floor.number))
}

/// Returns the floor in a directory, of any spool.
fn any_floor_in<R: Files + Drop>(files: &DirFiles<R>) -> Result<Option<Floor>, SpoolFault> {
    let mut bytes = [0; FLOOR];
    if is_filled(files, FileName::Floor, &mut bytes)? {
        Ok(Floor::read(&bytes))
    } else {
        Ok(None)
    }
}

/// Returns what was read of a file. One that the system refuses to read says nothing.
fn unless_refused<T: Drop>(read: Result<Option<T>, SpoolFault>) -> Result<Option<T>, SpoolFault> {
    match read {
        Err(SpoolFault::Refused(_)) => Ok(None),
        read => read,
    }
}

/// Returns the numbers of the first records of the segments, the oldest first.
fn firsts_in<R: Files + Drop>(files: &DirFiles<R>) -> Result<Vec<u64>, SpoolFault> {
    let firsts = files
        .firsts(MOST_SEGMENTS)
        .map_err(|reason| SpoolFault::of(FileName::Dir, reason))?;
    let Some(mut firsts) = firsts else {
        return Err(SpoolFault::TooManySegments);
    };
    firsts.sort_unstable();
    Ok(firsts)
}

/// Returns the head of the newest segment that has one.
fn newest_head<R: Files + Drop>(
    files: &DirFiles<R>,
    firsts: &[u64],
) -> Result<Option<Head>, SpoolFault> {
    for first in firsts.iter().rev() {
        if let Some(head) = head_in(files, *first)? {
            return Ok(Some(head));
        }
    }
    Ok(None)
}

/// Returns the head of the segment that has this number in its name. Returns `None` if the file is gone, or has no head
/// of that number.
pub fn head_in<R: Files + Drop>(
    files: &DirFiles<R>,
    first: u64,
) -> Result<Option<Head>, SpoolFault> {
    let mut bytes = [0; HEAD];
    if is_filled(files, FileName::Segment(first), &mut bytes)? {
        Ok(Head::read(&bytes).filter(|head| head.first == first))
    } else {
        Ok(None)
    }
}

/// Fills `out` from the begin of a file. Returns `false` if that is gone, or has fewer bytes.
fn is_filled<R: Files + Drop>(
    files: &DirFiles<R>,
    name: FileName,
    out: &mut [u8],
) -> Result<bool, SpoolFault>
    ensures { length out.new ≡ length out.old }
{
    match files.read(name, 0, out) {
        Ok(()) => Ok(true),
        Err(reason) => match reason.kind() {
            ErrorKind::NotFound | ErrorKind::UnexpectedEof => Ok(false),
            _ => Err(SpoolFault::of(name, reason)),
        },
    }
}
