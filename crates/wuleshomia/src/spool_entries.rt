//! Where the parts of an entry are.
ghost use Rattle.std.specs.Prelude.{◌≡◌, ◌+◌, ◌<◌, ◌^◌, length};
ghost use Rattle.amqp_spool.specs.Entries.{IsEntry, IsIntroduced, IsRecorded};
ghost use Rattle.amqp_spool.specs.EntryReading.{entry_in, introduced_in, recorded_in};
ghost use Rattle.wuleshomia.specs.Spools.{introduction_report, record_report, report_of};

use crate::data::{Part, SpoolEntry};
use amqp_spool::{Entry, Introduction, Record};

/// Nothing.
const NONE: Part = Part { at: 0, len: 0 };

/// Returns where the parts of an entry are in the bytes that begin with it.
pub(crate) fn of_entry(entry: &Entry<'_>) -> SpoolEntry
    requires { IsEntry (entry_in entry.now) }
    ensures { result ≡ report_of (entry_in entry.now) }
{
    match entry {
        Entry::Introduction(introduction) => of_introduction(introduction),
        Entry::Record(recorded) => of_record(recorded),
    }
}

/// Returns where the parts of an introduction are. Before the first are its kind, its link and its connection, and
/// before each its length.
fn of_introduction(introduction: &Introduction<'_>) -> SpoolEntry
    requires { IsIntroduced (introduced_in introduction.now) }
    ensures { result ≡ introduction_report (introduced_in introduction.now) }
{
    let peer = part(14, introduction.peer);
    let container = part(after(peer) + 1, introduction.container);
    let name = part(after(container) + 1, introduction.name);
    let user = part(after(name) + 1, introduction.user);
    let target = part(after(user) + 3, introduction.target);
    SpoolEntry {
        len: after(target),
        kind: 1,
        link: introduction.link,
        connection: introduction.connection,
        peer,
        container,
        name,
        user,
        target_kind: introduction.kind as u32,
        reserved: 0,
        target,
        tag: NONE,
        record: NONE,
    }
}

/// Returns where the parts of a record's entry are. Before the tag are its kind, its link and the length of the tag.
fn of_record(recorded: &Record<'_>) -> SpoolEntry
    requires { IsRecorded (recorded_in recorded.now) }
    ensures { result ≡ record_report (recorded_in recorded.now) }
{
    let tag = part(6, recorded.tag);
    let whole = part(after(tag), recorded.record);
    SpoolEntry {
        len: after(whole),
        kind: 2,
        link: recorded.link,
        connection: 0,
        peer: NONE,
        container: NONE,
        name: NONE,
        user: NONE,
        target_kind: 0,
        reserved: 0,
        target: NONE,
        tag,
        record: whole,
    }
}

/// Returns the part at this place that has as many bytes as these.
fn part(at: u64, bytes: &[u8]) -> Part
    ensures { result ≡ record { at = at; len = length bytes.now } }
{
    Part {
        at,
        len: bytes.len() as u64,
    }
}

/// Returns the place after a part.
fn after(part: Part) -> u64
    requires { part.at + part.len < 2 ^ 64 }
    ensures { result ≡ part.at + part.len }
{
    part.at + part.len
}
