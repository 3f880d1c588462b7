//! The directory of the spool, as its files lie there.

use crate::segment::{Form, Segment, after_head, put_entries, put_records};
use crate::torn::turn;
use amqp_spool::scan;
use std::alloc::{AllocError, Global};
use std::fs;
use test_row_files::Miss;
use test_row_files::words::bytes_of;

/// Where it is.
pub const PATH: &str = "spool";

/// Removes the directory with all that it has.
pub fn remove(rt: &HostRuntime) {
    let _ = fs::remove_dir_all(rt, PATH);
}

/// Returns the numbers of the segments, the oldest first.
fn firsts(rt: &HostRuntime) -> Result<Vec<u64>, Miss> {
    let mut firsts = Vec::new(rt.alloc());
    put_firsts(rt, &mut firsts)?;
    firsts.sort_unstable();
    Ok(firsts)
}

/// Appends the numbers of the segments, in no order.
fn put_firsts(rt: &HostRuntime, out: &mut Vec<u64>) -> Result<(), Miss> {
    if !fs::exists(rt, PATH)? {
        return Ok(());
    }
    for entry in fs::read_dir(&rt, PATH)? {
        if let Some(first) = first_in(entry?.file_name()) {
            out.push(first)?;
        }
    }
    Ok(())
}

/// Returns the number in the name of a segment.
fn first_in(name: &str) -> Option<u64> {
    name.strip_suffix(".seg")?.parse::<u64>().ok()
}

fn path_of(alloc: Global, first: u64) -> Result<String, Miss> {
    Ok(format!(in alloc; "{PATH}/{first:020}.seg")?)
}

/// Returns how many bytes the segments have together.
pub fn len(rt: &HostRuntime) -> Result<u64, Miss> {
    let firsts = firsts(rt)?;
    len_of_all(rt, &firsts)
}

fn len_of_all(rt: &HostRuntime, firsts: &[u64]) -> Result<u64, Miss> {
    let mut sum = 0u64;
    for first in firsts {
        sum = sum.saturating_add(len_of(rt, *first)?);
    }
    Ok(sum)
}

/// Returns how many bytes a segment has.
fn len_of(rt: &HostRuntime, first: u64) -> Result<u64, Miss> {
    let path = path_of(rt.alloc(), first)?;
    Ok(fs::metadata(rt, path.as_str())?.len())
}

/// Puts the numbers in the names of the segments, and their bytes together.
pub fn put_shown(rt: &HostRuntime, out: &mut String) -> Result<(), Miss> {
    let firsts = firsts(rt)?;
    put_names(&firsts, out)?;
    let bytes = len_of_all(rt, &firsts)?;
    write!(out, " bytes={bytes}")?;
    Ok(())
}

fn put_names(firsts: &[u64], out: &mut String) -> Result<(), AllocError> {
    let mut between = "segments=";
    for first in firsts {
        write!(out, "{between}{first}")?;
        between = "+";
    }
    Ok(())
}

/// Puts the records that are read of the segments, each up to what the one after it counts. One that was cut to no bytes
/// was passed, and has none.
pub fn put_read(rt: &HostRuntime, form: Form, out: &mut String) -> Result<(), Miss> {
    let firsts = firsts(rt)?;
    put_all_read(rt, &firsts, form, out)
}

fn put_all_read(
    rt: &HostRuntime,
    firsts: &[u64],
    form: Form,
    out: &mut String,
) -> Result<(), Miss> {
    for (index, first) in firsts.iter().enumerate() {
        let until = match firsts.get(index.saturating_add(1)) {
            Some(newer) => counted_in(rt, *newer)?,
            None => u64::MAX,
        };
        put_read_of(rt, *first, until, form, out)?;
    }
    Ok(())
}

fn put_read_of(
    rt: &HostRuntime,
    first: u64,
    until: u64,
    form: Form,
    out: &mut String,
) -> Result<(), Miss> {
    let bytes = bytes_in(rt, first)?;
    if bytes.is_empty() {
        return Ok(());
    }
    put_records(rt.alloc(), &bytes, until, form, out)
}

/// Returns how many bytes of the segment before it the head of a segment counts.
fn counted_in(rt: &HostRuntime, first: u64) -> Result<u64, Miss> {
    let bytes = bytes_in(rt, first)?;
    Ok(Segment::read(&bytes)?.head.counted)
}

/// Puts the entries of a segment.
pub fn put_entries_of(rt: &HostRuntime, first: u64, out: &mut String) -> Result<(), Miss> {
    let bytes = bytes_in(rt, first)?;
    put_entries(rt.alloc(), &bytes, out)
}

/// Returns the number of the record that comes next, after those of the newest segment.
pub fn next_number(rt: &HostRuntime) -> Result<u64, Miss> {
    let bytes = bytes_in(rt, newest(rt)?)?;
    next_in(&bytes)
}

fn newest(rt: &HostRuntime) -> Result<u64, Miss> {
    let firsts = firsts(rt)?;
    Ok(*firsts.last().ok_or("no segment")?)
}

/// Returns the number after those of a segment.
fn next_in(bytes: &[u8]) -> Result<u64, Miss> {
    let head = Segment::read(bytes)?.head;
    Ok(scan(&head.secret, head.first, after_head(bytes)).next)
}

/// Cuts so many bytes off a segment.
pub fn cut(rt: &HostRuntime, first: u32, count: u32) -> Result<(), Miss> {
    let mut bytes = bytes_in(rt, u64::from(first))?;
    let left = bytes.len().saturating_sub(count as usize);
    bytes.truncate(left);
    write(rt, first, &bytes)
}

/// Turns a bit of a segment, so many bytes before its end.
pub fn damage(rt: &HostRuntime, first: u32, before_end: u32) -> Result<(), Miss> {
    let mut bytes = bytes_in(rt, u64::from(first))?;
    let at = bytes.len().saturating_sub(before_end as usize);
    turn(&mut bytes, at);
    write(rt, first, &bytes)
}

/// Removes a segment.
pub fn lose(rt: &HostRuntime, first: u32) -> Result<(), Miss> {
    let path = path_of(rt.alloc(), u64::from(first))?;
    fs::remove_file(rt, path.as_str())?;
    Ok(())
}

/// Puts the bytes of a hex text in place of the published end. It is removed if that is `-`.
pub fn spoil_end(rt: &HostRuntime, hex: &str) -> Result<(), Miss> {
    let alloc = rt.alloc();
    let path = format!(in alloc; "{PATH}/end")?;
    if hex == "-" {
        fs::remove_file(rt, path.as_str())?;
        return Ok(());
    }
    let bytes = bytes_of(alloc, hex)?;
    fs::write(rt, path.as_str(), &bytes)?;
    Ok(())
}

/// Returns the bytes of a segment.
fn bytes_in(rt: &HostRuntime, first: u64) -> Result<Vec<u8>, Miss> {
    let path = path_of(rt.alloc(), first)?;
    Ok(fs::read(rt, path.as_str())?)
}

fn write(rt: &HostRuntime, first: u32, bytes: &[u8]) -> Result<(), Miss> {
    let path = path_of(rt.alloc(), u64::from(first))?;
    fs::write(rt, path.as_str(), bytes)?;
    Ok(())
}
