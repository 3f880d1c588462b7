//! What rows do with the files of the directory, past it.

use crate::disk::PATH;
use crate::words::{Hex, bytes_in, word_of};
use std::alloc::Global;
use std::fs;
use std::fs::File;
use std::os::unix::fs::{PermissionsExt, symlink};
use test_row_files::Miss;
use test_row_files::words::name_of;

/// Opens a file to read it.
pub fn open(rt: &HostRuntime, name: &str) -> Result<File, Miss> {
    let path = path_of(rt.alloc(), name)?;
    Ok(fs::open(rt, path.as_str())?)
}

/// Makes a call, CALL NAME and what it takes, and puts its answer.
pub fn call(rt: &HostRuntime, words: &str, out: &mut String) -> Result<(), Miss> {
    let (call, words) = name_of(words);
    let (name, word) = name_of(words);
    let path = path_of(rt.alloc(), name)?;
    answer(rt, call, path.as_str(), word, out)
}

fn path_of(alloc: Global, name: &str) -> Result<String, Miss> {
    Ok(format!(in alloc; "{PATH}/{name}")?)
}

fn answer(
    rt: &HostRuntime,
    call: &str,
    path: &str,
    word: &str,
    out: &mut String,
) -> Result<(), Miss> {
    match call {
        "exists" => return Ok(out.push_str(word_of(fs::exists(rt, path)?))?),
        "len" => return put_len(rt, path, out),
        "mode" => return put_mode(rt, path, out),
        "bytes" => return put_bytes(rt, path, out),
        "write" => write(rt, path, word)?,
        "link" => symlink(rt, word, path)?,
        "make_dir" => fs::create_dir(rt, path)?,
        "remove" => fs::remove_file(rt, path)?,
        "remove_dir" => fs::remove_dir(rt, path)?,
        _ => return Err(Miss::Unread("no such call of a file")),
    }
    Ok(out.push_str("()")?)
}

fn write(rt: &HostRuntime, path: &str, hex: &str) -> Result<(), Miss> {
    let bytes = bytes_in(rt.alloc(), hex)?;
    fs::write(rt, path, bytes.as_slice())?;
    Ok(())
}

fn put_len(rt: &HostRuntime, path: &str, out: &mut String) -> Result<(), Miss> {
    write!(out, "{}", fs::metadata(rt, path)?.len())?;
    Ok(())
}

/// Puts who may do what with a file, in octal.
fn put_mode(rt: &HostRuntime, path: &str, out: &mut String) -> Result<(), Miss> {
    let mode = fs::metadata(rt, path)?.permissions().mode() & 0o7777;
    write!(out, "{mode:o}")?;
    Ok(())
}

fn put_bytes(rt: &HostRuntime, path: &str, out: &mut String) -> Result<(), Miss> {
    let bytes = fs::read(rt, path)?;
    write!(out, "{}", Hex(&bytes))?;
    Ok(())
}
