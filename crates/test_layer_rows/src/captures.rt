//! What real senders wrote, recorded, is received whole and in pieces.

mod receiver;

use receiver::{Received, receive};
use std::fs;
use std::io::Read;
use std::rt::Files;
use test_row_files::Miss;

/// Returns the result of a stream. It misses where a cutting changes messages or output.
pub fn received<R: Files + AllocGlobal>(rt: &R, name: &str) -> Result<Received, Miss> {
    let mut stream = Vec::new(rt.alloc());
    let mut file = fs::open(rt, name)?;
    file.read_to_end(&mut stream)?;
    let whole = receive(rt.alloc(), &stream, stream.len())?;
    for most in [1, 2, 3, 7, 1000, 4096] {
        let cut = receive(rt.alloc(), &stream, most)?;
        if !cut.is_same(&whole) {
            return Err(Miss::Unread("it comes otherwise in pieces"));
        }
    }
    Ok(whole)
}
