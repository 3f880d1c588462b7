//! What a job makes its inputs of, and what it puts its results into.

use crate::Size;
use crate::digest::Digest;
use crate::failure::Failure;
use crate::numbers::Numbers;
use crate::peer::Peer;
use std::alloc::Global;

/// What all rounds of a job share. Nothing of a round is kept in it but room, and the digests.
#[derive(Drop)]
pub struct Desk {
    pub alloc: Global,
    pub size: Size,
    pub numbers: Numbers,
    pub peer: Peer,
    /// The text that a round reads.
    pub text: String,
    /// All that was answered or printed.
    pub answers: Digest,
    /// All that was recorded.
    pub records: Digest,
}

impl Desk {
    pub fn new(alloc: Global, seed: u64, size: Size) -> Result<Desk, Failure> {
        let mut numbers = Numbers::of(seed);
        Ok(Desk {
            alloc,
            size,
            peer: Peer::new(alloc, &mut numbers)?,
            numbers,
            text: String::new(alloc),
            answers: Digest::new(alloc)?,
            records: Digest::new(alloc)?,
        })
    }
}
