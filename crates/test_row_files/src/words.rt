//! The words of a call.

use crate::Miss;
use std::alloc::Global;

/// Returns what stands before a mark and what after it, without the spaces around them.
pub fn cut(text: &str, mark: char) -> Result<(&str, &str), Miss> {
    let (front, behind) = text.split_once(mark).ok_or("a word is missing")?;
    Ok((front.trim(), behind.trim()))
}

/// The name of a call, and the words after it.
pub fn name_of(call: &str) -> (&str, &str) {
    let (name, words) = call.split_once(' ').unwrap_or((call, ""));
    (name, words.trim())
}

/// Returns a number below 2^32: digits and nothing else.
pub fn number(word: &str) -> Result<u32, Miss> {
    if word.is_empty() || !word.bytes().all(|byte| byte.is_ascii_digit()) {
        return Err(Miss::Unread("no number"));
    }
    word.parse::<u32>()
        .map_err(|_| Miss::Unread("the number is too large"))
}

/// Returns two numbers, parted by a space.
pub fn two_numbers(words: &str) -> Result<(u32, u32), Miss> {
    let (first, second) = cut(words, ' ')?;
    Ok((number(first)?, number(second)?))
}

/// Returns six numbers, parted by spaces.
pub fn six_numbers(words: &str) -> Result<[u32; 6], Miss> {
    let mut words = words.split_whitespace();
    let mut numbers = [0; 6];
    for place in numbers.iter_mut() {
        *place = number(words.next().ok_or("too few numbers")?)?;
    }
    match words.next() {
        None => Ok(numbers),
        Some(_) => Err(Miss::Unread("too many numbers")),
    }
}

/// Returns the bytes that a hex text spells.
pub fn bytes_of(alloc: Global, hex: &str) -> Result<Vec<u8>, Miss> {
    hex::decode(alloc, hex).map_err(|_| Miss::Unread("no hex text"))
}

/// Returns the hex text of bytes.
pub fn hex_of(alloc: Global, bytes: &[u8]) -> Result<String, Miss> {
    Ok(hex::encode(alloc, bytes)?)
}
