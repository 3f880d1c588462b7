//! The lines of a file of addresses, and the parts of a line.
ghost use Rattle.std.specs.Prelude.{◌≡◌, ◌+◌, ◌≤◌, ◌==◌, ◌∷◌, [], length, take, drop, MatchOption};
ghost use Rattle.std.specs.List.{position_or_len};
ghost use Rattle.amqp_addresses.specs.Files.{lines};
ghost use Rattle.amqp_addresses.specs.Lines.{is_remark, word_len, is_prefix, credit_of, credit_behind};

use crate::faults::LineFault;

/// Returns the first line of a text, and what is behind its newline, if it has one.
pub fn first_line(text: &[u8]) -> (&[u8], Option<&[u8]>)
    ensures parts { MatchOption result.1 (lines text.now ≡ result.0.now ∷ []) (λ rest. lines text.now ≡ result.0.now ∷ lines rest.now) }
    ensures shorter { MatchOption result.1 (length result.0.now ≡ length text.now) (λ rest. length rest.now + 1 + length result.0.now ≡ length text.now) }
{
    let len = len_before(text, b'\n');
    if len < text.len() {
        (&text[..len], Some(&text[len + 1..]))
    } else {
        (text, None)
    }
}

/// Returns how many bytes are before the first that is this one; all, if none is.
fn len_before(text: &[u8], end: u8) -> usize
    ensures value { result ≡ position_or_len (λ c. c == end) text.now }
    ensures within { result ≤ length text.now }
{
    for (at, byte) in text.iter().enumerate() {
        if *byte == end {
            return at;
        }
    }
    text.len()
}

/// Returns whether a line says nothing.
pub fn is_remark(line: &[u8]) -> bool
    ensures { result ≡ is_remark line.now }
{
    match line.first() {
        Some(first) => *first == b'#',
        None => true,
    }
}

/// Returns the first word of a line, and what is behind it.
pub fn first_word(line: &[u8]) -> (&[u8], &[u8])
    ensures word { result.0.now ≡ take (word_len line.now) line.now }
    ensures behind { result.1.now ≡ drop (word_len line.now) line.now }
{
    line.split_at(len_before(line, b' '))
}

/// Returns whether a word is a prefix.
pub fn is_prefix(word: &[u8]) -> bool
    ensures { result ≡ is_prefix word.now }
{
    word.last() == Some(&b'*')
}

/// Returns the credit by what is behind the first word of a line; this one, if there is nothing.
pub fn credit_behind(behind: &[u8], otherwise: u32) -> Result<u32, LineFault>
    ensures { result ≡ credit_behind otherwise behind.now }
{
    match behind.split_first() {
        None => Ok(otherwise),
        Some((_, digits)) => credit_in(digits),
    }
}

/// Returns the credit that decimal digits write.
fn credit_in(digits: &[u8]) -> Result<u32, LineFault>
    ensures { result ≡ credit_of digits.now }
{
    let mut credit: u64 = 0;
    for digit in digits {
        if !digit.is_ascii_digit() {
            return Err(LineFault::BadCredit);
        }
        credit = 10 * credit + u64::from(*digit - b'0');
        if credit > u64::from(u32::MAX) {
            return Err(LineFault::BadCredit);
        }
    }
    if credit == 0 {
        return Err(LineFault::BadCredit);
    }
    Ok(credit as u32)
}
