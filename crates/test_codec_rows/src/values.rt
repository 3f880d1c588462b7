//! Values, read by `decode`, `check` and `skip`.

use crate::bytes::{bytes_of, words_of};
use crate::checking;
use crate::words::parsed;
use amqp_types::{Limits, ReadFault, Symbol, Value, laws};
use std::alloc::{AllocError, Global};
use test_row_files::Miss;
use test_row_files::words::cut;

/// Limits that no row reaches which names no others.
const LIMITS: Limits = Limits {
    depth: 32,
    nodes: 1000,
};

/// Limits that no large value reaches.
const AMPLE: Limits = Limits {
    depth: 9,
    nodes: 1_000_000,
};

/// Returns what `decode` answers, with nothing of its contract: calls are checked faster.
fn read(alloc: Global, bytes: &[u8], limits: Limits) -> Result<(Value, usize), ReadFault> {
    amqp_types::decode(alloc, bytes, limits)
}

/// Returns what `skip` answers, with nothing of its contract.
fn len_of(bytes: &[u8], depth: usize) -> Result<usize, ReadFault> {
    amqp_types::skip(bytes, depth)
}

/// Returns a value and its length, or a fault.
fn told(alloc: Global, answer: &Result<(Value, usize), ReadFault>) -> Result<String, Miss> {
    match answer {
        Ok((value, len)) => Ok(format!(in alloc; "{value:?} {len}")?),
        Err(ReadFault::NoMemory) => Err(Miss::NoMemory),
        Err(fault) => Ok(format!(in alloc; "{fault:?}")?),
    }
}

/// Returns a length, or a fault.
pub fn told_len(alloc: Global, answer: Result<usize, ReadFault>) -> Result<String, AllocError> {
    match answer {
        Ok(len) => format!(in alloc; "{len}"),
        Err(fault) => format!(in alloc; "{fault:?}"),
    }
}

/// Appends what `check` answers if that is not what `decode` does.
fn put_checked(
    alloc: Global,
    text: &mut String,
    read_len: Result<usize, ReadFault>,
    bytes: &[u8],
    limits: Limits,
) -> Result<(), AllocError> {
    let checked = checking::len_of(alloc, bytes, limits);
    if read_len != checked {
        let checked = told_len(alloc, checked)?;
        write!(text, ", check {checked}")?;
    }
    Ok(())
}

/// What `decode` answers of bytes, and where `check` or `skip` answers another length or fault, that too.
#[derive(Drop)]
pub struct Answer {
    is_read: bool,
    pub text: String,
}

/// Returns what the calls answer.
fn both(alloc: Global, bytes: &[u8], limits: Limits) -> Result<Answer, Miss> {
    let answer = read(alloc, bytes, limits);
    let mut text = told(alloc, &answer)?;
    let is_read = answer.is_ok();
    let read_len = answer.map(|(_, len)| len);
    put_checked(alloc, &mut text, read_len, bytes, limits)?;
    let skipped = len_of(bytes, limits.depth);
    if read_len != skipped {
        let skipped = told_len(alloc, skipped)?;
        write!(text, ", skip {skipped}")?;
    }
    Ok(Answer { is_read, text })
}

/// Returns what the calls answer within limits that are not reached.
pub fn answer_of(alloc: Global, bytes: &[u8]) -> Result<Answer, Miss> {
    both(alloc, bytes, LIMITS)
}

/// Returns the value that the bytes begin with and its length, or the first fault.
pub fn decode(alloc: Global, words: &str) -> Result<String, Miss> {
    let bytes = bytes_of(alloc, words)?;
    Ok(answer_of(alloc, &bytes)?.text)
}

/// Returns a depth, a number of nodes, and bytes, which `skip` does not read.
pub fn limits(alloc: Global, words: &str) -> Result<String, Miss> {
    let (depth, words) = cut(words, ' ')?;
    let (nodes, words) = cut(words, ' ')?;
    let limits = Limits {
        depth: parsed(depth)?,
        nodes: parsed(nodes)?,
    };
    let bytes = bytes_of(alloc, words)?;
    let answer = read(alloc, &bytes, limits);
    let mut text = told(alloc, &answer)?;
    put_checked(alloc, &mut text, answer.map(|(_, len)| len), &bytes, limits)?;
    Ok(text)
}

/// Returns a depth, and bytes, which `skip` alone reads.
pub fn skip(alloc: Global, words: &str) -> Result<String, Miss> {
    let (depth, words) = cut(words, ' ')?;
    let bytes = bytes_of(alloc, words)?;
    Ok(told_len(alloc, len_of(&bytes, parsed(depth)?))?)
}

/// The limit that a value is held to.
#[derive(Clone, Copy)]
pub enum Limited {
    Depth,
    Nodes,
}

impl Limited {
    fn to(self, most: usize) -> Limits {
        match self {
            Limited::Depth => Limits {
                depth: most,
                ..LIMITS
            },
            Limited::Nodes => Limits {
                nodes: most,
                ..LIMITS
            },
        }
    }
}

/// Returns the least limit within which the bytes are read, and what is answered at one less.
pub fn least(alloc: Global, limited: Limited, words: &str) -> Result<String, Miss> {
    let bytes = bytes_of(alloc, words)?;
    let mut below = String::from_str(alloc, "none")?;
    for most in 0..LIMITS.nodes {
        let answer = both(alloc, &bytes, limited.to(most))?;
        if answer.is_read {
            return Ok(format!(in alloc; "{most} {below}")?);
        }
        below = answer.text;
    }
    Ok(below)
}

/// Returns the codes that both calls know, of values that end too soon.
pub fn codes(alloc: Global) -> Result<String, Miss> {
    let mut known = Vec::new(alloc);
    for code in 0..=255 {
        let answer = answer_of(alloc, &[code, 0, 0, 0, 9])?;
        if !answer.text.contains("UnknownCode(0)") {
            known.push(code)?;
        } else if answer.text.as_str() != "UnknownCode(0)" {
            return Ok(format!(in alloc; "{code:02x} {}", answer.text)?);
        }
    }
    Ok(words_of(alloc, &known)?)
}

/// Returns how many entries the map of these bytes has, and its length.
pub fn entries(alloc: Global, words: &str) -> Result<String, Miss> {
    let answer = read(alloc, &bytes_of(alloc, words)?, AMPLE);
    match &answer {
        Ok((Value::Map(entries), len)) => {
            let count = entries.len();
            Ok(format!(in alloc; "{count} in {len}")?)
        }
        _ => told(alloc, &answer),
    }
}

/// Returns the bytes of the symbol that is made of them.
pub fn symbol(alloc: Global, words: &str) -> Result<String, Miss> {
    let Some(symbol) = Symbol::new(bytes_of(alloc, words)?) else {
        return Ok(String::from_str(alloc, "None")?);
    };
    let lent = words_of(alloc, symbol.as_bytes())?;
    let owned = words_of(alloc, &symbol.into_bytes())?;
    if lent.as_str() == owned.as_str() {
        Ok(lent)
    } else {
        Ok(format!(in alloc; "{lent} and {owned}")?)
    }
}

/// Calls laws, one of them of the value that the bytes spell.
pub fn call_laws(alloc: Global, words: &str) -> Result<String, Miss> {
    let bytes = bytes_of(alloc, words)?;
    let (value, _) = read(alloc, &bytes, LIMITS).ok().ok_or("no such value")?;
    laws::ranged(&value);
    laws::canonical_spells();
    Ok(String::from_str(alloc, "()")?)
}

/// Returns the value that the bytes begin with.
pub fn value_at(alloc: Global, bytes: &[u8]) -> Result<Value, Miss> {
    match read(alloc, bytes, LIMITS) {
        Ok((value, _)) => Ok(value),
        Err(ReadFault::NoMemory) => Err(Miss::NoMemory),
        Err(_) => Err(Miss::Unread("no such value")),
    }
}
