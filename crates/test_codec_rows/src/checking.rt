//! What `check` answers, beside what `decode` does.

use crate::bytes::{bytes_of, words_of};
use crate::generated::{Numbers, body};
use crate::values::told_len;
use crate::words::parsed;
use amqp_types::{Limits, ReadFault};
use std::alloc::Global;
use test_row_files::Miss;
use test_row_files::words::cut;

/// How often an answer has to be given to be named.
const OFTEN: u32 = 50;

/// The names of the answers.
const NAMES: [&str; 12] = [
    "Ok",
    "Truncated",
    "UnknownCode",
    "BadSize",
    "BadCount",
    "BadText",
    "BadSymbol",
    "BadChar",
    "BadBoolean",
    "DuplicateKey",
    "TooDeep",
    "TooManyNodes",
];

/// Returns what `check` answers, with nothing of its contract: calls are checked faster.
pub fn len_of(alloc: Global, bytes: &[u8], limits: Limits) -> Result<usize, ReadFault> {
    amqp_types::check(alloc, bytes, limits)
}

/// Returns what `decode` answers without the value.
fn decoded_len(alloc: Global, bytes: &[u8], limits: Limits) -> Result<usize, ReadFault> {
    let (_value, len) = amqp_types::decode(alloc, bytes, limits)?;
    Ok(len)
}

/// Returns a depth, a number of nodes, and bytes: the length that is checked, or the first fault.
pub fn check(alloc: Global, words: &str) -> Result<String, Miss> {
    let (depth, words) = cut(words, ' ')?;
    let (nodes, words) = cut(words, ' ')?;
    let limits = Limits {
        depth: parsed(depth)?,
        nodes: parsed(nodes)?,
    };
    let bytes = bytes_of(alloc, words)?;
    let answer = len_of(alloc, &bytes, limits);
    let mut text = told_len(alloc, answer)?;
    let decoded = decoded_len(alloc, &bytes, limits);
    if answer != decoded {
        let decoded = told_len(alloc, decoded)?;
        write!(text, ", decode {decoded}")?;
    }
    Ok(text)
}

/// Checks this many bodies that are made of numbers. Names the answers that many have, or the first body of
/// which `check` does not answer what `decode` does.
pub fn alike(alloc: Global, words: &str) -> Result<String, Miss> {
    let count: u32 = parsed(words)?;
    let mut numbers = Numbers::of(1);
    let mut answers = [0_u32; 12];
    for _ in 0..count {
        let depth = numbers.below(5);
        let bytes = body(alloc, &mut numbers, depth)?;
        let limits = Limits {
            depth: numbers.below(6) as usize,
            nodes: numbers.below(60) as usize,
        };
        let answer = len_of(alloc, &bytes, limits);
        if answer != decoded_len(alloc, &bytes, limits) {
            let words = words_of(alloc, &bytes)?;
            return Ok(format!(in alloc; "{answer:?} of {words} within {limits:?}")?);
        }
        count_answer(&mut answers, answer);
    }
    names_of(alloc, &answers)
}

fn count_answer(answers: &mut [u32; 12], answer: Result<usize, ReadFault>) {
    match answer {
        Ok(_) => count_name(answers, "Ok"),
        Err(fault) => count_name(answers, fault.name()),
    }
}

fn count_name(answers: &mut [u32; 12], name: &str) {
    for (i, known) in NAMES.iter().enumerate() {
        if *known == name {
            answers[i] = answers[i].saturating_add(1);
        }
    }
}

fn names_of(alloc: Global, answers: &[u32; 12]) -> Result<String, Miss> {
    let mut names = String::new(alloc);
    for (i, name) in NAMES.iter().enumerate() {
        if answers[i] >= OFTEN {
            names.push_str(name)?;
            names.push(' ')?;
        }
    }
    Ok(String::from_str(alloc, names.trim_end())?)
}
