//! Scripts of `amqp replay`.
//!
//! A call is one line of a script or more, parted by ` / `, and returns what they add to the script's answers,
//! parted in the same way: `replay_script` runs the whole script anew at each call. `config ..` begins another
//! script. Of a bad line the answer is its number, and the script stays as it was. Besides there are:
//!
//! - `50 times LINE`: this many lines, and what each of them answers, if it is the same.
//! - `in pieces of 1 2 3 7`: runs the script again with the bytes of each feed that uses them up in pieces of this many, for
//!   each of the numbers. It answers `the same` where all other answers stay as they are.
//! - `script "TEXT"`: a whole script, and all that it answers, in quotes too.
//! - `third "TEXT"`: a script that has this as its third line, with good lines before it and a bad one after it.
//! - `table "TEXT"`: a table of limits, and the bounds that it sets, as `crate::tables` has them.

use crate::pieces::cut;
use crate::quotes::{bytes_in_quotes, in_quotes};
use crate::tables;
use amqp_frame::Device;
use amqp_script::{ScriptFault, replay_script};
use std::alloc::Global;
use test_row_files::words::number;
use test_row_files::{Miss, Subject};

/// The lines so far, and what they answered.
#[derive(Drop)]
pub struct Script {
    lines: String,
    answers: String,
}

impl Subject for Script {
    fn begin(&mut self) {
        self.lines.clear();
        self.answers.clear();
    }

    fn call(&mut self, alloc: Global, words: &str) -> Result<String, Miss> {
        if let Some(sizes) = words.strip_prefix("in pieces of ") {
            return self.in_pieces(alloc, sizes);
        }
        if let Some(text) = words.strip_prefix("script ") {
            return quoted_answer(alloc, &bytes_in_quotes(alloc, text)?);
        }
        if let Some(text) = words.strip_prefix("third ") {
            return quoted_answer(alloc, &with_third(alloc, &bytes_in_quotes(alloc, text)?)?);
        }
        if let Some(text) = words.strip_prefix("table ") {
            return tables::bounds_by(alloc, &bytes_in_quotes(alloc, text)?);
        }
        match words.split_once(" times ") {
            Some((count, line)) => self.go_on_with_one(alloc, number(count)?, line),
            None => self.go_on(alloc, words.replace(alloc, " / ", "\n")?.as_str()),
        }
    }

    /// A script shows nothing besides its answers.
    fn shown(&self, alloc: Global) -> Result<String, Miss> {
        Ok(String::new(alloc))
    }
}

impl Script {
    pub fn new(alloc: Global) -> Script {
        Script {
            lines: String::new(alloc),
            answers: String::new(alloc),
        }
    }

    /// Adds lines, and tells what they answer.
    fn go_on(&mut self, alloc: Global, new_lines: &str) -> Result<String, Miss> {
        if new_lines.starts_with("config ") {
            self.begin();
        }
        let lines = format!(in alloc; "{}{new_lines}\n", self.lines)?;
        let answers = match answers(alloc, lines.as_bytes()) {
            Ok(answers) => String::from_utf8(answers).or(Err("no text"))?,
            Err(fault) => return Ok(format!(in alloc; "{fault}")?),
        };
        let new = answers
            .strip_prefix(self.answers.as_str())
            .ok_or("earlier answers changed")?;
        let told = joined(alloc, new)?;
        self.lines = lines;
        self.answers = answers;
        Ok(told)
    }

    /// Adds a line this many times, and tells what each of them answers, if it is the same.
    fn go_on_with_one(&mut self, alloc: Global, count: u32, line: &str) -> Result<String, Miss> {
        let mut lines = String::from_str(alloc, line)?;
        for _ in 1..count {
            write!(lines, "\n{line}")?;
        }
        let told = self.go_on(alloc, lines.as_str())?;
        let first = told.split(" / ").next().unwrap_or("");
        if told.split(" / ").all(|answer| answer == first) {
            return Ok(String::from_str(alloc, first)?);
        }
        Ok(told)
    }

    fn in_pieces(&self, alloc: Global, sizes: &str) -> Result<String, Miss> {
        for size in sizes.split(' ') {
            let (script, wanted) = cut(alloc, &self.lines, &self.answers, number(size)?)?;
            match answers(alloc, script.as_bytes()) {
                Ok(found) if found.as_slice() == wanted.as_bytes() => {}
                Ok(_) => return Ok(format!(in alloc; "others in pieces of {size}")?),
                Err(fault) => return Ok(format!(in alloc; "{fault} in pieces of {size}")?),
            }
        }
        Ok(String::from_str(alloc, "the same")?)
    }
}

/// Returns what a whole script answers.
fn answers(alloc: Global, script: &[u8]) -> Result<Vec<u8>, ScriptFault> {
    let mut answers = Vec::new(alloc);
    let mut script = script;
    replay_script(
        alloc,
        &mut Device::new(&mut script),
        &mut Device::new(&mut answers),
    )?;
    Ok(answers)
}

/// Returns what a whole script answers, in quotes, or the fault that ends it.
fn quoted_answer(alloc: Global, script: &[u8]) -> Result<String, Miss> {
    match answers(alloc, script) {
        Ok(answers) => in_quotes(alloc, str::from_utf8(&answers).or(Err("no text"))?),
        Err(fault) => Ok(format!(in alloc; "{fault}")?),
    }
}

/// Returns a script with this third line.
fn with_third(alloc: Global, line: &[u8]) -> Result<Vec<u8>, Miss> {
    let mut script = Vec::from_slice(alloc, b"config r 512 0 1 4 10 100\nfeed 00\n")?;
    script.extend_from_slice(line)?;
    script.extend_from_slice(b"\nfeed 00\nnone\n")?;
    Ok(script)
}

/// Lines in one, parted by ` / `.
fn joined(alloc: Global, lines: &str) -> Result<String, Miss> {
    let mut text = String::new(alloc);
    for line in lines.lines() {
        if !text.is_empty() {
            text.push_str(" / ")?;
        }
        text.push_str(line.trim_end())?;
    }
    Ok(text)
}
