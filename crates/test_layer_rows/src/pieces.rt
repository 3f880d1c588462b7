//! Scripts whose feeds come in pieces.

use std::alloc::{AllocError, Global};
use test_row_files::Miss;

/// A script and its answers, where each feed that uses up its bytes comes in pieces of this many.
pub fn cut(
    alloc: Global,
    script: &str,
    answers: &str,
    size: u32,
) -> Result<(String, String), Miss> {
    let settings = script.lines().take_while(|line| is_setting(line)).count();
    let mut cut_script = String::new(alloc);
    let mut cut_answers = String::new(alloc);
    for line in script.lines().take(settings) {
        write!(cut_script, "{line}\n")?;
    }
    for (line, answer) in script.lines().skip(settings).zip(answers.lines()) {
        match whole_feed(line, answer) {
            Some((hex, outcome)) => {
                cut_feed(hex, outcome, size, &mut cut_script, &mut cut_answers)?;
            }
            None => {
                write!(cut_script, "{line}\n")?;
                write!(cut_answers, "{answer}\n")?;
            }
        }
    }
    Ok((cut_script, cut_answers))
}

/// Returns a line that has no answer.
fn is_setting(line: &str) -> bool {
    line.starts_with("config ") || line.starts_with("limit ")
}

/// Returns the hex text of a feed that uses up its bytes, and its outcome.
fn whole_feed<'t>(line: &'t str, answer: &'t str) -> Option<(&'t str, &'t str)> {
    let hex = line.strip_prefix("feed ")?;
    let (used, outcome) = answer.strip_prefix("used=")?.split_once(' ')?;
    if used.parse::<usize>().ok()? == hex.len() / 2 {
        Some((hex, outcome))
    } else {
        None
    }
}

/// Appends a feed in pieces, and its answers.
fn cut_feed(
    hex: &str,
    outcome: &str,
    size: u32,
    script: &mut String,
    answers: &mut String,
) -> Result<(), AllocError> {
    let digits = (size as usize).saturating_mul(2).max(2);
    let mut left = hex.len();
    for piece in hex.as_bytes().chunks(digits) {
        let text = str::from_utf8(piece).unwrap_or("");
        left = left.saturating_sub(piece.len());
        let told = if left == 0 { outcome } else { "More" };
        write!(script, "feed {text}\n")?;
        write!(answers, "used={} {told}\n", piece.len() / 2)?;
    }
    Ok(())
}
