//! Words that are numbers.

use std::str::FromStr;
use test_row_files::Miss;

/// Returns the number that a word is.
pub fn parsed<N: FromStr>(word: &str) -> Result<N, Miss>
where
    N::Err: Drop,
{
    Ok(word.parse().ok().ok_or("no number")?)
}
