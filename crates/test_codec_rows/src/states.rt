//! Conditions of errors, outcomes of deliveries, and addresses of targets.

use crate::bytes::bytes_of;
use amqp_perform::{Address, Condition, Outcome};
use std::alloc::Global;
use test_row_files::Miss;

/// Returns what `Condition::of` and `span` answer, with nothing of their contracts: calls are checked
/// faster.
fn condition_of(span: &[u8]) -> (Condition, &'static [u8]) {
    let condition = Condition::of(span);
    (condition, condition.span())
}

/// Returns what `Outcome::of` and `span` answer, with nothing of their contracts.
fn outcome_of(span: &[u8]) -> (Option<Outcome>, &'static [u8]) {
    let outcome = Outcome::of(span);
    let canonical: &'static [u8] = match outcome {
        Some(outcome) => outcome.span(),
        None => b"none",
    };
    (outcome, canonical)
}

/// Returns what `address_of` answers, with nothing of its contract.
fn address_of(span: &[u8]) -> Address<'_> {
    amqp_perform::address_of(span)
}

/// Returns what is said of a span that is the canonical one.
fn mark(is_canonical: bool) -> &'static str {
    if is_canonical { ", canonical" } else { "" }
}

/// Returns the condition that an error names.
pub fn condition(alloc: Global, words: &str) -> Result<String, Miss> {
    let span = bytes_of(alloc, words)?;
    let (condition, canonical) = condition_of(&span);
    let mark = mark(span.as_slice() == canonical);
    Ok(format!(in alloc; "{condition:?}{mark}")?)
}

/// Returns the outcome that a state is.
pub fn outcome(alloc: Global, words: &str) -> Result<String, Miss> {
    let span = bytes_of(alloc, words)?;
    let (outcome, canonical) = outcome_of(&span);
    let mark = mark(span.as_slice() == canonical);
    Ok(format!(in alloc; "{outcome:?}{mark}")?)
}

/// Returns what a target says of its node.
pub fn address(alloc: Global, words: &str) -> Result<String, Miss> {
    let span = bytes_of(alloc, words)?;
    let address = address_of(&span);
    Ok(format!(in alloc; "{address:?}")?)
}
