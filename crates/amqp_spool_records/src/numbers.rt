//! Which numbers are wanted, and which are missing.

ghost use Rattle.std.specs.Prelude.{◌≡◌, ◌+◌, ◌-◌, ◌^◌, ◌<◌, ◌≤◌, ◌↔◌, false, min, string_bytes, Some, None, IfOk, IsTrue, MatchOption};
ghost use Rattle.amqp_spool_records.specs.declared.numbers.Missing.{Missing};
ghost use Rattle.amqp_spool_records.specs.Numbers.{gap_text};

use std::alloc::{AllocError, Global};

/// Numbers that no record is there for, from one up to another.
#[derive(Clone, Copy, Debug, PartialEq, Eq)]
pub struct Missing {
    pub from: u64,
    pub to: u64,
}

/// Returns the number after this one. After the last it is the same.
pub fn after(number: u64) -> u64
    ensures { result ≡ min (number + 1) (2 ^ 64 - 1) }
{
    number.saturating_add(1)
}

/// Returns the numbers that are missing if `due` was to come, and `next` comes. Returns `None` if none is.
pub fn missing_between(due: u64, next: u64) -> Option<Missing>
    ensures some { due < next → result ≡ Some (record { from = due; to = next - 1 }) }
    ensures none { next ≤ due → result ≡ None }
{
    if due < next {
        Some(Missing {
            from: due,
            to: next - 1,
        })
    } else {
        None
    }
}

/// Returns whether no number is due of a segment, since the one after it begins at most at the number that is due.
pub fn is_below(newer: Option<u64>, due: u64) -> bool
    ensures { MatchOption newer (result ≡ false) (λ n. IsTrue result ↔ (n ≤ due)) }
{
    newer.is_some_and(|newer| newer <= due)
}

/// Returns the line that tells what is missing: `gap A to B`.
pub fn gap_text(alloc: Global, missing: &Missing) -> Result<String, AllocError>
    ensures { IfOk result (λ text. string_bytes text ≡ gap_text missing.now) }
{
    let Missing { from, to } = *missing;
    format!(in alloc; "gap {from} to {to}\n")
}
