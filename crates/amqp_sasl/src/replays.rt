//! A whole exchange, whatever the pieces are in which its bytes come.
ghost use Rattle.std.specs.Prelude.{◌≡◌, ◌≤◌, ◌++◌, ◌⊎◌, [], ℕ, List, Bool, Some, IfOk, OnOk, length, take};
ghost use Rattle.std.specs.List.{flat_map};
ghost use Rattle.amqp_sasl.specs.Exchanges.{exchange, outcome_of, told, IsApart, HasCome};

use crate::unsent::MOST_UNSENT;
use crate::{Offer, Outcome, Sasl};
use std::alloc::{AllocError, Global};

/// What came of an exchange.
#[derive(Drop)]
pub struct Replay {
    pub outcome: Outcome,
    /// All that was written for the peer.
    pub written: Vec<u8>,
    /// All that is for the endpoint.
    pub handed: Vec<u8>,
}

/// Brings these pieces to a new layer, one after the other, and answers `admitted` if the host is asked.
///
/// What comes of it is what comes of their bytes, however they are cut. An error says that memory was refused.
pub fn sasl_replay(
    alloc: Global,
    offer: Offer,
    admitted: bool,
    pieces: &[&[u8]],
) -> Result<Replay, AllocError>
    ensures whole { IfOk result (λ r. HasCome r (exchange offer (Some admitted) (flat_map (λ p. p.now) pieces.now))) }
{
    let mut sasl = Sasl::new(offer);
    let mut behind = Vec::new(alloc);
    for piece in pieces {
        bring(&mut sasl, admitted, piece, &mut behind)?;
    }
    close(alloc, sasl, behind)
}

/// Brings a piece to a layer, and keeps what is for the endpoint.
fn bring(
    sasl: &mut Sasl,
    admitted: bool,
    piece: &[u8],
    behind: &mut Vec<u8>,
) -> Result<(), AllocError>
    requires { IsApart (outcome_of sasl.old.stage) behind.old.items }
    ensures apart { OnOk result (IsApart (outcome_of sasl.new.stage) behind.new.items) }
    ensures exact { OnOk result ((more : List ℕ) → told sasl.old (Some admitted) (behind.old.items ++ (piece.now ++ more)) ≡ told sasl.new (Some admitted) (behind.new.items ++ more)) }
{
    match sasl.outcome() {
        Outcome::More => {
            let used = hear(sasl, admitted, piece);
            keep(sasl, &piece[used..], behind)
        }
        Outcome::Ask | Outcome::Past | Outcome::Failed => keep(sasl, piece, behind),
    }
}

/// Brings a piece to a layer, and answers if the host is asked. Returns how many of its bytes were taken.
fn hear(sasl: &mut Sasl, admitted: bool, piece: &[u8]) -> usize
    ensures bound { result ≤ length piece.now }
    ensures all { outcome_of sasl.new.stage ≡ Outcome.More → result ≡ length piece.now }
    ensures answered { outcome_of sasl.new.stage ≡ Outcome.Ask → ⊥ }
    ensures exact { (more : List ℕ) → told sasl.old (Some admitted) (take result piece.now ++ more) ≡ told sasl.new (Some admitted) more }
{
    let fed = sasl.feed(piece);
    match fed.outcome {
        Outcome::Ask => {
            sasl.admit(admitted);
            fed.used
        }
        Outcome::More | Outcome::Past | Outcome::Failed => fed.used,
    }
}

/// Keeps the bytes behind an exchange, if it is past.
fn keep(sasl: &Sasl, rest: &[u8], behind: &mut Vec<u8>) -> Result<(), AllocError>
    requires apart { IsApart (outcome_of sasl.now.stage) behind.old.items }
    requires all { outcome_of sasl.now.stage ≡ Outcome.More → rest.now ≡ [] }
    ensures apart { OnOk result (IsApart (outcome_of sasl.now.stage) behind.new.items) }
    ensures exact { OnOk result ((answer : Bool) (more : List ℕ) → told sasl.now (Some answer) (behind.old.items ++ (rest.now ++ more)) ≡ told sasl.now (Some answer) (behind.new.items ++ more)) }
{
    match sasl.outcome() {
        Outcome::Past => behind.extend_from_slice(rest),
        Outcome::More | Outcome::Ask | Outcome::Failed => Ok(()),
    }
}

/// Moves out what waits for the peer and what is for the endpoint.
fn close(alloc: Global, mut sasl: Sasl, behind: Vec<u8>) -> Result<Replay, AllocError>
    requires { IsApart (outcome_of sasl.stage) behind.items }
    ensures { IfOk result (λ r. (answer : Bool) → HasCome r (told sasl (Some answer) behind.items)) }
{
    let outcome = sasl.outcome();
    let mut handed = Vec::new(alloc);
    handed.extend_from_slice(sasl.handed())?;
    handed.extend_from_slice(&behind)?;
    let mut out = [0; MOST_UNSENT];
    let len = sasl.output(&mut out);
    let mut written = Vec::new(alloc);
    written.extend_from_slice(&out[..len])?;
    Ok(Replay {
        outcome,
        written,
        handed,
    })
}
