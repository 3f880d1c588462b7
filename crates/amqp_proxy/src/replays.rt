//! A whole connection, whatever the pieces are in which its bytes come.
ghost use Rattle.std.specs.Prelude.{◌≡◌, ◌++◌, [], ℕ, List, IfOk, OnOk, length};
ghost use Rattle.std.specs.List.{flat_map};
ghost use Rattle.amqp_proxy.specs.Replays.{HasCome};
ghost use Rattle.amqp_proxy.specs.Streams.{passage, told, IsApart};

use crate::{Outcome, Proxy};
use std::alloc::{AllocError, Global};

/// What came of a connection.
#[derive(Drop)]
pub struct Replay {
    pub outcome: Outcome,
    /// The layer, which shows what the header said.
    pub proxy: Proxy,
    /// All that is for the endpoint.
    pub handed: Vec<u8>,
}

/// Brings these pieces to a new layer, one after the other.
///
/// What comes of it is what comes of their bytes, however they are cut. An error says that memory was refused.
pub fn proxy_replay(alloc: Global, pieces: &[&[u8]]) -> Result<Replay, AllocError>
    ensures { IfOk result (λ r. HasCome r (passage (flat_map (λ p. p.now) pieces.now))) }
{
    let mut proxy = Proxy::new();
    let mut handed = Vec::new(alloc);
    for piece in pieces {
        bring(&mut proxy, piece, &mut handed)?;
    }
    Ok(Replay {
        outcome: proxy.outcome(),
        proxy,
        handed,
    })
}

/// Brings a piece to a layer, and keeps what is for the endpoint.
fn bring(proxy: &mut Proxy, piece: &[u8], handed: &mut Vec<u8>) -> Result<(), AllocError>
    requires { IsApart proxy.old.outcome handed.old.items }
    ensures apart { OnOk result (IsApart proxy.new.outcome handed.new.items) }
    ensures exact { OnOk result ((more : List ℕ) → told proxy.old (handed.old.items ++ (piece.now ++ more)) ≡ told proxy.new (handed.new.items ++ more)) }
{
    let fed = proxy.feed(piece);
    match fed.outcome {
        Outcome::Past => handed.extend_from_slice(&piece[fed.used..]),
        Outcome::More | Outcome::Failed(_) => Ok(()),
    }
}
