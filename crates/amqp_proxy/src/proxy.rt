//! The header of a connection behind a proxy, as it comes.
ghost use Rattle.std.specs.Prelude.{◌≡◌, ◌<◌, ◌≤◌, ◌++◌, ◌∷◌, [], ℕ, List, length, take};
ghost use Rattle.amqp_proxy.specs.Streams.{passage, IsSaid};

use crate::faults::ProxyFault;
use crate::header::{fault_of, said_by};
use crate::held::Held;
use crate::progress::{Progress, progress_of};
use crate::said::Said;
use std::marker::Model;

/// What a layer says.
#[derive(Clone, Copy, Debug, PartialEq, Eq)]
pub enum Outcome {
    /// More bytes are due.
    More,
    /// The header is whole. All bytes that are not taken are for the endpoint.
    Past,
    /// The header is refused. Nothing more is taken, and the connection is closed.
    Failed(ProxyFault),
}

/// What a layer did with a piece.
#[derive(Clone, Copy, Debug, PartialEq, Eq)]
pub struct Fed {
    /// How many of its bytes were taken.
    pub used: usize,
    pub outcome: Outcome,
}

/// The layer of a connection behind a proxy.
#[derive(Drop)]
pub struct Proxy {
    outcome: Outcome,
    kept: Held,
}

impl Model for Proxy {
    ghost use Rattle.amqp_proxy.specs.Streams.{ProxyState, IsSound};

    ghost Value = { ProxyState };

    ghost view = { λ a. record { outcome = a.outcome; kept = a.kept } };

    ghost invariant = { λ a. IsSound a.outcome a.kept };
}

impl Proxy {
    ghost use Rattle.amqp_proxy.specs.Streams.{told, Says};

    /// Makes the layer of a new connection.
    pub fn new() -> Self
        ensures exact { (bytes : List ℕ) → told result bytes ≡ passage bytes }
        ensures outcome { result.outcome ≡ Outcome.More }
        ensures kept { result.kept ≡ [] }
    {
        Proxy {
            outcome: Outcome::More,
            kept: Held::new(),
        }
    }

    /// Takes bytes of a piece, up to the end of the header or the byte that shows that it is refused.
    ///
    /// Once the header is past or refused it takes nothing more, and says the same again.
    pub fn feed(&mut self, piece: &[u8]) -> Fed
        ensures bound { result.used ≤ length piece.now }
        ensures all { result.used < length piece.now → result.outcome ≡ Outcome.More → ⊥ }
        ensures exact { (more : List ℕ) → told self.old (take result.used piece.now ++ more) ≡ told self.new more }
        ensures none { (self.old.outcome ≡ Outcome.More → ⊥) → (result.used ≡ 0) × (self.new ≡ self.old) }
        ensures outcome { result.outcome ≡ self.new.outcome }
        ensures says { Says result.outcome self.new }
    {
        let mut used = 0;
        while used < piece.len() {
            match self.outcome {
                Outcome::More => self.take(piece[used]),
                Outcome::Past | Outcome::Failed(_) => break,
            }
            used += 1;
        }
        Fed {
            used,
            outcome: self.outcome(),
        }
    }

    /// Returns what the layer says.
    pub fn outcome(&self) -> Outcome
        ensures outcome { result ≡ self.now.outcome }
        ensures says { Says result self.now }
    {
        self.outcome
    }

    /// Takes a byte of the header.
    fn take(&mut self, byte: u8)
        requires { self.old.outcome ≡ Outcome.More }
        ensures { (more : List ℕ) → told self.old (byte ∷ more) ≡ told self.new more }
    {
        self.kept.push(byte);
        match progress_of(self.kept.as_slice()) {
            Progress::Short => {}
            Progress::Bad(fault) => {
                self.kept.clear();
                self.outcome = Outcome::Failed(fault);
            }
            Progress::Whole => match fault_of(self.kept.as_slice()) {
                None => {
                    self.outcome = Outcome::Past;
                }
                Some(fault) => {
                    self.kept.clear();
                    self.outcome = Outcome::Failed(fault);
                }
            },
        }
    }

    /// Returns what the header said, once the layer says [`Outcome::Past`]; nothing before that.
    pub fn said(&self) -> Said<'_>
        ensures { IsSaid result (told self.now []).standing }
    {
        match self.outcome {
            Outcome::Past => said_by(self.kept.as_slice()),
            Outcome::More | Outcome::Failed(_) => Said {
                source: None,
                name: None,
            },
        }
    }

    /// Returns how many bytes are held.
    pub fn held(&self) -> usize
        ensures value { result ≡ length self.now.kept }
        ensures most { result ≤ 536 }
    {
        self.kept.len()
    }
}
