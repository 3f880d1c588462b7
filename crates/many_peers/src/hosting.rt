//! A host of the hub, which reads no socket.

use crate::digest::Digest;
use crate::failure::Failure;
use amqp_endpoint::{Config, Endpoint};
use amqp_hub::{Hub, Keeper, Origin, Progress};
use amqp_perform::Outcome;
use amqp_serve::Rule;
use std::alloc::{AllocError, Allocator, Global};

/// The credit of a link, which is topped up once half of it is left.
const CREDIT: u32 = 16;

/// A keeper that takes each record at once, and keeps a digest of all.
#[derive(Drop)]
pub struct Digester {
    digest: Digest,
}

impl Keeper for Digester {
    ghost use Rattle.std.specs.Prelude.{◌≡◌, true, false, None};
    ghost use Rattle.amqp_hub.specs.declared.keeper.Progress.TheVariants.{Out};
    ghost use Rattle.many_peers.specs.Keeping.{nothing_known, accepts_more, comes_so};

    ghost puts = { λ _. None };

    ghost taken = { λ _. None };

    ghost settled = { λ _. true };

    ghost roomy = { λ _. true };

    ghost broken = { λ _. false };

    ghost holds = { λ _. 0 };

    ghost accepts = { λ _ _ _ _ _. Unit {0} };

    ghost makes_room = { λ old p new. (p ≡ Out) × (new ≡ old) };

    ghost settles = { λ old p new. (p ≡ Out) × (new ≡ old) };

    ghost settled_is_taken = { λ _ is. nothing_known is };

    ghost accepted_is_put = { λ _ _ origin _ bytes _. accepts_more origin bytes };

    ghost room_is_made = { λ _ _ p x. comes_so p x.0 };

    ghost settling_takes = { λ _ _ p x. comes_so p x.0 };

    fn has_room(&self) -> bool {
        true
    }

    fn put<A: Allocator + Copy>(
        &mut self,
        _origin: Origin,
        _endpoint: &Endpoint<A>,
        record: &[u8],
    ) -> Result<(), AllocError> {
        self.digest.add(record);
        Ok(())
    }

    fn make_room(&mut self) -> Progress {
        Progress::Out
    }

    fn settle(&mut self) -> Progress {
        Progress::Out
    }

    fn is_settled(&self) -> bool {
        true
    }

    fn held(&self) -> u64 {
        0
    }
}

/// A hub with its peers, and what they were answered.
#[derive(Drop)]
pub struct Host {
    hub: Hub<Digester>,
    keys: Vec<usize>,
    pub answers: Digest,
}

impl Host {
    /// Makes a host with this many peers.
    pub fn new(alloc: Global, peers: usize) -> Result<Host, Failure> {
        let rule = Rule {
            credit: CREDIT,
            mark: CREDIT / 2,
            outcome: Outcome::Accepted,
        };
        let keeper = Digester {
            digest: Digest::NONE,
        };
        let mut hub = Hub::new(alloc, peers, keeper);
        let mut keys = Vec::new(alloc);
        for number in 0..peers as u64 {
            keys.push(hub.open(settings(alloc)?, rule, number)?)?;
        }
        Ok(Host {
            hub,
            keys,
            answers: Digest::NONE,
        })
    }

    /// Returns the digest of what was recorded.
    pub fn records(&self) -> Digest {
        self.hub.keeper().digest
    }

    /// Lets the peer at a place be heard, unit by unit, and hands out what is answered after each.
    pub fn hear(&mut self, at: usize, piece: &[u8]) -> Result<(), Failure> {
        let Some(key) = self.keys.get(at).copied() else {
            return Ok(());
        };
        let mut rest = piece;
        for _unit in 0..piece.len() {
            if rest.is_empty() {
                break;
            }
            let used = match self.hub.hear(key, rest) {
                Ok(stepped) => stepped.used,
                Err(fault) => return Err(Failure::from(fault)),
            };
            rest = rest.get(used..).unwrap_or(&[]);
            self.hand_out(key);
        }
        Ok(())
    }

    /// Hands out what waits for a peer.
    fn hand_out(&mut self, key: usize) {
        for _ in 0..u64::MAX {
            if !hand_front(&mut self.hub, key, &mut self.answers) {
                break;
            }
        }
    }
}

/// Hands out the first bytes that wait for a peer, as many as lie in one piece. False if none do.
fn hand_front(hub: &mut Hub<Digester>, key: usize, answers: &mut Digest) -> bool {
    let front = hub.lend(key);
    let count = front.len();
    answers.add(front);
    hub.sent(key, count);
    count > 0
}

/// Returns what a gateway sets its endpoints up with.
fn settings(alloc: Global) -> Result<Config, Failure> {
    let name = String::from_str(alloc, "hub")?;
    Config::checked(name, 16384, 1, 1, CREDIT, 65536, 256).ok_or(Failure::Settings)
}
