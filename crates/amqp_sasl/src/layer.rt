//! The SASL layer of a connection.
ghost use Rattle.std.specs.Prelude.{◌≡◌, ◌<◌, ◌≤◌, ◌+◌, ◌-◌, ◌++◌, ◌∷◌, ◌⊎◌, [], ℕ, List, Bool, Option, None, Some, min, length, take, drop, replicate, if◌then◌else◌};
ghost use Rattle.amqp_sasl.specs.Exchanges.{exchange, outcome_of, IsAsked};

use crate::answers::{challenge_frame, mechanisms_frame, outcome_frame};
use crate::frame::{Progress, progress_of};
use crate::header::{Opening, SASL_HEADER, opening_of};
use crate::held::MOST_KEPT;
use crate::kept::Kept;
use crate::offer::Offer;
use crate::unsent::Unsent;
use crate::verdict::{Init, Step, Verdict, step_of, verdict_of};
use std::marker::Model;

/// What a layer is at.
#[derive(Clone, Copy, Debug, PartialEq, Eq)]
pub enum Stage {
    /// The peer's header is due.
    Header,
    /// Its `sasl-init` is due.
    Init,
    /// It was challenged, and its `sasl-response` is due.
    Response,
    /// The host was asked, and has not answered.
    Ask,
    /// The exchange is past.
    Past,
    /// It failed.
    Failed,
}

/// What a layer says.
#[derive(Clone, Copy, Debug, PartialEq, Eq)]
pub enum Outcome {
    /// More bytes are due.
    More,
    /// The host is asked whether the peer is admitted: [`Sasl::asked`], [`Sasl::admit`].
    Ask,
    /// What follows is for the endpoint: [`Sasl::handed`], and then all bytes that are not taken.
    Past,
    /// Nothing more is taken. What waits for the peer is sent, and the connection is closed.
    Failed,
}

/// What a layer did with a piece.
#[derive(Clone, Copy, Debug, PartialEq, Eq)]
pub struct Fed {
    /// How many of its bytes were taken.
    pub used: usize,
    pub outcome: Outcome,
}

/// The SASL layer of a connection, for the side that is connected to.
///
/// It keeps at most 512 bytes of the peer, and 83 for it. What the peer sent is overwritten by zeros once the host has answered, or the
/// exchange failed. To move the layer may leave a copy, so keep it in place.
#[derive(Drop)]
pub struct Sasl {
    offer: Offer,
    stage: Stage,
    kept: Kept,
    unsent: Unsent,
}

impl Model for Sasl {
    ghost use Rattle.amqp_sasl.specs.Exchanges.{SaslState, IsSound};

    ghost Value = { SaslState };

    ghost view = { λ a. record { offer = a.offer; stage = a.stage; init = a.kept.init; kept = a.kept.rest; unsent = a.unsent } };

    ghost invariant = { λ a. IsSound a.offer a.stage a.kept.init a.kept.rest a.unsent };
}

/// Returns what a layer says at a stage.
fn outcome_of(stage: Stage) -> Outcome
    ensures { result ≡ outcome_of stage }
{
    match stage {
        Stage::Header | Stage::Init | Stage::Response => Outcome::More,
        Stage::Ask => Outcome::Ask,
        Stage::Past => Outcome::Past,
        Stage::Failed => Outcome::Failed,
    }
}

impl Sasl {
    ghost use Rattle.amqp_sasl.specs.Exchanges.{told, with_written, Says};

    /// Makes the layer of a new connection.
    pub fn new(offer: Offer) -> Self
        ensures exact { (answer : Option Bool) (bytes : List ℕ) → told result answer bytes ≡ exchange offer answer bytes }
        ensures offer { result.offer ≡ offer }
        ensures kept { (result.init ≡ []) × (result.kept ≡ []) }
        ensures stage { outcome_of result.stage ≡ Outcome.More }
    {
        Sasl {
            offer,
            stage: Stage::Header,
            kept: Kept::new(),
            unsent: Unsent::new(),
        }
    }

    /// Takes bytes of a piece, up to the end of the exchange or the byte that shows that it fails, and says how many.
    ///
    /// It takes none while the host is asked, nor once the exchange is past or failed.
    pub fn feed(&mut self, piece: &[u8]) -> Fed
        ensures bound { result.used ≤ length piece.now }
        ensures all { result.used < length piece.now → result.outcome ≡ Outcome.More → ⊥ }
        ensures exact { (answer : Option Bool) (more : List ℕ) → told self.old answer (take result.used piece.now ++ more) ≡ told self.new answer more }
        ensures none { (outcome_of self.old.stage ≡ Outcome.More → ⊥) → result.used ≡ 0 }
        ensures stage { result.outcome ≡ outcome_of self.new.stage }
        ensures says { Says result.outcome self.new }
        ensures offer { self.new.offer ≡ self.old.offer }
    {
        let mut used = 0;
        while used < piece.len() {
            match self.stage {
                Stage::Header => self.take_of_header(piece[used]),
                Stage::Init => self.take_of_init(piece[used]),
                Stage::Response => self.take_of_response(piece[used]),
                Stage::Ask | Stage::Past | Stage::Failed => break,
            }
            used += 1;
        }
        Fed {
            used,
            outcome: self.outcome(),
        }
    }

    /// Returns what the layer says.
    pub fn outcome(&self) -> Outcome
        ensures stage { result ≡ outcome_of self.now.stage }
        ensures says { Says result self.now }
    {
        outcome_of(self.stage)
    }

    /// Takes a byte of the header.
    fn take_of_header(&mut self, byte: u8)
        requires { self.old.stage ≡ Stage.Header }
        ensures exact { (answer : Option Bool) (more : List ℕ) → told self.old answer (byte ∷ more) ≡ told self.new answer more }
        ensures offer { self.new.offer ≡ self.old.offer }
    {
        self.kept.push(byte);
        match opening_of(self.offer, self.kept.rest()) {
            Opening::Short => {}
            Opening::Secured => {
                self.kept.wipe();
                self.unsent.put(SASL_HEADER.as_slice());
                self.unsent.put(mechanisms_frame(self.offer));
                self.stage = Stage::Init;
            }
            Opening::Bare => {
                self.stage = Stage::Past;
            }
            Opening::Other => {
                self.kept.wipe();
                self.unsent.put(SASL_HEADER.as_slice());
                self.stage = Stage::Failed;
            }
        }
    }

    /// Takes a byte of the frame of the `sasl-init`.
    fn take_of_init(&mut self, byte: u8)
        requires { self.old.stage ≡ Stage.Init }
        ensures exact { (answer : Option Bool) (more : List ℕ) → told self.old answer (byte ∷ more) ≡ told self.new answer more }
        ensures offer { self.new.offer ≡ self.old.offer }
    {
        self.kept.push(byte);
        match progress_of(MOST_KEPT, self.kept.rest()) {
            Progress::Short => {}
            Progress::Bad => {
                self.kept.wipe();
                self.stage = Stage::Failed;
            }
            Progress::Whole => match step_of(self.offer, self.kept.rest()) {
                Step::Challenges(_) => {
                    self.kept.split_off();
                    self.unsent.put(challenge_frame().as_slice());
                    self.stage = Stage::Response;
                }
                Step::Ends(verdict) => match verdict {
                    Verdict::Malformed => {
                        self.kept.wipe();
                        self.stage = Stage::Failed;
                    }
                    Verdict::Refused => {
                        self.kept.wipe();
                        self.unsent.put(outcome_frame(1).as_slice());
                        self.stage = Stage::Failed;
                    }
                    Verdict::Asks(_) => {
                        self.kept.split_off();
                        self.stage = Stage::Ask;
                    }
                },
            },
        }
    }

    /// Takes a byte of the frame of the `sasl-response`.
    fn take_of_response(&mut self, byte: u8)
        requires { self.old.stage ≡ Stage.Response }
        ensures exact { (answer : Option Bool) (more : List ℕ) → told self.old answer (byte ∷ more) ≡ told self.new answer more }
        ensures offer { self.new.offer ≡ self.old.offer }
    {
        self.kept.push(byte);
        match progress_of(self.kept.room(), self.kept.rest()) {
            Progress::Short => {}
            Progress::Bad => {
                self.kept.wipe();
                self.stage = Stage::Failed;
            }
            Progress::Whole => match verdict_of(self.offer, self.kept.init(), self.kept.rest()) {
                Verdict::Malformed => {
                    self.kept.wipe();
                    self.stage = Stage::Failed;
                }
                Verdict::Refused => {
                    self.kept.wipe();
                    self.unsent.put(outcome_frame(1).as_slice());
                    self.stage = Stage::Failed;
                }
                Verdict::Asks(_) => {
                    self.stage = Stage::Ask;
                }
            },
        }
    }

    /// Returns who the peer says it is, while the host is asked, and else `None`.
    pub fn asked(&self) -> Option<Init<'_>>
        ensures { IsAsked result (told self.now None []).standing }
    {
        match self.stage {
            Stage::Ask => match verdict_of(self.offer, self.kept.init(), self.kept.rest()) {
                Verdict::Asks(init) => Some(init),
                Verdict::Malformed | Verdict::Refused => None,
            },
            Stage::Header | Stage::Init | Stage::Response | Stage::Past | Stage::Failed => None,
        }
    }

    /// Answers whether the peer is admitted, after [`Outcome::Ask`]. What it sent is overwritten by zeros.
    pub fn admit(&mut self, admitted: bool)
        requires { outcome_of self.old.stage ≡ Outcome.Ask }
        ensures exact { (answer : Option Bool) (more : List ℕ) → told self.old (Some admitted) more ≡ told self.new answer more }
        ensures kept { (self.new.init ≡ []) × (self.new.kept ≡ []) }
        ensures stage { outcome_of self.new.stage ≡ (if admitted then Outcome.Past else Outcome.Failed) }
        ensures offer { self.new.offer ≡ self.old.offer }
    {
        self.kept.wipe();
        if admitted {
            self.unsent.put(outcome_frame(0).as_slice());
            self.stage = Stage::Past;
        } else {
            self.unsent.put(outcome_frame(1).as_slice());
            self.stage = Stage::Failed;
        }
    }

    /// Returns the bytes that were taken and are the endpoint's: the header of a peer that leaves SASL out, and else none.
    pub fn handed(&self) -> &[u8]
        ensures past { outcome_of self.now.stage ≡ Outcome.Past → result.now ≡ self.now.kept }
        ensures handed { (answer : Option Bool) → (told self.now answer []).handed ≡ result.now }
    {
        match self.stage {
            Stage::Past => self.kept.rest(),
            Stage::Header | Stage::Init | Stage::Response | Stage::Ask | Stage::Failed => &[],
        }
    }

    /// Moves the first bytes that wait for the peer into `out`, as many as it holds, and returns how many.
    pub fn output(&mut self, out: &mut [u8]) -> usize
        ensures count { result ≡ min (length out.old) (length self.old.unsent) }
        ensures read { out.new ≡ take result self.old.unsent ++ drop result out.old }
        ensures exact { (answer : Option Bool) (more : List ℕ) → told self.old answer more ≡ with_written (take result self.old.unsent) (told self.new answer more) }
        ensures stage { self.new.stage ≡ self.old.stage }
        ensures offer { self.new.offer ≡ self.old.offer }
    {
        self.unsent.read_into(out)
    }

    /// Returns how many bytes are held, of the peer and for it.
    pub fn held(&self) -> usize
        ensures value { result ≡ (length self.now.init + length self.now.kept) + length self.now.unsent }
        ensures most { result ≤ 595 }
    {
        self.kept.len() + self.unsent.len()
    }

    /// Returns the memory in which bytes of the peer are kept: those that are, and zeros. So nothing is left of what was
    /// kept before.
    pub fn memory(&self) -> &[u8]
        ensures { result.now ≡ (self.now.init ++ self.now.kept) ++ replicate (512 - (length self.now.init + length self.now.kept)) 0 }
    {
        self.kept.memory()
    }
}
