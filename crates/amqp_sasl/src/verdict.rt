//! What is done about a frame. [5.3.2]
ghost use Rattle.std.specs.Prelude.{◌≡◌};
ghost use Rattle.std.specs.Option.{option_copied};
ghost use Rattle.amqp_frame.specs.Units.{body_of};
ghost use Rattle.amqp_sasl.specs.Verdicts.{IsVerdict, IsStep, step_of, reply_of, verdict_of};

use crate::claim::{Login, Said, plain_in, said_by};
use crate::frame::body_of;
use crate::offer::Offer;
use crate::sasl_init::{read_init, read_response};

/// What the host is asked: whether a peer is admitted.
#[derive(Clone, Copy)]
pub struct Init<'a> {
    pub login: Login<'a>,
    /// The name of the host that the peer looks for.
    pub hostname: Option<&'a str>,
}

/// What is done about the frame that ends an exchange.
#[derive(Clone, Copy)]
pub enum Verdict<'a> {
    /// It is not the frame that is due.
    Malformed,
    /// Its mechanism is not offered, or its response is not one of the mechanism.
    Refused,
    /// The host decides.
    Asks(Init<'a>),
}

/// What is done about the first frame.
#[derive(Clone, Copy)]
pub enum Step<'a> {
    Ends(Verdict<'a>),
    /// The response is due. The name of the host that the peer looks for was this.
    Challenges(Option<&'a str>),
}

/// How long a frame may be if a response is due: 8 bytes of the 512 are left for it.
const MOST_CHALLENGED: usize = 504;

/// Returns what is done about the frame of a `sasl-init`.
#[tactic(auto, unfolding(crate::specs::Verdicts::step_of))]
pub fn step_of(offer: Offer, frame: &[u8]) -> Step<'_>
    ensures { IsStep result (step_of offer frame.now) }
{
    let Some(init) = read_init(body_of(frame)) else {
        return Step::Ends(Verdict::Malformed);
    };
    match said_by(offer, init) {
        Said::Unfit => Step::Ends(Verdict::Refused),
        Said::Lacks => {
            if frame.len() > MOST_CHALLENGED {
                Step::Ends(Verdict::Refused)
            } else {
                Step::Challenges(init.hostname)
            }
        }
        Said::Claims(login) => Step::Ends(Verdict::Asks(Init {
            login,
            hostname: init.hostname,
        })),
    }
}

/// Returns what is done about the frame of a `sasl-response`, which says what the `sasl-init` of PLAIN might have said. [5.3.3.4]
#[tactic(auto, unfolding(crate::specs::Verdicts::reply_of))]
fn reply_of<'a>(hostname: Option<&'a str>, frame: &'a [u8]) -> Verdict<'a>
    ensures { IsVerdict result (reply_of (option_copied hostname.entry) frame.now) }
{
    let Some(response) = read_response(body_of(frame)) else {
        return Verdict::Malformed;
    };
    match plain_in(response) {
        Some(login) => Verdict::Asks(Init { login, hostname }),
        None => Verdict::Refused,
    }
}

/// Returns what is done about the frame of a `sasl-init`, and that of its `sasl-response` if one is due.
pub fn verdict_of<'a>(offer: Offer, init: &'a [u8], reply: &'a [u8]) -> Verdict<'a>
    ensures { IsVerdict result (verdict_of offer init.now reply.now) }
{
    match step_of(offer, init) {
        Step::Ends(verdict) => verdict,
        Step::Challenges(hostname) => reply_of(hostname, reply),
    }
}
