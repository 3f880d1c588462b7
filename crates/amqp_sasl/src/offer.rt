//! What this side offers.
ghost use Rattle.std.specs.Prelude.{◌≡◌, ◌||◌, true};

/// The mechanisms that are offered, at least one [5.3.3.1], and whether SASL may be left out.
#[derive(Clone, Copy, Debug, PartialEq, Eq)]
pub struct Offer {
    /// A peer need not say who it is. [RFC 4505]
    pub anonymous: bool,
    /// A user name and a password, which the host checks. [RFC 4616]
    pub plain: bool,
    /// The host knows who the peer is. [RFC 4422, appendix A]
    pub external: bool,
    /// A peer may begin with a header of AMQP itself, and is handed on.
    pub optional: bool,
    ghost some: { (anonymous || (plain || external)) ≡ true },
}
