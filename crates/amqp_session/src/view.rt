//! A view of a link.
ghost use Rattle.std.specs.Prelude.{◌≡◌};
ghost use Rattle.amqp_perform.specs.Addresses.{node_of, target_node};

use amqp_link::LinkBounds;
use amqp_perform::{Address, address_of};

/// A live link, as the application may see it.
#[derive(Clone, Copy, Debug)]
pub struct LinkView<'a> {
    /// Its name, in UTF-8.
    pub name: &'a [u8],
    /// The source of its attach, as encoded there.
    pub source: &'a [u8],
    /// The target of its attach, as encoded there.
    pub target: &'a [u8],
    /// The credit that is left [2.6.7].
    pub credit: u32,
    /// How many deliveries are open [2.6.12].
    pub opened: u32,
    /// How many of them are ready to be handed up.
    pub ready: u32,
    /// How many deliveries the link allows, and how long a message may
    /// be.
    pub bounds: LinkBounds,
}

impl<'a> LinkView<'a> {
    /// Returns what its target says of its node [3.5.4].
    pub fn address(&self) -> Address<'a>
        ensures { node_of result ≡ target_node self.now.target.now }
    {
        address_of(self.target)
    }
}
