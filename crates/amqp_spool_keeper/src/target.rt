//! What the target of a link says, which is read once for records of that link that come one after the other.

ghost use Rattle.std.specs.Prelude.{◌≡◌, [], OnOk, IfOk};
ghost use Rattle.amqp_perform.specs.Addresses.{node_of, target_node};
ghost use Rattle.amqp_spool_keeper.specs.Senders.{kind_of, target_by};

use amqp_perform::Address;
use amqp_session::LinkView;
use std::alloc::{AllocError, Global};
use std::marker::Model;

/// The target that was read last.
#[derive(Drop)]
pub struct Target {
    alloc: Global,
    /// As its attach spells it.
    text: Vec<u8>,
    /// The number of what it is.
    kind: u8,
    /// Its address, or itself if what it is isn't known.
    address: Vec<u8>,
}

impl Model for Target {
    ghost use Rattle.std.specs.Prelude.{◌≡◌, List, ℕ};
    ghost use Rattle.amqp_perform.specs.Addresses.{target_node};
    ghost use Rattle.amqp_spool_keeper.specs.Senders.{kind_of, target_by};

    ghost Value = { List ℕ };

    ghost view = { λ a. a.text.items };

    ghost invariant = { λ a. (a.kind ≡ kind_of (target_node a.text.items)) × (a.address.items ≡ target_by (target_node a.text.items) a.text.items) };
}

impl Target {
    /// Returns no target: none was read.
    pub fn new(alloc: Global) -> Target
        ensures { result ≡ [] }
    {
        Target {
            alloc,
            text: Vec::new(alloc),
            kind: 2,
            address: Vec::new(alloc),
        }
    }

    /// Reads the target of a link, unless it is the one that was read last.
    pub fn read(&mut self, link: &LinkView<'_>) -> Result<(), AllocError>
        ensures { OnOk result (self.new ≡ link.now.target.now) }
    {
        if self.text.as_slice() != link.target {
            *self = Target::of(self.alloc, link)?;
        }
        Ok(())
    }

    /// Returns the target of a link.
    fn of(alloc: Global, link: &LinkView<'_>) -> Result<Target, AllocError>
        ensures { IfOk result (λ target. target ≡ link.now.target.now) }
    {
        let address = link.address();
        Ok(Target {
            alloc,
            text: Vec::from_slice(alloc, link.target)?,
            kind: kind_of(address),
            address: Vec::from_slice(alloc, target_by(address, link.target))?,
        })
    }

    /// Returns the number of what it is.
    pub fn kind(&self) -> u8
        ensures { result ≡ kind_of (target_node self.now) }
    {
        self.kind
    }

    /// Returns its address, or itself if what it is isn't known.
    pub fn address(&self) -> &[u8]
        ensures { result.now ≡ target_by (target_node self.now) self.now }
    {
        &self.address
    }
}

/// Returns the number of what the target is.
fn kind_of(address: Address<'_>) -> u8
    ensures { result ≡ kind_of (node_of address.entry) }
{
    match address {
        Address::Name(_) => 0,
        Address::Dynamic => 1,
        Address::Absent | Address::NoTarget => 2,
        Address::Other => 3,
    }
}

/// Returns the address of a target, or the target itself if that is none that is known.
fn target_by<'a>(address: Address<'a>, target: &'a [u8]) -> &'a [u8]
    ensures { result.now ≡ target_by (node_of address.entry) target.now }
{
    match address {
        Address::Name(name) => name.as_bytes(),
        Address::Other => target,
        _ => &[],
    }
}
