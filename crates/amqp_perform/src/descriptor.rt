//! Descriptors of the lists that this crate reads. [1.3; 2.7; 2.8.14; 3.4]

/// A composite type that describes a list.
#[derive(Clone, Copy, Debug, PartialEq, Eq)]
pub enum Descriptor {
    Open,
    Begin,
    Attach,
    Flow,
    Transfer,
    Disposition,
    Detach,
    End,
    Close,
    Error,
    Accepted,
    Rejected,
    Released,
    Modified,
}

/// All descriptors.
const DESCRIPTORS: [Descriptor; 14] = [
    Descriptor::Open,
    Descriptor::Begin,
    Descriptor::Attach,
    Descriptor::Flow,
    Descriptor::Transfer,
    Descriptor::Disposition,
    Descriptor::Detach,
    Descriptor::End,
    Descriptor::Close,
    Descriptor::Error,
    Descriptor::Accepted,
    Descriptor::Rejected,
    Descriptor::Released,
    Descriptor::Modified,
];

impl Descriptor {
    ghost use Rattle.std.specs.Prelude.{◌≡◌};
    ghost use Rattle.amqp_perform.specs.Descriptors.{code_of, symbol_of, by_code, by_symbol};

    /// Returns the type that this number describes; `None` for any other [2.7, 2.8.14, 3.4].
    #[tactic(auto, unfolding(crate::specs::Descriptors::by_code))]
    pub fn of_code(code: u64) -> Option<Descriptor>
        ensures { result ≡ by_code code }
    {
        let descriptor = match code {
            0x10 => Descriptor::Open,
            0x11 => Descriptor::Begin,
            0x12 => Descriptor::Attach,
            0x13 => Descriptor::Flow,
            0x14 => Descriptor::Transfer,
            0x15 => Descriptor::Disposition,
            0x16 => Descriptor::Detach,
            0x17 => Descriptor::End,
            0x18 => Descriptor::Close,
            0x1d => Descriptor::Error,
            0x24 => Descriptor::Accepted,
            0x25 => Descriptor::Rejected,
            0x26 => Descriptor::Released,
            0x27 => Descriptor::Modified,
            _ => return None,
        };
        Some(descriptor)
    }

    /// Returns the type that this symbol describes; `None` for any other [2.7, 2.8.14, 3.4].
    #[tactic(auto, unfolding(crate::specs::Descriptors::by_symbol))]
    pub fn of_symbol(symbol: &[u8]) -> Option<Descriptor>
        ensures { result ≡ by_symbol symbol.now }
    {
        DESCRIPTORS
            .iter()
            .copied()
            .find(|descriptor| descriptor.symbol() == symbol)
    }

    /// Returns the name of the performative that it describes; `None` for an error and a delivery
    /// state. [2.7]
    pub fn performative_name(self) -> Option<&'static str> {
        match self {
            Descriptor::Open => Some("open"),
            Descriptor::Begin => Some("begin"),
            Descriptor::Attach => Some("attach"),
            Descriptor::Flow => Some("flow"),
            Descriptor::Transfer => Some("transfer"),
            Descriptor::Disposition => Some("disposition"),
            Descriptor::Detach => Some("detach"),
            Descriptor::End => Some("end"),
            Descriptor::Close => Some("close"),
            _ => None,
        }
    }

    /// Returns the symbol that describes the type.
    fn symbol(self) -> &'static [u8]
        ensures { result.now ≡ symbol_of self }
    {
        match self {
            Descriptor::Open => b"amqp:open:list",
            Descriptor::Begin => b"amqp:begin:list",
            Descriptor::Attach => b"amqp:attach:list",
            Descriptor::Flow => b"amqp:flow:list",
            Descriptor::Transfer => b"amqp:transfer:list",
            Descriptor::Disposition => b"amqp:disposition:list",
            Descriptor::Detach => b"amqp:detach:list",
            Descriptor::End => b"amqp:end:list",
            Descriptor::Close => b"amqp:close:list",
            Descriptor::Error => b"amqp:error:list",
            Descriptor::Accepted => b"amqp:accepted:list",
            Descriptor::Rejected => b"amqp:rejected:list",
            Descriptor::Released => b"amqp:released:list",
            Descriptor::Modified => b"amqp:modified:list",
        }
    }

    /// Returns the number that describes the type.
    pub fn code(self) -> u8
        ensures { result ≡ code_of self }
    {
        match self {
            Descriptor::Open => 0x10,
            Descriptor::Begin => 0x11,
            Descriptor::Attach => 0x12,
            Descriptor::Flow => 0x13,
            Descriptor::Transfer => 0x14,
            Descriptor::Disposition => 0x15,
            Descriptor::Detach => 0x16,
            Descriptor::End => 0x17,
            Descriptor::Close => 0x18,
            Descriptor::Error => 0x1d,
            Descriptor::Accepted => 0x24,
            Descriptor::Rejected => 0x25,
            Descriptor::Released => 0x26,
            Descriptor::Modified => 0x27,
        }
    }
}
