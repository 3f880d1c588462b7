//! Why bytes spell no value.

ghost use Rattle.std.specs.Prelude.{◌≡◌};
ghost use Rattle.amqp_types.specs.declared.fault.ReadFault.TheVariants.{NoMemory};

use std::alloc::{AllocError, AllocFailed};

/// The first fault from the left, with its place in bytes from the first byte of the outermost value.
#[derive(Clone, Copy, Debug, PartialEq, Eq)]
pub enum ReadFault {
    /// The input ends inside a part that is in no list, map or array, or before the end that an outermost
    /// size states; the place is the length of the input.
    Truncated(usize),
    /// A code that no constructor has, at the code.
    UnknownCode(usize),
    /// A part, or the end that its size states, reaches past the list, map or array around it, at that
    /// container's size field. Or a container has bytes left over, or a size too small for what comes
    /// before its parts: a count, and an array's element constructor. This is at its own size field.
    BadSize(usize),
    /// A map with an odd count, at the count field.
    BadCount(usize),
    /// A string that is not UTF-8, at the first byte after its longest valid front.
    BadText(usize),
    /// A symbol with a byte at or above 0x80, at that byte.
    BadSymbol(usize),
    /// A char that is no Unicode scalar value, at the first of its four bytes.
    BadChar(usize),
    /// A boolean's byte other than 0 and 1, at that byte.
    BadBoolean(usize),
    /// A key that its map has already, at the later key's constructor.
    DuplicateKey(usize),
    /// A list, map, array or described value deeper than the limit, at its constructor.
    TooDeep(usize),
    /// More nodes than the limit, at the constructor, the `00` or the count field that charges them.
    TooManyNodes(usize),
    /// Memory for the value, or for finding equal keys, was refused. This has no place.
    NoMemory,
}

impl ReadFault {
    ghost use Rattle.std.specs.Prelude.{◌≢◌, MatchOption};
    ghost use Rattle.amqp_types.specs.Places.{place_of};

    /// Returns the place of the fault in bytes; `None` for `NoMemory`, which has none.
    pub fn place(self) -> Option<usize>
        ensures { MatchOption result (self ≡ NoMemory) (λ place. (place ≡ place_of self) × (self ≢ NoMemory)) }
    {
        match self {
            ReadFault::Truncated(place)
            | ReadFault::UnknownCode(place)
            | ReadFault::BadSize(place)
            | ReadFault::BadCount(place)
            | ReadFault::BadText(place)
            | ReadFault::BadSymbol(place)
            | ReadFault::BadChar(place)
            | ReadFault::BadBoolean(place)
            | ReadFault::DuplicateKey(place)
            | ReadFault::TooDeep(place)
            | ReadFault::TooManyNodes(place) => Some(place),
            ReadFault::NoMemory => None,
        }
    }

    /// Returns the name of the fault, without its place.
    pub fn name(self) -> &'static str {
        match self {
            ReadFault::Truncated(_) => "Truncated",
            ReadFault::UnknownCode(_) => "UnknownCode",
            ReadFault::BadSize(_) => "BadSize",
            ReadFault::BadCount(_) => "BadCount",
            ReadFault::BadText(_) => "BadText",
            ReadFault::BadSymbol(_) => "BadSymbol",
            ReadFault::BadChar(_) => "BadChar",
            ReadFault::BadBoolean(_) => "BadBoolean",
            ReadFault::DuplicateKey(_) => "DuplicateKey",
            ReadFault::TooDeep(_) => "TooDeep",
            ReadFault::TooManyNodes(_) => "TooManyNodes",
            ReadFault::NoMemory => "NoMemory",
        }
    }
}

impl From<AllocError> for ReadFault {
    ghost from_gives = { λ _ e. e ≡ NoMemory };

    fn from(_e: AllocError) -> ReadFault {
        ReadFault::NoMemory
    }
}

impl<T: Drop> From<AllocFailed<T>> for ReadFault {
    ghost from_gives = { λ _ e. e ≡ NoMemory };

    fn from(_e: AllocFailed<T>) -> ReadFault {
        ReadFault::NoMemory
    }
}
