//! The kinds of values.

ghost use Rattle.std.specs.Prelude.{◌≡◌};
ghost use Rattle.amqp_types.specs.Kinds.{width, is_partial};

/// The kind of a value: a primitive type of AMQP. [1.6]
#[derive(Clone, Copy, Debug, PartialEq, Eq)]
pub enum Kind {
    Null,
    Boolean,
    Ubyte,
    Ushort,
    Uint,
    Ulong,
    Byte,
    Short,
    Int,
    Long,
    Float,
    Double,
    Decimal32,
    Decimal64,
    Decimal128,
    Char,
    Timestamp,
    Uuid,
    Binary,
    String,
    Symbol,
    List,
    Map,
    Array,
}

impl Kind {
    /// Returns the name of the type in the standard's table. [1.6]
    pub fn name(self) -> &'static str {
        match self {
            Kind::Null => "null",
            Kind::Boolean => "boolean",
            Kind::Ubyte => "ubyte",
            Kind::Ushort => "ushort",
            Kind::Uint => "uint",
            Kind::Ulong => "ulong",
            Kind::Byte => "byte",
            Kind::Short => "short",
            Kind::Int => "int",
            Kind::Long => "long",
            Kind::Float => "float",
            Kind::Double => "double",
            Kind::Decimal32 => "decimal32",
            Kind::Decimal64 => "decimal64",
            Kind::Decimal128 => "decimal128",
            Kind::Char => "char",
            Kind::Timestamp => "timestamp",
            Kind::Uuid => "uuid",
            Kind::Binary => "binary",
            Kind::String => "string",
            Kind::Symbol => "symbol",
            Kind::List => "list",
            Kind::Map => "map",
            Kind::Array => "array",
        }
    }
}

/// Returns how many bytes the full form of a fixed-width kind has; 0 for a kind of variable width.
pub(crate) fn width(kind: Kind) -> usize
    ensures { result ≡ width kind }
{
    match kind {
        Kind::Null | Kind::Binary | Kind::String | Kind::Symbol => 0,
        Kind::List | Kind::Map | Kind::Array => 0,
        Kind::Boolean | Kind::Ubyte | Kind::Byte => 1,
        Kind::Ushort | Kind::Short => 2,
        Kind::Uint | Kind::Int | Kind::Float | Kind::Decimal32 | Kind::Char => 4,
        Kind::Ulong | Kind::Long | Kind::Double | Kind::Decimal64 | Kind::Timestamp => 8,
        Kind::Decimal128 | Kind::Uuid => 16,
    }
}

/// Whether some data of the kind's full form are not valid.
pub(crate) fn is_partial(kind: Kind) -> bool
    ensures { result ≡ is_partial kind }
{
    matches!(kind, Kind::Boolean | Kind::Char)
}
