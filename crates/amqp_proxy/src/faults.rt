//! Why a connection behind a proxy is refused.
use thiserror::Error;

/// Why a header is refused.
#[derive(Clone, Copy, Debug, PartialEq, Eq, Drop, Error)]
pub enum ProxyFault {
    /// The connection does not begin with the signature. It is told at the first byte that differs.
    #[error("Signature")]
    Signature,
    /// The version is not 2.
    #[error("Version")]
    Version,
    /// The command is neither LOCAL nor PROXY.
    #[error("Command")]
    Command,
    /// More than 520 bytes are to follow the first 16.
    #[error("TooLong")]
    TooLong,
    /// The addresses or a TLV go beyond the end of what they are in, an SSL TLV has less than 5 bytes, or there are two
    /// SSL TLVs or two names.
    #[error("Malformed")]
    Malformed,
    /// The name has no bytes.
    #[error("NameEmpty")]
    NameEmpty,
    /// The name has more than 255 bytes.
    #[error("NameTooLong")]
    NameTooLong,
    /// The name is not UTF-8.
    #[error("NameNotText")]
    NameNotText,
}
