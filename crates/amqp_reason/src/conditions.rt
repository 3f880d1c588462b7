//! The conditions of the standard by name. [2.8.15 to 2.8.18]

/// An internal error.
pub const INTERNAL_ERROR: &str = "amqp:internal-error";
/// What was asked for does not exist.
pub const NOT_FOUND: &str = "amqp:not-found";
/// The peer may not use what it asked for.
pub const UNAUTHORIZED_ACCESS: &str = "amqp:unauthorized-access";
/// Data could not be decoded.
pub const DECODE_ERROR: &str = "amqp:decode-error";
/// The peer exceeded what it was allocated.
pub const RESOURCE_LIMIT_EXCEEDED: &str = "amqp:resource-limit-exceeded";
/// The peer used something in a way that is not allowed.
pub const NOT_ALLOWED: &str = "amqp:not-allowed";
/// A field has a value that it must not have.
pub const INVALID_FIELD: &str = "amqp:invalid-field";
/// What was asked for is not implemented.
pub const NOT_IMPLEMENTED: &str = "amqp:not-implemented";
/// Another uses what was asked for.
pub const RESOURCE_LOCKED: &str = "amqp:resource-locked";
/// A precondition was not met.
pub const PRECONDITION_FAILED: &str = "amqp:precondition-failed";
/// What the peer used was deleted.
pub const RESOURCE_DELETED: &str = "amqp:resource-deleted";
/// A frame came that the state of the session does not allow.
pub const ILLEGAL_STATE: &str = "amqp:illegal-state";
/// The peer's frames are too small for what is to be sent.
pub const FRAME_SIZE_TOO_SMALL: &str = "amqp:frame-size-too-small";

/// An operator closes the connection.
pub const CONNECTION_FORCED: &str = "amqp:connection:forced";
/// A malformed frame came.
pub const FRAMING_ERROR: &str = "amqp:connection:framing-error";
/// What the connection is for is to be found elsewhere.
pub const CONNECTION_REDIRECT: &str = "amqp:connection:redirect";

/// The peer sent more transfers than the window allows.
pub const WINDOW_VIOLATION: &str = "amqp:session:window-violation";
/// Input came for a link that was detached with an error.
pub const ERRANT_LINK: &str = "amqp:session:errant-link";
/// A link attaches at a handle that is in use.
pub const HANDLE_IN_USE: &str = "amqp:session:handle-in-use";
/// A frame came for a handle that is not in use.
pub const UNATTACHED_HANDLE: &str = "amqp:session:unattached-handle";

/// An operator detaches the link.
pub const DETACH_FORCED: &str = "amqp:link:detach-forced";
/// The peer sent more messages than the credit allows.
pub const TRANSFER_LIMIT_EXCEEDED: &str = "amqp:link:transfer-limit-exceeded";
/// A message is longer than the link allows.
pub const MESSAGE_SIZE_EXCEEDED: &str = "amqp:link:message-size-exceeded";
/// What the link is for is to be found elsewhere.
pub const LINK_REDIRECT: &str = "amqp:link:redirect";
/// Another attached the link.
pub const STOLEN: &str = "amqp:link:stolen";
