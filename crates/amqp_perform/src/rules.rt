//! What the fields of the performatives may hold. [2.7]
//!
//! It is what the tables of `specs/Tables.antt` say, without names and without what an absent field is.

ghost use Rattle.std.specs.Prelude.{◌≡◌, map, option_map, option_copied};
ghost use Rattle.amqp_perform.specs.Rules.{asked_by, asked_of};
ghost use Rattle.amqp_perform.specs.Tables.{fields_of};

use crate::descriptor::Descriptor;
use FieldType::{
    Any, Binary, Boolean, FrameSize, ReceiverSettleMode, SenderSettleMode, Text, Uint, Ushort,
};
use Rule::{Mandatory, Optional};

/// What a field may be.
#[derive(Clone, Copy)]
pub enum FieldType {
    Boolean,
    SenderSettleMode,
    ReceiverSettleMode,
    Ushort,
    Uint,
    /// A uint of at least 512.
    FrameSize,
    Binary,
    Text,
    /// A value of any type.
    Any,
}

/// What a field may hold, and whether it may be absent.
#[derive(Clone, Copy)]
pub enum Rule {
    Mandatory(FieldType),
    Optional(FieldType),
}

/// The fields of an open. [2.7.1]
const OPEN: [Rule; 10] = [
    Mandatory(Text),
    Optional(Any),
    Optional(FrameSize),
    Optional(Ushort),
    Optional(Any),
    Optional(Any),
    Optional(Any),
    Optional(Any),
    Optional(Any),
    Optional(Any),
];

/// The fields of a begin. [2.7.2]
const BEGIN: [Rule; 8] = [
    Optional(Ushort),
    Mandatory(Uint),
    Mandatory(Uint),
    Mandatory(Uint),
    Optional(Uint),
    Optional(Any),
    Optional(Any),
    Optional(Any),
];

/// The fields of an attach. [2.7.3]
const ATTACH: [Rule; 14] = [
    Mandatory(Text),
    Mandatory(Uint),
    Mandatory(Boolean),
    Optional(SenderSettleMode),
    Optional(ReceiverSettleMode),
    Optional(Any),
    Optional(Any),
    Optional(Any),
    Optional(Any),
    Optional(Uint),
    Optional(Any),
    Optional(Any),
    Optional(Any),
    Optional(Any),
];

/// The fields of a flow. [2.7.4]
const FLOW: [Rule; 11] = [
    Optional(Uint),
    Mandatory(Uint),
    Mandatory(Uint),
    Mandatory(Uint),
    Optional(Uint),
    Optional(Uint),
    Optional(Uint),
    Optional(Uint),
    Optional(Boolean),
    Optional(Boolean),
    Optional(Any),
];

/// The fields of a transfer. [2.7.5]
const TRANSFER: [Rule; 11] = [
    Mandatory(Uint),
    Optional(Uint),
    Optional(Binary),
    Optional(Uint),
    Optional(Boolean),
    Optional(Boolean),
    Optional(ReceiverSettleMode),
    Optional(Any),
    Optional(Boolean),
    Optional(Boolean),
    Optional(Any),
];

/// The fields of a disposition. [2.7.6]
const DISPOSITION: [Rule; 6] = [
    Mandatory(Boolean),
    Mandatory(Uint),
    Optional(Uint),
    Optional(Boolean),
    Optional(Any),
    Optional(Any),
];

/// The fields of a detach. [2.7.7]
const DETACH: [Rule; 3] = [Mandatory(Uint), Optional(Boolean), Optional(Any)];

/// The field of an end and of a close. [2.7.8; 2.7.9]
const ERROR: [Rule; 1] = [Optional(Any)];

/// Returns the rules of a performative's fields; `None` if the descriptor is that of no performative.
pub fn rules_of(descriptor: Descriptor) -> Option<&'static [Rule]>
    ensures { option_map (map asked_by) (option_copied result) ≡ option_map (map asked_of) (fields_of descriptor) }
{
    match descriptor {
        Descriptor::Open => Some(&OPEN),
        Descriptor::Begin => Some(&BEGIN),
        Descriptor::Attach => Some(&ATTACH),
        Descriptor::Flow => Some(&FLOW),
        Descriptor::Transfer => Some(&TRANSFER),
        Descriptor::Disposition => Some(&DISPOSITION),
        Descriptor::Detach => Some(&DETACH),
        Descriptor::End | Descriptor::Close => Some(&ERROR),
        _ => None,
    }
}
