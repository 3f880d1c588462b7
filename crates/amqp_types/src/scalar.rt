//! Reading the data of values that hold no others.

ghost use Rattle.std.specs.Prelude.{◌≡◌, ℕ, List, ◌∷◌, ◌+◌, ◌≤◌, ◌<◌, ◌^◌, length, IfOk, IfSome, IfNone};
ghost use Rattle.std.specs.List.{position};
ghost use Rattle.std.specs.Str.{IsAscii};
ghost use Rattle.amqp_types.specs.Codes.{FitsItsKind, find_code, kind_of};
ghost use Rattle.amqp_types.specs.Kinds.{width, is_container};
ghost use Rattle.amqp_types.specs.Spelling.{sign_extended, size_len, IsNumberOf, AreOctetsOf};
ghost use Rattle.amqp_types.specs.Reading.{Is, is_beyond_ascii, octets_fault, form_at, number_at, sized_at, allowed};

use crate::code::{Constructor, Form, SizeWidth, find_code};
use crate::fault::ReadFault;
use crate::kind::{Kind, width};
use crate::window::Window;

/// Returns the constructor of a code at place `at`; `TooDeep` for a container if `holds` is false.
#[inline(always)]
pub fn allowed(at: usize, code: u8, holds: bool) -> Result<Constructor, ReadFault>
    ensures read { Is (λ c. c) result (allowed at holds (find_code code)) }
    ensures sound { IfOk result FitsItsKind }
{
    match find_code(code) {
        None => Err(ReadFault::UnknownCode(at)),
        Some(constructor) if is_container(constructor) && !holds => Err(ReadFault::TooDeep(at)),
        Some(constructor) => Ok(constructor),
    }
}

/// Whether values of the constructor may hold others.
fn is_container(constructor: Constructor) -> bool
    requires { FitsItsKind constructor }
    ensures { result ≡ is_container (kind_of constructor) }
{
    match constructor {
        Constructor::Fixed(..) | Constructor::Variable(..) => false,
        _ => true,
    }
}

/// Returns a byte in two's complement, extended to `n` bytes in two's complement.
#[tactic(auto, using(crate::proofs::Powers::pow_of_one))]
fn sign_extended(n: usize, byte: u64) -> u64
    requires some { 1 ≤ n }
    requires eight { n ≤ 8 }
    requires byte { byte < 256 }
    ensures value { result ≡ sign_extended n byte }
    ensures fits { result < 256 ^ n }
{
    if byte < 128 {
        return byte;
    }
    match n {
        1 => byte,
        2 => 0xff00 + byte,
        3 => 0xff_ff00 + byte,
        4 => 0xffff_ff00 + byte,
        5 => 0xff_ffff_ff00 + byte,
        6 => 0xffff_ffff_ff00 + byte,
        7 => 0xff_ffff_ffff_ff00 + byte,
        _ => 0xffff_ffff_ffff_ff00 + byte,
    }
}

/// Reads a number of `n` bytes, in its form.
#[tactic(auto, using(crate::proofs::Powers::pow_of_one), unfolding(crate::specs::Reading::form_at))]
fn form_at(w: Window, form: Form, n: usize, bytes: &[u8]) -> Result<(u64, &[u8]), ReadFault>
    requires some { 1 ≤ n }
    requires eight { n ≤ 8 }
    ensures read { Is (λ x. (x.0, x.1.now)) result (form_at w form n bytes.now) }
    ensures fits { IfOk result (λ x. x.0 < 256 ^ n) }
    ensures rest { IfOk result (λ x. length x.1.now ≤ length bytes.now) }
{
    match form {
        Form::Zero => Ok((0, bytes)),
        Form::One => Ok((1, bytes)),
        Form::OneByte => w.big(1, bytes),
        Form::OneSigned => {
            let (byte, rest) = w.big(1, bytes)?;
            Ok((sign_extended(n, byte), rest))
        }
        Form::Full => w.big(n, bytes),
    }
}

/// Reads a number of the kind, in its form.
#[tactic(auto, unfolding(crate::specs::Reading::number_at))]
pub fn number_at(w: Window, kind: Kind, form: Form, bytes: &[u8]) -> Result<(u64, &[u8]), ReadFault>
    requires within { length bytes.now ≤ w.end }
    requires some { 1 ≤ width kind }
    requires eight { width kind ≤ 8 }
    ensures read { Is (λ x. (x.0, x.1.now)) result (number_at w kind form bytes.now) }
    ensures fits { IfOk result (λ x. x.0 < 256 ^ width kind) }
    ensures of_kind { IfOk result (λ x. IsNumberOf kind x.0) }
    ensures rest { IfOk result (λ x. length x.1.now ≤ length bytes.now) }
{
    let at = w.place(bytes);
    let (number, rest) = form_at(w, form, width(kind), bytes)?;
    match kind {
        Kind::Boolean if number >= 2 => Err(ReadFault::BadBoolean(at)),
        Kind::Char if char::from_u32(number as u32).is_none() => Err(ReadFault::BadChar(at)),
        _ => Ok((number, rest)),
    }
}

/// Returns how many bytes the size field has.
pub fn size_len(size: SizeWidth) -> usize
    ensures { result ≡ size_len size }
{
    match size {
        SizeWidth::One => 1,
        SizeWidth::Four => 4,
    }
}

/// Returns what is wrong with the bytes of a value of variable width, which begin at place `at`.
fn octets_fault(kind: Kind, at: usize, octets: &[u8]) -> Option<ReadFault>
    requires { at + length octets.now < 2 ^ 64 }
    ensures fault { result ≡ octets_fault kind at octets.now }
    ensures of_kind { IfNone result (AreOctetsOf kind octets.now) }
{
    match kind {
        Kind::String => text_fault(at, octets),
        Kind::Symbol => symbol_fault(at, octets),
        _ => None,
    }
}

fn text_fault(at: usize, octets: &[u8]) -> Option<ReadFault>
    requires { at + length octets.now < 2 ^ 64 }
    ensures fault { result ≡ octets_fault Kind.String at octets.now }
    ensures of_kind { IfNone result (AreOctetsOf Kind.String octets.now) }
{
    match simdutf8::compat::from_utf8(octets) {
        Ok(_) => None,
        Err(e) => Some(ReadFault::BadText(at + e.valid_up_to())),
    }
}

/// Returns the index of the first byte at or above 0x80.
pub fn first_beyond_ascii(octets: &[u8]) -> Option<usize>
    ensures first { result ≡ position is_beyond_ascii octets.now }
    ensures within { IfSome result (λ n. n < length octets.now) }
    ensures ascii { IfNone result (IsAscii octets.now) }
{
    octets.iter().position(|octet| *octet >= 128)
}

fn symbol_fault(at: usize, octets: &[u8]) -> Option<ReadFault>
    requires { at + length octets.now < 2 ^ 64 }
    ensures fault { result ≡ octets_fault Kind.Symbol at octets.now }
    ensures of_kind { IfNone result (AreOctetsOf Kind.Symbol octets.now) }
{
    match first_beyond_ascii(octets) {
        None => None,
        Some(bad) => Some(ReadFault::BadSymbol(at + bad)),
    }
}

/// Reads a size, and returns the bytes of variable width that it counts and the bytes after them.
#[tactic(auto, unfolding(crate::specs::Reading::sized_at))]
pub fn sized_at(
    w: Window,
    kind: Kind,
    size: SizeWidth,
    bytes: &[u8],
) -> Result<(&[u8], &[u8]), ReadFault>
    requires { length bytes.now ≤ w.end }
    ensures read { Is (λ x. (x.0.now, x.1.now)) result (sized_at w kind size bytes.now) }
    ensures of_kind { IfOk result (λ x. AreOctetsOf kind x.0.now) }
    ensures rest { IfOk result (λ x. length x.1.now ≤ length bytes.now) }
{
    let (len, rest) = w.big(size_len(size), bytes)?;
    let (octets, after) = w.octets(len as usize, rest)?;
    match octets_fault(kind, w.place(rest), octets) {
        Some(fault) => Err(fault),
        None => Ok((octets, after)),
    }
}
