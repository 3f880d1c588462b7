//! What `amqp_types` promises.

ghost use Rattle.std.specs.Prelude.{◌≤◌, length, drop, IfOk, IfErr, ◌≡◌, ◌⊎◌, ℕ, ◌+◌, List, ◌++◌, take, Some, Ok, OnOk, OnErr, ◌<◌, IfSome, IfNone, ◌↔◌, None, IsSome};
ghost use Rattle.amqp_types.specs.Codes.{find_code};
ghost use Rattle.amqp_types.specs.Decoding.{decoded};
ghost use Rattle.amqp_types.specs.Kinds.{width};
ghost use Rattle.amqp_types.specs.Places.{place_of, IsPlain};
ghost use Rattle.amqp_types.specs.Reading.{Gives, Is, after, value_of};
ghost use Rattle.amqp_types.specs.Skipping.{rest_of};
ghost use Rattle.amqp_types.specs.Values.{view};
ghost use Rattle.amqp_types.specs.InHand.{outermost};
ghost use Rattle.amqp_types.specs.Misreading.{AValue, Misread};
ghost use Rattle.amqp_types.specs.Trees.{Tree, IsLawful, depth_of, nodes_of};
ghost use Rattle.amqp_types.specs.Spelling.{Spells, form_len};
ghost use Rattle.amqp_types.specs.Canonical.{canonical, Fits};
ghost use Rattle.amqp_types.specs.Parts.{IsRefusedFor};
ghost use Rattle.amqp_types.specs.Peeks.{BeginsWithValue, IsOutermost, IsScalarOf, IsPut};
ghost use Rattle.std.specs.Str.{IsAscii};

use amqp_types::{Constructor, Form, Kind, Limits, Peek, ReadFault, Symbol, Value, WriteFault};
use std::alloc::Global;

/// Returns the length in bytes of the value that the bytes begin with, if that is lawful and within the limits
/// [1.2].
pub fn check(alloc: Global, bytes: &[u8], limits: Limits) -> Result<usize, ReadFault>
    ensures within { IfOk result (λ n. n ≤ length bytes.now) }
    ensures exact { Gives (λ n. drop n bytes.now) result (rest_of (decoded limits.depth limits.nodes bytes.now)) }
    // The place of a fault is within the bytes.
    ensures placed { IfErr result (λ e. place_of e ≤ length bytes.now) }
{
    amqp_types::check(alloc, bytes, limits)
}

/// Returns the value that the bytes begin with, and its length in bytes [1.2].
pub fn decode(alloc: Global, bytes: &[u8], limits: Limits) -> Result<(Value, usize), ReadFault>
    ensures within { IfOk result (λ x. x.1 ≤ length bytes.now) }
    // What is returned is spelled there, lawful and within the limits.
    ensures found { IfOk result (λ x. Spells (view x.0) (take x.1 bytes.now) × IsLawful (view x.0) × (depth_of (view x.0) ≤ limits.depth) × (nodes_of (view x.0) ≤ limits.nodes)) }
    // Each lawful value within the limits that is spelled there is returned, unless memory is refused.
    ensures only { (t : Tree) (text rest : List ℕ) → Spells t text → IsLawful t → depth_of t ≤ limits.depth → nodes_of t ≤ limits.nodes
        → bytes.now ≡ text ++ rest → Gives {Y = Tree × ℕ} (λ x. (view x.0, x.1)) result (Ok (t, length text)) }
    // A fault is one that the bytes have, and it is the first.
    ensures misread { IfErr result (λ e. (e ≡ ReadFault.NoMemory) ⊎ Misread (AValue 1) limits.depth (outermost bytes.now) (Some limits.nodes) bytes.now e) }
    ensures exact { Gives (λ x. (view x.0, drop x.1 bytes.now)) result (decoded limits.depth limits.nodes bytes.now) }
    // The place of a fault is within the bytes.
    ensures placed { IfErr result (λ e. place_of e ≤ length bytes.now) }
{
    amqp_types::decode(alloc, bytes, limits)
}

/// Appends the canonical spelling of the value, whole or not at all [1.2; 1.6].
pub fn encode(value: &Value, out: &mut Vec<u8>) -> Result<(), WriteFault>
    ensures appended { OnOk result (out.new.items ≡ out.old.items ++ canonical (view value.now)) }
    ensures unchanged { OnErr result (out.new.items ≡ out.old.items) }
    ensures lawful { OnOk result (IsLawful (view value.now)) }
    ensures fits { OnOk result (Fits (view value.now)) }
    ensures fault { IfErr result (λ e. IsRefusedFor e (view value.now)) }
    ensures memory { IsLawful (view value.now) → Fits (view value.now)
        → IfErr result (λ e. e ≡ WriteFault.NoMemory) }
{
    amqp_types::encode(value, out)
}

/// Returns the outermost case of the value that the bytes begin with. They have to begin with one [1.2].
pub fn peek(bytes: &[u8]) -> Peek<'_>
    requires { BeginsWithValue bytes.now }
    ensures { (t : Tree) (text rest : List ℕ) → Spells t text → bytes.now ≡ text ++ rest → IsOutermost t text result }
{
    amqp_types::peek(bytes)
}

/// Writes the canonical spelling of a scalar at the front of `out`, and returns its length in bytes; `None` if
/// it does not fit [1.2; 1.6].
pub fn put(value: &Peek<'_>, out: &mut [u8]) -> Option<usize>
    // What is written is the canonical spelling, and it spells the value.
    ensures some { IfSome result (λ n. (t : Tree) × IsScalarOf t value.now × Spells t (canonical t)
        × IsPut (canonical t) out.old out.new n) }
    ensures none { IfNone result ((t : Tree) → IsScalarOf t value.now → length out.old < length (canonical t)) }
    ensures unchanged { IfNone result (out.new ≡ out.old) }
{
    amqp_types::put(value, out)
}

/// Returns the length in bytes of the value that the bytes begin with, if that is within a depth [1.2].
pub fn skip(bytes: &[u8], depth: usize) -> Result<usize, ReadFault>
    ensures within { IfOk result (λ n. n ≤ length bytes.now) }
    // What is found is spelled there.
    ensures found { IfOk result (λ n. (t : Tree) × Spells t (take n bytes.now) × (depth_of t ≤ depth)) }
    // Each value within the depth that is spelled there is found.
    ensures only { (t : Tree) (text rest : List ℕ) → Spells t text → depth_of t ≤ depth → bytes.now ≡ text ++ rest → result ≡ Ok (length text) }
    // A fault is one that the bytes have, and it is the first.
    ensures misread { IfErr result (λ e. Misread (AValue 1) depth (outermost bytes.now) None bytes.now e) }
    ensures exact { Is (λ n. drop n bytes.now) result (after (value_of depth None bytes.now)) }
    // The place of a fault is within the bytes, and the fault is of the bytes only.
    ensures placed { IfErr result (λ e. place_of e ≤ length bytes.now) }
    ensures plain { IfErr result (λ e. IsPlain e) }
{
    amqp_types::skip(bytes, depth)
}

/// Makes the symbol of these bytes; `None` unless each is below 0x80.
pub fn new(octets: Vec<u8>) -> Option<Symbol>
    ensures made { IfSome result (λ s. s ≡ octets.items) }
    ensures ascii { IsSome result ↔ IsAscii octets.items }
{
    Symbol::new(octets)
}

/// Returns the bytes of the symbol, each below 0x80.
pub fn as_bytes(symbol: &Symbol) -> &[u8]
    ensures octets { result.now ≡ symbol.now }
    ensures ascii { IsAscii symbol.now }
{
    symbol.as_bytes()
}

/// Gives back the bytes of the symbol.
pub fn into_bytes(symbol: Symbol) -> Vec<u8>
    ensures { result.items ≡ symbol }
{
    symbol.into_bytes()
}

/// Returns the constructor of a code; `None` if it has none [1.2, 1.6].
pub fn find_code(code: u8) -> Option<Constructor>
    ensures { result ≡ find_code code }
{
    amqp_types::find_code(code)
}

/// Returns how many bytes follow a constructor of fixed width [1.2].
pub fn form_len(kind: Kind, form: Form) -> usize
    ensures { result ≡ form_len form (width kind) }
{
    amqp_types::form_len(kind, form)
}
