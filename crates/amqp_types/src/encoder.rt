//! Writing a value in its canonical spelling.

ghost use Rattle.std.specs.Prelude.{◌≡◌, ◌++◌, map, true, IsTrue, OnOk, OnErr, IfOk, IfErr};
ghost use Rattle.amqp_types.specs.Canonical.{has_room, content_of, canonical, canonicals, canonical_pairs, canonical_heads, parts, items_data, all_small, all_data, shell_of, Fits, AllFit, PairsFit};
ghost use Rattle.amqp_types.specs.Lawful.{ItemsAgree, KeysDiffer};
ghost use Rattle.amqp_types.specs.Parts.{seen, IsUnfit, IsRefusedFor};
ghost use Rattle.amqp_types.specs.Trees.{IsLawful, count_of, pair_count};
ghost use Rattle.amqp_types.specs.Values.{view, views, pair_views};

use crate::checks::{items_agree, keys_differ};
use crate::code::SizeWidth;
use crate::kind::Kind;
use crate::part::{Part, has_room};
use crate::shape::{Shape, shape_of};
use crate::shell::{Shell, full_code, narrowest};
use crate::value::Value;
use crate::write_fault::WriteFault;
use std::alloc::{AllocError, Global};

/// Returns the shell and the content of the value's canonical spelling.
#[cycle(spell)]
fn part_of(alloc: Global, value: &Value) -> Result<Part, WriteFault>
    ensures seen { IfOk result (λ p. seen p ≡ (shell_of (view value.now), content_of (view value.now))) }
    ensures fits { OnOk result (Fits (view value.now)) }
    ensures err { IfErr result (λ e. IsUnfit e (Fits (view value.now))) }
{
    match shape_of(value) {
        Shape::Number(kind, number) => part(Shell::Number(kind, number), Vec::new(alloc)),
        Shape::Octets(kind, octets) => part(Shell::Octets(kind), Vec::from_slice(alloc, octets)?),
        Shape::List(items) => part(list_shell(items), spell_all(alloc, items)?),
        Shape::Map(entries) => part(map_shell(entries), spell_pairs(alloc, entries)?),
        Shape::Array(descriptors, kind, items) => {
            let mut content = spell_heads(alloc, descriptors)?;
            let parts = parts_of(alloc, items)?;
            write_items(kind, &parts, &mut content)?;
            part(array_shell(items), content)
        }
        Shape::Described(descriptor, described) => {
            let mut content = Vec::new(alloc);
            spell(alloc, descriptor, &mut content)?;
            spell(alloc, described, &mut content)?;
            part(Shell::Described, content)
        }
    }
}

#[tactic(auto, using(crate::proofs::Fitting::count_views))]
fn list_shell(items: &Vec<Value>) -> Shell
    ensures { result ≡ Shell.List (count_of (views items.now.items)) }
{
    Shell::List(items.len())
}

#[tactic(auto, using(crate::proofs::Fitting::pair_count_views))]
fn map_shell(entries: &Vec<(Value, Value)>) -> Shell
    ensures { result ≡ Shell.Map (pair_count (pair_views entries.now.items)) }
{
    Shell::Map(2 * entries.len())
}

#[tactic(auto, using(crate::proofs::Fitting::count_views))]
fn array_shell(items: &Vec<Value>) -> Shell
    ensures { result ≡ Shell.Array (count_of (views items.now.items)) }
{
    Shell::Array(items.len())
}

/// Makes a part of a shell and a content; `TooLong` if its size or its count does not fit four bytes.
fn part(shell: Shell, content: Vec<u8>) -> Result<Part, WriteFault>
    ensures ok { IfOk result (λ p. seen p ≡ (shell, content.items)) }
    ensures room { OnOk result (IsTrue (has_room shell content.items)) }
    ensures err { IfErr result (λ e. IsUnfit e (IsTrue (has_room shell content.items))) }
{
    if has_room(shell, &content) {
        Ok(Part { shell, content })
    } else {
        Err(WriteFault::TooLong)
    }
}

/// Appends the canonical spelling of the value. After a fault, what was appended means nothing.
#[cycle(spell)]
fn spell(alloc: Global, value: &Value, out: &mut Vec<u8>) -> Result<(), WriteFault>
    ensures ok { OnOk result (out.new.items ≡ out.old.items ++ canonical (view value.now)) }
    ensures fits { OnOk result (Fits (view value.now)) }
    ensures err { IfErr result (λ e. IsUnfit e (Fits (view value.now))) }
{
    let part = part_of(alloc, value)?;
    part.write(out)?;
    Ok(())
}

/// Returns the spellings of the values, joined.
#[cycle(spell)]
fn spell_all(alloc: Global, items: &Vec<Value>) -> Result<Vec<u8>, WriteFault>
    ensures ok { IfOk result (λ c. c.items ≡ canonicals (views items.now.items)) }
    ensures fits { OnOk result (AllFit (views items.now.items)) }
    ensures err { IfErr result (λ e. IsUnfit e (AllFit (views items.now.items))) }
{
    let mut out = Vec::new(alloc);
    for item in items {
        spell(alloc, item, &mut out)?;
    }
    Ok(out)
}

/// Returns the spellings of keys and values in turn, joined.
#[cycle(spell)]
fn spell_pairs(alloc: Global, entries: &Vec<(Value, Value)>) -> Result<Vec<u8>, WriteFault>
    ensures ok { IfOk result (λ c. c.items ≡ canonical_pairs (pair_views entries.now.items)) }
    ensures fits { OnOk result (PairsFit (pair_views entries.now.items)) }
    ensures err { IfErr result (λ e. IsUnfit e (PairsFit (pair_views entries.now.items))) }
{
    let mut out = Vec::new(alloc);
    for (key, value) in entries {
        spell(alloc, key, &mut out)?;
        spell(alloc, value, &mut out)?;
    }
    Ok(out)
}

/// Returns the spellings of an array's descriptors, a `00` before each, joined. [1.2.4]
#[cycle(spell)]
fn spell_heads(alloc: Global, descriptors: &Vec<Value>) -> Result<Vec<u8>, WriteFault>
    ensures ok { IfOk result (λ c. c.items ≡ canonical_heads (views descriptors.now.items)) }
    ensures fits { OnOk result (AllFit (views descriptors.now.items)) }
    ensures err { IfErr result (λ e. IsUnfit e (AllFit (views descriptors.now.items))) }
{
    let mut out = Vec::new(alloc);
    for descriptor in descriptors {
        out.push(0)?;
        spell(alloc, descriptor, &mut out)?;
    }
    Ok(out)
}

/// Returns the shell and the content of each item of an array.
#[cycle(spell)]
fn parts_of(alloc: Global, items: &Vec<Value>) -> Result<Vec<Part>, WriteFault>
    ensures ok { IfOk result (λ ps. map seen ps.items ≡ parts (views items.now.items)) }
    ensures fits { OnOk result (AllFit (views items.now.items)) }
    ensures err { IfErr result (λ e. IsUnfit e (AllFit (views items.now.items))) }
{
    let mut found = Vec::new(alloc);
    for item in items {
        found.push(part_of(alloc, item)?)?;
    }
    Ok(found)
}

/// Whether every part fits sizes of one byte.
fn all_small(parts: &[Part]) -> bool
    ensures { result ≡ all_small (map seen parts.now) }
{
    for part in parts {
        if !part.is_small() {
            return false;
        }
    }
    true
}

/// Appends the narrowest element constructor that every part fits, and the data of the parts.
fn write_items(kind: Kind, parts: &[Part], out: &mut Vec<u8>) -> Result<(), AllocError>
    ensures { OnOk result (out.new.items ≡ out.old.items ++ items_data kind (map seen parts.now)) }
{
    let size = narrowest(all_small(parts));
    out.push(full_code(size, kind))?;
    write_all(size, parts, out)
}

fn write_all(size: SizeWidth, parts: &[Part], out: &mut Vec<u8>) -> Result<(), AllocError>
    requires { size ≡ SizeWidth.One → all_small (map seen parts.now) ≡ true }
    ensures { OnOk result (out.new.items ≡ out.old.items ++ all_data size (map seen parts.now)) }
{
    for part in parts {
        part.write_data(size, out)?;
    }
    Ok(())
}

/// Does what `encode` does, and states the law that each refusal names.
fn encode_checked(value: &Value, out: &mut Vec<u8>) -> Result<(), WriteFault>
    ensures appended { OnOk result (out.new.items ≡ out.old.items ++ canonical (view value.now)) }
    ensures unchanged { OnErr result (out.new.items ≡ out.old.items) }
    ensures fits { OnOk result (Fits (view value.now)) }
    ensures agree { OnOk result (ItemsAgree (view value.now)) }
    ensures differ { OnOk result (KeysDiffer (view value.now)) }
    ensures fault { IfErr result (λ e. IsRefusedFor e (view value.now)) }
{
    if !items_agree(value) {
        return Err(WriteFault::WrongElement);
    }
    let alloc = *out.allocator();
    if !keys_differ(alloc, value)? {
        return Err(WriteFault::DuplicateKey);
    }
    let mut spelling = Vec::new(alloc);
    spell(alloc, value, &mut spelling)?;
    out.extend_from_slice(&spelling)?;
    Ok(())
}

/// Appends the canonical spelling of the value, whole or not at all. [1.2; 1.6]
///
/// The spelling takes the shortest constructors. `WrongElement` says that an array in the value holds an
/// item that is not of its kind; `DuplicateKey` that a map in it has two equal keys; `TooLong` that a
/// size or a count would be above 2^32 - 1. A lawful value that fits is refused only with `NoMemory`:
/// memory was refused. After a fault `out` holds what it held before.
///
/// Before anything is spelled, the keys of one map at a time are held in a form of their own to find
/// equal ones: at most 19 bytes for each node in them, and their contents. All memory comes from `out`'s
/// allocator.
pub fn encode(value: &Value, out: &mut Vec<u8>) -> Result<(), WriteFault>
    ensures appended { OnOk result (out.new.items ≡ out.old.items ++ canonical (view value.now)) }
    ensures unchanged { OnErr result (out.new.items ≡ out.old.items) }
    ensures lawful { OnOk result (IsLawful (view value.now)) }
    ensures fits { OnOk result (Fits (view value.now)) }
    ensures fault { IfErr result (λ e. IsRefusedFor e (view value.now)) }
    ensures memory { IsLawful (view value.now) → Fits (view value.now)
        → IfErr result (λ e. e ≡ WriteFault.NoMemory) }
{
    encode_checked(value, out)
}
