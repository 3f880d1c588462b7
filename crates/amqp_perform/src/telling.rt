//! Whether a body begins with a performative, if it is known to begin with a value. [2.7]
//!
//! A field that may be of any type is passed over by the sizes in it, and a text by its own: they are known to be well spelled.

ghost use Rattle.std.specs.Prelude.{◌≡◌, ℕ, ◌≤◌, List, ◌++◌, length, map, is_some, option_map, option_copied, MatchBool};
ghost use Rattle.amqp_types.specs.Spelling.{Spells};
ghost use Rattle.amqp_types.specs.Trees.{depth_of, depth_of_all};
ghost use Rattle.amqp_perform.specs.Bodies.{BeginsWithin};
ghost use Rattle.amqp_perform.specs.BodyReading.{body_at};
ghost use Rattle.amqp_perform.specs.Cells.{where_so};
ghost use Rattle.amqp_perform.specs.Items.{Item, trees_of, text_of, AreSpelled};
ghost use Rattle.amqp_perform.specs.Tables.{boolean, sender_settle_mode, receiver_settle_mode, ushort, uint, uint_from, binary, string, spanned};
ghost use Rattle.amqp_perform.specs.Rules.{type_in, asked_by, IsTextCode, there_at, may_be, may_be_all};

use crate::fields::{FIELD_DEPTH, Fields, NULL, described_list};
use crate::reader::LEAST_FRAME_SIZE;
use crate::rules::{FieldType, Rule, rules_of};
use crate::sizes::behind_value;

/// Reads a value of any type at the front; returns whether it is other than null, and what follows it.
#[inline(always)]
fn any_value(bytes: &[u8]) -> Option<(bool, &[u8])>
    ensures { (x : Item) (rest : List ℕ) → Spells x.tree x.text → depth_of x.tree ≤ 30 → bytes.now ≡ x.text ++ rest
        → there_at spanned bytes.now ≡ option_map (λ r. (r.0, r.1.now)) result }
{
    let (code, _data) = bytes.split_first()?;
    let rest = behind_value(FIELD_DEPTH, bytes)?;
    Some((*code != NULL, rest))
}

/// Whether the code is that of a string or of null.
#[inline(always)]
fn is_text_code(code: u8) -> bool
    ensures { MatchBool result (IsTextCode code) (IsTextCode code → ⊥) }
{
    match code {
        NULL | 0xa1 | 0xb1 => true,
        _ => false,
    }
}

/// Reads a string or a null at the front; returns whether it is other than null, and what follows it.
#[inline(always)]
fn text_value(bytes: &[u8]) -> Option<(bool, &[u8])>
    ensures { (x : Item) (rest : List ℕ) → Spells x.tree x.text → depth_of x.tree ≤ 30 → bytes.now ≡ x.text ++ rest
        → there_at string bytes.now ≡ option_map (λ r. (r.0, r.1.now)) result }
{
    let (code, _data) = bytes.split_first()?;
    if is_text_code(*code) {
        any_value(bytes)
    } else {
        None
    }
}

/// Reads a boolean or a null at the front; returns whether it is other than null, and what follows it.
#[inline(always)]
fn boolean_value(bytes: &[u8]) -> Option<(bool, &[u8])>
    ensures { there_at boolean bytes.now ≡ option_map (λ r. (r.0, r.1.now)) result }
{
    let mut fields = Fields::of(1, bytes);
    let value = fields.boolean()?;
    Some((value.is_some(), fields.parts().1))
}

/// Reads a sender's settle mode or a null, and returns what [`boolean_value`] does.
#[inline(always)]
fn sender_mode_value(bytes: &[u8]) -> Option<(bool, &[u8])>
    ensures { there_at sender_settle_mode bytes.now ≡ option_map (λ r. (r.0, r.1.now)) result }
{
    let mut fields = Fields::of(1, bytes);
    let value = fields.sender_mode()?;
    Some((value.is_some(), fields.parts().1))
}

/// Reads a receiver's settle mode or a null, and returns what [`boolean_value`] does.
#[inline(always)]
fn receiver_mode_value(bytes: &[u8]) -> Option<(bool, &[u8])>
    ensures { there_at receiver_settle_mode bytes.now ≡ option_map (λ r. (r.0, r.1.now)) result }
{
    let mut fields = Fields::of(1, bytes);
    let value = fields.receiver_mode()?;
    Some((value.is_some(), fields.parts().1))
}

/// Reads a ushort or a null, and returns what [`boolean_value`] does.
#[inline(always)]
fn ushort_value(bytes: &[u8]) -> Option<(bool, &[u8])>
    ensures { there_at ushort bytes.now ≡ option_map (λ r. (r.0, r.1.now)) result }
{
    let mut fields = Fields::of(1, bytes);
    let value = fields.ushort()?;
    Some((value.is_some(), fields.parts().1))
}

/// Reads a uint or a null, and returns what [`boolean_value`] does.
#[inline(always)]
fn uint_value(bytes: &[u8]) -> Option<(bool, &[u8])>
    ensures { there_at uint bytes.now ≡ option_map (λ r. (r.0, r.1.now)) result }
{
    let mut fields = Fields::of(1, bytes);
    let value = fields.uint()?;
    Some((value.is_some(), fields.parts().1))
}

/// Reads a binary or a null, and returns what [`boolean_value`] does.
#[inline(always)]
fn binary_value(bytes: &[u8]) -> Option<(bool, &[u8])>
    ensures { there_at binary bytes.now ≡ option_map (λ r. (r.0, r.1.now)) result }
{
    let mut fields = Fields::of(1, bytes);
    let value = fields.binary()?;
    Some((value.is_some(), fields.parts().1))
}

/// Reads a uint of at least 512 or a null, and returns what [`boolean_value`] does.
#[inline(always)]
fn frame_size_value(bytes: &[u8]) -> Option<(bool, &[u8])>
    ensures { there_at (uint_from 512) bytes.now ≡ option_map (λ r. (r.0, r.1.now)) result }
{
    let mut fields = Fields::of(1, bytes);
    match fields.uint()? {
        None => Some((false, fields.parts().1)),
        Some(size) => {
            if size < LEAST_FRAME_SIZE {
                return None;
            }
            Some((true, fields.parts().1))
        }
    }
}

/// Reads the value at the front, if it is of the type or a null; returns whether it is other than null, and what follows it.
#[inline(always)]
fn typed_value(field_type: FieldType, bytes: &[u8]) -> Option<(bool, &[u8])>
    ensures { (x : Item) (rest : List ℕ) → Spells x.tree x.text → depth_of x.tree ≤ 30 → bytes.now ≡ x.text ++ rest
        → there_at (type_in field_type) bytes.now ≡ option_map (λ r. (r.0, r.1.now)) result }
{
    match field_type {
        FieldType::Boolean => boolean_value(bytes),
        FieldType::SenderSettleMode => sender_mode_value(bytes),
        FieldType::ReceiverSettleMode => receiver_mode_value(bytes),
        FieldType::Ushort => ushort_value(bytes),
        FieldType::Uint => uint_value(bytes),
        FieldType::FrameSize => frame_size_value(bytes),
        FieldType::Binary => binary_value(bytes),
        FieldType::Text => text_value(bytes),
        FieldType::Any => any_value(bytes),
    }
}

/// Whether the field has to be there.
#[inline(always)]
fn is_mandatory(rule: Rule) -> bool
    ensures { result ≡ (asked_by rule).1 }
{
    match rule {
        Rule::Mandatory(_) => true,
        Rule::Optional(_) => false,
    }
}

/// Returns the type of the field.
#[inline(always)]
fn type_of(rule: Rule) -> FieldType
    ensures { type_in result ≡ (asked_by rule).0 }
{
    match rule {
        Rule::Mandatory(field_type) | Rule::Optional(field_type) => field_type,
    }
}

/// Returns what follows the item at the front, if a field of the rule may hold it.
#[inline(always)]
fn behind_item(rule: Rule, bytes: &[u8]) -> Option<&[u8]>
    ensures { (x : Item) (rest : List ℕ) → Spells x.tree x.text → depth_of x.tree ≤ 30 → bytes.now ≡ x.text ++ rest
        → option_copied result ≡ where_so (may_be (asked_by rule) x) rest }
{
    let (is_there, rest) = typed_value(type_of(rule), bytes)?;
    if is_there {
        return Some(rest);
    }
    if is_mandatory(rule) {
        return None;
    }
    Some(rest)
}

/// Whether fields of these rules may hold these `count` items.
fn may_be_all(rules: &[Rule], count: usize, items: &[u8]) -> bool
    ensures { (xs : List Item) → AreSpelled xs → depth_of_all (trees_of xs) ≤ 30 → length xs ≡ count → text_of xs ≡ items.now
        → result ≡ may_be_all (map asked_by rules.now) xs }
{
    let Some((rule, others)) = rules.split_first() else {
        return count == 0;
    };
    if count == 0 {
        if is_mandatory(*rule) {
            return false;
        }
        return may_be_all(others, 0, items);
    }
    match behind_item(*rule, items) {
        None => false,
        Some(rest) => may_be_all(others, count - 1, rest),
    }
}

/// Returns whether a frame's body begins with a performative, as [`read_body`](crate::read_body) reads it. [2.7]
///
/// It is for a body that was checked: one that is known to begin with a value of at most 32 levels. Nothing is kept of it and no
/// memory is taken. The descriptor comes first, and only the sizes are read of a field that may be of any type. There are no
/// errors.
pub fn is_performative(body: &[u8]) -> bool
    requires { BeginsWithin 32 body.now }
    ensures { result ≡ is_some (body_at body.now) }
{
    let Some(list) = described_list(body) else {
        return false;
    };
    let Some(rules) = rules_of(list.descriptor) else {
        return false;
    };
    let (count, items) = list.fields.parts();
    may_be_all(rules, count, items)
}
