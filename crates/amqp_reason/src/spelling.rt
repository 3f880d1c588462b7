//! An error, and the outcome rejected with one, as they are spelled. [1.6; 2.8.14; 3.4.3]
ghost use Rattle.std.specs.Prelude.{◌≡◌, ◌+◌, ◌≤◌, ◌<◌, ◌++◌, true, ◌∷◌, length, Some, None};
ghost use Rattle.byteorder.specs.Endian.{big_bytes};
ghost use Rattle.amqp_perform.specs.Frames.{list_head};
ghost use Rattle.amqp_reason.specs.Reasons.{error_span, rejected_span, is_valid, reason_of};

use crate::reason::Reason;
use arrayvec::ArrayVec;

/// The most bytes that a state takes: rejected with an error of 64 bytes of condition and 255 of description.
const MOST: usize = 347;

/// The bytes that spell an error or a state.
pub type Spelled = ArrayVec<u8, MOST>;

/// The code that describes an error. [2.8.14]
const ERROR: u8 = 0x1d;

/// The code that describes the outcome rejected. [3.4.3]
const REJECTED: u8 = 0x25;

/// Returns the canonical spelling of the error with these words. [2.8.14]
pub fn error(reason: &Reason<'_>) -> Spelled
    requires { is_valid (reason_of reason.now) ≡ true }
    ensures value { result.items ≡ error_span (reason_of reason.now) }
    ensures most { length result.items ≤ 335 }
{
    match reason.description {
        Some(text) => described_error(reason.condition, text),
        None => plain_error(reason.condition),
    }
}

fn plain_error(condition: &[u8]) -> Spelled
    requires { length condition.now ≤ 64 }
    ensures { result.items ≡ error_span (record { condition = condition.now; description = None }) }
{
    let mut spelled = described(ERROR, 1, 2 + condition.len());
    put_octets(&mut spelled, 0xa3, condition);
    spelled
}

fn described_error(condition: &[u8], text: &[u8]) -> Spelled
    requires condition { length condition.now ≤ 64 }
    requires text { length text.now ≤ 255 }
    ensures { result.items ≡ error_span (record { condition = condition.now; description = Some text.now }) }
{
    let mut spelled = described(ERROR, 2, 2 + condition.len() + 2 + text.len());
    put_octets(&mut spelled, 0xa3, condition);
    put_octets(&mut spelled, 0xa1, text);
    spelled
}

/// Returns the canonical spelling of the outcome rejected, with the error of these words. [3.4.3]
pub fn rejected(reason: &Reason<'_>) -> Spelled
    requires { is_valid (reason_of reason.now) ≡ true }
    ensures value { result.items ≡ rejected_span (reason_of reason.now) }
    ensures most { length result.items ≤ 347 }
{
    let error = error(reason);
    let mut spelled = described(REJECTED, 1, error.len());
    put(&mut spelled, error.as_slice());
    spelled
}

/// Begins a list that a code describes, of `count` items with `content` bytes. [1.6.22]
fn described(code: u8, count: u8, content: usize) -> Spelled
    requires some { 0 < count }
    requires content { content < 1024 }
    ensures { result.items ≡ 0 ∷ 0x53 ∷ code ∷ list_head count content }
{
    let mut spelled = Spelled::new();
    put(&mut spelled, &[0, 0x53, code]);
    put_list_head(&mut spelled, count, content);
    spelled
}

/// Appends what comes before the items of a list. [1.6.22]
#[tactic(auto, unfolding(amqp_perform::specs::Frames::list_head))]
fn put_list_head(spelled: &mut Spelled, count: u8, content: usize)
    requires some { 0 < count }
    requires content { content < 1024 }
    requires room { length spelled.old.items + 9 ≤ 347 }
    ensures { spelled.new.items ≡ spelled.old.items ++ list_head count content }
{
    if content < 255 {
        put(spelled, &[0xc0, content as u8 + 1, count]);
        return;
    }
    let [size3, size2, size1, size0] = (content as u32 + 4).to_be_bytes();
    let [count3, count2, count1, count0] = (count as u32).to_be_bytes();
    let head = [
        0xd0, size3, size2, size1, size0, count3, count2, count1, count0,
    ];
    put(spelled, &head);
}

/// Appends a symbol or a string, by the code of one with a size of one byte. [1.6.20; 1.6.21]
fn put_octets(spelled: &mut Spelled, code: u8, octets: &[u8])
    requires short { length octets.now < 256 }
    requires room { length spelled.old.items + 2 + length octets.now ≤ 347 }
    ensures { spelled.new.items ≡ spelled.old.items ++ (code ∷ (big_bytes 1 (length octets.now) ++ octets.now)) }
{
    let [_, _, _, _, _, _, _, len] = octets.len().to_be_bytes();
    put(spelled, &[code, len]);
    put(spelled, octets);
}

/// Appends bytes.
fn put(spelled: &mut Spelled, bytes: &[u8])
    requires { length spelled.old.items + length bytes.now ≤ 347 }
    ensures { spelled.new.items ≡ spelled.old.items ++ bytes.now }
{
    let _ = spelled.try_extend_from_slice(bytes);
}
