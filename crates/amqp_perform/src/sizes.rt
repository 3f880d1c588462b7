//! What follows a value that is known to be there, found by the sizes in it. [1.2]
//!
//! Nothing is promised for bytes that begin with no value.

ghost use Rattle.std.specs.Prelude.{◌≡◌, ◌≢◌, ◌≤◌, List, ℕ, ◌∷◌, ◌++◌, option_map, IsSomeAnd};
ghost use Rattle.amqp_types.specs.Codes.{find_code};
ghost use Rattle.amqp_types.specs.Spelling.{Spells};
ghost use Rattle.amqp_types.specs.Trees.{Tree, depth_of};
ghost use Rattle.amqp_perform.specs.BodyReading.{Takes};
ghost use Rattle.amqp_perform.specs.Sizes.{data_of, data_at, sized_data};

use crate::cursor::Cursor;
use amqp_types::{Constructor, SizeWidth, find_code, form_len};

/// What follows a code.
#[derive(Clone, Copy)]
enum Data {
    /// This many bytes.
    Fixed(usize),
    /// A size of one byte, and as many bytes as it says.
    Short,
    /// A size of four bytes, and as many bytes as it says.
    Long,
}

/// Returns what follows this code; `None` if no constructor has it. [1.2]
fn data_of(code: u8) -> Option<Data>
    ensures { result ≡ option_map data_of (find_code code) }
{
    let data = match find_code(code)? {
        Constructor::Fixed(kind, form) => Data::Fixed(form_len(kind, form)),
        Constructor::EmptyList => Data::Fixed(0),
        Constructor::Variable(_, size)
        | Constructor::ListIn(size)
        | Constructor::MapIn(size)
        | Constructor::ArrayIn(size) => sized(size),
    };
    Some(data)
}

/// Returns the data with a size of this width.
fn sized(size: SizeWidth) -> Data
    ensures { result ≡ sized_data size }
{
    match size {
        SizeWidth::One => Data::Short,
        SizeWidth::Four => Data::Long,
    }
}

/// Takes the data.
#[inline(always)]
fn take_data<'a>(form: Data, cursor: &mut Cursor<'a>) -> Option<&'a [u8]>
    ensures { Takes (λ s. s.now) result cursor.new.bytes.now (data_at form cursor.old.bytes.now) }
{
    match form {
        Data::Fixed(len) => cursor.octets(len),
        Data::Short => cursor.short(),
        Data::Long => cursor.long(),
    }
}

/// Returns what follows the data of a value; `bytes` begin after its code.
#[inline(always)]
fn behind_data(code: u8, bytes: &[u8]) -> Option<&[u8]>
    requires { code ≢ 0 }
    ensures { (t : Tree) (text rest : List ℕ) → Spells t (code ∷ text) → bytes.now ≡ text ++ rest → IsSomeAnd result (λ r. r.now ≡ rest) }
{
    let form = data_of(code)?;
    let mut cursor = Cursor { bytes };
    take_data(form, &mut cursor)?;
    Some(cursor.bytes)
}

/// Returns what follows the value at the front, within a depth.
pub fn behind_value(depth: usize, bytes: &[u8]) -> Option<&[u8]>
    ensures { (t : Tree) (text rest : List ℕ) → Spells t text → depth_of t ≤ depth → bytes.now ≡ text ++ rest → IsSomeAnd result (λ r. r.now ≡ rest) }
{
    let (code, data) = bytes.split_first()?;
    if *code != 0 {
        return behind_data(*code, data);
    }
    if depth == 0 {
        return None;
    }
    let described = behind_value(depth - 1, data)?;
    behind_value(depth - 1, described)
}
