//! Images: a form of values in memory by which equal ones are found.

ghost use Rattle.std.specs.Prelude.{◌≡◌, ◌++◌, ◌∷◌, ◌<◌, ◌^◌, length, OnOk};
ghost use Rattle.byteorder.specs.Endian.{big_bytes};
ghost use Rattle.amqp_types.specs.Canonical.{IsRanged, AllRanged, PairsRanged};
ghost use Rattle.amqp_types.specs.Images.{kind_number, image, images, pair_images};
ghost use Rattle.amqp_types.specs.Keys.{key_image};
ghost use Rattle.amqp_types.specs.Trees.{Number, Octets};
ghost use Rattle.amqp_types.specs.Values.{view, views, pair_views};

use crate::key::Key;
use crate::kind::Kind;
use crate::shape::{Shape, shape_of};
use crate::value::Value;
use std::alloc::AllocError;

/// Returns the number that stands for a kind in images.
fn kind_number(kind: Kind) -> u8
    ensures { result ≡ kind_number kind }
{
    match kind {
        Kind::Null => 0,
        Kind::Boolean => 1,
        Kind::Ubyte => 2,
        Kind::Ushort => 3,
        Kind::Uint => 4,
        Kind::Ulong => 5,
        Kind::Byte => 6,
        Kind::Short => 7,
        Kind::Int => 8,
        Kind::Long => 9,
        Kind::Float => 10,
        Kind::Double => 11,
        Kind::Decimal32 => 12,
        Kind::Decimal64 => 13,
        Kind::Decimal128 => 14,
        Kind::Char => 15,
        Kind::Timestamp => 16,
        Kind::Uuid => 17,
        Kind::Binary => 18,
        Kind::String => 19,
        Kind::Symbol => 20,
        Kind::List => 21,
        Kind::Map => 22,
        Kind::Array => 23,
    }
}

/// Appends the image of a value of fixed width.
#[tactic(auto, using(std::proofs::Common::append_assoc), unfolding(crate::specs::Images::image))]
fn put_number(kind: Kind, number: u128, out: &mut Vec<u8>) -> Result<(), AllocError>
    ensures { OnOk result (out.new.items ≡ out.old.items ++ image (Number kind number)) }
{
    out.push(0)?;
    out.push(kind_number(kind))?;
    out.extend_from_slice(&number.to_be_bytes())?;
    Ok(())
}

/// Appends the image of a value of variable width.
#[tactic(auto, using(std::proofs::Common::append_assoc), unfolding(crate::specs::Images::image))]
fn put_octets(kind: Kind, octets: &[u8], out: &mut Vec<u8>) -> Result<(), AllocError>
    ensures { OnOk result (out.new.items ≡ out.old.items ++ image (Octets kind octets.now)) }
{
    out.push(1)?;
    out.push(kind_number(kind))?;
    out.extend_from_slice(&(octets.len() as u64).to_be_bytes())?;
    out.extend_from_slice(octets)?;
    Ok(())
}

/// Appends the image of a key that holds no other values.
pub(crate) fn put_key(key: &Key<'_>, out: &mut Vec<u8>) -> Result<(), AllocError>
    ensures { OnOk result (out.new.items ≡ out.old.items ++ key_image key.now) }
{
    match *key {
        Key::Number(kind, number) => put_number(kind, number, out),
        Key::Octets(kind, octets) => put_octets(kind, octets, out),
    }
}

/// Appends the image of a value, which is ranged. If memory is refused, what was appended means nothing.
#[tactic(auto, using(std::proofs::Common::append_assoc), unfolding(crate::specs::Images::image))]
#[cycle(image)]
pub(crate) fn put_image(value: &Value, out: &mut Vec<u8>) -> Result<(), AllocError>
    ensures image { OnOk result (out.new.items ≡ out.old.items ++ image (view value.now)) }
    ensures ranged { OnOk result (IsRanged (view value.now)) }
{
    match shape_of(value) {
        Shape::Number(kind, number) => put_number(kind, number, out),
        Shape::Octets(kind, octets) => put_octets(kind, octets, out),
        Shape::List(items) => {
            out.push(2)?;
            put_images(items, out)
        }
        Shape::Map(entries) => {
            out.push(3)?;
            put_pair_images(entries, out)
        }
        Shape::Array(descriptors, kind, items) => {
            out.push(4)?;
            out.push(kind_number(kind))?;
            put_images(descriptors, out)?;
            put_images(items, out)
        }
        Shape::Described(descriptor, described) => {
            out.push(5)?;
            put_image(descriptor, out)?;
            put_image(described, out)
        }
    }
}

/// Appends a 1 and the image of each item, and a 0 at the end.
#[tactic(auto, using(std::proofs::Common::append_assoc), unfolding(crate::specs::Images::images))]
#[cycle(image)]
fn put_images(items: &Vec<Value>, out: &mut Vec<u8>) -> Result<(), AllocError>
    ensures images { OnOk result (out.new.items ≡ out.old.items ++ images (views items.now.items)) }
    ensures ranged { OnOk result (AllRanged (views items.now.items)) }
{
    for item in items {
        out.push(1)?;
        put_image(item, out)?;
    }
    out.push(0)?;
    Ok(())
}

/// Appends a 1 and the images of each key and its value, and a 0 at the end.
#[tactic(auto, using(std::proofs::Common::append_assoc), unfolding(crate::specs::Images::pair_images))]
#[cycle(image)]
fn put_pair_images(entries: &Vec<(Value, Value)>, out: &mut Vec<u8>) -> Result<(), AllocError>
    ensures images { OnOk result (out.new.items ≡ out.old.items ++ pair_images (pair_views entries.now.items)) }
    ensures ranged { OnOk result (PairsRanged (pair_views entries.now.items)) }
{
    for (key, value) in entries {
        out.push(1)?;
        put_image(key, out)?;
        put_image(value, out)?;
    }
    out.push(0)?;
    Ok(())
}
