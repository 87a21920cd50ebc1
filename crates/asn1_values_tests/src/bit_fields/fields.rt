//! Fields by words: `n3=5` is a number of three bits, `o=A55A` octets, `b=5A:3:5` five bits from
//! bit 3 on, `i=0080` an integer by its octets, `c=05` a counted integer, `d=2.999.3` an
//! identifier, `D=2A05` an identifier by its contents, `aIa5/97,98=98` a character.

use crate::bit_fields::alphabets::alphabet;
use crate::bit_fields::stores::Store;
use crate::bit_fields::words::{octets_of, size, wide};
use asn1_values::{BitStr, Field, Integer, ObjectIdentifier, Octets};
use std::alloc::Global;

/// Returns the fields that the words encode, over their stores.
pub fn fields_of<'x>(
    alloc: Global,
    words: &[&str],
    stores: &'x [Store],
) -> Option<Vec<Field<'x, 'x>>> {
    let mut fields = Vec::new(alloc);
    for (word, store) in words.iter().zip(stores) {
        fields.push(field(alloc, word, store)?).ok()?;
    }
    Some(fields)
}

/// Returns the field that a word encodes.
fn field<'x>(alloc: Global, word: &str, store: &'x Store) -> Option<Field<'x, 'x>> {
    match word.split_once('=') {
        Some((shape, value)) => field_of(alloc, shape, value, store),
        None => None,
    }
}

/// Returns the field of a shape and a value.
fn field_of<'x>(
    alloc: Global,
    shape: &str,
    value: &str,
    store: &'x Store,
) -> Option<Field<'x, 'x>> {
    match shape {
        "o" => Some(Field::Octets(Octets::Borrowed(store.octets.as_slice()))),
        "b" => bits(value, store),
        "i" => Some(Field::Integer(integer(alloc, value)?)),
        "c" => Some(Field::CountedInteger(integer(alloc, value)?)),
        "d" => Some(Field::Oid(identifier(alloc, value)?)),
        "D" => Some(Field::Oid(contents(alloc, value)?)),
        _ => other(shape, value, store),
    }
}

/// Returns a number or a character.
fn other<'x>(shape: &str, value: &str, store: &'x Store) -> Option<Field<'x, 'x>> {
    match shape.strip_prefix('n') {
        Some(width) => number(value, width),
        None => character(shape, value, store),
    }
}

fn number<'x>(value: &str, width: &str) -> Option<Field<'x, 'x>> {
    if let Some(value) = wide(value)
        && let Some(width) = size(width)
    {
        return Some(Field::Number { value, width });
    }
    None
}

fn character<'x>(shape: &str, value: &str, store: &'x Store) -> Option<Field<'x, 'x>> {
    if let Ok(character) = value.parse::<u32>()
        && let Some(shape) = shape.strip_prefix('a')
        && let Some(alphabet) = alphabet(shape, store)
    {
        return Some(Field::Character {
            character,
            alphabet,
        });
    }
    None
}

/// Returns bits of the store, such as `5A:3:5`.
fn bits<'x>(value: &str, store: &'x Store) -> Option<Field<'x, 'x>> {
    if let Some((_, place)) = value.split_once(':')
        && let Some((first, len)) = place.split_once(':')
        && let Some(first) = size(first)
        && let Some(len) = size(len)
        && let Some(view) = BitStr::new(store.octets.as_slice(), first, len)
    {
        return Some(Field::Bits(view));
    }
    None
}

/// Returns the integer of two's complement octets.
pub fn integer(alloc: Global, value: &str) -> Option<Integer> {
    match octets_of(alloc, value) {
        Some(octets) => Integer::from_signed_octets(alloc, octets.as_slice()).ok(),
        None => None,
    }
}

/// Returns the identifier of arcs that full stops join.
fn identifier(alloc: Global, value: &str) -> Option<ObjectIdentifier> {
    ObjectIdentifier::from_vec(arcs(alloc, value)?)
}

fn arcs(alloc: Global, value: &str) -> Option<Vec<u32>> {
    let mut arcs = Vec::new(alloc);
    for arc in value.split('.') {
        arcs.push(arc.parse::<u32>().ok()?).ok()?;
    }
    Some(arcs)
}

/// Returns the identifier of these contents.
fn contents(alloc: Global, value: &str) -> Option<ObjectIdentifier> {
    match octets_of(alloc, value) {
        Some(octets) => ObjectIdentifier::from_contents(alloc, &octets.as_slice()).ok(),
        None => None,
    }
}
