//! Shapes by words: `n3`, `o2`, `b5`, `i2`, `c`, `d5` and `aIa5/97,98`.

use crate::bit_fields::alphabets::alphabet;
use crate::bit_fields::fields::fields_of;
use crate::bit_fields::stores::{Store, stores_of};
use crate::bit_fields::words::{append, push_number, size};
use asn1_values::{Field, Shape, shape_of};
use std::alloc::Global;

/// Returns the shapes that the words encode, over their stores.
pub fn shapes_of<'x>(alloc: Global, words: &[&str], stores: &'x [Store]) -> Option<Vec<Shape<'x>>> {
    let mut shapes = Vec::new(alloc);
    for (word, store) in words.iter().zip(stores) {
        shapes.push(shape(word, store)?).ok()?;
    }
    Some(shapes)
}

/// Returns the shape that a word encodes.
fn shape<'x>(word: &str, store: &'x Store) -> Option<Shape<'x>> {
    if word == "c" {
        return Some(Shape::CountedInteger);
    }
    match word.strip_prefix('a') {
        Some(rest) => character(rest, store),
        None => counted(word),
    }
}

fn character<'x>(word: &str, store: &'x Store) -> Option<Shape<'x>> {
    match alphabet(word, store) {
        Some(alphabet) => Some(Shape::Character { alphabet }),
        None => None,
    }
}

fn counted<'x>(word: &str) -> Option<Shape<'x>> {
    if let Some((kind, count)) = word.split_at_checked(1)
        && let Some(count) = size(count)
    {
        return shape_of_letter(kind, count);
    }
    None
}

/// Returns the shape of a letter and a number.
fn shape_of_letter<'x>(kind: &str, count: usize) -> Option<Shape<'x>> {
    match kind {
        "n" => Some(Shape::Number { width: count }),
        "o" => Some(Shape::Octets { count }),
        "b" => Some(Shape::Bits { length: count }),
        "i" => Some(Shape::Integer { octets: count }),
        "d" => Some(Shape::Oid { octets: count }),
        _ => None,
    }
}

/// Appends the shapes of fields.
pub fn answer(alloc: Global, text: &mut String, words: &[&str]) -> Option<()> {
    if let Some(stores) = stores_of(alloc, words)
        && let Some(fields) = fields_of(alloc, words, stores.as_slice())
    {
        return tell_each(alloc, text, fields.as_slice());
    }
    None
}

fn tell_each(alloc: Global, text: &mut String, fields: &[Field<'_, '_>]) -> Option<()> {
    for field in fields {
        tell(alloc, text, own_shape(field)?)?;
    }
    Some(())
}

/// Returns the shape of a field that is no identifier.
fn own_shape<'s>(field: &Field<'_, 's>) -> Option<Shape<'s>> {
    match field {
        Field::Number { .. } => Some(shape_of(field)),
        Field::Octets(_) => Some(shape_of(field)),
        Field::Bits(_) => Some(shape_of(field)),
        Field::Integer(_) => Some(shape_of(field)),
        Field::Character { .. } => Some(shape_of(field)),
        Field::CountedInteger(_) => Some(shape_of(field)),
        Field::Oid(_) => None,
    }
}

/// Appends a shape: its letter, and its width, count or length, or the width of its alphabet.
fn tell(alloc: Global, text: &mut String, shape: Shape<'_>) -> Option<()> {
    let (kind, count) = match shape {
        Shape::Number { width } => ("n", width),
        Shape::Octets { count } => ("o", count),
        Shape::Bits { length } => ("b", length),
        Shape::Integer { octets } => ("i", octets),
        Shape::Character { alphabet } => ("a", alphabet.width()),
        Shape::CountedInteger => ("c", 0),
        Shape::Oid { octets } => ("d", octets),
    };
    append(text, kind)?;
    push_number(alloc, text, count as u128)
}
