//! Fields that are read.

use crate::bit_fields::fields::fields_of;
use crate::bit_fields::printed::push_fields;
use crate::bit_fields::shapes::shapes_of;
use crate::bit_fields::stores::stores_of;
use crate::bit_fields::words::{append, buffer_of, part_from, push_number, push_shown};
use crate::bit_fields::writing::put;
use asn1_values::{BitBuffer, BitReader, BitStr, Field, ReadError, Shape, read_fields};
use std::alloc::Global;

/// Answers `OCTETS FIRST LEN SHAPE ..`: the fields or the error, and how many bits are left.
pub fn read(alloc: Global, text: &mut String, words: &[&str]) -> Option<()> {
    if let [octets, first, len, shapes @ ..] = words
        && let Some(part) = part_from(alloc, octets, first, len)
        && let Some(view) = part.view()
    {
        return read_view(alloc, text, view, shapes);
    }
    None
}

/// Reads fields of the shapes from the view.
fn read_view(alloc: Global, text: &mut String, view: BitStr<'_>, words: &[&str]) -> Option<()> {
    if let Some(stores) = stores_of(alloc, words)
        && let Some(shapes) = shapes_of(alloc, words, stores.as_slice())
    {
        return tell(alloc, text, view, shapes.as_slice());
    }
    None
}

fn tell(alloc: Global, text: &mut String, view: BitStr<'_>, shapes: &[Shape<'_>]) -> Option<()> {
    let mut reader = BitReader::new(view);
    match get(alloc, &mut reader, shapes) {
        Ok(fields) => push_fields(alloc, text, fields.as_slice())?,
        Err(error) => push_shown(alloc, text, error)?,
    }
    append(
        text,
        if is_back(&reader, view) {
            "all"
        } else {
            "left"
        },
    )?;
    push_number(alloc, text, reader.len() as u128)
}

/// Returns whether the reader has all bits of the view.
fn is_back(reader: &BitReader<'_>, view: BitStr<'_>) -> bool {
    reader.bits() == view
}

/// Reads fields of the shapes.
fn get<'a, 's>(
    alloc: Global,
    reader: &mut BitReader<'a>,
    shapes: &[Shape<'s>],
) -> Result<Vec<Field<'a, 's>>, ReadError> {
    read_fields(alloc, reader, shapes)
}

/// Answers `BITS FIELD .. ; SHAPE ..`: writes the fields after the bits, and reads them from there
/// on.
pub fn again(alloc: Global, text: &mut String, words: &[&str]) -> Option<()> {
    if let [front, rest @ ..] = words
        && let Some(at) = rest.iter().position(|word| *word == ";")
        && let Some(fields) = rest.get(..at)
        && let Some(shapes) = rest.get(at..)
        && let Some(mut buffer) = buffer_of(alloc, front)
    {
        let first = buffer.len();
        if let Some(()) = write_all(alloc, &mut buffer, fields) {
            return read_back(alloc, text, &buffer, first, shapes);
        }
    }
    None
}

fn write_all(alloc: Global, buffer: &mut BitBuffer, words: &[&str]) -> Option<()> {
    if let Some(stores) = stores_of(alloc, words)
        && let Some(fields) = fields_of(alloc, words, stores.as_slice())
    {
        return put(buffer, fields.as_slice()).ok();
    }
    None
}

/// Reads the shapes after the first word from a bit of the buffer on.
fn read_back(
    alloc: Global,
    text: &mut String,
    buffer: &BitBuffer,
    first: usize,
    words: &[&str],
) -> Option<()> {
    if let [_, shapes @ ..] = words
        && let Some(len) = buffer.len().checked_sub(first)
        && let Some(view) = BitStr::new(buffer.as_bytes(), first, len)
    {
        return read_view(alloc, text, view, shapes);
    }
    None
}
