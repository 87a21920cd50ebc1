//! Fields that are written.

use crate::bit_fields::fields::fields_of;
use crate::bit_fields::stores::stores_of;
use crate::bit_fields::words::{
    buffer_of, octets_of, push_number, push_octets, push_shown, push_state, size,
};
use asn1_values::{
    BitBuffer, Field, Turns, WriteError, write_fields, write_fields_at, write_fields_counted,
};
use std::alloc::Global;

/// Answers `BITS FIELD .. ; FIELD ..`: writes groups of fields after the bits, one after another.
/// The answer for each is the error, if any, then how many bits the buffer has, and its octets.
pub fn write(alloc: Global, text: &mut String, words: &[&str]) -> Option<()> {
    let (front, rest) = words.split_first()?;
    let mut buffer = buffer_of(alloc, front)?;
    for group in rest.split(|word| *word == ";") {
        write_group(alloc, text, &mut buffer, group)?;
    }
    Some(())
}

fn write_group(
    alloc: Global,
    text: &mut String,
    buffer: &mut BitBuffer,
    words: &[&str],
) -> Option<()> {
    if let Some(stores) = stores_of(alloc, words)
        && let Some(fields) = fields_of(alloc, words, stores.as_slice())
        && let Some(()) = tell(alloc, text, put(buffer, fields.as_slice()))
    {
        return push_state(alloc, text, buffer);
    }
    None
}

/// Appends an error.
fn tell(alloc: Global, text: &mut String, written: Result<(), WriteError>) -> Option<()> {
    match written {
        Ok(()) => Some(()),
        Err(error) => push_shown(alloc, text, error),
    }
}

/// Writes fields after the buffer's bits.
pub fn put(buffer: &mut BitBuffer, fields: &[Field<'_, '_>]) -> Result<(), WriteError> {
    write_fields(buffer, fields)
}

/// Answers `FIELD ..`: how many bits the fields have.
pub fn len(alloc: Global, text: &mut String, words: &[&str]) -> Option<()> {
    if let Some(stores) = stores_of(alloc, words)
        && let Some(fields) = fields_of(alloc, words, stores.as_slice())
        && let Some(len) = len_of(alloc, fields.as_slice())
    {
        return push_number(alloc, text, len);
    }
    None
}

fn len_of(alloc: Global, fields: &[Field<'_, '_>]) -> Option<u128> {
    let mut buffer = BitBuffer::new(alloc);
    put(&mut buffer, fields).ok()?;
    Some(buffer.len() as u128)
}

/// Answers `BITS FIELD ..` by the counted call.
pub fn write_counted(alloc: Global, text: &mut String, words: &[&str]) -> Option<()> {
    if let [front, rest @ ..] = words
        && let Some(mut buffer) = buffer_of(alloc, front)
        && let Some(stores) = stores_of(alloc, rest)
        && let Some(fields) = fields_of(alloc, rest, stores.as_slice())
        && let Some(()) = tell(alloc, text, put_counted(&mut buffer, fields.as_slice()))
    {
        return push_state(alloc, text, &buffer);
    }
    None
}

fn put_counted(buffer: &mut BitBuffer, fields: &[Field<'_, '_>]) -> Result<(), WriteError> {
    write_fields_counted(buffer, fields, &mut Turns::new())
}

/// Answers `OCTETS POSITION FIELD ..`: the bit after the fields or the error, and the octets.
pub fn write_at(alloc: Global, text: &mut String, words: &[&str]) -> Option<()> {
    if let [octets, position, rest @ ..] = words
        && let Some(octets) = octets_of(alloc, octets)
        && let Some(position) = size(position)
        && let Some(stores) = stores_of(alloc, rest)
        && let Some(fields) = fields_of(alloc, rest, stores.as_slice())
    {
        return tell_at(alloc, text, octets, position, fields.as_slice());
    }
    None
}

fn tell_at(
    alloc: Global,
    text: &mut String,
    octets: Vec<u8>,
    position: usize,
    fields: &[Field<'_, '_>],
) -> Option<()> {
    let mut own = octets;
    match put_at(own.as_mut_slice(), position, fields) {
        Ok(next) => push_number(alloc, text, next as u128)?,
        Err(error) => push_shown(alloc, text, error)?,
    }
    push_octets(alloc, text, own.as_slice())
}

fn put_at(
    octets: &mut [u8],
    position: usize,
    fields: &[Field<'_, '_>],
) -> Result<usize, WriteError> {
    write_fields_at(octets, position, fields)
}
