//! Integers as fields, and the sizes of fields and shapes.

use crate::bit_fields::fields::integer;
use crate::bit_fields::words::{append, octets_of, push_labelled, push_number, push_octets};
use asn1_values::{
    BitReader, Field, Integer, ReadError, Shape, read_fields, without_redundant_sign_octets,
};
use std::alloc::Global;
use std::mem::size_of;

/// Appends how many octets a field and a shape take.
pub fn sizes(alloc: Global, text: &mut String) -> Option<()> {
    push_number(alloc, text, size_of::<Field<'_, '_>>() as u128)?;
    push_number(alloc, text, size_of::<Shape<'_>>() as u128)
}

/// Appends how the integers of two lists of octets compare.
pub fn cmp(alloc: Global, text: &mut String, words: &[&str]) -> Option<()> {
    if let [one, other] = words
        && let Some(one) = integer(alloc, one)
        && let Some(other) = integer(alloc, other)
    {
        return append(text, order_of(&one, &other));
    }
    None
}

fn order_of(one: &Integer, other: &Integer) -> &'static str {
    if *one == *other {
        return "equal";
    }
    if *one < *other { "less" } else { "greater" }
}

/// Appends the octets without redundant sign octets.
pub fn without(alloc: Global, text: &mut String, words: &[&str]) -> Option<()> {
    if let [octets] = words
        && let Some(octets) = octets_of(alloc, octets)
    {
        let shortest = without_redundant_sign_octets(octets.as_slice());
        return push_octets(alloc, text, shortest);
    }
    None
}

/// Appends the shortest octets of the integer of octets.
pub fn shortest(alloc: Global, text: &mut String, words: &[&str]) -> Option<()> {
    if let [octets] = words
        && let Some(number) = integer(alloc, octets)
    {
        return push_labelled(alloc, text, "", number.signed_octets().as_ref());
    }
    None
}

/// Appends how many integers of one octet, and of two octets, are decoded as their number in two's
/// complement, and how many are rejected because one octet would suffice.
pub fn of_two_octets(alloc: Global, text: &mut String) -> Option<()> {
    let (mut single, mut double, mut refused) = (0u128, 0u128, 0u128);
    for first in 0..=255u8 {
        single = single.saturating_add(u128::from(is_right(alloc, &[first])));
        let (right, other) = count_behind(alloc, first);
        double = double.saturating_add(right);
        refused = refused.saturating_add(other);
    }
    push_number(alloc, text, single)?;
    push_number(alloc, text, double)?;
    push_number(alloc, text, refused)
}

/// Returns how many integers of two octets that begin with this octet are decoded, and how many
/// rejected.
fn count_behind(alloc: Global, first: u8) -> (u128, u128) {
    let (mut right, mut refused) = (0u128, 0u128);
    for second in 0..=255u8 {
        let is_long = (first == 0 && second < 0x80) || (first == 0xFF && second >= 0x80);
        if is_long {
            refused = refused.saturating_add(u128::from(is_refused(alloc, &[first, second])));
        } else {
            right = right.saturating_add(u128::from(is_right(alloc, &[first, second])));
        }
    }
    (right, refused)
}

/// Reads an integer of all the octets.
fn read(alloc: Global, octets: &[u8]) -> Result<Vec<Field<'_, 'static>>, ReadError> {
    if octets.len() > 2 {
        return Err(ReadError::Memory);
    }
    let shapes = [Shape::Integer {
        octets: octets.len(),
    }];
    read_fields(alloc, &mut BitReader::from_octets(octets), &shapes)
}

/// Returns whether the octets are rejected because they are not the shortest.
fn is_refused(alloc: Global, octets: &[u8]) -> bool {
    read(alloc, octets).err() == Some(ReadError::Integer { field: 0 })
}

/// Returns whether the octets are read as their number.
fn is_right(alloc: Global, octets: &[u8]) -> bool {
    match read(alloc, octets) {
        Ok(fields) => is_number(fields.as_slice(), octets),
        Err(_) => false,
    }
}

fn is_number(fields: &[Field<'_, '_>], octets: &[u8]) -> bool {
    let [field] = fields else {
        return false;
    };
    match field {
        Field::Integer(own) => *own == value_of(octets),
        _ => false,
    }
}

/// Returns the number of one octet or two, in two's complement.
fn value_of(octets: &[u8]) -> Integer {
    match octets {
        [only] => Integer::from(i8::from_be_bytes([*only])),
        [first, second] => Integer::from(i16::from_be_bytes([*first, *second])),
        _ => Integer::zero(),
    }
}
