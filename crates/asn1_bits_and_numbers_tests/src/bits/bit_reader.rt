//! Calls of readers. A call on a reader is a word, such as `split:5`.

use crate::bits::words::{
    append, octets_of, part_of, push_bit, push_bits, push_number, push_octets, size,
};
use asn1_bits::{BitReader, Octets, read_u128};
use std::alloc::Global;

/// Appends the answer to a call.
pub fn answer(alloc: Global, text: &mut String, name: &str, words: &[&str]) -> Option<()> {
    match (name, words) {
        ("new", [first, steps @ ..]) => new(alloc, text, first, steps),
        ("from_octets", [first, steps @ ..]) => from_octets(alloc, text, first, steps),
        _ => None,
    }
}

fn new(alloc: Global, text: &mut String, view: &str, steps: &[&str]) -> Option<()> {
    if let Some(part) = part_of(alloc, view)
        && let Some(view) = part.view()
    {
        return tell(alloc, text, BitReader::new(view), steps);
    }
    None
}

fn from_octets(alloc: Global, text: &mut String, digits: &str, steps: &[&str]) -> Option<()> {
    if let Some(octets) = octets_of(alloc, digits)
        && octets.len() <= 1000
    {
        let reader = BitReader::from_octets(octets.as_slice());
        return tell(alloc, text, reader, steps);
    }
    None
}

/// Appends the answer of the reader to each step.
fn tell(alloc: Global, text: &mut String, mut reader: BitReader<'_>, steps: &[&str]) -> Option<()> {
    for step in steps {
        take(alloc, text, &mut reader, step)?;
    }
    Some(())
}

/// Appends the answer to a step.
fn take(alloc: Global, text: &mut String, reader: &mut BitReader<'_>, step: &str) -> Option<()> {
    match step.split_once(':') {
        Some((name, count)) => take_some(alloc, text, reader, name, size(count)?),
        None => look(alloc, text, reader, step),
    }
}

/// Appends the answer to a step without a number.
fn look(alloc: Global, text: &mut String, reader: &BitReader<'_>, step: &str) -> Option<()> {
    match step {
        "len" => push_number(alloc, text, reader.len() as u128),
        "bits" => push_bits(text, reader.bits()),
        "first_bit" => first_bit(text, reader),
        "aligned_octets" => aligned_octets(alloc, text, reader),
        _ => None,
    }
}

/// Appends the answer to a step with a number.
fn take_some(
    alloc: Global,
    text: &mut String,
    reader: &mut BitReader<'_>,
    name: &str,
    count: usize,
) -> Option<()> {
    match name {
        "first_bits" => first_bits(alloc, text, reader, count),
        "first_u128" => first_u128(alloc, text, reader, count),
        "split" => split(alloc, text, reader, count),
        _ => take_off(alloc, text, reader, name, count),
    }
}

/// Appends the answer to a call on the bits that `split` takes.
fn take_off(
    alloc: Global,
    text: &mut String,
    reader: &mut BitReader<'_>,
    name: &str,
    count: usize,
) -> Option<()> {
    let front = reader.split(count).ok()?;
    match name {
        "number" => number(alloc, text, &front),
        "octets" => octets_left(alloc, text, &front),
        _ => None,
    }
}

fn first_bit(text: &mut String, reader: &BitReader<'_>) -> Option<()> {
    if reader.len() == 0 {
        return None;
    }
    push_bit(text, reader.first_bit())
}

fn first_bits(
    alloc: Global,
    text: &mut String,
    reader: &BitReader<'_>,
    width: usize,
) -> Option<()> {
    if width > 32 || width > reader.len() {
        return None;
    }
    push_number(alloc, text, u128::from(reader.first_bits(width)))
}

fn first_u128(
    alloc: Global,
    text: &mut String,
    reader: &BitReader<'_>,
    width: usize,
) -> Option<()> {
    if width > 128 || width > reader.len() {
        return None;
    }
    push_number(alloc, text, reader.first_u128(width))
}

/// Appends the octets that are left, if they are borrowed.
fn aligned_octets(alloc: Global, text: &mut String, reader: &BitReader<'_>) -> Option<()> {
    match reader.aligned_octets() {
        Some(octets) => push_octets(alloc, text, octets),
        None => append(text, "none"),
    }
}

/// Appends the bits that `split` takes, or how many are missing.
fn split(alloc: Global, text: &mut String, reader: &mut BitReader<'_>, count: usize) -> Option<()> {
    match reader.split(count) {
        Ok(front) => push_bits(text, front.bits()),
        Err(missing) => {
            append(text, "short")?;
            push_number(alloc, text, missing as u128)
        }
    }
}

/// Appends the number of the bits.
fn number(alloc: Global, text: &mut String, reader: &BitReader<'_>) -> Option<()> {
    if reader.len() > 128 {
        return None;
    }
    push_number(alloc, text, read_u128(reader.bits()))
}

/// Appends the octets, and whether they are borrowed or a copy.
fn octets_left(alloc: Global, text: &mut String, reader: &BitReader<'_>) -> Option<()> {
    if reader.len() % 8 != 0 {
        return None;
    }
    match reader.octets(alloc) {
        Ok(octets) => tell_octets(alloc, text, &octets),
        Err(_) => None,
    }
}

fn tell_octets(alloc: Global, text: &mut String, octets: &Octets<'_>) -> Option<()> {
    let kind = match octets {
        Octets::Borrowed(_) => "lent",
        Octets::Owned(_) => "copied",
    };
    append(text, kind)?;
    push_octets(alloc, text, octets.as_ref())
}
