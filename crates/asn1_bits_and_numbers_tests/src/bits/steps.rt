//! Steps on a buffer. A step is a word, such as `push_bits:5:3`.

use crate::bits::words::{
    MANY, Part, bit_of, digits_of, octets_of, part_of, push_number, push_octets, size,
};
use asn1_bits::BitBuffer;
use std::alloc::Global;

/// Takes each step. Appends how many bits the buffer has after it, and its octets.
pub fn tell(
    alloc: Global,
    text: &mut String,
    buffer: &mut BitBuffer,
    steps: &[&str],
) -> Option<()> {
    for step in steps {
        take(alloc, buffer, step)?;
        push_state(alloc, text, buffer)?;
    }
    Some(())
}

/// Appends how many bits the buffer has, and its octets.
pub fn push_state(alloc: Global, text: &mut String, buffer: &BitBuffer) -> Option<()> {
    push_number(alloc, text, buffer.len() as u128)?;
    push_octets(alloc, text, buffer.as_bytes())
}

/// Returns a buffer after each step.
pub fn buffer_of(alloc: Global, steps: &[&str]) -> Option<BitBuffer> {
    let mut buffer = BitBuffer::new(alloc);
    take_all(alloc, &mut buffer, steps)?;
    Some(buffer)
}

/// Takes each step.
pub fn take_all(alloc: Global, buffer: &mut BitBuffer, steps: &[&str]) -> Option<()> {
    for step in steps {
        take(alloc, buffer, step)?;
    }
    Some(())
}

/// Takes a step.
pub fn take(alloc: Global, buffer: &mut BitBuffer, step: &str) -> Option<()> {
    let (name, rest) = step.split_once(':').unwrap_or((step, ""));
    match name {
        "push" => push(buffer, rest == "1"),
        "push_bits" => push_digits(buffer, digits_of(rest)?),
        "extend_from_bytes" => push_hex(alloc, buffer, rest),
        "extend_from_bitslice" => push_view(alloc, buffer, rest),
        "extend_from_buffer" => push_buffer(alloc, buffer, rest),
        "resize" => resize(buffer, bit_of(rest)?),
        "set" => set(buffer, bit_of(rest)?),
        "truncate" => Some(buffer.truncate(size(rest)?)),
        "reserve_bytes" => buffer.reserve_bytes(size(rest)?).ok(),
        "clear" => Some(buffer.clear()),
        _ => None,
    }
}

fn push(buffer: &mut BitBuffer, bit: bool) -> Option<()> {
    if buffer.len() > MANY {
        return None;
    }
    buffer.push(bit).ok()
}

/// Pushes the lowest digits of a number: a value and a width.
pub fn push_digits(buffer: &mut BitBuffer, digits: (u128, usize)) -> Option<()> {
    let (value, width) = digits;
    if width > 128 || buffer.len() > MANY {
        return None;
    }
    buffer.push_bits(value, width).ok()
}

fn push_hex(alloc: Global, buffer: &mut BitBuffer, rest: &str) -> Option<()> {
    push_bytes(buffer, octets_of(alloc, rest)?)
}

fn push_view(alloc: Global, buffer: &mut BitBuffer, rest: &str) -> Option<()> {
    push_part(buffer, &part_of(alloc, rest)?)
}

/// Pushes octets.
pub fn push_bytes(buffer: &mut BitBuffer, octets: Vec<u8>) -> Option<()> {
    if octets.len() > MANY || buffer.len() > MANY {
        return None;
    }
    buffer.extend_from_bytes(octets.as_slice()).ok()
}

/// Pushes the bits of a part.
pub fn push_part(buffer: &mut BitBuffer, part: &Part) -> Option<()> {
    if let Some(view) = part.view()
        && view.len() <= MANY
        && buffer.len() <= MANY
    {
        return buffer.extend_from_bitslice(view).ok();
    }
    None
}

/// Pushes a buffer that has one number.
fn push_buffer(alloc: Global, buffer: &mut BitBuffer, rest: &str) -> Option<()> {
    let mut other = BitBuffer::new(alloc);
    if let Some(digits) = digits_of(rest)
        && let Some(()) = push_digits(&mut other, digits)
        && other.len() <= MANY
        && buffer.len() <= MANY
    {
        return buffer.extend_from_buffer(&other).ok();
    }
    None
}

fn resize(buffer: &mut BitBuffer, to: (usize, bool)) -> Option<()> {
    let (len, bit) = to;
    if len < buffer.len() {
        return None;
    }
    buffer.resize(len, bit).ok()
}

fn set(buffer: &mut BitBuffer, to: (usize, bool)) -> Option<()> {
    let (place, bit) = to;
    if place >= buffer.len() {
        return None;
    }
    Some(buffer.set(place, bit))
}

/// Returns a buffer of `count` ones.
pub fn ones(alloc: Global, count: usize) -> Option<BitBuffer> {
    let mut buffer = BitBuffer::new(alloc);
    buffer.resize(count, true).ok()?;
    Some(buffer)
}
