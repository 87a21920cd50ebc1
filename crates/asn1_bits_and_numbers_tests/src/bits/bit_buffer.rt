//! Calls of buffers. Steps make a buffer.

use crate::bits::steps::{buffer_of, ones, push_bytes, push_digits, push_state, take_all, tell};
use crate::bits::words::{
    octets_of, part_of, push_bits, push_number, push_octets, push_order, push_truth, size, wide,
};
use asn1_bits::{BitBuffer, BitStr, read_u128};
use std::alloc::Global;

/// Appends the answer to a call.
pub fn answer(alloc: Global, text: &mut String, name: &str, words: &[&str]) -> Option<()> {
    match name {
        "new" => tell(alloc, text, &mut BitBuffer::new(alloc), words),
        "from_vec" => from_vec(alloc, text, words),
        "into_vec" => into_vec(alloc, text, words),
        "clone" => clone(alloc, text, words),
        "as_bitstr" => as_bitstr(alloc, text, words),
        "eq" => eq(alloc, text, words),
        "push_bits" => digits_behind_ones(alloc, text, words),
        "extend_from_bytes" => octets_behind_ones(alloc, text, words),
        _ => None,
    }
}

/// Answers a row of steps on a buffer in the octets of the first word: the buffer before the steps
/// and after each.
fn from_vec(alloc: Global, text: &mut String, words: &[&str]) -> Option<()> {
    if let [own, steps @ ..] = words
        && let Some(own) = octets_of(alloc, own)
    {
        return tell_from(alloc, text, BitBuffer::from_vec(own), steps);
    }
    None
}

/// Appends a buffer before the steps and after each.
fn tell_from(
    alloc: Global,
    text: &mut String,
    mut buffer: BitBuffer,
    steps: &[&str],
) -> Option<()> {
    push_state(alloc, text, &buffer)?;
    tell(alloc, text, &mut buffer, steps)
}

fn into_vec(alloc: Global, text: &mut String, steps: &[&str]) -> Option<()> {
    match buffer_of(alloc, steps) {
        Some(buffer) => push_octets(alloc, text, buffer.into_vec().as_slice()),
        None => None,
    }
}

fn clone(alloc: Global, text: &mut String, steps: &[&str]) -> Option<()> {
    if let Some(buffer) = buffer_of(alloc, steps)
        && let Ok(copy) = buffer.clone()
    {
        return push_state(alloc, text, &copy);
    }
    None
}

/// Appends the borrowed bits, and how they compare with the view of the first word.
fn as_bitstr(alloc: Global, text: &mut String, words: &[&str]) -> Option<()> {
    if let [view, steps @ ..] = words
        && let Some(buffer) = buffer_of(alloc, steps)
    {
        return tell_bits(alloc, text, buffer.as_bitstr(), view);
    }
    None
}

/// Appends the bits of a view, and how they compare with those of another.
pub fn tell_bits(alloc: Global, text: &mut String, own: BitStr<'_>, other: &str) -> Option<()> {
    if let Some(()) = push_bits(text, own)
        && let Some(other) = part_of(alloc, other)
        && let Some(view) = other.view()
    {
        return push_order(text, &own, &view);
    }
    None
}

/// Appends whether a buffer after one step equals a buffer in the octets of the second word after
/// the other steps.
fn eq(alloc: Global, text: &mut String, words: &[&str]) -> Option<()> {
    if let [step, own, steps @ ..] = words
        && let Some(other) = buffer_in(alloc, own, steps)
        && let Some(one) = buffer_of(alloc, &[*step])
    {
        return push_truth(text, one == other);
    }
    None
}

/// Returns a buffer in these octets after each step.
fn buffer_in(alloc: Global, own: &str, steps: &[&str]) -> Option<BitBuffer> {
    if let Some(own) = octets_of(alloc, own) {
        let mut buffer = BitBuffer::from_vec(own);
        if let Some(()) = take_all(alloc, &mut buffer, steps) {
            return Some(buffer);
        }
    }
    None
}

/// Answers `ONES VALUE WIDTH`: the octets of ONES ones and the lowest digits of a number, and the
/// number that is read back from these digits.
fn digits_behind_ones(alloc: Global, text: &mut String, words: &[&str]) -> Option<()> {
    if let [count, value, width] = words
        && let Some(count) = size(count)
        && let Some(value) = wide(value)
        && let Some(width) = size(width)
        && let Some(buffer) = buffer_behind(alloc, count, (value, width))
    {
        return tell_digits(alloc, text, buffer.as_bytes(), count, width);
    }
    None
}

/// Appends octets, and the number of some of their bits, from one bit on.
fn tell_digits(
    alloc: Global,
    text: &mut String,
    octets: &[u8],
    first: usize,
    width: usize,
) -> Option<()> {
    if let Some(number) = read_back(octets, first, width)
        && let Some(()) = push_octets(alloc, text, octets)
    {
        return push_number(alloc, text, number);
    }
    None
}

/// Returns a buffer of `count` ones and the digits.
fn buffer_behind(alloc: Global, count: usize, digits: (u128, usize)) -> Option<BitBuffer> {
    if let Some(mut buffer) = ones(alloc, count)
        && let Some(()) = push_digits(&mut buffer, digits)
    {
        return Some(buffer);
    }
    None
}

/// Returns the number of `width` bits of the octets, from bit `first` on.
fn read_back(octets: &[u8], first: usize, width: usize) -> Option<u128> {
    if let Some(view) = BitStr::new(octets, first, width)
        && view.len() <= 128
    {
        return Some(read_u128(view));
    }
    None
}

/// Answers `ONES OCTETS`: the octets of ONES ones and the bits of octets.
fn octets_behind_ones(alloc: Global, text: &mut String, words: &[&str]) -> Option<()> {
    if let [count, src] = words
        && let Some(count) = size(count)
        && let Some(buffer) = octets_behind(alloc, count, src)
    {
        return push_octets(alloc, text, buffer.as_bytes());
    }
    None
}

/// Returns a buffer of `count` ones and the bits of octets.
fn octets_behind(alloc: Global, count: usize, src: &str) -> Option<BitBuffer> {
    if let Some(src) = octets_of(alloc, src)
        && let Some(mut buffer) = ones(alloc, count)
        && let Some(()) = push_bytes(&mut buffer, src)
    {
        return Some(buffer);
    }
    None
}
