//! Calls of bit strings. Steps make a bit string, such as `from_vec:FF truncate:3`.

use crate::bits::words::{
    MANY, Part, octets_of, part_of, part_of_three, push_bits, push_number, push_octets, push_order,
    push_packed, push_truth, size,
};
use asn1_bits::{BitString, extend_bitstring, to_bitstring};
use std::alloc::Global;

/// Appends the answer to a call.
pub fn answer(alloc: Global, text: &mut String, name: &str, words: &[&str]) -> Option<()> {
    match name {
        "new" => tell(alloc, text, words),
        "cmp" => cmp(alloc, text, words),
        "to_bitstring" => compare_copy(alloc, text, words),
        "into_vec" => into_vec(alloc, text, words),
        _ => answer_on(alloc, text, name, &string_of(alloc, words)?),
    }
}

/// Appends the answer to a call on a string.
fn answer_on(alloc: Global, text: &mut String, name: &str, bits: &BitString) -> Option<()> {
    match name {
        "as_bitstr" => push_bits(text, bits.as_bitstr()),
        "is_empty" => push_truth(text, bits.is_empty()),
        "clone" => clone(alloc, text, bits),
        _ => None,
    }
}

/// Takes each step. Appends how many bits the string has after it, and its octets.
fn tell(alloc: Global, text: &mut String, steps: &[&str]) -> Option<()> {
    let mut bits = BitString::new(alloc);
    for step in steps {
        take(alloc, &mut bits, step)?;
        push_state(alloc, text, &bits)?;
    }
    Some(())
}

/// Appends how many bits the string has, and its octets.
fn push_state(alloc: Global, text: &mut String, bits: &BitString) -> Option<()> {
    push_number(alloc, text, bits.len() as u128)?;
    push_octets(alloc, text, bits.as_raw_slice())
}

/// Returns a string after each step.
fn string_of(alloc: Global, steps: &[&str]) -> Option<BitString> {
    let mut bits = BitString::new(alloc);
    for step in steps {
        take(alloc, &mut bits, step)?;
    }
    Some(bits)
}

/// Takes a step.
fn take(alloc: Global, bits: &mut BitString, step: &str) -> Option<()> {
    let (name, rest) = step.split_once(':')?;
    match name {
        "from_vec" => from_vec(bits, octets_of(alloc, rest)?),
        "to_bitstring" => copy(alloc, bits, &part_of(alloc, rest)?),
        "extend_bitstring" => extend(bits, &part_of(alloc, rest)?),
        "truncate" => Some(bits.truncate(size(rest)?)),
        _ => None,
    }
}

/// Replaces the string by one of all bits of the octets.
fn from_vec(bits: &mut BitString, octets: Vec<u8>) -> Option<()> {
    *bits = string_in(octets)?;
    Some(())
}

/// Returns a string of all bits of the octets.
pub fn string_in(octets: Vec<u8>) -> Option<BitString> {
    if octets.len() > MANY {
        return None;
    }
    Some(BitString::from_vec(octets))
}

/// Replaces the string by one of the part's bits.
fn copy(alloc: Global, bits: &mut BitString, part: &Part) -> Option<()> {
    *bits = copy_of(alloc, part)?;
    Some(())
}

/// Returns a string of the part's bits.
fn copy_of(alloc: Global, part: &Part) -> Option<BitString> {
    to_bitstring(alloc, part.view()?).ok()
}

/// Appends the part's bits.
pub fn extend(bits: &mut BitString, part: &Part) -> Option<()> {
    if let Some(view) = part.view()
        && view.len() <= MANY
        && bits.len() <= MANY
    {
        return extend_bitstring(bits, view).ok();
    }
    None
}

fn into_vec(alloc: Global, text: &mut String, steps: &[&str]) -> Option<()> {
    match string_of(alloc, steps) {
        Some(bits) => push_octets(alloc, text, bits.into_vec().as_slice()),
        None => None,
    }
}

/// Appends a copy, and how it compares with its original.
fn clone(alloc: Global, text: &mut String, bits: &BitString) -> Option<()> {
    if let Ok(copy) = bits.clone()
        && let Some(()) = push_state(alloc, text, &copy)
    {
        return push_order(text, &copy, bits);
    }
    None
}

/// Appends how the strings of two parts compare.
fn cmp(alloc: Global, text: &mut String, words: &[&str]) -> Option<()> {
    if let [one, other] = words
        && let Some(one) = string_at(alloc, one)
        && let Some(other) = string_at(alloc, other)
    {
        return push_order(text, &one, &other);
    }
    None
}

/// Returns the string of the part that a word encodes.
fn string_at(alloc: Global, word: &str) -> Option<BitString> {
    match part_of(alloc, word) {
        Some(part) => copy_of(alloc, &part),
        None => None,
    }
}

/// Answers `OCTETS FIRST LEN`: the octets of a copy of the view, and how it compares with the view.
fn compare_copy(alloc: Global, text: &mut String, words: &[&str]) -> Option<()> {
    if let Some(part) = part_of_three(alloc, words)
        && let Some(view) = part.view()
        && let Ok(copy) = to_bitstring(alloc, view)
        && let Some(()) = push_packed(alloc, text, copy.as_bitstr())
    {
        return push_order(text, &copy.as_bitstr(), &view);
    }
    None
}
