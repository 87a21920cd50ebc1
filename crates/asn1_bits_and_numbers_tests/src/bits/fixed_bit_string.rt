//! Calls of strings of three bits.

use crate::bits::bit_buffer::tell_bits;
use crate::bits::words::{append, bit_of, octets_of, part_of, push_order};
use asn1_bits::FixedBitString;
use std::alloc::Global;

/// Appends the answer to a call.
pub fn answer(alloc: Global, text: &mut String, name: &str, words: &[&str]) -> Option<()> {
    match name {
        "set" => set_each(alloc, text, words),
        "from_bitstr" => from_bitstr(alloc, text, words),
        "as_bitstr" => as_bitstr(alloc, text, words),
        "cmp" => cmp(alloc, text, words),
        _ => None,
    }
}

/// Returns the string that a word names: `zero`, `new` with three octets, `from_bitstr` with a
/// view, or `set` with the bits to set.
fn string_of_word(alloc: Global, word: &str) -> Option<FixedBitString<3>> {
    match word.split_once(':') {
        Some(("new", rest)) => new(octets_of(alloc, rest)?),
        Some(("from_bitstr", rest)) => of_view(alloc, rest),
        Some(("set", rest)) => of_digits(rest),
        None if word == "zero" => Some(FixedBitString::<3>::zero()),
        _ => None,
    }
}

fn new(octets: Vec<u8>) -> Option<FixedBitString<3>> {
    match octets.as_slice() {
        [first, second, third] => Some(FixedBitString::<3>::new([*first, *second, *third])),
        _ => None,
    }
}

fn of_view(alloc: Global, word: &str) -> Option<FixedBitString<3>> {
    if let Some(part) = part_of(alloc, word)
        && let Some(view) = part.view()
    {
        return FixedBitString::<3>::from_bitstr(view);
    }
    None
}

fn of_digits(digits: &str) -> Option<FixedBitString<3>> {
    let mut bits = FixedBitString::<3>::zero();
    for (place, digit) in digits.as_bytes().iter().enumerate() {
        set(&mut bits, (place, *digit == b'1'))?;
    }
    Some(bits)
}

/// Appends the bits, one by one.
fn push_state(text: &mut String, bits: &FixedBitString<3>) -> Option<()> {
    append(text, "")?;
    for place in 0..3 {
        text.push(if bits.get(place) { '1' } else { '0' }).ok()?;
    }
    Some(())
}

/// Appends the bits of a string, and its bits after each step, such as `1:0`, which sets bit 1 to
/// 0.
fn set_each(alloc: Global, text: &mut String, words: &[&str]) -> Option<()> {
    let (first, steps) = words.split_first()?;
    let mut bits = string_of_word(alloc, first)?;
    push_state(text, &bits)?;
    for step in steps {
        set(&mut bits, bit_of(step)?)?;
        push_state(text, &bits)?;
    }
    Some(())
}

fn set(bits: &mut FixedBitString<3>, to: (usize, bool)) -> Option<()> {
    let (place, bit) = to;
    if place >= 3 {
        return None;
    }
    Some(bits.set(place, bit))
}

/// Appends the bits of a view, if they are three.
fn from_bitstr(alloc: Global, text: &mut String, words: &[&str]) -> Option<()> {
    if let [word] = words
        && let Some(part) = part_of(alloc, word)
        && let Some(view) = part.view()
    {
        return push_string(text, FixedBitString::<3>::from_bitstr(view));
    }
    None
}

fn push_string(text: &mut String, bits: Option<FixedBitString<3>>) -> Option<()> {
    match bits {
        Some(bits) => push_state(text, &bits),
        None => append(text, "none"),
    }
}

/// Appends the borrowed bits, and how they compare with the view of the second word.
fn as_bitstr(alloc: Global, text: &mut String, words: &[&str]) -> Option<()> {
    if let [own, view] = words
        && let Some(own) = string_of_word(alloc, own)
    {
        return tell_bits(alloc, text, own.as_bitstr(), view);
    }
    None
}

fn cmp(alloc: Global, text: &mut String, words: &[&str]) -> Option<()> {
    if let [one, other] = words
        && let Some(one) = string_of_word(alloc, one)
        && let Some(other) = string_of_word(alloc, other)
    {
        return push_order(text, &one, &other);
    }
    None
}
