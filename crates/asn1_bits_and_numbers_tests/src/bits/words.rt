//! The words of rows on bits. A word that cannot be read is `None`, and so is every word if out of
//! memory.

use asn1_bits::BitStr;
pub use asn1_test_rows::words_or_none::{append, octets_of, push_number, push_octets, size, wide};
use std::alloc::Global;

/// More bits than any row has.
pub const MANY: usize = 100_000;

/// Octets, and which of their bits a view has.
#[derive(Drop)]
pub struct Part {
    pub octets: Vec<u8>,
    pub first: usize,
    pub len: usize,
}

impl Part {
    /// Returns the view, if its bits are in the octets.
    pub fn view(&self) -> Option<BitStr<'_>> {
        BitStr::new(self.octets.as_slice(), self.first, self.len)
    }
}

/// Returns the part that a word encodes: `A55A:4:8` has 8 bits from bit 4 of the octets on.
pub fn part_of(alloc: Global, word: &str) -> Option<Part> {
    if let Some((octets, place)) = word.split_once(':')
        && let Some((first, len)) = place.split_once(':')
    {
        return part_from(alloc, octets, first, len);
    }
    None
}

/// Returns the part that three words encode.
pub fn part_of_three(alloc: Global, words: &[&str]) -> Option<Part> {
    match words {
        [octets, first, len] => part_from(alloc, octets, first, len),
        _ => None,
    }
}

fn part_from(alloc: Global, octets: &str, first: &str, len: &str) -> Option<Part> {
    if let Some(first) = size(first)
        && let Some(len) = size(len)
        && let Some(octets) = octets_of(alloc, octets)
    {
        return Some(Part { octets, first, len });
    }
    None
}

/// Returns a number and a size, joined by a colon.
pub fn digits_of(word: &str) -> Option<(u128, usize)> {
    if let Some((value, width)) = word.split_once(':')
        && let Some(value) = wide(value)
        && let Some(width) = size(width)
    {
        return Some((value, width));
    }
    None
}

/// Returns a size and a bit, joined by a colon.
pub fn bit_of(word: &str) -> Option<(usize, bool)> {
    if let Some((place, bit)) = word.split_once(':')
        && let Some(place) = size(place)
    {
        return Some((place, bit == "1"));
    }
    None
}

/// Appends `true` or `false`.
pub fn push_truth(text: &mut String, truth: bool) -> Option<()> {
    append(text, if truth { "true" } else { "false" })
}

/// Appends a bit as a word.
pub fn push_bit(text: &mut String, bit: bool) -> Option<()> {
    append(text, if bit { "1" } else { "0" })
}

/// Appends the bits of a view as `0` and `1`, or `-` if there are none.
pub fn push_bits(text: &mut String, view: BitStr<'_>) -> Option<()> {
    if view.len() == 0 {
        return append(text, "-");
    }
    append(text, "")?;
    for place in 0..view.len() {
        text.push(if view.get(place) { '1' } else { '0' }).ok()?;
    }
    Some(())
}

/// Appends the bits of a view in octets, with zeros to the end of the last.
pub fn push_packed(alloc: Global, text: &mut String, view: BitStr<'_>) -> Option<()> {
    match pack_bits(alloc, view) {
        Some(octets) => push_octets(alloc, text, octets.as_slice()),
        None => None,
    }
}

/// Returns the bits of a view in octets, with zeros to the end of the last.
pub fn pack_bits(alloc: Global, view: BitStr<'_>) -> Option<Vec<u8>> {
    let mut octets = Vec::new(alloc);
    let mut octet = 0u8;
    for place in 0..view.len() {
        octet = (octet << 1) | u8::from(view.get(place));
        if place % 8 == 7 {
            octets.push(octet).ok()?;
            octet = 0;
        }
    }
    let left = view.len() % 8;
    if left > 0 {
        octets.push(octet << (8 - left)).ok()?;
    }
    Some(octets)
}

/// Appends how two values compare, by all of their operators.
pub fn push_order<T: Ord>(text: &mut String, one: &T, other: &T) -> Option<()> {
    append(text, order_of(one, other))
}

fn order_of<T: Ord>(one: &T, other: &T) -> &'static str {
    if *one == *other {
        return "equal";
    }
    if *one < *other && *other > *one {
        return "less";
    }
    if *one > *other && *other < *one {
        return "greater";
    }
    "incomparable"
}
