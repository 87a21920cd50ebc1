//! A view after some ones, in a buffer and in a bit string.

use crate::bits::bit_string::{extend, string_in};
use crate::bits::steps::{ones, push_part};
use crate::bits::words::{Part, append, pack_bits, part_of_three, push_octets, size};
use asn1_bits::BitString;
use std::alloc::Global;

/// Answers `ONES OCTETS FIRST LEN`: the octets of ONES ones and the view's bits in a buffer,
/// followed by `other` if a bit string has other octets or other bits.
pub fn answer(alloc: Global, text: &mut String, words: &[&str]) -> Option<()> {
    if let [count, src @ ..] = words
        && let Some(count) = size(count)
        && let Some(part) = part_of_three(alloc, src)
        && let Some(octets) = buffer_octets(alloc, count, &part)
        && let Some(()) = push_octets(alloc, text, octets.as_slice())
    {
        return compare(alloc, text, octets, count, &part);
    }
    None
}

/// Returns the octets of the ones and the part's bits.
fn buffer_octets(alloc: Global, count: usize, part: &Part) -> Option<Vec<u8>> {
    if let Some(mut buffer) = ones(alloc, count)
        && let Some(()) = push_part(&mut buffer, part)
    {
        return Some(buffer.into_vec());
    }
    None
}

/// Appends `other` if a string of the octets' first bits and the part's bits has other octets or
/// other bits.
fn compare(
    alloc: Global,
    text: &mut String,
    octets: Vec<u8>,
    count: usize,
    part: &Part,
) -> Option<()> {
    if let Ok(wanted) = Vec::from_slice(alloc, octets.as_slice())
        && let Some(string) = string_of(octets, count, part)
        && let Some(is_same) = is_string_of(alloc, &string, wanted.as_slice())
    {
        return if is_same {
            Some(())
        } else {
            append(text, "other")
        };
    }
    None
}

/// Returns the first `count` bits of the octets, followed by the part's bits.
fn string_of(octets: Vec<u8>, count: usize, part: &Part) -> Option<BitString> {
    if let Some(mut string) = string_in(octets) {
        string.truncate(count);
        if let Some(()) = extend(&mut string, part) {
            return Some(string);
        }
    }
    None
}

/// Returns whether a string has these octets, and their bits.
fn is_string_of(alloc: Global, string: &BitString, octets: &[u8]) -> Option<bool> {
    match pack_bits(alloc, string.as_bitstr()) {
        Some(shown) => Some(string.as_raw_slice() == octets && shown.as_slice() == octets),
        None => None,
    }
}
