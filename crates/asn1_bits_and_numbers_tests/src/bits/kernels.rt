//! Calls that read: numbers and octets.

ghost use Rattle.std.specs.Prelude.{◌≤◌, ◌+◌, ◌*◌, ◌↔◌, IsTrue, length};

use crate::bits::words::{MANY, append, octets_of, part_of, push_number, push_octets, size};
use asn1_bits::{BitStr, aligned_octets, range_from_len, read_bits, read_u128, read_wide};
use std::alloc::Global;

/// Appends the answer to a call.
pub fn answer(alloc: Global, text: &mut String, call: &str, words: &[&str]) -> Option<()> {
    match words {
        [octets, position, width] => answer_three(alloc, text, call, octets, position, width),
        [word] => answer_one(alloc, text, call, word),
        _ => None,
    }
}

fn answer_three(
    alloc: Global,
    text: &mut String,
    call: &str,
    octets: &str,
    position: &str,
    width: &str,
) -> Option<()> {
    if let Some(octets) = octets_of(alloc, octets)
        && let Some(position) = size(position)
        && let Some(width) = size(width)
        && let Some(number) = read(call, octets.as_slice(), (position, width))
    {
        return push_number(alloc, text, number);
    }
    None
}

/// Returns the number of `width` bits of the octets, from bit `first` on.
fn read(call: &str, octets: &[u8], place: (usize, usize)) -> Option<u128> {
    match call {
        "read_bits" => bits(octets, place),
        "read_wide" => wide(octets, place),
        _ => None,
    }
}

/// Appends the answer to a call with one word.
fn answer_one(alloc: Global, text: &mut String, call: &str, word: &str) -> Option<()> {
    match call {
        "range_from_len" => push_number(alloc, text, range(word)?),
        "aligned_octets" => lent(alloc, text, word),
        "read_u128" => number(alloc, text, word),
        _ => None,
    }
}

/// Appends the octets of a view that begins and ends at octets.
fn lent(alloc: Global, text: &mut String, word: &str) -> Option<()> {
    if let Some(part) = part_of(alloc, word)
        && let Some(view) = part.view()
    {
        return match aligned_octets(view) {
            Some(octets) => push_octets(alloc, text, octets),
            None => append(text, "none"),
        };
    }
    None
}

fn number(alloc: Global, text: &mut String, word: &str) -> Option<()> {
    if let Some(part) = part_of(alloc, word)
        && let Some(view) = part.view()
        && let Some(number) = number_of(view)
    {
        return push_number(alloc, text, number);
    }
    None
}

fn number_of(view: BitStr<'_>) -> Option<u128> {
    if view.len() > 128 {
        return None;
    }
    Some(read_u128(view))
}

fn range(word: &str) -> Option<u128> {
    let len = word.parse::<u32>().ok()?;
    if len > 126 {
        return None;
    }
    u128::try_from(range_from_len(len)).ok()
}

fn bits(octets: &[u8], place: (usize, usize)) -> Option<u128> {
    let (position, width) = place;
    if width > 32 || !are_within(octets, position, width) {
        return None;
    }
    Some(u128::from(read_bits(octets, position, width)))
}

fn wide(octets: &[u8], place: (usize, usize)) -> Option<u128> {
    let (position, width) = place;
    if width > 128 || !are_within(octets, position, width) {
        return None;
    }
    Some(read_wide(octets, position, width))
}

/// Returns whether the octets have `width` bits from bit `position` on, and are not too many for a
/// row.
pub fn are_within(octets: &[u8], position: usize, width: usize) -> bool
    ensures { IsTrue result ↔ ((length octets.now ≤ 100000) × (position ≤ 800000)
        × (width ≤ 800000) × (position + width ≤ 8 * length octets.now)) }
{
    octets.len() <= MANY
        && position <= 8 * MANY
        && width <= 8 * MANY
        && position + width <= 8 * octets.len()
}
