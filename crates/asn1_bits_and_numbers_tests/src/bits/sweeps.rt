//! Calls that write, at many positions and widths, compared bit by bit with what they must leave.

use crate::bits::overwritten::put_digits;
use crate::bits::words::{octets_of, push_number, size, wide};
use crate::bits::written::or_into;
use std::alloc::Global;

/// Answers `OCTETS SOURCE POSITIONS COUNTS`: for how many of POSITIONS positions and COUNTS counts
/// the bits are right.
pub fn or(alloc: Global, text: &mut String, words: &[&str]) -> Option<()> {
    if let [old, src, positions, counts] = words
        && let Some(positions) = size(positions)
        && let Some(counts) = size(counts)
        && let Some(src) = octets_of(alloc, src)
        && let Some(old) = octets_of(alloc, old)
        && let Some(right) = sweep_ors(alloc, old.as_slice(), src.as_slice(), (positions, counts))
    {
        return push_number(alloc, text, right);
    }
    None
}

/// Answers `OCTETS VALUE POSITIONS WIDTHS`: for how many of POSITIONS positions and WIDTHS widths
/// the bits are right.
pub fn overwrite(alloc: Global, text: &mut String, words: &[&str]) -> Option<()> {
    if let [old, value, positions, widths] = words
        && let Some(positions) = size(positions)
        && let Some(widths) = size(widths)
        && let Some(value) = wide(value)
        && let Some(old) = octets_of(alloc, old)
        && let Some(right) = sweep_overwrites(alloc, old.as_slice(), value, (positions, widths))
    {
        return push_number(alloc, text, right);
    }
    None
}

/// Returns for how many positions and counts the bits are right.
fn sweep_ors(alloc: Global, old: &[u8], src: &[u8], end: (usize, usize)) -> Option<u128> {
    let mut right = 0u128;
    for position in 0..end.0 {
        right = right.saturating_add(ored_at(alloc, old, src, position, end.1)?);
    }
    Some(right)
}

/// Returns for how many counts the bits are right at a position.
fn ored_at(alloc: Global, old: &[u8], src: &[u8], position: usize, counts: usize) -> Option<u128> {
    let mut right = 0u128;
    for count in 0..counts {
        if is_right_or(alloc, old, src, position, count)? {
            right = right.saturating_add(1);
        }
    }
    Some(right)
}

/// Returns whether the bits are right after the first bits of the source are ORed into the octets.
fn is_right_or(
    alloc: Global,
    old: &[u8],
    src: &[u8],
    position: usize,
    count: usize,
) -> Option<bool> {
    if let Ok(mut target) = Vec::from_slice(alloc, old)
        && let Some(()) = or_into(target.as_mut_slice(), src, position, count)
    {
        return Some(is_ored(target.as_slice(), old, src, position, count));
    }
    None
}

/// Returns whether each bit is the old bit, ORed with the bit that the source has for its index.
fn is_ored(after: &[u8], before: &[u8], src: &[u8], position: usize, count: usize) -> bool {
    let mut is_right = after.len() == before.len();
    for place in 0..8 * after.len().min(100) {
        let placed = match place.checked_sub(position) {
            Some(at) => at < count && bit(src, at),
            None => false,
        };
        is_right = is_right && bit(after, place) == (bit(before, place) || placed);
    }
    is_right
}

/// Returns bit `place` of the octets.
fn bit(octets: &[u8], place: usize) -> bool {
    match octets.get(place / 8) {
        Some(octet) => (octet >> (7 - place % 8)) & 1 == 1,
        None => false,
    }
}

/// Returns for how many positions and widths the bits are right.
fn sweep_overwrites(alloc: Global, old: &[u8], value: u128, end: (usize, usize)) -> Option<u128> {
    let mut right = 0u128;
    for position in 0..end.0 {
        right = right.saturating_add(overwritten_at(alloc, old, value, position, end.1)?);
    }
    Some(right)
}

/// Returns for how many widths the bits are right at a position.
fn overwritten_at(
    alloc: Global,
    old: &[u8],
    value: u128,
    position: usize,
    widths: usize,
) -> Option<u128> {
    let mut right = 0u128;
    for width in 0..widths {
        if is_right_number(alloc, old, (value, width), position)? {
            right = right.saturating_add(1);
        }
    }
    Some(right)
}

/// Returns whether the bits are right after the digits of a number are written over the octets.
fn is_right_number(
    alloc: Global,
    old: &[u8],
    digits: (u128, usize),
    position: usize,
) -> Option<bool> {
    if let Ok(mut target) = Vec::from_slice(alloc, old)
        && let Some(()) = put_digits(target.as_mut_slice(), position, digits)
    {
        return Some(is_overwritten(target.as_slice(), old, digits, position));
    }
    None
}

/// Returns whether each bit is the digit that was written to its index, and every other bit the old
/// one.
fn is_overwritten(after: &[u8], before: &[u8], digits: (u128, usize), position: usize) -> bool {
    let mut is_right = after.len() == before.len();
    for place in 0..8 * after.len().min(100) {
        let wanted = match place.checked_sub(position) {
            Some(at) if at < digits.1 => digit(digits.0, digits.1, at),
            _ => bit(before, place),
        };
        is_right = is_right && bit(after, place) == wanted;
    }
    is_right
}

/// Returns digit `place` of the lowest `width` digits of the number, most significant first.
fn digit(value: u128, width: usize, place: usize) -> bool {
    match width.checked_sub(place) {
        Some(behind) if behind >= 1 && behind <= 128 => (value >> (behind - 1)) & 1 == 1,
        _ => false,
    }
}
