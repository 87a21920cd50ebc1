//! Calls that write over the bits of octets.

use crate::bits::kernels::are_within;
use crate::bits::words::{Part, part_of, size, wide};
use asn1_bits::{Turns, overwrite_bitslice, overwrite_number};
use std::alloc::Global;

/// Answers `VIEW`: writes the view's bits.
pub fn put_view(alloc: Global, target: &mut [u8], position: usize, words: &[&str]) -> Option<()> {
    if let [view] = words
        && let Some(part) = part_of(alloc, view)
    {
        return put_part(target, position, &part);
    }
    None
}

fn put_part(target: &mut [u8], position: usize, part: &Part) -> Option<()> {
    if let Some(view) = part.view()
        && are_within(target, position, view.len())
    {
        return Some(overwrite_bitslice(target, position, view, &mut Turns::new()));
    }
    None
}

/// Answers `VALUE WIDTH`: writes the number's lowest digits.
pub fn put_number(target: &mut [u8], position: usize, words: &[&str]) -> Option<()> {
    if let [value, width] = words
        && let Some(value) = wide(value)
        && let Some(width) = size(width)
    {
        return put_digits(target, position, (value, width));
    }
    None
}

/// Writes the lowest digits of a number, a value and a width, if there is room for them.
pub fn put_digits(target: &mut [u8], position: usize, digits: (u128, usize)) -> Option<()> {
    let (value, width) = digits;
    if width > 128 || !are_within(target, position, width) {
        return None;
    }
    Some(overwrite_number(target, position, value, width, &mut Turns::new()))
}
