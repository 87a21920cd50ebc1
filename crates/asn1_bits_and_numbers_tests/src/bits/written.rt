//! Calls that write into octets or after them.

use crate::bits::kernels::are_within;
use crate::bits::overwritten::{put_number, put_view};
use crate::bits::words::{Part, octets_of, part_of_three, push_octets, size};
use asn1_bits::{Turns, extend_vec_from_bitslice, or_bits, write_bitslice};
use std::alloc::Global;

/// Answers `OCTETS POSITION ..`: the octets after a call wrote what the other words encode, from
/// bit POSITION on.
pub fn answer(alloc: Global, text: &mut String, call: &str, words: &[&str]) -> Option<()> {
    if let [old, position, others @ ..] = words
        && let Some(position) = size(position)
        && let Some(mut own) = octets_of(alloc, old)
        && let Some(()) = put(alloc, call, own.as_mut_slice(), position, others)
    {
        return push_octets(alloc, text, own.as_slice());
    }
    None
}

/// Writes what the words encode by the call.
fn put(
    alloc: Global,
    call: &str,
    target: &mut [u8],
    position: usize,
    words: &[&str],
) -> Option<()> {
    match call {
        "or_bits" => or(alloc, target, position, words),
        "write_bitslice" => write_part(target, position, &part_of_three(alloc, words)?),
        "overwrite_bitslice" => put_view(alloc, target, position, words),
        _ => put_number(target, position, words),
    }
}

/// Answers `SOURCE COUNT`: ORs the first bits of the source in.
fn or(alloc: Global, target: &mut [u8], position: usize, words: &[&str]) -> Option<()> {
    if let [src, count] = words
        && let Some(count) = size(count)
        && let Some(src) = octets_of(alloc, src)
    {
        return or_into(target, src.as_slice(), position, count);
    }
    None
}

/// ORs the first bits of the source in, if it has them and there is room for them.
pub fn or_into(target: &mut [u8], src: &[u8], position: usize, count: usize) -> Option<()> {
    if !are_within(src, 0, count) || !are_within(target, position, count) {
        return None;
    }
    Some(or_bits(target, position, src, count, &mut Turns::new()))
}

/// ORs the bits of a part in.
fn write_part(target: &mut [u8], position: usize, part: &Part) -> Option<()> {
    if let Some(view) = part.view()
        && are_within(target, position, view.len())
    {
        return Some(write_bitslice(target, position, view, &mut Turns::new()));
    }
    None
}

/// Answers `OCTETS SOURCE FIRST LEN`: the octets, followed by those of a view.
pub fn extend(alloc: Global, text: &mut String, words: &[&str]) -> Option<()> {
    if let [old, src @ ..] = words
        && let Some(part) = part_of_three(alloc, src)
        && let Some(mut own) = octets_of(alloc, old)
        && let Some(()) = extend_octets(&mut own, &part)
    {
        return push_octets(alloc, text, own.as_slice());
    }
    None
}

fn extend_octets(octets: &mut Vec<u8>, part: &Part) -> Option<()> {
    if let Some(view) = part.view()
        && view.len() % 8 == 0
    {
        return extend_vec_from_bitslice(octets, view).ok();
    }
    None
}
