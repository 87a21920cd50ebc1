//! Octets as hexadecimal digits.

use std::alloc::{AllocError, Global};
use std::simd::prelude::*;

/// How many octets are made digits at a time.
const GROUP: usize = 16;

/// How many digits they have.
const DIGITS: usize = 32;

/// What room is filled with.
static ZEROS: [u8; 1024] = [0; 1024];

/// Returns the upper-case digits of numbers below 16.
fn digits_of(numbers: u8x16) -> u8x16 {
    let letters = numbers.simd_gt(u8x16::splat(9));
    numbers + letters.select(u8x16::splat(b'A' - 10), u8x16::splat(b'0'))
}

/// Writes the upper-case digits of octets.
#[inline(always)]
fn write_group(octets: [u8; GROUP], digits: &mut [u8; DIGITS]) {
    let octets = u8x16::from_array(octets);
    let high = digits_of(octets >> u8x16::splat(4));
    let low = digits_of(octets & u8x16::splat(15));
    let (first, second) = high.interleave(low);
    first.copy_to_slice(&mut digits[..GROUP]);
    second.copy_to_slice(&mut digits[GROUP..]);
}

/// Returns the upper-case digits of octets, at the beginning of room that grows as they need.
pub(crate) fn hex_in<'r>(octets: &[u8], room: &'r mut Vec<u8>) -> Result<&'r [u8], AllocError> {
    for _ in room.len() / ZEROS.len()..(octets.len() / (ZEROS.len() / 2)).saturating_add(2) {
        room.extend_from_slice(&ZEROS)?;
    }
    let (groups, others) = octets.as_chunks::<GROUP>();
    let (places, _) = room.as_mut_slice().as_chunks_mut::<DIGITS>();
    for (group, place) in groups.iter().zip(places.iter_mut()) {
        write_group(*group, place);
    }
    if let Some(place) = places.get_mut(groups.len()) {
        let mut last = [0u8; GROUP];
        for (kept, octet) in last.iter_mut().zip(others.iter()) {
            *kept = *octet;
        }
        write_group(last, place);
    }
    let count = octets.len().saturating_mul(2);
    Ok(room.as_slice().get(..count).unwrap_or(&[]))
}

/// Returns the octets of digits in either case. `None` if the text has other characters or an odd
/// number of digits.
pub(crate) fn octets_of_hex(alloc: Global, text: &str) -> Result<Option<Vec<u8>>, AllocError> {
    match hex::decode(alloc, text) {
        Ok(octets) => Ok(Some(octets)),
        Err(hex::FromHexError::OutOfMemory) => Err(AllocError),
        Err(_) => Ok(None),
    }
}
