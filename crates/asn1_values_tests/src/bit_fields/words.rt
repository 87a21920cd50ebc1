//! The words of rows on fields. A word that cannot be read is `None`, and so is every word if out
//! of memory.

use asn1_test_rows::hex_of;
pub use asn1_test_rows::words_or_none::{
    append, octets_of, push_number, push_octets, push_shown, size, wide,
};
use asn1_values::{BitBuffer, BitStr};
use std::alloc::Global;

/// More bits than any row has.
pub const MANY: usize = 200_000;

/// Octets, and which of their bits a view has.
#[derive(Drop)]
pub struct Part {
    pub octets: Vec<u8>,
    pub first: usize,
    pub len: usize,
}

impl Part {
    /// Returns the view, if its bits are in the octets.
    pub fn view(&self) -> Option<BitStr<'_>> {
        BitStr::new(self.octets.as_slice(), self.first, self.len)
    }
}

/// Returns the part that three words encode: octets, the first bit, and how many bits.
pub fn part_from(alloc: Global, octets: &str, first: &str, len: &str) -> Option<Part> {
    if let Some(first) = size(first)
        && let Some(len) = size(len)
        && let Some(octets) = octets_of(alloc, octets)
    {
        return Some(Part { octets, first, len });
    }
    None
}

/// Appends a label and octets in hexadecimal.
pub fn push_labelled(alloc: Global, text: &mut String, label: &str, octets: &[u8]) -> Option<()> {
    let digits = hex_of(alloc, octets).ok()?;
    append(text, label)?;
    text.push_str(digits.as_str()).ok()
}

/// Appends how many bits a buffer has, and its octets.
pub fn push_state(alloc: Global, text: &mut String, buffer: &BitBuffer) -> Option<()> {
    push_number(alloc, text, buffer.len() as u128)?;
    push_octets(alloc, text, buffer.as_bytes())
}

/// Returns a buffer of the bits that a word has as `0` and `1`; `-` is no bits.
pub fn buffer_of(alloc: Global, word: &str) -> Option<BitBuffer> {
    let mut buffer = BitBuffer::new(alloc);
    for digit in word.as_bytes() {
        if *digit != b'-' {
            push_bit(&mut buffer, *digit == b'1')?;
        }
    }
    Some(buffer)
}

fn push_bit(buffer: &mut BitBuffer, bit: bool) -> Option<()> {
    if buffer.len() > MANY {
        return None;
    }
    buffer.push(bit).ok()
}
