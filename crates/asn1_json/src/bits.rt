//! Bits of a message, as octets and as numbers.

use asn1_bits::{BitReader, BitStr, to_bitstring};
use asn1_schema::{Fragments, Span};
use std::alloc::{AllocError, Global};

/// Returns the octets of a message that a span of bits is. `None` if the span does not begin and end with octets, or the
/// message is shorter.
pub(crate) fn whole_octets(message: &[u8], span: Span) -> Option<&[u8]> {
    if span.at % 8 != 0 || span.count % 8 != 0 {
        return None;
    }
    let from = span.at / 8;
    message.get(from..from.checked_add(span.count / 8)?)
}

/// Returns the octets of a span of bits, the last one filled with zeros. `None` if the message is
/// shorter.
pub(crate) fn octets_of(
    alloc: Global,
    message: &[u8],
    span: Span,
) -> Result<Option<Vec<u8>>, AllocError> {
    let Some(bits) = BitStr::new(message, span.at, span.count) else {
        return Ok(None);
    };
    Ok(Some(to_bitstring(alloc, bits)?.into_vec()))
}

/// Appends the octets of a span of bits. Returns whether the message has them.
fn append(message: &[u8], span: Span, octets: &mut Vec<u8>) -> Result<bool, AllocError> {
    let Some(found) = octets_of(*octets.allocator(), message, span)? else {
        return Ok(false);
    };
    octets.extend_from_slice(found.as_slice())?;
    Ok(true)
}

/// Returns the octets of a string in fragments (X.691 11.9.3.8), of units of `unit` bits, the last octet filled with
/// zeros. `None` if the message is shorter.
pub(crate) fn octets_in(
    alloc: Global,
    message: &[u8],
    unit: usize,
    fragments: Fragments,
) -> Result<Option<Vec<u8>>, AllocError> {
    let mut octets = Vec::new(alloc);
    for index in 0..=fragments.whole.saturating_add(1) {
        let Some(span) = fragments.span(unit, index) else {
            return Ok(None);
        };
        if !append(message, span, &mut octets)? {
            return Ok(None);
        }
    }
    Ok(Some(octets))
}

/// Returns how many bits a string in fragments has, of units of `unit` bits. `None` if they are more than `usize`
/// counts.
pub(crate) fn size_in(unit: usize, fragments: Fragments) -> Option<usize> {
    let whole = unit.checked_mul(65536)?.checked_mul(fragments.whole)?;
    whole
        .checked_add(fragments.middle.count)?
        .checked_add(fragments.last.count)
}

/// Returns the number whose binary digits are the bits of a span. `None` if the message is shorter,
/// or the span has more than 128 bits.
pub(crate) fn number_of(message: &[u8], span: Span) -> Option<u128> {
    if span.count > 128 {
        return None;
    }
    let bits = BitReader::new(BitStr::new(message, span.at, span.count)?);
    if span.count > bits.len() {
        return None;
    }
    Some(bits.first_u128(span.count))
}

/// Returns the octets of two's complement of the number from 0 on whose binary digits are the bits of
/// a span. `None` if the message is shorter.
pub(crate) fn unsigned_octets_of(
    alloc: Global,
    message: &[u8],
    span: Span,
) -> Result<Option<Vec<u8>>, AllocError> {
    let head = span.count % 8;
    let first = Span {
        at: span.at,
        count: head,
    };
    let others = Span {
        at: span.at.saturating_add(head),
        count: span.count - head,
    };
    let Some(first) = number_of(message, first) else {
        return Ok(None);
    };
    let mut octets = Vec::new(alloc);
    octets.push(0)?;
    octets.push((first % 256) as u8)?;
    if !append(message, others, &mut octets)? {
        return Ok(None);
    }
    Ok(Some(octets))
}
