//! Arcs of object identifiers and relative identifiers (X.690 8.19, 8.20).

use asn1_oid::{ContentsError, ObjectIdentifier};
use std::alloc::{AllocError, Global};

/// Returns the arcs of an OBJECT IDENTIFIER in decimal, joined by full stops. `None` if an arc has
/// more than 32 bits, or the octets are no contents of an identifier.
pub(crate) fn dotted_of(alloc: Global, contents: &[u8]) -> Result<Option<String>, AllocError> {
    match ObjectIdentifier::from_contents(alloc, &contents) {
        Ok(identifier) => Ok(Some(format!(in alloc; "{identifier}")?)),
        Err(ContentsError::Memory) => Err(AllocError),
        Err(_) => Ok(None),
    }
}

/// Appends the decimal digits of a number.
fn append_decimal(number: u32, text: &mut Vec<u8>) -> Result<(), AllocError> {
    let mut digits = [b'0'; 10];
    let mut left = number;
    let mut first = digits.len();
    for (index, digit) in digits.iter_mut().enumerate().rev() {
        *digit = b'0' + (left % 10) as u8;
        left /= 10;
        first = index;
        if left == 0 {
            break;
        }
    }
    text.extend_from_slice(digits.get(first..).unwrap_or(&[]))
}

/// Appends the arcs of an OBJECT IDENTIFIER in decimal, joined by full stops, if each subidentifier has at most
/// four octets. Returns whether they have, and are contents of an identifier.
pub(crate) fn append_short_dotted(contents: &[u8], text: &mut Vec<u8>) -> Result<bool, AllocError> {
    let mut arc = 0u32;
    let mut is_inside = false;
    let mut is_first = true;
    for octet in contents {
        if arc >= 1 << 21 || (!is_inside && *octet == 128) {
            return Ok(false);
        }
        arc = arc * 128 + u32::from(*octet % 128);
        is_inside = *octet > 127;
        if is_inside {
            continue;
        }
        if is_first {
            let first = (arc / 40).min(2);
            text.push(b'0' + first as u8)?;
            arc -= 40 * first;
            is_first = false;
        }
        text.push(b'.')?;
        append_decimal(arc, text)?;
        arc = 0;
    }
    Ok(!is_inside && !is_first)
}

/// Appends the contents octets of an OBJECT IDENTIFIER. Returns whether the text is one: arcs in
/// decimal, joined by full stops.
pub(crate) fn append_dotted(
    alloc: Global,
    text: &str,
    octets: &mut Vec<u8>,
) -> Result<bool, AllocError> {
    let identifier = match ObjectIdentifier::parse(alloc, text) {
        Ok(identifier) => identifier,
        Err(asn1_oid::DottedTextError::Memory) => return Err(AllocError),
        Err(_) => return Ok(false),
    };
    match identifier.as_oid().contents() {
        None => Ok(false),
        Some(contents) => {
            contents.append_to(octets)?;
            Ok(true)
        }
    }
}

/// Returns the arcs of a RELATIVE-OID in decimal, joined by full stops. `None` if an arc has more than
/// 64 bits, or the octets do not end a subidentifier.
pub(crate) fn relative_of(alloc: Global, contents: &[u8]) -> Result<Option<String>, AllocError> {
    let mut text = String::new(alloc);
    let mut arc = 0u64;
    let mut is_inside = false;
    for octet in contents {
        if arc >= 1 << 57 {
            return Ok(None);
        }
        arc = arc
            .saturating_mul(128)
            .saturating_add(u64::from(*octet % 128));
        is_inside = *octet > 127;
        if !is_inside {
            if !text.is_empty() {
                text.push('.')?;
            }
            write!(text, "{arc}")?;
            arc = 0;
        }
    }
    if is_inside || text.is_empty() {
        return Ok(None);
    }
    Ok(Some(text))
}

/// Appends the subidentifier of an arc (X.690 8.19.2).
fn append_arc(arc: u64, octets: &mut Vec<u8>) -> Result<(), AllocError> {
    let mut is_begun = false;
    for before in 0..9u32 {
        let digit = (arc >> (63 - 7 * before)) % 128;
        if digit != 0 || is_begun {
            is_begun = true;
            octets.push((128 + digit) as u8)?;
        }
    }
    octets.push((arc % 128) as u8)?;
    Ok(())
}

/// Appends the contents octets of a RELATIVE-OID. Returns whether the text is one.
pub(crate) fn append_relative(text: &str, octets: &mut Vec<u8>) -> Result<bool, AllocError> {
    for part in text.split('.') {
        if part.starts_with('+') {
            return Ok(false);
        }
        let Ok(arc) = part.parse::<u64>() else {
            return Ok(false);
        };
        append_arc(arc, octets)?;
    }
    Ok(true)
}
