//! Values of one part, as the notation of X.680 writes them.

use crate::value::Message;
use asn1_bits::read_wide;
use asn1_schema::{Characters, Codes, Fragments, Natural, Node, Part, Range, Rows, Span};
use std::fmt;

/// Returns the number of `width` bits of octets from an index on. `None` if there are more than 128, or the
/// octets do not have all of them.
fn number_at(octets: &[u8], at: usize, width: usize) -> Option<u128> {
    let size = octets.len().checked_mul(8)?;
    if width > 128 || at > size || width > size - at {
        return None;
    }
    Some(read_wide(octets, at, width))
}

/// Returns the number of bits in two's complement. `None` if there are none or more than 128, or the octets
/// do not have all of them.
fn signed_at(octets: &[u8], span: Span) -> Option<i128> {
    let digits = number_at(octets, span.at, span.count)?;
    let sign = span.count.checked_sub(1)?;
    let half = 1u128.checked_shl(u32::try_from(sign).ok()?)?;
    match digits.checked_sub(half) {
        None => i128::try_from(digits).ok(),
        Some(rest) => 0i128.checked_sub_unsigned(half.checked_sub(rest)?),
    }
}

/// Writes the octets of bits in quotes, in hexadecimal.
fn write_octets<W: fmt::Write>(
    f: &mut fmt::Formatter<W>,
    octets: &[u8],
    span: Span,
) -> fmt::Result {
    f.write_str("'")?;
    for index in 0..span.count / 8 {
        match number_at(octets, span.at.saturating_add(index.saturating_mul(8)), 8) {
            Some(octet) => write!(f, "{octet:02X}")?,
            None => break,
        }
    }
    f.write_str("'H")
}

/// Writes bits in quotes.
fn write_bits<W: fmt::Write>(f: &mut fmt::Formatter<W>, octets: &[u8], span: Span) -> fmt::Result {
    f.write_str("'")?;
    for index in 0..span.count {
        match number_at(octets, span.at.saturating_add(index), 1) {
            Some(bit) => write!(f, "{bit}")?,
            None => break,
        }
    }
    f.write_str("'B")
}

/// Writes an INTEGER, or its octets if there is no number.
fn write_integer<W: fmt::Write>(
    f: &mut fmt::Formatter<W>,
    octets: &[u8],
    value: Option<i128>,
    span: Span,
) -> fmt::Result {
    match value {
        Some(value) => write!(f, "{value}"),
        None => write_octets(f, octets, span),
    }
}

/// Returns the number that is so far above the least. `None` if it exceeds 2^127 - 1.
fn above(octets: &[u8], least: i128, at: usize, count: u32) -> Option<i128> {
    let distance = number_at(octets, at, count as usize)?;
    least.checked_add_unsigned(distance)
}

/// Returns the character of an index among those of ranges in ascending order.
fn character_in(ranges: &[Range], index: u128) -> Option<u32> {
    let mut left = index;
    for range in ranges {
        let count = u128::from(range.last) + 1;
        let count = count.saturating_sub(u128::from(range.first));
        if left < count {
            return range.first.checked_add(u32::try_from(left).ok()?);
        }
        left -= count;
    }
    None
}

/// Returns the ranges of rows, those that the table has.
fn ranges_of(table: &[Range], rows: Rows) -> &[Range] {
    let from = rows.from.min(table.len());
    let end = from.saturating_add(rows.count as usize).min(table.len());
    table.get(from..end).unwrap_or(&[])
}

/// Writes a character of a string, in which a quote is two (X.680 12.14).
fn write_character<W: fmt::Write>(f: &mut fmt::Formatter<W>, number: u32) -> fmt::Result {
    let character = char::from_u32(number).unwrap_or(char::REPLACEMENT_CHARACTER);
    if character == '"' {
        f.write_str("\"")?;
    }
    write!(f, "{character}")
}

/// Writes the characters of a string in quotes.
fn write_text<W: fmt::Write>(
    f: &mut fmt::Formatter<W>,
    message: &Message<'_>,
    text: Characters,
) -> fmt::Result {
    f.write_str("\"")?;
    for index in 0..text.count {
        let at = text.at.saturating_add(index.saturating_mul(text.width));
        let Some(code) = number_at(message.octets, at, text.width) else {
            break;
        };
        let number = match text.codes {
            Codes::Numbers => u32::try_from(code).ok(),
            Codes::Indices(rows) => character_in(ranges_of(message.tables.ranges, rows), code),
        };
        write_character(f, number.unwrap_or(u32::MAX))?;
    }
    f.write_str("\"")
}

/// Writes the arcs of an identifier in braces (X.690 8.19, 8.20). The octets of other contents are written
/// in quotes.
fn write_arcs<W: fmt::Write>(
    f: &mut fmt::Formatter<W>,
    octets: &[u8],
    span: Span,
    is_relative: bool,
) -> fmt::Result {
    f.write_str("{")?;
    let mut arc = 0u128;
    let mut is_first = !is_relative;
    for index in 0..span.count / 8 {
        let at = span.at.saturating_add(index.saturating_mul(8));
        let octet = match number_at(octets, at, 8) {
            Some(octet) if arc >> 121 == 0 => octet,
            _ => break,
        };
        arc = (arc << 7) | (octet & 127);
        if octet >= 128 {
            continue;
        }
        if is_first {
            let root = (arc / 40).min(2);
            write!(f, " {root}")?;
            arc -= 40 * root;
            is_first = false;
        }
        write!(f, " {arc}")?;
        arc = 0;
    }
    f.write_str(" }")
}

/// Writes the characters of UTF-8 in quotes.
fn write_utf8<W: fmt::Write>(f: &mut fmt::Formatter<W>, octets: &[u8], span: Span) -> fmt::Result {
    f.write_str("\"")?;
    let mut number = 0u32;
    let mut left = 0u32;
    for index in 0..span.count / 8 {
        let at = span.at.saturating_add(index.saturating_mul(8));
        let octet = match number_at(octets, at, 8) {
            Some(octet) => (octet % 256) as u32,
            None => break,
        };
        if left > 0 {
            number = (number << 6) | (octet & 63);
            left -= 1;
        } else {
            let (bits, more) = match octet {
                0..=127 => (octet, 0),
                128..=223 => (octet & 31, 1),
                224..=239 => (octet & 15, 2),
                _ => (octet & 7, 3),
            };
            number = bits;
            left = more;
        }
        if left == 0 {
            write_character(f, number)?;
        }
    }
    f.write_str("\"")
}

/// Writes the octets of a part that has no other notation, or what they are by their type.
fn write_contents<W: fmt::Write>(
    f: &mut fmt::Formatter<W>,
    octets: &[u8],
    node: Option<Node>,
    span: Span,
) -> fmt::Result {
    match node {
        Some(Node::ObjectIdentifier) => write_arcs(f, octets, span, false),
        Some(Node::RelativeIdentifier) => write_arcs(f, octets, span, true),
        Some(Node::Utf8String) => write_utf8(f, octets, span),
        _ => write_octets(f, octets, span),
    }
}

/// Writes octets in fragments, each in quotes.
fn write_octets_in_fragments<W: fmt::Write>(
    f: &mut fmt::Formatter<W>,
    octets: &[u8],
    fragments: Fragments,
) -> fmt::Result {
    for index in 0..octets.len() {
        let Some(span) = fragments.span(8, index) else {
            break;
        };
        write_octets(f, octets, span)?;
    }
    Ok(())
}

/// Writes bits in fragments, each in quotes.
fn write_bits_in_fragments<W: fmt::Write>(
    f: &mut fmt::Formatter<W>,
    octets: &[u8],
    fragments: Fragments,
) -> fmt::Result {
    for index in 0..octets.len() {
        let Some(span) = fragments.span(1, index) else {
            break;
        };
        write_bits(f, octets, span)?;
    }
    Ok(())
}

/// Writes an unknown value of an ENUMERATED by its index among the additions.
fn write_unknown<W: fmt::Write>(
    f: &mut fmt::Formatter<W>,
    octets: &[u8],
    index: Natural,
) -> fmt::Result {
    f.write_str("unknown ")?;
    match index {
        Natural::Small(index) => write!(f, "{index}"),
        Natural::Large(span) => write_octets(f, octets, span),
    }
}

/// Writes a value of one part, of this type.
pub(crate) fn write_leaf<W: fmt::Write>(
    f: &mut fmt::Formatter<W>,
    message: &Message<'_>,
    node: Option<Node>,
    part: Part,
) -> fmt::Result {
    let octets = message.octets;
    match part {
        Part::Null => f.write_str("NULL"),
        Part::Truth(true) => f.write_str("TRUE"),
        Part::Truth(false) => f.write_str("FALSE"),
        Part::Integer(value) => write!(f, "{value}"),
        Part::Above { least, at, count } => {
            let span = Span {
                at,
                count: count as usize,
            };
            write_integer(f, octets, above(octets, least, at, count), span)
        }
        Part::Signed(span) => write_integer(f, octets, signed_at(octets, span), span),
        Part::Enumerated(index) => write!(f, "{index}"),
        Part::UnknownEnumerated(index) => write_unknown(f, octets, index),
        Part::Bits(span) => write_bits(f, octets, span),
        Part::Octets(span) => write_contents(f, octets, node, span),
        Part::BitsInFragments(fragments) => write_bits_in_fragments(f, octets, fragments),
        Part::OctetsInFragments(fragments) => write_octets_in_fragments(f, octets, fragments),
        Part::Text(text) => write_text(f, message, text),
        Part::Unknown(span) => write_octets(f, octets, span),
        _ => Ok(()),
    }
}
