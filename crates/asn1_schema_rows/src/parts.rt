//! Parts and faults in words.

use asn1_bits::{BitStr, read_u128};
use asn1_schema::{Characters, Codes, Fragments, Natural, Part, Range, Span};
use asn1_test_rows::{RowError, wrong};
use std::alloc::Global;

/// What parts refer to.
#[derive(Clone, Copy)]
pub struct Source<'s> {
    /// The message.
    pub octets: &'s [u8],
    /// The table of ranges.
    pub ranges: &'s [Range],
}

/// Returns the first parts of a value in words.
pub fn text_of(
    alloc: Global,
    source: Source<'_>,
    parts: &[Part],
    count: usize,
) -> Result<String, RowError> {
    if count > parts.len() {
        return Err(wrong(alloc, "the value", "value of so few parts"));
    }
    let (parts, _) = parts.split_at(count);
    let mut text = String::new(alloc);
    for part in parts {
        if !text.is_empty() {
            text.push(' ')?;
        }
        text.push_str(word_of(alloc, source, *part)?.as_str())?;
    }
    Ok(text)
}

/// Returns a part in a word.
fn word_of(alloc: Global, source: Source<'_>, part: Part) -> Result<String, RowError> {
    let octets = source.octets;
    match part {
        Part::Absent => Ok(String::from_str(alloc, "absent")?),
        Part::Null => Ok(String::from_str(alloc, "null")?),
        Part::Truth(value) => Ok(format!(in alloc; "{value}")?),
        Part::Integer(value) => Ok(format!(in alloc; "i{value}")?),
        Part::Above { least, at, count } => {
            let span = Span {
                at,
                count: count as usize,
            };
            match number_at(octets, span).and_then(|more| least.checked_add_unsigned(more)) {
                Some(value) => Ok(format!(in alloc; "i{value}")?),
                None => Err(wrong(alloc, "the number", "number of 128 bits")),
            }
        }
        Part::Signed(span) => match signed_at(octets, span) {
            Some(value) => Ok(format!(in alloc; "i{value}")?),
            None => Err(wrong(alloc, "the number", "number of 128 bits")),
        },
        Part::Enumerated(index) => Ok(format!(in alloc; "e{index}")?),
        Part::UnknownEnumerated(index) => unknown(alloc, "e", index),
        Part::Bits(span) => digits_at(alloc, "b", 1, octets, span),
        Part::Octets(span) => digits_at(alloc, "o", 4, octets, span),
        Part::Text(text) => characters_at(alloc, source, text),
        Part::BitsInFragments(fragments) => fragments_at(alloc, "b", 1, 1, octets, fragments),
        Part::OctetsInFragments(fragments) => fragments_at(alloc, "o", 4, 8, octets, fragments),
        Part::Sequence { count, is_extended } => {
            let mark = if is_extended { "+" } else { "" };
            Ok(format!(in alloc; "seq{count}{mark}")?)
        }
        Part::Additions(count) => Ok(format!(in alloc; "add{count}")?),
        Part::Count(count) => Ok(format!(in alloc; "of{count}")?),
        Part::Chosen(index) => Ok(format!(in alloc; "alt{index}")?),
        Part::UnknownChosen(index) => unknown(alloc, "alt", index),
        Part::Unknown(span) => digits_at(alloc, "x", 4, octets, span),
    }
}

/// Returns the index of an unknown addition in a word.
fn unknown(alloc: Global, name: &str, index: Natural) -> Result<String, RowError> {
    match index {
        Natural::Small(index) => Ok(format!(in alloc; "{name}?{index}")?),
        Natural::Large(_) => Ok(format!(in alloc; "{name}?large")?),
    }
}

/// Returns the number of some bits, of up to 128.
fn number_at(octets: &[u8], span: Span) -> Option<u128> {
    if span.count > 128 {
        return None;
    }
    let bits = BitStr::new(octets, span.at, span.count)?;
    if bits.len() > 128 {
        return None;
    }
    Some(read_u128(bits))
}

/// Returns the number of some octets of two's complement, of up to 16.
fn signed_at(octets: &[u8], span: Span) -> Option<i128> {
    let number = number_at(octets, span)?;
    if span.count == 0 || span.count > 128 {
        return None;
    }
    let shift = (128 - span.count) as u32;
    let high = number.wrapping_shl(shift).cast_signed();
    Some(high.wrapping_shr(shift))
}

/// Returns the numbers of characters.
fn characters_at(alloc: Global, source: Source<'_>, text: Characters) -> Result<String, RowError> {
    let mut word = String::from_str(alloc, "t")?;
    let mut at = text.at;
    for _ in 0..text.count {
        let span = Span {
            at,
            count: text.width,
        };
        let character = match number_at(source.octets, span) {
            Some(code) => character_of(source.ranges, text.codes, code),
            None => None,
        };
        match character {
            Some(number) => word.push_str(format!(in alloc; ".{number}")?.as_str())?,
            None => return Err(wrong(alloc, "the part", "part of the message")),
        }
        at = at.saturating_add(text.width);
    }
    Ok(word)
}

/// Returns the number of a character by its code.
fn character_of(ranges: &[Range], codes: Codes, code: u128) -> Option<u128> {
    let rows = match codes {
        Codes::Numbers => return Some(code),
        Codes::Indices(rows) => rows,
    };
    let mut left = code;
    for index in rows.from..rows.from.saturating_add(rows.count as usize) {
        let range = ranges.get(index)?;
        let count = (range.last as u128 + 1).saturating_sub(range.first as u128);
        if left < count {
            return Some(range.first as u128 + left);
        }
        left -= count;
    }
    None
}

/// Returns units of `width` bits in fragments, by a digit of each after a name.
fn fragments_at(
    alloc: Global,
    name: &str,
    width: usize,
    unit: usize,
    octets: &[u8],
    fragments: Fragments,
) -> Result<String, RowError> {
    let mut text = String::from_str(alloc, name)?;
    for index in 0..octets.len() {
        let Some(span) = fragments.span(unit, index) else {
            break;
        };
        push_digits(alloc, &mut text, width, octets, span)?;
    }
    Ok(text)
}

/// Returns bits by digits of `width` bits each after a name; `-` means none.
fn digits_at(
    alloc: Global,
    name: &str,
    width: usize,
    octets: &[u8],
    span: Span,
) -> Result<String, RowError> {
    let mut text = String::from_str(alloc, name)?;
    push_digits(alloc, &mut text, width, octets, span)?;
    if span.count == 0 {
        text.push('-')?;
    }
    Ok(text)
}

/// Appends bits by digits of `width` bits each.
fn push_digits(
    alloc: Global,
    text: &mut String,
    width: usize,
    octets: &[u8],
    span: Span,
) -> Result<(), RowError> {
    let Some(bits) = BitStr::new(octets, span.at, span.count) else {
        return Err(wrong(alloc, "the part", "part of the message"));
    };
    let mut digit = 0u32;
    let mut more = 0usize;
    for index in 0..bits.len() {
        digit = (2 * (digit & 7)) | u32::from(bits.get(index));
        more = more.saturating_add(1);
        if more >= width {
            let shown = if width == 1 { digit & 1 } else { digit };
            text.push(
                char::from_digit(shown, 16)
                    .unwrap_or('?')
                    .to_ascii_uppercase(),
            )?;
            digit = 0;
            more = 0;
        }
    }
    Ok(())
}
