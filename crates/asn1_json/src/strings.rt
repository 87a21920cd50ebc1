//! Strings of characters of known alphabets, by their codes.

use crate::bits::{number_of, whole_octets};
use asn1_schema::{Characters, Codes, Range, Rows, Span};
use std::alloc::{AllocError, Global};
use std::str;

/// Returns the character of an index among those of ranges, in ascending order. `None` if there are
/// fewer.
fn character_at(ranges: &[Range], rows: Rows, index: u128) -> Option<u128> {
    let end = rows.from.saturating_add(rows.count as usize);
    let mut left = index;
    for range in ranges.get(rows.from..end)? {
        let count = u128::from(range.last.checked_sub(range.first)?).saturating_add(1);
        if left < count {
            return u128::from(range.first).checked_add(left);
        }
        left = left.saturating_sub(count);
    }
    None
}

/// Returns the character of a code.
fn character_of(ranges: &[Range], codes: Codes, code: u128) -> Option<char> {
    let number = match codes {
        Codes::Numbers => code,
        Codes::Indices(rows) => character_at(ranges, rows, code)?,
    };
    char::from_u32(u32::try_from(number).ok()?)
}

/// Returns the octets of a string as text, if they are the numbers of its characters and of ASCII. `None` for another
/// string.
pub(crate) fn ascii_of(message: &[u8], characters: Characters) -> Option<&str> {
    let Codes::Numbers = characters.codes else {
        return None;
    };
    if characters.width != 8 {
        return None;
    }
    let span = Span {
        at: characters.at,
        count: characters.count.checked_mul(8)?,
    };
    let octets = whole_octets(message, span)?;
    if !octets.is_ascii() {
        return None;
    }
    str::from_utf8(octets).ok()
}

/// Returns the characters of a string. `None` if the message is shorter, or a code has no character
/// of Unicode.
pub(crate) fn text_of(
    alloc: Global,
    message: &[u8],
    ranges: &[Range],
    characters: Characters,
) -> Result<Option<String>, AllocError> {
    let mut text = String::new(alloc);
    let mut at = characters.at;
    for _ in 0..characters.count {
        let span = Span {
            at,
            count: characters.width,
        };
        let found = number_of(message, span).and_then(|code| character_of(
            ranges,
            characters.codes,
            code,
        ));
        let Some(character) = found else {
            return Ok(None);
        };
        text.push(character)?;
        at = at.saturating_add(characters.width);
    }
    Ok(Some(text))
}
