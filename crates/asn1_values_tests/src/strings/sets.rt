//! The table of base sets.

use asn1_strings::StaticPermittedAlphabet;
use asn1_test_rows::{RowError, show_value, wrong};
use std::alloc::Global;

/// Returns a constant of a string.
pub fn constant<S: StaticPermittedAlphabet>(alloc: Global, name: &str) -> Result<String, RowError> {
    match name {
        "CHARACTER_SET_NAME" => show_value(alloc, S::CHARACTER_SET_NAME),
        "CHARACTER_SET_COUNT" => show_value(alloc, S::CHARACTER_SET_COUNT),
        "CHARACTER_SET_WIDTH" => show_value(alloc, S::CHARACTER_SET_WIDTH),
        "CHARACTER_SET_MAX" => show_value(alloc, S::CHARACTER_SET_MAX),
        "IS_INDEXED" => show_value(alloc, S::IS_INDEXED),
        "CHARACTER_SET_RANGES" => ranges(alloc, S::CHARACTER_SET_RANGES.as_slice()),
        _ => Err(wrong(alloc, name, "constant of a string")),
    }
}

/// Ranges as `32-32 48-57`.
fn ranges(alloc: Global, ranges: &[(u32, u32)]) -> Result<String, RowError> {
    let mut text = String::new(alloc);
    for (first, last) in ranges {
        if !text.is_empty() {
            text.push(' ')?;
        }
        write!(text, "{first}-{last}")?;
    }
    Ok(text)
}

/// Returns the longest ranges of the set's characters below the limit, each of which is tested.
pub fn ranges_of<S: StaticPermittedAlphabet>(
    alloc: Global,
    limit: u32,
) -> Result<String, RowError> {
    let mut found = Vec::new(alloc);
    let mut open: Option<(u32, u32)> = None;
    for character in 0..limit {
        if S::contains_char(character) {
            open = Some((open.map_or(character, |range| range.0), character));
        } else if let Some(range) = open.take() {
            found.push(range)?;
        }
    }
    if let Some(range) = open {
        found.push(range)?;
    }
    ranges(alloc, found.as_slice())
}
