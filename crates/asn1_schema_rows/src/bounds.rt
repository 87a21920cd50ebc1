//! Bounds and sizes from words.

use asn1_schema::{Bounds, Length, LowerBound, Node};
use asn1_test_rows::{RowError, number, parse_word, wrong};
use std::alloc::Global;

/// Returns the INTEGER of bounds, as `0..7` or `0..`.
pub(crate) fn integer_of(alloc: Global, text: &str, is_extensible: bool) -> Result<Node, RowError> {
    let Some((least, greatest)) = text.split_once("..") else {
        return Err(wrong(alloc, text, "bounds"));
    };
    let least = number(alloc, least)?;
    if greatest.is_empty() {
        return Ok(Node::IntegerAtLeast {
            bound: LowerBound { least },
            is_extensible,
        });
    }
    match bounds_of(least, number(alloc, greatest)?) {
        Some(bounds) => Ok(Node::IntegerBetween {
            bounds,
            is_extensible,
        }),
        None => Err(wrong(alloc, text, "bounds")),
    }
}

/// Returns the bounds of two numbers, where the second is not below the first.
fn bounds_of(least: i128, greatest: i128) -> Option<Bounds> {
    if greatest < least {
        return None;
    }
    let range = greatest.abs_diff(least);
    Some(Bounds { least, range })
}

/// Returns the size of bounds, as `1..4` or `0..`.
pub(crate) fn length_of(alloc: Global, text: &str) -> Result<Length, RowError> {
    let Some((least, greatest)) = text.split_once("..") else {
        return Err(wrong(alloc, text, "size"));
    };
    if greatest.is_empty() {
        let least = parse_word::<usize>(alloc, least)?;
        return Ok(Length::AtLeast { least });
    }
    let least = parse_word::<u32>(alloc, least)?;
    let greatest = parse_word::<u32>(alloc, greatest)?;
    Ok(Length::Between {
        least,
        range: greatest.saturating_sub(least),
    })
}

/// Returns a count as the tables have it.
pub(crate) fn small(alloc: Global, count: usize) -> Result<u32, RowError> {
    match u32::try_from(count) {
        Ok(count) => Ok(count),
        Err(_) => Err(wrong(alloc, "the type", "type of so few parts")),
    }
}
