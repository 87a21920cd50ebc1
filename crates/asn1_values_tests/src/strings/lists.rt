//! Lists of characters and texts as words.

use asn1_test_rows::{RowError, parse_word, show_value, wrong};
use std::alloc::Global;

/// The most numbers in the list of a word.
pub const MOST: usize = 4096;

/// Returns the numbers that a word encodes: separated by commas, `0..256` for those below 256,
/// `0..130/2` for every second one, or `-` for none.
pub fn list(alloc: Global, word: &str) -> Result<Vec<u32>, RowError> {
    let mut numbers = Vec::new(alloc);
    if word == "-" {
        return Ok(numbers);
    }
    for part in word.split(',') {
        match part.split_once("..") {
            Some((first, end)) => push_range(alloc, &mut numbers, first, end)?,
            None => numbers.push(parse_word::<u32>(alloc, part)?)?,
        }
    }
    if numbers.len() > MOST {
        return Err(wrong(alloc, word, "list of so few numbers"));
    }
    Ok(numbers)
}

/// Appends the numbers from the first on and before the end, by steps; downward if the end is below
/// the first.
fn push_range(
    alloc: Global,
    numbers: &mut Vec<u32>,
    first: &str,
    end: &str,
) -> Result<(), RowError> {
    let (end, step) = match end.split_once('/') {
        Some((end, step)) => (end, parse_word::<u32>(alloc, step)?),
        None => (end, 1),
    };
    let first = parse_word::<u32>(alloc, first)?;
    let end = parse_word::<u32>(alloc, end)?;
    let mut next = first;
    for _ in 0..MOST {
        if if first <= end {
            next >= end
        } else {
            next <= end
        } {
            return Ok(());
        }
        numbers.push(next)?;
        next = if first <= end {
            next.saturating_add(step)
        } else {
            next.saturating_sub(step)
        };
    }
    Ok(())
}

/// Returns how many numbers there are, and each of them.
pub fn count_and_list(alloc: Global, count: usize, numbers: &[u32]) -> Result<String, RowError> {
    let mut text = show_value(alloc, count)?;
    for number in numbers {
        text.push(' ')?;
        text.push_str(show_value(alloc, *number)?.as_str())?;
    }
    Ok(text)
}

/// Returns the text of octets in UTF-8.
pub fn text_of(alloc: Global, octets: Vec<u8>) -> Result<String, RowError> {
    match String::from_utf8(octets) {
        Ok(text) => Ok(text),
        Err(_) => Err(wrong(alloc, "the word", "text in UTF-8")),
    }
}
