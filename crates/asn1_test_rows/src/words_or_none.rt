//! Words of rows, for calls that need no reason: `None` means that a word cannot be read, or out of
//! memory.

use crate::words::{hex_of, octets, show_value};
use std::alloc::Global;
use std::fmt::Display;

/// Returns the octets that a word encodes in hexadecimal.
pub fn octets_of(alloc: Global, word: &str) -> Option<Vec<u8>> {
    octets(alloc, word).ok()
}

/// Returns the number that a word encodes in decimal.
pub fn size(word: &str) -> Option<usize> {
    word.parse::<usize>().ok()
}

/// Returns the wide number that a word encodes in decimal.
pub fn wide(word: &str) -> Option<u128> {
    word.parse::<u128>().ok()
}

/// Appends a word to a text of words.
pub fn append(text: &mut String, word: &str) -> Option<()> {
    if !text.is_empty() {
        text.push(' ').ok()?;
    }
    text.push_str(word).ok()
}

/// Appends the text of a value.
pub fn push_shown<T: Display + Drop>(alloc: Global, text: &mut String, value: T) -> Option<()> {
    let word = show_value(alloc, value).ok()?;
    append(text, word.as_str())
}

/// Appends a number.
pub fn push_number(alloc: Global, text: &mut String, number: u128) -> Option<()> {
    push_shown(alloc, text, number)
}

/// Appends octets in hexadecimal, or `-` if there are none.
pub fn push_octets(alloc: Global, text: &mut String, octets: &[u8]) -> Option<()> {
    let digits = hex_of(alloc, octets).ok()?;
    append(text, digits.as_str())
}
