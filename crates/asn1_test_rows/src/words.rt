//! The words of rows: numbers, octets, bits and texts, both ways.

use std::alloc::{AllocError, Global};
use std::fmt::Display;
use std::io;
use std::str::FromStr;
use thiserror::Error;

/// Why rows have no answer.
#[derive(Debug, Drop, Error)]
pub enum RowError {
    /// A row cannot be read: which word has which fault.
    #[error("{0}")]
    Word(String),
    /// The input cannot be read, or the output not written.
    #[error("{0}")]
    Io(#[from] io::Error),
    /// Out of memory.
    #[error("out of memory")]
    Memory(#[from(alloc)] AllocError),
}

/// Returns the error of a word: `wrong(alloc, "12x", "number")` says that `12x` is no number.
pub fn wrong(alloc: Global, word: &str, kind: &str) -> RowError {
    match format!(in alloc; "{word} is no {kind}") {
        Ok(text) => RowError::Word(text),
        Err(error) => RowError::Memory(error),
    }
}

/// Returns a word with its repetitions expanded: `FF*3+00` is `FFFFFF00`, and `-` is empty.
pub fn unfold_word(alloc: Global, word: &str) -> Result<String, RowError> {
    let mut text = String::new(alloc);
    if word == "-" {
        return Ok(text);
    }
    for part in word.split('+') {
        match part.split_once('*') {
            Some((piece, count)) => repeat(alloc, &mut text, piece, count)?,
            None => text.push_str(part)?,
        }
    }
    Ok(text)
}

/// Appends the piece to the text, as often as the count says.
fn repeat(alloc: Global, text: &mut String, piece: &str, count: &str) -> Result<(), RowError> {
    for _ in 0..parse_word::<u32>(alloc, count)? {
        text.push_str(piece)?;
    }
    Ok(())
}

/// Returns the value that a word encodes, of a type that is parsed from text.
pub fn parse_word<T: FromStr>(alloc: Global, word: &str) -> Result<T, RowError>
where
    T::Err: Drop,
{
    match T::from_str(word) {
        Ok(value) => Ok(value),
        Err(_) => Err(wrong(alloc, word, "value of its type")),
    }
}

/// Returns the number that a word encodes in decimal, `MIN` or `MAX` for the bounds of `i128`.
pub fn number(alloc: Global, word: &str) -> Result<i128, RowError> {
    match word {
        "MIN" => Ok(i128::MIN),
        "MAX" => Ok(i128::MAX),
        _ => parse_word::<i128>(alloc, word),
    }
}

/// Returns the octets that a word encodes: in hexadecimal, with repetitions such as `FF*4096` or
/// `00FF*20+01`, or as characters after a `'`. `-` is no octets.
pub fn octets(alloc: Global, word: &str) -> Result<Vec<u8>, RowError> {
    if let Some(text) = word.strip_prefix('\'') {
        return Ok(text.as_bytes().to_vec(alloc)?);
    }
    let digits = unfold_word(alloc, word)?;
    match hex::decode(alloc, digits.as_str()) {
        Ok(octets) => Ok(octets),
        Err(_) => Err(wrong(alloc, word, "list of octets")),
    }
}

/// Returns the octets as upper-case hexadecimal digits, or `-` if there are none.
pub fn hex_of(alloc: Global, octets: &[u8]) -> Result<String, RowError> {
    if octets.is_empty() {
        return Ok(String::from_str(alloc, "-")?);
    }
    Ok(hex::encode_upper(alloc, octets)?)
}

/// Returns the bits that a word has as `0` and `1`, with repetitions such as `01*40+1`. `-` is no
/// bits.
pub fn bits(alloc: Global, word: &str) -> Result<Vec<bool>, RowError> {
    let digits = unfold_word(alloc, word)?;
    let mut bits = Vec::new(alloc);
    for digit in digits.as_bytes() {
        match digit {
            b'0' => bits.push(false)?,
            b'1' => bits.push(true)?,
            _ => return Err(wrong(alloc, word, "list of bits")),
        }
    }
    Ok(bits)
}

/// Returns the bits as `0` and `1`, or `-` if there are none.
pub fn bits_of(alloc: Global, bits: &[bool]) -> Result<String, RowError> {
    if bits.is_empty() {
        return Ok(String::from_str(alloc, "-")?);
    }
    let mut text = String::new(alloc);
    for bit in bits {
        text.push(if *bit { '1' } else { '0' })?;
    }
    Ok(text)
}

/// Returns the boolean that a word encodes: `true` or `false`.
pub fn boolean(alloc: Global, word: &str) -> Result<bool, RowError> {
    parse_word::<bool>(alloc, word)
}

/// Returns a value as text.
pub fn show_value<T: Display + Drop>(alloc: Global, value: T) -> Result<String, RowError> {
    Ok(value.to_string(alloc)?)
}

/// Returns a value or an error as text.
pub fn outcome<T: Display + Drop, E: Display + Drop>(
    alloc: Global,
    tried: Result<T, E>,
) -> Result<String, RowError> {
    match tried {
        Ok(value) => show_value(alloc, value),
        Err(error) => show_value(alloc, error),
    }
}

/// Returns a value as text, or `none`.
pub fn optional<T: Display + Drop>(alloc: Global, value: Option<T>) -> Result<String, RowError> {
    match value {
        Some(value) => show_value(alloc, value),
        None => Ok(String::from_str(alloc, "none")?),
    }
}

/// Returns the one word of a call.
pub fn one<'a>(alloc: Global, words: &[&'a str]) -> Result<&'a str, RowError> {
    match words {
        [word] => Ok(*word),
        _ => Err(count_of(alloc, words, 1)),
    }
}

/// Returns the two words of a call.
pub fn two<'a>(alloc: Global, words: &[&'a str]) -> Result<(&'a str, &'a str), RowError> {
    match words {
        [first, second] => Ok((*first, *second)),
        _ => Err(count_of(alloc, words, 2)),
    }
}

/// Returns the three words of a call.
pub fn three<'a>(
    alloc: Global,
    words: &[&'a str],
) -> Result<(&'a str, &'a str, &'a str), RowError> {
    match words {
        [first, second, third] => Ok((*first, *second, *third)),
        _ => Err(count_of(alloc, words, 3)),
    }
}

/// Returns the error of a call with another number of words.
fn count_of(alloc: Global, words: &[&str], wanted: usize) -> RowError {
    let count = words.len();
    match format!(in alloc; "{count} words in place of {wanted}") {
        Ok(text) => RowError::Word(text),
        Err(error) => RowError::Memory(error),
    }
}
