//! Numbers and arcs as words.

use asn1_number::Integer;
use asn1_test_rows::{RowError, hex_of, octets, parse_word, show_value, unfold_word, wrong};
use std::alloc::Global;
use std::cmp::Ordering;
use std::str::FromStr;

/// Returns the number that a word encodes: in decimal, `x` and signed octets, or `u` and unsigned
/// octets.
pub fn integer(alloc: Global, word: &str) -> Result<Integer, RowError> {
    let read = if let Some(spelled) = word.strip_prefix('x') {
        Integer::from_signed_octets(alloc, octets(alloc, spelled)?.as_slice())
    } else if let Some(spelled) = word.strip_prefix('u') {
        Integer::from_unsigned_octets(alloc, octets(alloc, spelled)?.as_slice())
    } else {
        return in_decimal(alloc, word);
    };
    match read {
        Ok(number) => Ok(number),
        Err(_) => Err(wrong(alloc, word, "number")),
    }
}

/// Returns the number that a word encodes in decimal, of at most 128 bits.
fn in_decimal(alloc: Global, word: &str) -> Result<Integer, RowError> {
    match i128::from_str(word) {
        Ok(number) => Ok(Integer::from(number)),
        Err(_) => Ok(Integer::from_u128(alloc, parse_word::<u128>(alloc, word)?)?),
    }
}

/// Returns a number in decimal, or as `x` and its octets if it exceeds `i128`.
pub fn text_of(alloc: Global, number: &Integer) -> Result<String, RowError> {
    match number.to_i128() {
        Some(number) => show_value(alloc, number),
        None => octets_text(alloc, number),
    }
}

/// Returns `x` and the octets of a number.
fn octets_text(alloc: Global, number: &Integer) -> Result<String, RowError> {
    let mut text = String::from_str(alloc, "x")?;
    text.push_str(hex_of(alloc, number.signed_octets().as_ref())?.as_str())?;
    Ok(text)
}

/// Returns the word of an order.
pub fn order_text(order: Ordering) -> &'static str {
    match order {
        Ordering::Less => "less",
        Ordering::Equal => "equal",
        Ordering::Greater => "greater",
    }
}

/// Returns the arcs that a word encodes, separated by full stops, such as `2.999+.3*4`; `-` is no
/// arcs.
pub fn arcs(alloc: Global, word: &str) -> Result<Vec<u32>, RowError> {
    let text = unfold_word(alloc, word)?;
    let mut arcs = Vec::new(alloc);
    if text.is_empty() {
        return Ok(arcs);
    }
    for arc in text.as_str().split('.') {
        arcs.push(parse_word::<u32>(alloc, arc)?)?;
    }
    Ok(arcs)
}

/// Returns the arcs separated by full stops, or `-` if there are none.
pub fn arcs_text(alloc: Global, arcs: &[u32]) -> Result<String, RowError> {
    if arcs.is_empty() {
        return Ok(String::from_str(alloc, "-")?);
    }
    let mut text = String::new(alloc);
    for arc in arcs {
        if !text.is_empty() {
            text.push('.')?;
        }
        text.push_str(show_value(alloc, *arc)?.as_str())?;
    }
    Ok(text)
}
