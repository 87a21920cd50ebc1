//! The three lines of the input.

ghost use Rattle.std.specs.Prelude.{◌≡◌, ℕ, ◌^◌, ◌<◌, ◌==◌, ◌-◌, List, [], ◌∷◌, None, Ok, false, MatchOption, SomeIff, IfOk, IfNone, IfSome};
ghost use Rattle.std.specs.Int.{IsInRange};
ghost use Rattle.std.specs.List.{slice_split};
ghost use Rattle.std.specs.Fmt.{decimal};
ghost use Rattle.asn1_values.specs.Fields as plain;
ghost use Rattle.asn1_values.specs.Plain.{plain_shape, plain_shapes};
ghost use Rattle.asn1_values.specs.Words.{Numeric, alphabet_of, effective};
ghost use Rattle.hex.specs.Hex.{decode_of};
ghost use Rattle.field_lines.specs.Input as input;
ghost use Rattle.field_lines.specs.Input.{AreLines, AreWords, IsLastLine, IsNumber, IsWord, parts};

use asn1_values::{CharacterAlphabet, NumericString, Shape};
use hex::FromHexError;
use std::alloc::{AllocError, Global};

/// The three lines, without the LF that ends each.
#[derive(Clone, Copy)]
pub struct Lines<'a> {
    pub shapes: &'a [u8],
    pub octets: &'a [u8],
    pub start: &'a [u8],
}

impl<'a> Lines<'a> {
    /// Returns the lines of the text; `None` if they are not three. The last LF may be missing
    /// where its line is not empty.
    pub fn of(text: &'a [u8]) -> Option<Lines<'a>>
        ensures { MatchOption result ((lines : input.Lines) → ¬ (AreLines text.now lines))
            (λ lines. AreLines text.now (record {
              shapes = lines.shapes.now;
              octets = lines.octets.now;
              start = lines.start.now;
            })) }
    {
        let (shapes, rest) = split_once(text, b'\n')?;
        let (octets, rest) = split_once(rest, b'\n')?;
        let start = last_line(rest)?;
        Some(Lines {
            shapes,
            octets,
            start,
        })
    }
}

/// Returns the last line of a text: all of it, without an LF at its end if it has one.
fn last_line(text: &[u8]) -> Option<&[u8]>
    ensures { MatchOption result ((line : List ℕ) → ¬ (IsLastLine (parts text.now) line))
        (λ line. IsLastLine (parts text.now) line.now) }
{
    let Some((line, rest)) = split_once(text, b'\n') else {
        return if text.is_empty() { None } else { Some(text) };
    };
    if rest.is_empty() { Some(line) } else { None }
}

/// Returns what is before the first such octet, and what is after it; `None` if there is none.
fn split_once(text: &[u8], separator: u8) -> Option<(&[u8], &[u8])>
    ensures none { IfNone result
        (slice_split (λ c. c == separator) text.now ≡ text.now ∷ []) }
    ensures some { IfSome result (λ p. slice_split (λ c. c == separator) text.now
        ≡ p.0.now ∷ slice_split (λ c. c == separator) p.1.now) }
{
    let at = text.iter().position(|octet| *octet == separator)?;
    Some((&text[..at], &text[at + 1..]))
}

/// Returns the number of one to nine decimal digits, without a leading zero unless the number is 0.
pub fn number(digits: &[u8]) -> Option<usize>
    ensures { MatchOption result ((n : ℕ) → ¬ (IsNumber digits.now n)) (IsNumber digits.now) }
{
    if digits.is_empty() {
        return None;
    }
    if digits.len() > 9 {
        return None;
    }
    if digits[0] == b'0' && digits.len() > 1 {
        return None;
    }
    let mut value = 0usize;
    for digit in digits {
        value = value * 10 + digit_value(*digit)?;
    }
    Some(value)
}

/// Returns the value of a decimal digit.
fn digit_value(octet: u8) -> Option<usize>
    ensures { SomeIff result (IsInRange 48 57 octet) (octet - 48) }
{
    match octet {
        b'0'..=b'9' => Some(usize::from(octet - b'0')),
        _ => None,
    }
}

/// Returns the shape that a word names: a letter alone, or a letter and a number.
fn shape(word: &[u8], numeric: &CharacterAlphabet<'static>) -> Option<Shape<'static>>
    requires { alphabet_of numeric.now ≡ effective Numeric None false }
    ensures { MatchOption result ((shape : plain.Shape) → ¬ (IsWord word.now shape))
        (λ shape. IsWord word.now (plain_shape shape)) }
{
    let (letter, digits) = word.split_first()?;
    if digits.is_empty() {
        return lone_shape(*letter, numeric);
    }
    let count = number(digits)?;
    counted_shape(*letter, count)
}

/// Returns the shape of a letter alone: `a`, a character of the `numeric` alphabet, or `c`, an
/// integer after the number of its octets.
fn lone_shape(letter: u8, numeric: &CharacterAlphabet<'static>) -> Option<Shape<'static>>
    requires { alphabet_of numeric.now ≡ effective Numeric None false }
    ensures { MatchOption result ((shape : plain.Shape) → ¬ (IsWord (letter ∷ []) shape))
        (λ shape. IsWord (letter ∷ []) (plain_shape shape)) }
{
    match letter {
        b'a' => Some(Shape::Character { alphabet: *numeric }),
        b'c' => Some(Shape::CountedInteger),
        _ => None,
    }
}

/// Returns the shape of a letter and a number: `n` and the width of a number in bits, `o` and a
/// number of octets, `b` and a number of bits, `i` and the number of an integer's octets, or `d`
/// and the number of octets of an identifier's contents.
fn counted_shape(letter: u8, count: usize) -> Option<Shape<'static>>
    requires { count < 10 ^ 9 }
    ensures { MatchOption result ((shape : plain.Shape) → ¬ (IsWord (letter ∷ decimal count) shape))
        (λ shape. IsWord (letter ∷ decimal count) (plain_shape shape)) }
{
    match letter {
        b'n' => Some(Shape::Number { width: count }),
        b'o' => Some(Shape::Octets { count }),
        b'b' => Some(Shape::Bits { length: count }),
        b'i' => Some(Shape::Integer { octets: count }),
        b'd' => Some(Shape::Oid { octets: count }),
        _ => None,
    }
}

/// Returns the shapes that the words of the line name, separated by single spaces; `None` for
/// another line.
///
/// # Errors
///
/// Returns an error if out of memory.
pub fn shapes(alloc: Global, line: &[u8]) -> Result<Option<Vec<Shape<'static>>>, AllocError>
    ensures { IfOk result (λ found. MatchOption found
        ((shapes : List plain.Shape) → ¬ (AreWords line.now shapes))
        (λ shapes. AreWords line.now (plain_shapes shapes.items))) }
{
    let mut shapes = Vec::new(alloc);
    if line.is_empty() {
        return Ok(Some(shapes));
    }
    let numeric = CharacterAlphabet::new::<NumericString>(None, false);
    for word in line.split(|octet| *octet == b' ') {
        let Some(shape) = shape(word, &numeric) else {
            return Ok(None);
        };
        shapes.push(shape)?;
    }
    Ok(Some(shapes))
}

/// Returns the octets that the line has in hexadecimal of either case; `None` for another line.
///
/// # Errors
///
/// Returns an error if out of memory.
pub fn octets(alloc: Global, line: &[u8]) -> Result<Option<Vec<u8>>, AllocError>
    ensures { IfOk result (λ found. MatchOption found
        ((octets : List ℕ) → ¬ (decode_of line.now ≡ Ok octets))
        (λ octets. decode_of line.now ≡ Ok octets.items)) }
{
    match hex::decode(alloc, line) {
        Ok(octets) => Ok(Some(octets)),
        Err(FromHexError::OutOfMemory) => Err(AllocError),
        Err(_) => Ok(None),
    }
}
