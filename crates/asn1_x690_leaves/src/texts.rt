//! Strings of characters (X.690 8.23).

ghost use Rattle.std.specs.Prelude.{◌≡◌, ◌*◌, ◌+◌, ◌%◌, ◌/◌, ◌<◌, ◌≤◌, ◌^◌, List, true, false, length, drop};
ghost use Rattle.asn1_bits.specs.Bits.{bits};
ghost use Rattle.asn1_schema.specs.declared.tables.Range.{Range};
ghost use Rattle.asn1_schema.specs.Pieces.{Text};
ghost use Rattle.asn1_schema.specs.CharactersOfParts.{numbers_in};
ghost use Rattle.asn1_schema.specs.PiecesOfParts.{bits_of};
ghost use Rattle.asn1_x690.specs.Leaves.{width_of as width_in, AreCharacters, AreIn, IsText};
ghost use Rattle.asn1_x690_leaves.specs.Told.{AreOctetsOf, IsTold};

use crate::sizes::has_size;
use asn1_bits::read_bits;
use asn1_schema::{Characters, Codes, Length, Part, Range, Span};
use asn1_x690::{CharacterSize, FaultKind};
use asn1_x691_fields::{is_in, whole_octets};

/// Returns how many bits a character has.
#[inline(always)]
fn width_of(characters: CharacterSize) -> usize
    ensures value { result ≡ width_in characters }
    ensures some { 0 < result }
    ensures few { result ≤ 32 }
{
    match characters {
        CharacterSize::One => 8,
        CharacterSize::Two => 16,
        CharacterSize::Four => 32,
    }
}

/// Returns whether octets are all in an alphabet.
fn are_octets_in(octets: &[u8], ranges: &[Range]) -> bool
    ensures yes { result ≡ true → AreIn ranges.now octets.now }
    ensures no { result ≡ false → AreIn ranges.now octets.now → ⊥ }
{
    let mut index = 0;
    while index < octets.len() {
        if !is_in(ranges, octets[index] as u128) {
            return false;
        }
        index += 1;
    }
    true
}

/// Returns whether characters, which may begin at any bit, are all in an alphabet.
fn are_numbers_in(octets: &[u8], text: Characters, ranges: &[Range]) -> bool
    requires size { 8 * length octets.now < 2 ^ 64 }
    requires some { 0 < text.width }
    requires few { text.width ≤ 32 }
    requires inside { text.at + text.width * text.count ≤ 8 * length octets.now }
    ensures yes { result ≡ true → AreIn ranges.now (numbers_in text.width text.count (drop text.at (bits octets.now))) }
    ensures no { result ≡ false → AreIn ranges.now (numbers_in text.width text.count (drop text.at (bits octets.now))) → ⊥ }
{
    let mut at = text.at;
    let mut left = text.count;
    while left > 0 {
        if !is_in(ranges, read_bits(octets, at, text.width) as u128) {
            return false;
        }
        at += text.width;
        left -= 1;
    }
    true
}

/// Returns whether an alphabet has all of the characters. Each must have from 1 to 32 bits, and all
/// must be inside the octets.
pub fn are_in(octets: &[u8], text: Characters, ranges: &[Range]) -> bool
    requires size { 8 * length octets.now < 2 ^ 64 }
    requires some { 0 < text.width }
    requires few { text.width ≤ 32 }
    requires inside { text.at + text.width * text.count ≤ 8 * length octets.now }
    ensures yes { result ≡ true → AreIn ranges.now (numbers_in text.width text.count (drop text.at (bits octets.now))) }
    ensures no { result ≡ false → AreIn ranges.now (numbers_in text.width text.count (drop text.at (bits octets.now))) → ⊥ }
{
    if text.width == 8 {
        let span = Span {
            at: text.at,
            count: 8 * text.count,
        };
        return match whole_octets(octets, span) {
            Some(own) => are_octets_in(own, ranges),
            None => are_numbers_in(octets, text, ranges),
        };
    }
    are_numbers_in(octets, text, ranges)
}

/// Returns whether characters are a value of a type.
fn is_text(
    octets: &[u8],
    text: Characters,
    size: Length,
    is_extensible: bool,
    alphabet: &[Range],
    whole: &[Range],
) -> bool
    requires size { 8 * length octets.now < 2 ^ 64 }
    requires some { 0 < text.width }
    requires few { text.width ≤ 32 }
    requires inside { text.at + text.width * text.count ≤ 8 * length octets.now }
    ensures yes { result ≡ true → IsText is_extensible size alphabet.now whole.now
        (numbers_in text.width text.count (drop text.at (bits octets.now))) }
    ensures no { result ≡ false → IsText is_extensible size alphabet.now whole.now
        (numbers_in text.width text.count (drop text.at (bits octets.now))) → ⊥ }
{
    if is_extensible {
        return are_in(octets, text, whole);
    }
    has_size(false, size, text.count) && are_in(octets, text, alphabet)
}

/// Reads a string of characters (X.690 8.23). With an extension marker it may have any size, and
/// the characters of its type without a constraint.
///
/// # Errors
///
/// Returns [`FaultKind::Contents`] if the octets are not whole characters. Otherwise, it returns
/// [`FaultKind::NotPermitted`] if a character or the size is not permitted.
pub fn text(
    octets: &[u8],
    span: Span,
    characters: CharacterSize,
    size: Length,
    is_extensible: bool,
    alphabet: &[Range],
    whole: &[Range],
) -> Result<Part, FaultKind>
    requires size { 8 * length octets.now < 2 ^ 64 }
    requires contents { AreOctetsOf (bits octets.now) span }
    ensures { (ranges : List Range) → IsTold (AreCharacters (width_in characters)) (IsText is_extensible size alphabet.now whole.now) Text
        ranges (bits octets.now) (bits_of (bits octets.now) span) result }
{
    let width = width_of(characters);
    if span.count % width != 0 {
        return Err(FaultKind::Contents);
    }
    let text = Characters {
        at: span.at,
        count: span.count / width,
        width,
        codes: Codes::Numbers,
    };
    if !is_text(octets, text, size, is_extensible, alphabet, whole) {
        return Err(FaultKind::NotPermitted);
    }
    Ok(Part::Text(text))
}
