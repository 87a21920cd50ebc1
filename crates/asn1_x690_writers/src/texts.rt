//! Strings of characters (X.690 8.23).

ghost use Rattle.std.specs.Prelude.{◌≡◌, ℕ, List, ◌*◌, ◌%◌, ◌<◌, ◌≤◌, ◌^◌, true, false, length};
ghost use Rattle.asn1_bits.specs.Bits.{bits};
ghost use Rattle.asn1_schema.specs.CharactersOfParts.{characters_of};
ghost use Rattle.asn1_schema.specs.Pieces.{Text};
ghost use Rattle.asn1_x690.specs.Der.{rows_of};
ghost use Rattle.asn1_x690.specs.Leaves.{width_of as width_in, AreCharacters, AreIn, IsText, leaf_of};
ghost use Rattle.asn1_x690_writers.specs.Put.{IsPut};
ghost use Rattle.asn1_x690_writers.specs.Texts.{AreWithin, ArePlain, IsTextWritten};
ghost use Rattle.asn1_x691_writers.specs.Put.{piece_in};

use crate::octets::put_span;
use crate::sizes::has_size;
use asn1_schema::{Characters, Codes, Length, MisfitKind, Part, Range, Rows};
use asn1_x690::CharacterSize;
use asn1_x690_leaves::are_in;
use asn1_x691_fields::{is_in, ranges_in};
use asn1_x691_writers::{Writer, first_character, other_characters, put_number, reject};

/// Returns how many bits a character has.
#[inline(always)]
fn width_of(characters: CharacterSize) -> usize
    ensures value { result ≡ width_in characters }
    ensures some { 0 < result }
    ensures whole { result % 8 ≡ 0 }
    ensures few { result ≤ 32 }
{
    match characters {
        CharacterSize::One => 8,
        CharacterSize::Two => 16,
        CharacterSize::Four => 32,
    }
}

/// Returns whether the characters of a part are numbers of `width` bits in the source, so that they are
/// written unchanged.
#[inline(always)]
pub(crate) fn are_plain(source: &[u8], width: usize, text: Characters) -> bool
    requires source { 8 * length source.now < 2 ^ 64 }
    requires some { 0 < width }
    ensures { result ≡ true → ArePlain source.now width text }
{
    if text.codes != Codes::Numbers || text.width != width {
        return false;
    }
    let size = 8 * source.len();
    text.at <= size && text.count <= (size - text.at) / width
}

/// Returns whether the characters of a part are all in an alphabet, and below 2^`width`.
fn are_permitted(
    source: &[u8],
    table: &[Range],
    width: usize,
    ranges: &[Range],
    text: Characters,
) -> bool
    requires source { 8 * length source.now < 2 ^ 64 }
    requires some { 0 < width }
    requires few { width ≤ 32 }
    ensures alphabet { result ≡ true → AreIn ranges.now (characters_of table.now (bits source.now) text) }
    ensures below { result ≡ true → AreWithin width (characters_of table.now (bits source.now) text) }
    ensures no { result ≡ false → AreIn ranges.now (characters_of table.now (bits source.now) text)
        → AreWithin width (characters_of table.now (bits source.now) text) → ⊥ }
{
    if are_plain(source, width, text) {
        return are_in(source, text, ranges);
    }
    are_all_permitted(source, table, width, ranges, text)
}

/// Returns the same, one character after another.
fn are_all_permitted(
    source: &[u8],
    table: &[Range],
    width: usize,
    ranges: &[Range],
    text: Characters,
) -> bool
    requires source { 8 * length source.now < 2 ^ 64 }
    requires few { width ≤ 32 }
    ensures alphabet { result ≡ true → AreIn ranges.now (characters_of table.now (bits source.now) text) }
    ensures below { result ≡ true → AreWithin width (characters_of table.now (bits source.now) text) }
    ensures no { result ≡ false → AreIn ranges.now (characters_of table.now (bits source.now) text)
        → AreWithin width (characters_of table.now (bits source.now) text) → ⊥ }
{
    let mut left = text;
    while left.count > 0 {
        let character = first_character(source, table, left);
        if character >= 1u64 << width {
            return false;
        }
        if !is_in(ranges, character as u128) {
            return false;
        }
        left = other_characters(left);
    }
    true
}

/// Returns whether the characters of a part are a value of a type, and below 2^`width`. With an
/// extension marker they are those of the type without its constraint, and there may be any number.
fn is_text(
    source: &[u8],
    table: &[Range],
    width: usize,
    size: Length,
    is_extensible: bool,
    alphabet: Rows,
    whole: Rows,
    text: Characters,
) -> bool
    requires source { 8 * length source.now < 2 ^ 64 }
    requires some { 0 < width }
    requires few { width ≤ 32 }
    ensures yes { result ≡ true → IsText is_extensible size (rows_of table.now alphabet) (rows_of table.now whole)
        (characters_of table.now (bits source.now) text) }
    ensures below { result ≡ true → AreWithin width (characters_of table.now (bits source.now) text) }
    ensures no { result ≡ false → IsText is_extensible size (rows_of table.now alphabet) (rows_of table.now whole)
        (characters_of table.now (bits source.now) text) → AreWithin width (characters_of table.now (bits source.now) text) → ⊥ }
{
    if is_extensible {
        return are_permitted(source, table, width, ranges_in(table, whole), text);
    }
    if !has_size(size, false, text.count) {
        return false;
    }
    are_permitted(source, table, width, ranges_in(table, alphabet), text)
}

/// Writes the characters of a part, each as a number of `width` bits. Returns the index after them.
#[inline(always)]
pub(crate) fn put_characters(
    octets: &mut [u8],
    at: usize,
    width: usize,
    source: &[u8],
    table: &[Range],
    text: Characters,
) -> usize
    requires size { 8 * length octets.old < 2 ^ 64 }
    requires source { 8 * length source.now < 2 ^ 64 }
    requires some { 0 < width }
    requires few { width ≤ 32 }
    requires whole { width % 8 ≡ 0 }
    requires below { AreWithin width (characters_of table.now (bits source.now) text) }
    ensures { IsTextWritten width (characters_of table.now (bits source.now) text) octets.old at octets.new result }
{
    if are_plain(source, width, text) {
        return put_span(octets, at, source, text.at, width * text.count);
    }
    put_each_character(octets, at, width, source, table, text)
}

/// Writes the characters of a part one after another.
fn put_each_character(
    octets: &mut [u8],
    at: usize,
    width: usize,
    source: &[u8],
    table: &[Range],
    text: Characters,
) -> usize
    requires size { 8 * length octets.old < 2 ^ 64 }
    requires source { 8 * length source.now < 2 ^ 64 }
    requires few { width ≤ 32 }
    requires whole { width % 8 ≡ 0 }
    requires below { AreWithin width (characters_of table.now (bits source.now) text) }
    ensures { IsTextWritten width (characters_of table.now (bits source.now) text) octets.old at octets.new result }
{
    let mut next = at;
    let mut left = text;
    while left.count > 0 {
        let character = first_character(source, table, left);
        next = put_number(octets, next, character, width);
        left = other_characters(left);
    }
    next
}

/// Writes characters of a size and an alphabet that the constraint permits, in as many octets as
/// each has. The alphabets are rows of a table of ranges.
pub(crate) fn put_text(
    octets: &mut [u8],
    table: &[Range],
    characters: CharacterSize,
    size: Length,
    is_extensible: bool,
    alphabet: Rows,
    whole: Rows,
    source: &[u8],
    part: Part,
    node: usize,
    state: &mut Writer,
) -> bool
    requires size { 8 * length octets.old < 2 ^ 64 }
    requires source { 8 * length source.now < 2 ^ 64 }
    ensures { IsPut ⊥ (leaf_of (AreCharacters (width_in characters)) (IsText is_extensible size (rows_of table.now alphabet) (rows_of table.now whole)) Text node)
        (piece_in table.now source.now part) octets.old state.old octets.new state.new result }
{
    match part {
        Part::Text(text) => {
            let width = width_of(characters);
            if !is_text(
                source,
                table,
                width,
                size,
                is_extensible,
                alphabet,
                whole,
                text,
            ) {
                return reject(state, node, MisfitKind::NoEncoding);
            }
            state.at = put_characters(octets, state.at, width, source, table, text);
            true
        }
        _ => reject(state, node, MisfitKind::OtherPart),
    }
}
