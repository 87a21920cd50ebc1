//! Characters of a part, and their codes (X.691 30.5.4).

ghost use Rattle.std.specs.Prelude.{◌≡◌, ℕ, List, Bool, min, ◌∷◌, ◌++◌, ◌+◌, ◌-◌, ◌*◌, ◌^◌, ◌<◌, ◌≤◌, true, false, length, drop};
ghost use Rattle.asn1_bits.specs.Bits.{bits, number};
ghost use Rattle.asn1_schema.specs.declared.tables.Range as the_range;
ghost use Rattle.asn1_schema.specs.CharactersOfParts.{character_of, characters_of};
ghost use Rattle.asn1_schema.specs.PiecesOfParts.{bits_at};
ghost use Rattle.asn1_schema.specs.Encodings.{anywhere};
ghost use Rattle.asn1_x691.specs.Alphabets.{IsIn};
ghost use Rattle.asn1_x691.specs.Characters.{character as character_in, characters};
ghost use Rattle.asn1_x691_fields.specs.Characters.{IsAlphabet};
ghost use Rattle.asn1_x691_writers.specs.Copied.{AreCopied};
ghost use Rattle.asn1_x691_writers.specs.Texts.{AreIn};
ghost use Rattle.asn1_x691_writers.specs.Written.{IsWritten};

use crate::bits::{put_bits, put_wide, read_few};
use crate::held::strip_zeros;
use crate::spans::clip;
use asn1_bits::read_wide;
use asn1_schema::{Characters, Codes, NumberSource, Range, Span};
use asn1_x691_fields::{Alphabet, character_at, code_of, is_in, ranges_in};

/// Returns the number of `width` bits of a source, or 2^128 - 1 where it is greater. Bits past the
/// source's end are absent.
fn number_in(source: &[u8], at: usize, width: usize) -> u128
    requires { 8 * length source.now < 2 ^ 64 }
    ensures { result ≡ min (number (bits_at (bits source.now) at width)) (2 ^ 128 - 1) }
{
    let span = clip(source, Span { at, count: width });
    if span.count <= 57 {
        return read_few(source, span.at, span.count) as u128;
    }
    let digits = strip_zeros(source, span);
    if digits.count > 128 {
        return u128::MAX;
    }
    read_wide(source, digits.at, digits.count)
}

/// Returns the character of a code, or 2^32 where it is greater. A code of 2^128 or more is passed as
/// 2^128 - 1.
fn character_by(table: &[Range], codes: Codes, code: u128) -> u64
    ensures { (n : ℕ) → code ≡ min n (2 ^ 128 - 1) → result ≡ min (character_of table.now codes n) (2 ^ 32) }
{
    match codes {
        Codes::Numbers => code.min(1 << 32) as u64,
        Codes::Indices(rows) => character_at(ranges_in(table, rows), code),
    }
}

/// Returns the first character of a part, or 2^32 if it is greater. No alphabet has that character.
pub fn first_character(source: &[u8], table: &[Range], text: Characters) -> u64
    requires { 8 * length source.now < 2 ^ 64 }
    ensures { result ≡ min (character_of table.now text.codes (number (bits_at (bits source.now) text.at text.width))) (2 ^ 32) }
{
    character_by(table, text.codes, number_in(source, text.at, text.width))
}

/// Returns the characters of a part after the first. There must be a first one.
pub fn other_characters(text: Characters) -> Characters
    requires { 0 < text.count }
    ensures count { result.count + 1 ≡ text.count }
    ensures characters { (table : List the_range.Range) (list : List Bool) → length list < 2 ^ 64 → characters_of table list text
        ≡ character_of table text.codes (number (bits_at list text.at text.width)) ∷ characters_of table list result }
{
    Characters {
        at: text.at.saturating_add(text.width),
        count: text.count - 1,
        width: text.width,
        codes: text.codes,
    }
}

/// Returns `count` characters of a part, and those after them.
pub(crate) fn split_characters(text: Characters, count: usize) -> (Characters, Characters)
    requires { count ≤ text.count }
    ensures first { result.0.count ≡ count }
    ensures others { result.1.count ≡ text.count - count }
    ensures characters { (table : List the_range.Range) (list : List Bool) → length list < 2 ^ 64
        → characters_of table list text ≡ characters_of table list result.0 ++ characters_of table list result.1 }
{
    let first = Characters {
        at: text.at,
        count,
        width: text.width,
        codes: text.codes,
    };
    let others = Characters {
        at: text.at.saturating_add(text.width.saturating_mul(count)),
        count: text.count - count,
        width: text.width,
        codes: text.codes,
    };
    (first, others)
}

/// The characters of a part.
#[derive(Clone, Copy, Debug)]
pub(crate) struct PartCharacters<'s> {
    source: &'s [u8],
    table: &'s [Range],
    text: Characters,
    ghost size: { 8 * length source.now < 2 ^ 64 },
}

impl<'s> PartCharacters<'s> {
    ghost use Rattle.asn1_x691_writers.specs.PartCharacters.{characters_in};

    /// Returns the characters of a part.
    pub(crate) fn new(source: &'s [u8], table: &'s [Range], text: Characters) -> Self
        requires { 8 * length source.now < 2 ^ 64 }
        ensures { characters_in result ≡ characters_of table.now (bits source.now) text }
    {
        PartCharacters {
            source,
            table,
            text,
        }
    }
}

impl NumberSource for PartCharacters<'_> {
    ghost use Rattle.asn1_x691_writers.specs.PartCharacters.{characters_in};

    ghost list = { characters_in };

    fn count(&self) -> usize {
        self.text.count
    }

    fn number(&self, index: usize) -> u64 {
        let (_, others) = split_characters(self.text, index);
        first_character(self.source, self.table, others)
    }
}

/// Returns whether all characters of a part are in an alphabet. `is_copied` says that they have its codes.
pub(crate) fn are_in(
    alphabet: &Alphabet<'_>,
    source: &[u8],
    table: &[Range],
    text: Characters,
    is_copied: bool,
) -> bool
    requires source { 8 * length source.now < 2 ^ 64 }
    requires is { IsAlphabet alphabet.now }
    requires copied { is_copied ≡ true → AreCopied alphabet.now source.now table.now text }
    ensures yes { result ≡ true → AreIn alphabet.now.ranges.now (characters_of table.now (bits source.now) text) }
    ensures no { result ≡ false → AreIn alphabet.now.ranges.now (characters_of table.now (bits source.now) text) → ⊥ }
{
    if is_copied {
        return true;
    }
    let mut left = text;
    while left.count > 0 {
        let character = first_character(source, table, left);
        if !is_in(alphabet.ranges, character as u128) {
            return false;
        }
        left = other_characters(left);
    }
    true
}

/// Writes a character that is in the alphabet by its code. Returns the index after it.
fn put_character(octets: &mut [u8], at: usize, alphabet: &Alphabet<'_>, character: u64) -> usize
    requires size { 8 * length octets.old < 2 ^ 64 }
    requires is { IsAlphabet alphabet.now }
    requires within { IsIn alphabet.now.ranges.now character }
    ensures { (node : ℕ) → IsWritten alphabet.now.is_aligned (anywhere (character_in alphabet.now.is_aligned alphabet.now.ranges.now node)) character
        octets.old at octets.new result }
{
    put_wide(octets, at, code_of(alphabet, character), alphabet.width)
}

/// Writes the characters of a part, which are in the alphabet, by their codes. `is_copied` says that they
/// have these codes. Returns the index after them.
#[inline(always)]
pub(crate) fn put_characters(
    octets: &mut [u8],
    at: usize,
    alphabet: &Alphabet<'_>,
    source: &[u8],
    table: &[Range],
    text: Characters,
    is_copied: bool,
) -> usize
    requires size { 8 * length octets.old < 2 ^ 64 }
    requires source { 8 * length source.now < 2 ^ 64 }
    requires is { IsAlphabet alphabet.now }
    requires within { AreIn alphabet.now.ranges.now (characters_of table.now (bits source.now) text) }
    requires copied { is_copied ≡ true → AreCopied alphabet.now source.now table.now text }
    ensures { (node : ℕ) → IsWritten alphabet.now.is_aligned (characters alphabet.now.is_aligned alphabet.now.ranges.now node text.count)
        (characters_of table.now (bits source.now) text) octets.old at octets.new result }
{
    if is_copied {
        let size = alphabet.width * text.count;
        return put_bits(octets, at, source, text.at, size);
    }
    put_each(octets, at, alphabet, source, table, text)
}

/// Writes the characters of a part, which are in the alphabet, one after another by their codes.
/// Returns the index after them.
#[inline(never)]
fn put_each(
    octets: &mut [u8],
    at: usize,
    alphabet: &Alphabet<'_>,
    source: &[u8],
    table: &[Range],
    text: Characters,
) -> usize
    requires size { 8 * length octets.old < 2 ^ 64 }
    requires source { 8 * length source.now < 2 ^ 64 }
    requires is { IsAlphabet alphabet.now }
    requires within { AreIn alphabet.now.ranges.now (characters_of table.now (bits source.now) text) }
    ensures { (node : ℕ) → IsWritten alphabet.now.is_aligned (characters alphabet.now.is_aligned alphabet.now.ranges.now node text.count)
        (characters_of table.now (bits source.now) text) octets.old at octets.new result }
{
    let mut next = at;
    let mut left = text;
    while left.count > 0 {
        let character = first_character(source, table, left);
        next = put_character(octets, next, alphabet, character);
        left = other_characters(left);
    }
    next
}
