//! Codes of characters, and the characters of indices (X.691 30.5.4).

ghost use Rattle.std.specs.Prelude.{◌≡◌, ◌≤◌, ◌<◌, ◌^◌, ◌-◌, min, ℕ};
ghost use Rattle.asn1_schema.specs.CharactersOfParts.{character_at as character_in};
ghost use Rattle.asn1_x691.specs.Alphabets.{IsIn, code_of as code_in};
ghost use Rattle.asn1_x691_fields.specs.Characters.{IsAlphabet};

use crate::alphabets::{Alphabet, ascending_at, count_below, first_past};
use asn1_schema::Range;

/// Returns the character at an index among those of ranges, in ascending order, or the number after
/// all of them if they are fewer. An index of 2^128 or more must be passed as 2^128 - 1.
pub fn character_at(ranges: &[Range], index: u128) -> u64
    ensures value { (i : ℕ) → index ≡ min i (2 ^ 128 - 1) → result ≡ character_in ranges.now i }
    ensures most { result ≤ 2 ^ 32 }
{
    if index < 1 << 64
        && let Some(character) = ascending_at(ranges, index as u64)
    {
        return character;
    }
    first_past(ranges, index)
}

/// Returns the code of a character: its number, or its index in ascending order. The alphabet must
/// have the character.
pub fn code_of(alphabet: &Alphabet<'_>, character: u64) -> u128
    requires is { IsAlphabet alphabet.now }
    requires within { IsIn alphabet.now.ranges.now character }
    ensures value { result ≡ code_in alphabet.now.is_aligned alphabet.now.ranges.now character }
    ensures below { result < 2 ^ alphabet.now.width }
{
    if alphabet.are_numbers {
        return character as u128;
    }
    count_below(alphabet.ranges, character)
}
