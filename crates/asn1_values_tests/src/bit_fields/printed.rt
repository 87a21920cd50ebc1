//! Fields that were read, as words: as the fields of a row, but `o&=A5` for borrowed octets,
//! `b3=01011` for bits from bit 3 of an octet on, `a1/1=98` for the character of code 1 in an
//! alphabet of one bit, and `a1=97` if the alphabet repeats a character.

use crate::bit_fields::words::{append, push_labelled};
use asn1_values::{BitStr, CharacterAlphabet, Field, Octets, PermittedAlphabetError};
use std::alloc::Global;

/// Appends each field.
pub fn push_fields(alloc: Global, text: &mut String, fields: &[Field<'_, '_>]) -> Option<()> {
    for field in fields {
        push_field(alloc, text, field)?;
    }
    Some(())
}

fn push_field(alloc: Global, text: &mut String, field: &Field<'_, '_>) -> Option<()> {
    match field {
        Field::Number { value, width } => push_number(alloc, text, *value, *width),
        Field::Octets(octets) => push_octets(alloc, text, octets),
        Field::Bits(bits) => push_bits(alloc, text, *bits),
        Field::Integer(number) => {
            push_labelled(alloc, text, "i=", number.signed_octets().as_ref())
        }
        Field::CountedInteger(number) => {
            push_labelled(alloc, text, "c=", number.signed_octets().as_ref())
        }
        Field::Oid(oid) => push_word(text, format!(in alloc; "d={oid}").ok()?),
        Field::Character {
            alphabet,
            character,
        } => push_character(alloc, text, alphabet, *character),
    }
}

fn push_word(text: &mut String, word: String) -> Option<()> {
    append(text, word.as_str())
}

fn push_number(alloc: Global, text: &mut String, value: u128, width: usize) -> Option<()> {
    push_word(text, format!(in alloc; "n{width}={value}").ok()?)
}

fn push_octets(alloc: Global, text: &mut String, octets: &Octets<'_>) -> Option<()> {
    let label = match octets {
        Octets::Borrowed(_) => "o&=",
        Octets::Owned(_) => "o=",
    };
    push_labelled(alloc, text, label, octets.as_ref())
}

fn push_bits(alloc: Global, text: &mut String, bits: BitStr<'_>) -> Option<()> {
    let shift = bits.shift();
    push_word(text, format!(in alloc; "b{shift}=").ok()?)?;
    for place in 0..bits.len() {
        text.push(if bits.get(place) { '1' } else { '0' }).ok()?;
    }
    Some(())
}

fn push_character(
    alloc: Global,
    text: &mut String,
    alphabet: &CharacterAlphabet<'_>,
    character: u32,
) -> Option<()> {
    let width = alphabet.width();
    if alphabet.repeats() {
        return push_repeated(alloc, text, width, character);
    }
    match code_of(alphabet, character) {
        Some(code) => push_coded(alloc, text, width, code, character),
        None => None,
    }
}

fn push_repeated(alloc: Global, text: &mut String, width: usize, character: u32) -> Option<()> {
    push_word(text, format!(in alloc; "a{width}={character}").ok()?)
}

fn push_coded(
    alloc: Global,
    text: &mut String,
    width: usize,
    code: u32,
    character: u32,
) -> Option<()> {
    push_word(text, format!(in alloc; "a{width}/{code}={character}").ok()?)
}

fn code_of(alphabet: &CharacterAlphabet<'_>, character: u32) -> Option<u32> {
    let code: Result<u32, PermittedAlphabetError> = alphabet.encode(character);
    code.ok()
}
