//! Printed names and errors.

use asn1_characters::{
    CharacterSetName, InvalidBmpString, InvalidGeneralString, InvalidGraphicString,
    InvalidIA5String, InvalidNumericString, InvalidPrintableString, InvalidRestrictedString,
    InvalidTeletexString, InvalidVisibleString, PermittedAlphabetError,
};
use asn1_test_rows::{RowError, parse_word, show_value, wrong};
use std::alloc::Global;

/// Returns the texts of a name, or of an error with its numbers.
pub fn answer(alloc: Global, name: &str, words: &[&str]) -> Result<String, RowError> {
    match words {
        [] => of_name(alloc, name),
        [word] => of_character(alloc, name, parse_word::<u32>(alloc, word)?),
        [length, width] => show_value(
            alloc,
            PermittedAlphabetError::InvalidData {
                length: parse_word::<usize>(alloc, length)?,
                width: parse_word::<usize>(alloc, width)?,
            },
        ),
        _ => Err(wrong(alloc, name, "text")),
    }
}

fn of_name(alloc: Global, name: &str) -> Result<String, RowError> {
    match name {
        "Bmp" => show_value(alloc, CharacterSetName::Bmp),
        "General" => show_value(alloc, CharacterSetName::General),
        "Graphic" => show_value(alloc, CharacterSetName::Graphic),
        "IA5" => show_value(alloc, CharacterSetName::IA5),
        "Numeric" => show_value(alloc, CharacterSetName::Numeric),
        "Printable" => show_value(alloc, CharacterSetName::Printable),
        "Teletex" => show_value(alloc, CharacterSetName::Teletex),
        "Visible" => show_value(alloc, CharacterSetName::Visible),
        "Memory" => show_value(alloc, PermittedAlphabetError::Memory),
        _ => Err(wrong(alloc, name, "name")),
    }
}

/// Returns the text of the error of a string for a character.
fn of_character(alloc: Global, name: &str, character: u32) -> Result<String, RowError> {
    match name {
        "InvalidBmpString" => show_value(alloc, InvalidBmpString::from(character)),
        "InvalidGeneralString" => show_value(alloc, InvalidGeneralString::from(character)),
        "InvalidGraphicString" => show_value(alloc, InvalidGraphicString::from(character)),
        "InvalidIA5String" => show_value(alloc, InvalidIA5String::from(character)),
        "InvalidNumericString" => show_value(alloc, InvalidNumericString::from(character)),
        "InvalidPrintableString" => show_value(alloc, InvalidPrintableString::from(character)),
        "InvalidTeletexString" => show_value(alloc, InvalidTeletexString::from(character)),
        "InvalidVisibleString" => show_value(alloc, InvalidVisibleString::from(character)),
        _ => of_refusal(alloc, name, character),
    }
}

/// Returns the text of an error with a number.
fn of_refusal(alloc: Global, name: &str, number: u32) -> Result<String, RowError> {
    match name {
        "InvalidRestrictedString" => show_value(alloc, visible(number)),
        "IndexNotFound" => show_value(
            alloc,
            PermittedAlphabetError::IndexNotFound {
                index: number as usize,
            },
        ),
        "CharacterNotFound" => {
            show_value(
                alloc,
                PermittedAlphabetError::CharacterNotFound { character: number },
            )
        }
        "Other" => show_value(
            alloc,
            PermittedAlphabetError::Other {
                name: CharacterSetName::IA5,
            },
        ),
        "OfPrintable" => show_value(alloc, PermittedAlphabetError::from(printable(number))),
        _ => Err(wrong(alloc, name, "refusal")),
    }
}

fn visible(character: u32) -> InvalidRestrictedString {
    InvalidRestrictedString::from(InvalidVisibleString::from(character))
}

fn printable(character: u32) -> InvalidRestrictedString {
    InvalidRestrictedString::from(InvalidPrintableString::from(character))
}
