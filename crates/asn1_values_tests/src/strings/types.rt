//! The eight character strings, by the trait of all.

use crate::strings::lists::{count_and_list, text_of};
use crate::strings::{bits, compared, sets};
use asn1_strings::{
    Bmp, General, Graphic, Ia5, Numeric, OctetString, PermittedAlphabetError, Printable,
    RestrictedString, StaticPermittedAlphabet, StringKind, Teletex, Visible,
};
use asn1_test_rows::{RowError, octets, parse_word, show_value, wrong};
use std::alloc::Global;

/// Answers the calls on a string by its name.
pub fn answer(alloc: Global, owner: &str, name: &str, words: &[&str]) -> Result<String, RowError> {
    match owner {
        "BmpString" => of_kind::<Bmp>(alloc, name, words),
        "GeneralString" => of_kind::<General>(alloc, name, words),
        "GraphicString" => of_kind::<Graphic>(alloc, name, words),
        "Ia5String" => of_kind::<Ia5>(alloc, name, words),
        "NumericString" => of_kind::<Numeric>(alloc, name, words),
        "PrintableString" => of_kind::<Printable>(alloc, name, words),
        "TeletexString" => of_kind::<Teletex>(alloc, name, words),
        "VisibleString" => of_kind::<Visible>(alloc, name, words),
        _ => Err(wrong(alloc, owner, "string")),
    }
}

/// Answers the calls on a string: without words, of octets, of a number, of octets and a width, of
/// one or two lists of characters, or of bits.
fn of_kind<K: StringKind>(alloc: Global, name: &str, words: &[&str]) -> Result<String, RowError> {
    match words {
        [] => sets::constant::<RestrictedString<K>>(alloc, name),
        [word] if name.starts_with("try_from_") => {
            of_octets::<RestrictedString<K>>(alloc, name, word)
        }
        [word] if name.ends_with("char_below") || name.starts_with("invalid") => {
            of_number::<RestrictedString<K>>(alloc, name, word)
        }
        [word] => compared::of_one::<K>(alloc, name, word),
        [word, width] if name == "try_from_slice_with_width" => {
            of_width::<RestrictedString<K>>(alloc, word, width)
        }
        [first, second] if !name.starts_with("try_from_") => {
            compared::of_two::<K>(alloc, name, first, second)
        }
        _ => bits::answer::<RestrictedString<K>>(alloc, name, words),
    }
}

fn of_octets<S: StaticPermittedAlphabet>(
    alloc: Global,
    name: &str,
    word: &str,
) -> Result<String, RowError> {
    read::<S>(alloc, name, octets(alloc, word)?)
}

fn of_number<S: StaticPermittedAlphabet>(
    alloc: Global,
    name: &str,
    word: &str,
) -> Result<String, RowError> {
    let number = parse_word::<u32>(alloc, word)?;
    match name {
        "contains_char_below" => sets::ranges_of::<S>(alloc, number),
        _ => show_value(alloc, S::invalid_restricted_string(number)),
    }
}

fn of_width<S: StaticPermittedAlphabet>(
    alloc: Global,
    word: &str,
    width: &str,
) -> Result<String, RowError> {
    let width = parse_word::<usize>(alloc, width)?;
    with_width::<S>(alloc, octets(alloc, word)?.as_slice(), width)
}

/// Returns the number of a string's characters, and each of them; or the error.
pub fn string_text<S: StaticPermittedAlphabet>(
    alloc: Global,
    read: Result<S, PermittedAlphabetError>,
) -> Result<String, RowError> {
    match read {
        Ok(string) => characters(alloc, &string),
        Err(error) => show_value(alloc, error),
    }
}

/// Returns the number of a string's characters, and each of them.
pub fn characters<S: StaticPermittedAlphabet>(
    alloc: Global,
    string: &S,
) -> Result<String, RowError> {
    let mut numbers = Vec::new(alloc);
    for character in string.chars() {
        numbers.push(character)?;
    }
    count_and_list(alloc, string.len(), numbers.as_slice())
}

fn read<S: StaticPermittedAlphabet>(
    alloc: Global,
    name: &str,
    octets: Vec<u8>,
) -> Result<String, RowError> {
    match name {
        "try_from_slice" => string_text(alloc, S::try_from_slice(alloc, octets.as_slice())),
        "try_from_vec" => string_text(alloc, S::try_from_vec(alloc, octets)),
        "try_from_str" => from_str::<S>(alloc, text_of(alloc, octets)?.as_str()),
        "try_from_string" => from_string::<S>(alloc, text_of(alloc, octets)?),
        "try_from_octet_string" => from_octet_string::<S>(alloc, octets.as_slice()),
        _ => Err(wrong(alloc, name, "reading of octets")),
    }
}

fn from_str<S: StaticPermittedAlphabet>(alloc: Global, text: &str) -> Result<String, RowError> {
    string_text(alloc, S::try_from_str(alloc, text))
}

fn from_string<S: StaticPermittedAlphabet>(
    alloc: Global,
    text: String,
) -> Result<String, RowError> {
    string_text(alloc, S::try_from_string(alloc, text))
}

fn from_octet_string<S: StaticPermittedAlphabet>(
    alloc: Global,
    octets: &[u8],
) -> Result<String, RowError> {
    let string = OctetString::from_slice(alloc, octets)?;
    string_text(alloc, S::try_from_octet_string(alloc, string))
}

fn with_width<S: StaticPermittedAlphabet>(
    alloc: Global,
    octets: &[u8],
    width: usize,
) -> Result<String, RowError> {
    match width {
        0 => string_text(alloc, S::try_from_slice_with_width(alloc, octets, 0)),
        1 => string_text(alloc, S::try_from_slice_with_width(alloc, octets, 1)),
        2 => string_text(alloc, S::try_from_slice_with_width(alloc, octets, 2)),
        4 => string_text(alloc, S::try_from_slice_with_width(alloc, octets, 4)),
        _ => Err(wrong(alloc, "the word", "width")),
    }
}
