//! Permitted alphabets: widths, codes and errors.

ghost use Rattle.std.specs.Prelude.{◌≤◌, ◌^◌, length};
ghost use Rattle.std.specs.Option.{ForSome, option_copied};

use crate::strings::lists::{MOST, list};
use asn1_alphabets::{CharacterAlphabet, should_be_indexed};
use asn1_bits::Turns;
use asn1_strings::{
    BmpString, Ia5String, NumericString, PermittedAlphabetError, PrintableString, VisibleString,
};
use asn1_test_rows::{RowError, outcome, parse_word, show_value, wrong};
use std::alloc::Global;
use std::mem::size_of;

/// Answers the calls on alphabets: without words; of a width and a list; or of a string, its
/// variant, a list (`base` for the base set), and a character or code if the call takes one.
pub fn answer(alloc: Global, name: &str, words: &[&str]) -> Result<String, RowError> {
    match words {
        [] => show_value(alloc, size_of::<CharacterAlphabet<'_>>()),
        [width, word] => index_of_width(
            alloc,
            parse_word::<u32>(alloc, width)?,
            list(alloc, word)?.as_slice(),
        ),
        [string, variant, "base", others @ ..] => {
            of_set(alloc, name, string, variant, None, others)
        }
        [string, variant, word, others @ ..] => {
            let set = list(alloc, word)?;
            of_set(alloc, name, string, variant, Some(set.as_slice()), others)
        }
        _ => Err(wrong(alloc, name, "function of alphabets")),
    }
}

fn index_of_width(alloc: Global, width: u32, set: &[u32]) -> Result<String, RowError> {
    if width > 31 {
        return Err(wrong(alloc, "the word", "width of at most 31 bits"));
    }
    show_value(alloc, should_be_indexed(width, set))
}

fn of_set(
    alloc: Global,
    name: &str,
    string: &str,
    variant: &str,
    set: Option<&[u32]>,
    others: &[&str],
) -> Result<String, RowError> {
    if let Some(set) = set
        && set.len() > MOST
    {
        return Err(wrong(alloc, "the word", "list of so few numbers"));
    }
    let aligned = variant == "aligned";
    let alphabet = match string {
        "BmpString" => CharacterAlphabet::new::<BmpString>(set, aligned),
        "Ia5String" => CharacterAlphabet::new::<Ia5String>(set, aligned),
        "NumericString" => CharacterAlphabet::new::<NumericString>(set, aligned),
        "PrintableString" => CharacterAlphabet::new::<PrintableString>(set, aligned),
        "VisibleString" => CharacterAlphabet::new::<VisibleString>(set, aligned),
        _ => return Err(wrong(alloc, string, "string")),
    };
    match others {
        [] => of_alphabet(alloc, name, &alphabet),
        [word] => of_number(alloc, name, &alphabet, set, parse_word::<u32>(alloc, word)?),
        _ => Err(wrong(alloc, name, "function of an alphabet")),
    }
}

fn of_alphabet(
    alloc: Global,
    name: &str,
    alphabet: &CharacterAlphabet<'_>,
) -> Result<String, RowError> {
    match name {
        "width" => show_value(alloc, alphabet.width()),
        "repeats" => show_value(alloc, alphabet.repeats()),
        "is_indexed" => show_value(alloc, alphabet.is_indexed()),
        "len" => show_value(alloc, alphabet.len()),
        _ => Err(wrong(alloc, name, "function of an alphabet")),
    }
}

/// Answers the calls on a character or a code, or on all characters below a limit.
fn of_number(
    alloc: Global,
    name: &str,
    alphabet: &CharacterAlphabet<'_>,
    set: Option<&[u32]>,
    number: u32,
) -> Result<String, RowError> {
    match (name, set) {
        ("encode", _) => outcome(alloc, alphabet.encode(number)),
        ("encode_counted", _) => outcome(alloc, count_and_list(alphabet, number)),
        ("encode_is_below_2", _) => show_value(alloc, matches!(alphabet.encode(number), Ok(0 | 1))),
        ("decode", _) => outcome(alloc, alphabet.decode(number)),
        ("contains", _) => show_value(alloc, alphabet.contains(number)),
        ("codes_are_places_below", Some(set)) => {
            show_value(alloc, has_these_alone(alphabet, set, true, number))
        }
        ("codes_are_characters_below", Some(set)) => {
            show_value(alloc, has_these_alone(alphabet, set, false, number))
        }
        _ => Err(wrong(alloc, name, "function of an alphabet and a number")),
    }
}

fn count_and_list(
    alphabet: &CharacterAlphabet<'_>,
    character: u32,
) -> Result<u32, PermittedAlphabetError> {
    let mut probes = Turns::new();
    alphabet.encode_counted(character, &mut probes)
}

/// Returns whether the alphabet has a code for each character of the list, its index or itself, and
/// no code for others below the limit.
fn has_these_alone(
    alphabet: &CharacterAlphabet<'_>,
    set: &[u32],
    by_place: bool,
    limit: u32,
) -> bool {
    for character in 0..limit {
        let wanted = wanted_code(set, by_place, character);
        if alphabet.encode(character) != wanted || count_and_list(alphabet, character) != wanted {
            return false;
        }
    }
    true
}

fn wanted_code(set: &[u32], by_place: bool, character: u32) -> Result<u32, PermittedAlphabetError> {
    match set.iter().position(|candidate| *candidate == character) {
        Some(place) if by_place => u32::try_from(place).map_err(|_| PermittedAlphabetError::Memory),
        Some(_) => Ok(character),
        None => Err(PermittedAlphabetError::CharacterNotFound { character }),
    }
}
