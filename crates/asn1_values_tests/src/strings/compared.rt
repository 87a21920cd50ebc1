//! What all strings have beside the calls of the trait, on strings that are built character by
//! character.

use crate::strings::lists::{count_and_list, list};
use crate::strings::types::characters;
use asn1_strings::{CodeUnit, RestrictedString, StaticPermittedAlphabet, StringKind};
use asn1_test_rows::{RowError, show_value, wrong};
use std::alloc::Global;
use std::collections::HashSet;

/// Answers the calls on one string.
pub fn of_one<K: StringKind>(alloc: Global, name: &str, word: &str) -> Result<String, RowError> {
    let string: RestrictedString<K> = string_of_word(alloc, word)?;
    match name {
        "push_char" => characters(alloc, &string),
        "as_slice" => units(alloc, string.as_slice()),
        "into_vec" => units(alloc, string.into_vec().as_slice()),
        "clone" => copy_string(alloc, &string),
        "reserve_1000" => reserve_room(alloc, string),
        "is_empty" => show_value(alloc, string.is_empty()),
        "chars_rev" => from_the_back(alloc, &string),
        _ => Err(wrong(alloc, name, "function of a string")),
    }
}

/// Answers the calls on two strings.
pub fn of_two<K: StringKind>(
    alloc: Global,
    name: &str,
    first: &str,
    second: &str,
) -> Result<String, RowError> {
    let first: RestrictedString<K> = string_of_word(alloc, first)?;
    let second: RestrictedString<K> = string_of_word(alloc, second)?;
    match name {
        "lt" => show_value(alloc, first < second),
        "eq" => show_value(alloc, first == second),
        "clone_eq" => is_copied(alloc, &first, &second),
        "is_found" => is_found(alloc, first, &second),
        _ => Err(wrong(alloc, name, "function of two strings")),
    }
}

/// Returns the string of the characters that a word encodes.
fn string_of_word<K: StringKind>(
    alloc: Global,
    word: &str,
) -> Result<RestrictedString<K>, RowError> {
    push_characters(alloc, list(alloc, word)?.as_slice())
}

/// Returns whether the copy of the first string equals the second.
fn is_copied<K: StringKind>(
    alloc: Global,
    first: &RestrictedString<K>,
    second: &RestrictedString<K>,
) -> Result<String, RowError> {
    show_value(alloc, first.clone()? == *second)
}

/// Returns the string of these characters, without those outside its set.
fn push_characters<S: StaticPermittedAlphabet + Drop>(
    alloc: Global,
    numbers: &[u32],
) -> Result<S, RowError> {
    let mut string = S::new(alloc);
    string.reserve(numbers.len())?;
    for character in numbers {
        if S::contains_char(*character) {
            string.push_char(*character)?;
        }
    }
    Ok(string)
}

/// Returns the characters of the units.
fn units<T: CodeUnit>(alloc: Global, units: &[T]) -> Result<String, RowError> {
    let mut numbers = Vec::new(alloc);
    for unit in units {
        numbers.push(unit.to_character())?;
    }
    count_and_list(alloc, units.len(), numbers.as_slice())
}

/// Returns how many characters a copy of the iterator has left, and each of them, from the back.
fn from_the_back<K: StringKind>(
    alloc: Global,
    string: &RestrictedString<K>,
) -> Result<String, RowError> {
    let chars = string.chars();
    let count = chars.len();
    let copy = chars.clone()?;
    let numbers = copy.rev().collect::<Vec<u32>>(alloc)?;
    count_and_list(alloc, count, numbers.as_slice())
}

fn copy_string<K: StringKind>(
    alloc: Global,
    string: &RestrictedString<K>,
) -> Result<String, RowError> {
    characters(alloc, &string.clone()?)
}

/// Returns whether the capacity is 1,000 to 2,000 characters.
fn reserve_room<K: StringKind>(
    alloc: Global,
    mut string: RestrictedString<K>,
) -> Result<String, RowError> {
    string.reserve(1000)?;
    let units = string.into_vec();
    let room = units.capacity();
    show_value(alloc, units.is_empty() && room >= 1000 && room <= 2000)
}

/// Returns whether a set with the first string has the second.
fn is_found<K: StringKind>(
    alloc: Global,
    first: RestrictedString<K>,
    second: &RestrictedString<K>,
) -> Result<String, RowError> {
    let mut seen = HashSet::new(alloc);
    seen.insert(first)?;
    show_value(alloc, seen.contains(second))
}
