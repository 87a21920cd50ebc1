//! Calls on octet strings, character strings and alphabets. Characters and codes are in decimal.

mod alphabets;
mod bits;
mod callers;
mod compared;
mod fixed;
mod kinds;
mod lists;
mod octet_strings;
mod search;
mod sets;
mod texts;
mod types;

use asn1_test_rows::RowError;
use std::alloc::Global;

/// Returns the answer to a call of a function of a type or a module.
pub fn answer(alloc: Global, owner: &str, name: &str, words: &[&str]) -> Result<String, RowError> {
    match owner {
        "CharacterAlphabet" => alphabets::answer(alloc, name, words),
        "search" => search::answer(alloc, name, words),
        "callers" => callers::answer(alloc, name, words),
        "OctetString" => octet_strings::answer(alloc, name, words),
        "FixedOctetString" => fixed::answer(alloc, name, words),
        "texts" => texts::answer(alloc, name, words),
        "kinds" => kinds::answer(alloc, name, words),
        _ => types::answer(alloc, owner, name, words),
    }
}
