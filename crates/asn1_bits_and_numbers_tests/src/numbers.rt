//! The calls of `asn1_number`, `asn1_integer` and `asn1_oid`.

mod bounded;
mod callers;
mod contents;
mod conversions;
mod identifiers;
mod integers;
mod octets;
mod spelled;
mod two_octets;
mod typed;

use asn1_test_rows::{RowError, one};
use std::alloc::Global;

/// Returns the answer to a call of a function of a type or a module.
pub fn answer(alloc: Global, owner: &str, name: &str, words: &[&str]) -> Result<String, RowError> {
    match owner {
        "Integer" => integers::answer(alloc, name, words),
        "clone" => integers::of_copy(alloc, name, one(alloc, words)?),
        "octets" => octets::answer(alloc, name, words),
        "ConstrainedInteger" => bounded::answer(alloc, name, words),
        "from" | "try_into" | "refused" | "copied_refusal" => conversions::answer(
            alloc, owner, name, words,
        ),
        "callers" => callers::answer(alloc, name, words),
        "Oid" | "ObjectIdentifier" => identifiers::answer(alloc, owner, name, words),
        "contents" => contents::answer(alloc, name, words),
        _ => typed::answer(alloc, owner, name, words),
    }
}
