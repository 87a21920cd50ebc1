//! The functions of `Integer`.

use crate::numbers::spelled::{integer, order_text, text_of};
use asn1_number::{Integer, IntegerError};
use asn1_test_rows::{RowError, hex_of, octets, optional, show_value, wrong};
use std::alloc::Global;
use std::convert::AsSlice;
use std::hash::{FoldHasher, Hash, Hasher};

/// Answers the calls of `Integer`: without words, of octets, of one number, or of two.
pub fn answer(alloc: Global, name: &str, words: &[&str]) -> Result<String, RowError> {
    match words {
        [] => constant(alloc, name),
        [word] if name.starts_with("from_") => of_octets(alloc, name, word),
        [word] => of_number(alloc, name, &integer(alloc, word)?),
        [first, second] => of_words(alloc, name, first, second),
        _ => Err(wrong(alloc, name, "function of three numbers")),
    }
}

fn of_octets(alloc: Global, name: &str, word: &str) -> Result<String, RowError> {
    read(alloc, name, octets(alloc, word)?.as_slice())
}

fn of_words(alloc: Global, name: &str, first: &str, second: &str) -> Result<String, RowError> {
    let first = integer(alloc, first)?;
    of_two(alloc, name, &first, &integer(alloc, second)?)
}

/// Answers the calls of `Integer` on a copy of the number.
pub fn of_copy(alloc: Global, name: &str, word: &str) -> Result<String, RowError> {
    of_number(alloc, name, &integer(alloc, word)?.clone()?)
}

fn constant(alloc: Global, name: &str) -> Result<String, RowError> {
    let number = match name {
        "zero" => Integer::zero(),
        "one" => Integer::one(),
        "default" => Integer::default(),
        _ => return Err(wrong(alloc, name, "number")),
    };
    text_of(alloc, &number)
}

fn read(alloc: Global, name: &str, octets: &[u8]) -> Result<String, RowError> {
    match name {
        "from_signed_octets" => read_text(alloc, Integer::from_signed_octets(alloc, octets)),
        "from_unsigned_octets" => read_text(alloc, Integer::from_unsigned_octets(alloc, octets)),
        _ => Err(wrong(alloc, name, "reading of octets")),
    }
}

/// Returns the number, or the error.
pub fn read_text(alloc: Global, read: Result<Integer, IntegerError>) -> Result<String, RowError> {
    match read {
        Ok(number) => text_of(alloc, &number),
        Err(error) => show_value(alloc, error),
    }
}

fn of_number(alloc: Global, name: &str, number: &Integer) -> Result<String, RowError> {
    match name {
        "signed_octets" => hex_of(alloc, number.signed_octets().as_ref()),
        "signed_len" => show_value(alloc, number.signed_len()),
        "unsigned_octets" if *number >= Integer::zero() => {
            hex_of(alloc, number.unsigned_octets().as_ref())
        }
        "to_i128" => optional(alloc, number.to_i128()),
        "to_i64" => optional(alloc, number.to_i64()),
        "to_u64" => optional(alloc, number.to_u64()),
        "to_u128" => optional(alloc, number.to_u128()),
        "is_negative" => show_value(alloc, number.is_negative()),
        "lent" => lent_octets(alloc, &number.signed_octets().clone()?),
        _ => Err(wrong(alloc, name, "function of such a number")),
    }
}

fn of_two(
    alloc: Global,
    name: &str,
    first: &Integer,
    second: &Integer,
) -> Result<String, RowError> {
    match name {
        "cmp" => show_value(alloc, order_text(first.cmp(second))),
        "eq" => show_value(alloc, first == second),
        "clone_eq" => is_copied(alloc, first, second),
        "lt" => show_value(alloc, first < second),
        "have_one_hash" => show_value(alloc, hash_of(first) == hash_of(second)),
        "octets_eq" => show_value(alloc, first.signed_octets() == second.signed_octets()),
        _ => made_of_two(alloc, name, first, second),
    }
}

/// Returns the sum, difference or product of two numbers within `i128`.
fn made_of_two(
    alloc: Global,
    name: &str,
    first: &Integer,
    second: &Integer,
) -> Result<String, RowError> {
    let made = match name {
        "checked_add" => first.checked_add(second),
        "checked_sub" => first.checked_sub(second),
        "checked_mul" => first.checked_mul(second),
        _ => return Err(wrong(alloc, name, "function of two numbers")),
    };
    match made {
        Some(number) => text_of(alloc, &number),
        None => show_value(alloc, "none"),
    }
}

/// Returns the octets of a value, borrowed by generic code.
fn lent_octets<T: AsSlice<u8>>(alloc: Global, lender: &T) -> Result<String, RowError> {
    hex_of(alloc, lender.as_slice())
}

/// Returns whether the copy of a number equals another number.
fn is_copied(alloc: Global, number: &Integer, other: &Integer) -> Result<String, RowError> {
    show_value(alloc, number.clone()? == *other)
}

fn hash_of(number: &Integer) -> u64 {
    let mut hasher = FoldHasher::default();
    number.hash(&mut hasher);
    hasher.finish()
}
