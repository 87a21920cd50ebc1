//! Conversions of `Integer` from and to each native type.

use crate::numbers::spelled::{integer, text_of};
use asn1_number::{Integer, TryFromIntegerError};
use asn1_test_rows::{RowError, hex_of, one, outcome, parse_word, show_value, wrong};
use std::alloc::Global;
use std::fmt::Display;
use std::str::FromStr;

/// Answers the calls of conversions of a native type.
pub fn answer(alloc: Global, call: &str, native: &str, words: &[&str]) -> Result<String, RowError> {
    let word = one(alloc, words)?;
    match native {
        "u8" => of_native::<u8>(alloc, call, word),
        "i8" => of_native::<i8>(alloc, call, word),
        "u16" => of_native::<u16>(alloc, call, word),
        "i16" => of_native::<i16>(alloc, call, word),
        "u32" => of_native::<u32>(alloc, call, word),
        "i32" => of_native::<i32>(alloc, call, word),
        "u64" => of_native::<u64>(alloc, call, word),
        "i64" => of_native::<i64>(alloc, call, word),
        _ => of_wide(alloc, call, native, word),
    }
}

/// Answers the calls of conversions of the types of 128 bits, `isize` and `usize`.
fn of_wide(alloc: Global, call: &str, native: &str, word: &str) -> Result<String, RowError> {
    match native {
        "u128" => given_to(alloc, call, u128::try_from(integer(alloc, word)?)),
        "i128" => of_native::<i128>(alloc, call, word),
        "usize" => of_native::<usize>(alloc, call, word),
        "isize" => of_native::<isize>(alloc, call, word),
        _ => Err(wrong(alloc, native, "native type")),
    }
}

fn of_native<T>(alloc: Global, call: &str, word: &str) -> Result<String, RowError>
where
    T: TryFrom<Integer, Error = TryFromIntegerError> + FromStr + Display + Drop,
    T::Err: Drop,
    Integer: From<T>,
{
    match call {
        "from" => octets_text(alloc, &Integer::from(parse_word::<T>(alloc, word)?)),
        _ => given_to(alloc, call, T::try_from(integer(alloc, word)?)),
    }
}

fn octets_text(alloc: Global, number: &Integer) -> Result<String, RowError> {
    hex_of(alloc, number.signed_octets().as_ref())
}

/// Returns the number as the native type, or of the error the text, its number, or the number of
/// its copy.
fn given_to<T: Display + Drop>(
    alloc: Global,
    call: &str,
    tried: Result<T, TryFromIntegerError>,
) -> Result<String, RowError> {
    match (call, tried) {
        ("refused", Err(refused)) => text_of(alloc, &refused.into_original()),
        ("copied_refusal", Err(refused)) => copy_of(alloc, refused),
        (_, tried) => outcome(alloc, tried),
    }
}

/// Returns the number of the copy of an error, if the copy equals the error.
fn copy_of(alloc: Global, refused: TryFromIntegerError) -> Result<String, RowError> {
    let copy = refused.clone()?;
    if copy != refused {
        return Ok(String::from_str(alloc, "another")?);
    }
    text_of(alloc, &copy.into_original())
}
