//! The functions of `ConstrainedInteger`.

use crate::numbers::spelled::text_of;
use asn1_number::{ConstrainedInteger, TryFromIntegerError};
use asn1_test_rows::{RowError, parse_word, show_value, wrong};
use std::alloc::Global;
use std::str::FromStr;

/// The numbers from -8 to 360.
type Bounded = ConstrainedInteger<-8, 360>;

/// A type without numbers.
type Empty = ConstrainedInteger<5, 3>;

/// Answers the calls of `ConstrainedInteger`. Its bounds are -8 and 360, unless the name says
/// otherwise.
pub fn answer(alloc: Global, name: &str, words: &[&str]) -> Result<String, RowError> {
    match words {
        [word] => of_word(alloc, name, word),
        [first, second] => is_below(alloc, first, second),
        _ => Err(wrong(alloc, name, "function of ConstrainedInteger")),
    }
}

fn of_word(alloc: Global, name: &str, word: &str) -> Result<String, RowError> {
    match name {
        "try_from_i64" => try_native::<i64>(alloc, word),
        "try_from_i128" => try_native::<i128>(alloc, word),
        "try_from_isize" => try_native::<isize>(alloc, word),
        _ => of_number(alloc, name, parse_word::<i32>(alloc, word)?),
    }
}

fn of_number(alloc: Global, name: &str, number: i32) -> Result<String, RowError> {
    match name {
        "try_from_i32" => try_number(alloc, Bounded::try_from(number)),
        "from_5_to_3" => try_number(alloc, Empty::try_from(number)),
        "into_original" => handed_back(alloc, Bounded::try_from(number)),
        "original" => lent_back(alloc, Bounded::try_from(number)),
        "into_inner" => taken_out(alloc, Bounded::try_from(number)),
        "clone" => compare_copy(alloc, Bounded::try_from(number)),
        _ => Err(wrong(alloc, name, "function of ConstrainedInteger")),
    }
}

/// Returns the number of a native type, or the error.
fn try_native<T>(alloc: Global, word: &str) -> Result<String, RowError>
where
    T: FromStr,
    T::Err: Drop,
    Bounded: TryFrom<T, Error = TryFromIntegerError>,
{
    try_number(alloc, Bounded::try_from(parse_word::<T>(alloc, word)?))
}

/// Returns the number, if it lies within the bounds.
fn bounded_number(alloc: Global, word: &str) -> Result<Bounded, RowError> {
    match Bounded::try_from(parse_word::<i32>(alloc, word)?) {
        Ok(number) => Ok(number),
        Err(_) => Err(wrong(alloc, word, "number within the bounds")),
    }
}

/// Returns the number, or the error.
fn try_number<const START: i64, const END: i64>(
    alloc: Global,
    number: Result<ConstrainedInteger<START, END>, TryFromIntegerError>,
) -> Result<String, RowError> {
    match number {
        Ok(number) => text_of(alloc, &number),
        Err(error) => show_value(alloc, error),
    }
}

/// Returns the number that an error has, by value.
fn handed_back(
    alloc: Global,
    number: Result<Bounded, TryFromIntegerError>,
) -> Result<String, RowError> {
    match number {
        Ok(_) => Err(wrong(alloc, "the number", "number past the bounds")),
        Err(error) => text_of(alloc, &error.into_original()),
    }
}

/// Returns the number that an error borrows.
fn lent_back(
    alloc: Global,
    number: Result<Bounded, TryFromIntegerError>,
) -> Result<String, RowError> {
    match number {
        Ok(_) => Err(wrong(alloc, "the number", "number past the bounds")),
        Err(error) => text_of(alloc, error.original()),
    }
}

/// Returns the number without its bounds.
fn taken_out(
    alloc: Global,
    number: Result<Bounded, TryFromIntegerError>,
) -> Result<String, RowError> {
    match number {
        Ok(number) => text_of(alloc, &number.into_inner()),
        Err(error) => show_value(alloc, error),
    }
}

/// Returns whether the copy of a number equals the number.
fn compare_copy(
    alloc: Global,
    number: Result<Bounded, TryFromIntegerError>,
) -> Result<String, RowError> {
    match number {
        Ok(number) => show_value(alloc, number.clone()? == number),
        Err(error) => show_value(alloc, error),
    }
}

/// Returns whether the first number is below the second.
fn is_below(alloc: Global, first: &str, second: &str) -> Result<String, RowError> {
    let first = bounded_number(alloc, first)?;
    show_value(alloc, first < bounded_number(alloc, second)?)
}
