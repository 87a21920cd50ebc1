//! The functions of `IntegerType`, at each of its types.

ghost use Rattle.std.specs.Prelude.{ℤ};
ghost use Rattle.asn1_integer.specs.Calls.{IsNonNegativeUnlessNative};

use crate::numbers::spelled::{integer, text_of};
use asn1_integer::{Integer, IntegerError, IntegerType};
use asn1_test_rows::{RowError, hex_of, number, octets, optional, show_value, wrong};
use std::alloc::Global;

/// Answers the calls of a type: a native type by its name, or `Integer` by the name of the trait.
pub fn answer(alloc: Global, owner: &str, name: &str, words: &[&str]) -> Result<String, RowError> {
    match owner {
        "u8" => of_native::<u8, u8, i16>(alloc, name, words),
        "i8" => of_native::<i8, u8, i8>(alloc, name, words),
        "u16" => of_native::<u16, u16, i32>(alloc, name, words),
        "i16" => of_native::<i16, u16, i16>(alloc, name, words),
        "u32" => of_native::<u32, u32, i64>(alloc, name, words),
        "i32" => of_native::<i32, u32, i32>(alloc, name, words),
        "u64" => of_native::<u64, u64, i128>(alloc, name, words),
        "i64" => of_native::<i64, u64, i64>(alloc, name, words),
        _ => wide(alloc, owner, name, words),
    }
}

/// Answers the calls of the types of 128 bits, of `isize`, `usize` and `Integer`.
fn wide(alloc: Global, owner: &str, name: &str, words: &[&str]) -> Result<String, RowError> {
    match owner {
        "u128" => of_native::<u128, u128, i128>(alloc, name, words),
        "i128" => of_native::<i128, u128, i128>(alloc, name, words),
        "usize" => of_native::<usize, usize, i128>(alloc, name, words),
        "isize" => of_native::<isize, usize, isize>(alloc, name, words),
        "IntegerType" => of_integer(alloc, name, words),
        _ => Err(wrong(alloc, owner, "type")),
    }
}

/// Answers the calls of a native type with its pairs.
fn of_native<T, U, S>(alloc: Global, name: &str, words: &[&str]) -> Result<String, RowError>
where
    T: IntegerType<UnsignedPair = U, SignedPair = S> + Drop,
    U: IntegerType + Drop,
    requires { (n : ℤ) → IsNonNegativeUnlessNative T.kind n }
{
    match words {
        [word] if name == "to_unsigned_bytes_be" => residue(alloc, &value::<T>(alloc, word)?),
        _ => of_type::<T, U, S>(alloc, name, words),
    }
}

/// Answers the calls of `Integer`.
fn of_integer(alloc: Global, name: &str, words: &[&str]) -> Result<String, RowError> {
    match words {
        [word] if name == "to_unsigned_bytes_be" => {
            residue_of_integer(alloc, &integer(alloc, word)?)
        }
        _ => of_type::<Integer, Integer, Integer>(alloc, name, words),
    }
}

/// Answers the calls of a type: of no word, of one, or of two.
fn of_type<T, U, S>(alloc: Global, name: &str, words: &[&str]) -> Result<String, RowError>
where
    T: IntegerType<UnsignedPair = U, SignedPair = S> + Drop,
    U: IntegerType + Drop,
{
    match words {
        [] => constant::<T>(alloc, name),
        [word] if name.ends_with("_bytes") => of_octets::<T>(alloc, name, word),
        [word] => of_word::<T>(alloc, name, word),
        [first, second] if name == "wrapping_unsigned_add" => {
            add_pair::<T, U, S>(alloc, first, second)
        }
        [first, second] => of_two::<T>(alloc, name, first, second),
        _ => Err(wrong(alloc, name, "function of IntegerType")),
    }
}

fn of_octets<T: IntegerType>(alloc: Global, name: &str, word: &str) -> Result<String, RowError> {
    read::<T>(alloc, name, octets(alloc, word)?.as_slice())
}

fn of_word<T: IntegerType + Drop>(
    alloc: Global,
    name: &str,
    word: &str,
) -> Result<String, RowError> {
    match name {
        "try_from_i128" => text_or_none(alloc, T::try_from_i128(number(alloc, word)?)),
        "from_integer" => text_or_none(alloc, T::from_integer(&integer(alloc, word)?)),
        _ => of_value(alloc, name, value::<T>(alloc, word)?),
    }
}

fn constant<T: IntegerType>(alloc: Global, name: &str) -> Result<String, RowError> {
    match name {
        "WIDTH" => show_value(alloc, T::WIDTH),
        "BYTE_WIDTH" => show_value(alloc, T::BYTE_WIDTH),
        "zero" => value_text(alloc, T::zero()),
        _ => Err(wrong(alloc, name, "constant of IntegerType")),
    }
}

fn read<T: IntegerType>(alloc: Global, name: &str, octets: &[u8]) -> Result<String, RowError> {
    match name {
        "try_from_bytes" => read_text(alloc, T::try_from_bytes(alloc, octets)),
        "try_from_signed_bytes" => read_text(alloc, T::try_from_signed_bytes(alloc, octets)),
        "try_from_unsigned_bytes" => read_text(alloc, T::try_from_unsigned_bytes(alloc, octets)),
        _ => Err(wrong(alloc, name, "reading of octets")),
    }
}

fn of_value<T: IntegerType + Drop>(
    alloc: Global,
    name: &str,
    value: T,
) -> Result<String, RowError> {
    match name {
        "to_signed_bytes_be" => hex_of(alloc, value.to_signed_bytes_be().as_ref()),
        "is_negative" => show_value(alloc, value.is_negative()),
        "is_signed" => show_value(alloc, value.is_signed()),
        "to_i128" => optional(alloc, value.to_i128()),
        "to_integer" => value_text(alloc, value),
        _ => Err(wrong(alloc, name, "function of a value")),
    }
}

fn of_two<T: IntegerType + Drop>(
    alloc: Global,
    name: &str,
    first: &str,
    second: &str,
) -> Result<String, RowError> {
    let first = value::<T>(alloc, first)?;
    let second = value::<T>(alloc, second)?;
    match name {
        "checked_add" => text_or_none(alloc, first.checked_add(&second)),
        "checked_sub" => text_or_none(alloc, first.checked_sub(&second)),
        _ => Err(wrong(alloc, name, "function of two values")),
    }
}

/// Returns the sum of a number and one of the type's unsigned pair. The signed pair is only named.
fn add_pair<T, U, S>(alloc: Global, first: &str, second: &str) -> Result<String, RowError>
where
    T: IntegerType<UnsignedPair = U, SignedPair = S> + Drop,
    U: IntegerType + Drop,
{
    let number = value::<T>(alloc, first)?;
    text_or_none(
        alloc,
        number.wrapping_unsigned_add(value::<U>(alloc, second)?),
    )
}

fn residue<T: IntegerType>(alloc: Global, value: &T) -> Result<String, RowError>
    requires { (n : ℤ) → IsNonNegativeUnlessNative T.kind n }
{
    hex_of(alloc, value.to_unsigned_bytes_be().as_ref())
}

/// Returns the unsigned octets of an `Integer`.
fn residue_of_integer(alloc: Global, number: &Integer) -> Result<String, RowError> {
    if *number < Integer::zero() {
        return Err(wrong(alloc, "the number", "number from 0 on"));
    }
    hex_of(alloc, number.to_unsigned_bytes_be().as_ref())
}

/// Returns the value of a type that a word encodes.
fn value<T: IntegerType>(alloc: Global, word: &str) -> Result<T, RowError> {
    let number = integer(alloc, word)?;
    match T::try_from_signed_bytes(alloc, number.signed_octets().as_ref()) {
        Ok(value) => Ok(value),
        Err(_) => Err(wrong(alloc, word, "number of the type")),
    }
}

fn value_text<T: IntegerType>(alloc: Global, value: T) -> Result<String, RowError> {
    text_of(alloc, &value.to_integer(alloc)?)
}

/// Returns the value as text, or `none`.
fn text_or_none<T: IntegerType>(alloc: Global, value: Option<T>) -> Result<String, RowError> {
    match value {
        Some(value) => value_text(alloc, value),
        None => Ok(String::from_str(alloc, "none")?),
    }
}

/// Returns the value as text, or the error.
fn read_text<T: IntegerType>(
    alloc: Global,
    value: Result<T, IntegerError>,
) -> Result<String, RowError> {
    match value {
        Ok(value) => value_text(alloc, value),
        Err(error) => show_value(alloc, error),
    }
}
