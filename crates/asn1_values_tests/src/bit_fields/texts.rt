//! The texts of errors, by their names and numbers.

use crate::bit_fields::words::{push_shown, size};
use asn1_values::{ReadError, WriteError};
use std::alloc::Global;

/// Answers `NAME NUMBER ..`: the text of an error to write.
pub fn writing(alloc: Global, text: &mut String, words: &[&str]) -> Option<()> {
    push_shown(alloc, text, write_error(words)?)
}

fn write_error(words: &[&str]) -> Option<WriteError> {
    match words {
        ["TooLong"] => Some(WriteError::TooLong),
        ["Memory"] => Some(WriteError::Memory),
        [name, field] => write_error_at(name, size(field)?),
        [name, field, number] => write_error_of(name, size(field)?, number),
        _ => None,
    }
}

fn write_error_at(name: &str, field: usize) -> Option<WriteError> {
    match name {
        "Number" => Some(WriteError::Number { field }),
        "IntegerLength" => Some(WriteError::IntegerLength { field }),
        "ArcCount" => Some(WriteError::ArcCount { field }),
        _ => None,
    }
}

fn write_error_of(name: &str, field: usize, number: &str) -> Option<WriteError> {
    match name {
        "NumberWidth" => Some(WriteError::NumberWidth {
            field,
            width: size(number)?,
        }),
        "Character" => Some(WriteError::Character {
            field,
            character: number.parse::<u32>().ok()?,
        }),
        _ => None,
    }
}

/// Answers `NAME NUMBER ..`: the text of an error to read.
pub fn reading(alloc: Global, text: &mut String, words: &[&str]) -> Option<()> {
    push_shown(alloc, text, read_error(words)?)
}

fn read_error(words: &[&str]) -> Option<ReadError> {
    match words {
        ["Memory"] => Some(ReadError::Memory),
        [name, field] => read_error_at(name, size(field)?),
        [name, field, number] => read_error_of(name, size(field)?, number),
        _ => None,
    }
}

fn read_error_at(name: &str, field: usize) -> Option<ReadError> {
    match name {
        "Integer" => Some(ReadError::Integer { field }),
        "Identifier" => Some(ReadError::Identifier { field }),
        "Arc" => Some(ReadError::Arc { field }),
        _ => None,
    }
}

fn read_error_of(name: &str, field: usize, number: &str) -> Option<ReadError> {
    match name {
        "NumberWidth" => Some(ReadError::NumberWidth {
            field,
            width: size(number)?,
        }),
        "Character" => Some(ReadError::Character {
            field,
            code: number.parse::<u32>().ok()?,
        }),
        "Short" => Some(ReadError::Short {
            field,
            bits: number.parse::<u128>().ok()?,
        }),
        "Length" => Some(ReadError::Length {
            field,
            octet: number.parse::<u8>().ok()?,
        }),
        _ => None,
    }
}
