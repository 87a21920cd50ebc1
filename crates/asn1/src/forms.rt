//! The forms in which octets are read and written.

ghost use Rattle.std.specs.Prelude.{◌≡◌, ◌||◌, true, false};
ghost use Rattle.std.specs.List.{list_all, list_any};
ghost use Rattle.asn1.specs.Forms.{begins_block, has_block, has_later_block, is_digit, is_of_digits, is_white};

use crate::pem::{blocks_of, text_of_block};
use base64::DecodeAllocError;
use base64::engine::general_purpose::STANDARD;
use hex::FromHexError;
use std::alloc::{AllocError, AllocFailed, Global};
use std::simd::prelude::*;
use thiserror::Error;

/// How many octets are examined at a time.
const GROUP: usize = 16;

/// A form of octets.
#[derive(Clone, Copy, Debug, PartialEq, Eq)]
pub enum Form {
    /// The octets themselves.
    Binary,
    /// Hexadecimal digits.
    Hex,
    /// Base64 (RFC 4648 4).
    Base64,
    /// Blocks of Base64 between lines with a label (RFC 7468).
    Pem,
}

impl Form {
    /// Returns the form with a name. `None` if there is none.
    pub fn named(name: &str) -> Option<Form> {
        match name {
            "binary" => Some(Form::Binary),
            "hex" => Some(Form::Hex),
            "base64" => Some(Form::Base64),
            "pem" => Some(Form::Pem),
            _ => None,
        }
    }
}

/// Why an input of a form is invalid.
#[derive(Clone, Copy, Debug, PartialEq, Eq, Error)]
pub enum FormProblem {
    /// An octet is no hexadecimal digit.
    #[error("expected a hexadecimal digit")]
    NotHex,
    /// There is a digit without the other one of its octet.
    #[error("the number of hexadecimal digits is odd")]
    OddDigits,
    /// A character is not of Base64.
    #[error("expected a character of Base64")]
    NotBase64,
    /// The characters are of Base64 and encode no octets.
    #[error("the characters are no complete Base64")]
    Base64,
    /// There is no block.
    #[error("there is no line `-----BEGIN`")]
    NoBlock,
    /// A line begins or ends a block where that is not permitted, or the labels differ.
    #[error("the line ends no block that is open, or begins one in another")]
    Boundary,
    /// The last block has no end.
    #[error("the block has no line `-----END`")]
    OpenBlock,
    /// Out of memory.
    #[error("out of memory")]
    Memory,
}

/// The first invalid octet of an input.
#[derive(Clone, Copy, Debug, PartialEq, Eq, Error)]
#[error("octet {at}: {problem}")]
pub struct FormError {
    /// The index of the octet.
    pub at: usize,
    /// Why it is invalid.
    pub problem: FormProblem,
}

impl From<AllocError> for FormError {
    fn from(_error: AllocError) -> FormError {
        form_error(0, FormProblem::Memory)
    }
}

impl<T: Drop> From<AllocFailed<T>> for FormError {
    fn from(_error: AllocFailed<T>) -> FormError {
        form_error(0, FormProblem::Memory)
    }
}

/// Returns an error at an octet.
pub fn form_error(at: usize, problem: FormProblem) -> FormError {
    FormError { at, problem }
}

/// Returns whether octets begin with `-----BEGIN `.
fn begins_block(octets: &[u8]) -> bool
    ensures { result ≡ begins_block octets.now }
{
    octets.starts_with(b"-----BEGIN ")
}

/// Returns whether a line after the first one begins with `-----BEGIN `.
fn has_later_block(octets: &[u8]) -> bool
    ensures { result ≡ has_later_block octets.now }
{
    let mut rest = octets;
    while let Some((first, others)) = rest.split_first() {
        if *first == b'\n' && begins_block(others) {
            return true;
        }
        rest = others;
    }
    false
}

/// Returns whether an octet is a hexadecimal digit.
fn is_digit(octet: u8) -> bool
    ensures { result ≡ is_digit octet }
{
    (48 <= octet && octet <= 57) || (65 <= octet && octet <= 70) || (97 <= octet && octet <= 102)
}

/// Returns whether an octet is white space.
fn is_white(octet: u8) -> bool
    ensures { result ≡ is_white octet }
{
    octet == 32 || octet == 9 || octet == 10 || octet == 13
}

/// Returns whether an octet is a hexadecimal digit or white space.
fn is_of_hex(octet: u8) -> bool
    ensures { result ≡ (is_digit octet || is_white octet) }
{
    is_digit(octet) || is_white(octet)
}

/// Returns whether octets are hexadecimal digits and white space.
fn are_of_hex(octets: &[u8]) -> bool
    ensures { result ≡ list_all (λ octet. is_digit octet || is_white octet) octets.now }
{
    octets.iter().all(|octet| is_of_hex(*octet))
}

/// Returns whether there is a hexadecimal digit.
fn has_digit(octets: &[u8]) -> bool
    ensures { result ≡ list_any is_digit octets.now }
{
    octets.iter().any(|octet| is_digit(*octet))
}

/// Returns the form that octets are recognised as. It is never `Base64`.
pub fn form_of(octets: &[u8]) -> Form
    ensures pem { has_block octets.now ≡ true → result ≡ Form.Pem }
    ensures hex { has_block octets.now ≡ false → is_of_digits octets.now ≡ true
        → result ≡ Form.Hex }
    ensures binary { has_block octets.now ≡ false → is_of_digits octets.now ≡ false
        → result ≡ Form.Binary }
{
    if begins_block(octets) || has_later_block(octets) {
        Form::Pem
    } else if are_of_hex(octets) && has_digit(octets) {
        Form::Hex
    } else {
        Form::Binary
    }
}

/// Returns the octets of each value of an input. Only an input of PEM may have several.
///
/// # Errors
///
/// Returns the first octet that is not of the form, or `Memory`.
pub fn values_of(alloc: Global, form: Form, input: &[u8]) -> Result<Vec<Vec<u8>>, FormError> {
    let value = match form {
        Form::Pem => return blocks_of(alloc, input),
        Form::Binary => Vec::from_slice(alloc, input)?,
        Form::Hex => octets_of_hex(alloc, input)?,
        Form::Base64 => octets_of_base64(alloc, input, 0)?,
    };
    let mut values = Vec::new(alloc);
    values.push(value)?;
    Ok(values)
}

/// Returns the octets of hexadecimal digits, among which there may be white space.
///
/// # Errors
///
/// Returns the first octet that is no digit, or the end of an odd number of digits.
fn octets_of_hex(alloc: Global, input: &[u8]) -> Result<Vec<u8>, FormError> {
    let mut digits = Vec::new(alloc);
    for (at, octet) in input.iter().enumerate() {
        if is_digit(*octet) {
            digits.push(*octet)?;
        } else if !is_white(*octet) {
            return Err(form_error(at, FormProblem::NotHex));
        }
    }
    match hex::decode(alloc, digits.as_slice()) {
        Ok(octets) => Ok(octets),
        Err(FromHexError::OutOfMemory) => Err(form_error(0, FormProblem::Memory)),
        Err(_) => Err(form_error(input.len(), FormProblem::OddDigits)),
    }
}

/// Returns how many octets precede the first one from `least` to `greatest`, or how many there are if none is.
pub fn count_before(octets: &[u8], least: u8, greatest: u8) -> usize {
    let (groups, _) = octets.as_chunks::<GROUP>();
    let mut count = 0usize;
    for group in groups {
        let group = u8x16::from_array(*group);
        let is_end = group.simd_ge(u8x16::splat(least)) & group.simd_le(u8x16::splat(greatest));
        if is_end.any() {
            break;
        }
        count = count.saturating_add(GROUP);
    }
    for octet in octets.get(count..).unwrap_or(&[]) {
        if least <= *octet && *octet <= greatest {
            break;
        }
        count = count.saturating_add(1);
    }
    count
}

/// Returns whether an octet is a character of Base64, or its padding.
fn is_of_base64(octet: u8) -> bool {
    octet.is_ascii_alphanumeric() || octet == b'+' || octet == b'/' || octet == b'='
}

/// Returns the octets of Base64, among which there may be white space. `from` is the index of its
/// first octet in the input.
///
/// # Errors
///
/// Returns the first octet that is not of Base64, or the end of what encodes no octets.
pub fn octets_of_base64(alloc: Global, input: &[u8], from: usize) -> Result<Vec<u8>, FormError> {
    let mut characters = Vec::with_capacity(alloc, input.len())?;
    let mut rest = input;
    for _ in 0..input.len() {
        let count = count_before(rest, 0, 32);
        characters.extend_from_slice(rest.get(..count).unwrap_or(&[]))?;
        match rest.get(count..).unwrap_or(&[]) {
            [first, others @ ..] if is_white(*first) => rest = others,
            [] => break,
            _ => return Err(fault_of_base64(input, from)),
        }
    }
    match STANDARD.decode(alloc, characters.as_slice()) {
        Ok(octets) => Ok(octets),
        Err(DecodeAllocError::OutOfMemory) => Err(form_error(0, FormProblem::Memory)),
        Err(_) => Err(fault_of_base64(input, from)),
    }
}

/// Returns the error of octets that are not of Base64, or of all that encode no octets.
fn fault_of_base64(input: &[u8], from: usize) -> FormError {
    for (index, octet) in input.iter().enumerate() {
        if !is_of_base64(*octet) && !is_white(*octet) {
            return form_error(from.saturating_add(index), FormProblem::NotBase64);
        }
    }
    form_error(from.saturating_add(input.len()), FormProblem::Base64)
}

/// Returns octets in a form. Lines of text end with the end of a line; `label` is that of a block of
/// PEM.
///
/// # Errors
///
/// Returns an error if out of memory.
pub fn written_as(
    alloc: Global,
    form: Form,
    label: &str,
    octets: &[u8],
) -> Result<Vec<u8>, AllocError> {
    let text = match form {
        Form::Binary => return Vec::from_slice(alloc, octets),
        Form::Hex => hex::encode_upper(alloc, octets)?,
        Form::Base64 => STANDARD.encode(alloc, octets)?,
        Form::Pem => text_of_block(alloc, label, octets)?,
    };
    let mut written = Vec::from_slice(alloc, text.as_bytes())?;
    if form != Form::Pem {
        written.push(b'\n')?;
    }
    Ok(written)
}
