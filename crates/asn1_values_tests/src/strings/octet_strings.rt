//! Octet strings.

use asn1_strings::OctetString;
use asn1_test_rows::{RowError, hex_of, octets, show_value, wrong};
use bytes::Bytes;
use std::alloc::Global;
use std::collections::HashSet;
use std::convert::AsSlice;

/// Answers the calls on octet strings: without words, of octets, or of two lists of octets.
pub fn answer(alloc: Global, name: &str, words: &[&str]) -> Result<String, RowError> {
    match words {
        [] => constant(alloc, name),
        [word] => of_octets(alloc, name, octets(alloc, word)?),
        [first, second] => of_two(
            alloc,
            name,
            &OctetString::from_slice(alloc, octets(alloc, first)?.as_slice())?,
            octets(alloc, second)?.as_slice(),
        ),
        _ => Err(wrong(alloc, name, "function of octet strings")),
    }
}

fn constant(alloc: Global, name: &str) -> Result<String, RowError> {
    match name {
        "from_static" => text_of(alloc, &OctetString::from_static(&[0x01, 0x80, 0xFF])),
        "from_array" => text_of(alloc, &OctetString::from_array(alloc, [0x01, 0x80, 0xFF])?),
        "default" => text_of(alloc, &OctetString::default()),
        _ => Err(wrong(alloc, name, "octet string")),
    }
}

fn text_of(alloc: Global, string: &OctetString) -> Result<String, RowError> {
    hex_of(alloc, string.as_ref())
}

/// Answers the calls that make a string, by its octets.
fn of_octets(alloc: Global, name: &str, octets: Vec<u8>) -> Result<String, RowError> {
    match name {
        "from_slice" => from_slice(alloc, octets.as_slice()),
        "from_vec" => from_vec(alloc, octets),
        "from_bytes" => from_bytes(alloc, octets),
        "from_bytes_ref" => from_bytes_ref(alloc, octets),
        "into_bytes" => into_bytes(alloc, of_vector(alloc, octets)?),
        "clone" => copy_string(alloc, octets),
        _ => of_string(alloc, name, &of_vector(alloc, octets)?),
    }
}

/// Answers the calls on a string.
fn of_string(alloc: Global, name: &str, string: &OctetString) -> Result<String, RowError> {
    match name {
        "len" => show_value(alloc, string.len()),
        "is_empty" => show_value(alloc, string.is_empty()),
        "as_slice" => lent_octets(alloc, string),
        _ => Err(wrong(alloc, name, "function of octets")),
    }
}

/// Returns the octets of a value, borrowed by generic code.
pub fn lent_octets<T: AsSlice<u8>>(alloc: Global, lender: &T) -> Result<String, RowError> {
    hex_of(alloc, lender.as_slice())
}

fn from_slice(alloc: Global, octets: &[u8]) -> Result<String, RowError> {
    text_of(alloc, &OctetString::from_slice(alloc, octets)?)
}

fn from_vec(alloc: Global, octets: Vec<u8>) -> Result<String, RowError> {
    text_of(alloc, &of_vector(alloc, octets)?)
}

fn from_bytes(alloc: Global, octets: Vec<u8>) -> Result<String, RowError> {
    text_of(
        alloc,
        &OctetString::from_bytes(share_octets(alloc, octets)?),
    )
}

fn from_bytes_ref(alloc: Global, octets: Vec<u8>) -> Result<String, RowError> {
    text_of(
        alloc,
        &OctetString::from_bytes_ref(&share_octets(alloc, octets)?)?,
    )
}

fn copy_string(alloc: Global, octets: Vec<u8>) -> Result<String, RowError> {
    text_of(alloc, &of_vector(alloc, octets)?.clone()?)
}

fn of_vector(alloc: Global, octets: Vec<u8>) -> Result<OctetString, RowError> {
    match OctetString::from_vec(octets) {
        Ok(string) => Ok(string),
        Err(_) => Err(wrong(alloc, "the vector", "octet string")),
    }
}

/// Returns the octets of a string that shares them with a vector.
fn share_octets(alloc: Global, octets: Vec<u8>) -> Result<Bytes, RowError> {
    Ok(of_vector(alloc, octets)?.to_bytes(alloc)?)
}

fn into_bytes(alloc: Global, string: OctetString) -> Result<String, RowError> {
    match string.into_bytes(alloc) {
        Ok(back) => hex_of(alloc, back.as_slice()),
        Err(_) => show_value(alloc, "the string came back"),
    }
}

fn of_two(
    alloc: Global,
    name: &str,
    first: &OctetString,
    octets: &[u8],
) -> Result<String, RowError> {
    let second = OctetString::from_slice(alloc, octets)?;
    match name {
        "lt" => show_value(alloc, *first < second),
        "eq" => show_value(alloc, *first == second),
        "eq_bytes" => show_value(alloc, first.eq_bytes(octets)),
        "is_found" => is_found(alloc, second, first),
        _ => Err(wrong(alloc, name, "function of two octet strings")),
    }
}

/// Returns whether a set with the first string has the second.
fn is_found(alloc: Global, first: OctetString, second: &OctetString) -> Result<String, RowError> {
    let mut seen = HashSet::new(alloc);
    seen.insert(first)?;
    show_value(alloc, seen.contains(second))
}
