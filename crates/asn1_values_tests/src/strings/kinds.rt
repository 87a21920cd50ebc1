//! The calls that only some strings have: octets and conversions.

use asn1_strings::{
    AsText, BmpString, General, Graphic, HasAsBytes, HasFromBytes, Ia5, IsIso646, Numeric,
    PermittedAlphabetError, Printable, RestrictedString, StaticPermittedAlphabet, Teletex,
    Utf8String, Visible,
};
use asn1_test_rows::{RowError, hex_of, octets, show_value, two, wrong};
use std::alloc::Global;

/// Answers a call on a string by its name and octets.
pub fn answer(alloc: Global, name: &str, words: &[&str]) -> Result<String, RowError> {
    let (kind, word) = two(alloc, words)?;
    let octets = octets(alloc, word)?;
    let octets = octets.as_slice();
    match kind {
        "BmpString" => of_bmp(alloc, BmpString::try_from_slice(alloc, octets)),
        "GeneralString" => of_octets::<General>(alloc, octets),
        "GraphicString" => of_octets::<Graphic>(alloc, octets),
        "NumericString" if name.contains("str") => of_read_text::<Numeric>(alloc, name, octets),
        "PrintableString" if name.contains("str") => of_read_text::<Printable>(alloc, name, octets),
        "NumericString" => of_octets::<Numeric>(alloc, octets),
        "PrintableString" => of_octets::<Printable>(alloc, octets),
        "TeletexString" => of_teletex(alloc, RestrictedString::from_bytes(alloc, octets)),
        "Ia5String" => of_iso646::<Ia5>(alloc, name, octets),
        "VisibleString" => of_iso646::<Visible>(alloc, name, octets),
        _ => Err(wrong(alloc, kind, "string")),
    }
}

/// Returns the octets of a string by `from_bytes` and `as_bytes`.
fn of_octets<K: HasFromBytes + HasAsBytes>(
    alloc: Global,
    octets: &[u8],
) -> Result<String, RowError> {
    match RestrictedString::<K>::from_bytes(alloc, octets) {
        Ok(string) => hex_of(alloc, string.as_bytes()),
        Err(error) => show_value(alloc, error),
    }
}

/// Returns the octets of a string by `to_bytes`.
fn of_bmp(
    alloc: Global,
    read: Result<BmpString, PermittedAlphabetError>,
) -> Result<String, RowError> {
    match read {
        Ok(string) => hex_of(alloc, string.to_bytes()?.as_slice()),
        Err(error) => show_value(alloc, error),
    }
}

/// Returns the octets of a string by `from_bytes` and `to_bytes`.
fn of_teletex(
    alloc: Global,
    read: Result<RestrictedString<Teletex>, PermittedAlphabetError>,
) -> Result<String, RowError> {
    match read {
        Ok(string) => hex_of(alloc, string.to_bytes()?.as_slice()),
        Err(error) => show_value(alloc, error),
    }
}

fn of_iso646<K: IsIso646>(alloc: Global, name: &str, octets: &[u8]) -> Result<String, RowError> {
    match RestrictedString::<K>::from_iso646_bytes(alloc, octets) {
        Ok(string) => of_text(alloc, name, string),
        Err(error) => show_value(alloc, error),
    }
}

fn of_text<K: IsIso646>(
    alloc: Global,
    name: &str,
    string: RestrictedString<K>,
) -> Result<String, RowError> {
    match name {
        "as_iso646_bytes" => hex_of(alloc, string.as_iso646_bytes()),
        "fmt" => show_value(alloc, string),
        "into_octet_string" => into_octets(alloc, string),
        _ => of_ascii(alloc, name, string),
    }
}

/// Answers the calls on a string of ASCII that is read from octets.
fn of_read_text<K: AsText>(alloc: Global, name: &str, octets: &[u8]) -> Result<String, RowError> {
    match RestrictedString::<K>::try_from_slice(alloc, octets) {
        Ok(string) => of_ascii(alloc, name, string),
        Err(error) => show_value(alloc, error),
    }
}

fn of_ascii<K: AsText>(
    alloc: Global,
    name: &str,
    string: RestrictedString<K>,
) -> Result<String, RowError> {
    match name {
        "as_str" => show_value(alloc, string.as_str()),
        "into_string" => into_string(alloc, string.into_string()),
        _ => Err(wrong(alloc, name, "function of a text")),
    }
}

fn into_string(alloc: Global, text: Utf8String) -> Result<String, RowError> {
    hex_of(alloc, text.as_bytes())
}

fn into_octets<K: IsIso646>(
    alloc: Global,
    string: RestrictedString<K>,
) -> Result<String, RowError> {
    match string.into_octet_string() {
        Ok(octets) => hex_of(alloc, octets.as_ref()),
        Err(_) => show_value(alloc, "the string came back"),
    }
}
