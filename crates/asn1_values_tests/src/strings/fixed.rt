//! Octet strings of a fixed length.

ghost use Rattle.std.specs.Prelude.{◌≡◌, ◌∷◌, []};

use crate::strings::octet_strings::lent_octets;
use asn1_strings::{FixedOctetString, OctetString};
use asn1_test_rows::{RowError, hex_of, octets, show_value, two, wrong};
use std::alloc::Global;

/// Answers the calls on octet strings of a fixed length: of the length, and of octets.
pub fn answer(alloc: Global, name: &str, words: &[&str]) -> Result<String, RowError> {
    let (length, word) = two(alloc, words)?;
    let octets = octets(alloc, word)?;
    match length {
        "2" => overwrite_octets(alloc),
        "3" => three_of_vector(alloc, octets),
        "4" => of_four(alloc, name, octets),
        "5" => five_of_string(alloc, octets.as_slice()),
        _ => Err(wrong(alloc, length, "length")),
    }
}

fn of_four(alloc: Global, name: &str, octets: Vec<u8>) -> Result<String, RowError> {
    match name {
        "try_from_slice" => octets_or_none(
            alloc,
            FixedOctetString::try_from_slice(octets.as_slice()),
        ),
        "try_from_vec" => four_of_vector(alloc, octets),
        "try_from_octet_string" => four_of_string(alloc, octets.as_slice()),
        "new" => make_string(alloc, octets.as_slice()),
        "from" => convert_octets(alloc, octets.as_slice()),
        "is_above_default" => above_default(alloc, octets.as_slice()),
        "default" => default_text(alloc),
        "try_from" => convert_slice(alloc, octets.as_slice()),
        _ => Err(wrong(alloc, name, "function of octets")),
    }
}

fn octets_or_none(alloc: Global, string: Option<FixedOctetString<4>>) -> Result<String, RowError> {
    match string {
        Some(string) => hex_of(alloc, string.as_slice()),
        None => show_value(alloc, "none"),
    }
}

/// Returns the octets of the string of four octets, or those of the vector that is returned as the
/// error.
fn four_of_vector(alloc: Global, octets: Vec<u8>) -> Result<String, RowError> {
    match FixedOctetString::<4>::try_from_vec(octets) {
        Ok(string) => hex_of(alloc, string.as_slice()),
        Err(back) => came_back(alloc, back.as_slice()),
    }
}

/// Returns the same for three octets.
fn three_of_vector(alloc: Global, octets: Vec<u8>) -> Result<String, RowError> {
    match FixedOctetString::<3>::try_from_vec(octets) {
        Ok(string) => hex_of(alloc, string.as_slice()),
        Err(back) => came_back(alloc, back.as_slice()),
    }
}

fn four_of_string(alloc: Global, octets: &[u8]) -> Result<String, RowError> {
    let string = OctetString::from_slice(alloc, octets)?;
    octets_or_none(alloc, FixedOctetString::try_from_octet_string(&string))
}

/// Returns the octets of a string of five octets, or `none` if there are not five.
fn five_of_string(alloc: Global, octets: &[u8]) -> Result<String, RowError> {
    let string = OctetString::from_slice(alloc, octets)?;
    match FixedOctetString::<5>::try_from_octet_string(&string) {
        Some(string) => hex_of(alloc, string.as_slice()),
        None => show_value(alloc, "none"),
    }
}

fn came_back(alloc: Global, octets: &[u8]) -> Result<String, RowError> {
    let octets = hex_of(alloc, octets)?;
    Ok(format!(in alloc; "back {octets}")?)
}

/// Returns the array of four octets.
fn four(alloc: Global, octets: &[u8]) -> Result<[u8; 4], RowError> {
    match octets {
        [first, second, third, fourth] => Ok([*first, *second, *third, *fourth]),
        _ => Err(wrong(alloc, "the word", "list of four octets")),
    }
}

fn make_string(alloc: Global, octets: &[u8]) -> Result<String, RowError> {
    hex_of(
        alloc,
        FixedOctetString::new(four(alloc, octets)?).as_slice(),
    )
}

fn convert_octets(alloc: Global, octets: &[u8]) -> Result<String, RowError> {
    let string: FixedOctetString<4> = FixedOctetString::from(four(alloc, octets)?);
    hex_of(alloc, string.as_slice())
}

/// Returns the octets of the string, borrowed and as an array.
fn convert_slice(alloc: Global, octets: &[u8]) -> Result<String, RowError> {
    let Ok(string) = FixedOctetString::<4>::try_from(octets) else {
        return show_value(alloc, "another length");
    };
    let lent = lent_octets(alloc, &string)?;
    let taken = hex_of(alloc, &string.into_array())?;
    Ok(format!(in alloc; "{lent} {taken}")?)
}

fn default_text(alloc: Global) -> Result<String, RowError> {
    let zeros: FixedOctetString<4> = FixedOctetString::default();
    hex_of(alloc, zeros.as_slice())
}

/// Returns whether the string of zeros is less than that of these octets.
fn above_default(alloc: Global, octets: &[u8]) -> Result<String, RowError> {
    let zeros: FixedOctetString<4> = FixedOctetString::default();
    show_value(alloc, zeros < FixedOctetString::new(four(alloc, octets)?))
}

/// Writes through the string's mutable array. The clause says that the string then has these
/// octets.
fn overwrite(string: &mut FixedOctetString<2>)
    ensures { string.new.octets ≡ 7 ∷ 8 ∷ [] }
{
    **string = [7, 8];
}

/// Returns whether octets that were written over others are those of the string.
fn overwrite_octets(alloc: Global) -> Result<String, RowError> {
    let mut string: FixedOctetString<2> = FixedOctetString::new([1, 2]);
    overwrite(&mut string);
    let same = string == FixedOctetString::new([7, 8]) && *string == [7u8, 8];
    show_value(alloc, same)
}
