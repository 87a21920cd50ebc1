//! The functions of `asn1_number` on octets alone, and the texts of its errors.

ghost use Rattle.std.specs.Prelude.{◌≤◌, length};

use asn1_integer::laws_of_wrapping;
use asn1_number::{
    IntegerBytes, IntegerError, laws_of_shortest_octets, shortest_of, signed_value, unsigned_value,
    without_redundant_sign_octets,
};
use asn1_test_rows::{RowError, hex_of, number, octets, parse_word, show_value, wrong};
use std::alloc::Global;

/// Answers the calls on octets, on an `i128`, or on an error with its number of bits.
pub fn answer(alloc: Global, name: &str, words: &[&str]) -> Result<String, RowError> {
    match words {
        [] => laws(alloc),
        [word] if name == "shortest_of" => hex_of(
            alloc,
            shortest_of(number(alloc, word)?).as_ref(),
        ),
        [word] => of_octets(alloc, name, octets(alloc, word)?.as_slice()),
        [kind, bits] => error_text(alloc, kind, parse_word::<u32>(alloc, bits)?),
        _ => Err(wrong(alloc, name, "function on octets")),
    }
}

fn of_octets(alloc: Global, name: &str, octets: &[u8]) -> Result<String, RowError> {
    match name {
        "without_redundant_sign_octets" => hex_of(alloc, without_redundant_sign_octets(octets)),
        _ if octets.len() <= 16 => of_few(alloc, name, octets),
        _ => Err(wrong(alloc, name, "function on so many octets")),
    }
}

fn of_few(alloc: Global, name: &str, octets: &[u8]) -> Result<String, RowError>
    requires { length octets.now ≤ 16 }
{
    match name {
        "signed_value" if !octets.is_empty() => show_value(alloc, signed_value(octets)),
        "unsigned_value" => show_value(alloc, unsigned_value(octets)),
        "IntegerBytes" => hex_of(alloc, IntegerBytes::from_octets(octets).as_ref()),
        "IntegerBytes_is_empty" => show_value(alloc, IntegerBytes::from_octets(octets).is_empty()),
        "IntegerBytes_len" => show_value(alloc, IntegerBytes::from_octets(octets).len()),
        _ => Err(wrong(alloc, name, "function on such octets")),
    }
}

/// Calls the functions whose contracts are laws, which do nothing.
fn laws(alloc: Global) -> Result<String, RowError> {
    laws_of_shortest_octets();
    laws_of_wrapping();
    show_value(alloc, true)
}

fn error_text(alloc: Global, kind: &str, bits: u32) -> Result<String, RowError> {
    let error = match kind {
        "UnexpectedEmptyInput" => IntegerError::UnexpectedEmptyInput,
        "Overflow" => IntegerError::Overflow {
            max_integer_bits: bits,
        },
        "TypeConversionFailed" => IntegerError::TypeConversionFailed { bits },
        "Memory" => IntegerError::Memory,
        _ => return Err(wrong(alloc, kind, "refusal")),
    };
    show_value(alloc, error)
}
