//! Characters as fields: their codes in the width of an alphabet (X.691 30.5).

ghost use Rattle.std.specs.Prelude.{◌≡◌, ◌+◌, ◌*◌, ◌^◌, ◌<◌, ◌≤◌, length, drop, IfOk, IfErr};
ghost use Rattle.asn1_bits.specs.Bits.{bits};
ghost use Rattle.asn1_alphabets.specs.AlphabetView.{alphabet_of};
ghost use Rattle.asn1_values.specs.Fields as plain;
ghost use Rattle.asn1_c.specs.Fields.{IsSpelledAt, NamesReason};

use crate::codes::CODE;
use crate::fields::{Field, Refusal, field_at};
use asn1_values::{CharacterAlphabet, read_wide};

/// Reads a character of the alphabet, and returns its code with it.
pub(crate) fn read_character(
    octets: &[u8],
    at: usize,
    alphabet: &CharacterAlphabet<'_>,
    field: usize,
) -> Result<Field, Refusal>
    requires few { 8 * length octets.now < 2 ^ 64 }
    requires within { at ≤ 8 * length octets.now }
    ensures read { IfOk result
        (IsSpelledAt octets.now at (plain.OfCharacter (alphabet_of alphabet.now))) }
    ensures refused { IfErr result (NamesReason (plain.OfCharacter (alphabet_of alphabet.now))
        (drop at (bits octets.now))) }
    ensures field { IfErr result (λ r. r.field ≡ field) }
{
    let width = alphabet.width();
    match field_at(octets, at, width as u128, field) {
        Ok(place) => {
            let code = read_wide(octets, at, width) as u32;
            match alphabet.decode(code) {
                Ok(character) => Ok(Field {
                    high: u64::from(code),
                    low: u64::from(character),
                    ..place
                }),
                Err(_) => Err(Refusal::with(CODE, field, u128::from(code))),
            }
        }
        Err(refusal) => Err(refusal),
    }
}
