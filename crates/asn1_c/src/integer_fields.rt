//! Integers as fields: their shortest octets (X.690 8.3), and after an octet that counts them.

ghost use Rattle.std.specs.Prelude.{◌≡◌, ◌+◌, ◌-◌, ◌*◌, ◌^◌, ◌<◌, ◌≤◌, ℕ, ℤ, List, false, IsTrue, ◌↔◌, length, drop, IfOk, IfErr};
ghost use Rattle.std.specs.Int.{cast_signed, w128};
ghost use Rattle.asn1_bits.specs.Bits.{bits, digits};
ghost use Rattle.asn1_number.specs.Octets.{IsShortest, signed};
ghost use Rattle.asn1_number.specs.Laws.OctetLaws.{RepeatsSign};
ghost use Rattle.asn1_values.specs.Fields as plain;
ghost use Rattle.asn1_c.specs.Fields.{IsSpelledAt, NamesReason, TellsNone, signed_of_words};
ghost use Rattle.asn1_c.specs.Octets.{octets_at};

use crate::codes::{NOT_SHORTEST, OCTET_COUNT};
use crate::fields::{Field, Refusal, field_at};
use crate::octets_at::octet_at;
use asn1_values::{IntegerType, read_wide, signed_value};

/// Returns whether octets from a bit on are the shortest of a number: the first nine bits are not
/// all alike (X.690 8.3.2), or there is one octet.
fn are_shortest(octets: &[u8], at: usize, count: usize) -> bool
    requires few { 8 * length octets.now < 2 ^ 64 }
    requires some { 0 < count }
    requires within { at + 8 * count ≤ 8 * length octets.now }
    ensures yes { let o = octets_at octets.now at count in IsTrue result → IsShortest (signed o) o }
    ensures no { result ≡ false → (n : ℤ) → ¬ (IsShortest n (octets_at octets.now at count)) }
{
    if count == 1 {
        return true;
    }
    !repeats_sign(octet_at(octets, at), octet_at(octets, at + 8))
}

/// Returns whether an octet only repeats the sign of the next.
fn repeats_sign(first: u8, second: u8) -> bool
    ensures { IsTrue result ↔ RepeatsSign first second }
{
    (first == 0 && second < 128) || (first == 255 && second >= 128)
}

/// Returns the number of one to sixteen octets from a bit on, in two's complement.
fn value_at(octets: &[u8], at: usize, count: usize) -> i128
    requires some { 0 < count }
    requires few { count ≤ 16 }
    requires within { at + 8 * count ≤ 8 * length octets.now }
    ensures { result ≡ signed (octets_at octets.now at count) }
{
    let word = read_wide(octets, at, 8 * count).to_be_bytes();
    signed_value(&word[16 - count..])
}

/// Returns the field with the number of its octets, where they are at most sixteen.
fn with_value(place: &Field, octets: &[u8], at: usize, count: usize) -> Field
    requires some { 0 < count }
    requires within { at + 8 * count ≤ 8 * length octets.now }
    requires none { TellsNone place.now }
    ensures place { (result.first ≡ place.now.first) × (result.length ≡ place.now.length) }
    ensures short { count ≤ 16
        → signed_of_words result.high result.low ≡ signed (octets_at octets.now at count) }
    ensures long { 16 < count → TellsNone result }
{
    if count > 16 {
        return *place;
    }
    place.with_number(value_at(octets, at, count).cast_unsigned())
}

/// Reads an integer of `count` octets.
pub(crate) fn read_integer(
    octets: &[u8],
    at: usize,
    count: usize,
    field: usize,
) -> Result<Field, Refusal>
    requires few { 8 * length octets.now < 2 ^ 64 }
    requires within { at ≤ 8 * length octets.now }
    ensures read { IfOk result (IsSpelledAt octets.now at (plain.OfInteger count)) }
    ensures refused { IfErr result
        (NamesReason (plain.OfInteger count) (drop at (bits octets.now))) }
    ensures field { IfErr result (λ r. r.field ≡ field) }
    ensures place { IfOk result (λ f. (f.first ≡ at) × (f.length ≡ 8 * count)) }
{
    if count == 0 {
        return Err(Refusal::with(NOT_SHORTEST, field, 0));
    }
    match field_at(octets, at, 8 * (count as u128), field) {
        Ok(place) => {
            if !are_shortest(octets, at, count) {
                return Err(Refusal::with(NOT_SHORTEST, field, 0));
            }
            Ok(with_value(&place, octets, at, count))
        }
        Err(refusal) => Err(refusal),
    }
}

/// Reads an integer after the octet that counts its octets (X.690 8.1.3.4).
pub(crate) fn read_counted(octets: &[u8], at: usize, field: usize) -> Result<Field, Refusal>
    requires few { 8 * length octets.now < 2 ^ 64 }
    requires within { at ≤ 8 * length octets.now }
    ensures read { IfOk result (IsSpelledAt octets.now at plain.OfCountedInteger) }
    ensures refused { IfErr result
        (NamesReason plain.OfCountedInteger (drop at (bits octets.now))) }
    ensures field { IfErr result (λ r. r.field ≡ field) }
{
    if let Err(refusal) = field_at(octets, at, 8, field) {
        return Err(refusal);
    }
    let octet = octet_at(octets, at);
    if octet == 0 || octet > 127 {
        return Err(Refusal::with(OCTET_COUNT, field, u128::from(octet)));
    }
    let count = usize::from(octet);
    match field_at(octets, at, 8 + 8 * (count as u128), field) {
        Ok(place) => {
            if !are_shortest(octets, at + 8, count) {
                return Err(Refusal::with(NOT_SHORTEST, field, 0));
            }
            Ok(with_value(&place, octets, at + 8, count))
        }
        Err(refusal) => Err(refusal),
    }
}

/// Returns the number of the shortest octets of a word in two's complement, read as unsigned,
/// and how many they are.
pub(crate) fn shortest_word(word: u128) -> (u128, usize)
    ensures word { (o : List ℕ) → IsShortest (cast_signed w128 word) o
        → digits result.0 (8 * result.1) ≡ bits o }
    ensures count { (o : List ℕ) → IsShortest (cast_signed w128 word) o → result.1 ≡ length o }
    ensures few { result.1 ≤ 16 }
{
    let number = word.cast_signed();
    let octets = number.to_signed_bytes_be();
    let count = octets.len();
    (read_wide(octets.as_ref(), 0, 8 * count), count)
}
