//! Unsigned whole numbers of 64 bits, and signed and unsigned ones of 128 bits, by two's
//! complement octets (X.690 8.3).

ghost use Rattle.std.specs.Prelude.{◌≡◌, ◌≢◌, ◌↔◌, ◌<◌, ◌≤◌, ℤ, ℕ, pos, List, length, take, drop, MatchOption};
ghost use Rattle.asn1_number.specs.Octets.{IsShortest, signed};
ghost use Rattle.asn1_number.specs.Readings.{IsInRange, kind_u64, kind_i128, kind_u128};
ghost use Rattle.asn1_c.specs.Fields.{number_of_words, signed_of_words};

use crate::bits::Words;
use crate::codes::{DONE, EMPTY, OVERFLOW};
use crate::room::put;
use asn1_values::{
    IntegerBytes, IntegerType, signed_value, unsigned_value, without_redundant_sign_octets,
};

/// Writes octets to the front of the room, if they fit. Their number is returned in any case.
fn put_octets(octets: &IntegerBytes<'_>, room: &mut [u8], count: &mut usize) -> u32
    ensures written { result ≡ 0 → take count.new room.new ≡ octets.now }
    ensures count { count.new ≡ length octets.now }
    ensures done { result ≡ 0 ↔ (count.new ≤ length room.old) }
    ensures rest { result ≡ 0 → drop count.new room.new ≡ drop count.new room.old }
    ensures room { result ≢ 0 → result ≡ 3 }
    ensures unchanged { result ≢ 0 → room.new ≡ room.old }
{
    *count = octets.len();
    put(octets.as_ref(), room)
}

/// Writes the shortest octets of a signed number to the front of the room, if they fit.
pub(crate) fn put_signed(number: i128, room: &mut [u8], count: &mut usize) -> u32
    ensures written { result ≡ 0 → IsShortest number (take count.new room.new) }
    ensures count { (o : List ℕ) → IsShortest number o → count.new ≡ length o }
    ensures most { count.new ≤ 16 }
    ensures done { result ≡ 0 ↔ (count.new ≤ length room.old) }
    ensures rest { result ≡ 0 → drop count.new room.new ≡ drop count.new room.old }
    ensures room { result ≢ 0 → result ≡ 3 }
    ensures unchanged { result ≢ 0 → room.new ≡ room.old }
{
    put_octets(&number.to_signed_bytes_be(), room, count)
}

/// Writes the shortest octets of an unsigned number to the front of the room, if they fit.
pub(crate) fn put_unsigned(number: u128, room: &mut [u8], count: &mut usize) -> u32
    ensures written { result ≡ 0 → IsShortest (pos number) (take count.new room.new) }
    ensures count { (o : List ℕ) → IsShortest (pos number) o → count.new ≡ length o }
    ensures most { count.new ≤ 17 }
    ensures done { result ≡ 0 ↔ (count.new ≤ length room.old) }
    ensures rest { result ≡ 0 → drop count.new room.new ≡ drop count.new room.old }
    ensures room { result ≢ 0 → result ≡ 3 }
    ensures unchanged { result ≢ 0 → room.new ≡ room.old }
{
    put_octets(&number.to_signed_bytes_be(), room, count)
}

/// Writes the shortest octets of the number into the room, of which nine are always enough. Their
/// number is returned also where the room is too small.
#[unsafe(no_mangle)]
pub extern "C" fn asn1v_integer_from_u64(number: u64, room: &mut [u8], count: &mut usize) -> u32
    ensures written { result ≡ 0 → IsShortest (pos number) (take count.new room.new) }
    ensures count { (o : List ℕ) → IsShortest (pos number) o → count.new ≡ length o }
    ensures most { count.new ≤ 9 }
    ensures done { result ≡ 0 ↔ (count.new ≤ length room.old) }
    ensures rest { result ≡ 0 → drop count.new room.new ≡ drop count.new room.old }
    ensures room { result ≢ 0 → result ≡ 3 }
    ensures unchanged { result ≢ 0 → room.new ≡ room.old }
{
    let shortest = number.to_signed_bytes_be();
    put_octets(&shortest, room, count)
}

/// Reads the number that the octets encode, if it fits `u64`. They need not be
/// shortest.
#[unsafe(no_mangle)]
pub extern "C" fn asn1v_integer_to_u64(octets: &[u8], number: &mut u64) -> u32
    ensures read { result ≡ 0 → pos number.new ≡ signed octets.now }
    ensures fits { result ≡ 0 → IsInRange kind_u64 (signed octets.now) }
    ensures done { 0 < length octets.now → IsInRange kind_u64 (signed octets.now) → result ≡ 0 }
    ensures empty { result ≡ 4 ↔ (length octets.now ≡ 0) }
    ensures overflow { result ≢ 0 → 0 < length octets.now → result ≡ 5 }
    ensures unchanged { result ≢ 0 → number.new ≡ number.old }
{
    if octets.is_empty() {
        return EMPTY;
    }
    let shortest = without_redundant_sign_octets(octets);
    if shortest.len() > 16 {
        return OVERFLOW;
    }
    match u64::try_from(signed_value(shortest)) {
        Ok(value) => {
            *number = value;
            DONE
        }
        Err(_) => OVERFLOW,
    }
}

/// Writes the shortest octets of a number of 128 bits in two's complement into the room, of which
/// sixteen are always enough. Their number is returned also where the room is too small.
#[unsafe(no_mangle)]
pub extern "C" fn asn1v_integer_from_i128(number: &Words, room: &mut [u8], count: &mut usize) -> u32
    ensures written { result ≡ 0
        → IsShortest (signed_of_words number.now.high number.now.low) (take count.new room.new) }
    ensures count { (o : List ℕ) → IsShortest (signed_of_words number.now.high number.now.low) o
        → count.new ≡ length o }
    ensures most { count.new ≤ 16 }
    ensures done { result ≡ 0 ↔ (count.new ≤ length room.old) }
    ensures rest { result ≡ 0 → drop count.new room.new ≡ drop count.new room.old }
    ensures room { result ≢ 0 → result ≡ 3 }
    ensures unchanged { result ≢ 0 → room.new ≡ room.old }
{
    put_signed(number.number().cast_signed(), room, count)
}

/// Reads the number that the octets encode, if it fits 128 bits in two's complement. They need
/// not be shortest.
#[unsafe(no_mangle)]
pub extern "C" fn asn1v_integer_to_i128(octets: &[u8], number: &mut Words) -> u32
    ensures read { result ≡ 0 → signed_of_words number.new.high number.new.low ≡ signed octets.now }
    ensures fits { result ≡ 0 → IsInRange kind_i128 (signed octets.now) }
    ensures done { 0 < length octets.now → IsInRange kind_i128 (signed octets.now) → result ≡ 0 }
    ensures empty { result ≡ 4 ↔ (length octets.now ≡ 0) }
    ensures overflow { result ≢ 0 → 0 < length octets.now → result ≡ 5 }
    ensures unchanged { result ≢ 0 → number.new ≡ number.old }
{
    if octets.is_empty() {
        return EMPTY;
    }
    let shortest = without_redundant_sign_octets(octets);
    if shortest.len() > 16 {
        return OVERFLOW;
    }
    *number = Words::of(signed_value(shortest).cast_unsigned());
    DONE
}

/// Writes the shortest octets of an unsigned number of 128 bits into the room, of which
/// seventeen are always enough. Their number is returned also where the room is too small.
#[unsafe(no_mangle)]
pub extern "C" fn asn1v_integer_from_u128(number: &Words, room: &mut [u8], count: &mut usize) -> u32
    ensures written { result ≡ 0 → IsShortest
        (pos (number_of_words number.now.high number.now.low)) (take count.new room.new) }
    ensures count { (o : List ℕ)
        → IsShortest (pos (number_of_words number.now.high number.now.low)) o
        → count.new ≡ length o }
    ensures most { count.new ≤ 17 }
    ensures done { result ≡ 0 ↔ (count.new ≤ length room.old) }
    ensures rest { result ≡ 0 → drop count.new room.new ≡ drop count.new room.old }
    ensures room { result ≢ 0 → result ≡ 3 }
    ensures unchanged { result ≢ 0 → room.new ≡ room.old }
{
    put_unsigned(number.number(), room, count)
}

/// Reads the number that the octets encode, if it fits `u128`. They need not be
/// shortest.
#[unsafe(no_mangle)]
pub extern "C" fn asn1v_integer_to_u128(octets: &[u8], number: &mut Words) -> u32
    ensures read { result ≡ 0
        → pos (number_of_words number.new.high number.new.low) ≡ signed octets.now }
    ensures fits { result ≡ 0 → IsInRange kind_u128 (signed octets.now) }
    ensures done { 0 < length octets.now → IsInRange kind_u128 (signed octets.now) → result ≡ 0 }
    ensures empty { result ≡ 4 ↔ (length octets.now ≡ 0) }
    ensures overflow { result ≢ 0 → 0 < length octets.now → result ≡ 5 }
    ensures unchanged { result ≢ 0 → number.new ≡ number.old }
{
    if octets.is_empty() {
        return EMPTY;
    }
    match u128_of(without_redundant_sign_octets(octets)) {
        Some(value) => {
            *number = Words::of(value);
            DONE
        }
        None => OVERFLOW,
    }
}

/// Returns the unsigned number of 128 bits that shortest octets encode.
pub(crate) fn u128_of(octets: &[u8]) -> Option<u128>
    requires { IsShortest (signed octets.now) octets.now }
    ensures { MatchOption result (¬ (IsInRange kind_u128 (signed octets.now)))
        (λ n. (pos n ≡ signed octets.now) × IsInRange kind_u128 (signed octets.now)) }
{
    if octets.len() <= 16 {
        return u128::try_from(signed_value(octets)).ok();
    }
    match octets {
        [0, rest @ ..] if rest.len() == 16 => Some(unsigned_value(rest)),
        _ => None,
    }
}
