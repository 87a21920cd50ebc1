//! Whole numbers as two's complement octets, most significant first: the contents of INTEGER (X.690
//! 8.3).

ghost use Rattle.std.specs.Prelude.{◌≡◌, ◌≢◌, ◌↔◌, ◌<◌, ◌≤◌, ℤ, ℕ, List, length, take, drop, IsTrue};
ghost use Rattle.std.specs.Ordering.{int_cmp};
ghost use Rattle.asn1_number.specs.Octets.{IsShortest, signed};
ghost use Rattle.asn1_number.specs.Order.{octets_cmp};
ghost use Rattle.asn1_number.specs.Readings.{IsInRange, kind_i64};
ghost use Rattle.asn1_c.specs.Codes.{order_number};

use crate::codes::{DONE, EMPTY, OVERFLOW, number_of_order};
use crate::room::put;
use asn1_values::{IntegerType, signed_value, without_redundant_sign_octets};
use std::cmp::Ordering;

/// Writes the shortest octets of the number into the room, of which eight are always enough. Their
/// number is returned also where the room is too small.
#[unsafe(no_mangle)]
pub extern "C" fn asn1v_integer_from_i64(number: i64, room: &mut [u8], count: &mut usize) -> u32
    ensures written { result ≡ 0 → IsShortest number (take count.new room.new) }
    ensures count { (o : List ℕ) → IsShortest number o → count.new ≡ length o }
    ensures most { count.new ≤ 8 }
    ensures done { result ≡ 0 ↔ (count.new ≤ length room.old) }
    ensures rest { result ≡ 0 → drop count.new room.new ≡ drop count.new room.old }
    ensures room { result ≢ 0 → result ≡ 3 }
    ensures unchanged { result ≢ 0 → room.new ≡ room.old }
{
    let octets = number.to_signed_bytes_be();
    *count = octets.len();
    put(octets.as_ref(), room)
}

/// Reads the number that the octets encode, if it fits 64 bits. They need not be shortest.
#[unsafe(no_mangle)]
pub extern "C" fn asn1v_integer_to_i64(octets: &[u8], number: &mut i64) -> u32
    ensures read { result ≡ 0 → number.new ≡ signed octets.now }
    ensures fits { result ≡ 0 → IsInRange kind_i64 (signed octets.now) }
    ensures done { 0 < length octets.now → IsInRange kind_i64 (signed octets.now) → result ≡ 0 }
    ensures empty { result ≡ 4 ↔ (length octets.now ≡ 0) }
    ensures overflow { result ≢ 0 → 0 < length octets.now → result ≡ 5 }
    ensures unchanged { result ≢ 0 → number.new ≡ number.old }
{
    if octets.is_empty() {
        return EMPTY;
    }
    let shortest = without_redundant_sign_octets(octets);
    if shortest.len() > 16 {
        return OVERFLOW;
    }
    match i64::try_from(signed_value(shortest)) {
        Ok(value) => {
            *number = value;
            DONE
        }
        Err(_) => OVERFLOW,
    }
}

/// Compares the numbers that two lists of octets encode, of any length: -1, 0 or 1.
#[unsafe(no_mangle)]
pub extern "C" fn asn1v_integer_compare(a: &[u8], b: &[u8], order: &mut i32) -> u32
    ensures order { result ≡ 0
        → order.new ≡ order_number (int_cmp (signed a.now) (signed b.now)) }
    ensures done { result ≡ 0 ↔ ((0 < length a.now) × (0 < length b.now)) }
    ensures empty { result ≢ 0 → result ≡ 4 }
    ensures unchanged { result ≢ 0 → order.new ≡ order.old }
{
    if a.is_empty() || b.is_empty() {
        return EMPTY;
    }
    *order = number_of_order(order_of(a, b));
    DONE
}

/// Returns the order of two numbers by their octets.
fn order_of(a: &[u8], b: &[u8]) -> Ordering
    requires a_some { 0 < length a.now }
    requires b_some { 0 < length b.now }
    ensures { result ≡ int_cmp (signed a.now) (signed b.now) }
{
    order_of_shortest(
        without_redundant_sign_octets(a),
        without_redundant_sign_octets(b),
    )
}

/// Returns the order of two numbers by their shortest octets: by sign, then by length, then octet
/// by octet.
fn order_of_shortest(a: &[u8], b: &[u8]) -> Ordering
    requires a_some { 0 < length a.now }
    requires b_some { 0 < length b.now }
    ensures { result ≡ octets_cmp a.now b.now }
{
    match (a[0] >= 128, b[0] >= 128) {
        (true, false) => Ordering::Less,
        (false, true) => Ordering::Greater,
        (false, false) => a.len().cmp(&b.len()).then(a.cmp(b)),
        (true, true) => b.len().cmp(&a.len()).then(a.cmp(b)),
    }
}

/// Returns whether the octets are the shortest of a number (X.690 8.3.2).
#[unsafe(no_mangle)]
pub extern "C" fn asn1v_integer_is_shortest(octets: &[u8]) -> bool
    ensures { IsTrue result ↔ ((n : ℤ) × IsShortest n octets.now) }
{
    !octets.is_empty() && without_redundant_sign_octets(octets).len() == octets.len()
}

/// Returns how many of the first octets only repeat the sign: those after them are the shortest of
/// the same number.
#[unsafe(no_mangle)]
pub extern "C" fn asn1v_integer_redundant(octets: &[u8]) -> usize
    ensures within { result ≤ length octets.now }
    ensures shortest { 0 < length octets.now
        → IsShortest (signed octets.now) (drop result octets.now) }
    ensures none { length octets.now ≡ 0 → result ≡ 0 }
{
    octets.len() - without_redundant_sign_octets(octets).len()
}
