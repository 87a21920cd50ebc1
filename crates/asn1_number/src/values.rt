//! Values of at most sixteen octets, and the shortest octets of numbers within `i128` (X.690 8.3).
ghost use Rattle.std.specs.Prelude.{◌≡◌, ◌+◌, ◌*◌, ◌^◌, ◌<◌, ◌≤◌, ◌++◌, length, drop};
ghost use Rattle.std.specs.Int.{to_be_bytes, cast_signed, w64, w128};
ghost use Rattle.asn1_number.specs.Octets.{IsShortest, signed, unsigned};
ghost use Rattle.asn1_number.specs.Shortest.{shortest_octets};

use crate::integer_bytes::IntegerBytes;
use crate::sign_octets::is_shortest_at_once;

/// Returns the number of eight octets, most significant first.
pub(crate) fn word_of_eight(octets: &[u8]) -> u64
    requires { length octets.now ≡ 8 }
    ensures value { result ≡ unsigned octets.now }
    ensures signed { cast_signed w64 result ≡ signed octets.now }
{
    let Some(word) = octets.first_chunk::<8>() else {
        unreachable!()
    };
    u64::from_be_bytes(*word)
}

/// Returns the two's complement value of the octets, most significant first (X.690 8.3.3).
///
/// The number of octets must be 1 to 16.
pub fn signed_value(octets: &[u8]) -> i128
    requires some { 0 < length octets.now }
    requires few { length octets.now ≤ 16 }
    ensures { result ≡ signed octets.now }
{
    let count = octets.len();
    if count < 8 {
        return signed_by_octets(octets);
    }
    let (front, last) = octets.split_at(count - 8);
    let word = word_of_eight(last);
    if front.is_empty() {
        return i128::from(word.cast_signed());
    }
    signed_front(front) * (1 << 64) + i128::from(word)
}

/// Returns the two's complement value of one to eight octets: of eight as one word.
fn signed_front(octets: &[u8]) -> i128
    requires some { 0 < length octets.now }
    requires few { length octets.now ≤ 8 }
    ensures { result ≡ signed octets.now }
{
    if octets.len() == 8 {
        return i128::from(word_of_eight(octets).cast_signed());
    }
    signed_by_octets(octets)
}

/// Returns the two's complement value of one to sixteen octets, octet by octet.
fn signed_by_octets(octets: &[u8]) -> i128
    requires some { 0 < length octets.now }
    requires few { length octets.now ≤ 16 }
    ensures { result ≡ signed octets.now }
{
    let mut value = i128::from(octets[0].cast_signed());
    for octet in &octets[1..] {
        value = value * 256 + i128::from(*octet);
    }
    value
}

/// Returns the unsigned value of the octets, most significant first. It is 0 for no octets.
///
/// The number of octets must be at most 16.
pub fn unsigned_value(octets: &[u8]) -> u128
    requires { length octets.now ≤ 16 }
    ensures { result ≡ unsigned octets.now }
{
    let mut value = 0u128;
    for octet in octets {
        value = value * 256 + u128::from(*octet);
    }
    value
}

/// Returns how many of the eight octets of the number only repeat its sign.
pub(crate) fn spare_of_eight(number: i64) -> usize
    ensures { result + length (shortest_octets number) ≡ 8 }
{
    let distance = if number < 0 { -1 - number } else { number };
    // 0 and -1 need a bit too, and each number one more bit, its sign.
    ((2 * distance.cast_unsigned() + 1).leading_zeros() / 8) as usize
}

/// Returns where the shortest octets of the number begin in its sixteen octets. A number within
/// `i64` takes the work of one word.
pub(crate) fn leading_octets_of(number: i128) -> usize
    ensures { result + length (shortest_octets number) ≡ 16 }
{
    match i64::try_from(number) {
        Ok(short) => 8 + spare_of_eight(short),
        // The low word's octets are all needed: the high word's show how many are spare.
        Err(_) => spare_of_eight(((number.cast_unsigned() >> 64) as u64).cast_signed()),
    }
}

/// Returns where the shortest octets begin in the sixteen octets of the number that these octets
/// encode. It tests first whether they are the shortest, as they mostly are.
pub(crate) fn leading_octets_among(octets: &[u8]) -> usize
    requires some { 0 < length octets.now }
    requires few { length octets.now ≤ 16 }
    ensures { result + length (shortest_octets (signed octets.now)) ≡ 16 }
{
    if is_shortest_at_once(octets) {
        return 16 - octets.len();
    }
    counted_leading_octets(octets)
}

/// Does what `leading_octets_among` does where the first octet does not show it.
#[cold]
#[inline(never)]
fn counted_leading_octets(octets: &[u8]) -> usize
    requires some { 0 < length octets.now }
    requires few { length octets.now ≤ 16 }
    ensures { result + length (shortest_octets (signed octets.now)) ≡ 16 }
{
    leading_octets_of(signed_value(octets))
}

/// Returns the two words of the two's complement value of one to sixteen octets.
pub(crate) fn words_of_octets(octets: &[u8]) -> (u64, u64)
    requires some { 0 < length octets.now }
    requires few { length octets.now ≤ 16 }
    ensures { cast_signed w128 (result.0 * 2 ^ 64 + result.1) ≡ signed octets.now }
{
    match octets.len() {
        1 | 2 => sign_extended(signed_of_two(octets)),
        8 => sign_extended(word_of_eight(octets).cast_signed()),
        16 => {
            let (front, last) = octets.split_at(8);
            (word_of_eight(front), word_of_eight(last))
        }
        _ => words_by_octets(octets),
    }
}

/// Does what `words_of_octets` does for other counts. Not inlined, since it has loops.
#[inline(never)]
fn words_by_octets(octets: &[u8]) -> (u64, u64)
    requires some { 0 < length octets.now }
    requires few { length octets.now ≤ 16 }
    ensures { cast_signed w128 (result.0 * 2 ^ 64 + result.1) ≡ signed octets.now }
{
    words_of_i128(signed_value(octets))
}

/// Returns the two words of a number.
pub(crate) fn words_of_i128(number: i128) -> (u64, u64)
    ensures { cast_signed w128 (result.0 * 2 ^ 64 + result.1) ≡ number }
{
    let bits = number.cast_unsigned();
    ((bits >> 64) as u64, (bits % (1 << 64)) as u64)
}

/// Returns the two words of a number within one.
pub(crate) fn sign_extended(number: i64) -> (u64, u64)
    ensures { cast_signed w128 (result.0 * 2 ^ 64 + result.1) ≡ number }
{
    let high = if number < 0 { u64::MAX } else { 0 };
    (high, number.cast_unsigned())
}

/// Returns the two's complement value of one or two octets.
fn signed_of_two(octets: &[u8]) -> i64
    requires some { 0 < length octets.now }
    requires few { length octets.now ≤ 2 }
    ensures { result ≡ signed octets.now }
{
    let first = i128::from(octets[0].cast_signed());
    if octets.len() == 1 {
        return first as i64;
    }
    (first * 256 + i128::from(octets[1])) as i64
}

/// Returns two words of eight octets that end with the shortest octets of the number, and where
/// these begin. A number within `i64` takes the work of one word.
pub(crate) fn shortest_in_words(number: i128) -> (usize, u64, u64)
    ensures count { result.0 + length (shortest_octets number) ≡ 16 }
    ensures octets { drop result.0 (to_be_bytes w64 result.1 ++ to_be_bytes w64 result.2)
        ≡ shortest_octets number }
{
    match i64::try_from(number) {
        Ok(short) => (8 + spare_of_eight(short), 0, short.cast_unsigned()),
        Err(_) => {
            let bits = number.cast_unsigned();
            let high = (bits >> 64) as u64;
            // The low word's octets are all needed: the high word's show how many are spare.
            let spare = spare_of_eight(high.cast_signed());
            (spare, high, (bits % (1 << 64)) as u64)
        }
    }
}

/// Returns the shortest two's complement octets of the number (X.690 8.3.2).
pub fn shortest_of<'a>(number: i128) -> IntegerBytes<'a>
    ensures { IsShortest number result }
{
    let (start, high, low) = shortest_in_words(number);
    IntegerBytes::end_of(start, high, low)
}
