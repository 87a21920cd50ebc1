//! The order of numbers by their octets.
ghost use Rattle.std.specs.Prelude.{◌≡◌, ◌≤◌, length};
ghost use Rattle.std.specs.Ordering.{int_cmp, nat_cmp};
ghost use Rattle.asn1_number.specs.Octets.{IsShortest, signed};
ghost use Rattle.asn1_number.specs.Order.{octets_cmp};

use crate::values::word_of_eight;
use std::cmp::Ordering;

/// The bit of a word that is its sign.
const SIGN: u64 = 1 << 63;

/// Maps two numbers of sixteen octets to a word each: comparing the words compares the numbers. They
/// are the first eight octets, which hold the sign, if these differ, otherwise the last eight.
pub(crate) fn sixteen_keys(a: &[u8], b: &[u8]) -> (u64, u64)
    requires { (length a.now ≡ 16) × (length b.now ≡ 16) }
    ensures { nat_cmp result.0 result.1 ≡ int_cmp (signed a.now) (signed b.now) }
{
    let (a, a_last) = a.split_at(8);
    let (b, b_last) = b.split_at(8);
    let (first, other) = (word_of_eight(a), word_of_eight(b));
    if first != other {
        return (first.wrapping_add(SIGN), other.wrapping_add(SIGN));
    }
    (word_of_eight(a_last), word_of_eight(b_last))
}

/// Returns two words in the order of the numbers that eight or more shortest octets each encode.
/// Mostly the first eight, which hold the sign, tell two numbers of one length apart.
pub(crate) fn octets_keys(a: &[u8], b: &[u8]) -> (u64, u64)
    requires a_shortest { IsShortest (signed a.now) a.now }
    requires b_shortest { IsShortest (signed b.now) b.now }
    requires many { (8 ≤ length a.now) × (8 ≤ length b.now) }
    ensures { nat_cmp result.0 result.1 ≡ octets_cmp a.now b.now }
{
    let (first, other) = (word_of_eight(&a[..8]), word_of_eight(&b[..8]));
    if a.len() == b.len() && first != other {
        return (first.wrapping_add(SIGN), other.wrapping_add(SIGN));
    }
    (rank_of(compare_octets(a, b)), 1)
}

/// Returns the number 0, 1 or 2 that is to 1 as the order says.
pub(crate) fn rank_of(order: Ordering) -> u64
    ensures { nat_cmp result 1 ≡ order }
{
    match order {
        Ordering::Less => 0,
        Ordering::Equal => 1,
        Ordering::Greater => 2,
    }
}

/// Returns the order of two numbers by their shortest octets: by sign, then by length, then octet
/// by octet.
#[inline(never)]
pub(crate) fn compare_octets(a: &[u8], b: &[u8]) -> Ordering
    requires a_shortest { IsShortest (signed a.now) a.now }
    requires b_shortest { IsShortest (signed b.now) b.now }
    ensures { result ≡ octets_cmp a.now b.now }
{
    match (a[0] >= 128, b[0] >= 128) {
        (true, false) => Ordering::Less,
        (false, true) => Ordering::Greater,
        _ if a.len() == b.len() => a.cmp(b),
        (false, false) => a.len().cmp(&b.len()),
        (true, true) => b.len().cmp(&a.len()),
    }
}
