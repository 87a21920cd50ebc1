//! Codes of characters, one after another.

ghost use Rattle.std.specs.Prelude.{◌≡◌, ◌≤◌, ◌<◌, ◌^◌, ◌*◌, ◌+◌, ℕ, true, false, length, drop, IfSome};
ghost use Rattle.asn1_bits.specs.Bits.{bits};
ghost use Rattle.asn1_schema.specs.CharactersOfParts.{numbers_in};
ghost use Rattle.asn1_x691.specs.Alphabets.{IsIn, HasCode};
ghost use Rattle.asn1_x691_fields.specs.Characters.{IsAlphabet, AreCodes, character_by};

use crate::alphabets::{Alphabet, has_code};
use crate::bits::number_at;
use crate::code_words::{Interval, NARROW, are_in};
use asn1_schema::Range;

/// Returns whether `count` codes, from bit `at` on, are all those of characters. A code must have at
/// most 57 bits.
pub fn are_codes(octets: &[u8], alphabet: &Alphabet<'_>, at: usize, count: usize) -> bool
    requires size { 8 * length octets.now < 2 ^ 64 }
    requires alphabet { IsAlphabet alphabet.now }
    requires narrow { alphabet.now.width ≤ 57 }
    requires inside { at + alphabet.now.width * count ≤ 8 * length octets.now }
    ensures yes { result ≡ true → AreCodes alphabet.now (numbers_in alphabet.now.width count (drop at (bits octets.now))) }
    ensures no { result ≡ false → AreCodes alphabet.now (numbers_in alphabet.now.width count (drop at (bits octets.now))) → ⊥ }
{
    match interval_of(alphabet) {
        Some(interval) if alphabet.width <= NARROW => {
            are_in(octets, alphabet.width, interval, at, count)
        }
        _ => are_each_codes(octets, alphabet, at, count),
    }
}

/// Returns whether `count` codes, from bit `at` on, are all those of characters, if that is quick to
/// find. Otherwise it returns `false`.
#[inline(always)]
pub fn are_quick_codes(octets: &[u8], alphabet: &Alphabet<'_>, at: usize, count: usize) -> bool
    requires size { 8 * length octets.now < 2 ^ 64 }
    requires alphabet { IsAlphabet alphabet.now }
    requires inside { at + alphabet.now.width * count ≤ 8 * length octets.now }
    ensures { result ≡ true → AreCodes alphabet.now (numbers_in alphabet.now.width count (drop at (bits octets.now))) }
{
    match interval_of(alphabet) {
        Some(interval) if alphabet.width <= NARROW => {
            are_in(octets, alphabet.width, interval, at, count)
        }
        _ => false,
    }
}

/// Returns the codes of an alphabet, where they are an interval.
#[inline(always)]
pub(crate) fn interval_of(alphabet: &Alphabet<'_>) -> Option<Interval>
    requires { IsAlphabet alphabet.now }
    ensures codes { IfSome result (λ v. (i : ℕ) → v.least ≤ i → i ≤ v.least + v.range
        → HasCode alphabet.now.is_aligned alphabet.now.ranges.now i (character_by alphabet.now.are_numbers alphabet.now.ranges.now i)) }
    ensures no_others { IfSome result (λ v. (i : ℕ) → (c : ℕ) → HasCode alphabet.now.is_aligned alphabet.now.ranges.now i c
        → (v.least ≤ i) × (i ≤ v.least + v.range)) }
{
    if alphabet.are_numbers {
        return interval_in(alphabet.ranges);
    }
    if !alphabet.are_ascending || alphabet.count == 0 || alphabet.count > 1 << 32 {
        return None;
    }
    Some(Interval {
        least: 0,
        range: alphabet.count as u64 - 1,
    })
}

/// Returns the characters of an alphabet, where it is one range.
#[inline(always)]
fn interval_in(ranges: &[Range]) -> Option<Interval>
    ensures characters { IfSome result (λ v. (c : ℕ) → v.least ≤ c → c ≤ v.least + v.range → IsIn ranges.now c) }
    ensures no_others { IfSome result (λ v. (c : ℕ) → IsIn ranges.now c → (v.least ≤ c) × (c ≤ v.least + v.range)) }
{
    if ranges.len() != 1 {
        return None;
    }
    let range = ranges[0];
    if range.last < range.first {
        return None;
    }
    Some(Interval {
        least: range.first as u64,
        range: (range.last - range.first) as u64,
    })
}

/// Returns whether `count` codes, from bit `at` on, are all of characters. It examines one after
/// another.
fn are_each_codes(octets: &[u8], alphabet: &Alphabet<'_>, at: usize, count: usize) -> bool
    requires size { 8 * length octets.now < 2 ^ 64 }
    requires alphabet { IsAlphabet alphabet.now }
    requires narrow { alphabet.now.width ≤ 57 }
    requires inside { at + alphabet.now.width * count ≤ 8 * length octets.now }
    ensures yes { result ≡ true → AreCodes alphabet.now (numbers_in alphabet.now.width count (drop at (bits octets.now))) }
    ensures no { result ≡ false → AreCodes alphabet.now (numbers_in alphabet.now.width count (drop at (bits octets.now))) → ⊥ }
{
    let mut next = at;
    let mut left = count;
    while left > 0 {
        if !has_code(alphabet, number_at(octets, next, alphabet.width) as u128) {
            return false;
        }
        next += alphabet.width;
        left -= 1;
    }
    true
}
