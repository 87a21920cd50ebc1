//! Characters by their codes (X.691 30.5.4).

ghost use Rattle.std.specs.Prelude.{◌≡◌, ◌≤◌, ◌<◌, ◌^◌, ◌*◌, ◌+◌, ℕ, length, IfSome, IsNone};
ghost use Rattle.asn1_bits.specs.Bits.{bits, number as number_of};
ghost use Rattle.asn1_schema.specs.Encodings.{Starts, number, anywhere, each};
ghost use Rattle.asn1_schema.specs.PiecesOfParts.{bits_at};
ghost use Rattle.asn1_x691.specs.declared.fault.FaultKind.TheVariants.{Short};
ghost use Rattle.asn1_x691.specs.Alphabets.{width_of};
ghost use Rattle.asn1_x691.specs.Characters.{character, characters};
ghost use Rattle.asn1_x691_fields.specs.declared.alphabets.Alphabet as the_alphabet;
ghost use Rattle.asn1_x691_fields.specs.Outcomes.{IsWithin, IsOnward, IsRead, rest};
ghost use Rattle.asn1_x691_fields.specs.Characters.{IsAlphabet, character_by, characters_at};

use crate::alphabets::{Alphabet, alphabet_of, has_code};
use crate::bits::number_at;
use crate::code_runs::are_quick_codes;
use crate::state::{State, fail};
use asn1_bits::read_wide;
use asn1_schema::Range;
use asn1_x691::FaultKind;

/// Reads a code of `width` bits, at most 128.
fn next_code(octets: &[u8], width: usize, node: usize, state: &mut State) -> Option<u128>
    requires size { 8 * length octets.now < 2 ^ 64 }
    requires width { width ≤ 128 }
    requires within { IsWithin (bits octets.now) state.old }
    ensures onward { IsOnward (bits octets.now) state.old state.new }
    ensures at { IfSome result (λ n. state.new.at ≡ state.old.at + width) }
    ensures is { IfSome result (λ n. n ≡ number_of (bits_at (bits octets.now) state.old.at width)) }
    ensures read { IsRead (anywhere (number width Short node)) (λ n. n) (bits octets.now) state.old state.new result }
{
    if width > state.end - state.at {
        fail(state, node, FaultKind::Short);
        return None;
    }
    let at = state.at;
    state.at = at + width;
    Some(code_at(octets, at, width))
}

/// Returns the number of `width` bits from bit `at` on. `width` is at most 128.
fn code_at(octets: &[u8], at: usize, width: usize) -> u128
    requires width { width ≤ 128 }
    requires within { at + width ≤ 8 * length octets.now }
    ensures { result ≡ number_of (bits_at (bits octets.now) at width) }
{
    if width > 57 {
        return read_wide(octets, at, width);
    }
    number_at(octets, at, width) as u128
}

/// Reads a character by its code.
fn next_character(
    octets: &[u8],
    alphabet: &Alphabet<'_>,
    node: usize,
    state: &mut State,
) -> Option<()>
    requires size { 8 * length octets.now < 2 ^ 64 }
    requires alphabet { IsAlphabet alphabet.now }
    requires within { IsWithin (bits octets.now) state.old }
    ensures onward { IsOnward (bits octets.now) state.old state.new }
    ensures at { IfSome result (λ u. state.new.at ≡ state.old.at + alphabet.now.width) }
    ensures read { IsRead (anywhere (character alphabet.now.is_aligned alphabet.now.ranges.now node))
        (λ u. character_by alphabet.now.are_numbers alphabet.now.ranges.now
        (number_of (bits_at (bits octets.now) state.old.at alphabet.now.width))) (bits octets.now) state.old state.new result }
{
    let code = next_code(octets, alphabet.width, node, state)?;
    if !has_code(alphabet, code) {
        fail(state, node, FaultKind::NotInAlphabet);
        return None;
    }
    Some(())
}

/// Reads `count` characters, if it is quick to tell that their codes are all of characters. Returns the
/// index of the first bit. Otherwise it reads nothing.
#[inline(always)]
fn next_codes(
    octets: &[u8],
    alphabet: &Alphabet<'_>,
    count: usize,
    state: &mut State,
) -> Option<usize>
    requires size { 8 * length octets.now < 2 ^ 64 }
    requires alphabet { IsAlphabet alphabet.now }
    requires within { IsWithin (bits octets.now) state.old }
    ensures unchanged { IsNone result → state.new ≡ state.old }
    ensures onward { IsOnward (bits octets.now) state.old state.new }
    ensures inside { IfSome result (λ at. at + alphabet.now.width * count ≤ 8 * length octets.now) }
    ensures read { (node : ℕ) → IfSome result (λ at. Starts (each (character alphabet.now.is_aligned alphabet.now.ranges.now node) count).encodes
        (rest (bits octets.now) state.old) (characters_at alphabet.now (bits octets.now) at count) (rest (bits octets.now) state.new)) }
{
    let at = state.at;
    match alphabet.width.checked_mul(count) {
        Some(size) if size <= state.end - at => {
            if !are_quick_codes(octets, alphabet, at, count) {
                return None;
            }
            state.at = at + size;
            Some(at)
        }
        _ => None,
    }
}

/// Reads `count` characters, and returns the index of the first bit.
#[inline(always)]
pub(crate) fn next_characters(
    octets: &[u8],
    alphabet: &Alphabet<'_>,
    count: usize,
    node: usize,
    state: &mut State,
) -> Option<usize>
    requires size { 8 * length octets.now < 2 ^ 64 }
    requires alphabet { IsAlphabet alphabet.now }
    requires within { IsWithin (bits octets.now) state.old }
    ensures onward { IsOnward (bits octets.now) state.old state.new }
    ensures inside { IfSome result (λ at. at + alphabet.now.width * count ≤ 8 * length octets.now) }
    ensures read { IsRead (characters alphabet.now.is_aligned alphabet.now.ranges.now node count)
        (λ at. characters_at alphabet.now (bits octets.now) at count) (bits octets.now) state.old state.new result }
{
    if let Some(at) = next_codes(octets, alphabet, count, state) {
        return Some(at);
    }
    next_of_any(
        octets,
        alphabet.ranges,
        alphabet.is_aligned,
        count,
        node,
        state,
    )
}

/// Reads `count` characters of any alphabet, and returns the index of the first bit.
#[inline(never)]
fn next_of_any(
    octets: &[u8],
    ranges: &[Range],
    is_aligned: bool,
    count: usize,
    node: usize,
    state: &mut State,
) -> Option<usize>
    requires size { 8 * length octets.now < 2 ^ 64 }
    requires within { IsWithin (bits octets.now) state.old }
    ensures onward { IsOnward (bits octets.now) state.old state.new }
    ensures inside { IfSome result (λ at. at + width_of is_aligned ranges.now * count ≤ 8 * length octets.now) }
    ensures read { (a : the_alphabet.Alphabet) → IsAlphabet a → a.ranges.now ≡ ranges.now → a.is_aligned ≡ is_aligned
        → IsRead (characters is_aligned ranges.now node count) (λ at. characters_at a (bits octets.now) at count)
        (bits octets.now) state.old state.new result }
{
    let alphabet = alphabet_of(ranges, is_aligned);
    next_each(octets, &alphabet, count, node, state)
}

/// Reads `count` characters one after another, and returns the index of the first bit.
fn next_each(
    octets: &[u8],
    alphabet: &Alphabet<'_>,
    count: usize,
    node: usize,
    state: &mut State,
) -> Option<usize>
    requires size { 8 * length octets.now < 2 ^ 64 }
    requires alphabet { IsAlphabet alphabet.now }
    requires within { IsWithin (bits octets.now) state.old }
    ensures onward { IsOnward (bits octets.now) state.old state.new }
    ensures inside { IfSome result (λ at. at + alphabet.now.width * count ≤ 8 * length octets.now) }
    ensures read { IsRead (characters alphabet.now.is_aligned alphabet.now.ranges.now node count)
        (λ at. characters_at alphabet.now (bits octets.now) at count) (bits octets.now) state.old state.new result }
{
    let at = state.at;
    let mut left = count;
    while left > 0 {
        left -= 1;
        next_character(octets, alphabet, node, state)?;
    }
    Some(at)
}
