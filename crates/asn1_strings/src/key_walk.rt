//! Strings at the keys that bits encode: one walk over words of several keys.
ghost use Rattle.std.specs.Prelude.{◌≡◌, ◌≢◌, ◌≤◌, ◌<◌, ◌+◌, ◌*◌, ◌/◌, true, [], Some, length, map as map_of, vec_len, vec_capacity, IfSome, IsNone};
ghost use Rattle.asn1_bits.specs.BitStr.{bits_of};
ghost use Rattle.asn1_characters.specs.Sets.{base_set, has_character};
ghost use Rattle.asn1_strings.specs.Strings.{Answers, Refuses};
ghost use Rattle.asn1_strings.specs.Maps.{string_of_keys};
ghost use Rattle.asn1_strings.specs.KeyNumbers.{numbers_of};
ghost use Rattle.asn1_strings.specs.KeyWalk.{AreCharactersOf};

use crate::code_unit::CodeUnit;
use crate::key_maps::Keys;
use crate::pieces::BitPieces;
use crate::static_permitted_alphabet::StaticPermittedAlphabet;
use asn1_characters::widths::codes_of;
use asn1_characters::{CharacterSetName, PermittedAlphabetError};
use std::alloc::Global;

/// Returns the string of the characters at these keys.
#[inline(always)]
pub(crate) fn decode_string<'a, S: StaticPermittedAlphabet, M: Keys>(
    alloc: Global,
    keys: BitPieces<'a>,
    map: &M,
) -> Result<S, PermittedAlphabetError>
    ensures { let numbers = numbers_of keys.entry in
        Answers S.characters result
        (string_of_keys S.CHARACTER_SET_NAME (M.key_map map.now).get numbers) }
{
    match decode_units::<S, M>(alloc, keys, map) {
        Some(units) => Ok(S::from_units(units)),
        None => Err(refusal_at_keys::<S, M>(keys, map)),
    }
}

/// Returns the units of the characters at these keys, read in one walk; `None` if one is invalid,
/// or if out of memory.
#[inline(always)]
fn decode_units<'a, S: StaticPermittedAlphabet, M: Keys>(
    alloc: Global,
    keys: BitPieces<'a>,
    map: &M,
) -> Option<Vec<S::T>>
    ensures some { let numbers = numbers_of keys.entry in
        IfSome result (λ v. (length v.items ≡ length numbers)
        × AreCharactersOf S.CHARACTER_SET_NAME (M.key_map map.now).get numbers (length numbers)
        (map_of S.T.value v.items)) }
    ensures none { let numbers = numbers_of keys.entry in
        IsNone result → numbers ≢ [] }
{
    let count = keys.count();
    let each = keys_in_word(keys.width);
    let Ok(mut units) = Vec::with_capacity(alloc, count) else {
        return None;
    };
    let mut right = true;
    for _ in 0..count / each {
        right = push_word::<S, M>(&mut units, keys, map, each) & right;
    }
    right = push_word::<S, M>(&mut units, keys, map, count % each) & right;
    if right { Some(units) } else { None }
}

/// Appends the units of the next `count` characters, and says whether all were seen to be right.
#[inline(always)]
fn push_word<'a, S: StaticPermittedAlphabet, M: Keys>(
    units: &mut Vec<S::T>,
    keys: BitPieces<'a>,
    map: &M,
    count: usize,
) -> bool
    requires word { count * keys.width ≤ 64 }
    requires within { vec_len units.old + count ≤ length (bits_of keys.bits) / keys.width }
    requires room { vec_len units.old + count ≤ vec_capacity units.old }
    ensures len { vec_len units.new ≡ vec_len units.old + count }
    ensures capacity { vec_capacity units.new ≡ vec_capacity units.old }
    ensures read { let numbers = numbers_of keys.entry in
        let get = (M.key_map map.now).get in
        let name = S.CHARACTER_SET_NAME in
        result ≡ true
        → AreCharactersOf name get numbers (vec_len units.old) (map_of S.T.value units.old.items)
        → AreCharactersOf name get numbers (vec_len units.old + count)
        (map_of S.T.value units.new.items) }
    ensures empty { count ≡ 0 → result ≡ true }
{
    let codes = codes_of(keys.width as u32);
    let word = keys.word(units.len(), count);
    let mut right = true;
    for i in 0..count {
        let key = (word >> (keys.width * (count - 1 - i))) % codes;
        let (character, is_right) = checked_character::<S>(map.get(key as u32));
        units.push_reserved(<S::T as CodeUnit>::from_character(character));
        right = right & is_right;
    }
    right
}

/// Returns the character and true if it was found and the set has it, otherwise a space and false,
/// so that the loop goes on without a branch.
#[inline(always)]
fn checked_character<S: StaticPermittedAlphabet>(found: Option<u32>) -> (u32, bool)
    ensures held { has_character (base_set S.CHARACTER_SET_NAME) result.0 ≡ true }
    ensures right { result.1 ≡ true → found ≡ Some result.0 }
{
    match found {
        Some(character) if is_in(S::CHARACTER_SET_NAME, character) => (character, true),
        _ => (0x20, false),
    }
}

/// Returns whether a set has the character, by ranges.
#[inline(always)]
fn is_in(name: CharacterSetName, character: u32) -> bool
    ensures { result ≡ has_character (base_set name) character }
{
    match name {
        CharacterSetName::Bmp => character <= 0xFFFD,
        _ => character <= 0xFF && name.has_octet(character as u8),
    }
}

/// Keys per 64-bit word. Rounded down to a multiple of 8 if at least 8 fit, so that every word
/// starts at the same bit offset.
#[inline(always)]
fn keys_in_word(width: usize) -> usize
    requires some { 1 ≤ width }
    requires few { width ≤ 64 }
    ensures some { 1 ≤ result }
    ensures fits { result * width ≤ 64 }
    ensures most { result < 8 → 64 < (result + 1) * width }
    ensures most_eights { 64 < (result + 8) * width }
{
    let most = 64 / width;
    if most >= 8 { most / 8 * 8 } else { most }
}

/// Returns the error of the first invalid key; if none is invalid, `Memory`. There are keys.
#[cold]
#[inline(never)]
fn refusal_at_keys<'a, S: StaticPermittedAlphabet, M: Keys>(
    keys: BitPieces<'a>,
    map: &M,
) -> PermittedAlphabetError
    requires { numbers_of keys ≢ [] }
    ensures { let numbers = numbers_of keys.entry in
        Refuses result (string_of_keys S.CHARACTER_SET_NAME (M.key_map map.now).get numbers) }
{
    for i in 0..keys.count() {
        let key = keys.character(i);
        let Some(character) = map.get(key) else {
            return PermittedAlphabetError::IndexNotFound {
                index: key as usize,
            };
        };
        if !S::contains_char(character) {
            return PermittedAlphabetError::InvalidRestrictedString {
                source: S::invalid_restricted_string(character),
            };
        }
    }
    PermittedAlphabetError::Memory
}
