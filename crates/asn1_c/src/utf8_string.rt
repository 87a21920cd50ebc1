//! Strings whose characters are those of Unicode, out of UTF-8.

ghost use Rattle.std.specs.Prelude.{◌≡◌, ◌≢◌, ◌↔◌, ◌⊎◌, ◌<◌, ◌≤◌, ◌+◌, ◌*◌, ◌^◌, ◌++◌, ℕ, true, false, Some, None, length, take, drop, IfSome, IfNone, slice_index};
ghost use Rattle.std.specs.Str.{chars, IsUtf8};
ghost use Rattle.std.specs.Str.Lossy.{utf8_valid_len};
ghost use Rattle.asn1_characters.specs.Sets.{base_set, has_character};
ghost use Rattle.asn1_characters.specs.declared.character_set.CharacterSetName.{CharacterSetName};
ghost use Rattle.asn1_strings.specs.Strings.{character_octets};
ghost use Rattle.asn1_c.specs.Sets.{set_named, is_unicode, octets_of_character, octets_of_characters};

use crate::codes::{CHARACTER, DONE, KIND, NO_UNICODE, NOT_UTF8, ROOM, TOO_MANY};
use crate::string_utf8::{is_of_unicode, size_of_character};
use crate::strings::set_of_kind;
use crate::text::put_at;
use asn1_values::CharacterSetName;
use std::str;

/// Writes the octets of the string of a text's characters to the front of the room, of which one
/// octet for each octet of the text is always enough, two for BMPString. How many octets they are
/// is returned also where the room is too small. The index of the first character that is not in the
/// set is counted in characters; of a text that is not UTF-8 it is how many octets its longest
/// front has that is.
#[unsafe(no_mangle)]
pub extern "C" fn asn1v_string_from_utf8(
    kind: u32,
    text: &[u8],
    room: &mut [u8],
    count: &mut usize,
    place: &mut usize,
    character: &mut u32,
) -> u32
    ensures written { (name : CharacterSetName) → set_named kind ≡ Some name → result ≡ 0
        → take count.new room.new ≡ octets_of_characters name (chars text.now) }
    ensures rest { result ≡ 0 → drop count.new room.new ≡ drop count.new room.old }
    ensures count { (name : CharacterSetName) → set_named kind ≡ Some name
        → (result ≡ 0) ⊎ (result ≡ 3)
        → count.new ≡ character_octets name * length (chars text.now) }
    ensures most { (name : CharacterSetName) → set_named kind ≡ Some name
        → (result ≡ 0) ⊎ (result ≡ 3) → count.new ≤ character_octets name * length text.now }
    ensures text { (result ≡ 0) ⊎ ((result ≡ 3) ⊎ (result ≡ 12)) → IsUtf8 text.now }
    ensures right { (name : CharacterSetName) → set_named kind ≡ Some name
        → (result ≡ 0) ⊎ (result ≡ 3) → (j : ℕ) → j < length (chars text.now)
        → has_character (base_set name) (slice_index (chars text.now) j) ≡ true }
    ensures wrong { (name : CharacterSetName) → set_named kind ≡ Some name → result ≡ 12
        → (place.new < length (chars text.now))
        × (character.new ≡ slice_index (chars text.now) place.new)
        × (has_character (base_set name) character.new ≡ false) }
    ensures first { (name : CharacterSetName) → set_named kind ≡ Some name → result ≡ 12
        → (j : ℕ) → j < place.new
        → has_character (base_set name) (slice_index (chars text.now) j) ≡ true }
    ensures not_utf8 { result ≡ 27
        → ¬ (IsUtf8 text.now) × (place.new ≡ utf8_valid_len text.now) }
    ensures kind { result ≡ 10 ↔ (set_named kind ≡ None) }
    ensures no_unicode { (name : CharacterSetName) → set_named kind ≡ Some name
        → result ≡ 25 ↔ (is_unicode name ≡ false) }
    ensures too_many { (name : CharacterSetName) → set_named kind ≡ Some name → result ≡ 23
        → 2 ^ 64 ≤ character_octets name * length (chars text.now) }
    ensures room { result ≡ 3 → length room.old < count.new }
    ensures enough { result ≡ 0 → count.new ≤ length room.old }
    ensures codes { result ≢ 0 → result ≢ 3 → result ≢ 12 → result ≢ 27 → result ≢ 10
        → result ≢ 25 → result ≡ 23 }
    ensures unchanged { result ≢ 0 → room.new ≡ room.old }
    ensures kept { result ≢ 0 → result ≢ 3 → count.new ≡ count.old }
    ensures untold { result ≢ 12
        → (result ≢ 27 → place.new ≡ place.old) × (character.new ≡ character.old) }
{
    let Some(name) = set_of_kind(kind) else {
        return KIND;
    };
    if !is_of_unicode(name) {
        return NO_UNICODE;
    }
    let characters = match str::from_utf8(text) {
        Ok(characters) => characters,
        Err(wrong) => {
            *place = wrong.valid_up_to();
            return NOT_UTF8;
        }
    };
    if let Some((i, found)) = first_outside(name, characters) {
        *place = i;
        *character = found;
        return CHARACTER;
    }
    let Some(length) = size_of_character(name).checked_mul(count_of(characters)) else {
        return TOO_MANY;
    };
    *count = length;
    if length > room.len() {
        return ROOM;
    }
    put_characters(name, characters, room);
    DONE
}

/// Returns how many characters a text has.
fn count_of(text: &str) -> usize
    ensures count { result ≡ length (chars text.now) }
    ensures most { result ≤ length text.now }
{
    text.chars().count()
}

/// Returns the first character of the text that is not in the set, and its index.
fn first_outside(name: CharacterSetName, text: &str) -> Option<(usize, u32)>
    ensures wrong { IfSome result (λ r. (r.0 < length (chars text.now))
        × (r.1 ≡ slice_index (chars text.now) r.0) × (has_character (base_set name) r.1 ≡ false)) }
    ensures first { IfSome result (λ r. (j : ℕ) → j < r.0
        → has_character (base_set name) (slice_index (chars text.now) j) ≡ true) }
    ensures none { IfNone result ((j : ℕ) → j < length (chars text.now)
        → has_character (base_set name) (slice_index (chars text.now) j) ≡ true) }
{
    let mut place = 0;
    for character in text.chars() {
        let code = character as u32;
        if !name.contains(code) {
            return Some((place, code));
        }
        place += 1;
    }
    None
}

/// Writes the octets of a text's characters to the front of the room.
fn put_characters(name: CharacterSetName, text: &str, room: &mut [u8])
    requires set { (j : ℕ) → j < length (chars text.now)
        → has_character (base_set name) (slice_index (chars text.now) j) ≡ true }
    requires room { character_octets name * length (chars text.now) ≤ length room.old }
    ensures { room.new ≡ octets_of_characters name (chars text.now)
        ++ drop (character_octets name * length (chars text.now)) room.old }
{
    let mut at = 0;
    for character in text.chars() {
        at = put_character(name, character as u32, room, at);
    }
}

/// Writes the octets of a character to the room from an index on, and returns the index after them.
fn put_character(name: CharacterSetName, character: u32, room: &mut [u8], at: usize) -> usize
    requires set { has_character (base_set name) character ≡ true }
    requires room { at + character_octets name ≤ length room.old }
    ensures put { room.new ≡ take at room.old
        ++ (octets_of_character name character ++ drop (at + character_octets name) room.old) }
    ensures place { result ≡ at + character_octets name }
{
    match name {
        CharacterSetName::Bmp => {
            let octets = [(character / 256) as u8, (character % 256) as u8];
            put_at(&octets, room, at)
        }
        _ => put_at(&[character as u8], room, at),
    }
}
