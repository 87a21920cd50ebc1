//! Strings whose characters are those of Unicode, in UTF-8.

ghost use Rattle.std.specs.Prelude.{◌≡◌, ◌≢◌, ◌↔◌, ◌⊎◌, ◌<◌, ◌≤◌, ◌+◌, ◌*◌, ◌%◌, ◌^◌, ◌++◌, ℕ, true, false, Some, None, length, take, drop, IsTrue, IfSome, IfNone, encode_utf8_all};
ghost use Rattle.std.specs.Char.{IsScalar};
ghost use Rattle.asn1_characters.specs.Sets.{base_set, has_character};
ghost use Rattle.asn1_characters.specs.declared.character_set.CharacterSetName.{CharacterSetName};
ghost use Rattle.asn1_strings.specs.Strings.{character_octets};
ghost use Rattle.asn1_c.specs.Sets.{set_named, character_count, character_at, is_unicode, IsSpellable, utf8_of};

use crate::codes::{CHARACTER, DONE, KIND, NO_UNICODE, ODD, ROOM, SURROGATE, TOO_MANY};
use crate::strings::{pair_at, set_of_kind};
use crate::text::put_at;
use asn1_values::CharacterSetName;

/// Counts the characters of a string's octets.
#[unsafe(no_mangle)]
pub extern "C" fn asn1v_string_count(kind: u32, octets: &[u8], count: &mut usize) -> u32
    ensures counted { (name : CharacterSetName) → set_named kind ≡ Some name → result ≡ 0
        → count.new * character_octets name ≡ length octets.now }
    ensures odd { (name : CharacterSetName) → set_named kind ≡ Some name
        → result ≡ 11 ↔ (length octets.now % character_octets name ≢ 0) }
    ensures kind { result ≡ 10 ↔ (set_named kind ≡ None) }
    ensures codes { result ≢ 0 → result ≢ 11 → result ≡ 10 }
    ensures unchanged { result ≢ 0 → count.new ≡ count.old }
{
    let Some(name) = set_of_kind(kind) else {
        return KIND;
    };
    let size = size_of_character(name);
    if octets.len() % size != 0 {
        return ODD;
    }
    *count = octets.len() / size;
    DONE
}

/// Writes the characters of a string in UTF-8 to the front of the room, of which three octets for
/// each character are always enough. How many octets they are is returned also where the room is too
/// small. The index of the first character that is rejected is counted in characters.
#[unsafe(no_mangle)]
pub extern "C" fn asn1v_string_to_utf8(
    kind: u32,
    octets: &[u8],
    room: &mut [u8],
    count: &mut usize,
    place: &mut usize,
    character: &mut u32,
) -> u32
    ensures written { (name : CharacterSetName) → set_named kind ≡ Some name → result ≡ 0
        → take count.new room.new ≡ utf8_of name octets.now }
    ensures rest { result ≡ 0 → drop count.new room.new ≡ drop count.new room.old }
    ensures count { (name : CharacterSetName) → set_named kind ≡ Some name
        → (result ≡ 0) ⊎ (result ≡ 3) → count.new ≡ length (utf8_of name octets.now) }
    ensures most { (name : CharacterSetName) → set_named kind ≡ Some name
        → (result ≡ 0) ⊎ (result ≡ 3) → count.new ≤ 3 * character_count name octets.now }
    ensures right { (name : CharacterSetName) → set_named kind ≡ Some name
        → (result ≡ 0) ⊎ (result ≡ 3) → (j : ℕ) → j < character_count name octets.now
        → IsSpellable name (character_at name octets.now j) }
    ensures character { (name : CharacterSetName) → set_named kind ≡ Some name → result ≡ 12
        → has_character (base_set name) character.new ≡ false }
    ensures surrogate { result ≡ 26 → ¬ (IsScalar character.new) }
    ensures place { (name : CharacterSetName) → set_named kind ≡ Some name
        → (result ≡ 12) ⊎ (result ≡ 26) → (place.new < character_count name octets.now)
        × (character.new ≡ character_at name octets.now place.new) }
    ensures first { (name : CharacterSetName) → set_named kind ≡ Some name
        → (result ≡ 12) ⊎ (result ≡ 26) → (j : ℕ) → j < place.new
        → IsSpellable name (character_at name octets.now j) }
    ensures kind { result ≡ 10 ↔ (set_named kind ≡ None) }
    ensures no_unicode { (name : CharacterSetName) → set_named kind ≡ Some name
        → result ≡ 25 ↔ (is_unicode name ≡ false) }
    ensures odd { (name : CharacterSetName) → set_named kind ≡ Some name → is_unicode name ≡ true
        → result ≡ 11 ↔ (length octets.now % character_octets name ≢ 0) }
    ensures too_many { (name : CharacterSetName) → set_named kind ≡ Some name → result ≡ 23
        → 2 ^ 64 ≤ length (utf8_of name octets.now) }
    ensures room { result ≡ 3 → length room.old < count.new }
    ensures enough { result ≡ 0 → count.new ≤ length room.old }
    ensures codes { result ≢ 0 → result ≢ 3 → result ≢ 12 → result ≢ 26 → result ≢ 10
        → result ≢ 25 → result ≢ 11 → result ≡ 23 }
    ensures unchanged { result ≢ 0 → room.new ≡ room.old }
    ensures kept { result ≢ 0 → result ≢ 3 → count.new ≡ count.old }
    ensures untold { result ≢ 12 → result ≢ 26
        → (place.new ≡ place.old) × (character.new ≡ character.old) }
{
    let Some(name) = set_of_kind(kind) else {
        return KIND;
    };
    if !is_of_unicode(name) {
        return NO_UNICODE;
    }
    if octets.len() % size_of_character(name) != 0 {
        return ODD;
    }
    if let Some(i) = first_unspelled(name, octets) {
        *place = i;
        *character = character_of(name, octets, i);
        return code_of_unspelled(name, *character);
    }
    let length = utf8_length(name, octets);
    if length > usize::MAX as u128 {
        return TOO_MANY;
    }
    *count = length as usize;
    if length > room.len() as u128 {
        return ROOM;
    }
    put_utf8(name, octets, room);
    DONE
}

/// Returns why a character is not encoded in UTF-8.
fn code_of_unspelled(name: CharacterSetName, character: u32) -> u32
    requires { ¬ (IsSpellable name character) }
    ensures character { result ≡ 12 → has_character (base_set name) character ≡ false }
    ensures surrogate { result ≡ 26 → ¬ (IsScalar character) }
    ensures codes { (result ≡ 12) ⊎ (result ≡ 26) }
{
    if name.contains(character) {
        SURROGATE
    } else {
        CHARACTER
    }
}

/// Returns how many octets a character has.
pub(crate) fn size_of_character(name: CharacterSetName) -> usize
    ensures size { result ≡ character_octets name }
    ensures some { 0 < result }
{
    match name {
        CharacterSetName::Bmp => 2,
        _ => 1,
    }
}

/// Returns whether the characters of the string are those of Unicode.
pub(crate) fn is_of_unicode(name: CharacterSetName) -> bool
    ensures { result ≡ is_unicode name }
{
    match name {
        CharacterSetName::General | CharacterSetName::Graphic | CharacterSetName::Teletex => false,
        _ => true,
    }
}

/// Returns the character at an index.
fn character_of(name: CharacterSetName, octets: &[u8], i: usize) -> u32
    requires { i < character_count name octets.now }
    ensures character { result ≡ character_at name octets.now i }
    ensures small { result < 65536 }
{
    match name {
        CharacterSetName::Bmp => pair_at(octets, i),
        _ => u32::from(octets[i]),
    }
}

/// Returns whether the set has the character, and UTF-8 has octets for it.
fn is_spellable(name: CharacterSetName, character: u32) -> bool
    ensures { IsTrue result ↔ IsSpellable name character }
{
    name.contains(character) && char::from_u32(character).is_some()
}

/// Returns the index of the first character that is not encoded in UTF-8.
fn first_unspelled(name: CharacterSetName, octets: &[u8]) -> Option<usize>
    ensures wrong { IfSome result (λ i. (i < character_count name octets.now)
        × ¬ (IsSpellable name (character_at name octets.now i))) }
    ensures first { IfSome result (λ i. (j : ℕ) → j < i
        → IsSpellable name (character_at name octets.now j)) }
    ensures none { IfNone result ((j : ℕ) → j < character_count name octets.now
        → IsSpellable name (character_at name octets.now j)) }
{
    for i in 0..octets.len() / size_of_character(name) {
        if !is_spellable(name, character_of(name, octets, i)) {
            return Some(i);
        }
    }
    None
}

/// Returns the character at an index, as one of Unicode.
fn char_of(name: CharacterSetName, octets: &[u8], i: usize) -> char
    requires place { i < character_count name octets.now }
    requires scalar { IsScalar (character_at name octets.now i) }
    ensures character { result ≡ character_at name octets.now i }
    ensures small { result < 65536 }
{
    match char::from_u32(character_of(name, octets, i)) {
        Some(character) => character,
        None => unreachable!(),
    }
}

/// Returns how many octets the characters have in UTF-8.
fn utf8_length(name: CharacterSetName, octets: &[u8]) -> u128
    requires { (j : ℕ) → j < character_count name octets.now
        → IsSpellable name (character_at name octets.now j) }
    ensures length { result ≡ length (utf8_of name octets.now) }
    ensures most { result ≤ 3 * character_count name octets.now }
{
    let mut total = 0;
    for i in 0..octets.len() / size_of_character(name) {
        total += char_of(name, octets, i).len_utf8() as u128;
    }
    total
}

/// Writes the characters in UTF-8 to the front of the room.
fn put_utf8(name: CharacterSetName, octets: &[u8], room: &mut [u8])
    requires spellable { (j : ℕ) → j < character_count name octets.now
        → IsSpellable name (character_at name octets.now j) }
    requires room { length (utf8_of name octets.now) ≤ length room.old }
    ensures { room.new ≡ utf8_of name octets.now
        ++ drop (length (utf8_of name octets.now)) room.old }
{
    let mut at = 0;
    for i in 0..octets.len() / size_of_character(name) {
        let mut buffer = [0; 4];
        let spelled = char_of(name, octets, i).encode_utf8(&mut buffer);
        at = put_at(spelled.as_bytes(), room, at);
    }
}
