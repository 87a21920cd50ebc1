//! The eight restricted character strings by their octets (X.690 8.23).

ghost use Rattle.std.specs.Prelude.{◌≡◌, ◌≢◌, ◌↔◌, ◌<◌, ◌+◌, ◌*◌, ◌/◌, ◌%◌, ℕ, true, false, Some, None, length, slice_index, IfSome, IfNone};
ghost use Rattle.asn1_characters.specs.Sets.{base_set, has_character};
ghost use Rattle.asn1_characters.specs.declared.character_set.CharacterSetName.{CharacterSetName};
ghost use Rattle.asn1_characters.specs.declared.character_set.CharacterSetName.TheVariants.{Bmp};
ghost use Rattle.asn1_strings.specs.Strings.{character_octets};
ghost use Rattle.asn1_c.specs.Sets.{set_named, character_count, character_at};

use crate::codes::{CHARACTER, DONE, KIND, ODD};
use asn1_values::CharacterSetName;

/// Returns the set of a number: 0 to 7 for BMPString, GeneralString, GraphicString, IA5String,
/// NumericString, PrintableString, TeletexString and VisibleString.
pub(crate) fn set_of_kind(kind: u32) -> Option<CharacterSetName>
    ensures { result ≡ set_named kind }
{
    match kind {
        0 => Some(CharacterSetName::Bmp),
        1 => Some(CharacterSetName::General),
        2 => Some(CharacterSetName::Graphic),
        3 => Some(CharacterSetName::IA5),
        4 => Some(CharacterSetName::Numeric),
        5 => Some(CharacterSetName::Printable),
        6 => Some(CharacterSetName::Teletex),
        7 => Some(CharacterSetName::Visible),
        _ => None,
    }
}

/// Returns the index of the first octet that is no character of the set.
fn first_wrong_octet(name: CharacterSetName, octets: &[u8]) -> Option<usize>
    ensures wrong { IfSome result (λ i. (i < length octets.now)
        × (has_character (base_set name) (slice_index octets.now i) ≡ false)) }
    ensures first { IfSome result (λ i. (j : ℕ) → j < i
        → has_character (base_set name) (slice_index octets.now j) ≡ true) }
    ensures none { IfNone result ((j : ℕ) → j < length octets.now
        → has_character (base_set name) (slice_index octets.now j) ≡ true) }
{
    for (i, octet) in octets.iter().enumerate() {
        if !name.has_octet(*octet) {
            return Some(i);
        }
    }
    None
}

/// Returns the index of the first pair of octets that is no character of `BmpString`, counted in
/// pairs.
fn first_wrong_pair(octets: &[u8]) -> Option<usize>
    ensures wrong { IfSome result (λ i. (2 * i + 1 < length octets.now)
        × (has_character (base_set Bmp) (character_at Bmp octets.now i) ≡ false)) }
    ensures first { IfSome result (λ i. (j : ℕ) → j < i
        → has_character (base_set Bmp) (character_at Bmp octets.now j) ≡ true) }
    ensures none { IfNone result ((j : ℕ) → 2 * j + 1 < length octets.now
        → has_character (base_set Bmp) (character_at Bmp octets.now j) ≡ true) }
{
    for i in 0..octets.len() / 2 {
        if !CharacterSetName::Bmp.contains(pair_at(octets, i)) {
            return Some(i);
        }
    }
    None
}

/// Returns the number of a pair of octets.
pub(crate) fn pair_at(octets: &[u8], i: usize) -> u32
    requires { 2 * i + 1 < length octets.now }
    ensures { result ≡ character_at Bmp octets.now i }
{
    256 * u32::from(octets[2 * i]) + u32::from(octets[2 * i + 1])
}

/// Finds the first invalid character of a string's octets: one octet a character, two in
/// BMPString. Its index is counted in characters.
#[unsafe(no_mangle)]
pub extern "C" fn asn1v_string_check(
    kind: u32,
    octets: &[u8],
    place: &mut usize,
    character: &mut u32,
) -> u32
    ensures right { (name : CharacterSetName) → set_named kind ≡ Some name → result ≡ 0
        → (j : ℕ) → j < character_count name octets.now
        → has_character (base_set name) (character_at name octets.now j) ≡ true }
    ensures wrong { (name : CharacterSetName) → set_named kind ≡ Some name → result ≡ 12
        → (place.new < character_count name octets.now)
        × (character.new ≡ character_at name octets.now place.new)
        × (has_character (base_set name) character.new ≡ false) }
    ensures first { (name : CharacterSetName) → set_named kind ≡ Some name → result ≡ 12
        → (j : ℕ) → j < place.new
        → has_character (base_set name) (character_at name octets.now j) ≡ true }
    ensures odd { (name : CharacterSetName) → set_named kind ≡ Some name
        → result ≡ 11 ↔ (length octets.now % character_octets name ≢ 0) }
    ensures kind { result ≡ 10 ↔ (set_named kind ≡ None) }
    ensures codes { result ≢ 0 → result ≢ 12 → result ≢ 11 → result ≡ 10 }
    ensures unchanged { result ≢ 12 → (place.new ≡ place.old) × (character.new ≡ character.old) }
{
    match set_of_kind(kind) {
        None => KIND,
        Some(CharacterSetName::Bmp) => {
            if octets.len() % 2 != 0 {
                return ODD;
            }
            match first_wrong_pair(octets) {
                Some(i) => {
                    *place = i;
                    *character = pair_at(octets, i);
                    CHARACTER
                }
                None => DONE,
            }
        }
        Some(name) => match first_wrong_octet(name, octets) {
            Some(i) => {
                *place = i;
                *character = u32::from(octets[i]);
                CHARACTER
            }
            None => DONE,
        },
    }
}
