//! Maps from keys to characters, by which strings are read.
ghost use Rattle.std.specs.Prelude.{◌≡◌, ◌≤◌, ◌^◌};
ghost use Rattle.asn1_bits.specs.BitStr.{bits_of};
ghost use Rattle.asn1_strings.specs.Strings.{Answers, string_of_characters};
ghost use Rattle.asn1_strings.specs.Maps.{KeyMap, base_map, map_of_entries, string_of_map};
ghost use Rattle.asn1_strings.specs.KeyWalk.{itself};
ghost use Rattle.asn1_strings.specs.KeyNumbers.{numbers_of};

use crate::key_walk::decode_string;
use crate::pieces::BitPieces;
use crate::static_permitted_alphabet::StaticPermittedAlphabet;
use asn1_bits::BitStr;
use asn1_characters::widths::{ceil_log2, codes_of};
use asn1_characters::{CharacterSetName, PermittedAlphabetError};
use std::alloc::Global;
use std::collections::BTreeMap;

// A map from keys to characters.
pub(crate) trait Keys {
    // What strings read of it.
    ghost key_map: { Self → KeyMap };

    fn get(&self, key: u32) -> Option<u32>
        ensures { result ≡ (key_map self.now).get key };
}

// A map that says how many entries it has, and its largest character.
pub(crate) trait CountedKeys: Keys {
    fn count(&self) -> u64
        ensures { result ≡ (Self.key_map self.now).count };

    fn largest(&self) -> u32
        ensures { result ≡ (Self.key_map self.now).largest };
}

// A base set, with its indices as keys.
impl Keys for CharacterSetName {
    ghost key_map = { base_map };

    fn get(&self, key: u32) -> Option<u32> {
        self.character_at(key)
    }
}

impl CountedKeys for CharacterSetName {
    fn count(&self) -> u64 {
        CharacterSetName::count(*self) as u64
    }

    fn largest(&self) -> u32 {
        CharacterSetName::largest(*self)
    }
}

impl Keys for &BTreeMap<u32, u32> {
    ghost key_map = { λ m. map_of_entries m.now };

    fn get(&self, key: u32) -> Option<u32> {
        BTreeMap::get(self, &key).copied()
    }
}

impl CountedKeys for &BTreeMap<u32, u32> {
    fn count(&self) -> u64 {
        self.len() as u64
    }

    fn largest(&self) -> u32 {
        let mut most = 0;
        for character in self.values() {
            most = most.max(*character);
        }
        most
    }
}

// Each number as its own key, for bits that encode the characters themselves.
struct Identity;

impl Keys for Identity {
    ghost key_map = { λ numbers. itself };

    fn get(&self, key: u32) -> Option<u32> {
        Some(key)
    }
}

/// Returns the string of the characters that bits encode, `width` bits each.
#[inline(always)]
pub(crate) fn string_of_numbers<'a, S: StaticPermittedAlphabet>(
    alloc: Global,
    characters: BitPieces<'a>,
) -> Result<S, PermittedAlphabetError>
    ensures { let numbers = numbers_of characters.entry in
        Answers S.characters result (string_of_characters S.CHARACTER_SET_NAME numbers) }
{
    decode_string::<S, Identity>(alloc, characters, &Identity)
}

/// Returns the string of bits in a map: by keys where its largest character needs more bits than a
/// key has.
#[inline(always)]
pub(crate) fn string_of_bits_in<'a, S: StaticPermittedAlphabet, M: CountedKeys>(
    alloc: Global,
    input: BitStr<'a>,
    map: &'a M,
) -> Result<S, PermittedAlphabetError>
    requires { (M.key_map map.now).count ≤ 2 ^ 32 }
    ensures { Answers S.characters result
        (string_of_map S.CHARACTER_SET_NAME (M.key_map map.now) (bits_of input.entry)) }
{
    let width = ceil_log2(map.count());
    if width == 0 || input.len() % width as usize != 0 {
        return Err(PermittedAlphabetError::InvalidData {
            length: input.len(),
            width: width as usize,
        });
    }
    let pieces = BitPieces {
        bits: input,
        width: width as usize,
    };
    if codes_of(width) <= map.largest() as u64 {
        decode_string::<S, M>(alloc, pieces, map)
    } else {
        string_of_numbers::<S>(alloc, pieces)
    }
}
