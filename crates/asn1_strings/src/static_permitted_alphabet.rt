//! The calls that the eight strings have in common.
ghost use Rattle.std.specs.Prelude.{◌≡◌, ◌≢◌, ◌≤◌, ◌<◌, ◌^◌, ◌⊎◌, ℕ, Bool, true, List, [], ◌∷◌, ◌++◌, length, map, All, Ok, None, OnOk, OnErr, string_bytes};
ghost use Rattle.asn1_bits.specs.BitStr.{bits_of};
ghost use Rattle.asn1_characters.specs.Sets.{base_set, base_count, base_largest, base_width, base_indexed, has_character};
ghost use Rattle.std.specs.Option.{ForSome, option_copied};
ghost use Rattle.std.specs.BTreeMap.{btree_map_len};
ghost use Rattle.asn1_strings.specs.Maps.{string_of_alphabet};
ghost use Rattle.asn1_characters.specs.Errors.{own_error};
ghost use Rattle.asn1_strings.specs.Pieces.{pieces, unsigned};
ghost use Rattle.asn1_strings.specs.Strings.{Answers, character_octets, string_of_characters, string_of_octets, string_of_bits};

use crate::chars::Chars;
use crate::code_unit::CodeUnit;
use crate::key_maps::{string_of_bits_in, string_of_numbers};
use crate::octet_string::OctetString;
use crate::pieces::{BitPieces, OctetPieces};
use asn1_bits::{BitStr, BitString};
use asn1_characters::{
    CharacterRanges, CharacterSetName, HasCharacterSet, InvalidRestrictedString,
    PermittedAlphabetError,
};
use std::alloc::{AllocError, Global};
use std::collections::BTreeMap;

/// A restricted character string (X.680 41): a list of characters, each in the string's base set.
///
/// The calls that read a string examine the whole input, even if out of memory. Those that read
/// bits allocate room for all characters before they examine the first.
///
/// # Errors
///
/// A call that reads returns `Other` if the width is 0 octets, otherwise `InvalidData` if the input
/// is not a whole number of characters, otherwise the error of the first invalid character. It
/// returns `Memory` only if none of these applies and the string is not empty.
pub trait StaticPermittedAlphabet: HasCharacterSet + Sized + Drop {
    ghost use Rattle.asn1_characters.specs.declared.character_set.CharacterRanges.{CharacterRanges};

    /// The integer that keeps a character.
    type T: CodeUnit;

    ghost CHARACTER_SET_RANGES: { CharacterRanges };

    /// The first and last character of each range of the set, in the set's order; `as_slice`
    /// returns them.
    const CHARACTER_SET_RANGES: CharacterRanges;

    ghost CHARACTER_SET_COUNT: { ℕ };

    /// The number of characters of the set.
    const CHARACTER_SET_COUNT: u32;

    ghost CHARACTER_SET_WIDTH: { ℕ };

    /// The least number of bits with a code for each character of the set.
    const CHARACTER_SET_WIDTH: usize;

    ghost CHARACTER_SET_MAX: { ℕ };

    /// The largest character of the set.
    const CHARACTER_SET_MAX: u32;

    ghost IS_INDEXED: { Bool };

    /// Whether characters are encoded by their indices, since the largest does not fit the width.
    const IS_INDEXED: bool;

    /// The characters of a string.
    ghost characters: { Self → List ℕ };

    /// Returns the empty string.
    fn new(alloc: Global) -> Self
        ensures { characters result ≡ [] };

    /// Appends a character.
    ///
    /// The character must be in the string's base set.
    ///
    /// # Errors
    ///
    /// Returns `AllocError` if out of memory; the string is then unchanged.
    fn push_char(&mut self, character: u32) -> Result<(), AllocError>
        requires { has_character (base_set Self.CHARACTER_SET_NAME) character ≡ true }
        ensures ok { OnOk result (characters self.new ≡ characters self.old ++ character ∷ []) }
        ensures err { OnErr result (characters self.new ≡ characters self.old) };

    /// Reserves room for `additional` more characters.
    ///
    /// # Errors
    ///
    /// Returns `AllocError` if out of memory. It never fails for 0 characters. The string is
    /// unchanged.
    fn reserve(&mut self, additional: usize) -> Result<(), AllocError>
        ensures same { characters self.new ≡ characters self.old }
        ensures memory { OnErr result (additional ≢ 0) };

    /// Returns the number of characters.
    fn len(&self) -> usize
        ensures { result ≡ length (characters self.now) };

    /// Returns the string of these units.
    ///
    /// The characters of the units must be in the string's base set.
    fn from_units(units: Vec<Self::T>) -> Self
        requires { All (λ c. has_character (base_set Self.CHARACTER_SET_NAME) c ≡ true)
            (map Self.T.value units.items) }
        ensures { characters result ≡ map Self.T.value units.items };

    /// Returns an iterator over the characters.
    fn chars(&self) -> Chars<'_, Self::T>
        ensures list { result ≡ characters self.now }
        ensures in_set { All (λ c. has_character (base_set Self.CHARACTER_SET_NAME) c ≡ true)
            (characters self.now) };

    /// Returns whether the set has the character, as `CharacterSetName::contains`.
    fn contains_char(character: u32) -> bool
        ensures { result ≡ has_character (base_set Self.CHARACTER_SET_NAME) character }
    {
        Self::CHARACTER_SET_NAME.contains(character)
    }

    /// Returns the string's own error for a character.
    fn invalid_restricted_string(character: u32) -> InvalidRestrictedString
        ensures { result ≡ own_error Self.CHARACTER_SET_NAME character }
    {
        InvalidRestrictedString::of(Self::CHARACTER_SET_NAME, character)
    }

    /// Returns the string of characters of `width` octets each, most significant first.
    ///
    /// The width must be 0, 1, 2 or 4.
    ///
    /// # Errors
    ///
    /// Returns `Other` if the width is 0, otherwise `InvalidData` if the octets are not a whole
    /// number of characters, otherwise `InvalidRestrictedString` for the first character that the
    /// string may not hold, otherwise `Memory` if out of memory.
    final fn try_from_slice_with_width(
        alloc: Global,
        input: &[u8],
        width: usize,
    ) -> Result<Self, PermittedAlphabetError>
        requires { (width ≡ 0) ⊎ (width ≡ 1) ⊎ (width ≡ 2) ⊎ (width ≡ 4) }
        ensures { Answers characters result
            (string_of_octets Self.CHARACTER_SET_NAME width input.now) }
    {
        if width == 0 {
            return Err(PermittedAlphabetError::Other {
                name: Self::CHARACTER_SET_NAME,
            });
        }
        if input.len() % width != 0 {
            return Err(PermittedAlphabetError::InvalidData {
                length: input.len(),
                width,
            });
        }
        let name = Self::CHARACTER_SET_NAME;
        if width == <Self::T as CodeUnit>::OCTETS && <Self::T as CodeUnit>::are_in(name, input) {
            return copied_octets::<Self>(alloc, input);
        }
        string_of_pieces::<Self>(alloc, input, width)
    }

    /// Returns the string that these octets are the contents of (X.690 8.23): one octet a
    /// character, two in `BmpString`, most significant first.
    ///
    /// # Errors
    ///
    /// Returns `InvalidData` if the octets are not a whole number of characters, otherwise
    /// `InvalidRestrictedString` for the first character that the string may not hold, otherwise
    /// `Memory` if out of memory. An empty input never fails.
    final fn try_from_slice(alloc: Global, input: &[u8]) -> Result<Self, PermittedAlphabetError>
        ensures { let width = character_octets Self.CHARACTER_SET_NAME in
            Answers characters result (string_of_octets Self.CHARACTER_SET_NAME width input.now) }
    {
        Self::try_from_slice_with_width(alloc, input, <Self::T as CodeUnit>::OCTETS)
    }

    /// Returns the string of the octets of the text in UTF-8, as `try_from_slice`, for `BmpString`
    /// too.
    ///
    /// # Errors
    ///
    /// Returns the errors of `try_from_slice`.
    final fn try_from_str(alloc: Global, input: &str) -> Result<Self, PermittedAlphabetError>
        ensures { let width = character_octets Self.CHARACTER_SET_NAME in
            Answers characters result (string_of_octets Self.CHARACTER_SET_NAME width input.now) }
    {
        Self::try_from_slice(alloc, input.as_bytes())
    }

    /// Returns the string of the octets of the vector, as `try_from_slice`.
    ///
    /// # Errors
    ///
    /// Returns the errors of `try_from_slice`.
    final fn try_from_vec(alloc: Global, input: Vec<u8>) -> Result<Self, PermittedAlphabetError>
        ensures { let width = character_octets Self.CHARACTER_SET_NAME in
            Answers characters result (string_of_octets Self.CHARACTER_SET_NAME width input.items) }
    {
        Self::try_from_slice(alloc, input.as_slice())
    }

    /// Returns the string of the octets of the text in UTF-8, as `try_from_slice`, for `BmpString`
    /// too.
    ///
    /// # Errors
    ///
    /// Returns the errors of `try_from_slice`.
    final fn try_from_string(alloc: Global, input: String) -> Result<Self, PermittedAlphabetError>
        ensures { let width = character_octets Self.CHARACTER_SET_NAME in
            let octets = string_bytes input in
            Answers characters result (string_of_octets Self.CHARACTER_SET_NAME width octets) }
    {
        Self::try_from_slice(alloc, input.as_bytes())
    }

    /// Returns the string of the octets of the octet string, as `try_from_slice`.
    ///
    /// # Errors
    ///
    /// Returns the errors of `try_from_slice`.
    final fn try_from_octet_string(
        alloc: Global,
        input: OctetString,
    ) -> Result<Self, PermittedAlphabetError>
        ensures { let width = character_octets Self.CHARACTER_SET_NAME in
            Answers characters result (string_of_octets Self.CHARACTER_SET_NAME width input) }
    {
        Self::try_from_slice(alloc, input.as_ref())
    }

    /// Returns the string of characters of `width` bits each, by value, most significant first.
    ///
    /// The width must be at most 32.
    ///
    /// # Errors
    ///
    /// Returns `InvalidData` if the width is 0 or the bits are not a whole number of characters,
    /// otherwise `InvalidRestrictedString` for the first character that the string may not hold,
    /// otherwise `Memory` if out of memory.
    final fn try_from_bits(
        alloc: Global,
        input: BitStr<'_>,
        width: usize,
    ) -> Result<Self, PermittedAlphabetError>
        requires { width ≤ 32 }
        ensures { let bits = bits_of input.entry in
            Answers characters result (string_of_bits Self.CHARACTER_SET_NAME width bits) }
    {
        if width == 0 || input.len() % width != 0 {
            return Err(PermittedAlphabetError::InvalidData {
                length: input.len(),
                width,
            });
        }
        // Where the compiler knows the width, it knows each shift within a word.
        let own = Self::CHARACTER_SET_WIDTH;
        if width == own {
            return string_of_numbers::<Self>(
                alloc,
                BitPieces {
                    bits: input,
                    width: own,
                },
            );
        }
        string_of_numbers::<Self>(alloc, BitPieces { bits: input, width })
    }

    /// Returns the string of bits that an alphabet encodes (X.691 30.5). A map takes keys to
    /// characters; `None` is the base set with its indices as keys. Each character has the least
    /// width for as many entries. If the largest character does not fit the width, the numbers are
    /// keys; otherwise they are characters, and only the string's own set decides which are valid.
    ///
    /// The map must have at most 2^31 entries.
    ///
    /// # Errors
    ///
    /// Returns `InvalidData` if the width is 0, so also for a map of one entry or none, or if the
    /// bits are not a whole number of characters. Otherwise the first invalid character is named:
    /// `IndexNotFound` if its key is absent, `InvalidRestrictedString` if the string may not hold
    /// it. Otherwise it returns `Memory` if out of memory.
    final fn try_from_permitted_alphabet(
        alloc: Global,
        input: BitStr<'_>,
        alphabet: Option<&BTreeMap<u32, u32>>,
    ) -> Result<Self, PermittedAlphabetError>
        requires { ForSome (option_copied alphabet) (λ m. btree_map_len m ≤ 2 ^ 31) }
        ensures { let map = option_copied alphabet.entry in
            let bits = bits_of input.entry in
            Answers characters result (string_of_alphabet Self.CHARACTER_SET_NAME map bits) }
    {
        match alphabet {
            Some(map) => string_of_bits_in::<Self, &BTreeMap<u32, u32>>(alloc, input, &map),
            None => {
                let name = Self::CHARACTER_SET_NAME;
                string_of_bits_in::<Self, CharacterSetName>(alloc, input, &name)
            }
        }
    }

    /// Returns the string of bits that the base set encodes, as `try_from_permitted_alphabet`
    /// without a map.
    ///
    /// # Errors
    ///
    /// Returns the errors of `try_from_permitted_alphabet`.
    final fn try_from_bit_string(
        alloc: Global,
        input: BitString,
    ) -> Result<Self, PermittedAlphabetError>
        ensures { Answers characters result
            (string_of_alphabet Self.CHARACTER_SET_NAME None input) }
    {
        Self::try_from_permitted_alphabet(alloc, input.as_bitstr(), None)
    }

    // The constants are those of the table of base sets.
    ghost ranges: { CHARACTER_SET_RANGES.name ≡ Self.CHARACTER_SET_NAME };

    ghost count: { CHARACTER_SET_COUNT ≡ base_count Self.CHARACTER_SET_NAME };

    ghost width: { CHARACTER_SET_WIDTH ≡ base_width Self.CHARACTER_SET_NAME };

    ghost most: { CHARACTER_SET_MAX ≡ base_largest Self.CHARACTER_SET_NAME };

    ghost indexed: { IS_INDEXED ≡ base_indexed Self.CHARACTER_SET_NAME };

    // A character has the number of octets that the standard says.
    ghost octets: { Self.T.OCTETS ≡ character_octets Self.CHARACTER_SET_NAME };

    // Every character of the set can be kept.
    ghost fits: { (c : ℕ) → has_character (base_set Self.CHARACTER_SET_NAME) c ≡ true →
        c < Self.T.limit };
}

/// Returns the string of characters of `width` octets each, one by one: they are examined first,
/// then memory is requested. Cold path: input is mostly right and of the string's own width.
#[inline(never)]
fn string_of_pieces<S: StaticPermittedAlphabet>(
    alloc: Global,
    octets: &[u8],
    width: usize,
) -> Result<S, PermittedAlphabetError>
    requires some { 1 ≤ width }
    requires few { width ≤ 4 }
    ensures { Answers S.characters result
        (string_of_characters S.CHARACTER_SET_NAME (map unsigned (pieces width octets.now))) }
{
    let source = OctetPieces { octets, width };
    let count = source.count();
    for i in 0..count {
        let character = source.character(i);
        if !S::contains_char(character) {
            return Err(PermittedAlphabetError::InvalidRestrictedString {
                source: S::invalid_restricted_string(character),
            });
        }
    }
    copy_of_pieces::<S>(alloc, source)
}

/// Returns the string of characters that its set has.
fn copy_of_pieces<'a, S: StaticPermittedAlphabet>(
    alloc: Global,
    source: OctetPieces<'a>,
) -> Result<S, PermittedAlphabetError>
    requires { All (λ c. has_character (base_set S.CHARACTER_SET_NAME) c ≡ true)
        (map unsigned (pieces source.width source.octets.now)) }
    ensures { Answers S.characters result
        (Ok (map unsigned (pieces source.entry.width source.entry.octets.now))) }
{
    let count = source.count();
    let mut string = S::new(alloc);
    string.reserve(count)?;
    for i in 0..count {
        string.push_char(source.character(i))?;
    }
    Ok(string)
}

/// Returns the string of octets whose characters its set has: all at once.
fn copied_octets<S: StaticPermittedAlphabet>(
    alloc: Global,
    octets: &[u8],
) -> Result<S, PermittedAlphabetError>
    requires { All (λ c. has_character (base_set S.CHARACTER_SET_NAME) c ≡ true)
        (map unsigned (pieces S.T.OCTETS octets.now)) }
    ensures { Answers S.characters result (Ok (map unsigned (pieces S.T.OCTETS octets.now))) }
{
    let units = <S::T as CodeUnit>::of_octets(alloc, octets)?;
    Ok(S::from_units(units))
}
