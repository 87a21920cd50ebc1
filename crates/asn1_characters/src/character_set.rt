//! The base sets of the eight strings (X.680 41).
ghost use Rattle.std.specs.Prelude.{◌≡◌, ◌≢◌, ◌<◌, ◌≤◌, ℕ, length, false, Some, slice_get, slice_index_or, MatchOption};
ghost use Rattle.asn1_characters.specs.Sets.{ranges_of, base_set, base_count, base_largest, base_width, base_indexed, has_character, IsRange};
ghost use Rattle.asn1_characters.specs.Words.{in_words};
ghost use Rattle.asn1_characters.specs.Texts.{set_name};
ghost use Rattle.asn1_characters.specs.declared.character_set.CharacterSetName.TheVariants.{Bmp};

use crate::character_words::CharacterWords;
use std::fmt;

/// The name of one of the eight strings. `Display` writes the string's name as X.680 has it.
#[derive(Clone, Copy, Debug, PartialEq, Eq, PartialOrd, Ord, Hash)]
pub enum CharacterSetName {
    /// `BmpString`.
    Bmp,
    /// `GeneralString`.
    General,
    /// `GraphicString`.
    Graphic,
    /// `Ia5String`.
    IA5,
    /// `NumericString`.
    Numeric,
    /// `PrintableString`.
    Printable,
    /// `TeletexString`.
    Teletex,
    /// `VisibleString`.
    Visible,
}

impl CharacterSetName {
    /// Returns the first and last character of each range (X.680 41), in the set's order.
    pub const fn ranges(self) -> &'static [(u32, u32)]
        ensures value { result.now ≡ ranges_of self }
        ensures fine { (i : ℕ) → i < length result.now →
            IsRange (slice_index_or result.now i (0, 0)) }
    {
        match self {
            CharacterSetName::Bmp => &[(0, 0xFFFD)],
            CharacterSetName::General => &[(0, 0x7F), (0xA1, 0xFF)],
            CharacterSetName::Graphic => &[(0x20, 0x7E), (0xA1, 0xFF)],
            CharacterSetName::IA5 => &[(0, 0x7F)],
            CharacterSetName::Numeric => &[(0x20, 0x20), (0x30, 0x39)],
            CharacterSetName::Printable => &[
                (0x41, 0x5A),
                (0x61, 0x7A),
                (0x30, 0x39),
                (0x20, 0x20),
                (0x27, 0x29),
                (0x2B, 0x2F),
                (0x3A, 0x3A),
                (0x3D, 0x3D),
                (0x3F, 0x3F),
            ],
            CharacterSetName::Teletex => &[(0, 0xFF)],
            CharacterSetName::Visible => &[(0x20, 0x7E)],
        }
    }

    /// Returns the number of characters of the set.
    pub const fn count(self) -> u32
        ensures { result ≡ base_count self }
    {
        match self {
            CharacterSetName::Bmp => 65534,
            CharacterSetName::General => 223,
            CharacterSetName::Graphic => 190,
            CharacterSetName::IA5 => 128,
            CharacterSetName::Numeric => 11,
            CharacterSetName::Printable => 74,
            CharacterSetName::Teletex => 256,
            CharacterSetName::Visible => 95,
        }
    }

    /// Returns the least number of bits with a code for each character of the set, at most 16.
    pub const fn width(self) -> usize
        ensures value { result ≡ base_width self }
        ensures bound { result ≤ 16 }
    {
        match self {
            CharacterSetName::Bmp => 16,
            CharacterSetName::General => 8,
            CharacterSetName::Graphic => 8,
            CharacterSetName::IA5 => 7,
            CharacterSetName::Numeric => 4,
            CharacterSetName::Printable => 7,
            CharacterSetName::Teletex => 8,
            CharacterSetName::Visible => 7,
        }
    }

    /// Returns the largest character of the set.
    pub const fn largest(self) -> u32
        ensures { result ≡ base_largest self }
    {
        match self {
            CharacterSetName::Bmp => 0xFFFD,
            CharacterSetName::General => 0xFF,
            CharacterSetName::Graphic => 0xFF,
            CharacterSetName::IA5 => 0x7F,
            CharacterSetName::Numeric => 0x39,
            CharacterSetName::Printable => 0x7A,
            CharacterSetName::Teletex => 0xFF,
            CharacterSetName::Visible => 0x7E,
        }
    }

    /// Returns whether characters are encoded by their indices, since the largest does not fit the
    /// width (X.691 30.5).
    pub const fn is_indexed(self) -> bool
        ensures { result ≡ base_indexed self }
    {
        matches!(self, CharacterSetName::Numeric)
    }

    /// Returns whether the set has the character: for `BmpString` by its range, otherwise by one
    /// lookup in four words.
    pub fn contains(self, character: u32) -> bool
        ensures { result ≡ has_character (base_set self) character }
    {
        match self {
            CharacterSetName::Bmp => character <= 0xFFFD,
            _ => self.words().contains(character),
        }
    }

    /// Returns whether the set has the character that an octet encodes: by ranges, without a
    /// branch.
    pub fn has_octet(self, octet: u8) -> bool
        ensures { result ≡ has_character (base_set self) octet }
    {
        match self {
            CharacterSetName::Bmp | CharacterSetName::Teletex => true,
            CharacterSetName::General => (octet <= 0x7F) | (octet >= 0xA1),
            CharacterSetName::Graphic => ((0x20 <= octet) & (octet <= 0x7E)) | (octet >= 0xA1),
            CharacterSetName::IA5 => octet <= 0x7F,
            CharacterSetName::Numeric => (octet == 0x20) | ((0x30 <= octet) & (octet <= 0x39)),
            CharacterSetName::Printable => {
                let letter = octet | 0x20;
                ((0x61 <= letter) & (letter <= 0x7A))
                    | ((0x27 <= octet) & (octet <= 0x3A) & (octet != 0x2A))
                    | (octet == 0x20)
                    | (octet == 0x3D)
                    | (octet == 0x3F)
            }
            CharacterSetName::Visible => (0x20 <= octet) & (octet <= 0x7E),
        }
    }

    /// Returns the set as words.
    ///
    /// The set must not be that of `BmpString`, which has characters from 256 on.
    pub fn words(self) -> CharacterWords
        requires { self ≢ Bmp }
        ensures { (c : ℕ) → c < 256 → in_words result.words c ≡ has_character (base_set self) c }
    {
        match self {
            CharacterSetName::Bmp => CharacterWords::new(0, 0, 0, 0),
            CharacterSetName::General => CharacterWords::new(
                0xffffffffffffffff,
                0xffffffffffffffff,
                0xfffffffe00000000,
                0xffffffffffffffff,
            ),
            CharacterSetName::Graphic => CharacterWords::new(
                0xffffffff00000000,
                0x7fffffffffffffff,
                0xfffffffe00000000,
                0xffffffffffffffff,
            ),
            CharacterSetName::IA5 => CharacterWords::new(
                0xffffffffffffffff,
                0xffffffffffffffff,
                0,
                0,
            ),
            CharacterSetName::Numeric => CharacterWords::new(0x03ff000100000000, 0, 0, 0),
            CharacterSetName::Printable => CharacterWords::new(
                0xa7fffb8100000000,
                0x07fffffe07fffffe,
                0,
                0,
            ),
            CharacterSetName::Teletex => CharacterWords::new(
                0xffffffffffffffff,
                0xffffffffffffffff,
                0xffffffffffffffff,
                0xffffffffffffffff,
            ),
            CharacterSetName::Visible => CharacterWords::new(
                0xffffffff00000000,
                0x7fffffffffffffff,
                0,
                0,
            ),
        }
    }

    /// Returns the character at an index, counted from 0, or `None` after the end of the set.
    pub fn character_at(self, place: u32) -> Option<u32>
        ensures { result ≡ slice_get (base_set self) place }
    {
        match self {
            CharacterSetName::Numeric => match place {
                0 => Some(0x20),
                1..=10 => Some(0x2F + place),
                _ => None,
            },
            _ => self.character_in_ranges(place),
        }
    }

    /// Returns the index of a character, counted from 0, or `None` if the set lacks it.
    pub fn place_of(self, character: u32) -> Option<u32>
        ensures { MatchOption result (has_character (base_set self) character ≡ false)
            (λ k. slice_get (base_set self) k ≡ Some character) }
    {
        match self {
            CharacterSetName::Numeric => match character {
                0x20 => Some(0),
                0x30..=0x39 => Some(character - 0x2F),
                _ => None,
            },
            _ => self.place_in_ranges(character),
        }
    }

    /// Returns the character at an index, by the ranges one after another.
    #[inline(never)]
    fn character_in_ranges(self, place: u32) -> Option<u32>
        ensures { result ≡ slice_get (base_set self) place }
    {
        let mut left = place;
        for range in self.ranges() {
            let count = range.1 - range.0 + 1;
            if left < count {
                return Some(range.0 + left);
            }
            left -= count;
        }
        None
    }

    /// Returns the index of a character, by the ranges one after another.
    #[inline(never)]
    fn place_in_ranges(self, character: u32) -> Option<u32>
        ensures { MatchOption result (has_character (base_set self) character ≡ false)
            (λ k. slice_get (base_set self) k ≡ Some character) }
    {
        let mut before = 0;
        for range in self.ranges() {
            if range.0 <= character && character <= range.1 {
                return Some(before + (character - range.0));
            }
            before += range.1 - range.0 + 1;
        }
        None
    }
}

/// The ranges of a base set, as a constant that says which set it is of.
#[derive(Clone, Copy, Debug, PartialEq, Eq, PartialOrd, Ord, Hash)]
pub struct CharacterRanges {
    /// The string whose ranges they are.
    pub name: CharacterSetName,
}

impl CharacterRanges {
    /// Returns the ranges of the base set of this name.
    pub const fn of(name: CharacterSetName) -> CharacterRanges
        ensures { result.name ≡ name }
    {
        CharacterRanges { name }
    }

    /// Returns the first and last character of each range (X.680 41), in the set's order.
    pub const fn as_slice(self) -> &'static [(u32, u32)]
        ensures { result.now ≡ ranges_of self.name }
    {
        self.name.ranges()
    }
}

impl fmt::Display for CharacterSetName {
    ghost output = { λ name. Some (set_name name) };

    fn fmt<W: fmt::Write>(&self, f: &mut fmt::Formatter<W>) -> fmt::Result {
        match self {
            CharacterSetName::Bmp => f.write_str("BMPString"),
            CharacterSetName::General => f.write_str("GeneralString"),
            CharacterSetName::Graphic => f.write_str("GraphicString"),
            CharacterSetName::IA5 => f.write_str("IA5String"),
            CharacterSetName::Numeric => f.write_str("NumericString"),
            CharacterSetName::Printable => f.write_str("PrintableString"),
            CharacterSetName::Teletex => f.write_str("TeletexString"),
            CharacterSetName::Visible => f.write_str("VisibleString"),
        }
    }
}
