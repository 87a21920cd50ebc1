//! Errors of characters, and their texts.
ghost use Rattle.std.specs.Prelude.{◌≡◌, Some};
ghost use Rattle.asn1_characters.specs.Errors.{own_error};
ghost use Rattle.asn1_characters.specs.Texts.{character_text, restricted_text, alphabet_error_text};
ghost use Rattle.asn1_characters.specs.declared.character_set.CharacterSetName.TheVariants.{Bmp, General, Graphic, IA5, Numeric, Printable, Teletex, Visible};

use crate::character_set::CharacterSetName;
use std::alloc::AllocError;
use std::error::Error;
use std::fmt;

/// A character that `BmpString` may not hold (X.680 41).
#[derive(Clone, Copy, Debug, PartialEq, Eq, PartialOrd, Ord, Hash)]
pub struct InvalidBmpString {
    /// The character.
    pub character: u32,
}

impl From<u32> for InvalidBmpString {
    ghost from_gives = { λ c e. e.character ≡ c };

    fn from(character: u32) -> InvalidBmpString {
        InvalidBmpString { character }
    }
}

impl fmt::Display for InvalidBmpString {
    ghost output = { λ e. Some (character_text Bmp e.character) };

    fn fmt<W: fmt::Write>(&self, f: &mut fmt::Formatter<W>) -> fmt::Result {
        let character = self.character;
        write!(
            f,
            "Invalid BMP string, character decimal value: {character}"
        )
    }
}

impl Error for InvalidBmpString {}

/// A character that `GeneralString` may not hold (X.680 41).
#[derive(Clone, Copy, Debug, PartialEq, Eq, PartialOrd, Ord, Hash)]
pub struct InvalidGeneralString {
    /// The character.
    pub character: u32,
}

impl From<u32> for InvalidGeneralString {
    ghost from_gives = { λ c e. e.character ≡ c };

    fn from(character: u32) -> InvalidGeneralString {
        InvalidGeneralString { character }
    }
}

impl fmt::Display for InvalidGeneralString {
    ghost output = { λ e. Some (character_text General e.character) };

    fn fmt<W: fmt::Write>(&self, f: &mut fmt::Formatter<W>) -> fmt::Result {
        let character = self.character;
        write!(
            f,
            "Invalid general string, character decimal value: {character}"
        )
    }
}

impl Error for InvalidGeneralString {}

/// A character that `GraphicString` may not hold (X.680 41).
#[derive(Clone, Copy, Debug, PartialEq, Eq, PartialOrd, Ord, Hash)]
pub struct InvalidGraphicString {
    /// The character.
    pub character: u32,
}

impl From<u32> for InvalidGraphicString {
    ghost from_gives = { λ c e. e.character ≡ c };

    fn from(character: u32) -> InvalidGraphicString {
        InvalidGraphicString { character }
    }
}

impl fmt::Display for InvalidGraphicString {
    ghost output = { λ e. Some (character_text Graphic e.character) };

    fn fmt<W: fmt::Write>(&self, f: &mut fmt::Formatter<W>) -> fmt::Result {
        let character = self.character;
        write!(
            f,
            "Invalid graphic string, character decimal value: {character}"
        )
    }
}

impl Error for InvalidGraphicString {}

/// A character that `Ia5String` may not hold (X.680 41).
#[derive(Clone, Copy, Debug, PartialEq, Eq, PartialOrd, Ord, Hash)]
pub struct InvalidIA5String {
    /// The character.
    pub character: u32,
}

impl From<u32> for InvalidIA5String {
    ghost from_gives = { λ c e. e.character ≡ c };

    fn from(character: u32) -> InvalidIA5String {
        InvalidIA5String { character }
    }
}

impl fmt::Display for InvalidIA5String {
    ghost output = { λ e. Some (character_text IA5 e.character) };

    fn fmt<W: fmt::Write>(&self, f: &mut fmt::Formatter<W>) -> fmt::Result {
        let character = self.character;
        write!(
            f,
            "Invalid ISO 646/ASCII, character decimal value: {character}"
        )
    }
}

impl Error for InvalidIA5String {}

/// A character that `NumericString` may not hold (X.680 41).
#[derive(Clone, Copy, Debug, PartialEq, Eq, PartialOrd, Ord, Hash)]
pub struct InvalidNumericString {
    /// The character.
    pub character: u32,
}

impl From<u32> for InvalidNumericString {
    ghost from_gives = { λ c e. e.character ≡ c };

    fn from(character: u32) -> InvalidNumericString {
        InvalidNumericString { character }
    }
}

impl fmt::Display for InvalidNumericString {
    ghost output = { λ e. Some (character_text Numeric e.character) };

    fn fmt<W: fmt::Write>(&self, f: &mut fmt::Formatter<W>) -> fmt::Result {
        let character = self.character;
        write!(
            f,
            "Invalid numeric string, character decimal value: {character}"
        )
    }
}

impl Error for InvalidNumericString {}

/// A character that `PrintableString` may not hold (X.680 41).
#[derive(Clone, Copy, Debug, PartialEq, Eq, PartialOrd, Ord, Hash)]
pub struct InvalidPrintableString {
    /// The character.
    pub character: u32,
}

impl From<u32> for InvalidPrintableString {
    ghost from_gives = { λ c e. e.character ≡ c };

    fn from(character: u32) -> InvalidPrintableString {
        InvalidPrintableString { character }
    }
}

impl fmt::Display for InvalidPrintableString {
    ghost output = { λ e. Some (character_text Printable e.character) };

    fn fmt<W: fmt::Write>(&self, f: &mut fmt::Formatter<W>) -> fmt::Result {
        let character = self.character;
        write!(
            f,
            "Invalid printable string, character decimal value: {character}"
        )
    }
}

impl Error for InvalidPrintableString {}

/// A character that `TeletexString` may not hold (X.680 41).
#[derive(Clone, Copy, Debug, PartialEq, Eq, PartialOrd, Ord, Hash)]
pub struct InvalidTeletexString {
    /// The character.
    pub character: u32,
}

impl From<u32> for InvalidTeletexString {
    ghost from_gives = { λ c e. e.character ≡ c };

    fn from(character: u32) -> InvalidTeletexString {
        InvalidTeletexString { character }
    }
}

impl fmt::Display for InvalidTeletexString {
    ghost output = { λ e. Some (character_text Teletex e.character) };

    fn fmt<W: fmt::Write>(&self, f: &mut fmt::Formatter<W>) -> fmt::Result {
        let character = self.character;
        write!(
            f,
            "Invalid teletex string, character decimal value: {character}"
        )
    }
}

impl Error for InvalidTeletexString {}

/// A character that `VisibleString` may not hold (X.680 41).
#[derive(Clone, Copy, Debug, PartialEq, Eq, PartialOrd, Ord, Hash)]
pub struct InvalidVisibleString {
    /// The character.
    pub character: u32,
}

impl From<u32> for InvalidVisibleString {
    ghost from_gives = { λ c e. e.character ≡ c };

    fn from(character: u32) -> InvalidVisibleString {
        InvalidVisibleString { character }
    }
}

impl fmt::Display for InvalidVisibleString {
    ghost output = { λ e. Some (character_text Visible e.character) };

    fn fmt<W: fmt::Write>(&self, f: &mut fmt::Formatter<W>) -> fmt::Result {
        let character = self.character;
        write!(
            f,
            "Invalid visible string: only space (0x20) and all graphically visible characters (0x21-0x7E) allowed, character decimal value: {character}"
        )
    }
}

impl Error for InvalidVisibleString {}

/// A character that one of the eight strings may not hold, by the string's own error.
#[derive(Clone, Copy, Debug, PartialEq, Eq, PartialOrd, Ord, Hash)]
pub enum InvalidRestrictedString {
    /// Of `BmpString`.
    InvalidBmpString(InvalidBmpString),
    /// Of `GeneralString`.
    InvalidGeneralString(InvalidGeneralString),
    /// Of `GraphicString`.
    InvalidGraphicString(InvalidGraphicString),
    /// Of `Ia5String`.
    InvalidIA5String(InvalidIA5String),
    /// Of `NumericString`.
    InvalidNumericString(InvalidNumericString),
    /// Of `PrintableString`.
    InvalidPrintableString(InvalidPrintableString),
    /// Of `TeletexString`.
    InvalidTeletexString(InvalidTeletexString),
    /// Of `VisibleString`.
    InvalidVisibleString(InvalidVisibleString),
}

impl InvalidRestrictedString {
    /// Returns the error of the string of this name for a character.
    pub fn of(name: CharacterSetName, character: u32) -> InvalidRestrictedString
        ensures { result ≡ own_error name character }
    {
        match name {
            CharacterSetName::Bmp => InvalidRestrictedString::InvalidBmpString(
                InvalidBmpString::from(character),
            ),
            CharacterSetName::General => InvalidRestrictedString::InvalidGeneralString(
                InvalidGeneralString::from(character),
            ),
            CharacterSetName::Graphic => InvalidRestrictedString::InvalidGraphicString(
                InvalidGraphicString::from(character),
            ),
            CharacterSetName::IA5 => InvalidRestrictedString::InvalidIA5String(
                InvalidIA5String::from(character),
            ),
            CharacterSetName::Numeric => InvalidRestrictedString::InvalidNumericString(
                InvalidNumericString::from(character),
            ),
            CharacterSetName::Printable => InvalidRestrictedString::InvalidPrintableString(
                InvalidPrintableString::from(character),
            ),
            CharacterSetName::Teletex => InvalidRestrictedString::InvalidTeletexString(
                InvalidTeletexString::from(character),
            ),
            CharacterSetName::Visible => InvalidRestrictedString::InvalidVisibleString(
                InvalidVisibleString::from(character),
            ),
        }
    }
}

impl fmt::Display for InvalidRestrictedString {
    ghost output = { λ e. Some (restricted_text e) };

    fn fmt<W: fmt::Write>(&self, f: &mut fmt::Formatter<W>) -> fmt::Result {
        match self {
            InvalidRestrictedString::InvalidBmpString(e) => write!(f, "{e}"),
            InvalidRestrictedString::InvalidGeneralString(e) => write!(f, "{e}"),
            InvalidRestrictedString::InvalidGraphicString(e) => write!(f, "{e}"),
            InvalidRestrictedString::InvalidIA5String(e) => write!(f, "{e}"),
            InvalidRestrictedString::InvalidNumericString(e) => write!(f, "{e}"),
            InvalidRestrictedString::InvalidPrintableString(e) => write!(f, "{e}"),
            InvalidRestrictedString::InvalidTeletexString(e) => write!(f, "{e}"),
            InvalidRestrictedString::InvalidVisibleString(e) => write!(f, "{e}"),
        }
    }
}

impl Error for InvalidRestrictedString {}

/// Why there is no string, no code or no character.
#[derive(Clone, Copy, Debug, PartialEq, Eq, PartialOrd, Ord, Hash)]
pub enum PermittedAlphabetError {
    /// The requested width of a character was 0 octets. `name` is the string.
    Other { name: CharacterSetName },
    /// The octets or bits, `length` in number, are not a whole number of characters of `width`
    /// each.
    InvalidData { length: usize, width: usize },
    /// No character has this index, or this key.
    IndexNotFound { index: usize },
    /// The permitted set lacks this character.
    CharacterNotFound { character: u32 },
    /// The string may not hold a character.
    InvalidRestrictedString { source: InvalidRestrictedString },
    /// Out of memory.
    Memory,
}

impl From<AllocError> for PermittedAlphabetError {
    ghost use Rattle.asn1_characters.specs.declared.error.PermittedAlphabetError.TheVariants.{Memory};

    ghost from_gives = { λ _ e. e ≡ Memory };

    fn from(_refused: AllocError) -> PermittedAlphabetError {
        PermittedAlphabetError::Memory
    }
}

impl fmt::Display for PermittedAlphabetError {
    ghost output = { λ e. Some (alphabet_error_text e) };

    fn fmt<W: fmt::Write>(&self, f: &mut fmt::Formatter<W>) -> fmt::Result {
        match self {
            PermittedAlphabetError::Other { name } => write!(
                f,
                "error converting to string: Character set width set to zero when parsing string {name}"
            ),
            PermittedAlphabetError::InvalidData { length, width } => write!(
                f,
                "length of bits ({length}) provided not divisible by character width ({width})"
            ),
            PermittedAlphabetError::IndexNotFound { index } => write!(f, "index not found {index}"),
            PermittedAlphabetError::CharacterNotFound { character } => write!(
                f,
                "Character with decimal value {character} not found from the permitted list."
            ),
            PermittedAlphabetError::InvalidRestrictedString { source } => {
                write!(f, "Invalid alphabet constrained string: {source}")
            }
            PermittedAlphabetError::Memory => write!(f, "out of memory"),
        }
    }
}

impl Error for PermittedAlphabetError {}
