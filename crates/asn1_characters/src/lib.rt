//! The base sets of the eight restricted character strings of ASN.1, and the errors for characters
//! that are not in them.
//!
//! A base set is the list of characters that one of the eight strings may hold (X.680 41), by its
//! ranges; a lookup in four words tells whether a character below 256 is among them. [`widths`] has
//! the width in bits of the characters of a set. Each string has its own error, with its text.
#![tactic(auto)]

mod character_set;
mod character_table;
mod character_words;
mod error;
mod error_conversions;
mod has_character_set;
pub mod widths;

pub use character_set::{CharacterRanges, CharacterSetName};
pub use character_words::CharacterWords;
pub use error::{
    InvalidBmpString, InvalidGeneralString, InvalidGraphicString, InvalidIA5String,
    InvalidNumericString, InvalidPrintableString, InvalidRestrictedString, InvalidTeletexString,
    InvalidVisibleString, PermittedAlphabetError,
};
pub use has_character_set::HasCharacterSet;
