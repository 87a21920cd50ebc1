//! Octet strings, and the eight restricted character strings of ASN.1 over the base sets of
//! `asn1_characters`.
//!
//! An octet string is a list of octets (X.680 23), shared or inline.
//!
//! A string is a list of characters, each in the base set of its kind (X.680 41). It is read from
//! its contents (X.690 8.23), a text, bits or an alphabet, whole and in order, or the error names
//! its first invalid piece. The names of `asn1_characters` and of `asn1_alphabets` are re-exported.
//!
//! # Examples
//!
//! ```
//! use asn1_strings::{Ia5String, NumericString, StaticPermittedAlphabet};
//!
//! let name = Ia5String::try_from_slice(rt.alloc(), b"value")?;
//! assert!(rt; name.len() == 5);
//! assert!(rt; NumericString::try_from_slice(rt.alloc(), b"value").is_err());
//! ```
#![tactic(auto)]

mod bmp_string;
mod chars;
mod code_unit;
mod fixed_octet_string;
mod general_string;
mod graphic_string;
mod ia5_string;
mod key_maps;
mod key_walk;
mod numeric_string;
mod octet_kinds;
mod octet_string;
mod pieces;
mod printable_string;
mod restricted_string;
mod static_permitted_alphabet;
mod string_kind;
mod teletex_string;
mod utf8_string;
mod visible_string;

pub use asn1_alphabets::{
    CharacterAlphabet, CountedSlice, Entries, find_ascending, should_be_indexed,
};
pub use asn1_characters::{
    CharacterRanges, CharacterSetName, HasCharacterSet, InvalidBmpString, InvalidGeneralString,
    InvalidGraphicString, InvalidIA5String, InvalidNumericString, InvalidPrintableString,
    InvalidRestrictedString, InvalidTeletexString, InvalidVisibleString, PermittedAlphabetError,
};
pub use bmp_string::{Bmp, BmpString};
pub use chars::Chars;
pub use code_unit::CodeUnit;
pub use fixed_octet_string::FixedOctetString;
pub use general_string::{General, GeneralString};
pub use graphic_string::{Graphic, GraphicString};
pub use ia5_string::{Ia5, Ia5String};
pub use numeric_string::{Numeric, NumericString};
pub use octet_kinds::{AsText, HasAsBytes, HasFromBytes, IsIso646};
pub use octet_string::OctetString;
pub use printable_string::{Printable, PrintableString};
pub use restricted_string::RestrictedString;
pub use static_permitted_alphabet::StaticPermittedAlphabet;
pub use string_kind::StringKind;
pub use teletex_string::{Teletex, TeletexString};
pub use utf8_string::Utf8String;
pub use visible_string::{Visible, VisibleString};
