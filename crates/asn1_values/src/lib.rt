//! The value layer under ASN.1 codecs: whole numbers, object identifiers, octet strings, restricted
//! character strings, bits, and the reading and writing of bit fields that are made of them.
//!
//! [`bit_fields`] writes fields one after another after the bits of a buffer, and reads them back
//! from any bit of any storage. The other names are re-exported from the crates below.
#![tactic(auto)]

pub mod bit_fields;

pub use asn1_alphabets::{
    CharacterAlphabet, CountedSlice, Entries, find_ascending, should_be_indexed,
};
pub use asn1_bits::{
    BitAppender, BitBuffer, BitReader, BitStr, BitString, FixedBitString, Octets, Places, Turns,
    aligned_octets, extend_bitstring, extend_vec_from_bitslice, or_bits, overwrite_bitslice,
    overwrite_number, place_bits, range_from_len, read_bits, read_u128, read_wide, to_bitstring,
    write_bitslice,
};
pub use asn1_integer::{
    ConstrainedInteger, Integer, IntegerBytes, IntegerError, IntegerType, TryFromIntegerError,
    laws_of_shortest_octets, laws_of_wrapping, read_signed, signed_value, unsigned_value,
    without_redundant_sign_octets,
};
pub use asn1_oid::{
    ContentsError, DottedTextError, ObjectIdentifier, OctetSource, Oid, OidContents,
    check_contents, laws_of_contents, parse_arcs,
};
pub use asn1_strings::{
    AsText, Bmp, BmpString, CharacterRanges, CharacterSetName, Chars, CodeUnit, FixedOctetString,
    General, GeneralString, Graphic, GraphicString, HasAsBytes, HasCharacterSet, HasFromBytes, Ia5,
    Ia5String, InvalidBmpString, InvalidGeneralString, InvalidGraphicString, InvalidIA5String,
    InvalidNumericString, InvalidPrintableString, InvalidRestrictedString, InvalidTeletexString,
    InvalidVisibleString, IsIso646, Numeric, NumericString, OctetString, PermittedAlphabetError,
    Printable, PrintableString, RestrictedString, StaticPermittedAlphabet, StringKind, Teletex,
    TeletexString, Utf8String, Visible, VisibleString,
};
pub use bit_fields::{
    Field, ReadError, Shape, WriteError, read_fields, shape_of, write_fields, write_fields_at,
    write_fields_counted,
};
