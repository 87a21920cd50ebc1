//! Fields.

use asn1_alphabets::CharacterAlphabet;
use asn1_bits::{BitStr, Octets};
use asn1_integer::Integer;
use asn1_oid::ObjectIdentifier;

/// A field that is written, or that was read.
#[derive(Debug, Drop)]
pub enum Field<'a, 's> {
    /// The `width` binary digits of a number, most significant first. It fits if the width is at
    /// most 128 and the number below 2 to the power of the width.
    Number {
        value: u128,
        width: usize,
    },
    /// Octets, eight bits each, most significant first.
    Octets(Octets<'a>),
    /// Bits of a storage.
    Bits(BitStr<'a>),
    /// The shortest two's complement octets of a whole number (X.690 8.3).
    Integer(Integer),
    /// The code of a character in the width of its alphabet (X.691 30.5).
    Character {
        character: u32,
        alphabet: CharacterAlphabet<'s>,
    },
    /// An octet with the number of the integer's shortest octets, 1 to 127, followed by these
    /// octets.
    CountedInteger(Integer),
    /// The contents of an identifier (X.690 8.19).
    Oid(ObjectIdentifier),
}
