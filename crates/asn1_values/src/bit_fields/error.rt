//! Why fields could not be written or read.

use std::alloc::AllocError;
use thiserror::Error;

/// Why fields were not written. Fields are counted from 0.
#[derive(Clone, Copy, Debug, PartialEq, Eq, PartialOrd, Ord, Hash, Error)]
pub enum WriteError {
    /// A width over 128 bits.
    #[error("field {field}: width {width} is over 128")]
    NumberWidth { field: usize, width: usize },
    /// A number that is not below 2 to the power of its width.
    #[error("field {field}: the number does not fit its width")]
    Number { field: usize },
    /// A character that has no code in its alphabet.
    #[error("field {field}: character {character} is not in the alphabet")]
    Character { field: usize, character: u32 },
    /// Every field fits, but the new length exceeds `usize::MAX` bits, or the fields would end
    /// after the octets that are written over.
    #[error("too many bits")]
    TooLong,
    /// Every field fits, but out of memory.
    #[error("out of memory")]
    Memory,
    /// A counted integer whose shortest contents exceed 127 octets.
    #[error("field {field}: the integer is longer than 127 octets")]
    IntegerLength { field: usize },
    /// An identifier of one arc, which has no contents.
    #[error("field {field}: fewer than two arcs")]
    ArcCount { field: usize },
}

/// Why fields were not read. Fields are counted from 0.
#[derive(Clone, Copy, Debug, PartialEq, Eq, PartialOrd, Ord, Hash, Error)]
pub enum ReadError {
    /// A width over 128 bits.
    #[error("field {field}: width {width} is over 128")]
    NumberWidth { field: usize, width: usize },
    /// No octets, or octets that are not the shortest of their number.
    #[error("field {field}: not a shortest integer")]
    Integer { field: usize },
    /// Fewer bits are left than the field needs; `bits` are missing.
    #[error("field {field}: {bits} bits short")]
    Short { field: usize, bits: u128 },
    /// A number that is the code of no character of the alphabet.
    #[error("field {field}: code {code} is no character")]
    Character { field: usize, code: u32 },
    /// No field is invalid, but out of memory.
    #[error("out of memory")]
    Memory,
    /// A length octet of a counted integer that is 0 or at least 128.
    #[error("field {field}: length octet {octet} is not 1 to 127")]
    Length { field: usize, octet: u8 },
    /// No octets, or octets that are the contents of no identifier, however large its arcs.
    #[error("field {field}: not the contents of an identifier")]
    Identifier { field: usize },
    /// The contents of an identifier, one of whose arcs exceeds `u32`.
    #[error("field {field}: an arc is past 32 bits")]
    Arc { field: usize },
}

impl From<AllocError> for WriteError {
    ghost use Rattle.std.specs.Prelude.{◌≡◌};
    ghost use Rattle.asn1_values.specs.declared.bit_fields.error.WriteError.TheVariants.{Memory};

    ghost from_gives = { λ _ e. e ≡ Memory };

    fn from(_error: AllocError) -> WriteError {
        WriteError::Memory
    }
}

impl From<AllocError> for ReadError {
    ghost use Rattle.std.specs.Prelude.{◌≡◌};
    ghost use Rattle.asn1_values.specs.declared.bit_fields.error.ReadError.TheVariants.{Memory};

    ghost from_gives = { λ _ e. e ≡ Memory };

    fn from(_error: AllocError) -> ReadError {
        ReadError::Memory
    }
}
