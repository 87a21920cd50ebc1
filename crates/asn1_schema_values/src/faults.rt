//! The faults of tables.

use thiserror::Error;

/// A fault of a type.
#[derive(Clone, Copy, Debug, PartialEq, Eq, Error)]
pub enum NodeFault {
    /// The tables have no type of the index that a list or an open type names.
    #[error("it names a type that the tables do not have")]
    NoType,
    /// Not all components of the root of a SEQUENCE or a SET are in the table of members.
    #[error("the rows of its components exceed the table")]
    Components,
    /// Not all alternatives of the root of a CHOICE are in the table of members.
    #[error("the rows of its alternatives exceed the table")]
    Alternatives,
    /// Not all additions are in the table of members.
    #[error("the rows of its additions exceed the table")]
    Additions,
    /// The root of a CHOICE has no alternative.
    #[error("it has no alternative")]
    NoAlternative,
    /// An ENUMERATED, a SEQUENCE, a SET or a CHOICE has additions without an extension marker.
    #[error("it has additions but no extension marker")]
    NotExtensible,
    /// The greatest size of a string or a list exceeds 65,535.
    #[error("its greatest size exceeds 65,535")]
    Size,
    /// Not all ranges of an alphabet are in the table of ranges.
    #[error("the rows of its alphabet exceed the table")]
    Alphabet,
    /// The alphabet of a string, or that of its type, has no range.
    #[error("its alphabet is empty")]
    NoRange,
    /// The ranges of the alphabet of a string, or of that of its type, do not ascend, or one of them
    /// is empty.
    #[error("the ranges of its alphabet do not ascend")]
    NotAscending,
    /// The alphabet of a string has a character that the alphabet of its type does not have.
    #[error("its alphabet exceeds the alphabet of its type")]
    NotWithin,
}

/// A fault of the tables of a schema.
#[derive(Clone, Copy, Debug, PartialEq, Eq, Error)]
pub enum TableFault {
    /// A type is not well formed.
    #[error("type {row}: {fault}")]
    Type {
        /// The index of the type.
        row: usize,
        /// Its fault.
        fault: NodeFault,
    },
    /// The tables have no type of the index that a component or an alternative names.
    #[error("member {row}: it names a type that the tables do not have")]
    Member {
        /// The index of the component or alternative.
        row: usize,
    },
}
