//! The errors of a builder.

use thiserror::Error;

/// Why a builder rejects a call.
#[derive(Clone, Copy, Debug, PartialEq, Eq, Error)]
pub enum BuildError {
    /// No value may come next: a component must be named first, or the value is complete.
    #[error("no value may come next")]
    NoValue,
    /// The type of the next value is another one.
    #[error("the value is of another type")]
    OtherType,
    /// The tables have no such type or member.
    #[error("the tables have no such type")]
    NoNode,
    /// The innermost value that was begun is no SEQUENCE and no SET.
    #[error("no SEQUENCE or SET was begun")]
    NoSequence,
    /// No value was begun that is not ended.
    #[error("no value was begun")]
    NotBegun,
    /// The type has no component or alternative with this name.
    #[error("the type has no such component")]
    NoComponent,
    /// The component was named before, or precedes one that was.
    #[error("the component has been passed")]
    Passed,
    /// A component that must be present is skipped.
    #[error("a mandatory component is absent")]
    Mandatory,
    /// A component or an alternative was named, but has no value yet; or a value was not ended.
    #[error("the value is not finished")]
    Unfinished,
    /// A BIT STRING has more bits than its octets.
    #[error("too few octets for the bits")]
    TooShort,
    /// There are 2^61 octets or more.
    #[error("too many octets")]
    TooLong,
    /// Out of memory.
    #[error("out of memory")]
    Memory,
}
