//! Why the parts of a value have no encoding.

/// Why the parts of a value have no encoding.
#[derive(Clone, Copy, Debug, PartialEq, Eq)]
pub enum MisfitKind {
    /// The parts end before the value does.
    NoPart,
    /// The part is of another kind than the values of the type.
    OtherPart,
    /// The part's value is no value of the type, or has no encoding.
    NoEncoding,
    /// No addition is present, although the first part of the SEQUENCE says that additions follow.
    NoAddition,
    /// A component has its default value, and so must be absent.
    DefaultValue,
    /// An item of a SET OF is less than the item before it.
    NotAscending,
    /// The value exceeds a limit of the encoder.
    Unsupported,
    /// The tables have no such node or member.
    NoNode,
    /// The value is nested deeper than the caller allows.
    TooDeep,
}
