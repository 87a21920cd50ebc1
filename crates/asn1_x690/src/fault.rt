//! Why octets are no encoding.

use thiserror::Error;

/// Why octets are no encoding of a value.
#[derive(Clone, Copy, Debug, PartialEq, Eq, Error)]
pub enum FaultKind {
    /// Octets are missing.
    #[error("octets are missing")]
    Short,
    /// The number of a tag or a length has more octets than it needs.
    #[error("the number has more octets than it needs")]
    NotMinimal,
    /// A length has the indefinite form.
    #[error("the length has the indefinite form")]
    Indefinite,
    /// A length begins with the octet FF, which is reserved.
    #[error("the first octet of the length is reserved")]
    Reserved,
    /// An element has another tag or form than its type.
    #[error("the element has another tag or form")]
    OtherTag,
    /// A component that must be present is absent.
    #[error("a component is missing")]
    Missing,
    /// Octets follow the last value.
    #[error("octets follow the last value")]
    Extra,
    /// The contents octets encode no value of this kind of type.
    #[error("the contents octets are invalid")]
    Contents,
    /// The value violates a constraint, or is no value of an ENUMERATED.
    #[error("the value is not permitted")]
    NotPermitted,
    /// A component is present with its default value.
    #[error("the default value is present")]
    DefaultValue,
    /// An item of a SET OF is less than the item before it (X.690 11.6).
    #[error("the items of a SET OF are not in ascending order")]
    NotAscending,
    /// The tables have no such node, member or tag.
    #[error("the schema has no such type")]
    NoNode,
    /// A value is nested deeper than the caller allows.
    #[error("the value is nested too deep")]
    TooDeep,
}
