//! Why bits are no encoding.

use thiserror::Error;

/// Why bits are no encoding of a value.
#[derive(Clone, Copy, Debug, PartialEq, Eq, Error)]
pub enum FaultKind {
    /// Bits are missing.
    #[error("bits are missing")]
    Short,
    /// A number, a length or an index exceeds the greatest that is permitted.
    #[error("the number exceeds the greatest that is permitted")]
    AboveMost,
    /// A length is below the least that is permitted.
    #[error("the length is below the least that is permitted")]
    BelowLeast,
    /// A number or a length has more octets than it needs.
    #[error("the number has more octets than it needs")]
    NotMinimal,
    /// A length is in fragments where it may not be, or a fragment has none of the four sizes of
    /// X.691 11.9.3.8.
    #[error("the fragment is invalid")]
    Fragment,
    /// A padding bit is not zero.
    #[error("a padding bit is not zero")]
    NotZero,
    /// The number of octets is not that of a complete encoding.
    #[error("the number of octets is not that of the encoding")]
    ExtraOctets,
    /// The extension bit of a SEQUENCE is 1, and no addition is present.
    #[error("the extension bit is set, and no addition is present")]
    NoAddition,
    /// The extension bit of an INTEGER or of a size is 1, and the value or the length is in the root.
    #[error("the extension bit is set, and the value is in the root")]
    InRoot,
    /// A component is present with its default value.
    #[error("the default value is present")]
    DefaultValue,
    /// An item of a SET OF is less than the item before it (X.691 22.1).
    #[error("the items of a SET OF are not in ascending order")]
    NotAscending,
    /// Bits with names end in a zero that their size does not require.
    #[error("bits with names end in a zero")]
    NotTrimmed,
    /// A character is not in the alphabet.
    #[error("the character is not in the alphabet")]
    NotInAlphabet,
    /// Octets are no contents of an identifier, or no UTF-8.
    #[error("the octets are no valid contents")]
    Contents,
    /// The tables have no such node or member.
    #[error("the schema has no such type")]
    NoNode,
    /// A value is nested deeper than the caller allows.
    #[error("the value is nested too deep")]
    TooDeep,
    /// The value exceeds a limit of the decoder, as `specs/Limits` defines them.
    #[error("the value exceeds a limit of the decoder")]
    Unsupported,
}
