//! Encoding rules.

/// The rules by which a value is encoded.
#[derive(Clone, Copy, Debug, PartialEq, Eq)]
pub enum Rules {
    /// The distinguished encoding rules (X.690 10, 11).
    Der,
    /// The packed encoding rules, UNALIGNED (X.691).
    UnalignedPer,
    /// The packed encoding rules, ALIGNED (X.691).
    AlignedPer,
}
