//! Values that were begun and are not ended.

use asn1_schema::Rows;

/// A SEQUENCE or a SET that is not ended.
#[derive(Clone, Copy, Debug)]
pub(crate) struct Components {
    /// The index of its part.
    pub(crate) at: usize,
    /// The components of its root.
    pub(crate) root: Rows,
    /// Its additions.
    pub(crate) additions: Rows,
    /// Whether an addition was named.
    pub(crate) is_extended: bool,
    /// How many components of the root are passed, or additions where one was named.
    pub(crate) passed: usize,
}

/// A value that is not ended.
#[derive(Clone, Copy, Debug)]
pub(crate) enum Frame {
    /// A SEQUENCE or a SET.
    Components(Components),
    /// A SEQUENCE OF or a SET OF.
    Items {
        /// The index of its part.
        at: usize,
        /// The type of its items.
        item: usize,
    },
}
