//! What a value is put in order by.

use asn1_schema::Tables;
use asn1_x690::TagTables;

/// Encoding rules.
#[derive(Clone, Copy, Debug, PartialEq, Eq)]
pub enum Rules {
    /// The distinguished encoding rules (X.690).
    Der,
    /// The UNALIGNED variant of the packed encoding rules (X.691).
    UnalignedPer,
    /// Their ALIGNED variant.
    AlignedPer,
}

/// A schema, and the octets of a value.
#[derive(Clone, Copy, Debug)]
pub struct Context<'s> {
    /// The types.
    pub tables: Tables<'s>,
    /// Their tags.
    pub tags: TagTables<'s>,
    /// The rules by which items are encoded to compare them.
    pub rules: Rules,
    /// The octets in which the parts have their bits.
    pub source: &'s [u8],
}
