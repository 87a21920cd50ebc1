//! What an element encloses.

use asn1_schema::Node;
use asn1_x690::{Tag, TypeTags};

/// What an element encloses.
#[derive(Clone, Copy, Debug)]
pub(crate) enum Inner<'s> {
    /// The contents of a type.
    Own(&'s Node, &'s TypeTags),
    /// An element of the tags that are left, the last of which is the type's own.
    Tagged(&'s Node, &'s TypeTags, &'s [Tag]),
    /// An element of the tags that are left, around a value that has its own header.
    Around(&'s Node, &'s TypeTags, &'s [Tag]),
}
