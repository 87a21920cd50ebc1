//! Tags, and what the rules of X.690 require of a schema besides its nodes.

use asn1_schema::Rows;

/// The class of a tag (X.690 8.1.2.2).
#[derive(Clone, Copy, Debug, PartialEq, Eq)]
pub enum Class {
    /// The types of X.680 itself.
    Universal,
    /// Tags of an application.
    Application,
    /// Tags whose meaning depends on the type around them.
    Context,
    /// Tags of a private use.
    Private,
}

/// A tag (X.680 8).
#[derive(Clone, Copy, Debug, PartialEq, Eq)]
pub struct Tag {
    /// The class.
    pub class: Class,
    /// The number in the class.
    pub number: u64,
}

/// What the identifier octets of an element encode (X.690 8.1.2).
#[derive(Clone, Copy, Debug, PartialEq, Eq)]
pub struct Identifier {
    /// The tag.
    pub tag: Tag,
    /// Whether the contents are elements (8.1.2.5).
    pub is_constructed: bool,
}

/// How many octets each character of a string has.
#[derive(Clone, Copy, Debug, PartialEq, Eq)]
pub enum CharacterSize {
    /// One: every other type.
    One,
    /// Two: BMPString.
    Two,
    /// Four: UniversalString.
    Four,
}

/// What the rules need of a type besides its node.
#[derive(Clone, Copy, Debug, PartialEq, Eq)]
pub struct TypeTags {
    /// The tags of its elements, from the outermost to the innermost, in the table of tags. Each
    /// EXPLICIT tag adds one; an IMPLICIT tag replaces the first. A CHOICE and an open type without
    /// a tag have none.
    pub tags: Rows,
    /// Of an ENUMERATED: the index of the number of its first value, in the table of numbers. The
    /// numbers of its root and of its additions follow one another, in the order of the node.
    pub numbers: usize,
    /// Of a string of characters: how many octets each has.
    pub characters: CharacterSize,
    /// Whether a value is any element, as of ANY or of an open type whose type is not known. The
    /// value is an OCTET STRING of all octets of the element.
    pub is_any: bool,
}

/// The tags with which a value of a member may begin.
#[derive(Clone, Copy, Debug, PartialEq, Eq)]
pub struct FirstTags {
    /// The tags, in the table of tags. Those of an addition group are the tags of all its components.
    pub tags: Rows,
    /// Whether it may begin with any tag.
    pub is_any: bool,
    /// Of an addition group: its components, in the table of members. No element is around them.
    pub group: Option<Rows>,
}

/// The tables that DER needs besides those of a schema: tags, and numbers of ENUMERATED.
#[derive(Clone, Copy, Debug)]
pub struct TagTables<'s> {
    /// Of each node: its tags.
    pub types: &'s [TypeTags],
    /// Of each member: its first tags.
    pub members: &'s [FirstTags],
    /// Tags.
    pub tags: &'s [Tag],
    /// Numbers of ENUMERATED.
    pub numbers: &'s [i128],
}
