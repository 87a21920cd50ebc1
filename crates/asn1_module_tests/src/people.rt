//! Tables, printed by `asn1 tables`.
#![allow(unused_imports)]

use asn1_schema::Length::*;
use asn1_schema::Node::*;
use asn1_schema::Presence::*;
use asn1_schema::TimeKind::*;
use asn1_schema::{Bounds, LowerBound, Member, Node, Range, Rows, Span};
use asn1_schema_values::NameSpan;
use asn1_x690::CharacterSize::*;
use asn1_x690::Class::*;
use asn1_x690::{FirstTags, Tag, TypeTags};

/// The node of `Person`.
pub const PERSON: usize = 0;

/// The types.
pub const NODES: [Node; 5] = [
    Sequence {
        root: Rows { from: 0, count: 3 },
        is_extensible: false,
        additions: Rows { from: 3, count: 0 },
    },
    Text {
        length: Between {
            least: 1,
            range: 14,
        },
        is_extensible: false,
        alphabet: Rows { from: 10, count: 1 },
        whole: Rows { from: 10, count: 1 },
    },
    IntegerBetween {
        bounds: Bounds {
            least: 0,
            range: 150,
        },
        is_extensible: false,
    },
    SequenceOf {
        length: AtLeast { least: 0 },
        is_extensible: false,
        item: 4,
    },
    Enumerated {
        last: 1,
        is_extensible: false,
        additions: 0,
    },
];

/// The components, alternatives and additions.
pub const MEMBERS: [Member; 3] = [
    Member {
        node: 1,
        presence: Mandatory,
    },
    Member {
        node: 2,
        presence: Optional,
    },
    Member {
        node: 3,
        presence: Mandatory,
    },
];

/// The ranges of alphabets.
pub const RANGES: [Range; 13] = [
    Range {
        first: 32,
        last: 32,
    },
    Range {
        first: 48,
        last: 57,
    },
    Range {
        first: 32,
        last: 32,
    },
    Range {
        first: 39,
        last: 41,
    },
    Range {
        first: 43,
        last: 58,
    },
    Range {
        first: 61,
        last: 61,
    },
    Range {
        first: 63,
        last: 63,
    },
    Range {
        first: 65,
        last: 90,
    },
    Range {
        first: 97,
        last: 122,
    },
    Range {
        first: 32,
        last: 126,
    },
    Range {
        first: 0,
        last: 127,
    },
    Range {
        first: 0,
        last: 65535,
    },
    Range {
        first: 0,
        last: 4294967295,
    },
];

/// What DER requires of each type.
pub const TYPES: [TypeTags; 5] = [
    TypeTags {
        tags: Rows { from: 0, count: 1 },
        numbers: 0,
        characters: One,
        is_any: false,
    },
    TypeTags {
        tags: Rows { from: 5, count: 1 },
        numbers: 0,
        characters: One,
        is_any: false,
    },
    TypeTags {
        tags: Rows { from: 6, count: 1 },
        numbers: 0,
        characters: One,
        is_any: false,
    },
    TypeTags {
        tags: Rows { from: 7, count: 1 },
        numbers: 0,
        characters: One,
        is_any: false,
    },
    TypeTags {
        tags: Rows { from: 4, count: 1 },
        numbers: 0,
        characters: One,
        is_any: false,
    },
];

/// The first tags of each member.
pub const FIRST_TAGS: [FirstTags; 3] = [
    FirstTags {
        tags: Rows { from: 8, count: 1 },
        is_any: false,
        group: None,
    },
    FirstTags {
        tags: Rows { from: 9, count: 1 },
        is_any: false,
        group: None,
    },
    FirstTags {
        tags: Rows { from: 10, count: 1 },
        is_any: false,
        group: None,
    },
];

/// The tags.
pub const TAGS: [Tag; 11] = [
    Tag {
        class: Universal,
        number: 16,
    },
    Tag {
        class: Universal,
        number: 22,
    },
    Tag {
        class: Universal,
        number: 2,
    },
    Tag {
        class: Universal,
        number: 16,
    },
    Tag {
        class: Universal,
        number: 10,
    },
    Tag {
        class: Context,
        number: 0,
    },
    Tag {
        class: Context,
        number: 1,
    },
    Tag {
        class: Context,
        number: 2,
    },
    Tag {
        class: Context,
        number: 0,
    },
    Tag {
        class: Context,
        number: 1,
    },
    Tag {
        class: Context,
        number: 2,
    },
];

/// The numbers of ENUMERATED.
pub const NUMBERS: [i128; 2] = [0, 1];

/// The encodings of default values.
pub const DEFAULT_OCTETS: [u8; 0] = [];

/// Where each of them is.
pub const DEFAULT_SPANS: [Span; 0] = [];

/// The names, one after another.
pub const NAME_TEXT: &[u8] = b"Personnameagelikes";

/// The name of each type.
pub const NODE_NAMES: [NameSpan; 5] = [
    NameSpan { from: 0, count: 6 },
    NameSpan { from: 6, count: 0 },
    NameSpan { from: 6, count: 0 },
    NameSpan { from: 6, count: 0 },
    NameSpan { from: 6, count: 0 },
];

/// The name of each component.
pub const MEMBER_NAMES: [NameSpan; 3] = [
    NameSpan { from: 6, count: 4 },
    NameSpan { from: 10, count: 3 },
    NameSpan { from: 13, count: 5 },
];

pub mod views {
    //! Values by the names of their components.

    /// A value of `Person`.
    #[derive(Clone, Copy, Debug)]
    pub struct Person<'v>(pub asn1_schema_values::Value<'v>);

    impl<'v> Person<'v> {
        /// Returns the component `name`. `None` if it is absent.
        pub fn name(&self) -> Option<asn1_schema_values::Value<'v>> {
            let value = self.0.get("name")?;
            Some(value)
        }

        /// Returns the component `age`. `None` if it is absent.
        pub fn age(&self) -> Option<asn1_schema_values::Value<'v>> {
            let value = self.0.get("age")?;
            Some(value)
        }

        /// Returns the component `likes`. `None` if it is absent.
        pub fn likes(&self) -> Option<asn1_schema_values::Value<'v>> {
            let value = self.0.get("likes")?;
            Some(value)
        }
    }
}
