//! The tables that are made, in the caller's room.

use crate::objects::{ObjectRow, OpenRow};
use crate::open_types::PathRow;
use crate::tag_tables::{NO_FIRST_TAGS, NO_TYPE_TAGS};
use asn1_definitions::Place;
use asn1_notation::{NotationError, Problem, Sink, error_at};
use asn1_schema::{Member, Node, Presence, Range, Rows};
use asn1_schema_values::NameSpan;
use asn1_x690::{FirstTags, Tag, TypeTags};

/// How many components and tags the names of a text may lead to.
const MAX_STEPS: usize = 1 << 18;

/// A value of an ENUMERATED.
#[derive(Clone, Copy, Debug, PartialEq, Eq)]
pub struct Enumeral {
    /// Its name.
    pub name: NameSpan,
    /// Its number.
    pub number: i128,
}

/// The value after DEFAULT.
#[derive(Clone, Copy, Debug, PartialEq, Eq)]
pub struct DefaultText {
    /// The text of the value.
    pub value: NameSpan,
    /// Its type.
    pub node: usize,
    /// The entry of DEFAULT.
    pub(crate) at: Place,
    /// The entry of its type.
    pub(crate) of: Place,
}

/// A type with a name.
#[derive(Clone, Copy, Debug, PartialEq, Eq)]
pub struct NamedType {
    /// The name of its module.
    pub module: NameSpan,
    /// Its name.
    pub name: NameSpan,
    /// Its index among the nodes.
    pub node: usize,
}

/// A component before it is a member of the tables.
#[derive(Clone, Copy, Debug)]
pub struct Draft {
    pub(crate) member: Member,
    pub(crate) name: NameSpan,
    pub(crate) order: u64,
    pub(crate) first: FirstTags,
}

/// A tag or the hash of a name that must be distinct from others.
#[derive(Clone, Copy, Debug, PartialEq, Eq)]
pub struct Key {
    pub(crate) key: u64,
    pub(crate) is_root: bool,
    pub(crate) span: NameSpan,
}

/// No name.
pub const NO_NAME: NameSpan = NameSpan { from: 0, count: 0 };

/// The key of ANY, which may begin with any tag.
pub(crate) const ANY_TAG: u64 = u64::MAX;

/// No rows.
pub const NO_ROWS: Rows = Rows { from: 0, count: 0 };

/// A component that says nothing.
pub const NO_MEMBER: Member = Member {
    node: 0,
    presence: Presence::Mandatory,
};

/// An empty draft, to fill room with.
pub const NO_DRAFT: Draft = Draft {
    member: NO_MEMBER,
    name: NO_NAME,
    order: 0,
    first: NO_FIRST_TAGS,
};

/// A node that copies none.
pub(crate) const NO_SOURCE: usize = usize::MAX;

/// An empty key, to fill room with.
pub const NO_KEY: Key = Key {
    key: 0,
    is_root: false,
    span: NO_NAME,
};

/// The tables of the types of a text, and the room in which they are made.
#[derive(Drop)]
pub struct Builder<'m> {
    /// The types.
    pub nodes: Sink<'m, Node>,
    /// The name of each type, or none.
    pub node_names: Sink<'m, NameSpan>,
    /// The values of each ENUMERATED: those of its root in the order of their numbers, and then its
    /// additions.
    pub node_enumerals: Sink<'m, Rows>,
    /// Components and alternatives.
    pub members: Sink<'m, Member>,
    /// Their names.
    pub member_names: Sink<'m, NameSpan>,
    /// Ranges of characters.
    pub ranges: Sink<'m, Range>,
    /// Values of ENUMERATED.
    pub enumerals: Sink<'m, Enumeral>,
    /// Values after DEFAULT.
    pub defaults: Sink<'m, DefaultText>,
    /// The types that have names.
    pub types: Sink<'m, NamedType>,
    /// The components of one type, before they are in order.
    pub drafts: Sink<'m, Draft>,
    /// The tags of one type that must be distinct.
    pub tags: Sink<'m, Key>,
    /// The names of one type.
    pub names: Sink<'m, Key>,
    /// What X.690 requires of each type.
    pub type_tags: Sink<'m, TypeTags>,
    /// The tags of the types.
    pub tag_rows: Sink<'m, Tag>,
    /// The tags that each component and alternative can begin with, among the first tags.
    pub member_tags: Sink<'m, FirstTags>,
    /// The first tags.
    pub first_rows: Sink<'m, Tag>,
    /// The node of which each node is a copy with other tags.
    pub sources: Sink<'m, usize>,
    /// The open types whose contents depend on other components.
    pub opens: Sink<'m, OpenRow>,
    /// The paths of these components.
    pub paths: Sink<'m, PathRow>,
    /// Their objects.
    pub objects: Sink<'m, ObjectRow>,
    pub(crate) steps: usize,
}

impl<'m> Builder<'m> {
    /// Makes empty tables from the room of each table, in the order of the fields, and the room of the
    /// components, tags and names of one type.
    pub fn new(
        nodes: &'m mut [Node],
        node_names: &'m mut [NameSpan],
        node_enumerals: &'m mut [Rows],
        members: &'m mut [Member],
        member_names: &'m mut [NameSpan],
        ranges: &'m mut [Range],
        enumerals: &'m mut [Enumeral],
        defaults: &'m mut [DefaultText],
        types: &'m mut [NamedType],
        drafts: &'m mut [Draft],
        tags: &'m mut [Key],
        names: &'m mut [Key],
    ) -> Builder<'m> {
        Builder {
            nodes: Sink::new(nodes),
            node_names: Sink::new(node_names),
            node_enumerals: Sink::new(node_enumerals),
            members: Sink::new(members),
            member_names: Sink::new(member_names),
            ranges: Sink::new(ranges),
            enumerals: Sink::new(enumerals),
            defaults: Sink::new(defaults),
            types: Sink::new(types),
            drafts: Sink::new(drafts),
            tags: Sink::new(tags),
            names: Sink::new(names),
            type_tags: Sink::new(&mut []),
            tag_rows: Sink::new(&mut []),
            member_tags: Sink::new(&mut []),
            first_rows: Sink::new(&mut []),
            sources: Sink::new(&mut []),
            opens: Sink::new(&mut []),
            paths: Sink::new(&mut []),
            objects: Sink::new(&mut []),
            steps: 0,
        }
    }

    /// Returns the tables with room for open types, for the paths of the components that their contents
    /// depend on, and for their objects.
    pub fn with_objects(
        self,
        opens: &'m mut [OpenRow],
        paths: &'m mut [PathRow],
        objects: &'m mut [ObjectRow],
    ) -> Builder<'m> {
        Builder {
            opens: Sink::new(opens),
            paths: Sink::new(paths),
            objects: Sink::new(objects),
            ..self
        }
    }

    /// Returns the tables with room for tags: of the types, of their tags, of the members, of their first
    /// tags, and of the nodes of which others are copies.
    pub fn with_tags(
        self,
        type_tags: &'m mut [TypeTags],
        tag_rows: &'m mut [Tag],
        member_tags: &'m mut [FirstTags],
        first_rows: &'m mut [Tag],
        sources: &'m mut [usize],
    ) -> Builder<'m> {
        Builder {
            type_tags: Sink::new(type_tags),
            tag_rows: Sink::new(tag_rows),
            member_tags: Sink::new(member_tags),
            first_rows: Sink::new(first_rows),
            sources: Sink::new(sources),
            ..self
        }
    }

    /// Takes a step at an octet of the text.
    pub(crate) fn step(&mut self, at: usize) -> Result<(), NotationError> {
        self.steps = self.steps.saturating_add(1);
        if MAX_STEPS < self.steps {
            return Err(error_at(Problem::TooMuchWork, at));
        }
        Ok(())
    }

    /// Appends a node without a name.
    pub(crate) fn push_node(&mut self, node: Node) -> usize {
        self.node_names.push(NO_NAME);
        self.node_enumerals.push(NO_ROWS);
        self.type_tags.push(NO_TYPE_TAGS);
        self.sources.push(NO_SOURCE);
        self.nodes.push(node)
    }

    /// Adds a tag that an encoding can begin with, of the component with this name: its order, or
    /// `ANY_TAG`.
    pub(crate) fn add_key(&mut self, key: u64, is_root: bool, span: NameSpan) {
        self.tags.push(Key { key, is_root, span });
    }

    /// Returns the least tag of a root among those from an index on.
    pub(crate) fn least_tag(&self, from: usize) -> u64 {
        let mut least = u64::MAX;
        for index in from..self.tags.count() {
            match self.tags.get(index) {
                Some(tag) if tag.is_root && tag.key < least => least = tag.key,
                Some(_) => {}
                None => break,
            }
        }
        least
    }

    /// Returns an error if two of the tags are equal, and removes them. ANY has all tags.
    pub(crate) fn check_tags(&mut self) -> Result<(), NotationError> {
        let tags = self.tags.rows_from(0);
        tags.sort_unstable_by_key(|tag| (tag.key, tag.span.from));
        let mut last: Option<Key> = None;
        for tag in tags.iter() {
            if let Some(last) = last
                && (last.key == tag.key || tag.key == ANY_TAG)
            {
                let at = last.span.from.max(tag.span.from);
                return Err(error_at(Problem::EqualTags, at));
            }
            last = Some(*tag);
        }
        self.tags.truncate(0);
        Ok(())
    }

    /// Returns an error if two of the names are equal, and removes them.
    pub(crate) fn check_names(&mut self, text: &[u8]) -> Result<(), NotationError> {
        let names = self.names.rows_from(0);
        names.sort_unstable_by_key(|name| (name.key, name.span.from));
        let mut last: Option<Key> = None;
        for name in names.iter() {
            if let Some(last) = last
                && last.key == name.key
                && is_same(text, last.span, name.span)
            {
                return Err(error_at(Problem::Duplicate, name.span.from));
            }
            last = Some(*name);
        }
        self.names.truncate(0);
        Ok(())
    }
}

/// Returns whether two names are equal.
fn is_same(text: &[u8], one: NameSpan, other: NameSpan) -> bool {
    asn1_notation::part_of(text, one.from, one.count)
        == asn1_notation::part_of(text, other.from, other.count)
}
