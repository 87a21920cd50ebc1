//! Automatic tags (X.680 25.8), and the numbers of ENUMERATED.

use asn1_schema::{Member, Node, Range, Rows, TimeKind};
use asn1_x690::{CharacterSize, Class, FirstTags, Tag, TagTables, TypeTags};
use std::alloc::{AllocError, Global};

/// The tables of tags.
#[derive(Drop)]
pub struct TagRows {
    types: Vec<TypeTags>,
    members: Vec<FirstTags>,
    tags: Vec<Tag>,
    numbers: Vec<i128>,
}

/// Returns the number of the universal tag of a type, if it has one. The alphabet of a text tells of
/// which type it is.
pub(crate) fn universal_number(node: &Node, alphabet: Option<Range>) -> Option<u64> {
    match *node {
        Node::Null => Some(5),
        Node::Boolean => Some(1),
        Node::IntegerBetween { .. } | Node::IntegerAtLeast { .. } | Node::Integer => Some(2),
        Node::Enumerated { .. } => Some(10),
        Node::BitString { .. } => Some(3),
        Node::OctetString { .. } => Some(4),
        Node::ObjectIdentifier => Some(6),
        Node::RelativeIdentifier => Some(13),
        Node::Utf8String => Some(12),
        Node::Real => Some(9),
        Node::Time { kind } => Some(time_number(kind)),
        Node::Sequence { .. } | Node::SequenceOf { .. } => Some(16),
        Node::SetOf { .. } => Some(17),
        Node::Text { whole, .. } => Some(text_number(alphabet, whole)),
        Node::Choice { .. } | Node::Open { .. } => None,
    }
}

/// Returns the number of the universal tag of a time.
fn time_number(kind: TimeKind) -> u64 {
    match kind {
        TimeKind::Utc => 23,
        TimeKind::Generalized => 24,
    }
}

/// Returns the number of the universal tag of a string by the first range of its type's alphabet, and by
/// how many there are.
fn text_number(first: Option<Range>, alphabet: Rows) -> u64 {
    match first {
        Some(range) if range.last == 65535 => 30,
        Some(range) if range.last == 127 => 22,
        Some(range) if range.last == 126 => 26,
        _ if alphabet.count == 2 => 18,
        _ => 19,
    }
}

impl TagRows {
    /// Returns empty tables.
    pub(crate) fn new(alloc: Global) -> TagRows {
        TagRows {
            types: Vec::new(alloc),
            members: Vec::new(alloc),
            tags: Vec::new(alloc),
            numbers: Vec::new(alloc),
        }
    }

    /// Returns the tables, as decoders and encoders take them.
    pub fn tables(&self) -> TagTables<'_> {
        TagTables {
            types: self.types.as_slice(),
            members: self.members.as_slice(),
            tags: self.tags.as_slice(),
            numbers: self.numbers.as_slice(),
        }
    }

    /// Adds a type with its universal tag.
    pub(crate) fn add_type(&mut self, node: &Node, number: Option<u64>) -> Result<(), AllocError> {
        let from = self.tags.len();
        let numbers = self.numbers.len();
        if let Some(number) = number {
            self.tags.push(Tag {
                class: Class::Universal,
                number,
            })?;
        }
        if let Node::Enumerated {
            last,
            additions,
            ..
        } = *node
        {
            for value in 0..=u64::from(last) + u64::from(additions) {
                self.numbers.push(i128::from(value))?;
            }
        }
        self.types.push(TypeTags {
            tags: Rows {
                from,
                count: if number.is_some() { 1 } else { 0 },
            },
            numbers,
            characters: if number == Some(30) {
                CharacterSize::Two
            } else {
                CharacterSize::One
            },
            is_any: false,
        })?;
        Ok(())
    }

    /// Returns whether the type at a node has a tag.
    pub(crate) fn has_tags(&self, node: usize) -> bool {
        match self.types.as_slice().get(node) {
            Some(of) => of.tags.count > 0,
            None => false,
        }
    }

    /// Makes each element a value of the type at a node, which then has no tag.
    pub(crate) fn permit_any(&mut self, node: usize) {
        if let Some(of) = self.types.as_mut_slice().get_mut(node) {
            let tags = Rows {
                from: of.tags.from,
                count: 0,
            };
            *of = TypeTags {
                tags,
                is_any: true,
                ..*of
            };
        }
    }

    /// Adds a member of the type at a node, with a tag of the context. It replaces the type's own tag, and
    /// is around a type that has none.
    pub(crate) fn add_member(&mut self, node: usize, number: u64) -> Result<(), AllocError> {
        let tags = self.tag_type(node, number)?;
        self.members.push(FirstTags {
            tags,
            is_any: false,
            group: None,
        })?;
        Ok(())
    }

    /// Sets the tag of the type at a node to one of the context.
    fn tag_type(&mut self, node: usize, number: u64) -> Result<Rows, AllocError> {
        let from = self.tags.len();
        self.tags.push(Tag {
            class: Class::Context,
            number,
        })?;
        let tags = Rows { from, count: 1 };
        if let Some(of) = self.types.as_mut_slice().get_mut(node) {
            *of = TypeTags { tags, ..*of };
        }
        Ok(tags)
    }

    /// Tags the components of an addition group, which are already members, with tags of the context
    /// from a number on, and adds the group as a member.
    pub(crate) fn add_group(
        &mut self,
        members: &[Member],
        group: Rows,
        number: u64,
    ) -> Result<(), AllocError> {
        let from = self.tags.len();
        for index in 0..group.count {
            let row = group.from.saturating_add(index as usize);
            if let Some(member) = members.get(row) {
                let number = number.saturating_add(u64::from(index));
                let tags = self.tag_type(member.node, number)?;
                if let Some(of) = self.members.as_mut_slice().get_mut(row) {
                    *of = FirstTags { tags, ..*of };
                }
            }
        }
        self.members.push(FirstTags {
            tags: Rows {
                from,
                count: group.count,
            },
            is_any: false,
            group: Some(group),
        })?;
        Ok(())
    }
}
