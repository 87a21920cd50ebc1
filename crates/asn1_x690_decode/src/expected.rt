//! The tags with which a value of a type begins.

use crate::tag_name::TagName;
use asn1_schema::{Node, Rows, Tables};
use asn1_x690::{FirstTags, Tag, TagTables};
use asn1_x690_fields::{FoundIdentifier, has_tag, is_identifier, tags_in};
use std::fmt;

/// The most open types that [`Expected`] looks through, one inside the other.
const OPEN_TYPES: usize = 8;

/// The tags with which a value of a type begins. Its `Display` writes them, as
/// `UTCTime or GeneralizedTime`, and the EXPLICIT tags around it, as `INTEGER in [0]`.
#[derive(Clone, Copy, Debug)]
pub struct Expected<'s> {
    /// The types.
    pub tables: Tables<'s>,
    /// Their tags.
    pub tags: TagTables<'s>,
    /// The node of the type.
    pub node: usize,
}

impl Expected<'_> {
    /// Returns the node of the type, or of the type that is in an open type.
    fn inner_node(&self) -> usize {
        let mut node = self.node;
        for _ in 0..OPEN_TYPES {
            match self.tables.nodes.get(node) {
                Some(Node::Open { inner }) => node = *inner,
                _ => return node,
            }
        }
        node
    }

    /// Returns the tags of the type at a node, from the outermost to the innermost.
    fn tags_of(&self, node: usize) -> &[Tag] {
        match self.tags.types.get(node) {
            Some(of) => tags_in(self.tags.tags, of.tags),
            None => &[],
        }
    }

    /// Returns whether a value of the type at a node is any element.
    fn is_any(&self, node: usize) -> bool {
        match self.tags.types.get(node) {
            Some(of) => of.is_any,
            None => true,
        }
    }

    /// Returns the alternatives of the type at a node, if it is a CHOICE: those of its root, and its
    /// additions.
    fn alternatives(&self, node: usize) -> Option<(Rows, Rows)> {
        match self.tables.nodes.get(node) {
            Some(
                Node::Choice {
                    alternatives,
                    is_extensible: _,
                    additions,
                },
            ) => Some((*alternatives, *additions)),
            _ => None,
        }
    }

    /// Returns the first tags of the member at an index in rows. `None` if there is no such member.
    fn first_tags(&self, rows: Rows, index: usize) -> Option<FirstTags> {
        if index >= rows.count as usize {
            return None;
        }
        self.tags
            .members
            .get(rows.from.saturating_add(index))
            .copied()
    }

    /// Returns how many tags the members of rows begin with.
    fn count_of(&self, rows: Rows) -> usize {
        let mut count = 0usize;
        for index in 0..rows.count as usize {
            if let Some(first) = self.first_tags(rows, index) {
                count = count.saturating_add(tags_in(self.tags.tags, first.tags).len());
            }
        }
        count
    }

    /// Returns whether the type expects the tag of an identifier, in either form.
    pub(crate) fn has_tag(&self, found: &FoundIdentifier) -> bool {
        let node = self.inner_node();
        for tag in self.tags_of(node) {
            if is_identifier(found, *tag, found.is_constructed) {
                return true;
            }
        }
        match self.alternatives(node) {
            Some((root, additions)) => {
                self.begins_in(root, found) || self.begins_in(additions, found)
            }
            None => false,
        }
    }

    /// Returns whether a member of rows begins with the tag of an identifier.
    fn begins_in(&self, rows: Rows, found: &FoundIdentifier) -> bool {
        for index in 0..rows.count as usize {
            if let Some(first) = self.first_tags(rows, index) {
                if has_tag(self.tags.tags, first, found) {
                    return true;
                }
            }
        }
        false
    }

    /// Writes the tags of the members of rows into a list of `all` tags, of which `before` are already
    /// written. Returns how many tags are written after the call.
    fn write_members<W: fmt::Write>(
        &self,
        f: &mut fmt::Formatter<W>,
        rows: Rows,
        before: usize,
        all: usize,
    ) -> Result<usize, fmt::Error> {
        let mut written = before;
        for index in 0..rows.count as usize {
            if let Some(first) = self.first_tags(rows, index) {
                for tag in tags_in(self.tags.tags, first.tags) {
                    if written > 0 {
                        f.write_str(if written.saturating_add(1) < all {
                            ", "
                        } else {
                            " or "
                        })?;
                    }
                    write!(f, "{}", name_of(*tag))?;
                    written = written.saturating_add(1);
                }
            }
        }
        Ok(written)
    }

    /// Writes the tags with which a value of a CHOICE begins.
    fn write_alternatives<W: fmt::Write>(
        &self,
        f: &mut fmt::Formatter<W>,
        root: Rows,
        additions: Rows,
    ) -> fmt::Result {
        let all = self.count_of(root).saturating_add(self.count_of(additions));
        let written = self.write_members(f, root, 0, all)?;
        if self.write_members(f, additions, written, all)? == 0 {
            return f.write_str("any tag");
        }
        Ok(())
    }
}

/// Returns the name of a tag.
fn name_of(tag: Tag) -> TagName {
    TagName {
        identifier: FoundIdentifier {
            class: tag.class,
            number: Some(tag.number),
            is_constructed: false,
        },
    }
}

/// Writes the tags that are around a value, from the innermost to the outermost.
fn write_around<W: fmt::Write>(f: &mut fmt::Formatter<W>, tags: &[Tag]) -> fmt::Result {
    for tag in tags.iter().rev() {
        write!(f, " in {}", name_of(*tag))?;
    }
    Ok(())
}

impl fmt::Display for Expected<'_> {
    fn fmt<W: fmt::Write>(&self, f: &mut fmt::Formatter<W>) -> fmt::Result {
        let node = self.inner_node();
        let tags = self.tags_of(node);
        if let Some((root, additions)) = self.alternatives(node) {
            self.write_alternatives(f, root, additions)?;
            write_around(f, tags)?;
        } else if self.is_any(node) {
            f.write_str("any tag")?;
            write_around(f, tags)?;
        } else {
            match tags.split_last() {
                None => f.write_str("any tag")?,
                Some((tag, others)) => {
                    write!(f, "{}", name_of(*tag))?;
                    write_around(f, others)?;
                }
            }
        }
        if node != self.node {
            write_around(f, self.tags_of(self.node))?;
        }
        Ok(())
    }
}
