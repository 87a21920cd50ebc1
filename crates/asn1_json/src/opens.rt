//! The open types among the parts of a message (X.682 10), and strings with CONTAINING (X.682 11).

use crate::bits::{octets_in, octets_of};
use crate::print::row_of;
use asn1_resolve::{OpenKey, OpenPath, Schema};
use asn1_schema::{Node, Part, Rows};
use asn1_schema_values::{Message, Value, end_of_values};
use std::alloc::{AllocError, Global};
use std::str;

/// No rows.
const NO_ROWS: Rows = Rows { from: 0, count: 0 };

/// A value of an open type whose contents depend on other components (X.682 10), or of an OCTET STRING or a BIT
/// STRING with CONTAINING (X.682 11).
#[derive(Clone, Copy, Debug, PartialEq, Eq)]
pub struct OpenValue {
    /// The index of its part.
    pub part: usize,
    /// The node of the type of its contents.
    pub node: usize,
}

/// The contents of an open type, decoded.
#[derive(Debug, Drop)]
pub struct Contents {
    /// Which value contains the open type: 0 for the message, otherwise one more than the index of the
    /// contents of another open type.
    pub inside: usize,
    /// The value.
    pub value: OpenValue,
    /// The octets.
    pub octets: Vec<u8>,
    /// The parts.
    pub parts: Vec<Part>,
}

/// Returns the octets of a part of a message. `None` if the part has none, or if its bits are not whole octets.
///
/// # Errors
///
/// Returns an error if out of memory.
pub fn octets_of_part(
    alloc: Global,
    message: &[u8],
    part: Part,
) -> Result<Option<Vec<u8>>, AllocError> {
    match part {
        Part::Octets(span) => octets_of(alloc, message, span),
        Part::Bits(span) if span.count % 8 == 0 => octets_of(alloc, message, span),
        Part::OctetsInFragments(fragments) => octets_in(alloc, message, 8, fragments),
        Part::BitsInFragments(fragments) if fragments.last.count % 8 == 0 => {
            octets_in(alloc, message, 1, fragments)
        }
        _ => Ok(None),
    }
}

/// Returns the values of open types, and of strings with CONTAINING, in a value of the type at a node.
///
/// It omits those for which the schema has no type of the contents. The value must be nested less deep than
/// `depth`.
///
/// # Errors
///
/// Returns an error if out of memory.
pub fn open_values(
    alloc: Global,
    schema: &Schema,
    message: &[u8],
    parts: &[Part],
    depth: usize,
    node: usize,
) -> Result<Vec<OpenValue>, AllocError> {
    let mut finder = Finder {
        alloc,
        schema,
        message,
        parts,
        around: Vec::new(alloc),
        found: Vec::new(alloc),
    };
    finder.value(depth, node, 0)?;
    let Finder { found, .. } = finder;
    Ok(found)
}

/// A value of a SEQUENCE, SET or CHOICE around others.
#[derive(Drop)]
struct Around {
    /// Its type.
    node: usize,
    /// The index of its part.
    at: usize,
    /// The paths from it, and the part that each leads to.
    known: Vec<(OpenPath, Option<usize>)>,
}

/// What finds the values of open types.
#[derive(Drop)]
struct Finder<'a> {
    alloc: Global,
    schema: &'a Schema,
    message: &'a [u8],
    parts: &'a [Part],
    /// The values around the one that is visited, from the outermost one on.
    around: Vec<Around>,
    found: Vec<OpenValue>,
}

impl<'a> Finder<'a> {
    /// Returns the node of the type of a member. It is `usize::MAX`, which is no node, if the schema has no
    /// such member.
    fn node_of(&self, row: usize) -> usize {
        match self.schema.tables().members.get(row) {
            Some(member) => member.node,
            None => usize::MAX,
        }
    }

    /// Goes over the value that begins at a part. Returns the index of the part after it.
    #[cycle(finding)]
    fn value(&mut self, depth: usize, node: usize, at: usize) -> Result<usize, AllocError> {
        let next = at.saturating_add(1);
        if depth == 0 {
            return Ok(next);
        }
        let Some(of) = self.schema.tables().nodes.get(node).copied() else {
            return Ok(next);
        };
        match of {
            Node::Sequence {
                root,
                additions,
                ..
            } => {
                self.enter(node, at)?;
                let next = self.sequence(depth - 1, root, additions, at)?;
                self.around.pop();
                Ok(next)
            }
            Node::SequenceOf { item, .. } | Node::SetOf { item, .. } => {
                self.list(depth - 1, item, at)
            }
            Node::Choice {
                alternatives,
                additions,
                ..
            } => match self.parts.get(at).copied() {
                Some(Part::Chosen(index)) => match row_of(alternatives, additions, index) {
                    Some(row) => {
                        self.enter(node, at)?;
                        let next = self.value(depth - 1, self.node_of(row), next)?;
                        self.around.pop();
                        Ok(next)
                    }
                    None => Ok(next),
                },
                _ => Ok(next),
            },
            Node::Open { inner } => self.value(depth - 1, inner, at),
            Node::OctetString { .. } | Node::BitString { .. } => {
                self.leaf(node, at)?;
                Ok(next)
            }
            _ => Ok(next),
        }
    }

    /// Begins with a value around others.
    fn enter(&mut self, node: usize, at: usize) -> Result<(), AllocError> {
        let known = Vec::new(self.alloc);
        self.around.push(Around { node, at, known })?;
        Ok(())
    }

    /// Goes over the items of a SEQUENCE OF or a SET OF.
    #[cycle(finding)]
    fn list(&mut self, depth: usize, item: usize, at: usize) -> Result<usize, AllocError> {
        let mut next = at.saturating_add(1);
        let Some(Part::Count(count)) = self.parts.get(at).copied() else {
            return Ok(next);
        };
        for _ in 0..count {
            if self.parts.len() <= next {
                break;
            }
            next = self.value(depth, item, next)?;
        }
        Ok(next)
    }

    /// Goes over the components of a SEQUENCE or a SET, and its additions, if there are any.
    #[cycle(finding)]
    fn sequence(
        &mut self,
        depth: usize,
        root: Rows,
        additions: Rows,
        at: usize,
    ) -> Result<usize, AllocError> {
        let first = at.saturating_add(1);
        let Some(Part::Sequence { count, is_extended }) = self.parts.get(at).copied() else {
            return Ok(first);
        };
        let next = self.components(depth, root, count, first)?;
        if !is_extended {
            return Ok(next);
        }
        let Some(Part::Additions(count)) = self.parts.get(next).copied() else {
            return Ok(next);
        };
        self.components(depth, additions, count, next.saturating_add(1))
    }

    /// Visits `count` components of rows. Those of an addition group are components of the type that the
    /// group is in.
    #[cycle(finding)]
    fn components(
        &mut self,
        depth: usize,
        rows: Rows,
        count: usize,
        at: usize,
    ) -> Result<usize, AllocError> {
        let mut next = at;
        for index in 0..count {
            if self.parts.len() <= next {
                break;
            }
            if self.parts.get(next).copied() == Some(Part::Absent) || rows.count as usize <= index {
                next = next.saturating_add(1);
                continue;
            }
            let row = rows.from.saturating_add(index);
            next = match group_in(self.schema, row) {
                Some(root) if depth != 0 => self.sequence(depth - 1, root, NO_ROWS, next)?,
                _ => self.value(depth, self.node_of(row), next)?,
            };
        }
        Ok(next)
    }

    /// Adds the value at a part of a string with CONTAINING, or of an open type, if the schema knows the type
    /// of its contents.
    fn leaf(&mut self, node: usize, part: usize) -> Result<(), AllocError> {
        if let Some(inner) = self.schema.contents_type(node) {
            self.found.push(OpenValue { part, node: inner })?;
        }
        let Some(open) = self.schema.open_type(node) else {
            return Ok(());
        };
        let mut keys = Vec::new(self.alloc);
        for path in self.schema.paths_of(open) {
            let Some(at) = self.component(*path)? else {
                return Ok(());
            };
            keys.push(OpenKey {
                parts: self.parts.get(at..).unwrap_or(&[]),
                octets: self.message,
            })?;
        }
        if let Some(node) = self.schema.contents_of(open, keys.as_slice()) {
            self.found.push(OpenValue { part, node })?;
        }
        Ok(())
    }

    /// Returns the index of the first part of the component that a path leads to. `None` if it is absent.
    fn component(&mut self, path: OpenPath) -> Result<Option<usize>, AllocError> {
        let outer = self.around.len().checked_sub(path.levels);
        let Some(outer) = outer.and_then(|outer| outer.checked_sub(1)) else {
            return Ok(None);
        };
        let Some(around) = self.around.as_mut_slice().get_mut(outer) else {
            return Ok(None);
        };
        for (known, at) in around.known.as_slice() {
            if *known == path {
                return Ok(*at);
            }
        }
        let message = Message {
            tables: self.schema.tables(),
            names: self.schema.names(),
            octets: self.message,
            parts: self.parts,
        };
        let value = Value {
            message: &message,
            node: around.node,
            at: around.at,
        };
        let found = reached_from(self.schema, value, path);
        around.known.push((path, found))?;
        Ok(found)
    }
}

/// Returns the index of the first part of the component that a path leads to from a value. `None` if it is
/// absent.
fn reached_from(schema: &Schema, value: Value<'_>, path: OpenPath) -> Option<usize> {
    let mut found = value;
    for name in schema.names_of(path) {
        let name = str::from_utf8(schema.text_of(*name)).ok()?;
        found = member_of(schema, found, name)?;
    }
    Some(found.at)
}

/// Returns the component of a SEQUENCE or SET with a name, or the value of a CHOICE whose alternative has the
/// name. `None` if there is none.
fn member_of<'v>(schema: &Schema, value: Value<'v>, name: &str) -> Option<Value<'v>> {
    if let Some((chosen, inner)) = value.choice() {
        return if chosen == name.as_bytes() {
            Some(inner)
        } else {
            None
        };
    }
    if let Some(found) = value.get(name) {
        return Some(found);
    }
    in_groups(schema, value, name)
}

/// Returns the component of a SEQUENCE or SET with a name that is in an addition group. `None` if there is
/// none.
fn in_groups<'v>(schema: &Schema, value: Value<'v>, name: &str) -> Option<Value<'v>> {
    let message = value.message;
    let Node::Sequence { additions, .. } = *message.tables.nodes.get(value.node)? else {
        return None;
    };
    let Part::Sequence {
        count,
        is_extended: true,
    } = *message.parts.get(value.at)?
    else {
        return None;
    };
    let place = end_of_values(message.parts, value.at.saturating_add(1), count)?;
    let Part::Additions(count) = *message.parts.get(place)? else {
        return None;
    };
    among_groups(
        schema,
        message,
        additions,
        count,
        place.saturating_add(1),
        name,
    )
}

/// Returns the component with a name that is in one of `count` addition groups of rows, whose parts begin at an
/// index. `None` if there is none.
fn among_groups<'v>(
    schema: &Schema,
    message: &'v Message<'v>,
    rows: Rows,
    count: usize,
    first: usize,
    name: &str,
) -> Option<Value<'v>> {
    for index in 0..count {
        if rows.count as usize <= index {
            break;
        }
        let row = rows.from.saturating_add(index);
        if group_in(schema, row).is_none() {
            continue;
        }
        let group = Value {
            message,
            node: message.tables.members.get(row)?.node,
            at: end_of_values(message.parts, first, index)?,
        };
        if let Some(found) = group.get(name) {
            return Some(found);
        }
    }
    None
}

/// Returns the components of the addition group in a row. `None` if the row has none.
pub(crate) fn group_in(schema: &Schema, row: usize) -> Option<Rows> {
    if !schema.names().of_member(row)?.is_empty() {
        return None;
    }
    let tables = schema.tables();
    match *tables.nodes.get(tables.members.get(row)?.node)? {
        Node::Sequence { root, .. } => Some(root),
        _ => None,
    }
}
