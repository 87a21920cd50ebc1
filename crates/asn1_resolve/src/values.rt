//! Values after DEFAULT, as parts.

use crate::builder::DefaultText;
use crate::governed::{Governed, Types};
use crate::open::Key;
use crate::pieces::Pieces;
use asn1_notation::Item;
use asn1_schema::{Node, Part, Presence, Rows, Span};
use std::alloc::{AllocError, Global};

/// How deep a value may be nested.
const DEPTH: usize = 32;

/// How many values those of a text may have in all, with the default values that they are compared with.
const MAX_VALUES: usize = 1 << 20;

/// Values in parts, and the octets in which they have their strings.
#[derive(Drop)]
pub(crate) struct Values {
    pub(crate) alloc: Global,
    pub(crate) parts: Vec<Part>,
    pub(crate) octets: Vec<u8>,
    /// How many values may still be read.
    left: usize,
}

/// Returns the value of a DEFAULT. `None` if it has none.
fn governed_by(types: Types<'_>, default: DefaultText) -> Option<Governed> {
    Some(Governed {
        value: types.scope.value_in(default.at)?,
        of: default.of,
        node: default.node,
    })
}

impl Values {
    /// Makes no values.
    pub(crate) fn new(alloc: Global) -> Values {
        Values {
            alloc,
            parts: Vec::new(alloc),
            octets: Vec::new(alloc),
            left: MAX_VALUES,
        }
    }

    /// Appends the parts of the value of a DEFAULT. Returns where they are; `None` if the value is not
    /// read, or is none of its type.
    pub(crate) fn add_default(
        &mut self,
        types: Types<'_>,
        default: DefaultText,
    ) -> Result<Option<(usize, usize)>, AllocError> {
        match governed_by(types, default) {
            Some(governed) => self.add(types, governed),
            None => Ok(None),
        }
    }

    /// Appends the parts of a value. Returns where they are; `None` if the value is not read, or is none of
    /// its type.
    pub(crate) fn add(
        &mut self,
        types: Types<'_>,
        governed: Governed,
    ) -> Result<Option<(usize, usize)>, AllocError> {
        let from = self.parts.len();
        if self.value(types, governed, DEPTH)? {
            return Ok(Some((from, self.parts.len().saturating_sub(from))));
        }
        self.parts.truncate(from);
        Ok(None)
    }

    /// Appends octets. Returns their bits.
    pub(crate) fn add_octets(&mut self, octets: &[u8]) -> Result<Span, AllocError> {
        let at = self.octets.len().saturating_mul(8);
        self.octets.extend_from_slice(octets)?;
        let count = octets.len().saturating_mul(8);
        Ok(Span { at, count })
    }

    /// Appends a part, if there is one. Returns whether there is.
    fn push(&mut self, part: Option<Part>) -> Result<bool, AllocError> {
        match part {
            None => Ok(false),
            Some(part) => {
                self.parts.push(part)?;
                Ok(true)
            }
        }
    }

    /// Appends the parts of a value. Returns whether it is read, and is one of its type.
    #[cycle(values)]
    fn value(
        &mut self,
        types: Types<'_>,
        governed: Governed,
        depth: usize,
    ) -> Result<bool, AllocError> {
        if depth == 0 || self.left == 0 {
            return Ok(false);
        }
        self.left -= 1;
        let Some(found) = types.through_names(governed) else {
            return Ok(false);
        };
        let Some(node) = types.nodes.get(found.node).copied() else {
            return Ok(false);
        };
        match node {
            Node::Sequence { root, .. } => self.sequence(types, found, root, depth - 1),
            Node::SequenceOf { item, .. } | Node::SetOf { item, .. } => {
                self.list(types, found, item, depth - 1)
            }
            Node::Choice {
                alternatives,
                additions,
                ..
            } => self.choice(types, found, alternatives, additions, depth - 1),
            _ => {
                let part = self.leaf(types, found, node)?;
                self.push(part)
            }
        }
    }

    /// Appends the parts of a SEQUENCE or a SET without additions.
    #[cycle(values)]
    fn sequence(
        &mut self,
        types: Types<'_>,
        governed: Governed,
        root: Rows,
        depth: usize,
    ) -> Result<bool, AllocError> {
        let braces = governed.value;
        if types.scope.item(braces) != Item::Braces
            || types.count_of_components(braces, root).is_none()
        {
            return Ok(false);
        }
        let count = root.count as usize;
        self.parts.push(Part::Sequence {
            count,
            is_extended: false,
        })?;
        for index in 0..count {
            let row = root.from.saturating_add(index);
            if !self.component(types, governed, row, depth)? {
                return Ok(false);
            }
        }
        Ok(true)
    }

    /// Appends the parts of the component in a row. Returns whether it is present, or may be absent.
    #[cycle(values)]
    fn component(
        &mut self,
        types: Types<'_>,
        governed: Governed,
        row: usize,
        depth: usize,
    ) -> Result<bool, AllocError> {
        let Some(member) = types.member(row) else {
            return Ok(false);
        };
        match types.piece_of(governed.value, row) {
            None if matches!(member.presence, Presence::Mandatory) => Ok(false),
            None => {
                self.parts.push(Part::Absent)?;
                Ok(true)
            }
            Some((name, value)) => {
                let Some(of) = types.component(governed.of, name) else {
                    return Ok(false);
                };
                let node = member.node;
                let from = self.parts.len();
                if !self.value(types, Governed { value, of, node }, depth)? {
                    return Ok(false);
                }
                match member.presence {
                    Presence::Default { value } => self.leave_out(types, from, value, depth),
                    _ => Ok(true),
                }
            }
        }
    }

    /// Makes the component whose parts are those from an index on absent, if they are those of its default
    /// value. Returns whether the default value is read.
    #[cycle(values)]
    fn leave_out(
        &mut self,
        types: Types<'_>,
        from: usize,
        default: usize,
        depth: usize,
    ) -> Result<bool, AllocError> {
        let Some(default) = types.defaults.get(default).copied() else {
            return Ok(false);
        };
        let end = self.parts.len();
        let Some(governed) = governed_by(types, default) else {
            return Ok(false);
        };
        if !self.value(types, governed, depth)? {
            return Ok(false);
        }
        let is_default = self.has_equal(from, end);
        self.parts.truncate(end);
        if is_default {
            self.parts.truncate(from);
            self.parts.push(Part::Absent)?;
        }
        Ok(true)
    }

    /// Returns whether the parts from one index to another are those from there on.
    fn has_equal(&self, from: usize, end: usize) -> bool {
        let parts = self.parts.as_slice();
        let one = Key {
            parts: parts.get(from..end).unwrap_or(&[]),
            octets: self.octets.as_slice(),
        };
        let two = Key {
            parts: parts.get(end..).unwrap_or(&[]),
            octets: self.octets.as_slice(),
        };
        one.parts.len() == two.parts.len() && one.begins_with(two)
    }

    /// Appends the parts of a SEQUENCE OF or a SET OF.
    #[cycle(values)]
    fn list(
        &mut self,
        types: Types<'_>,
        governed: Governed,
        item: usize,
        depth: usize,
    ) -> Result<bool, AllocError> {
        let braces = governed.value;
        if types.scope.item(braces) != Item::Braces {
            return Ok(false);
        }
        let Some(count) = types.count_of_values(braces) else {
            return Ok(false);
        };
        self.parts.push(Part::Count(count))?;
        let of = types.scope.type_in(governed.of);
        let mut pieces = Pieces::new(types, braces);
        for _ in 0..count {
            let Some(value) = pieces.next(types) else {
                return Ok(false);
            };
            let governed = Governed {
                value,
                of,
                node: item,
            };
            if !self.value(types, governed, depth)? {
                return Ok(false);
            }
            pieces.next(types);
        }
        Ok(true)
    }

    /// Appends the parts of a CHOICE.
    #[cycle(values)]
    fn choice(
        &mut self,
        types: Types<'_>,
        governed: Governed,
        alternatives: Rows,
        additions: Rows,
        depth: usize,
    ) -> Result<bool, AllocError> {
        let chosen = governed.value;
        if types.scope.item(chosen) != Item::Alternative {
            return Ok(false);
        }
        let found = match types.row_of(alternatives, chosen) {
            Some(found) => Some(found),
            None => types.row_of(additions, chosen).map(|(row, index)| (
                row,
                index.saturating_add(alternatives.count as usize),
            )),
        };
        let Some((row, index)) = found else {
            return Ok(false);
        };
        let (Some(member), Some(value), Some(of)) = (
            types.member(row),
            types.scope.value_in(chosen),
            types.component(governed.of, chosen),
        ) else {
            return Ok(false);
        };
        self.parts.push(Part::Chosen(index))?;
        let node = member.node;
        self.value(types, Governed { value, of, node }, depth)
    }
}
