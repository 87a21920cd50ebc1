//! The path from a value to one inside it.

use crate::extent::end_of;
use crate::names::Names;
use asn1_schema::{Node, Part, Rows, Tables};
use std::{fmt, str};

/// The path to the value that follows some parts: the value at which a decoder found a fault after
/// these parts, or before which an encoder stopped.
///
/// Its `Display` writes the names of components and alternatives, joined by full stops, and the indexes
/// of items in brackets, as `extensions[2].critical`. The path to the whole value has no characters.
#[derive(Clone, Copy, Debug)]
pub struct Path<'v> {
    /// The types.
    pub tables: Tables<'v>,
    /// Their names.
    pub names: Names<'v>,
    /// The type of the whole value.
    pub node: usize,
    /// The parts before the value. The number of items or additions that is not known yet is
    /// `usize::MAX`.
    pub parts: &'v [Part],
}

/// A value: its type, and the index of its first part.
#[derive(Clone, Copy)]
struct Place {
    node: usize,
    at: usize,
}

/// What leads from a value to one inside it.
#[derive(Clone, Copy)]
enum Step {
    /// The component or the alternative in a row.
    Member(usize),
    /// The item of an index.
    Item(usize),
    /// The value of an open type.
    Inner,
}

/// Returns how many values from a part on are whole, at most `most`, and the index of the part after
/// them.
fn whole_values(parts: &[Part], from: usize, most: usize) -> (usize, usize) {
    let mut at = from;
    for index in 0..most {
        match end_of(parts, at) {
            Some(end) => at = end,
            None => return (index, at),
        }
    }
    (most, at)
}

impl<'v> Path<'v> {
    /// Returns the member of rows that has an index. `None` if there is none.
    fn member(&self, rows: Rows, index: usize, at: usize) -> Option<(Step, Place)> {
        if index >= rows.count as usize {
            return None;
        }
        let row = rows.from.checked_add(index)?;
        let node = self.tables.members.get(row)?.node;
        Some((Step::Member(row), Place { node, at }))
    }

    /// Returns the component of a SEQUENCE or a SET that is not whole. `None` if there is none.
    fn component(&self, root: Rows, additions: Rows, at: usize) -> Option<(Step, Place)> {
        let Part::Sequence { count, is_extended } = *self.parts.get(at)? else {
            return None;
        };
        let (index, next) = whole_values(self.parts, at.saturating_add(1), count);
        if index < count {
            return self.member(root, index, next);
        }
        if !is_extended {
            return None;
        }
        let Part::Additions(added) = *self.parts.get(next)? else {
            return None;
        };
        let (index, next) = whole_values(self.parts, next.saturating_add(1), added);
        if index < added {
            self.member(additions, index, next)
        } else {
            None
        }
    }

    /// Returns the item of a list that is not whole. `None` if there is none.
    fn item(&self, node: usize, at: usize) -> Option<(Step, Place)> {
        let Part::Count(count) = *self.parts.get(at)? else {
            return None;
        };
        let (index, next) = whole_values(self.parts, at.saturating_add(1), count);
        if index < count {
            Some((Step::Item(index), Place { node, at: next }))
        } else {
            None
        }
    }

    /// Returns the alternative of a CHOICE. `None` if it is not known.
    fn alternative(&self, root: Rows, additions: Rows, at: usize) -> Option<(Step, Place)> {
        let Part::Chosen(index) = *self.parts.get(at)? else {
            return None;
        };
        let next = at.saturating_add(1);
        match index.checked_sub(root.count as usize) {
            None => self.member(root, index, next),
            Some(added) => self.member(additions, added, next),
        }
    }

    /// Returns the step from a value to the one inside it that is not whole. `None` if there is none.
    fn step(&self, place: Place) -> Option<(Step, Place)> {
        let at = place.at;
        match *self.tables.nodes.get(place.node)? {
            Node::Open { inner } => Some((Step::Inner, Place { node: inner, at })),
            Node::Sequence {
                root,
                additions,
                ..
            } => self.component(root, additions, at),
            Node::SequenceOf { item, .. } => self.item(item, at),
            Node::SetOf { item, .. } => self.item(item, at),
            Node::Choice {
                alternatives,
                additions,
                ..
            } => self.alternative(alternatives, additions, at),
            _ => None,
        }
    }

    /// Returns the name of a component. It is empty if the component has none.
    fn name(&self, row: usize) -> &'v str {
        match self.names.of_member(row) {
            Some(name) => str::from_utf8(name).unwrap_or(""),
            None => "",
        }
    }
}

impl<'v> fmt::Display for Path<'v> {
    fn fmt<W: fmt::Write>(&self, f: &mut fmt::Formatter<W>) -> fmt::Result {
        let mut place = Place {
            node: self.node,
            at: 0,
        };
        let mut is_first = true;
        let most = self.parts.len().saturating_add(self.tables.nodes.len());
        for _ in 0..most {
            let Some((step, next)) = self.step(place) else {
                break;
            };
            place = next;
            match step {
                Step::Inner => {}
                Step::Item(index) => {
                    write!(f, "[{index}]")?;
                    is_first = false;
                }
                Step::Member(row) => {
                    let name = self.name(row);
                    if !is_first && !name.is_empty() {
                        write!(f, ".")?;
                    }
                    write!(f, "{name}")?;
                    is_first = is_first && name.is_empty();
                }
            }
        }
        Ok(())
    }
}
