//! The SET OFs of a value.

use crate::context::Context;
use asn1_schema::{Node, Part, Rows};
use asn1_schema_values::{end_of, end_of_values};
use std::alloc::{AllocError, Global};

/// How many open types may hold one another.
const MAX_OPEN: usize = 64;

/// A value of a SET OF.
#[derive(Clone, Copy, Debug)]
pub(crate) struct Set {
    /// The node of the type of its items.
    pub(crate) item: usize,
    /// The index of the part that counts its items.
    pub(crate) head: usize,
}

/// What is left of a value.
#[derive(Clone, Copy, Debug)]
enum Left {
    /// A value of the type at a node.
    Value(usize),
    /// Values of the type at a node, and their number.
    Items(usize, usize),
    /// Components.
    Members(Rows),
    /// Additions, after the part that counts them.
    Additions(Rows),
    /// The number of additions that the schema does not know.
    Unknown(usize),
}

/// A walk over the parts of a value.
#[derive(Drop)]
struct Walk<'s> {
    context: Context<'s>,
    parts: &'s [Part],
    at: usize,
    left: Vec<Left>,
    sets: Vec<Set>,
}

/// Returns the SET OFs of a value of the type at a node, each before those inside it. If the parts are no
/// value, it returns those before the first part that does not fit.
///
/// # Errors
///
/// Returns an error if out of memory.
pub(crate) fn sets_of<'x>(
    alloc: Global,
    context: &'x Context<'x>,
    node: usize,
    parts: &'x [Part],
) -> Result<Vec<Set>, AllocError> {
    let mut walk = Walk {
        context: *context,
        parts,
        at: 0,
        left: Vec::new(alloc),
        sets: Vec::new(alloc),
    };
    walk.left.push(Left::Value(node))?;
    // Each part is at most one value, one component or item, and a list of them.
    let most = parts.len().saturating_mul(4).saturating_add(4);
    for _ in 0..most {
        let Some(next) = walk.left.pop() else {
            break;
        };
        if !walk.step(next)? {
            break;
        }
    }
    let Walk { sets, .. } = walk;
    Ok(sets)
}

impl Walk<'_> {
    /// Goes on by one step. Returns whether the parts fit.
    fn step(&mut self, next: Left) -> Result<bool, AllocError> {
        match next {
            Left::Value(node) => self.value(node),
            Left::Items(_, 0) => Ok(true),
            Left::Items(node, count) => {
                self.left.push(Left::Items(node, count - 1))?;
                self.left.push(Left::Value(node))?;
                Ok(true)
            }
            Left::Members(rows) => self.members(rows),
            Left::Additions(rows) => self.additions(rows),
            Left::Unknown(count) => Ok(self.pass(end_of_values(self.parts, self.at, count))),
        }
    }

    /// Moves on to a part, if there is one. Returns whether there is.
    fn pass(&mut self, end: Option<usize>) -> bool {
        match end {
            Some(at) => {
                self.at = at;
                true
            }
            None => false,
        }
    }

    /// Leaves components.
    fn members(&mut self, rows: Rows) -> Result<bool, AllocError> {
        if rows.count == 0 {
            return Ok(true);
        }
        let Some(member) = self.context.tables.members.get(rows.from).copied() else {
            return Ok(false);
        };
        self.left.push(Left::Members(Rows {
            from: rows.from.saturating_add(1),
            count: rows.count - 1,
        }))?;
        self.left.push(Left::Value(member.node))?;
        Ok(true)
    }

    /// Leaves additions, of which the schema knows the first.
    fn additions(&mut self, rows: Rows) -> Result<bool, AllocError> {
        let Some(Part::Additions(count)) = self.parts.get(self.at).copied() else {
            return Ok(false);
        };
        self.at = self.at.saturating_add(1);
        let known = count.min(rows.count as usize);
        self.left.push(Left::Unknown(count.saturating_sub(known)))?;
        self.left.push(Left::Members(Rows {
            from: rows.from,
            count: known as u32,
        }))?;
        Ok(true)
    }

    /// Returns the type that open types around it hold.
    fn held_by(&self, node: usize) -> Option<Node> {
        let mut at = node;
        for _ in 0..MAX_OPEN {
            let is_any = self
                .context
                .tags
                .types
                .get(at)
                .is_some_and(|tags| tags.is_any);
            match self.context.tables.nodes.get(at).copied()? {
                Node::Open { inner } if !is_any => at = inner,
                kind => return Some(kind),
            }
        }
        None
    }

    /// Leaves what a value holds.
    fn value(&mut self, node: usize) -> Result<bool, AllocError> {
        let Some(kind) = self.held_by(node) else {
            return Ok(false);
        };
        let Some(part) = self.parts.get(self.at).copied() else {
            return Ok(false);
        };
        let head = self.at;
        self.at = self.at.saturating_add(1);
        match (kind, part) {
            (
                Node::Sequence {
                    root,
                    additions,
                    ..
                },
                Part::Sequence { is_extended, .. },
            ) => {
                if is_extended {
                    self.left.push(Left::Additions(additions))?;
                }
                self.left.push(Left::Members(root))?;
            }
            (Node::SequenceOf { item, .. }, Part::Count(count)) => {
                self.left.push(Left::Items(item, count))?;
            }
            (Node::SetOf { item, .. }, Part::Count(count)) => {
                self.sets.push(Set { item, head })?;
                self.left.push(Left::Items(item, count))?;
            }
            (
                Node::Choice {
                    alternatives,
                    additions,
                    ..
                },
                Part::Chosen(index),
            ) => return self.alternative(alternatives, additions, index),
            _ => return Ok(self.pass(end_of(self.parts, head))),
        }
        Ok(true)
    }

    /// Leaves the alternative of an index.
    fn alternative(
        &mut self,
        root: Rows,
        additions: Rows,
        index: usize,
    ) -> Result<bool, AllocError> {
        let before = root.count as usize;
        let row = if index < before {
            root.from.saturating_add(index)
        } else {
            additions.from.saturating_add(index - before)
        };
        let Some(member) = self.context.tables.members.get(row).copied() else {
            return Ok(false);
        };
        self.left.push(Left::Value(member.node))?;
        Ok(true)
    }
}
