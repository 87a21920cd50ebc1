//! Values on one line, as the notation of X.680 writes them.

use crate::leaf_text::write_leaf;
use crate::value::{Message, Value};
use asn1_schema::{Node, Part, Rows};
use std::{fmt, str};

/// How deep a value may be nested in others. What is nested deeper is left out.
const DEPTH: usize = 32;

const NO_ROWS: Rows = Rows { from: 0, count: 0 };

/// What a value holds.
#[derive(Clone, Copy)]
enum Held {
    /// Components in these rows.
    Components(Rows),
    /// Components in these rows, and after them additions in others.
    Extended(Rows, Rows),
    /// Items of a type.
    Items(usize),
    /// One value of the type of a row, if the row is known.
    Alternative(Option<usize>),
}

/// A value that holds others, of which some are still to be written.
#[derive(Clone, Copy)]
struct Open {
    held: Held,
    /// How many of them precede the next one.
    index: usize,
    /// How many there are.
    count: usize,
    /// Whether none was written.
    is_empty: bool,
}

/// Where a value is that is written next: its type, and the row of its component.
#[derive(Clone, Copy)]
struct Place {
    node: Option<usize>,
    row: Option<usize>,
}

/// A value that is written.
#[derive(Drop)]
struct Writing<'v> {
    message: &'v Message<'v>,
    /// The type of the whole value.
    node: usize,
    /// The values that are open, from the outermost on.
    open: [Open; DEPTH],
    depth: usize,
    ghost few: { depth ≤ 32 },
}

ghost use Rattle.std.specs.Prelude.{◌≤◌};

impl<'v> Writing<'v> {
    /// Returns the row of an index, if it is among these.
    fn row_in(rows: Rows, index: usize) -> Option<usize> {
        if index < rows.count as usize {
            rows.from.checked_add(index)
        } else {
            None
        }
    }

    /// Returns the type of a member.
    fn node_of(&self, row: Option<usize>) -> Option<usize> {
        let message = self.message;
        let member = message.tables.members.get(row?)?;
        Some(member.node)
    }

    /// Returns the type at a node. That of an open type is the type inside.
    fn type_at(&self, node: Option<usize>) -> Option<Node> {
        let message = self.message;
        let nodes = message.tables.nodes;
        let mut node = node?;
        for _ in 0..nodes.len() {
            match *nodes.get(node)? {
                Node::Open { inner } => node = inner,
                is => return Some(is),
            }
        }
        None
    }

    /// Returns the innermost value that is open.
    fn last(&self) -> Option<Open> {
        if self.depth == 0 {
            return None;
        }
        Some(self.open[self.depth - 1])
    }

    /// Replaces the innermost value that is open.
    fn replace(&mut self, open: Open) {
        if self.depth > 0 {
            self.open[self.depth - 1] = open;
        }
    }

    /// Opens a value. Returns false if it is nested too deep.
    fn push(&mut self, held: Held, count: usize) -> bool {
        if self.depth >= DEPTH {
            return false;
        }
        self.open[self.depth] = Open {
            held,
            index: 0,
            count,
            is_empty: true,
        };
        self.depth += 1;
        true
    }

    /// Takes the position of the next value.
    fn take(&mut self) -> Place {
        let Some(open) = self.last() else {
            return Place {
                node: Some(self.node),
                row: None,
            };
        };
        self.replace(Open {
            index: open.index.saturating_add(1),
            ..open
        });
        match open.held {
            Held::Components(rows) => self.component(rows, open.index),
            Held::Extended(rows, _) => self.component(rows, open.index),
            Held::Items(item) => Place {
                node: Some(item),
                row: None,
            },
            Held::Alternative(row) => Place {
                node: self.node_of(row),
                row: None,
            },
        }
    }

    /// Returns the position of the component of an index.
    fn component(&self, rows: Rows, index: usize) -> Place {
        let row = Writing::row_in(rows, index);
        Place {
            node: self.node_of(row),
            row,
        }
    }

    /// Returns whether the part of additions comes next, and their rows.
    fn additions(&self) -> Option<Rows> {
        let open = self.last()?;
        match open.held {
            Held::Extended(_, additions) if open.index >= open.count => Some(additions),
            _ => None,
        }
    }

    /// Writes the name of a member.
    fn write_name<W: fmt::Write>(&self, f: &mut fmt::Formatter<W>, row: usize) -> fmt::Result {
        let message = self.message;
        match message.names.of_member(row) {
            Some(name) => f.write_str(str::from_utf8(name).unwrap_or("")),
            None => Ok(()),
        }
    }

    /// Writes what precedes the next value: a comma, and the name of the component.
    fn begin<W: fmt::Write>(&mut self, f: &mut fmt::Formatter<W>, place: Place) -> fmt::Result {
        if let Some(open) = self.last() {
            if !open.is_empty {
                f.write_str(", ")?;
            }
            self.replace(Open {
                is_empty: false,
                ..open
            });
        }
        match place.row {
            Some(row) => {
                self.write_name(f, row)?;
                f.write_str(" ")
            }
            None => Ok(()),
        }
    }

    /// Ends the values that hold no more.
    fn end<W: fmt::Write>(&mut self, f: &mut fmt::Formatter<W>) -> fmt::Result {
        for _ in 0..DEPTH {
            let Some(open) = self.last() else {
                return Ok(());
            };
            if open.index < open.count {
                return Ok(());
            }
            match open.held {
                Held::Extended(_, _) => return Ok(()),
                Held::Alternative(_) => {}
                _ => f.write_str("}")?,
            }
            self.depth = self.depth.saturating_sub(1);
        }
        Ok(())
    }

    /// Writes a part, and opens the value that it begins. Returns false if that is nested too deep.
    fn write<W: fmt::Write>(
        &mut self,
        f: &mut fmt::Formatter<W>,
        part: Part,
        place: Place,
    ) -> Result<bool, fmt::Error> {
        let node = self.type_at(place.node);
        match part {
            Part::Sequence { count, is_extended } => {
                let (root, additions) = rows_of(node);
                f.write_str("{")?;
                let held = if is_extended {
                    Held::Extended(root, additions)
                } else {
                    Held::Components(root)
                };
                Ok(self.push(held, count))
            }
            Part::Count(count) => {
                f.write_str("{")?;
                Ok(self.push(Held::Items(item_of(node)), count))
            }
            Part::Chosen(index) => {
                let row = alternative_in(node, index);
                if let Some(row) = row {
                    self.write_name(f, row)?;
                }
                f.write_str(" : ")?;
                Ok(self.push(Held::Alternative(row), 1))
            }
            Part::UnknownChosen(_) => {
                f.write_str("unknown : ")?;
                Ok(self.push(Held::Alternative(None), 1))
            }
            _ => {
                write_leaf(f, self.message, node, part)?;
                Ok(true)
            }
        }
    }

    /// Writes a part where it comes next. Returns whether more parts follow.
    fn step<W: fmt::Write>(
        &mut self,
        f: &mut fmt::Formatter<W>,
        part: Part,
    ) -> Result<bool, fmt::Error> {
        if let Some(rows) = self.additions() {
            let Part::Additions(count) = part else {
                return Ok(false);
            };
            if let Some(open) = self.last() {
                self.replace(Open {
                    held: Held::Components(rows),
                    index: 0,
                    count,
                    ..open
                });
            }
        } else {
            let place = self.take();
            if !matches!(part, Part::Absent) {
                self.begin(f, place)?;
                if !self.write(f, part, place)? {
                    f.write_str("..")?;
                    return Ok(false);
                }
            }
        }
        self.end(f)?;
        Ok(self.depth > 0)
    }
}

/// Returns the components of the root of a SEQUENCE, and its additions.
fn rows_of(node: Option<Node>) -> (Rows, Rows) {
    match node {
        Some(
            Node::Sequence {
                root,
                additions,
                ..
            },
        ) => (root, additions),
        _ => (NO_ROWS, NO_ROWS),
    }
}

/// Returns the type of the items of a list.
fn item_of(node: Option<Node>) -> usize {
    match node {
        Some(Node::SequenceOf { item, .. }) => item,
        Some(Node::SetOf { item, .. }) => item,
        _ => usize::MAX,
    }
}

/// Returns the row of the alternative of an index.
fn alternative_in(node: Option<Node>, index: usize) -> Option<usize> {
    let Some(
        Node::Choice {
            alternatives,
            additions,
            ..
        },
    ) = node
    else {
        return None;
    };
    match index.checked_sub(alternatives.count as usize) {
        None => Writing::row_in(alternatives, index),
        Some(added) => Writing::row_in(additions, added),
    }
}

impl fmt::Display for Value<'_> {
    /// Writes the value on one line, as `{name "Ann", age 30, likes {1}}`: components that are absent are
    /// left out, an ENUMERATED is its index among the values of its type, and octets and bits are in
    /// quotes. Stops at the end of the parts, and at a value that is nested in more than 32 others, for
    /// which it writes `..`.
    fn fmt<W: fmt::Write>(&self, f: &mut fmt::Formatter<W>) -> fmt::Result {
        let parts = self.message.parts;
        let none = Open {
            held: Held::Items(0),
            index: 0,
            count: 0,
            is_empty: true,
        };
        let mut writing = Writing {
            message: self.message,
            node: self.node,
            open: [none; DEPTH],
            depth: 0,
        };
        for at in self.at..parts.len() {
            if !writing.step(f, parts[at])? {
                return Ok(());
            }
        }
        Ok(())
    }
}
