//! A value as a tree: a line for each value in it.

use crate::elements::{Element, any_element, element_of};
use crate::lines::{Lines, type_name};
use asn1_json::{Contents, PrintError, octets_of_part, print_in_notation, row_of};
use asn1_resolve::Schema;
use asn1_schema::{Node, Part, Rows};
use std::alloc::Global;
use std::str;

/// The error of parts that are no value of the type.
const NO_VALUE: PrintError = PrintError::NoValue;

/// A message, or the contents of an open type.
#[derive(Clone, Copy)]
pub struct Source<'a> {
    /// The octets.
    pub octets: &'a [u8],
    /// The parts of the value that they encode.
    pub parts: &'a [Part],
}

/// The index of a part, and the offset of its element in the octets. The offset is `None` for PER.
#[derive(Clone, Copy)]
struct Place {
    part: usize,
    offset: Option<usize>,
}

impl Place {
    /// Returns the position after one part that has no element.
    fn next(self) -> Place {
        Place {
            part: self.part.saturating_add(1),
            offset: self.offset,
        }
    }
}

/// What prints a tree.
#[derive(Drop)]
struct Walk<'a> {
    alloc: Global,
    schema: &'a Schema,
    contents: &'a [Contents],
    /// The value whose parts are printed: 0 for the message, otherwise one more than the index of its
    /// contents.
    inside: usize,
    source: Source<'a>,
    /// The offset of the first octet of the source in the message.
    base: usize,
    lines: Lines,
}

/// Returns the tree of the value of the type at a node. `contents` are sorted as for
/// `print_with_contents`. A value may be nested less deep than `depth`.
///
/// # Errors
///
/// Returns `NoValue` if the parts are no value of the type.
pub fn value_tree(
    alloc: Global,
    schema: &Schema,
    source: Source<'_>,
    contents: &[Contents],
    is_der: bool,
    depth: usize,
    node: usize,
) -> Result<String, PrintError> {
    let mut walk = Walk {
        alloc,
        schema,
        contents,
        inside: 0,
        source,
        base: 0,
        lines: Lines::new(alloc, is_der),
    };
    let start = Place {
        part: 0,
        offset: if is_der { Some(0) } else { None },
    };
    walk.value(depth, 0, "value", node, start)?;
    let Walk { lines, .. } = walk;
    Ok(lines.into_text())
}

impl<'a> Walk<'a> {
    /// Returns the part at an index.
    fn part(&self, index: usize) -> Result<Part, PrintError> {
        self.source.parts.get(index).copied().ok_or(NO_VALUE)
    }

    /// Returns the name of a component or an alternative. It is empty for an addition group.
    fn name(&self, row: usize) -> &'a str {
        let name = self.schema.names().of_member(row).unwrap_or(&[]);
        str::from_utf8(name).unwrap_or("")
    }

    /// Returns the node of the type of the member in a row.
    fn node_of(&self, row: usize) -> Result<usize, PrintError> {
        match self.schema.tables().members.get(row) {
            Some(member) => Ok(member.node),
            None => Err(NO_VALUE),
        }
    }

    /// Returns the contents of the open type at a part, and their index. `None` if they are not decoded.
    fn contents_at(&self, part: usize) -> Option<(usize, &'a Contents)> {
        let key = (self.inside, part);
        let contents = self.contents;
        let index = contents.binary_search_by_key(&key, |row| (row.inside, row.value.part));
        let index = index.ok()?;
        Some((index, contents.get(index)?))
    }

    /// Returns the element that encodes the value at a position. `None` if it is not known.
    fn element(&self, node: usize, at: Place) -> Option<Element> {
        element_of(self.schema, self.source.octets, node, at.offset?)
    }

    /// Prints the value at a position. Returns the position after it.
    #[cycle(walking)]
    fn value(
        &mut self,
        depth: usize,
        indent: usize,
        name: &str,
        node: usize,
        at: Place,
    ) -> Result<Place, PrintError> {
        if depth == 0 {
            return Err(PrintError::TooDeep);
        }
        let element = self.element(node, at);
        self.lines.begin(self.base, element, indent, name)?;
        self.lines.type_of(type_name(self.schema, node), element)?;
        let part = self.rest(depth - 1, indent.saturating_add(1), node, at)?;
        Ok(Place {
            part,
            offset: match element {
                Some(element) => Some(element.end()),
                None => None,
            },
        })
    }

    /// Prints a value without its name and its type. Returns the index of the part after it.
    #[cycle(walking)]
    fn rest(
        &mut self,
        depth: usize,
        indent: usize,
        node: usize,
        at: Place,
    ) -> Result<usize, PrintError> {
        let Some(of) = self.schema.tables().nodes.get(node).copied() else {
            return Err(NO_VALUE);
        };
        let at = Place {
            part: at.part,
            offset: match self.element(node, at) {
                Some(element) => Some(element.inner),
                None => None,
            },
        };
        match of {
            Node::Sequence {
                root,
                additions,
                ..
            } => self.sequence(depth, indent, root, additions, at),
            Node::SequenceOf { item, .. } | Node::SetOf { item, .. } => {
                self.list(depth, indent, item, at)
            }
            Node::Choice {
                alternatives,
                additions,
                ..
            } => self.choice(depth, indent, alternatives, additions, at),
            Node::Open { .. } if depth == 0 => Err(PrintError::TooDeep),
            Node::Open { inner } => self.rest(depth - 1, indent, inner, at),
            _ => {
                match self.contents_at(at.part) {
                    Some((index, contents)) => {
                        self.lines.end()?;
                        self.open(depth, indent, index, contents, at.part)?;
                    }
                    None => self.leaf(node, at.part)?,
                }
                Ok(at.part.saturating_add(1))
            }
        }
    }

    /// Prints a value of one part.
    fn leaf(&mut self, node: usize, part: usize) -> Result<(), PrintError> {
        let Source { octets, parts } = self.source;
        let parts = parts.get(part..).unwrap_or(&[]);
        let text = print_in_notation(self.alloc, self.schema, octets, parts, &[], 1, node)?;
        Ok(self.lines.value(text.as_str())?)
    }

    /// Prints the contents of an open type.
    #[cycle(walking)]
    fn open(
        &mut self,
        depth: usize,
        indent: usize,
        index: usize,
        contents: &'a Contents,
        part: usize,
    ) -> Result<(), PrintError> {
        let (inside, source, base) = (self.inside, self.source, self.base);
        let offset = match self.part(part)? {
            Part::Octets(span) | Part::Bits(span) if self.lines.is_der() => {
                self.base = base.saturating_add(span.at / 8);
                Some(0)
            }
            _ => None,
        };
        self.inside = index.saturating_add(1);
        self.source = Source {
            octets: contents.octets.as_slice(),
            parts: contents.parts.as_slice(),
        };
        self.value(
            depth,
            indent,
            "contents",
            contents.value.node,
            Place { part: 0, offset },
        )?;
        self.inside = inside;
        self.source = source;
        self.base = base;
        Ok(())
    }

    /// Prints the components of a SEQUENCE or a SET. Returns the index of the part after them.
    #[cycle(walking)]
    fn sequence(
        &mut self,
        depth: usize,
        indent: usize,
        root: Rows,
        additions: Rows,
        at: Place,
    ) -> Result<usize, PrintError> {
        let Part::Sequence { count, is_extended } = self.part(at.part)? else {
            return Err(NO_VALUE);
        };
        self.lines.end()?;
        let mut next = self.components(depth, indent, root, count, at.next())?;
        if is_extended {
            next = self.additions(depth, indent, additions, next)?;
        }
        Ok(next.part)
    }

    /// Prints those of `count` components of rows that are present.
    #[cycle(walking)]
    fn components(
        &mut self,
        depth: usize,
        indent: usize,
        rows: Rows,
        count: usize,
        at: Place,
    ) -> Result<Place, PrintError> {
        let mut next = at;
        for index in 0..count {
            next = self.component(depth, indent, rows.from.saturating_add(index), next)?;
        }
        Ok(next)
    }

    /// Prints a component, if it is present. An addition group is printed as its components.
    #[cycle(walking)]
    fn component(
        &mut self,
        depth: usize,
        indent: usize,
        row: usize,
        at: Place,
    ) -> Result<Place, PrintError> {
        let part = self.part(at.part)?;
        if part == Part::Absent {
            return Ok(at.next());
        }
        let node = self.node_of(row)?;
        let name = self.name(row);
        if !name.is_empty() {
            return self.value(depth, indent, name, node, at);
        }
        if depth == 0 {
            return Err(PrintError::TooDeep);
        }
        match (part, self.schema.tables().nodes.get(node).copied()) {
            (Part::Sequence { count, .. }, Some(Node::Sequence { root, .. })) => {
                self.components(depth - 1, indent, root, count, at.next())
            }
            _ => Err(NO_VALUE),
        }
    }

    /// Prints additions, and those that the schema does not know.
    #[cycle(walking)]
    fn additions(
        &mut self,
        depth: usize,
        indent: usize,
        rows: Rows,
        at: Place,
    ) -> Result<Place, PrintError> {
        let Part::Additions(count) = self.part(at.part)? else {
            return Err(NO_VALUE);
        };
        let known = count.min(rows.count as usize);
        let mut next = self.components(depth, indent, rows, known, at.next())?;
        for _ in known..count {
            if self.part(next.part)? != Part::Absent {
                self.unknown(indent, next.part)?;
            }
            next = next.next();
        }
        Ok(next)
    }

    /// Prints the octets of a value that the schema does not know.
    fn unknown(&mut self, indent: usize, part: usize) -> Result<(), PrintError> {
        let Part::Unknown(span) = self.part(part)? else {
            return Err(NO_VALUE);
        };
        let found = octets_of_part(self.alloc, self.source.octets, Part::Octets(span))?;
        let octets = found.ok_or(NO_VALUE)?;
        let element = if self.lines.is_der() {
            any_element(self.source.octets, span.at / 8)
        } else {
            None
        };
        self.lines.begin(self.base, element, indent, "...")?;
        self.lines.type_of("unknown", element)?;
        Ok(self.lines.octets(octets.as_slice())?)
    }

    /// Prints the items of a SEQUENCE OF or a SET OF. Returns the index of the part after them.
    #[cycle(walking)]
    fn list(
        &mut self,
        depth: usize,
        indent: usize,
        item: usize,
        at: Place,
    ) -> Result<usize, PrintError> {
        let Part::Count(count) = self.part(at.part)? else {
            return Err(NO_VALUE);
        };
        self.lines.end()?;
        let mut next = at.next();
        for index in 0..count {
            let name = format!(in self.alloc; "[{index}]")?;
            next = self.value(depth, indent, name.as_str(), item, next)?;
        }
        Ok(next.part)
    }

    /// Prints the alternative of a CHOICE. Returns the index of the part after it.
    #[cycle(walking)]
    fn choice(
        &mut self,
        depth: usize,
        indent: usize,
        alternatives: Rows,
        additions: Rows,
        at: Place,
    ) -> Result<usize, PrintError> {
        self.lines.end()?;
        let next = at.next();
        match self.part(at.part)? {
            Part::Chosen(index) => {
                let row = row_of(alternatives, additions, index).ok_or(NO_VALUE)?;
                let node = self.node_of(row)?;
                let name = self.name(row);
                let end = self.value(depth, indent, name, node, next)?;
                Ok(end.part)
            }
            Part::UnknownChosen(_) => {
                self.unknown(indent, next.part)?;
                Ok(next.part.saturating_add(1))
            }
            Part::Unknown(_) => {
                self.unknown(indent, at.part)?;
                Ok(next.part)
            }
            _ => Err(NO_VALUE),
        }
    }
}
