//! Makes the parts of a value from JSON.

use crate::contained::FoundOpen;
use crate::draft::Draft;
use crate::tree::{Item, Kind, Tree};
use asn1_resolve::Schema;
use asn1_schema::{Member, Node, Part};
use std::alloc::{AllocError, AllocFailed, Global};
use std::str;
use thiserror::Error;

/// Why an item is invalid.
#[derive(Clone, Copy, Debug, PartialEq, Eq, Error)]
pub enum JsonProblem<'s> {
    /// Another value was expected.
    #[error("expected {0}")]
    Expected(&'static str),
    /// A component that must be present is absent.
    #[error("the component `{0}` is missing")]
    Missing(&'s str),
    /// The type has no such component or alternative.
    #[error("the type has no such component")]
    UnknownMember,
    /// A member occurs twice.
    #[error("duplicate member")]
    Twice,
    /// The ENUMERATED has no such value.
    #[error("the type has no value with this name")]
    UnknownName,
    /// The number is too large for its type.
    #[error("the number exceeds what the encoder takes")]
    TooLarge,
    /// The value is nested too deep.
    #[error("the value is nested too deep")]
    TooDeep,
    /// The tables have no such type.
    #[error("the schema has no such type")]
    NoNode,
    /// Out of memory.
    #[error("out of memory")]
    Memory,
}

/// The first invalid item of JSON.
#[derive(Clone, Copy, Debug, PartialEq, Eq)]
pub struct JsonError<'s> {
    /// The index of the item in its tree.
    pub item: usize,
    /// Why it is invalid.
    pub problem: JsonProblem<'s>,
}

impl<'s> From<AllocError> for JsonError<'s> {
    fn from(_error: AllocError) -> JsonError<'s> {
        JsonError {
            item: 0,
            problem: JsonProblem::Memory,
        }
    }
}

impl<'s, T: Drop> From<AllocFailed<T>> for JsonError<'s> {
    fn from(_error: AllocFailed<T>) -> JsonError<'s> {
        JsonError {
            item: 0,
            problem: JsonProblem::Memory,
        }
    }
}

/// Makes the parts of a value of the type at a node from the JSON of a tree.
///
/// It rejects a value that is nested `depth` levels or deeper. It does not check the constraints of the
/// type; an encoder does.
///
/// # Errors
///
/// Returns the first item that does not fit the type. Otherwise, it returns [`JsonProblem::Expected`] at
/// the first item that is the contents of an open type and no hexadecimal digits. The problem is
/// [`JsonProblem::Memory`] if out of memory.
///
/// # Examples
///
/// ```
/// use asn1_json::{Tree, parse_value};
/// use asn1_resolve::Schema;
/// use asn1_schema::Part;
/// use json::Scratch;
///
/// let text = "M DEFINITIONS ::= BEGIN Flags ::= SEQUENCE OF BOOLEAN END";
/// let schema = Schema::parse(rt.alloc(), text)?;
/// let mut scratch = Scratch::new(rt.alloc());
/// let tree = Tree::parse(rt.alloc(), "[true, false]", &mut scratch)?;
/// let node = schema.node_named("Flags").unwrap_or(0);
/// let draft = parse_value(rt.alloc(), &schema, &tree, 10, node)?;
/// assert!(rt; draft.parts().get(1) == Some(&Part::Truth(true)));
/// ```
pub fn parse_value<'s>(
    alloc: Global,
    schema: &'s Schema,
    tree: &Tree<'_>,
    depth: usize,
    node: usize,
) -> Result<Draft, JsonError<'s>> {
    let draft = parse_value_at(alloc, schema, tree, depth, node, 0)?;
    match draft.pending().first() {
        Some(open) => Err(expected(open.item, "hexadecimal digits")),
        None => Ok(draft),
    }
}

/// Makes the parts of a value of the type at a node from an item of a tree and the items inside it, as
/// [`parse_value`] does.
///
/// The contents of open types may also be values: [`Draft::pending`] returns them.
///
/// # Errors
///
/// Returns the first item that does not fit the type. The problem is [`JsonProblem::Memory`] if out of
/// memory.
pub fn parse_value_at<'s>(
    alloc: Global,
    schema: &'s Schema,
    tree: &Tree<'_>,
    depth: usize,
    node: usize,
    item: usize,
) -> Result<Draft, JsonError<'s>> {
    let mut maker = Maker::new(alloc, schema, tree);
    maker.value(depth, node, item)?;
    let Maker { draft, .. } = maker;
    Ok(draft)
}

/// What makes parts.
#[derive(Drop)]
pub(crate) struct Maker<'a, 's, 't> {
    pub(crate) alloc: Global,
    pub(crate) schema: &'s Schema,
    pub(crate) tree: &'a Tree<'t>,
    pub(crate) draft: Draft,
    /// The objects of the SEQUENCE, SET and CHOICE values around the one that is made, from the outermost
    /// one on.
    pub(crate) around: Vec<usize>,
    /// The last open type whose contents were found.
    pub(crate) last: Option<FoundOpen>,
}

/// Returns an error at an item.
pub(crate) fn at_item<'s>(item: usize, problem: JsonProblem<'s>) -> JsonError<'s> {
    JsonError { item, problem }
}

/// Returns an error that says what was expected at an item.
pub(crate) fn expected<'s>(item: usize, what: &'static str) -> JsonError<'s> {
    at_item(item, JsonProblem::Expected(what))
}

impl<'a, 's, 't> Maker<'a, 's, 't> {
    /// Makes no parts.
    pub(crate) fn new(alloc: Global, schema: &'s Schema, tree: &'a Tree<'t>) -> Maker<'a, 's, 't> {
        Maker {
            alloc,
            schema,
            tree,
            draft: Draft::new(alloc),
            around: Vec::new(alloc),
            last: None,
        }
    }

    /// Returns an item.
    pub(crate) fn item(&self, index: usize) -> Result<Item<'t>, JsonError<'s>> {
        self.tree.item(index).ok_or(expected(index, "a value"))
    }

    /// Returns the type at a node.
    pub(crate) fn node(&self, node: usize, item: usize) -> Result<Node, JsonError<'s>> {
        let found = self.schema.tables().nodes.get(node).copied();
        found.ok_or(at_item(item, JsonProblem::NoNode))
    }

    /// Returns the member in a row.
    pub(crate) fn member(&self, row: usize, item: usize) -> Result<Member, JsonError<'s>> {
        let found = self.schema.tables().members.get(row).copied();
        found.ok_or(at_item(item, JsonProblem::NoNode))
    }

    /// Returns the name of a component or an alternative, which is empty for an addition group.
    pub(crate) fn name(&self, row: usize) -> &'s str {
        let name = self.schema.names().of_member(row).unwrap_or(&[]);
        str::from_utf8(name).unwrap_or("")
    }

    /// Appends a part of an item.
    pub(crate) fn push(&mut self, part: Part, item: usize) -> Result<(), JsonError<'s>> {
        self.draft.push(part, item)?;
        Ok(())
    }

    /// Returns the text of a string.
    pub(crate) fn text(&self, index: usize) -> Result<&'t str, JsonError<'s>> {
        match self.item(index)?.kind {
            Kind::Text(text) => Ok(text),
            _ => Err(expected(index, "a string")),
        }
    }
}
