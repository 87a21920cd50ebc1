//! Prints the parts of a message.

ghost use Rattle.std.specs.Prelude.{◌≡◌, ◌+◌, ◌-◌, ◌^◌, ◌<◌, ◌≤◌, IfOk, None, Some};
ghost use Rattle.std.specs.Str.{IsUtf8};

use crate::opens::Contents;
use crate::printer::{NO_VALUE, Printer};
use asn1_resolve::Schema;
use asn1_schema::{Node, Part, Rows};
use std::alloc::{AllocError, Global};
use thiserror::Error;

/// Why a value is not printed.
#[derive(Clone, Copy, Debug, PartialEq, Eq, Drop, Error)]
pub enum PrintError {
    /// The parts are no value of the type.
    #[error("the parts are no value of the type")]
    NoValue,
    /// The value is nested deeper than the caller allows.
    #[error("the value is nested too deep")]
    TooDeep,
    /// The value is valid and has no form here.
    #[error("{0} has no form in JSON")]
    Unsupported(&'static str),
    /// Out of memory.
    #[error("out of memory")]
    Memory,
}

impl From<AllocError> for PrintError {
    fn from(_error: AllocError) -> PrintError {
        PrintError::Memory
    }
}

/// Prints the value of a type at a node as JSON (X.697), with a line for each member and item. The value
/// begins at the first of `parts`.
///
/// # Errors
///
/// Returns the first error in the order of the parts: [`PrintError::TooDeep`] if a value is nested
/// `depth` levels or deeper, [`PrintError::NoValue`] if the parts are no value of the type,
/// [`PrintError::Unsupported`] if a value has no form in JSON, or [`PrintError::Memory`] if out of
/// memory. Parts from a decoder are always a value.
///
/// # Examples
///
/// ```
/// use asn1_json::print_value;
/// use asn1_resolve::Schema;
/// use asn1_schema::Part;
///
/// let text = "M DEFINITIONS ::= BEGIN Flags ::= SEQUENCE OF BOOLEAN END";
/// let schema = Schema::parse(rt.alloc(), text)?;
/// let parts = [Part::Count(1), Part::Truth(true)];
/// let node = schema.node_named("Flags").unwrap_or(0);
/// let json = print_value(rt.alloc(), &schema, &[], &parts, 10, node)?;
/// assert!(rt; json.as_slice() == b"[\n  true\n]".as_slice());
/// ```
pub fn print_value(
    alloc: Global,
    schema: &Schema,
    message: &[u8],
    parts: &[Part],
    depth: usize,
    node: usize,
) -> Result<Vec<u8>, PrintError>
    ensures { IfOk result (λ text. IsUtf8 text.items) }
{
    print_with_contents(alloc, schema, message, parts, &[], depth, node)
}

/// Prints a value as [`print_value`] does, and the contents of open types in it as
/// `{"containing": value}`.
///
/// `contents` must be sorted by [`Contents::inside`], and then by the index of the part of the open
/// type. Otherwise some contents are printed as hexadecimal digits.
///
/// # Errors
///
/// Returns the first error in the order of the parts: [`PrintError::TooDeep`] if a value is nested
/// `depth` levels or deeper, [`PrintError::NoValue`] if the parts are no value of the type,
/// [`PrintError::Unsupported`] if a value has no form in JSON, or [`PrintError::Memory`] if out of
/// memory. Parts from a decoder are always a value.
pub fn print_with_contents(
    alloc: Global,
    schema: &Schema,
    message: &[u8],
    parts: &[Part],
    contents: &[Contents],
    depth: usize,
    node: usize,
) -> Result<Vec<u8>, PrintError>
    ensures { IfOk result (λ text. IsUtf8 text.items) }
{
    let mut printer = Printer::new(alloc, schema, message, parts, contents);
    printer.value(depth, node, 0)?;
    Ok(printer.into_octets())
}

/// Prints a value in the value notation of X.680. A comment replaces each value that the schema does not
/// know.
///
/// `contents` must be sorted as for [`print_with_contents`].
///
/// # Errors
///
/// Returns the first error in the order of the parts: [`PrintError::TooDeep`] if a value is nested
/// `depth` levels or deeper, [`PrintError::NoValue`] if the parts are no value of the type,
/// [`PrintError::Unsupported`] if a value has no form in the notation, or [`PrintError::Memory`] if out
/// of memory. Parts from a decoder are always a value.
pub fn print_in_notation(
    alloc: Global,
    schema: &Schema,
    message: &[u8],
    parts: &[Part],
    contents: &[Contents],
    depth: usize,
    node: usize,
) -> Result<String, PrintError> {
    let printer = Printer::new(alloc, schema, message, parts, contents);
    let mut printer = printer.in_notation();
    printer.value(depth, node, 0)?;
    Ok(printer.into_text())
}

impl<'a> Printer<'a> {
    /// Prints the value that begins at a part. Returns the index of the part after it.
    #[cycle(printing)]
    pub(crate) fn value(
        &mut self,
        depth: usize,
        node: usize,
        at: usize,
    ) -> Result<usize, PrintError> {
        if depth == 0 {
            return Err(PrintError::TooDeep);
        }
        let schema = self.schema;
        match schema.tables().nodes.get(node).ok_or(NO_VALUE)? {
            Node::Sequence {
                root,
                additions,
                ..
            } => self.sequence(depth - 1, *root, *additions, at),
            Node::SequenceOf { item, .. } | Node::SetOf { item, .. } => {
                self.list(depth - 1, *item, at)
            }
            Node::Choice {
                alternatives,
                additions,
                ..
            } => self.choice(depth - 1, *alternatives, *additions, at),
            Node::Open { inner } => self.value(depth - 1, *inner, at),
            leaf => {
                match self.contents_at(at) {
                    Some((index, contents)) => {
                        let is_containing = self.schema.contents_type(node).is_some();
                        self.contents(depth - 1, is_containing, index, contents)?;
                    }
                    None => self.leaf(node, leaf, at)?,
                }
                Ok(at.saturating_add(1))
            }
        }
    }

    /// Prints the contents of an open type, or of an OCTET STRING with CONTAINING, as an object with one
    /// member.
    #[cycle(printing)]
    fn contents(
        &mut self,
        depth: usize,
        is_containing: bool,
        index: usize,
        contents: &'a Contents,
    ) -> Result<(), PrintError> {
        let inside = self.inside;
        let message = self.message;
        let parts = self.parts;
        self.begin_contents(contents.value.node, is_containing)?;
        self.inside = index.saturating_add(1);
        self.message = contents.octets.as_slice();
        self.parts = contents.parts.as_slice();
        self.value(depth, contents.value.node, 0)?;
        self.inside = inside;
        self.message = message;
        self.parts = parts;
        self.end_alternative()
    }

    /// Prints a SEQUENCE or a SET as an object.
    #[cycle(printing)]
    fn sequence(
        &mut self,
        depth: usize,
        root: Rows,
        additions: Rows,
        at: usize,
    ) -> Result<usize, PrintError> {
        let Part::Sequence { count, is_extended } = self.part(at)? else {
            return Err(NO_VALUE);
        };
        self.begin_object()?;
        let mut next = self.components(depth, root, count, at.saturating_add(1))?;
        if is_extended {
            next = self.additions(depth, additions, next)?;
        }
        self.end_object()?;
        Ok(next)
    }

    /// Prints `count` components of rows, those that are present.
    #[cycle(printing)]
    fn components(
        &mut self,
        depth: usize,
        rows: Rows,
        count: usize,
        at: usize,
    ) -> Result<usize, PrintError> {
        let mut next = at;
        for index in 0..count {
            next = self.component(depth, rows.from.saturating_add(index), next)?;
        }
        Ok(next)
    }

    /// Prints a component, if it is present. An addition group is printed as its components.
    #[cycle(printing)]
    fn component(&mut self, depth: usize, row: usize, at: usize) -> Result<usize, PrintError> {
        let part = self.parts.get(at).ok_or(NO_VALUE)?;
        if let Part::Absent = part {
            return Ok(at.saturating_add(1));
        }
        let node = self.member(row)?.node;
        if self.member_key(row)? {
            return self.value(depth, node, at);
        }
        if depth == 0 {
            return Err(PrintError::TooDeep);
        }
        match (*part, self.node(node)?) {
            (Part::Sequence { count, .. }, Node::Sequence { root, .. }) => {
                self.components(depth - 1, root, count, at.saturating_add(1))
            }
            _ => Err(NO_VALUE),
        }
    }

    /// Prints additions, and those that the schema does not know as a member `...`: the hexadecimal
    /// digits of each, or `null` for one that is absent.
    #[cycle(printing)]
    fn additions(&mut self, depth: usize, rows: Rows, at: usize) -> Result<usize, PrintError> {
        let Part::Additions(count) = self.part(at)? else {
            return Err(NO_VALUE);
        };
        let known = count.min(rows.count as usize);
        let next = self.components(depth, rows, known, at.saturating_add(1))?;
        let unknown = count.saturating_sub(known);
        if unknown == 0 {
            return Ok(next);
        }
        self.unknown_additions(next, unknown)?;
        Ok(next.saturating_add(unknown))
    }

    /// Prints a SEQUENCE OF or a SET OF as an array.
    #[cycle(printing)]
    fn list(&mut self, depth: usize, item: usize, at: usize) -> Result<usize, PrintError> {
        let Part::Count(count) = self.part(at)? else {
            return Err(NO_VALUE);
        };
        self.begin_array()?;
        let mut next = at.saturating_add(1);
        for _ in 0..count {
            self.begin_item()?;
            next = self.value(depth, item, next)?;
        }
        self.end_array()?;
        Ok(next)
    }

    /// Prints a CHOICE as an object with one member.
    #[cycle(printing)]
    fn choice(
        &mut self,
        depth: usize,
        alternatives: Rows,
        additions: Rows,
        at: usize,
    ) -> Result<usize, PrintError> {
        let next = at.saturating_add(1);
        match self.part(at)? {
            Part::Chosen(index) => {
                let row = row_of(alternatives, additions, index).ok_or(NO_VALUE)?;
                let node = self.member(row)?.node;
                self.begin_member(row)?;
                let end = self.value(depth, node, next)?;
                self.end_alternative()?;
                Ok(end)
            }
            Part::UnknownChosen(index) => {
                self.unknown_alternative(index, next)?;
                Ok(next.saturating_add(1))
            }
            Part::Unknown(_) => {
                self.other_alternative(at)?;
                Ok(next)
            }
            _ => Err(NO_VALUE),
        }
    }
}

/// Returns the row of an alternative in the table of members, by its index among the alternatives of the
/// root and then the additions. `None` if there is no such alternative.
pub fn row_of(alternatives: Rows, additions: Rows, index: usize) -> Option<usize>
    ensures root { index < alternatives.count → alternatives.from + index < 2 ^ 64
        → result ≡ Some (alternatives.from + index) }
    ensures added { alternatives.count ≤ index → index < alternatives.count + additions.count
        → additions.from + (index - alternatives.count) < 2 ^ 64
        → result ≡ Some (additions.from + (index - alternatives.count)) }
    ensures none { alternatives.count + additions.count ≤ index → result ≡ None }
{
    match index.checked_sub(alternatives.count as usize) {
        None => alternatives.from.checked_add(index),
        Some(added) if added < additions.count as usize => additions.from.checked_add(added),
        Some(_) => None,
    }
}
