//! The lines of a tree of values.

use crate::elements::Element;
use asn1_resolve::Schema;
use asn1_schema::{Node, TimeKind};
use asn1_x690_decode::TagName;
use std::alloc::{AllocError, Global};
use std::str;

/// The most open types that a type is looked for in, one inside the other.
const OPEN_TYPES: usize = 8;

/// Lines that are written one after another.
#[derive(Drop)]
pub struct Lines {
    text: String,
    /// Whether each line begins with the offset and the lengths of an element.
    is_der: bool,
}

impl Lines {
    /// Makes a text without lines.
    pub fn new(alloc: Global, is_der: bool) -> Lines {
        Lines {
            text: String::new(alloc),
            is_der,
        }
    }

    /// Returns whether each line begins with the offset and the lengths of an element.
    pub fn is_der(&self) -> bool {
        self.is_der
    }

    /// Returns the text.
    pub fn into_text(self) -> String {
        let Lines { text, .. } = self;
        text
    }

    /// Begins a line: for DER the offset of the element, the number of octets before its contents and the
    /// number of its contents octets, or spaces if it is not known; then the name. `base` is the offset of
    /// the octets in which the element is.
    pub fn begin(
        &mut self,
        base: usize,
        element: Option<Element>,
        indent: usize,
        name: &str,
    ) -> Result<(), AllocError> {
        if self.is_der {
            match element {
                Some(element) => {
                    let (from, to) = (element.header.from / 8, element.header.to / 8);
                    let before = from.saturating_sub(element.offset);
                    let count = to.saturating_sub(from);
                    let offset = base.saturating_add(element.offset);
                    write!(self.text, "{offset:>6} {before:>2} {count:>6}  ")?;
                }
                None => self.text.push_str("                  ")?,
            }
        }
        for _ in 0..indent {
            self.text.push_str("  ")?;
        }
        self.text.push_str(name)
    }

    /// Appends the name of a type, and the tag of an element.
    pub fn type_of(&mut self, name: &str, element: Option<Element>) -> Result<(), AllocError> {
        write!(self.text, ": {name}")?;
        if let Some(element) = element {
            let tag = TagName {
                identifier: element.header.identifier,
            };
            write!(self.text, ", {tag}")?;
        }
        Ok(())
    }

    /// Appends a value in the value notation, and ends the line. A control character is written as its
    /// number, such as `\x0A`, so that the value stays on its line.
    pub fn value(&mut self, text: &str) -> Result<(), AllocError> {
        self.text.push_str(" = ")?;
        for character in text.trim().chars() {
            let number: u32 = character.into();
            if number < 32 || number == 127 {
                write!(self.text, "\\x{number:02X}")?;
            } else {
                self.text.push(character)?;
            }
        }
        self.end()
    }

    /// Appends octets as hexadecimal digits, and ends the line.
    pub fn octets(&mut self, octets: &[u8]) -> Result<(), AllocError> {
        self.text.push_str(" = '")?;
        for octet in octets {
            write!(self.text, "{octet:02X}")?;
        }
        self.text.push_str("'H")?;
        self.end()
    }

    /// Ends the line.
    pub fn end(&mut self) -> Result<(), AllocError> {
        self.text.push('\n')
    }
}

/// Returns the name of the type at a node: its own name, otherwise that of the type of X.680.
pub fn type_name(schema: &Schema, node: usize) -> &str {
    let mut node = node;
    for _ in 0..OPEN_TYPES {
        let own = schema.names().of_node(node).unwrap_or(&[]);
        let own = str::from_utf8(own).unwrap_or("");
        if !own.is_empty() {
            return own;
        }
        match schema.tables().nodes.get(node) {
            Some(Node::Open { inner }) => node = *inner,
            Some(_) if is_any(schema, node) => return "open type",
            Some(of) => return built_in(*of),
            None => return "",
        }
    }
    "open type"
}

/// Returns whether a value of the type at a node is any element.
fn is_any(schema: &Schema, node: usize) -> bool {
    match schema.tag_tables().types.get(node) {
        Some(of) => of.is_any,
        None => false,
    }
}

/// Returns the name of a type of X.680.
fn built_in<'a>(of: Node) -> &'a str {
    match of {
        Node::Null => "NULL",
        Node::Boolean => "BOOLEAN",
        Node::Integer | Node::IntegerAtLeast { .. } | Node::IntegerBetween { .. } => "INTEGER",
        Node::Enumerated { .. } => "ENUMERATED",
        Node::BitString { .. } => "BIT STRING",
        Node::OctetString { .. } => "OCTET STRING",
        Node::ObjectIdentifier => "OBJECT IDENTIFIER",
        Node::RelativeIdentifier => "RELATIVE-OID",
        Node::Utf8String => "UTF8String",
        Node::Real => "REAL",
        Node::Time {
            kind: TimeKind::Utc,
        } => "UTCTime",
        Node::Time { .. } => "GeneralizedTime",
        Node::Text { .. } => "character string",
        Node::Sequence { .. } => "SEQUENCE or SET",
        Node::SequenceOf { .. } => "SEQUENCE OF",
        Node::SetOf { .. } => "SET OF",
        Node::Choice { .. } => "CHOICE",
        Node::Open { .. } => "open type",
    }
}
