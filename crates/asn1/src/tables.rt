//! The tables of modules as a source of constants.

use crate::types::are_of_one_module;
use crate::views::views_of;
use asn1_resolve::{NamedType, Schema};
use asn1_schema_values::NameSpan;
use asn1_x690_decode::Defaults;
use std::alloc::{AllocError, Global};
use std::fmt::Debug;
use std::str;

/// What a source begins with.
const HEAD: &str = "//! Tables, printed by `asn1 tables`.
#![allow(unused_imports)]

use asn1_schema::Length::*;
use asn1_schema::Node::*;
use asn1_schema::Presence::*;
use asn1_schema::TimeKind::*;
use asn1_schema::{Bounds, LowerBound, Member, Node, Range, Rows, Span};
use asn1_schema_values::NameSpan;
use asn1_x690::CharacterSize::*;
use asn1_x690::Class::*;
use asn1_x690::{FirstTags, Tag, TypeTags};
";

/// Appends a name as that of a constant: in upper case, with a low line before each word.
fn push_constant(text: &mut String, name: &[u8]) -> Result<(), AllocError> {
    let mut is_after_small = false;
    for octet in name {
        if octet.is_ascii_uppercase() && is_after_small {
            text.push('_')?;
        }
        is_after_small = octet.is_ascii_lowercase() || octet.is_ascii_digit();
        let upper = octet.to_ascii_uppercase();
        text.push(if upper.is_ascii_alphanumeric() {
            char::from(upper)
        } else {
            '_'
        })?;
    }
    Ok(())
}

/// Appends the constant of a type: its node. If the types are of several modules, the name has that of its
/// module first.
fn push_type(
    text: &mut String,
    schema: &Schema,
    named: &NamedType,
    is_one: bool,
) -> Result<(), AllocError> {
    let name = schema.text_of(named.name);
    write!(
        text,
        "\n/// The node of `{}`.\npub const ",
        str::from_utf8(name).unwrap_or("")
    )?;
    if !is_one {
        push_constant(text, schema.text_of(named.module))?;
        text.push('_')?;
    }
    push_constant(text, name)?;
    write!(text, ": usize = {};\n", named.node)
}

/// Appends a table.
fn push_table<T: Debug>(
    text: &mut String,
    what: &str,
    name: &str,
    row: &str,
    rows: &[T],
) -> Result<(), AllocError> {
    write!(
        text,
        "\n/// {what}\npub const {name}: [{row}; {}] = [\n",
        rows.len()
    )?;
    for row in rows {
        write!(text, "    {row:?},\n")?;
    }
    text.push_str("];\n")
}

/// The names of rows, one after another in a text.
#[derive(Drop)]
struct NameRows {
    text: String,
    spans: Vec<NameSpan>,
}

impl NameRows {
    /// Appends the name of a row. A row without a name has the empty one.
    fn push(&mut self, name: Option<&[u8]>) -> Result<(), AllocError> {
        let name = str::from_utf8(name.unwrap_or(&[])).unwrap_or("");
        let from = self.text.len();
        self.text.push_str(name)?;
        self.spans.push(NameSpan {
            from,
            count: name.len(),
        })?;
        Ok(())
    }
}

/// Appends the names of types and members.
fn push_names(text: &mut String, alloc: Global, schema: &Schema) -> Result<(), AllocError> {
    let names = schema.names();
    let mut rows = NameRows {
        text: String::new(alloc),
        spans: Vec::new(alloc),
    };
    let nodes = schema.tables().nodes.len();
    for node in 0..nodes {
        rows.push(names.of_node(node))?;
    }
    for member in 0..schema.tables().members.len() {
        rows.push(names.of_member(member))?;
    }
    let NameRows { text: all, spans } = rows;
    let (of_nodes, of_members) = spans.as_slice().split_at(nodes.min(spans.len()));
    write!(
        text,
        "\n/// The names, one after another.\npub const NAME_TEXT: &[u8] = b\"{all}\";\n"
    )?;
    push_table(
        text,
        "The name of each type.",
        "NODE_NAMES",
        "NameSpan",
        of_nodes,
    )?;
    push_table(
        text,
        "The name of each component.",
        "MEMBER_NAMES",
        "NameSpan",
        of_members,
    )
}

/// Returns the source of the tables of a schema. `defaults` has the encodings of default values.
pub fn source_of(
    alloc: Global,
    schema: &Schema,
    defaults: Defaults<'_>,
) -> Result<String, AllocError> {
    let mut text = String::new(alloc);
    text.push_str(HEAD)?;
    let is_one = are_of_one_module(schema);
    for named in schema.types() {
        push_type(&mut text, schema, named, is_one)?;
    }
    let (tables, tags) = (schema.tables(), schema.tag_tables());
    push_table(&mut text, "The types.", "NODES", "Node", tables.nodes)?;
    push_table(
        &mut text,
        "The components, alternatives and additions.",
        "MEMBERS",
        "Member",
        tables.members,
    )?;
    push_table(
        &mut text,
        "The ranges of alphabets.",
        "RANGES",
        "Range",
        tables.ranges,
    )?;
    push_table(
        &mut text,
        "What DER requires of each type.",
        "TYPES",
        "TypeTags",
        tags.types,
    )?;
    push_table(
        &mut text,
        "The first tags of each member.",
        "FIRST_TAGS",
        "FirstTags",
        tags.members,
    )?;
    push_table(&mut text, "The tags.", "TAGS", "Tag", tags.tags)?;
    push_table(
        &mut text,
        "The numbers of ENUMERATED.",
        "NUMBERS",
        "i128",
        tags.numbers,
    )?;
    push_table(
        &mut text,
        "The encodings of default values.",
        "DEFAULT_OCTETS",
        "u8",
        defaults.octets,
    )?;
    push_table(
        &mut text,
        "Where each of them is.",
        "DEFAULT_SPANS",
        "Span",
        defaults.spans,
    )?;
    push_names(&mut text, alloc, schema)?;
    text.push_str(views_of(alloc, schema)?.as_str())?;
    Ok(text)
}

/// Returns whether two sources are the same but for their layout: white space, and a comma before a closing
/// bracket.
pub fn is_same_source(one: &str, other: &str) -> bool {
    let (mut left, mut right) = (one.as_bytes(), other.as_bytes());
    for _ in 0..one.len().max(other.len()).saturating_add(1) {
        left = without_layout(left);
        right = without_layout(right);
        match (left, right) {
            ([], []) => return true,
            ([a, rest @ ..], [b, others @ ..]) if a == b => {
                left = rest;
                right = others;
            }
            _ => return false,
        }
    }
    false
}

/// Returns the octets from the first one on that is not layout.
fn without_layout(octets: &[u8]) -> &[u8] {
    let mut rest = octets;
    for _ in 0..octets.len() {
        match rest {
            [first, after @ ..] if is_layout(*first, after) => rest = after,
            _ => break,
        }
    }
    rest
}

/// Returns whether an octet is layout before others.
fn is_layout(first: u8, after: &[u8]) -> bool {
    first.is_ascii_whitespace() || first == b',' && is_closed(after)
}

/// Returns whether the next octet that is no white space closes a bracket.
fn is_closed(octets: &[u8]) -> bool {
    match octets.iter().find(|octet| !octet.is_ascii_whitespace()) {
        Some(b']' | b'}' | b')') => true,
        _ => false,
    }
}
