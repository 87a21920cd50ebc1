//! Types in words. A type is a word, followed by the types that it names:
//!
//! ```text
//! null  bool  int  int:0..  int:0..7  intx:0..7  enum:LAST  enumx:LAST:ADDITIONS
//! bits:0..  bits:3..3  bitsx:1..2  named:0..  octets:..  of:0.. ITEM  ofx:1..2 ITEM  setof:0.. ITEM
//! text:0..4:48-57  textx:1..2:65-66:32-126   oid  relative  utf8
//! seq:ROOT ..  seqx:ROOT:ADDITIONS ..
//! choice:ROOT ..  choicex:ROOT:ADDITIONS ..
//! ```
//!
//! Each component of a SEQUENCE is after `!`, after `?`, which says that it is OPTIONAL, or after `=` and
//! the text of its DEFAULT value. A text has ranges of characters by their numbers: of its alphabet, and
//! of its type's alphabet, if that is another one. They are the words of the tests of PER.

use asn1_resolve::Schema;
use asn1_schema::{Length, Node, Presence, Range, Rows, TimeKind};
use asn1_test_rows::{RowError, wrong};
use std::alloc::Global;

/// Returns the rows of a table, as far as it has them.
pub fn rows_of<T>(table: &[T], rows: Rows) -> &[T] {
    let end = rows.from.saturating_add(rows.count as usize);
    table.get(rows.from..end).unwrap_or(&[])
}

/// Returns the sign of an extension marker.
fn marker(is_extensible: bool) -> &'static str {
    if is_extensible { "x" } else { "" }
}

/// Returns a size in words.
fn length_word(alloc: Global, length: Length) -> Result<String, RowError> {
    Ok(match length {
        Length::AtLeast { least } => format!(in alloc; "{least}..")?,
        Length::Between { least, range } => {
            let greatest = u64::from(least) + u64::from(range);
            format!(in alloc; "{least}..{greatest}")?
        }
    })
}

/// Returns ranges of characters in words.
fn ranges_word(alloc: Global, ranges: &[Range]) -> Result<String, RowError> {
    let mut text = String::new(alloc);
    for range in ranges {
        if !text.is_empty() {
            text.push('.')?;
        }
        let word = format!(in alloc; "{}-{}", range.first, range.last)?;
        text.push_str(word.as_str())?;
    }
    Ok(text)
}

/// Returns the word of a string of characters.
fn text_word(
    alloc: Global,
    schema: &Schema,
    length: Length,
    is_extensible: bool,
    alphabet: Rows,
    whole: Rows,
) -> Result<String, RowError> {
    let mark = marker(is_extensible);
    let length = length_word(alloc, length)?;
    let table = schema.tables().ranges;
    let first = ranges_word(alloc, rows_of(table, alphabet))?;
    let second = ranges_word(alloc, rows_of(table, whole))?;
    if first == second {
        return Ok(format!(in alloc; "text{mark}:{length}:{first}")?);
    }
    Ok(format!(in alloc; "text{mark}:{length}:{first}:{second}")?)
}

/// Returns the word of a type with members: its counts.
fn counts_word(
    alloc: Global,
    name: &str,
    root: u32,
    is_extensible: bool,
    additions: u32,
) -> Result<String, RowError> {
    if is_extensible {
        return Ok(format!(in alloc; "{name}x:{root}:{additions}")?);
    }
    Ok(format!(in alloc; "{name}:{root}")?)
}

/// Returns the word of a string of bits or octets, or of a list.
fn sized_word(
    alloc: Global,
    name: &str,
    length: Length,
    is_extensible: bool,
) -> Result<String, RowError> {
    let mark = marker(is_extensible);
    let length = length_word(alloc, length)?;
    Ok(format!(in alloc; "{name}{mark}:{length}")?)
}

/// Returns the word of an INTEGER.
fn integer_word(alloc: Global, node: &Node) -> Result<String, RowError> {
    Ok(match node {
        Node::IntegerBetween {
            bounds,
            is_extensible,
        } => {
            let mark = marker(*is_extensible);
            let least = bounds.least;
            let greatest = least.saturating_add_unsigned(bounds.range);
            format!(in alloc; "int{mark}:{least}..{greatest}")?
        }
        Node::IntegerAtLeast {
            bound,
            is_extensible,
        } => {
            let mark = marker(*is_extensible);
            let least = bound.least;
            format!(in alloc; "int{mark}:{least}..")?
        }
        _ => String::from_str(alloc, "int")?,
    })
}

/// Returns the word of a string or a list.
fn string_word(alloc: Global, schema: &Schema, node: &Node) -> Result<String, RowError> {
    match node {
        Node::BitString {
            length,
            is_extensible,
            has_names,
        } => {
            let name = if *has_names { "named" } else { "bits" };
            sized_word(alloc, name, *length, *is_extensible)
        }
        Node::OctetString {
            length,
            is_extensible,
        } => sized_word(alloc, "octets", *length, *is_extensible),
        Node::Text {
            length,
            is_extensible,
            alphabet,
            whole,
        } => text_word(alloc, schema, *length, *is_extensible, *alphabet, *whole),
        Node::SequenceOf {
            length,
            is_extensible,
            ..
        } => sized_word(alloc, "of", *length, *is_extensible),
        Node::SetOf {
            length,
            is_extensible,
            ..
        } => sized_word(alloc, "setof", *length, *is_extensible),
        _ => Ok(String::from_str(alloc, "open")?),
    }
}

/// Returns the word of a type without those that it names.
fn word_of(alloc: Global, schema: &Schema, node: &Node) -> Result<String, RowError> {
    match node {
        Node::Null => Ok(String::from_str(alloc, "null")?),
        Node::Boolean => Ok(String::from_str(alloc, "bool")?),
        Node::ObjectIdentifier => Ok(String::from_str(alloc, "oid")?),
        Node::RelativeIdentifier => Ok(String::from_str(alloc, "relative")?),
        Node::Utf8String => Ok(String::from_str(alloc, "utf8")?),
        Node::Real => Ok(String::from_str(alloc, "real")?),
        Node::Time {
            kind: TimeKind::Utc,
        } => Ok(String::from_str(alloc, "utc")?),
        Node::Time {
            kind: TimeKind::Generalized,
        } => Ok(String::from_str(alloc, "generalized")?),
        Node::Integer | Node::IntegerBetween { .. } | Node::IntegerAtLeast { .. } => {
            integer_word(alloc, node)
        }
        Node::Enumerated {
            last,
            is_extensible,
            additions,
        } => counts_word(alloc, "enum", *last, *is_extensible, *additions),
        Node::Sequence {
            root,
            is_extensible,
            additions,
        } => counts_word(alloc, "seq", root.count, *is_extensible, additions.count),
        Node::Choice {
            alternatives,
            is_extensible,
            additions,
        } => counts_word(
            alloc,
            "choice",
            alternatives.count,
            *is_extensible,
            additions.count,
        ),
        _ => string_word(alloc, schema, node),
    }
}

/// Appends a word.
fn push_word(text: &mut String, word: &str) -> Result<(), RowError> {
    if !text.is_empty() {
        text.push(' ')?;
    }
    text.push_str(word)?;
    Ok(())
}

/// Appends the word that says whether a component may be absent.
fn push_presence(
    alloc: Global,
    schema: &Schema,
    text: &mut String,
    presence: Presence,
) -> Result<(), RowError> {
    match presence {
        Presence::Mandatory => push_word(text, "!"),
        Presence::Optional => push_word(text, "?"),
        Presence::Default { value } => {
            let Some(default) = schema.defaults().get(value) else {
                return Err(wrong(alloc, "the type", "type with its defaults"));
            };
            push_word(text, "=")?;
            match std::str::from_utf8(schema.text_of(default.value)) {
                Ok(value) => Ok(text.push_str(value)?),
                Err(_) => Err(wrong(alloc, "the default", "text")),
            }
        }
    }
}

/// Appends the words of a type, where `depth` types are inside one another at most.
#[cycle(words)]
pub fn push_type(
    alloc: Global,
    schema: &Schema,
    text: &mut String,
    node: usize,
    depth: usize,
) -> Result<(), RowError> {
    if depth == 0 {
        return push_word(text, "..");
    }
    let Some(found) = schema.tables().nodes.get(node) else {
        return Err(wrong(alloc, "the type", "type of the tables"));
    };
    push_word(text, word_of(alloc, schema, found)?.as_str())?;
    match found {
        Node::Sequence {
            root,
            additions,
            ..
        } => {
            push_members(alloc, schema, text, *root, true, depth - 1)?;
            push_members(alloc, schema, text, *additions, true, depth - 1)
        }
        Node::Choice {
            alternatives,
            additions,
            ..
        } => {
            push_members(alloc, schema, text, *alternatives, false, depth - 1)?;
            push_members(alloc, schema, text, *additions, false, depth - 1)
        }
        Node::SequenceOf { item, .. } | Node::SetOf { item, .. } => {
            push_type(alloc, schema, text, *item, depth - 1)
        }
        _ => Ok(()),
    }
}

/// Appends the words of members.
#[cycle(words)]
fn push_members(
    alloc: Global,
    schema: &Schema,
    text: &mut String,
    rows: Rows,
    has_presence: bool,
    depth: usize,
) -> Result<(), RowError> {
    for member in rows_of(schema.tables().members, rows) {
        if has_presence {
            push_presence(alloc, schema, text, member.presence)?;
        }
        push_type(alloc, schema, text, member.node, depth)?;
    }
    Ok(())
}
