//! The tags of types in words.
//!
//! A tag is its class and its number: `U` for universal, `A`, `C` and `P`, as `C0`. The tags of a type
//! are joined by full stops, `-` for none; after them are the numbers of an ENUMERATED, as `#0#5`, and
//! `@2` or `@4` of a string with 2 or 4 octets a character, and `+` of ANY. A member has the tags that
//! it can begin with, joined by `|` and followed by `+` if it can begin with any, and the tags of its
//! type. After an addition group its components are in parentheses.

use crate::words::rows_of;
use asn1_resolve::Schema;
use asn1_schema::{Member, Node, Rows};
use asn1_test_rows::RowError;
use asn1_x690::{CharacterSize, Class, FirstTags, Tag};
use std::alloc::Global;

/// Appends tags with something between them.
fn push_tags(text: &mut String, tags: &[Tag], between: char) -> Result<(), RowError> {
    if tags.is_empty() {
        text.push('-')?;
    }
    for (index, tag) in tags.iter().enumerate() {
        if index > 0 {
            text.push(between)?;
        }
        text.push(match tag.class {
            Class::Universal => 'U',
            Class::Application => 'A',
            Class::Context => 'C',
            Class::Private => 'P',
        })?;
        let number = tag.number;
        write!(text, "{number}")?;
    }
    Ok(())
}

/// Appends that any tag is permitted, if it is.
fn push_any(text: &mut String, is_any: bool) -> Result<(), RowError> {
    if is_any {
        text.push('+')?;
    }
    Ok(())
}

/// Appends the tags of the type at a node.
fn push_type_tags(text: &mut String, schema: &Schema, node: usize) -> Result<(), RowError> {
    let tables = schema.tag_tables();
    let Some(tags) = tables.types.get(node) else {
        text.push('?')?;
        return Ok(());
    };
    push_tags(text, rows_of(tables.tags, tags.tags), '.')?;
    let count = match schema.tables().nodes.get(node) {
        Some(Node::Enumerated { .. }) => schema.enumerals(node).len(),
        _ => 0,
    };
    let end = tags.numbers.saturating_add(count);
    for number in tables.numbers.get(tags.numbers..end).unwrap_or(&[]) {
        write!(text, "#{number}")?;
    }
    match tags.characters {
        CharacterSize::One => {}
        CharacterSize::Two => text.push_str("@2")?,
        CharacterSize::Four => text.push_str("@4")?,
    }
    push_any(text, tags.is_any)
}

/// Appends the tags of a member.
fn push_member(
    text: &mut String,
    schema: &Schema,
    member: &Member,
    first: &FirstTags,
) -> Result<(), RowError> {
    text.push(' ')?;
    push_tags(text, rows_of(schema.tag_tables().tags, first.tags), '|')?;
    push_any(text, first.is_any)?;
    text.push(':')?;
    push_type_tags(text, schema, member.node)
}

/// Appends the tags of the components of an addition group in parentheses.
fn push_group(text: &mut String, schema: &Schema, group: Rows) -> Result<(), RowError> {
    let members = rows_of(schema.tables().members, group);
    let tags = rows_of(schema.tag_tables().members, group);
    text.push_str(" (")?;
    for (member, first) in members.iter().zip(tags) {
        push_member(text, schema, member, first)?;
    }
    text.push_str(" )")?;
    Ok(())
}

/// Appends the tags of members, in parentheses those of the components of an addition group.
fn push_members(text: &mut String, schema: &Schema, rows: Rows) -> Result<(), RowError> {
    let members = rows_of(schema.tables().members, rows);
    let tags = rows_of(schema.tag_tables().members, rows);
    for (member, first) in members.iter().zip(tags) {
        push_member(text, schema, member, first)?;
        if let Some(group) = first.group {
            push_group(text, schema, group)?;
        }
    }
    Ok(())
}

/// Returns the tags of a type, and of its members or its items.
pub fn tags_of(alloc: Global, schema: &Schema, node: usize) -> Result<String, RowError> {
    let mut text = String::new(alloc);
    push_type_tags(&mut text, schema, node)?;
    match schema.tables().nodes.get(node) {
        Some(
            Node::Sequence {
                root: first,
                additions,
                ..
            }
            | Node::Choice {
                alternatives: first,
                additions,
                ..
            },
        ) => {
            push_members(&mut text, schema, *first)?;
            push_members(&mut text, schema, *additions)?;
        }
        Some(Node::SequenceOf { item, .. } | Node::SetOf { item, .. }) => {
            text.push(' ')?;
            push_type_tags(&mut text, schema, *item)?;
        }
        _ => {}
    }
    Ok(text)
}
