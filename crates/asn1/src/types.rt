//! The types of modules by their names.

use asn1_resolve::{NamedType, Schema};
use std::alloc::{AllocError, Global};
use std::str;

/// Returns the text of octets that have a name.
fn name_of(octets: &[u8]) -> &str {
    str::from_utf8(octets).unwrap_or("")
}

/// Returns whether a type has a name, which may have that of its module before it: `Module.Type`.
fn has_name(schema: &Schema, named: &NamedType, name: &str) -> bool {
    let own = name_of(schema.text_of(named.name));
    match name.split_once('.') {
        None => own == name,
        Some((module, rest)) => own == rest && name_of(schema.text_of(named.module)) == module,
    }
}

/// Returns the node of the first type with a name, `Type` or `Module.Type`. `None` if there is none.
pub fn node_of(schema: &Schema, name: &str) -> Option<usize> {
    for named in schema.types() {
        if has_name(schema, named, name) {
            return Some(named.node);
        }
    }
    None
}

/// Returns whether all types are of one module.
pub fn are_of_one_module(schema: &Schema) -> bool {
    let Some(first) = schema.types().first() else {
        return true;
    };
    for named in schema.types() {
        if named.module != first.module {
            return false;
        }
    }
    true
}

/// Appends the name of a type. If the types are of several modules, the name of its module is before it.
pub fn push_name(
    list: &mut String,
    schema: &Schema,
    named: &NamedType,
    is_one: bool,
) -> Result<(), AllocError> {
    if !is_one {
        list.push_str(name_of(schema.text_of(named.module)))?;
        list.push('.')?;
    }
    list.push_str(name_of(schema.text_of(named.name)))
}

/// Returns the names of the types, one a line, in the order of the text.
pub fn list_of(alloc: Global, schema: &Schema) -> Result<String, AllocError> {
    let is_one = are_of_one_module(schema);
    let mut list = String::new(alloc);
    for named in schema.types() {
        push_name(&mut list, schema, named, is_one)?;
        list.push('\n')?;
    }
    Ok(list)
}

/// Returns what a node is in words, for messages: `type Name`, or `component name` for the type of a
/// component that has no name of its own. It is empty if the schema has no name.
pub fn words_of(alloc: Global, schema: &Schema, node: usize) -> Result<String, AllocError> {
    let names = schema.names();
    let own = name_of(names.of_node(node).unwrap_or(&[]));
    if !own.is_empty() {
        return format!(in alloc; "type {own}: ");
    }
    for (row, member) in schema.tables().members.iter().enumerate() {
        let name = name_of(names.of_member(row).unwrap_or(&[]));
        if member.node == node && !name.is_empty() {
            return format!(in alloc; "component {name}: ");
        }
    }
    Ok(String::new(alloc))
}
