//! Types whose methods are the names of components, as a source.

use crate::types::are_of_one_module;
use asn1_resolve::{NamedType, Schema};
use asn1_schema::{Node, Rows};
use std::alloc::{AllocError, Global};
use std::str;

/// Words that a source cannot use as names of methods.
static WORDS: [&str; 40] = [
    "as", "async", "await", "break", "const", "continue", "crate", "dyn", "else", "ensures",
    "enum", "extern", "false", "fn", "for", "ghost", "if", "impl", "in", "let", "loop", "match",
    "mod", "move", "mut", "pub", "ref", "requires", "return", "self", "static", "struct", "super",
    "trait", "true", "type", "unsafe", "use", "where", "while",
];

/// The types of a schema, and the source of their views.
#[derive(Drop)]
struct Views<'s> {
    alloc: Global,
    schema: &'s Schema,
    /// Whether all types are of one module.
    is_one: bool,
    text: String,
}

/// Returns a name as text.
fn name_of(name: &[u8]) -> &str {
    str::from_utf8(name).unwrap_or("")
}

/// Appends a name of ASN.1 as that of a type: without hyphens, and in upper case after one.
fn push_type_name(text: &mut String, name: &str) -> Result<(), AllocError> {
    let mut is_begun = true;
    for character in name.chars() {
        if character == '-' {
            is_begun = true;
            continue;
        }
        text.push(if is_begun {
            character.to_ascii_uppercase()
        } else {
            character
        })?;
        is_begun = false;
    }
    Ok(())
}

/// Returns a name of ASN.1 as that of a method: in lower case, with a low line before each word.
fn method_name(alloc: Global, name: &str) -> Result<String, AllocError> {
    let mut text = String::new(alloc);
    let mut is_after_small = false;
    for character in name.chars() {
        if character.is_ascii_uppercase() && is_after_small {
            text.push('_')?;
        }
        is_after_small = character.is_ascii_lowercase() || character.is_ascii_digit();
        text.push(if character == '-' {
            '_'
        } else {
            character.to_ascii_lowercase()
        })?;
    }
    for word in &WORDS {
        if text.as_str() == *word {
            text.push('_')?;
            break;
        }
    }
    Ok(text)
}

/// Returns whether a type has a view.
fn has_view(schema: &Schema, node: usize) -> bool {
    match schema.tables().nodes.get(node) {
        Some(Node::Sequence { .. } | Node::Choice { .. }) => true,
        _ => false,
    }
}

impl<'s> Views<'s> {
    /// Appends the name of the view of a type. If the types are of several modules, it has that of its
    /// module first.
    fn push_name(&mut self, named: &NamedType) -> Result<(), AllocError> {
        if !self.is_one {
            push_type_name(&mut self.text, name_of(self.schema.text_of(named.module)))?;
        }
        push_type_name(&mut self.text, name_of(self.schema.text_of(named.name)))
    }

    /// Appends the view of the type at a node, or that of any value.
    fn push_view(&mut self, node: usize) -> Result<(), AllocError> {
        for named in self.schema.types() {
            if named.node == node && has_view(self.schema, node) {
                self.push_name(named)?;
                return self.text.push_str("<'v>");
            }
        }
        self.text.push_str("asn1_schema_values::Value<'v>")
    }

    /// Appends the methods of the members in some rows. `is_choice` says that they are alternatives.
    fn push_methods(&mut self, rows: Rows, is_choice: bool) -> Result<(), AllocError> {
        let (schema, names) = (self.schema, self.schema.names());
        let end = rows.from.saturating_add(rows.count as usize);
        for (index, member) in schema.tables().members.iter().enumerate() {
            let name = names.of_member(index).unwrap_or(&[]);
            if index < rows.from || end <= index || name.is_empty() {
                continue;
            }
            let (name, kind) = (
                name_of(name),
                if is_choice {
                    "alternative"
                } else {
                    "component"
                },
            );
            let method = method_name(self.alloc, name)?;
            let missing = if is_choice {
                "if another is chosen"
            } else {
                "if it is absent"
            };
            write!(
                self.text,
                "\n        /// Returns the {kind} `{name}`. `None` {missing}.\n"
            )?;
            write!(self.text, "        pub fn {method}(&self) -> Option<")?;
            self.push_view(member.node)?;
            self.text.push_str("> {\n            let value = ")?;
            if is_choice {
                write!(
                    self.text,
                    "match self.0.choice() {{\n                Some((b\"{name}\", value)) => value,\n                _ => return None,\n            }};\n"
                )?;
            } else {
                write!(self.text, "self.0.get(\"{name}\")?;\n")?;
            }
            self.push_result(member.node)?;
            self.text.push_str("        }\n")?;
        }
        Ok(())
    }

    /// Appends the result of a method: the value, in its view if its type has one.
    fn push_result(&mut self, node: usize) -> Result<(), AllocError> {
        self.text.push_str("            Some(")?;
        for named in self.schema.types() {
            if named.node == node && has_view(self.schema, node) {
                self.push_name(named)?;
                return self.text.push_str("(value))\n");
            }
        }
        self.text.push_str("value)\n")
    }

    /// Appends the view of a type.
    fn push_type(&mut self, named: &NamedType) -> Result<(), AllocError> {
        let name = name_of(self.schema.text_of(named.name));
        write!(
            self.text,
            "\n    /// A value of `{name}`.\n    #[derive(Clone, Copy, Debug)]\n    pub struct "
        )?;
        self.push_name(named)?;
        self.text.push_str("<'v>(pub asn1_schema_values::Value<'v>);\n\n    impl<'v> ")?;
        self.push_name(named)?;
        self.text.push_str("<'v> {")?;
        match self.schema.tables().nodes.get(named.node) {
            Some(
                Node::Sequence {
                    root,
                    additions,
                    ..
                },
            ) => {
                self.push_methods(*root, false)?;
                self.push_methods(*additions, false)?;
            }
            Some(
                Node::Choice {
                    alternatives,
                    additions,
                    ..
                },
            ) => {
                self.push_methods(*alternatives, true)?;
                self.push_methods(*additions, true)?;
            }
            _ => {}
        }
        self.text.push_str("    }\n")
    }
}

/// Returns the source of the views of the types of a schema that are a SEQUENCE, a SET or a CHOICE.
pub fn views_of(alloc: Global, schema: &Schema) -> Result<String, AllocError> {
    let mut views = Views {
        alloc,
        schema,
        is_one: are_of_one_module(schema),
        text: String::new(alloc),
    };
    views.text.push_str("\npub mod views {\n    //! Values by the names of their components.\n")?;
    for named in schema.types() {
        if has_view(schema, named.node) {
            views.push_type(named)?;
        }
    }
    views.text.push_str("}\n")?;
    let Views { text, .. } = views;
    Ok(text)
}
