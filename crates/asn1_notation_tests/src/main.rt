//! Tests of the notation: a program that answers the rows of its stored input.
//!
//! A row is a call and definitions, as `automatic A ::= INTEGER (0..7) = int:0..7`. The module of
//! `automatic`, `implicit` and `explicit` has these tags; its definitions are line 2 of its text. The
//! answer is the first type in words, or the error. `names` has the names of the first type's members, or
//! its values with their numbers; `types` the types that have names; `tags` the tags of the first type and of its members. `module` has whole modules, and `cuts` counts
//! the texts that are modules among those that a text begins with.
#![tactic(auto)]

mod tags;
mod words;

use crate::tags::tags_of;
use crate::words::{push_type, rows_of};
use asn1_notation::{Report, parse};
use asn1_resolve::{Schema, SchemaError};
use asn1_schema::{Node, Rows};
use asn1_schema_values::NameSpan;
use asn1_test_rows::{Answers, RowError, run, wrong};
use std::alloc::Global;
use std::io::BufReader;
use std::process::ExitCode;

/// The greatest depth of types in an answer.
const DEPTH: usize = 8;

/// Returns the words of a row as one text.
fn joined(alloc: Global, words: &[&str]) -> Result<String, RowError> {
    let mut text = String::new(alloc);
    for word in words {
        if !text.is_empty() {
            text.push(' ')?;
        }
        text.push_str(word)?;
    }
    Ok(text)
}

/// Returns the module with some definitions.
fn module_of(alloc: Global, tags: &str, definitions: &str) -> Result<String, RowError> {
    Ok(format!(in alloc; "M DEFINITIONS {tags} TAGS ::= BEGIN\n{definitions}\nEND\n")?)
}

/// Returns the schema of a text, or the first line of the report of its error.
fn schema_or_report(alloc: Global, text: &str) -> Result<Result<Schema, String>, RowError> {
    match Schema::parse(alloc, text) {
        Ok(schema) => Ok(Ok(schema)),
        Err(SchemaError::Notation(error)) => {
            let report = format!(in alloc; "{}", Report::new(text, error))?;
            match report.as_str().split_once('\n') {
                Some((line, _)) => Ok(Err(String::from_str(alloc, line)?)),
                None => Ok(Err(report)),
            }
        }
        Err(SchemaError::Memory) => Err(wrong(alloc, "the text", "text that fits in memory")),
    }
}

/// Appends a name, after a space.
fn push_name(
    alloc: Global,
    schema: &Schema,
    text: &mut String,
    name: NameSpan,
) -> Result<(), RowError> {
    if !text.is_empty() {
        text.push(' ')?;
    }
    match std::str::from_utf8(schema.text_of(name)) {
        Ok(name) => Ok(text.push_str(name)?),
        Err(_) => Err(wrong(alloc, "the name", "text")),
    }
}

/// Appends the names of members.
fn push_names(
    alloc: Global,
    schema: &Schema,
    text: &mut String,
    rows: Rows,
) -> Result<(), RowError> {
    for name in rows_of(schema.names().members, rows) {
        push_name(alloc, schema, text, *name)?;
    }
    Ok(())
}

/// Returns the names of the members of a type, or its values and their numbers.
fn names_of(alloc: Global, schema: &Schema, node: usize) -> Result<String, RowError> {
    let mut text = String::new(alloc);
    for enumeral in schema.enumerals(node) {
        push_name(alloc, schema, &mut text, enumeral.name)?;
        let number = format!(in alloc; "({})", enumeral.number)?;
        text.push_str(number.as_str())?;
    }
    match schema.tables().nodes.get(node) {
        Some(
            Node::Sequence {
                root,
                additions,
                ..
            },
        ) => {
            push_names(alloc, schema, &mut text, *root)?;
            push_names(alloc, schema, &mut text, *additions)?;
        }
        Some(
            Node::Choice {
                alternatives,
                additions,
                ..
            },
        ) => {
            push_names(alloc, schema, &mut text, *alternatives)?;
            push_names(alloc, schema, &mut text, *additions)?;
        }
        _ => {}
    }
    Ok(text)
}

/// Returns the types that have names, each with its node.
fn types_of(alloc: Global, schema: &Schema) -> Result<String, RowError> {
    let mut text = String::new(alloc);
    for named in schema.types() {
        push_name(alloc, schema, &mut text, named.name)?;
        let node = format!(in alloc; "@{}", named.node)?;
        text.push_str(node.as_str())?;
    }
    Ok(text)
}

/// Returns the answer to a call of a text.
fn answer_of(alloc: Global, call: &str, text: &str) -> Result<String, RowError> {
    let schema = match schema_or_report(alloc, text)? {
        Ok(schema) => schema,
        Err(report) => return Ok(report),
    };
    if call == "types" {
        return types_of(alloc, &schema);
    }
    let Some(first) = schema.types().first() else {
        return Ok(String::from_str(alloc, "no types")?);
    };
    let node = first.node;
    if call == "names" {
        return names_of(alloc, &schema, node);
    }
    if call.starts_with("tags") {
        return tags_of(alloc, &schema, node);
    }
    let mut words = String::new(alloc);
    push_type(alloc, &schema, &mut words, node, DEPTH)?;
    Ok(words)
}

/// Returns how many texts that a text begins with, and that are shorter, are modules.
fn cuts_of(alloc: Global, text: &str) -> Result<String, RowError> {
    let octets = text.as_bytes();
    let mut count = 0usize;
    for end in 0..octets.len() {
        if parse(&octets[..end], &mut []).is_ok() {
            count = count.saturating_add(1);
        }
    }
    Ok(format!(in alloc; "{count}")?)
}

/// The calls of the rows.
struct Calls;

impl Answers for Calls {
    fn answer(&self, alloc: Global, call: &str, words: &[&str]) -> Result<String, RowError> {
        let text = joined(alloc, words)?;
        let tags = match call {
            "automatic" | "names" | "types" | "tags" => "AUTOMATIC",
            "implicit" | "tags_implicit" => "IMPLICIT",
            "explicit" | "tags_explicit" => "EXPLICIT",
            "module" => return answer_of(alloc, call, text.as_str()),
            "cuts" => return cuts_of(alloc, text.as_str()),
            _ => return Err(wrong(alloc, call, "call")),
        };
        let module = module_of(alloc, tags, text.as_str())?;
        answer_of(alloc, call, module.as_str())
    }
}

/// Runs on standard input and output.
fn main(rt: HostRuntime) -> Result<ExitCode, RowError> {
    let mut input = BufReader::new(rt.alloc(), rt.stdin())?;
    let status = run(rt.alloc(), &Calls, &mut input, &mut rt.stdout())?;
    Ok(ExitCode::from(status))
}
