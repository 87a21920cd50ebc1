//! The problems of a text, as many as are found.

use crate::built_in::{refer_to_associated_types, with_associated_types};
use crate::error::SchemaError;
use crate::room::OCTETS_OF_ENTRY;
use crate::schema::Schema;
use asn1_notation::{Entry, Item, NO_ENTRY, NotationError, Problem, narrow, parse_all, wide};
use std::alloc::{AllocError, AllocFailed, Global};

/// The most problems that [`problems_of`] returns.
pub const MAX_PROBLEMS: usize = 50;

/// How often a text is read: once more for each definition with a problem.
const MAX_ROUNDS: usize = 200;

const NO_PROBLEM: NotationError = NotationError {
    problem: Problem::TooLong,
    at: 0,
};

/// Returns the problems of a text's modules in the order of the text, at most [`MAX_PROBLEMS`].
///
/// A definition has at most one problem. Another one that refers to it has no problem for this reason.
/// There are none if [`Schema::parse`](crate::Schema::parse) makes the tables of the text.
///
/// # Errors
///
/// Returns an error if out of memory.
pub fn problems_of(alloc: Global, text: &str) -> Result<Vec<NotationError>, AllocError> {
    let whole = with_associated_types(alloc, text)?;
    let mut found: Vec<NotationError> = Vec::new(alloc);
    found.resize(MAX_PROBLEMS, NO_PROBLEM)?;
    let (mut tape, errors) = entries_of(alloc, text, found.as_mut_slice())?;
    found.truncate(errors);
    let from = text.len();
    let mut is_whole = false;
    if from < whole.len() {
        // A module without END would go on in the definitions of the associated types.
        let (all, all_errors) = entries_of(alloc, whole.as_str(), &mut [])?;
        if all_errors == errors {
            tape = all;
            is_whole = true;
        }
    }
    let text = if is_whole { whole.as_str() } else { text };
    refer_to_associated_types(tape.as_mut_slice(), from);
    for _ in 0..MAX_ROUNDS {
        match Schema::of_entries(alloc, text, &mut tape) {
            Ok(_) => break,
            Err(SchemaError::Memory) => return Err(AllocError),
            Err(SchemaError::Notation(error)) => {
                if !add(&mut found, error)? || !break_definition(tape.as_mut_slice(), error) {
                    break;
                }
            }
        }
    }
    found.as_mut_slice().sort_unstable_by_key(|error| error.at);
    Ok(found)
}

/// Returns the entries of a text, also where it has errors, and how many errors it has. The first errors are stored, as
/// many as there is room for. The text is read once, and a second time if it has more entries than the first room holds.
fn entries_of(
    alloc: Global,
    text: &str,
    errors: &mut [NotationError],
) -> Result<(Vec<Entry>, usize), AllocError> {
    let mut tape: Vec<Entry> = Vec::new(alloc);
    tape.resize(text.len() / OCTETS_OF_ENTRY, NO_ENTRY)?;
    let counts = parse_all(text.as_bytes(), tape.as_mut_slice(), errors);
    if tape.len() < counts.entries {
        tape.resize(counts.entries, NO_ENTRY)?;
        parse_all(text.as_bytes(), tape.as_mut_slice(), &mut []);
    }
    tape.truncate(counts.entries);
    Ok((tape, counts.errors))
}

/// Adds a problem, unless it is that of another definition. Returns whether there is room for more.
fn add(
    found: &mut Vec<NotationError>,
    error: NotationError,
) -> Result<bool, AllocFailed<NotationError>> {
    if error.problem != Problem::Consequence {
        found.push(error)?;
    }
    Ok(found.len() < MAX_PROBLEMS)
}

/// Returns the index of the definition, the import or the module that an octet of the text is in: the last
/// one that begins no later.
fn definition_at(tape: &[Entry], at: usize) -> Option<usize> {
    let mut found = None;
    for (index, entry) in tape.iter().enumerate() {
        let may_break = match entry.item {
            Item::Import | Item::ImportModule | Item::Module => true,
            item => item.is_definition(),
        };
        if may_break && wide(entry.from) <= at {
            found = Some(index);
        }
    }
    found
}

/// Sets what an entry is.
fn set_item(tape: &mut [Entry], index: usize, item: Item) {
    if let Some(entry) = tape.get_mut(index) {
        entry.item = item;
    }
}

/// Replaces what is in a definition with a problem, so that the others are read without it. Returns whether
/// there is such a definition.
fn break_definition(tape: &mut [Entry], error: NotationError) -> bool {
    let Some(index) = definition_at(tape, error.at) else {
        return false;
    };
    let Some(entry) = tape.get(index).copied() else {
        return false;
    };
    match entry.item {
        Item::Module => return false,
        Item::Import | Item::ImportModule => set_item(tape, index, Item::Broken),
        // One with a name that is in use is left out.
        _ if error.problem == Problem::Duplicate && wide(entry.from) == error.at => {
            set_item(tape, index, Item::Comma);
        }
        _ => break_contents(tape, index, entry),
    }
    true
}

/// Replaces what is in a definition after its parameters. One that was replaced before is left out.
fn break_contents(tape: &mut [Entry], index: usize, definition: Entry) {
    let mut first = index.saturating_add(1);
    if let Some(entry) = tape.get(first)
        && entry.item == Item::Parameters
    {
        first = wide(entry.end);
    }
    let end = wide(definition.end);
    match tape.get(first) {
        Some(entry) if entry.item != Item::Broken && first < end => {}
        _ => {
            set_item(tape, index, Item::Comma);
            return;
        }
    }
    for inside in first..end {
        let item = if inside == first {
            Item::Broken
        } else {
            Item::Comma
        };
        if let Some(entry) = tape.get_mut(inside) {
            entry.item = item;
            entry.word = None;
            entry.end = definition.end;
        }
    }
}
