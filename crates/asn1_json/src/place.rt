//! Where an item of a text is, for messages.

use crate::tree::{Kind, Tree};
use std::alloc::{AllocError, Global};

/// Returns the line and the column, in characters, of an octet of a text. Both count from 1 on.
pub fn line_and_column(text: &str, at: usize) -> (usize, usize) {
    let before = text.get(..at).unwrap_or(text);
    let start = match before.rfind('\n') {
        Some(last) => last.saturating_add(1),
        None => 0,
    };
    let mut line = 1usize;
    for octet in before.as_bytes() {
        if *octet == b'\n' {
            line = line.saturating_add(1);
        }
    }
    let column = before.get(start..).unwrap_or("").chars().count();
    (line, column.saturating_add(1))
}

/// Appends the step from an item to the one inside it that has the index `wanted`, or holds the item
/// with that index. Returns the index of that item. `None` if there is none inside.
fn step(
    tree: &Tree<'_>,
    index: usize,
    wanted: usize,
    path: &mut String,
) -> Result<Option<usize>, AllocError> {
    let Some(item) = tree.item(index) else {
        return Ok(None);
    };
    let mut inner = index.saturating_add(1);
    let mut number = 0usize;
    for _ in 0..tree.len() {
        if item.end <= inner || wanted < inner {
            return Ok(None);
        }
        let Some(found) = tree.item(inner) else {
            return Ok(None);
        };
        if wanted < found.end {
            match (item.kind, found.kind) {
                (_, Kind::Key(name)) => {
                    path.push('.')?;
                    path.push_str(name)?;
                }
                (Kind::Array, _) => write!(path, "[{number}]")?,
                _ => {}
            }
            return Ok(Some(inner));
        }
        number = number.saturating_add(1);
        inner = found.end;
    }
    Ok(None)
}

/// Returns the path from a value to an item: `$` for the value itself, then `.name` for a member and
/// `[index]` for an item of an array.
///
/// # Errors
///
/// Returns an error if out of memory.
pub fn path_of(alloc: Global, tree: &Tree<'_>, wanted: usize) -> Result<String, AllocError> {
    let mut path = String::from_str(alloc, "$")?;
    let mut index = 0usize;
    for _ in 0..tree.len() {
        match step(tree, index, wanted, &mut path)? {
            Some(inner) => index = inner,
            None => break,
        }
    }
    Ok(path)
}
