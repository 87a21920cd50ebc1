//! Blocks of Base64 with labels (RFC 7468).

use crate::forms::{FormError, FormProblem, count_before, form_error, octets_of_base64};
use base64::engine::general_purpose::STANDARD;
use std::alloc::{AllocError, Global};

/// How many characters of Base64 a line has (RFC 7468 2).
const LINE: usize = 64;

/// A line of a text.
#[derive(Clone, Copy, Debug)]
enum Line<'a> {
    /// It begins a block with a label.
    Begin(&'a [u8]),
    /// It ends a block with a label.
    End(&'a [u8]),
    /// It is another line.
    Other,
}

/// A block that has begun.
#[derive(Clone, Copy, Debug)]
struct Block<'a> {
    /// Its label.
    label: &'a [u8],
    /// The index of the octet after its first line.
    from: usize,
}

/// Returns octets without white space at their end.
fn trimmed(octets: &[u8]) -> &[u8] {
    let mut rest = octets;
    while let Some((last, others)) = rest.split_last() {
        if *last != b' ' && *last != b'\t' && *last != b'\r' {
            break;
        }
        rest = others;
    }
    rest
}

/// Returns the label in a line, after its first word. `None` if no label ends the line so.
fn label_of<'a>(line: &'a [u8], word: &[u8]) -> Option<&'a [u8]> {
    line.strip_prefix(word)?.strip_suffix(b"-----")
}

/// Returns what a line is.
fn line_of(octets: &[u8]) -> Line<'_> {
    if octets.first() != Some(&b'-') {
        return Line::Other;
    }
    let line = trimmed(octets);
    if let Some(label) = label_of(line, b"-----BEGIN ") {
        return Line::Begin(label);
    }
    match label_of(line, b"-----END ") {
        Some(label) => Line::End(label),
        None => Line::Other,
    }
}

/// Returns the octets of each block of a text. Other lines may be between blocks.
///
/// # Errors
///
/// Returns the first line that is not permitted, or the first octet in a block that is not of Base64.
/// A text without blocks is an error too.
pub fn blocks_of(alloc: Global, text: &[u8]) -> Result<Vec<Vec<u8>>, FormError> {
    let mut blocks = Vec::new(alloc);
    let mut open: Option<Block<'_>> = None;
    let mut at = 0usize;
    for _ in 0..=text.len() {
        let Some(rest) = text.get(at..) else {
            break;
        };
        let line = rest.get(..count_before(rest, b'\n', b'\n')).unwrap_or(rest);
        let next = at.saturating_add(line.len()).saturating_add(1);
        match (line_of(line), open) {
            (Line::Other, _) => {}
            (Line::Begin(label), None) => open = Some(Block { label, from: next }),
            (Line::End(label), Some(block)) if label == block.label => {
                let inside = text.get(block.from..at).unwrap_or(&[]);
                blocks.push(octets_of_base64(alloc, inside, block.from)?)?;
                open = None;
            }
            _ => return Err(form_error(at, FormProblem::Boundary)),
        }
        at = next;
    }
    if open.is_some() {
        return Err(form_error(text.len(), FormProblem::OpenBlock));
    }
    if blocks.is_empty() {
        return Err(form_error(0, FormProblem::NoBlock));
    }
    Ok(blocks)
}

/// Returns a block with a label.
///
/// # Errors
///
/// Returns an error if out of memory.
pub fn text_of_block(alloc: Global, label: &str, octets: &[u8]) -> Result<String, AllocError> {
    let characters = STANDARD.encode(alloc, octets)?;
    let mut text = String::new(alloc);
    writeln!(text, "-----BEGIN {label}-----")?;
    for (index, character) in characters.as_str().chars().enumerate() {
        if index > 0 && index % LINE == 0 {
            text.push('\n')?;
        }
        text.push(character)?;
    }
    if !characters.is_empty() {
        text.push('\n')?;
    }
    writeln!(text, "-----END {label}-----")?;
    Ok(text)
}
