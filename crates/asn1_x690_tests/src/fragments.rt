//! Strings in fragments.

use crate::{Value, context_of, message_of};
use asn1_schema::{Fragments, Node, Part, Span};
use asn1_schema_rows::schema_of;
use asn1_test_rows::{RowError, parse_word, wrong};
use std::alloc::Global;

/// Returns the span that a word tells, as `8+16`: the index of its first bit, and the number of its bits.
fn span_of(alloc: Global, word: &str) -> Result<Span, RowError> {
    match word.split_once('+') {
        Some((at, count)) => Ok(Span {
            at: parse_word::<usize>(alloc, at)?,
            count: parse_word::<usize>(alloc, count)?,
        }),
        None => Err(wrong(alloc, word, "span")),
    }
}

/// Encodes a string in fragments, which four words tell, as a value of a type. Returns the octets or the misfit.
pub(crate) fn fragments_encoded(
    alloc: Global,
    source: &[u8],
    words: &[&str],
) -> Result<String, RowError> {
    let [at, whole, middle, last, words @ ..] = words else {
        return Err(wrong(alloc, "the row", "row of fragments"));
    };
    let fragments = Fragments {
        at: parse_word::<usize>(alloc, at)?,
        whole: parse_word::<usize>(alloc, whole)?,
        middle: span_of(alloc, middle)?,
        last: span_of(alloc, last)?,
    };
    let schema = schema_of(alloc, false, words)?;
    let part = match schema.nodes.as_slice().get(schema.node) {
        Some(Node::BitString { .. }) => Part::BitsInFragments(fragments),
        _ => Part::OctetsInFragments(fragments),
    };
    let of = context_of(source, &schema);
    let value = Value {
        tables: of.tables,
        tags: of.tags,
        defaults: of.defaults,
        parts: &[part],
        source,
        is_ordered: true,
        lengths: &[],
    };
    message_of(alloc, &value, schema.node, 500_000)
}
