//! Encodes a value as an element of DER.

use asn1_resolve::Schema;
use asn1_schema::Part;
use asn1_x690_encode::{Context, encode, measure};
use asn1_x691_encode::Defaults;
use std::alloc::{AllocError, Global};
use std::cell::Cell;

/// How deep a value may be nested.
const DEPTH: usize = 64;

/// Returns the element of a value of the type at a node. `None` if the parts are no value of the type.
pub(crate) fn element_of<'x>(
    alloc: Global,
    schema: &'x Schema,
    node: usize,
    parts: &'x [Part],
    source: &'x [u8],
) -> Result<Option<Vec<u8>>, AllocError> {
    if source.len() > 1 << 60 || parts.len() > 1 << 60 {
        return Ok(None);
    }
    let mut lengths = Vec::new(alloc);
    for _ in parts {
        lengths.push(Cell::new(0))?;
    }
    let context = Context {
        tables: schema.tables(),
        tags: schema.tag_tables(),
        defaults: Defaults {
            octets: &[],
            spans: &[],
        },
        parts,
        source,
        is_ordered: true,
        lengths: lengths.as_slice(),
    };
    let Ok(needed) = measure(&context, DEPTH, node) else {
        return Ok(None);
    };
    if needed.octets > 1 << 60 {
        return Ok(None);
    }
    let mut octets: Vec<u8> = Vec::new(alloc);
    octets.resize(needed.octets, 0)?;
    match encode(&context, DEPTH, node, octets.as_mut_slice()) {
        Ok(_) => Ok(Some(octets)),
        Err(_) => Ok(None),
    }
}
