//! The encodings by which items are compared.

use crate::context::{Context, Rules};
use asn1_schema::{Part, Span};
use asn1_x691_encode::Defaults;
use asn1_x691_writers::Rejection;
use std::alloc::{AllocError, Global};
use std::cell::Cell;

/// The most octets of a source or a message, and the most parts.
const MOST: usize = 1 << 60;

/// How many octets of PER there is room for before their number is known.
const FIRST_ROOM: usize = 64;

/// No default value: one that is present is encoded as it is.
const NO_DEFAULTS: Defaults<'static> = Defaults {
    octets: &NO_OCTETS,
    spans: &NO_SPANS,
};

const NO_OCTETS: [u8; 0] = [];

const NO_SPANS: [Span; 0] = [];

/// Returns the encoding of a value of the type at a node. `None` if it has none.
///
/// `lengths` must have a cell for each part. It has no meaning before or after the call.
///
/// # Errors
///
/// Returns an error if out of memory.
pub(crate) fn encoding_of<'x>(
    alloc: Global,
    context: &'x Context<'x>,
    depth: usize,
    node: usize,
    parts: &'x [Part],
    lengths: &'x [Cell<u8>],
) -> Result<Option<Vec<u8>>, AllocError> {
    if context.source.len() > MOST || parts.len() > MOST {
        return Ok(None);
    }
    match context.rules {
        Rules::Der => element_of(alloc, context, depth, node, parts, lengths),
        Rules::UnalignedPer => message_of(alloc, context, false, depth, node, parts),
        Rules::AlignedPer => message_of(alloc, context, true, depth, node, parts),
    }
}

/// Returns the element of a value. The items of a SET OF inside it are in the order that they have.
fn element_of<'x>(
    alloc: Global,
    context: &'x Context<'x>,
    depth: usize,
    node: usize,
    parts: &'x [Part],
    lengths: &'x [Cell<u8>],
) -> Result<Option<Vec<u8>>, AllocError> {
    if context.source.len() > MOST || parts.len() > MOST {
        return Ok(None);
    }
    let value = asn1_x690_encode::Context {
        tables: context.tables,
        tags: context.tags,
        defaults: NO_DEFAULTS,
        parts,
        source: context.source,
        is_ordered: false,
        lengths,
    };
    let Ok(needed) = asn1_x690_encode::measure(&value, depth, node) else {
        return Ok(None);
    };
    if needed.octets > MOST {
        return Ok(None);
    }
    let mut octets = vec![in alloc; 0u8; needed.octets]?;
    match asn1_x690_encode::encode(&value, depth, node, octets.as_mut_slice()) {
        Ok(_) => Ok(Some(octets)),
        Err(_) => Ok(None),
    }
}

/// Returns the message of a value in a variant of PER.
fn message_of<'x>(
    alloc: Global,
    context: &'x Context<'x>,
    is_aligned: bool,
    depth: usize,
    node: usize,
    parts: &'x [Part],
) -> Result<Option<Vec<u8>>, AllocError> {
    if context.source.len() > MOST || parts.len() > MOST {
        return Ok(None);
    }
    let value = asn1_x691_encode::Context {
        tables: context.tables,
        defaults: NO_DEFAULTS,
        parts,
        source: context.source,
        is_aligned,
    };
    let mut octets: Vec<u8> = Vec::new(alloc);
    let mut room = FIRST_ROOM;
    for _ in 0..usize::BITS {
        if room > MOST {
            break;
        }
        octets.resize(room, 0)?;
        match asn1_x691_encode::encode(&value, depth, node, octets.as_mut_slice()) {
            Ok(encoded) if encoded.octets <= room => {
                octets.truncate(encoded.octets);
                return Ok(Some(octets));
            }
            Ok(encoded) => room = encoded.octets,
            Err(misfit) if misfit.reason == Rejection::NoRoom => room = room.saturating_mul(2),
            Err(_) => break,
        }
    }
    Ok(None)
}
