//! Encodes a value after the first bits of an octet.
//!
//! In the ALIGNED variant the encoding of a value depends on how many bits of an octet precede it. So
//! a SEQUENCE is encoded that has up to seven BOOLEANs before the value, and a BOOLEAN that is TRUE
//! after it: the last bit of the message that is 1 is this one.

use asn1_resolve::Schema;
use asn1_schema::{Member, Node, Part, Presence, Rows, Tables};
use asn1_x691_encode::{Context, Defaults, encode};
use std::alloc::{AllocError, Global};

/// The most bits that precede a value in an octet.
const MOST_BEFORE: usize = 7;

/// How deep the value of the SEQUENCE may be nested.
const DEPTH: usize = 65;

/// The tables of a schema, and a SEQUENCE around one value.
#[derive(Drop)]
pub(crate) struct Probe {
    nodes: Vec<Node>,
    members: Vec<Member>,
    truth: usize,
    first: usize,
}

/// Returns a component that must be present.
fn mandatory(node: usize) -> Member {
    Member {
        node,
        presence: Presence::Mandatory,
    }
}

/// Returns the index of the last bit that is 1.
fn last_one(octets: &[u8]) -> Option<usize> {
    let mut last = None;
    for (index, octet) in octets.iter().enumerate() {
        if *octet != 0 {
            let place = 7u32.saturating_sub(octet.trailing_zeros());
            last = Some(index.saturating_mul(8).saturating_add(place as usize));
        }
    }
    last
}

/// Returns the first bits of octets that a context encodes as the value of a node. `None` if its parts
/// are no value.
fn message_of(
    alloc: Global,
    context: &Context<'_>,
    node: usize,
) -> Result<Option<Vec<u8>>, AllocError> {
    if context.source.len() > 1 << 60 || context.parts.len() > 1 << 60 {
        return Ok(None);
    }
    let Ok(needed) = encode(context, DEPTH, node, &mut []) else {
        return Ok(None);
    };
    if needed.octets > 1 << 60 {
        return Ok(None);
    }
    let mut octets: Vec<u8> = Vec::new(alloc);
    octets.resize(needed.octets, 0)?;
    match encode(context, DEPTH, node, octets.as_mut_slice()) {
        Ok(_) => Ok(Some(octets)),
        Err(_) => Ok(None),
    }
}

impl Probe {
    /// Makes a probe for values of a schema.
    pub(crate) fn new(alloc: Global, schema: &Schema) -> Result<Probe, AllocError> {
        let tables = schema.tables();
        let mut nodes = Vec::from_slice(alloc, tables.nodes)?;
        let mut members = Vec::from_slice(alloc, tables.members)?;
        let truth = nodes.len();
        nodes.push(Node::Boolean)?;
        nodes.push(Node::Null)?;
        let first = members.len();
        for _ in 0..MOST_BEFORE {
            members.push(mandatory(truth))?;
        }
        members.push(mandatory(truth))?;
        members.push(mandatory(truth))?;
        Ok(Probe {
            nodes,
            members,
            truth,
            first,
        })
    }

    /// Sets the SEQUENCE: `before` BOOLEANs, a value of the type at a node, and a BOOLEAN.
    fn set(&mut self, node: usize, before: usize) {
        let value = self.first.saturating_add(MOST_BEFORE);
        if let Some(place) = self.members.as_mut_slice().get_mut(value) {
            *place = mandatory(node);
        }
        let root = Rows {
            from: value.saturating_sub(before),
            count: (before % 8) as u32 + 2,
        };
        let sequence = self.truth.saturating_add(1);
        if let Some(place) = self.nodes.as_mut_slice().get_mut(sequence) {
            *place = Node::Sequence {
                root,
                is_extensible: false,
                additions: Rows { from: 0, count: 0 },
            };
        }
    }

    /// Returns the encoding of a value of the type at a node after `before` bits of an octet: octets,
    /// and the index of the bit after the value. `None` if the parts are no value of the type.
    pub(crate) fn encode_after(
        &mut self,
        alloc: Global,
        schema: &Schema,
        node: usize,
        value: &[Part],
        source: &[u8],
        is_aligned: bool,
        before: usize,
    ) -> Result<Option<(Vec<u8>, usize)>, AllocError> {
        self.set(node, before);
        let mut parts = Vec::new(alloc);
        let count = before.saturating_add(2);
        parts.push(Part::Sequence {
            count,
            is_extended: false,
        })?;
        for _ in 0..before {
            parts.push(Part::Truth(false))?;
        }
        parts.extend_from_slice(value)?;
        parts.push(Part::Truth(true))?;
        let context = Context {
            tables: Tables {
                nodes: self.nodes.as_slice(),
                members: self.members.as_slice(),
                ranges: schema.tables().ranges,
            },
            defaults: Defaults {
                octets: &[],
                spans: &[],
            },
            parts: parts.as_slice(),
            source,
            is_aligned,
        };
        let sequence = self.truth.saturating_add(1);
        let Some(octets) = message_of(alloc, &context, sequence)? else {
            return Ok(None);
        };
        match last_one(octets.as_slice()) {
            None => Ok(None),
            Some(end) => Ok(Some((octets, end))),
        }
    }
}
