//! The personnel records of X.691 A.2 and A.3, decoded and encoded by the tables of a schema.

use crate::row::{Row, Work};
use asn1_schema::{Bounds, Length, Member, Node, Part, Presence, Range, Rows, Span, Tables};
use asn1_x691_decode::{Context, Defaults, decode};
use asn1_x691_encode::{Context as Value, encode};
use std::alloc::{AllocError, Global};

static RANGES: [Range; 5] = [
    Range {
        first: 45,
        last: 46,
    },
    Range {
        first: 65,
        last: 90,
    },
    Range {
        first: 97,
        last: 122,
    },
    Range {
        first: 32,
        last: 126,
    },
    Range {
        first: 48,
        last: 57,
    },
];

/// Rows of a table.
fn rows(from: usize, count: u32) -> Rows {
    Rows { from, count }
}

/// Returns a string of `least` to `least + range` characters, with the alphabet of a name, a
/// VisibleString or a date.
fn text(least: u32, range: u32, is_extensible: bool, alphabet: Rows) -> Node {
    Node::Text {
        length: Length::Between { least, range },
        is_extensible,
        alphabet,
        whole: rows(3, 1),
    }
}

/// Returns a VisibleString of any length.
fn visible() -> Node {
    Node::Text {
        length: Length::AtLeast { least: 0 },
        is_extensible: false,
        alphabet: rows(3, 1),
        whole: rows(3, 1),
    }
}

/// Returns a SEQUENCE, or a SET whose components have the canonical order of their tags.
fn sequence(root: Rows, is_extensible: bool, additions: Rows) -> Node {
    Node::Sequence {
        root,
        is_extensible,
        additions,
    }
}

/// Returns the types of A.2, in which nothing is extensible, or of A.3: the record, a name, its
/// parts, a number, a title, a date, the children, a child, its sex.
fn types(is_extensible: bool) -> [Node; 10] {
    let number = if is_extensible {
        Node::IntegerBetween {
            bounds: Bounds {
                least: 0,
                range: 9999,
            },
            is_extensible,
        }
    } else {
        Node::Integer
    };
    let children = if is_extensible {
        Length::Between { least: 2, range: 0 }
    } else {
        Length::AtLeast { least: 0 }
    };
    [
        sequence(rows(0, 6), is_extensible, rows(12, 0)),
        sequence(rows(6, 3), is_extensible, rows(12, 0)),
        text(1, 63, is_extensible, rows(0, 3)),
        text(1, 0, false, rows(0, 3)),
        number,
        visible(),
        text(8, 0, is_extensible, rows(4, 1)),
        Node::SequenceOf {
            length: children,
            is_extensible,
            item: 8,
        },
        sequence(rows(9, 2), is_extensible, rows(11, 1)),
        Node::Enumerated {
            last: 2,
            is_extensible: false,
            additions: 0,
        },
    ]
}

/// Returns a component of this type, which must be present.
fn mandatory(node: usize) -> Member {
    Member {
        node,
        presence: Presence::Mandatory,
    }
}

/// Returns the components: of the record, of a name, of a child, and the addition of a child.
fn components(is_extensible: bool) -> [Member; 12] {
    let children = if is_extensible {
        Presence::Optional
    } else {
        Presence::Default { value: 0 }
    };
    [
        mandatory(1),
        mandatory(4),
        mandatory(5),
        mandatory(6),
        mandatory(1),
        Member {
            node: 7,
            presence: children,
        },
        mandatory(2),
        mandatory(3),
        mandatory(2),
        mandatory(1),
        mandatory(6),
        Member {
            node: 9,
            presence: Presence::Optional,
        },
    ]
}

/// The record as X.691 A.2.3 prints it.
static SECOND: [u8; 61] = [
    0x86, 0x5D, 0x51, 0xD2, 0x88, 0x8A, 0x51, 0x25, 0xF1, 0x80, 0x99, 0x84, 0x44, 0xD3, 0xCB, 0x2E,
    0x3E, 0x9B, 0xF9, 0x0C, 0xB8, 0x84, 0x8B, 0x86, 0x73, 0x96, 0xE8, 0xA8, 0x8A, 0x51, 0x25, 0xF1,
    0x81, 0x08, 0x9B, 0x93, 0xD7, 0x1A, 0xA2, 0x29, 0x44, 0x97, 0xC6, 0x32, 0xAE, 0x22, 0x22, 0x22,
    0x98, 0x5C, 0xE5, 0x21, 0x88, 0x5D, 0x54, 0xC1, 0x70, 0xCA, 0xC8, 0x38, 0xB8,
];

/// The record as X.691 A.3.3 prints it.
static THIRD: [u8; 65] = [
    0x40, 0xCB, 0xAA, 0x3A, 0x51, 0x08, 0xA5, 0x12, 0x5F, 0x18, 0x03, 0x30, 0x88, 0x9A, 0x79, 0x65,
    0xC7, 0xD3, 0x7F, 0x20, 0xCB, 0x88, 0x48, 0xB8, 0x19, 0xCE, 0x5B, 0xA2, 0xA1, 0x14, 0xA2, 0x4B,
    0xE3, 0x01, 0x13, 0x72, 0x7A, 0xE3, 0x54, 0x22, 0x94, 0x49, 0x7C, 0x61, 0x95, 0x71, 0x11, 0x18,
    0x22, 0x98, 0x5C, 0xE5, 0x21, 0x84, 0x2E, 0xAA, 0x60, 0xB8, 0x32, 0xB2, 0x0E, 0x2E, 0x02, 0x02,
    0x80,
];

/// The encoding of no children, which is the default of A.2.
static NO_CHILDREN: [u8; 1] = [0];

static SPANS: [Span; 1] = [Span { at: 0, count: 8 }];

/// The most parts that a record has.
const ROOM: usize = 32;

/// A record, decoded or encoded a hundred times in the UNALIGNED variant.
#[derive(Clone, Copy, Debug)]
pub enum Record {
    /// That of A.2, decoded.
    SecondDecoded,
    /// That of A.3, decoded.
    ThirdDecoded,
    /// That of A.2, encoded.
    SecondEncoded,
    /// That of A.3, encoded.
    ThirdEncoded,
}

impl Row for Record {
    fn work(&self) -> Work {
        let name = match self {
            Record::SecondDecoded => "the record of X.691 A.2 decoded by a schema",
            Record::ThirdDecoded => "the record of X.691 A.3 decoded by a schema",
            Record::SecondEncoded => "the record of X.691 A.2 encoded by a schema",
            Record::ThirdEncoded => "the record of X.691 A.3 encoded by a schema",
        };
        Work {
            name,
            pieces: 100,
            octets: 0,
        }
    }

    fn round(&mut self, _alloc: Global) -> Result<u64, AllocError> {
        match self {
            Record::SecondDecoded => decode_hundred(false, &SECOND),
            Record::ThirdDecoded => decode_hundred(true, &THIRD),
            Record::SecondEncoded => encode_hundred(false, &SECOND),
            Record::ThirdEncoded => encode_hundred(true, &THIRD),
        }
    }
}

/// Decodes a record a hundred times, and returns the sum of the numbers of its parts.
fn decode_hundred(is_extensible: bool, octets: &[u8]) -> Result<u64, AllocError> {
    let (nodes, members) = (types(is_extensible), components(is_extensible));
    let mut parts = 0u64;
    for _ in 0..100 {
        let mut room = [Part::Absent; ROOM];
        parts = parts.wrapping_add(decode_one(&nodes, &members, octets, &mut room)? as u64);
    }
    Ok(parts)
}

/// Decodes a record, and returns the number of its parts.
fn decode_one<'m>(
    nodes: &'m [Node],
    members: &'m [Member],
    octets: &'m [u8],
    room: &mut [Part],
) -> Result<usize, AllocError> {
    if octets.len() >= 1 << 60 {
        return Err(AllocError);
    }
    let context = Context {
        tables: Tables {
            nodes,
            members,
            ranges: &RANGES,
        },
        defaults: Defaults {
            octets: &NO_CHILDREN,
            spans: &SPANS,
        },
        octets,
        is_aligned: false,
    };
    match decode(&context, 8, 0, room) {
        Ok(count) => Ok(count),
        Err(_) => Err(AllocError),
    }
}

/// Encodes the record that these octets are a hundred times, and returns the sum of the numbers of
/// its octets.
fn encode_hundred(is_extensible: bool, source: &[u8]) -> Result<u64, AllocError> {
    let (nodes, members) = (types(is_extensible), components(is_extensible));
    let mut parts = [Part::Absent; ROOM];
    let count = decode_one(&nodes, &members, source, &mut parts)?;
    let Some(parts) = parts.get(..count) else {
        return Err(AllocError);
    };
    let mut octets = 0u64;
    for _ in 0..100 {
        octets = octets.wrapping_add(encode_one(&nodes, &members, parts, source)? as u64);
    }
    Ok(octets)
}

/// Encodes a record, and returns the number of its octets.
fn encode_one<'m>(
    nodes: &'m [Node],
    members: &'m [Member],
    parts: &'m [Part],
    source: &'m [u8],
) -> Result<usize, AllocError> {
    if source.len() >= 1 << 60 || parts.len() > ROOM {
        return Err(AllocError);
    }
    let value = Value {
        tables: Tables {
            nodes,
            members,
            ranges: &RANGES,
        },
        defaults: Defaults {
            octets: &NO_CHILDREN,
            spans: &SPANS,
        },
        parts,
        source,
        is_aligned: false,
    };
    let mut message = [0u8; 80];
    match encode(&value, 8, 0, &mut message) {
        Ok(encoded) => Ok(encoded.octets),
        Err(_) => Err(AllocError),
    }
}
