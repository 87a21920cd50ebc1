//! Values decoded by the tables of a schema.

use crate::row::{Row, Work};
use asn1_schema::{Bounds, Length, Member, Node, Part, Presence, Range, Rows, Span, Tables};
use asn1_x691_decode::{Context, Defaults, decode_prefix};
use std::alloc::{AllocError, Global};

/// INTEGER (0..range).
fn up_to(range: u32) -> Node {
    Node::IntegerBetween {
        bounds: Bounds {
            least: 0,
            range: range.into(),
        },
        is_extensible: false,
    }
}

/// Returns the types: a SEQUENCE of four numbers, of 3, 13, 32 and 7 bits; and `VisibleString (FROM
/// ("a".."z" | "A".."Z" | "-.")) (SIZE (1..64))`.
fn types() -> [Node; 6] {
    let numbers = Node::Sequence {
        root: Rows { from: 0, count: 4 },
        is_extensible: false,
        additions: Rows { from: 4, count: 0 },
    };
    let name = Node::Text {
        length: Length::Between {
            least: 1,
            range: 63,
        },
        is_extensible: false,
        alphabet: Rows { from: 0, count: 3 },
        whole: Rows { from: 0, count: 3 },
    };
    [
        numbers,
        up_to(7),
        up_to(8191),
        up_to(u32::MAX),
        up_to(127),
        name,
    ]
}

/// The components of the SEQUENCE.
static MEMBERS: [Member; 4] = [
    Member {
        node: 1,
        presence: Presence::Mandatory,
    },
    Member {
        node: 2,
        presence: Presence::Mandatory,
    },
    Member {
        node: 3,
        presence: Presence::Mandatory,
    },
    Member {
        node: 4,
        presence: Presence::Mandatory,
    },
];

/// The characters of a name: `-`, `.` and the letters.
static RANGES: [Range; 3] = [
    Range {
        first: 45,
        last: 46,
    },
    Range {
        first: 65,
        last: 90,
    },
    Range {
        first: 97,
        last: 122,
    },
];

/// The numbers 5, 4000, 123456 and 99.
static FOUR_NUMBERS: [u8; 7] = [175, 160, 0, 1, 226, 64, 198];

/// The letters from a to z, one after another, 64 in all.
static LETTERS: [u8; 49] = [
    253, 199, 94, 126, 8, 98, 142, 73, 102, 158, 138, 106, 174, 203, 110, 191, 12, 114, 207, 77,
    92, 117, 231, 224, 134, 40, 228, 150, 105, 232, 166, 170, 236, 182, 235, 240, 199, 44, 244,
    213, 199, 94, 126, 8, 98, 142, 73, 102, 156,
];

static NO_OCTETS: [u8; 0] = [];

static NO_SPANS: [Span; 0] = [];

/// A value, decoded a hundred times in the UNALIGNED variant.
#[derive(Drop)]
pub struct Decoded {
    message: &'static [u8],
    node: usize,
    name: &'static str,
}

impl Decoded {
    /// Returns the four numbers.
    pub fn numbers() -> Decoded {
        Decoded {
            message: &FOUR_NUMBERS,
            node: 0,
            name: "four numbers decoded by a schema",
        }
    }

    /// Returns the letters.
    pub fn letters() -> Decoded {
        Decoded {
            message: &LETTERS,
            node: 5,
            name: "64 characters decoded by a schema",
        }
    }
}

impl Row for Decoded {
    fn work(&self) -> Work {
        Work {
            name: self.name,
            pieces: 100,
            octets: 0,
        }
    }

    fn round(&mut self, _alloc: Global) -> Result<u64, AllocError> {
        let nodes = types();
        decode_hundred(&nodes, &MEMBERS, &RANGES, self.message, self.node)
    }
}

/// Decodes a value a hundred times, and returns the sum of the numbers of its bits.
fn decode_hundred<'m>(
    nodes: &'m [Node],
    members: &'m [Member],
    ranges: &'m [Range],
    message: &'m [u8],
    node: usize,
) -> Result<u64, AllocError> {
    if message.len() >= 1 << 60 {
        return Err(AllocError);
    }
    let context = Context {
        tables: Tables {
            nodes,
            members,
            ranges,
        },
        defaults: Defaults {
            octets: &NO_OCTETS,
            spans: &NO_SPANS,
        },
        octets: message,
        is_aligned: false,
    };
    let mut bits = 0u64;
    for _ in 0..100 {
        let mut room = [Part::Absent; 8];
        match decode_prefix(&context, 4, node, &mut room) {
            Ok(prefix) => bits = bits.wrapping_add(prefix.bits as u64),
            Err(_) => return Err(AllocError),
        }
    }
    Ok(bits)
}
