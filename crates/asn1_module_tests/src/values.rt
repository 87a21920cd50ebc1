use asn1_schema::{
    Characters, Codes, Length, Member, Natural, Node, Part, Presence, Range, Rows, Span, Tables,
};
use asn1_schema_values::{Message, NameSpan, Names, NodeFault, Path, TableFault, Value, check};
use std::alloc::Global;
use std::test::Fail;

/// SEQUENCE { a BOOLEAN, list SEQUENCE OF CHOICE { x NULL, y BOOLEAN }, ..., added BOOLEAN }
const NODES: [Node; 5] = [
    Node::Sequence {
        root: Rows { from: 0, count: 2 },
        is_extensible: true,
        additions: Rows { from: 2, count: 1 },
    },
    Node::Boolean,
    Node::SequenceOf {
        length: Length::AtLeast { least: 0 },
        is_extensible: false,
        item: 3,
    },
    Node::Choice {
        alternatives: Rows { from: 3, count: 2 },
        is_extensible: false,
        additions: Rows { from: 5, count: 0 },
    },
    Node::Null,
];

const MEMBERS: [Member; 5] = [
    Member {
        node: 1,
        presence: Presence::Mandatory,
    },
    Member {
        node: 2,
        presence: Presence::Mandatory,
    },
    Member {
        node: 1,
        presence: Presence::Mandatory,
    },
    Member {
        node: 4,
        presence: Presence::Mandatory,
    },
    Member {
        node: 1,
        presence: Presence::Mandatory,
    },
];

const TEXT: [u8; 12] = *b"alistaddedxy";

const NAMES: [NameSpan; 5] = [
    NameSpan { from: 0, count: 1 },
    NameSpan { from: 1, count: 4 },
    NameSpan { from: 5, count: 5 },
    NameSpan { from: 10, count: 1 },
    NameSpan { from: 11, count: 1 },
];

/// A value with one item `y`, and an addition.
const PARTS: [Part; 7] = [
    Part::Sequence {
        count: 2,
        is_extended: true,
    },
    Part::Truth(true),
    Part::Count(1),
    Part::Chosen(1),
    Part::Truth(false),
    Part::Additions(1),
    Part::Truth(true),
];

/// The same where the number of items is not known yet.
const OPEN: [Part; 5] = [
    Part::Sequence {
        count: 2,
        is_extended: false,
    },
    Part::Truth(true),
    Part::Count(usize::MAX),
    Part::Chosen(0),
    Part::Null,
];

/// Returns whether a path is this one.
fn is_path(alloc: Global, path: Path<'_>, expected: &str) -> Result<bool, Fail> {
    let text = format!(in alloc; "{path}")?;
    Ok(text.as_str() == expected)
}

/// Returns the path after parts.
fn path_after<'x>(tables: Tables<'x>, names: Names<'x>, parts: &'x [Part]) -> Path<'x> {
    Path {
        tables,
        names,
        node: 0,
        parts,
    }
}

#[test]
fn a_path_leads_to_what_follows_the_parts(rt: HostRuntime) -> Result<(), Fail> {
    let alloc = rt.alloc();
    let (nodes, members, spans, text) = (NODES, MEMBERS, NAMES, TEXT);
    let ranges: [Range; 0] = [];
    let unnamed: [NameSpan; 0] = [];
    let (whole, open) = (PARTS, OPEN);
    let tables = Tables {
        nodes: &nodes,
        members: &members,
        ranges: &ranges,
    };
    let names = Names {
        text: &text,
        nodes: &unnamed,
        members: &spans,
    };
    let expected = ["", "a", "list", "list[0]", "list[0].y", "", "added", ""];
    for (count, path) in expected.iter().enumerate() {
        let parts = whole.get(..count).ok_or("too few parts")?;
        assert!(rt; is_path(alloc, path_after(tables, names, parts), path)?);
    }
    let expected = ["", "a", "list", "list[0]", "list[0].x", "list[1]"];
    for (count, path) in expected.iter().enumerate() {
        let parts = open.get(..count).ok_or("too few parts")?;
        assert!(rt; is_path(alloc, path_after(tables, names, parts), path)?);
    }
    Ok(())
}

/// Returns whether the value of a message has this text.
fn is_text<'x>(alloc: Global, message: &'x Message<'x>, expected: &str) -> Result<bool, Fail> {
    let value = Value::whole(message, 0);
    let text = format!(in alloc; "{value}")?;
    Ok(text.as_str() == expected)
}

/// Returns a message of these parts.
fn message_of<'x>(
    tables: Tables<'x>,
    names: Names<'x>,
    octets: &'x [u8],
    parts: &'x [Part],
) -> Message<'x> {
    Message {
        tables,
        names,
        octets,
        parts,
    }
}

#[test]
fn a_value_is_written_on_one_line(rt: HostRuntime) -> Result<(), Fail> {
    let alloc = rt.alloc();
    let (whole, open) = (PARTS, OPEN);
    let none: [u8; 0] = [];
    let (nodes, members, spans, text) = (NODES, MEMBERS, NAMES, TEXT);
    let ranges = [Range {
        first: 97,
        last: 122,
    }];
    let unnamed: [NameSpan; 0] = [];
    let tables = Tables {
        nodes: &nodes,
        members: &members,
        ranges: &ranges,
    };
    let names = Names {
        text: &text,
        nodes: &unnamed,
        members: &spans,
    };
    let message = message_of(tables, names, &none, &whole);
    let expected = "{a TRUE, list {y : FALSE}, added TRUE}";
    assert!(rt; is_text(alloc, &message, expected)?);
    // The parts end before the value does.
    let message = message_of(tables, names, &none, &open);
    assert!(rt; is_text(alloc, &message, "{a TRUE, list {x : NULL")?);
    let cut = whole.get(..2).ok_or("too few parts")?;
    let message = message_of(tables, names, &none, cut);
    assert!(rt; is_text(alloc, &message, "{a TRUE")?);
    let absent = [
        Part::Sequence {
            count: 2,
            is_extended: false,
        },
        Part::Absent,
        Part::Count(0),
    ];
    let message = message_of(tables, names, &none, &absent);
    assert!(rt; is_text(alloc, &message, "{list {}}")?);
    Ok(())
}

#[test]
fn values_of_one_part_are_written(rt: HostRuntime) -> Result<(), Fail> {
    let alloc = rt.alloc();
    // 2A 86 48 are the octets of an identifier, FF of -1, and 80 with fifteen zeros of -2^127.
    let mut octets = [0u8; 21];
    octets[..6].copy_from_slice(&[0x2A, 0x86, 0x48, 0xFF, 0xC3, 0x80]);
    let (nodes, members, spans, text) = (NODES, MEMBERS, NAMES, TEXT);
    let ranges = [Range {
        first: 97,
        last: 122,
    }];
    let unnamed: [NameSpan; 0] = [];
    let tables = Tables {
        nodes: &nodes,
        members: &members,
        ranges: &ranges,
    };
    let names = Names {
        text: &text,
        nodes: &unnamed,
        members: &spans,
    };
    let span = |at, count| Span { at, count };
    let codes = Characters {
        at: 0,
        count: 2,
        width: 4,
        codes: Codes::Indices(Rows { from: 0, count: 1 }),
    };
    let numbers = Characters {
        at: 1,
        count: 1,
        width: 7,
        codes: Codes::Numbers,
    };
    let rows = [
        (Part::Integer(-5), "-5"),
        (Part::Signed(span(24, 8)), "-1"),
        (Part::Signed(span(0, 16)), "10886"),
        (
            Part::Signed(span(40, 128)),
            "-170141183460469231731687303715884105728",
        ),
        (
            Part::Above {
                least: 3,
                at: 0,
                count: 8,
            },
            "45",
        ),
        (Part::Enumerated(2), "2"),
        (Part::Bits(span(33, 3)), "'100'B"),
        (Part::Octets(span(4, 16)), "'A864'H"),
        (Part::Text(codes), "\"ck\""),
        (Part::Text(numbers), "\"*\""),
        (Part::UnknownEnumerated(Natural::Small(7)), "unknown 7"),
        (Part::Octets(span(400, 8)), "''H"),
    ];
    for (part, expected) in rows.iter() {
        let parts = [*part];
        let message = message_of(tables, names, &octets, &parts);
        assert!(rt; is_text(alloc, &message, expected)?);
    }
    Ok(())
}

/// Returns whether the first fault of tables with the first `nodes` types and `members` members has
/// this text.
fn has_fault(alloc: Global, nodes: usize, members: usize, expected: &str) -> Result<bool, Fail> {
    let (all_nodes, all_members) = (NODES, MEMBERS);
    let ranges: [Range; 0] = [];
    let tables = Tables {
        nodes: all_nodes.get(..nodes).ok_or("too few types")?,
        members: all_members.get(..members).ok_or("too few members")?,
        ranges: &ranges,
    };
    match check(&tables) {
        Ok(()) => Ok(expected.is_empty()),
        Err(fault) => {
            let text = format!(in alloc; "{fault}")?;
            Ok(text.as_str() == expected)
        }
    }
}

#[test]
fn a_fault_of_tables_has_a_text(rt: HostRuntime) -> Result<(), Fail> {
    let alloc = rt.alloc();
    assert!(rt; has_fault(alloc, 5, 5, "")?);
    assert!(rt;
        has_fault(
            alloc,
            5,
            1,
            "type 0: the rows of its components exceed the table"
        )?
    );
    assert!(rt;
        has_fault(
            alloc,
            5,
            2,
            "type 0: the rows of its additions exceed the table"
        )?
    );
    assert!(rt;
        has_fault(
            alloc,
            5,
            4,
            "type 3: the rows of its alternatives exceed the table"
        )?
    );
    assert!(rt;
        has_fault(
            alloc,
            3,
            5,
            "type 2: it names a type that the tables do not have"
        )?
    );
    assert!(rt;
        has_fault(
            alloc,
            4,
            5,
            "member 3: it names a type that the tables do not have"
        )?
    );
    Ok(())
}

#[test]
fn the_alphabet_of_a_string_is_checked(rt: HostRuntime) -> Result<(), Fail> {
    let members: [Member; 0] = [];
    let ranges = [
        Range {
            first: 48,
            last: 57,
        },
        Range {
            first: 65,
            last: 90,
        },
        Range {
            first: 48,
            last: 48,
        },
        Range {
            first: 91,
            last: 91,
        },
    ];
    let whole = Rows { from: 0, count: 2 };
    let expected = [
        (0, 2, None),
        (2, 1, None),
        (3, 1, Some(NodeFault::NotWithin)),
        (1, 2, Some(NodeFault::NotAscending)),
        (0, 0, Some(NodeFault::NoRange)),
        (3, 2, Some(NodeFault::Alphabet)),
    ];
    for (from, count, fault) in expected {
        let nodes = [Node::Text {
            length: Length::AtLeast { least: 0 },
            is_extensible: false,
            alphabet: Rows { from, count },
            whole,
        }];
        let tables = Tables {
            nodes: &nodes,
            members: &members,
            ranges: &ranges,
        };
        let found = match check(&tables) {
            Err(TableFault::Type { row: 0, fault }) => Some(fault),
            _ => None,
        };
        assert!(rt; found == fault);
    }
    Ok(())
}
