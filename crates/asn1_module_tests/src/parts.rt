//! The parts of values that are built by names, and calls that are rejected.

use asn1_builder::{BuildError, Builder};
use asn1_schema::{
    Characters, Codes, Length, Member, Node, Part, Presence, Range, Rows, Span, Tables,
};
use asn1_schema_values::{NameSpan, Names};
use std::alloc::Global;
use std::test::Fail;

const ANY_LENGTH: Length = Length::AtLeast { least: 0 };

/// SEQUENCE { a BOOLEAN, b INTEGER OPTIONAL, c BOOLEAN, ..., d OCTET STRING, e NULL };
/// SEQUENCE OF CHOICE { x NULL, y BOOLEAN, ..., z BOOLEAN };
/// SEQUENCE { t UTF8String, u BIT STRING, v IA5String, w OBJECT IDENTIFIER }.
const NODES: [Node; 12] = [
    Node::Sequence {
        root: Rows { from: 0, count: 3 },
        is_extensible: true,
        additions: Rows { from: 3, count: 2 },
    },
    Node::Boolean,
    Node::Integer,
    Node::OctetString {
        length: ANY_LENGTH,
        is_extensible: false,
    },
    Node::Null,
    Node::SequenceOf {
        length: ANY_LENGTH,
        is_extensible: false,
        item: 6,
    },
    Node::Choice {
        alternatives: Rows { from: 5, count: 2 },
        is_extensible: true,
        additions: Rows { from: 7, count: 1 },
    },
    Node::Sequence {
        root: Rows { from: 8, count: 4 },
        is_extensible: false,
        additions: Rows { from: 12, count: 0 },
    },
    Node::Utf8String,
    Node::BitString {
        length: ANY_LENGTH,
        is_extensible: false,
        has_names: false,
    },
    Node::Text {
        length: ANY_LENGTH,
        is_extensible: false,
        alphabet: Rows { from: 0, count: 1 },
        whole: Rows { from: 0, count: 1 },
    },
    Node::ObjectIdentifier,
];

/// The types of the components in their order, of which the second one is OPTIONAL.
const TYPES: [usize; 12] = [1, 2, 1, 3, 4, 4, 1, 1, 8, 9, 10, 11];

const TEXT: [u8; 12] = *b"abcdexyztuvw";

const RANGES: [Range; 1] = [Range {
    first: 0,
    last: 127,
}];

/// Returns the members, and their names of one letter each.
fn rows_of(alloc: Global) -> Result<(Vec<Member>, Vec<NameSpan>), Fail> {
    let mut members = Vec::new(alloc);
    let mut names = Vec::new(alloc);
    for (from, node) in TYPES.iter().enumerate() {
        let presence = if from == 1 {
            Presence::Optional
        } else {
            Presence::Mandatory
        };
        members.push(Member {
            node: *node,
            presence,
        })?;
        names.push(NameSpan { from, count: 1 })?;
    }
    Ok((members, names))
}

/// Returns a builder of a value of the type at a node.
fn builder_of<'s>(
    alloc: Global,
    nodes: &'s [Node],
    ranges: &'s [Range],
    text: &'s [u8],
    rows: &'s (Vec<Member>, Vec<NameSpan>),
    node: usize,
) -> Builder<'s> {
    let tables = Tables {
        nodes,
        members: rows.0.as_slice(),
        ranges,
    };
    let names = Names {
        text,
        nodes: &[],
        members: rows.1.as_slice(),
    };
    Builder::new(alloc, tables, names, node)
}

#[test]
fn what_is_passed_over_is_absent(rt: HostRuntime) -> Result<(), Fail> {
    let (nodes, ranges, text) = (NODES, RANGES, TEXT);
    let rows = rows_of(rt.alloc())?;
    let mut builder = builder_of(rt.alloc(), &nodes, &ranges, &text, &rows, 0);
    builder.begin()?;
    builder.component("a")?;
    builder.boolean(true)?;
    builder.component("c")?;
    builder.boolean(false)?;
    builder.component("e")?;
    builder.null()?;
    builder.end()?;
    let built = builder.finish()?;
    let expected = [
        Part::Sequence {
            count: 3,
            is_extended: true,
        },
        Part::Truth(true),
        Part::Absent,
        Part::Truth(false),
        Part::Additions(2),
        Part::Absent,
        Part::Null,
    ];
    assert!(rt; built.parts.as_slice() == expected.as_slice());
    Ok(())
}

#[test]
fn components_are_told_by_their_index(rt: HostRuntime) -> Result<(), Fail> {
    let (nodes, ranges, text) = (NODES, RANGES, TEXT);
    let rows = rows_of(rt.alloc())?;
    let mut builder = builder_of(rt.alloc(), &nodes, &ranges, &text, &rows, 0);
    builder.begin()?;
    builder.component_at(0)?;
    builder.boolean(false)?;
    builder.component_at(2)?;
    builder.boolean(true)?;
    assert!(rt; builder.component_at(5) == Err(BuildError::NoComponent));
    assert!(rt; builder.component_at(1) == Err(BuildError::Passed));
    builder.component_at(3)?;
    builder.octets(&[1, 2])?;
    builder.end()?;
    let built = builder.finish()?;
    let expected = [
        Part::Sequence {
            count: 3,
            is_extended: true,
        },
        Part::Truth(false),
        Part::Absent,
        Part::Truth(true),
        Part::Additions(2),
        Part::Octets(Span { at: 0, count: 16 }),
        Part::Absent,
    ];
    assert!(rt; built.parts.as_slice() == expected.as_slice());
    Ok(())
}

#[test]
fn alternatives_are_items(rt: HostRuntime) -> Result<(), Fail> {
    let (nodes, ranges, text) = (NODES, RANGES, TEXT);
    let rows = rows_of(rt.alloc())?;
    let mut builder = builder_of(rt.alloc(), &nodes, &ranges, &text, &rows, 5);
    builder.begin()?;
    builder.alternative("y")?;
    assert!(rt; builder.end() == Err(BuildError::Unfinished));
    builder.boolean(true)?;
    builder.alternative("x")?;
    builder.null()?;
    builder.alternative("z")?;
    builder.boolean(true)?;
    builder.end()?;
    let built = builder.finish()?;
    let expected = [
        Part::Count(3),
        Part::Chosen(1),
        Part::Truth(true),
        Part::Chosen(0),
        Part::Null,
        Part::Chosen(2),
        Part::Truth(true),
    ];
    assert!(rt; built.parts.as_slice() == expected.as_slice());
    Ok(())
}

#[test]
fn strings_have_octets_of_their_own(rt: HostRuntime) -> Result<(), Fail> {
    let (nodes, ranges, text) = (NODES, RANGES, TEXT);
    let rows = rows_of(rt.alloc())?;
    let mut builder = builder_of(rt.alloc(), &nodes, &ranges, &text, &rows, 7);
    builder.begin()?;
    builder.component("t")?;
    builder.text("\u{e9}")?;
    builder.component("u")?;
    assert!(rt; builder.bits(&[0xA0], 9) == Err(BuildError::TooShort));
    builder.bits(&[0xA0], 3)?;
    builder.component("v")?;
    builder.text("AB")?;
    builder.component("w")?;
    builder.object_identifier(&[0x2A, 0x03])?;
    builder.end()?;
    let built = builder.finish()?;
    let expected = [
        Part::Sequence {
            count: 4,
            is_extended: false,
        },
        Part::Octets(Span { at: 0, count: 16 }),
        Part::Bits(Span { at: 16, count: 3 }),
        Part::Text(Characters {
            at: 24,
            count: 2,
            width: 32,
            codes: Codes::Numbers,
        }),
        Part::Octets(Span { at: 88, count: 16 }),
    ];
    let octets = [0xC3, 0xA9, 0xA0, 0, 0, 0, 0x41, 0, 0, 0, 0x42, 0x2A, 0x03];
    assert!(rt; built.parts.as_slice() == expected.as_slice());
    assert!(rt; built.octets.as_slice() == octets.as_slice());
    Ok(())
}

#[test]
fn wrong_calls_are_rejected(rt: HostRuntime) -> Result<(), Fail> {
    let (nodes, ranges, text) = (NODES, RANGES, TEXT);
    let rows = rows_of(rt.alloc())?;
    let mut builder = builder_of(rt.alloc(), &nodes, &ranges, &text, &rows, 0);
    assert!(rt; builder.boolean(true) == Err(BuildError::OtherType));
    assert!(rt; builder.component("a") == Err(BuildError::NoSequence));
    assert!(rt; builder.end() == Err(BuildError::NotBegun));
    builder.begin()?;
    assert!(rt; builder.boolean(true) == Err(BuildError::NoValue));
    assert!(rt; builder.component("f") == Err(BuildError::NoComponent));
    assert!(rt; builder.component("b") == Err(BuildError::Mandatory));
    assert!(rt; builder.component("d") == Err(BuildError::Mandatory));
    assert!(rt; builder.end() == Err(BuildError::Mandatory));
    builder.component("a")?;
    assert!(rt; builder.component("b") == Err(BuildError::Unfinished));
    assert!(rt; builder.end() == Err(BuildError::Unfinished));
    assert!(rt; builder.alternative("x") == Err(BuildError::OtherType));
    builder.boolean(true)?;
    builder.component("c")?;
    builder.boolean(true)?;
    assert!(rt; builder.component("b") == Err(BuildError::Passed));
    assert!(rt; builder.finish().is_err());
    Ok(())
}
