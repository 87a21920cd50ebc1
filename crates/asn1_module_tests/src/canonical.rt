//! SET OFs that are put in order. The encodings are counted by hand.

use asn1_canonical::{Context, Rules, canonical_order};
use asn1_resolve::Schema;
use asn1_schema::{Part, Span};
use asn1_x690_encode::encode;
use asn1_x691_encode::Defaults;
use std::alloc::Global;
use std::test::Fail;

const TEXT: &str = "M DEFINITIONS AUTOMATIC TAGS ::= BEGIN
Names ::= SEQUENCE { names SEQUENCE OF SET OF C, more SET OF SET OF INTEGER OPTIONAL, ..., a SET OF T, [[ g SET OF T ]] }
C ::= CHOICE { n INTEGER, t T, ..., s SET OF T }
T ::= OCTET STRING
END";

/// Four octets strings of one octet: 4, 3, 2, 1.
const SOURCE: [u8; 4] = [4, 3, 2, 1];

/// Returns the part of an octet string.
fn octet(index: usize) -> Part {
    Part::Octets(Span {
        at: (index % 4) * 8,
        count: 8,
    })
}

/// Puts the parts of a value in order by DER, and returns its element and where the parts were. `None` if there
/// is none.
fn ordered(alloc: Global, parts: &mut [Part]) -> Result<Option<(Vec<u8>, Vec<usize>)>, Fail> {
    let schema = Schema::parse(alloc, TEXT)?;
    let node = schema.node_named("Names").ok_or("no type")?;
    let context = Context {
        tables: schema.tables(),
        tags: schema.tag_tables(),
        rules: Rules::Der,
        source: &SOURCE,
    };
    let order = canonical_order(alloc, &context, 20, node, parts)?;
    if parts.len() > 1_000 {
        return Ok(None);
    }
    let value = asn1_x690_encode::Context {
        tables: schema.tables(),
        tags: schema.tag_tables(),
        defaults: Defaults {
            octets: &[],
            spans: &[],
        },
        parts,
        source: &SOURCE,
        is_ordered: true,
        lengths: &[],
    };
    let mut octets = vec![in alloc; 0u8; 200]?;
    match encode(&value, 20, node, octets.as_mut_slice()) {
        Ok(encoded) => {
            octets.truncate(encoded.octets);
            Ok(Some((octets, order)))
        }
        Err(_) => Ok(None),
    }
}

/// X.690 11.6: items are in ascending order of their octets, in lists, inside other SET OFs, in additions and in
/// an addition group.
#[test]
fn sets_are_put_in_order_at_any_depth(rt: HostRuntime) -> Result<(), Fail> {
    let mut parts = [
        Part::Sequence {
            count: 2,
            is_extended: true,
        },
        Part::Count(1),
        Part::Count(3),
        Part::Chosen(2),
        Part::Count(2),
        octet(0),
        octet(3),
        Part::Chosen(1),
        octet(2),
        Part::Chosen(0),
        Part::Integer(9),
        Part::Count(2),
        Part::Count(2),
        Part::Integer(8),
        Part::Integer(7),
        Part::Count(1),
        Part::Integer(1000),
        Part::Additions(2),
        Part::Count(2),
        octet(1),
        octet(2),
        Part::Sequence {
            count: 1,
            is_extended: false,
        },
        Part::Count(2),
        octet(0),
        octet(1),
    ];
    let Some((octets, order)) = ordered(rt.alloc(), &mut parts)? else {
        return Err(Fail::from("no element"));
    };
    let expected = [
        0x30, 0x32, // Names
        0xA0, 0x10, 0x31, 0x0E, // names, and its item
        0x80, 0x01, 0x09, 0x81, 0x01, 0x02, // n and t
        0xA2, 0x06, 0x04, 0x01, 0x01, 0x04, 0x01, 0x04, // s
        0xA1, 0x0E, 0x31, 0x04, 0x02, 0x02, 0x03, 0xE8, // more, and its first item
        0x31, 0x06, 0x02, 0x01, 0x07, 0x02, 0x01, 0x08, // its second item
        0xA2, 0x06, 0x04, 0x01, 0x02, 0x04, 0x01, 0x03, // a
        0xA3, 0x06, 0x04, 0x01, 0x03, 0x04, 0x01, 0x04, // g
    ];
    let expected = expected.as_slice();
    assert!(rt; octets.as_slice() == expected);
    let expected = [
        0, 1, 2, 9, 10, 7, 8, 3, 4, 6, 5, 11, 15, 16, 12, 14, 13, 17, 18, 20, 19, 21, 22, 24, 23,
    ];
    assert!(rt; order.as_slice() == expected.as_slice());
    Ok(())
}

/// An item that has no encoding is after the others.
#[test]
fn items_without_an_encoding_are_last(rt: HostRuntime) -> Result<(), Fail> {
    let mut parts = [
        Part::Sequence {
            count: 2,
            is_extended: false,
        },
        Part::Count(0),
        Part::Count(1),
        Part::Count(3),
        Part::Null,
        Part::Integer(2),
        Part::Integer(1),
    ];
    assert!(rt; ordered(rt.alloc(), &mut parts)?.is_none());
    let (_, rest) = parts.split_at(4);
    assert!(rt; rest == [Part::Integer(1), Part::Integer(2), Part::Null].as_slice());
    Ok(())
}

/// X.691 22.1, 13: 1, 2 and 3 of INTEGER (0..7), three bits each.
#[test]
fn sets_are_put_in_order_by_per(rt: HostRuntime) -> Result<(), Fail> {
    let alloc = rt.alloc();
    let text = "M DEFINITIONS ::= BEGIN Small ::= SET OF INTEGER (0..7) END";
    let schema = Schema::parse(alloc, text)?;
    let node = schema.node_named("Small").ok_or("no type")?;
    for rules in [Rules::UnalignedPer, Rules::AlignedPer] {
        let context = Context {
            tables: schema.tables(),
            tags: schema.tag_tables(),
            rules,
            source: &[],
        };
        let mut parts = [
            Part::Count(3),
            Part::Integer(3),
            Part::Integer(1),
            Part::Integer(2),
        ];
        let order = canonical_order(alloc, &context, 5, node, &mut parts)?;
        assert!(rt; order.as_slice() == [0, 2, 3, 1].as_slice());
        let expected = [
            Part::Count(3),
            Part::Integer(1),
            Part::Integer(2),
            Part::Integer(3),
        ];
        assert!(rt; parts.as_slice() == expected.as_slice());
    }
    Ok(())
}
