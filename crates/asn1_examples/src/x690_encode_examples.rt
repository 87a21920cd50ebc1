//! The examples of `asn1_x690_encode`.

use asn1_resolve::Schema;
use asn1_schema::{Part, Span};
use asn1_x690_encode::{Context, encode, measure};
use asn1_x691_fields::Defaults;
use std::cell::Cell;
use std::test::Fail;

/// The example of `encode`.
#[test]
fn encode_example(rt: HostRuntime) -> Result<(), Fail> {
    let text = "M DEFINITIONS ::= BEGIN Yes ::= BOOLEAN END";
    let schema = Schema::parse(rt.alloc(), text)?;
    let context = Context {
        tables: schema.tables(),
        tags: schema.tag_tables(),
        defaults: Defaults {
            octets: &[],
            spans: &[],
        },
        parts: &[Part::Truth(true)],
        source: &[],
        is_ordered: true,
        lengths: &[],
    };
    let mut octets = [0; 8];
    let node = schema.node_named("Yes").unwrap_or(0);
    let encoded = encode(&context, 10, node, &mut octets)?;
    assert!(rt; octets.get(..encoded.octets) == Some([1, 1, 0xFF].as_slice()));
    Ok(())
}

/// The example of `measure`.
#[test]
fn measure_example(rt: HostRuntime) -> Result<(), Fail> {
    let text = "M DEFINITIONS ::= BEGIN Text ::= OCTET STRING END";
    let schema = Schema::parse(rt.alloc(), text)?;
    let source = [7u8; 200];
    let lengths = [Cell::new(0)];
    let context = Context {
        tables: schema.tables(),
        tags: schema.tag_tables(),
        defaults: Defaults {
            octets: &[],
            spans: &[],
        },
        parts: &[Part::Octets(Span { at: 0, count: 1600 })],
        source: &source,
        is_ordered: true,
        lengths: &lengths,
    };
    let node = schema.node_named("Text").unwrap_or(0);
    assert!(rt; measure(&context, 10, node)?.octets == 203);
    assert!(rt; lengths[0].get() == 2);
    let mut octets = [0; 203];
    encode(&context, 10, node, &mut octets)?;
    assert!(rt; octets.get(..4) == Some([4, 0x81, 200, 7].as_slice()));
    Ok(())
}
