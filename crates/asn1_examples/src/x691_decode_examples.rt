//! The examples of `asn1_x691_decode`.

use asn1_resolve::Schema;
use asn1_schema::Part;
use asn1_x691_decode::{Context, Defaults, decode};
use std::test::Fail;

/// The example of `decode`.
#[test]
fn decode_example(rt: HostRuntime) -> Result<(), Fail> {
    let text = "M DEFINITIONS ::= BEGIN Age ::= INTEGER (0..127) END";
    let schema = Schema::parse(rt.alloc(), text)?;
    let context = Context {
        tables: schema.tables(),
        defaults: Defaults {
            octets: &[],
            spans: &[],
        },
        octets: &[0b0011_1100],
        is_aligned: false,
    };
    let mut parts = [Part::Absent; 4];
    let node = schema.node_named("Age").unwrap_or(0);
    let count = decode(&context, 10, node, &mut parts)?;
    assert!(rt; count == 1);
    Ok(())
}
