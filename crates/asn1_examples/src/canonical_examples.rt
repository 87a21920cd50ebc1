//! The examples of `asn1_canonical`.

use asn1_canonical::{Context, Rules, canonical_order};
use asn1_resolve::Schema;
use asn1_schema::Part;
use std::test::Fail;

/// The example of `canonical_order`.
#[test]
fn canonical_order_example(rt: HostRuntime) -> Result<(), Fail> {
    let text = "M DEFINITIONS ::= BEGIN Numbers ::= SET OF INTEGER END";
    let schema = Schema::parse(rt.alloc(), text)?;
    let context = Context {
        tables: schema.tables(),
        tags: schema.tag_tables(),
        rules: Rules::Der,
        source: &[],
    };
    let node = schema.node_named("Numbers").unwrap_or(0);
    let mut parts = [Part::Count(2), Part::Integer(7), Part::Integer(5)];
    let order = canonical_order(rt.alloc(), &context, 10, node, &mut parts)?;
    assert!(rt; parts[1] == Part::Integer(5));
    assert!(rt; order.as_slice() == [0, 2, 1].as_slice());
    Ok(())
}
