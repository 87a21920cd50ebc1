//! The examples of `asn1_schema_values`.

use asn1_resolve::Schema;
use asn1_schema::Part;
use asn1_schema_values::{Message, Value};
use std::test::Fail;

/// The example of `Value::get`.
#[test]
fn value_get_example(rt: HostRuntime) -> Result<(), Fail> {
    let text = "M DEFINITIONS ::= BEGIN Both ::= SEQUENCE { a BOOLEAN, b BOOLEAN } END";
    let schema = Schema::parse(rt.alloc(), text)?;
    let both = Part::Sequence {
        count: 2,
        is_extended: false,
    };
    let message = Message {
        tables: schema.tables(),
        names: schema.names(),
        octets: &[],
        parts: &[both, Part::Truth(false), Part::Truth(true)],
    };
    let value = Value::whole(&message, schema.node_named("Both").unwrap_or(0));
    assert!(rt; value.get("b").and_then(|it| it.as_bool()) == Some(true));
    assert!(rt; value.get("c").is_none());
    Ok(())
}
