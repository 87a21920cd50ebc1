//! The examples of `asn1_resolve`.

use asn1_resolve::Schema;
use std::test::Fail;

/// The example of `Schema::parse`.
#[test]
fn schema_parse_example(rt: HostRuntime) -> Result<(), Fail> {
    let text = "M DEFINITIONS AUTOMATIC TAGS ::= BEGIN Age ::= INTEGER (0..150) END";
    let schema = Schema::parse(rt.alloc(), text)?;
    assert!(rt; schema.node_named("Age").is_some());
    assert!(rt; schema.node_named("Name").is_none());
    Ok(())
}
