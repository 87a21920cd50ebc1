//! The examples of `asn1_builder`.

use asn1_builder::Builder;
use asn1_resolve::Schema;
use asn1_schema::Part;
use std::test::Fail;

/// The example of `Builder`.
#[test]
fn builder_example(rt: HostRuntime) -> Result<(), Fail> {
    let text = "M DEFINITIONS ::= BEGIN Both ::= SEQUENCE { a BOOLEAN, b BOOLEAN } END";
    let schema = Schema::parse(rt.alloc(), text)?;
    let node = schema.node_named("Both").unwrap_or(0);
    let mut builder = Builder::new(rt.alloc(), schema.tables(), schema.names(), node);
    builder.begin()?;
    builder.component("a")?;
    builder.boolean(true)?;
    builder.component("b")?;
    builder.boolean(false)?;
    builder.end()?;
    let built = builder.finish()?;
    assert!(rt; built.parts.get(1) == Some(&Part::Truth(true)));
    Ok(())
}
