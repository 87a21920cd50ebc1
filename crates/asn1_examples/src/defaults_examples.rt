//! The examples of `asn1_defaults`.

use asn1_defaults::{DefaultEncodings, Rules};
use asn1_resolve::Schema;
use std::test::Fail;

/// The example of `DefaultEncodings::new`.
#[test]
fn default_encodings_new_example(rt: HostRuntime) -> Result<(), Fail> {
    let text = "M DEFINITIONS ::= BEGIN S ::= SEQUENCE { a BOOLEAN DEFAULT TRUE } END";
    let schema = Schema::parse(rt.alloc(), text)?;
    let node = schema.node_named("S").unwrap_or(0);
    let encodings = DefaultEncodings::new(rt.alloc(), &schema, node, Rules::Der)?;
    assert!(rt; encodings.defaults().octets == [1, 1, 0xFF].as_slice());
    Ok(())
}
