//! The examples of `asn1_json`.

use asn1_json::{Tree, parse_value, print_value};
use asn1_resolve::Schema;
use asn1_schema::Part;
use json::Scratch;
use std::test::Fail;

/// The example of `parse_value`.
#[test]
fn parse_value_example(rt: HostRuntime) -> Result<(), Fail> {
    let text = "M DEFINITIONS ::= BEGIN Flags ::= SEQUENCE OF BOOLEAN END";
    let schema = Schema::parse(rt.alloc(), text)?;
    let mut scratch = Scratch::new(rt.alloc());
    let tree = Tree::parse(rt.alloc(), "[true, false]", &mut scratch)?;
    let node = schema.node_named("Flags").unwrap_or(0);
    let draft = parse_value(rt.alloc(), &schema, &tree, 10, node)?;
    assert!(rt; draft.parts().get(1) == Some(&Part::Truth(true)));
    Ok(())
}

/// The example of `print_value`.
#[test]
fn print_value_example(rt: HostRuntime) -> Result<(), Fail> {
    let text = "M DEFINITIONS ::= BEGIN Flags ::= SEQUENCE OF BOOLEAN END";
    let schema = Schema::parse(rt.alloc(), text)?;
    let parts = [Part::Count(1), Part::Truth(true)];
    let node = schema.node_named("Flags").unwrap_or(0);
    let json = print_value(rt.alloc(), &schema, &[], &parts, 10, node)?;
    assert!(rt; json.as_slice() == b"[\n  true\n]".as_slice());
    Ok(())
}
