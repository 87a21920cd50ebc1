//! Values that are built and encoded by PER and DER. The encodings are counted by hand.

ghost use Rattle.std.specs.Prelude.{◌*◌, ◌-◌, ◌^◌, ◌<◌, length};

use asn1_builder::{Builder, Built};
use asn1_resolve::Schema;
use asn1_x690_encode as der;
use asn1_x691_encode::{Context, Defaults, encode};
use std::alloc::Global;
use std::test::Fail;

/// A SEQUENCE with additions, a CHOICE with one, and a list.
const TEXT: &str = "M DEFINITIONS AUTOMATIC TAGS ::= BEGIN
S ::= SEQUENCE { a BOOLEAN, b INTEGER (0..7) OPTIONAL, c BOOLEAN, ..., d OCTET STRING, e NULL }
C ::= CHOICE { x NULL, y BOOLEAN, ..., z BOOLEAN }
L ::= SEQUENCE (SIZE (0..3)) OF C
G ::= SEQUENCE { a BOOLEAN, ..., [[ g BOOLEAN, h NULL OPTIONAL ]] }
T ::= SEQUENCE { t UTF8String, u BIT STRING, i OBJECT IDENTIFIER }
END";

/// Returns the schema of the text, and the node of a type.
fn schema_of(alloc: Global, name: &str) -> Result<(Schema, usize), Fail> {
    match Schema::parse(alloc, TEXT) {
        Ok(schema) => {
            let node = schema.node_named(name).ok_or("no such type")?;
            Ok((schema, node))
        }
        Err(_) => Err(Fail::from("no schema")),
    }
}

/// Returns whether a value has this encoding in the UNALIGNED variant.
fn is_encoded<'x>(
    schema: &'x Schema,
    node: usize,
    built: &'x Built,
    expected: &[u8],
) -> Result<bool, Fail>
    requires octets { 8 * length built.now.octets.items < 2 ^ 64 }
    requires parts { length built.now.parts.items < 2 ^ 64 - 1 }
{
    let context = Context {
        tables: schema.tables(),
        defaults: Defaults {
            octets: &[],
            spans: &[],
        },
        parts: built.parts.as_slice(),
        source: built.octets.as_slice(),
        is_aligned: false,
    };
    let mut octets = [0u8; 40];
    let encoded = encode(&context, 8, node, &mut octets)?;
    Ok(octets.get(..encoded.octets) == Some(expected))
}

/// Returns whether a value has this encoding in DER.
fn is_encoded_in_der<'x>(
    schema: &'x Schema,
    node: usize,
    built: &'x Built,
    expected: &[u8],
) -> Result<bool, Fail>
    requires octets { 8 * length built.now.octets.items < 2 ^ 64 }
    requires parts { length built.now.parts.items < 2 ^ 64 - 1 }
{
    let context = der::Context {
        tables: schema.tables(),
        tags: schema.tag_tables(),
        defaults: Defaults {
            octets: &[],
            spans: &[],
        },
        parts: built.parts.as_slice(),
        source: built.octets.as_slice(),
        is_ordered: true,
        lengths: &[],
    };
    let mut octets = [0u8; 40];
    let encoded = der::encode(&context, 8, node, &mut octets)?;
    Ok(octets.get(..encoded.octets) == Some(expected))
}

#[test]
fn components_that_are_passed_over_are_absent(rt: HostRuntime) -> Result<(), Fail> {
    let (schema, node) = schema_of(rt.alloc(), "S")?;
    let mut builder = Builder::new(rt.alloc(), schema.tables(), schema.names(), node);
    builder.begin()?;
    builder.component("a")?;
    builder.boolean(true)?;
    builder.component("c")?;
    builder.boolean(false)?;
    builder.end()?;
    let built = builder.finish()?;
    // No addition, b is absent, a is true, c is false.
    assert!(rt; is_encoded(&schema, node, &built, &[0x20])?);
    Ok(())
}

#[test]
fn an_addition_follows_the_root(rt: HostRuntime) -> Result<(), Fail> {
    let (schema, node) = schema_of(rt.alloc(), "S")?;
    let mut builder = Builder::new(rt.alloc(), schema.tables(), schema.names(), node);
    builder.begin()?;
    builder.component("a")?;
    builder.boolean(true)?;
    builder.component("b")?;
    builder.integer(5)?;
    builder.component("c")?;
    builder.boolean(true)?;
    builder.component("e")?;
    builder.null()?;
    builder.end()?;
    let built = builder.finish()?;
    // 1, 1, 1, 101, 1; two additions: 0 000001, 01; an octet of zeros.
    assert!(rt; is_encoded(&schema, node, &built, &[0xF6, 0x05, 0x01, 0x00])?);
    Ok(())
}

#[test]
fn an_addition_group_has_no_name(rt: HostRuntime) -> Result<(), Fail> {
    let (schema, node) = schema_of(rt.alloc(), "G")?;
    let mut builder = Builder::new(rt.alloc(), schema.tables(), schema.names(), node);
    builder.begin()?;
    builder.component("a")?;
    builder.boolean(true)?;
    builder.component_at(1)?;
    builder.begin()?;
    builder.component("g")?;
    builder.boolean(true)?;
    builder.end()?;
    builder.end()?;
    let built = builder.finish()?;
    // 1, 1; one addition: 0 000000, 1; an octet: h is absent, g is true.
    assert!(rt; is_encoded(&schema, node, &built, &[0xC0, 0x40, 0x50, 0x00])?);
    // In DER g is a component of the SEQUENCE itself, after a: [0] and [1].
    assert!(rt;
        is_encoded_in_der(
            &schema,
            node,
            &built,
            &[0x30, 0x06, 0x80, 0x01, 0xFF, 0x81, 0x01, 0xFF]
        )?
    );
    Ok(())
}

#[test]
fn alternatives_are_items(rt: HostRuntime) -> Result<(), Fail> {
    let (schema, node) = schema_of(rt.alloc(), "L")?;
    let mut builder = Builder::new(rt.alloc(), schema.tables(), schema.names(), node);
    builder.begin()?;
    builder.alternative("y")?;
    builder.boolean(true)?;
    builder.alternative("x")?;
    builder.null()?;
    builder.alternative("z")?;
    builder.boolean(true)?;
    builder.end()?;
    let built = builder.finish()?;
    // 11; 0 1 1; 0 0; 1 0 000000, one octet: 10000000.
    assert!(rt; is_encoded(&schema, node, &built, &[0xD9, 0x00, 0x03, 0x00])?);
    Ok(())
}

#[test]
fn strings_have_octets_of_their_own(rt: HostRuntime) -> Result<(), Fail> {
    let (schema, node) = schema_of(rt.alloc(), "T")?;
    let mut builder = Builder::new(rt.alloc(), schema.tables(), schema.names(), node);
    builder.begin()?;
    builder.component("t")?;
    builder.text("\u{e9}")?;
    builder.component("u")?;
    builder.bits(&[0xA0], 3)?;
    builder.component("i")?;
    builder.object_identifier(&[0x2A, 0x03])?;
    builder.end()?;
    let built = builder.finish()?;
    // 02 C3 A9; 03, 101; 02 2A 03, after three bits.
    assert!(rt;
        is_encoded(
            &schema,
            node,
            &built,
            &[0x02, 0xC3, 0xA9, 0x03, 0xA0, 0x45, 0x40, 0x60]
        )?
    );
    Ok(())
}
