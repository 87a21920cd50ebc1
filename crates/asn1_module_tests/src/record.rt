//! The record of X.691 A.2, built by names. Its encodings are those of `modules/messages`.

ghost use Rattle.std.specs.Prelude.{◌*◌, ◌-◌, ◌^◌, ◌<◌, length, IfOk};

use asn1_builder::{BuildError, Builder, Built};
use asn1_resolve::Schema;
use asn1_schema::Span;
use asn1_x690_encode as der;
use asn1_x691_encode as per;
use std::alloc::Global;
use std::test::Fail;

/// The module of the record.
const TEXT: &str = "Personnel DEFINITIONS AUTOMATIC TAGS ::= BEGIN
PersonnelRecord ::= [APPLICATION 0] IMPLICIT SET {
    name Name,
    title [0] VisibleString,
    number EmployeeNumber,
    dateOfHire [1] Date,
    nameOfSpouse [2] Name,
    children [3] IMPLICIT SEQUENCE OF ChildInformation DEFAULT {}
}
ChildInformation ::= SET { name Name, dateOfBirth [0] Date }
Name ::= [APPLICATION 1] IMPLICIT SEQUENCE {
    givenName NameString,
    initial NameString (SIZE (1)),
    familyName NameString
}
EmployeeNumber ::= [APPLICATION 2] IMPLICIT INTEGER
Date ::= [APPLICATION 3] IMPLICIT VisibleString (FROM (\"0\"..\"9\") ^ SIZE (8))
NameString ::= VisibleString (FROM (\"a\"..\"z\" | \"A\"..\"Z\" | \"-.\") ^ SIZE (1..64))
END";

const DER: &str =
    "607B611080044A6F686E8101508205536D69746842013380084469726563746F7281083139373130393137A21080044D6172798101548205536D697468A33E311D6111800552616C70688101548205536D69746880083139353731313131311D61118005537573616E81014282054A6F6E657380083139353930373137";

const UNALIGNED: &str =
    "865D51D2888A5125F180998444D3CB2E3E9BF90CB8848B867396E8A88A5125F181089B93D71AA2294497C632AE222222985CE521885D54C170CAC838B8";

const ALIGNED: &str =
    "864A6F686E5010536D6974680133084469726563746F72197109170C4D6172795410536D697468021052616C70685410536D6974681957111110537573616E42104A6F6E657319590717";

/// Builds a name.
fn build_name(
    builder: &mut Builder<'_>,
    given: &str,
    initial: &str,
    family: &str,
) -> Result<(), BuildError> {
    builder.begin()?;
    builder.component("givenName")?;
    builder.text(given)?;
    builder.component("initial")?;
    builder.text(initial)?;
    builder.component("familyName")?;
    builder.text(family)?;
    builder.end()
}

/// Builds a child.
fn build_child(
    builder: &mut Builder<'_>,
    given: &str,
    initial: &str,
    family: &str,
    date: &str,
) -> Result<(), BuildError> {
    builder.begin()?;
    builder.component("name")?;
    build_name(builder, given, initial, family)?;
    builder.component("dateOfBirth")?;
    builder.text(date)?;
    builder.end()
}

/// Builds the record.
fn build_record(alloc: Global, schema: &Schema, node: usize) -> Result<Built, BuildError>
    ensures { IfOk result (λ v. (8 * length v.octets.items < 2 ^ 64)
        × (length v.parts.items < 2 ^ 64 - 1)) }
{
    let mut builder = Builder::new(alloc, schema.tables(), schema.names(), node);
    builder.begin()?;
    builder.component("name")?;
    build_name(&mut builder, "John", "P", "Smith")?;
    builder.component("number")?;
    builder.integer(51)?;
    builder.component("title")?;
    builder.text("Director")?;
    builder.component("dateOfHire")?;
    builder.text("19710917")?;
    builder.component("nameOfSpouse")?;
    build_name(&mut builder, "Mary", "T", "Smith")?;
    builder.component("children")?;
    builder.begin()?;
    build_child(&mut builder, "Ralph", "T", "Smith", "19571111")?;
    build_child(&mut builder, "Susan", "B", "Jones", "19590717")?;
    builder.end()?;
    builder.end()?;
    builder.finish()
}

/// Returns whether octets are those of hexadecimal digits.
fn is_hex(alloc: Global, octets: &[u8], count: usize, digits: &str) -> Result<bool, Fail> {
    let mut text = String::new(alloc);
    for octet in octets.get(..count).ok_or("too little room")? {
        write!(text, "{octet:02X}")?;
    }
    Ok(text.as_str() == digits)
}

/// Returns the schema of the record, and its node.
fn schema_of(alloc: Global) -> Result<(Schema, usize), Fail> {
    match Schema::parse(alloc, TEXT) {
        Ok(schema) => {
            let node = schema.node_named("PersonnelRecord").ok_or("no such type")?;
            Ok((schema, node))
        }
        Err(_) => Err(Fail::from("no schema")),
    }
}

#[test]
fn the_record_is_encoded_by_der(rt: HostRuntime) -> Result<(), Fail> {
    let alloc = rt.alloc();
    let (schema, node) = schema_of(alloc)?;
    let record = build_record(alloc, &schema, node)?;
    let spans: [Span; 0] = [];
    let context = der::Context {
        tables: schema.tables(),
        tags: schema.tag_tables(),
        defaults: per::Defaults {
            octets: &[],
            spans: &spans,
        },
        parts: record.parts.as_slice(),
        source: record.octets.as_slice(),
        is_ordered: true,
        lengths: &[],
    };
    let mut octets = [0u8; 200];
    let encoded = der::encode(&context, 8, node, &mut octets)?;
    assert!(rt; encoded.parts == record.parts.len());
    assert!(rt; is_hex(alloc, &octets, encoded.octets, DER)?);
    Ok(())
}

#[test]
fn the_record_is_encoded_by_per(rt: HostRuntime) -> Result<(), Fail> {
    let alloc = rt.alloc();
    let (schema, node) = schema_of(alloc)?;
    let record = build_record(alloc, &schema, node)?;
    let spans: [Span; 0] = [];
    for (is_aligned, expected) in [(false, UNALIGNED), (true, ALIGNED)] {
        let context = per::Context {
            tables: schema.tables(),
            defaults: per::Defaults {
                octets: &[],
                spans: &spans,
            },
            parts: record.parts.as_slice(),
            source: record.octets.as_slice(),
            is_aligned,
        };
        let mut octets = [0u8; 200];
        let encoded = per::encode(&context, 8, node, &mut octets)?;
        assert!(rt; encoded.parts == record.parts.len());
        assert!(rt; is_hex(alloc, &octets, encoded.octets, expected)?);
    }
    Ok(())
}
