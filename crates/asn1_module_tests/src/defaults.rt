use asn1_defaults::{DefaultEncodings, Rules};
use asn1_resolve::Schema;
use asn1_schema::Span;
use std::test::Fail;

const MODULE: &str = "M DEFINITIONS AUTOMATIC TAGS ::= BEGIN
Record ::= SEQUENCE {
    a INTEGER (0..7) DEFAULT 5,
    b IA5String DEFAULT \"x\"\"y\",
    c ENUMERATED { red, green, blue } DEFAULT blue
}
Tagged ::= SEQUENCE {
    a [7] INTEGER DEFAULT 300,
    b BOOLEAN DEFAULT TRUE,
    c [8] EXPLICIT ENUMERATED { red(3), green(-1) } DEFAULT green
}
Pair ::= SEQUENCE { d SEQUENCE { e NULL, f V } DEFAULT { e NULL, f two } }
V ::= INTEGER { two(2) }
Outer ::= SEQUENCE { o OCTET STRING (CONTAINING Pair), b BIT STRING (CONTAINING Inner) }
Inner ::= SEQUENCE { r REAL DEFAULT -1.5 }
Other ::= SEQUENCE { d TRUTH DEFAULT 5 }
TRUTH ::= BOOLEAN
END
";

/// X.691 11.5.7.1: 5 in three bits. X.691 30: a length octet, and seven bits for each character.
#[test]
fn default_values_are_encoded(rt: HostRuntime) -> Result<(), Fail> {
    let alloc = rt.alloc();
    let schema = Schema::parse(alloc, MODULE)?;
    let node = schema.node_named("Record").ok_or("no type")?;
    let encodings = DefaultEncodings::new(alloc, &schema, node, Rules::UnalignedPer)?;
    let defaults = encodings.defaults();
    let spans = defaults.spans.get(0..3).unwrap_or(&[]);
    assert!(rt; defaults.spans.len() == 9);
    let [first, second, third] = spans else {
        return Ok(());
    };
    assert!(rt; *first == Span { at: 0, count: 3 });
    assert!(rt; second.count == 29);
    assert!(rt; third.count == 2);
    // 101; and 00000011 1111000 0100010 1111001; and 10; a 1 after each.
    let expected = [0xB0, 0x03, 0xF0, 0x8B, 0xCC, 0xA0];
    assert!(rt; defaults.octets == expected.as_slice());
    Ok(())
}

/// X.690 8.1, 8.2.2, 8.3, 8.14: an implicit tag, an element of its own tag, and one in an explicit tag.
#[test]
fn default_values_are_elements_of_der(rt: HostRuntime) -> Result<(), Fail> {
    let alloc = rt.alloc();
    let schema = Schema::parse(alloc, MODULE)?;
    let node = schema.node_named("Tagged").ok_or("no type")?;
    let encodings = DefaultEncodings::new(alloc, &schema, node, Rules::Der)?;
    let defaults = encodings.defaults();
    let expected = [
        0x87, 0x02, 0x01, 0x2C, 0x01, 0x01, 0xFF, 0xA8, 0x03, 0x0A, 0x01, 0xFF,
    ];
    assert!(rt; defaults.octets == expected.as_slice());
    let spans = defaults.spans.get(3..6).unwrap_or(&[]);
    let [first, second, third] = spans else {
        return Ok(());
    };
    assert!(rt; *first == Span { at: 0, count: 32 });
    assert!(rt; *second == Span { at: 32, count: 24 });
    assert!(rt; *third == Span { at: 56, count: 40 });
    Ok(())
}

/// X.690 8.9: the element of a SEQUENCE, whose first component has the tag 0 and no contents.
#[test]
fn a_default_value_of_a_sequence_is_an_element(rt: HostRuntime) -> Result<(), Fail> {
    let alloc = rt.alloc();
    let schema = Schema::parse(alloc, MODULE)?;
    let node = schema.node_named("Pair").ok_or("no type")?;
    let encodings = DefaultEncodings::new(alloc, &schema, node, Rules::Der)?;
    let expected = [0xA0, 0x05, 0x80, 0x00, 0x81, 0x01, 0x02];
    assert!(rt; encodings.defaults().octets == expected.as_slice());
    Ok(())
}

/// X.690 11.3.2: -1.5 of base 10, which X.680 21.6 takes a number with a fraction for.
#[test]
fn default_values_in_contents_are_encoded(rt: HostRuntime) -> Result<(), Fail> {
    let alloc = rt.alloc();
    let schema = Schema::parse(alloc, MODULE)?;
    let node = schema.node_named("Outer").ok_or("no type")?;
    let encodings = DefaultEncodings::new(alloc, &schema, node, Rules::Der)?;
    let expected = b"\xA0\x05\x80\x00\x81\x01\x02\x80\x08\x03-15.E-1";
    assert!(rt; encodings.defaults().octets == expected.as_slice());
    Ok(())
}

#[test]
fn another_default_value_is_an_error(rt: HostRuntime) -> Result<(), Fail> {
    let alloc = rt.alloc();
    let schema = Schema::parse(alloc, MODULE)?;
    let node = schema.node_named("Other").ok_or("no type")?;
    assert!(rt; DefaultEncodings::new(alloc, &schema, node, Rules::AlignedPer).is_err());
    Ok(())
}
