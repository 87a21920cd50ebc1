//! The examples of `asn1_oid`.

use asn1_oid::{ObjectIdentifier, Oid};
use std::test::Fail;

/// The example of `ObjectIdentifier::from_contents`.
#[test]
fn object_identifier_from_contents_example(rt: HostRuntime) -> Result<(), Fail> {
    let contents: &[u8] = &[0x2A, 0x86, 0x48];
    let us = ObjectIdentifier::from_contents(rt.alloc(), &contents)?;
    assert!(rt; us.eq_arcs(&[1, 2, 840]));
    Ok(())
}

/// The example of `ObjectIdentifier::parse`.
#[test]
fn object_identifier_parse_example(rt: HostRuntime) -> Result<(), Fail> {
    let rsa = ObjectIdentifier::parse(rt.alloc(), "1.2.840.113549")?;
    assert!(rt; rsa.eq_arcs(&[1, 2, 840, 113549]));
    assert!(rt; ObjectIdentifier::parse(rt.alloc(), "3.1").is_err());
    Ok(())
}

/// The example of `OidContents::append_to`.
#[test]
fn oid_contents_append_to_example(rt: HostRuntime) -> Result<(), Fail> {
    let mut octets = Vec::new(rt.alloc());
    if let Some(contents) = Oid::new(&[1, 2, 840]).and_then(|it| it.contents()) {
        contents.append_to(&mut octets)?;
    }
    assert!(rt; octets.as_slice() == [0x2A, 0x86, 0x48].as_slice());
    Ok(())
}
