//! Object identifiers.

use crate::failure::{met_before, settle};
use asn1_values::{ContentsError, DottedTextError, ObjectIdentifier, Oid, check_contents};
use std::alloc::AllocError;
use std::borrow::CowSlice;
use std::test::Fail;

/// Arcs of an identifier.
const ARCS: [u32; 9] = [2, 16, 840, 1, 101, 3, 4, 2, 3];

/// Its contents.
const CONTENTS: [u8; 9] = [0x60, 0x86, 0x48, 0x01, 0x65, 0x03, 0x04, 0x02, 0x03];

/// The same after a tag and a length.
const ELEMENT: [u8; 11] = [
    0x06, 0x09, 0x60, 0x86, 0x48, 0x01, 0x65, 0x03, 0x04, 0x02, 0x03,
];

/// Its dotted text.
const TEXT: &str = "2.16.840.1.101.3.4.2.3";

/// Returns whether an identifier was made, and whether it has the arcs.
fn outcome_of(answer: Result<ObjectIdentifier, AllocError>) -> (bool, bool) {
    match answer {
        Ok(copy) => (true, copy.eq_arcs(&ARCS)),
        Err(_) => (false, true),
    }
}

#[test]
fn oid_to_owned(rt: HostRuntime) -> Result<(), Fail> {
    let oid = Oid::new(&ARCS).ok_or("valid")?;
    let (is_done, is_right) = outcome_of(oid.to_owned(rt.alloc()));
    settle(&rt, "Oid::to_owned", is_done, is_right)
}

#[test]
fn object_identifier_from_oid(rt: HostRuntime) -> Result<(), Fail> {
    let oid = Oid::new(&ARCS).ok_or("valid")?;
    let (is_done, is_right) = outcome_of(ObjectIdentifier::from_oid(rt.alloc(), oid));
    settle(&rt, "ObjectIdentifier::from_oid", is_done, is_right)
}

#[test]
fn object_identifier_clone(rt: HostRuntime) -> Result<(), Fail> {
    let oid = Oid::new(&ARCS).ok_or("valid")?;
    let Ok(owned) = oid.to_owned(rt.alloc()) else {
        return met_before(&rt, "ObjectIdentifier::clone");
    };
    let (is_done, is_right) = outcome_of(owned.clone());
    settle(
        &rt,
        "ObjectIdentifier::clone",
        is_done,
        is_right && owned.eq_arcs(&ARCS),
    )
}

#[test]
fn object_identifier_from_contents(rt: HostRuntime) -> Result<(), Fail> {
    let read = ObjectIdentifier::from_contents(rt.alloc(), &CONTENTS.as_slice());
    let (is_done, is_right) = match read {
        Ok(oid) => (true, oid.eq_arcs(&ARCS)),
        Err(error) => (false, error == ContentsError::Memory),
    };
    settle(&rt, "ObjectIdentifier::from_contents", is_done, is_right)
}

#[test]
fn object_identifier_parse(rt: HostRuntime) -> Result<(), Fail> {
    let (is_done, is_right) = match ObjectIdentifier::parse(rt.alloc(), TEXT) {
        Ok(oid) => (true, oid.eq_arcs(&ARCS)),
        Err(error) => (false, error == DottedTextError::Memory),
    };
    settle(&rt, "ObjectIdentifier::parse", is_done, is_right)
}

#[test]
fn oid_contents_append_to(rt: HostRuntime) -> Result<(), Fail> {
    let oid = Oid::new(&ARCS).ok_or("valid")?;
    let contents = oid.contents().ok_or("two arcs")?;
    let Ok(mut octets) = [0x06, 0x09].to_vec(rt.alloc()) else {
        return met_before(&rt, "OidContents::append_to");
    };
    let is_done = contents.append_to(&mut octets).is_ok();
    let wanted: &[u8] = if is_done { &ELEMENT } else { &[0x06, 0x09] };
    let is_right = octets.as_slice() == wanted;
    settle(&rt, "OidContents::append_to", is_done, is_right)
}

#[test]
fn wrong_contents_and_texts_keep_their_names(rt: HostRuntime) -> Result<(), Fail> {
    let malformed: &[u8] = &[0x2A, 0x80, 0x01];
    let refused = ObjectIdentifier::from_contents(rt.alloc(), &malformed).err();
    assert!(rt; refused == Some(ContentsError::Malformed));
    let large: &[u8] = &[0x2A, 0x90, 0x80, 0x80, 0x80, 0x00];
    let refused = ObjectIdentifier::from_contents(rt.alloc(), &large).err();
    assert!(rt; refused == Some(ContentsError::ArcTooLarge));
    let refused = ObjectIdentifier::parse(rt.alloc(), "1.2.").err();
    assert!(rt; refused == Some(DottedTextError::Malformed));
    Ok(())
}

#[test]
fn borrowed_arcs_are_cloned_without_memory(rt: HostRuntime) -> Result<(), Fail> {
    let lent = ObjectIdentifier::new(CowSlice::Borrowed(&[1, 2, 840])).ok_or("valid")?;
    let is_cloned = matches!(lent.clone(), Ok(copy) if copy.eq_arcs(&[1, 2, 840]));
    assert!(rt; is_cloned);
    Ok(())
}

#[test]
fn contents_ask_for_nothing(rt: HostRuntime) -> Result<(), Fail> {
    let oid = Oid::new(&ARCS).ok_or("valid")?;
    let octets = oid.contents().ok_or("two arcs")?;
    let is_right = check_contents(&CONTENTS.as_slice()) == Ok(()) && oid.contents_len() == Some(9);
    assert!(rt; is_right && octets.eq(CONTENTS));
    Ok(())
}
