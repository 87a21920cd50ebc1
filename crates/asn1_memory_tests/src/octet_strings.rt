//! Octet strings.

use crate::failure::{met_before, settle};
use asn1_values::{FixedOctetString, OctetString};
use bytes::Bytes;
use std::alloc::Global;
use std::test::Fail;

/// Sixty-four octets.
const OCTETS: [u8; 64] = [0x5A; 64];

/// Returns whether the octets are the sixty-four.
fn is_whole(octets: &[u8]) -> bool {
    octets == OCTETS.as_slice()
}

#[test]
fn octet_string_from_slice(rt: HostRuntime) -> Result<(), Fail> {
    let (is_done, is_right) = match OctetString::from_slice(rt.alloc(), &OCTETS) {
        Ok(string) => (true, string.eq_bytes(&OCTETS)),
        Err(_) => (false, true),
    };
    settle(&rt, "OctetString::from_slice", is_done, is_right)
}

#[test]
fn octet_string_from_array(rt: HostRuntime) -> Result<(), Fail> {
    let (is_done, is_right) = match OctetString::from_array(rt.alloc(), OCTETS) {
        Ok(string) => (true, string.eq_bytes(&OCTETS)),
        Err(_) => (false, true),
    };
    settle(&rt, "OctetString::from_array", is_done, is_right)
}

#[test]
fn octet_string_from_vec(rt: HostRuntime) -> Result<(), Fail> {
    let Ok(octets) = Vec::from_slice(rt.alloc(), &OCTETS) else {
        return met_before(&rt, "OctetString::from_vec");
    };
    let (is_done, is_right) = match OctetString::from_vec(octets) {
        Ok(string) => (true, string.eq_bytes(&OCTETS)),
        Err(octets) => (false, is_whole(octets.as_slice())),
    };
    settle(&rt, "OctetString::from_vec", is_done, is_right)
}

/// Returns whether a clone has these octets.
fn is_cloned(string: &OctetString, octets: &[u8]) -> bool {
    match string.clone() {
        Ok(copy) => copy.eq_bytes(octets),
        Err(_) => false,
    }
}

/// Returns whether these octets are borrowed.
fn is_lent(string: &OctetString, alloc: Global, octets: &[u8]) -> bool {
    match string.to_bytes(alloc) {
        Ok(bytes) => bytes.as_slice() == octets,
        Err(_) => false,
    }
}

/// Returns whether a string was made of these octets.
fn is_taken(bytes: &Bytes, octets: &[u8]) -> bool {
    match OctetString::from_bytes_ref(bytes) {
        Ok(copy) => copy.eq_bytes(octets),
        Err(_) => false,
    }
}

#[test]
fn shared_octets_ask_for_nothing(rt: HostRuntime) -> Result<(), Fail> {
    let Ok(string) = OctetString::from_slice(rt.alloc(), &OCTETS) else {
        return met_before(&rt, "copies of shared octets");
    };
    let is_shared = is_cloned(&string, &OCTETS) && is_lent(&string, rt.alloc(), &OCTETS);
    let is_given = match string.into_bytes(rt.alloc()) {
        Ok(bytes) => is_whole(bytes.as_slice()) && is_taken(&bytes, &OCTETS),
        Err(_) => false,
    };
    assert!(rt; is_shared && is_given);
    Ok(())
}

#[test]
fn static_octets_ask_for_nothing(rt: HostRuntime) -> Result<(), Fail> {
    assert!(rt; OctetString::from_static(&OCTETS).eq_bytes(&OCTETS));
    Ok(())
}

#[test]
fn empty_octets_ask_for_nothing(rt: HostRuntime) -> Result<(), Fail> {
    let empty = OctetString::from_slice(rt.alloc(), &[])?;
    let is_shared = is_cloned(&empty, &[]) && is_lent(&empty, rt.alloc(), &[]);
    let is_given = match empty.into_bytes(rt.alloc()) {
        Ok(bytes) => OctetString::from_bytes(bytes).as_ref().is_empty(),
        Err(_) => false,
    };
    assert!(rt; is_shared && is_given);
    Ok(())
}

#[test]
fn octets_of_another_number_are_handed_back(rt: HostRuntime) -> Result<(), Fail> {
    let Ok(octets) = Vec::from_slice(rt.alloc(), &OCTETS) else {
        return met_before(&rt, "FixedOctetString::try_from_vec");
    };
    let Err(octets) = FixedOctetString::<63>::try_from_vec(octets) else {
        return Err("sixty-four octets".into());
    };
    let is_handed_back = is_whole(octets.as_slice());
    let is_taken = match FixedOctetString::<64>::try_from_vec(octets) {
        Ok(string) => string == FixedOctetString::new(OCTETS),
        Err(_) => false,
    };
    assert!(rt; is_handed_back && is_taken);
    Ok(())
}
