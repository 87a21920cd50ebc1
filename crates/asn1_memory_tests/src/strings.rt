//! The eight restricted strings.

use crate::failure::{met, met_before, settle};
use asn1_values::{
    BitStr, BmpString, GeneralString, GraphicString, Ia5String, NumericString, OctetString,
    PermittedAlphabetError, PrintableString, StaticPermittedAlphabet, TeletexString, VisibleString,
    to_bitstring,
};
use std::alloc::Global;
use std::collections::BTreeMap;
use std::test::Fail;

/// The digit 2, forty-eight times: a character of each of the eight sets.
const TWOS: [u8; 48] = [0x32; 48];

/// The same as a text.
const TEXT: &str = "222222222222222222222222222222222222222222222222";

/// Returns whether the string is `count` times one character.
fn has<S: StaticPermittedAlphabet>(string: &S, count: usize, character: u32) -> bool {
    string.len() == count && string.chars().all(|c| c == character)
}

/// Checks that a call returned `count` times one character, or was out of memory.
fn gives<S: StaticPermittedAlphabet>(
    rt: &HostRuntime,
    call: &str,
    answer: Result<S, PermittedAlphabetError>,
    count: usize,
    character: u32,
) -> Result<(), Fail> {
    match answer {
        Ok(string) if has(&string, count, character) => Ok(()),
        Err(PermittedAlphabetError::Memory) => met(rt, call),
        _ => Err("another answer".into()),
    }
}

/// Calls `try_from_slice` without its contract, so that callers are quick to prove.
fn from_slice<S: StaticPermittedAlphabet>(
    alloc: Global,
    octets: &[u8],
) -> Result<S, PermittedAlphabetError> {
    S::try_from_slice(alloc, octets)
}

/// Calls `try_from_str` without its contract.
fn from_str<S: StaticPermittedAlphabet>(
    alloc: Global,
    text: &str,
) -> Result<S, PermittedAlphabetError> {
    S::try_from_str(alloc, text)
}

/// Returns a string of forty-eight twos, or `None` if out of memory.
fn twos<S: StaticPermittedAlphabet>(alloc: Global) -> Option<S> {
    from_slice(alloc, &TWOS).ok()
}

#[test]
fn bmp_string_try_from_slice(rt: HostRuntime) -> Result<(), Fail> {
    let read = from_slice::<BmpString>(rt.alloc(), &TWOS);
    gives(&rt, "BmpString::try_from_slice", read, 24, 0x3232)
}

#[test]
fn general_string_from_bytes(rt: HostRuntime) -> Result<(), Fail> {
    let read = GeneralString::from_bytes(rt.alloc(), &TWOS);
    gives(&rt, "GeneralString::from_bytes", read, 48, 0x32)
}

#[test]
fn graphic_string_try_from_slice(rt: HostRuntime) -> Result<(), Fail> {
    let read = from_slice::<GraphicString>(rt.alloc(), &TWOS);
    gives(&rt, "GraphicString::try_from_slice", read, 48, 0x32)
}

#[test]
fn ia5_string_from_iso646_bytes(rt: HostRuntime) -> Result<(), Fail> {
    let read = Ia5String::from_iso646_bytes(rt.alloc(), &TWOS);
    gives(&rt, "Ia5String::from_iso646_bytes", read, 48, 0x32)
}

#[test]
fn numeric_string_try_from_slice(rt: HostRuntime) -> Result<(), Fail> {
    let read = from_slice::<NumericString>(rt.alloc(), &TWOS);
    gives(&rt, "NumericString::try_from_slice", read, 48, 0x32)
}

#[test]
fn printable_string_try_from_str(rt: HostRuntime) -> Result<(), Fail> {
    let read = from_str::<PrintableString>(rt.alloc(), TEXT);
    gives(&rt, "PrintableString::try_from_str", read, 48, 0x32)
}

#[test]
fn teletex_string_try_from_slice(rt: HostRuntime) -> Result<(), Fail> {
    let read = from_slice::<TeletexString>(rt.alloc(), &TWOS);
    gives(&rt, "TeletexString::try_from_slice", read, 48, 0x32)
}

#[test]
fn visible_string_try_from_slice(rt: HostRuntime) -> Result<(), Fail> {
    let read = from_slice::<VisibleString>(rt.alloc(), &TWOS);
    gives(&rt, "VisibleString::try_from_slice", read, 48, 0x32)
}

#[test]
fn try_from_slice_with_width(rt: HostRuntime) -> Result<(), Fail> {
    let pairs = [0x00, 0x32, 0x00, 0x32, 0x00, 0x32, 0x00, 0x32];
    let read = VisibleString::try_from_slice_with_width(rt.alloc(), &pairs, 2);
    gives(&rt, "try_from_slice_with_width 2", read, 4, 0x32)?;
    let fours = [0x00, 0x00, 0x00, 0x32, 0x00, 0x00, 0x00, 0x32];
    let read = BmpString::try_from_slice_with_width(rt.alloc(), &fours, 4);
    gives(&rt, "try_from_slice_with_width 4", read, 2, 0x32)
}

#[test]
fn try_from_vec(rt: HostRuntime) -> Result<(), Fail> {
    let Ok(octets) = Vec::from_slice(rt.alloc(), &TWOS) else {
        return met_before(&rt, "try_from_vec");
    };
    let read = Ia5String::try_from_vec(rt.alloc(), octets);
    gives(&rt, "Ia5String::try_from_vec", read, 48, 0x32)
}

#[test]
fn try_from_string(rt: HostRuntime) -> Result<(), Fail> {
    let Ok(text) = String::from_str(rt.alloc(), TEXT) else {
        return met_before(&rt, "try_from_string");
    };
    let read = VisibleString::try_from_string(rt.alloc(), text);
    gives(&rt, "VisibleString::try_from_string", read, 48, 0x32)
}

#[test]
fn try_from_octet_string(rt: HostRuntime) -> Result<(), Fail> {
    let octets = OctetString::from_static(&TWOS);
    let read = PrintableString::try_from_octet_string(rt.alloc(), octets);
    gives(
        &rt,
        "PrintableString::try_from_octet_string",
        read,
        48,
        0x32,
    )
}

#[test]
fn try_from_bits(rt: HostRuntime) -> Result<(), Fail> {
    let read = Ia5String::try_from_bits(rt.alloc(), BitStr::from_octets(&TWOS), 8);
    gives(&rt, "Ia5String::try_from_bits", read, 48, 0x32)
}

#[test]
fn try_from_bit_string(rt: HostRuntime) -> Result<(), Fail> {
    // Index 3 of the base set, which begins with a space, is the digit 2.
    let Ok(bits) = to_bitstring(rt.alloc(), BitStr::from_octets(&[0x33; 24])) else {
        return met_before(&rt, "try_from_bit_string");
    };
    let read = NumericString::try_from_bit_string(rt.alloc(), bits);
    gives(&rt, "NumericString::try_from_bit_string", read, 48, 0x32)
}

#[test]
fn try_from_permitted_alphabet(rt: HostRuntime) -> Result<(), Fail> {
    let mut map: BTreeMap<u32, u32> = BTreeMap::new(rt.alloc());
    if map.insert(0, 0x31).is_err() || map.insert(1, 0x32).is_err() {
        return met_before(&rt, "try_from_permitted_alphabet");
    }
    let ones = BitStr::from_octets(&[0xFF; 6]);
    let read = NumericString::try_from_permitted_alphabet(rt.alloc(), ones, Some(&map));
    gives(
        &rt,
        "NumericString::try_from_permitted_alphabet",
        read,
        48,
        0x32,
    )
}

#[test]
fn push_char(rt: HostRuntime) -> Result<(), Fail> {
    let mut string = PrintableString::new(rt.alloc());
    if !PrintableString::contains_char(0x32) {
        return Err("a digit".into());
    }
    let is_done = string.push_char(0x32).is_ok();
    let is_right = has(&string, usize::from(is_done), 0x32);
    settle(&rt, "PrintableString::push_char", is_done, is_right)
}

#[test]
fn reserve(rt: HostRuntime) -> Result<(), Fail> {
    let Some(mut string) = twos::<VisibleString>(rt.alloc()) else {
        return met_before(&rt, "reserve");
    };
    let is_done = string.reserve(1000).is_ok();
    settle(
        &rt,
        "VisibleString::reserve",
        is_done,
        has(&string, 48, 0x32),
    )
}

#[test]
fn clone(rt: HostRuntime) -> Result<(), Fail> {
    let Some(string) = twos::<GraphicString>(rt.alloc()) else {
        return met_before(&rt, "clone");
    };
    let (is_done, is_right) = match string.clone() {
        Ok(copy) => (true, copy == string),
        Err(_) => (false, true),
    };
    settle(
        &rt,
        "GraphicString::clone",
        is_done,
        is_right && has(&string, 48, 0x32),
    )
}

#[test]
fn bmp_string_to_bytes(rt: HostRuntime) -> Result<(), Fail> {
    let Some(string) = twos::<BmpString>(rt.alloc()) else {
        return met_before(&rt, "BmpString::to_bytes");
    };
    let (is_done, is_right) = match string.to_bytes() {
        Ok(octets) => (true, octets.as_slice() == TWOS.as_slice()),
        Err(_) => (false, true),
    };
    settle(
        &rt,
        "BmpString::to_bytes",
        is_done,
        is_right && has(&string, 24, 0x3232),
    )
}

#[test]
fn teletex_string_to_bytes(rt: HostRuntime) -> Result<(), Fail> {
    let Some(string) = twos::<TeletexString>(rt.alloc()) else {
        return met_before(&rt, "TeletexString::to_bytes");
    };
    let (is_done, is_right) = match string.to_bytes() {
        Ok(octets) => (true, octets.as_slice() == TWOS.as_slice()),
        Err(_) => (false, true),
    };
    settle(
        &rt,
        "TeletexString::to_bytes",
        is_done,
        is_right && has(&string, 48, 0x32),
    )
}

#[test]
fn into_octet_string(rt: HostRuntime) -> Result<(), Fail> {
    let Some(string) = twos::<Ia5String>(rt.alloc()) else {
        return met_before(&rt, "into_octet_string");
    };
    let (is_done, is_right) = match string.into_octet_string() {
        Ok(octets) => (true, octets.eq_bytes(&TWOS)),
        Err(string) => (false, has(&string, 48, 0x32)),
    };
    settle(&rt, "Ia5String::into_octet_string", is_done, is_right)
}

#[test]
fn into_string_asks_for_nothing(rt: HostRuntime) -> Result<(), Fail> {
    let Some(string) = twos::<VisibleString>(rt.alloc()) else {
        return met_before(&rt, "into_string");
    };
    assert!(rt; string.into_string().as_str() == TEXT);
    Ok(())
}

#[test]
fn an_empty_string_is_cloned_without_memory(rt: HostRuntime) -> Result<(), Fail> {
    let empty = from_slice::<Ia5String>(rt.alloc(), &[])?;
    let is_cloned = match empty.clone() {
        Ok(copy) => copy.len() == 0,
        Err(_) => false,
    };
    assert!(rt; is_cloned);
    Ok(())
}

#[test]
fn an_empty_string_is_spelled_without_memory(rt: HostRuntime) -> Result<(), Fail> {
    let text = from_str::<BmpString>(rt.alloc(), "")?;
    let is_spelled = match text.to_bytes() {
        Ok(octets) => octets.len() == 0,
        Err(_) => false,
    };
    assert!(rt; is_spelled);
    Ok(())
}

#[test]
fn an_empty_string_is_read_from_an_octet_string_without_memory(
    rt: HostRuntime,
) -> Result<(), Fail> {
    let octets = OctetString::from_static(&[]);
    let is_read = match VisibleString::try_from_octet_string(rt.alloc(), octets) {
        Ok(string) => string.len() == 0,
        Err(_) => false,
    };
    assert!(rt; is_read);
    Ok(())
}

#[test]
fn a_wrong_character_keeps_its_name(rt: HostRuntime) -> Result<(), Fail> {
    let refused = from_str::<PrintableString>(rt.alloc(), "ab@c#").err();
    let at = PermittedAlphabetError::InvalidRestrictedString {
        source: PrintableString::invalid_restricted_string(64),
    };
    assert!(rt; refused == Some(at));
    Ok(())
}

#[test]
fn half_a_character_keeps_its_name(rt: HostRuntime) -> Result<(), Fail> {
    let refused = from_slice::<BmpString>(rt.alloc(), &[0xFF, 0xFE, 0x00]).err();
    let data = PermittedAlphabetError::InvalidData {
        length: 3,
        width: 2,
    };
    assert!(rt; refused == Some(data));
    Ok(())
}

#[test]
fn a_wrong_width_keeps_its_name(rt: HostRuntime) -> Result<(), Fail> {
    let refused = Ia5String::try_from_slice_with_width(rt.alloc(), &TWOS, 0).err();
    assert!(rt; matches!(refused, Some(PermittedAlphabetError::Other { .. })));
    Ok(())
}
