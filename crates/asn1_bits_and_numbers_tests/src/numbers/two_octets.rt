//! All lists of one and two octets, compared with the rule of X.690 8.19.

use crate::numbers::contents::contents_of;
use asn1_oid::{ContentsError, ObjectIdentifier, Oid, check_contents};
use asn1_test_rows::{RowError, show_value};
use std::alloc::Global;

/// Returns how many lists agree with the rule: the octets themselves, and the octets followed by
/// each octet.
pub fn agree(alloc: Global, octets: &[u8]) -> Result<String, RowError> {
    let mut agreeing = u32::from(agrees(alloc, octets)?);
    let mut longer = octets.to_vec(alloc)?;
    longer.push(0)?;
    for last in 0..=255u8 {
        longer.pop();
        longer.push(last)?;
        agreeing = agreeing.saturating_add(u32::from(agrees(alloc, longer.as_slice())?));
    }
    show_value(alloc, agreeing)
}

/// Returns whether the octets are the encoding of the arcs that the rule has for them, and decoded
/// as these; or are rejected if the rule has none.
fn agrees(alloc: Global, octets: &[u8]) -> Result<bool, RowError> {
    match arcs_by_rule(alloc, octets)? {
        Some(arcs) => are_contents_of(alloc, octets, arcs.as_slice()),
        None => Ok(are_malformed(alloc, octets)),
    }
}

/// Returns the arcs of one or two octets, or `None` if these are no contents.
fn arcs_by_rule(alloc: Global, octets: &[u8]) -> Result<Option<Vec<u32>>, RowError> {
    let (first, further) = match octets {
        [first @ 0..=0x7F] => (u32::from(*first), None),
        [first @ 0..=0x7F, last @ 0..=0x7F] => (u32::from(*first), Some(u32::from(*last))),
        [first @ 0x81..=0xFF, last @ 0..=0x7F] => {
            (128 * u32::from(*first % 128) + u32::from(*last), None)
        }
        _ => return Ok(None),
    };
    let (x, y) = first_arcs(first);
    let mut arcs = [x, y].to_vec(alloc)?;
    if let Some(arc) = further {
        arcs.push(arc)?;
    }
    Ok(Some(arcs))
}

/// Returns the first two arcs of a subidentifier.
fn first_arcs(number: u32) -> (u32, u32) {
    match number {
        0..=39 => (0, number),
        40..=79 => (1, number - 40),
        _ => (2, number - 80),
    }
}

/// Returns whether the octets are the encoding of these arcs, and decoded as these.
fn are_contents_of(alloc: Global, octets: &[u8], arcs: &[u32]) -> Result<bool, RowError> {
    let Some(oid) = Oid::new(arcs) else {
        return Ok(false);
    };
    let Some(written) = contents_of(alloc, oid)? else {
        return Ok(false);
    };
    Ok(
        written.as_slice() == octets
            && check_contents(&octets).is_ok()
            && is_read_as(alloc, octets, arcs),
    )
}

/// Returns whether the octets are decoded as these arcs.
fn is_read_as(alloc: Global, octets: &[u8], arcs: &[u32]) -> bool {
    match ObjectIdentifier::from_contents(alloc, &octets) {
        Ok(read) => read.eq_arcs(arcs),
        Err(_) => false,
    }
}

/// Returns whether both calls that decode reject the octets as malformed.
fn are_malformed(alloc: Global, octets: &[u8]) -> bool {
    let malformed = Some(ContentsError::Malformed);
    let read = ObjectIdentifier::from_contents(alloc, &octets);
    check_contents(&octets).err() == malformed && read.err() == malformed
}
