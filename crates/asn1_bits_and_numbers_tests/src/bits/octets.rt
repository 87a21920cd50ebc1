//! Calls of octets that are borrowed or a copy.

use crate::bits::words::{octets_of, push_truth};
use asn1_bits::Octets;
use std::alloc::Global;

/// Appends the answer to a call.
pub fn answer(alloc: Global, text: &mut String, name: &str, words: &[&str]) -> Option<()> {
    match (name, words) {
        ("eq", [own, lent]) => eq(alloc, text, own, lent),
        _ => None,
    }
}

/// Appends whether a copy of the first octets equals the second octets, which are borrowed.
fn eq(alloc: Global, text: &mut String, own: &str, lent: &str) -> Option<()> {
    if let Some(lent) = octets_of(alloc, lent)
        && let Some(own) = octets_of(alloc, own)
    {
        let own = Octets::Owned(own);
        return push_truth(text, own == Octets::Borrowed(lent.as_slice()));
    }
    None
}
