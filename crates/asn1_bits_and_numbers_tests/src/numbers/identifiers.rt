//! The functions of `Oid` and `ObjectIdentifier` on arcs.

use crate::numbers::contents;
use crate::numbers::spelled::{arcs, arcs_text};
use asn1_oid::{ObjectIdentifier, Oid, parse_arcs};
use asn1_test_rows::{RowError, optional, outcome, show_value, wrong};
use std::alloc::Global;
use std::borrow::CowSlice;
use std::collections::HashSet;
use std::convert::AsSlice;

/// Arcs that are borrowed for `'static`.
const LENT: &[u32] = &[1, 2, 840, 10040, 2, 1];

/// Answers the calls on identifiers: of borrowed arcs, of the arcs of a word, or of those of two
/// words.
pub fn answer(alloc: Global, owner: &str, name: &str, words: &[&str]) -> Result<String, RowError> {
    match words {
        [] => of_lent(alloc, name),
        [word] if name.starts_with("parse") => of_text(alloc, name, word),
        [word] => of_arcs(alloc, owner, name, arcs(alloc, word)?),
        [first, second] => of_words(alloc, owner, name, first, second),
        _ => Err(wrong(alloc, name, "function of identifiers")),
    }
}

/// Answers the calls on a dotted text; `''` is the empty one.
fn of_text(alloc: Global, name: &str, word: &str) -> Result<String, RowError> {
    let text = if word == "''" { "" } else { word };
    let mut room = [0; 3];
    match name {
        "parse_arcs" => optional(alloc, parse_arcs(text.as_bytes(), &mut room)),
        _ => outcome(alloc, ObjectIdentifier::parse(alloc, text)),
    }
}

/// Returns the arcs that a loop over the identifier visits.
fn arcs_by_loop(alloc: Global, identifier: &ObjectIdentifier) -> Result<String, RowError> {
    let mut owned = Vec::new(alloc);
    for arc in identifier {
        owned.push(*arc)?;
    }
    let mut lent = Vec::new(alloc);
    for arc in &identifier.as_oid() {
        lent.push(*arc)?;
    }
    if owned != lent || !has_arcs(identifier, &identifier.as_oid(), owned.as_slice()) {
        return show_value(alloc, "two lists");
    }
    arcs_text(alloc, owned.as_slice())
}

/// Returns whether generic code finds these arcs in both.
fn has_arcs<S: AsSlice<u32>, T: AsSlice<u32>>(first: &S, second: &T, arcs: &[u32]) -> bool {
    first.as_slice() == arcs && second.as_slice() == arcs
}

/// Answers the calls on arcs, and on their identifier.
fn of_arcs(alloc: Global, owner: &str, name: &str, arcs: Vec<u32>) -> Result<String, RowError> {
    match name {
        "new" => new_oid(alloc, arcs.as_slice()),
        "from_vec" => from_vec(alloc, arcs),
        _ => match ObjectIdentifier::from_vec(arcs) {
            Some(identifier) => of_one(alloc, owner, name, identifier),
            None => Err(wrong(alloc, name, "function of such arcs")),
        },
    }
}

fn of_words(
    alloc: Global,
    owner: &str,
    name: &str,
    first: &str,
    second: &str,
) -> Result<String, RowError> {
    let first = identifier(alloc, first)?;
    let second = identifier(alloc, second)?;
    of_two(alloc, owner, name, &first, &second)
}

/// Answers the calls on one identifier.
fn of_one(
    alloc: Global,
    owner: &str,
    name: &str,
    identifier: ObjectIdentifier,
) -> Result<String, RowError> {
    match name {
        "fmt" if owner == "Oid" => show_value(alloc, identifier.as_oid()),
        "fmt" => show_value(alloc, identifier),
        "to_owned" => to_owned(alloc, identifier.as_oid()),
        "into_iter" => arcs_by_loop(alloc, &identifier),
        "new_unchecked" => taken_out(alloc, identifier),
        "from_vec_of_reverse" => reverse_arcs(alloc, identifier),
        _ => contents::of_oid(alloc, name, identifier.as_oid()),
    }
}

/// Answers the calls on two identifiers, borrowed or owned.
fn of_two(
    alloc: Global,
    owner: &str,
    name: &str,
    first: &ObjectIdentifier,
    second: &ObjectIdentifier,
) -> Result<String, RowError> {
    match name {
        "eq_arcs" if owner == "Oid" => show_value(alloc, first.as_oid().eq_arcs(second.as_ref())),
        "eq_arcs" => show_value(alloc, first.eq_arcs(second.as_ref())),
        "as_oid" => show_value(alloc, Oid::new(first.as_ref()) == Some(second.as_oid())),
        "lt" if owner == "Oid" => show_value(alloc, first.as_oid() < second.as_oid()),
        "lt" => show_value(alloc, first < second),
        _ => Err(wrong(alloc, name, "function of two identifiers")),
    }
}

/// Answers the calls on `'static` arcs, and on their copy.
fn of_lent(alloc: Global, name: &str) -> Result<String, RowError> {
    let Some(lent) = ObjectIdentifier::new(CowSlice::Borrowed(LENT)) else {
        return Err(wrong(alloc, name, "function of valid arcs"));
    };
    let copy = ObjectIdentifier::from_oid(alloc, lent.as_oid())?;
    match name {
        "new" => arcs_text(alloc, lent.as_ref()),
        "from_oid" => arcs_text(alloc, copy.as_ref()),
        "eq" => show_value(alloc, lent == copy),
        "clone_of_borrowed" => is_copied(alloc, &lent, &copy),
        "clone_of_owned" => is_copied(alloc, &copy, &lent),
        "hash" => is_found(alloc, lent, &copy),
        _ => Err(wrong(alloc, name, "function of lent arcs")),
    }
}

/// Returns whether the copy of an identifier equals another identifier.
fn is_copied(
    alloc: Global,
    identifier: &ObjectIdentifier,
    other: &ObjectIdentifier,
) -> Result<String, RowError> {
    show_value(alloc, identifier.clone()? == *other)
}

/// Returns whether a set with one identifier has another.
fn is_found(
    alloc: Global,
    identifier: ObjectIdentifier,
    other: &ObjectIdentifier,
) -> Result<String, RowError> {
    let mut seen = HashSet::new(alloc);
    seen.insert(identifier)?;
    show_value(alloc, seen.contains(other))
}

/// Returns the identifier of arcs that a word encodes.
fn identifier(alloc: Global, word: &str) -> Result<ObjectIdentifier, RowError> {
    match ObjectIdentifier::from_vec(arcs(alloc, word)?) {
        Some(identifier) => Ok(identifier),
        None => Err(wrong(alloc, word, "identifier")),
    }
}

fn new_oid(alloc: Global, arcs: &[u32]) -> Result<String, RowError> {
    match Oid::new(arcs) {
        Some(oid) => arcs_text(alloc, oid.as_ref()),
        None => show_value(alloc, "none"),
    }
}

fn from_vec(alloc: Global, arcs: Vec<u32>) -> Result<String, RowError> {
    match ObjectIdentifier::from_vec(arcs) {
        Some(identifier) => arcs_text(alloc, identifier.as_ref()),
        None => show_value(alloc, "none"),
    }
}

/// Returns the text of the owned identifier.
fn to_owned(alloc: Global, oid: Oid<'_>) -> Result<String, RowError> {
    show_value(alloc, oid.to_owned(alloc)?)
}

/// Returns the arcs after they were taken out of an identifier and made an identifier again.
fn taken_out(alloc: Global, identifier: ObjectIdentifier) -> Result<String, RowError> {
    let again = ObjectIdentifier::new_unchecked(identifier.into_arcs());
    arcs_text(alloc, Oid::new_unchecked(again.as_ref()).as_ref())
}

/// Returns the identifier of the reversed arcs.
fn reverse_arcs(alloc: Global, identifier: ObjectIdentifier) -> Result<String, RowError> {
    let mut turned = identifier.into_arcs().into_owned(alloc)?;
    turned.reverse();
    from_vec(alloc, turned)
}
