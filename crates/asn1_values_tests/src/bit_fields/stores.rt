//! What fields and shapes borrow.

use crate::bit_fields::words::octets_of;
use std::alloc::Global;

/// The octets and the set of characters that a word encodes.
#[derive(Drop)]
pub struct Store {
    pub octets: Vec<u8>,
    pub set: Vec<u32>,
}

/// Returns what each of the words encodes.
pub fn stores_of(alloc: Global, words: &[&str]) -> Option<Vec<Store>> {
    let mut stores = Vec::new(alloc);
    for word in words {
        stores.push(store_of(alloc, word)?).ok()?;
    }
    Some(stores)
}

/// Returns what a word encodes: the octets after `o=` or `b=`, the set of an alphabet after `a`.
fn store_of(alloc: Global, word: &str) -> Option<Store> {
    if let Some(set) = set_of(alloc, word)
        && let Some(octets) = octets_in(alloc, word)
    {
        return Some(Store { octets, set });
    }
    None
}

/// Returns the octets of a word for octets or bits, and none for another word.
fn octets_in(alloc: Global, word: &str) -> Option<Vec<u8>> {
    match word.split_once('=') {
        Some(("o" | "b", value)) => {
            let (digits, _) = value.split_once(':').unwrap_or((value, ""));
            octets_of(alloc, digits)
        }
        _ => Some(Vec::new(alloc)),
    }
}

/// Returns the set of a word for a character, such as `aIa5/97,98` or `aBmp/256-320`, and none for
/// another word.
fn set_of(alloc: Global, word: &str) -> Option<Vec<u32>> {
    let (shape, _) = word.split_once('=').unwrap_or((word, ""));
    match shape.split_once('/') {
        Some((_, "all" | "none")) | None => Some(Vec::new(alloc)),
        Some((_, set)) => characters(alloc, set),
    }
}

/// Returns the characters of a set: a range, which may descend, or a list.
fn characters(alloc: Global, set: &str) -> Option<Vec<u32>> {
    match set.split_once('-') {
        Some((first, last)) => range(alloc, first.parse().ok()?, last.parse().ok()?),
        None => list(alloc, set),
    }
}

fn list(alloc: Global, set: &str) -> Option<Vec<u32>> {
    let mut characters = Vec::new(alloc);
    for character in set.split(',') {
        characters.push(character.parse::<u32>().ok()?).ok()?;
    }
    Some(characters)
}

fn range(alloc: Global, first: u32, last: u32) -> Option<Vec<u32>> {
    let mut characters = Vec::new(alloc);
    for away in 0..first.abs_diff(last).checked_add(1)? {
        let character = if first < last {
            first.checked_add(away)?
        } else {
            first.checked_sub(away)?
        };
        characters.push(character).ok()?;
    }
    Some(characters)
}
